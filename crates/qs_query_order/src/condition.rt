//! What ORDER BY asks for.

use qs_expr_meaning::Expr;
use qs_syntax_tree::query::Direction;

/// A condition of ORDER BY: solutions are sorted by what the expression means in them (SPARQL 1.1 Query, 15.1).
#[derive(Drop)]
pub struct OrderCondition {
    pub direction: Direction,
    pub key: Expr,
}
