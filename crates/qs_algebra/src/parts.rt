//! The parts of a group that isn't closed yet.

use qs_algebra_patterns::Step;
use qs_expr_meaning::Expr;
use sqlite_items::Items;

/// The steps of a group, and its filters apart, since they apply to the whole group, or to an optional one as the condition.
#[derive(Drop)]
pub struct GroupParts {
    pub steps: Items<Step>,
    pub conditions: Items<Expr>,
}
