//! Conditions over the row, by the tables of SPARQL 1.1 Query, 17.2 to 17.4.

ghost use Rattle.qs_expr.specs.inner.Cell.{FitsRow};
ghost use Rattle.qs_expr.specs.inner.Scratch.{IsTable};

use crate::expressions::{Asked, Operand, condition, conjunction};
use qs_base::drop_value;
use qs_expr::{Condition, Row, Scratch, holds};
use qs_expr_meaning::{Comparison, Expr};
use qs_store::View;
use qs_terms::TermFault;
use std::alloc::Global;

const A: Operand = Operand::Variable(0);

const ONE_AGAIN: Operand = Operand::Variable(2);

const TWO: Operand = Operand::Variable(3);

const NEW: Operand = Operand::Variable(4);

const ILL_FORMED: Operand = Operand::Variable(5);

const UNBOUND: Operand = Operand::Variable(6);

const EQUAL: Asked = Asked::Compare(Comparison::Equal);

const UNLIKE: Asked = Asked::Compare(Comparison::NotEqual);

const LESS: Asked = Asked::Compare(Comparison::Less);

const GREATER: Asked = Asked::Compare(Comparison::Greater);

const SAME: Asked = Asked::SameTerm;

/// Conditions, each with whether it is true of the row.
const CASES: &[(Asked, Operand, Operand, bool)] = &[
    // IRIs: known, of the scratch table, and unbound
    (EQUAL, A, Operand::Iri("e:a"), true),
    (EQUAL, Operand::Iri("e:b"), A, false),
    (UNLIKE, A, Operand::Iri("e:b"), true),
    (UNLIKE, Operand::Iri("e:a"), A, false),
    (EQUAL, NEW, Operand::Iri("e:none"), true),
    (EQUAL, NEW, Operand::Iri("e:other"), false),
    (UNLIKE, A, Operand::Iri("e:other"), true),
    (UNLIKE, UNBOUND, Operand::Iri("e:b"), false),
    (EQUAL, UNBOUND, Operand::Iri("e:b"), false),
    // an IRI and a literal are neither the same nor in error
    (EQUAL, A, Operand::Integer("1"), false),
    (UNLIKE, A, Operand::Integer("1"), true),
    (UNLIKE, TWO, Operand::Iri("e:b"), true),
    // integers by value, and as terms
    (EQUAL, ONE_AGAIN, Operand::Integer("1"), true),
    (UNLIKE, ONE_AGAIN, Operand::Integer("1"), false),
    (SAME, ONE_AGAIN, Operand::Integer("1"), false),
    (SAME, Operand::Integer("01"), ONE_AGAIN, true),
    (LESS, TWO, Operand::Integer("10"), true),
    (LESS, Operand::Integer("10"), TWO, false),
    (GREATER, Operand::Integer("10"), TWO, true),
    (GREATER, A, Operand::Integer("1"), false),
    // two variables
    (LESS, ONE_AGAIN, TWO, true),
    (EQUAL, ONE_AGAIN, TWO, false),
    (UNLIKE, ONE_AGAIN, TWO, true),
    (SAME, TWO, TWO, true),
    (SAME, A, NEW, false),
    (EQUAL, NEW, NEW, true),
    (EQUAL, UNBOUND, UNBOUND, false),
    (SAME, UNBOUND, A, false),
    // an ill-formed integer equals itself, and is neither equal nor unequal to another literal
    (EQUAL, ILL_FORMED, ILL_FORMED, true),
    (UNLIKE, ILL_FORMED, ILL_FORMED, false),
    (EQUAL, ILL_FORMED, TWO, false),
    (UNLIKE, ILL_FORMED, TWO, false),
    (UNLIKE, ILL_FORMED, Operand::Integer("2"), false),
];

/// Whether the condition is as true of the row as is due, prepared and as it stands.
fn is_told<V: View>(
    alloc: Global,
    expr: &Expr,
    due: bool,
    row: &Row,
    view: &V,
    scratch: &Scratch,
) -> Result<bool, TermFault>
    requires table { IsTable (V.content view.now).known scratch.now }
    requires fits { FitsRow (V.content view.now).known scratch.now row.now }
{
    let condition = Condition::new(alloc, expr, view)?;
    let prepared = condition.holds(alloc, row, view, scratch)?;
    let plain = holds(alloc, expr, row, view, scratch)?;
    Ok(prepared == due && plain == due)
}

fn is_right<V: View>(
    alloc: Global,
    expr: Result<Expr, TermFault>,
    due: bool,
    row: &Row,
    view: &V,
    scratch: &Scratch,
) -> Result<bool, TermFault>
    requires table { IsTable (V.content view.now).known scratch.now }
    requires fits { FitsRow (V.content view.now).known scratch.now row.now }
{
    match expr {
        Ok(expr) => {
            let is_told = is_told(alloc, &expr, due, row, view, scratch);
            drop_value(expr);
            is_told
        }
        Err(fault) => Err(fault),
    }
}

/// Whether a conjunction is true where both operands are, and false beside an error.
fn are_conjunctions_right<V: View>(
    alloc: Global,
    row: &Row,
    view: &V,
    scratch: &Scratch,
) -> Result<bool, TermFault>
    requires table { IsTable (V.content view.now).known scratch.now }
    requires fits { FitsRow (V.content view.now).known scratch.now row.now }
{
    let above = condition(alloc, GREATER, TWO, Operand::Integer("1"));
    let below = condition(alloc, LESS, TWO, Operand::Integer("5"));
    let both = conjunction(alloc, above, below);
    if !is_right(alloc, both, true, row, view, scratch)? {
        return Ok(false);
    }
    let above = condition(alloc, GREATER, TWO, Operand::Integer("1"));
    let errs = condition(alloc, LESS, UNBOUND, Operand::Integer("5"));
    let nested = conjunction(alloc, conjunction(alloc, above, errs), Ok(Expr::Bound(0)));
    is_right(alloc, nested, false, row, view, scratch)
}

/// Whether each condition is as true of the row as is due.
pub fn are_right<V: View>(
    alloc: Global,
    row: &Row,
    view: &V,
    scratch: &Scratch,
) -> Result<bool, TermFault>
    requires table { IsTable (V.content view.now).known scratch.now }
    requires fits { FitsRow (V.content view.now).known scratch.now row.now }
{
    for (asked, a, b, due) in CASES {
        let expr = condition(alloc, *asked, *a, *b);
        if !is_right(alloc, expr, *due, row, view, scratch)? {
            return Ok(false);
        }
    }
    are_conjunctions_right(alloc, row, view, scratch)
}
