//! What rows denote.

ghost use Rattle.qs_expr.specs.inner.Cell.{FitsCell, FitsRow};

use qs_expr::{Cell, Row};
use qs_ops::Op;
use qs_store::Store;
use qs_terms::Term;

/// Whether the cell denotes the IRI or the literal of this text.
pub fn denotes(op: &Op<'_, Store>, cell: Cell, text: &str) -> bool
    requires { FitsCell op.now.known op.now.table cell }
{
    match op.term(cell) {
        Term::Iri(iri) => iri.text() == text,
        Term::Literal(literal) => literal.form() == text,
        Term::Blank(_) => false,
    }
}

/// Whether the variable is bound to the IRI or the literal of this text, or isn't bound where the text is empty.
pub fn binds(op: &Op<'_, Store>, row: &Row, variable: usize, text: &str) -> bool
    requires { FitsRow op.now.known op.now.table row.now }
{
    match row.cell(variable) {
        Some(cell) => denotes(op, cell, text),
        None => text.is_empty(),
    }
}
