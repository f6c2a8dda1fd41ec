//! A row over the store of the tests.

ghost use Rattle.std.specs.Prelude.{◌≡◌, ◌<◌, length};
ghost use Rattle.qs_expr.specs.inner.Cell.{FitsRow};
ghost use Rattle.qs_expr.specs.inner.Scratch.{Grows, IsTable};

use crate::expressions::{Operand, term};
use qs_expr::{Row, Scratch, intern, laws};
use qs_store::View;
use qs_terms::{Term, TermFault};
use std::alloc::Global;

/// How many variables the row has. The last one is unbound.
pub const WIDTH: usize = 7;

/// What the other variables are bound to: two IRIs and two integers of the store, and an IRI and an ill-formed integer that it lacks.
const BOUND: &[(usize, Operand)] = &[
    (0, Operand::Iri("e:a")),
    (1, Operand::Iri("e:b")),
    (2, Operand::Integer("01")),
    (3, Operand::Integer("2")),
    (4, Operand::Iri("e:none")),
    (5, Operand::Integer("abc")),
];

fn bind_term<V: View>(
    row: &mut Row,
    variable: usize,
    term: &Term,
    view: &V,
    scratch: &mut Scratch,
) -> Result<(), TermFault>
    requires table { IsTable (V.content view.now).known scratch.old }
    requires fits { FitsRow (V.content view.now).known scratch.old row.old }
    ensures grows { Grows (V.content view.now).known scratch.old scratch.new }
    ensures fits { FitsRow (V.content view.now).known scratch.new row.new }
{
    laws::rows_keep_their_solutions();
    let cell = intern(term, view, scratch)?;
    if variable < row.width() {
        row.bind(variable, cell);
    }
    Ok(())
}

fn bind<V: View>(
    alloc: Global,
    row: &mut Row,
    variable: usize,
    operand: Operand,
    view: &V,
    scratch: &mut Scratch,
) -> Result<(), TermFault>
    requires table { IsTable (V.content view.now).known scratch.old }
    requires fits { FitsRow (V.content view.now).known scratch.old row.old }
    ensures grows { IsTable (V.content view.now).known scratch.new }
    ensures fits { FitsRow (V.content view.now).known scratch.new row.new }
{
    match term(alloc, operand) {
        Ok(term) => bind_term(row, variable, &term, view, scratch),
        Err(fault) => Err(fault),
    }
}

/// Binds the variables of a row.
pub fn bind_all<V: View>(
    alloc: Global,
    row: &mut Row,
    view: &V,
    scratch: &mut Scratch,
) -> Result<(), TermFault>
    requires table { IsTable (V.content view.now).known scratch.old }
    requires fits { FitsRow (V.content view.now).known scratch.old row.old }
    ensures table { IsTable (V.content view.now).known scratch.new }
    ensures fits { FitsRow (V.content view.now).known scratch.new row.new }
{
    for (variable, operand) in BOUND {
        bind(alloc, row, *variable, *operand, view, scratch)?;
    }
    Ok(())
}
