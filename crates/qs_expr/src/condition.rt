//! Conditions that are prepared once and asked of many rows.

ghost use Rattle.std.specs.Prelude.{◌≡◌, true, IfOk, OnErr};
ghost use Rattle.qs_expr_meaning.specs.inner.Makes.{makes};
ghost use Rattle.qs_expr.specs.inner.Cell.{row_solution, FitsRow};
ghost use Rattle.qs_expr.specs.inner.Evaluated.{holds_at};
ghost use Rattle.qs_expr.specs.inner.Condition.{AreNumbersOf, IsPreparedFor};
ghost use Rattle.qs_expr.specs.inner.Scratch.{IsTable};
ghost use Rattle.qs_expr.specs.inner.Parts.{all_hold, numbers_of, some_make};

use crate::part::Part;
use crate::parts::put_parts;
use crate::row::Row;
use crate::scratch::Scratch;
use qs_expr_meaning::Expr;
use qs_store::View;
use std::alloc::{AllocError, Global};
use std::marker::Model;

/// A condition prepared over a view: its IRIs' numbers are looked up and its constants are read once. (`eval` and `holds` take any
/// expression, and look nothing up beforehand.) A conjunction is a list of parts, since an error and false are alike for a condition.
#[derive(Drop)]
pub struct Condition<'e> {
    expr: &'e Expr,
    parts: Vec<Part<'e>>,
}

impl<'e> Model for Condition<'e> {
    ghost use Rattle.qs_expr_meaning.specs.contracts.expr.Expr as expr_type;
    ghost use Rattle.std.specs.Coded.{codes};
    ghost use Rattle.qs_expr.specs.inner.Condition.{Prepared};

    ghost Value = { Prepared };

    ghost coded = { Prim.hlevel (codes, expr_type.the_row.coded) };

    ghost use Rattle.qs_expr.specs.inner.Parts.{numbers_of, ArePartsOf};

    ghost view = { λ c. record { expr = c.expr.now; numbers = numbers_of c.parts.items } };

    ghost invariant = { λ c. ArePartsOf c.parts.items c.expr.now };
}

// Whether all parts are true of the row.
#[tactic(auto, using(crate::proofs::Taken::parts_more, crate::proofs::Taken::parts_fail, crate::proofs::Taken::parts_take))]
fn all_hold<V: View>(
    alloc: Global,
    parts: &[Part<'_>],
    row: &Row,
    view: &V,
    scratch: &Scratch,
) -> Result<bool, AllocError>
    requires numbers { AreNumbersOf (V.content view.now).known (numbers_of parts.now) }
    requires table { IsTable (V.content view.now).known scratch.now }
    requires row { FitsRow (V.content view.now).known scratch.now row.now }
    ensures value { IfOk result
        (λ b. b ≡ all_hold (row_solution (V.content view.now).known scratch.now row.now)
        parts.now) }
    ensures memory { OnErr result (some_make parts.now ≡ true) }
{
    for part in parts {
        if !part.holds(alloc, row, view, scratch)? {
            return Ok(false);
        }
    }
    Ok(true)
}

impl<'e> Condition<'e> {
    /// The condition, prepared over the view.
    ///
    /// # Errors
    /// Out of memory.
    pub fn new<V: View>(
        alloc: Global,
        expr: &'e Expr,
        view: &V,
    ) -> Result<Condition<'e>, AllocError>
        ensures expr { IfOk result (λ c. c.expr ≡ expr.now) }
        ensures prepared { IfOk result (λ c. IsPreparedFor (V.content view.now).known c) }
    {
        let mut parts = Vec::new(alloc);
        put_parts(alloc, expr, view, &mut parts)?;
        Ok(Condition { expr, parts })
    }

    /// Whether the condition is true of the row; an error isn't true (SPARQL 1.1 Query, 17.2 and 18.5, Filter). The view may be any with
    /// the known terms that it was prepared over.
    ///
    /// # Errors
    /// Out of memory, which is taken by CONCAT alone.
    pub fn holds<V: View>(
        &self,
        alloc: Global,
        row: &Row,
        view: &V,
        scratch: &Scratch,
    ) -> Result<bool, AllocError>
        requires prepared { IsPreparedFor (V.content view.now).known self.now }
        requires table { IsTable (V.content view.now).known scratch.now }
        requires row { FitsRow (V.content view.now).known scratch.now row.now }
        ensures value { IfOk result
            (λ b. b ≡ holds_at (V.content view.now).known scratch.now row.now self.now.expr) }
        ensures memory { OnErr result (makes self.now.expr ≡ true) }
    {
        all_hold(alloc, self.parts.as_slice(), row, view, scratch)
    }
}
