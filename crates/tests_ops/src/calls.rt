//! Each call on an evaluation, once.

ghost use Rattle.qs_expr.specs.inner.Cell.{FitsRow};

use crate::plans::plan_of;
use crate::rows::{binds, denotes};
use qs_expr::Row;
use qs_expr_meaning::Expr;
use qs_ops::Op;
use qs_plan::{Plan, drop_plan};
use qs_store::{Active, Store, View};
use qs_terms::{QFault, Term};
use std::alloc::Global;

/// `e:a` with `e:b` by `e:p`, which it has by `e:q` too, and `e:c` with `e:d`, which it has by `e:p` alone.
const JOINED: &str =
    "SELECT * { ?x <e:p> ?y OPTIONAL { ?x <e:q> ?v } BIND(concat(str(?y), '!') AS ?n) }";

/// Each row of three patterns that share nothing: twenty-seven.
const FREE: &str = "SELECT * { ?a ?p ?b . ?c ?q ?d . ?e ?r ?f }";

const NAMED: &str = "SELECT * { ?x <e:p> ?y }";

/// Which of the two rows it is, if it is one of them: x, y, v, n.
fn which(op: &Op<'_, Store>, row: &Row) -> Option<usize>
    requires { FitsRow op.now.known op.now.table row.now }
{
    if binds(op, row, 0, "e:a")
        && binds(op, row, 1, "e:b")
        && binds(op, row, 2, "e:b")
        && binds(op, row, 3, "e:b!")
    {
        return Some(1);
    }
    if binds(op, row, 0, "e:c")
        && binds(op, row, 1, "e:d")
        && binds(op, row, 2, "")
        && binds(op, row, 3, "e:d!")
    {
        return Some(2);
    }
    None
}

/// Whether the rows are the two that are due, each once.
fn are_due(op: &mut Op<'_, Store>) -> Result<bool, QFault> {
    let mut has_first = false;
    let mut has_second = false;
    for _ in 0..3 {
        let Some(row) = op.next()? else {
            return Ok(has_first && has_second);
        };
        match which(op, &row) {
            Some(1) if !has_first => has_first = true,
            Some(2) if !has_second => has_second = true,
            _ => return Ok(false),
        }
        op.give_back(row);
    }
    Ok(false)
}

/// Whether the value of the first variable at the next row is its term there.
fn evaluates(alloc: Global, plan: &Plan, store: &Store) -> Result<bool, QFault> {
    let mut op = Op::start(alloc, plan, store)?;
    let Some(row) = op.next()? else {
        return Ok(false);
    };
    let is_first = binds(&op, &row, 0, "e:a");
    let text = if is_first { "e:a" } else { "e:c" };
    let is_right = match op.eval(&Expr::Variable(0), &row) {
        Ok(cell) => denotes(&op, cell, text),
        Err(_) => false,
    };
    op.end();
    Ok(is_right)
}

/// Whether a variable that no row binds has no value.
fn errs(alloc: Global, plan: &Plan, store: &Store) -> Result<bool, QFault> {
    let mut op = Op::start(alloc, plan, store)?;
    let Some(row) = op.next()? else {
        return Ok(false);
    };
    let errs = op.eval(&Expr::Variable(9), &row).is_err();
    op.end();
    Ok(errs)
}

/// Whether a term that an expression made stays in the scratch table.
fn keeps(alloc: Global, plan: &Plan, store: &Store) -> Result<bool, QFault> {
    let mut op = Op::start(alloc, plan, store)?;
    let Some(row) = op.next()? else {
        return Ok(false);
    };
    let Some(cell) = row.cell(3) else {
        return Ok(false);
    };
    let scratch = op.into_scratch();
    let is_right = match qs_expr::term(cell, store, &scratch) {
        Term::Literal(literal) => literal.form() == "e:b!" || literal.form() == "e:d!",
        _ => false,
    };
    drop(scratch);
    Ok(is_right)
}

/// Whether the rows are due, and there is none after the last, however often it is asked.
fn are_all(alloc: Global, plan: &Plan, store: &Store) -> Result<bool, QFault> {
    let mut op = Op::start(alloc, plan, store)?;
    let are_due = are_due(&mut op)?;
    let is_over = op.next()?.is_none();
    op.end();
    Ok(are_due && is_over)
}

fn is_joined(alloc: Global, store: &Store) -> Result<bool, QFault> {
    let plan = plan_of(alloc, JOINED)?;
    let are_all = are_all(alloc, &plan, store);
    let evaluates = evaluates(alloc, &plan, store);
    let errs = errs(alloc, &plan, store);
    let keeps = keeps(alloc, &plan, store);
    drop_plan(plan);
    Ok(are_all == Ok(true) && evaluates == Ok(true) && errs == Ok(true) && keeps == Ok(true))
}

/// How many solutions there are, up to a hundred.
fn count_of(alloc: Global, plan: &Plan, store: &Store, active: Active) -> Result<usize, QFault> {
    let mut op = Op::start_in(alloc, plan, store, active)?;
    for count in 0..100 {
        let Some(row) = op.next()? else {
            return Ok(count);
        };
        op.give_back(row);
    }
    Ok(100)
}

fn is_counted(alloc: Global, store: &Store) -> Result<bool, QFault> {
    let free = plan_of(alloc, FREE)?;
    let all = count_of(alloc, &free, store, Active::Default);
    drop_plan(free);
    let named = plan_of(alloc, NAMED)?;
    let stored = count_of(alloc, &named, store, Active::Default);
    let none = count_of(alloc, &named, store, Active::Empty);
    let graph = match store.graphs() {
        Ok(graphs) if graphs.len() == 1 => {
            count_of(alloc, &named, store, Active::Graph(graphs.as_slice()[0]))
        }
        _ => Ok(0),
    };
    drop_plan(named);
    Ok(all == Ok(27) && stored == Ok(2) && none == Ok(0) && graph == Ok(1))
}

/// Whether the calls are right.
pub fn are_right(alloc: Global, store: &Store) -> bool {
    is_joined(alloc, store) == Ok(true) && is_counted(alloc, store) == Ok(true)
}
