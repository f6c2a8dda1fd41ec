//! Queries over a view of the store.

ghost use Rattle.std.specs.Prelude.{◌≡◌, [], true, IfOk, Ok};
ghost use Rattle.std.specs.Option.{option_copied};
ghost use Rattle.qs_base.specs.inner.Lent.{lent};
ghost use Rattle.qs_terms.specs.Bag.{SameBag, once};
ghost use Rattle.qs_terms.specs.Dataset.{graph_of};
ghost use Rattle.qs_terms.specs.Outcome.{OneOrOutOfMemory};
ghost use Rattle.qs_terms.specs.Statement.{same_statement};
ghost use Rattle.qs_store.specs.Visible.{visible};
ghost use Rattle.qs_store.specs.inner.Visible.{visible_quads};
ghost use Rattle.qs_query_forms.specs.inner.InOrder as in_order;
ghost use Rattle.qs_query_forms.specs.inner.Placed.{ArePlaced};
ghost use Rattle.qs_query_forms.specs.Outcome.{IsSelected, IsBuilt, IsConstructed, IsOutcomeOfQuery};
ghost use Rattle.qs_query_forms.specs.inner.Outcome.{IsAsked};
ghost use Rattle.qs_query_forms.specs.inner.Outcome.{IsAllSolutions};
ghost use Rattle.qs_query_forms.specs.Sequence.{dataset_of, whole};

use crate::construction::Construction;
use crate::placed::{placed, sorted};
use crate::request::{Request, request_of};
use crate::selection::Selection;
use crate::sequence::{
    enough_for_slice, lent_rows, listed_rows, needed_count, project_rows, slice_rows,
};
use crate::unordered::{first_of, limit, part_of};
use qs_algebra::Pattern;
use qs_algebra_solutions::{Answer, Row};
use qs_expr_values::laws::keys_are_ordered;
use qs_query_order::OrderCondition;
use qs_query_solutions::{
    OrderedPart, distinct_solutions, ordered_solutions, solutions_after, some_solutions,
};
use qs_query_template::{each_once, instances};
use qs_store::View;
use qs_syntax_ast::query::Query;
use qs_terms::{QFault, Quad, Term, Text};
use sqlite_items::Items;
use std::alloc::{AllocError, Global};

// the sequence of the solutions in this order
fn rows_of(
    alloc: Global,
    asked: &Selection,
    all: Vec<&Row>,
    max_rows: u64,
) -> Result<Items<Row>, QFault>
    ensures { OneOrOutOfMemory (in_order.IsRowsOf asked.now max_rows (lent all.entry.items))
        result }
{
    let listed = listed_rows(alloc, asked, all)?;
    let part = slice_rows(listed.as_slice(), asked.slice);
    if part.len() as u64 > max_rows {
        return Err(QFault::TooManyRows);
    }
    let rows = project_rows(alloc, part, asked.columns.as_slice())?;
    Ok(Items::from_vec(rows))
}

// DISTINCT with ORDER BY: any solution may give a duplicate, so all are put in order
fn all_ordered_once<V: View>(
    alloc: Global,
    asked: &Selection,
    view: &V,
    active: Option<&Term>,
    max_rows: u64,
) -> Result<Items<Row>, QFault>
    ensures { let set = visible_quads (V.content view.now) (V.default_seen view.now)
        in OneOrOutOfMemory
        (in_order.IsRows asked.now
        (whole asked.now.pattern set (graph_of set (option_copied active.entry))) max_rows)
        result }
{
    let part = OrderedPart {
        conditions: asked.order.as_slice(),
        columns: None,
        offset: 0,
        count: None,
        most: None,
    };
    let all = ordered_solutions(alloc, &asked.pattern, view, active, part)?;
    let all = lent_rows(alloc, all.as_slice())?;
    rows_of(alloc, asked, all, max_rows)
}

// DISTINCT with ORDER BY, where each condition is a variable of the answer: the distinct rows are put in order
fn rows_ordered_once<V: View>(
    alloc: Global,
    asked: &Selection,
    conditions: &[OrderCondition],
    view: &V,
    active: Option<&Term>,
    max_rows: u64,
) -> Result<Items<Row>, QFault>
    requires distinct { asked.now.is_distinct ≡ true }
    requires placed { ArePlaced asked.now.columns asked.now.order conditions.now }
    ensures { let set = visible_quads (V.content view.now) (V.default_seen view.now)
        in OneOrOutOfMemory
        (in_order.IsRows asked.now
        (whole asked.now.pattern set (graph_of set (option_copied active.entry))) max_rows)
        result }
{
    keys_are_ordered();
    let columns = asked.columns.as_slice();
    let rows = distinct_solutions(alloc, &asked.pattern, view, active, columns, None)?;
    let rows = sorted(alloc, conditions, rows, needed_count(asked.slice))?;
    part_of(rows, asked.slice, max_rows)
}

// DISTINCT with ORDER BY
fn ordered_once<V: View>(
    alloc: Global,
    asked: &Selection,
    view: &V,
    active: Option<&Term>,
    max_rows: u64,
) -> Result<Items<Row>, QFault>
    requires { asked.now.is_distinct ≡ true }
    ensures { let set = visible_quads (V.content view.now) (V.default_seen view.now)
        in OneOrOutOfMemory
        (in_order.IsRows asked.now
        (whole asked.now.pattern set (graph_of set (option_copied active.entry))) max_rows)
        result }
{
    match placed(alloc, asked.columns.as_slice(), asked.order.as_slice())? {
        Some(conditions) => rows_ordered_once(
            alloc,
            asked,
            conditions.as_slice(),
            view,
            active,
            max_rows,
        ),
        None => all_ordered_once(alloc, asked, view, active, max_rows),
    }
}

// the solutions in an order of the conditions
fn ordered<V: View>(
    alloc: Global,
    asked: &Selection,
    view: &V,
    active: Option<&Term>,
    max_rows: u64,
) -> Result<Items<Row>, QFault>
    ensures { let set = visible_quads (V.content view.now) (V.default_seen view.now)
        in OneOrOutOfMemory
        (in_order.IsRows asked.now
        (whole asked.now.pattern set (graph_of set (option_copied active.entry))) max_rows)
        result }
{
    if asked.is_distinct {
        return ordered_once(alloc, asked, view, active, max_rows);
    }
    let part = OrderedPart {
        conditions: asked.order.as_slice(),
        columns: Some(asked.columns.as_slice()),
        offset: asked.slice.offset,
        count: needed_count(asked.slice),
        most: enough_for_slice(asked.slice, asked.order.as_slice(), max_rows),
    };
    let rows = ordered_solutions(alloc, &asked.pattern, view, active, part)?;
    first_of(rows, asked.slice.limit, max_rows)
}

// some of the solutions, projected and without duplicates: all, or as many rows as suffice
fn listed<V: View>(
    alloc: Global,
    asked: &Selection,
    view: &V,
    active: Option<&Term>,
    most: Option<u64>,
) -> Result<Vec<Row>, AllocError>
    requires { asked.now.is_distinct ≡ true }
    ensures { IfOk result (λ rows. let set = visible_quads (V.content view.now)
        (V.default_seen view.now) in in_order.AreListed asked.now most rows.items
        (whole asked.now.pattern set (graph_of set (option_copied active.entry)))) }
{
    let columns = asked.columns.as_slice();
    let rows = distinct_solutions(alloc, &asked.pattern, view, active, columns, most)?;
    Ok(rows)
}

// the solutions in any order
fn unordered<V: View>(
    alloc: Global,
    asked: &Selection,
    view: &V,
    active: Option<&Term>,
    max_rows: u64,
) -> Result<Items<Row>, QFault>
    requires { asked.now.order ≡ [] }
    ensures { let set = visible_quads (V.content view.now) (V.default_seen view.now)
        in OneOrOutOfMemory
        (in_order.IsRows asked.now
        (whole asked.now.pattern set (graph_of set (option_copied active.entry))) max_rows)
        result }
{
    let most = enough_for_slice(asked.slice, asked.order.as_slice(), max_rows);
    if asked.is_distinct {
        let rows = listed(alloc, asked, view, active, most)?;
        return part_of(rows, asked.slice, max_rows);
    }
    let offset = asked.slice.offset;
    let columns = asked.columns.as_slice();
    let rows = solutions_after(
        alloc,
        &asked.pattern,
        view,
        active,
        Some(columns),
        offset,
        most,
    )?;
    first_of(rows, asked.slice.limit, max_rows)
}

fn sequence<V: View>(
    alloc: Global,
    asked: &Selection,
    view: &V,
    active: Option<&Term>,
    max_rows: u64,
) -> Result<Items<Row>, QFault>
    ensures { let set = visible_quads (V.content view.now) (V.default_seen view.now)
        in OneOrOutOfMemory
        (in_order.IsRows asked.now
        (whole asked.now.pattern set (graph_of set (option_copied active.entry))) max_rows)
        result }
{
    if asked.order.is_empty() {
        return unordered(alloc, asked, view, active, max_rows);
    }
    ordered(alloc, asked, view, active, max_rows)
}

// the rows with the names of the variables
fn with_vars(vars: Items<Text>, rows: Result<Items<Row>, QFault>) -> Result<Answer, QFault>
    ensures { result ≡ in_order.with_vars vars rows }
{
    match rows {
        Ok(rows) => Ok(Answer::Solutions { vars, rows }),
        Err(fault) => Err(fault),
    }
}

fn selected<V: View>(
    alloc: Global,
    asked: Selection,
    view: &V,
    active: Option<&Term>,
    max_rows: u64,
) -> Result<Answer, QFault>
    ensures { let set = visible_quads (V.content view.now) (V.default_seen view.now)
        in OneOrOutOfMemory
        (IsSelected asked (whole asked.pattern set (graph_of set (option_copied active.entry)))
        max_rows) result }
{
    let rows = sequence(alloc, &asked, view, active, max_rows);
    with_vars(asked.vars, rows)
}

// the graph that is the set of these quads, in any order: it is printed in the order of its lines
fn graph(quads: Vec<Quad>) -> Answer
    ensures { IsBuilt (Ok quads.items) (Ok result) }
{
    Answer::Graph(Items::from_vec(each_once(quads)))
}

// The graph that the template makes of the solutions that are left after the OFFSET. Too many are told before numbers that don't suffice, and
// are counted as those of a SELECT, whatever quads they make.
fn graph_of_rows(
    alloc: Global,
    asked: &Construction,
    next_blank: u64,
    mut rows: Vec<Row>,
    max_rows: u64,
) -> Result<Answer, QFault>
    ensures { OneOrOutOfMemory (in_order.IsGraphOfRest asked.now next_blank max_rows rows.items)
        result }
{
    limit(&mut rows, asked.slice.limit);
    if rows.len() as u64 > max_rows {
        return Err(QFault::TooManyRows);
    }
    let part = lent_rows(alloc, rows.as_slice())?;
    let quads = instances(alloc, &asked.template, part.as_slice(), next_blank)?;
    Ok(graph(quads))
}

// the solutions that a CONSTRUCT takes after its OFFSET, in an order of the conditions if there are any
fn solutions_to_construct<V: View>(
    alloc: Global,
    asked: &Construction,
    view: &V,
    active: Option<&Term>,
    max_rows: u64,
) -> Result<Vec<Row>, AllocError>
    ensures { IfOk result (λ rows. let set = visible_quads (V.content view.now)
        (V.default_seen view.now) in in_order.AreRest asked.now max_rows rows.items
        (whole asked.now.pattern set (graph_of set (option_copied active.entry)))) }
{
    let conditions = asked.order.as_slice();
    let slice = asked.slice;
    let most = enough_for_slice(slice, conditions, max_rows);
    if conditions.is_empty() {
        return solutions_after(
            alloc,
            &asked.pattern,
            view,
            active,
            None,
            slice.offset,
            most,
        );
    }
    let part = OrderedPart {
        conditions,
        columns: None,
        offset: slice.offset,
        count: needed_count(slice),
        most,
    };
    ordered_solutions(alloc, &asked.pattern, view, active, part)
}

fn constructed<V: View>(
    alloc: Global,
    asked: &Construction,
    view: &V,
    active: Option<&Term>,
    max_rows: u64,
) -> Result<Answer, QFault>
    ensures { let set = visible_quads (V.content view.now) (V.default_seen view.now)
        in OneOrOutOfMemory (IsConstructed asked.now (V.content view.now).next
        (whole asked.now.pattern set (graph_of set (option_copied active.entry))) max_rows)
        result }
{
    let rows = solutions_to_construct(alloc, asked, view, active, max_rows)?;
    graph_of_rows(alloc, asked, view.next_blank(), rows, max_rows)
}

fn truth<V: View>(
    alloc: Global,
    pattern: &Pattern,
    view: &V,
    active: Option<&Term>,
) -> Result<Answer, QFault>
    ensures { let set = visible_quads (V.content view.now) (V.default_seen view.now)
        in OneOrOutOfMemory
        (IsAsked (whole pattern.now set (graph_of set (option_copied active.entry)))) result }
{
    let all = some_solutions(alloc, pattern, view, active, Some(1))?;
    Ok(Answer::Truth(!all.is_empty()))
}

/// An answer of the query over the dataset that queries see of the view, with its next blank node's number. The graph
/// of the name is active, or the default graph where none is given (SPARQL 1.1 Query, 16).
///
/// # Errors
/// `QFault::TooManyRows` where the sequence of a SELECT or a CONSTRUCT has more than `max_rows` solutions, after OFFSET and LIMIT;
/// `QFault::Full` where there are no numbers for the fresh blank nodes of a CONSTRUCT; `QFault::Memory` where memory runs out.
pub fn answer_query<V: View>(
    alloc: Global,
    query: &Query,
    view: &V,
    active: Option<&Term>,
    max_rows: u64,
) -> Result<Answer, QFault>
    ensures { let d = dataset_of (visible (V.default_seen view.now) (V.content view.now).quads)
        (V.content view.now).next
        in OneOrOutOfMemory
        (IsOutcomeOfQuery query.now d (graph_of d.quads (option_copied active.entry)) max_rows)
        result }
{
    match request_of(alloc, query)? {
        Request::Select(asked) => selected(alloc, asked, view, active, max_rows),
        Request::Construct(asked) => constructed(alloc, &asked, view, active, max_rows),
        Request::Ask(pattern) => truth(alloc, &pattern, view, active),
    }
}

fn copied(alloc: Global, names: &[Text]) -> Result<Items<Text>, AllocError>
    ensures { IfOk result (λ copies. copies ≡ names.now) }
{
    let mut copies = Items::new(alloc);
    for name in names {
        let name = name.try_clone(alloc)?;
        copies.push(name)?;
    }
    Ok(copies)
}

fn bounded(all: Vec<Row>, max_rows: u64) -> Result<Items<Row>, QFault>
    ensures { result ≡ in_order.bounded max_rows all.items }
{
    if all.len() as u64 > max_rows {
        return Err(QFault::TooManyRows);
    }
    Ok(Items::from_vec(all))
}

fn few_solutions<V: View>(
    alloc: Global,
    pattern: &Pattern,
    view: &V,
    active: Option<&Term>,
    max_rows: u64,
) -> Result<Items<Row>, QFault>
    ensures { let set = visible_quads (V.content view.now) (V.default_seen view.now)
        in OneOrOutOfMemory
        (in_order.AreFew (whole pattern.now set (graph_of set (option_copied active.entry)))
        max_rows) result }
{
    let most = max_rows.checked_add(1);
    let all = some_solutions(alloc, pattern, view, active, most)?;
    bounded(all, max_rows)
}

/// All solutions of the pattern over the dataset that queries see of the view, with the pattern's variables; in any
/// order. The graph of the name is active, or the default graph where none is given (SPARQL 1.1 Update, 3.1.3: WITH).
///
/// # Errors
/// `QFault::TooManyRows` where there are more than `max_rows`; `QFault::Memory` where memory runs out.
pub fn solutions<V: View>(
    alloc: Global,
    pattern: &Pattern,
    view: &V,
    graph: Option<&Term>,
    max_rows: u64,
) -> Result<Answer, QFault>
    ensures { let set = once same_statement
        (visible (V.default_seen view.now) (V.content view.now).quads)
        in OneOrOutOfMemory
        (IsAllSolutions pattern.now
        (whole pattern.now set (graph_of set (option_copied graph.entry))) max_rows) result }
{
    let vars = copied(alloc, pattern.names.as_slice())?;
    let rows = few_solutions(alloc, pattern, view, graph, max_rows);
    with_vars(vars, rows)
}
