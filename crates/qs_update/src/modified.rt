//! What DELETE and INSERT with a WHERE do to a draft (SPARQL 1.1 Update, 3.1.3).
//!
//! All solutions of the WHERE are found before anything is changed. They are rows of cells, whose numbers are those of the draft's terms.

ghost use Rattle.std.specs.Prelude.{◌≡◌, None, map, IfOk};
ghost use Rattle.std.specs.List.{All};
ghost use Rattle.std.specs.Option.{option_copied, option_map};
ghost use Rattle.qs_terms.specs.declared.term.Term.TheVariants as value;
ghost use Rattle.qs_syntax_scope.specs.Firsts.{names_of};
ghost use Rattle.qs_algebra.specs.Translation.{translated_where, translated_blocks};
ghost use Rattle.qs_expr.specs.inner.Cell.{row_solution, FitsRow};
ghost use Rattle.qs_query_solutions.specs.inner.CellRows.{AreAllCells};
ghost use Rattle.qs_query_template.specs.Template as made;
ghost use Rattle.qs_update.specs.Effect as spec;
ghost use Rattle.qs_update.specs.Request.{IsCarriedOut};
ghost use Rattle.qs_update.specs.inner.Carried.{BecomesOne};
ghost use Rattle.qs_update.specs.inner.Lawful.{IsLawful};

use crate::carried::fault_of;
use crate::graphs::iri_term;
use crate::templates::{deletion, template_with};
use qs_algebra::{Pattern, drop_pattern, translate_blocks, translate_where_with};
use qs_query_solutions::{CellRows, cell_solutions};
use qs_query_template::{Template, next_after};
use qs_store::Draft;
use qs_syntax_ast::term::Variable;
use qs_syntax_ast::update::{Modify, QuadBlock};
use qs_syntax_scope::number_names;
use qs_terms::{Iri, QFault, Term};
use qs_update_entries::change_under;
use std::alloc::{AllocError, Global};

// Makes the change that the templates make of these solutions.
fn change_by_templates(
    alloc: Global,
    delete: Template,
    insert: &Template,
    draft: &mut Draft<'_>,
    found: &CellRows,
) -> Result<(), QFault>
    requires fits { All (FitsRow draft.old.store.now.draft.known found.now.scratch)
        found.now.rows.items }
    requires lawful { IfOk (spec.modified delete insert.now draft.old.store.now.draft.next
        (map (row_solution draft.old.store.now.draft.known found.now.scratch)
        found.now.rows.items)) (IsLawful draft.old.store.now.draft.next) }
    ensures same_reference { draft.new.store.ghost_name ≡ draft.old.store.ghost_name }
    ensures base { draft.new.store.now.base ≡ draft.old.store.now.base }
    ensures limit { draft.new.store.now.limit ≡ draft.old.store.now.limit }
    ensures default_graph { draft.new.store.now.default_graph ≡ draft.old.store.now.default_graph }
    ensures outcome { BecomesOne (IsCarriedOut draft.old.store.now.limit draft.old.store.now.draft
        (spec.modified delete insert.now draft.old.store.now.draft.next
        (map (row_solution draft.old.store.now.draft.known found.now.scratch)
        found.now.rows.items))) result draft.new.store.now.draft }
{
    let delete = deletion(delete);
    let rows = found.rows.as_slice();
    let after = next_after(insert, draft.next_blank(), rows.len())?;
    match change_under(alloc, draft, &delete, insert, &found.scratch, rows, after) {
        Ok(()) => Ok(()),
        Err(fault) => Err(fault_of(fault)),
    }
}

/// Makes the change that blocks of quads make of these solutions, where the graph of WITH is the default graph. Each cell of the rows has a
/// term, and the number after what is added is lawful.
pub fn change_by(
    alloc: Global,
    variables: &[Variable],
    with: &Option<Iri>,
    delete: &[QuadBlock],
    insert: &[QuadBlock],
    draft: &mut Draft<'_>,
    found: &CellRows,
) -> Result<(), QFault>
    requires fits { All (FitsRow draft.old.store.now.draft.known found.now.scratch)
        found.now.rows.items }
    requires lawful { IfOk
        (spec.modified
        (made.template_in with.now
        (made.template_of_blocks (names_of variables.now) delete.now))
        (made.template_in with.now
        (made.template_of_blocks (names_of variables.now) insert.now))
        draft.old.store.now.draft.next
        (map (row_solution draft.old.store.now.draft.known found.now.scratch)
        found.now.rows.items)) (IsLawful draft.old.store.now.draft.next) }
    ensures same_reference { draft.new.store.ghost_name ≡ draft.old.store.ghost_name }
    ensures base { draft.new.store.now.base ≡ draft.old.store.now.base }
    ensures limit { draft.new.store.now.limit ≡ draft.old.store.now.limit }
    ensures default_graph { draft.new.store.now.default_graph ≡ draft.old.store.now.default_graph }
    ensures outcome { BecomesOne (IsCarriedOut draft.old.store.now.limit draft.old.store.now.draft
        (spec.modified
        (made.template_in with.now
        (made.template_of_blocks (names_of variables.now) delete.now))
        (made.template_in with.now
        (made.template_of_blocks (names_of variables.now) insert.now))
        draft.old.store.now.draft.next
        (map (row_solution draft.old.store.now.draft.known found.now.scratch)
        found.now.rows.items))) result draft.new.store.now.draft }
{
    let names = number_names(alloc, variables)?;
    let delete = template_with(alloc, &names, with, delete)?;
    let insert = template_with(alloc, &names, with, insert)?;
    change_by_templates(alloc, delete, &insert, draft, found)
}

/// All solutions of the quads of DELETE WHERE over the draft.
#[tactic(auto, using(crate::proofs::Under::same_cells))]
pub fn deleted_rows(
    alloc: Global,
    variables: &[Variable],
    blocks: &[QuadBlock],
    draft: &Draft<'_>,
    max_rows: u64,
) -> Result<CellRows, QFault>
    ensures { AreAllCells max_rows draft.now.store.now.draft.known
        (spec.solutions (translated_blocks variables.now blocks.now)
        draft.now.store.now.default_graph None draft.now.store.now.draft.quads) result }
{
    let pattern = translate_blocks(alloc, variables, blocks)?;
    let rows = cell_solutions(alloc, &pattern, draft, None, max_rows);
    drop_pattern(pattern);
    rows
}

fn with_term(with: &Option<Iri>) -> Result<Option<Term>, AllocError>
    ensures { IfOk result (λ t. t ≡ option_map value.Iri with.now) }
{
    match with {
        None => Ok(None),
        Some(name) => Ok(Some(iri_term(name)?)),
    }
}

fn rows_with(
    alloc: Global,
    pattern: &Pattern,
    with: &Option<Iri>,
    draft: &Draft<'_>,
    max_rows: u64,
) -> Result<CellRows, QFault>
    ensures { AreAllCells max_rows draft.now.store.now.draft.known
        (spec.solutions pattern.now draft.now.store.now.default_graph
        (option_map value.Iri with.now) draft.now.store.now.draft.quads) result }
{
    let with = with_term(with)?;
    cell_solutions(alloc, pattern, draft, with.as_ref(), max_rows)
}

/// All solutions of a WHERE over the draft, whose default graph is that of WITH where one is given.
#[tactic(auto, using(crate::proofs::Under::same_cells))]
pub fn where_rows(
    alloc: Global,
    variables: &[Variable],
    modify: &Modify,
    draft: &Draft<'_>,
    max_rows: u64,
) -> Result<CellRows, QFault>
    ensures { AreAllCells max_rows draft.now.store.now.draft.known
        (spec.solutions (translated_where variables.now modify.now.pattern)
        draft.now.store.now.default_graph (option_map value.Iri modify.now.with)
        draft.now.store.now.draft.quads) result }
{
    let pattern = translate_where_with(alloc, variables, &modify.pattern)?;
    let rows = rows_with(alloc, &pattern, &modify.with, draft, max_rows);
    drop_pattern(pattern);
    rows
}
