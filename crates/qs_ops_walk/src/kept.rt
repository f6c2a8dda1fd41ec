//! What a walk makes once and keeps: the rows of VALUES, the numbers of all graphs, and the pairs of paths.

ghost use Rattle.std.specs.Prelude.{◌≡◌, IfOk};
ghost use Rattle.qs_expr.specs.inner.Cell.{FitsIf, FitsRow};
ghost use Rattle.qs_expr.specs.inner.Scratch.{IsTable, Grows};
ghost use Rattle.qs_store.specs.inner.ActiveGraph.{active_graph};
ghost use Rattle.qs_store.specs.inner.Graphs.{AreGraphs};
ghost use Rattle.qs_plan_meaning.specs.inner.Scans.{path_pairs};
ghost use Rattle.qs_ops_scans.specs.inner.Paths.{ArePairs, Serve};
ghost use Rattle.qs_ops_walk.specs.inner.Setting.{known_of};
ghost use Rattle.qs_ops_walk.specs.inner.Works.{ArePairsFor, AreValues, IfEndPairs, IfGraphs, IfPairs, IfValues};

use crate::reader::Reader;
use crate::work::{EndPairs, KeptPairs, Naming, TableRows, Trail};
use qs_algebra_patterns::PathPattern;
use qs_base::Shared;
use qs_expr::{Row, Scratch};
use qs_ops_scans::{PathPairs, RowEnds, graph_numbers, row_ends};
use qs_ops_tables::{KeptTable, table_rows};
use qs_store::{Active, View};
use std::alloc::AllocError;

/// The rows of VALUES. They are made where none are kept, and kept.
#[inline(never)]
pub(crate) fn rows_of_values<V: View>(
    reader: &Reader<'_, V>,
    scratch: &mut Scratch,
    values: &mut TableRows<'_>,
    row: &Row,
) -> Result<Shared<KeptTable>, AllocError>
    requires table { IsTable (known_of reader.now) scratch.old }
    requires kept { IfValues reader.now scratch.old values.old.table.now values.old.kept }
    ensures grows { Grows (known_of reader.now) scratch.old scratch.new }
    ensures table { values.new.table.now ≡ values.old.table.now }
    ensures kept { IfOk result (λ k. values.new.kept ≡ Some k) }
    ensures values { IfOk result (λ k. AreValues reader.now scratch.new values.old.table.now k) }
{
    if let Some(kept) = &values.kept {
        let own = kept.share()?;
        return Ok(own);
    }
    let rows = table_rows(
        reader.alloc,
        reader.view,
        scratch,
        values.table,
        reader.width,
    )?;
    let made = KeptTable::new(reader.alloc, rows, row)?;
    let made = Shared::new(reader.alloc, made)?;
    let own = made.share()?;
    values.kept = Some(made);
    Ok(own)
}

/// The numbers of the names of all graphs. They are looked up where none are kept, and kept.
#[inline(never)]
pub(crate) fn numbers_of<V: View>(
    reader: &Reader<'_, V>,
    naming: &mut Naming,
) -> Result<Shared<Vec<u32>>, AllocError>
    requires kept { IfGraphs reader.now naming.old.numbers }
    ensures register { naming.new.register ≡ naming.old.register }
    ensures kept { IfOk result (λ k. naming.new.numbers ≡ Some k) }
    ensures graphs { IfOk result (λ k. AreGraphs reader.now.content k.items) }
{
    if let Some(numbers) = &naming.numbers {
        let own = numbers.share()?;
        return Ok(own);
    }
    let numbers = graph_numbers(reader.view)?;
    let numbers = Shared::new(reader.alloc, numbers)?;
    let own = numbers.share()?;
    naming.numbers = Some(numbers);
    Ok(own)
}

/// All pairs of a path in the graph. They are made where none are kept, and kept.
#[inline(never)]
fn all_pairs<V: View>(
    reader: &Reader<'_, V>,
    scratch: &mut Scratch,
    pattern: &PathPattern,
    kept: &mut Option<KeptPairs>,
    graph: Active,
    row: &Row,
) -> Result<Shared<PathPairs>, AllocError>
    requires table { IsTable (known_of reader.now) scratch.old }
    requires kept { IfPairs reader.now scratch.old pattern.now kept.old }
    ensures grows { Grows (known_of reader.now) scratch.old scratch.new }
    ensures kept { IfOk result (λ k. IfPairs reader.now scratch.new pattern.now kept.new) }
    ensures pairs { IfOk result (λ k. ArePairs (known_of reader.now) scratch.new k
        (path_pairs pattern.now (active_graph reader.now.content reader.now.default graph))) }
{
    if let Some(kept) = kept {
        if kept.graph == graph {
            let own = kept.pairs.share()?;
            return Ok(own);
        }
    }
    let pairs = reader.path_pairs(graph, pattern, row, scratch)?;
    let pairs = Shared::new(reader.alloc, pairs)?;
    let own = pairs.share()?;
    *kept = Some(KeptPairs { graph, pairs });
    Ok(own)
}

/// The pairs of a path in the graph that serve the rows with these cells at its ends. They are found where the last row had others, and
/// kept for the next row.
#[inline(never)]
fn pairs_of_ends<V: View>(
    reader: &Reader<'_, V>,
    scratch: &mut Scratch,
    pattern: &PathPattern,
    last: &mut Option<EndPairs>,
    graph: Active,
    ends: RowEnds,
) -> Result<Shared<PathPairs>, AllocError>
    requires table { IsTable (known_of reader.now) scratch.old }
    requires last { IfEndPairs reader.now scratch.old pattern.now last.old }
    requires subject { FitsIf (known_of reader.now) scratch.old ends.subject }
    requires object { FitsIf (known_of reader.now) scratch.old ends.object }
    ensures grows { Grows (known_of reader.now) scratch.old scratch.new }
    ensures last { IfOk result (λ k. IfEndPairs reader.now scratch.new pattern.now last.new) }
    ensures serve { IfOk result (λ k. Serve (known_of reader.now) scratch.new pattern.now
        (active_graph reader.now.content reader.now.default graph) ends k) }
{
    if let Some(last) = last {
        if last.graph == graph && last.ends.are_same(&ends) {
            let own = last.pairs.share()?;
            return Ok(own);
        }
    }
    let pairs = reader.fed_pairs(graph, pattern, ends, scratch)?;
    let pairs = Shared::new(reader.alloc, pairs)?;
    let own = pairs.share()?;
    *last = Some(EndPairs { graph, ends, pairs });
    Ok(own)
}

/// Pairs of a path that serve the row, in the graph in which it looks for it: those from or to the terms that the row binds, or all.
pub(crate) fn pairs_of_trail<V: View>(
    reader: &Reader<'_, V>,
    scratch: &mut Scratch,
    trail: &mut Trail<'_>,
    row: &Row,
) -> Result<Shared<PathPairs>, AllocError>
    requires table { IsTable (known_of reader.now) scratch.old }
    requires row { FitsRow (known_of reader.now) scratch.old row.now }
    requires kept { IfPairs reader.now scratch.old trail.old.pattern.now trail.old.kept }
    requires last { IfEndPairs reader.now scratch.old trail.old.pattern.now trail.old.last }
    ensures grows { Grows (known_of reader.now) scratch.old scratch.new }
    ensures look { trail.new.look ≡ trail.old.look }
    ensures pattern { trail.new.pattern.now ≡ trail.old.pattern.now }
    ensures kept { IfOk result (λ k. IfPairs reader.now scratch.new trail.old.pattern.now
        trail.new.kept) }
    ensures last { IfOk result (λ k. IfEndPairs reader.now scratch.new trail.old.pattern.now
        trail.new.last) }
    ensures pairs { IfOk result (λ k. ArePairsFor reader.now scratch.new trail.old row.now k) }
{
    let graph = reader.graph_of_look(trail.look, row);
    let ends = row_ends(trail.pattern, row);
    if ends.are_bound() {
        let own = pairs_of_ends(reader, scratch, trail.pattern, &mut trail.last, graph, ends)?;
        return Ok(own);
    }
    let own = all_pairs(reader, scratch, trail.pattern, &mut trail.kept, graph, row)?;
    Ok(own)
}
