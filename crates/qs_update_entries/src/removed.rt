//! The entries of the quads that are removed. A template of these has no blank nodes, so none is fresh.

ghost use Rattle.std.specs.Prelude.{◌≡◌, ◌++◌, map, IfOk, OnOk};
ghost use Rattle.std.specs.List.{All, filter_map, flat_map};
ghost use Rattle.qs_expr.specs.inner.Cell.{row_solution, FitsRow};
ghost use Rattle.qs_query_template.specs.Instances.{instance};
ghost use Rattle.qs_store.specs.inner.Entries.{entry_of};
ghost use Rattle.qs_store.specs.inner.References.{referred_quad, IsReferredQuad};
ghost use Rattle.qs_update_entries.specs.inner.Refers.{if_lawful};
ghost use Rattle.qs_update_entries.specs.inner.Removed.{entries_under};

use crate::references::quad_ref;
use qs_expr::{Row, Scratch};
use qs_query_template::{QuadTemplate, Template};
use qs_store::{Draft, QuadRef};
use std::alloc::{AllocError, Global};

/// Puts the entry of the quad after the others, where it may stand in the draft.
fn put_removed(
    draft: &Draft<'_>,
    quad: QuadRef<'_>,
    entries: &mut Vec<[u32; 4]>,
) -> Result<(), AllocError>
    requires { IsReferredQuad draft.now.store.now.draft.known quad }
    ensures { OnOk result (entries.new.items ≡ entries.old.items ++ filter_map
        (entry_of draft.now.store.now.draft.known)
        (if_lawful (referred_quad draft.now.store.now.draft.known quad.entry))) }
{
    if !draft.fits(quad) {
        return Ok(());
    }
    match draft.entry(quad) {
        None => Ok(()),
        Some(entry) => {
            entries.push(entry)?;
            Ok(())
        }
    }
}

/// Puts the entry of a template's quad under a row after the others, where there is one.
fn put_removed_of(
    draft: &Draft<'_>,
    scratch: &Scratch,
    row: &Row,
    quad: &QuadTemplate,
    entries: &mut Vec<[u32; 4]>,
) -> Result<(), AllocError>
    requires { FitsRow draft.now.store.now.draft.known scratch.now row.now }
    ensures { OnOk result (entries.new.items ≡ entries.old.items ++ filter_map
        (entry_of draft.now.store.now.draft.known)
        (instance 0 0 (row_solution draft.now.store.now.draft.known scratch.now row.now)
        quad.now)) }
{
    match quad_ref(&[], scratch, row, quad) {
        None => Ok(()),
        Some(quad) => put_removed(draft, quad, entries),
    }
}

/// Puts the entries of a template's quads under a row after the others.
fn put_removed_under(
    draft: &Draft<'_>,
    template: &Template,
    scratch: &Scratch,
    row: &Row,
    entries: &mut Vec<[u32; 4]>,
) -> Result<(), AllocError>
    requires { FitsRow draft.now.store.now.draft.known scratch.now row.now }
    ensures { OnOk result
        (entries.new.items ≡ entries.old.items ++ entries_under draft.now.store.now.draft.known
        template.now (row_solution draft.now.store.now.draft.known scratch.now row.now)) }
{
    for quad in template.quads.as_slice() {
        put_removed_of(draft, scratch, row, quad, entries)?;
    }
    Ok(())
}

/// The entries of the quads of a template under rows of cells, of those whose terms may stand in their places and are known to the draft.
pub(crate) fn all_removed(
    alloc: Global,
    draft: &Draft<'_>,
    template: &Template,
    scratch: &Scratch,
    rows: &[Row],
) -> Result<Vec<[u32; 4]>, AllocError>
    requires { All (FitsRow draft.now.store.now.draft.known scratch.now) rows.now }
    ensures { IfOk result
        (λ entries. entries.items ≡ flat_map
        (entries_under draft.now.store.now.draft.known template.now)
        (map (row_solution draft.now.store.now.draft.known scratch.now) rows.now)) }
{
    let mut entries = Vec::new(alloc);
    for row in rows {
        put_removed_under(draft, template, scratch, row, &mut entries)?;
    }
    Ok(entries)
}
