//! The entries of the quads that are added, whose new terms become known.

ghost use Rattle.std.specs.Prelude.{◌≡◌, ◌++◌, ◌∷◌, ◌+◌, ◌^◌, ◌<◌, ◌≤◌, ℕ, List, [], length, map, IfOk, IfErr, OnOk};
ghost use Rattle.std.specs.List.{All};
ghost use Rattle.qs_terms.specs.Statement.{Statement};
ghost use Rattle.qs_terms.specs.declared.term.Term.{Term as TermValue};
ghost use Rattle.qs_expr.specs.inner.Cell.{row_solution, FitsRow};
ghost use Rattle.qs_query_template.specs.Instances.{instances, next_after};
ghost use Rattle.qs_query_template.specs.inner.Instances.{instances_under};
ghost use Rattle.qs_store.specs.Change.{with_terms_of};
ghost use Rattle.qs_store.specs.inner.Change.{IsFullAt};
ghost use Rattle.qs_store.specs.declared.fault.StoreFault.TheVariants.{Memory};
ghost use Rattle.qs_store.specs.inner.References.{referred_quad, IsReferredQuad};
ghost use Rattle.qs_store.specs.inner.Store.{IsFront};
ghost use Rattle.qs_update_entries.specs.inner.Refers.{AreFresh, if_lawful};
ghost use Rattle.qs_update_entries.specs.inner.Say.{Learns, Say};

use crate::references::quad_ref;
use qs_expr::{Row, Scratch};
use qs_query_template::Template;
use qs_store::{Draft, QuadRef, StoreFault};
use qs_terms::Term;
use std::alloc::Global;

fn push(entries: &mut Vec<[u32; 4]>, entry: [u32; 4]) -> Result<(), StoreFault>
    ensures pushed { OnOk result (entries.new.items ≡ entries.old.items ++ entry ∷ []) }
    ensures memory { IfErr result (λ fault. fault ≡ Memory) }
{
    match entries.push(entry) {
        Ok(_) => Ok(()),
        Err(_) => Err(StoreFault::Memory),
    }
}

/// Numbers the terms of the quad, and puts its entry after the others, where its terms may stand in their places.
fn put_added(
    draft: &mut Draft<'_>,
    quad: QuadRef<'_>,
    entries: &mut Vec<[u32; 4]>,
) -> Result<(), StoreFault>
    requires { IsReferredQuad draft.old.store.now.draft.known quad }
    ensures same_reference { draft.new.store.ghost_name ≡ draft.old.store.ghost_name }
    ensures learns { Learns draft.old.store.now draft.new.store.now }
    ensures front { OnOk result
        (IsFront draft.old.store.now.draft.known draft.new.store.now.draft.known) }
    ensures say { OnOk result ((first : List TermValue) (quads : List Statement)
        → Say first draft.old.store.now.draft.known entries.old.items quads
        → Say first draft.new.store.now.draft.known entries.new.items
        (quads ++ if_lawful (referred_quad draft.old.store.now.draft.known quad.entry))) }
    ensures full { IfErr result (λ fault. (first : List TermValue) (quads : List Statement)
        → Say first draft.old.store.now.draft.known entries.old.items quads
        → IsFullAt fault draft.old.store.now.limit
        (length
        (with_terms_of first
        (quads ++ if_lawful (referred_quad draft.old.store.now.draft.known quad.entry))))) }
{
    if !draft.fits(quad) {
        return Ok(());
    }
    let entry = draft.number_ref(quad)?;
    push(entries, entry)
}

/// So many fresh blank nodes, from the first number on.
fn put_blanks(blanks: &mut Vec<Term>, count: usize, first: u64) -> Result<(), StoreFault>
    requires { first + count < 2 ^ 64 }
    ensures fresh { OnOk result (AreFresh count first blanks.new.items) }
    ensures memory { IfErr result (λ fault. fault ≡ Memory) }
{
    blanks.clear();
    for place in 0..count {
        blanks.push(Term::Blank(first + place as u64))?;
    }
    Ok(())
}

/// Numbers the quads of a template under a row, whose fresh blank nodes have the numbers from the first one on.
fn put_added_under(
    draft: &mut Draft<'_>,
    template: &Template,
    first: u64,
    blanks: &mut Vec<Term>,
    scratch: &Scratch,
    row: &Row,
    entries: &mut Vec<[u32; 4]>,
) -> Result<(), StoreFault>
    requires first { first + template.now.blanks < 2 ^ 64 }
    requires fits { FitsRow draft.old.store.now.draft.known scratch.now row.now }
    ensures same_reference { draft.new.store.ghost_name ≡ draft.old.store.ghost_name }
    ensures learns { Learns draft.old.store.now draft.new.store.now }
    ensures front { OnOk result
        (IsFront draft.old.store.now.draft.known draft.new.store.now.draft.known) }
    ensures say { OnOk result ((known : List TermValue) (quads : List Statement)
        → Say known draft.old.store.now.draft.known entries.old.items quads
        → Say known draft.new.store.now.draft.known entries.new.items
        (quads ++ instances_under template.now first
        (row_solution draft.old.store.now.draft.known scratch.now row.now))) }
    ensures full { IfErr result (λ fault. (known : List TermValue) (quads : List Statement)
        → Say known draft.old.store.now.draft.known entries.old.items quads
        → IsFullAt fault draft.old.store.now.limit
        (length
        (with_terms_of known
        (quads ++ instances_under template.now first
        (row_solution draft.old.store.now.draft.known scratch.now row.now))))) }
{
    put_blanks(blanks, template.blanks, first)?;
    for quad in template.quads.as_slice() {
        match quad_ref(blanks.as_slice(), scratch, row, quad) {
            None => {}
            Some(quad) => put_added(draft, quad, entries)?,
        }
    }
    Ok(())
}

/// Numbers the quads of a template under rows of cells, each of which takes fresh blank nodes, from the number `next` on. Where it is
/// refused some of the terms may be known.
pub(crate) fn all_added(
    alloc: Global,
    draft: &mut Draft<'_>,
    template: &Template,
    scratch: &Scratch,
    rows: &[Row],
    next: u64,
) -> Result<Vec<[u32; 4]>, StoreFault>
    requires fits { All (FitsRow draft.old.store.now.draft.known scratch.now) rows.now }
    requires next { next_after template.now next (length rows.now) < 2 ^ 64 }
    ensures same_reference { draft.new.store.ghost_name ≡ draft.old.store.ghost_name }
    ensures learns { Learns draft.old.store.now draft.new.store.now }
    ensures front { OnOk result
        (IsFront draft.old.store.now.draft.known draft.new.store.now.draft.known) }
    ensures say { IfOk result
        (λ entries. Say draft.old.store.now.draft.known draft.new.store.now.draft.known
        entries.items
        (instances template.now next
        (map (row_solution draft.old.store.now.draft.known scratch.now) rows.now))) }
    ensures full { IfErr result (λ fault. IsFullAt fault draft.old.store.now.limit
        (length
        (with_terms_of draft.old.store.now.draft.known
        (instances template.now next
        (map (row_solution draft.old.store.now.draft.known scratch.now) rows.now))))) }
{
    let mut entries = Vec::new(alloc);
    let mut blanks = Vec::new(alloc);
    let mut first = next;
    for row in rows {
        put_added_under(
            draft,
            template,
            first,
            &mut blanks,
            scratch,
            row,
            &mut entries,
        )?;
        first += template.blanks as u64;
    }
    Ok(entries)
}
