//! The edges of the graph that is active over a view, by numbers.

ghost use Rattle.std.specs.Prelude.{◌≡◌, ◌<◌, ◌^◌, ◌++◌, length, MatchOption, IfOk, OnOk};
ghost use Rattle.qs_terms.specs.Term.{same_term};
ghost use Rattle.qs_terms.specs.declared.term.Term.TheVariants as term_is;
ghost use Rattle.qs_store.specs.inner.ActiveGraph.{IsSeen, active_graph};
ghost use Rattle.qs_paths_meaning.specs.Steps.{along, is_outside};
ghost use Rattle.qs_paths.specs.inner.Nodes.{ArePairs, TellsNode};
ghost use Rattle.qs_paths.specs.inner.Scans.{AreOutside, AreScanned, IsPast, edges_in, number_out};

use crate::node::NodePair;
use crate::numbered::{Kept, number_of_iri};
use crate::scan::{Scan, collected};
use crate::source::Source;
use crate::steps::is_of;
use qs_store::{Active, Triples, View};
use qs_syntax_ast::path::NegatedIri;
use qs_terms::Iri;
use std::alloc::{AllocError, Global};

/// The graph that is active over a view, and numbers of IRIs that may be asked for again.
#[derive(Drop)]
pub struct Seen<'v, V: View> {
    pub view: &'v V,
    pub active: Active,
    pub kept: Kept,
}

/// The content of a view is lawful, and the numbers of its terms fit 4 bytes.
pub fn is_lawful<V: View>(view: &V)
    ensures seen { IsSeen (V.content view.now) }
    ensures few { length (V.content view.now).known < 2 ^ 32 }
{
    let _count = view.count();
    let _terms = view.terms();
}

/// The number of an end that may name a known term.
fn given(end: Option<u64>) -> Option<Option<u32>>
    ensures { MatchOption result (IsPast end) (λ o. o ≡ end) }
{
    let Some(node) = end else {
        return Some(None);
    };
    if node < 1 << 32 {
        Some(Some(node as u32))
    } else {
        None
    }
}

/// The triples with these ends and this predicate.
#[inline(always)]
fn scanned<'v, V: View>(
    view: &'v V,
    active: Active,
    left: Option<u64>,
    predicate: Option<u32>,
    right: Option<u64>,
) -> Option<Triples<'v>>
    ensures { AreScanned (V.content view.now) (V.default_seen view.now) active left predicate right
        result }
{
    let subject = given(left)?;
    let object = given(right)?;
    Some(view.scan(active, subject, predicate, object))
}

/// The pairs of the triples with this predicate and these ends.
#[inline(always)]
pub fn along_scan<'v, V: View>(
    alloc: Global,
    edges: &Seen<'v, V>,
    predicate: &Iri,
    left: Option<u64>,
    right: Option<u64>,
) -> Result<Option<Scan<'v>>, AllocError>
    ensures { IfOk result (λ s. ArePairs (V.content edges.now.view.now).known
        (along (same_term (term_is.Iri predicate.now))
        (active_graph (V.content edges.now.view.now) (V.default_seen edges.now.view.now)
        edges.now.active)) left right (edges_in s)) }
{
    is_lawful(edges.view);
    let Some(number) = number_of_iri(edges.view, edges.kept.as_slice(), predicate)? else {
        return Ok(None);
    };
    match scanned(edges.view, edges.active, left, Some(number), right) {
        Some(triples) => Ok(Some(Scan {
            triples,
            outside: Vec::new(alloc),
        })),
        None => Ok(None),
    }
}

/// The numbers of the IRIs of the members of this direction, as far as they are known.
fn numbers_of<V: View>(
    alloc: Global,
    edges: &Seen<'_, V>,
    members: &[NegatedIri],
    inverse: bool,
) -> Result<Vec<u32>, AllocError>
    requires { IsSeen (V.content edges.now.view.now) }
    ensures { IfOk result (λ ns. AreOutside (V.content edges.now.view.now).known inverse members.now
        ns.items) }
{
    let mut numbers = Vec::new(alloc);
    for member in members {
        put_number(edges, member, inverse, &mut numbers)?;
    }
    Ok(numbers)
}

/// Puts the number of the member's IRI, where it is of this direction and known.
fn put_number<V: View>(
    edges: &Seen<'_, V>,
    member: &NegatedIri,
    inverse: bool,
    numbers: &mut Vec<u32>,
) -> Result<(), AllocError>
    ensures { OnOk result (numbers.new.items ≡ numbers.old.items ++ number_out
        (V.content edges.now.view.now).known inverse member.now) }
{
    if is_of(member, inverse) {
        if let Some(number) = number_of_iri(edges.view, edges.kept.as_slice(), &member.iri)? {
            numbers.push(number)?;
        }
    }
    Ok(())
}

/// The pairs of the triples with these ends whose predicate none of the members of this direction names.
pub fn outside_scan<'v, V: View>(
    alloc: Global,
    edges: &Seen<'v, V>,
    members: &[NegatedIri],
    inverse: bool,
    left: Option<u64>,
    right: Option<u64>,
) -> Result<Option<Scan<'v>>, AllocError>
    ensures { IfOk result (λ s. ArePairs (V.content edges.now.view.now).known
        (along (is_outside inverse members.now)
        (active_graph (V.content edges.now.view.now) (V.default_seen edges.now.view.now)
        edges.now.active)) left right (edges_in s)) }
{
    is_lawful(edges.view);
    let outside = numbers_of(alloc, edges, members, inverse)?;
    match scanned(edges.view, edges.active, left, None, right) {
        Some(triples) => Ok(Some(Scan { triples, outside })),
        None => Ok(None),
    }
}

/// Whether a triple begins or ends at the node.
fn is_node<V: View>(view: &V, active: Active, node: u64) -> bool
    ensures { TellsNode (V.content view.now).known
        (active_graph (V.content view.now) (V.default_seen view.now) active) node result }
{
    is_lawful(view);
    if node >= 1 << 32 {
        return false;
    }
    let number = node as u32;
    let mut from = view.scan(active, Some(number), None, None);
    if from.next().is_some() {
        return true;
    }
    let mut to = view.scan(active, None, None, Some(number));
    to.next().is_some()
}

impl<'v, V: View> Source for Seen<'v, V> {
    ghost graph = { λ s. active_graph (V.content s.view.now) (V.default_seen s.view.now) s.active };

    ghost known = { λ s. (V.content s.view.now).known };

    fn along(
        &self,
        alloc: Global,
        predicate: &Iri,
        left: Option<u64>,
        right: Option<u64>,
    ) -> Result<Vec<NodePair>, AllocError> {
        let scan = along_scan(alloc, self, predicate, left, right)?;
        let pairs = collected(alloc, scan)?;
        Ok(pairs)
    }

    fn outside(
        &self,
        alloc: Global,
        members: &[NegatedIri],
        inverse: bool,
        left: Option<u64>,
        right: Option<u64>,
    ) -> Result<Vec<NodePair>, AllocError> {
        let scan = outside_scan(alloc, self, members, inverse, left, right)?;
        let pairs = collected(alloc, scan)?;
        Ok(pairs)
    }

    fn has_node(&self, node: u64) -> bool {
        is_node(self.view, self.active, node)
    }
}
