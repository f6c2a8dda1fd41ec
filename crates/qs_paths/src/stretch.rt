//! The pairs of one IRI or of a negated set, as a scan finds them.

ghost use Rattle.std.specs.Prelude.{◌≡◌, ℕ, IfOk};
ghost use Rattle.std.specs.Iterator.{YieldsFirst};
ghost use Rattle.qs_terms.specs.Term.{same_term};
ghost use Rattle.qs_terms.specs.declared.term.Term.TheVariants as term_is;
ghost use Rattle.qs_terms.specs.declared.term.Term.{Term};
ghost use Rattle.qs_paths_meaning.specs.Steps.{Graph, along, negated};
ghost use Rattle.qs_paths.specs.inner.Nodes.{inverse_pairs, named_end};
ghost use Rattle.qs_paths.specs.inner.Scans.{edges_in};
ghost use Rattle.qs_paths.specs.inner.Seen.{graph_in, known_in};
ghost use Rattle.qs_paths.specs.inner.State.{GivesEdge, OpensStretch, more_pairs, turn};

use crate::node::NodePair;
use crate::scan::{Scan, next_edge};
use crate::seen::{Seen, along_scan, outside_scan};
use crate::steps::{has_any_of, has_forward};
use qs_store::View;
use qs_syntax_ast::path::NegatedIri;
use qs_terms::Iri;
use std::alloc::{AllocError, Global};

/// The inverse part of a negated set, which is read after the forward part.
#[derive(Drop)]
pub struct More<'a> {
    pub members: &'a [NegatedIri],
    pub left: Option<u64>,
    pub right: Option<u64>,
}

/// A scan, whose pairs are turned where it reads against the direction of the path, and what is read after it.
#[derive(Drop)]
pub struct Stretch<'a> {
    pub scan: Option<Scan<'a>>,
    pub turned: bool,
    pub more: Option<More<'a>>,
}

/// The pairs of one IRI.
pub fn of_iri<'a, V: View>(
    alloc: Global,
    edges: &Seen<'a, V>,
    iri: &Iri,
    left: Option<u64>,
    right: Option<u64>,
) -> Result<Stretch<'a>, AllocError>
    ensures { IfOk result
        (λ s. OpensStretch (known_in V.content edges.now)
        (graph_in V.content V.default_seen edges.now)
        (along (same_term (term_is.Iri iri.now)) (graph_in V.content V.default_seen edges.now))
        left right s) }
{
    let scan = along_scan(alloc, edges, iri, left, right)?;
    Ok(Stretch {
        scan,
        turned: false,
        more: None,
    })
}

/// What is read after the forward part.
fn more_of<'a>(members: &'a [NegatedIri], left: Option<u64>, right: Option<u64>) -> Option<More<'a>>
    ensures { (graph : Graph) (name : ℕ → Term) → more_pairs graph name result
        ≡ inverse_pairs members.now graph (named_end name left) (named_end name right) }
{
    if has_any_of(members, true) {
        Some(More {
            members,
            left,
            right,
        })
    } else {
        None
    }
}

/// The pairs of a negated set.
pub fn of_set<'a, V: View>(
    alloc: Global,
    edges: &Seen<'a, V>,
    members: &'a [NegatedIri],
    left: Option<u64>,
    right: Option<u64>,
) -> Result<Stretch<'a>, AllocError>
    ensures { IfOk result
        (λ s. OpensStretch (known_in V.content edges.now)
        (graph_in V.content V.default_seen edges.now)
        (negated members.now (graph_in V.content V.default_seen edges.now)) left right s) }
{
    let more = more_of(members, left, right);
    if !has_forward(members) {
        return Ok(Stretch {
            scan: None,
            turned: false,
            more,
        });
    }
    let scan = outside_scan(alloc, edges, members, false, left, right)?;
    Ok(Stretch {
        scan,
        turned: false,
        more,
    })
}

/// The next pair of a scan, if there is one.
fn next_in(scan: &mut Option<Scan<'_>>) -> Option<NodePair>
    ensures { YieldsFirst edges_in scan.old result scan.new }
{
    match scan {
        Some(scan) => next_edge(scan),
        None => None,
    }
}

/// The pair, turned where the answer is to be.
#[inline(always)]
pub fn turned(pair: NodePair, turned: bool) -> NodePair
    ensures { result ≡ turn turned pair }
{
    if turned { pair.swapped() } else { pair }
}

/// The next pair.
#[inline(never)]
pub fn next_of_stretch<'a, V: View>(
    alloc: Global,
    edges: &Seen<'a, V>,
    stretch: &mut Stretch<'a>,
) -> Result<Option<NodePair>, AllocError>
    ensures { IfOk result
        (λ o. GivesEdge (known_in V.content edges.now) (graph_in V.content V.default_seen edges.now)
        stretch.old o stretch.new) }
{
    if let Some(pair) = next_in(&mut stretch.scan) {
        return Ok(Some(turned(pair, stretch.turned)));
    }
    let Some(more) = stretch.more.take() else {
        return Ok(None);
    };
    stretch.turned = true;
    stretch.scan = outside_scan(alloc, edges, more.members, true, more.right, more.left)?;
    match next_in(&mut stretch.scan) {
        Some(pair) => Ok(Some(pair.swapped())),
        None => Ok(None),
    }
}
