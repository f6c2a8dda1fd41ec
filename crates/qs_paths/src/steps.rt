//! The pairs of a negated set, and lists of pairs put together.

ghost use Rattle.std.specs.Prelude.{◌≡◌, ◌++◌, [], ◌∷◌, ◌||◌, true, false, map, if◌then◌else◌, IfOk, OnOk};
ghost use Rattle.std.specs.List.{filter, list_any};
ghost use Rattle.qs_paths_meaning.specs.Steps.{is_none, negated};
ghost use Rattle.qs_paths.specs.inner.Nodes.{ArePairs, agrees_node, forward_pairs, from_nodes, into_nodes, inverse_pairs, node_pair, swapped_nodes};

use crate::node::{NodePair, agrees};
use crate::source::Source;
use qs_syntax_ast::path::NegatedIri;
use std::alloc::{AllocError, Global};

/// Puts the pair at the end, where it is one.
fn put_if(pairs: &mut Vec<NodePair>, is_one: bool, left: u64, right: u64) -> Result<(), AllocError>
    ensures { OnOk result
        (pairs.new.items ≡ pairs.old.items ++ (if is_one then node_pair left right ∷ [] else [])) }
{
    if is_one {
        pairs.push(NodePair { left, right })?;
    }
    Ok(())
}

/// Puts (x, z) at the end for each (y, z), where the first is (x, y).
#[tactic(auto, using(crate::proofs::Names::from_more))]
pub fn put_from(
    pairs: &mut Vec<NodePair>,
    first: NodePair,
    seconds: &[NodePair],
) -> Result<(), AllocError>
    ensures { OnOk result (pairs.new.items ≡ pairs.old.items ++ from_nodes seconds.now first) }
{
    for second in seconds {
        put_if(pairs, first.right == second.left, first.left, second.right)?;
    }
    Ok(())
}

/// Puts (x, z) at the end for each (x, y), where the second is (y, z).
#[tactic(auto, using(crate::proofs::Names::into_more))]
pub fn put_into(
    pairs: &mut Vec<NodePair>,
    firsts: &[NodePair],
    second: NodePair,
) -> Result<(), AllocError>
    ensures { OnOk result (pairs.new.items ≡ pairs.old.items ++ into_nodes firsts.now second) }
{
    for first in firsts {
        put_if(pairs, first.right == second.left, first.left, second.right)?;
    }
    Ok(())
}

/// Puts the pairs from a node to those that agree with the right end.
#[tactic(auto, using(crate::proofs::Names::ends_more))]
pub fn put_ends(
    pairs: &mut Vec<NodePair>,
    start: u64,
    ends: &[u64],
    right: Option<u64>,
) -> Result<(), AllocError>
    ensures { OnOk result (pairs.new.items ≡ pairs.old.items ++ map (node_pair start)
        (filter (agrees_node right) ends.now)) }
{
    for end in ends {
        put_if(pairs, agrees(right, *end), start, *end)?;
    }
    Ok(())
}

fn swap_all(pairs: &mut [NodePair])
    ensures { pairs.new ≡ map swapped_nodes pairs.old }
{
    for pair in pairs.iter_mut() {
        *pair = pair.swapped();
    }
}

/// The pairs with their ends exchanged.
pub fn swapped(pairs: Vec<NodePair>) -> Vec<NodePair>
    ensures { result.items ≡ map swapped_nodes pairs.items }
{
    let mut swapped = pairs;
    swap_all(swapped.as_mut_slice());
    swapped
}

pub(crate) fn is_of(member: &NegatedIri, inverse: bool) -> bool
    ensures { result ≡ Rattle.qs_paths_meaning.specs.Steps.is_of inverse member.now }
{
    if inverse {
        member.inverse
    } else {
        !member.inverse
    }
}

/// Whether the set has a member of this direction.
pub(crate) fn has_any_of(members: &[NegatedIri], inverse: bool) -> bool
    ensures { result ≡ list_any (Rattle.qs_paths_meaning.specs.Steps.is_of inverse) members.now }
{
    members.iter().any(|member| is_of(member, inverse))
}

/// Whether the set has a forward part: it names a forward IRI or nothing.
pub(crate) fn has_forward(members: &[NegatedIri]) -> bool
    ensures { result ≡ (list_any (Rattle.qs_paths_meaning.specs.Steps.is_of false) members.now
        || is_none members.now) }
{
    has_any_of(members, false) || members.is_empty()
}

fn forward_part<E: Source>(
    alloc: Global,
    edges: &E,
    members: &[NegatedIri],
    left: Option<u64>,
    right: Option<u64>,
) -> Result<Vec<NodePair>, AllocError>
    ensures { IfOk result
        (λ ps. ArePairs (E.known edges.now) (forward_pairs members.now (E.graph edges.now)) left
        right ps.items) }
{
    if has_forward(members) {
        let pairs = edges.outside(alloc, members, false, left, right)?;
        return Ok(pairs);
    }
    Ok(Vec::new(alloc))
}

fn inverse_part<E: Source>(
    alloc: Global,
    edges: &E,
    members: &[NegatedIri],
    left: Option<u64>,
    right: Option<u64>,
) -> Result<Vec<NodePair>, AllocError>
    ensures { IfOk result
        (λ ps. ArePairs (E.known edges.now) (inverse_pairs members.now (E.graph edges.now)) left
        right ps.items) }
{
    if has_any_of(members, true) {
        let pairs = edges.outside(alloc, members, true, right, left)?;
        let turned = swapped(pairs);
        return Ok(turned);
    }
    Ok(Vec::new(alloc))
}

/// The pairs of a negated set.
pub fn negated<E: Source>(
    alloc: Global,
    edges: &E,
    members: &[NegatedIri],
    left: Option<u64>,
    right: Option<u64>,
) -> Result<Vec<NodePair>, AllocError>
    ensures { IfOk result
        (λ ps. ArePairs (E.known edges.now) (negated members.now (E.graph edges.now)) left right
        ps.items) }
{
    let mut pairs = forward_part(alloc, edges, members, left, right)?;
    let mut more = inverse_part(alloc, edges, members, left, right)?;
    pairs.append(&mut more)?;
    Ok(pairs)
}
