//! Closures with both ends open: the path's pairs are found once, and walks followed along them; under `+` from their left ends, else from
//! each node. From a node that leads to just what the last walk found no walk is followed.
//!
//! The pairs are links between numbers, so nothing is looked up or hashed while a walk is followed. They are all in memory, and may be more
//! than the pairs of the closure. From an end that is given a walk asks the graph instead (`walk.rt`).

ghost use Rattle.std.specs.Prelude.{◌≡◌, ◌≢◌, ◌<◌, ℕ, [], length, map, get_or, None, true, slice_index_or, IfOk, IfSome, OnOk};
ghost use Rattle.qs_paths.specs.declared.links.Placed.{Placed as PlacedValue};
ghost use Rattle.std.specs.List.{list_any};
ghost use Rattle.qs_paths_meaning.specs.Closure.{closure};
ghost use Rattle.qs_paths_meaning.specs.inner.Links.{IsMarked, rows_of, same_number};
ghost use Rattle.qs_paths_meaning.specs.Pairs.{is_step, pairs};
ghost use Rattle.qs_syntax_tree.specs.declared.path.Repetition.TheVariants.{ZeroOrOne};
ghost use Rattle.qs_paths.specs.inner.Links.{AreAlike, IsWeb, LinkSteps, StandsAt, nodes_at};
ghost use Rattle.qs_paths.specs.inner.Nodes.{AreBegun, AreEnds, ArePairs, AreStarts, NamesNode};

use crate::found::{Found, left_ends, nodes};
use crate::links::{Links, Placed, links_of};
use crate::node::NodePair;
use crate::reached::{Reached, put_reached};
use crate::source::Source;
use crate::sweep::put_in_order;
use qs_syntax_ast::path::Path;
use qs_syntax_tree::path::Repetition;
use std::alloc::{AllocError, Global};

/// Nodes from which all pairs of the closure lead. For `+` these are the left ends of the path's pairs: from another node no walk takes
/// a step.
fn starts_of<E: Source>(
    alloc: Global,
    edges: &E,
    path: &Path,
    repetition: Repetition,
    steps: &[NodePair],
) -> Result<Found, AllocError>
    requires { ArePairs (E.known edges.now) (pairs (E.graph edges.now) path.now) None None
        steps.now }
    ensures { IfOk result (λ f. AreStarts (E.known edges.now) (E.graph edges.now)
        (pairs (E.graph edges.now) path.now) repetition f.nodes.keys) }
{
    match repetition {
        Repetition::OneOrMore => {
            let lefts = left_ends(alloc, steps)?;
            Ok(lefts)
        }
        _ => {
            let all = nodes(alloc, edges)?;
            Ok(all)
        }
    }
}

/// The pairs of a closure that begin at these places.
fn rows_from<E: Source>(
    alloc: Global,
    edges: &E,
    path: &Path,
    repetition: Repetition,
    links: &Links,
    starts: &[Placed],
) -> Result<Vec<NodePair>, AllocError>
    requires web { IsWeb links.now.nodes.keys (rows_of links.now.next.items) }
    requires links { LinkSteps (E.known edges.now) links.now.nodes.keys
        (rows_of links.now.next.items) (pairs (E.graph edges.now) path.now) }
    requires at { (i : ℕ) → (s : PlacedValue) → i < length starts.now → s ≡ get_or starts.now i s
        → StandsAt links.now.nodes.keys s.place s.node }
    requires node { (i : ℕ) → (s : PlacedValue) → i < length starts.now
        → s ≡ get_or starts.now i s → NamesNode (E.known edges.now) (E.graph edges.now) s.node }
    requires starts { AreStarts (E.known edges.now) (E.graph edges.now)
        (pairs (E.graph edges.now) path.now) repetition (map (λ s. s.node) starts.now) }
    ensures { IfOk result
        (λ ps. ArePairs (E.known edges.now)
        (closure repetition (is_step (pairs (E.graph edges.now) path.now)) (E.graph edges.now))
        None None ps.items) }
{
    let count = links.nodes.as_slice().len();
    let mut found = Reached::new(alloc, count)?;
    let mut alike = Reached::new(alloc, count)?;
    let mut rows = Vec::new(alloc);
    for start in starts {
        reach(
            edges, path, repetition, links, *start, &mut found, &mut alike,
        )?;
        put_reached(
            &mut rows,
            links.nodes.as_slice(),
            start.node,
            found.numbers.as_slice(),
        )?;
    }
    Ok(rows)
}

/// The pairs of a closure, both ends of which are open, by the pairs of its path.
pub fn linked_from_all<E: Source>(
    alloc: Global,
    edges: &E,
    path: &Path,
    repetition: Repetition,
    steps: &[NodePair],
) -> Result<Vec<NodePair>, AllocError>
    requires { ArePairs (E.known edges.now) (pairs (E.graph edges.now) path.now) None None
        steps.now }
    ensures { IfOk result
        (λ ps. ArePairs (E.known edges.now)
        (closure repetition (is_step (pairs (E.graph edges.now) path.now)) (E.graph edges.now))
        None None ps.items) }
{
    let mut links = links_of(alloc, steps)?;
    let ends = starts_of(alloc, edges, path, repetition, steps)?;
    let mut starts = links.placed(alloc, ends.nodes.as_slice())?;
    put_in_order(alloc, &links, &mut starts)?;
    rows_from(alloc, edges, path, repetition, &links, starts.as_slice())
}

/// A place that leads to what was found, and that a link leads to from the start, which was found too: then the start leads to just that.
fn place_alike(
    repetition: Repetition,
    links: &Links,
    start: Placed,
    found: &Reached,
    alike: &Reached,
) -> Option<usize>
    requires web { IsWeb links.now.nodes.keys (rows_of links.now.next.items) }
    requires at { StandsAt links.now.nodes.keys start.place start.node }
    requires long { length found.now.rounds.items ≡ length links.now.nodes.keys }
    requires marked { IsMarked found.now.round found.now.rounds.items found.now.numbers.items }
    requires long_alike { length alike.now.rounds.items ≡ length links.now.nodes.keys }
    requires marked_alike { IsMarked alike.now.round alike.now.rounds.items
        alike.now.numbers.items }
    ensures closing { IfSome result (λ n. repetition ≢ ZeroOrOne) }
    ensures found { IfSome result (λ n. list_any (same_number start.place) found.now.numbers.items
        ≡ true) }
    ensures row { IfSome result
        (λ n. list_any (same_number n) (slice_index_or (rows_of links.now.next.items) start.place
        []) ≡ true) }
    ensures alike { IfSome result (λ n. list_any (same_number n) alike.now.numbers.items ≡ true) }
{
    match repetition {
        Repetition::ZeroOrOne => None,
        _ => {
            if found.has(start.place) {
                links.reached_from(start.place, alike)
            } else {
                None
            }
        }
    }
}

/// Finds what the closure leads to from a node, each once, by a walk, unless it is what was found before.
fn walk_unless_alike<E: Source>(
    edges: &E,
    path: &Path,
    repetition: Repetition,
    links: &Links,
    start: Placed,
    found: &mut Reached,
    alike: &mut Reached,
) -> Result<(), AllocError>
    requires web { IsWeb links.now.nodes.keys (rows_of links.now.next.items) }
    requires links { LinkSteps (E.known edges.now) links.now.nodes.keys
        (rows_of links.now.next.items) (pairs (E.graph edges.now) path.now) }
    requires at { StandsAt links.now.nodes.keys start.place start.node }
    requires node { NamesNode (E.known edges.now) (E.graph edges.now) start.node }
    requires long { length found.old.rounds.items ≡ length links.now.nodes.keys }
    requires marked { IsMarked found.old.round found.old.rounds.items found.old.numbers.items }
    requires long_alike { length alike.old.rounds.items ≡ length links.now.nodes.keys }
    requires marked_alike { IsMarked alike.old.round alike.old.rounds.items
        alike.old.numbers.items }
    requires alike { AreAlike (E.known edges.now) repetition (pairs (E.graph edges.now) path.now)
        (E.graph edges.now) links.now.nodes.keys found.old.numbers.items alike.old.numbers.items }
    ensures ends { OnOk result
        (AreEnds (E.known edges.now) repetition (pairs (E.graph edges.now) path.now)
        (E.graph edges.now) start.node
        (nodes_at start.node links.now.nodes.keys found.new.numbers.items)) }
    ensures long { OnOk result (length found.new.rounds.items ≡ length links.now.nodes.keys) }
    ensures marked { OnOk result
        (IsMarked found.new.round found.new.rounds.items found.new.numbers.items) }
    ensures long_alike { OnOk result (length alike.new.rounds.items ≡ length links.now.nodes.keys) }
    ensures marked_alike { OnOk result
        (IsMarked alike.new.round alike.new.rounds.items alike.new.numbers.items) }
    ensures alike { OnOk result
        (AreAlike (E.known edges.now) repetition (pairs (E.graph edges.now) path.now)
        (E.graph edges.now) links.now.nodes.keys found.new.numbers.items
        alike.new.numbers.items) }
{
    if place_alike(repetition, links, start, found, alike).is_some() {
        return Ok(());
    }
    walk(edges, path, repetition, links, start, found)?;
    alike.clear()?;
    Ok(())
}

/// Finds what the closure leads to from a node, each once, and keeps the node's place among those that lead to it.
fn reach<E: Source>(
    edges: &E,
    path: &Path,
    repetition: Repetition,
    links: &Links,
    start: Placed,
    found: &mut Reached,
    alike: &mut Reached,
) -> Result<(), AllocError>
    requires web { IsWeb links.now.nodes.keys (rows_of links.now.next.items) }
    requires links { LinkSteps (E.known edges.now) links.now.nodes.keys
        (rows_of links.now.next.items) (pairs (E.graph edges.now) path.now) }
    requires at { StandsAt links.now.nodes.keys start.place start.node }
    requires node { NamesNode (E.known edges.now) (E.graph edges.now) start.node }
    requires long { length found.old.rounds.items ≡ length links.now.nodes.keys }
    requires marked { IsMarked found.old.round found.old.rounds.items found.old.numbers.items }
    requires long_alike { length alike.old.rounds.items ≡ length links.now.nodes.keys }
    requires marked_alike { IsMarked alike.old.round alike.old.rounds.items
        alike.old.numbers.items }
    requires alike { AreAlike (E.known edges.now) repetition (pairs (E.graph edges.now) path.now)
        (E.graph edges.now) links.now.nodes.keys found.old.numbers.items alike.old.numbers.items }
    ensures ends { OnOk result
        (AreEnds (E.known edges.now) repetition (pairs (E.graph edges.now) path.now)
        (E.graph edges.now) start.node
        (nodes_at start.node links.now.nodes.keys found.new.numbers.items)) }
    ensures long { OnOk result (length found.new.rounds.items ≡ length links.now.nodes.keys) }
    ensures marked { OnOk result
        (IsMarked found.new.round found.new.rounds.items found.new.numbers.items) }
    ensures long_alike { OnOk result (length alike.new.rounds.items ≡ length links.now.nodes.keys) }
    ensures marked_alike { OnOk result
        (IsMarked alike.new.round alike.new.rounds.items alike.new.numbers.items) }
    ensures alike { OnOk result
        (AreAlike (E.known edges.now) repetition (pairs (E.graph edges.now) path.now)
        (E.graph edges.now) links.now.nodes.keys found.new.numbers.items
        alike.new.numbers.items) }
{
    walk_unless_alike(edges, path, repetition, links, start, found, alike)?;
    alike.add(start.place)?;
    Ok(())
}

/// Finds what the closure leads to from a node, each once, by a walk.
fn walk<E: Source>(
    edges: &E,
    path: &Path,
    repetition: Repetition,
    links: &Links,
    start: Placed,
    found: &mut Reached,
) -> Result<(), AllocError>
    requires web { IsWeb links.now.nodes.keys (rows_of links.now.next.items) }
    requires links { LinkSteps (E.known edges.now) links.now.nodes.keys
        (rows_of links.now.next.items) (pairs (E.graph edges.now) path.now) }
    requires at { StandsAt links.now.nodes.keys start.place start.node }
    requires node { NamesNode (E.known edges.now) (E.graph edges.now) start.node }
    requires long { length found.old.rounds.items ≡ length links.now.nodes.keys }
    requires marked { IsMarked found.old.round found.old.rounds.items found.old.numbers.items }
    ensures ends { OnOk result
        (AreEnds (E.known edges.now) repetition (pairs (E.graph edges.now) path.now)
        (E.graph edges.now) start.node
        (nodes_at start.node links.now.nodes.keys found.new.numbers.items)) }
    ensures long { OnOk result (length found.new.rounds.items ≡ length links.now.nodes.keys) }
    ensures marked { OnOk result
        (IsMarked found.new.round found.new.rounds.items found.new.numbers.items) }
{
    found.clear()?;
    begin(edges, path, repetition, links, start, found)?;
    match repetition {
        Repetition::ZeroOrOne => Ok(()),
        _ => {
            follow(edges, path, repetition, links, start, found)?;
            Ok(())
        }
    }
}

/// Puts what is led to before the search: by no step, or by one.
fn begin<E: Source>(
    edges: &E,
    path: &Path,
    repetition: Repetition,
    links: &Links,
    start: Placed,
    found: &mut Reached,
) -> Result<(), AllocError>
    requires web { IsWeb links.now.nodes.keys (rows_of links.now.next.items) }
    requires links { LinkSteps (E.known edges.now) links.now.nodes.keys
        (rows_of links.now.next.items) (pairs (E.graph edges.now) path.now) }
    requires at { StandsAt links.now.nodes.keys start.place start.node }
    requires node { NamesNode (E.known edges.now) (E.graph edges.now) start.node }
    requires empty { found.old.numbers.items ≡ [] }
    requires long { length found.old.rounds.items ≡ length links.now.nodes.keys }
    requires marked { IsMarked found.old.round found.old.rounds.items found.old.numbers.items }
    ensures holds { OnOk result
        (AreBegun (E.known edges.now) repetition (pairs (E.graph edges.now) path.now) start.node
        (nodes_at start.node links.now.nodes.keys found.new.numbers.items)) }
    ensures long { OnOk result (length found.new.rounds.items ≡ length links.now.nodes.keys) }
    ensures marked { OnOk result
        (IsMarked found.new.round found.new.rounds.items found.new.numbers.items) }
{
    match repetition {
        Repetition::ZeroOrOne => {
            found.add(start.place)?;
            links.lead_on(start.place, found)?;
            Ok(())
        }
        Repetition::ZeroOrMore => found.add(start.place),
        Repetition::OneOrMore => {
            links.lead_on(start.place, found)?;
            Ok(())
        }
    }
}

/// Breadth first: goes on from each number that was found, once, until nothing new is found.
fn follow<E: Source>(
    edges: &E,
    path: &Path,
    repetition: Repetition,
    links: &Links,
    start: Placed,
    found: &mut Reached,
) -> Result<(), AllocError>
    requires closing { repetition ≢ ZeroOrOne }
    requires web { IsWeb links.now.nodes.keys (rows_of links.now.next.items) }
    requires links { LinkSteps (E.known edges.now) links.now.nodes.keys
        (rows_of links.now.next.items) (pairs (E.graph edges.now) path.now) }
    requires node { NamesNode (E.known edges.now) (E.graph edges.now) start.node }
    requires long { length found.old.rounds.items ≡ length links.now.nodes.keys }
    requires marked { IsMarked found.old.round found.old.rounds.items found.old.numbers.items }
    requires holds { AreBegun (E.known edges.now) repetition (pairs (E.graph edges.now) path.now)
        start.node (nodes_at start.node links.now.nodes.keys found.old.numbers.items) }
    ensures ends { OnOk result
        (AreEnds (E.known edges.now) repetition (pairs (E.graph edges.now) path.now)
        (E.graph edges.now) start.node
        (nodes_at start.node links.now.nodes.keys found.new.numbers.items)) }
    ensures long { OnOk result (length found.new.rounds.items ≡ length links.now.nodes.keys) }
    ensures marked { OnOk result
        (IsMarked found.new.round found.new.rounds.items found.new.numbers.items) }
{
    let mut at = 0;
    while at < found.len() {
        let number = found.number(at);
        links.lead_on(number, found)?;
        at += 1;
    }
    Ok(())
}
