//! Plain patterns: triples, paths and VALUES alone.

ghost use Rattle.std.specs.Prelude.{◌≡◌, ◌≤◌, true, take, length};
ghost use Rattle.std.specs.List.{AllByRecursion};
ghost use Rattle.qs_plan.specs.inner.Lays.{IsJoin};

use qs_algebra_patterns::{PatternNode, Step};

/// Whether the pattern holds triples, paths and VALUES alone.
#[cycle(plain)]
fn is_plain(part: &PatternNode) -> bool {
    match part {
        PatternNode::Basic(_) => true,
        PatternNode::Values(_) => true,
        PatternNode::Group(steps, conditions) => {
            conditions.is_empty() && are_plain_steps(steps.as_slice())
        }
        PatternNode::Union(parts) => are_plain(parts.as_slice()),
        PatternNode::Graph(_, part) => is_plain(part.get()),
        PatternNode::EachGraph(_, part) => is_plain(part.get()),
    }
}

#[cycle(plain)]
fn are_plain(parts: &[PatternNode]) -> bool {
    for part in parts {
        if !is_plain(part) {
            return false;
        }
    }
    true
}

#[cycle(plain)]
pub(crate) fn are_plain_steps(steps: &[Step]) -> bool {
    for one in steps {
        if !is_plain_step(one) {
            return false;
        }
    }
    true
}

#[cycle(plain)]
fn is_plain_step(one: &Step) -> bool {
    match one {
        Step::Join(part) => is_plain(part),
        _ => false,
    }
}

/// Whether the pattern holds triples, paths and VALUES alone, and conditions on all of them.
pub(crate) fn is_filtered_plain(part: &PatternNode) -> bool {
    match part {
        PatternNode::Group(steps, _) => are_plain_steps(steps.as_slice()),
        _ => is_plain(part),
    }
}

/// Whether the step joins a pattern.
fn is_join(one: &Step) -> bool
    ensures { result ≡ true → IsJoin one.now }
{
    match one {
        Step::Join(_) => true,
        _ => false,
    }
}

/// Whether each of the steps joins a pattern.
pub(crate) fn are_joins(steps: &[Step]) -> bool
    ensures { result ≡ true → AllByRecursion IsJoin steps.now }
{
    for one in steps {
        if !is_join(one) {
            return false;
        }
    }
    true
}

/// How many of the first steps join a pattern that is plain.
pub(crate) fn plain_front(steps: &[Step]) -> usize
    ensures within { result ≤ length steps.now }
    ensures joins { AllByRecursion IsJoin (take result steps.now) }
{
    for at in 0..steps.len() {
        if !is_join(&steps[at]) || !is_plain_step(&steps[at]) {
            return at;
        }
    }
    steps.len()
}
