//! Which patterns may be evaluated again for each row at a small cost: triples, short tables, groups, unions and named graphs of them, and
//! groups that have such an OPTIONAL. A closure or a negated set is left out: where the row binds none of its ends, all its pairs would be
//! found for each row. So is a part that is evaluated by itself: that would be done for each row.

use crate::few::is_short;
use qs_algebra_patterns::{BasicPattern, PatternNode, Step};
use qs_plan_meaning::{Group, Stage};
use qs_syntax_ast::path::Path;

/// Whether the path becomes triples alone.
#[cycle(joined)]
fn is_joined(path: &Path) -> bool {
    match path {
        Path::Iri(_) => true,
        Path::NegatedSet(_) => false,
        Path::Repeated(_, _) => false,
        Path::Inverse(inner) => is_joined(inner.get()),
        Path::Alternative(parts) => are_joined(parts.as_slice()),
        Path::Sequence(parts) => are_joined(parts.as_slice()),
    }
}

#[cycle(joined)]
fn are_joined(parts: &[Path]) -> bool {
    for part in parts {
        if !is_joined(part) {
            return false;
        }
    }
    true
}

fn becomes_triples(basic: &BasicPattern) -> bool {
    for pattern in basic.paths.as_slice() {
        if !is_joined(pattern.path.get()) {
            return false;
        }
    }
    true
}

/// Whether the pattern holds no OPTIONAL, and costs little for each row that it is fed.
#[cycle(flat)]
fn is_flat(part: &PatternNode) -> bool {
    match part {
        PatternNode::Basic(basic) => becomes_triples(basic),
        PatternNode::Values(table) => is_short(table),
        PatternNode::Group(steps, _) => are_flat_steps(steps.as_slice()),
        PatternNode::Union(parts) => are_flat(parts.as_slice()),
        PatternNode::Graph(_, part) => is_flat(part.get()),
        PatternNode::EachGraph(_, part) => is_flat(part.get()),
    }
}

#[cycle(flat)]
fn are_flat(parts: &[PatternNode]) -> bool {
    for part in parts {
        if !is_flat(part) {
            return false;
        }
    }
    true
}

#[cycle(flat)]
fn are_flat_steps(steps: &[Step]) -> bool {
    for one in steps {
        if !is_flat_step(one) {
            return false;
        }
    }
    true
}

#[cycle(flat)]
fn is_flat_step(one: &Step) -> bool {
    match one {
        Step::Join(part) => is_flat(part),
        _ => false,
    }
}

/// Whether the pattern costs little for each row that it is fed.
#[cycle(feedable)]
pub(crate) fn is_feedable(part: &PatternNode) -> bool {
    match part {
        PatternNode::Group(steps, _) => are_feedable_steps(steps.as_slice()),
        _ => is_flat(part),
    }
}

#[cycle(feedable)]
fn are_feedable_steps(steps: &[Step]) -> bool {
    for one in steps {
        if !is_feedable_step(one) {
            return false;
        }
    }
    true
}

#[cycle(feedable)]
fn is_feedable_step(one: &Step) -> bool {
    match one {
        Step::Join(part) => is_flat(part),
        Step::LeftJoin(part, _) => is_feedable(part),
        _ => false,
    }
}

/// Whether the stage holds no group that is evaluated by itself.
#[cycle(in_line)]
fn is_in_line(stage: &Stage) -> bool {
    match stage {
        Stage::Union(branches) => are_branches_in_line(branches.as_slice()),
        Stage::Fed(group, _) => are_in_line(group.stages.as_slice()),
        Stage::Optional(_, _, _) => false,
        Stage::Minus(_, _) => false,
        Stage::Apart(_, _) => false,
        _ => true,
    }
}

/// Whether the stages hold no group that is evaluated by itself.
#[cycle(in_line)]
pub(crate) fn are_in_line(stages: &[Stage]) -> bool {
    for stage in stages {
        if !is_in_line(stage) {
            return false;
        }
    }
    true
}

#[cycle(in_line)]
fn are_branches_in_line(branches: &[Group]) -> bool {
    for branch in branches {
        if !are_in_line(branch.stages.as_slice()) {
            return false;
        }
    }
    true
}
