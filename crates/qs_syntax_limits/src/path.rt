//! Property paths.

ghost use Rattle.std.specs.Prelude.{◌≡◌, map};
ghost use Rattle.qs_syntax_limits.specs.Large as spec;
ghost use Rattle.qs_syntax_limits.specs.inner.Parts as part;

use crate::place::{excess, first};
use qs_syntax_tree::path::{Path, PathOperand};

/// The first place in a path at which a chain has too many operands.
#[cycle(path)]
#[tactic(auto, using(crate::proofs::Rows::excess_none, crate::proofs::Rows::excess_more, crate::proofs::Rows::first_none))]
pub fn in_path(tree: &Path) -> Option<usize>
    ensures { result ≡ spec.excess (spec.path tree.now) }
{
    match tree {
        Path::Predicate(_) => None,
        Path::NegatedSet(members) => excess(members.as_slice()),
        Path::Alternative(all) | Path::Sequence(all) => in_operands(all.as_slice()),
        Path::Inverse(inner) | Path::Repeated(inner, _) => in_path(inner.get()),
    }
}

#[cycle(path)]
#[tactic(auto, using(crate::proofs::Rows::of_row))]
fn in_operands(all: &[PathOperand]) -> Option<usize>
    ensures { result ≡ spec.excess (spec.side_by_side (map part.path_operand all.now)) }
{
    let mut found = excess(all);
    for operand in all {
        found = first(found, in_path(&operand.path));
    }
    found
}
