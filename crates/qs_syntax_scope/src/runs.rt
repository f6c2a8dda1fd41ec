//! The runs of triples of a WHERE, and the labels in them.

ghost use Rattle.std.specs.Prelude.{◌≡◌, OnOk};
ghost use Rattle.std.specs.List.{fold, flat_map};
ghost use Rattle.qs_syntax_scope.specs.inner.Met.{add_run};
ghost use Rattle.qs_syntax_scope.specs.Runs as spec;
ghost use Rattle.qs_syntax_scope.specs.inner.Runs as inner_spec;

use crate::labels;
use crate::met::Met;
use qs_syntax_ast::pattern::{GraphPattern, Group};
use std::alloc::AllocError;

/// Adds the runs of the group.
#[cycle(runs)]
pub fn group<'a>(met: &mut Met<'a>, group: &'a Group) -> Result<(), AllocError>
    ensures { OnOk result (met.new ≡ fold add_run met.old (spec.runs group.now)) }
{
    patterns(met, group.patterns.as_slice())
}

#[cycle(runs)]
fn patterns<'a>(met: &mut Met<'a>, all: &'a [GraphPattern]) -> Result<(), AllocError>
    ensures { OnOk result (met.new ≡ fold add_run met.old (inner_spec.patterns_runs all.now)) }
{
    for one in all {
        pattern(met, one)?;
    }
    Ok(())
}

#[cycle(runs)]
fn pattern<'a>(met: &mut Met<'a>, pattern: &'a GraphPattern) -> Result<(), AllocError>
    ensures { OnOk result (met.new ≡ fold add_run met.old (inner_spec.pattern_runs pattern.now)) }
{
    match pattern {
        GraphPattern::Triples(triples) => labels::add_run(met, triples.as_slice()),
        GraphPattern::Union(groups) => operands(met, groups.as_slice()),
        GraphPattern::Optional(inner) => group(met, inner),
        GraphPattern::Minus(inner) => group(met, inner),
        GraphPattern::Graph(_, inner) => group(met, inner),
        GraphPattern::Bind(_, _) => Ok(()),
        GraphPattern::Values(_) => Ok(()),
    }
}

#[cycle(runs)]
fn operands<'a>(met: &mut Met<'a>, all: &'a [Group]) -> Result<(), AllocError>
    ensures { OnOk result (met.new ≡ fold add_run met.old (inner_spec.groups_runs all.now)) }
{
    for one in all {
        group(met, one)?;
    }
    Ok(())
}
