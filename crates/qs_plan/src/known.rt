//! Which variables are bound before a stage, as far as the order of runs goes by it.

ghost use Rattle.std.specs.Prelude.{◌≡◌, true, replicate, IfOk};

use qs_algebra_patterns::Slot;
use qs_plan_meaning::{Group, Stage};
use std::alloc::{AllocError, Global};
use std::collections::BTreeSet;

/// The variables that are bound so far.
#[derive(Drop)]
pub(crate) struct Known {
    set: BTreeSet<usize>,
    /// Those of the set, in the order in which they came.
    list: Vec<usize>,
}

impl Known {
    /// None is bound.
    pub(crate) fn new(alloc: Global) -> Known {
        Known {
            set: BTreeSet::new(alloc),
            list: Vec::new(alloc),
        }
    }

    /// Whether the variable is bound.
    pub(crate) fn has(&self, variable: usize) -> bool {
        self.set.contains(&variable)
    }

    /// Adds the variable, and tells whether it is new.
    pub(crate) fn add(&mut self, variable: usize) -> Result<bool, AllocError> {
        if self.set.contains(&variable) {
            return Ok(false);
        }
        self.list.push(variable)?;
        self.set.insert(variable)?;
        Ok(true)
    }

    /// Adds the variables that the stage binds.
    pub(crate) fn add_stage(&mut self, alloc: Global, stage: &Stage) -> Result<(), AllocError> {
        let variables = variables_of(alloc, stage)?;
        for variable in variables.as_slice() {
            self.add(*variable)?;
        }
        Ok(())
    }

    /// How many there are.
    pub(crate) fn len(&self) -> usize {
        self.list.len()
    }

    /// Forgets all that came after the first `count`.
    pub(crate) fn cut(&mut self, count: usize) {
        for at in count..self.list.len() {
            if let Some(variable) = self.list.get(at) {
                self.set.remove(variable);
            }
        }
        self.list.truncate(count);
    }
}

/// As many flags, none set.
pub(crate) fn no_flags(alloc: Global, count: usize) -> Result<Vec<bool>, AllocError> {
    Ok(vec![in alloc; false; count]?)
}

/// As many flags, all set.
pub(crate) fn all_flags(alloc: Global, count: usize) -> Result<Vec<bool>, AllocError>
    ensures { IfOk result (λ flags. flags.items ≡ replicate count true) }
{
    Ok(vec![in alloc; true; count]?)
}

fn push_slot(variables: &mut Vec<usize>, slot: &Slot) -> Result<(), AllocError> {
    match slot {
        Slot::Term(_) => {}
        Slot::Variable(variable) => variables.push(*variable)?,
    }
    Ok(())
}

/// The variables that the stage binds. A triple, a path and a table have one for each place that holds one, and the places of a table are its
/// columns. A union has those that each of its branches binds, and a group by itself those that its stages bind, each once.
#[cycle(bound)]
pub(crate) fn variables_of(alloc: Global, stage: &Stage) -> Result<Vec<usize>, AllocError> {
    let mut variables = Vec::new(alloc);
    match stage {
        Stage::Triple(_, pattern) => {
            push_slot(&mut variables, &pattern.subject)?;
            push_slot(&mut variables, &pattern.predicate)?;
            push_slot(&mut variables, &pattern.object)?;
        }
        Stage::Path(_, pattern) => {
            push_slot(&mut variables, &pattern.subject)?;
            push_slot(&mut variables, &pattern.object)?;
        }
        Stage::Name(variable, _) => variables.push(*variable)?,
        Stage::Bind(variable, _) => variables.push(*variable)?,
        Stage::Values(table) => variables.extend_from_slice(table.get().variables.as_slice())?,
        Stage::Union(branches) => return variables_of_branches(alloc, branches.as_slice()),
        Stage::Apart(_, group) => return variables_of_stages(alloc, group.stages.as_slice()),
        _ => {}
    }
    Ok(variables)
}

/// The variables that the stages bind, each once, in ascending order.
#[cycle(bound)]
pub(crate) fn variables_of_stages(
    alloc: Global,
    stages: &[Stage],
) -> Result<Vec<usize>, AllocError> {
    let mut all = Vec::new(alloc);
    for stage in stages {
        let own = variables_of(alloc, stage)?;
        all.extend_from_slice(own.as_slice())?;
    }
    all.sort_unstable();
    repeated(alloc, all.as_slice(), 1)
}

/// The variables that each branch binds, each once, in ascending order.
#[cycle(bound)]
fn variables_of_branches(alloc: Global, branches: &[Group]) -> Result<Vec<usize>, AllocError> {
    let mut all = Vec::new(alloc);
    for branch in branches {
        let own = variables_of_stages(alloc, branch.stages.as_slice())?;
        all.extend_from_slice(own.as_slice())?;
    }
    all.sort_unstable();
    repeated(alloc, all.as_slice(), branches.len())
}

/// Whether the variable at the place is the one before it.
fn is_repeated(variables: &[usize], at: usize) -> bool {
    if at == 0 || variables.len() <= at {
        return false;
    }
    variables[at - 1] == variables[at]
}

/// Of variables in ascending order those that stand so many times at least, each once.
fn repeated(alloc: Global, variables: &[usize], times: usize) -> Result<Vec<usize>, AllocError> {
    let mut found = Vec::new(alloc);
    let mut count: usize = 0;
    for at in 0..variables.len() {
        count = if is_repeated(variables, at) {
            count.saturating_add(1)
        } else {
            1
        };
        if count == times {
            found.push(variables[at])?;
        }
    }
    Ok(found)
}
