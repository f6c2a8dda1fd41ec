//! Parts of a pattern that share no variable. A DISTINCT column is read from its own part: of the others it is only asked whether they have a row.
//! So these come after it in the plan.

use qs_algebra_patterns::{BasicPattern, Pattern, PatternNode, Slot, Step, TriplePattern};
use qs_expr_meaning::Expr;
use qs_plan::settle;
use std::alloc::{AllocError, Global};
use std::collections::{BTreeMap, BTreeSet};

/// Variables in parts. Two are in one part if a triple, a path, a table, a condition or a BIND has both, or a chain of these joins them.
#[derive(Drop)]
struct Joined {
    /// The part of each variable.
    homes: BTreeMap<usize, usize>,
    /// The variables of each part.
    members: Vec<Vec<usize>>,
    /// The variables that conditions read.
    tested: Vec<usize>,
}

impl Joined {
    /// The part of the variable: a new one where it has none.
    fn home(&mut self, alloc: Global, variable: usize) -> Result<usize, AllocError> {
        if let Some(home) = self.homes.get(&variable) {
            return Ok(*home);
        }
        let home = self.members.len();
        let mut own = Vec::new(alloc);
        own.push(variable)?;
        self.members.push(own)?;
        self.homes.insert(variable, home)?;
        Ok(home)
    }

    /// How many variables the part has.
    fn size(&self, home: usize) -> usize {
        match self.members.get(home) {
            Some(own) => own.len(),
            None => 0,
        }
    }

    /// Moves the variables of a part to another one.
    fn move_all(&mut self, alloc: Global, from: usize, to: usize) -> Result<(), AllocError> {
        let Some(own) = self.members.get_mut(from) else {
            return Ok(());
        };
        let moved = std::mem::replace(own, Vec::new(alloc));
        for variable in moved.as_slice() {
            self.homes.insert(*variable, to)?;
        }
        let Some(own) = self.members.get_mut(to) else {
            return Ok(());
        };
        own.extend_from_slice(moved.as_slice())
    }

    /// Both variables are in one part: the variables of the smaller one move.
    fn join(&mut self, alloc: Global, one: usize, other: usize) -> Result<(), AllocError> {
        let one = self.home(alloc, one)?;
        let other = self.home(alloc, other)?;
        if one == other {
            return Ok(());
        }
        if self.size(one) < self.size(other) {
            return self.move_all(alloc, one, other);
        }
        self.move_all(alloc, other, one)
    }

    /// All these variables are in one part.
    fn join_all(&mut self, alloc: Global, variables: &[usize]) -> Result<(), AllocError> {
        for at in 0..variables.len() {
            self.join(alloc, variables[0], variables[at])?;
        }
        Ok(())
    }
}

fn push_slot(variables: &mut Vec<usize>, slot: &Slot) -> Result<(), AllocError> {
    if let Slot::Variable(variable) = slot {
        variables.push(*variable)?;
    }
    Ok(())
}

/// The variable of the graph, if there is one, as the first of a list.
fn graph_first(alloc: Global, graph: Option<usize>) -> Result<Vec<usize>, AllocError> {
    let mut variables = Vec::new(alloc);
    if let Some(graph) = graph {
        variables.push(graph)?;
    }
    Ok(variables)
}

/// Joins the variables of each triple and path, with the variable of the graph where they look, if there is one.
fn join_basic(
    alloc: Global,
    joined: &mut Joined,
    basic: &BasicPattern,
    graph: Option<usize>,
) -> Result<(), AllocError> {
    for triple in basic.triples.as_slice() {
        let mut variables = graph_first(alloc, graph)?;
        push_slot(&mut variables, &triple.subject)?;
        push_slot(&mut variables, &triple.predicate)?;
        push_slot(&mut variables, &triple.object)?;
        joined.join_all(alloc, variables.as_slice())?;
    }
    for path in basic.paths.as_slice() {
        let mut variables = graph_first(alloc, graph)?;
        push_slot(&mut variables, &path.subject)?;
        push_slot(&mut variables, &path.object)?;
        joined.join_all(alloc, variables.as_slice())?;
    }
    Ok(())
}

fn join_conditions(
    alloc: Global,
    joined: &mut Joined,
    conditions: &[Expr],
) -> Result<(), AllocError> {
    for condition in conditions {
        let mut variables = Vec::new(alloc);
        settle(alloc, condition, &mut variables)?;
        joined.join_all(alloc, variables.as_slice())?;
        joined.tested.extend_from_slice(variables.as_slice())?;
    }
    Ok(())
}

#[cycle(joins)]
fn join_step(
    alloc: Global,
    joined: &mut Joined,
    step: &Step,
    graph: Option<usize>,
) -> Result<(), AllocError> {
    match step {
        Step::Join(node) => join_node(alloc, joined, node, graph),
        Step::LeftJoin(node, conditions) => {
            join_node(alloc, joined, node, graph)?;
            join_conditions(alloc, joined, conditions.as_slice())
        }
        Step::Minus(node) => join_node(alloc, joined, node, graph),
        Step::Extend(variable, expr) => {
            let mut variables = Vec::new(alloc);
            variables.push(*variable)?;
            settle(alloc, expr, &mut variables)?;
            joined.join_all(alloc, variables.as_slice())
        }
    }
}

/// Joins the variables of the pattern, as far as its triples, paths, tables, conditions and BINDs have them in common.
#[cycle(joins)]
fn join_node(
    alloc: Global,
    joined: &mut Joined,
    node: &PatternNode,
    graph: Option<usize>,
) -> Result<(), AllocError> {
    match node {
        PatternNode::Basic(basic) => join_basic(alloc, joined, basic, graph),
        PatternNode::Group(steps, conditions) => {
            for step in steps.as_slice() {
                join_step(alloc, joined, step, graph)?;
            }
            join_conditions(alloc, joined, conditions.as_slice())
        }
        PatternNode::Union(parts) => {
            for part in parts.as_slice() {
                join_node(alloc, joined, part, graph)?;
            }
            Ok(())
        }
        PatternNode::Graph(_, part) => join_node(alloc, joined, part.get(), None),
        PatternNode::EachGraph(variable, part) => {
            join_node(alloc, joined, part.get(), Some(*variable))
        }
        PatternNode::Values(table) => joined.join_all(alloc, table.variables.as_slice()),
    }
}

/// The parts of a pattern, where the terms of some columns are asked for, each once.
#[derive(Drop)]
pub(crate) struct Parts {
    /// The part of each variable.
    homes: BTreeMap<usize, usize>,
    /// The parts with a column, or with a variable that a condition reads.
    early: BTreeSet<usize>,
    /// Whether there is another part, which comes late.
    has_late: bool,
    /// How many variables have a name.
    width: usize,
}

/// Whether there is a part that isn't among these.
fn has_other(members: &[Vec<usize>], homes: &BTreeSet<usize>) -> bool {
    for home in 0..members.len() {
        if !members[home].is_empty() && !homes.contains(&home) {
            return true;
        }
    }
    false
}

/// The parts of these variables.
fn homes_of(
    homes: &BTreeMap<usize, usize>,
    variables: &[usize],
    found: &mut BTreeSet<usize>,
) -> Result<(), AllocError> {
    for variable in variables {
        if let Some(home) = homes.get(variable) {
            found.insert(*home)?;
        }
    }
    Ok(())
}

/// The parts of the pattern, for these columns.
pub(crate) fn parts_of(
    alloc: Global,
    pattern: &Pattern,
    columns: &[usize],
) -> Result<Parts, AllocError> {
    let mut joined = Joined {
        homes: BTreeMap::new(alloc),
        members: Vec::new(alloc),
        tested: Vec::new(alloc),
    };
    join_node(alloc, &mut joined, &pattern.root, None)?;
    let Joined {
        homes,
        members,
        tested,
    } = joined;
    let mut early = BTreeSet::new(alloc);
    homes_of(&homes, columns, &mut early)?;
    // A part that a condition makes small may be evaluated by itself, by its count.
    if !early.is_empty() {
        homes_of(&homes, tested.as_slice(), &mut early)?;
    }
    let has_late = !early.is_empty() && has_other(members.as_slice(), &early);
    Ok(Parts {
        homes,
        early,
        has_late,
        width: pattern.names.len(),
    })
}

impl Parts {
    /// Whether there are parts with a column and others, which come late.
    pub(crate) fn has_late(&self) -> bool {
        self.has_late
    }

    /// Whether the place has a named variable of a part that comes late. The hidden variables of a plan have numbers of their own.
    fn is_late_at(&self, slot: &Slot) -> bool {
        let Slot::Variable(variable) = slot else {
            return false;
        };
        if self.width <= *variable {
            return false;
        }
        match self.homes.get(variable) {
            Some(home) => !self.early.contains(home),
            None => false,
        }
    }

    /// Whether the triple is in a part that comes after those with a column: no condition reads it.
    pub(crate) fn is_late(&self, pattern: &TriplePattern) -> bool {
        !self.early.is_empty()
            && (self.is_late_at(&pattern.subject)
                || self.is_late_at(&pattern.predicate)
                || self.is_late_at(&pattern.object))
    }
}
