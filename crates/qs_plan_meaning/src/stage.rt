//! Stages: what a plan is made of.

ghost use Rattle.std.specs.Prelude.{◌≡◌, IfOk};
ghost use Rattle.qs_plan_meaning.specs.inner.Stages.{register_of};

use qs_algebra_patterns::{PathPattern, Table, TriplePattern};
use qs_base::Shared;
use qs_expr_meaning::Expr;
use qs_terms::Term;
use sqlite_items::Items;
use std::alloc::AllocError;

/// Where a triple or a path looks.
#[derive(Drop)]
pub enum Look {
    /// In the graph that is active where the plan is evaluated.
    Active,
    /// In the graph of this name.
    Named(Shared<Term>),
    /// In the graph whose name this register of the row holds.
    Register(usize),
}

/// A stage: what it makes of a row. Expressions and tables are shared by the plans that one pattern goes through. A variable is its number: the named ones come first, and after them the hidden ones, each with a number
/// of its own, and the registers, which hold the name of a graph.
#[cycle(stages)]
#[derive(Drop)]
pub enum Stage {
    /// The row with the variables of the triple pattern bound, for each triple that agrees with it.
    Triple(Look, TriplePattern),
    /// The row with the variables at the path's ends bound, for each pair that agrees with it. An end that is a variable is open.
    Path(Look, PathPattern),
    /// The row, if some quad names this graph.
    Exists(Shared<Term>),
    /// The row with the register holding the name of each named graph in turn.
    Names(usize),
    /// The row with the variable bound to the name that the register holds, where they agree.
    Name(usize, usize),
    /// The row, if the condition is true of its named variables.
    Filter(Shared<Expr>),
    /// The row with the variable bound to the value of the expression, where it has one.
    Bind(usize, Shared<Expr>),
    /// The row with the variables of the table bound, for each row of the table that agrees with it.
    Values(Shared<Table>),
    /// What each branch makes of the row.
    Union(Items<Group>),
    /// The row with each solution of the group that agrees with it where the conditions hold, or alone where there is none.
    Optional(Option<usize>, Group, Shared<Items<Expr>>),
    /// The row with each row that the group makes of it where the conditions hold, or alone where there is none.
    Fed(Group, Shared<Items<Expr>>),
    /// The row, unless a solution of the group agrees with it and binds a named variable that it binds.
    Minus(Option<usize>, Group),
    /// The row with each solution of the group that agrees with it.
    Apart(Option<usize>, Group),
}

/// Stages, one after another. Where a group is evaluated by itself it sees of the row nothing but the register beside it. A group that is
/// fed sees the whole row.
#[cycle(stages)]
#[derive(Drop)]
pub struct Group {
    pub stages: Items<Stage>,
}

impl Look {
    /// An equal one of its own, which has its term in common with it.
    pub fn try_clone(&self) -> Result<Look, AllocError>
        ensures { IfOk result (λ l. l ≡ self.now) }
    {
        match self {
            Look::Active => Ok(Look::Active),
            Look::Named(name) => Ok(Look::Named(name.share()?)),
            Look::Register(register) => Ok(Look::Register(*register)),
        }
    }

    /// The register in which is looked, if it is one.
    pub fn register(&self) -> Option<usize>
        ensures { result ≡ register_of self.now }
    {
        match self {
            Look::Register(register) => Some(*register),
            _ => None,
        }
    }
}
