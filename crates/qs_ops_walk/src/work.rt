//! Places: the instructions of a program, each with what is prepared and kept for it.

ghost use Rattle.std.specs.Prelude.{◌≡◌, ◌<◌, ◌≤◌, true, IfOk, List, length, map, None};
ghost use Rattle.qs_terms.specs.declared.term.Term.{Term as TermValue};
ghost use Rattle.std.specs.List.{AllByRecursion};
ghost use Rattle.qs_expr.specs.inner.Condition.{IsPreparedFor};
ghost use Rattle.qs_ops_walk.specs.inner.Setting.{known_of};
ghost use Rattle.qs_ops_walk.specs.inner.Works.{AreReady, IsAlike, IsWork, code_of, expr_of};

use crate::reader::Reader;
use crate::right::Right;
use qs_algebra_patterns::{PathPattern, Table};
use qs_base::Shared;
use qs_expr::{Condition, Row};
use qs_expr_meaning::Expr;
use qs_ops_program::Instr;
use qs_ops_scans::{
    PathPairs, PreparedLook, PreparedTriple, RowEnds, is_named_graph, prepare_look, prepare_triple,
};
use qs_ops_tables::KeptTable;
use qs_plan::is_fed_alike;
use qs_plan_meaning::{Group, Stage};
use qs_store::{Active, View};
use std::alloc::{AllocError, Global};

/// The conditions of an OPTIONAL.
#[derive(Drop)]
pub(crate) struct Conditions<'a> {
    pub(crate) list: Vec<Condition<'a>>,
}

/// The positions where the branches of a union begin.
#[derive(Drop)]
pub(crate) struct Starts {
    pub(crate) list: Vec<usize>,
}

/// What is prepared and kept of an OPTIONAL: whether its group may be fed rows, and how many are fed before it is evaluated by itself.
#[derive(Drop)]
pub(crate) struct Choice<'a> {
    pub(crate) right: Right<'a>,
    pub(crate) conditions: Shared<Conditions<'a>>,
    pub(crate) is_alike: bool,
    pub(crate) left: usize,
}

/// A group that is fed each row, and the conditions on what it makes of it.
#[derive(Drop)]
pub(crate) struct Feed<'a> {
    pub(crate) group: &'a Group,
    pub(crate) conditions: Shared<Conditions<'a>>,
}

/// A VALUES table, and its rows where they are kept.
#[derive(Drop)]
pub(crate) struct TableRows<'a> {
    pub(crate) table: &'a Table,
    pub(crate) kept: Option<Shared<KeptTable>>,
}

/// The pairs of a path in a graph.
#[derive(Drop)]
pub(crate) struct KeptPairs {
    pub(crate) graph: Active,
    pub(crate) pairs: Shared<PathPairs>,
}

/// The pairs of a path in a graph that serve the rows with these cells at its ends.
#[derive(Drop)]
pub(crate) struct EndPairs {
    pub(crate) graph: Active,
    pub(crate) ends: RowEnds,
    pub(crate) pairs: Shared<PathPairs>,
}

/// What is prepared and kept of a path: all its pairs, and those for the last row that binds an end.
#[derive(Drop)]
pub(crate) struct Trail<'a> {
    pub(crate) look: PreparedLook,
    pub(crate) pattern: &'a PathPattern,
    pub(crate) kept: Option<KeptPairs>,
    pub(crate) last: Option<EndPairs>,
}

/// The register that is bound to the names of graphs, and the numbers of all graphs where they are kept.
#[derive(Drop)]
pub(crate) struct Naming {
    pub(crate) register: usize,
    pub(crate) numbers: Option<Shared<Vec<u32>>>,
}

/// What is prepared and kept of a stage.
#[derive(Drop)]
pub(crate) enum Work<'a> {
    Triple(PreparedLook, PreparedTriple),
    Path(Trail<'a>),
    Names(Naming),
    Exists(bool),
    Name(usize, usize),
    Filter(Condition<'a>),
    Bind(usize, &'a Expr),
    Values(TableRows<'a>),
    Union(Shared<Starts>),
    Optional(Choice<'a>),
    Fed(Feed<'a>),
    Minus(Right<'a>),
    Apart(Right<'a>),
}

/// An instruction, and what is prepared and kept of its stage.
#[derive(Drop)]
pub(crate) struct Place<'a> {
    pub(crate) instr: Instr<'a>,
    pub(crate) work: Work<'a>,
}

/// So many rows are fed to the group of an OPTIONAL before it is evaluated by itself.
const FED: usize = 64;

/// Whether a row has the same merges with what the group makes by itself as with what it makes of the row.
fn is_alike(register: Option<usize>, group: &Group, width: usize) -> bool
    ensures { result ≡ true → IsAlike width register group.now.stages }
{
    register.is_none() && is_fed_alike(group, width)
}

impl<'a> Choice<'a> {
    /// Whether the group may be fed the row.
    pub(crate) fn may_be_fed(&self, row: &Row, width: usize) -> bool
        ensures alike { result ≡ true → self.now.is_alike ≡ true }
        ensures wide { result ≡ true → width ≤ length row.now }
    {
        self.is_alike && width <= row.width()
    }
}

fn conditions_of<'a, V: View>(
    reader: &Reader<'a, V>,
    exprs: &'a [Expr],
) -> Result<Shared<Conditions<'a>>, AllocError>
    ensures exprs { IfOk result (λ c. map expr_of c.list.items ≡ exprs.now) }
    ensures prepared { IfOk result (λ c. AllByRecursion (IsPreparedFor (known_of reader.now))
        c.list.items) }
{
    let mut list = Vec::new(reader.alloc);
    for expr in exprs {
        list.push(Condition::new(reader.alloc, expr, reader.view)?)?;
    }
    Shared::new(reader.alloc, Conditions { list })
}

fn starts_of(alloc: Global, starts: &[usize]) -> Result<Shared<Starts>, AllocError>
    ensures { IfOk result (λ s. s.list.items ≡ starts.now) }
{
    let list = Vec::from_slice(alloc, starts)?;
    Shared::new(alloc, Starts { list })
}

/// What is prepared of the instruction's stage.
fn work_of<'a, V: View>(reader: &Reader<'a, V>, instr: &Instr<'a>) -> Result<Work<'a>, AllocError>
    ensures { IfOk result (λ w. (table : List TermValue) → IsWork reader.now table instr.now w) }
{
    match instr.stage() {
        Stage::Triple(look, pattern) => Ok(Work::Triple(
            prepare_look(reader.view, look),
            prepare_triple(reader.view, pattern),
        )),
        Stage::Path(look, pattern) => Ok(Work::Path(Trail {
            look: prepare_look(reader.view, look),
            pattern,
            kept: None,
            last: None,
        })),
        Stage::Exists(name) => Ok(Work::Exists(is_named_graph(reader.view, name.get()))),
        Stage::Names(register) => Ok(Work::Names(Naming {
            register: *register,
            numbers: None,
        })),
        Stage::Name(variable, register) => Ok(Work::Name(*variable, *register)),
        Stage::Filter(expr) => {
            let condition = Condition::new(reader.alloc, expr.get(), reader.view)?;
            Ok(Work::Filter(condition))
        }
        Stage::Bind(variable, expr) => Ok(Work::Bind(*variable, expr.get())),
        Stage::Values(table) => Ok(Work::Values(TableRows {
            table: table.get(),
            kept: None,
        })),
        Stage::Union(_) => Ok(Work::Union(starts_of(reader.alloc, instr.starts())?)),
        Stage::Optional(register, group, conditions) => {
            let conditions = conditions_of(reader, conditions.get().as_slice())?;
            Ok(Work::Optional(Choice {
                right: Right::new(reader.alloc, *register, group),
                conditions,
                is_alike: is_alike(*register, group, reader.width),
                left: FED,
            }))
        }
        Stage::Fed(group, conditions) => {
            let conditions = conditions_of(reader, conditions.get().as_slice())?;
            Ok(Work::Fed(Feed { group, conditions }))
        }
        Stage::Minus(register, group) => Ok(Work::Minus(Right::new(
            reader.alloc,
            *register,
            group,
        ))),
        Stage::Apart(register, group) => Ok(Work::Apart(Right::new(
            reader.alloc,
            *register,
            group,
        ))),
    }
}

/// The places of a program.
pub(crate) fn places_of<'a, V: View>(
    reader: &Reader<'a, V>,
    code: Vec<Instr<'a>>,
) -> Result<Vec<Place<'a>>, AllocError>
    ensures code { IfOk result (λ ps. code_of ps.items ≡ code.entry.items) }
    ensures ready { IfOk result (λ ps. (table : List TermValue)
        → AreReady reader.now table ps.items) }
{
    let mut places = Vec::with_capacity(reader.alloc, code.len())?;
    for instr in code {
        let work = work_of(reader, &instr)?;
        places.push(Place { instr, work })?;
    }
    Ok(places)
}
