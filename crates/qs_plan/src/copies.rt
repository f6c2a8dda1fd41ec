//! Copies: of what a plan has from its pattern, and of its stages, which share expressions and tables.

ghost use Rattle.std.specs.Prelude.{◌≡◌, IfOk};

use qs_algebra_patterns::{PathPattern, Slot, Table, TriplePattern};
use qs_base::{Shared, keep_beside};
use qs_expr_meaning::{Addend, Expr};
use qs_plan_meaning::{Group, Stage};
use qs_syntax_ast::path::Path;
use sqlite_items::{Boxed, Items};
use std::alloc::{AllocError, Global};

/// An equal expression of its own.
#[cycle(expr)]
fn copied_expr(alloc: Global, expr: &Expr) -> Result<Expr, AllocError>
    ensures { IfOk result (λ copy. copy ≡ expr.now) }
{
    match expr {
        Expr::Variable(variable) => Ok(Expr::Variable(*variable)),
        Expr::Term(term) => Ok(Expr::Term(term.try_clone()?)),
        Expr::Or(parts) => Ok(Expr::Or(copied_parts(alloc, parts.as_slice())?)),
        Expr::And(parts) => Ok(Expr::And(copied_parts(alloc, parts.as_slice())?)),
        Expr::Compare(comparison, left, right) => {
            let left = copied_box(alloc, left.get())?;
            let (left, right) = keep_beside(left, copied_box(alloc, right.get()))?;
            Ok(Expr::Compare(*comparison, left, right))
        }
        Expr::In(one, parts) => {
            let one = copied_box(alloc, one.get())?;
            let (one, parts) = keep_beside(one, copied_parts(alloc, parts.as_slice()))?;
            Ok(Expr::In(one, parts))
        }
        Expr::NotIn(one, parts) => {
            let one = copied_box(alloc, one.get())?;
            let (one, parts) = keep_beside(one, copied_parts(alloc, parts.as_slice()))?;
            Ok(Expr::NotIn(one, parts))
        }
        Expr::Sum(first, addends) => {
            let first = copied_box(alloc, first.get())?;
            let (first, addends) = keep_beside(first, copied_addends(alloc, addends.as_slice()))?;
            Ok(Expr::Sum(first, addends))
        }
        Expr::Product(first, factors) => {
            let first = copied_box(alloc, first.get())?;
            let (first, factors) = keep_beside(first, copied_parts(alloc, factors.as_slice()))?;
            Ok(Expr::Product(first, factors))
        }
        Expr::Not(part) => Ok(Expr::Not(copied_box(alloc, part.get())?)),
        Expr::Signed(sign, part) => {
            let part = copied_box(alloc, part.get())?;
            Ok(Expr::Signed(*sign, part))
        }
        Expr::Bound(variable) => Ok(Expr::Bound(*variable)),
        Expr::If(test, yes, no) => {
            let test = copied_box(alloc, test.get())?;
            let (test, yes) = keep_beside(test, copied_box(alloc, yes.get()))?;
            let (two, no) = keep_beside((test, yes), copied_box(alloc, no.get()))?;
            let (test, yes) = two;
            Ok(Expr::If(test, yes, no))
        }
        Expr::Coalesce(parts) => Ok(Expr::Coalesce(copied_parts(alloc, parts.as_slice())?)),
        Expr::Concat(parts) => Ok(Expr::Concat(copied_parts(alloc, parts.as_slice())?)),
        Expr::Unary(function, part) => {
            let part = copied_box(alloc, part.get())?;
            Ok(Expr::Unary(*function, part))
        }
        Expr::Binary(function, left, right) => {
            let left = copied_box(alloc, left.get())?;
            let (left, right) = keep_beside(left, copied_box(alloc, right.get()))?;
            Ok(Expr::Binary(*function, left, right))
        }
    }
}

#[cycle(expr)]
fn copied_box(alloc: Global, expr: &Expr) -> Result<Boxed<Expr>, AllocError>
    ensures { IfOk result (λ copy. copy ≡ expr.now) }
{
    let copy = copied_expr(alloc, expr)?;
    Boxed::new(alloc, copy)
}

#[cycle(expr)]
fn copied_parts(alloc: Global, parts: &[Expr]) -> Result<Items<Expr>, AllocError>
    ensures { IfOk result (λ copies. copies ≡ parts.now) }
{
    let mut copies = Items::new(alloc);
    for part in parts {
        let copy = copied_expr(alloc, part)?;
        copies.push(copy)?;
    }
    Ok(copies)
}

#[cycle(expr)]
fn copied_addends(alloc: Global, addends: &[Addend]) -> Result<Items<Addend>, AllocError>
    ensures { IfOk result (λ copies. copies ≡ addends.now) }
{
    let mut copies = Items::new(alloc);
    for addend in addends {
        let operand = copied_expr(alloc, &addend.operand)?;
        copies.push(Addend {
            sign: addend.sign,
            operand,
        })?;
    }
    Ok(copies)
}

fn copied_conditions(alloc: Global, conditions: &[Expr]) -> Result<Items<Expr>, AllocError>
    ensures { IfOk result (λ copies. copies ≡ conditions.now) }
{
    let mut copies = Items::new(alloc);
    for condition in conditions {
        let copy = copied_expr(alloc, condition)?;
        copies.push(copy)?;
    }
    Ok(copies)
}

/// An equal expression, to be shared.
pub(crate) fn shared_expr(alloc: Global, expr: &Expr) -> Result<Shared<Expr>, AllocError>
    ensures { IfOk result (λ copy. copy ≡ expr.now) }
{
    let copy = copied_expr(alloc, expr)?;
    Shared::new(alloc, copy)
}

/// Equal conditions, to be shared.
pub(crate) fn shared_conditions(
    alloc: Global,
    conditions: &[Expr],
) -> Result<Shared<Items<Expr>>, AllocError>
    ensures { IfOk result (λ copies. copies ≡ conditions.now) }
{
    let copies = copied_conditions(alloc, conditions)?;
    Shared::new(alloc, copies)
}

/// An equal table, to be shared.
pub(crate) fn shared_table(alloc: Global, table: &Table) -> Result<Shared<Table>, AllocError>
    ensures { IfOk result (λ copy. copy ≡ table.now) }
{
    let copy = table.copy(alloc)?;
    Shared::new(alloc, copy)
}

// ---- paths

/// An equal path, to be shared.
pub(crate) fn shared_path(alloc: Global, path: &Path) -> Result<Shared<Path>, AllocError>
    ensures { IfOk result (λ copy. copy ≡ path.now) }
{
    let copy = path.copy(alloc)?;
    Shared::new(alloc, copy)
}

// ---- stages

pub(crate) fn copied_slot(slot: &Slot) -> Result<Slot, AllocError>
    ensures { IfOk result (λ s. s ≡ slot.now) }
{
    match slot {
        Slot::Term(term) => Ok(Slot::Term(term.share()?)),
        Slot::Variable(variable) => Ok(Slot::Variable(*variable)),
    }
}

fn copied_triple(pattern: &TriplePattern) -> Result<TriplePattern, AllocError>
    ensures { IfOk result (λ p. p ≡ pattern.now) }
{
    let subject = copied_slot(&pattern.subject)?;
    let predicate = copied_slot(&pattern.predicate)?;
    let object = copied_slot(&pattern.object)?;
    Ok(TriplePattern {
        subject,
        predicate,
        object,
    })
}

fn copied_path(pattern: &PathPattern) -> Result<PathPattern, AllocError>
    ensures { IfOk result (λ p. p ≡ pattern.now) }
{
    let subject = copied_slot(&pattern.subject)?;
    let path = pattern.path.share()?;
    let object = copied_slot(&pattern.object)?;
    Ok(PathPattern {
        subject,
        path,
        object,
    })
}

/// An equal stage, which shares expressions and tables with it.
#[cycle(stages)]
pub(crate) fn copied_stage(alloc: Global, stage: &Stage) -> Result<Stage, AllocError>
    ensures { IfOk result (λ copy. copy ≡ stage.now) }
{
    match stage {
        Stage::Triple(look, pattern) => {
            let pattern = copied_triple(pattern)?;
            let look = look.try_clone()?;
            Ok(Stage::Triple(look, pattern))
        }
        Stage::Path(look, pattern) => {
            let pattern = copied_path(pattern)?;
            let look = look.try_clone()?;
            Ok(Stage::Path(look, pattern))
        }
        Stage::Exists(name) => {
            let name = name.share()?;
            Ok(Stage::Exists(name))
        }
        Stage::Names(register) => Ok(Stage::Names(*register)),
        Stage::Name(variable, register) => Ok(Stage::Name(*variable, *register)),
        Stage::Filter(condition) => {
            let condition = condition.share()?;
            Ok(Stage::Filter(condition))
        }
        Stage::Bind(variable, expr) => {
            let expr = expr.share()?;
            Ok(Stage::Bind(*variable, expr))
        }
        Stage::Values(table) => {
            let table = table.share()?;
            Ok(Stage::Values(table))
        }
        Stage::Union(branches) => {
            let branches = copied_branches(alloc, branches.as_slice())?;
            Ok(Stage::Union(branches))
        }
        Stage::Optional(register, group, conditions) => {
            let conditions = conditions.share()?;
            let group = copied_group(alloc, group)?;
            Ok(Stage::Optional(*register, group, conditions))
        }
        Stage::Fed(group, conditions) => {
            let conditions = conditions.share()?;
            let group = copied_group(alloc, group)?;
            Ok(Stage::Fed(group, conditions))
        }
        Stage::Minus(register, group) => {
            let group = copied_group(alloc, group)?;
            Ok(Stage::Minus(*register, group))
        }
        Stage::Apart(register, group) => {
            let group = copied_group(alloc, group)?;
            Ok(Stage::Apart(*register, group))
        }
    }
}

#[cycle(stages)]
fn copied_group(alloc: Global, group: &Group) -> Result<Group, AllocError>
    ensures { IfOk result (λ copy. copy ≡ group.now) }
{
    let stages = copied_stages(alloc, group.stages.as_slice())?;
    Ok(Group { stages })
}

#[cycle(stages)]
fn copied_branches(alloc: Global, branches: &[Group]) -> Result<Items<Group>, AllocError>
    ensures { IfOk result (λ copies. copies ≡ branches.now) }
{
    let mut copies = Items::new(alloc);
    for branch in branches {
        let copy = copied_group(alloc, branch)?;
        copies.push(copy)?;
    }
    Ok(copies)
}

/// Equal stages, which share expressions and tables with them.
#[cycle(stages)]
pub(crate) fn copied_stages(alloc: Global, stages: &[Stage]) -> Result<Items<Stage>, AllocError>
    ensures { IfOk result (λ copies. copies ≡ stages.now) }
{
    let mut copies = Items::new(alloc);
    for stage in stages {
        let copy = copied_stage(alloc, stage)?;
        copies.push(copy)?;
    }
    Ok(copies)
}
