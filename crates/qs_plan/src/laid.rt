//! Stages that are laid for a part of a pattern.

ghost use Rattle.std.specs.Prelude.{◌≡◌, [], ◌∷◌, ◌++◌, IfOk};
ghost use Rattle.qs_plan_meaning.specs.declared.stage.Look.TheVariants as look;
ghost use Rattle.qs_plan_meaning.specs.declared.stage.Stage.TheVariants as stage;
ghost use Rattle.qs_plan_meaning.specs.inner.Stages.{register_of};

use crate::copies::{shared_conditions, shared_expr};
use qs_base::{Shared, keep_beside};
use qs_expr_meaning::Expr;
use qs_plan_meaning::{Group, Look, Stage};
use qs_terms::Term;
use sqlite_items::Items;
use std::alloc::{AllocError, Global};

/// Stages, and the number of the first cell after those that are theirs.
#[derive(Drop)]
pub struct Laid {
    pub stages: Items<Stage>,
    pub next: usize,
}

/// One stage.
pub fn alone(alloc: Global, stage: Stage, next: usize) -> Result<Laid, AllocError>
    ensures { IfOk result (λ l. (l.stages ≡ stage ∷ []) × (l.next ≡ next)) }
{
    let mut stages = Items::new(alloc);
    stages.push(stage)?;
    Ok(Laid { stages, next })
}

/// The stages as a group that is evaluated by itself and joined.
pub fn apart(alloc: Global, look: &Look, laid: Laid) -> Result<Laid, AllocError>
    ensures { IfOk result
        (λ l. (l.stages ≡ stage.Apart (register_of look.now) (record { stages = laid.stages }) ∷ [])
        × (l.next ≡ laid.next)) }
{
    let Laid { stages, next } = laid;
    alone(alloc, Stage::Apart(look.register(), Group { stages }), next)
}

/// The stages as the group of an OPTIONAL with these conditions.
pub fn optional(
    alloc: Global,
    look: &Look,
    conditions: &[Expr],
    laid: Laid,
) -> Result<Laid, AllocError>
    ensures { IfOk result
        (λ l. (l.stages ≡ stage.Optional (register_of look.now) (record { stages = laid.stages })
        conditions.now ∷ []) × (l.next ≡ laid.next)) }
{
    let Laid { stages, next } = laid;
    let (stages, conditions) = keep_beside(stages, shared_conditions(alloc, conditions))?;
    let stage = Stage::Optional(look.register(), Group { stages }, conditions);
    alone(alloc, stage, next)
}

/// The stages as the group of an OPTIONAL with these conditions, which is fed each row.
pub fn fed(alloc: Global, conditions: &[Expr], laid: Laid) -> Result<Laid, AllocError>
    ensures { IfOk result
        (λ l. (l.stages ≡ stage.Fed (record { stages = laid.stages }) conditions.now ∷ [])
        × (l.next ≡ laid.next)) }
{
    let Laid { stages, next } = laid;
    let (stages, conditions) = keep_beside(stages, shared_conditions(alloc, conditions))?;
    alone(alloc, Stage::Fed(Group { stages }, conditions), next)
}

/// The stages as the group of a MINUS.
pub fn minus(alloc: Global, look: &Look, laid: Laid) -> Result<Laid, AllocError>
    ensures { IfOk result
        (λ l. (l.stages ≡ stage.Minus (register_of look.now) (record { stages = laid.stages }) ∷ [])
        × (l.next ≡ laid.next)) }
{
    let Laid { stages, next } = laid;
    alone(alloc, Stage::Minus(look.register(), Group { stages }), next)
}

/// The stage of a BIND.
pub fn bind(alloc: Global, variable: usize, expr: &Expr, next: usize) -> Result<Laid, AllocError>
    ensures { IfOk result (λ l. (l.stages ≡ stage.Bind variable expr.now ∷ []) × (l.next ≡ next)) }
{
    let expr = shared_expr(alloc, expr)?;
    alone(alloc, Stage::Bind(variable, expr), next)
}

/// A stage, and those after it.
pub fn behind(alloc: Global, stage: Stage, laid: Laid) -> Result<Laid, AllocError>
    ensures { IfOk result (λ l. (l.stages ≡ stage ∷ laid.stages) × (l.next ≡ laid.next)) }
{
    let Laid { stages: more, next } = laid;
    let mut stages = Items::new(alloc);
    stages.push(stage)?;
    stages.append(more)?;
    Ok(Laid { stages, next })
}

/// The name, to be shared.
fn shared(alloc: Global, name: &Term) -> Result<Shared<Term>, AllocError>
    ensures { IfOk result (λ s. s ≡ name.now) }
{
    let name = name.try_clone()?;
    Shared::new(alloc, name)
}

/// The graph of this name, as a place to look.
pub fn look_named(alloc: Global, name: &Term) -> Result<Look, AllocError>
    ensures { IfOk result (λ l. l ≡ look.Named name.now) }
{
    let name = shared(alloc, name)?;
    Ok(Look::Named(name))
}

/// The stages, where some quad names this graph.
pub fn if_exists(alloc: Global, name: &Term, laid: Laid) -> Result<Laid, AllocError>
    ensures { IfOk result (λ l. (l.stages ≡ stage.Exists name.now ∷ laid.stages)
        × (l.next ≡ laid.next)) }
{
    let (laid, name) = keep_beside(laid, shared(alloc, name))?;
    behind(alloc, Stage::Exists(name), laid)
}

/// The stages between those that have the register hold each name in turn, and join the variable with it.
pub fn in_each(
    alloc: Global,
    variable: usize,
    register: usize,
    laid: Laid,
) -> Result<Laid, AllocError>
    ensures { IfOk result
        (λ l. (l.stages ≡ stage.Names register ∷ (laid.stages ++ stage.Name variable register ∷ []))
        × (l.next ≡ laid.next)) }
{
    let Laid { mut stages, next } = laid;
    stages.push(Stage::Name(variable, register))?;
    behind(alloc, Stage::Names(register), Laid { stages, next })
}

/// The stages after those that have the register hold each name in turn, and join the variable with it.
pub fn in_bound(
    alloc: Global,
    variable: usize,
    register: usize,
    laid: Laid,
) -> Result<Laid, AllocError>
    ensures { IfOk result
        (λ l. (l.stages ≡ stage.Names register ∷ stage.Name variable register ∷ laid.stages)
        × (l.next ≡ laid.next)) }
{
    let laid = behind(alloc, Stage::Name(variable, register), laid)?;
    behind(alloc, Stage::Names(register), laid)
}
