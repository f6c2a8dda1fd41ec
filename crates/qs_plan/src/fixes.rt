//! Conditions that fix a variable: `?x = <iri>`, `sameTerm(?x, term)` and `?x IN (<iri>, ..)`. Each holds only where the variable is one of
//! some terms. Stages may then begin with a table of these terms, so that their triples are looked up by them.
//!
//! `?x = <iri>`, `sameTerm(?x, term)` and `?x IN (<iri>, ..)` become a table in front of a group whose first joined parts are
//! certain to bind `?x`. An equality with a literal stays a filter, as a literal may equal others.

ghost use Rattle.std.specs.Prelude.{◌≡◌, true, [], ◌∷◌, map, Some, IfOk, IfSome, OnOk};
ghost use Rattle.std.specs.List.{AllByRecursion};
ghost use Rattle.qs_terms.specs.Bag.{Distinct, with_new};
ghost use Rattle.qs_terms.specs.Term.{same_term};
ghost use Rattle.qs_expr_meaning.specs.Calls as calls;
ghost use Rattle.qs_terms.specs.Statement as inner_calls;
ghost use Rattle.qs_expr_meaning.specs.declared.expr.Expr.{Expr as Condition};
ghost use Rattle.qs_expr_meaning.specs.declared.expr.Expr.TheVariants as exprs;
ghost use Rattle.qs_syntax_tree.specs.declared.expression.Comparison.TheVariants.{Equal};
ghost use Rattle.qs_syntax_tree.specs.declared.expression.BinaryFunction.TheVariants.{SameTerm};
ghost use Rattle.qs_plan_meaning.specs.declared.stage.Stage.TheVariants as stage;
ghost use Rattle.qs_plan.specs.inner.Fixes.{Admits, Fixes, HasNew, HaveSame, Instead, IsIri, IsOnly, SettledBy, StepKeeps};

use crate::certain::{Size, are_bound, is_bound};
use crate::reads::settle;
use qs_algebra_patterns::{Step, Table};
use qs_base::Shared;
use qs_expr_meaning::{BinaryFunction, Comparison, Expr};
use qs_plan_meaning::Stage;
use qs_terms::Term;
use sqlite_items::Items;
use std::alloc::{AllocError, Global};
use std::collections::BTreeSet;
use std::mem;

/// A variable, and the terms one of which it is where a condition holds.
#[derive(Drop)]
struct Fixed {
    variable: usize,
    terms: Items<Term>,
}

// ---- what a condition fixes

/// The variable, if the expression is one.
fn variable_of(expr: &Expr) -> Option<usize>
    ensures { IfSome result (λ v. expr.now ≡ exprs.Variable v) }
{
    match expr {
        Expr::Variable(variable) => Some(*variable),
        _ => None,
    }
}

fn is_iri_term(term: &Term) -> bool
    ensures { result ≡ inner_calls.is_iri term.now }
{
    match term {
        Term::Iri(_) => true,
        _ => false,
    }
}

/// Whether the expression is an IRI.
fn is_iri(expr: &Expr) -> bool
    ensures { result ≡ true → IsIri expr.now }
{
    match expr {
        Expr::Term(term) => is_iri_term(term),
        _ => false,
    }
}

/// The variable with the one term, if the expression is a term.
fn fixed_to(alloc: Global, variable: usize, expr: &Expr) -> Result<Option<Fixed>, AllocError>
    ensures { IfOk result (λ o. IfSome o (λ f. (f.variable ≡ variable) × IsOnly expr.now f.terms)) }
{
    match expr {
        Expr::Term(term) => {
            let mut terms = Items::new(alloc);
            let term = term.try_clone()?;
            terms.push(term)?;
            Ok(Some(Fixed { variable, terms }))
        }
        _ => Ok(None),
    }
}

/// What `variable = expr` fixes: something only where the expression is an IRI, since an equal literal may be another term.
fn fixed_by_iri(alloc: Global, variable: usize, expr: &Expr) -> Result<Option<Fixed>, AllocError>
    ensures { IfOk result
        (λ o. IfSome o (λ f. (f.variable ≡ variable)
        × (IsIri expr.now × IsOnly expr.now f.terms))) }
{
    if is_iri(expr) {
        let fixed = fixed_to(alloc, variable, expr)?;
        return Ok(fixed);
    }
    Ok(None)
}

/// What `left = right` fixes.
fn fixed_by_equality(alloc: Global, left: &Expr, right: &Expr) -> Result<Option<Fixed>, AllocError>
    ensures { IfOk result
        (λ o. IfSome o (λ f. Fixes f.variable f.terms (exprs.Compare Equal left.now right.now))) }
{
    if let Some(variable) = variable_of(left) {
        let fixed = fixed_by_iri(alloc, variable, right)?;
        return Ok(fixed);
    }
    if let Some(variable) = variable_of(right) {
        let fixed = fixed_by_iri(alloc, variable, left)?;
        return Ok(fixed);
    }
    Ok(None)
}

/// What `sameTerm(left, right)` fixes.
fn fixed_by_same_term(alloc: Global, left: &Expr, right: &Expr) -> Result<Option<Fixed>, AllocError>
    ensures { IfOk result
        (λ o. IfSome o (λ f. Fixes f.variable f.terms (exprs.Binary SameTerm left.now right.now))) }
{
    if let Some(variable) = variable_of(left) {
        let fixed = fixed_to(alloc, variable, right)?;
        return Ok(fixed);
    }
    if let Some(variable) = variable_of(right) {
        let fixed = fixed_to(alloc, variable, left)?;
        return Ok(fixed);
    }
    Ok(None)
}

/// Puts the term after the others, if it is new. The set holds the terms of the list.
#[tactic(auto, using(crate::proofs::Members::put_new, crate::proofs::Members::put_known, crate::proofs::Members::set_more, crate::proofs::Members::set_still))]
fn add_new(
    seen: &mut BTreeSet<Term>,
    terms: &mut Items<Term>,
    term: &Term,
) -> Result<(), AllocError>
    requires { HaveSame seen.old.keys terms.old }
    ensures list { OnOk result (terms.new ≡ with_new same_term terms.old term.now) }
    ensures set { OnOk result (HaveSame seen.new.keys terms.new) }
{
    let key = term.try_clone()?;
    if !seen.insert(key)? {
        return Ok(());
    }
    let term = term.try_clone()?;
    terms.push(term)?;
    Ok(())
}

/// Puts the term after the others, if it is new and the expression an IRI. Tells whether it is one.
fn add_iri(
    seen: &mut BTreeSet<Term>,
    terms: &mut Items<Term>,
    expr: &Expr,
) -> Result<bool, AllocError>
    requires { HaveSame seen.old.keys terms.old }
    ensures list { IfOk result (λ is_one. is_one ≡ true → HasNew terms.old expr.now terms.new) }
    ensures set { IfOk result (λ is_one. is_one ≡ true → HaveSame seen.new.keys terms.new) }
{
    if !is_iri(expr) {
        return Ok(false);
    }
    match expr {
        Expr::Term(term) => {
            add_new(seen, terms, term)?;
            Ok(true)
        }
        _ => Ok(false),
    }
}

/// The terms of the members, each once, if all are IRIs. They are found in an ordered set, as strangers choose the texts of queries.
fn members(alloc: Global, parts: &[Expr]) -> Result<Option<Items<Term>>, AllocError>
    ensures { IfOk result
        (λ o. IfSome o (λ ts. Distinct same_term ts × AllByRecursion (Admits ts) parts.now)) }
{
    let mut seen = BTreeSet::new(alloc);
    let mut terms = Items::new(alloc);
    for part in parts {
        if !add_iri(&mut seen, &mut terms, part)? {
            return Ok(None);
        }
    }
    Ok(Some(terms))
}

/// What `one IN (parts)` fixes.
fn fixed_by_members(alloc: Global, one: &Expr, parts: &[Expr]) -> Result<Option<Fixed>, AllocError>
    ensures { IfOk result
        (λ o. IfSome o (λ f. Fixes f.variable f.terms (exprs.In one.now parts.now))) }
{
    if let Some(variable) = variable_of(one) {
        if let Some(terms) = members(alloc, parts)? {
            return Ok(Some(Fixed { variable, terms }));
        }
    }
    Ok(None)
}

/// The variable that the condition fixes, and the terms one of which it is.
fn fixed_by(alloc: Global, condition: &Expr) -> Result<Option<Fixed>, AllocError>
    ensures { IfOk result (λ o. IfSome o (λ f. Fixes f.variable f.terms condition.now)) }
{
    match condition {
        Expr::Compare(Comparison::Equal, left, right) => {
            let fixed = fixed_by_equality(alloc, left.get(), right.get())?;
            Ok(fixed)
        }
        Expr::Binary(BinaryFunction::SameTerm, left, right) => {
            let fixed = fixed_by_same_term(alloc, left.get(), right.get())?;
            Ok(fixed)
        }
        Expr::In(one, parts) => {
            let fixed = fixed_by_members(alloc, one.get(), parts.as_slice())?;
            Ok(fixed)
        }
        _ => Ok(None),
    }
}

// ---- steps after the stages

/// Whether the step makes of a solution that binds the variable solutions that bind it alike.
fn step_keeps(one: &Step, variable: usize) -> bool
    ensures { result ≡ true → StepKeeps variable one.now }
{
    match one {
        Step::Join(_) => true,
        Step::LeftJoin(_, _) => true,
        Step::Minus(_) => true,
        Step::Extend(other, _) => *other != variable,
    }
}

fn steps_keep(steps: &[Step], variable: usize) -> bool
    ensures { result ≡ true → AllByRecursion (StepKeeps variable) steps.now }
{
    for one in steps {
        if !step_keeps(one, variable) {
            return false;
        }
    }
    true
}

// ---- the table

/// A row of the term alone.
fn row_of(alloc: Global, term: &Term) -> Result<Items<Option<Term>>, AllocError>
    ensures { IfOk result (λ row. row ≡ Some term.now ∷ []) }
{
    let mut row = Items::new(alloc);
    let term = term.try_clone()?;
    row.push(Some(term))?;
    Ok(row)
}

/// A row for each term.
fn rows_of(alloc: Global, terms: &[Term]) -> Result<Items<Items<Option<Term>>>, AllocError>
    ensures { IfOk result (λ rows. rows ≡ map (λ t. Some t ∷ []) terms.now) }
{
    let mut rows = Items::new(alloc);
    for term in terms {
        let row = row_of(alloc, term)?;
        rows.push(row)?;
    }
    Ok(rows)
}

/// The table of the variable, with a row for each term.
fn table_of(alloc: Global, variable: usize, terms: &[Term]) -> Result<Table, AllocError>
    ensures { IfOk result (λ t. (t.variables ≡ variable ∷ [])
        × (t.rows ≡ map (λ x. Some x ∷ []) terms.now)) }
{
    let rows = rows_of(alloc, terms)?;
    let mut variables = Items::new(alloc);
    variables.push(variable)?;
    Ok(Table { variables, rows })
}

/// Puts a stage before the others.
fn put_first(alloc: Global, first: Stage, stages: &mut Items<Stage>) -> Result<(), AllocError>
    ensures { OnOk result (stages.new ≡ first ∷ stages.old) }
{
    let mut done = Items::new(alloc);
    done.push(first)?;
    let more = mem::replace(stages, Items::new(alloc));
    done.append(more)?;
    *stages = done;
    Ok(())
}

// ---- stages

/// Puts a table of the terms before the stages, if they are certain to bind the variable and the steps after them keep it.
fn put_fixed(
    alloc: Global,
    fixed: &Fixed,
    steps: &[Step],
    size: Size,
    stages: &mut Items<Stage>,
) -> Result<(), AllocError>
    ensures { OnOk result ((e : Condition) → Fixes fixed.now.variable fixed.now.terms e
        → Instead size steps.now (e ∷ []) stages.old stages.new) }
{
    let variable = fixed.variable;
    if variable >= size.width || !steps_keep(steps, variable) {
        return Ok(());
    }
    if !is_bound(stages.as_slice(), variable, size) {
        return Ok(());
    }
    let table = table_of(alloc, variable, fixed.terms.as_slice())?;
    let table = Shared::new(alloc, table)?;
    put_first(alloc, Stage::Values(table), stages)?;
    Ok(())
}

/// Puts a table before the stages, if the condition fixes a variable that they are certain to bind.
fn put_simple(
    alloc: Global,
    condition: &Expr,
    steps: &[Step],
    size: Size,
    stages: &mut Items<Stage>,
) -> Result<(), AllocError>
    ensures { OnOk result (Instead size steps.now (condition.now ∷ []) stages.old stages.new) }
{
    if let Some(fixed) = fixed_by(alloc, condition)? {
        put_fixed(alloc, &fixed, steps, size, stages)?;
    }
    Ok(())
}

/// Puts tables before the stages for the conditions that fix variables which the stages are certain to bind, and the steps after them keep.
#[cycle(fixed)]
pub(crate) fn put_tables(
    alloc: Global,
    conditions: &[Expr],
    steps: &[Step],
    size: Size,
    stages: &mut Items<Stage>,
) -> Result<(), AllocError>
    ensures { OnOk result (Instead size steps.now conditions.now stages.old stages.new) }
{
    for condition in conditions {
        put_tables_of(alloc, condition, steps, size, stages)?;
    }
    Ok(())
}

/// Puts the tables of one condition before the stages; of a conjunction those of each part.
#[cycle(fixed)]
fn put_tables_of(
    alloc: Global,
    condition: &Expr,
    steps: &[Step],
    size: Size,
    stages: &mut Items<Stage>,
) -> Result<(), AllocError>
    ensures { OnOk result (Instead size steps.now (condition.now ∷ []) stages.old stages.new) }
{
    match condition {
        Expr::And(parts) => {
            put_tables(alloc, parts.as_slice(), steps, size, stages)?;
            Ok(())
        }
        other => {
            put_simple(alloc, other, steps, size, stages)?;
            Ok(())
        }
    }
}

// ---- conditions in line

/// Whether the stages are certain to bind all variables that the condition reads.
fn is_settled(
    alloc: Global,
    condition: &Expr,
    stages: &[Stage],
    size: Size,
) -> Result<bool, AllocError>
    ensures { IfOk result (λ is_so. is_so ≡ true → SettledBy size stages.now condition.now) }
{
    let mut variables = Vec::new(alloc);
    settle(alloc, condition, &mut variables)?;
    Ok(are_bound(stages, variables.as_slice(), size))
}

/// Whether the stages are certain to bind all variables that the conditions read.
pub(crate) fn are_settled(
    alloc: Global,
    conditions: &[Expr],
    stages: &[Stage],
    size: Size,
) -> Result<bool, AllocError>
    ensures { IfOk result (λ are_so. are_so ≡ true → AllByRecursion (SettledBy size stages.now)
        conditions.now) }
{
    for condition in conditions {
        if !is_settled(alloc, condition, stages, size)? {
            return Ok(false);
        }
    }
    Ok(true)
}
