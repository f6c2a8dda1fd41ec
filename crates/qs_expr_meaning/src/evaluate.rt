//! The evaluator.

ghost use Rattle.std.specs.Prelude.{◌≡◌, true, map, Some, None, Ok, Err, MatchResult, MatchOption, string_bytes};
ghost use Rattle.std.specs.List.{fold};
ghost use Rattle.std.specs.Option.{option_and_then, option_map};
ghost use Rattle.qs_expr_values.specs.Number.{in_range};
ghost use Rattle.qs_expr_values.specs.inner.Value.{term_of};
ghost use Rattle.qs_expr_values.specs.Values as of_terms;
ghost use Rattle.qs_expr_values.specs.declared.value.Value.TheVariants as seen;
ghost use Rattle.qs_expr_meaning.specs.Calls as of_calls;
ghost use Rattle.qs_expr_meaning.specs.inner.Comes.{Comes, ComesAs, Tells};
ghost use Rattle.qs_expr_meaning.specs.inner.Joined as joining;
ghost use Rattle.qs_expr_meaning.specs.inner.Makes.{makes, addend_makes, some};
ghost use Rattle.qs_expr_meaning.specs.Meaning as spec;
ghost use Rattle.qs_expr_meaning.specs.inner.Meaning as inner_spec;
ghost use Rattle.qs_expr_meaning.specs.Truth as of;
ghost use Rattle.qs_expr_meaning.specs.declared.fault.ExprFault.TheVariants as faults;

use crate::bindings::Bindings;
use crate::call::{binary, unary};
use crate::expr::{Addend, Expr};
use crate::fault::ExprFault;
use crate::joined::{add, finish};
use crate::relation::{compared, number, with_factor, with_part, with_sign};
use qs_expr_values::{Value, ebv, equal};
use qs_syntax_tree::expression::{BinaryFunction, Comparison, Sign, UnaryFunction};
use qs_terms::Lit;
use std::alloc::Global;

fn of_option(truth: Option<bool>) -> Result<bool, ExprFault>
    ensures { MatchOption truth (result ≡ Err faults.TypeError) (λ b. result ≡ Ok b) }
{
    match truth {
        Some(truth) => Ok(truth),
        None => Err(ExprFault::TypeError),
    }
}

fn integer_of_option(number: Option<i128>) -> Result<i128, ExprFault>
    ensures { MatchOption number (result ≡ Err faults.TypeError) (λ z. result ≡ Ok z) }
{
    match number {
        Some(number) => Ok(number),
        None => Err(ExprFault::TypeError),
    }
}

fn denied(truth: Result<bool, ExprFault>) -> Result<bool, ExprFault>
    ensures { MatchResult truth (λ b. result ≡ Ok (Rattle.std.specs.Prelude.not b))
        (λ f. result ≡ Err f) }
{
    match truth {
        Ok(truth) => Ok(!truth),
        Err(error) => Err(error),
    }
}

fn as_boolean<'a>(truth: Result<bool, ExprFault>) -> Result<Value<'a>, ExprFault>
    ensures { MatchResult truth (λ b. result ≡ Ok (seen.Boolean b)) (λ f. result ≡ Err f) }
{
    match truth {
        Ok(truth) => Ok(Value::Boolean(truth)),
        Err(fault) => Err(fault),
    }
}

/// The value of the expression (SPARQL 1.1 Query, 17). It makes no term, and takes memory for CONCAT alone.
#[cycle(value)]
pub fn value<'a, B: Bindings>(
    alloc: Global,
    expr: &'a Expr,
    bindings: &'a B,
) -> Result<Value<'a>, ExprFault>
    ensures { ComesAs (makes expr.entry.now)
        (spec.meaning (B.solution bindings.entry.now) expr.entry.now) result }
{
    match expr {
        Expr::Variable(variable) => match bindings.value(*variable) {
            Some(value) => Ok(value),
            None => Err(ExprFault::TypeError),
        },
        Expr::Term(term) => Ok(Value::Term(term)),
        _ => composed(alloc, expr, bindings),
    }
}

// The value of an expression of parts. A function of its own, so that variables and constants don't pay for the room of its values.
#[cycle(value)]
#[inline(never)]
fn composed<'a, B: Bindings>(
    alloc: Global,
    expr: &'a Expr,
    bindings: &'a B,
) -> Result<Value<'a>, ExprFault>
    ensures { ComesAs (makes expr.entry.now)
        (spec.meaning (B.solution bindings.entry.now) expr.entry.now) result }
{
    match expr {
        Expr::Variable(variable) => match bindings.value(*variable) {
            Some(value) => Ok(value),
            None => Err(ExprFault::TypeError),
        },
        Expr::Term(term) => Ok(Value::Term(term)),
        Expr::Or(parts) => as_boolean(is_any(alloc, parts.as_slice(), bindings)),
        Expr::And(parts) => as_boolean(is_every(alloc, parts.as_slice(), bindings)),
        Expr::Compare(comparison, a, b) => {
            let x = value(alloc, a.get(), bindings)?;
            as_boolean(is_related(alloc, *comparison, &x, b.get(), bindings))
        }
        Expr::In(inner, parts) => {
            if parts.as_slice().is_empty() {
                return Ok(Value::Boolean(false));
            }
            match value(alloc, inner.get(), bindings) {
                Ok(x) => as_boolean(is_among(alloc, &x, parts.as_slice(), bindings)),
                Err(fault) => Err(fault),
            }
        }
        Expr::NotIn(inner, parts) => {
            if parts.as_slice().is_empty() {
                return Ok(Value::Boolean(true));
            }
            match value(alloc, inner.get(), bindings) {
                Ok(x) => as_boolean(denied(is_among(alloc, &x, parts.as_slice(), bindings))),
                Err(fault) => Err(fault),
            }
        }
        Expr::Sum(first, more) => match integer(alloc, first.get(), bindings) {
            Ok(first) => {
                let sum = with_addends(alloc, first, more.as_slice(), bindings)?;
                Ok(Value::Integer(sum))
            }
            Err(fault) => Err(fault),
        },
        Expr::Product(first, more) => match integer(alloc, first.get(), bindings) {
            Ok(first) => {
                let product = with_factors(alloc, first, more.as_slice(), bindings)?;
                Ok(Value::Integer(product))
            }
            Err(fault) => Err(fault),
        },
        Expr::Not(inner) => as_boolean(denied(truth(alloc, inner.get(), bindings))),
        Expr::Signed(sign, inner) => {
            let number = signed(alloc, *sign, inner.get(), bindings)?;
            Ok(Value::Integer(number))
        }
        Expr::Bound(variable) => Ok(Value::Boolean(bindings.term(*variable).is_some())),
        Expr::If(test, then, otherwise) => match truth(alloc, test.get(), bindings) {
            Ok(true) => value(alloc, then.get(), bindings),
            Ok(false) => value(alloc, otherwise.get(), bindings),
            Err(fault) => Err(fault),
        },
        Expr::Coalesce(parts) => first_of(alloc, parts.as_slice(), bindings),
        Expr::Concat(parts) => concatenation(alloc, parts.as_slice(), bindings),
        Expr::Unary(function, argument) => {
            function_of(alloc, *function, argument.get(), bindings)
        }
        Expr::Binary(function, a, b) => {
            let x = value(alloc, a.get(), bindings)?;
            as_boolean(is_tested(alloc, *function, &x, b.get(), bindings))
        }
    }
}

/// The effective boolean value of the expression (SPARQL 1.1 Query, 17.2.2). Conditions tell theirs without a value between.
#[cycle(value)]
#[tactic(auto, using(crate::proofs::Truths::truth_of, crate::proofs::Truths::truth_told))]
pub fn truth<B: Bindings>(alloc: Global, expr: &Expr, bindings: &B) -> Result<bool, ExprFault>
    ensures { Comes (makes expr.now) (spec.truth (spec.meaning (B.solution bindings.now) expr.now))
        result }
{
    match expr {
        Expr::Or(parts) => is_any(alloc, parts.as_slice(), bindings),
        Expr::And(parts) => is_every(alloc, parts.as_slice(), bindings),
        Expr::Compare(comparison, a, b) => {
            let x = value(alloc, a.get(), bindings)?;
            is_related(alloc, *comparison, &x, b.get(), bindings)
        }
        Expr::Binary(function, a, b) => {
            let x = value(alloc, a.get(), bindings)?;
            is_tested(alloc, *function, &x, b.get(), bindings)
        }
        _ => truth_of_value(alloc, expr, bindings),
    }
}

#[cycle(value)]
#[inline(never)]
fn truth_of_value<B: Bindings>(alloc: Global, expr: &Expr, bindings: &B) -> Result<bool, ExprFault>
    ensures { Comes (makes expr.now) (spec.truth (spec.meaning (B.solution bindings.now) expr.now))
        result }
{
    let value = value(alloc, expr, bindings)?;
    of_option(ebv(&value))
}

/// `||`
#[cycle(value)]
#[inline(never)]
fn is_any<B: Bindings>(alloc: Global, parts: &[Expr], bindings: &B) -> Result<bool, ExprFault>
    ensures { Comes (some (map makes parts.now))
        (of.any (map spec.truth (map (spec.meaning (B.solution bindings.now)) parts.now))) result }
{
    let mut errs = false;
    for disjunct in parts {
        match truth(alloc, disjunct, bindings) {
            Ok(true) => return Ok(true),
            Ok(false) => {}
            Err(ExprFault::TypeError) => errs = true,
            Err(ExprFault::Memory) => return Err(ExprFault::Memory),
        }
    }
    if errs {
        Err(ExprFault::TypeError)
    } else {
        Ok(false)
    }
}

/// `&&`
#[cycle(value)]
#[inline(never)]
fn is_every<B: Bindings>(alloc: Global, parts: &[Expr], bindings: &B) -> Result<bool, ExprFault>
    ensures { Comes (some (map makes parts.now))
        (of.every (map spec.truth (map (spec.meaning (B.solution bindings.now)) parts.now)))
        result }
{
    let mut fails = false;
    for conjunct in parts {
        match truth(alloc, conjunct, bindings) {
            Ok(false) => return Ok(false),
            Ok(true) => {}
            Err(ExprFault::TypeError) => fails = true,
            Err(ExprFault::Memory) => return Err(ExprFault::Memory),
        }
    }
    if fails {
        Err(ExprFault::TypeError)
    } else {
        Ok(true)
    }
}

/// A comparison, after its first operand
#[cycle(value)]
#[inline(never)]
fn is_related<B: Bindings>(
    alloc: Global,
    comparison: Comparison,
    x: &Value<'_>,
    b: &Expr,
    bindings: &B,
) -> Result<bool, ExprFault>
    ensures { Comes (makes b.now)
        (of_calls.of_both (spec.compared comparison) (Some (term_of x.entry.now))
        (spec.meaning (B.solution bindings.now) b.now)) result }
{
    let y = value(alloc, b, bindings)?;
    of_option(compared(comparison, x, &y))
}

/// A function of two arguments, after the first
#[cycle(value)]
#[inline(never)]
fn is_tested<B: Bindings>(
    alloc: Global,
    function: BinaryFunction,
    x: &Value<'_>,
    b: &Expr,
    bindings: &B,
) -> Result<bool, ExprFault>
    ensures { Tells (makes b.now)
        (of_calls.of_both (of_calls.binary function) (Some (term_of x.entry.now))
        (spec.meaning (B.solution bindings.now) b.now)) result }
{
    let y = value(alloc, b, bindings)?;
    of_option(binary(function, x, &y))
}

/// A function of one argument.
#[cycle(value)]
#[inline(never)]
fn function_of<'a, B: Bindings>(
    alloc: Global,
    function: UnaryFunction,
    argument: &'a Expr,
    bindings: &'a B,
) -> Result<Value<'a>, ExprFault>
    ensures { ComesAs (makes argument.entry.now)
        (option_and_then (of_calls.unary function)
        (spec.meaning (B.solution bindings.entry.now) argument.entry.now)) result }
{
    match value(alloc, argument, bindings) {
        Ok(argument) => match unary(function, argument) {
            Some(value) => Ok(value),
            None => Err(ExprFault::TypeError),
        },
        Err(fault) => Err(fault),
    }
}

/// IN, after the first operand
#[cycle(value)]
#[inline(never)]
fn is_among<B: Bindings>(
    alloc: Global,
    x: &Value<'_>,
    parts: &[Expr],
    bindings: &B,
) -> Result<bool, ExprFault>
    ensures { Comes (some (map makes parts.now))
        (spec.among (Some (term_of x.entry.now))
        (map (spec.meaning (B.solution bindings.now)) parts.now)) result }
{
    let mut unknown = false;
    for member in parts {
        match is_equal(alloc, x, member, bindings) {
            Ok(true) => return Ok(true),
            Ok(false) => {}
            Err(ExprFault::TypeError) => unknown = true,
            Err(ExprFault::Memory) => return Err(ExprFault::Memory),
        }
    }
    if unknown {
        Err(ExprFault::TypeError)
    } else {
        Ok(false)
    }
}

#[cycle(value)]
fn is_equal<B: Bindings>(
    alloc: Global,
    x: &Value<'_>,
    part: &Expr,
    bindings: &B,
) -> Result<bool, ExprFault>
    ensures { Comes (makes part.now) (of_calls.of_both of_terms.equal (Some (term_of x.entry.now))
        (spec.meaning (B.solution bindings.now) part.now)) result }
{
    let y = value(alloc, part, bindings)?;
    of_option(equal(x, &y))
}

/// The integer that the expression is worth.
#[cycle(value)]
fn integer<B: Bindings>(alloc: Global, expr: &Expr, bindings: &B) -> Result<i128, ExprFault>
    ensures { Comes (makes expr.now) (spec.number (spec.meaning (B.solution bindings.now) expr.now))
        result }
{
    let value = value(alloc, expr, bindings)?;
    integer_of_option(number(&value))
}

#[cycle(value)]
fn signed<B: Bindings>(
    alloc: Global,
    sign: Sign,
    inner: &Expr,
    bindings: &B,
) -> Result<i128, ExprFault>
    ensures { Comes (makes inner.now)
        (in_range
        (option_map (spec.with_sign sign)
        (spec.number (spec.meaning (B.solution bindings.now) inner.now)))) result }
{
    let number = integer(alloc, inner, bindings)?;
    integer_of_option(with_sign(sign, number))
}

#[cycle(value)]
#[inline(never)]
fn with_addends<B: Bindings>(
    alloc: Global,
    first: i128,
    more: &[Addend],
    bindings: &B,
) -> Result<i128, ExprFault>
    ensures { Comes (some (map addend_makes more.now))
        (fold spec.added (Some first) (map (inner_spec.addend_meaning (B.solution bindings.now))
        more.now)) result }
{
    let mut sum = first;
    for addend in more {
        match summed(alloc, sum, addend, bindings) {
            Ok(more) => sum = more,
            Err(fault) => return Err(fault),
        }
    }
    Ok(sum)
}

#[cycle(value)]
fn summed<B: Bindings>(
    alloc: Global,
    sum: i128,
    addend: &Addend,
    bindings: &B,
) -> Result<i128, ExprFault>
    ensures { Comes (addend_makes addend.now)
        (spec.added (Some sum) (inner_spec.addend_meaning (B.solution bindings.now) addend.now))
        result }
{
    let part = integer(alloc, &addend.operand, bindings)?;
    integer_of_option(with_part(addend.sign, sum, part))
}

#[cycle(value)]
#[inline(never)]
fn with_factors<B: Bindings>(
    alloc: Global,
    first: i128,
    more: &[Expr],
    bindings: &B,
) -> Result<i128, ExprFault>
    ensures { Comes (some (map makes more.now))
        (fold spec.multiplied (Some first) (map (spec.meaning (B.solution bindings.now)) more.now))
        result }
{
    let mut product = first;
    for part in more {
        match timed(alloc, product, part, bindings) {
            Ok(more) => product = more,
            Err(fault) => return Err(fault),
        }
    }
    Ok(product)
}

#[cycle(value)]
fn timed<B: Bindings>(
    alloc: Global,
    product: i128,
    factor: &Expr,
    bindings: &B,
) -> Result<i128, ExprFault>
    ensures { Comes (makes factor.now)
        (spec.multiplied (Some product) (spec.meaning (B.solution bindings.now) factor.now))
        result }
{
    let factor = integer(alloc, factor, bindings)?;
    integer_of_option(with_factor(product, factor))
}

/// COALESCE
#[cycle(value)]
#[inline(never)]
fn first_of<'a, B: Bindings>(
    alloc: Global,
    parts: &'a [Expr],
    bindings: &'a B,
) -> Result<Value<'a>, ExprFault>
    ensures { ComesAs (some (map makes parts.entry.now))
        (spec.first_value (map (spec.meaning (B.solution bindings.entry.now)) parts.entry.now))
        result }
{
    for part in parts {
        match value(alloc, part, bindings) {
            Ok(found) => return Ok(found),
            Err(ExprFault::TypeError) => {}
            Err(ExprFault::Memory) => return Err(ExprFault::Memory),
        }
    }
    Err(ExprFault::TypeError)
}

/// CONCAT
#[cycle(value)]
#[inline(never)]
fn concatenation<'a, B: Bindings>(
    alloc: Global,
    parts: &'a [Expr],
    bindings: &'a B,
) -> Result<Value<'a>, ExprFault>
    ensures { ComesAs true
        (option_map of_calls.joined
        (of_calls.strings (map (spec.meaning (B.solution bindings.entry.now)) parts.entry.now)))
        result }
{
    let mut form = String::new(alloc);
    let mut tag = None;
    for part in parts {
        match add_string(alloc, &mut form, tag, part, bindings) {
            Ok(next) => tag = Some(next),
            Err(fault) => return Err(fault),
        }
    }
    Ok(finish(form, tag))
}

#[cycle(value)]
fn add_string<'a, B: Bindings>(
    alloc: Global,
    form: &mut String,
    tag: Option<Option<&'a Lit>>,
    part: &'a Expr,
    bindings: &'a B,
) -> Result<Option<&'a Lit>, ExprFault>
    ensures { joining.JoinsTo
        (option_and_then (joining.with_value (string_bytes form.old, joining.tag_seen tag.entry))
        (spec.meaning (B.solution bindings.entry.now) part.entry.now)) (string_bytes form.new)
        result }
{
    match value(alloc, part, bindings) {
        Ok(value) => add(form, tag, &value),
        Err(fault) => Err(fault),
    }
}
