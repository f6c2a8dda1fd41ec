//! Comparisons and numbers of values.

ghost use Rattle.std.specs.Prelude.{◌≡◌, None, Some};
ghost use Rattle.std.specs.Option.{option_map};
ghost use Rattle.qs_expr_values.specs.inner.Value.{term_of};
ghost use Rattle.qs_expr_values.specs.Values as of;
ghost use Rattle.qs_expr_values.specs.Number.{in_range};
ghost use Rattle.qs_expr_meaning.specs.Calls.{integer_of_worth};
ghost use Rattle.qs_expr_meaning.specs.Meaning as spec;
ghost use Rattle.qs_expr_meaning.specs.inner.Meaning as inner_spec;

use qs_expr_values::{Value, Worth, add, equal, multiply, negate, subtract, worth_of};
use qs_syntax_tree::expression::{Comparison, Sign};
use std::cmp::Ordering;

fn order(a: &Value<'_>, b: &Value<'_>) -> Option<Ordering>
    ensures { result ≡ of.compare (of.worth (term_of a.entry.now))
        (of.worth (term_of b.entry.now)) }
{
    qs_expr_values::compare(worth_of(a), worth_of(b))
}

/// `=`, `!=`, `<`, `>`, `<=`, `>=`; none is an error.
pub(crate) fn compared(comparison: Comparison, a: &Value<'_>, b: &Value<'_>) -> Option<bool>
    ensures { result ≡ spec.compared comparison (term_of a.entry.now) (term_of b.entry.now) }
{
    match comparison {
        Comparison::Equal => equal(a, b),
        Comparison::NotEqual => match equal(a, b) {
            Some(truth) => Some(!truth),
            None => None,
        },
        Comparison::Less => match order(a, b) {
            Some(order) => Some(order.is_lt()),
            None => None,
        },
        Comparison::Greater => match order(a, b) {
            Some(order) => Some(order.is_gt()),
            None => None,
        },
        Comparison::LessOrEqual => match order(a, b) {
            Some(order) => Some(order.is_le()),
            None => None,
        },
        Comparison::GreaterOrEqual => match order(a, b) {
            Some(order) => Some(order.is_ge()),
            None => None,
        },
    }
}

/// The integer of the range that the value is worth.
pub(crate) fn number(value: &Value<'_>) -> Option<i128>
    ensures { result ≡ integer_of_worth (of.worth (term_of value.entry.now)) }
{
    match worth_of(value) {
        Worth::Integer(number) => Some(number),
        _ => None,
    }
}

/// The sum with one operand more.
pub(crate) fn with_part(sign: Sign, sum: i128, part: i128) -> Option<i128>
    ensures { result ≡ spec.applied (spec.by_sign sign) (Some sum) (Some part) }
{
    match sign {
        Sign::Plus => add(sum, part),
        Sign::Minus => subtract(sum, part),
    }
}

/// The product with one operand more.
pub(crate) fn with_factor(product: i128, factor: i128) -> Option<i128>
    ensures { result ≡ spec.applied inner_spec.times (Some product) (Some factor) }
{
    multiply(product, factor)
}

/// The number after a sign.
pub(crate) fn with_sign(sign: Sign, number: i128) -> Option<i128>
    ensures { result ≡ in_range (Some (spec.with_sign sign number)) }
{
    match sign {
        Sign::Plus => Some(number),
        Sign::Minus => negate(number),
    }
}
