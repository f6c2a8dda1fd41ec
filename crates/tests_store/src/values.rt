//! Values of terms: what the dictionary and the store keep of each (XML Schema 1.1 part 2, 3.3.2 and 3.4.13).

use crate::terms::{BOOLEAN, DECIMAL, INTEGER, Parts, STRING, make};
use qs_dict::Dict;
use qs_expr_values::TermValue;
use qs_store::{Store, View};
use qs_terms::{Term, TermFault};
use qs_update::update;
use std::alloc::Global;
use std::hash::RandomState;

/// Terms, and what each is worth.
const WORTH: &[(Parts, TermValue)] = &[
    (Parts::Iri("e:a"), TermValue::Other),
    (Parts::Blank(7), TermValue::Other),
    (Parts::Typed("7", INTEGER), TermValue::Integer(7)),
    (Parts::Typed("01", INTEGER), TermValue::Integer(1)),
    (Parts::Typed("+1", INTEGER), TermValue::Integer(1)),
    (Parts::Typed("-0", INTEGER), TermValue::Integer(0)),
    (
        Parts::Typed("9223372036854775807", INTEGER),
        TermValue::Integer(9_223_372_036_854_775_807),
    ),
    (
        Parts::Typed("9223372036854775808", INTEGER),
        TermValue::Wide,
    ),
    (
        Parts::Typed("-9223372036854775808", INTEGER),
        TermValue::Integer(-9_223_372_036_854_775_808),
    ),
    (
        Parts::Typed("-9223372036854775809", INTEGER),
        TermValue::Wide,
    ),
    (
        Parts::Typed("170141183460469231731687303715884105727", INTEGER),
        TermValue::Wide,
    ),
    (
        Parts::Typed("170141183460469231731687303715884105728", INTEGER),
        TermValue::Other,
    ),
    (
        Parts::Typed("-170141183460469231731687303715884105728", INTEGER),
        TermValue::Wide,
    ),
    (
        Parts::Typed("-170141183460469231731687303715884105729", INTEGER),
        TermValue::Other,
    ),
    (Parts::Typed("", INTEGER), TermValue::Other),
    (Parts::Typed("1.0", INTEGER), TermValue::Other),
    (Parts::Typed("1", DECIMAL), TermValue::Other),
    (Parts::Typed("1", BOOLEAN), TermValue::Boolean(true)),
    (Parts::Typed("true", BOOLEAN), TermValue::Boolean(true)),
    (Parts::Typed("0", BOOLEAN), TermValue::Boolean(false)),
    (Parts::Typed("false", BOOLEAN), TermValue::Boolean(false)),
    (Parts::Typed("TRUE", BOOLEAN), TermValue::Other),
    (Parts::Typed("1", STRING), TermValue::Text),
    (Parts::Typed("", STRING), TermValue::Text),
    (Parts::Tagged("1", "de"), TermValue::Other),
];

/// Whether the number is in use, and its term is worth so much.
fn is_worth(dict: &Dict, number: u32, want: TermValue) -> bool {
    number > 0 && number <= dict.len() && dict.value(number) == want
}

/// Whether the term gets the number, and is worth so much.
fn keeps(
    alloc: Global,
    dict: &mut Dict,
    parts: Parts,
    number: u32,
    want: TermValue,
) -> Result<bool, TermFault> {
    let term = make(alloc, parts)?;
    let numbered = dict.number(&term);
    drop(term);
    Ok(numbered == Ok(number) && is_worth(dict, number, want))
}

/// Whether each of the terms is worth what is told of it when they get the numbers from 1 on.
fn keeps_all(alloc: Global, dict: &mut Dict) -> Result<bool, TermFault> {
    let mut number: u32 = 0;
    for (parts, want) in WORTH {
        number = number.saturating_add(1);
        if !keeps(alloc, dict, *parts, number, *want)? {
            return Ok(false);
        }
    }
    Ok(true)
}

/// Whether another term has a value of its own where one was cut off.
fn cuts(alloc: Global, dict: &mut Dict) -> Result<bool, TermFault> {
    dict.cut(2);
    keeps(
        alloc,
        dict,
        Parts::Typed("true", BOOLEAN),
        3,
        TermValue::Boolean(true),
    )
}

fn dictionary_keeps_values(alloc: Global, hasher: Option<RandomState>) -> bool {
    let Some(hasher) = hasher else {
        return false;
    };
    let mut dict = Dict::new(alloc, 40, hasher);
    let keeps = keeps_all(alloc, &mut dict) == Ok(true) && cuts(alloc, &mut dict) == Ok(true);
    drop(dict);
    keeps
}

#[test]
fn dictionary_tells_values(rt: HostRuntime) {
    assert!(rt; dictionary_keeps_values(rt.alloc(), RandomState::new(&rt).ok()));
}

/// Whether the view knows the number, and its term is worth so much.
fn tells<V: View>(view: &V, number: u32, want: TermValue) -> bool {
    number > 0 && number <= view.terms() && view.value(number) == want
}

/// The number and the worth of the last term of a view of three terms.
fn third_is<V: View>(view: &V, want: TermValue) -> bool {
    view.terms() == 3 && tells(view, 3, want)
}

/// A draft with a third term is abandoned, and then an update puts another.
fn store_keeps(alloc: Global, store: &mut Store) -> bool {
    let is_refused = update(alloc, "INSERT DATA { <e:a> <e:p> 5, 6 }", store, 9).is_err();
    let is_accepted = update(alloc, "INSERT DATA { <e:a> <e:p> 6 }", store, 9).is_ok();
    is_refused && is_accepted && third_is(&*store, TermValue::Integer(6))
}

fn store_keeps_values(alloc: Global, hasher: Option<RandomState>) -> bool {
    let Some(hasher) = hasher else {
        return false;
    };
    let mut store = Store::new(alloc, 3, hasher);
    let keeps = store_keeps(alloc, &mut store);
    drop(store);
    keeps
}

#[test]
fn store_tells_values(rt: HostRuntime) {
    assert!(rt; store_keeps_values(rt.alloc(), RandomState::new(&rt).ok()));
}
