//! Helpers that keep or drop values of any type. Each takes the value as a type parameter, so that a large tree is dropped by one call,
//! also where a later step fails, and the proofs of its callers needn't take it apart.
//!
//! A value whose drop is large isn't alive where a step may fail. These helpers take it over any type, and drop it by one call.

ghost use Rattle.std.specs.Prelude.{◌≡◌, ◌++◌, ◌∷◌, [], IfOk, IfErr, IsOk, OnOk, Ok, Err};

use sqlite_items::{Boxed, Items};
use std::alloc::{AllocError, Global};

/// What was made first, beside what was made then.
pub fn keep_beside<A: Drop, B, E>(first: A, second: Result<B, E>) -> Result<(A, B), E>
    ensures found { IfOk second (λ b. result ≡ Ok (first, b)) }
    ensures fault { IfErr second (λ e. result ≡ Err e) }
{
    match second {
        Ok(second) => Ok((first, second)),
        Err(fault) => Err(fault),
    }
}

/// Puts an item after the others, once what was done before has succeeded.
pub fn push_after<T: Drop>(
    done: Result<(), AllocError>,
    items: &mut Items<T>,
    item: T,
) -> Result<(), AllocError>
    ensures { OnOk result (IsOk done × (items.new ≡ items.old ++ item ∷ [])) }
{
    done?;
    items.push(item)
}

/// Two values, each in a box.
pub fn box_pair<T: Drop>(alloc: Global, two: (T, T)) -> Result<(Boxed<T>, Boxed<T>), AllocError>
    ensures { IfOk result (λ boxes. boxes ≡ two) }
{
    let (first, second) = two;
    let first = Boxed::new(alloc, first)?;
    Ok((first, Boxed::new(alloc, second)?))
}

/// Three values, each in a box.
pub fn box_three<T: Drop>(
    alloc: Global,
    three: ((T, T), T),
) -> Result<((Boxed<T>, Boxed<T>), Boxed<T>), AllocError>
    ensures { IfOk result (λ boxes. boxes ≡ three) }
{
    let (two, third) = three;
    let two = box_pair(alloc, two)?;
    Ok((two, Boxed::new(alloc, third)?))
}

/// Drops the value, by one call: where a large value is dropped in place, the proof of the caller takes it apart.
pub fn drop_value<T: Drop>(value: T) {
    drop(value);
}
