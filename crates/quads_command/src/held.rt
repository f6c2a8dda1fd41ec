//! Values that are dropped by one call each: the drop of a command or of its matches is long wherever it is.

use std::alloc::AllocError;

/// Drops a value.
pub fn drop_value<T: Drop>(value: T) {
    drop(value);
}

/// Returns a value and the one that was made beside it.
///
/// # Errors
///
/// Out of memory, where the second was made.
pub fn keep_beside<A: Drop, B>(
    first: A,
    second: Result<B, AllocError>,
) -> Result<(A, B), AllocError> {
    Ok((first, second?))
}
