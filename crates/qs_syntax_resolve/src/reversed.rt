//! Lists that are taken apart from their front.

ghost use Rattle.std.specs.Prelude.{◌≡◌, IfOk, reverse};

use sqlite_items::Items;
use std::alloc::{AllocError, Global};

/// The items in reverse order, so that `pop` takes them in the order that they had.
pub fn reversed<T: Drop>(alloc: Global, mut items: Items<T>) -> Result<Items<T>, AllocError>
    ensures { IfOk result (λ found. found ≡ reverse items) }
{
    if items.len() < 2 {
        return Ok(items);
    }
    let mut found = Items::from_vec(Vec::with_capacity(alloc, items.len())?);
    while let Some(item) = items.pop() {
        found.push(item)?;
    }
    Ok(found)
}
