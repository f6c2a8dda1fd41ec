//! What the other crates share: values that several places have in common (`Shared`), values with their hashes as keys of ordered maps
//! (`Hashed`), and helpers that keep or drop large values by one call.
#![tactic(auto)]

mod hashed;
mod keep;
mod shared;

pub use hashed::{Hashed, hash_of};
pub use keep::{box_pair, box_three, drop_value, keep_beside, push_after};
pub use shared::Shared;
