//! What a piece of work results in where an allocation may be refused.

use std::alloc::AllocError;

#[derive(Clone, Copy, PartialEq, Eq)]
pub enum Outcome {
    /// All is as it ought to be.
    Whole,
    /// Memory ran out.
    Refused,
    Wrong,
}

impl Outcome {
    pub fn of(is_right: Result<bool, AllocError>) -> Outcome {
        match is_right {
            Ok(true) => Outcome::Whole,
            Ok(false) => Outcome::Wrong,
            Err(_) => Outcome::Refused,
        }
    }
}
