//! What a piece of work results in where an allocation may be refused.

use qs_terms::TermFault;

#[derive(Clone, Copy, PartialEq, Eq)]
pub enum Outcome {
    /// All is as it ought to be.
    Whole,
    /// Memory ran out, and everything is as it was.
    Refused,
    Wrong,
}

impl Outcome {
    pub fn of(is_right: Result<bool, TermFault>) -> Outcome {
        match is_right {
            Ok(true) => Outcome::Whole,
            Err(TermFault::Memory) => Outcome::Refused,
            _ => Outcome::Wrong,
        }
    }

    /// This, unless something isn't right.
    pub fn or_wrong(self, is_right: bool) -> Outcome {
        if is_right { self } else { Outcome::Wrong }
    }
}
