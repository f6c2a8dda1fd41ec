//! What a piece of work results in where an allocation may be refused.

#[derive(Clone, Copy, PartialEq, Eq)]
pub enum Outcome {
    /// All is as it ought to be.
    Whole,
    /// Memory ran out, and everything is as it was.
    Refused,
    Wrong,
}

impl Outcome {
    /// This, unless something isn't right.
    pub fn or_wrong(self, is_right: bool) -> Outcome {
        if is_right { self } else { Outcome::Wrong }
    }
}
