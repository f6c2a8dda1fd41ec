//! What a piece of work results in where an allocation may be refused.

#[derive(Clone, Copy, PartialEq, Eq)]
pub enum Outcome {
    /// All is as it ought to be.
    Whole,
    /// Memory ran out.
    Refused,
    Wrong,
}

impl Outcome {
    pub fn of_answer(is_right: bool) -> Outcome {
        if is_right {
            Outcome::Whole
        } else {
            Outcome::Wrong
        }
    }
}
