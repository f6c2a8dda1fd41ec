//! A quotation mark.

ghost use Rattle.std.specs.Prelude.{◌≡◌, ◌==◌, false};

/// A string's quotation mark.
#[derive(Clone, Copy)]
pub struct Quote {
    pub mark: char,
    ghost not_backslash: { (mark == 92) ≡ false },
}
