//! IRIs, `<` and `<=`, a character at a time.

ghost use Rattle.std.specs.Prelude.{◌≡◌, MatchOption, [], ◌<◌, ◌≤◌, ◌^◌, ◌-◌, ◌+◌, ◌*◌, IsTrue};
ghost use Rattle.qs_lex_regular.specs.inner.Best.{advance, here};
ghost use Rattle.qs_lex_regular.specs.Character.{is_hex, hex_value, is_iri_scalar};
ghost use Rattle.qs_lex.specs.inner.IriState.{left_of_iri};
ghost use Rattle.qs_lex.specs.declared.iri_state.IriState.TheVariants.{Body};

use crate::letter::is_iri_char;
use crate::token::Class;
use qs_lex_regular::character::is_iri_scalar;
use qs_lex_regular::hex_digits::HexDigits;
use qs_lex_regular::push::{PushResult, push};

/// What has been read of an IRI, or of a mark that begins with `<`.
#[derive(Clone, Copy)]
pub enum IriState {
    /// `<`
    Less,
    /// `<=`
    LessEqual,
    /// more
    Body,
    /// an escape's backslash
    Backslash,
    /// digits of an escape
    Hex(HexDigits),
    /// a whole IRI
    Done,
}

impl IriState {
    /// The class of the token, where what has been read is one.
    pub fn class(self) -> Option<Class>
        ensures { result ≡ here (left_of_iri self) }
    {
        match self {
            IriState::Less | IriState::LessEqual => Some(Class::Mark),
            IriState::Done => Some(Class::IriRef),
            IriState::Body | IriState::Backslash | IriState::Hex(_) => None,
        }
    }

    /// What has been read with one more character, or `None` where no IRI and no mark goes on so.
    #[tactic(auto, using(crate::proofs::Apart::iri_backslash, crate::proofs::Apart::iri_greater, crate::proofs::Apart::equal_iri, crate::proofs::Apart::greater_iri, crate::proofs::Apart::backslash_iri))]
    pub fn step(self, c: char) -> Option<IriState>
        ensures { MatchOption result (advance (left_of_iri self) c ≡ [])
            (λ next. advance (left_of_iri self) c ≡ left_of_iri next) }
    {
        match self {
            IriState::Less => {
                if c == '=' {
                    Some(IriState::LessEqual)
                } else {
                    in_body(c)
                }
            }
            IriState::LessEqual => in_body(c),
            IriState::Body => in_body(c),
            IriState::Backslash => {
                if c == 'u' {
                    Some(IriState::Hex(HexDigits::new(3)))
                } else if c == 'U' {
                    Some(IriState::Hex(HexDigits::new(7)))
                } else {
                    None
                }
            }
            IriState::Hex(escape) => {
                match push(escape, c) {
                    PushResult::Digit(next) => Some(IriState::Hex(next)),
                    PushResult::Whole(value) => {
                        if is_iri_scalar(value) {
                            Some(IriState::Body)
                        } else {
                            None
                        }
                    }
                    PushResult::Other => None,
                }
            }
            IriState::Done => None,
        }
    }
}

#[tactic(auto, using(crate::proofs::Apart::iri_backslash, crate::proofs::Apart::iri_greater, crate::proofs::Apart::equal_iri, crate::proofs::Apart::greater_iri, crate::proofs::Apart::backslash_iri))]
fn in_body(c: char) -> Option<IriState>
    ensures { MatchOption result (advance (left_of_iri Body) c ≡ [])
        (λ next. advance (left_of_iri Body) c ≡ left_of_iri next) }
{
    if is_iri_char(c) {
        Some(IriState::Body)
    } else if c == '\\' {
        Some(IriState::Backslash)
    } else if c == '>' {
        Some(IriState::Done)
    } else {
        None
    }
}
