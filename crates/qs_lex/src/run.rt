//! Runs of the characters of names.

ghost use Rattle.std.specs.Prelude.{◌≡◌, MatchOption, List, ℕ, ◌∷◌, ◌&&◌, ◌==◌, true};
ghost use Rattle.std.specs.Str.{chars};
ghost use Rattle.qs_lex.specs.inner.Prefix.{IsBarren, IsNoPrefix, names};
ghost use Rattle.qs_lex_regular.specs.Character.{is_letter};

use crate::letter::is_pn_chars;

/// How many bytes are left after a run, and whether no prefix within it goes on to a colon.
#[derive(Clone, Copy)]
pub struct Run {
    pub left: usize,
    pub barren: bool,
}

/// Whether the last character of a run is no dot, or `None` where the run ends.
#[tactic(auto, using(crate::proofs::Apart::base_chars, crate::proofs::Apart::letter_is_base))]
fn goes_on(last: bool, c: char) -> Option<bool>
    ensures { MatchOption result ((cs : List ℕ) → names last (c ∷ cs) ≡ (c == 58 && last))
        (λ next. ((cs : List ℕ) → names last (c ∷ cs) ≡ names next cs)
        × (is_letter c ≡ true → next ≡ true)) }
{
    if is_pn_chars(c) {
        Some(true)
    } else if c == '.' {
        Some(false)
    } else {
        None
    }
}

fn is_named(last: bool, c: char) -> bool
    ensures { result ≡ (c == 58 && last) }
{
    c == ':' && last
}

/// The run at the front.
pub fn run_at(text: &str) -> Run
    ensures { result.barren ≡ true → IsBarren (chars text.now) result.left }
{
    let mut rest = text.chars();
    let mut left = text.len();
    let mut last = false;
    'chars: while let Some(c) = rest.next() {
        let Some(next) = goes_on(last, c) else {
            return Run {
                left,
                barren: !is_named(last, c),
            };
        };
        last = next;
        left = rest.as_str().len();
    }
    Run { left, barren: true }
}

/// Whether a name may begin here that is a word or a prefix of ASCII: nothing else asks what run it is in.
fn begins_with_letter(front: &str) -> bool {
    match front.as_bytes().first() {
        Some(byte) => byte.is_ascii_alphabetic(),
        None => false,
    }
}

/// The run that a front is in, where it begins with a letter.
pub fn look(ahead: Run, front: &str) -> Run
    requires { ahead.barren ≡ true → IsBarren (chars front.now) ahead.left }
    ensures { result.barren ≡ true → IsBarren (chars front.now) result.left }
{
    if ahead.left < front.len() || !begins_with_letter(front) {
        ahead
    } else {
        run_at(front)
    }
}

/// Whether no prefix begins here for sure.
pub fn has_no_prefix(ahead: Run, front: &str) -> bool
    requires { ahead.barren ≡ true → IsBarren (chars front.now) ahead.left }
    ensures { result ≡ true → IsNoPrefix (chars front.now) }
{
    ahead.barren && ahead.left < front.len()
}
