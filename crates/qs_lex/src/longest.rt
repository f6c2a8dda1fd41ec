//! The longest token at the front of a text.

ghost use Rattle.std.specs.Prelude.{◌≡◌, ◌⊎◌, ◌≤◌, ◌-◌, length, MatchOption, [], true};
ghost use Rattle.std.specs.Str.{chars};
ghost use Rattle.qs_lex_regular.specs.inner.Best.{best, here};
ghost use Rattle.qs_lex_regular.specs.inner.Scan.{hold, later};
ghost use Rattle.qs_lex_regular.specs.Character.{is_letter};
ghost use Rattle.qs_lex.specs.Table.{table};
ghost use Rattle.qs_lex.specs.inner.State.{left};
ghost use Rattle.qs_lex.specs.inner.Start.{begun};
ghost use Rattle.qs_lex.specs.inner.Prefix.{IsNoPrefix, plain};

use crate::name_state::NameState;
use crate::state::State;
use crate::token::Class;
use qs_lex_regular::character::is_letter;

fn kept(found: Option<(Class, usize)>, state: State, len: usize) -> Option<(Class, usize)>
    ensures { result ≡ hold (here (left state)) len found }
{
    match state.class() {
        Some(class) => Some((class, len)),
        None => found,
    }
}

/// The state after the first character of a token, where a letter begins a prefix or not.
fn begin(c: char, no_prefix: bool) -> Option<State>
    ensures { MatchOption result (begun c ≡ []) (λ next. (begun c ≡ left next)
        ⊎ ((no_prefix ≡ true) × (is_letter c ≡ true) × (left next ≡ plain))) }
{
    if no_prefix && is_letter(c) {
        return Some(State::Name(NameState::Plain));
    }
    State::start(c)
}

/// The text after the characters at its front that leave the state as it is.
fn past(state: State, text: &str) -> &str
    ensures len { length result.now ≤ length text.now }
    ensures found { best (left state) (chars text.now)
        ≡ later (best (left state) (chars result.now)) (length text.now - length result.now) None }
{
    match state.steady() {
        Some(steady) => steady.behind(text),
        None => text,
    }
}

/// The class and the length of the longest token at the front.
pub fn longest(text: &str, no_prefix: bool) -> Option<(Class, usize)>
    requires { no_prefix ≡ true → IsNoPrefix (chars text.now) }
    ensures { result ≡ best table (chars text.now) }
{
    let mut rest = text.chars();
    let Some(first) = rest.next() else {
        return None;
    };
    let Some(begun) = begin(first, no_prefix) else {
        return None;
    };
    let mut state = begun;
    let mut left = past(begun, rest.as_str());
    let mut found = None;
    'states: loop {
        found = kept(found, state, text.len() - left.len());
        let mut ahead = left.chars();
        let Some(c) = ahead.next() else {
            return found;
        };
        let Some(next) = state.step(c) else {
            return found;
        };
        state = next;
        left = past(next, ahead.as_str());
    }
}
