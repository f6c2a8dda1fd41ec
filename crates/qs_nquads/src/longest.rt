//! The longest front of a text that is in the table.

ghost use Rattle.std.specs.Prelude.{◌≡◌};
ghost use Rattle.std.specs.Str.{chars};
ghost use Rattle.qs_lex_regular.specs.inner.Best.{best, here};
ghost use Rattle.qs_lex_regular.specs.inner.Scan.{hold};
ghost use Rattle.qs_nquads.specs.Table.{table};
ghost use Rattle.qs_nquads.specs.inner.State.{left};

use crate::class::Class;
use crate::run::behind_run;
use crate::state::State;

fn kept(found: Option<(Class, usize)>, state: State, len: usize) -> Option<(Class, usize)>
    ensures { result ≡ hold (here (left state)) len found }
{
    match state.class() {
        Some(class) => Some((class, len)),
        None => found,
    }
}

/// The class and the length of the longest front.
pub(crate) fn longest(text: &str) -> Option<(Class, usize)>
    ensures { result ≡ best table (chars text.now) }
{
    let mut whole = text.chars();
    let Some(first) = whole.next() else {
        return None;
    };
    let Some(begun) = State::start(first) else {
        return None;
    };
    let (run, behind) = behind_run(begun, whole.as_str());
    let mut state = begun;
    let mut len = first.len_utf8() + run;
    let mut rest = behind.chars();
    let mut found = None;
    'chars: while let Some(c) = rest.next() {
        found = kept(found, state, len);
        let Some(next) = state.step(c) else {
            return found;
        };
        let (run, behind) = behind_run(next, rest.as_str());
        state = next;
        len += c.len_utf8() + run;
        rest = behind.chars();
    }
    kept(found, state, len)
}
