//! The state of the scanner within a token.

ghost use Rattle.std.specs.Prelude.{◌≡◌, IfSome, MatchOption, ℕ, [], false, true};
ghost use Rattle.qs_lex_regular.specs.inner.Best.{advance, here};
ghost use Rattle.qs_lex_regular.specs.Character.{is_base, is_digit, is_letter};
ghost use Rattle.qs_lex.specs.inner.Start.{begun};
ghost use Rattle.qs_lex.specs.inner.State.{left};
ghost use Rattle.qs_lex.specs.inner.Steady.{is_steady};

use crate::iri_state::IriState;
use crate::letter::is_base;
use crate::mark_state::MarkState;
use crate::name_state::NameState;
use crate::number_state::NumberState;
use crate::quote::Quote;
use crate::steady::Steady;
use crate::string_state::StringState;
use crate::token::Class;
use qs_lex_regular::character::{is_digit, is_letter};

/// What has been read of a token.
#[derive(Clone, Copy)]
pub enum State {
    Iri(IriState),
    Mark(MarkState),
    Name(NameState),
    Number(NumberState),
    String(StringState),
}

impl State {
    /// What has been read with one more character, or `None` where no token goes on so.
    pub fn step(self, c: char) -> Option<State>
        ensures { MatchOption result (advance (left self) c ≡ [])
            (λ next. advance (left self) c ≡ left next) }
    {
        match self {
            State::Iri(state) => match state.step(c) {
                Some(next) => Some(State::Iri(next)),
                None => None,
            },
            State::Mark(state) => match state.step(c) {
                Some(next) => Some(State::Mark(next)),
                None => None,
            },
            State::Name(state) => match state.step(c) {
                Some(next) => Some(State::Name(next)),
                None => None,
            },
            State::Number(state) => match state.step(c) {
                Some(next) => Some(State::Number(next)),
                None => None,
            },
            State::String(state) => match state.step(c) {
                Some(next) => Some(State::String(next)),
                None => None,
            },
        }
    }

    /// The class of the token, where what has been read is one.
    pub fn class(self) -> Option<Class>
        ensures { result ≡ here (left self) }
    {
        match self {
            State::Iri(state) => state.class(),
            State::Mark(state) => state.class(),
            State::Name(state) => state.class(),
            State::Number(state) => state.class(),
            State::String(state) => state.class(),
        }
    }

    /// Characters that leave all as it is, where a token may hold many of them in a row.
    #[tactic(auto, using(crate::proofs::Stays::plain, crate::proofs::Stays::word, crate::proofs::Stays::local, crate::proofs::Stays::variable, crate::proofs::Stays::whole, crate::proofs::Stays::signed_whole, crate::proofs::Stays::body, crate::proofs::Stays::short, crate::proofs::Stays::long))]
    pub fn steady(self) -> Option<Steady>
        ensures { IfSome result (λ kept. (c : ℕ) → is_steady kept c ≡ true → advance (left self) c
            ≡ left self) }
    {
        match self {
            State::Name(NameState::Plain | NameState::Word) => Some(Steady::Word),
            State::Name(NameState::Local | NameState::Variable) => Some(Steady::Word),
            State::Number(NumberState::Whole | NumberState::SignedWhole) => Some(Steady::Digit),
            State::Iri(IriState::Body) => Some(Steady::Iri),
            State::String(StringState::Short(quote)) => Some(Steady::Quoted(quote)),
            State::String(StringState::Long(quote)) => Some(Steady::Quoted(quote)),
            _ => None,
        }
    }

    /// What has been read with the first character of a token, or `None` where no token begins so.
    #[tactic(auto, using(crate::proofs::Start::starts))]
    pub fn start(c: char) -> Option<State>
        ensures { MatchOption result (begun c ≡ []) (λ next. begun c ≡ left next) }
    {
        if is_letter(c) {
            Some(State::Name(NameState::Word))
        } else if is_base(c) {
            Some(State::Name(NameState::Prefix))
        } else if is_digit(c) {
            Some(State::Number(NumberState::Whole))
        } else {
            punctuation(c)
        }
    }
}

#[tactic(auto, using(crate::proofs::Start::starts))]
fn punctuation(c: char) -> Option<State>
    requires letter { is_letter c ≡ false }
    requires base { is_base c ≡ false }
    requires digit { is_digit c ≡ false }
    ensures { MatchOption result (begun c ≡ []) (λ next. begun c ≡ left next) }
{
    match c {
        ':' => Some(State::Name(NameState::Colon)),
        '_' => Some(State::Name(NameState::Underscore)),
        '?' => Some(State::Name(NameState::Question)),
        '$' => Some(State::Name(NameState::Dollar)),
        '@' => Some(State::Name(NameState::At)),
        '<' => Some(State::Iri(IriState::Less)),
        '"' | '\'' => Some(State::String(StringState::Opened(Quote { mark: c }))),
        '+' | '-' => Some(State::Number(NumberState::Sign)),
        '.' => Some(State::Number(NumberState::Point)),
        '|' => Some(State::Mark(MarkState::Bar)),
        '^' => Some(State::Mark(MarkState::Caret)),
        '!' | '>' => Some(State::Mark(MarkState::Equal)),
        '&' => Some(State::Mark(MarkState::Ampersand)),
        '(' | '[' => Some(State::Mark(MarkState::Done)),
        ')' | ']' => Some(State::Mark(MarkState::Done)),
        '{' | ',' => Some(State::Mark(MarkState::Done)),
        '}' | ';' => Some(State::Mark(MarkState::Done)),
        '*' | '=' => Some(State::Mark(MarkState::Done)),
        '/' => Some(State::Mark(MarkState::Done)),
        _ => None,
    }
}
