//! How many connections are served at once where descriptors are few.
//!
//! Where places are free and descriptors aren't, nobody can be accepted, and silent connections aren't dropped for those who wait. So there are
//! no more places than descriptors for them.

ghost use Rattle.std.specs.Prelude.{◌≡◌, ◌-◌, ◌<◌, ◌≤◌, min, max, MatchOption};
ghost use Rattle.std.specs.Option.{option_map};
ghost use Rattle.quads_main.specs.inner.Descriptors.{first_word, IsAfterName, IsNumberOf, IsSoftLimit};

use std::fs;

/// How many descriptors the program has beside those of its places: the three standard ones, that of the listener, that of the poll, and that
/// of a connection that is accepted ahead.
const BESIDE: usize = 6;

/// Returns what follows the name of the limit, or `None` if the text hasn't that name.
fn after_name(limits: &str) -> Option<&str>
    ensures { IsAfterName limits.now (option_map (λ rest. rest.now) result) }
{
    let (_, rest) = limits.split_once("Max open files")?;
    Some(rest)
}

/// Returns the first word of the text.
fn first_word(text: &str) -> &str
    ensures { result.now ≡ first_word text.now }
{
    let text = text.trim_start();
    match text.split_once(' ') {
        Some((word, _)) => word,
        None => text,
    }
}

/// Returns the number that the word is, or `None` if it is none.
fn number_of(word: &str) -> Option<usize>
    ensures { IsNumberOf word.now result }
{
    word.parse::<usize>().ok()
}

/// Returns the soft limit of descriptors that `limits`, a text of `/proc/self/limits`, names, or `None` if it names none.
fn soft_limit(limits: &str) -> Option<usize>
    ensures { IsSoftLimit limits.now result }
{
    let rest = after_name(limits)?;
    number_of(first_word(rest))
}

/// Returns how many places there are: `at_once`, or as many as there are descriptors for, but one at least.
fn places(at_once: usize, descriptors: Option<usize>) -> usize
    ensures { MatchOption descriptors (result ≡ at_once)
        (λ n. result ≡ min at_once (max (n - BESIDE) 1)) }
{
    match descriptors {
        Some(n) => at_once.min(n.saturating_sub(BESIDE).max(1)),
        None => at_once,
    }
}

/// Returns how many connections are served at once: `at_once`, or as many as the system allows descriptors for, but one at least. They are
/// `at_once` too if the system doesn't say how many it allows.
pub fn places_for(rt: &HostRuntime, at_once: usize) -> usize
    ensures most { result ≤ at_once }
    ensures some { 0 < at_once → 0 < result }
{
    let descriptors = match fs::read_to_string(rt, "/proc/self/limits") {
        Ok(limits) => soft_limit(limits.as_str()),
        Err(_) => None,
    };
    places(at_once, descriptors)
}
