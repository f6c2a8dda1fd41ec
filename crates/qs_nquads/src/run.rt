//! Runs of characters that leave a state as it is, a byte at a time.
//!
//! Within an IRI and a string the ASCII characters that leave what has been read as it is are passed over at once. A law says
//! that the longest front is then that of what follows them.

ghost use Rattle.std.specs.Prelude.{◌≡◌, drop};
ghost use Rattle.std.specs.List.{position};
ghost use Rattle.qs_nquads.specs.declared.state.State.TheVariants as state;
ghost use Rattle.qs_nquads.specs.inner.Run.{ends_in_iri, ends_in_string, HasRun};

use crate::state::State;

// What each byte is, at its own place: `i` where it leaves an IRI and a string as they are, `s` where it leaves a string alone so, and
// else `.`. One look at it is faster than tests for ranges.
static PLAIN: [u8; 256] = *b"\
    ssssssssss.ss.ssssssssssssssssss\
    si.iiiiiiiiiiiiiiiiiiiiiiiiisisi\
    iiiiiiiiiiiiiiiiiiiiiiiiiiii.isi\
    siiiiiiiiiiiiiiiiiiiiiiiiiisssii\
    ................................\
    ................................\
    ................................\
    ................................";

fn ends_in_iri(b: u8) -> bool
    ensures { result ≡ ends_in_iri b }
{
    PLAIN[b as usize] != b'i'
}

fn ends_in_string(b: u8) -> bool
    ensures { result ≡ ends_in_string b }
{
    PLAIN[b as usize] == b'.'
}

// The place of the first byte that ends a run within an IRI.
fn end_in_iri(bytes: &[u8]) -> Option<usize>
    ensures { result ≡ position ends_in_iri bytes.now }
{
    bytes.iter().position(|b| ends_in_iri(*b))
}

// The place of the first byte that ends a run within a string.
fn end_in_string(bytes: &[u8]) -> Option<usize>
    ensures { result ≡ position ends_in_string bytes.now }
{
    bytes.iter().position(|b| ends_in_string(*b))
}

fn iri_run(text: &str) -> usize
    ensures { HasRun state.Iri text.now result }
{
    match end_in_iri(text.as_bytes()) {
        Some(end) => end,
        None => text.len(),
    }
}

fn string_run(text: &str) -> usize
    ensures { HasRun state.String text.now result }
{
    match end_in_string(text.as_bytes()) {
        Some(end) => end,
        None => text.len(),
    }
}

// The length of the run at the front of a text.
fn run(state: State, text: &str) -> usize
    ensures { HasRun state text.now result }
{
    match state {
        State::Iri => iri_run(text),
        State::String => string_run(text),
        _ => 0,
    }
}

/// The length of a run of plain characters at the front of a text that leaves the state as it is, and what stands after it.
pub(crate) fn behind_run(state: State, text: &str) -> (usize, &str)
    ensures run { HasRun state text.now result.0 }
    ensures rest { result.1.now ≡ drop result.0 text.now }
{
    let run = run(state, text);
    (run, text.split_at(run).1)
}
