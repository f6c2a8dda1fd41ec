//! Quads as they are written: into a device whose calls fail from some call on, and as one text.

ghost use Rattle.std.specs.Prelude.{None};

use crate::lines::written;
use crate::outcome::Outcome;
use qs_nquads::{NqFaultKind, WriteFault, read_hashed, text, write};
use qs_terms::{Quad, Sink};
use std::alloc::Global;
use std::hash::RandomState;
use std::io;

// A repeated statement, a carriage return, a tag in capitals; the labels are numbered from 7.
const DATA: &[u8] =
    b"_:z <u:p> \"b\\u000D\"@EN <u:g> .\n<u:s> <u:p> \"a\" .\n<u:s> <u:p> \"a\" .\n_:y <u:q> _:z <u:g> .";

const TEXT: &str = "<u:s> <u:p> \"a\" .\n_:b7 <u:p> \"b\\r\"@en <u:g> .\n_:b8 <u:q> _:b7 <u:g> .\n";

// How many calls of seven bytes the three lines take: they have 18, 28 and 24 bytes.
const CALLS: u64 = 11;

/// Takes seven bytes a call, and fails when its calls are used up.
#[derive(Drop)]
struct Device {
    calls: u64,
    taken: usize,
    is_front: bool,
    faults: u64,
}

impl Sink for Device {
    ghost taken = { λ _. None };

    ghost faults = { λ s. s.faults };

    fn put(&mut self, bytes: &[u8]) -> io::Result<usize> {
        if self.calls == 0 {
            self.faults = self.faults.saturating_add(1);
            return Err(io::Error::from(io::ErrorKind::BrokenPipe));
        }
        if bytes.is_empty() {
            return Ok(0);
        }
        self.calls -= 1;
        let len = bytes.len().min(7);
        let rest = &TEXT.as_bytes()[self.taken.min(TEXT.len())..];
        self.is_front = self.is_front && rest.starts_with(&bytes[..len]);
        self.taken = self.taken.saturating_add(len);
        Ok(len)
    }
}

/// Whether the whole text went out where there were calls enough, or else the count that is told, by one fault; or memory ran out
/// before anything went out.
fn outcome_of(alloc: Global, quads: &[Quad], calls: u64) -> Outcome {
    let mut device = Device {
        calls,
        taken: 0,
        is_front: true,
        faults: 0,
    };
    match write(alloc, quads, &mut device) {
        Ok(()) => Outcome::of_answer(
            device.is_front && device.taken == TEXT.len() && device.faults == 0 && calls >= CALLS,
        ),
        Err(WriteFault::Io { written }) => Outcome::of_answer(
            device.is_front
                && device.taken as u128 == written
                && device.faults == 1
                && calls < CALLS,
        ),
        Err(WriteFault::Memory) if device.taken == 0 && device.faults == 0 => Outcome::Refused,
        Err(WriteFault::Memory) => Outcome::Wrong,
    }
}

/// Writes the quads by `outcome_of`; where memory ran out, the whole text goes out once more.
fn goes_out(alloc: Global, quads: &[Quad], calls: u64) -> Outcome {
    let outcome = outcome_of(alloc, quads, calls);
    if outcome == Outcome::Refused && outcome_of(alloc, quads, CALLS) != Outcome::Whole {
        return Outcome::Wrong;
    }
    outcome
}

/// Whether the quads go out with so many calls, and are made one text.
fn with_calls(alloc: Global, hasher: Option<RandomState>, calls: u64) -> Outcome {
    let Some(hasher) = hasher else {
        return Outcome::Refused;
    };
    match read_hashed(alloc, hasher, DATA, 7) {
        Ok((quads, _)) => {
            let outcome = match goes_out(alloc, quads.as_slice(), calls) {
                Outcome::Whole => written(text(alloc, quads.as_slice()), TEXT),
                outcome => outcome,
            };
            drop(quads);
            outcome
        }
        Err(fault) if fault.kind == NqFaultKind::Memory => Outcome::Refused,
        Err(_) => Outcome::Wrong,
    }
}

/// Whether the quads are written.
pub fn outcome(alloc: Global, hasher: Option<RandomState>) -> Outcome {
    with_calls(alloc, hasher, CALLS)
}

#[test]
fn stops_at_each_call_that_fails(rt: HostRuntime) {
    let hasher = RandomState::new(&rt).ok();
    for calls in 0..=CALLS {
        assert!(rt;
            with_calls(rt.alloc(), hasher, calls) == Outcome::Whole,
            "{calls}"
        );
    }
}
