//! A stream in memory.

ghost use Rattle.std.specs.Prelude.{Some};

use qs_terms::{Sink, Stream};
use std::alloc::Global;
use std::io;

/// How many bytes a call moves at most.
pub const STEP: usize = 20;

/// Gives the input and takes bytes, at most 20 a call, for so many calls. The calls after these fail.
#[derive(Drop)]
pub struct Memory<'a> {
    input: &'a [u8],
    output: Vec<u8>,
    calls: u64,
    faults: u64,
}

impl<'a> Memory<'a> {
    pub fn new(alloc: Global, input: &'a [u8], calls: u64) -> Memory<'a> {
        Memory {
            input,
            output: Vec::new(alloc),
            calls,
            faults: 0,
        }
    }

    /// What it has taken.
    pub fn output(&self) -> &[u8] {
        self.output.as_slice()
    }
}

fn fault() -> io::Error {
    io::Error::from(io::ErrorKind::BrokenPipe)
}

impl<'a> Sink for Memory<'a> {
    ghost taken = { λ s. Some s.output.items };

    ghost faults = { λ s. s.faults };

    fn put(&mut self, bytes: &[u8]) -> io::Result<usize> {
        let n = bytes.len().min(STEP);
        if self.calls == 0 || self.output.extend_from_slice(&bytes[..n]).is_err() {
            self.faults = self.faults.saturating_add(1);
            return Err(fault());
        }
        self.calls -= 1;
        Ok(n)
    }
}

impl<'a> Stream for Memory<'a> {
    ghost left = { λ s. Some s.input.now };

    ghost sent = { λ s. Some s.output.items };

    fn get(&mut self, buf: &mut [u8]) -> io::Result<usize> {
        if self.calls == 0 {
            self.faults = self.faults.saturating_add(1);
            return Err(fault());
        }
        self.calls -= 1;
        let n = buf.len().min(STEP).min(self.input.len());
        let (front, rest) = self.input.split_at(n);
        buf[..n].copy_from_slice(front);
        self.input = rest;
        Ok(n)
    }
}
