//! A sink in memory.

ghost use Rattle.std.specs.Prelude.{None};

use qs_terms::Sink;
use std::io;

/// Takes so many bytes in all, five at most a call, and compares them with those that are due. The calls after these fail.
#[derive(Drop)]
pub struct Sample<'a> {
    due: &'a [u8],
    room: usize,
    is_due: bool,
    faults: u64,
}

impl<'a> Sample<'a> {
    pub fn new(due: &'a [u8], room: usize) -> Sample<'a> {
        Sample {
            due,
            room,
            is_due: true,
            faults: 0,
        }
    }

    /// Whether all bytes that it took are due, so many are still to come, and so many calls failed.
    pub fn is_left(&self, bytes: usize, faults: u64) -> bool {
        self.is_due && self.due.len() == bytes && self.faults == faults
    }
}

impl<'a> Sink for Sample<'a> {
    ghost taken = { λ _. None };

    ghost faults = { λ s. s.faults };

    fn put(&mut self, bytes: &[u8]) -> io::Result<usize> {
        if bytes.is_empty() {
            return Ok(0);
        }
        let len = bytes.len().min(5).min(self.room).min(self.due.len());
        if len == 0 {
            self.faults = self.faults.saturating_add(1);
            return Err(io::Error::from(io::ErrorKind::BrokenPipe));
        }
        let (front, rest) = self.due.split_at(len);
        self.is_due = self.is_due && bytes.starts_with(front);
        self.due = rest;
        self.room -= len;
        Ok(len)
    }
}
