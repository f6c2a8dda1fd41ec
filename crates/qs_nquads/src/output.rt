//! Quads put into a sink.
//!
//! Each line is made once, in a vector of its exact size, and the lines are sorted by their bytes. So the written order is never
//! spelled out as an order on terms. Places in one buffer, and references sorted by terms, took as long or longer. That the text
//! is UTF-8 is proved.

ghost use Rattle.std.specs.Prelude.{◌≡◌, ◌<◌, ◌++◌, ℕ, List, map, take, length, IfOk, MatchResult, string_bytes};
ghost use Rattle.std.specs.Io.KnownBytes.{Appends};
ghost use Rattle.qs_terms.specs.Device.{one_more};
ghost use Rattle.qs_nquads.specs.Written.{line, ordered, nquads_of};
ghost use Rattle.qs_nquads.specs.inner.Joined.{joined};
ghost use Rattle.qs_nquads.specs.inner.WriteFault.{MatchFault};

use crate::lawful::lawful_quads;
use crate::line::Line;
use crate::written::push_line;
use qs_terms::{Quad, Sink, put_all};
use std::alloc::{AllocError, Global};
use thiserror::Error;

/// Why not all was written.
#[derive(Clone, Copy, Debug, PartialEq, Eq, Error)]
pub enum WriteFault {
    /// The device failed after the first `written` bytes of the text.
    #[error("the device failed after {written} bytes")]
    Io { written: u128 },
    /// Memory ran out before a byte went out.
    #[error("out of memory")]
    Memory,
}

/// The quads' lines, in the order of the quads.
fn lines(alloc: Global, quads: &[Quad]) -> Result<Vec<Line>, AllocError>
    ensures { IfOk result (λ v. v.items ≡ map line quads.now) }
{
    let mut lines = Vec::new(alloc);
    let mut scratch = Vec::new(alloc);
    for quad in quads {
        scratch.clear();
        push_line(alloc, &mut scratch, quad)?;
        let line = Line::new(alloc, scratch.as_slice())?;
        lines.push(line)?;
    }
    Ok(lines)
}

/// The lines of the quads in ascending order, each once.
fn ordered_lines(alloc: Global, quads: &[Quad]) -> Result<Vec<Line>, AllocError>
    ensures { IfOk result (λ v. v.items ≡ map line (ordered quads.now)) }
{
    let mut lines = lines(alloc, quads)?;
    lines.sort_unstable();
    lines.dedup();
    Ok(lines)
}

/// Puts the lines one after another. An error has the count of the bytes that went out.
fn put_lines<S: Sink>(out: &mut S, lines: &[Line]) -> Result<(), u128>
    ensures taken { MatchResult result
        (λ _. Appends (S.taken out.old) (S.taken out.new) (joined lines.now))
        (λ n. Appends (S.taken out.old) (S.taken out.new) (take n (joined lines.now))) }
    ensures faults { MatchResult result
        (λ _. S.faults out.new ≡ S.faults out.old)
        (λ _. S.faults out.new ≡ one_more (S.faults out.old)) }
    ensures part { MatchResult result (λ _. Unit {0}) (λ n. n < length (joined lines.now)) }
{
    let mut written: u128 = 0;
    for line in lines {
        let bytes = line.as_bytes();
        let sent = put_all(out, bytes);
        written += sent as u128;
        if sent < bytes.len() {
            return Err(written);
        }
    }
    Ok(())
}

// How many bytes the lines have, or the greatest number where they are more.
fn count_bytes(lines: &[Line]) -> usize {
    let mut count: usize = 0;
    for line in lines {
        count = count.saturating_add(line.as_bytes().len());
    }
    count
}

/// What was written before, and the lines one after another.
fn join(before: Vec<u8>, lines: &[Line]) -> Result<Vec<u8>, AllocError>
    ensures { IfOk result (λ v. v.items ≡ before.items ++ joined lines.now) }
{
    let mut text = before;
    text.reserve_exact(count_bytes(lines))?;
    for line in lines {
        text.extend_from_slice(line.as_bytes())?;
    }
    Ok(text)
}

/// What was written before, and the quads as N-Quads: a line each, ascending by their bytes, equal lines once. The lines stand in memory
/// beside the text. The one error is running out of memory.
pub fn text_after(alloc: Global, before: Vec<u8>, quads: &[Quad]) -> Result<Vec<u8>, AllocError>
    ensures { IfOk result (λ out. out.items ≡ before.items ++ nquads_of quads.now) }
{
    let lines = ordered_lines(alloc, quads)?;
    join(before, lines.as_slice())
}

/// The quads as N-Quads: a line each, ascending by their bytes, equal lines once. The one error is running out of memory.
pub fn text(alloc: Global, quads: &[Quad]) -> Result<String, AllocError>
    ensures { IfOk result (λ s. string_bytes s ≡ nquads_of quads.now) }
{
    lawful_quads(quads);
    let bytes = text_after(alloc, Vec::new(alloc), quads)?;
    match String::from_utf8(bytes) {
        Ok(text) => Ok(text),
        Err(_) => unreachable!(),
    }
}

/// Writes the quads as N-Quads: a line each, ascending by their bytes, equal lines once. The lines stand in memory, once.
///
/// # Errors
/// `WriteFault::Memory` before anything went out, or `WriteFault::Io` at the device's first fault.
pub fn write<S: Sink>(alloc: Global, quads: &[Quad], out: &mut S) -> Result<(), WriteFault>
    ensures written { MatchResult result
        (λ _. Appends (S.taken out.old) (S.taken out.new) (nquads_of quads.now))
        (λ f. MatchFault f
        (λ n. (n < length (nquads_of quads.now)) × Appends (S.taken out.old) (S.taken out.new)
        (take n (nquads_of quads.now)))
        (out.new ≡ out.old)) }
    ensures faults { MatchResult result
        (λ _. S.faults out.new ≡ S.faults out.old)
        (λ f. MatchFault f (λ n. S.faults out.new ≡ one_more (S.faults out.old))
        (S.faults out.new ≡ S.faults out.old)) }
{
    let lines = match ordered_lines(alloc, quads) {
        Ok(lines) => lines,
        Err(_) => return Err(WriteFault::Memory),
    };
    match put_lines(out, lines.as_slice()) {
        Ok(()) => Ok(()),
        Err(written) => Err(WriteFault::Io { written }),
    }
}
