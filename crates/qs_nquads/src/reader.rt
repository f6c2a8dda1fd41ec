//! A text that is read a statement at a time.
//!
//! A fault's line is counted once, when reading stops, over the bytes before the place. Out of memory has the line of a token to
//! which reading comes; a caller of `Reader` that meets it tells it with the line of the statement that it was handed.
//!
//! A reader after a fault is of no use, as it has given up the statement that it was in. Its caller stops there.

ghost use Rattle.std.specs.Prelude.{◌≡◌, ◌≢◌, ◌<◌, ◌≤◌, ◌-◌, ℕ, List, [], Ok, Err, length, IfOk, IfErr, OnSome, MatchResult};
ghost use Rattle.qs_terms.specs.Statement.{Statement};
ghost use Rattle.qs_nquads.specs.declared.fault.NqFaultKind.TheVariants.{Memory, Utf8};
ghost use Rattle.qs_nquads.specs.Labels.{from};
ghost use Rattle.qs_nquads.specs.Nquads.{IsFault, line_at};
ghost use Rattle.qs_nquads.specs.inner.Outcome.{IsStop};
ghost use Rattle.qs_nquads.specs.inner.Reading.{read, placed, Comes, State};
ghost use Rattle.qs_nquads.specs.inner.Unread.{HasRead, HasComeTo, IsAfterStatement, reading, state, with_next, IsNextOf};
ghost use Rattle.qs_nquads.specs.declared.statement_state.StatementState.TheVariants.{Done};

use crate::class::Class;
use crate::fault::{NqFault, NqFaultKind};
use crate::gap::behind_gap;
use crate::labels::Labels;
use crate::longest::longest;
use crate::part::part_of;
use crate::statement_state::{StatementState, after};
use qs_terms::{IriCache, Quad};
use std::alloc::Global;
use std::hash::RandomState;
use std::marker::Model;

/// What is wrong, and how many bytes are left there.
#[derive(Clone, Copy)]
struct Stop {
    kind: NqFaultKind,
    left: usize,
}

/// A text of N-Quads that is read a statement at a time: nothing of a statement that was read is kept but the numbers of its labels.
#[derive(Drop)]
pub struct Reader<'a> {
    alloc: Global,
    text: &'a str,
    rest: &'a str,
    place: StatementState,
    labels: Labels,
    recent: IriCache,
}

impl<'a> Model for Reader<'a> {
    ghost use Rattle.qs_nquads.specs.inner.Unread.{Unread};

    ghost Value = { Unread };

    ghost view = { λ r. record { bytes = r.text.now; place = r.place; labels = r.labels; rest = r.rest.now } };
}

fn line_at(bytes: &[u8], place: usize) -> usize
    requires { place ≤ length bytes.now }
    ensures { result ≡ line_at bytes.now place }
{
    1 + bytes[..place].iter().filter(|b| **b == b'\n').count()
}

// Reads one front more, and hands out the statement that is whole then, if one is.
fn read_front(
    alloc: Global,
    place: &mut StatementState,
    labels: &mut Labels,
    recent: &mut IriCache,
    class: Class,
    token: &str,
) -> Result<Option<Quad>, NqFaultKind>
    ensures read { IfOk result (λ next. (quads : List Statement)
        → read (reading place.old labels.old quads) class token.now
        ≡ Ok (reading place.new labels.new (with_next quads next))) }
    ensures fault { IfErr result (λ fault. (quads : List Statement) → fault ≢ Memory
        → read (reading place.old labels.old quads) class token.now ≡ Err fault) }
{
    let part = part_of(alloc, place, labels, recent, class, token)?;
    after(alloc, place, part)
}

// Reads to the end of the next statement, or of the text, and hands out what is left after it.
fn read_statement<'a>(
    alloc: Global,
    place: &mut StatementState,
    labels: &mut Labels,
    recent: &mut IriCache,
    text: &'a str,
) -> Result<(Option<Quad>, &'a str), Stop>
    ensures shorter { IfOk result (λ r. OnSome r.0 (length r.1.now < length text.now)) }
    ensures done { IfOk result (λ r. OnSome r.0 (place.new ≡ Done)) }
    ensures read { MatchResult result
        (λ r. (from : State) (quads : List Statement)
        → Comes from (state place.old labels.old text.now quads)
        → IsNextOf from quads r.0 place.new labels.new r.1.now)
        (λ stop. (from : State) (quads : List Statement)
        → Comes from (state place.old labels.old text.now quads)
        → IsStop from stop.kind stop.left) }
{
    let mut rest = text;
    'tokens: loop {
        let front = behind_gap(rest);
        let left = front.len();
        if front.is_empty() {
            return if place.may_end() {
                Ok((None, rest))
            } else {
                Err(Stop {
                    kind: NqFaultKind::Shape,
                    left,
                })
            };
        }
        let Some((class, len)) = longest(front) else {
            return Err(Stop {
                kind: NqFaultKind::Token,
                left,
            });
        };
        let (token, behind) = front.split_at(len);
        match read_front(alloc, place, labels, recent, class, token) {
            Ok(None) => rest = behind,
            Ok(Some(quad)) => return Ok((Some(quad), behind)),
            Err(kind) => return Err(Stop { kind, left }),
        }
    }
}

impl<'a> Reader<'a> {
    // A reader of the bytes, which has read nothing and has these labels.
    pub(crate) fn with_labels(
        alloc: Global,
        labels: Labels,
        bytes: &'a [u8],
    ) -> Result<Reader<'a>, NqFault>
        ensures bytes { IfOk result (λ reader. reader.bytes ≡ bytes.now) }
        ensures read { IfOk result (λ reader. (first : ℕ) → labels ≡ from first
            → HasRead first [] reader) }
        ensures fault { (first : ℕ)
            → IfErr result (λ fault. (fault.kind ≡ Utf8)
            × IsFault bytes.now first fault.kind fault.line) }
    {
        match std::str::from_utf8(bytes) {
            Ok(text) => Ok(Reader {
                alloc,
                text,
                rest: text,
                place: StatementState::Start,
                labels,
                recent: IriCache::new(alloc),
            }),
            Err(error) => Err(NqFault {
                line: line_at(bytes, error.valid_up_to()),
                kind: NqFaultKind::Utf8,
            }),
        }
    }

    /// A reader of the bytes, which has read nothing. The next new label gets the number `first_blank`. Labels are hashed by `hasher`,
    /// since strangers choose them. It takes no memory.
    ///
    /// # Errors
    /// `NqFaultKind::Utf8` with the line of the first bad byte, where the bytes aren't UTF-8.
    pub fn new(
        alloc: Global,
        hasher: RandomState,
        bytes: &'a [u8],
        first_blank: u64,
    ) -> Result<Reader<'a>, NqFault>
        ensures bytes { IfOk result (λ reader. reader.bytes ≡ bytes.now) }
        ensures read { IfOk result (λ reader. HasRead first_blank [] reader) }
        ensures fault { IfErr result (λ fault. (fault.kind ≡ Utf8)
            × IsFault bytes.now first_blank fault.kind fault.line) }
    {
        Reader::with_labels(alloc, Labels::hashed(alloc, hasher, first_blank), bytes)
    }

    // The line where so many bytes are left.
    fn line(&self, left: usize) -> usize
        ensures { result ≡ line_at self.now.bytes (length self.now.bytes - left) }
    {
        let bytes = self.text.as_bytes();
        line_at(bytes, bytes.len().saturating_sub(left))
    }

    /// The quad of the next statement, or `None` after the last one (RDF 1.1 N-Quads, 3 and 4). After a fault the reader is of no use.
    ///
    /// # Errors
    /// The first fault from left to right, with its line. `NqFaultKind::Memory` may come at any token, with the line of that token.
    pub fn next(&mut self) -> Result<Option<Quad>, NqFault>
        ensures bytes { self.new.bytes ≡ self.old.bytes }
        ensures next { IfOk result (λ next. (first : ℕ) (quads : List Statement)
            → HasRead first quads self.old → HasComeTo first quads next self.new) }
        ensures shorter { IfOk result
            (λ next. OnSome next (length self.new.rest < length self.old.rest)) }
        ensures after { IfOk result (λ next. OnSome next (IsAfterStatement self.new)) }
        ensures fault { IfErr result (λ fault. (first : ℕ) (quads : List Statement)
            → HasRead first quads self.old → IsFault self.old.bytes first fault.kind
            fault.line) }
    {
        match read_statement(
            self.alloc,
            &mut self.place,
            &mut self.labels,
            &mut self.recent,
            self.rest,
        ) {
            Ok((next, rest)) => {
                self.rest = rest;
                Ok(next)
            }
            Err(stop) => Err(NqFault {
                line: self.line(stop.left),
                kind: stop.kind,
            }),
        }
    }

    /// Running out of memory, with the line of the statement that was handed out last: for a caller that finds no room for it.
    pub fn out_of_memory(&self) -> NqFault
        ensures kind { result.kind ≡ Memory }
        ensures fault { (first : ℕ) (quads : List Statement) → HasRead first quads self.now
            → IsAfterStatement self.now → IsFault self.now.bytes first result.kind result.line }
    {
        // (the `.` of the statement takes one byte)
        NqFault {
            line: self.line(self.rest.len() + 1),
            kind: NqFaultKind::Memory,
        }
    }

    /// The number that the next new label would get.
    pub fn next_blank(&self) -> u64
        ensures { result ≡ self.now.labels.next }
    {
        self.labels.next()
    }
}
