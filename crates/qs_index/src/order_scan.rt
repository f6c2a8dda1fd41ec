//! A scan of one order.
//!
//! How many entries were handed out, how often some were skipped and how many looks there were are parts of a scan's value. A call
//! raises one of the first two by one at most, and leaves fewer entries where it does. No call lowers the third. So no body can
//! loosen the bound on looks, and none can forget one.
ghost use Rattle.std.specs.Prelude.{◌≡◌, ◌+◌, ◌^◌, ◌<◌, ◌≤◌, [], ◌∷◌, length, drop, true, slice_index_or};
ghost use Rattle.std.specs.Iterator.{item_count};
ghost use Rattle.std.specs.Option.{MatchOption};
ghost use Rattle.qs_index.specs.inner.Layout.{Reading, joined, page_at, rest_at};
ghost use Rattle.qs_index.specs.inner.Entries.{HaveFour};
ghost use Rattle.qs_index.specs.inner.Entry.{begins, beginning, run_of, skip_before, IsAscending};
ghost use Rattle.qs_index.specs.inner.Scan.{ScanState, NextOfScan, most_looks};
ghost use Rattle.qs_index.specs.inner.OrderScan.{state_of, waiting, IsHead, IsSound, StartsBefore};

use crate::pages::{PagePosition, Reader};
use crate::prefix::Prefix;
use crate::search::{find_after, find_from};
use std::marker::Model;

// The entry at a place: the one that the search found there, or the one that is read.
#[inline(always)]
fn read(reader: &mut Reader<'_>, head: Option<[u32; 4]>, place: PagePosition) -> [u32; 4]
    requires page { place.page < length reader.old.pages }
    requires at { place.at < length (page_at reader.old.pages place.page) }
    requires countable { reader.old.looked + 1 < 2 ^ 128 }
    requires head { IsHead reader.old.pages place.page place.at head }
    ensures entry { result ≡ slice_index_or (page_at reader.old.pages place.page) place.at [] }
    ensures pages { reader.new.pages ≡ reader.old.pages }
    ensures counted { reader.new.looked + waiting head ≡ reader.old.looked + 1 }
{
    match head {
        Some(entry) => entry,
        None => reader.look(place),
    }
}

// Where a scan goes on after an entry that begins with its prefix: at the end where no other entry can.
#[inline(always)]
fn step(reader: &Reader<'_>, prefix: &Prefix, place: PagePosition) -> PagePosition
    requires page { place.page < length reader.now.pages }
    requires at { place.at < length (page_at reader.now.pages place.page) }
    requires ascending { IsAscending (joined reader.now.pages) }
    requires entries { HaveFour (joined reader.now.pages) }
    requires begins { begins prefix.now
        (slice_index_or (page_at reader.now.pages place.page) place.at []) ≡ true }
    ensures within { result.page < length reader.now.pages
        → result.at < length (page_at reader.now.pages result.page) }
    ensures run { run_of prefix.now (rest_at reader.now.pages result.page result.at)
        ≡ run_of prefix.now (rest_at reader.now.pages place.page (place.at + 1)) }
{
    let held = reader.len();
    if prefix.is_whole() {
        return PagePosition { page: held, at: 0 };
    }
    let at = place.at + 1;
    if at < reader.page_len(place.page) {
        return PagePosition {
            page: place.page,
            at,
        };
    }
    PagePosition {
        page: place.page + 1,
        at: 0,
    }
}

/// The entries of one order that begin with a prefix, one after another.
#[derive(Drop)]
pub struct OrderScan<'a> {
    reader: Reader<'a>,
    prefix: Prefix,
    page: usize,
    at: usize,
    // The first entry until it is handed out, as the search has looked at it.
    head: Option<[u32; 4]>,
    // Where the search was told to begin, and at the end where the scan stood last.
    seen: PagePosition,
    // How many entries were handed out, and how often some were skipped.
    handed: u128,
    skips: u128,
}

impl<'a> Model for OrderScan<'a> {
    ghost Value = { ScanState };

    ghost view = { λ s. state_of s.reader.pages s.prefix s.page s.at s.handed s.skips s.reader.looked };

    ghost invariant = { λ s. IsSound s.reader.pages s.prefix s.page s.at s.head s.handed s.skips s.reader.looked };
}

impl<'a> OrderScan<'a> {
    /// The scan of the entries that begin with `prefix`, which are looked for about `from` first.
    pub fn new(reader: Reader<'a>, prefix: Prefix, from: PagePosition) -> OrderScan<'a>
        requires ascending { IsAscending (joined reader.pages) }
        requires entries { HaveFour (joined reader.pages) }
        requires unread { reader.looked ≡ 0 }
        ensures rest { result.rest ≡ beginning prefix (joined reader.entry.pages) }
        ensures handed { result.handed ≡ 0 }
        ensures skips { result.skips ≡ 0 }
        ensures size { result.size ≡ length (joined reader.entry.pages) }
    {
        let mut reader = reader;
        let held = reader.len();
        let Some(found) = find_from(&mut reader, from, &prefix) else {
            return OrderScan {
                reader,
                prefix,
                page: held,
                at: 0,
                head: None,
                seen: from,
                handed: 0,
                skips: 0,
            };
        };
        OrderScan {
            reader,
            prefix,
            page: found.place.page,
            at: found.place.at,
            head: Some(found.entry),
            seen: from,
            handed: 0,
            skips: 0,
        }
    }

    /// The place of the entry that is looked at next; at the end, where the scan stood last, or where its search was told to begin.
    pub fn place(&self) -> PagePosition {
        if self.page < self.reader.len() {
            return PagePosition {
                page: self.page,
                at: self.at,
            };
        }
        self.seen
    }

    /// The entry that comes next, which stays to be handed out; none where none is left.
    pub fn peek(&mut self) -> Option<[u32; 4]>
        ensures next { MatchOption result (self.old.rest ≡ [])
            (λ e. self.old.rest ≡ e ∷ drop 1 self.old.rest) }
        ensures rest { self.new.rest ≡ self.old.rest }
        ensures handed { self.new.handed ≡ self.old.handed }
        ensures skips { self.new.skips ≡ self.old.skips }
        ensures size { self.new.size ≡ self.old.size }
        ensures rises { self.old.looked ≤ self.new.looked }
        ensures ascending { IsAscending self.old.rest }
        ensures entries { HaveFour self.old.rest }
    {
        if self.page >= self.reader.len() {
            return None;
        }
        let place = PagePosition {
            page: self.page,
            at: self.at,
        };
        let entry = read(&mut self.reader, self.head, place);
        self.head = Some(entry);
        if !self.prefix.begins(&entry) {
            return None;
        }
        Some(entry)
    }

    /// Goes on at the first entry that isn't before `to`, by a search from the next entry on, which is before it.
    pub(crate) fn seek(&mut self, to: &Prefix)
        requires next { StartsBefore to.now self.old.rest }
        ensures rest { self.new.rest ≡ skip_before to.now self.old.rest }
        ensures handed { self.new.handed ≡ self.old.handed }
        ensures skips { self.new.skips ≡ self.old.skips + 1 }
        ensures size { self.new.size ≡ self.old.size }
        ensures rises { self.old.looked ≤ self.new.looked }
        ensures fewer { length self.new.rest + 1 ≤ length self.old.rest }
    {
        let held = self.reader.len();
        let place = PagePosition {
            page: self.page,
            at: self.at,
        };
        self.skips += 1;
        let Some(found) = find_after(&mut self.reader, place, to) else {
            self.page = held;
            self.at = 0;
            self.head = None;
            self.seen = place;
            return;
        };
        self.page = found.place.page;
        self.at = found.place.at;
        self.head = Some(found.entry);
    }

    /// How many entries were looked at since the scan began: those handed out, and few more for its start and for each skip.
    pub fn looked(&self) -> u128
        ensures count { result ≡ self.now.looked }
        ensures enough { self.now.handed ≤ result }
        ensures few { result ≤ most_looks self.now.handed self.now.skips self.now.size }
    {
        self.reader.looked()
    }
}

impl<'a> Iterator for OrderScan<'a> {
    type Item = [u32; 4];

    ghost next_gives = { NextOfScan };

    ghost remaining = { item_count (λ s. s.rest) };

    #[inline(always)]
    fn next(&mut self) -> Option<[u32; 4]> {
        let held = self.reader.len();
        if self.page >= held {
            return None;
        }
        let place = PagePosition {
            page: self.page,
            at: self.at,
        };
        let entry = read(&mut self.reader, self.head, place);
        self.head = None;
        if !self.prefix.begins(&entry) {
            self.page = held;
            self.at = 0;
            self.seen = place;
            return None;
        }
        self.handed += 1;
        let next = step(&self.reader, &self.prefix, place);
        if next.page >= held {
            self.seen = place;
        }
        self.page = next.page;
        self.at = next.at;
        Some(entry)
    }
}
