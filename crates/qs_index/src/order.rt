//! One order of the entries: sorted pages seen as one ascending list.
ghost use Rattle.std.specs.Prelude.{◌≡◌, ℕ, ◌+◌, ◌-◌, ◌<◌, ◌≤◌, ◌^◌, List, [], ◌∷◌, length, map, take, drop, IfOk, IsTrue, ◌↔◌, MatchOption};
ghost use Rattle.std.specs.Bool.{OnTrue, OnFalse};
ghost use Rattle.std.specs.Result.{OnOk};
ghost use Rattle.std.specs.List.{Contains};
ghost use Rattle.qs_index.specs.inner.Layout.{Layout, joined, open_room_of, page_at, rest_at, room_of};
ghost use Rattle.qs_index.specs.inner.Entries.{Entries, IsUnion, IsDifference, IsOrdered};
ghost use Rattle.qs_index.specs.inner.Entry.{IsAscending, skip_before, with_entry, without_entry, beginning, run_of};
ghost use Rattle.qs_index.specs.inner.Permutation.{turned};
ghost use Rattle.qs_index.specs.declared.permutation.Permutation.TheVariants.{Spog};

use crate::fill::fill;
use crate::order_scan::OrderScan;
use crate::pages::{HALF, PAGE, PagePosition, Pages, Reader};
use crate::permutation::Permutation;
use crate::prefix::Prefix;
use crate::search::{NOWHERE, find, locate, locate_from};
use std::alloc::{AllocError, Global};
use std::marker::Model;

// Puts an entry in front of those that aren't before it, in a page that isn't full.
fn put_before(pages: &mut Pages, place: PagePosition, entry: [u32; 4])
    requires page { place.page < length pages.old.pages }
    requires at { place.at ≤ length (page_at pages.old.pages place.page) }
    requires free { length (page_at pages.old.pages place.page) < 256 }
    requires before { rest_at pages.old.pages place.page place.at ≡ skip_before entry
        (joined pages.old.pages) }
    ensures entries { joined pages.new.pages ≡ with_entry entry (joined pages.old.pages) }
    ensures room { open_room_of pages.old.pages pages.old.spare ≤ room_of pages.new.pages
        pages.new.spare + 1 }
{
    pages.put(place, entry);
}

// Splits the page of a place if it is full, and gives the same place in the new pages.
fn make_room(pages: &mut Pages, place: PagePosition) -> PagePosition
    requires page { place.page < length pages.old.pages }
    requires at { place.at ≤ length (page_at pages.old.pages place.page) }
    requires room { 0 < room_of pages.old.pages pages.old.spare }
    ensures page { result.page < length pages.new.pages }
    ensures at { result.at ≤ length (page_at pages.new.pages result.page) }
    ensures free { length (page_at pages.new.pages result.page) < 256 }
    ensures rest { rest_at pages.new.pages result.page result.at ≡ rest_at pages.old.pages
        place.page place.at }
    ensures entries { joined pages.new.pages ≡ joined pages.old.pages }
    ensures room { room_of pages.old.pages pages.old.spare ≤ open_room_of pages.new.pages
        pages.new.spare }
{
    let _count = pages.len();
    if pages.page_len(place.page) < PAGE {
        return place;
    }
    pages.split(place.page);
    if place.at <= HALF {
        return place;
    }
    PagePosition {
        page: place.page + 1,
        at: place.at - HALF,
    }
}

// Whether an entry was put in, and a place to go on from after it.
#[derive(Clone, Copy)]
struct Edited {
    is_done: bool,
    place: PagePosition,
}

// How many entries were taken out or weren't there, and a place to go on from after them.
#[derive(Clone, Copy)]
struct Passed {
    count: usize,
    place: PagePosition,
}

// Writes the entries from a place on to the front of `batch`, as far as they begin with the prefix, and tells how many they are. Those of a
// page are written at once, which takes far less time than a scan.
fn copy(pages: &Pages, from: PagePosition, prefix: &Prefix, batch: &mut [[u32; 4]]) -> usize
    requires at { from.page < length pages.now.pages
        → from.at ≤ length (page_at pages.now.pages from.page) }
    requires batch { length (run_of prefix.now (rest_at pages.now.pages from.page from.at))
        ≤ length batch.old }
    ensures entries { take result batch.new ≡ run_of prefix.now
        (rest_at pages.now.pages from.page from.at) }
    ensures within { result ≤ length batch.new }
    ensures long { length batch.new ≡ length batch.old }
{
    let mut looked: u128 = 0;
    let mut count = 0;
    let mut page = from.page;
    let mut at = from.at;
    while page < pages.len() {
        let left = pages.page_len(page) - at;
        let place = PagePosition { page, at };
        let run = pages.copy_run(place, prefix, &mut batch[count..], &mut looked);
        count += run;
        if run < left {
            return count;
        }
        page += 1;
        at = 0;
    }
    count
}

// So many pages are counted one by one.
const COUNTED: usize = 64;

// The numbers that follow the first `given` ones in the order of entries: the last of them is greater by one. None follow the greatest.
fn following(numbers: [u32; 4], given: usize) -> Option<[u32; 4]> {
    let [a, b, c, d] = numbers;
    match given {
        1 => Some([a.checked_add(1)?, b, c, d]),
        2 => Some([a, b.checked_add(1)?, c, d]),
        3 => Some([a, b, c.checked_add(1)?, d]),
        4 => Some([a, b, c, d.checked_add(1)?]),
        _ => None,
    }
}

/// The entries of one order, and how many inserts need no memory.
#[derive(Drop)]
pub struct Order {
    pages: Pages,
    count: u128,
}

impl Model for Order {
    ghost Value = { Entries };

    ghost view = { λ s. record { entries = joined s.pages.pages; spare = room_of s.pages.pages s.pages.spare } };

    ghost invariant = { λ s. IsOrdered (joined s.pages.pages) s.count };
}

impl Order {
    /// An order without entries.
    pub fn new(alloc: Global) -> Order
        ensures entries { result.entries ≡ [] }
        ensures spare { result.spare ≡ 0 }
    {
        Order {
            pages: Pages::new(alloc),
            count: 0,
        }
    }

    /// An order of `entries`. Where they ascend it takes a page for each 256 of them, and half of what a reserve for as many inserts sets aside.
    pub fn from_entries(alloc: Global, entries: &[[u32; 4]]) -> Result<Order, AllocError>
        ensures { IfOk result (λ order. IsUnion [] entries.now order.entries) }
    {
        let mut pages = Pages::new(alloc);
        pages.set_aside(entries.len().div_ceil(PAGE))?;
        let filled = fill(&mut pages, entries);
        let mut order = Order {
            pages,
            count: filled.count,
        };
        let rest = &entries[filled.read..];
        order.reserve(rest.len() as u64)?;
        order.insert_each(rest);
        Ok(order)
    }

    /// Makes room for `n` inserts: a page for each, or for as many as the pages that there are can be split into, where these are fewer.
    /// Where there are none, nothing is set aside.
    pub fn reserve(&mut self, n: u64) -> Result<(), AllocError>
        ensures entries { self.new.entries ≡ self.old.entries }
        ensures kept { self.old.spare ≤ self.new.spare }
        ensures ok { OnOk result (n ≤ self.new.spare) }
        ensures none { n ≡ 0 → self.new.spare ≡ self.old.spare }
    {
        if n == 0 {
            return Ok(());
        }
        let due = self.pages.due();
        let splits = due.checked_add(n as u128 + 127).ok_or(AllocError)? / 128;
        let wanted = if splits < n as u128 {
            splits
        } else {
            n as u128
        };
        let wanted = usize::try_from(wanted).map_err(|_| AllocError)?;
        self.pages.set_aside(wanted)
    }

    /// Gives back the pages that are set aside.
    pub fn release(&mut self)
        ensures entries { self.new.entries ≡ self.old.entries }
    {
        self.pages.release();
    }

    // Puts an entry in its place, looked for from an earlier place on.
    fn insert_from(&mut self, from: PagePosition, entry: [u32; 4]) -> Edited
        requires { 0 < self.old.spare }
        ensures new { IsTrue result.is_done ↔ (¬ Contains self.old.entries entry) }
        ensures stood { OnFalse result.is_done (Contains self.old.entries entry) }
        ensures added { OnTrue result.is_done
            (self.new.entries ≡ with_entry entry self.old.entries) }
        ensures kept { OnFalse result.is_done (self.new.entries ≡ self.old.entries) }
        ensures ascending { IsAscending self.new.entries }
        ensures spare { self.old.spare ≤ self.new.spare + 1 }
    {
        let count = self.pages.len();
        if count == 0 {
            self.pages.put_last(entry);
            self.count = 1;
            return Edited {
                is_done: true,
                place: NOWHERE,
            };
        }
        let Err(place) = locate_from(&self.pages, from, &entry) else {
            return Edited {
                is_done: false,
                place: from,
            };
        };
        let free = make_room(&mut self.pages, place);
        put_before(&mut self.pages, free, entry);
        self.count += 1;
        Edited {
            is_done: true,
            place: free,
        }
    }

    /// Puts an entry in its place, and tells whether it is new.
    pub fn insert(&mut self, entry: [u32; 4]) -> bool
        requires { 0 < self.old.spare }
        ensures new { IsTrue result ↔ (¬ Contains self.old.entries entry) }
        ensures stood { OnFalse result (Contains self.old.entries entry) }
        ensures added { OnTrue result (self.new.entries ≡ with_entry entry self.old.entries) }
        ensures kept { OnFalse result (self.new.entries ≡ self.old.entries) }
        ensures ascending { IsAscending self.new.entries }
        ensures spare { self.old.spare ≤ self.new.spare + 1 }
    {
        let edited = self.insert_from(NOWHERE, entry);
        edited.is_done
    }

    // Fills pages where there are none, and tells how many of `entries` were read.
    fn fill_empty(&mut self, entries: &[[u32; 4]]) -> usize
        requires { length entries.now ≤ self.old.spare }
        ensures within { result ≤ length entries.now }
        ensures union { IsUnion self.old.entries (take result entries.now) self.new.entries }
        ensures spare { self.old.spare ≤ self.new.spare + result }
    {
        let count = self.pages.len();
        if count != 0 {
            return 0;
        }
        let filled = fill(&mut self.pages, entries);
        self.count = filled.count;
        filled.read
    }

    // Puts all of `entries` in, each looked for from the place of the last one.
    fn insert_each(&mut self, entries: &[[u32; 4]])
        requires { length entries.now ≤ self.old.spare }
        ensures union { IsUnion self.old.entries entries.now self.new.entries }
        ensures spare { self.old.spare ≤ self.new.spare + length entries.now }
    {
        let _count = self.pages.len();
        let mut from = NOWHERE;
        for entry in entries {
            let edited = self.insert_from(from, *entry);
            from = edited.place;
        }
    }

    /// Puts all of `entries` in. Ascending ones are put in fastest, and fill pages whole where the order is empty.
    pub fn insert_all(&mut self, entries: &[[u32; 4]])
        requires { length entries.now ≤ self.old.spare }
        ensures union { IsUnion self.old.entries entries.now self.new.entries }
        ensures spare { self.old.spare ≤ self.new.spare + length entries.now }
    {
        let read = self.fill_empty(entries);
        self.insert_each(&entries[read..]);
    }

    /// Takes an entry out, and tells whether it was there.
    pub fn remove(&mut self, entry: [u32; 4]) -> bool
        ensures stood { IsTrue result ↔ Contains self.old.entries entry }
        ensures taken { OnTrue result (self.new.entries ≡ without_entry entry self.old.entries) }
        ensures kept { OnFalse result (self.new.entries ≡ self.old.entries) }
        ensures ascending { IsAscending self.new.entries }
        ensures spare { self.old.spare ≤ self.new.spare }
    {
        let count = self.pages.len();
        if count == 0 {
            return false;
        }
        let Ok(place) = locate(&self.pages, &entry) else {
            return false;
        };
        self.pages.take_out(place);
        self.count -= 1;
        true
    }

    // Takes the first of `entries` out, looked for from an earlier place on, and those that follow it as far as one pass over its page meets
    // them.
    fn remove_met(&mut self, from: PagePosition, entries: &[[u32; 4]]) -> Passed
        requires { 0 < length entries.now }
        ensures some { 0 < result.count }
        ensures within { result.count ≤ length entries.now }
        ensures difference { IsDifference self.old.entries (take result.count entries.now)
            self.new.entries }
        ensures spare { self.old.spare ≤ self.new.spare }
    {
        let count = self.pages.len();
        if count == 0 {
            return Passed {
                count: 1,
                place: from,
            };
        }
        let Ok(place) = locate_from(&self.pages, from, &entries[0]) else {
            return Passed {
                count: 1,
                place: from,
            };
        };
        let met = self.pages.take_met(place, entries);
        self.count -= met as u128;
        Passed {
            count: met,
            place: PagePosition {
                page: place.page,
                at: place.at.saturating_sub(1),
            },
        }
    }

    /// Takes all of `entries` out. Ascending ones are taken out fastest: those of a page by one pass over it.
    pub fn remove_all(&mut self, entries: &[[u32; 4]])
        ensures difference { IsDifference self.old.entries entries.now self.new.entries }
        ensures spare { self.old.spare ≤ self.new.spare }
    {
        let _count = self.pages.len();
        let mut from = NOWHERE;
        let mut done = 0;
        while done < entries.len() {
            let passed = self.remove_met(from, &entries[done..]);
            done += passed.count;
            from = passed.place;
        }
    }

    /// Writes the entries to the front of `batch`, in order, and tells how many they are.
    pub fn copy_to(&self, batch: &mut [[u32; 4]]) -> usize
        requires { length self.now.entries ≤ length batch.old }
        ensures entries { take result batch.new ≡ self.now.entries }
        ensures within { result ≤ length batch.new }
        ensures long { length batch.new ≡ length batch.old }
    {
        let front = PagePosition { page: 0, at: 0 };
        copy(&self.pages, front, &Prefix::new([0, 0, 0, 0], 0), batch)
    }

    /// Writes the entries that begin with the number of a graph to the front of `batch`, in order, and tells how many they are.
    pub fn copy_graph(&self, graph: u32, batch: &mut [[u32; 4]]) -> usize
        requires { length (beginning (graph ∷ []) self.now.entries) ≤ length batch.old }
        ensures entries { take result batch.new ≡ beginning (graph ∷ []) self.now.entries }
        ensures within { result ≤ length batch.new }
        ensures long { length batch.new ≡ length batch.old }
    {
        let _count = self.pages.len();
        let mut reader = Reader::new(&self.pages);
        let prefix = Prefix::new([graph, 0, 0, 0], 1);
        match find(&mut reader, &prefix) {
            Some(found) => copy(&self.pages, found.place, &prefix, batch),
            None => 0,
        }
    }

    /// Puts the entries of another order in that begin with the number of a graph, by way of `batch`.
    pub fn insert_graph(&mut self, other: &Order, graph: u32, batch: &mut [[u32; 4]])
        requires batch { length (beginning (graph ∷ []) other.now.entries) ≤ length batch.old }
        requires room { length (beginning (graph ∷ []) other.now.entries) ≤ self.old.spare }
        ensures union { IsUnion self.old.entries (beginning (graph ∷ []) other.now.entries)
            self.new.entries }
        ensures spare { self.old.spare ≤ self.new.spare
            + length (beginning (graph ∷ []) other.now.entries) }
        ensures long { length batch.new ≡ length batch.old }
    {
        let count = other.copy_graph(graph, batch);
        self.insert_all(&batch[..count]);
    }

    /// Puts the entries of another order in that begin with the number of a graph, with that number in the last place, by way of `batch`.
    pub fn insert_graph_last(&mut self, other: &Order, graph: u32, batch: &mut [[u32; 4]])
        requires batch { length (beginning (graph ∷ []) other.now.entries) ≤ length batch.old }
        requires room { length (beginning (graph ∷ []) other.now.entries) ≤ self.old.spare }
        ensures union { IsUnion self.old.entries
            (map (turned Spog) (beginning (graph ∷ []) other.now.entries)) self.new.entries }
        ensures spare { self.old.spare ≤ self.new.spare
            + length (beginning (graph ∷ []) other.now.entries) }
        ensures long { length batch.new ≡ length batch.old }
    {
        let count = other.copy_graph(graph, batch);
        let entries = &mut batch[..count];
        Permutation::Spog.turn_all(entries);
        self.insert_all(entries);
    }

    /// Puts the entries of another order in, by way of `batch`.
    pub fn insert_all_of(&mut self, other: &Order, batch: &mut [[u32; 4]])
        requires batch { length other.now.entries ≤ length batch.old }
        requires room { length other.now.entries ≤ self.old.spare }
        ensures union { IsUnion self.old.entries other.now.entries self.new.entries }
        ensures spare { self.old.spare ≤ self.new.spare + length other.now.entries }
        ensures long { length batch.new ≡ length batch.old }
    {
        let count = other.copy_to(batch);
        self.insert_all(&batch[..count]);
    }

    /// Takes the entries of another order out, by way of `batch`.
    pub fn remove_all_of(&mut self, other: &Order, batch: &mut [[u32; 4]])
        requires { length other.now.entries ≤ length batch.old }
        ensures difference { IsDifference self.old.entries other.now.entries self.new.entries }
        ensures spare { self.old.spare ≤ self.new.spare }
        ensures long { length batch.new ≡ length batch.old }
    {
        let count = other.copy_to(batch);
        self.remove_all(&batch[..count]);
    }

    /// How many entries there are: pages are counted in 64 bits, and have 256 entries at most.
    pub fn len(&self) -> u128
        ensures count { result ≡ length self.now.entries }
        ensures small { result < 2 ^ 72 }
    {
        let _pages = self.pages.len();
        self.count
    }

    /// Whether an entry is there.
    pub fn contains(&self, entry: &[u32; 4]) -> bool
        ensures { IsTrue result ↔ Contains self.now.entries entry.now }
    {
        let mut from = NOWHERE;
        self.contains_from(&mut from, entry)
    }

    /// Whether an entry is there, which is looked for about `from` first. The next one is best looked for about the place that is left there.
    pub fn contains_from(&self, from: &mut PagePosition, entry: &[u32; 4]) -> bool
        ensures { IsTrue result ↔ Contains self.now.entries entry.now }
    {
        let count = self.pages.len();
        if count == 0 {
            return false;
        }
        match locate_from(&self.pages, *from, entry) {
            Ok(place) => {
                *from = place;
                true
            }
            Err(place) => {
                *from = place;
                false
            }
        }
    }

    /// The first entry that doesn't stand before all entries that begin with `prefix`.
    pub fn first_from(&self, prefix: &Prefix) -> Option<[u32; 4]>
        ensures { MatchOption result (skip_before prefix.now self.now.entries ≡ [])
            (λ e. skip_before prefix.now self.now.entries ≡ e
            ∷ drop 1 (skip_before prefix.now self.now.entries)) }
    {
        let _count = self.pages.len();
        let mut reader = Reader::new(&self.pages);
        let found = find(&mut reader, prefix)?;
        Some(found.entry)
    }

    // The place of the first entry that doesn't stand before all entries that begin with `prefix`, or a place after all pages.
    fn place_from(&self, prefix: &Prefix) -> PagePosition {
        let count = self.pages.len();
        let mut reader = Reader::new(&self.pages);
        match find(&mut reader, prefix) {
            Some(found) => found.place,
            None => PagePosition { page: count, at: 0 },
        }
    }

    // How many entries a page has, and none where there is no such page.
    fn page_len(&self, page: usize) -> usize {
        if page < self.pages.len() {
            self.pages.page_len(page)
        } else {
            0
        }
    }

    // How many entries a page has in the mean.
    fn mean(&self) -> u64 {
        let pages = self.pages.len().max(1);
        u64::try_from(self.count / pages as u128).unwrap_or(PAGE as u64)
    }

    // How many entries the pages have from one up to another; about so many, by the mean, where they are more than `COUNTED` pages.
    fn between(&self, from: usize, to: usize) -> u64 {
        let count = to.saturating_sub(from);
        if count > COUNTED {
            return self.mean().saturating_mul(count as u64);
        }
        let mut sum: u64 = 0;
        for page in from..to {
            sum = sum.saturating_add(self.page_len(page) as u64);
        }
        sum
    }

    // About how many entries stand from one place up to a later one.
    fn distance(&self, from: PagePosition, to: PagePosition) -> u64 {
        let pages = self.between(from.page, to.page);
        pages
            .saturating_add(to.at as u64)
            .saturating_sub(from.at as u64)
    }

    /// About how many entries begin with the first `given` numbers of `prefix`, by two searches. It is their count where these lead to pages
    /// that are at most 64 apart, and the last of the numbers isn't the greatest `u32`. Where it is, all later entries are counted too.
    pub fn about(&self, prefix: [u32; 4], given: usize) -> u64
        requires { given ≤ 4 }
    {
        let from = self.place_from(&Prefix::new(prefix, given));
        let to = match following(prefix, given) {
            Some(next) => self.place_from(&Prefix::new(next, given)),
            None => PagePosition {
                page: self.pages.len(),
                at: 0,
            },
        };
        self.distance(from, to)
    }

    /// The entries that begin with the first `given` numbers of `prefix`, which are looked for about `from` first.
    pub fn scan(&self, from: PagePosition, prefix: [u32; 4], given: usize) -> OrderScan<'_>
        requires { given ≤ 4 }
        ensures rest { result.rest ≡ beginning (take given prefix) self.now.entries }
        ensures handed { result.handed ≡ 0 }
        ensures skips { result.skips ≡ 0 }
        ensures size { result.size ≡ length self.now.entries }
        ensures ascending { IsAscending self.now.entries }
    {
        OrderScan::new(Reader::new(&self.pages), Prefix::new(prefix, given), from)
    }
}
