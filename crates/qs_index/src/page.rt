//! A page: a short list of entries.
ghost use Rattle.std.specs.Prelude.{◌≡◌, ℕ, ◌-◌, ◌<◌, ◌≤◌, List, [], length, take, drop, IfOk, slice_index_or, vec_capacity};
ghost use Rattle.std.specs.List.{insert, remove};
ghost use Rattle.qs_index.specs.inner.Layout.{IsPage, IsLastOf};
ghost use Rattle.qs_index.specs.inner.Extending.{extended, taken_in};
ghost use Rattle.qs_index.specs.inner.Leaving.{met, left_from};

use crate::entry::{is_less, is_same};
use std::alloc::{AllocError, Global};
use std::marker::Model;

/// How many entries a page holds at most.
pub const PAGE: usize = 256;

/// How many entries each half of a split page has.
pub const HALF: usize = 128;

// A page has its last entry beside its list, too: a search among the pages reads only these, which lie side by side.
#[derive(Drop)]
pub struct Page {
    entries: Vec<[u32; 4]>,
    last: [u32; 4],
}

impl Model for Page {
    ghost Value = { List (List ℕ) };

    ghost view = { λ p. p.entries.items };

    ghost invariant = { λ p. IsPage p.entries.items (vec_capacity p.entries) p.last };
}

// The last entry, or the given one where there is none.
fn last_of(entries: &Vec<[u32; 4]>, none: [u32; 4]) -> [u32; 4]
    ensures { IsLastOf entries.now.items result }
{
    match entries.last() {
        Some(last) => *last,
        None => none,
    }
}

// Puts entries after the last one of a list, as far as there is room and they ascend, and equal ones once. It tells how many were read.
fn extend(list: &mut Vec<[u32; 4]>, last: &[u32; 4], entries: &[[u32; 4]]) -> usize
    requires room { 256 ≤ vec_capacity list.old }
    ensures taken { result ≡ taken_in last.now list.old.items entries.now }
    ensures items { list.new.items ≡ extended last.now list.old.items entries.now }
    ensures capacity { vec_capacity list.old ≤ vec_capacity list.new }
{
    let mut last = *last;
    let mut read = 0;
    while read < entries.len() && list.len() < PAGE {
        let entry = entries[read];
        if is_less(&last, &entry) {
            let _ = list.push(entry);
            last = entry;
        } else if !is_same(&entry, &last) {
            return read;
        }
        read += 1;
    }
    read
}

impl Page {
    pub fn new(alloc: Global) -> Result<Page, AllocError>
        ensures { IfOk result (λ p. p ≡ []) }
    {
        let entries = Vec::with_capacity(alloc, PAGE)?;
        Ok(Page {
            entries,
            last: [0; 4],
        })
    }

    pub fn len(&self) -> usize
        ensures len { result ≡ length self.now }
        ensures small { result ≤ 256 }
    {
        self.entries.len()
    }

    // How many entries there are above a half.
    pub fn above_half(&self) -> usize
        ensures above { result ≡ length self.now - 128 }
        ensures small { result ≤ 128 }
    {
        self.entries.len().saturating_sub(HALF)
    }

    pub fn entries(&self) -> &[[u32; 4]]
        ensures { result.now ≡ self.now }
    {
        &self.entries
    }

    pub fn last(&self) -> &[u32; 4]
        requires { 0 < length self.now }
        ensures { result.now ≡ slice_index_or self.now (length self.now - 1) [] }
    {
        &self.last
    }

    pub fn insert(&mut self, at: usize, entry: [u32; 4])
        requires room { length self.old < 256 }
        requires within { at ≤ length self.old }
        ensures { self.new ≡ insert self.old at entry }
    {
        let _ = self.entries.insert(at, entry);
        self.last = last_of(&self.entries, entry);
    }

    pub fn remove(&mut self, at: usize)
        requires { at < length self.old }
        ensures { self.new ≡ remove self.old at }
    {
        let taken = self.entries.remove(at);
        self.last = last_of(&self.entries, taken);
    }

    // Puts entries after the last one, which is `last`, as far as there is room and they ascend, and equal ones once. It tells how many
    // were read.
    #[tactic(auto, using(crate::proofs::Extending::extended_small))]
    pub fn extend(&mut self, last: &[u32; 4], entries: &[[u32; 4]]) -> usize
        ensures taken { result ≡ taken_in last.now self.old entries.now }
        ensures items { self.new ≡ extended last.now self.old entries.now }
    {
        let read = extend(&mut self.entries, last, entries);
        self.last = last_of(&self.entries, self.last);
        read
    }

    // Goes over the page from a place on, takes out each entry that is the next of `entries`, and tells how many of these it met.
    pub fn take_met(&mut self, from: usize, entries: &[[u32; 4]]) -> usize
        requires { from ≤ length self.old }
        ensures met { result ≡ met (drop from self.old) entries.now }
        ensures left { self.new ≡ left_from from self.old entries.now }
    {
        let mut met = 0;
        let mut kept = from;
        for at in from..self.entries.len() {
            let entry = self.entries[at];
            if met < entries.len() && is_same(&entry, &entries[met]) {
                met += 1;
            } else {
                self.entries[kept] = entry;
                kept += 1;
            }
        }
        self.entries.truncate(kept);
        self.last = last_of(&self.entries, self.last);
        met
    }

    // Moves the upper half of a full page into an empty one.
    pub fn split_into(&mut self, upper: &mut Page)
        requires full { length self.old ≡ 256 }
        requires empty { upper.old ≡ [] }
        ensures lower { self.new ≡ take 128 self.old }
        ensures upper { upper.new ≡ drop 128 self.old }
    {
        let _ = upper.entries.extend_from_slice(&self.entries[HALF..]);
        upper.last = last_of(&upper.entries, self.last);
        self.entries.truncate(HALF);
        self.last = last_of(&self.entries, self.last);
    }
}
