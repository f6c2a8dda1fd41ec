//! The pages of one order, in blocks of 256 pages.
//!
//! Each block is a ring, and all are full but the last. So a page's number gives its block by a division. A page that comes or goes moves
//! half of a block at most, and one page of each block after. Blocks that split would need two numbers a place, or a search.
ghost use Rattle.std.specs.Prelude.{◌≡◌, ℕ, ◌+◌, ◌-◌, ◌*◌, ◌<◌, ◌≤◌, ◌^◌, min, List, [], ◌∷◌, ◌++◌, length, take, drop, IfOk, OnOk, IfSome, IsSome, slice_index_or, slice_set, option_to_list};
ghost use Rattle.std.specs.List.{insert, remove};
ghost use Rattle.std.specs.VecDeque.{deque_capacity};
ghost use Rattle.qs_index.specs.inner.Layout.{page_at};
ghost use Rattle.qs_index.specs.inner.Extending.{extended, taken_in};
ghost use Rattle.qs_index.specs.inner.Leaving.{met, left_from};
ghost use Rattle.qs_index.specs.inner.PageBlocks.{PageBlock, flat, block_at, gap_at, HasGap, IsBlock, IsTiered};

use crate::page::Page;
use std::alloc::{AllocError, Global};
use std::collections::VecDeque;
use std::marker::Model;

/// How many pages a block holds at most.
pub const BLOCK: usize = 256;

/// A block of pages, which can be put in and taken out at both ends without moving the others.
#[derive(Drop)]
pub struct Block {
    pages: VecDeque<Page>,
}

impl Model for Block {
    ghost Value = { List (List (List ℕ)) };

    ghost view = { λ b. b.pages.items };

    ghost invariant = { λ b. IsBlock b.pages.items (deque_capacity b.pages) };
}

impl Block {
    fn new(alloc: Global) -> Result<Block, AllocError>
        ensures { IfOk result (λ b. b ≡ []) }
    {
        let pages = VecDeque::with_capacity(alloc, BLOCK)?;
        Ok(Block { pages })
    }

    #[inline(always)]
    fn page(&self, at: usize) -> &Page
        requires { at < length self.now }
        ensures { result.now ≡ slice_index_or self.now at [] }
    {
        &self.pages[at]
    }

    fn insert(&mut self, at: usize, page: Page)
        requires room { length self.old < 256 }
        requires within { at ≤ length self.old }
        ensures { self.new ≡ insert self.old at page }
    {
        let _ = self.pages.insert(at, page);
    }

    fn remove(&mut self, at: usize) -> Option<Page>
        requires { at < length self.old }
        ensures some { IsSome result }
        ensures rest { self.new ≡ remove self.old at }
        ensures taken { IfSome result (λ p. p ≡ slice_index_or self.old at []) }
    {
        self.pages.remove(at)
    }

    fn put(&mut self, page: usize, at: usize, entry: [u32; 4])
        requires page { page < length self.old }
        requires at { at ≤ length (page_at self.old page) }
        requires room { length (page_at self.old page) < 256 }
        ensures { self.new ≡ slice_set self.old page (insert (page_at self.old page) at entry) }
    {
        let held = &mut self.pages[page];
        held.insert(at, entry);
    }

    fn take_out(&mut self, page: usize, at: usize)
        requires page { page < length self.old }
        requires at { at < length (page_at self.old page) }
        ensures { self.new ≡ slice_set self.old page (remove (page_at self.old page) at) }
    {
        let held = &mut self.pages[page];
        held.remove(at);
    }

    fn take_met(&mut self, page: usize, from: usize, entries: &[[u32; 4]]) -> usize
        requires page { page < length self.old }
        requires from { from ≤ length (page_at self.old page) }
        ensures met { result ≡ met (drop from (page_at self.old page)) entries.now }
        ensures left { self.new ≡ slice_set self.old page
            (left_from from (page_at self.old page) entries.now) }
    {
        let held = &mut self.pages[page];
        held.take_met(from, entries)
    }

    fn extend(&mut self, page: usize, last: &[u32; 4], entries: &[[u32; 4]]) -> usize
        requires { page < length self.old }
        ensures taken { result ≡ taken_in last.now (page_at self.old page) entries.now }
        ensures items { self.new ≡ slice_set self.old page
            (extended last.now (page_at self.old page) entries.now) }
    {
        let held = &mut self.pages[page];
        held.extend(last, entries)
    }

    fn split_into(&mut self, page: usize, upper: &mut Page)
        requires page { page < length self.old }
        requires full { length (page_at self.old page) ≡ 256 }
        requires empty { upper.old ≡ [] }
        ensures lower { self.new ≡ slice_set self.old page (take 128 (page_at self.old page)) }
        ensures upper { upper.new ≡ drop 128 (page_at self.old page) }
    {
        let held = &mut self.pages[page];
        held.split_into(upper);
    }

    fn add_first(&mut self, page: Page)
        requires { length self.old < 256 }
        ensures { self.new ≡ page ∷ self.old }
    {
        self.pages.push_front_reserved(page);
    }

    fn add_last(&mut self, page: Page)
        requires { length self.old < 256 }
        ensures { self.new ≡ self.old ++ page ∷ [] }
    {
        self.pages.push_back_reserved(page);
    }

    fn take_first(&mut self) -> Option<Page>
        requires { 0 < length self.old }
        ensures some { IsSome result }
        ensures rest { self.old ≡ option_to_list result ++ self.new }
    {
        self.pages.pop_front()
    }

    fn take_last(&mut self) -> Option<Page>
        requires { 0 < length self.old }
        ensures some { IsSome result }
        ensures rest { self.old ≡ self.new ++ option_to_list result }
    {
        self.pages.pop_back()
    }
}

// Moves the last page of block k to the front of the next one.
fn carry_up(blocks: &mut Vec<Block>, k: usize)
    requires within { k + 1 < length blocks.old.items }
    requires some { 0 < length (block_at blocks.old.items k) }
    requires room { length (block_at blocks.old.items (k + 1)) < 256 }
    ensures same { flat blocks.new.items ≡ flat blocks.old.items }
    ensures gap { (n : ℕ) → HasGap blocks.old.items (k + 1) n → HasGap blocks.new.items k n }
    ensures count { length blocks.new.items ≡ length blocks.old.items }
{
    let lower = &mut blocks[k];
    if let Some(page) = lower.take_last() {
        let upper = &mut blocks[k + 1];
        upper.add_first(page);
    }
}

// Moves the first page of the block after k to the end of block k.
fn carry_down(blocks: &mut Vec<Block>, k: usize)
    requires within { k + 1 < length blocks.old.items }
    requires some { 0 < length (block_at blocks.old.items (k + 1)) }
    requires room { length (block_at blocks.old.items k) < 256 }
    ensures same { flat blocks.new.items ≡ flat blocks.old.items }
    ensures gap { (n : ℕ) → HasGap blocks.old.items k n → HasGap blocks.new.items (k + 1) n }
    ensures count { length blocks.new.items ≡ length blocks.old.items }
{
    let upper = &mut blocks[k + 1];
    if let Some(page) = upper.take_first() {
        let lower = &mut blocks[k];
        lower.add_last(page);
    }
}

// Moves a page of each block after the first to the next one, so that the first has room for one more.
fn open_gap(blocks: &mut Vec<Block>, first: usize, count: usize)
    requires first { 256 * first ≤ count }
    requires fits { count < 256 * length blocks.old.items }
    requires filled { (j : ℕ) → length (block_at blocks.old.items j) ≡ min 256 (count - 256 * j) }
    ensures same { flat blocks.new.items ≡ flat blocks.old.items }
    ensures gap { HasGap blocks.new.items first (count + 1) }
    ensures count { length blocks.new.items ≡ length blocks.old.items }
{
    let mut k = count / BLOCK;
    while first < k {
        k -= 1;
        carry_up(blocks, k);
    }
}

// Moves a page of each block after the first to the one before, so that the gap in the first is filled.
fn close_gap(blocks: &mut Vec<Block>, first: usize, count: usize)
    requires first { 256 * first < count }
    requires fits { count ≤ 256 * length blocks.old.items }
    requires gap { HasGap blocks.old.items first count }
    ensures same { flat blocks.new.items ≡ flat blocks.old.items }
    ensures filled { (j : ℕ) → length (block_at blocks.new.items j)
        ≡ min 256 (count - 1 - 256 * j) }
    ensures count { length blocks.new.items ≡ length blocks.old.items }
{
    let last = (count - 1) / BLOCK;
    let mut k = first;
    while k < last {
        carry_down(blocks, k);
        k += 1;
    }
}

/// The pages of one order. Contracts see their list, and how many there is room for.
#[derive(Drop)]
pub struct PageBlocks {
    alloc: Global,
    blocks: Vec<Block>,
    count: usize,
}

impl Model for PageBlocks {
    ghost Value = { PageBlock };

    ghost view = { λ t. record { items = flat t.blocks.items; room = 256 * length t.blocks.items } };

    ghost invariant = { λ t. IsTiered t.blocks.items t.count };
}

impl PageBlocks {
    /// No pages.
    pub fn new(alloc: Global) -> PageBlocks
        ensures items { result.items ≡ [] }
        ensures room { result.room ≡ 0 }
    {
        PageBlocks {
            alloc,
            blocks: Vec::new(alloc),
            count: 0,
        }
    }

    /// How many pages there are.
    #[inline(always)]
    pub fn len(&self) -> usize
        ensures { result ≡ length self.now.items }
    {
        self.count
    }

    /// A page.
    #[inline(always)]
    pub fn page(&self, page: usize) -> &Page
        requires { page < length self.now.items }
        ensures { result.now ≡ page_at self.now.items page }
    {
        let block = &self.blocks[page / BLOCK];
        block.page(page % BLOCK)
    }

    /// Puts an entry into a page that isn't full.
    pub fn put(&mut self, page: usize, at: usize, entry: [u32; 4])
        requires page { page < length self.old.items }
        requires at { at ≤ length (page_at self.old.items page) }
        requires room { length (page_at self.old.items page) < 256 }
        ensures items { self.new.items ≡ slice_set self.old.items page
            (insert (page_at self.old.items page) at entry) }
        ensures room { self.new.room ≡ self.old.room }
    {
        let block = &mut self.blocks[page / BLOCK];
        block.put(page % BLOCK, at, entry);
    }

    /// Takes an entry out of a page.
    pub fn take_out(&mut self, page: usize, at: usize)
        requires page { page < length self.old.items }
        requires at { at < length (page_at self.old.items page) }
        ensures items { self.new.items ≡ slice_set self.old.items page
            (remove (page_at self.old.items page) at) }
        ensures room { self.new.room ≡ self.old.room }
    {
        let block = &mut self.blocks[page / BLOCK];
        block.take_out(page % BLOCK, at);
    }

    /// Takes those of `entries` out of a page that are met from a place on, and tells how many they are.
    pub fn take_met(&mut self, page: usize, from: usize, entries: &[[u32; 4]]) -> usize
        requires page { page < length self.old.items }
        requires from { from ≤ length (page_at self.old.items page) }
        ensures met { result ≡ met (drop from (page_at self.old.items page)) entries.now }
        ensures items { self.new.items ≡ slice_set self.old.items page
            (left_from from (page_at self.old.items page) entries.now) }
        ensures room { self.new.room ≡ self.old.room }
    {
        let block = &mut self.blocks[page / BLOCK];
        block.take_met(page % BLOCK, from, entries)
    }

    /// Puts entries after the last one of a page, which is `last`, as far as there is room and they ascend, and equal ones once. It tells
    /// how many were read.
    pub fn extend(&mut self, page: usize, last: &[u32; 4], entries: &[[u32; 4]]) -> usize
        requires { page < length self.old.items }
        ensures taken { result ≡ taken_in last.now (page_at self.old.items page) entries.now }
        ensures items { self.new.items ≡ slice_set self.old.items page
            (extended last.now (page_at self.old.items page) entries.now) }
        ensures room { self.new.room ≡ self.old.room }
    {
        let block = &mut self.blocks[page / BLOCK];
        block.extend(page % BLOCK, last, entries)
    }

    /// Moves the upper half of a full page into an empty one.
    pub fn split_into(&mut self, page: usize, upper: &mut Page)
        requires page { page < length self.old.items }
        requires full { length (page_at self.old.items page) ≡ 256 }
        requires empty { upper.old ≡ [] }
        ensures lower { self.new.items ≡ slice_set self.old.items page
            (take 128 (page_at self.old.items page)) }
        ensures upper { upper.new ≡ drop 128 (page_at self.old.items page) }
        ensures room { self.new.room ≡ self.old.room }
    {
        let block = &mut self.blocks[page / BLOCK];
        block.split_into(page % BLOCK, upper);
    }

    /// Puts a page in, where there is room.
    pub fn insert(&mut self, at: usize, page: Page)
        requires within { at ≤ length self.old.items }
        requires room { length self.old.items < self.old.room }
        requires countable { length self.old.items + 1 < 2 ^ 64 }
        ensures items { self.new.items ≡ insert self.old.items at page }
        ensures room { self.new.room ≡ self.old.room }
    {
        let first = at / BLOCK;
        open_gap(&mut self.blocks, first, self.count);
        let block = &mut self.blocks[first];
        block.insert(at % BLOCK, page);
        self.count += 1;
    }

    /// Takes a page out.
    pub fn remove(&mut self, at: usize) -> Option<Page>
        requires { at < length self.old.items }
        ensures some { IsSome result }
        ensures taken { IfSome result (λ p. p ≡ page_at self.old.items at) }
        ensures items { self.new.items ≡ remove self.old.items at }
        ensures room { self.new.room ≡ self.old.room }
    {
        let first = at / BLOCK;
        let block = &mut self.blocks[first];
        let page = block.remove(at % BLOCK);
        close_gap(&mut self.blocks, first, self.count);
        self.count -= 1;
        page
    }

    /// Makes room for so many pages more.
    pub fn reserve(&mut self, wanted: usize) -> Result<(), AllocError>
        ensures items { self.new.items ≡ self.old.items }
        ensures kept { self.old.room ≤ self.new.room }
        ensures ok { OnOk result (length self.old.items + wanted ≤ self.new.room) }
    {
        let total = self.count.checked_add(wanted).ok_or(AllocError)?;
        let needed = total / BLOCK + 1;
        let more = needed.saturating_sub(self.blocks.len());
        self.blocks.reserve(more)?;
        while self.blocks.len() < needed {
            let block = Block::new(self.alloc)?;
            let _ = self.blocks.push(block);
        }
        Ok(())
    }
}
