//! Pages that are filled whole, by entries that ascend.
//!
//! A list put into an empty order fills pages whole as far as it ascends. Only an empty order is filled so: after pages that
//! aren't full, a page would cost more room than its entry. A reserve counts half a page for the first, so the room falls by no
//! more than the entries. What is filled so needs half the pages of a reserve: one for each 256 entries.
ghost use Rattle.std.specs.Prelude.{◌≡◌, ◌+◌, ◌-◌, ◌*◌, ◌<◌, ◌≤◌, [], length, take, slice_set};
ghost use Rattle.qs_index.specs.inner.Entries.{HaveFour, IsUnion};
ghost use Rattle.qs_index.specs.inner.Entry.{skip_before, with_entry};
ghost use Rattle.qs_index.specs.inner.Extending.{extended, taken_in};
ghost use Rattle.qs_index.specs.inner.Layout.{filled_of, joined, page_at, room_of, used_of};

use crate::entry::{is_less, is_same};
use crate::pages::{PAGE, PagePosition, Pages};

// Puts an entry after all others: into the last page, or into a new one where that is full.
fn append(pages: &mut Pages, entry: [u32; 4])
    requires some { 0 < length pages.old.pages }
    requires behind { skip_before entry (joined pages.old.pages) ≡ [] }
    requires spare { 256 ≤ length (page_at pages.old.pages (length pages.old.pages - 1))
        → 0 < pages.old.spare }
    ensures some { 0 < length pages.new.pages }
    ensures entries { joined pages.new.pages ≡ with_entry entry (joined pages.old.pages) }
    ensures used { used_of pages.new.pages ≤ used_of pages.old.pages + 1 }
    ensures filled { filled_of pages.new.pages ≤ filled_of pages.old.pages + 1 }
    ensures all { length pages.new.pages + pages.new.spare ≡ length pages.old.pages
        + pages.old.spare }
{
    let page = pages.len() - 1;
    let at = pages.page_len(page);
    if at < PAGE {
        pages.put(PagePosition { page, at }, entry);
        return;
    }
    pages.put_last(entry);
}

// Puts entries after the last one of the last page, which is `last`, as far as there is room and they ascend.
fn extend(pages: &mut Pages, last: &[u32; 4], entries: &[[u32; 4]]) -> Filled
    requires { 0 < length pages.old.pages }
    ensures read { result.read ≡ taken_in last.now
        (page_at pages.old.pages (length pages.old.pages - 1)) entries.now }
    ensures pages { pages.new.pages ≡ slice_set pages.old.pages (length pages.old.pages - 1)
        (extended last.now (page_at pages.old.pages (length pages.old.pages - 1)) entries.now) }
    ensures count { result.count + length (page_at pages.old.pages (length pages.old.pages - 1))
        ≡ length (extended last.now (page_at pages.old.pages (length pages.old.pages - 1))
        entries.now) }
    ensures spare { pages.new.spare ≡ pages.old.spare }
{
    let page = pages.len() - 1;
    let before = pages.page_len(page);
    let read = pages.extend(page, last, entries);
    let after = pages.page_len(page);
    let count = after as u128 - before as u128;
    Filled { read, count }
}

/// How many entries of a list were read, and how many were put in.
#[derive(Clone, Copy)]
pub struct Filled {
    pub read: usize,
    pub count: u128,
}

/// Puts the first of `entries` into pages, of which there are none, as far as they ascend: one whole page after another, and equal
/// entries once.
pub fn fill(pages: &mut Pages, entries: &[[u32; 4]]) -> Filled
    requires none { pages.old.pages ≡ [] }
    requires room { length entries.now ≤ 256 * pages.old.spare }
    ensures within { result.read ≤ length entries.now }
    ensures union { IsUnion [] (take result.read entries.now) (joined pages.new.pages) }
    ensures four { HaveFour (joined pages.new.pages) }
    ensures count { result.count ≡ length (joined pages.new.pages) }
    ensures room { room_of pages.old.pages pages.old.spare ≤ room_of pages.new.pages pages.new.spare
        + result.read }
{
    if entries.is_empty() {
        return Filled { read: 0, count: 0 };
    }
    let mut last = entries[0];
    pages.put_last(last);
    let mut count: u128 = 1;
    let mut read = 1;
    while read < entries.len() {
        let entry = entries[read];
        if is_less(&last, &entry) {
            append(pages, entry);
            let more = extend(pages, &entry, &entries[read + 1..]);
            read += 1 + more.read;
            count += 1 + more.count;
            last = entries[read - 1];
        } else if is_same(&entry, &last) {
            read += 1;
        } else {
            return Filled { read, count };
        }
    }
    Filled { read, count }
}
