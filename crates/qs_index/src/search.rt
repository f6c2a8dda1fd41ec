//! Binary searches in the pages of one order.
//!
//! A scan from an earlier place doubles its steps in the page of that place, and is a search of the whole order elsewhere. So it
//! looks at two entries more at most, also where pages are nearly empty. Steps that double among pages would pass the bound on
//! looks there.
ghost use Rattle.std.specs.Prelude.{◌≡◌, ℕ, ◌+◌, ◌-◌, ◌*◌, ◌<◌, ◌≤◌, ◌^◌, List, [], ◌∷◌, length, drop, true, false, slice_index_or, IfOk, IfErr, IfSome, IfNone};
ghost use Rattle.qs_index.specs.inner.Digits.{digits};
ghost use Rattle.qs_index.specs.inner.Layout.{Layout, Reading, joined, page_at, rest_at};
ghost use Rattle.qs_index.specs.inner.Entry.{is_before, IsAscending, skip_before};
ghost use Rattle.qs_index.specs.inner.PagePosition.{IsPlaceFor, IsPlaceOf, IsFound, IsReached};

use crate::entry::is_same;
use crate::pages::{PagePosition, Pages, Reader};
use crate::prefix::Prefix;

// An entry that was compared, and the number of the page that it ends, or of its place in its page.
#[derive(Clone, Copy)]
struct Bound {
    at: usize,
    entry: [u32; 4],
}

/// A place after all pages, from which a search can't go on.
pub const NOWHERE: PagePosition = PagePosition {
    page: usize::MAX,
    at: 0,
};

/// An entry that was found, and where it stands.
#[derive(Clone, Copy)]
pub struct Found {
    pub place: PagePosition,
    pub entry: [u32; 4],
}

// The first page whose last entry isn't before `prefix`, and that entry; where there is none, the number of pages.
#[inline(always)]
fn first_page(reader: &mut Reader<'_>, prefix: &Prefix) -> Bound
    requires ascending { IsAscending (joined reader.old.pages) }
    requires countable { reader.old.looked + digits (length reader.old.pages) < 2 ^ 128 }
    ensures within { result.at ≤ length reader.old.pages }
    ensures skips { skip_before prefix.now (joined reader.old.pages) ≡ skip_before prefix.now
        (joined (drop result.at reader.old.pages)) }
    ensures reached { result.at < length reader.old.pages → IsReached prefix.now reader.old.pages
        result.at (length (page_at reader.old.pages result.at) - 1) result.entry }
    ensures looked { result.at < length reader.old.pages → reader.old.looked + 1
        ≤ reader.new.looked }
    ensures rising { reader.old.looked ≤ reader.new.looked }
    ensures pages { reader.new.pages ≡ reader.old.pages }
    ensures counted { reader.new.looked ≤ reader.old.looked + digits (length reader.old.pages) }
{
    let mut low = 0;
    let mut high = reader.len();
    let mut bound = [0; 4];
    while low < high {
        let middle = low + (high - low) / 2;
        let entry = reader.look_last(middle);
        if prefix.is_after(&entry) {
            low = middle + 1;
        } else {
            high = middle;
            bound = entry;
        }
    }
    Bound {
        at: low,
        entry: bound,
    }
}

// The first entry of a page that isn't before `prefix`, where those in front of `from` are, and that of `to` isn't.
#[inline(always)]
fn first_in_page(
    reader: &mut Reader<'_>,
    page: usize,
    from: usize,
    to: Bound,
    prefix: &Prefix,
) -> Bound
    requires ascending { IsAscending (joined reader.old.pages) }
    requires page_in { page < length reader.old.pages }
    requires ordered { from ≤ to.at }
    requires passed { skip_before prefix.now (joined (drop page reader.old.pages))
        ≡ skip_before prefix.now (rest_at reader.old.pages page from) }
    requires reached { IsReached prefix.now reader.old.pages page to.at to.entry }
    requires countable { reader.old.looked + digits (to.at - from) < 2 ^ 128 }
    ensures within { result.at < length (page_at reader.old.pages page) }
    ensures skips { skip_before prefix.now (joined (drop page reader.old.pages))
        ≡ rest_at reader.old.pages page result.at }
    ensures entry { result.entry ≡ slice_index_or (page_at reader.old.pages page) result.at [] }
    ensures pages { reader.new.pages ≡ reader.old.pages }
    ensures looked { reader.old.looked ≤ reader.new.looked }
    ensures counted { reader.new.looked ≤ reader.old.looked + digits (to.at - from) }
{
    let mut low = from;
    let mut high = to.at;
    let mut bound = to.entry;
    while low < high {
        let middle = low + (high - low) / 2;
        let place = PagePosition { page, at: middle };
        let entry = reader.look(place);
        if prefix.is_after(&entry) {
            low = middle + 1;
        } else {
            high = middle;
            bound = entry;
        }
    }
    Bound {
        at: low,
        entry: bound,
    }
}

/// The first entry that isn't before `prefix`.
#[inline(always)]
pub fn find(reader: &mut Reader<'_>, prefix: &Prefix) -> Option<Found>
    requires ascending { IsAscending (joined reader.old.pages) }
    requires countable { reader.old.looked + 2 * digits (length (joined reader.old.pages))
        < 2 ^ 128 }
    ensures some { IfSome result (λ found. IsFound prefix.now reader.old.pages found.place.page
        found.place.at found.entry) }
    ensures none { IfNone result (skip_before prefix.now (joined reader.old.pages) ≡ []) }
    ensures looked { IfSome result (λ _. reader.old.looked + 1 ≤ reader.new.looked) }
    ensures rising { reader.old.looked ≤ reader.new.looked }
    ensures pages { reader.new.pages ≡ reader.old.pages }
    ensures counted { reader.new.looked ≤ reader.old.looked + 2 * digits
        (length (joined reader.old.pages)) }
{
    let held = reader.len();
    let page = first_page(reader, prefix);
    if page.at == held {
        return None;
    }
    let at = reader.page_len(page.at) - 1;
    let entry = page.entry;
    let bound = first_in_page(reader, page.at, 0, Bound { at, entry }, prefix);
    let place = PagePosition {
        page: page.at,
        at: bound.at,
    };
    let entry = bound.entry;
    Some(Found { place, entry })
}

// A part of a page: those in front of `from` are before a prefix, and that of `to` isn't.
#[derive(Clone, Copy)]
struct Part {
    from: usize,
    to: Bound,
}

// The part of a page in which the first entry that isn't before `prefix` stands, where those in front of `from` are before it and
// the last isn't: by steps of 1, 2, 4 and so on entries from there.
#[inline(always)]
fn gallop(reader: &mut Reader<'_>, page: usize, from: usize, last: Bound, prefix: &Prefix) -> Part
    requires ascending { IsAscending (joined reader.old.pages) }
    requires page_in { page < length reader.old.pages }
    requires size { length (page_at reader.old.pages page) ≤ 256 }
    requires ordered { from ≤ last.at }
    requires passed { skip_before prefix.now (joined (drop page reader.old.pages))
        ≡ skip_before prefix.now (rest_at reader.old.pages page from) }
    requires reached { IsReached prefix.now reader.old.pages page last.at last.entry }
    requires countable { reader.old.looked + digits (length (page_at reader.old.pages page))
        < 2 ^ 128 }
    ensures ordered { result.from ≤ result.to.at }
    ensures skips { skip_before prefix.now (joined (drop page reader.old.pages))
        ≡ skip_before prefix.now (rest_at reader.old.pages page result.from) }
    ensures reached { IsReached prefix.now reader.old.pages page result.to.at result.to.entry }
    ensures pages { reader.new.pages ≡ reader.old.pages }
    ensures looked { reader.old.looked ≤ reader.new.looked }
    ensures counted { reader.new.looked + digits (result.to.at - result.from) ≤ reader.old.looked
        + 2 * digits (length (page_at reader.old.pages page)) }
{
    let mut low = from;
    let mut step = 1;
    while low + step <= last.at {
        let at = low + step - 1;
        let entry = reader.look(PagePosition { page, at });
        if !prefix.is_after(&entry) {
            return Part {
                from: low,
                to: Bound { at, entry },
            };
        }
        low = at + 1;
        step = step * 2;
    }
    Part {
        from: low,
        to: last,
    }
}

/// The first entry that isn't before `prefix`, where that at `from` is: looked for in its page, and elsewhere among all pages.
#[inline(always)]
pub fn find_after(reader: &mut Reader<'_>, from: PagePosition, prefix: &Prefix) -> Option<Found>
    requires ascending { IsAscending (joined reader.old.pages) }
    requires page { from.page < length reader.old.pages }
    requires at { from.at < length (page_at reader.old.pages from.page) }
    requires passed { is_before (slice_index_or (page_at reader.old.pages from.page) from.at [])
        prefix.now ≡ true }
    requires countable { reader.old.looked + 1 + 2 * digits (length (joined reader.old.pages))
        < 2 ^ 128 }
    ensures some { IfSome result (λ found. IsFound prefix.now reader.old.pages found.place.page
        found.place.at found.entry) }
    ensures none { IfNone result (skip_before prefix.now (joined reader.old.pages) ≡ []) }
    ensures pages { reader.new.pages ≡ reader.old.pages }
    ensures looked { reader.old.looked + 1 ≤ reader.new.looked }
    ensures counted { reader.new.looked ≤ reader.old.looked + 1 + 2 * digits
        (length (joined reader.old.pages)) }
{
    let held = reader.len();
    let page = from.page;
    let end = reader.page_len(page) - 1;
    let entry = reader.look(PagePosition { page, at: end });
    if prefix.is_after(&entry) {
        if page + 1 == held {
            return None;
        }
        return find(reader, prefix);
    }
    let part = gallop(reader, page, from.at + 1, Bound { at: end, entry }, prefix);
    let bound = first_in_page(reader, page, part.from, part.to, prefix);
    let place = PagePosition { page, at: bound.at };
    let entry = bound.entry;
    Some(Found { place, entry })
}

// The first entry that isn't before `prefix`, where that at `from` isn't: it stands there where the entry in front of it is before
// `prefix`.
#[inline(always)]
fn find_before(reader: &mut Reader<'_>, from: Found, prefix: &Prefix) -> Option<Found>
    requires ascending { IsAscending (joined reader.old.pages) }
    requires page { from.place.page < length reader.old.pages }
    requires reached { IsReached prefix.now reader.old.pages from.place.page from.place.at
        from.entry }
    requires countable { reader.old.looked + 1 + 2 * digits (length (joined reader.old.pages))
        < 2 ^ 128 }
    ensures some { IfSome result (λ found. IsFound prefix.now reader.old.pages found.place.page
        found.place.at found.entry) }
    ensures none { IfNone result (skip_before prefix.now (joined reader.old.pages) ≡ []) }
    ensures pages { reader.new.pages ≡ reader.old.pages }
    ensures looked { IfSome result (λ _. reader.old.looked ≤ reader.new.looked) }
    ensures counted { reader.new.looked ≤ reader.old.looked + 1 + 2 * digits
        (length (joined reader.old.pages)) }
{
    let place = from.place;
    if place.at == 0 {
        return find(reader, prefix);
    }
    let front = reader.look(PagePosition {
        page: place.page,
        at: place.at - 1,
    });
    if prefix.is_after(&front) {
        return Some(from);
    }
    find(reader, prefix)
}

/// The first entry that isn't before `prefix`, looked for about an earlier place where it stands near after that.
#[inline(always)]
pub fn find_from(reader: &mut Reader<'_>, from: PagePosition, prefix: &Prefix) -> Option<Found>
    requires ascending { IsAscending (joined reader.old.pages) }
    requires countable { reader.old.looked + 2 + 2 * digits (length (joined reader.old.pages))
        < 2 ^ 128 }
    ensures some { IfSome result (λ found. IsFound prefix.now reader.old.pages found.place.page
        found.place.at found.entry) }
    ensures none { IfNone result (skip_before prefix.now (joined reader.old.pages) ≡ []) }
    ensures pages { reader.new.pages ≡ reader.old.pages }
    ensures looked { IfSome result (λ _. reader.old.looked + 1 ≤ reader.new.looked) }
    ensures counted { reader.new.looked ≤ reader.old.looked + 2 + 2 * digits
        (length (joined reader.old.pages)) }
{
    let held = reader.len();
    if from.page >= held {
        return find(reader, prefix);
    }
    if from.at >= reader.page_len(from.page) {
        return find(reader, prefix);
    }
    let entry = reader.look(from);
    if prefix.is_after(&entry) {
        return find_after(reader, from, prefix);
    }
    find_before(reader, Found { place: from, entry }, prefix)
}

// Where an entry stands, or where it has to be put.
#[inline(always)]
fn locate_in(
    reader: Reader<'_>,
    from: PagePosition,
    entry: &[u32; 4],
) -> Result<PagePosition, PagePosition>
    requires ascending { IsAscending (joined reader.pages) }
    requires some { 0 < length reader.pages }
    requires unread { reader.looked ≡ 0 }
    ensures found { IfOk result (λ place. IsPlaceOf entry.now reader.entry.pages place.page
        place.at) }
    ensures missing { IfErr result (λ place. IsPlaceFor entry.now reader.entry.pages place.page
        place.at) }
{
    let mut reader = reader;
    let count = reader.len();
    let whole = Prefix::new(*entry, 4);
    let Some(found) = find_from(&mut reader, from, &whole) else {
        let last = count - 1;
        let at = reader.page_len(last);
        return Err(PagePosition { page: last, at });
    };
    if is_same(&found.entry, entry) {
        return Ok(found.place);
    }
    Err(found.place)
}

/// Where an entry stands, or where it has to be put, looked for from an earlier place on where it stands after that.
#[inline(always)]
pub fn locate_from(
    pages: &Pages,
    from: PagePosition,
    entry: &[u32; 4],
) -> Result<PagePosition, PagePosition>
    requires ascending { IsAscending (joined pages.now.pages) }
    requires some { 0 < length pages.now.pages }
    ensures found { IfOk result (λ place. IsPlaceOf entry.now pages.now.pages place.page place.at) }
    ensures missing { IfErr result
        (λ place. IsPlaceFor entry.now pages.now.pages place.page place.at) }
{
    locate_in(Reader::new(pages), from, entry)
}

/// Where an entry stands, or where it has to be put.
#[inline(always)]
pub fn locate(pages: &Pages, entry: &[u32; 4]) -> Result<PagePosition, PagePosition>
    requires ascending { IsAscending (joined pages.now.pages) }
    requires some { 0 < length pages.now.pages }
    ensures found { IfOk result (λ place. IsPlaceOf entry.now pages.now.pages place.page place.at) }
    ensures missing { IfErr result
        (λ place. IsPlaceFor entry.now pages.now.pages place.page place.at) }
{
    locate_from(pages, NOWHERE, entry)
}
