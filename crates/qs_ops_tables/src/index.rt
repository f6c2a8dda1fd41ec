//! An index of rows by their cells at the variables of a key.

ghost use Rattle.std.specs.Prelude.{◌≡◌, ◌<◌, ◌+◌, ◌^◌, [], length, replicate, take, IfOk, IfSome, MatchOption};
ghost use Rattle.qs_expr.specs.inner.Cell.{cell_at};
ghost use Rattle.qs_ops_tables.specs.inner.Keys as keys;
ghost use Rattle.qs_ops_tables.specs.inner.Keys.{IsIndex, Meets, MeetsNone, Passes, key_hash};

use qs_expr::{Cell, Row};
use std::alloc::{AllocError, Global};

/// The fewest rows for which there is an index: fewer are gone over one by one.
const FEWEST: usize = 8;

/// The rows in buckets, by the hashes of their cells at the variables of the key. There are no buckets where there is no index.
#[derive(Drop)]
pub(crate) struct Index {
    pub(crate) key: Vec<usize>,
    pub(crate) mask: u32,
    pub(crate) heads: Vec<u32>,
    pub(crate) links: Vec<Link>,
}

/// The hash of a row, and the place of the next row of its bucket.
#[derive(Clone, Copy)]
pub(crate) struct Link {
    pub(crate) hash: u32,
    pub(crate) next: u32,
}

// ---- hashes

fn number(cell: Cell) -> u64
    ensures { result ≡ keys.number cell }
{
    match cell {
        Cell::Known(n) => u64::from(n),
        Cell::Scratch(k) => k,
    }
}

#[tactic(auto, unfolding(crate::specs::inner::Keys::mix))]
fn mix(hash: u64, number: u64) -> u64
    ensures { result ≡ keys.mix hash number }
{
    (hash ^ number).wrapping_mul(0x9E37_79B9_7F4A_7C15)
}

/// The cell of one of the row's first `width` variables.
fn front_cell(row: &Row, width: usize, variable: usize) -> Option<Cell>
    ensures { result ≡ cell_at (take width row.now) variable }
{
    if variable < width {
        row.cell(variable)
    } else {
        None
    }
}

/// The hash of the cells of the row's first `width` variables at those of the key; none where one of them is not bound.
pub(crate) fn hash_of(key: &[usize], row: &Row, width: usize) -> Option<u32>
    ensures { result ≡ key_hash key.now (take width row.now) }
{
    let mut hash: u64 = 0;
    for variable in key {
        let Some(cell) = front_cell(row, width, *variable) else {
            return None;
        };
        hash = mix(hash, number(cell));
    }
    Some((hash >> 32) as u32)
}

// ---- the index

/// The variables that the row binds.
fn bound_variables(alloc: Global, row: &Row) -> Result<Vec<usize>, AllocError> {
    let mut variables = Vec::new(alloc);
    for variable in 0..row.width() {
        if row.cell(variable).is_some() {
            variables.push(variable)?;
        }
    }
    Ok(variables)
}

/// The variables that each of the rows binds, and `first` too.
fn key_of(alloc: Global, rows: &[Row], first: &Row) -> Result<Vec<usize>, AllocError> {
    let mut key = bound_variables(alloc, first)?;
    for row in rows {
        key.retain(|variable| row.cell(*variable).is_some());
    }
    Ok(key)
}

/// One less than a power of two that is above the number.
fn mask_for(count: u32) -> u32 {
    u32::MAX >> count.leading_zeros().min(31)
}

fn no_heads(alloc: Global, count: usize, end: u32) -> Result<Vec<u32>, AllocError>
    ensures { IfOk result (λ v. v.items ≡ replicate count end) }
{
    Ok(vec![in alloc; end; count]?)
}

fn no_links(alloc: Global, count: usize) -> Result<Vec<Link>, AllocError>
    ensures { IfOk result (λ v. v.items ≡ replicate count keys.no_link) }
{
    Ok(vec![in alloc; Link { hash: 0, next: 0 }; count]?)
}

/// The rows in buckets, where each of them binds the variables of the key.
fn linked(
    alloc: Global,
    rows: &[Row],
    key: Vec<usize>,
    count: u32,
) -> Result<Option<Index>, AllocError>
    requires { count ≡ length rows.now }
    ensures { IfOk result
        (λ o. IfSome o (λ x. IsIndex x.key.items x.mask rows.now x.heads.items x.links.items)) }
{
    let mask = mask_for(count);
    let mut heads = no_heads(alloc, mask as usize + 1, count)?;
    let mut links = no_links(alloc, rows.len())?;
    let mut i = count;
    while i > 0 {
        i -= 1;
        let row = &rows[i as usize];
        let Some(hash) = hash_of(key.as_slice(), row, row.width()) else {
            return Ok(None);
        };
        let bucket = (hash & mask) as usize;
        links[i as usize] = Link {
            hash,
            next: heads[bucket],
        };
        heads[bucket] = i;
    }
    Ok(Some(Index {
        key,
        mask,
        heads,
        links,
    }))
}

/// The index of the rows by the variables that each of them and `first` bind, where there are rows enough.
pub(crate) fn index_of(alloc: Global, rows: &[Row], first: &Row) -> Result<Index, AllocError>
    ensures { IfOk result (λ x. IsIndex x.key.items x.mask rows.now x.heads.items x.links.items) }
{
    if FEWEST <= rows.len() && rows.len() < u32::MAX as usize {
        let key = key_of(alloc, rows, first)?;
        if !key.is_empty() {
            if let Some(index) = linked(alloc, rows, key, rows.len() as u32)? {
                return Ok(index);
            }
        }
    }
    Ok(Index {
        key: Vec::new(alloc),
        mask: 0,
        heads: Vec::new(alloc),
        links: Vec::new(alloc),
    })
}

/// The place of the first row that may be compatible with rows of this hash.
pub(crate) fn first_for(rows: &[Row], index: &Index, hash: Option<u32>) -> usize
    requires { IsIndex index.now.key.items index.now.mask rows.now index.now.heads.items
        index.now.links.items }
    ensures { Passes index.now.key.items hash rows.now 0 result }
{
    let Some(hash) = hash else {
        return 0;
    };
    match index.heads.get((hash & index.mask) as usize) {
        Some(head) => *head as usize,
        None => 0,
    }
}

/// The place after this one of the next row that may be compatible with rows of this hash.
fn after(rows: &[Row], index: &Index, hash: u32, link: Link, at: usize) -> usize
    requires index { IsIndex index.now.key.items index.now.mask rows.now index.now.heads.items
        index.now.links.items }
    requires at { at < length rows.now }
    requires fits { at + 1 < 2 ^ 64 }
    requires link { at < length index.now.links.items }
    requires is { link ≡ keys.link_at index.now.links.items at }
    ensures { Passes index.now.key.items (Some hash) rows.now (at + 1) result }
{
    if hash & index.mask == link.hash & index.mask {
        link.next as usize
    } else {
        at + 1
    }
}

/// The first row from a place on that may be compatible with rows of this hash, and the place after it from which others may be.
pub(crate) fn row_from<'t>(
    rows: &'t [Row],
    index: &Index,
    hash: Option<u32>,
    at: usize,
) -> Option<(&'t Row, usize)>
    requires { IsIndex index.now.key.items index.now.mask rows.now index.now.heads.items
        index.now.links.items }
    ensures { MatchOption result (MeetsNone index.now.key.items hash rows.now at)
        (λ p. Meets index.now.key.items hash rows.now at p.0.now p.1) }
{
    let mut place = at;
    loop {
        let Some(row) = rows.get(place) else {
            return None;
        };
        let (Some(hash), Some(link)) = (hash, index.links.get(place)) else {
            return Some((row, place + 1));
        };
        let next = after(rows, index, hash, *link, place);
        if link.hash == hash {
            return Some((row, next));
        }
        place = next;
    }
}
