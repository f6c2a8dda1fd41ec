//! How many entries a scan looks at, and how many are counted, in indexes of four sizes.

use qs_index::pages::Pages;
use qs_index::permutation::Lead;
use qs_index::{Index, PagePosition, Scan, count_named};
use std::alloc::{AllocError, Global};

/// Sizes of an index, how many entries have its first predicate, and how many entries a scan looks at besides those that it hands out,
/// at most.
const BOUNDS: &[(u32, u32, u128)] = &[(1, 1, 4), (256, 16, 20), (257, 17, 20), (65_536, 4_096, 36)];

/// `size` entries of graph 0: sixteen objects a subject.
fn entries(alloc: Global, size: u32) -> Result<Vec<[u32; 4]>, AllocError> {
    let mut entries = Vec::new(alloc);
    for i in 0..size {
        entries.push([0, i / 16, i % 16, i])?;
    }
    Ok(entries)
}

fn fill(index: &mut Index, size: u32, alloc: Global) -> Result<(), AllocError> {
    let mut entries = entries(alloc, size)?;
    index.reserve_for(entries.len() as u64, count_named(&entries) as u64)?;
    index.insert_all(&mut entries);
    Ok(())
}

/// Whether a scan hands out so many entries, and looks at few others.
fn looks_at_few(mut scan: Scan<'_>, handed: u32, bound: u128) -> bool {
    for _step in 0..handed {
        if scan.next().is_none() {
            return false;
        }
    }
    scan.next().is_none() && scan.looked().saturating_sub(u128::from(handed)) <= bound
}

/// Whether scans of all, of one predicate, of one entry and of nothing look at few entries.
fn are_few(index: &Index, size: u32, first: u32, bound: u128) -> bool {
    looks_at_few(index.scan(0, None, None, None), size, bound)
        && looks_at_few(index.scan(0, None, Some(0), None), first, bound)
        && looks_at_few(index.scan(0, Some(0), Some(0), Some(0)), 1, bound)
        && looks_at_few(index.scan(1, None, None, None), 0, bound)
}

/// How many entries are looked at where each of them is looked for from the place of the one before.
fn looks_of_all(index: &Index, size: u32) -> u128 {
    let mut place = PagePosition { page: 0, at: 0 };
    let mut looks: u128 = 0;
    for i in 0..size {
        let mut scan = index.scan_from(place, 0, Some(i / 16), Some(i % 16), Some(i));
        if scan.next().is_none() {
            return u128::MAX;
        }
        place = scan.place();
        looks = looks.saturating_add(scan.looked());
    }
    looks
}

/// How many entries are looked at where each predicate is handed out once, and the others of it are skipped.
fn looks_of_predicates(index: &Index, predicates: u32) -> u128 {
    let mut scan = index.scan_with_lead(Lead::Predicate, 0, None, None, None);
    for predicate in 0..predicates {
        let Some(entry) = scan.next() else {
            return u128::MAX;
        };
        if entry[2] != predicate {
            return u128::MAX;
        }
        scan.skip_agreeing(None, Some(predicate), None);
    }
    if scan.next().is_some() {
        return u128::MAX;
    }
    scan.looked()
}

/// Whether the entries of all, of one predicate, of one entry and of nothing are counted. The sizes fill their pages but the last.
fn are_counted(index: &Index, size: u32, first: u32) -> bool {
    index.about(0, None, None, None) == u64::from(size)
        && index.about(0, None, Some(0), None) == u64::from(first)
        && index.about(0, Some(0), Some(0), Some(0)) == 1
        && index.about(1, None, None, None) == 0
        && index.about_named(None, None, None) == 0
}

fn is_bound(alloc: Global, size: u32, first: u32, bound: u128) -> bool {
    let predicates = size.min(16);
    let searches = u128::from(predicates).saturating_add(1);
    let mut index = Index::new(alloc);
    let is_few = fill(&mut index, size, alloc).is_ok()
        && are_few(&index, size, first, bound)
        && are_counted(&index, size, first)
        && looks_of_all(&index, size) <= u128::from(size).saturating_mul(4)
        && looks_of_predicates(&index, predicates) <= bound.saturating_mul(searches);
    drop(index);
    is_few
}

#[test]
fn scans_look_at_few_entries(rt: HostRuntime) {
    for (size, first, bound) in BOUNDS {
        assert!(rt; is_bound(rt.alloc(), *size, *first, *bound));
    }
}

/// Whether a look at the one entry of some pages makes a count of six one of seven.
fn counts_a_look(alloc: Global) -> Result<bool, AllocError> {
    let mut pages = Pages::new(alloc);
    pages.set_aside(1)?;
    pages.put_last([0, 1, 2, 3]);
    let mut looked = 6;
    let entry = *pages.look(PagePosition { page: 0, at: 0 }, &mut looked);
    Ok(entry == [0, 1, 2, 3] && looked == 7)
}

fn is_counted(alloc: Global) -> bool {
    match counts_a_look(alloc) {
        Ok(is_right) => is_right,
        Err(_) => false,
    }
}

#[test]
fn a_look_is_counted(rt: HostRuntime) {
    assert!(rt; is_counted(rt.alloc()));
}
