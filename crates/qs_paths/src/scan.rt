//! The pairs of a scan of triples, one by one.

ghost use Rattle.std.specs.Prelude.{◌≡◌, IfOk};
ghost use Rattle.std.specs.Iterator.{YieldsFirst};
ghost use Rattle.std.specs.List.{list_any};
ghost use Rattle.qs_paths_meaning.specs.inner.Links.{same_number};
ghost use Rattle.qs_paths.specs.inner.Scans.{edges_in, edges_left};

use crate::node::NodePair;
use qs_store::Triples;
use std::alloc::{AllocError, Global};

/// A scan of triples, without those whose predicate is one of some numbers.
#[derive(Drop)]
pub struct Scan<'a> {
    pub triples: Triples<'a>,
    pub outside: Vec<u32>,
}

fn is_any(numbers: &[u32], number: u32) -> bool
    ensures { result ≡ list_any (same_number number) numbers.now }
{
    numbers.iter().any(|other| number == *other)
}

/// The pair of the next triple that passes.
pub fn next_edge(scan: &mut Scan<'_>) -> Option<NodePair>
    ensures { YieldsFirst edges_left scan.old result scan.new }
{
    'triples: while let Some(triple) = scan.triples.next() {
        let [subject, predicate, object] = triple;
        if !is_any(scan.outside.as_slice(), predicate) {
            return Some(NodePair {
                left: subject as u64,
                right: object as u64,
            });
        }
    }
    None
}

/// The pairs of a scan, if there is one.
#[inline(always)]
pub fn collected(alloc: Global, scan: Option<Scan<'_>>) -> Result<Vec<NodePair>, AllocError>
    ensures { IfOk result (λ ps. ps.items ≡ edges_in scan.entry) }
{
    let mut pairs = Vec::new(alloc);
    let Some(mut scan) = scan else {
        return Ok(pairs);
    };
    'edges: while let Some(pair) = next_edge(&mut scan) {
        pairs.push(pair)?;
    }
    Ok(pairs)
}
