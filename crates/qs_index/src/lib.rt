//! A set of numbered quads `[graph, subject, predicate, object]`, kept in three orders of sorted pages, and those of named graphs in
//! three more. A scan of the set hands out the entries that agree with the places that are given, in ascending order, and looks at
//! few more entries than it hands out.
#![tactic(auto)]

mod batch;
mod depth;
mod entry;
mod fill;
mod index;
mod named;
pub mod order;
pub mod order_scan;
mod page;
mod page_blocks;
pub mod pages;
pub mod permutation;
pub mod prefix;
mod scan;
mod search;

pub use batch::{count_named, sort};
pub use depth::agrees;
pub use index::Index;
pub use pages::PagePosition;
pub use scan::Scan;
