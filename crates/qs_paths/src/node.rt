//! Nodes by numbers.

ghost use Rattle.std.specs.Prelude.{◌≡◌, IfNone, IfSome};
ghost use Rattle.qs_paths.specs.inner.Nodes.{IsTooFar, agrees_node, cell_of, node_pair, swapped_nodes};

use qs_expr::Cell;

/// How many numbers there may be of known terms. The places of a scratch table follow them.
const KNOWN: u64 = 1 << 32;

/// The two ends of what a path leads along, by the numbers of nodes.
#[derive(Clone, Copy)]
pub struct NodePair {
    pub left: u64,
    pub right: u64,
}

impl NodePair {
    /// The pair with its ends exchanged.
    #[inline(always)]
    pub fn swapped(self) -> NodePair
        ensures { result ≡ swapped_nodes self }
    {
        NodePair {
            left: self.right,
            right: self.left,
        }
    }
}

/// The number of a cell, or none where it is past the greatest number.
pub fn node_of(cell: Cell) -> Option<u64>
    ensures some { IfSome result (λ n. cell_of n ≡ cell) }
    ensures none { IfNone result (IsTooFar cell) }
{
    match cell {
        Cell::Known(number) => Some(number as u64),
        Cell::Scratch(place) => place.checked_add(KNOWN),
    }
}

/// The cell of a number.
#[inline(always)]
pub fn cell_of(node: u64) -> Cell
    ensures { result ≡ cell_of node }
{
    if node < KNOWN {
        Cell::Known(node as u32)
    } else {
        Cell::Scratch(node - KNOWN)
    }
}

/// Whether an end is open, or this number.
pub fn agrees(end: Option<u64>, node: u64) -> bool
    ensures { result ≡ agrees_node end node }
{
    match end {
        None => true,
        Some(end) => end == node,
    }
}
