//! Cells.

ghost use Rattle.std.specs.Prelude.{◌≡◌, ◌↔◌, IsTrue};
ghost use Rattle.qs_expr.specs.inner.Cell.{same_cell};
ghost use Rattle.qs_expr.specs.inner.Scratch.{TellsSameTerm};

/// What a row holds of a term.
#[derive(Clone, Copy, Debug, PartialEq, Eq)]
pub enum Cell {
    /// The term with this number in the dictionary.
    Known(u32),
    /// The term at this place of the scratch table.
    Scratch(u64),
}

/// Whether the cells are equal. Those that fit one dictionary and one table are exactly where their terms are the same.
#[tactic(auto, using(crate::proofs::Finding::cells_equal, crate::proofs::Finding::same_cells))]
pub fn is_same(a: Cell, b: Cell) -> bool
    ensures test { result ≡ same_cell a b }
    ensures cells { IsTrue result ↔ (a ≡ b) }
    ensures terms { TellsSameTerm a b result }
{
    match (a, b) {
        (Cell::Known(m), Cell::Known(n)) => m == n,
        (Cell::Scratch(j), Cell::Scratch(k)) => j == k,
        _ => false,
    }
}
