//! A row's merges with kept rows.

ghost use Rattle.std.specs.Prelude.{◌≡◌, [], ◌∷◌, Some, IfOk, IfSome, OnErr, MatchOption};
ghost use Rattle.std.specs.List.{AllByRecursion};
ghost use Rattle.qs_expr.specs.inner.Cell.{cell_at};
ghost use Rattle.qs_ops_tables.specs.inner.Tables.{FitsMerges, GivesMerges, merges_cells};

use crate::kept::KeptTable;
use qs_base::Shared;
use qs_expr::{Cell, Row};
use std::alloc::{AllocError, Global};
use std::marker::Model;

/// The merges of a row with the kept rows that it is compatible with, one after another. Contracts see those that are still to come.
#[derive(Drop)]
pub struct Probe {
    kept: Shared<KeptTable>,
    row: Row,
    hash: Option<u32>,
    at: usize,
}

impl Model for Probe {
    ghost use Rattle.std.specs.Prelude.{List, drop};
    ghost use Rattle.qs_expr.specs.inner.Cell.{Cells};
    ghost use Rattle.qs_ops_tables.specs.inner.Tables.{merges_cells};
    ghost use Rattle.qs_ops_tables.specs.inner.Keys.{IsHashOf};

    ghost Value = { List Cells };

    ghost view = { λ p. merges_cells (drop p.at p.kept.rows) p.row };

    ghost invariant = { λ p. IsHashOf p.kept.key p.hash p.row };
}

impl Probe {
    /// The merges of the row with the kept rows, in their order (SPARQL 1.1 Query, 18.5).
    pub fn new(kept: Shared<KeptTable>, row: Row) -> Probe
        ensures cells { result ≡ merges_cells kept.rows row }
        ensures terms { GivesMerges kept.rows row result }
        ensures fits { FitsMerges kept.rows row result }
    {
        let table = kept.get();
        let hash = table.hash_of(&row, row.width());
        let at = table.first_for(hash);
        Probe {
            kept,
            row,
            hash,
            at,
        }
    }

    /// The next merge, in the memory of a spare row where there is any; none where none is left.
    ///
    /// # Errors
    /// Out of memory, which takes no merge away.
    pub fn next(&mut self, alloc: Global, spare: &mut Vec<Row>) -> Result<Option<Row>, AllocError>
        ensures next { IfOk result (λ o. MatchOption o ((self.old ≡ []) × (self.new ≡ []))
            (λ m. self.old ≡ m ∷ self.new)) }
        ensures refused { OnErr result (self.new ≡ self.old) }
    {
        let kept = self.kept.get();
        let Some((other, next)) = kept.partner_from(&self.row, self.hash, self.at) else {
            return Ok(None);
        };
        let merged = self.row.merged_in(alloc, spare, other)?;
        self.at = next;
        Ok(Some(merged))
    }

    /// The cell that all merges have at the variable, if the row has one there.
    pub fn common_cell(&self, variable: usize) -> Option<Cell>
        ensures { IfSome result (λ c. AllByRecursion (λ m. cell_at m variable ≡ Some c) self.now) }
    {
        self.row.cell(variable)
    }

    /// The row, for its memory.
    pub fn into_row(self) -> Row {
        let Probe { row, .. } = self;
        row
    }
}
