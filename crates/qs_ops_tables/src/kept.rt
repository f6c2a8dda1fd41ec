//! Rows that are kept, with an index.

ghost use Rattle.std.specs.Prelude.{◌≡◌, ◌∷◌, [], IfOk, MatchOption, drop, take};
ghost use Rattle.std.specs.List.{list_any};
ghost use Rattle.qs_ops_tables.specs.inner.Tables.{TellsExcluded, excludes_cells, partners};
ghost use Rattle.qs_ops_tables.specs.inner.Keys.{IsHashOf, Passes};

use crate::excluded::is_excluded;
use crate::index::{Index, first_for, hash_of, index_of, row_from};
use qs_expr::Row;
use std::alloc::{AllocError, Global};
use std::marker::Model;

/// Rows that are kept, to be met by other rows. Contracts see the rows, and the variables by which they are found.
#[derive(Drop)]
pub struct KeptTable {
    rows: Vec<Row>,
    index: Index,
}

impl Model for KeptTable {
    ghost use Rattle.qs_ops_tables.specs.inner.Tables.{KeptRows};

    ghost Value = { KeptRows };

    ghost use Rattle.qs_ops_tables.specs.inner.Keys.{IsIndex};

    ghost view = { λ k. record { key = k.index.key.items; rows = k.rows.items } };

    ghost invariant = { λ k. IsIndex k.index.key.items k.index.mask k.rows.items k.index.heads.items k.index.links.items };
}

impl KeptTable {
    /// The rows, in this order. They are found by the variables that each of them and the row `first` bind, so that a row which binds
    /// what `first` does goes over few of them.
    ///
    /// # Errors
    /// Out of memory.
    pub fn new(alloc: Global, rows: Vec<Row>, first: &Row) -> Result<KeptTable, AllocError>
        ensures { IfOk result (λ k. k.rows ≡ rows.items) }
    {
        let index = index_of(alloc, rows.as_slice(), first)?;
        Ok(KeptTable { rows, index })
    }

    /// The hash of the row's first `width` variables.
    pub(crate) fn hash_of(&self, row: &Row, width: usize) -> Option<u32>
        ensures { IsHashOf self.now.key result (take width row.now) }
    {
        hash_of(self.index.key.as_slice(), row, width)
    }

    /// The place of the first row that may be compatible with rows of this hash.
    pub(crate) fn first_for(&self, hash: Option<u32>) -> usize
        ensures { Passes self.now.key hash self.now.rows 0 result }
    {
        first_for(self.rows.as_slice(), &self.index, hash)
    }

    /// The first row from a place on that is compatible with the row, which has this hash, and the place after it from which others may
    /// be.
    pub(crate) fn partner_from(
        &self,
        row: &Row,
        hash: Option<u32>,
        at: usize,
    ) -> Option<(&Row, usize)>
        requires { IsHashOf self.now.key hash row.now }
        ensures { MatchOption result (partners (drop at self.now.rows) row.now ≡ [])
            (λ p. partners (drop at self.now.rows) row.now ≡ p.0.now ∷ partners
            (drop p.1 self.now.rows) row.now) }
    {
        let rows = self.rows.as_slice();
        let mut place = at;
        loop {
            let Some((other, next)) = row_from(rows, &self.index, hash, place) else {
                return None;
            };
            if row.is_compatible(other) {
                return Some((other, next));
            }
            place = next;
        }
    }

    /// Whether some kept row is compatible with the row's first `width` variables and shares a bound variable with them (Minus,
    /// SPARQL 1.1 Query, 18.5).
    #[tactic(auto, using(crate::proofs::Solutions::excluded_terms))]
    pub fn is_excluded(&self, row: &Row, width: usize) -> bool
        ensures cells { result ≡ list_any (excludes_cells (take width row.now)) self.now.rows }
        ensures terms { TellsExcluded self.now.rows width row.now result }
    {
        is_excluded(self.rows.as_slice(), &self.index, row, width)
    }
}
