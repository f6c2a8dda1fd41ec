//! Solutions without duplicates (SPARQL 1.1 Query, 15.3.1 and 18.5: Distinct).

ghost use Rattle.std.specs.Prelude.{◌≡◌, map, IfOk};
ghost use Rattle.std.specs.Option.{option_copied};
ghost use Rattle.qs_terms.specs.Bag.{once};
ghost use Rattle.qs_algebra_solutions.specs.Solution.{projected, same_solution};
ghost use Rattle.qs_base.specs.inner.Lent.{lent};

use qs_algebra_solutions::Row;
use qs_terms::Term;
use std::alloc::{AllocError, Global};
use std::collections::BTreeSet;

// the terms of these variables, lent
fn cells<'a>(
    alloc: Global,
    row: &'a Row,
    columns: &[usize],
) -> Result<Vec<Option<&'a Term>>, AllocError>
    ensures { IfOk result (λ cells. map option_copied cells.items ≡ projected columns.now row.now) }
{
    let mut cells = Vec::new(alloc);
    for column in columns {
        cells.push(row.term(*column))?;
    }
    Ok(cells)
}

/// The rows but those of which one before them has the same terms at these variables. A DISTINCT with ORDER BY calls it for rows in order,
/// before they are projected. It takes time by their count and its logarithm.
pub fn firsts<'a>(
    alloc: Global,
    rows: &[&'a Row],
    columns: &[usize],
) -> Result<Vec<&'a Row>, AllocError>
    ensures { IfOk result (λ firsts. map (projected columns.now) (lent firsts.items)
        ≡ once same_solution (map (projected columns.now) (lent rows.now))) }
{
    // (The terms that were met are borrowed from the rows.)
    let mut known = BTreeSet::new(alloc);
    let mut firsts = Vec::new(alloc);
    for &row in rows {
        let cells = cells(alloc, row, columns)?;
        if known.insert(cells)? {
            firsts.push(row)?;
        }
    }
    Ok(firsts)
}
