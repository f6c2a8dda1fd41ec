//! The cells that a row has at the ends of a path pattern.

ghost use Rattle.std.specs.Prelude.{◌≡◌, ◌↔◌, ◌||◌, IsTrue};
ghost use Rattle.std.specs.Option.{is_some};
ghost use Rattle.qs_ops_scans.specs.inner.Paths.{row_end, row_ends};

use qs_algebra_patterns::{PathPattern, Slot};
use qs_expr::{Cell, Row, is_same};

/// The cells that a row has for the variables at the ends of a path pattern. An end that is a term has none.
#[derive(Clone, Copy)]
pub struct RowEnds {
    pub subject: Option<Cell>,
    pub object: Option<Cell>,
}

fn row_end(slot: &Slot, row: &Row) -> Option<Cell>
    ensures { result ≡ row_end slot.now row.now }
{
    match slot {
        Slot::Term(_) => None,
        Slot::Variable(variable) => row.cell(*variable),
    }
}

/// The cells that the row has for the variables at the ends of the pattern.
pub fn row_ends(pattern: &PathPattern, row: &Row) -> RowEnds
    ensures { result ≡ row_ends pattern.now row.now }
{
    RowEnds {
        subject: row_end(&pattern.subject, row),
        object: row_end(&pattern.object, row),
    }
}

fn is_same_end(a: Option<Cell>, b: Option<Cell>) -> bool
    ensures { IsTrue result ↔ (a ≡ b) }
{
    match (a, b) {
        (Some(a), Some(b)) => is_same(a, b),
        (None, None) => true,
        _ => false,
    }
}

impl RowEnds {
    /// Whether the row binds a variable at an end.
    pub fn are_bound(&self) -> bool
        ensures { result ≡ (is_some self.now.subject || is_some self.now.object) }
    {
        self.subject.is_some() || self.object.is_some()
    }

    /// Whether both ends have the same cells.
    pub fn are_same(&self, other: &RowEnds) -> bool
        ensures { IsTrue result ↔ (self.now ≡ other.now) }
    {
        is_same_end(self.subject, other.subject) && is_same_end(self.object, other.object)
    }
}
