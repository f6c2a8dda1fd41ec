//! Rows that are kept: the right sides of joins, of OPTIONAL and of MINUS, and the rows of VALUES (SPARQL 1.1 Query, 18.5).
//!
//! `KeptTable` has rows and an index by the cells of the variables that they have in common. A `Probe` gives the merges of a row with the
//! kept rows that it is compatible with, one by one. `KeptTable::is_excluded` is the test of MINUS. `table_rows` makes rows of a VALUES
//! table.
//!
//! The definitions are in `specs/inner/Tables.antt`.
#![tactic(auto)]

mod excluded;
mod index;
mod kept;
mod probe;
mod values;

pub use kept::KeptTable;
pub use probe::Probe;
pub use values::table_rows;
