//! The quads that the templates of an update make of rows of cells, as entries over a draft (SPARQL 1.1 Update, 3.1.3).
//!
//! `references` names a quad by the cells of a row and the terms of a template. `removed` finds the entries of those that are removed, and
//! `added` numbers those that are added. `change` makes the change.
#![tactic(auto)]

mod added;
mod change;
mod references;
mod removed;

pub use change::change_under;
