//! Templates of CONSTRUCT and of updates, and the quads that they make of solutions (SPARQL 1.1 Query, 16.2; SPARQL 1.1 Update, 3.1.3).
//!
//! `template` has a template with its variables and blank nodes as numbers, `blanks` how its blank nodes are numbered, `with` the template
//! under WITH, `made` the quads that it makes of solutions, `data_blocks` those of INSERT DATA and DELETE DATA without a template, and
//! `set` quads as a set. `laws` says which blank nodes are fresh.
#![tactic(auto)]

mod blanks;
mod data_blocks;
pub mod laws;
mod made;
mod set;
mod template;
mod with;

pub use data_blocks::{put_quads_to_delete, put_quads_to_insert};
pub use made::{instances, next_after};
pub use set::each_once;
pub use template::{QuadTemplate, Slot, Template, template_of, template_of_blocks};
pub use with::template_in;
