//! N-Quads: the quads that bytes say, or the first fault with its line; and quads as bytes (RDF 1.1 N-Quads, 3 and 4).
//!
//! The definitions stand in `specs/`. Of reading: the tokens in `Table.antt`, what each says in `Part.antt`, the grammar of statements and
//! documents in `Document.antt`, the numbers of labels in `Labels.antt`, what bytes say in `Nquads.antt`, and a text that is read a statement
//! at a time in `inner/Unread.antt`. Of writing: the text in `Written.antt`, and what reading it gives in `Renumbered.antt`.
#![tactic(auto)]

mod class;
mod fault;
mod gap;
mod hashed_labels;
mod label_map;
mod labels;
pub mod lawful;
pub mod laws;
mod line;
mod longest;
mod node;
mod nquads;
mod ordered_labels;
mod output;
mod part;
mod reader;
mod run;
mod state;
mod statement_state;
mod written;

pub use crate::fault::{NqFault, NqFaultKind};
pub use crate::nquads::{read, read_hashed};
pub use crate::output::{WriteFault, text, text_after, write};
pub use crate::reader::Reader;
