//! From trees as they are written to queries and updates with their names resolved: prefixes and escapes are gone, `a` is rdf:type,
//! lists of properties and of objects are written out as triples, the triples of a group that have nothing but filters between them
//! are one block, and each `[` is a blank node of its own.
//!
//! `specs/Names.antt` says what a name, a string or a number of the text denotes, given the prefixes that are declared so far.
//! `specs/Resolving.antt` has the steps that all definitions are made of; `Leaves.antt`, `Path.antt`, `Expression.antt`,
//! `Triples.antt`, `Data.antt`, `Pattern.antt`, `Query.antt` and `Update.antt` go through the trees form by form, and
//! `Resolved.antt` has the whole.
#![tactic(auto)]

mod declarations;
mod expression;
mod iri;
mod leaves;
mod literal;
mod name_cache;
mod names;
mod number;
mod open_group;
mod path;
mod pattern;
mod piece;
mod query;
mod resolve;
mod resolver;
mod reversed;
mod table;
mod triples;
mod update;

pub use resolve::{resolve_query, resolve_update};
