//! Queries and updates with their names resolved: IRIs are absolute, literals are terms, escapes are decoded, `a` is rdf:type, and
//! the lists of properties and objects are written out as triples. What `SELECT *` lists is still to be worked out.
#![tactic(auto)]

pub mod expression;
pub mod path;
pub mod pattern;
pub mod query;
pub mod shared;
pub mod term;
pub mod update;
