//! RDF terms and quads: each that is made is lawful, and equal is the same (RDF 1.1 Concepts, 3 and 4).
//!
//! A term is an IRI, a blank node or a literal, and a quad is a triple with the name of its graph. `dataset` reads lists of
//! quads as sets. Texts are seen as their bytes. `fault` has why a term or a request is refused, and `device` the devices that
//! take and give bytes and count their faults. `datatype` has the IRIs of the datatypes that the rules name, which literals
//! keep by their names. `IriCache` has IRIs that were read not long ago.
//!
//! The definitions stand in `specs/`: lawful texts in `Iri.antt`, `Tag.antt` and `Literal.antt`, datatypes in `Datatype.antt`,
//! terms in `Term.antt`, quads in `Statement.antt`, bags in `Bag.antt`, names and nodes in `Dataset.antt`, devices in
//! `Device.antt`; what a text results in, and how running out of memory stands beside an answer that is due, in `Outcome.antt` and
//! `OrOutOf.antt`.
#![tactic(auto)]

pub mod dataset;
pub mod datatype;
pub mod device;
mod fault;
mod iri;
mod iri_cache;
mod literal;
mod quad;
mod tag;
mod term;
mod text;

pub use device::{Counted, Sink, Stream, put_all};
pub use fault::{QFault, TermFault};
pub use iri::Iri;
pub use iri_cache::IriCache;
pub use literal::Lit;
pub use quad::Quad;
pub use term::Term;
pub use text::Text;
