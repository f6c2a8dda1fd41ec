//! A store of quads: a set of quads, a next blank node's number and a list of known terms, kept as entries of numbers over a dictionary
//! and an index. A draft of a store has quads added and removed apart, and becomes the store by a commit, which takes no memory.
#![tactic(auto)]

mod active;
mod default_graph;
mod draft;
mod emptied_graphs;
mod fault;
mod graphs;
mod kept;
mod layers;
mod merged;
mod named_graphs;
mod named_quads;
mod numbers;
mod quads;
mod reference;
mod removal;
mod same_set;
mod store;
mod triples;
mod view;
mod whole_graphs;

pub use active::Active;
pub use default_graph::DefaultGraph;
pub use draft::Draft;
pub use fault::StoreFault;
pub use named_quads::NamedQuads;
pub use reference::{QuadRef, TermRef};
pub use removal::Removal;
pub use same_set::{
    quads_make_their_terms_known, same_set_is_an_equivalence, same_sets_change_alike,
};
pub use store::Store;
pub use triples::Triples;
pub use view::View;
