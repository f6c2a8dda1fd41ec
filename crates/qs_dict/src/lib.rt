//! A dictionary of RDF terms: distinct terms, in which number and term agree for good.
#![tactic(auto)]

mod dict;
mod fault;
mod number_cache;
mod values;

pub use dict::Dict;
pub use fault::DictFault;
