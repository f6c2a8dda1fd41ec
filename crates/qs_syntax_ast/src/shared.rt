//! Values that several triples have in common.

pub use qs_base::Shared;
