//! Pieces of texts, and texts with their escapes decoded, as SPARQL and N-Quads have them (SPARQL 1.1 Query, 19.2 and 19.8; RDF 1.1
//! N-Quads, 4). `laws` says what the forms of tokens spell, in both alike. The definitions stand in `specs/`: `Escape.antt`,
//! `Decoded.antt` and `Piece.antt`, and those of the laws in `Backslashes.antt` and `StandsFor.antt`.
#![tactic(auto)]

pub mod decode;
pub mod escape;
pub mod laws;
pub mod piece;

pub use crate::escape::Escapes;
