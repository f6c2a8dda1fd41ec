//! Regular forms over characters: what a form spells, its derivative, and the longest front of a text that is of a class of a
//! table. The definitions stand in `specs/`, their laws in `laws`; the classes of characters and the escapes are those that
//! N-Quads and SPARQL share.
#![tactic(auto)]

pub mod character;
pub mod hex_digits;
pub mod laws;
pub mod push;
