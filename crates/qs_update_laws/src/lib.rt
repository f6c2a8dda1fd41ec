//! Laws of blank nodes: where those of solutions and of templates' instances come from.
#![tactic(auto)]

pub mod laws;
