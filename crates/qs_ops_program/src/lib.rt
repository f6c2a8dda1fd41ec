//! Programs: the stages of a plan as instructions, each with the position where its rows go on.
#![tactic(auto)]

mod emit;
mod program;

pub use emit::compile;
pub use program::{Instr, Program, is_union};
