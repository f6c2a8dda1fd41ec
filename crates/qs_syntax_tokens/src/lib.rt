//! What all procedures of the parser share: the tokens that are left, what some rules begin with, the trees made of the trees of
//! their parts; and the procedures of terms and of the words of functions.
#![tactic(auto)]

pub mod functions;
pub mod kinds;
pub mod parser;
pub mod terms;
pub mod tokens;
pub mod trees;
