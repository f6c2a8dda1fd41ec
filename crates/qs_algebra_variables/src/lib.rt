//! Laws of the variables that patterns bind: what the flags of `qs_algebra::certain` and `qs_algebra::possible` say of solutions, and of
//! what is in scope of a group.
#![tactic(auto)]

pub mod laws;
