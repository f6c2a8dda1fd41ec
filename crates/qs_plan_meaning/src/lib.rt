//! Stages of a plan, each of which makes rows of one row, and what they mean. A plan over them is made by `qs_plan`, and walked by `qs_ops`.
#![tactic(auto)]

mod stage;

pub use stage::{Group, Look, Stage};
