//! Tests of plans, in a crate of their own, since a crate with tests is proved twice: the plans of some texts, as they are printed, worked
//! out by hand from what a planner has to do.
#![tactic(auto)]

#[cfg(test)]
mod counted;
#[cfg(test)]
mod plans;
