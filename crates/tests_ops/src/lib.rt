//! Tests of evaluations over the store, in a crate of their own, since a crate with tests is proved twice. What is due is worked out by hand
//! from the algebra. What plans of all forms evaluate to is shown by the cases and by random queries, which the program answers.
#![tactic(auto)]

#[cfg(test)]
mod calls;
#[cfg(test)]
mod plans;
#[cfg(test)]
mod rows;
#[cfg(test)]
mod stores;
