//! Tests of kept rows, in a crate of their own, since a crate with tests is proved twice. What is asked for is worked out by hand from
//! SPARQL 1.1 Query, 18.5.
#![tactic(auto)]

#[cfg(test)]
mod growth;
#[cfg(test)]
mod kept;
#[cfg(test)]
mod outcome;
#[cfg(test)]
mod values;
