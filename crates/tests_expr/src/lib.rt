//! Tests of expressions over rows of cells, in a crate of their own, since a crate with tests is proved twice. What is asked for is
//! worked out by hand from the tables of SPARQL 1.1 Query, 17.
#![tactic(auto)]

#[cfg(test)]
mod cells;
#[cfg(test)]
mod conditions;
#[cfg(test)]
mod expressions;
#[cfg(test)]
mod faults;
#[cfg(test)]
mod growth;
#[cfg(test)]
mod outcome;
#[cfg(test)]
mod sample;
#[cfg(test)]
mod stores;
#[cfg(test)]
mod values;
