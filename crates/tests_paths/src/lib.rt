//! Tests of property paths over a view, in a crate of their own, since a crate with tests is proved twice. The pairs that are asked for are
//! worked out by hand from SPARQL 1.1 Query, 9.1 and 18.4. `growth` has the pairs for refused allocations.
#![tactic(auto)]

#[cfg(test)]
mod growth;
#[cfg(test)]
mod outcome;
#[cfg(test)]
mod paths;
#[cfg(test)]
mod read;
#[cfg(test)]
mod stores;
