//! The evaluation of plans over a view of the store (SPARQL 1.1 Query, 18.5 and 18.6).
//!
//! An `Op` answers the solutions of a plan row by row. Contracts see the solutions that are still to come: after `Op::start` they are those
//! of the plan, in some order.
#![tactic(auto)]

mod op;

pub use op::Op;
