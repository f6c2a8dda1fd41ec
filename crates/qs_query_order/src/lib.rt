//! Solutions in the order of ORDER BY (SPARQL 1.1 Query, 15.1 and 18.5).
//!
//! A solution's keys are computed once, and then sorted; the definitions stand in `specs/Order.antt`. The rows may be of any kind that denotes
//! solutions.
#![tactic(auto)]

mod condition;
mod kept;
mod keyed;
mod keys;

pub use condition::OrderCondition;
pub use kept::{keep, put_in_order};
pub use keyed::KeyedRow;
pub use keys::keys_of;
