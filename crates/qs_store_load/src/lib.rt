//! N-Quads put into a store as they are read: of each statement the numbers of its terms alone are kept, and the entries of these are
//! put in together at the end.
#![tactic(auto)]

mod fault;
mod nquads;

pub use crate::fault::LoadFault;
pub use crate::nquads::{load, load_owned};
