//! Laws: of the faults of a text that have places, of names and of limits, the one that is told is the first in the text. The variables
//! of a query are those of its text, and none of its tree is missing. Tables that say one thing in two ways agree.
//! `specs/inner/NameFaults.antt` has all faults of names, and `specs/inner/TextVariables.antt` all variables, token by token.
#![tactic(auto)]

pub mod laws;
pub mod tables;
pub mod variables;
