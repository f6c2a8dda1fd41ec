//! The solutions of a pattern over what queries see of a view: as many as suffice, or all.
//!
//! `active` tells which graph is read, `counts` what a plan is ordered by, and `planned` makes the plan that is run. `terms` makes the terms
//! of a row of cells, `collected` keeps them, and `solutions` asks the plan of the pattern for one solution after another, until the caller has
//! enough. `cell_rows` lists all rows as they are. `distinct` keeps distinct rows of cells (`distinct_rows`). `ordered` keeps rows of cells
//! with their keys, where they are asked for in an order.
#![tactic(auto)]

mod active;
mod cell_rows;
mod collected;
mod counts;
mod distinct;
mod distinct_rows;
mod ordered;
mod parts;
mod planned;
mod reading;
mod solutions;
mod terms;

pub use active::active_of;
pub use cell_rows::{CellRows, cell_solutions};
pub use counts::ViewCounts;
pub use distinct::distinct_solutions;
pub use ordered::{OrderedPart, ordered_solutions};
pub use planned::{distinct_plan_over, plan_over};
pub use solutions::{solutions_after, some_solutions};
