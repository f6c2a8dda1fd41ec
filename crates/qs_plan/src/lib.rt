//! Plans: what a pattern of the algebra asks, as a list of stages that each make rows of one row. A plan is data, and has the solutions of
//! its pattern over each dataset.
#![tactic(auto)]

mod certain;
mod copies;
mod counts;
mod display;
mod feed;
mod feedable;
mod few;
mod filters;
mod fixes;
mod joins;
mod known;
mod laid;
mod lay;
mod leaves;
mod order;
mod parts;
mod path_counts;
mod plain;
mod plan_type;
mod planner;
mod ranks;
mod reads;
mod run;

pub use counts::Counts;
pub use display::{StageLine, VariableWord};
pub use filters::filter_order;
pub use order::run_order;
pub use parts::is_fed_alike;
pub use path_counts::path_count;
pub use plan_type::{Plan, drop_plan};
pub use planner::{plan, plan_for, text_order};
pub use qs_plan_meaning::{Group, Look, Stage};
pub use reads::settle;
