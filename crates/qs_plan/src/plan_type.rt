//! Plans as data.

use qs_plan_meaning::Stage;
use sqlite_items::Items;

/// A plan: stages for the row that binds nothing.
#[derive(Drop)]
pub struct Plan {
    /// How many variables are named. The others are taken away from the rows at the end.
    pub width: usize,
    /// How many cells a row has.
    pub cells: usize,
    pub stages: Items<Stage>,
}

/// Drops the plan. A crate that drops one in place proves the drop of each type in its tree once more.
pub fn drop_plan(plan: Plan) {
    drop(plan);
}
