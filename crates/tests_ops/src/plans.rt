//! Plans of texts.

use qs_algebra::{drop_pattern, translate};
use qs_plan::{Plan, plan};
use qs_syntax::{drop_query, parse_query};
use qs_terms::QFault;
use std::alloc::Global;

/// The plan of the query of this text.
pub fn plan_of(alloc: Global, text: &str) -> Result<Plan, QFault> {
    let query = parse_query(alloc, text)?;
    let pattern = translate(alloc, &query);
    drop_query(query);
    let pattern = pattern?;
    let found = plan(alloc, &pattern);
    drop_pattern(pattern);
    found
}
