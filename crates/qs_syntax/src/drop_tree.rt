//! Trees that are dropped by one call.

use qs_syntax_ast::query::Query;
use qs_syntax_ast::update::Update;

/// Drops the query. A crate that drops one in place, or by a call over any type, proves the drop of each type in its tree once more.
pub fn drop_query(query: Query) {
    drop(query);
}

/// Drops the update, as `drop_query`.
pub fn drop_update(update: Update) {
    drop(update);
}
