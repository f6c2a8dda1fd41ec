//! What becomes of a pattern that is done with.

use qs_algebra_patterns::Pattern;

/// Drops the pattern. A crate that drops one in place proves the drop of each type in its tree once more.
pub fn drop_pattern(pattern: Pattern) {
    drop(pattern);
}
