//! What closures mean in terms of walks.

ghost use Rattle.qs_paths_meaning.specs.inner.Walk.{ClosuresAreWalks, ClosuresAreDistinct};

/// `?`, `*` and `+` have a pair exactly where a walk of a lawful number of steps leads from its left to its right end, and each pair once,
/// however many walks there are.
pub fn closures()
    ensures walks { ClosuresAreWalks }
    ensures once { ClosuresAreDistinct }
{}
