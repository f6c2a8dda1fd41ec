//! What is handed to each procedure. A procedure reads by one rule of the grammar, and answers what the grammar's reading function
//! answers at this depth, or running out of memory.
//!
//! The procedures here are methods of `Parser`, those of the crates above functions that take one, since only a type's own crate
//! can give it methods. Expressions and triples need nothing of each other, and are proved side by side.

ghost use Rattle.std.specs.Prelude.{◌≡◌, ◌<◌, ◌-◌};

use std::alloc::Global;

/// What procedures share.
///
/// # Errors
/// A procedure answers `Fault::Syntax` with the number of tokens from the one that is to blame, `Fault::Deep` where named rules
/// hold one another deeper than `depth`, and `Fault::Memory` where memory runs out.
#[derive(Clone, Copy)]
pub struct Parser {
    /// Where trees are kept.
    pub alloc: Global,
    /// How deep named rules may still hold one another.
    pub depth: usize,
}

impl Parser {
    /// The parser within a named rule.
    pub fn deeper(&self) -> Parser
        requires { 0 < self.now.depth }
        ensures { result.depth ≡ self.now.depth - 1 }
    {
        Parser {
            alloc: self.alloc,
            depth: self.depth - 1,
        }
    }
}
