//! What is kept while a tree is read.
//!
//! Anonymous blank nodes are numbered by where they begin, over the whole text. A count past 64 bits would be out of memory.

ghost use Rattle.std.specs.Prelude.{◌≡◌};
ghost use Rattle.qs_syntax_resolve.specs.inner.Resolved.{start};

use crate::names::Names;
use qs_syntax_ast::term::Variable;
use sqlite_items::Items;
use std::alloc::Global;

/// The names of the text, and what has been met so far.
#[derive(Drop)]
pub struct Resolver<'a> {
    pub names: Names<'a>,
    /// How many anonymous blank nodes have begun.
    pub anonymous: usize,
    /// Whether all literals are lawful.
    pub lawful: bool,
    /// The variables that were read, as often as they stand in the text.
    pub variables: Items<Variable>,
}

impl<'a> Resolver<'a> {
    pub fn new(alloc: Global, names: Names<'a>) -> Resolver<'a>
        ensures { result ≡ start names.entry }
    {
        Resolver {
            names,
            anonymous: 0,
            lawful: true,
            variables: Items::new(alloc),
        }
    }
}
