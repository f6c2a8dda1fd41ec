//! A group of which elements are still to come.
//!
//! Filters are set apart and the triples around them joined. So a block of triples is what is matched at once, and one in which a
//! label may occur.

ghost use Rattle.std.specs.Prelude.{◌≡◌, IfOk, OnOk};
ghost use Rattle.qs_syntax_resolve.specs.Pattern as spec;
ghost use Rattle.qs_syntax_resolve.specs.inner.Pattern as inner;

use qs_base::push_after;
use qs_syntax_ast::expression::Expression;
use qs_syntax_ast::pattern::{GraphPattern, Group, Triple};
use sqlite_items::Items;
use std::alloc::{AllocError, Global};
use std::mem;

/// The patterns and filters of a group so far; the triples that no other pattern follows yet stand by themselves, since further
/// ones may follow them after a filter.
#[derive(Drop)]
pub struct OpenGroup {
    pub patterns: Items<GraphPattern>,
    pub triples: Items<Triple>,
    pub filters: Items<Expression>,
}

impl OpenGroup {
    pub fn new(alloc: Global) -> OpenGroup
        ensures { result ≡ inner.empty_group }
    {
        OpenGroup {
            patterns: Items::new(alloc),
            triples: Items::new(alloc),
            filters: Items::new(alloc),
        }
    }

    #[tactic(auto, unfolding(crate::specs::Pattern::put))]
    pub fn put(&mut self, alloc: Global, pattern: GraphPattern) -> Result<(), AllocError>
        ensures { OnOk result (self.new ≡ spec.put pattern self.old) }
    {
        let triples = mem::replace(&mut self.triples, Items::new(alloc));
        let closed = close(&mut self.patterns, triples);
        push_after(closed, &mut self.patterns, pattern)
    }

    pub fn put_filter(&mut self, filter: Expression) -> Result<(), AllocError>
        ensures { OnOk result (self.new ≡ inner.put_filter filter self.old) }
    {
        self.filters.push(filter)
    }

    #[tactic(auto, unfolding(crate::specs::Pattern::finished))]
    pub fn finish(self) -> Result<Group, AllocError>
        ensures { IfOk result (λ g. g ≡ spec.finished self) }
    {
        let OpenGroup {
            mut patterns,
            triples,
            filters,
        } = self;
        close(&mut patterns, triples)?;
        Ok(Group { patterns, filters })
    }
}

fn close(patterns: &mut Items<GraphPattern>, triples: Items<Triple>) -> Result<(), AllocError>
    ensures { OnOk result (patterns.new ≡ spec.closed patterns.old triples) }
{
    if triples.is_empty() {
        return Ok(());
    }
    patterns.push(GraphPattern::Triples(triples))
}
