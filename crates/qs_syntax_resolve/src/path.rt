//! Property paths.

ghost use Rattle.std.specs.Prelude.{map};
ghost use Rattle.qs_syntax_resolve.specs.Path as spec;
ghost use Rattle.qs_syntax_resolve.specs.inner.Path as inner_spec;
ghost use Rattle.qs_syntax_resolve.specs.Resolving.{all};
ghost use Rattle.qs_syntax_resolve.specs.inner.Resolving.{Resolves};

use crate::resolver::Resolver;
use qs_syntax_ast::path::{NegatedIri, Path};
use qs_syntax_tree::path::{NegatedPredicate, Path as WrittenPath, PathOperand, Predicate};
use qs_terms::{Iri, QFault};
use sqlite_items::{Boxed, Items};
use std::alloc::Global;

impl<'a> Resolver<'a> {
    fn predicate(&mut self, predicate: Predicate) -> Result<Iri, QFault>
        ensures { Resolves (spec.predicate predicate self.old) result self.new }
    {
        self.names.predicate(predicate)
    }

    fn negated(&mut self, member: &NegatedPredicate) -> Result<NegatedIri, QFault>
        ensures { Resolves (spec.negated member.now self.old) result self.new }
    {
        let iri = self.predicate(member.predicate)?;
        Ok(NegatedIri {
            inverse: member.inverse,
            iri,
        })
    }

    fn negated_set(
        &mut self,
        alloc: Global,
        members: &[NegatedPredicate],
    ) -> Result<Items<NegatedIri>, QFault>
        ensures { Resolves (all (map spec.negated members.now) self.old) result self.new }
    {
        let mut found = Items::new(alloc);
        for member in members {
            let next = self.negated(member)?;
            found.push(next)?;
        }
        Ok(found)
    }

    #[cycle(path)]
    #[tactic(auto, using(crate::proofs::Equations::alternative_is, crate::proofs::Equations::sequence_is), unfolding(crate::specs::Path::path_of))]
    pub fn path(&mut self, alloc: Global, path: &WrittenPath) -> Result<Path, QFault>
        ensures { Resolves (spec.path_of path.now self.old) result self.new }
    {
        match path {
            WrittenPath::Predicate(p) => Ok(Path::Iri(self.predicate(*p)?)),
            WrittenPath::NegatedSet(members) => Ok(Path::NegatedSet(self.negated_set(
                alloc,
                members.as_slice(),
            )?)),
            WrittenPath::Alternative(all) => {
                let all = self.operands(alloc, all.as_slice())?;
                Ok(Path::Alternative(all))
            }
            WrittenPath::Sequence(all) => {
                let all = self.operands(alloc, all.as_slice())?;
                Ok(Path::Sequence(all))
            }
            WrittenPath::Inverse(inner) => {
                let inner = self.path(alloc, inner.get())?;
                Ok(Path::Inverse(Boxed::new(alloc, inner)?))
            }
            WrittenPath::Repeated(inner, repetition) => {
                let inner = self.path(alloc, inner.get())?;
                Ok(Path::Repeated(Boxed::new(alloc, inner)?, *repetition))
            }
        }
    }

    #[cycle(path)]
    fn operands(&mut self, alloc: Global, all: &[PathOperand]) -> Result<Items<Path>, QFault>
        ensures { Resolves (inner_spec.operands all.now self.old) result self.new }
    {
        let mut found = Items::new(alloc);
        for operand in all {
            let next = self.path(alloc, &operand.path)?;
            found.push(next)?;
        }
        Ok(found)
    }
}
