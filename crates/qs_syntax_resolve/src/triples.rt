//! Triples.
//!
//! Lists of properties and objects are written out, a triple before those of its object's brackets, so that each blank node first
//! appears where the text has it.

ghost use Rattle.std.specs.Prelude.{◌≡◌, [], IfOk};
ghost use Rattle.qs_syntax_resolve.specs.Leaves.{term_of};
ghost use Rattle.qs_syntax_resolve.specs.Triples as spec;
ghost use Rattle.qs_syntax_resolve.specs.inner.Triples as inner_spec;
ghost use Rattle.qs_syntax_resolve.specs.inner.Resolving.{Resolves, Collects, Opens};

use crate::resolver::Resolver;
use qs_syntax_ast::path::Path;
use qs_syntax_ast::pattern::{Triple, Verb};
use qs_syntax_ast::shared::Shared;
use qs_syntax_ast::term::TermPattern;
use qs_syntax_tree::path::Verb as WrittenVerb;
use qs_syntax_tree::term::Term as WrittenTerm;
use qs_syntax_tree::triples::{GraphNode, Property, TriplesSameSubject};
use qs_terms::QFault;
use sqlite_items::Items;
use std::alloc::{AllocError, Global};

fn simplified(alloc: Global, path: Path) -> Result<Verb, AllocError>
    ensures { IfOk result (λ verb. verb ≡ spec.simplified path) }
{
    match path {
        Path::Iri(iri) => Ok(Verb::Iri(iri)),
        other => Ok(Verb::Path(Shared::new(alloc, other)?)),
    }
}

// takes no memory
fn no_triples(alloc: Global) -> TriplesSameSubject {
    TriplesSameSubject {
        subject: GraphNode::Term(WrittenTerm::Anonymous),
        properties: Items::new(alloc),
    }
}

impl<'a> Resolver<'a> {
    fn verb(&mut self, alloc: Global, verb: &WrittenVerb) -> Result<Verb, QFault>
        ensures { Resolves (spec.verb_of verb.now self.old) result self.new }
    {
        match verb {
            WrittenVerb::Var(span) => Ok(Verb::Variable(self.variable(*span)?)),
            WrittenVerb::Path(path) => {
                let path = self.path(alloc, path)?;
                Ok(simplified(alloc, path)?)
            }
        }
    }

    fn blank(&mut self) -> Result<TermPattern, QFault>
        ensures { Resolves (inner_spec.blank self.old) result self.new }
    {
        Ok(TermPattern::Blank(self.anonymous()?))
    }

    fn simple_object(
        &mut self,
        alloc: Global,
        subject: &TermPattern,
        verb: &Verb,
        found: &mut Items<Triple>,
        object: WrittenTerm,
    ) -> Result<(), QFault>
        ensures { Collects (inner_spec.simple_object subject.now verb.now found.old object self.old)
            result found.new self.new }
    {
        let subject = subject.share()?;
        let verb = verb.share()?;
        let object = self.term(alloc, object)?;
        found.push(Triple {
            subject,
            verb,
            object,
        })?;
        Ok(())
    }

    fn blank_object(
        &mut self,
        subject: &TermPattern,
        verb: &Verb,
        found: &mut Items<Triple>,
    ) -> Result<TermPattern, QFault>
        ensures { Opens (inner_spec.blank_object subject.now verb.now found.old self.old) result
            found.new self.new }
    {
        let inner = self.blank()?;
        let subject = subject.share()?;
        let verb = verb.share()?;
        let object = inner.share()?;
        found.push(Triple {
            subject,
            verb,
            object,
        })?;
        Ok(inner)
    }

    #[cycle(triples)]
    #[tactic(auto, using(crate::proofs::TripleEquations::simple_object_is, crate::proofs::TripleEquations::bracketed_object_is))]
    fn object(
        &mut self,
        alloc: Global,
        subject: &TermPattern,
        verb: &Verb,
        found: &mut Items<Triple>,
        node: &GraphNode,
    ) -> Result<(), QFault>
        ensures { Collects (inner_spec.object_of node.now subject.now verb.now found.old self.old)
            result found.new self.new }
    {
        match node {
            GraphNode::Term(term) => self.simple_object(alloc, subject, verb, found, *term),
            GraphNode::BlankNodePropertyList(own) => {
                let inner = self.blank_object(subject, verb, found)?;
                self.properties(alloc, &inner, found, own.as_slice())
            }
        }
    }

    #[cycle(triples)]
    fn objects(
        &mut self,
        alloc: Global,
        subject: &TermPattern,
        verb: &Verb,
        found: &mut Items<Triple>,
        all: &[GraphNode],
    ) -> Result<(), QFault>
        ensures { Collects (inner_spec.objects subject.now verb.now found.old all.now self.old)
            result found.new self.new }
    {
        for node in all {
            self.object(alloc, subject, verb, found, node)?;
        }
        Ok(())
    }

    #[cycle(triples)]
    #[tactic(auto, using(crate::proofs::TripleEquations::property_is))]
    fn property(
        &mut self,
        alloc: Global,
        subject: &TermPattern,
        found: &mut Items<Triple>,
        property: &Property,
    ) -> Result<(), QFault>
        ensures { Collects (spec.property_of property.now subject.now found.old self.old) result
            found.new self.new }
    {
        let verb = self.verb(alloc, &property.verb)?;
        self.objects(alloc, subject, &verb, found, property.objects.as_slice())
    }

    #[cycle(triples)]
    fn properties(
        &mut self,
        alloc: Global,
        subject: &TermPattern,
        found: &mut Items<Triple>,
        all: &[Property],
    ) -> Result<(), QFault>
        ensures { Collects (spec.properties subject.now found.old all.now self.old) result found.new
            self.new }
    {
        for property in all {
            self.property(alloc, subject, found, property)?;
        }
        Ok(())
    }

    fn bracketed_subject(
        &mut self,
        alloc: Global,
        found: &mut Items<Triple>,
        own: &[Property],
        others: &[Property],
    ) -> Result<(), QFault>
        ensures { Collects (inner_spec.bracketed_subject found.old own.now others.now self.old)
            result found.new self.new }
    {
        let subject = self.blank()?;
        self.properties(alloc, &subject, found, own)?;
        self.properties(alloc, &subject, found, others)
    }

    #[tactic(auto, unfolding(crate::specs::Triples::same_subject))]
    fn same_subject(
        &mut self,
        alloc: Global,
        found: &mut Items<Triple>,
        triples: &TriplesSameSubject,
    ) -> Result<(), QFault>
        ensures { Collects (spec.same_subject found.old triples.now self.old) result found.new
            self.new }
    {
        match &triples.subject {
            GraphNode::Term(term) => {
                let subject = self.term(alloc, *term)?;
                self.properties(alloc, &subject, found, triples.properties.as_slice())
            }
            GraphNode::BlankNodePropertyList(own) => self.bracketed_subject(
                alloc,
                found,
                own.as_slice(),
                triples.properties.as_slice(),
            ),
        }
    }

    /// Puts the triples of a block after those that are found already.
    pub fn triples(
        &mut self,
        alloc: Global,
        found: &mut Items<Triple>,
        all: &[TriplesSameSubject],
    ) -> Result<(), QFault>
        ensures { Collects (spec.triples_after found.old all.now self.old) result found.new
            self.new }
    {
        for triples in all {
            self.same_subject(alloc, found, triples)?;
        }
        Ok(())
    }

    /// Puts the triples of a block after those that are found already. The tree of each is dropped once it is resolved.
    fn consumed_triples(
        &mut self,
        alloc: Global,
        found: &mut Items<Triple>,
        all: &mut Items<TriplesSameSubject>,
    ) -> Result<(), QFault>
        ensures { Collects (spec.triples_after found.old all.old self.old) result found.new
            self.new }
    {
        for at in 0..all.len() {
            self.same_subject(alloc, found, &all.as_slice()[at])?;
            all.set(at, no_triples(alloc));
        }
        Ok(())
    }

    /// The triples of a block. The tree of each is dropped once it is resolved.
    pub fn consumed_template(
        &mut self,
        alloc: Global,
        mut triples: Items<TriplesSameSubject>,
    ) -> Result<Items<Triple>, QFault>
        ensures { Resolves (spec.triples_after [] triples self.old) result self.new }
    {
        let mut found = Items::from_vec(Vec::with_capacity(alloc, triples.len())?);
        self.consumed_triples(alloc, &mut found, &mut triples)?;
        Ok(found)
    }
}
