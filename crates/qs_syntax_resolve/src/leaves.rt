//! Terms.

ghost use Rattle.std.specs.Prelude.{◌≡◌, drop, Ok, IfOk};
ghost use Rattle.qs_terms.specs.inner.Outcome.{OrOutOfMemory};
ghost use Rattle.qs_syntax_resolve.specs.Leaves as spec;
ghost use Rattle.qs_syntax_resolve.specs.inner.Leaves as inner;
ghost use Rattle.qs_syntax_resolve.specs.inner.Resolving.{Resolves};

use crate::resolver::Resolver;
use qs_syntax_ast::term::{BlankNode, TermPattern, VarOrIri, Variable};
use qs_syntax_tree::term::{
    Iri as WrittenIri, Literal as WrittenLiteral, Term as WrittenTerm, VarOrIri as WrittenVarOrIri,
};
use qs_syntax_tree::token::Span;
use qs_terms::{Iri, Lit, QFault, Text};
use sqlite_items::Items;
use std::alloc::{AllocError, Global};

fn empty_string(alloc: Global) -> Result<Lit, QFault>
    ensures { OrOutOfMemory (Ok inner.empty_string) result }
{
    Ok(Lit::string(alloc, Text::new(alloc, "")?)?)
}

fn copied(alloc: Global, variables: &[Variable]) -> Result<Items<Variable>, AllocError>
    ensures { IfOk result (λ copies. copies ≡ variables.now) }
{
    let mut copies = Items::new(alloc);
    for variable in variables {
        let name = variable.name.share()?;
        copies.push(Variable { name })?;
    }
    Ok(copies)
}

fn copied_after(
    alloc: Global,
    variables: &[Variable],
    count: usize,
) -> Result<Items<Variable>, AllocError>
    ensures { IfOk result (λ copies. copies ≡ drop count variables.now) }
{
    if variables.len() < count {
        return Ok(Items::new(alloc));
    }
    let (_before, after) = variables.split_at(count);
    copied(alloc, after)
}

impl<'a> Resolver<'a> {
    pub fn variable(&mut self, span: Span) -> Result<Variable, QFault>
        ensures { Resolves (spec.variable span self.old) result self.new }
    {
        let variable = self.names.variable(span)?;
        let noted = Variable {
            name: variable.name.share()?,
        };
        self.variables.push(noted)?;
        Ok(variable)
    }

    /// The variables that were read since there were so many of them.
    pub fn variables_since(
        &mut self,
        alloc: Global,
        count: usize,
    ) -> Result<Items<Variable>, QFault>
        ensures { Resolves (spec.variables_since count self.old) result self.new }
    {
        Ok(copied_after(alloc, self.variables.as_slice(), count)?)
    }

    pub fn iri(&mut self, iri: WrittenIri) -> Result<Iri, QFault>
        ensures { Resolves (spec.iri iri self.old) result self.new }
    {
        self.names.iri(iri)
    }

    pub fn var_or_iri(&mut self, name: WrittenVarOrIri) -> Result<VarOrIri, QFault>
        ensures { Resolves (spec.var_or_iri name self.old) result self.new }
    {
        match name {
            WrittenVarOrIri::Var(span) => Ok(VarOrIri::Variable(self.variable(span)?)),
            WrittenVarOrIri::Iri(iri) => Ok(VarOrIri::Iri(self.iri(iri)?)),
        }
    }

    fn settle(&mut self, alloc: Global, found: Option<Lit>) -> Result<Lit, QFault>
        ensures { Resolves (spec.settled found self.old) result self.new }
    {
        match found {
            Some(lit) => Ok(lit),
            None => {
                self.lawful = false;
                empty_string(alloc)
            }
        }
    }

    #[tactic(auto, unfolding(crate::specs::Leaves::literal))]
    pub fn literal(&mut self, alloc: Global, literal: WrittenLiteral) -> Result<Lit, QFault>
        ensures { Resolves (spec.literal literal self.old) result self.new }
    {
        let found = self.names.literal(literal)?;
        self.settle(alloc, found)
    }

    #[tactic(auto, unfolding(crate::specs::Leaves::anonymous))]
    pub fn anonymous(&mut self) -> Result<BlankNode, QFault>
        ensures { Resolves (spec.anonymous self.old) result self.new }
    {
        let number = self.anonymous;
        let Some(next) = number.checked_add(1) else {
            return Err(QFault::Memory);
        };
        self.anonymous = next;
        Ok(BlankNode::Anonymous(number))
    }

    pub fn label(&mut self, span: Span) -> Result<BlankNode, QFault>
        ensures { Resolves (spec.label span self.old) result self.new }
    {
        Ok(BlankNode::Label(self.names.label(span)?))
    }

    #[tactic(auto, unfolding(crate::specs::Leaves::term_of))]
    pub fn term(&mut self, alloc: Global, term: WrittenTerm) -> Result<TermPattern, QFault>
        ensures { Resolves (spec.term_of term self.old) result self.new }
    {
        match term {
            WrittenTerm::Var(span) => Ok(TermPattern::Variable(self.variable(span)?)),
            WrittenTerm::Iri(iri) => Ok(TermPattern::Iri(self.iri(iri)?)),
            WrittenTerm::Literal(literal) => Ok(TermPattern::Literal(self.literal(
                alloc, literal,
            )?)),
            WrittenTerm::Blank(span) => Ok(TermPattern::Blank(self.label(span)?)),
            WrittenTerm::Anonymous => Ok(TermPattern::Blank(self.anonymous()?)),
        }
    }
}
