//! Terms (SPARQL 1.1 Query, 19.8, [106] to [108], [119], [129] to [138]).

ghost use Rattle.qs_syntax_grammar.specs.inner.Grammar.{read};
ghost use Rattle.qs_syntax_tokens.specs.inner.Exactly.{ReadsExactly};
ghost use Rattle.qs_syntax_tree.specs.Rules as rules;
ghost use Rattle.qs_syntax_tree.specs.inner.Procedures as procedures;
ghost use Rattle.qs_syntax_tree.specs.inner.Table.{guided};

use crate::parser::Parser;
use crate::tokens::Tokens;
use qs_syntax_grammar::fault::Fault;
use qs_syntax_tree::expression::Expression;
use qs_syntax_tree::kind::Kind;
use qs_syntax_tree::term::{Annotation, Iri, Literal, Term, VarOrIri};
use qs_syntax_tree::token::Span;

impl Parser {
    /// A variable ([108]).
    pub fn var(&self, tokens: &mut Tokens<'_>) -> Result<Span, Fault>
        ensures { ReadsExactly (read guided self.now.depth rules.var tokens.old) result
            tokens.new }
    {
        Ok(tokens.expect(Kind::Var)?.span)
    }

    /// `(?v)`, the argument of BOUND ([121]).
    #[tactic(auto, unfolding(qs_syntax_tree::specs::inner::Procedures::bound_var))]
    pub fn bound_var(&self, tokens: &mut Tokens<'_>) -> Result<Span, Fault>
        ensures { ReadsExactly (read guided self.now.depth procedures.bound_var tokens.old) result
            tokens.new }
    {
        tokens.expect(Kind::LeftParen)?;
        let var = self.var(tokens)?;
        tokens.expect(Kind::RightParen)?;
        Ok(var)
    }

    /// An IRI, full or prefixed ([136]).
    #[tactic(auto, unfolding(qs_syntax_tree::specs::Rules::iri))]
    pub fn iri(&self, tokens: &mut Tokens<'_>) -> Result<Iri, Fault>
        ensures { ReadsExactly (read guided self.now.depth rules.iri tokens.old) result
            tokens.new }
    {
        if tokens.peek_is(&[Kind::IriRef]) {
            return Ok(Iri::Full(tokens.expect(Kind::IriRef)?.span));
        }
        if tokens.peek_is(&[Kind::PnameLn]) {
            return Ok(Iri::Prefixed(tokens.expect(Kind::PnameLn)?.span));
        }
        Ok(Iri::Prefixed(tokens.expect(Kind::PnameNs)?.span))
    }

    /// A variable or an IRI ([107]).
    #[tactic(auto, unfolding(qs_syntax_tree::specs::Rules::var_or_iri))]
    pub fn var_or_iri(&self, tokens: &mut Tokens<'_>) -> Result<VarOrIri, Fault>
        ensures { ReadsExactly (read guided self.now.depth rules.var_or_iri tokens.old) result
            tokens.new }
    {
        if tokens.peek_is(&[Kind::Var]) {
            return Ok(VarOrIri::Var(self.var(tokens)?));
        }
        Ok(VarOrIri::Iri(self.iri(tokens)?))
    }

    #[tactic(auto, unfolding(qs_syntax_tree::specs::Rules::annotation))]
    fn annotation(&self, tokens: &mut Tokens<'_>) -> Result<Option<Annotation>, Fault>
        ensures { ReadsExactly (read guided self.now.depth rules.annotation tokens.old) result
            tokens.new }
    {
        if tokens.peek_is(&[Kind::LangTag]) {
            return Ok(Some(Annotation::Tag(tokens.expect(Kind::LangTag)?.span)));
        }
        if tokens.peek_is(&[Kind::CaretCaret]) {
            tokens.expect(Kind::CaretCaret)?;
            return Ok(Some(Annotation::Datatype(self.iri(tokens)?)));
        }
        Ok(None)
    }

    /// A literal ([129], [130], [134]).
    #[tactic(auto, unfolding(qs_syntax_tree::specs::Rules::literal))]
    pub fn literal(&self, tokens: &mut Tokens<'_>) -> Result<Literal, Fault>
        ensures { ReadsExactly (read guided self.now.depth rules.literal tokens.old) result
            tokens.new }
    {
        if tokens.peek_is(&[Kind::String]) {
            let string = tokens.expect(Kind::String)?.span;
            return Ok(Literal::String(string, self.annotation(tokens)?));
        }
        if tokens.peek_is(&[Kind::Integer]) {
            return Ok(Literal::Integer(tokens.expect(Kind::Integer)?.span));
        }
        if tokens.peek_is(&[Kind::Signed]) {
            return Ok(Literal::Integer(tokens.expect(Kind::Signed)?.span));
        }
        if tokens.peek_is(&[Kind::True]) {
            tokens.expect(Kind::True)?;
            return Ok(Literal::Boolean(true));
        }
        tokens.expect(Kind::False)?;
        Ok(Literal::Boolean(false))
    }

    /// A variable, an IRI, a literal or a blank node that has a label ([106]).
    #[tactic(auto, using(crate::proofs::FirstKinds::first_iri, crate::proofs::FirstKinds::first_literal), unfolding(qs_syntax_tree::specs::Rules::term))]
    pub fn term(&self, tokens: &mut Tokens<'_>) -> Result<Term, Fault>
        ensures { ReadsExactly (read guided self.now.depth rules.term tokens.old) result
            tokens.new }
    {
        if tokens.peek_is(&[Kind::Var]) {
            return Ok(Term::Var(self.var(tokens)?));
        }
        if tokens.peek_is(&[Kind::IriRef, Kind::PnameLn, Kind::PnameNs]) {
            return Ok(Term::Iri(self.iri(tokens)?));
        }
        if tokens.peek_is(&[
            Kind::String,
            Kind::Integer,
            Kind::Signed,
            Kind::True,
            Kind::False,
        ]) {
            return Ok(Term::Literal(self.literal(tokens)?));
        }
        Ok(Term::Blank(tokens.expect(Kind::BlankLabel)?.span))
    }

    /// A variable, an IRI or a literal as an operand ([119]).
    #[tactic(auto, using(crate::proofs::FirstKinds::first_iri, crate::proofs::FirstKinds::first_literal), unfolding(qs_syntax_tree::specs::inner::Procedures::operand_term))]
    pub fn operand_term(&self, tokens: &mut Tokens<'_>) -> Result<Expression, Fault>
        ensures { ReadsExactly (read guided self.now.depth procedures.operand_term tokens.old)
            result tokens.new }
    {
        if tokens.peek_is(&[Kind::IriRef, Kind::PnameLn, Kind::PnameNs]) {
            return Ok(Expression::Iri(self.iri(tokens)?));
        }
        if tokens.peek_is(&[
            Kind::String,
            Kind::Integer,
            Kind::Signed,
            Kind::True,
            Kind::False,
        ]) {
            return Ok(Expression::Literal(self.literal(tokens)?));
        }
        Ok(Expression::Var(self.var(tokens)?))
    }
}
