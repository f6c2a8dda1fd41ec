//! The words of functions and the marks of comparisons (SPARQL 1.1 Query, 19.8, [114], [121]).

ghost use Rattle.qs_syntax_grammar.specs.inner.Grammar.{read};
ghost use Rattle.qs_syntax_tokens.specs.inner.Exactly.{ReadsExactly};
ghost use Rattle.qs_syntax_tree.specs.Rules as rules;
ghost use Rattle.qs_syntax_tree.specs.inner.Table.{guided};

use crate::parser::Parser;
use crate::tokens::Tokens;
use qs_syntax_grammar::fault::Fault;
use qs_syntax_tree::expression::{BinaryFunction, Comparison, UnaryFunction};
use qs_syntax_tree::kind::Kind;

impl Parser {
    /// The word of a function of one argument ([121]).
    #[tactic(auto, unfolding(qs_syntax_tree::specs::Rules::unary_function))]
    pub fn unary_function(&self, tokens: &mut Tokens<'_>) -> Result<UnaryFunction, Fault>
        ensures { ReadsExactly (read guided self.now.depth rules.unary_function tokens.old) result
            tokens.new }
    {
        if tokens.peek_is(&[Kind::IsIri]) {
            tokens.expect(Kind::IsIri)?;
            return Ok(UnaryFunction::IsIri);
        }
        if tokens.peek_is(&[Kind::IsUri]) {
            tokens.expect(Kind::IsUri)?;
            return Ok(UnaryFunction::IsIri);
        }
        if tokens.peek_is(&[Kind::IsBlank]) {
            tokens.expect(Kind::IsBlank)?;
            return Ok(UnaryFunction::IsBlank);
        }
        if tokens.peek_is(&[Kind::IsLiteral]) {
            tokens.expect(Kind::IsLiteral)?;
            return Ok(UnaryFunction::IsLiteral);
        }
        if tokens.peek_is(&[Kind::IsNumeric]) {
            tokens.expect(Kind::IsNumeric)?;
            return Ok(UnaryFunction::IsNumeric);
        }
        if tokens.peek_is(&[Kind::Str]) {
            tokens.expect(Kind::Str)?;
            return Ok(UnaryFunction::Str);
        }
        if tokens.peek_is(&[Kind::Lang]) {
            tokens.expect(Kind::Lang)?;
            return Ok(UnaryFunction::Lang);
        }
        if tokens.peek_is(&[Kind::Datatype]) {
            tokens.expect(Kind::Datatype)?;
            return Ok(UnaryFunction::Datatype);
        }
        tokens.expect(Kind::StrLen)?;
        Ok(UnaryFunction::StrLen)
    }

    /// The word of a function of two arguments ([121]).
    #[tactic(auto, unfolding(qs_syntax_tree::specs::Rules::binary_function))]
    pub fn binary_function(&self, tokens: &mut Tokens<'_>) -> Result<BinaryFunction, Fault>
        ensures { ReadsExactly (read guided self.now.depth rules.binary_function tokens.old) result
            tokens.new }
    {
        if tokens.peek_is(&[Kind::SameTerm]) {
            tokens.expect(Kind::SameTerm)?;
            return Ok(BinaryFunction::SameTerm);
        }
        if tokens.peek_is(&[Kind::LangMatches]) {
            tokens.expect(Kind::LangMatches)?;
            return Ok(BinaryFunction::LangMatches);
        }
        if tokens.peek_is(&[Kind::Contains]) {
            tokens.expect(Kind::Contains)?;
            return Ok(BinaryFunction::Contains);
        }
        if tokens.peek_is(&[Kind::StrStarts]) {
            tokens.expect(Kind::StrStarts)?;
            return Ok(BinaryFunction::StrStarts);
        }
        tokens.expect(Kind::StrEnds)?;
        Ok(BinaryFunction::StrEnds)
    }

    /// The mark of a comparison ([114]).
    #[tactic(auto, unfolding(qs_syntax_tree::specs::Rules::comparison))]
    pub fn comparison(&self, tokens: &mut Tokens<'_>) -> Result<Comparison, Fault>
        ensures { ReadsExactly (read guided self.now.depth rules.comparison tokens.old) result
            tokens.new }
    {
        if tokens.peek_is(&[Kind::Equal]) {
            tokens.expect(Kind::Equal)?;
            return Ok(Comparison::Equal);
        }
        if tokens.peek_is(&[Kind::BangEqual]) {
            tokens.expect(Kind::BangEqual)?;
            return Ok(Comparison::NotEqual);
        }
        if tokens.peek_is(&[Kind::Less]) {
            tokens.expect(Kind::Less)?;
            return Ok(Comparison::Less);
        }
        if tokens.peek_is(&[Kind::Greater]) {
            tokens.expect(Kind::Greater)?;
            return Ok(Comparison::Greater);
        }
        if tokens.peek_is(&[Kind::LessOrEqual]) {
            tokens.expect(Kind::LessOrEqual)?;
            return Ok(Comparison::LessOrEqual);
        }
        tokens.expect(Kind::GreaterOrEqual)?;
        Ok(Comparison::GreaterOrEqual)
    }
}
