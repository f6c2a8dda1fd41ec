//! The operators and calls of expressions (SPARQL 1.1 Query, 19.8, [110] to [121]). The reader of the expressions that stand
//! within them is a parameter, so that each is proved by itself.
//!
//! A signed number after an operand is added, with its own factors: `1 -2*3` is `1 + ((-2)*3)`. `-2*3` is a chain of `*` whose
//! first operand is the signed number; the chain is at once an operand of the sum, at the same place.

ghost use Rattle.qs_syntax_grammar.specs.inner.Grammar.{read};
ghost use Rattle.qs_syntax_grammar.specs.Notation.{opt};
ghost use Rattle.qs_syntax_grammar.specs.inner.Reading.{Reads};
ghost use Rattle.qs_syntax_grammar.specs.Rule.{ref};
ghost use Rattle.qs_syntax_expressions.specs.inner.Nests.{Nests};
ghost use Rattle.qs_syntax_tree.specs.Rules as rules;
ghost use Rattle.qs_syntax_tree.specs.inner.Procedures as procedures;
ghost use Rattle.qs_syntax_tree.specs.Sparql as name;
ghost use Rattle.qs_syntax_tree.specs.inner.Table.{guided};

use qs_base::keep_beside;
use qs_syntax_grammar::fault::Fault;
use qs_syntax_tokens::kinds::{CALLS, COMPARISONS, EXPRESSIONS, RELATIONS, UNARY_FUNCTIONS};
use qs_syntax_tokens::parser::Parser;
use qs_syntax_tokens::tokens::Tokens;
use qs_syntax_tokens::trees::{
    all_of, and, binary_call, conditional, or, product, sum, unary_call, with_relation,
};
use qs_syntax_tree::expression::{Addend, Call, Expression, Operand, Relation, Sign};
use qs_syntax_tree::kind::Kind;
use qs_syntax_tree::term::Literal;
use sqlite_items::{Boxed, Items};

/// Reads operators and calls, with what reads the expressions within.
#[derive(Clone, Copy)]
pub struct Operators<F> {
    pub parser: Parser,
    pub expression: F,
}

impl<F: Fn(Parser, &mut Tokens<'_>) -> Result<Expression, Fault>> Operators<F> {
    fn expression(&self, tokens: &mut Tokens<'_>) -> Result<Expression, Fault>
        requires { Nests self.now.parser (F.pre self.now.expression) (F.post self.now.expression) }
        ensures { Reads (read guided self.now.parser.depth (ref name.expression) tokens.old) result
            tokens.new }
    {
        (self.expression)(self.parser, tokens)
    }

    #[tactic(auto, unfolding(qs_syntax_tree::specs::Rules::parenthesized))]
    pub fn parenthesized_expression(&self, tokens: &mut Tokens<'_>) -> Result<Expression, Fault>
        requires { Nests self.now.parser (F.pre self.now.expression) (F.post self.now.expression) }
        ensures { Reads (read guided self.now.parser.depth rules.parenthesized tokens.old) result
            tokens.new }
    {
        tokens.expect(Kind::LeftParen)?;
        let inner = self.expression(tokens)?;
        tokens.closing(inner, Kind::RightParen)
    }

    #[tactic(auto, unfolding(qs_syntax_tree::specs::inner::Procedures::next_argument))]
    fn next_argument(&self, tokens: &mut Tokens<'_>) -> Result<Expression, Fault>
        requires { Nests self.now.parser (F.pre self.now.expression) (F.post self.now.expression) }
        ensures { Reads (read guided self.now.parser.depth procedures.next_argument tokens.old)
            result tokens.new }
    {
        tokens.expect(Kind::Comma)?;
        self.expression(tokens)
    }

    #[tactic(auto, unfolding(qs_syntax_tree::specs::inner::Procedures::two_expressions))]
    fn two_expressions(&self, tokens: &mut Tokens<'_>) -> Result<(Expression, Expression), Fault>
        requires { Nests self.now.parser (F.pre self.now.expression) (F.post self.now.expression) }
        ensures { Reads (read guided self.now.parser.depth procedures.two_expressions tokens.old)
            result tokens.new }
    {
        let first = self.expression(tokens)?;
        keep_beside(first, self.next_argument(tokens))
    }

    #[tactic(auto, unfolding(qs_syntax_tree::specs::inner::Procedures::three_expressions))]
    fn three_expressions(
        &self,
        tokens: &mut Tokens<'_>,
    ) -> Result<((Expression, Expression), Expression), Fault>
        requires { Nests self.now.parser (F.pre self.now.expression) (F.post self.now.expression) }
        ensures { Reads (read guided self.now.parser.depth procedures.three_expressions tokens.old)
            result tokens.new }
    {
        let two = self.two_expressions(tokens)?;
        keep_beside(two, self.next_argument(tokens))
    }

    #[tactic(auto, unfolding(qs_syntax_tree::specs::inner::Procedures::two_arguments))]
    fn two_arguments(&self, tokens: &mut Tokens<'_>) -> Result<(Expression, Expression), Fault>
        requires { Nests self.now.parser (F.pre self.now.expression) (F.post self.now.expression) }
        ensures { Reads (read guided self.now.parser.depth procedures.two_arguments tokens.old)
            result tokens.new }
    {
        tokens.expect(Kind::LeftParen)?;
        let two = self.two_expressions(tokens)?;
        tokens.closing(two, Kind::RightParen)
    }

    #[tactic(auto, unfolding(qs_syntax_tree::specs::inner::Procedures::three_arguments))]
    fn three_arguments(
        &self,
        tokens: &mut Tokens<'_>,
    ) -> Result<((Expression, Expression), Expression), Fault>
        requires { Nests self.now.parser (F.pre self.now.expression) (F.post self.now.expression) }
        ensures { Reads (read guided self.now.parser.depth procedures.three_arguments tokens.old)
            result tokens.new }
    {
        tokens.expect(Kind::LeftParen)?;
        let three = self.three_expressions(tokens)?;
        tokens.closing(three, Kind::RightParen)
    }

    fn more_expressions(&self, tokens: &mut Tokens<'_>) -> Result<Items<Expression>, Fault>
        requires { Nests self.now.parser (F.pre self.now.expression) (F.post self.now.expression) }
        ensures { Reads (read guided self.now.parser.depth procedures.more_expressions tokens.old)
            result tokens.new }
    {
        let mut found = Items::new(self.parser.alloc);
        for _turn in 0..tokens.turns() {
            if !tokens.peek_is(&[Kind::Comma]) {
                return Ok(found);
            }
            let next = self.next_argument(tokens)?;
            found.push(next)?;
        }
        Err(Fault::Deep)
    }

    #[tactic(auto, unfolding(qs_syntax_tree::specs::inner::Procedures::list))]
    fn list(&self, tokens: &mut Tokens<'_>) -> Result<Items<Expression>, Fault>
        requires { Nests self.now.parser (F.pre self.now.expression) (F.post self.now.expression) }
        ensures { Reads (read guided self.now.parser.depth procedures.list tokens.old) result
            tokens.new }
    {
        tokens.expect(Kind::LeftParen)?;
        let mut found = Items::new(self.parser.alloc);
        if tokens.peek_is(&EXPRESSIONS) {
            let first = self.expression(tokens)?;
            let (first, others) = keep_beside(first, self.more_expressions(tokens))?;
            found = all_of(self.parser.alloc, first, others)?;
        }
        tokens.closing(found, Kind::RightParen)
    }

    #[tactic(auto, using(crate::proofs::FirstKinds::first_unary_function, crate::proofs::FirstKinds::nullable_unary_function), unfolding(qs_syntax_tree::specs::inner::Procedures::call))]
    pub fn call(&self, tokens: &mut Tokens<'_>) -> Result<Call, Fault>
        requires { Nests self.now.parser (F.pre self.now.expression) (F.post self.now.expression) }
        ensures { Reads (read guided self.now.parser.depth procedures.call tokens.old) result
            tokens.new }
    {
        if tokens.peek_is(&[Kind::Bound]) {
            tokens.expect(Kind::Bound)?;
            return Ok(Call::Bound(self.parser.bound_var(tokens)?));
        }
        if tokens.peek_is(&[Kind::If]) {
            tokens.expect(Kind::If)?;
            let arguments = self.three_arguments(tokens)?;
            return Ok(conditional(self.parser.alloc, arguments)?);
        }
        if tokens.peek_is(&[Kind::Coalesce]) {
            tokens.expect(Kind::Coalesce)?;
            return Ok(Call::Coalesce(self.list(tokens)?));
        }
        if tokens.peek_is(&[Kind::Concat]) {
            tokens.expect(Kind::Concat)?;
            return Ok(Call::Concat(self.list(tokens)?));
        }
        if tokens.peek_is(&UNARY_FUNCTIONS) {
            let function = self.parser.unary_function(tokens)?;
            let argument = self.parenthesized_expression(tokens)?;
            return Ok(unary_call(self.parser.alloc, function, argument)?);
        }
        let function = self.parser.binary_function(tokens)?;
        let arguments = self.two_arguments(tokens)?;
        Ok(binary_call(self.parser.alloc, function, arguments)?)
    }

    #[tactic(auto, using(crate::proofs::FirstKinds::first_parenthesized, crate::proofs::FirstKinds::first_call), unfolding(qs_syntax_tree::specs::inner::Procedures::atom))]
    fn atom(&self, tokens: &mut Tokens<'_>) -> Result<Expression, Fault>
        requires { Nests self.now.parser (F.pre self.now.expression) (F.post self.now.expression) }
        ensures { Reads (read guided self.now.parser.depth procedures.atom tokens.old) result
            tokens.new }
    {
        if tokens.peek_is(&[Kind::LeftParen]) {
            return self.parenthesized_expression(tokens);
        }
        if tokens.peek_is(&CALLS) {
            return Ok(Expression::Call(self.call(tokens)?));
        }
        self.parser.operand_term(tokens)
    }

    #[tactic(auto, unfolding(qs_syntax_tree::specs::inner::Procedures::unary))]
    fn unary(&self, tokens: &mut Tokens<'_>) -> Result<Expression, Fault>
        requires { Nests self.now.parser (F.pre self.now.expression) (F.post self.now.expression) }
        ensures { Reads (read guided self.now.parser.depth procedures.unary tokens.old) result
            tokens.new }
    {
        if tokens.peek_is(&[Kind::Bang]) {
            tokens.expect(Kind::Bang)?;
            let operand = self.atom(tokens)?;
            return Ok(Expression::Not(Boxed::new(self.parser.alloc, operand)?));
        }
        if tokens.peek_is(&[Kind::Plus]) {
            tokens.expect(Kind::Plus)?;
            let operand = self.atom(tokens)?;
            return Ok(Expression::Signed(Sign::Plus, Boxed::new(self.parser.alloc, operand)?));
        }
        if tokens.peek_is(&[Kind::Hyphen]) {
            tokens.expect(Kind::Hyphen)?;
            let operand = self.atom(tokens)?;
            return Ok(Expression::Signed(Sign::Minus, Boxed::new(self.parser.alloc, operand)?));
        }
        self.atom(tokens)
    }

    fn more_factors(&self, tokens: &mut Tokens<'_>) -> Result<Items<Operand>, Fault>
        requires { Nests self.now.parser (F.pre self.now.expression) (F.post self.now.expression) }
        ensures { Reads (read guided self.now.parser.depth procedures.more_factors tokens.old)
            result tokens.new }
    {
        let mut found = Items::new(self.parser.alloc);
        for _turn in 0..tokens.turns() {
            if !tokens.peek_is(&[Kind::Star]) {
                return Ok(found);
            }
            tokens.expect(Kind::Star)?;
            let place = tokens.place();
            let expression = self.unary(tokens)?;
            found.push(Operand { place, expression })?;
        }
        Err(Fault::Deep)
    }

    #[tactic(auto, unfolding(qs_syntax_tree::specs::inner::Procedures::product))]
    fn product(&self, tokens: &mut Tokens<'_>) -> Result<Expression, Fault>
        requires { Nests self.now.parser (F.pre self.now.expression) (F.post self.now.expression) }
        ensures { Reads (read guided self.now.parser.depth procedures.product tokens.old) result
            tokens.new }
    {
        let place = tokens.place();
        let expression = self.unary(tokens)?;
        let (expression, others) = keep_beside(expression, self.more_factors(tokens))?;
        Ok(product(self.parser.alloc, Operand { place, expression }, others)?)
    }

    #[tactic(auto, unfolding(qs_syntax_tree::specs::inner::Procedures::signed_product))]
    fn signed_product(&self, tokens: &mut Tokens<'_>) -> Result<Expression, Fault>
        requires { Nests self.now.parser (F.pre self.now.expression) (F.post self.now.expression) }
        ensures { Reads (read guided self.now.parser.depth procedures.signed_product tokens.old)
            result tokens.new }
    {
        let place = tokens.place();
        let signed = tokens.expect(Kind::Signed)?.span;
        let factors = self.more_factors(tokens)?;
        let expression = Expression::Literal(Literal::Integer(signed));
        Ok(product(self.parser.alloc, Operand { place, expression }, factors)?)
    }

    #[tactic(auto, unfolding(qs_syntax_tree::specs::inner::Procedures::addend))]
    fn addend(&self, tokens: &mut Tokens<'_>) -> Result<Addend, Fault>
        requires { Nests self.now.parser (F.pre self.now.expression) (F.post self.now.expression) }
        ensures { Reads (read guided self.now.parser.depth procedures.addend tokens.old) result
            tokens.new }
    {
        if tokens.peek_is(&[Kind::Plus]) {
            tokens.expect(Kind::Plus)?;
            let place = tokens.place();
            let expression = self.product(tokens)?;
            return Ok(Addend {
                sign: Sign::Plus,
                operand: Operand { place, expression },
            });
        }
        if tokens.peek_is(&[Kind::Hyphen]) {
            tokens.expect(Kind::Hyphen)?;
            let place = tokens.place();
            let expression = self.product(tokens)?;
            return Ok(Addend {
                sign: Sign::Minus,
                operand: Operand { place, expression },
            });
        }
        let place = tokens.place();
        let expression = self.signed_product(tokens)?;
        Ok(Addend {
            sign: Sign::Plus,
            operand: Operand { place, expression },
        })
    }

    fn addends(&self, tokens: &mut Tokens<'_>) -> Result<Items<Addend>, Fault>
        requires { Nests self.now.parser (F.pre self.now.expression) (F.post self.now.expression) }
        ensures { Reads (read guided self.now.parser.depth procedures.addends tokens.old) result
            tokens.new }
    {
        let mut found = Items::new(self.parser.alloc);
        for _turn in 0..tokens.turns() {
            if !tokens.peek_is(&[Kind::Plus, Kind::Hyphen, Kind::Signed]) {
                return Ok(found);
            }
            let next = self.addend(tokens)?;
            found.push(next)?;
        }
        Err(Fault::Deep)
    }

    #[tactic(auto, unfolding(qs_syntax_tree::specs::inner::Procedures::additive))]
    fn additive(&self, tokens: &mut Tokens<'_>) -> Result<Expression, Fault>
        requires { Nests self.now.parser (F.pre self.now.expression) (F.post self.now.expression) }
        ensures { Reads (read guided self.now.parser.depth procedures.additive tokens.old) result
            tokens.new }
    {
        let place = tokens.place();
        let expression = self.product(tokens)?;
        let (expression, addends) = keep_beside(expression, self.addends(tokens))?;
        Ok(sum(self.parser.alloc, Operand { place, expression }, addends)?)
    }

    #[tactic(auto, using(crate::proofs::FirstKinds::first_comparison, crate::proofs::FirstKinds::nullable_comparison), unfolding(qs_syntax_tree::specs::inner::Procedures::relation))]
    fn relation(&self, tokens: &mut Tokens<'_>) -> Result<Relation, Fault>
        requires { Nests self.now.parser (F.pre self.now.expression) (F.post self.now.expression) }
        ensures { Reads (read guided self.now.parser.depth procedures.relation tokens.old) result
            tokens.new }
    {
        if tokens.peek_is(&COMPARISONS) {
            let comparison = self.parser.comparison(tokens)?;
            return Ok(Relation::Compared(comparison, self.additive(tokens)?));
        }
        if tokens.peek_is(&[Kind::Not]) {
            tokens.expect(Kind::Not)?;
            tokens.expect(Kind::In)?;
            return Ok(Relation::NotAmong(self.list(tokens)?));
        }
        tokens.expect(Kind::In)?;
        Ok(Relation::Among(self.list(tokens)?))
    }

    #[tactic(auto, using(crate::proofs::FirstKinds::first_relation))]
    fn relation_after(&self, tokens: &mut Tokens<'_>) -> Result<Option<Relation>, Fault>
        requires { Nests self.now.parser (F.pre self.now.expression) (F.post self.now.expression) }
        ensures { Reads (read guided self.now.parser.depth (opt procedures.relation) tokens.old)
            result tokens.new }
    {
        if !tokens.peek_is(&RELATIONS) {
            return Ok(None);
        }
        Ok(Some(self.relation(tokens)?))
    }

    #[tactic(auto, unfolding(qs_syntax_tree::specs::inner::Procedures::relational))]
    fn relational(&self, tokens: &mut Tokens<'_>) -> Result<Expression, Fault>
        requires { Nests self.now.parser (F.pre self.now.expression) (F.post self.now.expression) }
        ensures { Reads (read guided self.now.parser.depth procedures.relational tokens.old) result
            tokens.new }
    {
        let first = self.additive(tokens)?;
        let (first, relation) = keep_beside(first, self.relation_after(tokens))?;
        Ok(with_relation(self.parser.alloc, first, relation)?)
    }

    fn more_relationals(&self, tokens: &mut Tokens<'_>) -> Result<Items<Operand>, Fault>
        requires { Nests self.now.parser (F.pre self.now.expression) (F.post self.now.expression) }
        ensures { Reads (read guided self.now.parser.depth procedures.more_relationals tokens.old)
            result tokens.new }
    {
        let mut found = Items::new(self.parser.alloc);
        for _turn in 0..tokens.turns() {
            if !tokens.peek_is(&[Kind::AndAnd]) {
                return Ok(found);
            }
            tokens.expect(Kind::AndAnd)?;
            let place = tokens.place();
            let expression = self.relational(tokens)?;
            found.push(Operand { place, expression })?;
        }
        Err(Fault::Deep)
    }

    #[tactic(auto, unfolding(qs_syntax_tree::specs::inner::Procedures::conjunction))]
    fn conjunction(&self, tokens: &mut Tokens<'_>) -> Result<Expression, Fault>
        requires { Nests self.now.parser (F.pre self.now.expression) (F.post self.now.expression) }
        ensures { Reads (read guided self.now.parser.depth procedures.conjunction tokens.old) result
            tokens.new }
    {
        let place = tokens.place();
        let expression = self.relational(tokens)?;
        let (expression, others) = keep_beside(expression, self.more_relationals(tokens))?;
        Ok(and(self.parser.alloc, Operand { place, expression }, others)?)
    }

    fn more_conjunctions(&self, tokens: &mut Tokens<'_>) -> Result<Items<Operand>, Fault>
        requires { Nests self.now.parser (F.pre self.now.expression) (F.post self.now.expression) }
        ensures { Reads (read guided self.now.parser.depth procedures.more_conjunctions tokens.old)
            result tokens.new }
    {
        let mut found = Items::new(self.parser.alloc);
        for _turn in 0..tokens.turns() {
            if !tokens.peek_is(&[Kind::OrOr]) {
                return Ok(found);
            }
            tokens.expect(Kind::OrOr)?;
            let place = tokens.place();
            let expression = self.conjunction(tokens)?;
            found.push(Operand { place, expression })?;
        }
        Err(Fault::Deep)
    }

    #[tactic(auto, unfolding(qs_syntax_tree::specs::inner::Procedures::expression_rule))]
    pub fn disjunction(&self, tokens: &mut Tokens<'_>) -> Result<Expression, Fault>
        requires { Nests self.now.parser (F.pre self.now.expression) (F.post self.now.expression) }
        ensures { Reads (read guided self.now.parser.depth procedures.expression_rule tokens.old)
            result tokens.new }
    {
        let place = tokens.place();
        let expression = self.conjunction(tokens)?;
        let (expression, others) = keep_beside(expression, self.more_conjunctions(tokens))?;
        Ok(or(self.parser.alloc, Operand { place, expression }, others)?)
    }
}
