//! Expressions.

ghost use Rattle.qs_syntax_resolve.specs.Expression as spec;
ghost use Rattle.qs_syntax_resolve.specs.inner.Expression as inner;
ghost use Rattle.qs_syntax_resolve.specs.inner.Resolving.{Resolves};

use crate::resolver::Resolver;
use qs_syntax_ast::expression::{Addend, Expression};
use qs_syntax_tree::expression::{
    Addend as WrittenAddend, Call as WrittenCall, Expression as WrittenExpression, Operand,
};
use qs_terms::QFault;
use sqlite_items::{Boxed, Items};
use std::alloc::Global;

impl<'a> Resolver<'a> {
    #[cycle(expression)]
    #[tactic(auto, using(crate::proofs::Equations::bound_is, crate::proofs::Equations::if_is, crate::proofs::Equations::coalesce_is, crate::proofs::Equations::concat_is, crate::proofs::Equations::unary_is, crate::proofs::Equations::binary_is))]
    fn call(&mut self, alloc: Global, call: &WrittenCall) -> Result<Expression, QFault>
        ensures { Resolves (inner.call_of call.now self.old) result self.new }
    {
        match call {
            WrittenCall::Bound(span) => match self.variable(*span) {
                Ok(found) => Ok(Expression::Bound(found)),
                Err(fault) => Err(fault),
            },
            WrittenCall::If(test, then, otherwise) => {
                let test = self.boxed(alloc, test.get())?;
                let then = self.boxed(alloc, then.get())?;
                let otherwise = self.boxed(alloc, otherwise.get())?;
                Ok(Expression::If(test, then, otherwise))
            }
            WrittenCall::Coalesce(list) => match self.list(alloc, list.as_slice()) {
                Ok(found) => Ok(Expression::Coalesce(found)),
                Err(fault) => Err(fault),
            },
            WrittenCall::Concat(list) => match self.list(alloc, list.as_slice()) {
                Ok(found) => Ok(Expression::Concat(found)),
                Err(fault) => Err(fault),
            },
            WrittenCall::Unary(function, argument) => match self.boxed(alloc, argument.get()) {
                Ok(found) => Ok(Expression::Unary(*function, found)),
                Err(fault) => Err(fault),
            },
            WrittenCall::Binary(function, first, second) => {
                let first = self.boxed(alloc, first.get())?;
                let second = self.boxed(alloc, second.get())?;
                Ok(Expression::Binary(*function, first, second))
            }
        }
    }

    #[cycle(expression)]
    fn boxed(
        &mut self,
        alloc: Global,
        expression: &WrittenExpression,
    ) -> Result<Boxed<Expression>, QFault>
        ensures { Resolves (spec.expression_of expression.now self.old) result self.new }
    {
        let expression = self.expression(alloc, expression)?;
        Ok(Boxed::new(alloc, expression)?)
    }

    #[cycle(expression)]
    #[tactic(auto, using(crate::proofs::Equations::or_is, crate::proofs::Equations::and_is, crate::proofs::Equations::product_is, crate::proofs::Equations::call_is, crate::proofs::Equations::in_is, crate::proofs::Equations::not_in_is, crate::proofs::Equations::sum_is), unfolding(crate::specs::Expression::expression_of))]
    pub fn expression(
        &mut self,
        alloc: Global,
        expression: &WrittenExpression,
    ) -> Result<Expression, QFault>
        ensures { Resolves (spec.expression_of expression.now self.old) result self.new }
    {
        match expression {
            WrittenExpression::Var(span) => match self.variable(*span) {
                Ok(found) => Ok(Expression::Variable(found)),
                Err(fault) => Err(fault),
            },
            WrittenExpression::Iri(iri) => match self.iri(*iri) {
                Ok(found) => Ok(Expression::Iri(found)),
                Err(fault) => Err(fault),
            },
            WrittenExpression::Literal(literal) => match self.literal(alloc, *literal) {
                Ok(found) => Ok(Expression::Literal(found)),
                Err(fault) => Err(fault),
            },
            WrittenExpression::Call(call) => self.call(alloc, call),
            WrittenExpression::Or(operands) => match self.expression_operands(
                alloc,
                operands.as_slice(),
            ) {
                Ok(found) => Ok(Expression::Or(found)),
                Err(fault) => Err(fault),
            },
            WrittenExpression::And(operands) => match self.expression_operands(
                alloc,
                operands.as_slice(),
            ) {
                Ok(found) => Ok(Expression::And(found)),
                Err(fault) => Err(fault),
            },
            WrittenExpression::Compare(comparison, first, second) => {
                let first = self.boxed(alloc, first.get())?;
                let second = self.boxed(alloc, second.get())?;
                Ok(Expression::Compare(*comparison, first, second))
            }
            WrittenExpression::In(value, list) => {
                let value = self.boxed(alloc, value.get())?;
                let list = self.list(alloc, list.as_slice())?;
                Ok(Expression::In(value, list))
            }
            WrittenExpression::NotIn(value, list) => {
                let value = self.boxed(alloc, value.get())?;
                let list = self.list(alloc, list.as_slice())?;
                Ok(Expression::NotIn(value, list))
            }
            WrittenExpression::Sum(first, others) => {
                let first = self.operand(alloc, first.get())?;
                let others = self.addends(alloc, others.as_slice())?;
                Ok(Expression::Sum(first, others))
            }
            WrittenExpression::Product(operands) => match self.expression_operands(
                alloc,
                operands.as_slice(),
            ) {
                Ok(found) => Ok(Expression::Product(found)),
                Err(fault) => Err(fault),
            },
            WrittenExpression::Not(operand) => match self.boxed(alloc, operand.get()) {
                Ok(found) => Ok(Expression::Not(found)),
                Err(fault) => Err(fault),
            },
            WrittenExpression::Signed(sign, operand) => match self.boxed(alloc, operand.get()) {
                Ok(found) => Ok(Expression::Signed(*sign, found)),
                Err(fault) => Err(fault),
            },
        }
    }

    #[cycle(expression)]
    #[tactic(auto, using(crate::proofs::Equations::operand_is))]
    fn operand(&mut self, alloc: Global, operand: &Operand) -> Result<Boxed<Expression>, QFault>
        ensures { Resolves (inner.operand_of operand.now self.old) result self.new }
    {
        self.boxed(alloc, &operand.expression)
    }

    #[cycle(expression)]
    #[tactic(auto, using(crate::proofs::Equations::addend_is))]
    fn addend(&mut self, alloc: Global, addend: &WrittenAddend) -> Result<Addend, QFault>
        ensures { Resolves (inner.addend_of addend.now self.old) result self.new }
    {
        let operand = self.expression(alloc, &addend.operand.expression)?;
        Ok(Addend {
            sign: addend.sign,
            operand,
        })
    }

    #[cycle(expression)]
    fn addends(&mut self, alloc: Global, all: &[WrittenAddend]) -> Result<Items<Addend>, QFault>
        ensures { Resolves (inner.addends all.now self.old) result self.new }
    {
        let mut found = Items::new(alloc);
        for addend in all {
            let next = self.addend(alloc, addend)?;
            found.push(next)?;
        }
        Ok(found)
    }

    #[cycle(expression)]
    fn expression_operands(
        &mut self,
        alloc: Global,
        all: &[Operand],
    ) -> Result<Items<Expression>, QFault>
        ensures { Resolves (inner.operands all.now self.old) result self.new }
    {
        let mut found = Items::new(alloc);
        for operand in all {
            let next = self.expression(alloc, &operand.expression)?;
            found.push(next)?;
        }
        Ok(found)
    }

    #[cycle(expression)]
    fn list(
        &mut self,
        alloc: Global,
        all: &[WrittenExpression],
    ) -> Result<Items<Expression>, QFault>
        ensures { Resolves (inner.list all.now self.old) result self.new }
    {
        let mut found = Items::new(alloc);
        for member in all {
            let next = self.expression(alloc, member)?;
            found.push(next)?;
        }
        Ok(found)
    }
}
