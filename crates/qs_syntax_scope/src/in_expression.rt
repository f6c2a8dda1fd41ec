//! The variables of expressions.

ghost use Rattle.std.specs.Prelude.{◌≡◌, ◌++◌, OnOk};
ghost use Rattle.qs_syntax_scope.specs.inner.VariablesIn as spec;

use crate::name_list::NameList;
use crate::scope::push_variable;
use qs_syntax_ast::expression::{Addend, Expression};
use std::alloc::AllocError;

/// Adds the variables that stand in the expression.
#[cycle(expression)]
pub fn push_expression<'a>(
    names: &mut NameList<'a>,
    expression: &'a Expression,
) -> Result<(), AllocError>
    ensures { OnOk result (names.new ≡ names.old ++ spec.in_expression expression.now) }
{
    match expression {
        Expression::Variable(variable) | Expression::Bound(variable) => {
            push_variable(names, variable)
        }
        Expression::Iri(_) | Expression::Literal(_) => Ok(()),
        Expression::Or(all) | Expression::And(all) | Expression::Product(all) => {
            push_expressions(names, all.as_slice())
        }
        Expression::Coalesce(all) | Expression::Concat(all) => {
            push_expressions(names, all.as_slice())
        }
        Expression::Compare(_, one, two) | Expression::Binary(_, one, two) => {
            push_expression(names, one.get())?;
            push_expression(names, two.get())
        }
        Expression::In(one, all) | Expression::NotIn(one, all) => {
            push_expression(names, one.get())?;
            push_expressions(names, all.as_slice())
        }
        Expression::Sum(one, addends) => {
            push_expression(names, one.get())?;
            push_addends(names, addends.as_slice())
        }
        Expression::Not(one) | Expression::Signed(_, one) | Expression::Unary(_, one) => {
            push_expression(names, one.get())
        }
        Expression::If(test, one, two) => {
            push_expression(names, test.get())?;
            push_expression(names, one.get())?;
            push_expression(names, two.get())
        }
    }
}

/// Adds the variables that stand in the expressions.
#[cycle(expression)]
pub fn push_expressions<'a>(
    names: &mut NameList<'a>,
    all: &'a [Expression],
) -> Result<(), AllocError>
    ensures { OnOk result (names.new ≡ names.old ++ spec.in_expressions all.now) }
{
    for one in all {
        push_expression(names, one)?;
    }
    Ok(())
}

#[cycle(expression)]
fn push_addends<'a>(names: &mut NameList<'a>, all: &'a [Addend]) -> Result<(), AllocError>
    ensures { OnOk result (names.new ≡ names.old ++ spec.in_addends all.now) }
{
    for one in all {
        push_expression(names, &one.operand)?;
    }
    Ok(())
}
