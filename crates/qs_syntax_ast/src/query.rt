//! Queries (SPARQL 1.1 Query, 15 and 16).

use crate::expression::Expression;
use crate::pattern::{Group, InlineData, Triple};
use crate::term::Variable;
use qs_syntax_tree::query::{Direction, Duplicates};
use sqlite_items::Items;

#[derive(Drop)]
pub struct Query {
    pub form: QueryForm,
    /// The trailing VALUES.
    pub values: Option<InlineData>,
    /// The variables of the text, in its order. In a parsed query each stands once, where it first appears.
    pub variables: Items<Variable>,
}

#[derive(Drop)]
pub enum QueryForm {
    Select(Select),
    Construct(Construct),
    Ask(Ask),
}

#[derive(Drop)]
pub struct Select {
    pub duplicates: Duplicates,
    pub projection: Projection,
    pub pattern: Group,
    pub modifiers: SolutionModifiers,
}

#[derive(Drop)]
pub enum Projection {
    /// `*`
    All,
    Items(Items<SelectItem>),
}

#[derive(Drop)]
pub enum SelectItem {
    Variable(Variable),
    /// `( .. AS .. )`
    As(Expression, Variable),
}

#[derive(Drop)]
pub struct Construct {
    pub template: Items<Triple>,
    /// None in the short form, where the template is the pattern too.
    pub pattern: Option<Group>,
    pub modifiers: SolutionModifiers,
}

#[derive(Drop)]
pub struct Ask {
    pub pattern: Group,
    pub modifiers: SolutionModifiers,
}

#[derive(Drop)]
pub struct SolutionModifiers {
    pub order: Items<OrderCondition>,
    /// A count past 64 bits is the greatest.
    pub limit: Option<u64>,
    pub offset: Option<u64>,
}

#[derive(Drop)]
pub struct OrderCondition {
    pub direction: Direction,
    pub key: Expression,
}
