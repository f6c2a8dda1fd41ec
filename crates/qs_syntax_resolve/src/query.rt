//! Queries.
//!
//! The short CONSTRUCT keeps its template alone, and who reads the query takes it as the pattern too. Its template is a run for
//! labels; other templates are none.

ghost use Rattle.std.specs.Prelude.{[]};
ghost use Rattle.qs_syntax_resolve.specs.Query as spec;
ghost use Rattle.qs_syntax_resolve.specs.inner.Query as inner;
ghost use Rattle.qs_syntax_resolve.specs.inner.Resolving.{Resolves};
ghost use Rattle.qs_syntax_resolve.specs.Triples.{triples_after};

use crate::resolver::Resolver;
use qs_base::keep_beside;
use qs_syntax_ast::pattern::{Group, InlineData, Triple};
use qs_syntax_ast::query::{
    Ask, Construct, OrderCondition, Projection, Query, QueryForm, Select, SelectItem,
    SolutionModifiers,
};
use qs_syntax_tree::pattern::{Group as WrittenGroup, InlineData as WrittenData};
use qs_syntax_tree::query::{
    Ask as WrittenAsk, Construct as WrittenConstruct, OrderCondition as WrittenOrder,
    PrefixDeclaration, Projection as WrittenProjection, Query as WrittenQuery,
    QueryForm as WrittenForm, Select as WrittenSelect, SelectItem as WrittenItem,
    SolutionModifiers as WrittenModifiers,
};
use qs_syntax_tree::token::Span;
use qs_syntax_tree::triples::TriplesSameSubject;
use qs_terms::QFault;
use sqlite_items::Items;
use std::alloc::Global;

impl<'a> Resolver<'a> {
    fn declaration(&mut self, declaration: &PrefixDeclaration) -> Result<(), QFault>
        ensures { Resolves (spec.declaration declaration.now self.old) result self.new }
    {
        self.names.declare(declaration)
    }

    pub fn prologue(&mut self, all: &[PrefixDeclaration]) -> Result<(), QFault>
        ensures { Resolves (spec.prologue all.now self.old) result self.new }
    {
        for declaration in all {
            self.declaration(declaration)?;
        }
        Ok(())
    }

    fn order(&mut self, alloc: Global, order: &WrittenOrder) -> Result<OrderCondition, QFault>
        ensures { Resolves (spec.order_of order.now self.old) result self.new }
    {
        let key = self.expression(alloc, &order.key)?;
        Ok(OrderCondition {
            direction: order.direction,
            key,
        })
    }

    fn orders(
        &mut self,
        alloc: Global,
        all: &[WrittenOrder],
    ) -> Result<Items<OrderCondition>, QFault>
        ensures { Resolves (inner.orders all.now self.old) result self.new }
    {
        let mut found = Items::new(alloc);
        for order in all {
            let next = self.order(alloc, order)?;
            found.push(next)?;
        }
        Ok(found)
    }

    fn count(&mut self, span: Option<Span>) -> Result<Option<u64>, QFault>
        ensures { Resolves (inner.count_of span self.old) result self.new }
    {
        match span {
            None => Ok(None),
            Some(span) => Ok(Some(self.names.count(span))),
        }
    }

    #[tactic(auto, unfolding(crate::specs::Query::modifiers))]
    fn modifiers(
        &mut self,
        alloc: Global,
        modifiers: &WrittenModifiers,
    ) -> Result<SolutionModifiers, QFault>
        ensures { Resolves (spec.modifiers modifiers.now self.old) result self.new }
    {
        let order = self.orders(alloc, modifiers.order.as_slice())?;
        let limit = self.count(modifiers.limit)?;
        let offset = self.count(modifiers.offset)?;
        Ok(SolutionModifiers {
            order,
            limit,
            offset,
        })
    }

    fn item(&mut self, alloc: Global, item: &WrittenItem) -> Result<SelectItem, QFault>
        ensures { Resolves (spec.item_of item.now self.old) result self.new }
    {
        match item {
            WrittenItem::Var(span) => Ok(SelectItem::Variable(self.variable(*span)?)),
            WrittenItem::As(expression, span) => {
                let expression = self.expression(alloc, expression)?;
                let (expression, variable) = keep_beside(expression, self.variable(*span))?;
                Ok(SelectItem::As(expression, variable))
            }
        }
    }

    fn items(&mut self, alloc: Global, all: &[WrittenItem]) -> Result<Items<SelectItem>, QFault>
        ensures { Resolves (inner.items all.now self.old) result self.new }
    {
        let mut found = Items::new(alloc);
        for item in all {
            let next = self.item(alloc, item)?;
            found.push(next)?;
        }
        Ok(found)
    }

    #[tactic(auto, unfolding(crate::specs::Query::projection_of))]
    fn projection(
        &mut self,
        alloc: Global,
        projection: &WrittenProjection,
    ) -> Result<Projection, QFault>
        ensures { Resolves (spec.projection_of projection.now self.old) result self.new }
    {
        match projection {
            WrittenProjection::All => Ok(Projection::All),
            WrittenProjection::Items(all) => {
                let items = self.items(alloc, all.as_slice())?;
                Ok(Projection::Items(items))
            }
        }
    }

    #[tactic(auto, unfolding(crate::specs::Query::select))]
    fn select(&mut self, alloc: Global, query: &WrittenSelect) -> Result<Select, QFault>
        ensures { Resolves (spec.select query.now self.old) result self.new }
    {
        let projection = self.projection(alloc, &query.projection)?;
        let head = keep_beside(projection, self.group(alloc, &query.pattern))?;
        let ((projection, pattern), modifiers) = keep_beside(
            head,
            self.modifiers(alloc, &query.modifiers),
        )?;
        Ok(Select {
            duplicates: query.duplicates,
            projection,
            pattern,
            modifiers,
        })
    }

    pub fn template(
        &mut self,
        alloc: Global,
        triples: &[TriplesSameSubject],
    ) -> Result<Items<Triple>, QFault>
        ensures { Resolves (triples_after [] triples.now self.old) result self.new }
    {
        let mut found = Items::from_vec(Vec::with_capacity(alloc, triples.len())?);
        self.triples(alloc, &mut found, triples)?;
        Ok(found)
    }

    fn optional_pattern(
        &mut self,
        alloc: Global,
        pattern: &Option<WrittenGroup>,
    ) -> Result<Option<Group>, QFault>
        ensures { Resolves (inner.pattern_of pattern.now self.old) result self.new }
    {
        match pattern {
            None => Ok(None),
            Some(group) => Ok(Some(self.group(alloc, group)?)),
        }
    }

    #[tactic(auto, unfolding(crate::specs::Query::construct))]
    fn construct(&mut self, alloc: Global, query: &WrittenConstruct) -> Result<Construct, QFault>
        ensures { Resolves (spec.construct query.now self.old) result self.new }
    {
        let template = self.template(alloc, query.template.as_slice())?;
        let head = keep_beside(template, self.optional_pattern(alloc, &query.pattern))?;
        let ((template, pattern), modifiers) = keep_beside(
            head,
            self.modifiers(alloc, &query.modifiers),
        )?;
        Ok(Construct {
            template,
            pattern,
            modifiers,
        })
    }

    #[tactic(auto, unfolding(crate::specs::Query::ask))]
    fn ask(&mut self, alloc: Global, query: &WrittenAsk) -> Result<Ask, QFault>
        ensures { Resolves (spec.ask query.now self.old) result self.new }
    {
        let pattern = self.group(alloc, &query.pattern)?;
        let (pattern, modifiers) = keep_beside(pattern, self.modifiers(alloc, &query.modifiers))?;
        Ok(Ask { pattern, modifiers })
    }

    #[tactic(auto, unfolding(crate::specs::Query::form_of))]
    fn form(&mut self, alloc: Global, form: &WrittenForm) -> Result<QueryForm, QFault>
        ensures { Resolves (spec.form_of form.now self.old) result self.new }
    {
        match form {
            WrittenForm::Select(query) => {
                let query = self.select(alloc, query)?;
                Ok(QueryForm::Select(query))
            }
            WrittenForm::Construct(query) => {
                let query = self.construct(alloc, query)?;
                Ok(QueryForm::Construct(query))
            }
            WrittenForm::Ask(query) => {
                let query = self.ask(alloc, query)?;
                Ok(QueryForm::Ask(query))
            }
        }
    }

    fn trailing(
        &mut self,
        alloc: Global,
        values: &Option<WrittenData>,
    ) -> Result<Option<InlineData>, QFault>
        ensures { Resolves (inner.trailing values.now self.old) result self.new }
    {
        match values {
            None => Ok(None),
            Some(table) => Ok(Some(self.inline_data(alloc, table)?)),
        }
    }

    /// The query, with the variables that were read.
    #[tactic(auto, unfolding(crate::specs::Query::query))]
    pub fn query(&mut self, alloc: Global, query: &WrittenQuery) -> Result<Query, QFault>
        ensures { Resolves (spec.query query.now self.old) result self.new }
    {
        self.prologue(query.prologue.as_slice())?;
        let form = self.form(alloc, &query.form)?;
        let head = keep_beside(form, self.trailing(alloc, &query.values))?;
        let ((form, values), variables) = keep_beside(head, self.variables_since(alloc, 0))?;
        Ok(Query {
            form,
            values,
            variables,
        })
    }
}
