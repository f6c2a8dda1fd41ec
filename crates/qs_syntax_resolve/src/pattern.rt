//! Group graph patterns.

ghost use Rattle.qs_syntax_resolve.specs.Pattern as spec;
ghost use Rattle.qs_syntax_resolve.specs.inner.Pattern as inner_spec;
ghost use Rattle.qs_syntax_resolve.specs.inner.Resolving.{Resolves, Changes};

use crate::open_group::OpenGroup;
use crate::resolver::Resolver;
use qs_base::keep_beside;
use qs_syntax_ast::pattern::{GraphPattern, Group};
use qs_syntax_tree::expression::Expression as WrittenExpression;
use qs_syntax_tree::pattern::{
    Element, GraphPattern as WrittenPattern, Group as WrittenGroup, InlineData as WrittenData,
};
use qs_syntax_tree::token::Span;
use qs_syntax_tree::triples::TriplesSameSubject;
use qs_terms::QFault;
use sqlite_items::Items;
use std::alloc::Global;

impl<'a> Resolver<'a> {
    fn put_triples(
        &mut self,
        alloc: Global,
        group: &mut OpenGroup,
        triples: &[TriplesSameSubject],
    ) -> Result<(), QFault>
        ensures { Changes (inner_spec.triples_pattern triples.now group.old self.old) result
            group.new self.new }
    {
        self.triples(alloc, &mut group.triples, triples)
    }

    fn put_filter(
        &mut self,
        alloc: Global,
        group: &mut OpenGroup,
        filter: &WrittenExpression,
    ) -> Result<(), QFault>
        ensures { Changes (inner_spec.filter_pattern filter.now group.old self.old) result group.new
            self.new }
    {
        let filter = self.expression(alloc, filter)?;
        Ok(group.put_filter(filter)?)
    }

    fn put_bind(
        &mut self,
        alloc: Global,
        group: &mut OpenGroup,
        expression: &WrittenExpression,
        variable: Span,
    ) -> Result<(), QFault>
        ensures { Changes (inner_spec.bind_pattern expression.now variable group.old self.old)
            result group.new self.new }
    {
        let expression = self.expression(alloc, expression)?;
        let (expression, variable) = keep_beside(expression, self.variable(variable))?;
        Ok(group.put(alloc, GraphPattern::Bind(expression, variable))?)
    }

    fn put_values(
        &mut self,
        alloc: Global,
        group: &mut OpenGroup,
        table: &WrittenData,
    ) -> Result<(), QFault>
        ensures { Changes (inner_spec.values_pattern table.now group.old self.old) result group.new
            self.new }
    {
        let table = self.inline_data(alloc, table)?;
        Ok(group.put(alloc, GraphPattern::Values(table))?)
    }

    #[cycle(group)]
    #[tactic(auto, using(crate::proofs::PatternEquations::triples_is, crate::proofs::PatternEquations::union_is, crate::proofs::PatternEquations::optional_is, crate::proofs::PatternEquations::minus_is, crate::proofs::PatternEquations::graph_is, crate::proofs::PatternEquations::filter_is, crate::proofs::PatternEquations::bind_is, crate::proofs::PatternEquations::values_is))]
    fn put_pattern(
        &mut self,
        alloc: Global,
        group: &mut OpenGroup,
        pattern: &WrittenPattern,
    ) -> Result<(), QFault>
        ensures { Changes (inner_spec.pattern_of pattern.now group.old self.old) result group.new
            self.new }
    {
        match pattern {
            WrittenPattern::Triples(triples) => self.put_triples(alloc, group, triples.as_slice()),
            WrittenPattern::Union(operands) => {
                let operands = self.groups(alloc, operands.as_slice())?;
                Ok(group.put(alloc, GraphPattern::Union(operands))?)
            }
            WrittenPattern::Optional(inner) => {
                let inner = self.group(alloc, inner)?;
                Ok(group.put(alloc, GraphPattern::Optional(inner))?)
            }
            WrittenPattern::Minus(inner) => {
                let inner = self.group(alloc, inner)?;
                Ok(group.put(alloc, GraphPattern::Minus(inner))?)
            }
            WrittenPattern::Graph(name, inner) => {
                let name = self.var_or_iri(*name)?;
                let (name, inner) = keep_beside(name, self.group(alloc, inner))?;
                Ok(group.put(alloc, GraphPattern::Graph(name, inner))?)
            }
            WrittenPattern::Filter(filter) => self.put_filter(alloc, group, filter),
            WrittenPattern::Bind(expression, variable) => self.put_bind(
                alloc, group, expression, *variable,
            ),
            WrittenPattern::Values(table) => self.put_values(alloc, group, table),
        }
    }

    #[cycle(group)]
    #[tactic(auto, using(crate::proofs::PatternEquations::element_is))]
    fn put_element(
        &mut self,
        alloc: Global,
        group: &mut OpenGroup,
        element: &Element,
    ) -> Result<(), QFault>
        ensures { Changes (inner_spec.element_of element.now group.old self.old) result group.new
            self.new }
    {
        self.put_pattern(alloc, group, &element.pattern)
    }

    #[cycle(group)]
    fn put_elements(
        &mut self,
        alloc: Global,
        group: &mut OpenGroup,
        all: &[Element],
    ) -> Result<(), QFault>
        ensures { Changes (inner_spec.elements group.old all.now self.old) result group.new
            self.new }
    {
        for element in all {
            self.put_element(alloc, group, element)?;
        }
        Ok(())
    }

    #[cycle(group)]
    #[tactic(auto, using(crate::proofs::PatternEquations::group_is))]
    pub fn group(&mut self, alloc: Global, group: &WrittenGroup) -> Result<Group, QFault>
        ensures { Resolves (spec.group_of group.now self.old) result self.new }
    {
        let mut open = OpenGroup::new(alloc);
        self.put_elements(alloc, &mut open, group.elements.as_slice())?;
        Ok(open.finish()?)
    }

    #[cycle(group)]
    fn groups(&mut self, alloc: Global, all: &[WrittenGroup]) -> Result<Items<Group>, QFault>
        ensures { Resolves (inner_spec.groups all.now self.old) result self.new }
    {
        let mut found = Items::new(alloc);
        for group in all {
            let next = self.group(alloc, group)?;
            found.push(next)?;
        }
        Ok(found)
    }
}
