//! The tables of VALUES.

ghost use Rattle.qs_syntax_resolve.specs.Data as spec;
ghost use Rattle.qs_syntax_resolve.specs.inner.Data as inner;
ghost use Rattle.qs_syntax_resolve.specs.inner.Resolving.{Resolves};

use crate::resolver::Resolver;
use qs_syntax_ast::pattern::InlineData;
use qs_syntax_ast::term::Variable;
use qs_syntax_tree::pattern::{DataValue, InlineData as WrittenData};
use qs_syntax_tree::token::Span;
use qs_terms::{QFault, Term};
use sqlite_items::Items;
use std::alloc::Global;

impl<'a> Resolver<'a> {
    fn data_value(&mut self, alloc: Global, value: DataValue) -> Result<Option<Term>, QFault>
        ensures { Resolves (spec.value_of value self.old) result self.new }
    {
        match value {
            DataValue::Iri(iri) => Ok(Some(Term::Iri(self.iri(iri)?))),
            DataValue::Literal(literal) => Ok(Some(Term::Literal(self.literal(alloc, literal)?))),
            DataValue::Undefined => Ok(None),
        }
    }

    #[tactic(auto, unfolding(crate::specs::Data::row_of))]
    fn data_row(&mut self, alloc: Global, row: &[DataValue]) -> Result<Items<Option<Term>>, QFault>
        ensures { Resolves (spec.row_of row.now self.old) result self.new }
    {
        let mut found = Items::new(alloc);
        for value in row {
            let next = self.data_value(alloc, *value)?;
            found.push(next)?;
        }
        Ok(found)
    }

    fn data_rows(
        &mut self,
        alloc: Global,
        rows: &[Items<DataValue>],
    ) -> Result<Items<Items<Option<Term>>>, QFault>
        ensures { Resolves (inner.rows_of rows.now self.old) result self.new }
    {
        let mut found = Items::new(alloc);
        for row in rows {
            let next = self.data_row(alloc, row.as_slice())?;
            found.push(next)?;
        }
        Ok(found)
    }

    pub fn variables(&mut self, alloc: Global, spans: &[Span]) -> Result<Items<Variable>, QFault>
        ensures { Resolves (inner.variables_of spans.now self.old) result self.new }
    {
        let mut found = Items::new(alloc);
        for span in spans {
            let next = self.variable(*span)?;
            found.push(next)?;
        }
        Ok(found)
    }

    #[tactic(auto, unfolding(crate::specs::Data::inline_data))]
    pub fn inline_data(&mut self, alloc: Global, table: &WrittenData) -> Result<InlineData, QFault>
        ensures { Resolves (spec.inline_data table.now self.old) result self.new }
    {
        let variables = self.variables(alloc, table.variables.as_slice())?;
        let rows = self.data_rows(alloc, table.rows.as_slice())?;
        Ok(InlineData { variables, rows })
    }
}
