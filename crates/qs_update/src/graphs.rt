//! Names of graphs.

ghost use Rattle.std.specs.Prelude.{◌≡◌, IsTrue, IfOk};
ghost use Rattle.std.specs.Option.{option_copied};
ghost use Rattle.qs_terms.specs.Statement.{same_graph};
ghost use Rattle.qs_terms.specs.inner.Dataset.{is_graph};
ghost use Rattle.qs_terms.specs.declared.term.Term.TheVariants as value;
ghost use Rattle.qs_update.specs.Graphs as spec;

use qs_syntax_ast::update::GraphOrDefault;
use qs_terms::{Iri, Term};
use std::alloc::{AllocError, Global};

/// The IRI as a term.
pub fn iri_term(name: &Iri) -> Result<Term, AllocError>
    ensures { IfOk result (λ t. t ≡ value.Iri name.now) }
{
    Ok(Term::Iri(name.try_clone()?))
}

pub fn graph_name(graph: &GraphOrDefault) -> Result<Option<Term>, AllocError>
    ensures name { IfOk result (λ name. name ≡ spec.graph_name graph.now) }
    ensures lawful { IfOk result (λ name. IsTrue (is_graph name)) }
{
    match graph {
        GraphOrDefault::Default => Ok(None),
        GraphOrDefault::Graph(name) => Ok(Some(iri_term(name)?)),
    }
}

/// Whether both are the default graph, or of one name.
pub fn is_same(from: Option<&Term>, to: Option<&Term>) -> bool
    ensures { result ≡ same_graph (option_copied from.entry) (option_copied to.entry) }
{
    match (from, to) {
        (None, None) => true,
        (Some(from), Some(to)) => from.is_same(to),
        _ => false,
    }
}
