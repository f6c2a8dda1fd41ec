//! Quads that are named by the numbers of their terms, or by the terms themselves.

ghost use Rattle.std.specs.Prelude.{◌≡◌};
ghost use Rattle.std.specs.Option.{option_copied};
ghost use Rattle.qs_terms.specs.Statement.{fits_places};
ghost use Rattle.qs_store.specs.inner.References.{referred, IsReferred, referred_graph, IsReferredGraph, referred_quad, IsReferredQuad};

use qs_dict::Dict;
use qs_terms::{Quad, Term};

/// A term, by its number or by itself.
#[derive(Clone, Copy)]
pub enum TermRef<'a> {
    /// The term with this number, which is in use.
    Known(u32),
    Term(&'a Term),
}

/// A quad, by references to its terms.
#[derive(Clone, Copy)]
pub struct QuadRef<'a> {
    /// None is the default graph.
    pub graph: Option<TermRef<'a>>,
    pub subject: TermRef<'a>,
    pub predicate: TermRef<'a>,
    pub object: TermRef<'a>,
}

/// The term that is meant.
pub(crate) fn meant<'a>(dict: &'a Dict, term: TermRef<'a>) -> &'a Term
    requires { IsReferred dict.now.terms term }
    ensures { result.now ≡ referred dict.now.terms term.entry }
{
    match term {
        TermRef::Known(number) => dict.term(number),
        TermRef::Term(term) => term,
    }
}

/// The name of the graph that is meant, where it has one.
fn meant_graph<'a>(dict: &'a Dict, graph: Option<TermRef<'a>>) -> Option<&'a Term>
    requires { IsReferredGraph dict.now.terms graph }
    ensures { option_copied result ≡ referred_graph dict.now.terms graph.entry }
{
    match graph {
        None => None,
        Some(name) => Some(meant(dict, name)),
    }
}

/// Whether the terms of the quad that is meant may stand in their places.
pub(crate) fn fits(dict: &Dict, quad: QuadRef<'_>) -> bool
    requires { IsReferredQuad dict.now.terms quad }
    ensures { let q = referred_quad dict.now.terms quad.entry
        in result ≡ fits_places q.graph q.subject q.predicate }
{
    let graph = meant_graph(dict, quad.graph);
    let subject = meant(dict, quad.subject);
    let predicate = meant(dict, quad.predicate);
    Quad::fits(graph, subject, predicate)
}
