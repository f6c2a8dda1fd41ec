//! Quads: triples with the name of their graph.

ghost use Rattle.std.specs.Prelude.{◌≡◌, ◌↔◌, IfOk, IsTrue};
ghost use Rattle.std.specs.Option.{option_copied};
ghost use Rattle.std.specs.declared.cmp.Ordering.TheVariants.{Equal};
ghost use Rattle.qs_terms.specs.Statement.{fits_places, same_graph, same_statement};

use crate::term::Term;
use std::alloc::AllocError;
use std::cmp::Ordering;
use std::marker::Model;

/// A triple in the graph of a name, or in the default graph. Graph and subject are no literals, and the predicate is
/// an IRI (RDF 1.1 Concepts, 3.1 and 4).
#[derive(Debug, Drop, PartialEq, Eq, PartialOrd, Ord, Hash)]
pub struct Quad {
    graph: Option<Term>,
    subject: Term,
    predicate: Term,
    object: Term,
}

impl Model for Quad {
    ghost use Rattle.std.specs.Prelude.{IsTrue};
    ghost use Rattle.qs_terms.specs.Statement.{Statement};
    ghost use Rattle.qs_terms.specs.Statement.{fits_places};

    ghost Value = { Statement };

    ghost view = { λ q. record { graph = q.graph; subject = q.subject; predicate = q.predicate; object = q.object } };

    ghost invariant = { λ q. IsTrue (fits_places q.graph q.subject q.predicate) };

    ghost inverse = { λ q. record { graph = q.graph; subject = q.subject; predicate = q.predicate; object = q.object } };
}

fn is_node(term: &Term) -> bool
    ensures { result ≡ Rattle.qs_terms.specs.Statement.is_node term.now }
{
    match term {
        Term::Iri(_) => true,
        Term::Blank(_) => true,
        Term::Literal(_) => false,
    }
}

impl Quad {
    /// Whether the terms may stand in a quad's first three places: graph and subject are no literals, and the
    /// predicate is an IRI. Any term may be an object.
    pub fn fits(graph: Option<&Term>, subject: &Term, predicate: &Term) -> bool
        ensures { result ≡ fits_places (option_copied graph.entry) subject.now predicate.now }
    {
        let lawful_graph = match graph {
            None => true,
            Some(name) => is_node(name),
        };
        let lawful_predicate = matches!(predicate, Term::Iri(_));
        lawful_graph && is_node(subject) && lawful_predicate
    }

    /// The quad of terms that fit, without taking memory. No graph denotes the default graph.
    pub fn new(graph: Option<Term>, subject: Term, predicate: Term, object: Term) -> Quad
        requires { IsTrue (fits_places graph subject predicate) }
        ensures graph { result.graph ≡ graph }
        ensures subject { result.subject ≡ subject }
        ensures predicate { result.predicate ≡ predicate }
        ensures object { result.object ≡ object }
    {
        Quad {
            graph,
            subject,
            predicate,
            object,
        }
    }

    /// The name of the graph, or none for the default graph.
    pub fn graph(&self) -> Option<&Term>
        ensures graph { option_copied result ≡ self.now.graph }
        ensures lawful { IsTrue (fits_places self.now.graph self.now.subject self.now.predicate) }
    {
        self.graph.as_ref()
    }

    /// The subject.
    pub fn subject(&self) -> &Term
        ensures { result.now ≡ self.now.subject }
    {
        &self.subject
    }

    /// The predicate.
    pub fn predicate(&self) -> &Term
        ensures { result.now ≡ self.now.predicate }
    {
        &self.predicate
    }

    /// The object.
    pub fn object(&self) -> &Term
        ensures { result.now ≡ self.now.object }
    {
        &self.object
    }

    /// Whether the quad stands in the graph of this name, or in the default graph where none is given.
    pub fn is_in(&self, graph: Option<&Term>) -> bool
        ensures { result ≡ same_graph self.now.graph (option_copied graph.entry) }
    {
        match (&self.graph, graph) {
            (None, None) => true,
            (Some(a), Some(b)) => a.is_same(b),
            _ => false,
        }
    }

    /// How the quads stand in the total order in which only the same quads are equal: by graph, the default graph
    /// first, then by subject, predicate and object.
    pub fn order(&self, other: &Quad) -> Ordering
        ensures equal { (result ≡ Equal) ↔ (self.now ≡ other.now) }
        ensures order { result ≡ ⟦<Quad as Ord>⟧.cmp self.now other.now }
    {
        self.cmp(other)
    }

    /// Whether both are the same quad: the same terms in the four places.
    pub fn is_same(&self, other: &Quad) -> bool
        ensures same { IsTrue result ↔ (self.now ≡ other.now) }
        ensures test { result ≡ same_statement self.now other.now }
    {
        self == other
    }

    /// The quad once more, which has its texts in common with it. It takes no memory.
    pub fn try_clone(&self) -> Result<Quad, AllocError>
        ensures { IfOk result (λ q. q ≡ self.now) }
    {
        let subject = self.subject.try_clone()?;
        let predicate = self.predicate.try_clone()?;
        let object = self.object.try_clone()?;
        match &self.graph {
            None => Ok(Quad::new(None, subject, predicate, object)),
            Some(name) => {
                let name = name.try_clone()?;
                Ok(Quad::new(Some(name), subject, predicate, object))
            }
        }
    }
}
