//! The quads of a program are what the laws ask for.

ghost use Rattle.std.specs.Option.{option_copied};
ghost use Rattle.qs_nquads.specs.inner.Renumbered.{IsTerm, IsName, IsQuad, AreQuads};

use qs_terms::{Quad, Term};

fn lawful_term(term: &Term)
    ensures { IsTerm term.now }
{
    match term {
        Term::Iri(iri) => {
            let _text = iri.text();
        }
        Term::Blank(number) => {
            let _number = *number;
        }
        Term::Literal(literal) => {
            let _form = literal.form();
            let _datatype = literal.datatype();
        }
    }
}

fn lawful_name(name: Option<&Term>)
    ensures { IsName (option_copied name.entry) }
{
    if let Some(name) = name {
        lawful_term(name);
    }
}

/// A quad's texts are lawful, its blank nodes' numbers have 64 bits, and its terms stand where they may.
pub fn lawful_quad(quad: &Quad)
    ensures { IsQuad quad.now }
{
    let name = quad.graph();
    lawful_name(name);
    lawful_term(quad.subject());
    lawful_term(quad.predicate());
    lawful_term(quad.object());
}

/// Each quad of a list is lawful.
pub fn lawful_quads(quads: &[Quad])
    ensures { AreQuads quads.now }
{
    for quad in quads {
        lawful_quad(quad);
    }
}
