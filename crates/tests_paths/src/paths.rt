//! Paths of two IRIs, `e:p` and `e:q`.

use qs_syntax_ast::path::{NegatedIri, Path};
use qs_syntax_tree::path::Repetition;
use qs_terms::{Iri, Term, TermFault};
use sqlite_items::{Boxed, Items};
use std::alloc::Global;

/// Which path is asked for.
#[derive(Clone, Copy, PartialEq, Eq)]
pub enum Form {
    P,
    InverseP,
    /// `!e:q`
    NotQ,
    /// `!^e:q`
    NotInverseQ,
    /// `e:p|e:q`
    Either,
    /// `e:p/e:p`
    Twice,
    PlusP,
    StarP,
    OptionP,
    /// `^e:p+`
    InversePlusP,
    /// `e:p*/e:q*`
    Stars,
}

fn iri(alloc: Global, text: &str) -> Result<Iri, TermFault> {
    match Term::iri(alloc, text)? {
        Term::Iri(iri) => Ok(iri),
        _ => Err(TermFault::NotAbsolute),
    }
}

fn step(alloc: Global, text: &str) -> Result<Path, TermFault> {
    let iri = iri(alloc, text)?;
    Ok(Path::Iri(iri))
}

fn boxed(alloc: Global, path: Path) -> Result<Boxed<Path>, TermFault> {
    Ok(Boxed::new(alloc, path)?)
}

fn inverse(alloc: Global, path: Path) -> Result<Path, TermFault> {
    let inner = boxed(alloc, path)?;
    Ok(Path::Inverse(inner))
}

fn repeated(alloc: Global, text: &str, repetition: Repetition) -> Result<Path, TermFault> {
    let path = step(alloc, text)?;
    let inner = boxed(alloc, path)?;
    Ok(Path::Repeated(inner, repetition))
}

fn not_q(alloc: Global, inverse: bool) -> Result<Path, TermFault> {
    let iri = iri(alloc, "e:q")?;
    let mut members = Vec::new(alloc);
    members.push(NegatedIri { inverse, iri })?;
    Ok(Path::NegatedSet(Items::from_vec(members)))
}

fn both(
    alloc: Global,
    first: Result<Path, TermFault>,
    second: Result<Path, TermFault>,
) -> Result<Items<Path>, TermFault> {
    match (first, second) {
        (Ok(first), Ok(second)) => two(alloc, first, second),
        (Err(fault), _) => Err(fault),
        (_, Err(fault)) => Err(fault),
    }
}

fn two(alloc: Global, first: Path, second: Path) -> Result<Items<Path>, TermFault> {
    let mut parts = Vec::with_capacity(alloc, 2)?;
    parts.push(first)?;
    parts.push(second)?;
    Ok(Items::from_vec(parts))
}

/// The path of this form.
pub fn path(alloc: Global, form: Form) -> Result<Path, TermFault> {
    match form {
        Form::P => step(alloc, "e:p"),
        Form::InverseP => {
            let path = step(alloc, "e:p")?;
            inverse(alloc, path)
        }
        Form::NotQ => not_q(alloc, false),
        Form::NotInverseQ => not_q(alloc, true),
        Form::Either => {
            let parts = both(alloc, step(alloc, "e:p"), step(alloc, "e:q"))?;
            Ok(Path::Alternative(parts))
        }
        Form::Twice => {
            let parts = both(alloc, step(alloc, "e:p"), step(alloc, "e:p"))?;
            Ok(Path::Sequence(parts))
        }
        Form::PlusP => repeated(alloc, "e:p", Repetition::OneOrMore),
        Form::StarP => repeated(alloc, "e:p", Repetition::ZeroOrMore),
        Form::OptionP => repeated(alloc, "e:p", Repetition::ZeroOrOne),
        Form::InversePlusP => {
            let path = repeated(alloc, "e:p", Repetition::OneOrMore)?;
            inverse(alloc, path)
        }
        Form::Stars => {
            let parts = both(
                alloc,
                repeated(alloc, "e:p", Repetition::ZeroOrMore),
                repeated(alloc, "e:q", Repetition::ZeroOrMore),
            )?;
            Ok(Path::Sequence(parts))
        }
    }
}
