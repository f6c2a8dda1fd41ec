//! Places in a statement.

ghost use Rattle.std.specs.Prelude.{◌≡◌, ◌≢◌, Ok, Err, MatchResult};
ghost use Rattle.qs_terms.specs.Literal.{typed, xsd_string};
ghost use Rattle.qs_terms.specs.inner.OrOutOf.{OrOutOf};
ghost use Rattle.qs_nquads.specs.declared.fault.NqFaultKind.TheVariants.{Memory};
ghost use Rattle.qs_nquads.specs.inner.StatementState.{statement, may_end};
ghost use Rattle.qs_nquads.specs.inner.Unread.{GoesOn};

use crate::fault::NqFaultKind;
use crate::node::Node;
use crate::part::Part;
use qs_terms::{Iri, Lit, Quad, Term, TermFault, Text};
use std::alloc::Global;
use std::mem;

/// How far a statement has been read, with what was read of it.
#[derive(Drop)]
pub enum StatementState {
    /// before a statement
    Start,
    /// after the subject
    Subject(Node),
    /// after the predicate
    Predicate(Node, Iri),
    /// after a string
    Form(Node, Iri, Text),
    /// after a string and `^^`
    Typed(Node, Iri, Text),
    /// after the object
    Object(Node, Iri, Term),
    /// after the name of the graph
    Label(Node, Iri, Term, Node),
    /// after the `.`
    Done,
}

impl StatementState {
    /// Whether a text may end here.
    pub fn may_end(&self) -> bool
        ensures { result ≡ may_end self.now }
    {
        match self {
            StatementState::Start | StatementState::Done => true,
            StatementState::Subject(_) | StatementState::Predicate(_, _) => false,
            StatementState::Form(_, _, _) | StatementState::Typed(_, _, _) => false,
            StatementState::Object(_, _, _) | StatementState::Label(_, _, _, _) => false,
        }
    }
}

fn set<T: Drop>(slot: &mut T, value: T)
    ensures { slot.new ≡ value }
{
    *slot = value;
}

fn quad(subject: Node, predicate: Iri, object: Term, graph: Option<Node>) -> Quad
    ensures { result ≡ statement subject predicate object graph }
{
    let graph = match graph {
        None => None,
        Some(name) => Some(name.into_term()),
    };
    Quad::new(graph, subject.into_term(), Term::Iri(predicate), object)
}

fn plain(alloc: Global, form: Text) -> Result<Lit, NqFaultKind>
    ensures { OrOutOf Memory (Ok (typed form xsd_string)) result }
{
    Ok(Lit::string(alloc, form)?)
}

fn at_start(place: &mut StatementState, part: Part) -> Result<Option<Quad>, NqFaultKind>
    ensures { MatchResult result
        (λ next. GoesOn (Rattle.qs_nquads.specs.inner.StatementState.at_start part) next place.new)
        (λ fault. Rattle.qs_nquads.specs.inner.StatementState.at_start part ≡ Err fault) }
{
    match part {
        Part::Iri(iri) => {
            set(place, StatementState::Subject(Node::Iri(iri)));
            Ok(None)
        }
        Part::Blank(number) => {
            set(place, StatementState::Subject(Node::Blank(number)));
            Ok(None)
        }
        Part::LineEnd => {
            set(place, StatementState::Start);
            Ok(None)
        }
        _ => Err(NqFaultKind::Shape),
    }
}

fn at_subject(
    place: &mut StatementState,
    subject: Node,
    part: Part,
) -> Result<Option<Quad>, NqFaultKind>
    ensures { MatchResult result
        (λ next. GoesOn (Rattle.qs_nquads.specs.inner.StatementState.at_subject subject part) next
        place.new) (λ fault. Rattle.qs_nquads.specs.inner.StatementState.at_subject subject part
        ≡ Err fault) }
{
    match part {
        Part::Iri(predicate) => {
            set(place, StatementState::Predicate(subject, predicate));
            Ok(None)
        }
        _ => Err(NqFaultKind::Shape),
    }
}

fn at_predicate(
    place: &mut StatementState,
    subject: Node,
    predicate: Iri,
    part: Part,
) -> Result<Option<Quad>, NqFaultKind>
    ensures { MatchResult result
        (λ next. GoesOn (Rattle.qs_nquads.specs.inner.StatementState.at_predicate subject predicate
        part) next place.new)
        (λ fault. Rattle.qs_nquads.specs.inner.StatementState.at_predicate subject predicate part
        ≡ Err fault) }
{
    match part {
        Part::Iri(iri) => {
            set(
                place,
                StatementState::Object(subject, predicate, Term::Iri(iri)),
            );
            Ok(None)
        }
        Part::Blank(number) => {
            set(
                place,
                StatementState::Object(subject, predicate, Term::Blank(number)),
            );
            Ok(None)
        }
        Part::Form(form) => {
            set(place, StatementState::Form(subject, predicate, form));
            Ok(None)
        }
        _ => Err(NqFaultKind::Shape),
    }
}

fn at_object(
    place: &mut StatementState,
    subject: Node,
    predicate: Iri,
    object: Term,
    part: Part,
) -> Result<Option<Quad>, NqFaultKind>
    ensures { MatchResult result
        (λ next. GoesOn (Rattle.qs_nquads.specs.inner.StatementState.at_object subject predicate
        object part) next place.new)
        (λ fault. Rattle.qs_nquads.specs.inner.StatementState.at_object subject predicate object
        part ≡ Err fault) }
{
    match part {
        Part::Iri(name) => {
            set(
                place,
                StatementState::Label(subject, predicate, object, Node::Iri(name)),
            );
            Ok(None)
        }
        Part::Blank(number) => {
            set(
                place,
                StatementState::Label(subject, predicate, object, Node::Blank(number)),
            );
            Ok(None)
        }
        Part::Dot => {
            set(place, StatementState::Done);
            Ok(Some(quad(subject, predicate, object, None)))
        }
        _ => Err(NqFaultKind::Shape),
    }
}

fn at_form(
    alloc: Global,
    place: &mut StatementState,
    subject: Node,
    predicate: Iri,
    form: Text,
    part: Part,
) -> Result<Option<Quad>, NqFaultKind>
    ensures { MatchResult result
        (λ next. GoesOn (Rattle.qs_nquads.specs.inner.StatementState.at_form subject predicate form
        part) next place.new) (λ fault. fault ≢ Memory
        → Rattle.qs_nquads.specs.inner.StatementState.at_form subject predicate form part
        ≡ Err fault) }
{
    match part {
        Part::Tag(tag) => match Lit::with_tag(alloc, form, tag) {
            Ok(literal) => {
                set(
                    place,
                    StatementState::Object(subject, predicate, Term::Literal(literal)),
                );
                Ok(None)
            }
            Err(TermFault::Memory) => Err(NqFaultKind::Memory),
            Err(_) => Err(NqFaultKind::Literal),
        }
        Part::Carets => {
            set(place, StatementState::Typed(subject, predicate, form));
            Ok(None)
        }
        Part::Iri(_) | Part::Blank(_) | Part::Dot => {
            let literal = plain(alloc, form)?;
            at_object(place, subject, predicate, Term::Literal(literal), part)
        }
        _ => Err(NqFaultKind::Shape),
    }
}

fn at_typed(
    alloc: Global,
    place: &mut StatementState,
    subject: Node,
    predicate: Iri,
    form: Text,
    part: Part,
) -> Result<Option<Quad>, NqFaultKind>
    ensures { MatchResult result
        (λ next. GoesOn (Rattle.qs_nquads.specs.inner.StatementState.at_typed subject predicate form
        part) next place.new) (λ fault. fault ≢ Memory
        → Rattle.qs_nquads.specs.inner.StatementState.at_typed subject predicate form part
        ≡ Err fault) }
{
    match part {
        Part::Iri(datatype) => match Lit::with_datatype(alloc, form, datatype) {
            Ok(literal) => {
                set(
                    place,
                    StatementState::Object(subject, predicate, Term::Literal(literal)),
                );
                Ok(None)
            }
            Err(TermFault::Memory) => Err(NqFaultKind::Memory),
            Err(_) => Err(NqFaultKind::Literal),
        }
        _ => Err(NqFaultKind::Shape),
    }
}

fn at_label(
    place: &mut StatementState,
    subject: Node,
    predicate: Iri,
    object: Term,
    name: Node,
    part: Part,
) -> Result<Option<Quad>, NqFaultKind>
    ensures { MatchResult result
        (λ next. GoesOn (Rattle.qs_nquads.specs.inner.StatementState.at_label subject predicate
        object name part) next place.new)
        (λ fault. Rattle.qs_nquads.specs.inner.StatementState.at_label subject predicate object name
        part ≡ Err fault) }
{
    match part {
        Part::Dot => {
            set(place, StatementState::Done);
            Ok(Some(quad(subject, predicate, object, Some(name))))
        }
        _ => Err(NqFaultKind::Shape),
    }
}

fn at_done(place: &mut StatementState, part: Part) -> Result<Option<Quad>, NqFaultKind>
    ensures { MatchResult result
        (λ next. GoesOn (Rattle.qs_nquads.specs.inner.StatementState.at_done part) next place.new)
        (λ fault. Rattle.qs_nquads.specs.inner.StatementState.at_done part ≡ Err fault) }
{
    match part {
        Part::LineEnd => {
            set(place, StatementState::Start);
            Ok(None)
        }
        _ => Err(NqFaultKind::Shape),
    }
}

/// Goes on with what the part makes of the place; hands out the statement that is whole then, if one is. After a fault the place is
/// that before a statement.
///
/// # Errors
/// `NqFaultKind::Shape` where the part has no place here, `NqFaultKind::Literal` for rdf:langString after `^^`, and
/// `NqFaultKind::Memory`.
pub fn after(
    alloc: Global,
    place: &mut StatementState,
    part: Part,
) -> Result<Option<Quad>, NqFaultKind>
    ensures { MatchResult result
        (λ next. GoesOn (Rattle.qs_nquads.specs.inner.StatementState.after place.old part) next
        place.new) (λ fault. fault ≢ Memory → Rattle.qs_nquads.specs.inner.StatementState.after
        place.old part ≡ Err fault) }
{
    match mem::replace(place, StatementState::Start) {
        StatementState::Start => at_start(place, part),
        StatementState::Subject(subject) => at_subject(place, subject, part),
        StatementState::Predicate(subject, predicate) => at_predicate(
            place, subject, predicate, part,
        ),
        StatementState::Form(subject, predicate, form) => at_form(
            alloc, place, subject, predicate, form, part,
        ),
        StatementState::Typed(subject, predicate, form) => at_typed(
            alloc, place, subject, predicate, form, part,
        ),
        StatementState::Object(subject, predicate, object) => {
            at_object(place, subject, predicate, object, part)
        }
        StatementState::Label(subject, predicate, object, name) => {
            at_label(place, subject, predicate, object, name, part)
        }
        StatementState::Done => at_done(place, part),
    }
}
