//! What is told of a triple or a path: the order of the index that its scan uses, which of its variables are bound before it, and how many
//! triples agree with its terms.

use crate::bound::{Bound, bound_at, is_given};
use crate::lines::Place;
use crate::words::put_variable;
use qs_algebra_patterns::{PathPattern, Slot, TriplePattern};
use qs_index::permutation::{Lead, Lookup, Permutation};
use qs_plan::{Counts, Look, Stage, path_count};
use qs_query_solutions::ViewCounts;
use qs_store::{Active, DefaultGraph, View};
use qs_terms::Text;
use std::alloc::{AllocError, Global};

/// A count above this one is printed as an estimate.
const EXACT: u64 = 4096;

// ---- the order

fn order_word(order: Permutation) -> &'static str {
    match order {
        Permutation::Gspo => "GSPO",
        Permutation::Gpos => "GPOS",
        Permutation::Gosp => "GOSP",
        Permutation::Spog => "SPOG",
        Permutation::Posg => "POSG",
        Permutation::Ospg => "OSPG",
    }
}

/// Whether the scan reads the union of all named graphs.
fn is_of_union<V: View>(counts: &ViewCounts<'_, V>, look: &Look) -> bool {
    matches!(look, Look::Active)
        && matches!(counts.active, Active::Default)
        && matches!(counts.view.default_graph(), DefaultGraph::Union)
}

/// Some number where the place is given: which one it is makes no difference to the order.
fn given(known: &[Bound], slot: &Slot) -> Option<u32> {
    if is_given(known, slot) { Some(0) } else { None }
}

/// A register that holds each name in turn, and the variable that was joined with it, if one was.
#[derive(Clone, Copy)]
pub(crate) struct OpenRegister {
    pub register: usize,
    pub variable: Option<usize>,
}

/// The register that still holds each name in turn after the stage, if there is one: rows whose variable is bound before look in one graph.
pub(crate) fn open_after(
    open: Option<OpenRegister>,
    stage: &Stage,
    known: &[Bound],
) -> Option<OpenRegister> {
    match stage {
        Stage::Names(register) => Some(OpenRegister {
            register: *register,
            variable: None,
        }),
        Stage::Name(variable, register) => {
            let open = open?;
            if open.register != *register || !bound_at(known, *variable).is_never() {
                return None;
            }
            Some(OpenRegister {
                register: *register,
                variable: Some(*variable),
            })
        }
        _ => None,
    }
}

/// Whether the slot is the variable, if there is one.
fn is_variable(slot: &Slot, variable: Option<usize>) -> bool {
    match (slot, variable) {
        (Slot::Variable(one), Some(other)) => *one == other,
        _ => false,
    }
}

/// Whether one scan finds the triples of the pattern in all named graphs.
fn is_in_all(open: Option<OpenRegister>, look: &Look, pattern: &TriplePattern) -> bool {
    let Some(open) = open else {
        return false;
    };
    let is_named = is_variable(&pattern.subject, open.variable)
        || is_variable(&pattern.predicate, open.variable)
        || is_variable(&pattern.object, open.variable);
    look.register() == Some(open.register) && !is_named
}

/// Whether the variable is one of the columns.
fn is_column(columns: &[usize], variable: Option<usize>) -> bool {
    match variable {
        Some(variable) => columns.contains(&variable),
        None => false,
    }
}

/// The place that is in front in the order of a scan to which no place is given: one of a column whose distinct terms are asked for.
fn lead_of(columns: &[usize], variables: [Option<usize>; 3]) -> Lead {
    let [subject, predicate, object] = variables;
    if is_column(columns, object) && !is_column(columns, predicate) {
        return Lead::Object;
    }
    if is_column(columns, predicate) && !is_column(columns, subject) {
        return Lead::Predicate;
    }
    Lead::Subject
}

/// The order of the index in which the scan of the pattern finds its triples.
fn order_used<V: View>(
    place: &Place<'_, V>,
    open: Option<OpenRegister>,
    look: &Look,
    pattern: &TriplePattern,
    known: &[Bound],
) -> Permutation {
    let subject = given(known, &pattern.subject);
    let predicate = given(known, &pattern.predicate);
    let object = given(known, &pattern.object);
    let is_any = subject.is_some() || predicate.is_some() || object.is_some();
    let lead = lead_of(place.columns, variables_of(pattern));
    if is_of_union(&place.counts, look) || is_any && is_in_all(open, look, pattern) {
        return Lookup::named_with_lead(lead, subject, predicate, object).permutation;
    }
    Lookup::with_lead(lead, 0, subject, predicate, object).permutation
}

// ---- what is bound

/// The variable in the place, unless it is one of these.
fn other_variable(slot: &Slot, first: Option<usize>, second: Option<usize>) -> Option<usize> {
    match slot {
        Slot::Term(_) => None,
        Slot::Variable(variable) => {
            let variable = Some(*variable);
            if variable == first || variable == second {
                return None;
            }
            variable
        }
    }
}

/// The variables of the pattern by their places, each where it first stands.
fn variables_of(pattern: &TriplePattern) -> [Option<usize>; 3] {
    let subject = other_variable(&pattern.subject, None, None);
    let predicate = other_variable(&pattern.predicate, subject, None);
    let object = other_variable(&pattern.object, subject, predicate);
    [subject, predicate, object]
}

/// How the variable is bound; never, where there is none.
fn bound_of(known: &[Bound], variable: Option<usize>) -> Bound {
    match variable {
        Some(variable) => bound_at(known, variable),
        None => Bound::Never,
    }
}

/// Writes the variables of these that are bound so, each after the word.
fn put_bound_so(
    names: &[Text],
    bindings: &[(Option<usize>, Bound)],
    is_always: bool,
    word: &str,
    text: &mut String,
) -> Result<(), AllocError> {
    for at in 0..bindings.len() {
        let (variable, bound) = bindings[at];
        if let Some(variable) = variable {
            if !bound.is_never() && bound.is_always() == is_always {
                text.push_str(word)?;
                put_variable(names, variable, text)?;
            }
        }
    }
    Ok(())
}

/// Which of the variables each row binds before the stage, and which some may.
fn put_bindings(
    names: &[Text],
    known: &[Bound],
    variables: [Option<usize>; 3],
    text: &mut String,
) -> Result<(), AllocError> {
    let [first, second, third] = variables;
    let bindings = [
        (first, bound_of(known, first)),
        (second, bound_of(known, second)),
        (third, bound_of(known, third)),
    ];
    text.push_str(", bound:")?;
    if bindings.iter().all(|binding| binding.1.is_never()) {
        return text.push_str(" none");
    }
    put_bound_so(names, &bindings, true, " ", text)?;
    put_bound_so(names, &bindings, false, " maybe ", text)
}

// ---- the count

/// About how many triples agree with the terms of the pattern, as the planner counts them.
fn put_count<V: View>(
    counts: &ViewCounts<'_, V>,
    look: &Look,
    pattern: &TriplePattern,
    text: &mut String,
) -> Result<(), AllocError> {
    let count = counts.about(look, pattern);
    let about = if count > EXACT { "about " } else { "" };
    write!(text, ", count: {about}{count}")?;
    Ok(())
}

// ---- the facts

/// Writes what is told of a triple, where the register is open and the variables are known to be bound before it.
pub(crate) fn put_triple_facts<V: View>(
    place: &Place<'_, V>,
    open: Option<OpenRegister>,
    look: &Look,
    pattern: &TriplePattern,
    known: &[Bound],
    text: &mut String,
) -> Result<(), AllocError> {
    let order = order_word(order_used(place, open, look, pattern, known));
    write!(text, ", order: {order}")?;
    put_bindings(place.names, known, variables_of(pattern), text)?;
    put_count(&place.counts, look, pattern, text)
}

/// Writes the variable that the next stage joins with the register's name, if each row binds it.
pub(crate) fn put_names_facts(
    names: &[Text],
    register: usize,
    next: Option<&Stage>,
    known: &[Bound],
    text: &mut String,
) -> Result<(), AllocError> {
    match next {
        Some(Stage::Name(variable, other)) => {
            if *other == register && bound_at(known, *variable).is_always() {
                text.push_str(", bound: ")?;
                put_variable(names, *variable, text)?;
            }
            Ok(())
        }
        _ => Ok(()),
    }
}

/// Whether one end of the path is a term, and the other a variable.
fn has_one_term(pattern: &PathPattern) -> bool {
    match (&pattern.subject, &pattern.object) {
        (Slot::Term(_), Slot::Variable(_)) => true,
        (Slot::Variable(_), Slot::Term(_)) => true,
        _ => false,
    }
}

/// Writes what is told of a path after what is known to be bound: about how many pairs it has from an end that is a term, as the planner counts them.
pub(crate) fn put_path_facts<V: View>(
    alloc: Global,
    place: &Place<'_, V>,
    look: &Look,
    pattern: &PathPattern,
    known: &[Bound],
    text: &mut String,
) -> Result<(), AllocError> {
    let subject = other_variable(&pattern.subject, None, None);
    let object = other_variable(&pattern.object, subject, None);
    put_bindings(place.names, known, [subject, None, object], text)?;
    if !has_one_term(pattern) {
        return text.push_str(", not counted");
    }
    let count = path_count(alloc, &place.counts, look, pattern)?;
    write!(text, ", count: about {count}")?;
    Ok(())
}
