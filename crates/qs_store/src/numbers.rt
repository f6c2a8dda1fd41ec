//! Quads as entries of the numbers of their terms.

ghost use Rattle.std.specs.Prelude.{◌≡◌, List, Some, [], length, map, IsTrue, IfOk, OnOk, IfErr};
ghost use Rattle.std.specs.List.{cons_option, filter_map};
ghost use Rattle.std.specs.Option.{option_copied};
ghost use Rattle.qs_terms.specs.Bag.{with_new};
ghost use Rattle.qs_terms.specs.Statement.{fits_places};
ghost use Rattle.qs_terms.specs.Term.{same_term};
ghost use Rattle.qs_terms.specs.declared.term.Term.{Term};
ghost use Rattle.qs_dict.specs.inner.Dict.{IsDictionary, number_of};
ghost use Rattle.qs_store.specs.Change.{terms_of, with_terms_of};
ghost use Rattle.qs_store.specs.inner.Change.{with_terms};
ghost use Rattle.qs_store.specs.inner.Change.{IsFullAt};
ghost use Rattle.qs_store.specs.inner.Entries.{entry_of, graph_number};
ghost use Rattle.qs_store.specs.inner.Content.{AreLawful};
ghost use Rattle.qs_store.specs.inner.References.{referred, IsReferred, referred_graph, IsReferredGraph, referred_quad, IsReferredQuad};
ghost use Rattle.qs_store.specs.inner.Store.{IsFront};

use crate::fault::StoreFault;
use crate::reference::{QuadRef, TermRef};
use qs_dict::Dict;
use qs_terms::{Quad, Term};
use std::alloc::{AllocError, Global};

/// The number of a graph's name, where it has one; the default graph has number 0.
pub fn graph_number(dict: &Dict, graph: Option<&Term>) -> Option<u32>
    ensures { result ≡ graph_number dict.now.terms (option_copied graph.entry) }
{
    match graph {
        None => Some(0),
        Some(name) => dict.find(name),
    }
}

/// The entry of the quad, where all its terms have numbers.
pub fn entry_of(dict: &Dict, quad: &Quad) -> Option<[u32; 4]>
    ensures { result ≡ entry_of dict.now.terms quad.now }
{
    let g = graph_number(dict, quad.graph())?;
    let s = dict.find(quad.subject())?;
    let p = dict.find(quad.predicate())?;
    let o = dict.find(quad.object())?;
    Some([g, s, p, o])
}

/// The entries of those of the quads whose terms all have numbers.
pub fn entries_of(alloc: Global, dict: &Dict, quads: &[Quad]) -> Result<Vec<[u32; 4]>, AllocError>
    ensures { IfOk result (λ entries. entries.items ≡ filter_map (entry_of dict.now.terms)
        quads.now) }
{
    quads
        .iter()
        .filter_map(|quad| entry_of(dict, quad))
        .collect(alloc)
}

/// The number of the term, which is put after the others where it is new.
fn put(dict: &mut Dict, term: &Term) -> Result<u32, StoreFault>
    ensures number { IfOk result (λ n. number_of dict.new.terms term.now ≡ Some n) }
    ensures terms { OnOk result (dict.new.terms ≡ with_new same_term dict.old.terms term.now) }
    ensures front { IsFront dict.old.terms dict.new.terms }
    ensures full { IfErr result
        (λ fault. IsFullAt fault dict.old.limit
        (length (with_new same_term dict.old.terms term.now))) }
    ensures limit { dict.new.limit ≡ dict.old.limit }
    ensures lawful { IsDictionary dict.new }
{
    match dict.number(term) {
        Ok(number) => Ok(number),
        Err(fault) => Err(StoreFault::from(fault)),
    }
}

/// The number of the graph's name, which is put after the other terms where it is new; the default graph has number 0.
pub fn put_graph(dict: &mut Dict, graph: Option<&Term>) -> Result<u32, StoreFault>
    ensures number { IfOk result (λ n. graph_number dict.new.terms (option_copied graph.entry)
        ≡ Some n) }
    ensures terms { OnOk result
        (dict.new.terms ≡ with_terms dict.old.terms (cons_option (option_copied graph.entry) [])) }
    ensures front { IsFront dict.old.terms dict.new.terms }
    ensures full { IfErr result
        (λ fault. IsFullAt fault dict.old.limit
        (length (with_terms dict.old.terms (cons_option (option_copied graph.entry) [])))) }
    ensures limit { dict.new.limit ≡ dict.old.limit }
{
    match graph {
        None => Ok(0),
        Some(name) => put(dict, name),
    }
}

/// The graph's name, by itself.
fn graph_ref(graph: Option<&Term>) -> Option<TermRef<'_>>
    ensures same { (known : List Term) → referred_graph known result ≡ option_copied graph.entry }
    ensures fine { (known : List Term) → IsReferredGraph known result }
{
    match graph {
        None => None,
        Some(name) => Some(TermRef::Term(name)),
    }
}

/// The quad, by its terms.
fn quad_ref(quad: &Quad) -> QuadRef<'_>
    ensures same { (known : List Term) → referred_quad known result ≡ quad.now }
    ensures fine { (known : List Term) → IsReferredQuad known result }
    ensures fits { IsTrue (fits_places quad.now.graph quad.now.subject quad.now.predicate) }
{
    QuadRef {
        graph: graph_ref(quad.graph()),
        subject: TermRef::Term(quad.subject()),
        predicate: TermRef::Term(quad.predicate()),
        object: TermRef::Term(quad.object()),
    }
}

/// The entry of the quad, whose new terms are put after the others in the dictionary.
pub fn numbered(dict: &mut Dict, quad: &Quad) -> Result<[u32; 4], StoreFault>
    ensures entry { IfOk result (λ entry. entry_of dict.new.terms quad.now ≡ Some entry) }
    ensures terms { OnOk result (dict.new.terms ≡ with_terms dict.old.terms (terms_of quad.now)) }
    ensures front { IsFront dict.old.terms dict.new.terms }
    ensures full { IfErr result
        (λ fault. IsFullAt fault dict.old.limit
        (length (with_terms dict.old.terms (terms_of quad.now)))) }
    ensures limit { dict.new.limit ≡ dict.old.limit }
    ensures lawful { OnOk result (IsDictionary dict.new) }
    ensures fits { IsTrue (fits_places quad.now.graph quad.now.subject quad.now.predicate) }
{
    numbered_ref(dict, quad_ref(quad))
}

/// The number of the term that is meant, where it has one.
fn find_ref(dict: &Dict, term: TermRef<'_>) -> Option<u32>
    requires { IsReferred dict.now.terms term }
    ensures { result ≡ number_of dict.now.terms (referred dict.now.terms term.entry) }
{
    let _count = dict.len();
    match term {
        TermRef::Known(number) => Some(number),
        TermRef::Term(term) => dict.find(term),
    }
}

/// The number of the graph's name that is meant, where it has one; the default graph has number 0.
fn find_graph_ref(dict: &Dict, graph: Option<TermRef<'_>>) -> Option<u32>
    requires { IsReferredGraph dict.now.terms graph }
    ensures { result ≡ graph_number dict.now.terms (referred_graph dict.now.terms graph.entry) }
{
    match graph {
        None => Some(0),
        Some(name) => find_ref(dict, name),
    }
}

/// The entry of the quad that is meant, where all its terms have numbers.
pub fn entry_of_ref(dict: &Dict, quad: QuadRef<'_>) -> Option<[u32; 4]>
    requires { IsReferredQuad dict.now.terms quad }
    ensures { result ≡ entry_of dict.now.terms (referred_quad dict.now.terms quad.entry) }
{
    let g = find_graph_ref(dict, quad.graph)?;
    let s = find_ref(dict, quad.subject)?;
    let p = find_ref(dict, quad.predicate)?;
    let o = find_ref(dict, quad.object)?;
    Some([g, s, p, o])
}

/// The number of the term that is meant over terms from which the dictionary has grown. It is put after the others where it is new.
fn put_ref(dict: &mut Dict, term: TermRef<'_>) -> Result<u32, StoreFault>
    ensures number { IfOk result (λ n. (known : List Term) → IsFront known dict.old.terms
        → IsReferred known term.entry → number_of dict.new.terms (referred known term.entry)
        ≡ Some n) }
    ensures terms { OnOk result ((known : List Term) → IsFront known dict.old.terms
        → IsReferred known term.entry → dict.new.terms ≡ with_new same_term dict.old.terms
        (referred known term.entry)) }
    ensures front { IsFront dict.old.terms dict.new.terms }
    ensures full { IfErr result (λ fault. (known : List Term) → IsFront known dict.old.terms
        → IsReferred known term.entry
        → IsFullAt fault dict.old.limit
        (length (with_new same_term dict.old.terms (referred known term.entry)))) }
    ensures limit { dict.new.limit ≡ dict.old.limit }
    ensures lawful { IsDictionary dict.new }
{
    let _count = dict.len();
    match term {
        TermRef::Known(number) => Ok(number),
        TermRef::Term(term) => put(dict, term),
    }
}

/// The number of the graph's name that is meant, as `put_ref` has it; the default graph has number 0.
fn put_graph_ref(dict: &mut Dict, graph: Option<TermRef<'_>>) -> Result<u32, StoreFault>
    requires { IsReferredGraph dict.old.terms graph }
    ensures number { IfOk result
        (λ n. graph_number dict.new.terms (referred_graph dict.old.terms graph.entry) ≡ Some n) }
    ensures terms { OnOk result
        (dict.new.terms ≡ with_terms dict.old.terms
        (cons_option (referred_graph dict.old.terms graph.entry) [])) }
    ensures front { IsFront dict.old.terms dict.new.terms }
    ensures full { IfErr result
        (λ fault. IsFullAt fault dict.old.limit
        (length
        (with_terms dict.old.terms
        (cons_option (referred_graph dict.old.terms graph.entry) [])))) }
    ensures limit { dict.new.limit ≡ dict.old.limit }
{
    match graph {
        None => Ok(0),
        Some(name) => put_ref(dict, name),
    }
}

/// The entry of the quad that is meant, whose new terms are put after the others in the dictionary.
pub fn numbered_ref(dict: &mut Dict, quad: QuadRef<'_>) -> Result<[u32; 4], StoreFault>
    requires { IsReferredQuad dict.old.terms quad }
    ensures entry { IfOk result
        (λ entry. entry_of dict.new.terms (referred_quad dict.old.terms quad.entry) ≡ Some entry) }
    ensures terms { OnOk result
        (dict.new.terms ≡ with_terms dict.old.terms
        (terms_of (referred_quad dict.old.terms quad.entry))) }
    ensures front { IsFront dict.old.terms dict.new.terms }
    ensures full { IfErr result
        (λ fault. IsFullAt fault dict.old.limit
        (length
        (with_terms dict.old.terms (terms_of (referred_quad dict.old.terms quad.entry))))) }
    ensures limit { dict.new.limit ≡ dict.old.limit }
    ensures lawful { OnOk result (IsDictionary dict.new) }
{
    let g = put_graph_ref(dict, quad.graph)?;
    let s = put_ref(dict, quad.subject)?;
    let p = put_ref(dict, quad.predicate)?;
    let o = put_ref(dict, quad.object)?;
    Ok([g, s, p, o])
}

/// The entries of the quads, whose new terms are put after the others in the dictionary.
pub fn numbered_all(
    alloc: Global,
    dict: &mut Dict,
    quads: &[Quad],
) -> Result<Vec<[u32; 4]>, StoreFault>
    ensures entries { IfOk result (λ entries. map (entry_of dict.new.terms) quads.now
        ≡ map Some entries.items) }
    ensures terms { OnOk result (dict.new.terms ≡ with_terms_of dict.old.terms quads.now) }
    ensures front { IsFront dict.old.terms dict.new.terms }
    ensures full { IfErr result
        (λ fault. IsFullAt fault dict.old.limit (length (with_terms_of dict.old.terms quads.now))) }
    ensures limit { dict.new.limit ≡ dict.old.limit }
    ensures lawful { OnOk result (IsDictionary dict.new) }
    ensures fits { OnOk result (AreLawful quads.now) }
{
    let _count = dict.len();
    let mut entries = Vec::new(alloc);
    for quad in quads {
        let entry = numbered(dict, quad)?;
        entries.push(entry)?;
    }
    Ok(entries)
}
