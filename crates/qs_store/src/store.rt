//! The store, and drafts of it.
//!
//! A change numbers the terms of `add` before it looks for the quads of `remove`, and a refusal cuts the dictionary back. So
//! `Full` comes before any memory is asked for and before anything is changed. The contract promises the added terms in some
//! order.
//!
//! `Store::change` calls the inner steps of a draft and not the guard, whose end hides the changed value after a name that a
//! proof can't cite.

ghost use Rattle.std.specs.Prelude.{◌≡◌, ◌↔◌, ◌≤◌, ◌++◌, ◌∷◌, ℕ, List, [], Some, length, take, Contains, IsTrue, IfOk, IfErr, OnOk, OnErr};
ghost use Rattle.std.specs.List.{filter};
ghost use Rattle.std.specs.List.Sorted.{IsSorted};
ghost use Rattle.std.specs.Option.{option_copied, option_map};
ghost use Rattle.qs_terms.specs.Bag.{SameBag};
ghost use Rattle.qs_terms.specs.Dataset.{is_above_blanks};
ghost use Rattle.qs_terms.specs.inner.Dataset.{is_graph_below, is_graph};
ghost use Rattle.qs_terms.specs.Statement.{Statement, fits_places};
ghost use Rattle.qs_terms.specs.declared.term.Term.{Term};
ghost use Rattle.qs_expr_values.specs.inner.TermValue.{term_value};
ghost use Rattle.qs_dict.specs.inner.Dict.{IsInUse, IsDictionary, term_at, number_of};
ghost use Rattle.qs_store.specs.Change.{IsChanged, KnowsTermsOf, with_terms_of};
ghost use Rattle.qs_store.specs.inner.Change.{IsFullExactly, IsFullAt};
ghost use Rattle.qs_store.specs.Content.{Content, Held};
ghost use Rattle.qs_store.specs.inner.Content.{AreLawful, IsContent, KnowsItsTerms};
ghost use Rattle.qs_store.specs.inner.Entries.{said, entry_of, AreEntries, IsSaidBehind};
ghost use Rattle.qs_store.specs.inner.Graphs.{AreGraphs};
ghost use Rattle.qs_store.specs.inner.References.{referred_quad, IsReferredQuad};
ghost use Rattle.qs_store.specs.Same.{SameSet};
ghost use Rattle.qs_store.specs.inner.Store.{IsFront};
ghost use Rattle.qs_store.specs.inner.NamedQuads.{AreNamedQuads};
ghost use Rattle.qs_store.specs.inner.Triples.{AreTriples, AreTriplesAnyhow};
ghost use Rattle.qs_store.specs.WholeGraphs.{copies, exists, in_graph, is_named, removed_by};
ghost use Rattle.qs_store.specs.declared.default_graph.DefaultGraph.TheVariants.{Stored};
ghost use Rattle.qs_store.specs.declared.fault.StoreFault.TheVariants.{Memory};

use crate::active::Active;
use crate::default_graph::DefaultGraph;
use crate::fault::StoreFault;
use crate::graphs::{Graphs, graphs_of};
use crate::layers::Layers;
use crate::named_quads::NamedQuads;
use crate::numbers::{entries_of, entry_of, entry_of_ref, numbered, numbered_all, numbered_ref};
use crate::quads::quads_of;
use crate::reference::{QuadRef, fits};
use crate::removal::Removal;
use crate::triples::Triples;
use crate::whole_graphs::{clear, entries_named, filled, remove, transfer};
use qs_dict::Dict;
use qs_expr_values::TermValue;
use qs_index::permutation::Lead;
use qs_terms::{Quad, Term};
use std::alloc::Global;
use std::hash::RandomState;
use std::marker::Model;

/// A set of quads, a next blank node's number and a list of known terms (RDF 1.1 Concepts, 4: a dataset without empty named graphs).
/// While a draft is open its terms stand after those that the store knows, and its entries apart from those of the store.
#[derive(Drop)]
pub struct Store {
    alloc: Global,
    dict: Dict,
    layers: Layers,
    default_graph: DefaultGraph,
    hasher: RandomState,
    known: u32,
    next: u64,
    draft_next: u64,
}

impl Model for Store {
    ghost use Rattle.std.specs.Prelude.{take};
    ghost use Rattle.qs_store.specs.Content.{Content, Held};
    ghost use Rattle.qs_store.specs.inner.Entries.{said};
    ghost use Rattle.qs_store.specs.inner.Store.{IsStore};

    ghost Value = { Held };

    ghost view = { λ s. record {
      base = record { quads = said s.dict.terms s.layers.base; next = s.next; known = take s.known s.dict.terms };
      draft = record { quads = said s.dict.terms s.layers.draft; next = s.draft_next; known = s.dict.terms };
      limit = s.dict.limit;
      default_graph = s.default_graph;
    } };

    ghost invariant = { λ s. IsStore s.dict.terms s.layers.base s.layers.draft s.known s.next s.draft_next };
}

/// Makes a change of quads in a dictionary and in the entries of a draft. Where it is refused the draft's entries stay, and the
/// dictionary may have terms after those that it had.
fn change(
    alloc: Global,
    dict: &mut Dict,
    layers: &mut Layers,
    remove: &[Quad],
    add: &[Quad],
) -> Result<(), StoreFault>
    requires { AreEntries dict.old.terms layers.old.draft }
    ensures quads { OnOk result (IsChanged (said dict.old.terms layers.old.draft) remove.now add.now
        (said dict.new.terms layers.new.draft)) }
    ensures terms { OnOk result (dict.new.terms ≡ with_terms_of dict.old.terms add.now) }
    ensures entries { OnOk result (AreEntries dict.new.terms layers.new.draft) }
    ensures lawful { OnOk result (IsDictionary dict.new) }
    ensures full { IfErr result
        (λ fault. IsFullAt fault dict.old.limit (length (with_terms_of dict.old.terms add.now))) }
    ensures refused { OnErr result (layers.new.draft ≡ layers.old.draft) }
    ensures front { IsFront dict.old.terms dict.new.terms }
    ensures limit { dict.new.limit ≡ dict.old.limit }
    ensures base { layers.new.base ≡ layers.old.base }
{
    let mut ins = numbered_all(alloc, dict, add)?;
    let mut outs = entries_of(alloc, dict, remove)?;
    layers.change(outs.as_mut_slice(), ins.as_mut_slice())?;
    Ok(())
}

impl Store {
    /// An empty store, which will know as many terms as the limit allows, and whose queries see this default graph. The terms are hashed
    /// by `hasher`, since strangers choose them. It takes no memory.
    pub fn with_default(
        alloc: Global,
        term_limit: u32,
        hasher: RandomState,
        default_graph: DefaultGraph,
    ) -> Store
        ensures quads { result.base.quads ≡ [] }
        ensures next { result.base.next ≡ 0 }
        ensures known { result.base.known ≡ [] }
        ensures limit { result.limit ≡ term_limit }
        ensures default_graph { result.default_graph ≡ default_graph }
    {
        Store {
            alloc,
            dict: Dict::new(alloc, term_limit, hasher),
            layers: Layers::new(alloc),
            default_graph,
            hasher,
            known: 0,
            next: 0,
            draft_next: 0,
        }
    }

    /// An empty store whose queries see the stored default graph. It takes no memory.
    pub fn new(alloc: Global, term_limit: u32, hasher: RandomState) -> Store
        ensures quads { result.base.quads ≡ [] }
        ensures next { result.base.next ≡ 0 }
        ensures known { result.base.known ≡ [] }
        ensures limit { result.limit ≡ term_limit }
        ensures default_graph { result.default_graph ≡ Stored }
    {
        Store::with_default(alloc, term_limit, hasher, DefaultGraph::Stored)
    }

    /// Which default graph queries see.
    pub fn default_graph(&self) -> DefaultGraph
        ensures { result ≡ self.now.default_graph }
    {
        self.default_graph
    }

    /// What terms are hashed by.
    pub fn hasher(&self) -> RandomState {
        self.hasher
    }

    /// How many quads there are. It takes no memory, and goes over none.
    pub fn count(&self) -> u128
        ensures count { result ≡ length self.now.base.quads }
        ensures lawful { IsContent self.now.base }
    {
        self.layers.len()
    }

    /// The next blank node's number, which is above those of all blank nodes of the quads.
    pub fn next_blank(&self) -> u64
        ensures next { result ≡ self.now.base.next }
        ensures above { IsTrue (is_above_blanks result self.now.base.quads) }
    {
        self.next
    }

    // The next blank node's number of the draft.
    pub(crate) fn draft_next_blank(&self) -> u64
        ensures next { result ≡ self.now.draft.next }
        ensures above { IsTrue (is_above_blanks result self.now.draft.quads) }
    {
        self.draft_next
    }

    // How many quads the draft has.
    pub(crate) fn draft_count(&self) -> u128
        ensures count { result ≡ length self.now.draft.quads }
        ensures lawful { IsContent self.now.draft }
    {
        self.layers.draft_len()
    }

    /// How many terms are known: the numbers in use are those from 1 to it. The terms of the quads are among them,
    /// and each stands where it may.
    pub fn terms(&self) -> u32
        ensures count { result ≡ length self.now.base.known }
        ensures known { KnowsItsTerms self.now.base }
        ensures places { AreLawful self.now.base.quads }
    {
        self.known
    }

    // How many terms the draft knows: the numbers in use are those from 1 to it. The terms of its quads are among them, each in a lawful place.
    pub(crate) fn draft_terms(&self) -> u32
        ensures count { result ≡ length self.now.draft.known }
        ensures known { KnowsItsTerms self.now.draft }
        ensures places { AreLawful self.now.draft.quads }
    {
        self.dict.len()
    }

    /// The term with the number, which is in use.
    pub fn term(&self, number: u32) -> &Term
        requires { IsInUse self.now.base.known number }
        ensures { term_at self.now.base.known number ≡ Some result.now }
    {
        self.dict.term(number)
    }

    // The draft's terms.
    pub(crate) fn draft_term(&self, number: u32) -> &Term
        requires { IsInUse self.now.draft.known number }
        ensures { term_at self.now.draft.known number ≡ Some result.now }
    {
        self.dict.term(number)
    }

    /// What the term with the number, which is in use, is worth. It takes no memory, and the term's text isn't read.
    pub fn value(&self, number: u32) -> TermValue
        requires { IsInUse self.now.base.known number }
        ensures { option_map term_value (term_at self.now.base.known number) ≡ Some result }
    {
        self.dict.value(number)
    }

    // What the draft's term with the number is worth.
    pub(crate) fn draft_value(&self, number: u32) -> TermValue
        requires { IsInUse self.now.draft.known number }
        ensures { option_map term_value (term_at self.now.draft.known number) ≡ Some result }
    {
        self.dict.value(number)
    }

    // The number of the term, where the draft knows it.
    pub(crate) fn draft_find(&self, term: &Term) -> Option<u32>
        ensures { result ≡ number_of self.now.draft.known term.now }
    {
        self.dict.find(term)
    }

    /// The number of the term, where it is known.
    pub fn find(&self, term: &Term) -> Option<u32>
        ensures { result ≡ number_of self.now.base.known term.now }
    {
        let number = self.dict.find(term)?;
        if number <= self.known {
            Some(number)
        } else {
            None
        }
    }

    /// Whether the quad stands in the store. It takes no memory.
    pub fn contains(&self, quad: &Quad) -> bool
        ensures { IsTrue result ↔ Contains self.now.base.quads quad.now }
    {
        match entry_of(&self.dict, quad) {
            None => false,
            Some(entry) => self.layers.contains(&entry),
        }
    }

    /// The triples of a graph that have the numbers that are given, each once. They ascend by predicate, object and subject where the
    /// predicate is the first that is given or stands before the object, by object, subject and predicate where the object is given
    /// without the predicate, and by subject, predicate and object elsewhere. It takes no memory.
    pub fn scan(
        &self,
        active: Active,
        subject: Option<u32>,
        predicate: Option<u32>,
        object: Option<u32>,
    ) -> Triples<'_>
        ensures { AreTriples self.now.base self.now.default_graph active subject predicate object
            result }
    {
        let graphs = graphs_of(active, self.default_graph);
        self.layers.scan(graphs, subject, predicate, object)
    }

    /// The triples that `scan` gives, in an order that has this place in front where no number is given: so triples with the same subject, predicate
    /// or object follow one another, and `Triples::skip_agreeing` skips them. It takes no memory.
    pub fn scan_with_lead(
        &self,
        lead: Lead,
        active: Active,
        subject: Option<u32>,
        predicate: Option<u32>,
        object: Option<u32>,
    ) -> Triples<'_>
        ensures { AreTriplesAnyhow self.now.base self.now.default_graph active subject predicate
            object result }
    {
        let graphs = graphs_of(active, self.default_graph);
        self.layers
            .scan_with_lead(lead, graphs, subject, predicate, object)
    }

    // The draft's triples of a graph that have the numbers that are given, each once, in the order of `scan`. It takes no memory.
    pub(crate) fn scan_draft(
        &self,
        active: Active,
        subject: Option<u32>,
        predicate: Option<u32>,
        object: Option<u32>,
    ) -> Triples<'_>
        ensures { AreTriples self.now.draft self.now.default_graph active subject predicate object
            result }
    {
        let graphs = graphs_of(active, self.default_graph);
        self.layers.scan_draft(graphs, subject, predicate, object)
    }

    /// The quads of all named graphs that have the numbers that are given, each once. They ascend by predicate, object, subject and graph
    /// where the predicate is the first that is given or stands before the object, by object, subject, predicate and graph where the object
    /// is given without the predicate, and by subject, predicate, object and graph elsewhere. It takes no memory.
    pub fn scan_named(
        &self,
        subject: Option<u32>,
        predicate: Option<u32>,
        object: Option<u32>,
    ) -> NamedQuads<'_>
        ensures { AreNamedQuads self.now.base subject predicate object result }
    {
        self.layers.scan_named(subject, predicate, object)
    }

    // The quads of the draft's named graphs that have the numbers that are given.
    pub(crate) fn scan_draft_named(
        &self,
        subject: Option<u32>,
        predicate: Option<u32>,
        object: Option<u32>,
    ) -> NamedQuads<'_>
        ensures { AreNamedQuads self.now.draft subject predicate object result }
    {
        self.layers.scan_draft_named(subject, predicate, object)
    }

    /// About how many triples `scan` gives, by searches alone. Nothing is promised of the number: it serves as an estimate.
    pub fn about(
        &self,
        active: Active,
        subject: Option<u32>,
        predicate: Option<u32>,
        object: Option<u32>,
    ) -> u64 {
        let graphs = graphs_of(active, self.default_graph);
        self.layers.about(graphs, subject, predicate, object)
    }

    // About how many triples `scan_draft` gives.
    pub(crate) fn about_draft(
        &self,
        active: Active,
        subject: Option<u32>,
        predicate: Option<u32>,
        object: Option<u32>,
    ) -> u64 {
        let graphs = graphs_of(active, self.default_graph);
        self.layers.about_draft(graphs, subject, predicate, object)
    }

    /// About how many quads `scan_named` gives, by searches alone. Nothing is promised of the number: it serves as an estimate.
    pub fn about_named(
        &self,
        subject: Option<u32>,
        predicate: Option<u32>,
        object: Option<u32>,
    ) -> u64 {
        self.layers.about(Graphs::Named, subject, predicate, object)
    }

    // About how many quads `scan_draft_named` gives.
    pub(crate) fn about_draft_named(
        &self,
        subject: Option<u32>,
        predicate: Option<u32>,
        object: Option<u32>,
    ) -> u64 {
        self.layers
            .about_draft(Graphs::Named, subject, predicate, object)
    }

    /// The numbers of the names of the graphs that have quads, ascending. Its one refusal is running out of memory.
    pub fn graphs(&self) -> Result<Vec<u32>, StoreFault>
        ensures graphs { IfOk result (λ graphs. AreGraphs self.now.base graphs.items) }
        ensures memory { IfErr result (λ fault. fault ≡ Memory) }
    {
        let graphs = self.layers.graphs()?;
        Ok(graphs)
    }

    // The numbers of the names of the graphs that have quads of the draft, ascending. Its one refusal is running out of memory.
    pub(crate) fn draft_graphs(&self) -> Result<Vec<u32>, StoreFault>
        ensures graphs { IfOk result (λ graphs. AreGraphs self.now.draft graphs.items) }
        ensures memory { IfErr result (λ fault. fault ≡ Memory) }
    {
        let graphs = self.layers.draft_graphs()?;
        Ok(graphs)
    }

    // Whether the quad stands in the draft.
    pub(crate) fn draft_contains(&self, quad: &Quad) -> bool
        ensures { IsTrue result ↔ Contains self.now.draft.quads quad.now }
    {
        match entry_of(&self.dict, quad) {
            None => false,
            Some(entry) => self.layers.draft_contains(&entry),
        }
    }

    /// The quads, each once, in the order of quads (`Quad::order`), as copies. Its one refusal is running out of memory.
    pub fn quads(&self) -> Result<Vec<Quad>, StoreFault>
        ensures same { IfOk result (λ quads. SameBag self.now.base.quads quads.items) }
        ensures ascending { IfOk result (λ quads. IsSorted ⟦<Quad as Ord>⟧.cmp quads.items) }
        ensures memory { IfErr result (λ fault. fault ≡ Memory) }
    {
        let entries = self.layers.base()?;
        let quads = quads_of(self.alloc, &self.dict, &entries)?;
        Ok(quads)
    }

    // The quads of the draft.
    pub(crate) fn draft_quads(&self) -> Result<Vec<Quad>, StoreFault>
        ensures same { IfOk result (λ quads. SameBag self.now.draft.quads quads.items) }
        ensures ascending { IfOk result (λ quads. IsSorted ⟦<Quad as Ord>⟧.cmp quads.items) }
        ensures memory { IfErr result (λ fault. fault ≡ Memory) }
    {
        let entries = self.layers.draft()?;
        let quads = quads_of(self.alloc, &self.dict, &entries)?;
        Ok(quads)
    }

    // Forgets what a draft has left.
    pub(crate) fn reset(&mut self)
        ensures base { self.new.base ≡ self.old.base }
        ensures draft { self.new.draft ≡ self.old.base }
        ensures limit { self.new.limit ≡ self.old.limit }
        ensures default_graph { self.new.default_graph ≡ self.old.default_graph }
    {
        self.dict.cut(self.known);
        self.layers.reset();
        self.draft_next = self.next;
    }

    // Makes the draft the store.
    pub(crate) fn settle(&mut self)
        ensures quads { SameSet self.new.base.quads self.old.draft.quads }
        ensures next { self.new.base.next ≡ self.old.draft.next }
        ensures known { self.new.base.known ≡ self.old.draft.known }
        ensures limit { self.new.limit ≡ self.old.limit }
        ensures default_graph { self.new.default_graph ≡ self.old.default_graph }
    {
        self.layers.settle();
        self.known = self.dict.len();
        self.next = self.draft_next;
    }

    // The entry of the quad, whose new terms the draft knows then.
    pub(crate) fn number_in_draft(&mut self, quad: &Quad) -> Result<[u32; 4], StoreFault>
        ensures base { self.new.base ≡ self.old.base }
        ensures quads { self.new.draft.quads ≡ self.old.draft.quads }
        ensures next { self.new.draft.next ≡ self.old.draft.next }
        ensures said { IfOk result (λ entry. (entries : List (List ℕ))
            → AreEntries self.old.draft.known entries
            → IsSaidBehind self.old.draft.known entries quad.now self.new.draft.known entry) }
        ensures known { OnOk result ((first : List Term) (quads : List Statement)
            → self.old.draft.known ≡ with_terms_of first quads → self.new.draft.known
            ≡ with_terms_of first (quads ++ quad.now ∷ [])) }
        ensures full { IfErr result (λ fault. (first : List Term) (quads more : List Statement)
            → self.old.draft.known ≡ with_terms_of first quads
            → IsFullAt fault self.old.limit
            (length (with_terms_of first (quads ++ quad.now ∷ more)))) }
        ensures refused { OnErr result (self.new.draft ≡ self.old.draft) }
        ensures limit { self.new.limit ≡ self.old.limit }
        ensures default_graph { self.new.default_graph ≡ self.old.default_graph }
    {
        let len = self.dict.len();
        match numbered(&mut self.dict, quad) {
            Ok(entry) => Ok(entry),
            Err(fault) => {
                self.dict.cut(len);
                Err(fault)
            }
        }
    }

    // Whether the terms of the quad that is meant may stand in their places.
    pub(crate) fn draft_fits(&self, quad: QuadRef<'_>) -> bool
        requires { IsReferredQuad self.now.draft.known quad }
        ensures { let q = referred_quad self.now.draft.known quad.entry
            in result ≡ fits_places q.graph q.subject q.predicate }
    {
        fits(&self.dict, quad)
    }

    // The entry of the quad that is meant, where the draft knows all its terms.
    pub(crate) fn draft_entry(&self, quad: QuadRef<'_>) -> Option<[u32; 4]>
        requires { IsReferredQuad self.now.draft.known quad }
        ensures { result ≡ entry_of self.now.draft.known
            (referred_quad self.now.draft.known quad.entry) }
    {
        entry_of_ref(&self.dict, quad)
    }

    // The entry of the quad that is meant, whose new terms the draft knows then.
    pub(crate) fn number_ref_in_draft(&mut self, quad: QuadRef<'_>) -> Result<[u32; 4], StoreFault>
        requires numbers { IsReferredQuad self.old.draft.known quad }
        requires fits { let q = referred_quad self.old.draft.known quad
            in IsTrue (fits_places q.graph q.subject q.predicate) }
        ensures base { self.new.base ≡ self.old.base }
        ensures quads { self.new.draft.quads ≡ self.old.draft.quads }
        ensures next { self.new.draft.next ≡ self.old.draft.next }
        ensures said { IfOk result (λ entry. (entries : List (List ℕ))
            → AreEntries self.old.draft.known entries
            → IsSaidBehind self.old.draft.known entries
            (referred_quad self.old.draft.known quad.entry) self.new.draft.known entry) }
        ensures known { OnOk result ((first : List Term) (quads : List Statement)
            → self.old.draft.known ≡ with_terms_of first quads → self.new.draft.known
            ≡ with_terms_of first (quads ++ referred_quad self.old.draft.known quad.entry
            ∷ [])) }
        ensures full { IfErr result (λ fault. (first : List Term) (quads more : List Statement)
            → self.old.draft.known ≡ with_terms_of first quads
            → IsFullAt fault self.old.limit
            (length
            (with_terms_of first (quads ++ referred_quad self.old.draft.known quad.entry
            ∷ more)))) }
        ensures refused { OnErr result (self.new.draft ≡ self.old.draft) }
        ensures limit { self.new.limit ≡ self.old.limit }
        ensures default_graph { self.new.default_graph ≡ self.old.default_graph }
    {
        let len = self.dict.len();
        match numbered_ref(&mut self.dict, quad) {
            Ok(entry) => Ok(entry),
            Err(fault) => {
                self.dict.cut(len);
                Err(fault)
            }
        }
    }

    // Makes the draft the store, with the quads of the entries, too.
    pub(crate) fn settle_with(
        &mut self,
        entries: &mut [[u32; 4]],
        next: u64,
    ) -> Result<(), StoreFault>
        requires entries { AreEntries self.old.draft.known entries.old }
        requires next { self.old.draft.next ≤ next }
        requires above { IsTrue (is_above_blanks next (said self.old.draft.known entries.old)) }
        ensures quads { OnOk result
            (IsChanged self.old.draft.quads [] (said self.old.draft.known entries.old)
            self.new.base.quads) }
        ensures next { OnOk result (self.new.base.next ≡ next) }
        ensures known { OnOk result (self.new.base.known ≡ self.old.draft.known) }
        ensures room { OnOk result (length self.new.base.known ≤ self.old.limit) }
        ensures memory { IfErr result (λ fault. fault ≡ Memory) }
        ensures refused { OnErr result (self.new.base ≡ self.old.base) }
        ensures limit { self.new.limit ≡ self.old.limit }
        ensures default_graph { self.new.default_graph ≡ self.old.default_graph }
    {
        match self.layers.settle_with(entries) {
            Ok(()) => {
                self.known = self.dict.len();
                self.next = next;
                self.draft_next = next;
                Ok(())
            }
            Err(_) => {
                self.reset();
                Err(StoreFault::Memory)
            }
        }
    }

    // Makes a change of the draft.
    pub(crate) fn change_draft(
        &mut self,
        remove: &[Quad],
        add: &[Quad],
        next: u64,
    ) -> Result<(), StoreFault>
        requires next { self.old.draft.next ≤ next }
        requires above { IsTrue (is_above_blanks next add.now) }
        ensures base { self.new.base ≡ self.old.base }
        ensures quads { OnOk result
            (IsChanged self.old.draft.quads remove.now add.now self.new.draft.quads) }
        ensures next { OnOk result (self.new.draft.next ≡ next) }
        ensures known { OnOk result
            (KnowsTermsOf self.old.draft.known add.now self.new.draft.known) }
        ensures in_turn { OnOk result (self.new.draft.known ≡ with_terms_of self.old.draft.known
            add.now) }
        ensures full { IsFullExactly self.old.limit
            (length (with_terms_of self.old.draft.known add.now)) result }
        ensures refused { OnErr result (self.new.draft ≡ self.old.draft) }
        ensures limit { self.new.limit ≡ self.old.limit }
        ensures default_graph { self.new.default_graph ≡ self.old.default_graph }
    {
        let len = self.dict.len();
        match change(self.alloc, &mut self.dict, &mut self.layers, remove, add) {
            Ok(()) => {
                self.draft_next = next;
                Ok(())
            }
            Err(fault) => {
                self.dict.cut(len);
                Err(fault)
            }
        }
    }

    // Makes a change of the draft by entries over the terms that it knows.
    pub(crate) fn change_draft_entries(
        &mut self,
        remove: &mut [[u32; 4]],
        add: &mut [[u32; 4]],
        next: u64,
    ) -> Result<(), StoreFault>
        requires removed { AreEntries self.old.draft.known remove.old }
        requires added { AreEntries self.old.draft.known add.old }
        requires next { self.old.draft.next ≤ next }
        requires above { IsTrue (is_above_blanks next (said self.old.draft.known add.old)) }
        ensures base { self.new.base ≡ self.old.base }
        ensures quads { OnOk result
            (IsChanged self.old.draft.quads (said self.old.draft.known remove.old)
            (said self.old.draft.known add.old) self.new.draft.quads) }
        ensures next { OnOk result (self.new.draft.next ≡ next) }
        ensures known { self.new.draft.known ≡ self.old.draft.known }
        ensures room { length self.old.draft.known ≤ self.old.limit }
        ensures memory { IfErr result (λ fault. fault ≡ Memory) }
        ensures refused { OnErr result (self.new.draft ≡ self.old.draft) }
        ensures limit { self.new.limit ≡ self.old.limit }
        ensures default_graph { self.new.default_graph ≡ self.old.default_graph }
    {
        let _count = self.dict.len();
        self.layers.change(remove, add)?;
        self.draft_next = next;
        Ok(())
    }

    // Whether the draft has quads in the graph of this name.
    pub(crate) fn draft_has_graph(&self, name: &Term) -> bool
        ensures { result ≡ exists (Some name.now) self.now.draft.quads }
    {
        match filled(&self.dict, &self.layers, Some(name)) {
            None => false,
            Some(_) => true,
        }
    }

    // Removes the draft's quads in a graph.
    pub(crate) fn clear_draft_graph(&mut self, name: Option<&Term>) -> Result<(), StoreFault>
        ensures base { self.new.base ≡ self.old.base }
        ensures quads { OnOk result
            (IsChanged self.old.draft.quads
            (in_graph (option_copied name.entry) self.old.draft.quads) []
            self.new.draft.quads) }
        ensures next { self.new.draft.next ≡ self.old.draft.next }
        ensures known { self.new.draft.known ≡ self.old.draft.known }
        ensures room { OnOk result (length self.old.draft.known ≤ self.old.limit) }
        ensures memory { IfErr result (λ fault. fault ≡ Memory) }
        ensures refused { OnErr result (self.new.draft ≡ self.old.draft) }
        ensures limit { self.new.limit ≡ self.old.limit }
        ensures default_graph { self.new.default_graph ≡ self.old.default_graph }
    {
        clear(&self.dict, &mut self.layers, name)?;
        Ok(())
    }

    // Removes the draft's quads in all named graphs.
    pub(crate) fn clear_draft_named(&mut self) -> Result<(), StoreFault>
        ensures base { self.new.base ≡ self.old.base }
        ensures quads { OnOk result
            (IsChanged self.old.draft.quads (filter is_named self.old.draft.quads) []
            self.new.draft.quads) }
        ensures next { self.new.draft.next ≡ self.old.draft.next }
        ensures known { self.new.draft.known ≡ self.old.draft.known }
        ensures room { OnOk result (length self.old.draft.known ≤ self.old.limit) }
        ensures memory { IfErr result (λ fault. fault ≡ Memory) }
        ensures refused { OnErr result (self.new.draft ≡ self.old.draft) }
        ensures limit { self.new.limit ≡ self.old.limit }
        ensures default_graph { self.new.default_graph ≡ self.old.default_graph }
    {
        let mut outs = entries_named(&self.dict, &self.layers)?;
        remove(&self.dict, &mut self.layers, outs.as_mut_slice())?;
        Ok(())
    }

    // Removes all quads of the draft.
    pub(crate) fn clear_draft_all(&mut self) -> Result<(), StoreFault>
        ensures base { self.new.base ≡ self.old.base }
        ensures quads { OnOk result
            (IsChanged self.old.draft.quads self.old.draft.quads [] self.new.draft.quads) }
        ensures next { self.new.draft.next ≡ self.old.draft.next }
        ensures known { self.new.draft.known ≡ self.old.draft.known }
        ensures room { OnOk result (length self.old.draft.known ≤ self.old.limit) }
        ensures memory { IfErr result (λ fault. fault ≡ Memory) }
        ensures refused { OnErr result (self.new.draft ≡ self.old.draft) }
        ensures limit { self.new.limit ≡ self.old.limit }
        ensures default_graph { self.new.default_graph ≡ self.old.default_graph }
    {
        let mut outs = self.layers.draft()?;
        remove(&self.dict, &mut self.layers, outs.as_mut_slice())?;
        Ok(())
    }

    // Puts the draft's quads in a graph into another one.
    pub(crate) fn transfer_draft(
        &mut self,
        removal: Removal,
        from: Option<&Term>,
        to: Option<&Term>,
    ) -> Result<(), StoreFault>
        requires lawful { IsTrue (is_graph (option_copied to)) }
        requires above { IsTrue (is_graph_below self.old.draft.next (option_copied to)) }
        ensures base { self.new.base ≡ self.old.base }
        ensures quads { OnOk result
            (IsChanged self.old.draft.quads
            (removed_by removal (option_copied from.entry) (option_copied to.entry)
            self.old.draft.quads)
            (copies (option_copied from.entry) (option_copied to.entry) self.old.draft.quads)
            self.new.draft.quads) }
        ensures next { self.new.draft.next ≡ self.old.draft.next }
        ensures known { OnOk result
            (KnowsTermsOf self.old.draft.known
            (copies (option_copied from.entry) (option_copied to.entry) self.old.draft.quads)
            self.new.draft.known) }
        ensures full { IsFullExactly self.old.limit
            (length
            (with_terms_of self.old.draft.known
            (copies (option_copied from.entry) (option_copied to.entry)
            self.old.draft.quads))) result }
        ensures refused { OnErr result (self.new.draft ≡ self.old.draft) }
        ensures limit { self.new.limit ≡ self.old.limit }
        ensures default_graph { self.new.default_graph ≡ self.old.default_graph }
    {
        let known = self.dict.len();
        match transfer(
            self.alloc,
            &mut self.dict,
            &mut self.layers,
            removal,
            from,
            to,
        ) {
            Ok(()) => Ok(()),
            Err(fault) => {
                self.dict.cut(known);
                Err(fault)
            }
        }
    }

    /// Removes the quads of `remove` and then adds those of `add`; `next` becomes the next blank node's number, which is no less than
    /// the present one and above those of the blank nodes of `add`. `Full` is answered exactly where the known terms and the other terms
    /// of `add` are more than the limit, as far as there is memory. Where it is refused the store stays as it was, its known terms included.
    pub fn change(&mut self, remove: &[Quad], add: &[Quad], next: u64) -> Result<(), StoreFault>
        requires next { self.old.base.next ≤ next }
        requires above { IsTrue (is_above_blanks next add.now) }
        ensures quads { OnOk result
            (IsChanged self.old.base.quads remove.now add.now self.new.base.quads) }
        ensures next { OnOk result (self.new.base.next ≡ next) }
        ensures known { OnOk result (KnowsTermsOf self.old.base.known add.now self.new.base.known) }
        ensures full { IsFullExactly self.old.limit
            (length (with_terms_of self.old.base.known add.now)) result }
        ensures refused { OnErr result (self.new.base ≡ self.old.base) }
        ensures limit { self.new.limit ≡ self.old.limit }
        ensures default_graph { self.new.default_graph ≡ self.old.default_graph }
    {
        self.reset();
        match self.change_draft(remove, add, next) {
            Ok(()) => {
                self.settle();
                Ok(())
            }
            Err(fault) => {
                self.reset();
                Err(fault)
            }
        }
    }
}
