//! What can be read of a store and of a draft.
//!
//! That the terms of quads are known, and that their places are lawful, are clauses of `terms`: a reader of scans needs them,
//! `count` needs neither. An update's WHERE needs the second: a predicate that were a blank node could make a fresh number occur
//! twice.

ghost use Rattle.std.specs.Prelude.{◌≡◌, ◌↔◌, Some, length, Contains, IsTrue, IfOk, IfErr};
ghost use Rattle.std.specs.List.Sorted.{IsSorted};
ghost use Rattle.std.specs.Option.{option_map};
ghost use Rattle.qs_terms.specs.Bag.{SameBag};
ghost use Rattle.qs_terms.specs.Dataset.{is_above_blanks};
ghost use Rattle.qs_expr_values.specs.inner.TermValue.{term_value};
ghost use Rattle.qs_dict.specs.inner.Dict.{IsInUse, term_at, number_of};
ghost use Rattle.qs_store.specs.Content.{Content};
ghost use Rattle.qs_store.specs.inner.Content.{AreLawful, IsContent, KnowsItsTerms};
ghost use Rattle.qs_store.specs.inner.Graphs.{AreGraphs};
ghost use Rattle.qs_store.specs.inner.NamedQuads.{AreNamedQuads};
ghost use Rattle.qs_store.specs.inner.Triples.{AreTriples, AreTriplesAnyhow};
ghost use Rattle.qs_store.specs.declared.default_graph.DefaultGraph.{DefaultGraph};
ghost use Rattle.qs_store.specs.declared.fault.StoreFault.TheVariants.{Memory};

use crate::active::Active;
use crate::default_graph::DefaultGraph;
use crate::draft::Draft;
use crate::fault::StoreFault;
use crate::named_quads::NamedQuads;
use crate::store::Store;
use crate::triples::Triples;
use qs_expr_values::TermValue;
use qs_index::permutation::Lead;
use qs_terms::{Quad, Term};
use std::hash::RandomState;

/// What a reader sees of a store or of a draft: its content, and which default graph queries see.
pub trait View {
    ghost content: { Self → Content };

    ghost default_seen: { Self → DefaultGraph };

    /// Which default graph queries see.
    fn default_graph(&self) -> DefaultGraph
        ensures { result ≡ default_seen self.now };

    /// What terms are hashed by, since strangers choose them.
    fn hasher(&self) -> RandomState;

    /// The next blank node's number, which is above those of all blank nodes of the quads.
    fn next_blank(&self) -> u64
        ensures next { result ≡ (content self.now).next }
        ensures above { IsTrue (is_above_blanks result (content self.now).quads) };

    /// How many quads there are. It takes no memory, and goes over none.
    fn count(&self) -> u128
        ensures count { result ≡ length (content self.now).quads }
        ensures lawful { IsContent (content self.now) };

    /// How many terms are known: the numbers in use are those from 1 to it. The terms of the quads are among them,
    /// and each stands where it may.
    fn terms(&self) -> u32
        ensures count { result ≡ length (content self.now).known }
        ensures known { KnowsItsTerms (content self.now) }
        ensures places { AreLawful (content self.now).quads };

    /// The term with the number, which is in use.
    fn term(&self, number: u32) -> &Term
        requires { IsInUse (content self.now).known number }
        ensures { term_at (content self.now).known number ≡ Some result.now };

    /// What the term with the number, which is in use, is worth. It takes no memory, and the term's text isn't read.
    fn value(&self, number: u32) -> TermValue
        requires { IsInUse (content self.now).known number }
        ensures { option_map term_value (term_at (content self.now).known number) ≡ Some result };

    /// The number of the term, where it is known.
    fn find(&self, term: &Term) -> Option<u32>
        ensures { result ≡ number_of (content self.now).known term.now };

    /// Whether the quad is there. It takes no memory.
    fn contains(&self, quad: &Quad) -> bool
        ensures { IsTrue result ↔ Contains (content self.now).quads quad.now };

    /// The triples of a graph that have the numbers that are given, each once, in the order that `Store::scan` tells. It takes no memory.
    fn scan(
        &self,
        active: Active,
        subject: Option<u32>,
        predicate: Option<u32>,
        object: Option<u32>,
    ) -> Triples<'_>
        ensures { AreTriples (content self.now) (default_seen self.now) active subject predicate
            object result };

    /// The triples that `scan` gives, in some order. Where no number is given a store has those with the same term in this place follow one another.
    /// It takes no memory.
    fn scan_with_lead(
        &self,
        lead: Lead,
        active: Active,
        subject: Option<u32>,
        predicate: Option<u32>,
        object: Option<u32>,
    ) -> Triples<'_>
        ensures { AreTriplesAnyhow (content self.now) (default_seen self.now) active subject
            predicate object result };

    /// The quads of all named graphs that have the numbers that are given, each once. They ascend by predicate, object, subject and graph
    /// where the predicate is the first that is given or stands before the object, by object, subject, predicate and graph where the object
    /// is given without the predicate, and by subject, predicate, object and graph elsewhere. It takes no memory.
    fn scan_named(
        &self,
        subject: Option<u32>,
        predicate: Option<u32>,
        object: Option<u32>,
    ) -> NamedQuads<'_>
        ensures { AreNamedQuads (content self.now) subject predicate object result };

    /// About how many triples `scan` gives. It takes no memory, and goes over none. Nothing is promised of the number: it serves as an estimate.
    fn about(
        &self,
        active: Active,
        subject: Option<u32>,
        predicate: Option<u32>,
        object: Option<u32>,
    ) -> u64;

    /// About how many quads `scan_named` gives. It takes no memory, and goes over none. Nothing is promised of the number.
    fn about_named(&self, subject: Option<u32>, predicate: Option<u32>, object: Option<u32>) -> u64;

    /// The numbers of the names of the graphs that have quads, ascending. Its one refusal is running out of memory.
    fn graphs(&self) -> Result<Vec<u32>, StoreFault>
        ensures graphs { IfOk result (λ graphs. AreGraphs (content self.now) graphs.items) }
        ensures memory { IfErr result (λ fault. fault ≡ Memory) };

    /// The quads, each once, in the order of quads (`Quad::order`), as copies. Its one refusal is running out of memory.
    fn quads(&self) -> Result<Vec<Quad>, StoreFault>
        ensures same { IfOk result (λ quads. SameBag (content self.now).quads quads.items) }
        ensures ascending { IfOk result (λ quads. IsSorted ⟦<Quad as Ord>⟧.cmp quads.items) }
        ensures memory { IfErr result (λ fault. fault ≡ Memory) };
}

impl View for Store {
    ghost content = { λ s. s.base };

    ghost default_seen = { λ s. s.default_graph };

    fn default_graph(&self) -> DefaultGraph {
        Store::default_graph(self)
    }

    fn hasher(&self) -> RandomState {
        Store::hasher(self)
    }

    fn next_blank(&self) -> u64 {
        Store::next_blank(self)
    }

    fn count(&self) -> u128 {
        Store::count(self)
    }

    fn terms(&self) -> u32 {
        Store::terms(self)
    }

    fn term(&self, number: u32) -> &Term {
        Store::term(self, number)
    }

    fn value(&self, number: u32) -> TermValue {
        Store::value(self, number)
    }

    fn find(&self, term: &Term) -> Option<u32> {
        Store::find(self, term)
    }

    fn contains(&self, quad: &Quad) -> bool {
        Store::contains(self, quad)
    }

    fn scan(
        &self,
        active: Active,
        subject: Option<u32>,
        predicate: Option<u32>,
        object: Option<u32>,
    ) -> Triples<'_> {
        Store::scan(self, active, subject, predicate, object)
    }

    fn scan_with_lead(
        &self,
        lead: Lead,
        active: Active,
        subject: Option<u32>,
        predicate: Option<u32>,
        object: Option<u32>,
    ) -> Triples<'_> {
        Store::scan_with_lead(self, lead, active, subject, predicate, object)
    }

    fn scan_named(
        &self,
        subject: Option<u32>,
        predicate: Option<u32>,
        object: Option<u32>,
    ) -> NamedQuads<'_> {
        Store::scan_named(self, subject, predicate, object)
    }

    fn about(
        &self,
        active: Active,
        subject: Option<u32>,
        predicate: Option<u32>,
        object: Option<u32>,
    ) -> u64 {
        Store::about(self, active, subject, predicate, object)
    }

    fn about_named(
        &self,
        subject: Option<u32>,
        predicate: Option<u32>,
        object: Option<u32>,
    ) -> u64 {
        Store::about_named(self, subject, predicate, object)
    }

    fn graphs(&self) -> Result<Vec<u32>, StoreFault> {
        Store::graphs(self)
    }

    fn quads(&self) -> Result<Vec<Quad>, StoreFault> {
        Store::quads(self)
    }
}

impl<'a> View for Draft<'a> {
    ghost content = { λ d. d.store.now.draft };

    ghost default_seen = { λ d. d.store.now.default_graph };

    fn default_graph(&self) -> DefaultGraph {
        Draft::default_graph(self)
    }

    fn hasher(&self) -> RandomState {
        Draft::hasher(self)
    }

    fn next_blank(&self) -> u64 {
        Draft::next_blank(self)
    }

    fn count(&self) -> u128 {
        Draft::count(self)
    }

    fn terms(&self) -> u32 {
        Draft::terms(self)
    }

    fn term(&self, number: u32) -> &Term {
        Draft::term(self, number)
    }

    fn value(&self, number: u32) -> TermValue {
        Draft::value(self, number)
    }

    fn find(&self, term: &Term) -> Option<u32> {
        Draft::find(self, term)
    }

    fn contains(&self, quad: &Quad) -> bool {
        Draft::contains(self, quad)
    }

    fn scan(
        &self,
        active: Active,
        subject: Option<u32>,
        predicate: Option<u32>,
        object: Option<u32>,
    ) -> Triples<'_> {
        Draft::scan(self, active, subject, predicate, object)
    }

    fn scan_with_lead(
        &self,
        lead: Lead,
        active: Active,
        subject: Option<u32>,
        predicate: Option<u32>,
        object: Option<u32>,
    ) -> Triples<'_> {
        Draft::scan_with_lead(self, lead, active, subject, predicate, object)
    }

    fn scan_named(
        &self,
        subject: Option<u32>,
        predicate: Option<u32>,
        object: Option<u32>,
    ) -> NamedQuads<'_> {
        Draft::scan_named(self, subject, predicate, object)
    }

    fn about(
        &self,
        active: Active,
        subject: Option<u32>,
        predicate: Option<u32>,
        object: Option<u32>,
    ) -> u64 {
        Draft::about(self, active, subject, predicate, object)
    }

    fn about_named(
        &self,
        subject: Option<u32>,
        predicate: Option<u32>,
        object: Option<u32>,
    ) -> u64 {
        Draft::about_named(self, subject, predicate, object)
    }

    fn graphs(&self) -> Result<Vec<u32>, StoreFault> {
        Draft::graphs(self)
    }

    fn quads(&self) -> Result<Vec<Quad>, StoreFault> {
        Draft::quads(self)
    }
}
