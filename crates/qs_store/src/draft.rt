//! Drafts of a store.

ghost use Rattle.std.specs.Prelude.{◌≡◌, ◌↔◌, ◌≤◌, ◌++◌, ◌∷◌, ℕ, List, [], Some, length, take, Contains, IsTrue, IfOk, IfErr, OnOk, OnErr};
ghost use Rattle.std.specs.List.{filter};
ghost use Rattle.std.specs.List.Sorted.{IsSorted};
ghost use Rattle.std.specs.Option.{option_copied, option_map};
ghost use Rattle.qs_terms.specs.Bag.{SameBag};
ghost use Rattle.qs_terms.specs.Dataset.{is_above_blanks};
ghost use Rattle.qs_terms.specs.inner.Dataset.{is_graph_below, is_graph};
ghost use Rattle.qs_terms.specs.Statement.{Statement, fits_places};
ghost use Rattle.qs_terms.specs.declared.term.Term.{Term};
ghost use Rattle.qs_expr_values.specs.inner.TermValue.{term_value};
ghost use Rattle.qs_dict.specs.inner.Dict.{IsInUse, IsDictionary, term_at, number_of};
ghost use Rattle.qs_store.specs.Change.{IsChanged, KnowsTermsOf, with_terms_of};
ghost use Rattle.qs_store.specs.inner.Change.{IsFullExactly, IsFullAt};
ghost use Rattle.qs_store.specs.Content.{Content, Held};
ghost use Rattle.qs_store.specs.inner.Content.{AreLawful, IsContent, KnowsItsTerms};
ghost use Rattle.qs_store.specs.inner.Entries.{said, entry_of, AreEntries, IsSaidBehind};
ghost use Rattle.qs_store.specs.inner.Graphs.{AreGraphs};
ghost use Rattle.qs_store.specs.inner.References.{referred_quad, IsReferredQuad};
ghost use Rattle.qs_store.specs.Same.{SameSet};
ghost use Rattle.qs_store.specs.inner.Store.{IsFront};
ghost use Rattle.qs_store.specs.inner.NamedQuads.{AreNamedQuads};
ghost use Rattle.qs_store.specs.inner.Triples.{AreTriples, AreTriplesAnyhow};
ghost use Rattle.qs_store.specs.WholeGraphs.{copies, exists, in_graph, is_named, removed_by};
ghost use Rattle.qs_store.specs.declared.default_graph.DefaultGraph.TheVariants.{Stored};
ghost use Rattle.qs_store.specs.declared.fault.StoreFault.TheVariants.{Memory};

use crate::active::Active;
use crate::default_graph::DefaultGraph;
use crate::fault::StoreFault;
use crate::named_quads::NamedQuads;
use crate::reference::QuadRef;
use crate::removal::Removal;
use crate::store::Store;
use crate::triples::Triples;
use qs_expr_values::TermValue;
use qs_index::permutation::Lead;
use qs_terms::{Quad, Term};
use std::hash::RandomState;

/// A store with quads added and removed, which has to be spent by `commit` or `abandon`.
pub struct Draft<'a> {
    store: &'a mut Store,
}

impl Store {
    /// A draft of the store. What it becomes is the store's by `commit` alone. It takes no memory.
    pub fn draft(&mut self) -> Draft<'_>
        ensures same_reference { result.store.ghost_name ≡ self.entry.ghost_name }
        ensures base { result.store.now.base ≡ self.old.base }
        ensures draft { result.store.now.draft ≡ self.old.base }
        ensures limit { result.store.now.limit ≡ self.old.limit }
        ensures default_graph { result.store.now.default_graph ≡ self.old.default_graph }
    {
        self.reset();
        Draft { store: self }
    }
}

impl<'a> Draft<'a> {
    /// The triples of a graph of the draft that have the numbers that are given, each once, in the order in which `Store::scan` gives
    /// those of a store. It takes no memory.
    pub fn scan(
        &self,
        active: Active,
        subject: Option<u32>,
        predicate: Option<u32>,
        object: Option<u32>,
    ) -> Triples<'_>
        ensures { AreTriples self.now.store.now.draft self.now.store.now.default_graph active
            subject predicate object result }
    {
        let store: &Store = self.store;
        store.scan_draft(active, subject, predicate, object)
    }

    /// The triples that `scan` gives. A draft has them in the order of `scan`, whatever place is to be in front. It takes no memory.
    pub fn scan_with_lead(
        &self,
        _lead: Lead,
        active: Active,
        subject: Option<u32>,
        predicate: Option<u32>,
        object: Option<u32>,
    ) -> Triples<'_>
        ensures { AreTriplesAnyhow self.now.store.now.draft self.now.store.now.default_graph active
            subject predicate object result }
    {
        self.scan(active, subject, predicate, object)
    }

    /// The quads of the draft's named graphs that have the numbers that are given, each once, in the order in which
    /// `Store::scan_named` gives those of a store. It takes no memory.
    pub fn scan_named(
        &self,
        subject: Option<u32>,
        predicate: Option<u32>,
        object: Option<u32>,
    ) -> NamedQuads<'_>
        ensures { AreNamedQuads self.now.store.now.draft subject predicate object result }
    {
        let store: &Store = self.store;
        store.scan_draft_named(subject, predicate, object)
    }

    /// About how many triples `scan` gives, by searches alone. Nothing is promised of the number: it serves as an estimate.
    pub fn about(
        &self,
        active: Active,
        subject: Option<u32>,
        predicate: Option<u32>,
        object: Option<u32>,
    ) -> u64 {
        let store: &Store = self.store;
        store.about_draft(active, subject, predicate, object)
    }

    /// About how many quads `scan_named` gives, by searches alone. Nothing is promised of the number: it serves as an estimate.
    pub fn about_named(
        &self,
        subject: Option<u32>,
        predicate: Option<u32>,
        object: Option<u32>,
    ) -> u64 {
        let store: &Store = self.store;
        store.about_draft_named(subject, predicate, object)
    }

    /// The quads of the draft, each once, in the order of quads (`Quad::order`), as copies. Its one refusal is running out of memory.
    pub fn quads(&self) -> Result<Vec<Quad>, StoreFault>
        ensures same { IfOk result (λ quads. SameBag self.now.store.now.draft.quads quads.items) }
        ensures ascending { IfOk result (λ quads. IsSorted ⟦<Quad as Ord>⟧.cmp quads.items) }
        ensures memory { IfErr result (λ fault. fault ≡ Memory) }
    {
        let store: &Store = self.store;
        store.draft_quads()
    }

    /// The numbers of the names of the graphs that have quads in the draft, ascending. Its one refusal is running out of memory.
    pub fn graphs(&self) -> Result<Vec<u32>, StoreFault>
        ensures graphs { IfOk result (λ graphs. AreGraphs self.now.store.now.draft graphs.items) }
        ensures memory { IfErr result (λ fault. fault ≡ Memory) }
    {
        let store: &Store = self.store;
        store.draft_graphs()
    }

    /// Whether the quad stands in the draft. It takes no memory.
    pub fn contains(&self, quad: &Quad) -> bool
        ensures { IsTrue result ↔ Contains self.now.store.now.draft.quads quad.now }
    {
        let store: &Store = self.store;
        store.draft_contains(quad)
    }

    /// How many quads the draft has. It takes no memory, and goes over none.
    pub fn count(&self) -> u128
        ensures count { result ≡ length self.now.store.now.draft.quads }
        ensures lawful { IsContent self.now.store.now.draft }
    {
        let store: &Store = self.store;
        store.draft_count()
    }

    /// How many terms the draft knows: the numbers in use are those from 1 to it. The terms of the quads are among them,
    /// and each stands where it may.
    pub fn terms(&self) -> u32
        ensures count { result ≡ length self.now.store.now.draft.known }
        ensures known { KnowsItsTerms self.now.store.now.draft }
        ensures places { AreLawful self.now.store.now.draft.quads }
    {
        let store: &Store = self.store;
        store.draft_terms()
    }

    /// The term with the number, which is in use.
    pub fn term(&self, number: u32) -> &Term
        requires { IsInUse self.now.store.now.draft.known number }
        ensures { term_at self.now.store.now.draft.known number ≡ Some result.now }
    {
        let store: &Store = self.store;
        store.draft_term(number)
    }

    /// What the term with the number, which is in use, is worth. It takes no memory, and the term's text isn't read.
    pub fn value(&self, number: u32) -> TermValue
        requires { IsInUse self.now.store.now.draft.known number }
        ensures { option_map term_value (term_at self.now.store.now.draft.known number)
            ≡ Some result }
    {
        let store: &Store = self.store;
        store.draft_value(number)
    }

    /// The number of the term, where the draft knows it.
    pub fn find(&self, term: &Term) -> Option<u32>
        ensures { result ≡ number_of self.now.store.now.draft.known term.now }
    {
        let store: &Store = self.store;
        store.draft_find(term)
    }

    /// Which default graph queries see.
    pub fn default_graph(&self) -> DefaultGraph
        ensures { result ≡ self.now.store.now.default_graph }
    {
        let store: &Store = self.store;
        store.default_graph()
    }

    /// What terms are hashed by.
    pub fn hasher(&self) -> RandomState {
        let store: &Store = self.store;
        store.hasher()
    }

    /// The next blank node's number of the draft, which is above those of all blank nodes of its quads.
    pub fn next_blank(&self) -> u64
        ensures next { result ≡ self.now.store.now.draft.next }
        ensures above { IsTrue (is_above_blanks result self.now.store.now.draft.quads) }
    {
        let store: &Store = self.store;
        store.draft_next_blank()
    }

    /// Changes the draft as `Store::change` does the store, and makes each growth that a commit will need. The new terms are known in the
    /// order in which they first stand in `add`. Where it is refused the draft stays as it was, its known terms included.
    pub fn change(&mut self, remove: &[Quad], add: &[Quad], next: u64) -> Result<(), StoreFault>
        requires next { self.old.store.now.draft.next ≤ next }
        requires above { IsTrue (is_above_blanks next add.now) }
        ensures same_reference { self.new.store.ghost_name ≡ self.old.store.ghost_name }
        ensures base { self.new.store.now.base ≡ self.old.store.now.base }
        ensures quads { OnOk result (IsChanged self.old.store.now.draft.quads remove.now add.now
            self.new.store.now.draft.quads) }
        ensures next { OnOk result (self.new.store.now.draft.next ≡ next) }
        ensures known { OnOk result
            (KnowsTermsOf self.old.store.now.draft.known add.now self.new.store.now.draft.known) }
        ensures in_turn { OnOk result
            (self.new.store.now.draft.known ≡ with_terms_of self.old.store.now.draft.known
            add.now) }
        ensures full { IsFullExactly self.old.store.now.limit
            (length (with_terms_of self.old.store.now.draft.known add.now)) result }
        ensures refused { OnErr result (self.new.store.now.draft ≡ self.old.store.now.draft) }
        ensures limit { self.new.store.now.limit ≡ self.old.store.now.limit }
        ensures default_graph { self.new.store.now.default_graph
            ≡ self.old.store.now.default_graph }
    {
        self.store.change_draft(remove, add, next)
    }

    /// Whether the draft has quads in the graph of this name. It takes no memory.
    pub fn has_graph(&self, name: &Term) -> bool
        ensures { result ≡ exists (Some name.now) self.now.store.now.draft.quads }
    {
        let store: &Store = self.store;
        store.draft_has_graph(name)
    }

    /// Removes the quads in the graph of this name, or in the default graph, in a time that goes by these (SPARQL 1.1 Update, 3.1.5). The
    /// known terms stay, and the next number does; each growth that a commit will need is made. Its one refusal is running out of memory, which
    /// leaves the draft as it was.
    pub fn clear_graph(&mut self, name: Option<&Term>) -> Result<(), StoreFault>
        ensures same_reference { self.new.store.ghost_name ≡ self.old.store.ghost_name }
        ensures base { self.new.store.now.base ≡ self.old.store.now.base }
        ensures quads { OnOk result
            (IsChanged self.old.store.now.draft.quads
            (in_graph (option_copied name.entry) self.old.store.now.draft.quads) []
            self.new.store.now.draft.quads) }
        ensures next { self.new.store.now.draft.next ≡ self.old.store.now.draft.next }
        ensures known { self.new.store.now.draft.known ≡ self.old.store.now.draft.known }
        ensures room { OnOk result
            (length self.old.store.now.draft.known ≤ self.old.store.now.limit) }
        ensures memory { IfErr result (λ fault. fault ≡ Memory) }
        ensures refused { OnErr result (self.new.store.now.draft ≡ self.old.store.now.draft) }
        ensures limit { self.new.store.now.limit ≡ self.old.store.now.limit }
        ensures default_graph { self.new.store.now.default_graph
            ≡ self.old.store.now.default_graph }
    {
        self.store.clear_draft_graph(name)
    }

    /// Removes the quads in all named graphs, as `clear_graph` does those in one.
    pub fn clear_named(&mut self) -> Result<(), StoreFault>
        ensures same_reference { self.new.store.ghost_name ≡ self.old.store.ghost_name }
        ensures base { self.new.store.now.base ≡ self.old.store.now.base }
        ensures quads { OnOk result
            (IsChanged self.old.store.now.draft.quads
            (filter is_named self.old.store.now.draft.quads) []
            self.new.store.now.draft.quads) }
        ensures next { self.new.store.now.draft.next ≡ self.old.store.now.draft.next }
        ensures known { self.new.store.now.draft.known ≡ self.old.store.now.draft.known }
        ensures room { OnOk result
            (length self.old.store.now.draft.known ≤ self.old.store.now.limit) }
        ensures memory { IfErr result (λ fault. fault ≡ Memory) }
        ensures refused { OnErr result (self.new.store.now.draft ≡ self.old.store.now.draft) }
        ensures limit { self.new.store.now.limit ≡ self.old.store.now.limit }
        ensures default_graph { self.new.store.now.default_graph
            ≡ self.old.store.now.default_graph }
    {
        self.store.clear_draft_named()
    }

    /// Removes all quads, as `clear_graph` does those in one graph.
    pub fn clear_all(&mut self) -> Result<(), StoreFault>
        ensures same_reference { self.new.store.ghost_name ≡ self.old.store.ghost_name }
        ensures base { self.new.store.now.base ≡ self.old.store.now.base }
        ensures quads { OnOk result
            (IsChanged self.old.store.now.draft.quads self.old.store.now.draft.quads []
            self.new.store.now.draft.quads) }
        ensures next { self.new.store.now.draft.next ≡ self.old.store.now.draft.next }
        ensures known { self.new.store.now.draft.known ≡ self.old.store.now.draft.known }
        ensures room { OnOk result
            (length self.old.store.now.draft.known ≤ self.old.store.now.limit) }
        ensures memory { IfErr result (λ fault. fault ≡ Memory) }
        ensures refused { OnErr result (self.new.store.now.draft ≡ self.old.store.now.draft) }
        ensures limit { self.new.store.now.limit ≡ self.old.store.now.limit }
        ensures default_graph { self.new.store.now.default_graph
            ≡ self.old.store.now.default_graph }
    {
        self.store.clear_draft_all()
    }

    /// Removes the quads that `removal` names, and then puts those that stood in the graph `from` into the graph `to` too (SPARQL 1.1
    /// Update, 3.2.3 to 3.2.5), in a time that goes by the quads of the two graphs. `None` is the default graph. Only where there are
    /// quads in `from` the name of `to` becomes a known term, and `Full` is answered exactly where it is then one more than the limit, as
    /// far as there is memory. The next number stays; each growth that a commit will need is made. Where it is refused the draft stays as
    /// it was, its known terms included.
    pub fn transfer(
        &mut self,
        removal: Removal,
        from: Option<&Term>,
        to: Option<&Term>,
    ) -> Result<(), StoreFault>
        requires lawful { IsTrue (is_graph (option_copied to)) }
        requires above { IsTrue (is_graph_below self.old.store.now.draft.next (option_copied to)) }
        ensures same_reference { self.new.store.ghost_name ≡ self.old.store.ghost_name }
        ensures base { self.new.store.now.base ≡ self.old.store.now.base }
        ensures quads { OnOk result
            (IsChanged self.old.store.now.draft.quads
            (removed_by removal (option_copied from.entry) (option_copied to.entry)
            self.old.store.now.draft.quads)
            (copies (option_copied from.entry) (option_copied to.entry)
            self.old.store.now.draft.quads) self.new.store.now.draft.quads) }
        ensures next { self.new.store.now.draft.next ≡ self.old.store.now.draft.next }
        ensures known { OnOk result
            (KnowsTermsOf self.old.store.now.draft.known
            (copies (option_copied from.entry) (option_copied to.entry)
            self.old.store.now.draft.quads) self.new.store.now.draft.known) }
        ensures full { IsFullExactly self.old.store.now.limit
            (length
            (with_terms_of self.old.store.now.draft.known
            (copies (option_copied from.entry) (option_copied to.entry)
            self.old.store.now.draft.quads))) result }
        ensures refused { OnErr result (self.new.store.now.draft ≡ self.old.store.now.draft) }
        ensures limit { self.new.store.now.limit ≡ self.old.store.now.limit }
        ensures default_graph { self.new.store.now.default_graph
            ≡ self.old.store.now.default_graph }
    {
        self.store.transfer_draft(removal, from, to)
    }

    /// The entry of the quad: the numbers of its graph's name, or 0 for the default graph, and of its subject, predicate and object. The
    /// quad's new terms become known to the draft, and the quad itself isn't put in. `Full` is answered only where the known terms and
    /// the other ones of the quad are more than the limit. Where it is refused the draft stays as it was.
    pub fn number(&mut self, quad: &Quad) -> Result<[u32; 4], StoreFault>
        ensures same_reference { self.new.store.ghost_name ≡ self.old.store.ghost_name }
        ensures base { self.new.store.now.base ≡ self.old.store.now.base }
        ensures quads { self.new.store.now.draft.quads ≡ self.old.store.now.draft.quads }
        ensures next { self.new.store.now.draft.next ≡ self.old.store.now.draft.next }

        // Entries over the terms that were known, with this one after them, say what they said, with the quad after it.
        ensures said { IfOk result (λ entry. (entries : List (List ℕ))
            → AreEntries self.old.store.now.draft.known entries
            → IsSaidBehind self.old.store.now.draft.known entries quad.now
            self.new.store.now.draft.known entry) }
        ensures known { OnOk result ((first : List Term) (quads : List Statement)
            → self.old.store.now.draft.known ≡ with_terms_of first quads
            → self.new.store.now.draft.known ≡ with_terms_of first (quads ++ quad.now ∷ [])) }
        ensures full { IfErr result (λ fault. (first : List Term) (quads more : List Statement)
            → self.old.store.now.draft.known ≡ with_terms_of first quads
            → IsFullAt fault self.old.store.now.limit
            (length (with_terms_of first (quads ++ quad.now ∷ more)))) }
        ensures refused { OnErr result (self.new.store.now.draft ≡ self.old.store.now.draft) }
        ensures limit { self.new.store.now.limit ≡ self.old.store.now.limit }
        ensures default_graph { self.new.store.now.default_graph
            ≡ self.old.store.now.default_graph }
    {
        self.store.number_in_draft(quad)
    }

    /// Whether the terms of the quad that is meant may stand in their places, as `Quad::fits` tells it. Its numbers are in use. It takes no
    /// memory.
    pub fn fits(&self, quad: QuadRef<'_>) -> bool
        requires { IsReferredQuad self.now.store.now.draft.known quad }
        ensures { let q = referred_quad self.now.store.now.draft.known quad.entry
            in result ≡ fits_places q.graph q.subject q.predicate }
    {
        let store: &Store = self.store;
        store.draft_fits(quad)
    }

    /// The entry of the quad that is meant, where the draft knows all its terms. Its numbers are in use. A term that is given by its number
    /// isn't looked up. It takes no memory.
    pub fn entry(&self, quad: QuadRef<'_>) -> Option<[u32; 4]>
        requires { IsReferredQuad self.now.store.now.draft.known quad }
        ensures { result ≡ entry_of self.now.store.now.draft.known
            (referred_quad self.now.store.now.draft.known quad.entry) }
    {
        let store: &Store = self.store;
        store.draft_entry(quad)
    }

    /// The entry of the quad that is meant, as `number` has it. A term that is given by its number isn't looked up. Its numbers are in use, and
    /// its terms may stand in their places.
    pub fn number_ref(&mut self, quad: QuadRef<'_>) -> Result<[u32; 4], StoreFault>
        requires numbers { IsReferredQuad self.old.store.now.draft.known quad }
        requires fits { let q = referred_quad self.old.store.now.draft.known quad
            in IsTrue (fits_places q.graph q.subject q.predicate) }
        ensures same_reference { self.new.store.ghost_name ≡ self.old.store.ghost_name }
        ensures base { self.new.store.now.base ≡ self.old.store.now.base }
        ensures quads { self.new.store.now.draft.quads ≡ self.old.store.now.draft.quads }
        ensures next { self.new.store.now.draft.next ≡ self.old.store.now.draft.next }
        ensures said { IfOk result (λ entry. (entries : List (List ℕ))
            → AreEntries self.old.store.now.draft.known entries
            → IsSaidBehind self.old.store.now.draft.known entries
            (referred_quad self.old.store.now.draft.known quad.entry)
            self.new.store.now.draft.known entry) }
        ensures known { OnOk result ((first : List Term) (quads : List Statement)
            → self.old.store.now.draft.known ≡ with_terms_of first quads
            → self.new.store.now.draft.known ≡ with_terms_of first
            (quads ++ referred_quad self.old.store.now.draft.known quad.entry ∷ [])) }
        ensures full { IfErr result (λ fault. (first : List Term) (quads more : List Statement)
            → self.old.store.now.draft.known ≡ with_terms_of first quads
            → IsFullAt fault self.old.store.now.limit
            (length
            (with_terms_of first
            (quads ++ referred_quad self.old.store.now.draft.known quad.entry ∷ more)))) }
        ensures refused { OnErr result (self.new.store.now.draft ≡ self.old.store.now.draft) }
        ensures limit { self.new.store.now.limit ≡ self.old.store.now.limit }
        ensures default_graph { self.new.store.now.default_graph
            ≡ self.old.store.now.default_graph }
    {
        self.store.number_ref_in_draft(quad)
    }

    /// Changes the draft as `change` does, by entries over the terms that it knows. They are left in some order. Its one refusal is running
    /// out of memory, which leaves the draft as it was.
    pub fn change_entries(
        &mut self,
        remove: &mut [[u32; 4]],
        add: &mut [[u32; 4]],
        next: u64,
    ) -> Result<(), StoreFault>
        requires removed { AreEntries self.old.store.now.draft.known remove.old }
        requires added { AreEntries self.old.store.now.draft.known add.old }
        requires next { self.old.store.now.draft.next ≤ next }
        requires above { IsTrue
            (is_above_blanks next (said self.old.store.now.draft.known add.old)) }
        ensures same_reference { self.new.store.ghost_name ≡ self.old.store.ghost_name }
        ensures base { self.new.store.now.base ≡ self.old.store.now.base }
        ensures quads { OnOk result
            (IsChanged self.old.store.now.draft.quads
            (said self.old.store.now.draft.known remove.old)
            (said self.old.store.now.draft.known add.old) self.new.store.now.draft.quads) }
        ensures next { OnOk result (self.new.store.now.draft.next ≡ next) }
        ensures known { self.new.store.now.draft.known ≡ self.old.store.now.draft.known }
        ensures room { length self.old.store.now.draft.known ≤ self.old.store.now.limit }
        ensures memory { IfErr result (λ fault. fault ≡ Memory) }
        ensures refused { OnErr result (self.new.store.now.draft ≡ self.old.store.now.draft) }
        ensures limit { self.new.store.now.limit ≡ self.old.store.now.limit }
        ensures default_graph { self.new.store.now.default_graph
            ≡ self.old.store.now.default_graph }
    {
        self.store.change_draft_entries(remove, add, next)
    }

    /// Makes the draft's quads and those of the entries those of the store, and its known terms those of the store; `next` becomes the
    /// next blank node's number. The entries are left in some order. It puts them in without a draft of them, which makes this the fast
    /// way to load many quads. Its one refusal is running out of memory, which leaves the store as it was, its known terms included.
    pub fn commit_with(self, entries: &mut [[u32; 4]], next: u64) -> Result<(), StoreFault>
        requires entries { AreEntries self.store.now.draft.known entries.old }
        requires next { self.store.now.draft.next ≤ next }
        requires above { IsTrue
            (is_above_blanks next (said self.store.now.draft.known entries.old)) }
        ensures quads { OnOk result
            (IsChanged self.entry.store.now.draft.quads []
            (said self.entry.store.now.draft.known entries.old) self.exit.0.now.base.quads) }
        ensures next { OnOk result (self.exit.0.now.base.next ≡ next) }
        ensures known { OnOk result
            (self.exit.0.now.base.known ≡ self.entry.store.now.draft.known) }
        ensures room { OnOk result
            (length self.exit.0.now.base.known ≤ self.entry.store.now.limit) }
        ensures memory { IfErr result (λ fault. fault ≡ Memory) }
        ensures refused { OnErr result (self.exit.0.now.base ≡ self.entry.store.now.base) }
        ensures limit { self.exit.0.now.limit ≡ self.entry.store.now.limit }
        ensures default_graph { self.exit.0.now.default_graph ≡ self.entry.store.now.default_graph }
    {
        let Draft { store } = self;
        store.settle_with(entries, next)
    }

    /// Makes the draft's quads, next number and known terms those of the store. It takes no memory.
    pub fn commit(self)
        ensures quads { SameSet self.exit.0.now.base.quads self.entry.store.now.draft.quads }
        ensures next { self.exit.0.now.base.next ≡ self.entry.store.now.draft.next }
        ensures known { self.exit.0.now.base.known ≡ self.entry.store.now.draft.known }
        ensures limit { self.exit.0.now.limit ≡ self.entry.store.now.limit }
        ensures default_graph { self.exit.0.now.default_graph ≡ self.entry.store.now.default_graph }
    {
        let Draft { store } = self;
        store.settle();
    }

    /// Leaves the store as it was, its known terms included. It takes no memory.
    pub fn abandon(self)
        ensures base { self.exit.0.now.base ≡ self.entry.store.now.base }
        ensures limit { self.exit.0.now.limit ≡ self.entry.store.now.limit }
        ensures default_graph { self.exit.0.now.default_graph ≡ self.entry.store.now.default_graph }
    {
        let Draft { store } = self;
        store.reset();
    }
}
