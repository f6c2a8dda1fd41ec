//! The orders of the named graphs.
//!
//! The bound on looks of a scan of all named graphs counts the entries of its order: it is that of the other scans or a smaller one.
ghost use Rattle.std.specs.Prelude.{◌≡◌, ℕ, ◌+◌, ◌<◌, ◌≤◌, ◌^◌, min, List, [], ◌∷◌, true, length, map};
ghost use Rattle.std.specs.Result.{OnOk};
ghost use Rattle.std.specs.List.{Contains};
ghost use Rattle.std.specs.List.Sorted.{IsPermutation};
ghost use Rattle.qs_index.specs.inner.Entries.{HaveFour, IsUnion, IsDifference};
ghost use Rattle.qs_index.specs.inner.Entry.{IsAscending, beginning, with_entry, without_entry};
ghost use Rattle.qs_index.specs.inner.Graph.{is_named, named_entries};
ghost use Rattle.qs_index.specs.inner.Named.{NamedOrders, AreNamedOf};
ghost use Rattle.qs_index.specs.inner.OrderOf.{IsOrderOf};
ghost use Rattle.qs_index.specs.inner.Permutation.{turned};
ghost use Rattle.qs_index.specs.declared.permutation.Permutation.TheVariants.{Gspo, Gpos, Gosp, Spog, Posg, Ospg};

use crate::entry::is_named;
use crate::order::Order;
use crate::permutation::Permutation;
use std::alloc::{AllocError, Global};
use std::marker::Model;

/// Three orders of the entries of named graphs. They cost nothing where there are none.
#[derive(Drop)]
pub struct Named {
    pub spog: Order,
    pub posg: Order,
    pub ospg: Order,
}

impl Model for Named {
    ghost Value = { NamedOrders };

    ghost view = { λ s. record { by_subject = s.spog.entries; by_predicate = s.posg.entries; by_object = s.ospg.entries; spare = min s.spog.spare (min s.posg.spare s.ospg.spare) } };
}

impl Named {
    /// Orders without entries.
    pub fn new(alloc: Global) -> Named
        ensures orders { AreNamedOf [] result }
        ensures spare { result.spare ≡ 0 }
    {
        Named {
            spog: Order::new(alloc),
            posg: Order::new(alloc),
            ospg: Order::new(alloc),
        }
    }

    /// Makes room for `n` inserts. Where `n` is 0 nothing is set aside.
    pub fn reserve(&mut self, n: u64) -> Result<(), AllocError>
        ensures orders { (xs : List (List ℕ)) → AreNamedOf xs self.old → AreNamedOf xs self.new }
        ensures spare { self.old.spare ≤ self.new.spare }
        ensures ok { OnOk result (n ≤ self.new.spare) }
        ensures none { n ≡ 0 → self.new.spare ≡ self.old.spare }
    {
        self.spog.reserve(n)?;
        self.posg.reserve(n)?;
        self.ospg.reserve(n)
    }

    /// Gives back the memory that is set aside for inserts.
    pub fn release(&mut self)
        ensures { (xs : List (List ℕ)) → AreNamedOf xs self.old → AreNamedOf xs self.new }
    {
        self.spog.release();
        self.posg.release();
        self.ospg.release();
    }

    /// How many entries there are in each order.
    pub fn len(&self) -> u128
        ensures count { result ≡ length self.now.by_subject }
        ensures small { result < 2 ^ 72 }
    {
        self.spog.len()
    }

    /// Puts an entry in that isn't there.
    pub fn insert(&mut self, entry: [u32; 4])
        requires { is_named entry ≡ true → 0 < self.old.spare }
        ensures orders { (xs : List (List ℕ)) → (¬ Contains xs entry) → AreNamedOf xs self.old
            → AreNamedOf (with_entry entry xs) self.new }
        ensures spare { self.old.spare ≤ self.new.spare + 1 }
    {
        if !is_named(&entry) {
            return;
        }
        self.spog.insert(Permutation::Spog.turn(entry));
        self.posg.insert(Permutation::Posg.turn(entry));
        self.ospg.insert(Permutation::Ospg.turn(entry));
    }

    /// Takes an entry out that is there.
    pub fn remove(&mut self, entry: [u32; 4])
        ensures orders { (xs : List (List ℕ)) → IsAscending xs → Contains xs entry
            → AreNamedOf xs self.old → AreNamedOf (without_entry entry xs) self.new }
        ensures spare { self.old.spare ≤ self.new.spare }
    {
        if !is_named(&entry) {
            return;
        }
        self.spog.remove(Permutation::Spog.turn(entry));
        self.posg.remove(Permutation::Posg.turn(entry));
        self.ospg.remove(Permutation::Ospg.turn(entry));
    }

    /// Puts the entries of other such orders in, by way of `batch`.
    pub fn insert_all_of(&mut self, other: &Named, batch: &mut [[u32; 4]])
        requires subject { length other.now.by_subject ≤ min (length batch.old) self.old.spare }
        requires predicate { length other.now.by_predicate ≤ min (length batch.old) self.old.spare }
        requires object { length other.now.by_object ≤ min (length batch.old) self.old.spare }
        ensures orders { (xs ds ys : List (List ℕ)) → IsUnion xs ds ys → AreNamedOf ds other.now
            → AreNamedOf xs self.old → AreNamedOf ys self.new }
        ensures spare { (n : ℕ) → length other.now.by_subject ≤ n → length other.now.by_predicate
            ≤ n → length other.now.by_object ≤ n → self.old.spare ≤ self.new.spare + n }
    {
        self.spog.insert_all_of(&other.spog, batch);
        self.posg.insert_all_of(&other.posg, batch);
        self.ospg.insert_all_of(&other.ospg, batch);
    }

    /// Puts the entries of a graph in, from three orders of them by graphs, by way of `batch`. Those of the default graph have no place here.
    pub fn insert_graph(
        &mut self,
        gspo: &Order,
        gpos: &Order,
        gosp: &Order,
        graph: u32,
        batch: &mut [[u32; 4]],
    )
        requires subject { 0 < graph → length (beginning (graph ∷ []) gspo.now.entries)
            ≤ min (length batch.old) self.old.spare }
        requires predicate { 0 < graph → length (beginning (graph ∷ []) gpos.now.entries)
            ≤ min (length batch.old) self.old.spare }
        requires object { 0 < graph → length (beginning (graph ∷ []) gosp.now.entries)
            ≤ min (length batch.old) self.old.spare }
        ensures orders { (xs ys : List (List ℕ)) → HaveFour gspo.now.entries
            → IsOrderOf Gspo gspo.now.entries gspo.now.entries
            → IsOrderOf Gpos gspo.now.entries gpos.now.entries
            → IsOrderOf Gosp gspo.now.entries gosp.now.entries
            → IsUnion xs (beginning (graph ∷ []) gspo.now.entries) ys → AreNamedOf xs self.old
            → AreNamedOf ys self.new }
        ensures spare { (n : ℕ) → length (beginning (graph ∷ []) gspo.now.entries) ≤ n
            → length (beginning (graph ∷ []) gpos.now.entries) ≤ n
            → length (beginning (graph ∷ []) gosp.now.entries) ≤ n → self.old.spare ≤ self.new.spare
            + n }
    {
        if graph == 0 {
            return;
        }
        self.spog.insert_graph_last(gspo, graph, batch);
        self.posg.insert_graph_last(gpos, graph, batch);
        self.ospg.insert_graph_last(gosp, graph, batch);
    }

    /// Takes the entries of other such orders out, by way of `batch`.
    pub fn remove_all_of(&mut self, other: &Named, batch: &mut [[u32; 4]])
        requires subject { length other.now.by_subject ≤ length batch.old }
        requires predicate { length other.now.by_predicate ≤ length batch.old }
        requires object { length other.now.by_object ≤ length batch.old }
        ensures orders { (xs ds ys : List (List ℕ)) → IsDifference xs ds ys
            → AreNamedOf ds other.now → AreNamedOf xs self.old → AreNamedOf ys self.new }
        ensures spare { self.old.spare ≤ self.new.spare }
    {
        self.spog.remove_all_of(&other.spog, batch);
        self.posg.remove_all_of(&other.posg, batch);
        self.ospg.remove_all_of(&other.ospg, batch);
    }
}
