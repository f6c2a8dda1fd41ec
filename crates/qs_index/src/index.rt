//! The set of entries in three orders, and that of the entries of named graphs in three more.
//!
//! `insert_all` sorts its slice for each order in place, without memory, since single inserts can ascend in one order alone. A
//! reserve whose count of pages passes 64 bits answers out of memory, as std's does. The count of entries is below 2^72, so the
//! count of a draft fits 128 bits.
ghost use Rattle.std.specs.Prelude.{◌≡◌, ℕ, ◌+◌, ◌<◌, ◌≤◌, ◌^◌, ◌↔◌, min, Bool, true, false, List, [], ◌∷◌, length, map, None, IfOk, IsTrue, IfSome, IfNone};
ghost use Rattle.std.specs.Bool.{OnTrue, OnFalse};
ghost use Rattle.std.specs.Result.{OnOk};
ghost use Rattle.std.specs.List.{All, Contains};
ghost use Rattle.std.specs.List.Sorted.{IsPermutation};
ghost use Rattle.qs_index.specs.inner.Agreeing.{agreeing, agreeing_named};
ghost use Rattle.qs_index.specs.inner.Entries.{IsUnion, IsDifference};
ghost use Rattle.qs_index.specs.inner.Entry.{IsEntry, IsAscending, with_entry, without_entry};
ghost use Rattle.qs_index.specs.inner.Graph.{graph_of, is_named, named_entries, IsNextGraph};
ghost use Rattle.qs_index.specs.inner.Lead.{order_with_lead, named_order_with_lead};
ghost use Rattle.qs_index.specs.inner.Index.{IndexState, IsOneSet, spare_of};
ghost use Rattle.qs_index.specs.inner.Named.{held_by};
ghost use Rattle.qs_index.specs.inner.OrderOf.{IsOrderOf};
ghost use Rattle.qs_index.specs.inner.Permutation.{order_used, named_order_used, turned};

use crate::batch::{both_orders, insert_both, remove_both};
use crate::named::Named;
use crate::order::Order;
use crate::pages::PagePosition;
use crate::permutation::{Lead, Lookup, Permutation};
use crate::prefix::Prefix;
use crate::scan::Scan;
use crate::search::NOWHERE;
use std::alloc::{AllocError, Global};
use std::marker::Model;

/// A set of entries `[graph, subject, predicate, object]`, how many inserts need no memory, and how many of entries of named graphs
/// need none in the orders of these. Graph number 0 is the default graph. All entries stand in three orders, and those of named graphs
/// in three more. Contracts see the set as its ascending list, so equal lists are equal sets.
#[derive(Drop)]
pub struct Index {
    gspo: Order,
    gpos: Order,
    gosp: Order,
    named: Named,
}

impl Model for Index {
    ghost Value = { IndexState };

    ghost view = { λ s. record { entries = s.gspo.entries; spare = min s.gspo.spare (min s.gpos.spare s.gosp.spare); named_spare = s.named.spare } };

    ghost invariant = { λ s. IsOneSet s.gspo.entries s.gpos.entries s.gosp.entries s.named };
}

impl Index {
    /// An index without entries. It takes no memory.
    pub fn new(alloc: Global) -> Index
        ensures entries { result.entries ≡ [] }
        ensures spare { result.spare ≡ 0 }
        ensures named_spare { result.named_spare ≡ 0 }
    {
        Index {
            gspo: Order::new(alloc),
            gpos: Order::new(alloc),
            gosp: Order::new(alloc),
            named: Named::new(alloc),
        }
    }

    /// An index of `entries`, which it leaves in some order: they are sorted for each order. It fills pages whole, and so takes half the pages
    /// that a reserve for as many inserts sets aside.
    pub fn from_entries(alloc: Global, entries: &mut [[u32; 4]]) -> Result<Index, AllocError>
        ensures union { IfOk result (λ index. IsUnion [] entries.old index.entries) }
        ensures permutation { IsPermutation entries.old entries.new }
    {
        let by_subject = both_orders(alloc, Permutation::Gspo, Permutation::Spog, entries)?;
        let by_predicate = both_orders(alloc, Permutation::Gpos, Permutation::Posg, entries)?;
        let by_object = both_orders(alloc, Permutation::Gosp, Permutation::Ospg, entries)?;
        Ok(Index {
            gspo: by_subject.all,
            gpos: by_predicate.all,
            gosp: by_object.all,
            named: Named {
                spog: by_subject.named,
                posg: by_predicate.named,
                ospg: by_object.named,
            },
        })
    }

    /// Makes room for `n` inserts, of entries of any graphs. A refusal leaves the entries, and no less room than there was.
    pub fn reserve(&mut self, n: u64) -> Result<(), AllocError>
        ensures entries { self.new.entries ≡ self.old.entries }
        ensures kept { self.old.spare ≤ self.new.spare }
        ensures named_kept { self.old.named_spare ≤ self.new.named_spare }
        ensures spare_kept { spare_of self.old ≤ spare_of self.new }
        ensures ok { OnOk result (n ≤ self.new.spare) }
        ensures named_ok { OnOk result (n ≤ self.new.named_spare) }
        ensures spare_ok { OnOk result (n ≤ spare_of self.new) }
    {
        self.reserve_for(n, n)
    }

    /// Makes room for so many inserts, of which so many are of entries of named graphs. Where there are none, nothing is set aside for
    /// them. A refusal leaves the entries, and no less room than there was.
    pub fn reserve_for(&mut self, entries: u64, named: u64) -> Result<(), AllocError>
        ensures entries { self.new.entries ≡ self.old.entries }
        ensures kept { self.old.spare ≤ self.new.spare }
        ensures named_kept { self.old.named_spare ≤ self.new.named_spare }
        ensures ok { OnOk result (entries ≤ self.new.spare) }
        ensures named_ok { OnOk result (named ≤ self.new.named_spare) }
        ensures none { entries ≡ 0 → self.new.spare ≡ self.old.spare }
        ensures named_none { named ≡ 0 → self.new.named_spare ≡ self.old.named_spare }
    {
        self.gspo.reserve(entries)?;
        self.gpos.reserve(entries)?;
        self.gosp.reserve(entries)?;
        self.named.reserve(named)
    }

    /// Gives back the memory that is set aside for inserts.
    pub fn release(&mut self)
        ensures entries { self.new.entries ≡ self.old.entries }
    {
        self.gspo.release();
        self.gpos.release();
        self.gosp.release();
        self.named.release();
    }

    /// Puts an entry in, and tells whether it is new. It takes no memory, and asks that there is room for an entry of any graph.
    pub fn insert(&mut self, entry: [u32; 4]) -> bool
        requires { 0 < spare_of self.old }
        ensures new { IsTrue result ↔ (¬ Contains self.old.entries entry) }
        ensures stood { OnFalse result (Contains self.old.entries entry) }
        ensures added { OnTrue result (self.new.entries ≡ with_entry entry self.old.entries) }
        ensures members { OnTrue result
            (IsPermutation (entry ∷ self.old.entries) self.new.entries) }
        ensures kept { OnFalse result (self.new.entries ≡ self.old.entries) }
        ensures ascending { IsAscending self.new.entries }
        ensures room { spare_of self.old ≤ spare_of self.new + 1 }
        ensures spare { self.old.spare ≤ self.new.spare + 1 }
        ensures named_spare { self.old.named_spare ≤ self.new.named_spare + 1 }
    {
        if !self.gspo.insert(entry) {
            return false;
        }
        self.gpos.insert(Permutation::Gpos.turn(entry));
        self.gosp.insert(Permutation::Gosp.turn(entry));
        self.named.insert(entry);
        true
    }

    /// Puts all of `entries` in, and leaves them in some order: they are sorted for each order before they are put there, which makes
    /// this the fast way to load many. It takes no memory, and asks that there is room.
    pub fn insert_all(&mut self, entries: &mut [[u32; 4]])
        requires room { length entries.old ≤ self.old.spare }
        requires named_room { length (named_entries entries.old) ≤ self.old.named_spare }
        ensures union { IsUnion self.old.entries entries.old self.new.entries }
        ensures spare { self.old.spare ≤ self.new.spare + length entries.old }
        ensures named_spare { self.old.named_spare ≤ self.new.named_spare
            + length (named_entries entries.old) }
        ensures permutation { IsPermutation entries.old entries.new }
    {
        let _count = self.gspo.len();
        if entries.is_empty() {
            return;
        }
        let named = &mut self.named;
        insert_both(
            &mut self.gspo,
            Permutation::Gspo,
            &mut named.spog,
            Permutation::Spog,
            entries,
        );
        insert_both(
            &mut self.gpos,
            Permutation::Gpos,
            &mut named.posg,
            Permutation::Posg,
            entries,
        );
        insert_both(
            &mut self.gosp,
            Permutation::Gosp,
            &mut named.ospg,
            Permutation::Ospg,
            entries,
        );
    }

    /// Takes an entry out, and tells whether it stood there. It takes no memory, and leaves no less room than there was.
    pub fn remove(&mut self, entry: [u32; 4]) -> bool
        ensures stood { IsTrue result ↔ Contains self.old.entries entry }
        ensures taken { OnTrue result (self.new.entries ≡ without_entry entry self.old.entries) }
        ensures members { OnTrue result
            (IsPermutation self.old.entries (entry ∷ self.new.entries)) }
        ensures kept { OnFalse result (self.new.entries ≡ self.old.entries) }
        ensures ascending { IsAscending self.new.entries }
        ensures spare { self.old.spare ≤ self.new.spare }
        ensures named_spare { self.old.named_spare ≤ self.new.named_spare }
    {
        if !self.gspo.remove(entry) {
            return false;
        }
        self.gpos.remove(Permutation::Gpos.turn(entry));
        self.gosp.remove(Permutation::Gosp.turn(entry));
        self.named.remove(entry);
        true
    }

    /// Takes all of `entries` out that are there, and leaves them in some order: they are sorted for each order before they are
    /// taken out there, which makes this the fast way to remove many. It takes no memory, and leaves no less room than there was.
    pub fn remove_all(&mut self, entries: &mut [[u32; 4]])
        ensures difference { IsDifference self.old.entries entries.old self.new.entries }
        ensures spare { self.old.spare ≤ self.new.spare }
        ensures named_spare { self.old.named_spare ≤ self.new.named_spare }
        ensures permutation { IsPermutation entries.old entries.new }
    {
        if self.gspo.len() == 0 {
            return;
        }
        if entries.is_empty() {
            return;
        }
        let named = &mut self.named;
        remove_both(
            &mut self.gspo,
            Permutation::Gspo,
            &mut named.spog,
            Permutation::Spog,
            entries,
        );
        remove_both(
            &mut self.gpos,
            Permutation::Gpos,
            &mut named.posg,
            Permutation::Posg,
            entries,
        );
        remove_both(
            &mut self.gosp,
            Permutation::Gosp,
            &mut named.ospg,
            Permutation::Ospg,
            entries,
        );
    }

    /// Puts all entries of another index in, by way of `batch`: as these stand in each order already, nothing is sorted. It takes no memory,
    /// and asks that there is room.
    pub fn insert_all_of(&mut self, other: &Index, batch: &mut [[u32; 4]])
        requires batch { length other.now.entries ≤ length batch.old }
        requires room { length other.now.entries ≤ self.old.spare }
        requires named_room { length (named_entries other.now.entries) ≤ self.old.named_spare }
        ensures union { IsUnion self.old.entries other.now.entries self.new.entries }
        ensures spare { self.old.spare ≤ self.new.spare + length other.now.entries }
        ensures named_spare { self.old.named_spare ≤ self.new.named_spare
            + length (named_entries other.now.entries) }
    {
        self.gspo.insert_all_of(&other.gspo, batch);
        self.gpos.insert_all_of(&other.gpos, batch);
        self.gosp.insert_all_of(&other.gosp, batch);
        self.named.insert_all_of(&other.named, batch);
    }

    /// Takes all entries of another index out that are there, as `insert_all_of` puts them in. It leaves no less room than there was.
    pub fn remove_all_of(&mut self, other: &Index, batch: &mut [[u32; 4]])
        requires { length other.now.entries ≤ length batch.old }
        ensures difference { IsDifference self.old.entries other.now.entries self.new.entries }
        ensures spare { self.old.spare ≤ self.new.spare }
        ensures named_spare { self.old.named_spare ≤ self.new.named_spare }
    {
        self.gspo.remove_all_of(&other.gspo, batch);
        self.gpos.remove_all_of(&other.gpos, batch);
        self.gosp.remove_all_of(&other.gosp, batch);
        self.named.remove_all_of(&other.named, batch);
    }

    /// Puts the entries of a graph of another index in, as `insert_all_of` puts all of them in.
    pub fn insert_graph_of(&mut self, other: &Index, graph: u32, batch: &mut [[u32; 4]])
        requires batch { length (agreeing graph None None None other.now.entries)
            ≤ length batch.old }
        requires room { length (agreeing graph None None None other.now.entries) ≤ self.old.spare }
        requires named_room { 0 < graph → length (agreeing graph None None None other.now.entries)
            ≤ self.old.named_spare }
        ensures union { IsUnion self.old.entries (agreeing graph None None None other.now.entries)
            self.new.entries }
        ensures spare { self.old.spare ≤ self.new.spare
            + length (agreeing graph None None None other.now.entries) }
        ensures named_spare { self.old.named_spare ≤ self.new.named_spare
            + length (agreeing graph None None None other.now.entries) }
    {
        self.gspo.insert_graph(&other.gspo, graph, batch);
        self.gpos.insert_graph(&other.gpos, graph, batch);
        self.gosp.insert_graph(&other.gosp, graph, batch);
        self.named
            .insert_graph(&other.gspo, &other.gpos, &other.gosp, graph, batch);
    }

    /// How many entries there are, which is below 2^72, as pages are counted in 64 bits and have 256 entries at most. It takes no
    /// memory, and goes over none.
    pub fn len(&self) -> u128
        ensures count { result ≡ length self.now.entries }
        ensures small { result < 2 ^ 72 }
    {
        self.gspo.len()
    }

    /// How many entries are of named graphs, which is below 2^72, too. It takes no memory, and goes over none.
    pub fn named_len(&self) -> u128
        ensures count { result ≡ length (named_entries self.now.entries) }
        ensures small { result < 2 ^ 72 }
    {
        self.named.len()
    }

    /// Whether an entry is there. It takes no memory.
    pub fn contains(&self, entry: &[u32; 4]) -> bool
        ensures { IsTrue result ↔ Contains self.now.entries entry.now }
    {
        self.gspo.contains(entry)
    }

    /// Whether an entry is there, which is looked for about `from` first. Where many are looked for that ascend, the next one is best looked
    /// for about the place that is left there. It takes no memory.
    pub fn contains_from(&self, from: &mut PagePosition, entry: &[u32; 4]) -> bool
        ensures { IsTrue result ↔ Contains self.now.entries entry.now }
    {
        self.gspo.contains_from(from, entry)
    }

    /// All entries, each once, ascending in the order GSPO. It takes no memory.
    pub fn entries(&self) -> Scan<'_>
        ensures rest { result.rest ≡ self.now.entries }
        ensures each { (x : List ℕ) → Contains self.now.entries x → IsEntry x }
        ensures ascending { IsAscending self.now.entries }
        ensures handed { result.handed ≡ 0 }
        ensures skips { result.skips ≡ 0 }
        ensures size { result.size ≡ length self.now.entries }
    {
        let order = &self.gspo;
        Scan::new(order.scan(NOWHERE, [0, 0, 0, 0], 0), Permutation::Gspo)
    }

    /// The order of a permutation.
    fn order(&self, permutation: Permutation) -> &Order
        ensures order { IsOrderOf permutation (held_by permutation self.now.entries)
            result.now.entries }
        ensures entries { (x : List ℕ) → Contains self.now.entries x → IsEntry x }
        ensures ascending { IsAscending self.now.entries }
    {
        match permutation {
            Permutation::Gspo => &self.gspo,
            Permutation::Gpos => &self.gpos,
            Permutation::Gosp => &self.gosp,
            Permutation::Spog => &self.named.spog,
            Permutation::Posg => &self.named.posg,
            Permutation::Ospg => &self.named.ospg,
        }
    }

    /// The entries of a graph that have the subject, predicate and object that are given, each once. They ascend in the order
    /// GPOS where the predicate is the first place that is given or stands before the object, in GOSP where the object is given
    /// without the predicate, and in GSPO elsewhere.
    pub fn scan(
        &self,
        graph: u32,
        subject: Option<u32>,
        predicate: Option<u32>,
        object: Option<u32>,
    ) -> Scan<'_>
        ensures agreeing { IsPermutation (agreeing graph subject predicate object self.now.entries)
            result.rest }
        ensures ascending { IsAscending
            (map (turned (order_used subject predicate object)) result.rest) }
        ensures handed { result.handed ≡ 0 }
        ensures skips { result.skips ≡ 0 }
        ensures size { result.size ≡ length self.now.entries }
    {
        self.scan_from(NOWHERE, graph, subject, predicate, object)
    }

    /// What `scan` gives, looked for from a place of an earlier scan of the same order (`Scan::place`): where it begins in the same page,
    /// at that place or after it, the search takes two looks for each binary digit of the distance, and two more. Elsewhere it costs
    /// two looks more than that of `scan`. A place is a hint alone: any place gives the same entries.
    pub fn scan_from(
        &self,
        from: PagePosition,
        graph: u32,
        subject: Option<u32>,
        predicate: Option<u32>,
        object: Option<u32>,
    ) -> Scan<'_>
        ensures agreeing { IsPermutation (agreeing graph subject predicate object self.now.entries)
            result.rest }
        ensures ascending { IsAscending
            (map (turned (order_used subject predicate object)) result.rest) }
        ensures handed { result.handed ≡ 0 }
        ensures skips { result.skips ≡ 0 }
        ensures size { result.size ≡ length self.now.entries }
    {
        let lookup = Lookup::new(graph, subject, predicate, object);
        let order = self.order(lookup.permutation);
        Scan::new(
            order.scan(from, lookup.prefix, lookup.given),
            lookup.permutation,
        )
    }

    /// The entries of all named graphs that have the subject, predicate and object that are given, each once. They ascend in the order
    /// POSG where the predicate is the first place that is given or stands before the object, in OSPG where the object is given
    /// without the predicate, and in SPOG elsewhere: entries that differ in their graph alone follow one another.
    pub fn scan_named(
        &self,
        subject: Option<u32>,
        predicate: Option<u32>,
        object: Option<u32>,
    ) -> Scan<'_>
        ensures agreeing { IsPermutation (agreeing_named subject predicate object self.now.entries)
            result.rest }
        ensures ascending { IsAscending
            (map (turned (named_order_used subject predicate object)) result.rest) }
        ensures handed { result.handed ≡ 0 }
        ensures skips { result.skips ≡ 0 }
        ensures size { result.size ≡ length (named_entries self.now.entries) }
    {
        self.scan_named_from(NOWHERE, subject, predicate, object)
    }

    /// What `scan_named` gives, looked for from a place of an earlier scan of the same order (`Scan::place`): where it begins in the same page,
    /// at that place or after it, the search takes two looks for each binary digit of the distance, and two more. Elsewhere it costs
    /// two looks more than that of `scan_named`. A place is a hint alone: any place gives the same entries.
    pub fn scan_named_from(
        &self,
        from: PagePosition,
        subject: Option<u32>,
        predicate: Option<u32>,
        object: Option<u32>,
    ) -> Scan<'_>
        ensures agreeing { IsPermutation (agreeing_named subject predicate object self.now.entries)
            result.rest }
        ensures ascending { IsAscending
            (map (turned (named_order_used subject predicate object)) result.rest) }
        ensures handed { result.handed ≡ 0 }
        ensures skips { result.skips ≡ 0 }
        ensures size { result.size ≡ length (named_entries self.now.entries) }
    {
        let lookup = Lookup::of_named(subject, predicate, object);
        let order = self.order(lookup.permutation);
        Scan::new(
            order.scan(from, lookup.prefix, lookup.given),
            lookup.permutation,
        )
    }

    /// The entries that `scan` gives. Where no place is given they ascend in the order that has this place in front: GSPO, GPOS or GOSP.
    pub fn scan_with_lead(
        &self,
        lead: Lead,
        graph: u32,
        subject: Option<u32>,
        predicate: Option<u32>,
        object: Option<u32>,
    ) -> Scan<'_>
        ensures agreeing { IsPermutation (agreeing graph subject predicate object self.now.entries)
            result.rest }
        ensures ascending { IsAscending
            (map (turned (order_with_lead subject predicate object lead)) result.rest) }
        ensures handed { result.handed ≡ 0 }
        ensures skips { result.skips ≡ 0 }
        ensures size { result.size ≡ length self.now.entries }
    {
        let lookup = Lookup::with_lead(lead, graph, subject, predicate, object);
        let order = self.order(lookup.permutation);
        Scan::new(
            order.scan(NOWHERE, lookup.prefix, lookup.given),
            lookup.permutation,
        )
    }

    /// The entries that `scan_named` gives. Where no place is given they ascend in the order that has this place in front: SPOG, POSG or OSPG.
    pub fn scan_named_with_lead(
        &self,
        lead: Lead,
        subject: Option<u32>,
        predicate: Option<u32>,
        object: Option<u32>,
    ) -> Scan<'_>
        ensures agreeing { IsPermutation (agreeing_named subject predicate object self.now.entries)
            result.rest }
        ensures ascending { IsAscending
            (map (turned (named_order_with_lead subject predicate object lead)) result.rest) }
        ensures handed { result.handed ≡ 0 }
        ensures skips { result.skips ≡ 0 }
        ensures size { result.size ≡ length (named_entries self.now.entries) }
    {
        let lookup = Lookup::named_with_lead(lead, subject, predicate, object);
        let order = self.order(lookup.permutation);
        Scan::new(
            order.scan(NOWHERE, lookup.prefix, lookup.given),
            lookup.permutation,
        )
    }

    /// About how many entries `scan` gives, by two searches. Nothing is promised of the number: it serves as an estimate. It takes no memory.
    pub fn about(
        &self,
        graph: u32,
        subject: Option<u32>,
        predicate: Option<u32>,
        object: Option<u32>,
    ) -> u64 {
        let lookup = Lookup::new(graph, subject, predicate, object);
        let order = self.order(lookup.permutation);
        order.about(lookup.prefix, lookup.given)
    }

    /// About how many entries `scan_named` gives, by two searches. Nothing is promised of the number: it serves as an estimate. It takes no
    /// memory.
    pub fn about_named(
        &self,
        subject: Option<u32>,
        predicate: Option<u32>,
        object: Option<u32>,
    ) -> u64 {
        let lookup = Lookup::of_named(subject, predicate, object);
        let order = self.order(lookup.permutation);
        order.about(lookup.prefix, lookup.given)
    }

    /// The least graph number above `after` that an entry has. It takes no memory.
    pub fn next_graph(&self, after: u32) -> Option<u32>
        ensures next { IfSome result (IsNextGraph self.now.entries after) }
        ensures none { IfNone result (All (λ entry. graph_of entry ≤ after) self.now.entries) }
    {
        let order = &self.gspo;
        let from = after.checked_add(1)?;
        let entry = order.first_from(&Prefix::new([from, 0, 0, 0], 1))?;
        Some(entry[0])
    }
}
