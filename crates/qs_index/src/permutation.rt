//! The orders of the places of an entry, and which of them a scan uses.
ghost use Rattle.std.specs.Prelude.{◌≡◌, ◌≤◌, take, map};
ghost use Rattle.std.specs.List.{All};
ghost use Rattle.qs_index.specs.inner.Entry.{IsEntry};
ghost use Rattle.qs_index.specs.inner.Lead.{order_with_lead, named_order_with_lead};
ghost use Rattle.qs_index.specs.inner.Permutation.{turned, restored, order_used, prefix_of, named_order_used, named_prefix_of};

/// An order of the places of an entry: graph, subject, predicate and object, by their first letters. Orders with the graph in the last
/// place have the entries of named graphs alone.
#[derive(Debug, Clone, Copy)]
pub enum Permutation {
    Gspo,
    Gpos,
    Gosp,
    Spog,
    Posg,
    Ospg,
}

impl Permutation {
    /// The entry with its places in this order.
    #[inline]
    pub fn turn(self, entry: [u32; 4]) -> [u32; 4]
        ensures turned { result ≡ turned self entry }
        ensures entry { IsEntry result }
    {
        let [g, s, p, o] = entry;
        match self {
            Permutation::Gspo => [g, s, p, o],
            Permutation::Gpos => [g, p, o, s],
            Permutation::Gosp => [g, o, s, p],
            Permutation::Spog => [s, p, o, g],
            Permutation::Posg => [p, o, s, g],
            Permutation::Ospg => [o, s, p, g],
        }
    }

    /// The entry that was turned.
    #[inline]
    pub fn restore(self, turned: [u32; 4]) -> [u32; 4]
        ensures { result ≡ restored self turned }
    {
        let [x, y, z, w] = turned;
        match self {
            Permutation::Gspo => [x, y, z, w],
            Permutation::Gpos => [x, w, y, z],
            Permutation::Gosp => [x, z, w, y],
            Permutation::Spog => [w, x, y, z],
            Permutation::Posg => [w, z, x, y],
            Permutation::Ospg => [w, y, z, x],
        }
    }
}

impl Permutation {
    /// Turns each entry.
    pub fn turn_all(self, entries: &mut [[u32; 4]])
        ensures turned { entries.new ≡ map (turned self) entries.old }
        ensures entries { All IsEntry entries.new }
    {
        for entry in entries.iter_mut() {
            *entry = self.turn(*entry);
        }
    }

    /// Restores each entry that was turned.
    pub fn restore_all(self, entries: &mut [[u32; 4]])
        ensures { entries.new ≡ map (restored self) entries.old }
    {
        for entry in entries.iter_mut() {
            *entry = self.restore(*entry);
        }
    }
}

/// The place of an entry that a scan has in front where no place is given to it: which values follow one another.
#[derive(Debug, Clone, Copy)]
pub enum Lead {
    Subject,
    Predicate,
    Object,
}

/// What a scan looks up: an order, and the numbers that its entries begin with there.
#[derive(Clone, Copy)]
pub struct Lookup {
    pub permutation: Permutation,
    pub prefix: [u32; 4],
    pub given: usize,
}

impl Lookup {
    /// The order in which the places that are given come first, and these places.
    pub fn new(
        graph: u32,
        subject: Option<u32>,
        predicate: Option<u32>,
        object: Option<u32>,
    ) -> Lookup
        ensures permutation { result.permutation ≡ order_used subject predicate object }
        ensures short { result.given ≤ 4 }
        ensures prefix { take result.given result.prefix ≡ prefix_of graph subject predicate
            object }
    {
        let (permutation, prefix, given) = match (subject, predicate, object) {
            (None, None, None) => (Permutation::Gspo, [graph, 0, 0, 0], 1),
            (Some(s), None, None) => (Permutation::Gspo, [graph, s, 0, 0], 2),
            (Some(s), Some(p), None) => (Permutation::Gspo, [graph, s, p, 0], 3),
            (Some(s), Some(p), Some(o)) => (Permutation::Gspo, [graph, s, p, o], 4),
            (None, Some(p), None) => (Permutation::Gpos, [graph, p, 0, 0], 2),
            (None, Some(p), Some(o)) => (Permutation::Gpos, [graph, p, o, 0], 3),
            (None, None, Some(o)) => (Permutation::Gosp, [graph, o, 0, 0], 2),
            (Some(s), None, Some(o)) => (Permutation::Gosp, [graph, o, s, 0], 3),
        };
        Lookup {
            permutation,
            prefix,
            given,
        }
    }
    /// The order of the named graphs in which the places that are given come first, and these places.
    pub fn of_named(subject: Option<u32>, predicate: Option<u32>, object: Option<u32>) -> Lookup
        ensures permutation { result.permutation ≡ named_order_used subject predicate object }
        ensures short { result.given ≤ 4 }
        ensures prefix { take result.given result.prefix ≡ named_prefix_of subject predicate
            object }
    {
        let (permutation, prefix, given) = match (subject, predicate, object) {
            (None, None, None) => (Permutation::Spog, [0, 0, 0, 0], 0),
            (Some(s), None, None) => (Permutation::Spog, [s, 0, 0, 0], 1),
            (Some(s), Some(p), None) => (Permutation::Spog, [s, p, 0, 0], 2),
            (Some(s), Some(p), Some(o)) => (Permutation::Spog, [s, p, o, 0], 3),
            (None, Some(p), None) => (Permutation::Posg, [p, 0, 0, 0], 1),
            (None, Some(p), Some(o)) => (Permutation::Posg, [p, o, 0, 0], 2),
            (None, None, Some(o)) => (Permutation::Ospg, [o, 0, 0, 0], 1),
            (Some(s), None, Some(o)) => (Permutation::Ospg, [o, s, 0, 0], 2),
        };
        Lookup {
            permutation,
            prefix,
            given,
        }
    }

    /// What `new` gives, in the order that has the place in front where none is given.
    pub fn with_lead(
        lead: Lead,
        graph: u32,
        subject: Option<u32>,
        predicate: Option<u32>,
        object: Option<u32>,
    ) -> Lookup
        ensures permutation { result.permutation ≡ order_with_lead subject predicate object lead }
        ensures short { result.given ≤ 4 }
        ensures prefix { take result.given result.prefix ≡ prefix_of graph subject predicate
            object }
    {
        match (subject, predicate, object) {
            (None, None, None) => Lookup {
                permutation: match lead {
                    Lead::Subject => Permutation::Gspo,
                    Lead::Predicate => Permutation::Gpos,
                    Lead::Object => Permutation::Gosp,
                },
                prefix: [graph, 0, 0, 0],
                given: 1,
            },
            _ => Lookup::new(graph, subject, predicate, object),
        }
    }

    /// What `of_named` gives, in the order that has the place in front where none is given.
    pub fn named_with_lead(
        lead: Lead,
        subject: Option<u32>,
        predicate: Option<u32>,
        object: Option<u32>,
    ) -> Lookup
        ensures permutation { result.permutation ≡ named_order_with_lead subject predicate object
            lead }
        ensures short { result.given ≤ 4 }
        ensures prefix { take result.given result.prefix ≡ named_prefix_of subject predicate
            object }
    {
        match (subject, predicate, object) {
            (None, None, None) => Lookup {
                permutation: match lead {
                    Lead::Subject => Permutation::Spog,
                    Lead::Predicate => Permutation::Posg,
                    Lead::Object => Permutation::Ospg,
                },
                prefix: [0, 0, 0, 0],
                given: 0,
            },
            _ => Lookup::of_named(subject, predicate, object),
        }
    }
}
