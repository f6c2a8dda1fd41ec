//! Right sides that are evaluated by themselves, and their rows, which are kept by graph.

ghost use Rattle.std.specs.Prelude.{◌≡◌, ◌⊎◌, ◌↔◌, [], IsTrue, IfOk, IfSome};
ghost use Rattle.qs_ops_walk.specs.inner.Works.{IsPut, Keeps, Serves, name_at};

use qs_base::Shared;
use qs_expr::{Cell, Row, is_same};
use qs_ops_tables::KeptTable;
use qs_plan_meaning::Group;
use std::alloc::{AllocError, Global};
use std::collections::BTreeMap;

/// The rows of a right side, for rows of `cells` cells whose register has the cell `name`.
#[derive(Drop)]
pub(crate) struct Aside {
    pub(crate) cells: usize,
    pub(crate) name: Option<Cell>,
    pub(crate) row_count: usize,
    pub(crate) kept: Shared<KeptTable>,
}

/// The rows of a right side for several graphs. Whether rows serve a graph is read from the list; the other fields say where to look.
#[derive(Drop)]
pub(crate) struct Asides {
    pub(crate) list: Vec<Aside>,
    /// The places in the list, by the numbers of the cells.
    places: BTreeMap<u64, usize>,
    /// The place of the rows that were kept last.
    last: usize,
    /// How many more rows may be kept.
    room: usize,
}

/// A right side that is evaluated by itself.
#[derive(Drop)]
pub(crate) struct Right<'a> {
    pub(crate) register: Option<usize>,
    pub(crate) group: &'a Group,
    pub(crate) kept: Asides,
}

/// This number of rows is kept of a right side at most, for all graphs together. Each graph counts as one row more.
pub(crate) const KEPT: usize = 1_048_576;

/// Returns the cell of the register in which a right side looks, for the row.
pub(crate) fn name_at(register: Option<usize>, row: &Row) -> Option<Cell>
    ensures { result ≡ name_at register row.now }
{
    match register {
        Some(register) => row.cell(register),
        None => None,
    }
}

fn is_same_name(a: Option<Cell>, b: Option<Cell>) -> bool
    ensures { IsTrue result ↔ (a ≡ b) }
{
    match (a, b) {
        (Some(a), Some(b)) => is_same(a, b),
        (None, None) => true,
        _ => false,
    }
}

/// Returns the number by which the rows for the cell are found.
fn number_of(name: Option<Cell>) -> u64 {
    match name {
        None => 0,
        Some(Cell::Known(number)) => u64::from(number) + 1,
        Some(Cell::Scratch(place)) => u64::MAX - place,
    }
}

impl Asides {
    fn new(alloc: Global) -> Asides
        ensures { result.list.items ≡ [] }
    {
        Asides {
            list: Vec::new(alloc),
            places: BTreeMap::new(alloc),
            last: 0,
            room: KEPT,
        }
    }

    /// Returns the rows at `place`, if they are kept for rows of `cells` cells whose register has the cell `name`.
    fn kept_at(&self, place: usize, cells: usize, name: Option<Cell>) -> Option<&Shared<KeptTable>>
        ensures { IfSome result (λ k. Keeps self.now.list.items cells name k.now) }
    {
        let Some(aside) = self.list.get(place) else {
            return None;
        };
        if aside.cells != cells || !is_same_name(aside.name, name) {
            return None;
        }
        Some(&aside.kept)
    }

    /// Returns the rows that are kept for rows of `cells` cells whose register has the cell `name`, if there are any.
    fn kept_for(&self, cells: usize, name: Option<Cell>) -> Option<&Shared<KeptTable>>
        ensures { IfSome result (λ k. Keeps self.now.list.items cells name k.now) }
    {
        if let Some(kept) = self.kept_at(self.last, cells, name) {
            return Some(kept);
        }
        match self.places.get(&number_of(name)) {
            Some(place) => self.kept_at(*place, cells, name),
            None => None,
        }
    }

    /// Makes room for `row_count` rows of one graph. If there is too little, all kept rows are dropped, and from then on the rows of the last
    /// graph alone are kept.
    fn make_room(&mut self, row_count: usize)
        ensures { (self.new.list.items ≡ self.old.list.items) ⊎ (self.new.list.items ≡ []) }
    {
        if row_count < self.room {
            self.room -= row_count + 1;
            return;
        }
        self.room = 0;
        self.list.clear();
        self.places.clear();
    }

    /// Keeps the rows of `aside`.
    pub(crate) fn keep(&mut self, aside: Aside) -> Result<(), AllocError>
        ensures { IfOk result (λ _. IsPut self.old.list.items aside self.new.list.items) }
    {
        self.make_room(aside.row_count);
        let number = number_of(aside.name);
        self.last = self.list.len();
        self.list.push(aside)?;
        self.places.insert(number, self.last)?;
        Ok(())
    }

    /// Keeps the rows of `aside`, and returns another reference to them.
    pub(crate) fn keep_shared(&mut self, aside: Aside) -> Result<Shared<KeptTable>, AllocError>
        ensures put { IfOk result (λ _. IsPut self.old.list.items aside self.new.list.items) }
        ensures kept { IfOk result (λ k. k ≡ aside.kept) }
    {
        let own = aside.kept.share()?;
        self.keep(aside)?;
        Ok(own)
    }
}

impl<'a> Right<'a> {
    pub(crate) fn new(alloc: Global, register: Option<usize>, group: &'a Group) -> Right<'a>
        ensures register { result.register ≡ register }
        ensures group { result.group.now ≡ group.now }
        ensures kept { result.kept.list.items ≡ [] }
    {
        Right {
            register,
            group,
            kept: Asides::new(alloc),
        }
    }

    /// Returns the kept rows, if there are any for rows like `row`.
    pub(crate) fn kept_for(&self, row: &Row) -> Option<&Shared<KeptTable>>
        ensures { IfSome result (λ k. Serves self.now row.now k.now) }
    {
        self.kept.kept_for(row.width(), name_at(self.register, row))
    }
}
