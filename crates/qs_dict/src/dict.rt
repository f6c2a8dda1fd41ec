//! A dictionary of terms.
//!
//! A term is looked for and put in by one call, so that a new one is hashed once: its texts are shared, and a copy takes no memory.
//! `Dict::new` takes no memory, and `cut` past the end leaves all, so neither can fail.

ghost use Rattle.std.specs.Prelude.{◌≡◌, ◌↔◌, ◌<◌, ◌≤◌, ℕ, None, Some, Ok, Err, [], length, take, IfOk, IfErr, OnOk, OnErr, IfSome, IsTrue};
ghost use Rattle.std.specs.Option.{option_map};
ghost use Rattle.qs_terms.specs.Bag.{with_new};
ghost use Rattle.qs_terms.specs.Term.{same_term};
ghost use Rattle.qs_expr_values.specs.inner.TermValue.{term_value};
ghost use Rattle.qs_dict.specs.declared.fault.DictFault.TheVariants.{Full, Memory};
ghost use Rattle.qs_dict.specs.inner.Dict.{IsDictionary, IsInUse, KeepsNumbers, term_at, number_of};

use crate::fault::DictFault;
use crate::number_cache::NumberCache;
use crate::values;
use indexmap::IndexSet;
use qs_expr_values::TermValue;
use qs_terms::Term;
use std::alloc::Global;
use std::hash::RandomState;
use std::marker::Model;

/// Distinct terms, each with its place from 1 as its number. A term keeps its number until it is cut off.
#[derive(Drop)]
pub struct Dict {
    terms: IndexSet<Term, RandomState>,
    // Of each term its value, at the term's place.
    values: Vec<TermValue>,
    limit: u32,
    recent: NumberCache,
}

impl Model for Dict {
    ghost use Rattle.std.specs.Prelude.{◌≡◌, map};
    ghost use Rattle.qs_expr_values.specs.inner.TermValue.{term_value};
    ghost use Rattle.qs_dict.specs.inner.Dict.{Dictionary, IsDictionary};

    ghost Value = { Dictionary };

    ghost view = { λ d. record { terms = d.terms.keys; limit = d.limit } };

    ghost invariant = { λ d. IsDictionary (record { terms = d.terms.keys; limit = d.limit }) × (d.values.items ≡ map term_value d.terms.keys) };
}

impl Dict {
    /// A dictionary of no terms, which will take as many as the limit allows. The terms are hashed by `hasher`, since
    /// strangers choose them.
    pub fn new(alloc: Global, limit: u32, hasher: RandomState) -> Dict
        ensures terms { result.terms ≡ [] }
        ensures limit { result.limit ≡ limit }
        ensures lawful { IsDictionary result }
    {
        Dict {
            terms: IndexSet::with_hasher(alloc, hasher),
            values: Vec::new(alloc),
            limit,
            recent: NumberCache::new(),
        }
    }

    /// How many terms there are: the numbers in use are those from 1 to it.
    pub fn len(&self) -> u32
        ensures count { result ≡ length self.now.terms }
        ensures lawful { IsDictionary self.now }
    {
        self.terms.len() as u32
    }

    /// The number of the term, where it is there.
    pub fn find(&self, term: &Term) -> Option<u32>
        ensures place { result ≡ number_of self.now.terms term.now }
        ensures exact { (n : ℕ) → (result ≡ Some n) ↔ (term_at self.now.terms n ≡ Some term.now) }
    {
        if let Some(number) = self.recent(term) {
            return Some(number);
        }
        let place = self.terms.get_index_of(term)?;
        Some(place as u32 + 1)
    }

    /// The term with the number, which is in use.
    pub fn term(&self, number: u32) -> &Term
        requires { IsInUse self.now.terms number }
        ensures term { term_at self.now.terms number ≡ Some result.now }
        ensures found { number_of self.now.terms result.now ≡ Some number }
    {
        &self.terms.as_slice()[number as usize - 1]
    }

    /// What the term with the number, which is in use, is worth. The term's text isn't read.
    pub fn value(&self, number: u32) -> TermValue
        requires { IsInUse self.now.terms number }
        ensures { option_map term_value (term_at self.now.terms number) ≡ Some result }
    {
        self.values.as_slice()[number as usize - 1]
    }

    // Whether the term has this number.
    fn is_numbered(&self, term: &Term, number: u32) -> bool
        ensures { IsTrue result → number_of self.now.terms term.now ≡ Some number }
    {
        let Some(place) = number.checked_sub(1) else {
            return false;
        };
        match self.terms.as_slice().get(place as usize) {
            Some(own) => own.is_same(term),
            None => false,
        }
    }

    // The number of the term, where that was asked for not long ago: it is there then, and isn't hashed.
    fn recent(&self, term: &Term) -> Option<u32>
        ensures number { IfSome result (λ n. number_of self.now.terms term.now ≡ Some n) }
        ensures lawful { IsDictionary self.now }
    {
        let _count = self.len();
        let number = self.recent.number(term);
        if self.is_numbered(term, number) {
            Some(number)
        } else {
            None
        }
    }

    // The number of the term, where it is there, or else the fault.
    fn known(&self, term: &Term, fault: DictFault) -> Result<u32, DictFault>
        ensures known { IfOk result (λ n. number_of self.now.terms term.now ≡ Some n) }
        ensures same { OnOk result (self.now.terms ≡ with_new same_term self.now.terms term.now) }
        ensures absent { IfErr result
            (λ f. (f ≡ fault) × (number_of self.now.terms term.now ≡ None)) }
        ensures lawful { IsDictionary self.now }
    {
        let _count = self.len();
        match self.find(term) {
            Some(number) => Ok(number),
            None => Err(fault),
        }
    }

    // The number of the term, which is put last where it is new. Only a new one may be refused.
    fn put(&mut self, term: Term) -> Result<u32, DictFault>
        requires room { length self.old.terms < self.old.limit }
        ensures number { IfOk result (λ n. number_of self.new.terms term ≡ Some n) }
        ensures terms { OnOk result (self.new.terms ≡ with_new same_term self.old.terms term) }
        ensures limit { self.new.limit ≡ self.old.limit }
        ensures lawful { IsDictionary self.new }
        ensures refused { OnErr result (self.new ≡ self.old) }
        ensures present { (n : ℕ) → number_of self.old.terms term ≡ Some n → (result ≡ Ok n)
            × (self.new ≡ self.old) }
        ensures memory { IfErr result (λ fault. fault ≡ Memory) }
        ensures kept { KeepsNumbers (length self.old.terms) self.old.terms self.new.terms }
    {
        let place = values::put(&mut self.terms, &mut self.values, term)?;
        Ok(place as u32 + 1)
    }

    // The number of the term, which is hashed once. Its texts are shared, so that one that is there is compared by a copy.
    fn number_hashed(&mut self, term: &Term) -> Result<u32, DictFault>
        ensures number { IfOk result (λ n. number_of self.new.terms term.now ≡ Some n) }
        ensures terms { OnOk result (self.new.terms ≡ with_new same_term self.old.terms term.now) }
        ensures limit { self.new.limit ≡ self.old.limit }
        ensures lawful { IsDictionary self.new }
        ensures refused { OnErr result (self.new ≡ self.old) }
        ensures present { (n : ℕ) → number_of self.old.terms term.now ≡ Some n → (result ≡ Ok n)
            × (self.new ≡ self.old) }
        ensures full { (result ≡ Err Full)
            ↔ ((number_of self.old.terms term.now ≡ None)
            × (length self.old.terms ≡ self.old.limit)) }
        ensures kept { KeepsNumbers (length self.old.terms) self.old.terms self.new.terms }
    {
        let len = self.len();
        if len == self.limit {
            return self.known(term, DictFault::Full);
        }
        match term.try_clone() {
            Ok(own) => self.put(own),
            Err(_) => self.known(term, DictFault::Memory),
        }
    }

    /// The number of the term, which is put last where it is new, and has its texts in common with this one. Only a new term takes
    /// memory. A term that was asked for not long ago isn't hashed.
    pub fn number(&mut self, term: &Term) -> Result<u32, DictFault>
        ensures number { IfOk result (λ n. number_of self.new.terms term.now ≡ Some n) }
        ensures terms { OnOk result (self.new.terms ≡ with_new same_term self.old.terms term.now) }
        ensures limit { self.new.limit ≡ self.old.limit }
        ensures lawful { IsDictionary self.new }
        ensures refused { OnErr result (self.new ≡ self.old) }

        // A term that is there is never refused, and a new one is `Full` exactly where the limit is reached.
        ensures present { (n : ℕ) → number_of self.old.terms term.now ≡ Some n → (result ≡ Ok n)
            × (self.new ≡ self.old) }
        ensures full { (result ≡ Err Full)
            ↔ ((number_of self.old.terms term.now ≡ None)
            × (length self.old.terms ≡ self.old.limit)) }
        ensures kept { KeepsNumbers (length self.old.terms) self.old.terms self.new.terms }
    {
        if let Some(number) = self.recent(term) {
            return Ok(number);
        }
        let number = self.number_hashed(term)?;
        self.recent.note(term, number);
        Ok(number)
    }

    /// Takes the last terms out, so that `len` are left, or all where there are no more.
    pub fn cut(&mut self, len: u32)
        ensures terms { self.new.terms ≡ take len self.old.terms }
        ensures limit { self.new.limit ≡ self.old.limit }
        ensures lawful { IsDictionary self.new }
        ensures kept { KeepsNumbers len self.old.terms self.new.terms }
    {
        self.terms.truncate(len as usize);
        self.values.truncate(len as usize);
    }
}
