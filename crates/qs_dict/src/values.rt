//! The terms of a set, and beside them a table of their values.

ghost use Rattle.std.specs.Prelude.{◌≡◌, ◌<◌, Some, None, length, map, slice_get, IfOk, IfErr, OnOk, OnErr};
ghost use Rattle.std.specs.Option.{option_map};
ghost use Rattle.qs_terms.specs.Bag.{Distinct, with_new};
ghost use Rattle.qs_terms.specs.Term.{same_term};
ghost use Rattle.qs_expr_values.specs.inner.TermValue.{term_value};
ghost use Rattle.qs_dict.specs.inner.Dict.{number_of};
ghost use Rattle.qs_dict.specs.declared.fault.DictFault.TheVariants.{Memory};

use crate::fault::DictFault;
use indexmap::IndexSet;
use qs_expr_values::TermValue;
use qs_terms::Term;
use std::hash::RandomState;

// The value of the term at the place.
fn value_at(terms: &IndexSet<Term, RandomState>, place: usize) -> TermValue
    requires { place < length terms.now.keys }
    ensures { option_map term_value (slice_get terms.now.keys place) ≡ Some result }
{
    TermValue::of(&terms.as_slice()[place])
}

/// The place of the term, which is put last where it is new, and its value with it. Only a new one may be refused, and then neither is put.
pub(crate) fn put(
    terms: &mut IndexSet<Term, RandomState>,
    values: &mut Vec<TermValue>,
    term: Term,
) -> Result<usize, DictFault>
    requires { values.old.items ≡ map term_value terms.old.keys }
    ensures values { values.new.items ≡ map term_value terms.new.keys }
    ensures terms { OnOk result (terms.new.keys ≡ with_new same_term terms.old.keys term) }
    ensures place { IfOk result (λ place. slice_get terms.new.keys place ≡ Some term) }
    ensures distinct { OnOk result (Distinct same_term terms.new.keys) }
    ensures refused { OnErr result (terms.new.keys ≡ terms.old.keys) }
    ensures absent { OnErr result (number_of terms.old.keys term ≡ None) }
    ensures memory { IfErr result (λ fault. fault ≡ Memory) }
{
    let len = terms.len();
    let (place, is_new) = match terms.insert_full(term) {
        Ok(put) => put,
        Err(_) => return Err(DictFault::Memory),
    };
    if !is_new {
        return Ok(place);
    }
    let value = value_at(terms, place);
    match values.push(value) {
        Ok(()) => Ok(place),
        Err(_) => {
            terms.truncate(len);
            Err(DictFault::Memory)
        }
    }
}
