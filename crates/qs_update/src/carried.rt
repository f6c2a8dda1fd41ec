//! Effects that are carried out over a draft.

ghost use Rattle.std.specs.Prelude.{◌≡◌, Ok, OnOk};
ghost use Rattle.qs_store.specs.Change.{with_terms_of};
ghost use Rattle.qs_update.specs.inner.Carried as carried;
ghost use Rattle.qs_update.specs.inner.Carried.{BecomesOne};
ghost use Rattle.qs_update.specs.inner.Lawful.{IsLawful};
ghost use Rattle.qs_update.specs.Request.{IsCarriedOut};

use crate::effect::Effect;
use qs_store::{Draft, StoreFault};
use qs_terms::QFault;

/// A fault of the store as one of a request.
pub fn fault_of(fault: StoreFault) -> QFault
    ensures { result ≡ carried.fault_of fault }
{
    match fault {
        StoreFault::Full => QFault::Full,
        StoreFault::Memory => QFault::Memory,
    }
}

/// Makes the change that the effect is. Its new terms are known in the order in which they first stand in what is added.
pub fn apply_operation(draft: &mut Draft<'_>, effect: &Effect) -> Result<(), QFault>
    requires { IsLawful draft.old.store.now.draft.next effect.now }
    ensures same_reference { draft.new.store.ghost_name ≡ draft.old.store.ghost_name }
    ensures base { draft.new.store.now.base ≡ draft.old.store.now.base }
    ensures limit { draft.new.store.now.limit ≡ draft.old.store.now.limit }
    ensures default_graph { draft.new.store.now.default_graph ≡ draft.old.store.now.default_graph }
    ensures outcome { BecomesOne (IsCarriedOut draft.old.store.now.limit draft.old.store.now.draft
        (Ok effect.now)) result draft.new.store.now.draft }
    ensures in_turn { OnOk result
        (draft.new.store.now.draft.known ≡ with_terms_of draft.old.store.now.draft.known
        effect.now.added) }
{
    match draft.change(
        effect.removed.as_slice(),
        effect.added.as_slice(),
        effect.next,
    ) {
        Ok(()) => Ok(()),
        Err(fault) => Err(fault_of(fault)),
    }
}
