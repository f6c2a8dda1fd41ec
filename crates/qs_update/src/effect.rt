//! What an operation does.

ghost use Rattle.std.specs.Prelude.{◌≡◌};
ghost use Rattle.qs_update.specs.Effect as spec;

use qs_syntax_tree::update::OnMissing;
use qs_terms::{QFault, Quad};
use sqlite_items::Items;
use std::alloc::Global;

/// What an operation does: it removes these quads and then adds those, and this is the next blank node's number after it.
#[derive(Drop)]
pub struct Effect {
    pub removed: Items<Quad>,
    pub added: Items<Quad>,
    pub next: u64,
}

/// What an operation does that changes nothing.
pub fn nothing(alloc: Global, next: u64) -> Effect
    ensures { result ≡ spec.nothing next }
{
    Effect {
        removed: Items::new(alloc),
        added: Items::new(alloc),
        next,
    }
}

/// The fault, or the effect that changes nothing where the operation is SILENT.
pub fn fault_or_nothing(
    alloc: Global,
    on_missing: OnMissing,
    fault: QFault,
    next: u64,
) -> Result<Effect, QFault>
    ensures { result ≡ spec.fault_or_nothing on_missing fault next }
{
    match on_missing {
        OnMissing::Fault => Err(fault),
        OnMissing::Silent => Ok(nothing(alloc, next)),
    }
}
