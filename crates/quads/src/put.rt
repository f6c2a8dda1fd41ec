//! Bytes that are put into a sink, whole or as far as it takes them.

ghost use Rattle.quads.specs.inner.Run.{Prints};

use crate::job::Ran;
use qs_terms::{Sink, put_all};

/// Puts the bytes: the status where the sink takes them all, and 1 where it fails.
pub fn put<S: Sink>(out: &mut S, bytes: &[u8], status: u8) -> Ran
    ensures { Prints bytes.now status (S.taken out.old) (S.taken out.new) (S.faults out.old)
        (S.faults out.new) result }
{
    let taken = put_all(out, bytes);
    Ran {
        status: if taken == bytes.len() { status } else { 1 },
        written: taken as u128,
    }
}
