//! What came and went.

ghost use Rattle.std.specs.Prelude.{◌≡◌, ◌∷◌, ◌++◌, [], OnOk, OnErr};

use std::alloc::AllocError;

/// Bytes came or went at a place, or the peer there was told that no more come.
#[derive(Drop)]
pub enum Entry {
    Got(usize, Vec<u8>),
    Put(usize, Vec<u8>),
    Fin(usize),
}

/// Notes the entry.
pub fn add(log: &mut Vec<Entry>, entry: Entry) -> Result<(), AllocError>
    ensures ok { OnOk result (log.new.items ≡ log.old.items ++ entry ∷ []) }
    ensures err { OnErr result (log.new.items ≡ log.old.items) }
{
    log.push(entry)?;
    Ok(())
}
