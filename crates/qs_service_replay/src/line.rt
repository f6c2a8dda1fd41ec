//! What a line of a script tells.

ghost use Rattle.std.specs.Prelude.{◌≡◌, ◌≢◌, ℕ, List, Ok, IfOk, MatchOption};
ghost use Rattle.hex.specs.Hex.{decode_of};
ghost use Rattle.qs_service_replay.specs.inner.Told.{IsPiece, IsToldBy};

use crate::parts::{behind, id_of, parted};
use crate::script_event::ScriptEvent;
use hex::FromHexError;
use std::alloc::{AllocError, Global};

// The bytes that are written so, if it is hex.
fn bytes_of(alloc: Global, hex: &[u8]) -> Result<Option<Vec<u8>>, AllocError>
    ensures { IfOk result
        (λ told. MatchOption told ((bytes : List ℕ) → decode_of hex.now ≢ Ok bytes)
        (λ bytes. decode_of hex.now ≡ Ok bytes.items)) }
{
    match hex::decode(alloc, hex) {
        Ok(bytes) => Ok(Some(bytes)),
        Err(FromHexError::OutOfMemory) => Err(AllocError),
        Err(FromHexError::OddLength) => Ok(None),
        Err(FromHexError::InvalidStringLength) => Ok(None),
        Err(FromHexError::InvalidHexCharacter { .. }) => Ok(None),
    }
}

// The id and the bytes of a piece, from what stands after its word.
fn piece_of(alloc: Global, rest: &[u8]) -> Result<Option<(u64, Vec<u8>)>, AllocError>
    ensures { IfOk result
        (λ told. MatchOption told ((id : ℕ) (bytes : List ℕ) → ¬ IsPiece rest.now id bytes)
        (λ p. IsPiece rest.now p.0 p.1.items)) }
{
    let Some((digits, hex)) = parted(rest, b' ') else {
        return Ok(None);
    };
    let Some(id) = id_of(digits) else {
        return Ok(None);
    };
    match bytes_of(alloc, hex) {
        Ok(Some(bytes)) => Ok(Some((id, bytes))),
        Ok(None) => Ok(None),
        Err(error) => Err(error),
    }
}

/// The event that the line tells, if it tells one.
pub(crate) fn script_event_of(alloc: Global, line: &[u8]) -> Result<Option<ScriptEvent>, AllocError>
    ensures { IfOk result (λ told. IsToldBy line.now told) }
{
    if let Some(digits) = behind(line, b"join ") {
        return Ok(id_of(digits).map(ScriptEvent::Join));
    }
    if let Some(digits) = behind(line, b"end ") {
        return Ok(id_of(digits).map(ScriptEvent::End));
    }
    let Some(rest) = behind(line, b"piece ") else {
        return Ok(None);
    };
    match piece_of(alloc, rest) {
        Ok(Some((id, bytes))) => Ok(Some(ScriptEvent::Piece(id, bytes))),
        Ok(None) => Ok(None),
        Err(error) => Err(error),
    }
}
