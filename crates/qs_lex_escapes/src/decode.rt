//! Texts with their escapes decoded.

ghost use Rattle.std.specs.Prelude.{◌≡◌, ◌++◌, IfOk, OnOk, string_bytes, drop};
ghost use Rattle.std.specs.List.{list_any};
ghost use Rattle.std.specs.Str.{IsCharBoundary};
ghost use Rattle.std.specs.Option.{ForSome};
ghost use Rattle.qs_lex_escapes.specs.Decoded.{decoded, unescaped};
ghost use Rattle.qs_lex_escapes.specs.inner.Decoded.{stands_for, length_of};
ghost use Rattle.qs_lex_escapes.specs.inner.Decoded.{is_backslash};
ghost use Rattle.qs_lex_escapes.specs.inner.Escape.{escape};

use crate::escape::{Escape, Escapes, first_escape};
use qs_terms::Text;
use std::alloc::{AllocError, Global};

// Puts what an escape denotes after `out`, and hands out what is after the escape.
fn push_escape<'t>(
    out: &mut String,
    behind: &'t str,
    found: Option<Escape>,
) -> Result<&'t str, AllocError>
    requires { ForSome found (λ e. IsCharBoundary behind.now e.length) }
    ensures written { OnOk result (string_bytes out.new ≡ string_bytes out.old
        ++ stands_for found) }
    ensures rest { IfOk result (λ rest. rest.now ≡ drop (length_of found) behind.now) }
{
    match found {
        Some(found) => {
            out.push(found.character)?;
            Ok(&behind[found.length..])
        }
        None => {
            out.push('\\')?;
            Ok(behind)
        }
    }
}

fn has_backslash(text: &str) -> bool
    ensures { result ≡ list_any is_backslash text.now }
{
    text.as_bytes().iter().any(|byte| *byte == b'\\')
}

/// The text with its escapes decoded.
#[tactic(auto, using(crate::proofs::Backslashes::decoded_free))]
pub fn decode(alloc: Global, text: &str, kind: Escapes) -> Result<Text, AllocError>
    ensures { IfOk result (λ t. t ≡ decoded (escape kind) text.now) }
{
    if !has_backslash(text) {
        return Text::new(alloc, text);
    }
    decode_by_runs(alloc, text, kind)
}

// The text that a text with escapes denotes, run by run between the escapes.
#[tactic(auto, using(crate::proofs::EscapeEnds::boundary, crate::proofs::Backslashes::decoded_step, crate::proofs::Backslashes::decoded_plain))]
fn decode_by_runs(alloc: Global, text: &str, kind: Escapes) -> Result<Text, AllocError>
    ensures { IfOk result (λ t. t ≡ decoded (escape kind) text.now) }
{
    let mut out = String::with_capacity(alloc, text.len())?;
    let mut left = text;
    while let Some((run, behind)) = left.split_once('\\') {
        out.push_str(run)?;
        let found = first_escape(kind, behind.as_bytes());
        left = push_escape(&mut out, behind, found)?;
    }
    out.push_str(left)?;
    Ok(Text::from(out))
}

/// The text, and a local name after it without the backslashes of its escapes.
#[tactic(auto, using(crate::proofs::Backslashes::dropped_step, crate::proofs::Backslashes::dropped_plain))]
pub fn join(alloc: Global, front: &str, local: &str) -> Result<Text, AllocError>
    ensures { IfOk result (λ t. t ≡ front.now ++ unescaped local.now) }
{
    let mut out = String::with_capacity(alloc, front.len().saturating_add(local.len()))?;
    out.push_str(front)?;
    let mut left = local;
    while let Some((run, behind)) = left.split_once('\\') {
        out.push_str(run)?;
        left = behind;
    }
    out.push_str(left)?;
    Ok(Text::from(out))
}
