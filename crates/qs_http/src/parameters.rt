//! The parameters of a query string or of a form.
//!
//! In the target of a POST only the four names of graph parameters are refused, once the body is there. `/data` ignores its
//! parameters.

ghost use Rattle.std.specs.Prelude.{◌≡◌, List, ℕ, IfOk};
ghost use Rattle.std.specs.Str.{bytes_eq};
ghost use Rattle.qs_http.specs.declared.request.Request.{Request};
ghost use Rattle.qs_http.specs.Parameters.{decoded, has_graph, only_value, of_pairs};
ghost use Rattle.qs_http.specs.inner.Parameters.{is_graph_name};
ghost use Rattle.qs_http.specs.inner.Stage.{IsText};

use crate::fixed_reply::Fixed;
use form_urlencoded::{decode, raw_pairs};
use qs_terms::Text;
use std::alloc::{AllocError, Global};

/// The text of the one pair of that name, where no graph is chosen there or in the target.
#[tactic(auto, unfolding(crate::specs::Parameters::of_pairs))]
pub fn text_of_pairs(alloc: Global, name: &[u8], pairs: &[u8], target: &[u8]) -> Result<Text, Fixed>
    ensures { (asks : List ℕ → Request) → IsText asks (of_pairs name.now asks pairs.now target.now)
        result }
{
    if names_graph(alloc, pairs)? || names_graph(alloc, target)? {
        return Err(Fixed::BadRequest);
    }
    match only_value(alloc, name, pairs)? {
        Some(text) => Ok(text),
        None => Err(Fixed::BadRequest),
    }
}

/// Whether some pair chooses a graph.
#[tactic(auto, unfolding(crate::specs::Parameters::has_graph))]
pub fn names_graph(alloc: Global, text: &[u8]) -> Result<bool, AllocError>
    ensures { IfOk result (λ found. found ≡ has_graph text.now) }
{
    for (name, _) in raw_pairs(text) {
        if is_graph_name(alloc, name)? {
            return Ok(true);
        }
    }
    Ok(false)
}

/// Whether the name, decoded, is one of those that choose a graph.
fn is_graph_name(alloc: Global, name: &[u8]) -> Result<bool, AllocError>
    ensures { IfOk result (λ found. found ≡ is_graph_name (decoded name.now)) }
{
    let text = decode(alloc, name)?;
    let text = text.as_bytes();
    Ok(
        text == b"default-graph-uri".as_slice()
            || text == b"named-graph-uri".as_slice()
            || text == b"using-graph-uri".as_slice()
            || text == b"using-named-graph-uri".as_slice(),
    )
}

/// The value of the one pair of that name, decoded; None where there isn't exactly one.
#[tactic(auto, unfolding(crate::specs::Parameters::only_value))]
fn only_value(alloc: Global, name: &[u8], text: &[u8]) -> Result<Option<Text>, AllocError>
    ensures { IfOk result (λ value. value ≡ only_value name.now text.now) }
{
    let mut found: Option<&[u8]> = None;
    for (label, value) in raw_pairs(text) {
        if is_named(alloc, label, name)? {
            if found.is_some() {
                return Ok(None);
            }
            found = Some(value);
        }
    }
    match found {
        Some(value) => Ok(Some(Text::from(decode(alloc, value)?.into_owned(alloc)?))),
        None => Ok(None),
    }
}

/// Whether the name, decoded, is that one.
fn is_named(alloc: Global, label: &[u8], name: &[u8]) -> Result<bool, AllocError>
    ensures { IfOk result (λ same. same ≡ bytes_eq name.now (decoded label.now)) }
{
    let label = decode(alloc, label)?;
    Ok(name == label.as_bytes())
}
