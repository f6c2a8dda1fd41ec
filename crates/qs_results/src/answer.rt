//! Answers as JSON (SPARQL 1.1 Query Results JSON Format, 3).
//!
//! `json_after` and `ntriples_after`, as `text_after` of `qs_nquads`, write after the bytes of a buffer, so that a reply's body
//! is written where it goes out from.

ghost use Rattle.std.specs.Prelude.{◌≡◌, ◌++◌, IfOk, IsUtf8, true, string_bytes};
ghost use Rattle.serde_json.specs.Written.{compact_text};
ghost use Rattle.qs_results.specs.Json.{json_of};
ghost use Rattle.qs_results.specs.inner.Json.{has_json};
ghost use Rattle.qs_algebra_solutions.specs.declared.answer.Answer.TheVariants.{Solutions, Truth};

use crate::solution::{names_text, with_rows};
use qs_algebra_solutions::{Answer, Row};
use qs_terms::Text;
use std::alloc::{AllocError, Global};

fn truth_text(truth: bool) -> &'static str
    ensures { result.now ≡ compact_text (json_of (Truth truth)) }
{
    if truth {
        "{\"boolean\":true,\"head\":{}}"
    } else {
        "{\"boolean\":false,\"head\":{}}"
    }
}

fn truth_after(before: Vec<u8>, truth: bool) -> Result<Vec<u8>, AllocError>
    ensures text { IfOk result
        (λ out. out.items ≡ before.items ++ compact_text (json_of (Truth truth))) }
    ensures utf8 { IfOk result (λ out. IsUtf8 before.items → IsUtf8 out.items) }
{
    let mut out = before;
    out.extend_from_slice(truth_text(truth).as_bytes())?;
    Ok(out)
}

fn solutions_after(
    alloc: Global,
    before: Vec<u8>,
    vars: &[Text],
    rows: &[Row],
) -> Result<Vec<u8>, AllocError>
    ensures text { IfOk result
        (λ out. out.items ≡ before.items ++ compact_text (json_of (Solutions vars.now rows.now))) }
    ensures utf8 { IfOk result (λ out. IsUtf8 before.items → IsUtf8 out.items) }
{
    let names = names_text(alloc, vars)?;
    let mut out = before;
    out.extend_from_slice(b"{\"head\":{\"vars\":")?;
    out.extend_from_slice(names.as_bytes())?;
    out.extend_from_slice(b"},\"results\":{\"bindings\":[")?;
    let mut text = with_rows(alloc, vars, rows, out)?;
    text.extend_from_slice(b"}}")?;
    Ok(text)
}

/// What was written before, and the answer as JSON with no white space. The names and the solutions keep their order, and the members of each
/// object ascend by their bytes. Beside the text itself, memory is taken for the names of the columns. It is asked of solutions and of a
/// truth alone. The one error is running out of memory.
pub fn json_after(alloc: Global, before: Vec<u8>, answer: &Answer) -> Result<Vec<u8>, AllocError>
    requires { has_json answer.now ≡ true }
    ensures text { IfOk result
        (λ out. out.items ≡ before.items ++ compact_text (json_of answer.now)) }
    ensures utf8 { IfOk result (λ out. IsUtf8 before.items → IsUtf8 out.items) }
{
    match answer {
        Answer::Solutions { vars, rows } => solutions_after(
            alloc,
            before,
            vars.as_slice(),
            rows.as_slice(),
        ),
        Answer::Truth(truth) => truth_after(before, *truth),
        Answer::Graph(_) => unreachable!(),
    }
}

/// The answer as JSON, as `json_after` writes it. It is asked of solutions and of a truth alone.
pub fn json(alloc: Global, answer: &Answer) -> Result<String, AllocError>
    requires { has_json answer.now ≡ true }
    ensures { IfOk result (λ s. string_bytes s ≡ compact_text (json_of answer.now)) }
{
    let bytes = json_after(alloc, Vec::new(alloc), answer)?;
    match String::from_utf8(bytes) {
        Ok(text) => Ok(text),
        Err(_) => unreachable!(),
    }
}
