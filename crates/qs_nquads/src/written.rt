//! Terms and quads as bytes.

ghost use Rattle.std.specs.Prelude.{◌≡◌, ◌++◌, ◌∷◌, [], OnOk};
ghost use Rattle.std.specs.Option.{option_copied};
ghost use Rattle.std.specs.Str.{bytes_eq};
ghost use Rattle.qs_terms.specs.declared.term.Term.TheVariants.{Blank};
ghost use Rattle.qs_terms.specs.Literal.{xsd_string};
ghost use Rattle.qs_nquads.specs.Written.{escaped_byte, iri_text, quoted, suffix, term_text, after_space, with_graph, line};
ghost use Rattle.qs_nquads.specs.inner.Written.{escaped};

use qs_terms::{Lit, Quad, Term, datatype};
use std::alloc::{AllocError, Global};

fn push_escaped_byte(out: &mut Vec<u8>, byte: u8) -> Result<(), AllocError>
    ensures { OnOk result (out.new.items ≡ out.old.items ++ escaped_byte byte) }
{
    match byte {
        b'"' => out.extend_from_slice(b"\\\""),
        b'\\' => out.extend_from_slice(b"\\\\"),
        b'\n' => out.extend_from_slice(b"\\n"),
        b'\r' => out.extend_from_slice(b"\\r"),
        _ => {
            out.push(byte)?;
            Ok(())
        }
    }
}

fn push_escaped(out: &mut Vec<u8>, form: &[u8]) -> Result<(), AllocError>
    ensures { OnOk result (out.new.items ≡ out.old.items ++ escaped form.now) }
{
    for byte in form {
        push_escaped_byte(out, *byte)?;
    }
    Ok(())
}

fn push_iri(out: &mut Vec<u8>, iri: &str) -> Result<(), AllocError>
    ensures { OnOk result (out.new.items ≡ out.old.items ++ iri_text iri.now) }
{
    out.push(b'<')?;
    out.extend_from_slice(iri.as_bytes())?;
    out.push(b'>')?;
    Ok(())
}

fn push_quoted(out: &mut Vec<u8>, form: &str) -> Result<(), AllocError>
    ensures { OnOk result (out.new.items ≡ out.old.items ++ quoted form.now) }
{
    out.push(b'"')?;
    push_escaped(out, form.as_bytes())?;
    out.push(b'"')?;
    Ok(())
}

// Whether the datatype isn't written.
fn is_xsd_string(text: &str) -> bool
    ensures { result ≡ bytes_eq text.now xsd_string }
{
    text == datatype::string()
}

fn push_suffix(out: &mut Vec<u8>, datatype: &str, tag: Option<&str>) -> Result<(), AllocError>
    ensures { OnOk result (out.new.items ≡ out.old.items ++ suffix datatype.now
        (option_copied tag.entry)) }
{
    if let Some(tag) = tag {
        out.push(b'@')?;
        return out.extend_from_slice(tag.as_bytes());
    }
    if is_xsd_string(datatype) {
        return Ok(());
    }
    out.extend_from_slice(b"^^")?;
    push_iri(out, datatype)
}

fn push_literal(out: &mut Vec<u8>, literal: &Lit) -> Result<(), AllocError>
    ensures { OnOk result
        (out.new.items ≡ out.old.items
        ++ (quoted literal.now.form ++ suffix literal.now.datatype literal.now.tag)) }
{
    push_quoted(out, literal.form())?;
    push_suffix(out, literal.datatype(), literal.tag())
}

fn push_blank(alloc: Global, out: &mut Vec<u8>, number: u64) -> Result<(), AllocError>
    ensures { OnOk result (out.new.items ≡ out.old.items ++ term_text (Blank number)) }
{
    let label = format!(in alloc; "_:b{number}")?;
    out.extend_from_slice(label.as_bytes())
}

fn push_term(alloc: Global, out: &mut Vec<u8>, term: &Term) -> Result<(), AllocError>
    ensures { OnOk result (out.new.items ≡ out.old.items ++ term_text term.now) }
{
    match term {
        Term::Iri(iri) => push_iri(out, iri.text()),
        Term::Blank(number) => push_blank(alloc, out, *number),
        Term::Literal(literal) => push_literal(out, literal),
    }
}

/// A space and a term.
fn push_after_space(alloc: Global, out: &mut Vec<u8>, term: &Term) -> Result<(), AllocError>
    ensures { OnOk result (out.new.items ≡ out.old.items ++ after_space term.now []) }
{
    out.push(b' ')?;
    push_term(alloc, out, term)
}

/// The quad's line.
pub(crate) fn push_line(alloc: Global, out: &mut Vec<u8>, quad: &Quad) -> Result<(), AllocError>
    ensures { OnOk result (out.new.items ≡ out.old.items ++ line quad.now) }
{
    push_term(alloc, out, quad.subject())?;
    push_after_space(alloc, out, quad.predicate())?;
    push_after_space(alloc, out, quad.object())?;
    if let Some(name) = quad.graph() {
        push_after_space(alloc, out, name)?;
    }
    out.extend_from_slice(b" .\n")
}
