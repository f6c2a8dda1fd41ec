//! What the bytes of a request result in once its head has ended.
//!
//! A POST's head is parsed twice, when it ends and when its body is whole, so that a session keeps no borrowed parts. Both are
//! bounded by the head's limit.

ghost use Rattle.std.specs.Prelude.{◌≡◌, ◌≤◌, length, Some};
ghost use Rattle.qs_http.specs.HeadEnd.{head_end};
ghost use Rattle.qs_http.specs.inner.HeadView.{plain, IsSound};
ghost use Rattle.qs_http.specs.RequestOf.{of_body, of_get};
ghost use Rattle.qs_http.specs.inner.Stage.{IsStep, IsAnswer, IsUtf8Text, step_from, IsHeadStep};

use crate::bytes::leading_len;
use crate::fixed_reply::Fixed;
use crate::head::{Head, read_head};
use crate::parameters::{names_graph, text_of_pairs};
use crate::request::Request;
use crate::stage::Step;
use httparse::spans::{EMPTY_HEADER_SPAN, HeaderSpan};
use qs_terms::Text;
use std::alloc::Global;

/// What the bytes result in, whose head ends there.
pub fn conclude(alloc: Global, bytes: &[u8], end: usize) -> Step
    requires ends { head_end bytes.now ≡ Some end }
    requires within { end ≤ length bytes.now }
    ensures { IsStep bytes.now end result }
{
    let front = &bytes[..end];
    let head = &front[leading_len(front)..];
    let mut fields: [HeaderSpan; 64] = [EMPTY_HEADER_SPAN; 64];
    let Some(spans) = read_head(head, &mut fields) else {
        return Step::Refused(Fixed::BadRequest);
    };
    let head = Head {
        bytes: head,
        spans,
        fields: &fields[..spans.headers],
    };
    step_of_head(alloc, &head, &bytes[end..])
}

/// What a head results in with those bytes after it.
fn step_of_head(alloc: Global, head: &Head<'_>, behind: &[u8]) -> Step
    requires { IsSound head.now }
    ensures { IsHeadStep (plain head.now) behind.now result }
{
    if let Some(fixed) = head.due() {
        return Step::Refused(fixed);
    }
    if head.is_get() {
        return answered(ask_get(alloc, head));
    }
    let Some(size) = head.body_length() else {
        return Step::Refused(Fixed::BodyTooLarge);
    };
    if behind.len() < size {
        return Step::More(size);
    }
    answered(ask_body(alloc, head, &behind[..size]))
}

fn answered(answer: Result<Request, Fixed>) -> Step
    ensures { result ≡ step_from answer }
{
    match answer {
        Ok(request) => Step::Ready(request),
        Err(fixed) => Step::Refused(fixed),
    }
}

/// The check of a GET's parameters.
#[tactic(auto, unfolding(crate::specs::RequestOf::of_get))]
fn ask_get(alloc: Global, head: &Head<'_>) -> Result<Request, Fixed>
    requires { IsSound head.now }
    ensures { IsAnswer (of_get (plain head.now)) result }
{
    if head.at_data() {
        return Ok(Request::Dump);
    }
    match text_of_pairs(alloc, b"query", head.parameters(), &[]) {
        Ok(text) => Ok(Request::Query(text)),
        Err(fixed) => Err(fixed),
    }
}

/// The check of a body.
#[tactic(auto, unfolding(crate::specs::RequestOf::of_body))]
fn ask_body(alloc: Global, head: &Head<'_>, body: &[u8]) -> Result<Request, Fixed>
    requires { IsSound head.now }
    ensures { IsAnswer (of_body (plain head.now) body.now) result }
{
    if head.is_form() {
        if head.at_query() {
            return match text_of_pairs(alloc, b"query", body, head.parameters()) {
                Ok(text) => Ok(Request::Query(text)),
                Err(fixed) => Err(fixed),
            };
        }
        return match text_of_pairs(alloc, b"update", body, head.parameters()) {
            Ok(text) => Ok(Request::Update(text)),
            Err(fixed) => Err(fixed),
        };
    }
    match names_graph(alloc, head.parameters()) {
        Ok(true) => return Err(Fixed::BadRequest),
        Ok(false) => {}
        Err(_) => return Err(Fixed::Memory),
    }
    let text = match text_of(alloc, body) {
        Ok(text) => text,
        Err(fixed) => return Err(fixed),
    };
    if head.at_query() {
        Ok(Request::Query(text))
    } else {
        Ok(Request::Update(text))
    }
}

/// The bytes as a text.
fn text_of(alloc: Global, bytes: &[u8]) -> Result<Text, Fixed>
    ensures { IsUtf8Text bytes.now result }
{
    let Ok(text) = str::from_utf8(bytes) else {
        return Err(Fixed::BadRequest);
    };
    match Text::new(alloc, text) {
        Ok(text) => Ok(text),
        Err(_) => Err(Fixed::Memory),
    }
}
