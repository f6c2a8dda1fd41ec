//! The head of a request: its first line and its fields.
//!
//! A head is what `httparse` takes in its default form, with room for 64 fields. Two Content-Length fields are refused also where
//! they are equal.

ghost use Rattle.std.specs.Prelude.{◌≡◌, ◌++◌, SomeIff, ◌+◌, ◌≤◌, ◌<◌, ℕ, List, [], ◌∷◌, length, IfSome};
ghost use Rattle.httparse.specs.Spans.{IsRequestWithin};
ghost use Rattle.qs_http.specs.inner.HeadView.{ReadsAs};

use crate::bytes::{is_same_word, number_up_to, place_of, trim_ows};
use httparse::Status;
use httparse::spans::{HeaderSpan, RequestSpans, parse_request};

/// The longest body.
const BODY_LIMIT: usize = 4194304;

/// How the bytes read as a head, whole.
pub fn read_head(head: &[u8], fields: &mut [HeaderSpan]) -> Option<RequestSpans>
    requires { length fields.old ≡ 64 }
    ensures within { IfSome result (IsRequestWithin head.now fields.new) }
    ensures reads { ReadsAs head.now fields.new result }
    ensures room { length fields.new ≡ 64 }
{
    match parse_request(head, fields) {
        Ok(Status::Complete(spans)) => {
            if spans.len == head.len() {
                Some(spans)
            } else {
                None
            }
        }
        Ok(Status::Partial) => None,
        Err(_) => None,
    }
}

/// A head's parts, as the bytes and the places in them.
#[derive(Drop)]
pub struct Head<'b> {
    pub bytes: &'b [u8],
    pub spans: RequestSpans,
    pub fields: &'b [HeaderSpan],
}

/// The values of the fields of one name: how many there are, and the first, which is empty where there is none.
#[derive(Drop, Clone, Copy)]
pub struct Values<'b> {
    pub count: usize,
    pub first: &'b [u8],
}

impl<'b> Values<'b> {
    ghost use Rattle.qs_http.specs.inner.HeadView.{AreValues};

    /// One value more.
    fn and(self, value: &'b [u8]) -> Values<'b>
        requires { self.count < 64 }
        ensures more { (values : List (List ℕ)) → AreValues self.entry values
            → AreValues result (values ++ value.now ∷ []) }
        ensures count { result.count ≡ self.entry.count + 1 }
    {
        Values {
            count: self.count + 1,
            first: if self.count == 0 { value } else { self.first },
        }
    }
}

impl<'b> Head<'b> {
    ghost use Rattle.qs_http.specs.inner.HeadView.{plain, IsSound, AreValues};
    ghost use Rattle.qs_http.specs.Head.{values_of, is_get, is_post, path_of, parameters_of, at_query, at_update, at_data, media_of, is_form, is_direct, body_length};

    #[tactic(auto, unfolding(crate::specs::Head::is_get))]
    pub fn is_get(&self) -> bool
        requires { IsSound self.now }
        ensures { result ≡ is_get (plain self.now) }
    {
        self.spans.method.of(self.bytes) == b"GET".as_slice()
    }

    #[tactic(auto, unfolding(crate::specs::Head::is_post))]
    pub fn is_post(&self) -> bool
        requires { IsSound self.now }
        ensures { result ≡ is_post (plain self.now) }
    {
        self.spans.method.of(self.bytes) == b"POST".as_slice()
    }

    /// The target up to its first `?`.
    fn path(&self) -> &'b [u8]
        requires { IsSound self.now }
        ensures { result.now ≡ path_of (plain self.now) }
    {
        let target = self.spans.path.of(self.bytes);
        &target[..place_of(target, b'?')]
    }

    /// The target after its first `?`.
    #[tactic(auto, unfolding(crate::specs::Head::parameters_of))]
    pub fn parameters(&self) -> &'b [u8]
        requires { IsSound self.now }
        ensures { result.now ≡ parameters_of (plain self.now) }
    {
        let target = self.spans.path.of(self.bytes);
        let mark = place_of(target, b'?');
        if mark < target.len() {
            &target[mark + 1..]
        } else {
            &[]
        }
    }

    #[tactic(auto, unfolding(crate::specs::Head::at_query))]
    pub fn at_query(&self) -> bool
        requires { IsSound self.now }
        ensures { result ≡ at_query (plain self.now) }
    {
        self.path() == b"/query".as_slice()
    }

    #[tactic(auto, unfolding(crate::specs::Head::at_update))]
    pub fn at_update(&self) -> bool
        requires { IsSound self.now }
        ensures { result ≡ at_update (plain self.now) }
    {
        self.path() == b"/update".as_slice()
    }

    #[tactic(auto, unfolding(crate::specs::Head::at_data))]
    pub fn at_data(&self) -> bool
        requires { IsSound self.now }
        ensures { result ≡ at_data (plain self.now) }
    {
        self.path() == b"/data".as_slice()
    }

    /// The values of the fields of that name.
    #[tactic(auto, unfolding(crate::specs::Head::values_of, crate::specs::inner::HeadView::values_in))]
    pub fn values(&self, name: &[u8]) -> Values<'b>
        requires { IsSound self.now }
        ensures { AreValues result (values_of name.now (plain self.now)) }
    {
        let mut found = Values {
            count: 0,
            first: &[],
        };
        for field in self.fields {
            if is_same_word(name, field.name.of(self.bytes)) {
                found = found.and(field.value.of(self.bytes));
            }
        }
        found
    }

    /// The number that the Content-Length gives.
    #[tactic(auto, unfolding(crate::specs::Head::body_length))]
    pub fn body_length(&self) -> Option<usize>
        requires { IsSound self.now }
        ensures { SomeIff result (body_length (plain self.now) ≤ 4194304)
            (body_length (plain self.now)) }
    {
        number_up_to(self.values(b"content-length").first, BODY_LIMIT)
    }

    fn media(&self) -> &'b [u8]
        requires { IsSound self.now }
        ensures { result.now ≡ media_of (plain self.now) }
    {
        let value = self.values(b"content-type").first;
        trim_ows(&value[..place_of(value, b';')])
    }

    #[tactic(auto, unfolding(crate::specs::Head::is_form))]
    pub fn is_form(&self) -> bool
        requires { IsSound self.now }
        ensures { result ≡ is_form (plain self.now) }
    {
        is_same_word(self.media(), b"application/x-www-form-urlencoded")
    }

    #[tactic(auto, unfolding(crate::specs::Head::is_direct))]
    pub fn is_direct(&self) -> bool
        requires { IsSound self.now }
        ensures { result ≡ is_direct (plain self.now) }
    {
        if self.at_query() {
            is_same_word(self.media(), b"application/sparql-query")
        } else {
            is_same_word(self.media(), b"application/sparql-update")
        }
    }
}
