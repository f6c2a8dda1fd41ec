//! The checks of a request's head, in their order.

ghost use Rattle.std.specs.Prelude.{◌≡◌};

use crate::bytes::is_number;
use crate::fixed_reply::Fixed;
use crate::head::Head;

impl<'b> Head<'b> {
    ghost use Rattle.qs_http.specs.inner.HeadView.{plain, IsSound};
    ghost use Rattle.qs_http.specs.Checks.{first_due, head_checks};
    ghost use Rattle.qs_http.specs.inner.Checks.{lacks_host, is_unknown_path, query_method_not_allowed, update_method_not_allowed, data_method_not_allowed, lacks_length, has_bad_length, has_long_body, has_other_media};

    /// The first check that fails.
    #[tactic(auto, unfolding(crate::specs::inner::Checks::lacks_host, crate::specs::inner::Checks::is_unknown_path, crate::specs::inner::Checks::query_method_not_allowed, crate::specs::inner::Checks::update_method_not_allowed, crate::specs::inner::Checks::data_method_not_allowed, crate::specs::inner::Checks::lacks_length, crate::specs::inner::Checks::has_bad_length, crate::specs::inner::Checks::has_long_body, crate::specs::inner::Checks::has_other_media))]
    pub fn due(&self) -> Option<Fixed>
        requires { IsSound self.now }
        ensures { result ≡ first_due (head_checks (plain self.now)) }
    {
        if self.lacks_host() {
            Some(Fixed::BadRequest)
        } else if self.is_unknown_path() {
            Some(Fixed::NotFound)
        } else if self.query_method_not_allowed() {
            Some(Fixed::QueryMethod)
        } else if self.update_method_not_allowed() {
            Some(Fixed::UpdateMethod)
        } else if self.data_method_not_allowed() {
            Some(Fixed::DataMethod)
        } else if self.lacks_length() {
            Some(Fixed::NoLength)
        } else if self.has_bad_length() {
            Some(Fixed::BadRequest)
        } else if self.has_long_body() {
            Some(Fixed::BodyTooLarge)
        } else if self.has_other_media() {
            Some(Fixed::MediaType)
        } else {
            None
        }
    }

    #[tactic(auto, unfolding(crate::specs::inner::Checks::lacks_host))]
    fn lacks_host(&self) -> bool
        requires { IsSound self.now }
        ensures { result ≡ lacks_host (plain self.now) }
    {
        self.spans.version == 1 && self.values(b"host").count != 1
    }

    #[tactic(auto, unfolding(crate::specs::inner::Checks::is_unknown_path))]
    fn is_unknown_path(&self) -> bool
        requires { IsSound self.now }
        ensures { result ≡ is_unknown_path (plain self.now) }
    {
        !(self.at_query() || self.at_update() || self.at_data())
    }

    #[tactic(auto, unfolding(crate::specs::inner::Checks::query_method_not_allowed))]
    fn query_method_not_allowed(&self) -> bool
        requires { IsSound self.now }
        ensures { result ≡ query_method_not_allowed (plain self.now) }
    {
        self.at_query() && !(self.is_get() || self.is_post())
    }

    #[tactic(auto, unfolding(crate::specs::inner::Checks::update_method_not_allowed))]
    fn update_method_not_allowed(&self) -> bool
        requires { IsSound self.now }
        ensures { result ≡ update_method_not_allowed (plain self.now) }
    {
        self.at_update() && !self.is_post()
    }

    #[tactic(auto, unfolding(crate::specs::inner::Checks::data_method_not_allowed))]
    fn data_method_not_allowed(&self) -> bool
        requires { IsSound self.now }
        ensures { result ≡ data_method_not_allowed (plain self.now) }
    {
        self.at_data() && !self.is_get()
    }

    #[tactic(auto, unfolding(crate::specs::inner::Checks::lacks_length))]
    fn lacks_length(&self) -> bool
        requires { IsSound self.now }
        ensures { result ≡ lacks_length (plain self.now) }
    {
        self.is_post()
            && (self.values(b"transfer-encoding").count != 0
                || self.values(b"content-length").count == 0)
    }

    #[tactic(auto, unfolding(crate::specs::inner::Checks::has_bad_length))]
    fn has_bad_length(&self) -> bool
        requires { IsSound self.now }
        ensures { result ≡ has_bad_length (plain self.now) }
    {
        let lengths = self.values(b"content-length");
        self.is_post() && !(lengths.count == 1 && is_number(lengths.first))
    }

    #[tactic(auto, unfolding(crate::specs::inner::Checks::has_long_body))]
    fn has_long_body(&self) -> bool
        requires { IsSound self.now }
        ensures { result ≡ has_long_body (plain self.now) }
    {
        self.is_post() && self.body_length().is_none()
    }

    #[tactic(auto, unfolding(crate::specs::inner::Checks::has_other_media))]
    fn has_other_media(&self) -> bool
        requires { IsSound self.now }
        ensures { result ≡ has_other_media (plain self.now) }
    {
        self.is_post()
            && !(self.values(b"content-type").count == 1 && (self.is_form() || self.is_direct()))
    }
}
