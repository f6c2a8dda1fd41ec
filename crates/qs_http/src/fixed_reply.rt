//! Replies that are the same bytes each time.

use std::alloc::AllocError;

/// The replies that are the same bytes each time.
#[derive(Clone, Copy, Debug, PartialEq, Eq)]
pub enum Fixed {
    /// 204: an update was carried out.
    NoContent,
    /// 400: the head, the length, the parameters or the text's encoding aren't lawful.
    BadRequest,
    /// 404: the target's path isn't one of the three.
    NotFound,
    /// 405 of `/query`, which takes GET and POST.
    QueryMethod,
    /// 405 of `/update`, which takes POST.
    UpdateMethod,
    /// 405 of `/data`, which takes GET.
    DataMethod,
    /// 411: a POST without a Content-Length, or with a Transfer-Encoding.
    NoLength,
    /// 413: a body of more than 4,194,304 bytes.
    BodyTooLarge,
    /// 415: a POST without exactly one Content-Type, or with one that its path doesn't take.
    MediaType,
    /// 431: the head hasn't ended within 16,384 bytes.
    HeadTooLarge,
    /// 500: a growth was refused.
    Memory,
}

impl Fixed {
    ghost use Rattle.std.specs.Prelude.{◌≡◌};
    ghost use Rattle.qs_http.specs.Reply.{status_of};

    /// The reply's status code.
    pub fn status(self) -> u16
        ensures { result ≡ (status_of self).0 }
    {
        match self {
            Fixed::NoContent => 204,
            Fixed::BadRequest => 400,
            Fixed::NotFound => 404,
            Fixed::QueryMethod | Fixed::UpdateMethod | Fixed::DataMethod => 405,
            Fixed::NoLength => 411,
            Fixed::BodyTooLarge => 413,
            Fixed::MediaType => 415,
            Fixed::HeadTooLarge => 431,
            Fixed::Memory => 500,
        }
    }
}

impl From<AllocError> for Fixed {
    ghost use Rattle.std.specs.Prelude.{◌≡◌};
    ghost use Rattle.qs_http.specs.declared.fixed_reply.Fixed.TheVariants.{Memory};

    ghost from_gives = { λ error fixed. fixed ≡ Memory };

    fn from(_error: AllocError) -> Fixed {
        Fixed::Memory
    }
}
