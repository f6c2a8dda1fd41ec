//! What a request does.

ghost use Rattle.qs_http.specs.declared.request.Request.{Request};
ghost use Rattle.qs_service_connections.specs.inner.Meaning.{CarriesOrMemory};
ghost use Rattle.qs_service_connections.specs.Message.{Message};

use crate::reply::Reply;
use qs_http::Request;
use std::alloc::Global;

/// Says what a request does. A value is what is stored, with what is fixed for requests.
pub trait Meaning {
    // From what is stored, the request may lead to what is stored then, with that reply.
    ghost carries: { Self → Request → Self → Message → Type 0 };

    /// The reply of the request, which is carried out whole or not at all. Out of memory has its own reply, and leaves what is stored.
    fn carry_out(&mut self, alloc: Global, request: &Request) -> Reply
        ensures carried { CarriesOrMemory carries self.old request.now self.new result };
}
