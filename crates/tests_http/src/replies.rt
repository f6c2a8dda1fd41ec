//! Replies byte by byte (RFC 9110, RFC 9112).

use crate::outcome::Outcome;
use http::StatusCode;
use qs_http::{Fixed, Media, ReplyBuffer, fixed, reply, reply_room};
use std::alloc::{AllocError, Global};

/// Fixed replies, with the status and the line of it, and what stands after `Connection: close`.
const FIXED: &[(Fixed, u16, &str)] = &[
    (
        Fixed::NoContent,
        204,
        "HTTP/1.1 204 No Content\r\nConnection: close\r\n\r\n",
    ),
    (
        Fixed::BadRequest,
        400,
        "HTTP/1.1 400 Bad Request\r\nConnection: close\r\nContent-Type: text/plain; charset=utf-8\r\nContent-Length: 12\r\n\r\nBad Request\n",
    ),
    (
        Fixed::NotFound,
        404,
        "HTTP/1.1 404 Not Found\r\nConnection: close\r\nContent-Type: text/plain; charset=utf-8\r\nContent-Length: 10\r\n\r\nNot Found\n",
    ),
    (
        Fixed::QueryMethod,
        405,
        "HTTP/1.1 405 Method Not Allowed\r\nConnection: close\r\nAllow: GET, POST\r\nContent-Type: text/plain; charset=utf-8\r\nContent-Length: 19\r\n\r\nMethod Not Allowed\n",
    ),
    (
        Fixed::UpdateMethod,
        405,
        "HTTP/1.1 405 Method Not Allowed\r\nConnection: close\r\nAllow: POST\r\nContent-Type: text/plain; charset=utf-8\r\nContent-Length: 19\r\n\r\nMethod Not Allowed\n",
    ),
    (
        Fixed::DataMethod,
        405,
        "HTTP/1.1 405 Method Not Allowed\r\nConnection: close\r\nAllow: GET\r\nContent-Type: text/plain; charset=utf-8\r\nContent-Length: 19\r\n\r\nMethod Not Allowed\n",
    ),
    (
        Fixed::NoLength,
        411,
        "HTTP/1.1 411 Length Required\r\nConnection: close\r\nContent-Type: text/plain; charset=utf-8\r\nContent-Length: 16\r\n\r\nLength Required\n",
    ),
    (
        Fixed::BodyTooLarge,
        413,
        "HTTP/1.1 413 Payload Too Large\r\nConnection: close\r\nContent-Type: text/plain; charset=utf-8\r\nContent-Length: 18\r\n\r\nPayload Too Large\n",
    ),
    (
        Fixed::MediaType,
        415,
        "HTTP/1.1 415 Unsupported Media Type\r\nConnection: close\r\nContent-Type: text/plain; charset=utf-8\r\nContent-Length: 23\r\n\r\nUnsupported Media Type\n",
    ),
    (
        Fixed::HeadTooLarge,
        431,
        "HTTP/1.1 431 Request Header Fields Too Large\r\nConnection: close\r\nContent-Type: text/plain; charset=utf-8\r\nContent-Length: 32\r\n\r\nRequest Header Fields Too Large\n",
    ),
    (
        Fixed::Memory,
        500,
        "HTTP/1.1 500 Internal Server Error\r\nConnection: close\r\nContent-Type: text/plain; charset=utf-8\r\nContent-Length: 17\r\n\r\nF9 out of memory\n",
    ),
];

fn are_fixed() -> bool {
    for (kind, status, text) in FIXED {
        if fixed(*kind) != text.as_bytes() || kind.status() != *status {
            return false;
        }
    }
    true
}

#[test]
fn writes_fixed_replies(rt: HostRuntime) {
    assert!(rt; are_fixed());
}

/// The reply with this status.
fn make(alloc: Global, status: u16, media: Media, body: &str) -> Result<Vec<u8>, AllocError> {
    match status {
        200 => reply(alloc, StatusCode::OK, media, body.as_bytes()),
        400 => reply(alloc, StatusCode::BAD_REQUEST, media, body.as_bytes()),
        _ => reply(
            alloc,
            StatusCode::INTERNAL_SERVER_ERROR,
            media,
            body.as_bytes(),
        ),
    }
}

/// Makes a reply in the buffer that its body was written to.
fn make_in_buffer(
    alloc: Global,
    status: u16,
    media: Media,
    body: &str,
) -> Result<ReplyBuffer, AllocError> {
    let mut buffer = reply_room(alloc)?;
    buffer.extend_from_slice(body.as_bytes())?;
    match status {
        200 => ReplyBuffer::new(alloc, StatusCode::OK, media, buffer),
        400 => ReplyBuffer::new(alloc, StatusCode::BAD_REQUEST, media, buffer),
        _ => ReplyBuffer::new(alloc, StatusCode::INTERNAL_SERVER_ERROR, media, buffer),
    }
}

/// Statuses, types and bodies of replies, and their bytes.
const REPLIES: &[(u16, Media, &str, &str)] = &[
    (
        200,
        Media::Results,
        "{\"boolean\":true,\"head\":{}}",
        "HTTP/1.1 200 OK\r\nConnection: close\r\nContent-Type: application/sparql-results+json\r\nContent-Length: 26\r\n\r\n{\"boolean\":true,\"head\":{}}",
    ),
    (
        200,
        Media::NTriples,
        "",
        "HTTP/1.1 200 OK\r\nConnection: close\r\nContent-Type: application/n-triples\r\nContent-Length: 0\r\n\r\n",
    ),
    (
        200,
        Media::NQuads,
        "é\n",
        "HTTP/1.1 200 OK\r\nConnection: close\r\nContent-Type: application/n-quads\r\nContent-Length: 3\r\n\r\né\n",
    ),
    (
        400,
        Media::Text,
        "F5 scope\n",
        "HTTP/1.1 400 Bad Request\r\nConnection: close\r\nContent-Type: text/plain; charset=utf-8\r\nContent-Length: 9\r\n\r\nF5 scope\n",
    ),
    (
        500,
        Media::Text,
        "F10 full\n",
        "HTTP/1.1 500 Internal Server Error\r\nConnection: close\r\nContent-Type: text/plain; charset=utf-8\r\nContent-Length: 9\r\n\r\nF10 full\n",
    ),
];

/// Whether each reply has its bytes, made of its body and in the buffer of its body.
pub fn outcome(alloc: Global) -> Outcome {
    for (status, media, body, text) in REPLIES {
        match make(alloc, *status, *media, body) {
            Ok(bytes) if bytes.as_slice() == text.as_bytes() => {}
            Ok(_) => return Outcome::Wrong,
            Err(_) => return Outcome::Refused,
        }
        match make_in_buffer(alloc, *status, *media, body) {
            Ok(reply) if reply.bytes() == text.as_bytes() => {}
            Ok(_) => return Outcome::Wrong,
            Err(_) => return Outcome::Refused,
        }
    }
    Outcome::Whole
}
