//! The bytes of replies.

ghost use Rattle.std.specs.Prelude.{◌≡◌, ◌++◌, ◌≤◌, IfOk, vec_len};
ghost use Rattle.qs_http.specs.Reply.{line, phrase_of, status_line, reply_of, fixed_of};
ghost use Rattle.qs_http.specs.inner.Reply.{body_fields, head_of};
ghost use Rattle.qs_http.specs.inner.Reply.{IsReplyStatus};

use crate::fixed_reply::Fixed;
use crate::media::Media;
use crate::reply_buffer::HEAD_ROOM;
use http::StatusCode;
use std::alloc::{AllocError, Global};

/// The whole bytes of a reply with that status, type and body. The one error is running out of memory.
pub fn reply(
    alloc: Global,
    status: StatusCode,
    media: Media,
    body: &[u8],
) -> Result<Vec<u8>, AllocError>
    requires { IsReplyStatus status }
    ensures { IfOk result (λ bytes. bytes.items ≡ reply_of status media body.now) }
{
    let mut bytes = reply_head(alloc, status, media, body.len())?;
    bytes.extend_from_slice(body)?;
    Ok(bytes)
}

/// The bytes of a reply with that status and type up to its body, which has so many bytes.
pub(crate) fn reply_head(
    alloc: Global,
    status: StatusCode,
    media: Media,
    length: usize,
) -> Result<Vec<u8>, AllocError>
    requires { IsReplyStatus status }
    ensures head { IfOk result (λ bytes. bytes.items ≡ head_of status media length) }
    ensures fits { IfOk result (λ bytes. vec_len bytes ≤ HEAD_ROOM) }
{
    let mut bytes = Vec::new(alloc);
    bytes.extend_from_slice(status_text(status).as_bytes())?;
    bytes.extend_from_slice(b"Connection: close\r\n")?;
    put_body_fields(alloc, &mut bytes, media, length)?;
    Ok(bytes)
}

/// The first line of a reply that isn't fixed.
fn status_text(status: StatusCode) -> &'static str
    requires { IsReplyStatus status }
    ensures { result.now ≡ status_line (status, phrase_of status) }
{
    let code = status.as_u16();
    if code == 200 {
        "HTTP/1.1 200 OK\r\n"
    } else if code == 400 {
        "HTTP/1.1 400 Bad Request\r\n"
    } else {
        "HTTP/1.1 500 Internal Server Error\r\n"
    }
}

/// The type and the length of the body, and an empty line.
fn put_body_fields(
    alloc: Global,
    bytes: &mut Vec<u8>,
    media: Media,
    length: usize,
) -> Result<(), AllocError>
    ensures { IfOk result (λ _. bytes.new.items ≡ bytes.old.items ++ body_fields media length) }
{
    put_line(bytes, b"Content-Type: ", media.text().as_bytes())?;
    let digits = format!(in alloc; "{length}")?;
    put_line(bytes, b"Content-Length: ", digits.as_bytes())?;
    bytes.extend_from_slice(b"\r\n")?;
    Ok(())
}

/// A field's name with its colon, its value, and the line's end.
fn put_line(bytes: &mut Vec<u8>, name: &[u8], value: &[u8]) -> Result<(), AllocError>
    ensures { IfOk result (λ _. bytes.new.items ≡ bytes.old.items ++ line (name.now ++ value.now)) }
{
    bytes.extend_from_slice(name)?;
    bytes.extend_from_slice(value)?;
    bytes.extend_from_slice(b"\r\n")
}

/// The whole bytes of a fixed reply. It takes no memory.
pub fn fixed(fixed: Fixed) -> &'static [u8]
    ensures { result.now ≡ fixed_of fixed }
{
    fixed_text(fixed).as_bytes()
}

fn fixed_text(fixed: Fixed) -> &'static str
    ensures { result.now ≡ fixed_of fixed }
{
    match fixed {
        Fixed::NoContent => "HTTP/1.1 204 No Content\r\nConnection: close\r\n\r\n",
        Fixed::BadRequest =>
            "HTTP/1.1 400 Bad Request\r\nConnection: close\r\nContent-Type: text/plain; charset=utf-8\r\nContent-Length: 12\r\n\r\nBad Request\n",
        Fixed::NotFound =>
            "HTTP/1.1 404 Not Found\r\nConnection: close\r\nContent-Type: text/plain; charset=utf-8\r\nContent-Length: 10\r\n\r\nNot Found\n",
        Fixed::QueryMethod =>
            "HTTP/1.1 405 Method Not Allowed\r\nConnection: close\r\nAllow: GET, POST\r\nContent-Type: text/plain; charset=utf-8\r\nContent-Length: 19\r\n\r\nMethod Not Allowed\n",
        Fixed::UpdateMethod =>
            "HTTP/1.1 405 Method Not Allowed\r\nConnection: close\r\nAllow: POST\r\nContent-Type: text/plain; charset=utf-8\r\nContent-Length: 19\r\n\r\nMethod Not Allowed\n",
        Fixed::DataMethod =>
            "HTTP/1.1 405 Method Not Allowed\r\nConnection: close\r\nAllow: GET\r\nContent-Type: text/plain; charset=utf-8\r\nContent-Length: 19\r\n\r\nMethod Not Allowed\n",
        Fixed::NoLength =>
            "HTTP/1.1 411 Length Required\r\nConnection: close\r\nContent-Type: text/plain; charset=utf-8\r\nContent-Length: 16\r\n\r\nLength Required\n",
        Fixed::BodyTooLarge =>
            "HTTP/1.1 413 Payload Too Large\r\nConnection: close\r\nContent-Type: text/plain; charset=utf-8\r\nContent-Length: 18\r\n\r\nPayload Too Large\n",
        Fixed::MediaType =>
            "HTTP/1.1 415 Unsupported Media Type\r\nConnection: close\r\nContent-Type: text/plain; charset=utf-8\r\nContent-Length: 23\r\n\r\nUnsupported Media Type\n",
        Fixed::HeadTooLarge =>
            "HTTP/1.1 431 Request Header Fields Too Large\r\nConnection: close\r\nContent-Type: text/plain; charset=utf-8\r\nContent-Length: 32\r\n\r\nRequest Header Fields Too Large\n",
        Fixed::Memory =>
            "HTTP/1.1 500 Internal Server Error\r\nConnection: close\r\nContent-Type: text/plain; charset=utf-8\r\nContent-Length: 17\r\n\r\nF9 out of memory\n",
    }
}
