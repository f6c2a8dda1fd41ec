//! What the bytes of a connection result in (SPARQL 1.1 Protocol, 2), in whichever pieces they come.

use qs_http::{Fixed, Progress, Request, Session};
use std::alloc::{AllocError, Global};

/// What bytes result in.
#[derive(Clone, Copy)]
pub enum End {
    More,
    Query(&'static str),
    Update(&'static str),
    Dump,
    Refused(Fixed),
}

/// Whether the session has this outcome.
pub fn is_at(session: &Session, progress: Progress, end: End) -> bool {
    match (progress, session.request(), end) {
        (Progress::More, None, End::More) => true,
        (Progress::Ready, Some(Request::Query(found)), End::Query(text)) => found.as_str() == text,
        (Progress::Ready, Some(Request::Update(found)), End::Update(text)) => found.as_str()
            == text,
        (Progress::Ready, Some(Request::Dump), End::Dump) => true,
        (Progress::Refused(found), None, End::Refused(due)) => found == due,
        _ => false,
    }
}

/// Feeds the bytes in pieces of that size.
pub fn feed(session: &mut Session, bytes: &[u8], size: usize) -> Progress {
    let mut progress = Progress::More;
    for piece in bytes.chunks(size.max(1)) {
        progress = session.feed(piece);
    }
    progress
}

/// Whether the bytes result in this in pieces of that size, and stay so where another request stands after them.
fn comes_to(alloc: Global, bytes: &[u8], size: usize, end: End) -> bool {
    let mut session = Session::new(alloc);
    let progress = feed(&mut session, bytes, size);
    let is_at_end = is_at(&session, progress, end);
    let later = session.feed(b"GET /data HTTP/1.0\r\n\r\n");
    let stays = progress == Progress::More || is_at(&session, later, end);
    drop(session);
    is_at_end && stays
}

/// Bytes, and what they result in.
const ENDS: &[(&[u8], End)] = &[
    // the head's grammar and its Host
    (
        b"GET /data HTTP/1.1\r\n\r\n",
        End::Refused(Fixed::BadRequest),
    ),
    (
        b"GET /data HTTP/1.1\r\nHost: e\r\nHost: e\r\n\r\n",
        End::Refused(Fixed::BadRequest),
    ),
    (b"GET /data\r\n\r\n", End::Refused(Fixed::BadRequest)),
    (
        b"GET /data HTTP/2.0\r\n\r\n",
        End::Refused(Fixed::BadRequest),
    ),
    (
        b"GET /data HTTP/1.1\r\nHost e\r\n\r\n",
        End::Refused(Fixed::BadRequest),
    ),
    // the path
    (
        b"PUT /no HTTP/1.1\r\nHost: e\r\n\r\n",
        End::Refused(Fixed::NotFound),
    ),
    (
        b"GET /Query HTTP/1.0\r\n\r\n",
        End::Refused(Fixed::NotFound),
    ),
    (
        b"GET /query/ HTTP/1.0\r\n\r\n",
        End::Refused(Fixed::NotFound),
    ),
    (
        b"GET http://e/query?query=ASK%7B%7D HTTP/1.0\r\n\r\n",
        End::Refused(Fixed::NotFound),
    ),
    // the method
    (
        b"PUT /query HTTP/1.0\r\n\r\n",
        End::Refused(Fixed::QueryMethod),
    ),
    (
        b"HEAD /query HTTP/1.0\r\n\r\n",
        End::Refused(Fixed::QueryMethod),
    ),
    (
        b"GET /update HTTP/1.1\r\nHost: e\r\n\r\n",
        End::Refused(Fixed::UpdateMethod),
    ),
    (
        b"POST /data HTTP/1.0\r\n\r\n",
        End::Refused(Fixed::DataMethod),
    ),
    (
        b"get /data HTTP/1.0\r\n\r\n",
        End::Refused(Fixed::DataMethod),
    ),
    // the body's length
    (
        b"POST /update HTTP/1.1\r\nHost: e\r\n\r\n",
        End::Refused(Fixed::NoLength),
    ),
    (
        b"POST /update HTTP/1.0\r\nTransfer-Encoding: chunked\r\nContent-Length: 0\r\n\r\n",
        End::Refused(Fixed::NoLength),
    ),
    (
        b"POST /update HTTP/1.0\r\nContent-Length: 0\r\nContent-Length: 0\r\n\r\n",
        End::Refused(Fixed::BadRequest),
    ),
    (
        b"POST /update HTTP/1.0\r\nContent-Length:\r\n\r\n",
        End::Refused(Fixed::BadRequest),
    ),
    (
        b"POST /update HTTP/1.0\r\nContent-Length: +5\r\n\r\n",
        End::Refused(Fixed::BadRequest),
    ),
    (
        b"POST /update HTTP/1.0\r\nContent-Length: 4194305\r\n\r\n",
        End::Refused(Fixed::BodyTooLarge),
    ),
    (
        b"POST /update HTTP/1.0\r\nContent-Length: 99999999999999999999\r\n\r\n",
        End::Refused(Fixed::BodyTooLarge),
    ),
    // the media type
    (
        b"POST /update HTTP/1.0\r\nContent-Length: 4194304\r\n\r\n",
        End::Refused(Fixed::MediaType),
    ),
    (
        b"POST /update HTTP/1.0\r\nContent-Length: 0\r\nContent-Type: application/sparql-query\r\n\r\n",
        End::Refused(Fixed::MediaType),
    ),
    (
        b"POST /query HTTP/1.0\r\nContent-Length: 0\r\nContent-Type: text/plain\r\n\r\n",
        End::Refused(Fixed::MediaType),
    ),
    // the parameters
    (
        b"GET /query?query=ASK%7B%7D&query=ASK%7B%7D HTTP/1.1\r\nHost: e\r\n\r\n",
        End::Refused(Fixed::BadRequest),
    ),
    (
        b"GET /query HTTP/1.0\r\n\r\n",
        End::Refused(Fixed::BadRequest),
    ),
    (
        b"GET /query?query=ASK%7B%7D&default-graph-uri= HTTP/1.0\r\n\r\n",
        End::Refused(Fixed::BadRequest),
    ),
    (
        b"POST /update?using-named%2Dgraph-uri=g HTTP/1.0\r\nContent-Length: 0\r\nContent-Type: application/sparql-update\r\n\r\n",
        End::Refused(Fixed::BadRequest),
    ),
    (
        b"POST /query HTTP/1.0\r\nContent-Length: 8\r\nContent-Type: application/x-www-form-urlencoded\r\n\r\nupdate=a",
        End::Refused(Fixed::BadRequest),
    ),
    (
        b"POST /query HTTP/1.0\r\nContent-Length: 1\r\nContent-Type: application/sparql-query\r\n\r\n\xff",
        End::Refused(Fixed::BadRequest),
    ),
    // queries
    (
        b"GET /query?query=ASK%7B%7D HTTP/1.0\r\n\r\n",
        End::Query("ASK{}"),
    ),
    (
        b"GET /query?x=1&query=a+b&query2=c?d HTTP/1.0\r\nContent-Length: x\r\n\r\n",
        End::Query("a b"),
    ),
    (b"GET /query?query=%FF HTTP/1.0\n\n", End::Query("\u{FFFD}")),
    (b"GET /query?qu%65ry HTTP/1.0\n\r\n", End::Query("")),
    (
        b"\r\n\n\rGET /query?query=a HTTP/1.0\r\n\r\nGET /no HTTP/1.0\r\n\r\n",
        End::Query("a"),
    ),
    (
        b"POST /query?query=b&query=c HTTP/1.1\r\nhOST: e\r\nContent-Type: APPLICATION/Sparql-Query \t; charset=x\r\ncontent-length: 0005\r\n\r\nASK{}",
        End::Query("ASK{}"),
    ),
    (
        b"POST /query HTTP/1.0\r\nContent-Type: application/x-www-form-urlencoded;\r\nContent-Length: 13\r\n\r\nquery=ASK%7B}",
        End::Query("ASK{}"),
    ),
    // as curl 7.88.1 sends it
    (
        b"GET /query?query=ASK+%7b+%3fs+%3fp+%3fo+%7d HTTP/1.1\r\nHost: 127.0.0.1:33479\r\nUser-Agent: curl/7.88.1\r\nAccept: */*\r\n\r\n",
        End::Query("ASK { ?s ?p ?o }"),
    ),
    // as Python's urllib 3.11 sends it
    (
        b"GET /query?query=ASK+%7B+%3Fs+%3Fp+%3Fo+%7D HTTP/1.1\r\nAccept-Encoding: identity\r\nHost: 127.0.0.1:33479\r\nUser-Agent: Python-urllib/3.11\r\nConnection: close\r\n\r\n",
        End::Query("ASK { ?s ?p ?o }"),
    ),
    // in the form of a browser's
    (
        b"GET /query?query=ASK%20%7B%7D HTTP/1.1\r\nHost: localhost:8080\r\nUser-Agent: Mozilla/5.0 (X11; Linux x86_64; rv:128.0) Gecko/20100101 Firefox/128.0\r\nAccept: text/html,application/xhtml+xml,application/xml;q=0.9,image/avif,image/webp,*/*;q=0.8\r\nAccept-Language: en-US,en;q=0.5\r\nAccept-Encoding: gzip, deflate, br, zstd\r\nConnection: keep-alive\r\nUpgrade-Insecure-Requests: 1\r\nSec-Fetch-Dest: document\r\nSec-Fetch-Mode: navigate\r\nSec-Fetch-Site: none\r\nSec-Fetch-User: ?1\r\nPriority: u=0, i\r\n\r\n",
        End::Query("ASK {}"),
    ),
    // updates
    (
        b"POST /update HTTP/1.1\r\nHost:\r\nContent-Type: application/sparql-update\r\nContent-Length: 0\r\n\r\n",
        End::Update(""),
    ),
    (
        b"POST /update HTTP/1.0\r\nContent-Type: application/x-www-form-urlencoded\r\nContent-Length: 19\r\n\r\n&query=a&update=b&&",
        End::Update("b"),
    ),
    // as curl 7.88.1 sends it
    (
        b"POST /update HTTP/1.1\r\nHost: 127.0.0.1:33479\r\nUser-Agent: curl/7.88.1\r\nAccept: */*\r\nContent-Type: application/sparql-update\r\nContent-Length: 9\r\n\r\nCLEAR ALL",
        End::Update("CLEAR ALL"),
    ),
    // as Python's urllib 3.11 sends it
    (
        b"POST /update HTTP/1.1\r\nAccept-Encoding: identity\r\nContent-Type: application/x-www-form-urlencoded\r\nContent-Length: 16\r\nHost: 127.0.0.1:33479\r\nUser-Agent: Python-urllib/3.11\r\nConnection: close\r\n\r\nupdate=CLEAR+ALL",
        End::Update("CLEAR ALL"),
    ),
    // in the form of a browser's
    (
        b"POST /update HTTP/1.1\r\nHost: localhost:8080\r\nUser-Agent: Mozilla/5.0 (X11; Linux x86_64; rv:128.0) Gecko/20100101 Firefox/128.0\r\nAccept: */*\r\nAccept-Language: en-US,en;q=0.5\r\nAccept-Encoding: gzip, deflate, br, zstd\r\nContent-Type: application/x-www-form-urlencoded;charset=UTF-8\r\nContent-Length: 30\r\nOrigin: http://localhost:8080\r\nConnection: keep-alive\r\nCookie: a=b; c=d\r\n\r\nupdate=CLEAR+GRAPH+%3Cu%3Aa%3E",
        End::Update("CLEAR GRAPH <u:a>"),
    ),
    // the dataset
    (
        b"GET /data?default-graph-uri=g HTTP/1.1\r\nHost: e\r\n\r\n",
        End::Dump,
    ),
    // not yet
    (b"", End::More),
    (b"GET /data HTTP/1.0\r\n\r", End::More),
    (
        b"POST /update HTTP/1.0\r\nContent-Type: application/sparql-update\r\nContent-Length: 2\r\n\r\na",
        End::More,
    ),
];

#[test]
fn reads_requests(rt: HostRuntime) {
    for (row, (bytes, end)) in ENDS.iter().enumerate() {
        let at_once = comes_to(rt.alloc(), bytes, bytes.len(), *end);
        let by_bytes = comes_to(rt.alloc(), bytes, 1, *end);
        assert!(rt; at_once && by_bytes, "row {row}");
    }
}

const WHOLE: &[u8] =
    b"POST /update HTTP/1.1\r\nHost: e\r\nContent-Type: application/sparql-update\r\nContent-Length: 54\r\n\r\nINSERT DATA { <http://e/a> <http://e/p> <http://e/b> }";

const TEXT: &str = "INSERT DATA { <http://e/a> <http://e/p> <http://e/b> }";

#[test]
fn reads_every_cut(rt: HostRuntime) {
    for size in 1..WHOLE.len() {
        assert!(rt;
            comes_to(rt.alloc(), WHOLE, size, End::Update(TEXT)),
            "pieces of {size}"
        );
    }
}

/// A front, a line, how many of them, an end, and what they result in: a head has 16,384 bytes and 64 fields at most, a body 4,194,304 bytes.
const LIMITS: &[(&[u8], &[u8], u32, &[u8], End)] = &[
    (b"", b"\n", 16383, b"", End::More),
    (b"", b"\n", 16384, b"", End::Refused(Fixed::HeadTooLarge)),
    (
        b"\r\n\r\nGET /data HTTP/1.1\r\nHost: e\r\nA: ",
        b"b",
        16344,
        b"\r\n\r\n",
        End::Dump,
    ),
    (
        b"\r\n\r\nGET /data HTTP/1.1\r\nHost: e\r\nA: ",
        b"b",
        16345,
        b"\r\n\r\n",
        End::Refused(Fixed::HeadTooLarge),
    ),
    (
        b"GET /data HTTP/1.1\r\nHost: e\r\n",
        b"A: b\r\n",
        63,
        b"\r\n",
        End::Dump,
    ),
    (
        b"GET /data HTTP/1.1\r\nHost: e\r\n",
        b"A: b\r\n",
        64,
        b"\r\n",
        End::Refused(Fixed::BadRequest),
    ),
    (
        b"POST /query HTTP/1.0\r\nContent-Type: application/x-www-form-urlencoded\r\nContent-Length: 4194304\r\n\r\n",
        b"&&",
        2097146,
        b"query=ASK{}",
        End::More,
    ),
    (
        b"POST /query HTTP/1.0\r\nContent-Type: application/x-www-form-urlencoded\r\nContent-Length: 4194304\r\n\r\n",
        b"&&",
        2097146,
        b"&query=ASK{}",
        End::Query("ASK{}"),
    ),
];

fn long_comes_to(
    alloc: Global,
    front: &[u8],
    line: &[u8],
    count: u32,
    last: &[u8],
    end: End,
) -> Result<bool, AllocError> {
    let mut bytes = Vec::from_slice(alloc, front)?;
    for _ in 0..count {
        bytes.extend_from_slice(line)?;
    }
    bytes.extend_from_slice(last)?;
    Ok(comes_to(alloc, bytes.as_slice(), 4096, end))
}

#[test]
fn keeps_the_limits(rt: HostRuntime) {
    for (row, (front, line, count, last, end)) in LIMITS.iter().enumerate() {
        let is_right = long_comes_to(rt.alloc(), front, line, *count, last, *end);
        assert!(rt; matches!(is_right, Ok(true)), "row {row}");
    }
}

/// A query by GET and an update by POST.
const CUT: &[(&[u8], End)] = &[
    (
        b"GET /query?query=ASK%7B%3Fs+%3Fp+%3Fo%7D HTTP/1.1\r\nHost: e\r\n\r\n",
        End::Query("ASK{?s ?p ?o}"),
    ),
    (
        b"POST /update HTTP/1.1\r\nHost: e\r\nContent-Type: application/sparql-update\r\nContent-Length: 54\r\n\r\nINSERT DATA { <http://e/a> <http://e/p> <http://e/b> }",
        End::Update("INSERT DATA { <http://e/a> <http://e/p> <http://e/b> }"),
    ),
];

/// Whether each front that lacks bytes wants more, and the whole is read.
fn wants_the_last(alloc: Global, bytes: &[u8], end: End) -> bool {
    for len in 0..bytes.len() {
        if !comes_to(alloc, &bytes[..len], bytes.len(), End::More) {
            return false;
        }
    }
    comes_to(alloc, bytes, bytes.len(), end)
}

#[test]
fn each_front_wants_more(rt: HostRuntime) {
    for (bytes, end) in CUT {
        assert!(rt; wants_the_last(rt.alloc(), bytes, *end));
    }
}
