//! Devices that count their faults.

use qs_terms::{Counted, Sink, Stream, put_all};
use std::collections::VecDeque;

/// Whether bytes go in and come out.
fn streams(stream: &mut Counted<VecDeque<u8>>) -> bool {
    let mut buf = [0u8; 4];
    put_all(stream, b"abc") == 3
        && matches!(stream.put(b"de"), Ok(2))
        && matches!(stream.get(&mut buf), Ok(4))
        && buf == *b"abcd"
        && stream.faults() == 0
}

#[test]
fn gives_what_it_took(rt: HostRuntime) {
    let mut stream = Counted::new(VecDeque::new(rt.alloc()));
    let streams = streams(&mut stream);
    let left = stream.into_inner();
    let len = left.len();
    drop(left);
    assert!(rt; streams && len == 1);
}
