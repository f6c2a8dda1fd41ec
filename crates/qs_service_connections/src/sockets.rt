//! Connections that arrive at a listener.
//!
//! `serve` waits 30 seconds at most for a read or a write. A silent peer holds up all others for so long, and one that sends a
//! byte at times for longer. After a reply it reads for a second, at most 1,100 times.

use crate::connections::Connections;
use crate::meaning::Meaning;
use qs_terms::Counted;
use std::io;
use std::io::Read;
use std::net::{Shutdown, TcpListener, TcpStream};
use std::time::Duration;

/// How many seconds a read or a write may wait for the peer.
const PATIENCE: u64 = 30;

/// How many seconds a read may wait for the peer once the reply is written.
const LAST_PATIENCE: u64 = 1;

/// How many reads there are then at most: a body of the greatest lawful length takes 1,024.
const LAST_READS: u32 = 1100;

/// Serves so many connections, one after another. One that stays silent, or fails, counts, and the next is served. A peer that neither
/// sends nor takes bytes for 30 seconds has failed.
///
/// # Errors
/// That of the first accept that fails.
pub fn serve<M: Meaning>(
    listener: &TcpListener,
    connections: u32,
    service: &mut Connections<M>,
) -> io::Result<()> {
    for stream in listener.incoming().take(connections as usize) {
        let stream = stream?;
        serve_socket(&stream, service);
    }
    Ok(())
}

fn serve_socket<M: Meaning>(stream: &TcpStream, service: &mut Connections<M>) {
    let patience = Some(Duration::from_secs(PATIENCE));
    if stream.set_read_timeout(patience).is_err() || stream.set_write_timeout(patience).is_err() {
        return;
    }
    let mut device = Counted::new(stream);
    if service.serve_one(&mut device).is_ok() {
        close(stream);
    }
}

/// Closes in stages (RFC 9112, 9.6): what the peer still sends is read and dropped for a while. Bytes that nobody reads would reset the
/// connection, and the peer could lose the reply.
fn close(mut stream: &TcpStream) {
    let patience = Some(Duration::from_secs(LAST_PATIENCE));
    if stream.shutdown(Shutdown::Write).is_err() || stream.set_read_timeout(patience).is_err() {
        return;
    }
    let mut buf = [0u8; 4096];
    for _ in 0..LAST_READS {
        match stream.read(&mut buf) {
            Ok(0) => return,
            Ok(_) => {}
            Err(_) => return,
        }
    }
}
