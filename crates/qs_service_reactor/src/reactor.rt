//! The loop.
//!
//! The loop depends on std and `mio` alone. It asks for the bytes of a reply from the place that its writes got to, so a socket
//! that takes fewer bytes than it was given loses none.

ghost use Rattle.std.specs.Prelude.{◌≡◌, ◌≤◌, ◌-◌, IfSome};
ghost use Rattle.qs_service_reactor.specs.Run.{Serves};
ghost use Rattle.qs_service_reactor.specs.inner.Turn.{Moves};

use crate::connection::Cause;
use crate::endpoint::Endpoint;
use crate::limits::Limits;
use crate::network::Network;
use crate::observer::{Observer, tell_dropped};
use crate::table::Table;
use std::alloc::Global;
use std::io;

/// How many connections are accepted at most.
fn most_of(connections: Option<u32>) -> u64
    ensures { IfSome connections (λ n. result ≡ n) }
{
    match connections {
        Some(n) => n as u64,
        None => u64::MAX,
    }
}

/// What follows a wait: the ready connections have their turns, the late ones are dropped, and who waits is accepted.
///
/// # Errors
/// That of an accept, if it won't pass.
fn take_round<N: Network, E: Endpoint, O: Observer>(
    table: &mut Table,
    most: u64,
    net: &mut N,
    endpoint: &mut E,
    observer: &mut O,
) -> io::Result<()>
    requires { table.old.accepted ≤ most }
    ensures moves { Moves E.steps E.reply_of (table.new.accepted - table.old.accepted)
        table.old.connections.items table.new.connections.items
        endpoint.old endpoint.new (N.log net.old) (N.log net.new) }
    ensures more { table.old.accepted ≤ table.new.accepted }
    ensures most { table.new.accepted ≤ most }
{
    table.take_turns(net, endpoint);
    table.drop_due(Cause::Late, net, endpoint);
    let dropped = table.make_room(most, net, endpoint)?;
    tell_dropped(observer, dropped);
    table.accept_all(most, net, endpoint)
}

/// Serves so many connections, or without a number any, until all have ended. Each that is accepted counts. Who finds no place waits in the
/// listener's queue.
///
/// # Errors
/// Out of memory, before anything is served; that of a wait; that of an accept, if it won't pass.
pub fn serve_events<N: Network, E: Endpoint, O: Observer>(
    alloc: Global,
    net: &mut N,
    limits: &Limits,
    connections: Option<u32>,
    endpoint: &mut E,
    observer: &mut O,
) -> io::Result<()>
    ensures { Serves E.steps E.reply_of connections result
        endpoint.old endpoint.new (N.log net.old) (N.log net.new) }
{
    let most = most_of(connections);
    let mut table = Table::new(alloc, limits)?;
    for _ in 0..u64::MAX {
        if table.is_done(most) {
            return Ok(());
        }
        let waited = net.wait(table.timeout(most), &mut table.ready)?;
        table.note(waited);
        take_round(&mut table, most, net, endpoint, observer)?;
    }
    Err(io::Error::other("the loop has come to its last round"))
}
