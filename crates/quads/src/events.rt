//! Many connections at once, served over one store.

ghost use Rattle.qs_service.specs.Carried.{Carries};
ghost use Rattle.qs_service.specs.Language.{sparql};
ghost use Rattle.qs_service_endpoint.specs.Endpoint.{Steps, reply_bytes};
ghost use Rattle.qs_service_reactor.specs.Run.{Serves};

use qs_service::StoreMeaning;
use qs_service_endpoint::ConnectionsEndpoint;
use qs_service_reactor::{Limits, Network, Observer};
use std::alloc::Global;
use std::io;

/// A service, as the event loop serves it.
pub type ServiceEndpoint = ConnectionsEndpoint<StoreMeaning>;

/// Serves the connections of the network, many at once: so many in all, or without end where no number is given. Each event that the network
/// gives is one step of the service (SPARQL 1.1 Protocol, 2), and what goes out on a connection is a front of its one reply.
///
/// # Errors
///
/// Out of memory, before anything is served; that of a wait; that of an accept that isn't tried again.
pub fn serve_events<N: Network, O: Observer>(
    alloc: Global,
    net: &mut N,
    limits: &Limits,
    connections: Option<u32>,
    service: &mut ServiceEndpoint,
    observer: &mut O,
) -> io::Result<()>
    ensures { Serves (Steps (Carries sparql)) reply_bytes connections result
        service.old service.new (N.log net.old) (N.log net.new) }
{
    qs_service_reactor::serve_events(alloc, net, limits, connections, service, observer)
}
