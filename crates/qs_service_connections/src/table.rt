//! The table of connections, and where a connection stands in it.

ghost use Rattle.std.specs.Prelude.{◌≡◌, []};
ghost use Rattle.qs_service_connections.specs.inner.Table.{IsPlace, IsTable};

use crate::connection::Connection;
use std::alloc::{AllocError, Global};

/// How many connections may be joined at once.
pub(crate) const MOST: usize = 64;

/// A table of connections with no connection, and room for 64.
#[derive(Drop)]
pub struct Table {
    pub(crate) alloc: Global,
    pub(crate) connections: Vec<Connection>,
    ghost room: { IsTable connections },
    ghost empty: { connections.items ≡ [] },
}

impl Table {
    /// A table with no connection. The one error is out of memory.
    pub fn new(alloc: Global) -> Result<Table, AllocError> {
        Ok(Table {
            alloc,
            connections: Vec::with_capacity(alloc, MOST)?,
        })
    }
}

/// The place of the connection of that id, or the length where it isn't joined.
pub(crate) fn place_of(connections: &[Connection], id: u64) -> usize
    ensures { IsPlace id connections.now result }
{
    for (i, connection) in connections.iter().enumerate() {
        if connection.id() == id {
            return i;
        }
    }
    connections.len()
}
