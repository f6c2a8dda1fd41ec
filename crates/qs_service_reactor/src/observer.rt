//! Who is told of dropped connections.

/// Learns of connections that were dropped since all places were taken.
pub trait Observer {
    /// So many connections were dropped at once, so that others could be accepted.
    fn table_full(&mut self, dropped: u64);
}

/// Tells the observer, where any were dropped.
pub fn tell_dropped<O: Observer>(observer: &mut O, dropped: u64) {
    if dropped > 0 {
        observer.table_full(dropped);
    }
}
