//! What is said of connections that were dropped because all places were taken.

use qs_service_reactor::Observer;

/// Counts the dropped connections, and tells of them on standard error.
#[derive(Drop)]
pub struct Dropped<'a> {
    rt: &'a HostRuntime,
    at_once: usize,
    sum: u64,
}

impl<'a> Dropped<'a> {
    /// None yet, of so many places.
    pub fn new(rt: &'a HostRuntime, at_once: usize) -> Dropped<'a> {
        Dropped {
            rt,
            at_once,
            sum: 0,
        }
    }

    /// Tells how many were dropped, if any were.
    pub fn tell_sum(&self) {
        let sum = self.sum;
        if sum > 0 {
            let line = format!(in self.rt.alloc(); "dropped because all places were taken: {sum}");
            if let Ok(line) = line {
                drop(self.rt.eprintln(&line));
            }
        }
    }
}

impl Observer for Dropped<'_> {
    fn table_full(&mut self, dropped: u64) {
        if self.sum == 0 {
            let at_once = self.at_once;
            let line = format!(in self.rt.alloc();
                "all {at_once} places are taken: connections that send nothing are dropped"
            );
            if let Ok(line) = line {
                drop(self.rt.eprintln(&line));
            }
        }
        self.sum = self.sum.saturating_add(dropped);
    }
}
