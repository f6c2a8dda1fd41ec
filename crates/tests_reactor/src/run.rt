//! Runs of the loop over a script.

use crate::echo::Echo;
use crate::peers::Peers;
use crate::script::{Fault, Script};
use qs_service_reactor::{Limits, Observer, serve_events};
use std::alloc::{AllocError, Global};
use std::io;
use std::io::ErrorKind;
use std::time::Duration;

/// The connections that were dropped since all places were taken, one number for each time.
#[derive(Drop)]
pub struct Drops {
    pub rounds: u64,
    pub dropped: u64,
}

impl Observer for Drops {
    fn table_full(&mut self, dropped: u64) {
        self.rounds = self.rounds.saturating_add(1);
        self.dropped = self.dropped.saturating_add(dropped);
    }
}

/// What a run results in.
#[derive(Drop)]
pub struct Outcome {
    pub result: io::Result<()>,
    pub script: Script,
    pub echo: Echo,
    pub drops: Drops,
}

/// Serves so many of these clients, with that many places.
pub fn run(
    alloc: Global,
    peers: Peers,
    at_once: usize,
    connections: u32,
) -> Result<Outcome, AllocError> {
    let none = Fault {
        call: 0,
        kind: ErrorKind::Other,
    };
    run_with(alloc, peers, none, at_once, connections)
}

/// Runs the loop with that fault: a pause of 30 s, a request of 60 s, and a second for the end.
pub fn run_with(
    alloc: Global,
    peers: Peers,
    fault: Fault,
    at_once: usize,
    connections: u32,
) -> Result<Outcome, AllocError> {
    let mut script = Script::new(alloc, peers, fault);
    let mut echo = Echo::new(alloc)?;
    let mut drops = Drops {
        rounds: 0,
        dropped: 0,
    };
    let limits = Limits {
        at_once: at_once.clamp(1, 64),
        idle: Duration::from_secs(30),
        request: Duration::from_secs(60),
        linger: Duration::from_secs(1),
    };
    let result = serve_events(
        alloc,
        &mut script,
        &limits,
        Some(connections),
        &mut echo,
        &mut drops,
    );
    Ok(Outcome {
        result,
        script,
        echo,
        drops,
    })
}
