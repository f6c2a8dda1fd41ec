//! One connection, and its turn.
//!
//! After a reply nothing more is sent, and what the peer still sends is read and dropped (RFC 9112, 9.6). Bytes that nobody reads
//! would reset the connection, and the peer could lose the reply. At most 4,210,688 bytes are dropped, as many as the longest
//! request has.

ghost use Rattle.std.specs.Prelude.{◌≡◌, [], Some};
ghost use Rattle.qs_service_reactor.specs.inner.Turn.{AgreesAt, Turns, is_free};

use crate::endpoint::Endpoint;
use crate::limits::Limits;
use crate::network::Network;
use std::io::ErrorKind;
use std::time::Duration;

/// How far a connection has come.
#[derive(Clone, Copy, Debug, PartialEq, Eq)]
pub enum Stage {
    /// There is none at this place.
    Free,
    /// Its request arrives.
    Reading,
    /// Its reply goes out, of which so many bytes did.
    Writing(usize),
    /// The whole reply went out.
    Lingering,
}

/// What a turn of a connection results in.
#[derive(Clone, Copy, Debug, PartialEq, Eq)]
pub enum Turn {
    /// The connection can go on at once.
    Again,
    /// It waits for its peer.
    Waits,
    /// It has ended.
    Done,
}

/// Why a connection may be dropped.
#[derive(Clone, Copy, Debug, PartialEq, Eq)]
pub enum Cause {
    /// A limit is over.
    Late,
    /// All places are taken, and it has sent nothing since it was accepted, or lingers.
    Silent,
    /// All places are taken, and it pauses in the middle of its request.
    Stalled,
}

/// How many reads and writes a turn has at most.
const STEPS: u32 = 4;

/// How many bytes are dropped after a reply at most: as many as the longest request has.
const MOST_DROPPED: usize = 4_210_688;

/// For how many milliseconds a connection may be silent where its place is wanted.
const SILENT: u64 = 50;

/// For how many milliseconds a connection may pause in its request where its place is wanted.
const STALLED: u64 = 2_000;

/// A place, and how far its connection has come.
#[derive(Clone, Copy, Debug)]
pub struct Connection {
    pub stage: Stage,
    /// When it was accepted.
    accepted: Duration,
    /// When its stage began.
    began: Duration,
    /// When a byte came or went last.
    moved: Duration,
    /// Whether no byte has come yet.
    silent: bool,
    /// How many bytes came after the reply.
    dropped: usize,
}

/// What a failed call of the network results in.
fn turn_after(kind: ErrorKind) -> Turn {
    match kind {
        ErrorKind::WouldBlock => Turn::Waits,
        ErrorKind::Interrupted => Turn::Again,
        _ => Turn::Done,
    }
}

/// What a read or a write of so many bytes results in: none are the peer's end.
fn turn_of(n: usize) -> Turn {
    if n == 0 { Turn::Done } else { Turn::Again }
}

/// How far a connection has come after a piece: it writes once its reply stands.
fn stage_after<E: Endpoint>(place: usize, endpoint: &E) -> Stage
    ensures { AgreesAt (E.reply_of endpoint.now place) (Some []) result }
{
    match endpoint.unsent(place as u64, 0) {
        Some(_) => Stage::Writing(0),
        None => Stage::Reading,
    }
}

impl Connection {
    /// No connection.
    pub fn free() -> Connection
        ensures { result.stage ≡ Stage.Free }
    {
        Connection {
            stage: Stage::Free,
            accepted: Duration::ZERO,
            began: Duration::ZERO,
            moved: Duration::ZERO,
            silent: true,
            dropped: 0,
        }
    }

    /// A connection that was accepted now.
    pub fn new(now: Duration) -> Connection
        ensures { result.stage ≡ Stage.Reading }
    {
        Connection {
            stage: Stage::Reading,
            accepted: now,
            began: now,
            moved: now,
            silent: true,
            dropped: 0,
        }
    }

    /// Whether there is no connection at this place.
    pub fn is_free(&self) -> bool
        ensures { result ≡ is_free self.now }
    {
        match self.stage {
            Stage::Free => true,
            Stage::Reading | Stage::Writing(_) | Stage::Lingering => false,
        }
    }

    /// Whether the connection may be dropped for that cause.
    pub fn is_due(&self, cause: Cause, limits: &Limits, now: Duration) -> bool {
        match cause {
            Cause::Late => self.is_late(limits, now),
            Cause::Silent => self.is_silent(now),
            Cause::Stalled => {
                let pause = now.saturating_sub(self.moved);
                self.stage == Stage::Reading && pause >= Duration::from_millis(STALLED)
            }
        }
    }

    /// Whether a limit is over.
    fn is_late(&self, limits: &Limits, now: Duration) -> bool {
        let pause = now.saturating_sub(self.moved);
        match self.stage {
            Stage::Free => false,
            Stage::Reading => {
                pause >= limits.idle || now.saturating_sub(self.accepted) >= limits.request
            }
            Stage::Writing(_) => pause >= limits.idle,
            Stage::Lingering => {
                pause >= limits.linger || now.saturating_sub(self.began) >= limits.idle
            }
        }
    }

    /// Whether it has sent nothing for a while since it was accepted, or lingers that long.
    fn is_silent(&self, now: Duration) -> bool {
        let is_over = now.saturating_sub(self.moved) >= Duration::from_millis(SILENT);
        match self.stage {
            Stage::Free | Stage::Writing(_) => false,
            Stage::Reading => self.silent && is_over,
            Stage::Lingering => is_over,
        }
    }

    /// A byte came or went, and a stage begins or goes on.
    fn enter(&mut self, stage: Stage, now: Duration)
        ensures { self.new.stage ≡ stage }
    {
        if self.stage != stage {
            self.began = now;
        }
        self.moved = now;
        self.stage = stage;
    }

    /// A turn of the connection at that place: whether it can go on at once. The place is free once the connection has ended.
    pub fn take_turn<N: Network, E: Endpoint>(
        &mut self,
        place: usize,
        net: &mut N,
        endpoint: &mut E,
        buf: &mut [u8],
        now: Duration,
    ) -> bool
        ensures turns { Turns E.steps E.reply_of place self.old.stage self.new.stage
            endpoint.old endpoint.new (N.log net.old) (N.log net.new) }
    {
        let turn = self.take_steps(place, net, endpoint, buf, now);
        if turn == Turn::Done {
            self.leave(place, net, endpoint);
            return false;
        }
        turn == Turn::Again
    }

    /// The steps of a turn.
    fn take_steps<N: Network, E: Endpoint>(
        &mut self,
        place: usize,
        net: &mut N,
        endpoint: &mut E,
        buf: &mut [u8],
        now: Duration,
    ) -> Turn
        ensures turns { Turns E.steps E.reply_of place self.old.stage self.new.stage
            endpoint.old endpoint.new (N.log net.old) (N.log net.new) }
    {
        for _ in 0..STEPS {
            let turn = self.take_step(place, net, endpoint, buf, now);
            if turn != Turn::Again {
                return turn;
            }
        }
        Turn::Again
    }

    /// The endpoint forgets the connection, and its place is free.
    pub fn leave<N: Network, E: Endpoint>(&mut self, place: usize, net: &mut N, endpoint: &mut E)
        ensures turns { Turns E.steps E.reply_of place self.old.stage self.new.stage
            endpoint.old endpoint.new (N.log net.old) (N.log net.new) }
    {
        endpoint.end(place as u64);
        net.close(place);
        self.stage = Stage::Free;
    }

    /// One read or one write, and what follows from it.
    fn take_step<N: Network, E: Endpoint>(
        &mut self,
        place: usize,
        net: &mut N,
        endpoint: &mut E,
        buf: &mut [u8],
        now: Duration,
    ) -> Turn
        ensures turns { Turns E.steps E.reply_of place self.old.stage self.new.stage
            endpoint.old endpoint.new (N.log net.old) (N.log net.new) }
    {
        match self.stage {
            Stage::Free => Turn::Waits,
            Stage::Reading => self.receive(place, net, endpoint, buf, now),
            Stage::Writing(sent) => self.send(place, sent, net, endpoint, now),
            Stage::Lingering => self.drain(place, net, endpoint, buf, now),
        }
    }

    /// Reads a piece, and hands it to the endpoint.
    fn receive<N: Network, E: Endpoint>(
        &mut self,
        place: usize,
        net: &mut N,
        endpoint: &mut E,
        buf: &mut [u8],
        now: Duration,
    ) -> Turn
        requires { self.old.stage ≡ Stage.Reading }
        ensures turns { Turns E.steps E.reply_of place self.old.stage self.new.stage
            endpoint.old endpoint.new (N.log net.old) (N.log net.new) }
    {
        match net.get(place, buf) {
            Ok(n) => {
                endpoint.piece(place as u64, &buf[..n]);
                let stage = stage_after(place, endpoint);
                self.enter(stage, now);
                self.silent = false;
                turn_of(n)
            }
            Err(error) => turn_after(error.kind()),
        }
    }

    /// Writes more of the reply. Once all went out, the peer is told so.
    fn send<N: Network, E: Endpoint>(
        &mut self,
        place: usize,
        sent: usize,
        net: &mut N,
        endpoint: &E,
        now: Duration,
    ) -> Turn
        requires { self.old.stage ≡ Stage.Writing sent }
        ensures turns { Turns E.steps E.reply_of place self.old.stage self.new.stage
            endpoint.now endpoint.now (N.log net.old) (N.log net.new) }
    {
        let Some(bytes) = endpoint.unsent(place as u64, sent) else {
            return Turn::Done;
        };
        if bytes.is_empty() {
            return match net.finish(place) {
                Ok(()) => {
                    self.enter(Stage::Lingering, now);
                    Turn::Again
                }
                Err(_) => Turn::Done,
            };
        }
        match net.put(place, bytes) {
            Ok(n) => {
                self.enter(Stage::Writing(sent + n), now);
                turn_of(n)
            }
            Err(error) => turn_after(error.kind()),
        }
    }

    /// So many bytes came after the reply: whether it goes on.
    fn count_dropped(&mut self, n: usize) -> Turn
        ensures { self.new.stage ≡ self.old.stage }
    {
        self.dropped = self.dropped.saturating_add(n);
        if self.dropped > MOST_DROPPED {
            Turn::Done
        } else {
            turn_of(n)
        }
    }

    /// Reads what the peer still sends, and drops it, up to a bound.
    fn drain<N: Network, E: Endpoint>(
        &mut self,
        place: usize,
        net: &mut N,
        endpoint: &E,
        buf: &mut [u8],
        now: Duration,
    ) -> Turn
        requires { self.old.stage ≡ Stage.Lingering }
        ensures turns { Turns E.steps E.reply_of place self.old.stage self.new.stage
            endpoint.now endpoint.now (N.log net.old) (N.log net.new) }
    {
        match net.get(place, buf) {
            Ok(n) => {
                self.enter(Stage::Lingering, now);
                self.count_dropped(n)
            }
            Err(error) => turn_after(error.kind()),
        }
    }
}
