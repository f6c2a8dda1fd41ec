//! The one request of a connection, read piece by piece.

ghost use Rattle.std.specs.Prelude.{◌≡◌, []};
ghost use Rattle.std.specs.Option.{option_copied};
ghost use Rattle.qs_http.specs.inner.Feeding.{Reading, Feeds};

use crate::advance::advance;
use crate::fixed_reply::Fixed;
use crate::head_end::HeadState;
use crate::request::Request;
use crate::stage::Stage;
use std::alloc::Global;
use std::marker::Model;
use std::mem;

/// How far a request has come.
#[derive(Clone, Copy, Debug, PartialEq, Eq)]
pub enum Progress {
    /// More bytes are wanted.
    More,
    /// The request stands.
    Ready,
    /// The bytes ask nothing lawful, or no memory was found; this reply is due.
    Refused(Fixed),
}

/// The one request of a connection, read piece by piece.
///
/// A contract sees the joined bytes while they result in nothing yet, and then what they resulted in.
/// No byte after the request's last is kept, and a request takes at most 16,384 bytes of head and
/// 4,194,304 of body.
#[derive(Drop)]
pub struct Session {
    alloc: Global,
    stage: Stage,
}

impl Model for Session {
    ghost use Rattle.qs_http.specs.inner.Feeding.{Seen};

    ghost Value = { Seen };

    ghost use Rattle.qs_http.specs.inner.Stage.{seen_of, IsStage};

    ghost view = { λ s. seen_of s.stage };

    ghost invariant = { λ s. IsStage s.stage };
}

impl Session {
    ghost use Rattle.qs_http.specs.inner.Stage.{progress_of, request_in};

    /// A session that has read nothing. It takes no memory.
    pub fn new(alloc: Global) -> Self
        ensures { result ≡ Reading [] }
    {
        Session {
            alloc,
            stage: Stage::Head {
                bytes: Vec::new(alloc),
                place: HeadState::Leading,
            },
        }
    }

    /// Reads one piece more, and tells how far the request has come.
    ///
    /// The answer is that of all pieces joined, however they were cut. After `Ready` or `Refused`
    /// a piece is ignored, takes no memory, and gets the same answer. A growth that is refused
    /// gives `Refused(Memory)`, for good.
    pub fn feed(&mut self, piece: &[u8]) -> Progress
        ensures step { Feeds self.old piece.now self.new }
        ensures progress { result ≡ progress_of self.new }
    {
        let stage = mem::replace(&mut self.stage, Stage::Refused(Fixed::Memory));
        self.stage = advance(self.alloc, stage, piece);
        self.progress()
    }

    fn progress(&self) -> Progress
        ensures { result ≡ progress_of self.now }
    {
        match &self.stage {
            Stage::Head { .. } | Stage::Body { .. } => Progress::More,
            Stage::Ready(_) => Progress::Ready,
            Stage::Refused(fixed) => Progress::Refused(*fixed),
        }
    }

    /// The request, once it is ready.
    pub fn request(&self) -> Option<&Request>
        ensures { option_copied result ≡ request_in self.now }
    {
        match &self.stage {
            Stage::Ready(request) => Some(request),
            _ => None,
        }
    }
}
