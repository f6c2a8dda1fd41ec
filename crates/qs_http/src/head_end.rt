//! Where the head of a request ends.
//!
//! A head is too large as soon as 16,384 bytes are there without its end within them. Line ends before the head count, and an end
//! that comes in the same piece doesn't help.

ghost use Rattle.std.specs.Prelude.{◌≡◌, IsNone};
ghost use Rattle.qs_http.specs.inner.HeadState.{place_after, ends_head, end_from, place_from};

/// What stands directly before the next byte of a request's head.
#[derive(Clone, Copy, Debug, PartialEq, Eq)]
pub enum HeadState {
    /// CR and LF bytes before the head, or nothing.
    Leading,
    /// A byte of a line.
    Line,
    /// An LF.
    Feed,
    /// An LF and a CR.
    FeedReturn,
}

impl HeadState {
    /// Whether the byte ends the head.
    fn ends_head(self, byte: u8) -> bool
        ensures { result ≡ ends_head self byte }
    {
        match self {
            HeadState::Leading | HeadState::Line => false,
            HeadState::Feed | HeadState::FeedReturn => byte == b'\n',
        }
    }

    /// The place after the byte.
    fn after(self, byte: u8) -> HeadState
        ensures { result ≡ place_after self byte }
    {
        match (self, byte) {
            (HeadState::Leading, b'\r' | b'\n') => HeadState::Leading,
            (_, b'\n') => HeadState::Feed,
            (HeadState::Feed, b'\r') => HeadState::FeedReturn,
            _ => HeadState::Line,
        }
    }
}

/// How many bytes of `piece` there are up to the head's end, and the place after the piece where it hasn't come.
pub fn find_end(piece: &[u8], place: &mut HeadState) -> Option<usize>
    ensures end { result ≡ end_from place.old piece.now }
    ensures place { IsNone result → place.new ≡ place_from place.old piece.now }
{
    for (i, byte) in piece.iter().enumerate() {
        if place.ends_head(*byte) {
            return Some(i + 1);
        }
        *place = place.after(*byte);
    }
    None
}
