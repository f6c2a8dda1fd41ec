//! What a reactor serves.

ghost use Rattle.std.specs.Prelude.{◌≡◌, ◌<◌, ◌+◌, ◌^◌, ℕ, Bool, List, Option, IfSome, length, drop};
ghost use Rattle.std.specs.Option.{option_copied, option_map};
ghost use Rattle.qs_service_reactor.specs.Run.{Event, Join, Piece, End};
ghost use Rattle.qs_service_reactor.specs.inner.Keeps.{KeepsReplies, KeepsOthers};

/// Takes the events of connections, and has a reply for a connection once its request is whole. A reply that stands doesn't change until its
/// connection ends.
pub trait Endpoint {
    // One step: the state, the event, whether it was taken up, and the state then.
    ghost steps: { Self → Event → Bool → Self → Type 0 };

    // The reply that is due to the connection of that id.
    ghost reply_of: { Self → ℕ → Option (List ℕ) };

    /// A connection joins.
    fn join(&mut self, id: u64) -> bool
        ensures step { steps self.old (Join id) result self.new }
        ensures keeps { KeepsReplies (reply_of self.old) (reply_of self.new) };

    /// A piece of bytes arrives on a connection.
    fn piece(&mut self, id: u64, bytes: &[u8]) -> bool
        ensures step { steps self.old (Piece id bytes.now) result self.new }
        ensures keeps { KeepsReplies (reply_of self.old) (reply_of self.new) };

    /// A connection ends.
    fn end(&mut self, id: u64) -> bool
        ensures step { steps self.old (End id) result self.new }
        ensures keeps { KeepsOthers id (reply_of self.old) (reply_of self.new) };

    /// The bytes of the connection's reply from that place on, where a reply stands.
    fn unsent(&self, id: u64, sent: usize) -> Option<&[u8]>
        ensures bytes { option_copied result ≡ option_map (drop sent) (reply_of self.now id) }
        ensures room { IfSome (option_copied result) (λ bytes. sent + length bytes < 2 ^ 64) };
}
