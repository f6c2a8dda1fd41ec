//! What happens to connections.

/// What happens to the connection of an id.
#[derive(Drop)]
pub enum ScriptEvent {
    /// It joins.
    Join(u64),
    /// A piece of bytes comes on it.
    Piece(u64, Vec<u8>),
    /// It ends.
    End(u64),
}
