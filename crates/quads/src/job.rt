//! What the program is asked to do, and what it did.

use qs_store::DefaultGraph;

/// What a text is.
#[derive(Clone, Copy)]
pub enum TextKind {
    Query,
    Update,
}

/// A job, with the bytes of its files. The data are put into a store; its queries, and the WHERE of its updates, see this default graph.
#[derive(Drop)]
pub enum Job {
    /// The N-Quads of `data`, written again.
    Check {
        data: Vec<u8>,
    },
    /// The query of `text` over the N-Quads of `data`.
    Query {
        data: Vec<u8>,
        text: Vec<u8>,
        default_graph: DefaultGraph,
    },
    /// The update of `text` over the N-Quads of `data`.
    Update {
        data: Vec<u8>,
        text: Vec<u8>,
        default_graph: DefaultGraph,
    },
    /// The connection events of `script` over the N-Quads of `data`.
    Replay {
        data: Vec<u8>,
        script: Vec<u8>,
        default_graph: DefaultGraph,
    },
    /// The plans of the query or the update of `text` over the N-Quads of `data`. Nothing is carried out.
    Explain {
        data: Vec<u8>,
        text: Vec<u8>,
        kind: TextKind,
        default_graph: DefaultGraph,
    },
}

/// The exit status, and how many bytes the sink took.
#[derive(Clone, Copy)]
pub struct Ran {
    pub status: u8,
    pub written: u128,
}
