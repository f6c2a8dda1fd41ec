//! What a request asks for.

use qs_terms::Text;

/// What a connection asks for (SPARQL 1.1 Protocol, 2). A contract sees a text as its bytes.
#[derive(Debug, PartialEq, Eq, Drop)]
pub enum Request {
    /// The answer to this query text.
    Query(Text),
    /// This update text, carried out.
    Update(Text),
    /// The whole dataset.
    Dump,
}
