//! Tokens, and the pieces of the text that they are.

use crate::kind::Kind;

/// A piece of the text, from one byte up to another.
#[derive(Clone, Copy, PartialEq, Eq)]
pub struct Span {
    pub start: usize,
    pub end: usize,
}

/// A token: its kind, and where it stands.
#[derive(Clone, Copy)]
pub struct Token {
    pub kind: Kind,
    pub span: Span,
}
