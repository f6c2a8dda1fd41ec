//! The classes of the table.

/// What the front of a text is.
#[derive(Clone, Copy, Debug, PartialEq, Eq)]
pub enum Class {
    /// `<..>`
    Iri,
    /// `".."`
    String,
    /// `@` and a language tag
    Tag,
    /// `_:` and a label of a blank node
    Label,
    /// `^^`
    Carets,
    /// `.`
    Dot,
    /// LF or CR
    LineEnd,
    /// an IRI or a string without its end
    Open,
    /// the same, up to a backslash at which no escape begins
    Broken,
}
