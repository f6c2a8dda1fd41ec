//! What a token is.

ghost use Rattle.std.specs.Prelude.{◌≡◌};

/// The classes of tokens, in the order of the table (SPARQL 1.1 Query, 19.8).
#[derive(Clone, Copy, PartialEq, Eq, Debug)]
pub enum Class {
    /// `<http://example.org/a>`
    IriRef,
    /// `a:`
    PnameNs,
    /// `a:b`
    PnameLn,
    /// `_:a`
    BlankLabel,
    /// `?a` or `$a`
    Var,
    /// `1`
    Integer,
    /// `+1` or `-1`
    Signed,
    /// `1.0`
    Decimal,
    /// `1e0`
    Double,
    /// `"a"`, and the other three forms of strings
    String,
    /// `@en`
    LangTag,
    /// `SELECT`, `a`
    Word,
    /// `{`, `&&`
    Mark,
}

/// A token of a text.
#[derive(Clone, Copy, Debug)]
pub struct Token<'a> {
    pub class: Class,
    /// The place of the token's first byte in the text.
    pub place: usize,
    /// The token as it is written: the slice of the text at its place.
    pub text: &'a str,
}

impl<'a> Token<'a> {
    /// The token's class.
    pub fn class(&self) -> Class
        ensures { result ≡ self.now.class }
    {
        self.class
    }

    /// The place of the token's first byte in the text.
    pub fn place(&self) -> usize
        ensures { result ≡ self.now.place }
    {
        self.place
    }

    /// The token as it is written: the slice of the text at its place.
    pub fn text(&self) -> &'a str
        ensures { result.now ≡ self.now.text.now }
    {
        self.text
    }
}
