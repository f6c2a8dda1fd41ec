//! The media types of replies.

/// What the body of a reply is.
#[derive(Clone, Copy, Debug, PartialEq, Eq)]
pub enum Media {
    /// `application/sparql-results+json`
    Results,
    /// `application/n-triples`
    NTriples,
    /// `application/n-quads`
    NQuads,
    /// `text/plain; charset=utf-8`
    Text,
}

impl Media {
    ghost use Rattle.std.specs.Prelude.{◌≡◌};
    ghost use Rattle.qs_http.specs.Reply.{media_text};

    /// The media type, as a Content-Type field writes it.
    pub fn text(self) -> &'static str
        ensures { result.now ≡ media_text self }
    {
        match self {
            Media::Results => "application/sparql-results+json",
            Media::NTriples => "application/n-triples",
            Media::NQuads => "application/n-quads",
            Media::Text => "text/plain; charset=utf-8",
        }
    }
}
