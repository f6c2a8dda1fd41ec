//! Pieces of a text, by their spans.

ghost use Rattle.std.specs.Prelude.{◌≡◌, ◌+◌, ◌-◌};
ghost use Rattle.qs_lex_escapes.specs.Piece.{piece};

use qs_lex_escapes::piece::piece;
use qs_syntax_tree::token::Span;

/// The piece of a span without so many bytes at each end.
#[tactic(auto, using(crate::proofs::Pieces::bounded))]
pub(crate) fn inside(text: &str, span: Span, ends: usize) -> &str
    ensures { result.now ≡ piece text.now (span.start + ends) (span.end - ends) }
{
    piece(
        text,
        span.start.saturating_add(ends),
        span.end.saturating_sub(ends),
    )
}

/// The piece of a span.
pub(crate) fn whole(text: &str, span: Span) -> &str
    ensures { result.now ≡ piece text.now span.start span.end }
{
    piece(text, span.start, span.end)
}

/// The piece of a span without so many bytes at its front.
#[tactic(auto, using(crate::proofs::Pieces::bounded))]
pub(crate) fn behind(text: &str, span: Span, front: usize) -> &str
    ensures { result.now ≡ piece text.now (span.start + front) span.end }
{
    piece(text, span.start.saturating_add(front), span.end)
}

/// The piece of a span without so many bytes at its end.
pub(crate) fn before_end(text: &str, span: Span, end: usize) -> &str
    ensures { result.now ≡ piece text.now span.start (span.end - end) }
{
    piece(text, span.start, span.end.saturating_sub(end))
}
