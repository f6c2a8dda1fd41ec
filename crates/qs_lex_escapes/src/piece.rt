//! Pieces of a text.

ghost use Rattle.std.specs.Prelude.{◌≡◌};
ghost use Rattle.qs_lex_escapes.specs.Piece.{piece};

/// The bytes from `start` to `end`, or none where these are no piece of the text.
#[tactic(auto, using(crate::proofs::Pieces::some, crate::proofs::Pieces::none))]
pub fn piece(text: &str, start: usize, end: usize) -> &str
    ensures { result.now ≡ piece text.now start end }
{
    match text.get(start..end) {
        Some(found) => found,
        None => "",
    }
}
