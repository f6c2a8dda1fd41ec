//! White space and comments.

ghost use Rattle.std.specs.Prelude.{◌≡◌, ◌≤◌, length, MatchOption, List, ℕ, ◌∷◌, false};
ghost use Rattle.std.specs.Str.{chars};
ghost use Rattle.qs_lex.specs.Lexes.{is_blank, is_line_end, skip};

#[tactic(auto, unfolding(crate::specs::Lexes::is_blank))]
fn is_blank(c: char) -> bool
    ensures { result ≡ is_blank c }
{
    c == ' ' || c == '\t' || c == '\n' || c == '\r'
}

#[tactic(auto, unfolding(crate::specs::Lexes::is_line_end))]
fn is_line_end(c: char) -> bool
    ensures { result ≡ is_line_end c }
{
    c == '\n' || c == '\r'
}

/// Whether a comment goes on after a character, or `None` where it is neither white space nor in a comment.
fn within_gap(in_comment: bool, c: char) -> Option<bool>
    ensures { MatchOption result ((cs : List ℕ) → skip in_comment (c ∷ cs) ≡ c ∷ cs)
        (λ next. (cs : List ℕ) → skip in_comment (c ∷ cs) ≡ skip next cs) }
{
    if in_comment {
        Some(!is_line_end(c))
    } else if is_blank(c) {
        Some(false)
    } else if c == '#' {
        Some(true)
    } else {
        None
    }
}

/// The text without the white space and the comments at its front.
pub fn after_gap(text: &str) -> &str
    ensures chars { chars result.now ≡ skip false (chars text.now) }
    ensures len { length result.now ≤ length text.now }
{
    let mut left = text;
    let mut in_comment = false;
    let mut rest = text.chars();
    'chars: while let Some(c) = rest.next() {
        let Some(next) = within_gap(in_comment, c) else {
            return left;
        };
        in_comment = next;
        left = rest.as_str();
    }
    left
}
