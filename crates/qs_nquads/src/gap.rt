//! Spaces, tabs and comments.

ghost use Rattle.std.specs.Prelude.{◌≡◌, ◌≤◌, length, MatchOption, List, ℕ, ◌∷◌, false};
ghost use Rattle.std.specs.Str.{chars};
ghost use Rattle.qs_nquads.specs.Gap.{is_blank, is_line_end, skip};
ghost use Rattle.qs_nquads.specs.inner.Gap.{behind_gap};

#[tactic(auto, unfolding(crate::specs::Gap::is_blank))]
fn is_blank(c: char) -> bool
    ensures { result ≡ is_blank c }
{
    c == ' ' || c == '\t'
}

#[tactic(auto, unfolding(crate::specs::Gap::is_line_end))]
fn is_line_end(c: char) -> bool
    ensures { result ≡ is_line_end c }
{
    c == '\n' || c == '\r'
}

// Whether a comment goes on after a character, or `None` where the gap ends before it.
fn within_gap(in_comment: bool, c: char) -> Option<bool>
    ensures { MatchOption result ((cs : List ℕ) → skip in_comment (c ∷ cs) ≡ c ∷ cs)
        (λ next. (cs : List ℕ) → skip in_comment (c ∷ cs) ≡ skip next cs) }
{
    if in_comment {
        if is_line_end(c) { None } else { Some(true) }
    } else if is_blank(c) {
        Some(false)
    } else if c == '#' {
        Some(true)
    } else {
        None
    }
}

fn after_gap(text: &str) -> &str
    ensures chars { chars result.now ≡ skip false (chars text.now) }
    ensures len { length result.now ≤ length text.now }
{
    let mut left = text;
    let mut in_comment = false;
    let mut rest = text.chars();
    'chars: while let Some(c) = rest.next() {
        let Some(next) = within_gap(in_comment, c) else {
            return left;
        };
        in_comment = next;
        left = rest.as_str();
    }
    left
}

/// The text without the spaces, the tabs and the comment at its front.
pub(crate) fn behind_gap(text: &str) -> &str
    ensures value { result.now ≡ behind_gap text.now }
    ensures len { length result.now ≤ length text.now }
{
    after_gap(text)
}
