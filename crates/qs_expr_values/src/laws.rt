//! What holds of the order of keys, and of texts.

ghost use Rattle.std.specs.Prelude.{◌≡◌, ℕ, List, nat_eq, IsUtf8};
ghost use Rattle.std.specs.Cmp.{IsTotalOrder};
ghost use Rattle.std.specs.Cmp.Lexicographic.{slice_cmp};
ghost use Rattle.std.specs.List.{starts_with, ends_with};
ghost use Rattle.std.specs.Ordering.{nat_cmp};
ghost use Rattle.std.specs.Str.{chars};
ghost use Rattle.qs_expr_values.specs.Sorting.{compare_keys};
ghost use Rattle.qs_expr_values.specs.Text.{stands_in};

/// ORDER BY sorts by a total order (SPARQL 1.1 Query, 15.1).
#[tactic(auto, using(crate::proofs::KeyOrder::ordered))]
pub fn keys_are_ordered()
    ensures { IsTotalOrder compare_keys }
{}

/// Texts in UTF-8 match byte for byte where they match character for character: a match begins and ends where characters do
/// (SPARQL 1.1 Query, 17.4.3.6 to 17.4.3.8).
#[tactic(auto, using(crate::proofs::Characters::contains, crate::proofs::Characters::starts, crate::proofs::Characters::ends))]
pub fn bytes_match_as_characters()
    ensures contains { (text needle : List ℕ) → IsUtf8 text → IsUtf8 needle → stands_in needle text
        ≡ stands_in (chars needle) (chars text) }
    ensures starts { (text front : List ℕ) → IsUtf8 text → IsUtf8 front
        → starts_with nat_eq text front ≡ starts_with nat_eq (chars text) (chars front) }
    ensures ends { (text end : List ℕ) → IsUtf8 text → IsUtf8 end → ends_with nat_eq text end
        ≡ ends_with nat_eq (chars text) (chars end) }
{}

/// Texts in UTF-8 stand in the order of their bytes as in that of their code points (SPARQL 1.1 Query, 15.1 and 17.3).
#[tactic(auto, using(crate::proofs::CodePoints::ordered))]
pub fn bytes_are_ordered_as_code_points()
    ensures { (a b : List ℕ) → IsUtf8 a → IsUtf8 b → slice_cmp nat_cmp a b ≡ slice_cmp nat_cmp
        (chars a) (chars b) }
{}
