//! The laws of N-Quads: bytes result in one thing, but where memory runs out, and the next blank node's number is fresh; tokens are what
//! statements take for granted; quads that are written are read back, each once.

ghost use Rattle.std.specs.Prelude.{◌≡◌, ◌≢◌, ◌≤◌, ◌↔◌, ◌⊎◌, ◌++◌, ℕ, List, [], ◌∷◌, IsTrue, map, take};
ghost use Rattle.std.specs.Cmp.Lexicographic.{slice_cmp};
ghost use Rattle.std.specs.List.{All, Contains, flat_map};
ghost use Rattle.std.specs.List.Sorted.{IsStrictlySortedBy};
ghost use Rattle.std.specs.Ordering.{nat_cmp};
ghost use Rattle.std.specs.Str.{IsUtf8, chars};
ghost use Rattle.qs_lex_regular.specs.Longest.{LongestFront};
ghost use Rattle.qs_terms.specs.Dataset.{is_above_blanks};
ghost use Rattle.qs_terms.specs.Statement.{Statement};
ghost use Rattle.qs_terms.specs.Tag.{is_tag};
ghost use Rattle.qs_lex_escapes.specs.Escape.{uchar, string_escape};
ghost use Rattle.qs_lex_escapes.specs.inner.Backslashes.{escapes_begin};
ghost use Rattle.qs_nquads.specs.Nquads.{IsNquads, IsFault};
ghost use Rattle.qs_nquads.specs.Part.{inside};
ghost use Rattle.qs_nquads.specs.inner.Part.{behind};
ghost use Rattle.qs_nquads.specs.inner.Renumbered.{blanks_of, IsQuad, AreQuads, ReadsBack};
ghost use Rattle.qs_nquads.specs.Table.{table};
ghost use Rattle.qs_nquads.specs.Written.{line, ordered};
ghost use Rattle.qs_nquads.specs.declared.class.Class.TheVariants as class;
ghost use Rattle.qs_nquads.specs.declared.fault.NqFaultKind.{NqFaultKind};
ghost use Rattle.qs_nquads.specs.declared.fault.NqFaultKind.TheVariants.{Memory};

/// Bytes are N-Quads of one list of statements at most, with one next number; then no fault is due but running out of memory; and one
/// other fault at most is due, at one line.
pub fn one_outcome()
    ensures quads { (bytes : List ℕ) (first : ℕ) (q r : List Statement) (m n : ℕ)
        → IsNquads bytes first q m → IsNquads bytes first r n → (q ≡ r) × (m ≡ n) }
    ensures never_both { (bytes : List ℕ) (first : ℕ) (q : List Statement) (m : ℕ)
        (kind : NqFaultKind) (line : ℕ) → kind ≢ Memory → IsNquads bytes first q m
        → IsFault bytes first kind line → ⊥ }
    ensures fault { (bytes : List ℕ) (first : ℕ) (kind other : NqFaultKind) (line place : ℕ)
        → kind ≢ Memory → other ≢ Memory → IsFault bytes first kind line
        → IsFault bytes first other place → (kind ≡ other) × (line ≡ place) }
{}

/// Bytes are N-Quads of some list of statements, or a fault other than running out of memory is due.
pub fn some_outcome()
    ensures { (bytes : List ℕ) (first : ℕ)
        → ((quads : List Statement) × (next : ℕ) × IsNquads bytes first quads next)
        ⊎ ((kind : NqFaultKind) × (line : ℕ) × (kind ≢ Memory) × IsFault bytes first kind line) }
{}

/// The next number of what is read as N-Quads is above the numbers of all blank nodes of its statements; it and they are at least the
/// number that the first new label would get.
pub fn next_number_is_fresh()
    ensures above { (bytes : List ℕ) (first : ℕ) (quads : List Statement) (next : ℕ)
        → IsNquads bytes first quads next → IsTrue (is_above_blanks next quads) }
    ensures at_least { (bytes : List ℕ) (first : ℕ) (quads : List Statement) (next : ℕ)
        → IsNquads bytes first quads next → first ≤ next }
    ensures from_first { (bytes : List ℕ) (first : ℕ) (quads : List Statement) (next : ℕ)
        → IsNquads bytes first quads next → All (λ b. first ≤ b) (flat_map blanks_of quads) }
{}

/// A token of an IRI, a string, a tag or a label is what a statement reads of it, and its marks: so what a piece is in the place of one
/// that is none of the text never applies.
pub fn tokens_stand_with_their_marks()
    ensures iri { (text : List ℕ) (n : ℕ) → IsUtf8 text → LongestFront table (chars text) class.Iri
        n → take n text ≡ 60 ∷ (inside (take n text) ++ 62 ∷ []) }
    ensures string { (text : List ℕ) (n : ℕ) → IsUtf8 text
        → LongestFront table (chars text) class.String n
        → take n text ≡ 34 ∷ (inside (take n text) ++ 34 ∷ []) }
    ensures tag { (text : List ℕ) (n : ℕ) → IsUtf8 text → LongestFront table (chars text) class.Tag
        n → take n text ≡ 64 ∷ behind (take n text) 1 }
    ensures label { (text : List ℕ) (n : ℕ) → IsUtf8 text
        → LongestFront table (chars text) class.Label n → take n text ≡ 95 ∷ 58
        ∷ behind (take n text) 2 }
{}

/// The tag in a token of its class is a language tag in the eyes of the terms too.
pub fn tags_are_lawful()
    ensures { (text : List ℕ) (n : ℕ) → IsUtf8 text → LongestFront table (chars text) class.Tag n
        → IsTrue (is_tag (behind (take n text) 1)) }
{}

/// In the token of an IRI or a string an escape begins at each backslash, but for those that an escape before them took. So what the
/// decoded text has in the place of a backslash at which none begins never applies.
pub fn escapes_begin_at_backslashes()
    ensures iri { (text : List ℕ) (n : ℕ) → IsUtf8 text → LongestFront table (chars text) class.Iri
        n → IsTrue (escapes_begin uchar (inside (take n text))) }
    ensures string { (text : List ℕ) (n : ℕ) → IsUtf8 text
        → LongestFront table (chars text) class.String n
        → IsTrue (escapes_begin string_escape (inside (take n text))) }
{}

/// What is written is N-Quads. Read from a number from which the numbers suffice it gives the quads in the order of their lines, with
/// each blank node replaced by that number and the place of its first appearance.
pub fn read_back()
    ensures { (quads : List Statement) (first : ℕ) → AreQuads quads → ReadsBack quads first }
{}

/// In the order of their lines stand the quads that were given, each once; quads with the same line are the same.
pub fn each_once()
    ensures order { (quads : List Statement) → IsStrictlySortedBy (slice_cmp nat_cmp)
        (map line (ordered quads)) }
    ensures quads { (quads : List Statement) (q : Statement) → AreQuads quads
        → Contains (ordered quads) q ↔ Contains quads q }
    ensures lines { (q r : Statement) → IsQuad q → IsQuad r → line q ≡ line r → q ≡ r }
{}
