//! The laws of forms and of tables of classes.

ghost use Rattle.std.specs.Prelude.{◌≡◌, ℕ, List, [], ◌∷◌, Some, None, true};
ghost use Rattle.qs_lex_regular.specs.inner.Derivative.{derive, nullable};
ghost use Rattle.qs_lex_regular.specs.Form.{Form, Spells};
ghost use Rattle.qs_lex_regular.specs.Longest.{HasNoFront, IsFirst, LongestFront, Table};
ghost use Rattle.qs_lex_regular.specs.inner.Best.{best};

/// The derivative of a form by a character is spelled by what may stand after that character.
pub fn derivative_is_what_is_left()
    ensures sound { (r : Form) (c : ℕ) (cs : List ℕ) → Spells (derive r c) cs → Spells r (c ∷ cs) }
    ensures complete { (r : Form) (c : ℕ) (cs : List ℕ) → Spells r (c ∷ cs)
        → Spells (derive r c) cs }
{}

/// A form is nullable where the empty text spells it.
pub fn nullable_is_spelled_by_nothing()
    ensures sound { (r : Form) → nullable r ≡ true → Spells r [] }
    ensures complete { (r : Form) → Spells r [] → nullable r ≡ true }
{}

/// What the derivatives find is the longest front of a class of the table, or there is none. A front has one class.
pub fn best_is_longest<K>()
    ensures some { (fs : Table K) (cs : List ℕ) (k : K) (n : ℕ) → best fs cs ≡ Some (k, n)
        → LongestFront fs cs k n }
    ensures none { (fs : Table K) (cs : List ℕ) → best fs cs ≡ None → HasNoFront fs cs }
    ensures one_class { (fs : Table K) (j k : K) (x : List ℕ) → IsFirst fs j x → IsFirst fs k x
        → j ≡ k }
{}
