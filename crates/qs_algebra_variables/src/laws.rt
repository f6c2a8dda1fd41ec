//! What holds of all patterns, and of all groups.

ghost use Rattle.std.specs.Prelude.{◌≡◌, ℕ, List, None, length, IsSome, IsTrue, false};
ghost use Rattle.std.specs.List.{All};
ghost use Rattle.qs_terms.specs.Statement.{Statement};
ghost use Rattle.qs_syntax_ast.specs.declared.pattern.Group.{Group};
ghost use Rattle.qs_syntax_ast.specs.declared.term.Variable.{Variable};
ghost use Rattle.qs_syntax_scope.specs.Firsts.{names_of};
ghost use Rattle.qs_syntax_scope.specs.Names.{Name, contains};
ghost use Rattle.qs_syntax_scope.specs.Places.{place_of};
ghost use Rattle.qs_syntax_scope.specs.Scope.{in_scope};
ghost use Rattle.qs_algebra_solutions.specs.Solution.{Solution, term_at};
ghost use Rattle.qs_algebra_patterns.specs.Basic.{Graph};
ghost use Rattle.qs_algebra_patterns.specs.Eval.{eval};
ghost use Rattle.qs_algebra_patterns.specs.declared.pattern.PatternNode.{PatternNode};
ghost use Rattle.qs_algebra.specs.inner.Certain.{is_certain, certain_in};
ghost use Rattle.qs_algebra.specs.inner.Possible.{is_possible, possible_in};
ghost use Rattle.qs_algebra.specs.Translation.{group_pattern, translated_where};
ghost use Rattle.qs_algebra_patterns.specs.declared.named_pattern.Pattern.{Pattern};

use qs_syntax_scope::laws::names_stand_at_their_places;

/// Each solution of a pattern, over whichever quads and in whichever graph, binds the variables that are certain.
pub fn certain_variables_are_bound()
    ensures node { (width : ℕ) (quads : List Statement) (pattern : PatternNode) (graph : Graph)
        (v : ℕ) → IsTrue (is_certain width pattern v) → All (λ (m : Solution). IsSome (term_at m v))
        (eval width quads pattern graph) }
    ensures pattern { (pattern : Pattern) (quads : List Statement) (graph : Graph) (v : ℕ)
        → IsTrue (certain_in pattern v) → All (λ (m : Solution). IsSome (term_at m v))
        (eval (length pattern.names) quads pattern.root graph) }
{}

/// No solution of a pattern, over whichever quads and in whichever graph, binds a variable that isn't possible.
pub fn other_variables_are_unbound()
    ensures node { (width : ℕ) (quads : List Statement) (pattern : PatternNode) (graph : Graph)
        (v : ℕ) → is_possible width pattern v ≡ false → All (λ (m : Solution). term_at m v ≡ None)
        (eval width quads pattern graph) }
    ensures pattern { (pattern : Pattern) (quads : List Statement) (graph : Graph) (v : ℕ)
        → possible_in pattern v ≡ false → All (λ (m : Solution). term_at m v ≡ None)
        (eval (length pattern.names) quads pattern.root graph) }
{}

/// A variable of a text is possible in the pattern of a group exactly where it is in scope of the group (SPARQL 1.1 Query, 18.2.1): so that
/// `SELECT *` lists, of a WHERE, what can be bound.
pub fn possible_variables_are_in_scope()
    ensures node { (names : List Name) (group : Group) (name : Name) → IsTrue (contains names name)
        → is_possible (length names) (group_pattern names group) (place_of names name) ≡ contains
        (in_scope group) name }
    ensures pattern { (variables : List Variable) (group : Group) (name : Name)
        → IsTrue (contains (names_of variables) name)
        → possible_in (translated_where variables group) (place_of (names_of variables) name)
        ≡ contains (in_scope group) name }
{
    names_stand_at_their_places();
}
