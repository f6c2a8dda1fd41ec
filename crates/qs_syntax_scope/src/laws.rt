//! What the rules and the lists of variables say, in words that ask for no order.

ghost use Rattle.std.specs.Prelude.{◌↔◌, ◌≡◌, ◌<◌, List, [], ◌∷◌, ◌++◌, length, map, slice_get, Some, IsTrue, false};
ghost use Rattle.std.specs.List.{flat_map};
ghost use Rattle.qs_syntax_scope.specs.Names.{Name, contains, are_distinct, are_apart};
ghost use Rattle.qs_syntax_scope.specs.Firsts.{names_of, firsts};
ghost use Rattle.qs_syntax_scope.specs.Places.{place_of};
ghost use Rattle.qs_syntax_scope.specs.Scope.{in_scope, group_keeps, all_keep};
ghost use Rattle.qs_syntax_scope.specs.inner.Scope.{scope_of_pattern};
ghost use Rattle.qs_syntax_scope.specs.Variables.{triple_variables, graph_variables, column_names};
ghost use Rattle.qs_syntax_scope.specs.inner.Laws.{EachStandsOnce, EachStandsInOne, EachFits};
ghost use Rattle.qs_syntax_ast.specs.declared.pattern.Group.{Group, out-Group};
ghost use Rattle.qs_syntax_ast.specs.declared.pattern.GraphPattern.{GraphPattern};
ghost use Rattle.qs_syntax_ast.specs.declared.pattern.GraphPattern.TheVariants.{Triples, Union, Optional, Minus, Graph, Bind, Values};
ghost use Rattle.qs_syntax_ast.specs.declared.pattern.Triple.{Triple};
ghost use Rattle.qs_syntax_ast.specs.declared.pattern.InlineData.{InlineData};
ghost use Rattle.qs_syntax_ast.specs.declared.term.VarOrIri.{VarOrIri};
ghost use Rattle.qs_syntax_ast.specs.declared.expression.Expression.{Expression};
ghost use Rattle.qs_syntax_ast.specs.declared.term.Variable.{Variable};

/// Names are distinct exactly where each stands once.
pub fn distinct_names_stand_once()
    ensures { (names : List Name) → IsTrue (are_distinct names) ↔ EachStandsOnce names }
{}

/// A name is among the first variables exactly where it is among all, and stands there once.
pub fn first_variables_are_all()
    ensures names { (variables : List Variable) (name : Name)
        → contains (names_of (firsts variables)) name ≡ contains (names_of variables) name }
    ensures once { (variables : List Variable) → EachStandsOnce (names_of (firsts variables)) }
{}

/// A name that is among others has a place below their count, and stands there.
pub fn names_stand_at_their_places()
    ensures within { (names : List Name) (name : Name) → IsTrue (contains names name)
        → place_of names name < length names }
    ensures at { (names : List Name) (name : Name) → IsTrue (contains names name)
        → slice_get names (place_of names name) ≡ Some name }
{}

/// Runs are apart exactly where each label stands in one.
pub fn labels_of_runs_apart_stand_in_one()
    ensures { (runs : List (List Name)) → IsTrue (are_apart runs) ↔ EachStandsInOne runs }
{}

/// The patterns of a group keep the rules of BIND and VALUES exactly where each does after those before it, and a BIND does exactly where
/// its variable is not in their scope.
pub fn patterns_fit_one_by_one()
    ensures group { (group : Group) → group_keeps group ≡ all_keep []
        (map scope_of_pattern (out-Group group).patterns) }
    ensures patterns { (patterns : List GraphPattern) → IsTrue
        (all_keep [] (map scope_of_pattern patterns))
        ↔ EachFits patterns }
    ensures bind { (before : List Name) (value : Expression) (variable : Variable)
        → IsTrue ((scope_of_pattern (Bind value variable)).keeps before)
        ↔ (contains before variable.name ≡ false) }
{}

/// The variables that each kind of pattern brings into scope (SPARQL 1.1 Query, 18.2.1).
pub fn patterns_bring_into_scope()
    ensures triples { (all : List Triple) → (scope_of_pattern (Triples all)).names ≡ flat_map
        triple_variables all }
    ensures union { (groups : List Group) → (scope_of_pattern (Union groups)).names ≡ flat_map
        in_scope groups }
    ensures optional { (group : Group) → (scope_of_pattern (Optional group)).names
        ≡ in_scope group }
    ensures minus { (group : Group) → (scope_of_pattern (Minus group)).names ≡ [] }
    ensures graph { (name : VarOrIri) (group : Group) → (scope_of_pattern (Graph name group)).names
        ≡ graph_variables name ++ in_scope group }
    ensures bind { (value : Expression) (variable : Variable)
        → (scope_of_pattern (Bind value variable)).names ≡ variable.name ∷ [] }
    ensures values { (table : InlineData) → (scope_of_pattern (Values table)).names
        ≡ column_names table }
{}
