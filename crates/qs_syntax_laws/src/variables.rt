//! Laws of the variables that queries and updates list.

ghost use Rattle.std.specs.Prelude.{◌≡◌, List, ℕ, Some, Ok};
ghost use Rattle.std.specs.List.{AllByRecursion};
ghost use Rattle.qs_syntax.specs.Outcome.{IsQueryOutcome, IsUpdateOutcome};
ghost use Rattle.qs_syntax_ast.specs.declared.query.Query.{Query};
ghost use Rattle.qs_syntax_ast.specs.declared.update.Update.{Update};
ghost use Rattle.qs_syntax_resolve.specs.Resolved.{resolved_query};
ghost use Rattle.qs_syntax_scope.specs.inner.Laws.{AreListed};
ghost use Rattle.qs_syntax_scope.specs.inner.VariablesIn.{in_query};
ghost use Rattle.qs_syntax_tree.specs.declared.query.Query.{Query as WrittenQuery};
ghost use Rattle.qs_syntax_laws.specs.inner.OperationIsListed.{OperationIsListed};

use qs_syntax_scope::laws::first_variables_are_all;

/// Each variable that stands anywhere in a query is among the variables that the query lists: in the query that its tree is resolved
/// to, and in the query that a text results in. Each variable that stands anywhere in an operation with a WHERE is among those that
/// the operation lists.
pub fn variables_are_listed()
    ensures of_tree { (text : List ℕ) (tree : WrittenQuery) (query : Query)
        → resolved_query text tree ≡ Ok (Some query)
        → AreListed query.variables (in_query query) }
    ensures of_query { (text : List ℕ) (query : Query) → IsQueryOutcome text (Ok query)
        → AreListed query.variables (in_query query) }
    ensures of_update { (text : List ℕ) (update : Update) → IsUpdateOutcome text (Ok update)
        → AllByRecursion OperationIsListed update.operations }
{
    first_variables_are_all();
}
