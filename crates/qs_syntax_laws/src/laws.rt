//! What holds of all texts.

ghost use Rattle.std.specs.Prelude.{◌≡◌, List, ℕ, Some, Ok};
ghost use Rattle.qs_syntax_grammar.specs.Grammar.{Spells};
ghost use Rattle.qs_syntax_limits.specs.Large as large;
ghost use Rattle.qs_syntax_ast.specs.declared.query.Query.{Query};
ghost use Rattle.qs_syntax_resolve.specs.Resolved.{resolved_query};
ghost use Rattle.qs_syntax_scope.specs.Firsts.{firsts};
ghost use Rattle.qs_syntax.specs.Outcome.{IsQueryOutcome, query_outcome, update_outcome};
ghost use Rattle.qs_syntax.specs.Text.{AreTokensOf};
ghost use Rattle.qs_syntax_tree.specs.Rules as rules;
ghost use Rattle.qs_syntax_tree.specs.Table.{grammar};
ghost use Rattle.qs_syntax_tree.specs.declared.query.Query.{Query as WrittenQuery};
ghost use Rattle.qs_syntax_tree.specs.declared.token.Token.{Token};
ghost use Rattle.qs_syntax_tree.specs.declared.update.Update.{Update as WrittenUpdate};
ghost use Rattle.qs_syntax_laws.specs.inner.NameFaults.{name_faults};
ghost use Rattle.qs_syntax_laws.specs.inner.TellsFirst.{TellsFirst};
ghost use Rattle.qs_syntax_laws.specs.inner.TextVariables.{variables_of};

/// Of all names of a text that can't be resolved, and of the first place at which a limit of trees is passed, the one with the least
/// place is told, and at one place the name's. Where there is neither, neither is told:
/// the text has a meaning, or the fault of scope.
pub fn first_fault_is_told()
    ensures of_query { (text : List ℕ) (tokens : List Token) (tree : WrittenQuery)
        → AreTokensOf text tokens → Spells grammar rules.query tokens tree
        → TellsFirst (name_faults text tokens) (large.query tree) (query_outcome text tree) }
    ensures of_update { (text : List ℕ) (tokens : List Token) (tree : WrittenUpdate)
        → AreTokensOf text tokens → Spells grammar rules.update tokens tree
        → TellsFirst (name_faults text tokens) (large.update tree) (update_outcome text tree) }
{}

/// The variables of a text's query are those of its tokens, in their order. The resolved query has each as often as it stands in the
/// text. The query that the text results in has each once, at its first place: `SELECT *` lists those of them that are in scope, in this
/// order (SPARQL 1.1 Query, 16.1).
pub fn variables_are_those_of_the_text()
    ensures as_often { (text : List ℕ) (tokens : List Token) (tree : WrittenQuery)
        → Spells grammar rules.query tokens tree
        → (q : Query) → resolved_query text tree ≡ Ok (Some q)
        → q.variables ≡ variables_of text tokens }
    ensures each_once { (text : List ℕ) (tokens : List Token) (tree : WrittenQuery)
        → Spells grammar rules.query tokens tree
        → (q : Query) → query_outcome text tree ≡ Ok q
        → q.variables ≡ firsts (variables_of text tokens) }
    ensures of_text { (text : List ℕ) (q : Query) → IsQueryOutcome text (Ok q)
        → (tokens : List Token) × AreTokensOf text tokens
        × (q.variables ≡ firsts (variables_of text tokens)) }
{}
