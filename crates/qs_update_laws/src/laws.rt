//! Where the blank nodes of solutions and of instances come from.
//!
//! That the blank nodes of solutions are the data's is a crate of laws. It is above the meaning of patterns, expressions and
//! paths, so that none of these is proved again for it.

ghost use Rattle.std.specs.Prelude.{◌≡◌, ◌↔◌, ◌≤◌, ℕ, List, Option, length, IsTrue, true, false, Ok};
ghost use Rattle.std.specs.List.{All, Contains};
ghost use Rattle.qs_terms.specs.Dataset.{is_statement_below, is_above_blanks, graph_of};
ghost use Rattle.qs_terms.specs.Statement.{Statement, is_iri};
ghost use Rattle.qs_terms.specs.declared.term.Term.{Term};
ghost use Rattle.qs_algebra_solutions.specs.Solution.{Solution};
ghost use Rattle.qs_syntax_ast.specs.declared.pattern.Group.{Group};
ghost use Rattle.qs_syntax_ast.specs.declared.term.Variable.{Variable};
ghost use Rattle.qs_syntax_ast.specs.declared.update.QuadBlock.{QuadBlock};
ghost use Rattle.qs_syntax_ast.specs.declared.update.Update.{Update};
ghost use Rattle.qs_syntax_scope.specs.Names.{Name};
ghost use Rattle.qs_algebra_patterns.specs.Basic.{Graph};
ghost use Rattle.qs_algebra_patterns.specs.Eval.{eval};
ghost use Rattle.qs_algebra_patterns.specs.declared.pattern.PatternNode.{PatternNode};
ghost use Rattle.qs_algebra.specs.Translation.{translated_where, translated_blocks};
ghost use Rattle.qs_query_template.specs.inner.Fresh.{names_blank};
ghost use Rattle.qs_query_template.specs.Instances.{instances, next_after};
ghost use Rattle.qs_query_template.specs.Template.{template_of_blocks, template_in};
ghost use Rattle.qs_query_template.specs.declared.template.Template.{Template};
ghost use Rattle.qs_syntax.specs.Outcome.{IsUpdateOutcome};
ghost use Rattle.qs_update_laws.specs.inner.Below.{is_solution_below, are_triples_below, have_iri_predicates};
ghost use Rattle.qs_update_laws.specs.inner.NoBlank.{has_no_blank};
ghost use Rattle.qs_update_laws.specs.inner.Written.{values_have_no_blank, update_values_have_no_blank};

use qs_query_template::laws::{blanks_are_fresh, templates_name_no_blanks};

/// The solutions of a pattern that names no blank node bind blank nodes of the data alone: where those of the quads and of the active
/// graph have numbers below one, so do those of the solutions. The predicates of quads are IRIs, so that a variable in their place is
/// bound to no blank node. Of the quads, each graph is such a graph.
pub fn solutions_bind_no_other_blanks()
    ensures any { (next width : ℕ) (quads : List Statement) (pattern : PatternNode) (graph : Graph)
        → IsTrue (has_no_blank pattern) → IsTrue (is_above_blanks next quads)
        → IsTrue (have_iri_predicates quads) → IsTrue (are_triples_below next graph)
        → All (λ (m : Solution). is_solution_below next m ≡ true) (eval width quads pattern graph) }
    ensures one { (next width : ℕ) (quads : List Statement) (pattern : PatternNode)
        (name : Option Term) → IsTrue (has_no_blank pattern) → IsTrue (is_above_blanks next quads)
        → IsTrue (have_iri_predicates quads)
        → All (λ (m : Solution). is_solution_below next m ≡ true)
        (eval width quads pattern (graph_of quads name)) }
{}

/// The pattern of a text's WHERE names no blank node, where no row of a VALUES in it has one.
pub fn texts_name_no_blanks()
    ensures { (variables : List Variable) (group : Group) → IsTrue (values_have_no_blank group)
        → IsTrue (has_no_blank (translated_where variables group).root) }
{}

/// The pattern of a text's DELETE WHERE names no blank node.
pub fn blocks_name_no_blanks()
    ensures { (variables : List Variable) (blocks : List QuadBlock)
        → IsTrue (has_no_blank (translated_blocks variables blocks).root) }
{}

/// No row of a VALUES in the update of a text has a blank node: none can be written there (SPARQL 1.1 Query, 19.8, DataBlockValue).
pub fn updates_write_no_blank_rows()
    ensures { (text : List ℕ) (update : Update) → IsUpdateOutcome text (Ok update)
        → IsTrue (update_values_have_no_blank update) }
{}

/// The quads that a template makes of solutions, where no term of the template itself is a blank node, as in templates of a text: if the
/// blank nodes of the solutions have numbers below the next one, those of the quads have numbers below the one after all fresh ones.
pub fn instances_are_below()
    ensures any { (template : Template) (next : ℕ) (rows : List Solution)
        → ((n : ℕ) → names_blank n template ≡ false)
        → All (λ (m : Solution). is_solution_below next m ≡ true) rows
        → IsTrue (is_above_blanks (next_after template next (length rows))
        (instances template next rows)) }
    ensures of_text { (names : List Name) (blocks : List QuadBlock) (next : ℕ)
        (rows : List Solution) → All (λ (m : Solution). is_solution_below next m ≡ true) rows
        → IsTrue (is_above_blanks (next_after (template_of_blocks names blocks) next (length rows))
        (instances (template_of_blocks names blocks) next rows)) }
    ensures of_text_with { (graph : Option (List ℕ)) (names : List Name) (blocks : List QuadBlock)
        (next : ℕ) (rows : List Solution) → let template =
        template_in graph (template_of_blocks names blocks)
        in All (λ (m : Solution). is_solution_below next m ≡ true) rows
        → IsTrue (is_above_blanks (next_after template next (length rows))
        (instances template next rows)) }
{
    blanks_are_fresh();
    templates_name_no_blanks();
}

/// The predicate of each quad that a template makes is an IRI.
pub fn instances_have_iri_predicates()
    ensures { (template : Template) (next : ℕ) (rows : List Solution)
        → IsTrue (have_iri_predicates (instances template next rows)) }
{}

/// Whether a number is above those of all blank nodes of quads, and whether all predicates are IRIs, is told by each quad alone: so both
/// hold of whichever quads stand among those of which they hold. A number above those of all blank nodes stays so as it grows.
pub fn quads_are_told_one_by_one()
    ensures above { (next : ℕ) (quads : List Statement) → IsTrue (is_above_blanks next quads)
        ↔ ((q : Statement) → Contains quads q → IsTrue (is_statement_below next q)) }
    ensures predicates { (quads : List Statement) → IsTrue (have_iri_predicates quads)
        ↔ ((q : Statement) → Contains quads q → IsTrue (is_iri q.predicate)) }
    ensures later { (quads : List Statement) (next later : ℕ) → next ≤ later
        → IsTrue (is_above_blanks next quads) → IsTrue (is_above_blanks later quads) }
{
    blanks_are_fresh();
}
