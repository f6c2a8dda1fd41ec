//! Numbers of blank nodes after operations.

ghost use Rattle.std.specs.Prelude.{ℕ, List, IsTrue, IfOk};
ghost use Rattle.qs_terms.specs.Dataset.{is_above_blanks};
ghost use Rattle.qs_terms.specs.Outcome.{Outcome};
ghost use Rattle.qs_terms.specs.Statement.{Statement};
ghost use Rattle.qs_syntax_ast.specs.declared.update.Operation.{Operation};
ghost use Rattle.qs_syntax_ast.specs.declared.update.QuadBlock.{QuadBlock};
ghost use Rattle.qs_update_laws.specs.inner.Below.{have_iri_predicates};
ghost use Rattle.qs_update_laws.specs.inner.Written.{operation_values_have_no_blank};
ghost use Rattle.qs_store.specs.declared.default_graph.DefaultGraph.{DefaultGraph};
ghost use Rattle.qs_update.specs.Effect.{IsEffect, of_data};
ghost use Rattle.qs_update.specs.inner.Lawful.{IsLawful};
ghost use Rattle.qs_update.specs.declared.effect.Effect.{Effect as EffectValue};

use qs_update_laws::laws::{
    blocks_name_no_blanks, instances_are_below, solutions_bind_no_other_blanks,
    texts_name_no_blanks,
};

/// The number after an operation is no less than the one before it, and above those of all blank nodes of what is added: where the
/// number before is above those of the quads, the predicates of the quads are IRIs, and no row of a VALUES in the operation has a blank
/// node. INSERT DATA and DELETE DATA read no quads.
pub fn effects_are_lawful()
    ensures of_operation { (max_rows : ℕ) (default : DefaultGraph) (operation : Operation)
        (quads : List Statement) (next : ℕ) (outcome : Outcome EffectValue)
        → IsTrue (is_above_blanks next quads) → IsTrue (have_iri_predicates quads)
        → IsTrue (operation_values_have_no_blank operation)
        → IsEffect max_rows default operation quads next outcome → IfOk outcome (IsLawful next) }
    ensures of_data { (delete insert : List QuadBlock) (next : ℕ)
        → IfOk (of_data delete insert next) (IsLawful next) }
{
    solutions_bind_no_other_blanks();
    texts_name_no_blanks();
    blocks_name_no_blanks();
    instances_are_below();
}
