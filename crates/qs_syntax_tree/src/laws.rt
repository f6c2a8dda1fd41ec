//! What holds of the grammar.

ghost use Rattle.qs_syntax_tree.specs.Rules.{query, update};
ghost use Rattle.qs_syntax_tree.specs.inner.Table.{IsUnambiguous};

/// No tokens spell two queries, nor two updates.
pub fn one_tree()
    ensures of_query { IsUnambiguous query }
    ensures of_update { IsUnambiguous update }
{}
