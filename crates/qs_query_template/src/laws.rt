//! Which blank nodes stand in the instances of a template.

ghost use Rattle.std.specs.Prelude.{◌≡◌, ℕ, ◌+◌, ◌<◌, ◌≤◌, ◌⊎◌, List, ◌∷◌, ◌++◌, length, true, false};
ghost use Rattle.std.specs.List.{list_any};
ghost use Rattle.qs_terms.specs.Dataset.{is_above_blanks};
ghost use Rattle.qs_terms.specs.Statement.{Statement};
ghost use Rattle.qs_algebra_solutions.specs.Solution.{Solution};
ghost use Rattle.qs_syntax_ast.specs.declared.pattern.Triple.{Triple};
ghost use Rattle.qs_syntax_ast.specs.declared.update.QuadBlock.{QuadBlock};
ghost use Rattle.qs_syntax_scope.specs.Names.{Name};
ghost use Rattle.qs_query_template.specs.inner.Fresh.{quad_has_blank, binds_blank, names_blank, is_numbered, IsOfBlock};
ghost use Rattle.qs_query_template.specs.Instances.{instances, next_after};
ghost use Rattle.qs_query_template.specs.inner.Instances.{instances_under};
ghost use Rattle.qs_query_template.specs.Template as made;
ghost use Rattle.qs_query_template.specs.declared.template.Template.{Template as TemplateValue};

/// Each solution has the instances under it with a block of numbers of its own, which begins after those of the solutions before it,
/// as many as the template has blank nodes for each.
pub fn each_solution_has_its_block()
    ensures { (t : TemplateValue) (next : ℕ) (before after : List Solution) (m : Solution)
        → instances t next (before ++ m ∷ after)
        ≡ (instances t next before ++ instances_under t (next_after t next (length before)) m)
        ++ instances t (next_after t next (length before + 1)) after }
{}

/// A blank node of an instance is one that the solution binds, or a term of the template itself, or a fresh one: its number is of the
/// solution's block. No number is of two solutions' blocks. So over all solutions a fresh one is at least the next number, and below the
/// number after them; and it stands in no quad of a dataset that has this next number.
pub fn blanks_are_fresh()
    ensures block { (t : TemplateValue) (first : ℕ) (m : Solution) (n : ℕ)
        → list_any (quad_has_blank n) (instances_under t first m) ≡ true → (binds_blank n m ≡ true)
        ⊎ ((names_blank n t ≡ true) ⊎ IsOfBlock t first n) }
    ensures apart { (t : TemplateValue) (next j k n : ℕ) → j < k
        → IsOfBlock t (next_after t next j) n → IsOfBlock t (next_after t next k) n → ⊥ }
    ensures all { (t : TemplateValue) (next : ℕ) (rows : List Solution) (n : ℕ)
        → list_any (quad_has_blank n) (instances t next rows) ≡ true
        → (list_any (binds_blank n) rows ≡ true)
        ⊎ ((names_blank n t ≡ true) ⊎ ((next ≤ n) × (n < next_after t next (length rows)))) }
    ensures unused { (quads : List Statement) (next n : ℕ) → is_above_blanks next quads ≡ true
        → next ≤ n → list_any (quad_has_blank n) quads ≡ false }
{}

/// No term of a template that was made of a text is a blank node.
pub fn templates_name_no_blanks()
    ensures triples { (names : List Name) (triples : List Triple) (n : ℕ)
        → names_blank n (made.template_of names triples) ≡ false }
    ensures blocks { (names : List Name) (blocks : List QuadBlock) (n : ℕ)
        → names_blank n (made.template_of_blocks names blocks) ≡ false }
{}

/// Each blank node of a template that was made of a text has its number among those that a solution takes, so that it always has a term.
pub fn blanks_are_numbered()
    ensures triples { (names : List Name) (triples : List Triple)
        → is_numbered (made.template_of names triples) ≡ true }
    ensures blocks { (names : List Name) (blocks : List QuadBlock)
        → is_numbered (made.template_of_blocks names blocks) ≡ true }
{}
