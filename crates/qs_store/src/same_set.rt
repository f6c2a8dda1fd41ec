//! Laws of lists of quads that are read as sets, and of their terms. `SameSet` is defined in this crate, as no crate below it speaks of sets.

ghost use Rattle.std.specs.Prelude.{List, Contains};
ghost use Rattle.qs_terms.specs.Bag.{SameBag};
ghost use Rattle.qs_terms.specs.Statement.{Statement};
ghost use Rattle.qs_terms.specs.declared.term.Term.{Term};
ghost use Rattle.qs_store.specs.Change.{IsChanged, KnowsTermsOf, with_terms_of};
ghost use Rattle.qs_store.specs.Same.{SameSet};

/// A law: being the same set is an equivalence, and carries what is in one set to the other. Lists that are the same bag are the same set.
pub fn same_set_is_an_equivalence()
    ensures reflexive { (a : List Statement) → SameSet a a }
    ensures symmetric { (a b : List Statement) → SameSet a b → SameSet b a }
    ensures transitive { (a b c : List Statement) → SameSet a b → SameSet b c → SameSet a c }
    ensures carries { (a b : List Statement) (q : Statement) → SameSet a b → Contains a q
        → Contains b q }
    ensures of_bags { (a b : List Statement) → SameBag a b → SameSet a b }
{}

/// A law: equal changes of lists that are the same set make lists that are the same set.
pub fn same_sets_change_alike()
    ensures { (old removed added new old2 removed2 added2 new2 : List Statement) → SameSet old old2
        → SameSet removed removed2 → SameSet added added2 → IsChanged old removed added new
        → IsChanged old2 removed2 added2 new2 → SameSet new new2 }
{}

/// A law: the known terms with those of quads after them are what a change that adds the quads makes known.
pub fn quads_make_their_terms_known()
    ensures { (known : List Term) (quads : List Statement)
        → KnowsTermsOf known quads (with_terms_of known quads) }
{}
