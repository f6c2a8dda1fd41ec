//! Laws of datasets and of sequences.

ghost use Rattle.std.specs.Prelude.{◌≡◌, ℕ, List, length};
ghost use Rattle.std.specs.Bool.{IsTrue};
ghost use Rattle.qs_terms.specs.Bag.{SameBag};
ghost use Rattle.qs_terms.specs.Dataset.{is_above_blanks, IsDataset};
ghost use Rattle.qs_terms.specs.Statement.{Statement};
ghost use Rattle.qs_algebra_solutions.specs.Solution.{Solution};
ghost use Rattle.qs_query_forms.specs.Sequence.{dataset_of, sliced, IsSequence, count};
ghost use Rattle.qs_query_forms.specs.declared.construction.Construction.{Construction};
ghost use Rattle.qs_query_forms.specs.declared.selection.Selection.{Selection};

/// Quads are a dataset with each number that is above those of their blank nodes.
pub fn quads_are_a_dataset()
    ensures { (quads : List Statement) (next : ℕ) → IsTrue (is_above_blanks next quads)
        → IsDataset (dataset_of quads next) }
{}

/// All sequences of the same solutions have one length, in whichever order the solutions are: so whether there are too many doesn't depend on
/// it.
pub fn sequences_have_one_length()
    ensures order { (asked : Selection) (a b : List Solution) → SameBag a b
        → count asked a ≡ count asked b }
    ensures part { (asked : Construction) (a b : List Solution) → SameBag a b
        → length (sliced asked.slice a) ≡ length (sliced asked.slice b) }
    ensures length { (asked : Selection) (solutions rows : List Solution)
        → IsSequence asked solutions rows → length rows ≡ count asked solutions }
{}
