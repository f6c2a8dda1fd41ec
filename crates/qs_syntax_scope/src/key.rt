//! Names as they are looked up.

ghost use Rattle.std.specs.Prelude.{◌≡◌, refl, nat_eq, Some};
ghost use Rattle.std.specs.Ordering.{nat_cmp};
ghost use Rattle.std.specs.Cmp.{partial_equiv_from_equiv};
ghost use Rattle.std.specs.Cmp.Lexicographic.{pointwise, slice_cmp, nat_list_eq_equiv, nat_list_cmp_total, texts_ties, texts_po};

use qs_syntax_ast::shared::Shared;
use qs_terms::Text;
use std::cmp::Ordering;
use std::marker::Model;

/// The bytes of a name, which are compared without a way through the tree.
#[derive(Drop)]
pub struct Key<'a> {
    text: &'a str,
}

impl<'a> Model for Key<'a> {
    ghost use Rattle.std.specs.Prelude.{List, ℕ};

    ghost Value = { List ℕ };

    ghost view = { λ k. k.text.now };
}

impl<'a> Key<'a> {
    pub fn new(text: &'a str) -> Key<'a>
        ensures { result ≡ text.now }
    {
        Key { text }
    }
}

/// The key of a name that is shared.
pub fn key_of<'a>(name: &'a Shared<Text>) -> Key<'a>
    ensures { result ≡ name.now }
{
    Key::new(name.get().as_str())
}

impl PartialEq for Key<'_> {
    ghost eq = { pointwise nat_eq };

    ghost laws = { partial_equiv_from_equiv nat_list_eq_equiv };

    fn eq(&self, other: &Self) -> bool {
        let one = self.text;
        let two = other.text;
        one == two
    }
}

impl Eq for Key<'_> {
    ghost laws = { nat_list_eq_equiv };
}

impl PartialOrd for Key<'_> {
    ghost partial_cmp = { λ x y. Some (slice_cmp nat_cmp x y) };

    ghost laws = { texts_po };

    fn partial_cmp(&self, other: &Self) -> Option<Ordering> {
        Some(self.cmp(other))
    }
}

impl Ord for Key<'_> {
    ghost cmp = { slice_cmp nat_cmp };

    ghost total = { nat_list_cmp_total };

    ghost matches_partial_cmp = { λ x y. refl };

    ghost matches_eq = { texts_ties };

    fn cmp(&self, other: &Self) -> Ordering {
        let one = self.text;
        let two = other.text;
        one.cmp(two)
    }
}
