//! Names of variables and labels of blank nodes, borrowed from a tree.

ghost use Rattle.std.specs.Prelude.{◌≡◌, IfOk};
ghost use Rattle.qs_syntax_scope.specs.inner.Firsts.{with_name};

use qs_syntax_ast::shared::Shared;
use qs_syntax_ast::term::Variable;
use qs_terms::Text;
use std::alloc::AllocError;
use std::marker::Model;

/// The name of a variable, or the label of a blank node.
#[derive(Drop)]
pub struct Name<'a> {
    text: &'a Shared<Text>,
}

impl<'a> Model for Name<'a> {
    ghost use Rattle.std.specs.Prelude.{List, ℕ};

    ghost Value = { List ℕ };

    ghost view = { λ n. n.text.now };
}

impl<'a> Name<'a> {
    pub fn new(text: &'a Shared<Text>) -> Name<'a>
        ensures { result ≡ text.now }
    {
        Name { text }
    }

    pub fn text(&self) -> &'a str
        ensures { result.now ≡ self.now }
    {
        let text = self.text;
        text.get().as_str()
    }

    /// The variable of this name, which has its text in common with the tree.
    pub fn variable(&self) -> Result<Variable, AllocError>
        ensures { IfOk result (λ v. v ≡ with_name self.now) }
    {
        let name = self.text.share()?;
        Ok(Variable { name })
    }
}
