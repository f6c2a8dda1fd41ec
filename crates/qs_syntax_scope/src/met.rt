//! Names that come one after another, of which some must be new.

ghost use Rattle.std.specs.Prelude.{◌≡◌, ◌∷◌, [], ◌++◌, OnOk};
ghost use Rattle.qs_syntax_scope.specs.inner.Met as spec;

use crate::name_list::NameList;
use qs_syntax_ast::shared::Shared;
use qs_terms::Text;
use std::alloc::{AllocError, Global};

/// The names that were met so far, and whether each that had to be new was.
#[derive(Drop)]
pub struct Met<'a> {
    pub names: NameList<'a>,
    pub keeps: bool,
}

impl<'a> Met<'a> {
    pub fn new(alloc: Global) -> Met<'a>
        ensures { result ≡ spec.after [] }
    {
        Met {
            names: NameList::new(alloc),
            keeps: true,
        }
    }

    /// One more name, which need not be new.
    pub fn push(&mut self, name: &'a Shared<Text>) -> Result<(), AllocError>
        ensures { OnOk result
            (self.new ≡ record {
              names = self.old.names ++ name.now ∷ [];
              keeps = self.old.keeps;
            }) }
    {
        self.names.push(name)
    }

    /// One more name, which has to be new.
    pub fn add_new(&mut self, name: &'a Shared<Text>) -> Result<(), AllocError>
        ensures { OnOk result (self.new ≡ spec.add_new self.old name.now) }
    {
        let place = self.names.len();
        self.add_label(place, name)
    }

    /// One more label of the run that began at the place.
    pub fn add_label(&mut self, start: usize, label: &'a Shared<Text>) -> Result<(), AllocError>
        ensures { OnOk result (self.new ≡ spec.add_label start self.old label.now) }
    {
        if self.names.is_before(start, label.get().as_str()) {
            self.keeps = false;
        }
        self.names.push(label)
    }
}
