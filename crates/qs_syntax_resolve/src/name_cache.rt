//! Names that were read not long ago.
//!
//! The last name and the last IRI of each of 64 slots are hints. An IRI is looked for by what its prefix denotes and by its local
//! name as it is written. An IRI that isn't there is looked through after its prefix's IRI alone.

ghost use Rattle.std.specs.Prelude.{◌≡◌, ◌<◌, IfOk, IfSome};

use qs_syntax_ast::shared::Shared;
use qs_terms::Text;
use std::alloc::{AllocError, Global};

const SLOTS: usize = 64;

/// For each of some slots the name that was read there last: a text names few variables again and again, and the text of such a name
/// isn't copied again.
#[derive(Drop)]
pub struct NameCache {
    names: Vec<Option<Shared<Text>>>,
}

// A slot by the end of the name and its length.
fn slot_of(name: &str) -> usize
    ensures { result < 64 }
{
    let bytes = name.as_bytes();
    let Some((last, before)) = bytes.split_last() else {
        return 0;
    };
    let before = before.last().copied().unwrap_or(0);
    let end = usize::from(*last) + 7 * usize::from(before);
    (end + bytes.len() % SLOTS) % SLOTS
}

impl NameCache {
    /// None was read. Takes no memory.
    pub fn new(alloc: Global) -> NameCache {
        NameCache {
            names: Vec::new(alloc),
        }
    }

    fn at(&self, name: &str) -> Option<&Shared<Text>>
        ensures { IfSome result (λ known. known.now ≡ name.now) }
    {
        let known = self.names.get(slot_of(name))?.as_ref()?;
        if known.get().as_str() == name {
            Some(known)
        } else {
            None
        }
    }

    // Has a place for each slot.
    fn open(&mut self) -> Result<(), AllocError> {
        for _ in self.names.len()..SLOTS {
            self.names.push(None)?;
        }
        Ok(())
    }

    fn note(&mut self, name: &str, text: &Shared<Text>) -> Result<(), AllocError> {
        self.open()?;
        if let Some(slot) = self.names.get_mut(slot_of(name)) {
            *slot = Some(text.share()?);
        }
        Ok(())
    }

    fn put(&mut self, alloc: Global, name: &str) -> Result<Shared<Text>, AllocError>
        ensures { IfOk result (λ text. text ≡ name.now) }
    {
        let text = Shared::new(alloc, Text::new(alloc, name)?)?;
        self.note(name, &text)?;
        Ok(text)
    }

    /// The text of the name, in common with what was read not long ago.
    pub fn text(&mut self, alloc: Global, name: &str) -> Result<Shared<Text>, AllocError>
        ensures { IfOk result (λ text. text ≡ name.now) }
    {
        match self.at(name) {
            Some(known) => known.share(),
            None => self.put(alloc, name),
        }
    }
}
