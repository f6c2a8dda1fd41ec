//! Why no tree was read.

use std::alloc::AllocError;

/// Why no tree was read.
#[derive(Clone, Copy, Debug, PartialEq, Eq)]
pub enum Fault {
    Memory,
    /// Rules hold themselves too deep.
    Deep,
    /// No lawful list of tokens begins with those up to the one from which so many are left, and with it.
    Syntax(usize),
}

impl From<AllocError> for Fault {
    ghost use Rattle.std.specs.Prelude.{◌≡◌};
    ghost use Rattle.qs_syntax_grammar.specs.declared.fault.Fault.TheVariants.{Memory};

    ghost from_gives = { λ _ e. e ≡ Memory };

    fn from(_: AllocError) -> Fault {
        Fault::Memory
    }
}

/// Why a text has no tree.
#[derive(Clone, Copy, Debug, PartialEq, Eq)]
pub enum ParseFault {
    Memory,
    /// The number of the first token that can't stand there, or the number of tokens.
    Syntax(usize),
}
