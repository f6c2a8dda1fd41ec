//! Why an expression gives no value.

ghost use Rattle.std.specs.Prelude.{◌≡◌};
ghost use Rattle.qs_expr_meaning.specs.declared.fault.ExprFault.TheVariants as fault;

use std::alloc::AllocError;
use thiserror::Error;

/// Why an expression gives no value.
#[derive(Clone, Copy, Debug, PartialEq, Eq, Error)]
pub enum ExprFault {
    /// The expression errs (SPARQL 1.1 Query, 17.2 and 17.3).
    #[error("the expression has a type error")]
    TypeError,
    /// Running out of memory.
    #[error("out of memory")]
    Memory,
}

impl From<AllocError> for ExprFault {
    ghost from_gives = { λ _ f. f ≡ fault.Memory };

    fn from(_error: AllocError) -> ExprFault {
        ExprFault::Memory
    }
}
