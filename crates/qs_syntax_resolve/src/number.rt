//! Decimal numbers.
//!
//! A LIMIT or OFFSET beyond 64 bits is the greatest number of 64 bits, as no answer has so many rows.

ghost use Rattle.std.specs.Prelude.{◌≡◌, ◌^◌, ◌-◌, min};
ghost use Rattle.qs_syntax_resolve.specs.inner.Names.{decimal};

/// The decimal number, or the greatest of 64 bits where it is greater.
#[tactic(auto, using(crate::proofs::Decimals::step, crate::proofs::Decimals::last))]
pub(crate) fn decimal(digits: &[u8]) -> u64
    ensures { result ≡ min (decimal 0 digits.now) (2 ^ 64 - 1) }
{
    let mut value = 0u64;
    for &byte in digits {
        let digit = u64::from(byte.saturating_sub(b'0'));
        value = value.saturating_mul(10).saturating_add(digit);
    }
    value
}
