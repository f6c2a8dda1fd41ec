//! Integers and their forms.

ghost use Rattle.std.specs.Prelude.{◌≡◌, ◌+ℤ◌, ◌-ℤ◌, ◌*ℤ◌, neg_ℤ, pos, None, Some, IfSome};
ghost use Rattle.std.specs.Option.{is_some};
ghost use Rattle.std.specs.Str.{all_ascii_digits};
ghost use Rattle.qs_expr_values.specs.Number as spec;
ghost use Rattle.qs_expr_values.specs.Values.{is_not_zero};

// The value of digits alone, of which there are some, as far as 64 bits hold it for certain.
#[tactic(auto, using(crate::proofs::Reading::step, crate::proofs::Reading::digit, crate::proofs::Reading::last))]
fn of_digits(digits: &[u8]) -> Option<u64>
    ensures { IfSome result (λ n. spec.integer_of digits.now ≡ Some (pos n)) }
{
    if digits.is_empty() {
        return None;
    }
    let mut value = 0u64;
    for byte in digits {
        if !byte.is_ascii_digit() || value > 100_000_000_000_000_000 {
            return None;
        }
        value = value * 10 + u64::from(*byte - b'0');
    }
    Some(value)
}

fn parsed(form: &str) -> Option<i128>
    ensures { result ≡ spec.integer_of form.now }
{
    form.parse::<i128>().ok()
}

/// The value of the form, if it has one in the range. Few digits are read in 64 bits, which takes less time than in 128.
pub fn integer_of(form: &str) -> Option<i128>
    ensures { result ≡ spec.integer_of form.now }
{
    match of_digits(form.as_bytes()) {
        Some(number) => Some(i128::from(number)),
        None => parsed(form),
    }
}

fn are_digits(bytes: &[u8]) -> bool
    ensures { result ≡ all_ascii_digits bytes.now }
{
    for byte in bytes {
        if !byte.is_ascii_digit() {
            return false;
        }
    }
    true
}

#[tactic(auto, using(crate::proofs::Numbers::numeral_of))]
fn is_numeral(digits: &[u8]) -> bool
    ensures { result ≡ spec.is_numeral digits.now }
{
    !digits.is_empty() && are_digits(digits)
}

#[tactic(auto, using(crate::proofs::Numbers::some_number))]
fn is_whole_number(form: &[u8]) -> bool
    ensures { result ≡ is_some (spec.whole_number form.now) }
{
    let Some((first, rest)) = form.split_first() else {
        return false;
    };
    if *first == b'+' || *first == b'-' {
        is_numeral(rest)
    } else {
        is_numeral(form)
    }
}

#[tactic(auto, using(crate::proofs::Numbers::other_than_zero))]
pub(crate) fn is_other_than_zero(number: i128) -> bool
    ensures { result ≡ is_not_zero (Some number) }
{
    number != 0
}

/// Whether the form is that of a whole number other than 0, of any size.
#[tactic(auto, using(crate::proofs::Numbers::not_zero_in_range, crate::proofs::Numbers::not_zero_beyond))]
pub(crate) fn is_not_zero(form: &str) -> bool
    ensures { result ≡ is_not_zero (spec.whole_number form.now) }
{
    match integer_of(form) {
        Some(number) => is_other_than_zero(number),
        None => is_whole_number(form.as_bytes()),
    }
}

/// The sum, unless it is out of the range.
#[tactic(auto, using(crate::proofs::Numbers::checked))]
pub fn add(a: i128, b: i128) -> Option<i128>
    ensures { result ≡ spec.in_range (Some (a +ℤ b)) }
{
    a.checked_add(b)
}

/// The difference, unless it is out of the range.
#[tactic(auto, using(crate::proofs::Numbers::checked))]
pub fn subtract(a: i128, b: i128) -> Option<i128>
    ensures { result ≡ spec.in_range (Some (a -ℤ b)) }
{
    a.checked_sub(b)
}

/// The product, unless it is out of the range.
#[tactic(auto, using(crate::proofs::Numbers::checked))]
pub fn multiply(a: i128, b: i128) -> Option<i128>
    ensures { result ≡ spec.in_range (Some (a *ℤ b)) }
{
    a.checked_mul(b)
}

/// The number with the other sign, unless it is out of the range.
#[tactic(auto, using(crate::proofs::Numbers::checked))]
pub fn negate(a: i128) -> Option<i128>
    ensures { result ≡ spec.in_range (Some (neg_ℤ a)) }
{
    a.checked_neg()
}
