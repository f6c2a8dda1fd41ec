//! Flags at the numbers of variables.

ghost use Rattle.std.specs.Prelude.{◌≡◌, ◌||◌, ◌&&◌, true, slice_set, IfOk};
ghost use Rattle.qs_algebra.specs.inner.Flags.{flags_from};
ghost use Rattle.qs_algebra.specs.inner.Flags.{flag_at};

use std::alloc::{AllocError, Global};

/// So many flags, all like this one.
#[tactic(auto, using(crate::proofs::FlagLaws::flags_more))]
pub(crate) fn alike(alloc: Global, width: usize, flag: bool) -> Result<Vec<bool>, AllocError>
    ensures { IfOk result (λ flags. flags.items ≡ flags_from (λ v. flag) 0 width) }
{
    let mut flags = Vec::new(alloc);
    for _ in 0..width {
        flags.push(flag)?;
    }
    Ok(flags)
}

/// Flags the variable, if it is one of them.
pub(crate) fn flag(flags: &mut Vec<bool>, variable: usize)
    ensures { flags.new.items ≡ slice_set flags.old.items variable true }
{
    if let Some(flag) = flags.get_mut(variable) {
        *flag = true;
    }
}

/// The flag of a variable; none stands past the last.
fn is_set(flags: &[bool], variable: usize) -> bool
    ensures { result ≡ flag_at flags.now variable }
{
    match flags.get(variable) {
        Some(flag) => *flag,
        None => false,
    }
}

/// The variables that one of both flags.
#[tactic(auto, using(crate::proofs::FlagLaws::flags_more))]
pub(crate) fn either(
    alloc: Global,
    width: usize,
    left: &[bool],
    right: &[bool],
) -> Result<Vec<bool>, AllocError>
    ensures { IfOk result
        (λ flags. flags.items ≡ flags_from (λ v. flag_at left.now v || flag_at right.now v) 0
        width) }
{
    let mut flags = Vec::new(alloc);
    for variable in 0..width {
        let one = is_set(left, variable);
        let other = is_set(right, variable);
        flags.push(one | other)?;
    }
    Ok(flags)
}

/// The variables that both flag.
#[tactic(auto, using(crate::proofs::FlagLaws::flags_more))]
pub(crate) fn both(
    alloc: Global,
    width: usize,
    left: &[bool],
    right: &[bool],
) -> Result<Vec<bool>, AllocError>
    ensures { IfOk result
        (λ flags. flags.items ≡ flags_from (λ v. flag_at left.now v && flag_at right.now v) 0
        width) }
{
    let mut flags = Vec::new(alloc);
    for variable in 0..width {
        let one = is_set(left, variable);
        let other = is_set(right, variable);
        flags.push(one & other)?;
    }
    Ok(flags)
}
