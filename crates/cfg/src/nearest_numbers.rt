//! The numbers of least absolute value.
ghost use Rattle.std.specs.Prelude.{◌≡◌, ◌≤◌, ◌<◌, ◌+◌, ◌++◌, ◌∷◌, [], cond, IfOk, length, drop};
ghost use Rattle.cfg.specs.Nearest.{is_among, not_among, is_first_farther, without_farther, left_after, nearest_of};

use std::alloc::{AllocError, Global};

/// How many numbers are kept besides the limits of types.
const MOST_OTHERS: usize = 256;

fn push_other(out: &mut Vec<i128>, limits: &[i128], n: i128) -> Result<(), AllocError>
    ensures { IfOk result (λ _. out.new.items ≡ out.old.items ++ cond (is_among limits.now n) [] (n ∷ [])) }
{
    if limits.contains(&n) {
        return Ok(());
    }
    Ok(out.push(n)?)
}

/// The numbers of a list that are no limits.
pub(crate) fn without_limits(
    alloc: Global,
    limits: &[i128],
    numbers: &[i128],
) -> Result<Vec<i128>, AllocError>
    ensures { IfOk result (λ v. v.items ≡ not_among limits.now numbers.now) }
{
    let mut out = Vec::new(alloc);
    for at in 0..numbers.len() {
        push_other(&mut out, limits, numbers[at])?;
    }
    Ok(out)
}

/// Whether the first end of an ascending list has the greater absolute value.
fn first_is_farther(first: i128, last: i128) -> bool
    ensures { result ≡ is_first_farther first last }
{
    last < 0 || first < 0 - last
}

fn drop_farther(list: &[i128]) -> &[i128]
    requires { 0 < length list.now }
    ensures value { result.now ≡ without_farther list.now }
    ensures shorter { length result.now + 1 ≡ length list.now }
{
    let last = list.len() - 1;
    if first_is_farther(list[0], list[last]) {
        &list[1..]
    } else {
        &list[..last]
    }
}

/// The 256 numbers of least absolute value of an ascending list, the negative one first where two
/// tie.
pub(crate) fn nearest(list: &[i128]) -> &[i128]
    ensures value { result.now ≡ nearest_of list.now }
    ensures few { length result.now ≤ 256 }
{
    let extra = list.len().saturating_sub(MOST_OTHERS);
    let mut kept = list;
    for _at in 0..extra {
        kept = drop_farther(kept);
    }
    kept
}
