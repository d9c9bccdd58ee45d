//! The number of a list that is nearest to a number from one side.
ghost use Rattle.std.specs.Prelude.{◌≡◌, Option, int_le};
ghost use Rattle.interval_domain.specs.Numbers.Nearest.{nearest, nearer, or_own, int_ge};

/// The greater of `best` and `n` where `n` is at most `x`, else `best`.
fn nearer_below(x: i128, best: Option<i128>, n: i128) -> Option<i128>
    ensures { result ≡ nearer int_le x best n }
{
    if n > x {
        return best;
    }
    match best {
        None => Some(n),
        Some(m) => Some(if m <= n { n } else { m }),
    }
}

/// The lesser of `best` and `n` where `n` is at least `x`, else `best`.
fn nearer_above(x: i128, best: Option<i128>, n: i128) -> Option<i128>
    ensures { result ≡ nearer int_ge x best n }
{
    if n < x {
        return best;
    }
    match best {
        None => Some(n),
        Some(m) => Some(if n <= m { n } else { m }),
    }
}

/// The greatest number of the list that is at most `x`.
#[tactic(auto, unfolding(crate::specs::Numbers::Nearest::nearest))]
pub fn last_below(list: &[i128], x: i128) -> Option<i128>
    ensures { result ≡ nearest int_le list.now x }
{
    let mut best = None;
    for n in list {
        best = nearer_below(x, best, *n);
    }
    best
}

/// The least number of the list that is at least `x`.
#[tactic(auto, unfolding(crate::specs::Numbers::Nearest::nearest))]
pub fn first_above(list: &[i128], x: i128) -> Option<i128>
    ensures { result ≡ nearest int_ge list.now x }
{
    let mut best = None;
    for n in list {
        best = nearer_above(x, best, *n);
    }
    best
}

/// The number found, or `x` where there is none.
pub fn own_unless(x: i128, found: Option<i128>) -> i128
    ensures { result ≡ or_own x found }
{
    match found {
        None => x,
        Some(m) => m,
    }
}
