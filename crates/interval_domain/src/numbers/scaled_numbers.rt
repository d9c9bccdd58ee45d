//! Powers of two, and numbers times them and by them.
ghost use Rattle.std.specs.Prelude.{◌≡◌, ◌≤ℤ◌, ◌<ℤ◌, ◌<◌, ◌≤◌, ◌*◌, ◌^◌, pos, unsigned_abs};
ghost use Rattle.interval_domain.specs.Numbers.SingleNumbers.{scaled, halved, ones_above};

/// 2 to the power `n`.
pub fn power_of_two(n: u32) -> i128
    requires { n < 127 }
    ensures { result ≡ pos (2 ^ n) }
{
    1 << n
}

/// `z` times 2 to the power `n`.
pub fn scaled(z: i128, n: i128) -> i128
    requires lo { pos 0 ≤ℤ n }
    requires hi { n ≤ℤ pos 63 }
    requires nonnegative { pos 0 ≤ℤ z }
    requires small { z <ℤ pos (2 ^ 64) }
    ensures value { result ≡ scaled z n }
    ensures nonnegative { pos 0 ≤ℤ result }
    ensures bound { result ≤ℤ pos (unsigned_abs z * 2 ^ 63) }
{
    z * power_of_two(n as u32)
}

/// `z` divided by 2 to the power `n`, rounded down.
pub fn halved(z: i128, n: i128) -> i128
    requires lo { pos 0 ≤ℤ n }
    requires hi { n ≤ℤ pos 63 }
    ensures { result ≡ halved z n }
{
    z >> n as u32
}

/// 2^j - 1 for the least j with `n` below 2^j.
pub fn ones_above(n: u128) -> i128
    requires { n ≤ 2 ^ 64 }
    ensures { result ≡ ones_above n }
{
    power_of_two(128 - n.leading_zeros()) - 1
}
