//! Quotients and remainders of two numbers, and what is divided by in place of zero.
ghost use Rattle.std.specs.Prelude.{◌≡◌, ◌≤ℤ◌, neg_ℤ, cond, FitsSigned, int_div, int_rem, pos, negsuc};
ghost use Rattle.std.specs.Ordering.{int_eq};
ghost use Rattle.std.specs.Int.{w128};
ghost use Rattle.interval_domain.specs.Numbers.SingleNumbers.{ApartFromZero};

/// A quotient, truncated towards zero.
pub fn quotient(a: i128, b: i128) -> i128
    requires small { FitsSigned w128 (neg_ℤ a) }
    requires divisor { ApartFromZero b }
    ensures { result ≡ int_div a b }
{
    a / b
}

/// The number, or 1 in place of 0.
pub fn above_zero(n: i128) -> i128
    ensures value { result ≡ cond (int_eq n (pos 0)) (pos 1) n }
    ensures apart { ApartFromZero result }
    ensures not_below { n ≤ℤ result }
{
    if n == 0 { 1 } else { n }
}

/// The number, or -1 in place of 0.
pub fn below_zero(n: i128) -> i128
    ensures value { result ≡ cond (int_eq n (pos 0)) (negsuc 0) n }
    ensures apart { ApartFromZero result }
    ensures not_above { result ≤ℤ n }
{
    if n == 0 { -1 } else { n }
}

/// A remainder, with the sign of the dividend.
pub fn rest(a: i128, b: i128) -> i128
    requires small { FitsSigned w128 (neg_ℤ a) }
    requires divisor { ApartFromZero b }
    ensures { result ≡ int_rem a b }
{
    a % b
}
