//! Numbers by blocks.
ghost use Rattle.std.specs.Prelude.{◌≡◌, ◌+◌, ◌*◌, ◌/◌, ◌%◌, ◌<◌, ◌≤◌, ◌^◌, ◌*ℤ◌, ◌<ℤ◌, pos, negsuc, true, Some};
ghost use Rattle.cc_base.specs.IntegerTypes.{is_size, modulus};
ghost use Rattle.cc_base.specs.IntegerDomains.{IsNear};
ghost use Rattle.interval_domain.specs.Numbers.TurnedNumbers.{turned, next_start, one_block};

use cc_base::IntType;

/// A number as a block of consecutive numbers and a place in the block.
#[derive(Clone, Copy, Debug)]
pub struct Turned {
    /// Which block.
    pub turns: i128,
    /// Which number of the block, counted from 0.
    pub rest: i128,
}

/// One less than a product.
fn product_less_one(x: u128, y: u128) -> u128
    requires x_lo { 0 < x }
    requires x_hi { x ≤ 2 ^ 64 }
    requires y_lo { 0 < y }
    requires y_hi { y ≤ 2 ^ 64 }
    ensures { result + 1 ≡ x * y }
{
    (x - 1) * y + (y - 1)
}

/// The next block, from its start.
fn next_block(turns: i128) -> Turned
    requires { turns <ℤ pos (2 ^ 120) }
    ensures { result ≡ next_start turns }
{
    Turned {
        turns: turns + 1,
        rest: 0,
    }
}

/// Which block of as many numbers as the type has holds `n`.
fn turns_of(kind: IntType, n: u128) -> i128
    requires { is_size kind.bytes ≡ true }
    ensures value { result ≡ pos (n / modulus kind) }
    ensures small { result <ℤ pos (2 ^ 120) }
{
    (n / kind.modulus() as u128) as i128
}

/// The place of `n` in its block.
fn place_of(kind: IntType, n: u128) -> i128
    requires { is_size kind.bytes ≡ true }
    ensures value { result ≡ pos (n % modulus kind) }
    ensures small { result <ℤ pos (2 ^ 64) }
{
    (n % kind.modulus() as u128) as i128
}

/// The block of n + 1 and its place in the block.
fn turned_on(kind: IntType, n: u128) -> Turned
    requires { is_size kind.bytes ≡ true }
    ensures { result ≡ turned (modulus kind) (pos (n + 1)) }
{
    let turns = turns_of(kind, n);
    let rest = place_of(kind, n) + 1;
    if rest == kind.modulus() {
        next_block(turns)
    } else {
        Turned { turns, rest }
    }
}

/// -n - 1
fn less_than_zero(n: u128) -> i128
    requires { n < 2 ^ 127 }
    ensures { result ≡ negsuc n }
{
    -(n as i128) - 1
}

/// The block of -n - 1 and its place in the block.
fn turned_back(kind: IntType, n: u128) -> Turned
    requires { is_size kind.bytes ≡ true }
    ensures { result ≡ turned (modulus kind) (negsuc n) }
{
    let size = kind.modulus() as u128;
    Turned {
        turns: less_than_zero(n / size),
        rest: (size - 1 - n % size) as i128,
    }
}

/// The block of a product and its place in the block.
pub fn turned_product(kind: IntType, a: i128, b: i128) -> Turned
    requires size { is_size kind.bytes ≡ true }
    requires a_near { IsNear (Some (a, a)) }
    requires b_near { IsNear (Some (b, b)) }
    ensures { result ≡ turned (modulus kind) (a *ℤ b) }
{
    if a == 0 || b == 0 {
        return Turned { turns: 0, rest: 0 };
    }
    let n = product_less_one(a.unsigned_abs(), b.unsigned_abs());
    if (a < 0) == (b < 0) {
        turned_on(kind, n)
    } else {
        turned_back(kind, n)
    }
}

/// Whether four numbers lie in one block.
pub fn are_one_block(a: Turned, b: Turned, c: Turned, d: Turned) -> bool
    ensures { result ≡ one_block a.turns b.turns c.turns d.turns }
{
    a.turns == b.turns && (a.turns == c.turns && a.turns == d.turns)
}
