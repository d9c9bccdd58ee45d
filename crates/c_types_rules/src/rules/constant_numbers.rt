//! Numbers of integer types (6.3.1.3 of ISO/IEC 9899:2011).
ghost use Rattle.std.specs.Prelude.{◌≡◌, ◌<◌, pos};
ghost use Rattle.c_types_rules.specs.Rules.ConstantFolding.{modulus_of, turned, converted, has_number, if_has, truth, signed_64, unsigned_64};

use cc_base::IntType;

/// How many numbers a type has; a size that no type has counts as 8 bytes.
fn modulus(kind: IntType) -> i128
    ensures { result ≡ pos (modulus_of kind) }
{
    match kind.bytes {
        1 => 0x100,
        2 => 0x1_0000,
        4 => 0x1_0000_0000,
        _ => 0x1_0000_0000_0000_0000,
    }
}

/// The number of the type that is equal to `n` modulo the number of its values.
pub fn converted(kind: IntType, n: i128) -> i128
    ensures { result ≡ converted kind n }
{
    let modulus = modulus(kind);
    let low = n.rem_euclid(modulus);
    if kind.signed && low >= modulus / 2 {
        low - modulus
    } else {
        low
    }
}

/// Whether a type has a number.
pub fn has_number(kind: IntType, n: i128) -> bool
    ensures { result ≡ has_number kind n }
{
    converted(kind, n) == n
}

/// A number, where the type has it.
pub fn if_has(kind: IntType, n: i128) -> Option<i128>
    ensures { result ≡ if_has kind n }
{
    if has_number(kind, n) { Some(n) } else { None }
}

/// 1 or 0.
pub fn truth(holds: bool) -> i128
    ensures { result ≡ truth holds }
{
    if holds { 1 } else { 0 }
}

/// A number that 64 signed bits have; 0 stands for others.
pub fn signed_64(n: i128) -> i64
    ensures { result ≡ signed_64 n }
{
    match i64::try_from(n) {
        Ok(x) => x,
        Err(_) => 0,
    }
}

/// A number that 64 unsigned bits have; 0 stands for others.
pub fn unsigned_64(n: i128) -> u64
    ensures { result ≡ unsigned_64 n }
{
    match u64::try_from(n) {
        Ok(x) => x,
        Err(_) => 0,
    }
}
