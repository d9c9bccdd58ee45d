//! Rules on integers.
ghost use Rattle.std.specs.Prelude.{◌≡◌, ◌^◌, true};
ghost use Rattle.cc_base.specs.IntegerTypes.{is_size};
ghost use Rattle.cc_base.specs.IntegerDomains.{IsNear};
ghost use Rattle.cc_base.specs.NumberRanges.{LiesWithin};
ghost use Rattle.transfer_checks.specs.IntegerChecks.{has_number, divides_least, division_violations, shifts_negative, leaves_signed, overflow_violations, ranges_violate, sink_violations, is_no_character, binary_violations, unary_violations, character_violations};

use crate::near_ranges::near_range;
use crate::violation_sets::Violations;
use cc_base::{IntDomain, IntOp, IntType, UnOp};
use value_domain::values::{Labels, Value, negated_leave, ranges_leave};

/// Whether the range has the number.
fn has_number(range: Option<(i128, i128)>, n: i128) -> bool
    ensures { result ≡ has_number range n }
{
    match range {
        None => false,
        Some(p) => p.0 <= n && n <= p.1,
    }
}

/// Whether the least number of a signed type may be divided by -1.
fn divides_least(kind: IntType, a: Option<(i128, i128)>, b: Option<(i128, i128)>) -> bool
    requires { is_size kind.bytes ≡ true }
    ensures { result ≡ divides_least kind a b }
{
    kind.signed && (has_number(a, kind.least()) && has_number(b, -1))
}

fn division_violations(
    kind: IntType,
    a: Option<(i128, i128)>,
    b: Option<(i128, i128)>,
) -> Violations
    requires { is_size kind.bytes ≡ true }
    ensures { result ≡ division_violations kind a b }
{
    let least = divides_least(kind, a, b);
    let mut found = Violations::none();
    found.diverr = least || (a.is_some() && has_number(b, 0));
    found.intoflow = least;
    found
}

/// Whether a negative number of a signed type may be shifted to the left.
fn shifts_negative(kind: IntType, a: Option<(i128, i128)>, b: Option<(i128, i128)>) -> bool
    ensures { result ≡ shifts_negative kind a b }
{
    match a {
        None => false,
        Some(p) => kind.signed && (p.0 < 0 && b.is_some()),
    }
}

/// Whether a result of an operator on the ranges may be outside a signed type.
fn leaves_signed(op: IntOp, kind: IntType, a: Option<(i128, i128)>, b: Option<(i128, i128)>) -> bool
    requires size { is_size kind.bytes ≡ true }
    requires left { LiesWithin (2 ^ 64) a }
    requires right { LiesWithin (2 ^ 64) b }
    ensures { result ≡ leaves_signed op kind a b }
{
    kind.signed && ranges_leave(op, kind, a, b)
}

/// The rule on overflow, where it may be violated.
fn overflow_violations(leaves: bool) -> Violations
    ensures { result ≡ overflow_violations leaves }
{
    let mut found = Violations::none();
    found.intoflow = leaves;
    found
}

/// What a binary operator at a type on numbers of the ranges may violate.
fn ranges_violate(
    op: IntOp,
    kind: IntType,
    a: Option<(i128, i128)>,
    b: Option<(i128, i128)>,
) -> Violations
    requires size { is_size kind.bytes ≡ true }
    requires left { LiesWithin (2 ^ 64) a }
    requires right { LiesWithin (2 ^ 64) b }
    ensures { result ≡ ranges_violate op kind a b }
{
    match op {
        IntOp::Div => division_violations(kind, a, b),
        IntOp::Rem => division_violations(kind, a, b),
        IntOp::Add => overflow_violations(leaves_signed(IntOp::Add, kind, a, b)),
        IntOp::Sub => overflow_violations(leaves_signed(IntOp::Sub, kind, a, b)),
        IntOp::Mul => overflow_violations(leaves_signed(IntOp::Mul, kind, a, b)),
        IntOp::Shl => {
            let leaves = leaves_signed(IntOp::Shl, kind, a, b);
            overflow_violations(leaves || shifts_negative(kind, a, b))
        }
        IntOp::And | IntOp::Or | IntOp::Xor | IntOp::Shr => Violations::none(),
    }
}

/// What a binary operator at a type may violate.
pub fn binary_violations<I: IntDomain>(
    op: IntOp,
    kind: IntType,
    a: Value<I>,
    b: Value<I>,
) -> Violations
    requires size { is_size kind.bytes ≡ true }
    requires left { IsNear (I.numbers.bounds a.num) }
    requires right { IsNear (I.numbers.bounds b.num) }
    ensures { result ≡ binary_violations I.numbers op kind a b }
{
    ranges_violate(op, kind, near_range(a.num), near_range(b.num))
}

/// What a unary operator at a type may violate.
pub fn unary_violations<I: IntDomain>(op: UnOp, kind: IntType, a: Value<I>) -> Violations
    requires size { is_size kind.bytes ≡ true }
    requires near { IsNear (I.numbers.bounds a.num) }
    ensures { result ≡ unary_violations I.numbers op kind a }
{
    overflow_violations(kind.signed && negated_leave(op, kind, near_range(a.num)))
}

/// Whether an integer with these labels reaches a sink.
pub fn sink_violations(labels: Labels) -> Violations
    ensures { result ≡ sink_violations labels }
{
    let mut found = Violations::none();
    found.taintsink = !labels.is_empty();
    found
}

/// Whether some number is outside -1 to 255.
fn is_no_character(range: Option<(i128, i128)>) -> bool
    ensures { result ≡ is_no_character range }
{
    match range {
        None => false,
        Some(p) => p.0 < -1 || p.1 > 255,
    }
}

/// What a function on characters may violate: its argument may be outside -1 to 255.
pub fn character_violations<I: IntDomain>(c: Value<I>) -> Violations
    ensures { result ≡ character_violations I.numbers c }
{
    let mut found = Violations::none();
    found.chrsgnext = is_no_character(c.num.bounds());
    found
}
