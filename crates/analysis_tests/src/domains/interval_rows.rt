//! Tests of the operations. The results on single numbers at the ends of each type were made by a
//! C compiler; on intervals they come from going over all numbers.
ghost use Rattle.std.specs.Prelude.{◌≡◌, true};
ghost use Rattle.cc_base.specs.IntegerTypes.{is_size};
ghost use Rattle.cc_base.specs.IntegerDomains.{IsNear};
ghost use Rattle.interval_domain.specs.Intervals.Spans.{interval_bounds};

use crate::domains::pointer_rows;
use cc_base::{IntDomain, IntOp, IntType, Lattice, Rel, Tri, UnOp};
use interval_domain::intervals::Interval;

/// An operation, two numbers and what C gives, where it gives a number.
type Row = (IntOp, i128, i128, Option<i128>);

const SIGNED_1: [Row; 20] = [
    (IntOp::Add, -127, 3, Some(-124)),
    (IntOp::Add, 127, 127, None),
    (IntOp::Sub, -128, -1, Some(-127)),
    (IntOp::Sub, -127, 3, None),
    (IntOp::Mul, -1, 3, Some(-3)),
    (IntOp::Mul, -127, 3, None),
    (IntOp::Div, -127, 3, Some(-42)),
    (IntOp::Div, 3, 0, None),
    (IntOp::Rem, -127, 3, Some(-1)),
    (IntOp::Rem, -128, -1, None),
    (IntOp::And, -128, -1, Some(-128)),
    (IntOp::And, -127, 3, Some(1)),
    (IntOp::Or, -127, 3, Some(-125)),
    (IntOp::Or, -128, -1, Some(-1)),
    (IntOp::Xor, -128, -1, Some(127)),
    (IntOp::Xor, -127, 3, Some(-126)),
    (IntOp::Shl, 3, 0, Some(3)),
    (IntOp::Shl, 126, -1, None),
    (IntOp::Shr, -127, 3, Some(-16)),
    (IntOp::Shr, 126, -1, None),
];

const SIGNED_2: [Row; 20] = [
    (IntOp::Add, -32767, 3, Some(-32764)),
    (IntOp::Add, 32767, 32767, None),
    (IntOp::Sub, -32768, -1, Some(-32767)),
    (IntOp::Sub, -32767, 3, None),
    (IntOp::Mul, 32766, -1, Some(-32766)),
    (IntOp::Mul, -32767, 3, None),
    (IntOp::Div, -32767, 3, Some(-10922)),
    (IntOp::Div, 3, 0, None),
    (IntOp::Rem, -32767, 3, Some(-1)),
    (IntOp::Rem, -32768, -1, None),
    (IntOp::And, -32768, -1, Some(-32768)),
    (IntOp::And, -32767, 3, Some(1)),
    (IntOp::Or, -32767, 3, Some(-32765)),
    (IntOp::Or, -32768, -1, Some(-1)),
    (IntOp::Xor, -32768, -1, Some(32767)),
    (IntOp::Xor, -32767, 3, Some(-32766)),
    (IntOp::Shl, 3, 0, Some(3)),
    (IntOp::Shl, 32766, -1, None),
    (IntOp::Shr, -32767, 3, Some(-4096)),
    (IntOp::Shr, 32766, -1, None),
];

const SIGNED_4: [Row; 20] = [
    (IntOp::Add, -2147483647, 3, Some(-2147483644)),
    (IntOp::Add, 2147483647, 2147483647, None),
    (IntOp::Sub, -2147483648, -1, Some(-2147483647)),
    (IntOp::Sub, -2147483647, 3, None),
    (IntOp::Mul, 2147483646, -1, Some(-2147483646)),
    (IntOp::Mul, -2147483647, 3, None),
    (IntOp::Div, -2147483647, 3, Some(-715827882)),
    (IntOp::Div, 3, 0, None),
    (IntOp::Rem, -2147483647, 3, Some(-1)),
    (IntOp::Rem, -2147483648, -1, None),
    (IntOp::And, -2147483648, -1, Some(-2147483648)),
    (IntOp::And, -2147483647, 3, Some(1)),
    (IntOp::Or, -2147483647, 3, Some(-2147483645)),
    (IntOp::Or, -2147483648, -1, Some(-1)),
    (IntOp::Xor, -2147483648, -1, Some(2147483647)),
    (IntOp::Xor, -2147483647, 3, Some(-2147483646)),
    (IntOp::Shl, 3, 0, Some(3)),
    (IntOp::Shl, 2147483646, -1, None),
    (IntOp::Shr, -2147483647, 3, Some(-268435456)),
    (IntOp::Shr, 2147483646, -1, None),
];

const SIGNED_8: [Row; 20] = [
    (
        IntOp::Add,
        -9223372036854775807,
        3,
        Some(-9223372036854775804),
    ),
    (IntOp::Add, 9223372036854775807, 9223372036854775807, None),
    (
        IntOp::Sub,
        -9223372036854775808,
        -1,
        Some(-9223372036854775807),
    ),
    (IntOp::Sub, -9223372036854775807, 3, None),
    (
        IntOp::Mul,
        9223372036854775806,
        -1,
        Some(-9223372036854775806),
    ),
    (IntOp::Mul, -9223372036854775807, 3, None),
    (
        IntOp::Div,
        -9223372036854775807,
        3,
        Some(-3074457345618258602),
    ),
    (IntOp::Div, 3, 0, None),
    (IntOp::Rem, -9223372036854775807, 3, Some(-1)),
    (IntOp::Rem, -9223372036854775808, -1, None),
    (
        IntOp::And,
        -9223372036854775808,
        -1,
        Some(-9223372036854775808),
    ),
    (IntOp::And, -9223372036854775807, 3, Some(1)),
    (
        IntOp::Or,
        -9223372036854775807,
        3,
        Some(-9223372036854775805),
    ),
    (IntOp::Or, -9223372036854775808, -1, Some(-1)),
    (
        IntOp::Xor,
        -9223372036854775808,
        -1,
        Some(9223372036854775807),
    ),
    (
        IntOp::Xor,
        -9223372036854775807,
        3,
        Some(-9223372036854775806),
    ),
    (IntOp::Shl, 3, 0, Some(3)),
    (IntOp::Shl, 9223372036854775806, -1, None),
    (
        IntOp::Shr,
        -9223372036854775807,
        3,
        Some(-1152921504606846976),
    ),
    (IntOp::Shr, 9223372036854775806, -1, None),
];

const UNSIGNED_1: [Row; 20] = [
    (IntOp::Add, 128, 3, Some(131)),
    (IntOp::Add, 127, 2, Some(129)),
    (IntOp::Sub, 128, 3, Some(125)),
    (IntOp::Sub, 254, 2, Some(252)),
    (IntOp::Mul, 254, 2, Some(252)),
    (IntOp::Mul, 127, 2, Some(254)),
    (IntOp::Div, 128, 3, Some(42)),
    (IntOp::Div, 3, 0, None),
    (IntOp::Rem, 128, 3, Some(2)),
    (IntOp::Rem, 0, 0, None),
    (IntOp::And, 254, 2, Some(2)),
    (IntOp::And, 127, 2, Some(2)),
    (IntOp::Or, 128, 3, Some(131)),
    (IntOp::Or, 254, 2, Some(254)),
    (IntOp::Xor, 128, 3, Some(131)),
    (IntOp::Xor, 254, 2, Some(252)),
    (IntOp::Shl, 254, 2, Some(248)),
    (IntOp::Shl, 128, 128, None),
    (IntOp::Shr, 128, 3, Some(16)),
    (IntOp::Shr, 128, 128, None),
];

const UNSIGNED_2: [Row; 20] = [
    (IntOp::Add, 32768, 3, Some(32771)),
    (IntOp::Add, 32767, 2, Some(32769)),
    (IntOp::Sub, 32768, 3, Some(32765)),
    (IntOp::Sub, 65534, 2, Some(65532)),
    (IntOp::Mul, 65534, 2, Some(65532)),
    (IntOp::Mul, 32767, 2, Some(65534)),
    (IntOp::Div, 32768, 3, Some(10922)),
    (IntOp::Div, 3, 0, None),
    (IntOp::Rem, 32768, 3, Some(2)),
    (IntOp::Rem, 0, 0, None),
    (IntOp::And, 65534, 2, Some(2)),
    (IntOp::And, 32767, 2, Some(2)),
    (IntOp::Or, 32768, 3, Some(32771)),
    (IntOp::Or, 65534, 2, Some(65534)),
    (IntOp::Xor, 32768, 3, Some(32771)),
    (IntOp::Xor, 65534, 2, Some(65532)),
    (IntOp::Shl, 65534, 2, Some(65528)),
    (IntOp::Shl, 32768, 32768, None),
    (IntOp::Shr, 32768, 3, Some(4096)),
    (IntOp::Shr, 32768, 32768, None),
];

const UNSIGNED_4: [Row; 20] = [
    (IntOp::Add, 2147483648, 3, Some(2147483651)),
    (IntOp::Add, 2147483647, 2, Some(2147483649)),
    (IntOp::Sub, 2147483648, 3, Some(2147483645)),
    (IntOp::Sub, 4294967294, 2, Some(4294967292)),
    (IntOp::Mul, 4294967294, 2, Some(4294967292)),
    (IntOp::Mul, 2147483647, 2, Some(4294967294)),
    (IntOp::Div, 2147483648, 3, Some(715827882)),
    (IntOp::Div, 3, 0, None),
    (IntOp::Rem, 2147483648, 3, Some(2)),
    (IntOp::Rem, 0, 0, None),
    (IntOp::And, 4294967294, 2, Some(2)),
    (IntOp::And, 2147483647, 2, Some(2)),
    (IntOp::Or, 2147483648, 3, Some(2147483651)),
    (IntOp::Or, 4294967294, 2, Some(4294967294)),
    (IntOp::Xor, 2147483648, 3, Some(2147483651)),
    (IntOp::Xor, 4294967294, 2, Some(4294967292)),
    (IntOp::Shl, 4294967294, 2, Some(4294967288)),
    (IntOp::Shl, 2147483648, 2147483648, None),
    (IntOp::Shr, 2147483648, 3, Some(268435456)),
    (IntOp::Shr, 2147483648, 2147483648, None),
];

const UNSIGNED_8: [Row; 20] = [
    (
        IntOp::Add,
        9223372036854775808,
        3,
        Some(9223372036854775811),
    ),
    (
        IntOp::Add,
        9223372036854775807,
        2,
        Some(9223372036854775809),
    ),
    (
        IntOp::Sub,
        9223372036854775808,
        3,
        Some(9223372036854775805),
    ),
    (
        IntOp::Sub,
        18446744073709551614,
        2,
        Some(18446744073709551612),
    ),
    (
        IntOp::Mul,
        18446744073709551614,
        2,
        Some(18446744073709551612),
    ),
    (
        IntOp::Mul,
        9223372036854775807,
        2,
        Some(18446744073709551614),
    ),
    (
        IntOp::Div,
        9223372036854775808,
        3,
        Some(3074457345618258602),
    ),
    (IntOp::Div, 3, 0, None),
    (IntOp::Rem, 9223372036854775808, 3, Some(2)),
    (IntOp::Rem, 0, 0, None),
    (IntOp::And, 18446744073709551614, 2, Some(2)),
    (IntOp::And, 9223372036854775807, 2, Some(2)),
    (IntOp::Or, 9223372036854775808, 3, Some(9223372036854775811)),
    (
        IntOp::Or,
        18446744073709551614,
        2,
        Some(18446744073709551614),
    ),
    (
        IntOp::Xor,
        9223372036854775808,
        3,
        Some(9223372036854775811),
    ),
    (
        IntOp::Xor,
        18446744073709551614,
        2,
        Some(18446744073709551612),
    ),
    (
        IntOp::Shl,
        18446744073709551614,
        2,
        Some(18446744073709551608),
    ),
    (IntOp::Shl, 9223372036854775808, 9223372036854775808, None),
    (
        IntOp::Shr,
        9223372036854775808,
        3,
        Some(1152921504606846976),
    ),
    (IntOp::Shr, 9223372036854775808, 9223372036854775808, None),
];

const INT: IntType = IntType {
    bytes: 4,
    signed: true,
    rank: 3,
};

const UNSIGNED: IntType = IntType {
    bytes: 4,
    signed: false,
    rank: 3,
};

const CHAR: IntType = IntType {
    bytes: 1,
    signed: true,
    rank: 1,
};

const UNSIGNED_CHAR: IntType = IntType {
    bytes: 1,
    signed: false,
    rank: 1,
};

/// An interval whose bounds are near.
fn given(lo: i128, hi: i128) -> Interval
    ensures { IsNear (interval_bounds result) }
{
    pointer_rows::given(lo, hi)
}

fn kind(bytes: u8, signed: bool) -> IntType
    ensures { is_size result.bytes ≡ true }
{
    let size = match bytes {
        1 => 1,
        2 => 2,
        4 => 4,
        _ => 8,
    };
    IntType {
        bytes: size,
        signed,
        rank: 1,
    }
}

/// The two bounds of an interval.
fn is(x: Interval, lo: i128, hi: i128) -> bool {
    x.bounds() == Some((lo, hi))
}

fn is_single(x: Interval, n: Option<i128>) -> bool {
    match (x.bounds(), n) {
        (None, None) => true,
        (Some((lo, hi)), Some(m)) => lo == m && hi == m,
        _ => false,
    }
}

fn agrees(row: Row, kind: IntType) -> bool
    requires { is_size kind.bytes ≡ true }
{
    let (op, a, b, result) = row;
    is_single(given(a, a).arith(op, given(b, b), kind), result)
}

fn all_agree(rows: &[Row], kind: IntType) -> bool
    requires { is_size kind.bytes ≡ true }
{
    let mut same = true;
    for row in rows {
        same &= agrees(*row, kind);
    }
    same
}

#[test]
fn single_numbers(rt: HostRuntime) {
    assert!(rt; all_agree(&SIGNED_1, kind(1, true)));
    assert!(rt; all_agree(&SIGNED_2, kind(2, true)));
    assert!(rt; all_agree(&SIGNED_4, kind(4, true)));
    assert!(rt; all_agree(&SIGNED_8, kind(8, true)));
    assert!(rt; all_agree(&UNSIGNED_1, kind(1, false)));
    assert!(rt; all_agree(&UNSIGNED_2, kind(2, false)));
    assert!(rt; all_agree(&UNSIGNED_4, kind(4, false)));
    assert!(rt; all_agree(&UNSIGNED_8, kind(8, false)));
}

#[test]
fn unary_and_conversions(rt: HostRuntime) {
    assert!(rt; is(given(-3, 5).unary(UnOp::Neg, INT), -5, 3));
    assert!(rt; is(given(-3, 5).unary(UnOp::Compl, INT), -6, 2));
    assert!(rt;
        is(
            given(1, 5).unary(UnOp::Neg, UNSIGNED),
            4294967291,
            4294967295
        )
    );
    assert!(rt; is(given(0, 5).unary(UnOp::Neg, UNSIGNED), 0, 4294967295));
    assert!(rt;
        is(
            given(0, 5).unary(UnOp::Compl, UNSIGNED),
            4294967290,
            4294967295
        )
    );
    assert!(rt; is_single(given(-2147483648, -2147483648).unary(UnOp::Neg, INT), None));
    assert!(rt; is(given(-1, -1).convert(UNSIGNED), 4294967295, 4294967295));
    assert!(rt; is(given(200, 300).convert(CHAR), -56, 44));
    assert!(rt; is(given(100, 200).convert(CHAR), -128, 127));
    assert!(rt; is(given(256, 300).convert(UNSIGNED_CHAR), 0, 44));
}

#[test]
fn intervals(rt: HostRuntime) {
    assert!(rt; is(given(-7, 3).arith(IntOp::Rem, given(10, 10), INT), -7, 3));
    assert!(rt; is(given(-7, 30).arith(IntOp::Rem, given(-3, 10), INT), -7, 9));
    assert!(rt;
        is(
            given(0, 10).arith(IntOp::Add, given(4294967290, 4294967290), UNSIGNED),
            0,
            4294967295
        )
    );
    assert!(rt;
        is(
            given(6, 10).arith(IntOp::Add, given(4294967290, 4294967290), UNSIGNED),
            0,
            4
        )
    );
    assert!(rt; is(given(0, 20).refine(Rel::Lt, given(10, 10)), 0, 9));
    assert!(rt; is(given(0, 20).refine(Rel::Ge, given(10, 10)), 10, 20));
    assert!(rt; is(given(0, 20).refine(Rel::Ne, given(20, 20)), 0, 19));
    assert!(rt; given(0, 3).compare(Rel::Lt, given(4, 9)) == Tri::Yes);
    assert!(rt; given(0, 4).compare(Rel::Lt, given(4, 9)) == Tri::Both);
    assert!(rt; given(9, 9).compare(Rel::Lt, given(4, 9)) == Tri::No);
    assert!(rt; given(4, 9).compare(Rel::Eq, Interval::Bottom) == Tri::Never);
}

const OPERATORS: [IntOp; 10] = [
    IntOp::Add,
    IntOp::Sub,
    IntOp::Mul,
    IntOp::Div,
    IntOp::Rem,
    IntOp::And,
    IntOp::Or,
    IntOp::Xor,
    IntOp::Shl,
    IntOp::Shr,
];

/// What C gives on two numbers of a char, where it gives a number and the sum is no overflow.
fn in_char(op: IntOp, a: i128, b: i128, signed: bool) -> Option<i128> {
    let count = if 0 <= b && b < 8 { b as u32 } else { 0 };
    let in_width = 0 <= b && b < 8;
    let exact = match op {
        IntOp::Add => Some(a.wrapping_add(b)),
        IntOp::Sub => Some(a.wrapping_sub(b)),
        IntOp::Mul => Some(a.wrapping_mul(b)),
        IntOp::Div => a.checked_div(b),
        IntOp::Rem => a.checked_rem(b),
        IntOp::And => Some(a & b),
        IntOp::Or => Some(a | b),
        IntOp::Xor => Some(a ^ b),
        IntOp::Shl if in_width && 0 <= a => Some(a.wrapping_mul(1 << count)),
        IntOp::Shr if in_width => Some(a >> count),
        IntOp::Shl | IntOp::Shr => None,
    };
    match exact {
        Some(n) if signed && (n < -128 || n > 127) => None,
        Some(n) if !signed => Some(n.rem_euclid(256)),
        other => other,
    }
}

/// Whether an operation on two intervals of chars has each result, and no other bounds where the
/// least interval is asked for.
fn is_right(op: IntOp, s: (i128, i128), t: (i128, i128), signed: bool) -> bool {
    let found = given(s.0, s.1)
        .arith(op, given(t.0, t.1), kind(1, signed))
        .bounds();
    let mut least: Option<(i128, i128)> = None;
    for a in s.0..s.1.saturating_add(1) {
        for b in t.0..t.1.saturating_add(1) {
            least = match (least, in_char(op, a, b, signed)) {
                (None, Some(n)) => Some((n, n)),
                (Some(p), Some(n)) => Some((p.0.min(n), p.1.max(n))),
                (p, None) => p,
            };
        }
    }
    let is_best = match op {
        IntOp::Add | IntOp::Sub | IntOp::Mul | IntOp::Div | IntOp::Shr => true,
        _ => s.0 == s.1 && t.0 == t.1,
    };
    match (least, found) {
        (None, None) => true,
        (None, Some(_)) => !is_best,
        (Some(_), None) => false,
        (Some(p), Some(q)) => (p == q || !is_best) && q.0 <= p.0 && p.1 <= q.1,
    }
}

fn all_right(op: IntOp, numbers: &[i128], signed: bool) -> bool {
    let mut right = true;
    for (i, a) in numbers.iter().enumerate() {
        for b in &numbers[i..] {
            for (j, c) in numbers.iter().enumerate() {
                for d in &numbers[j..] {
                    right &= is_right(op, (*a, *b), (*c, *d), signed);
                }
            }
        }
    }
    right
}

/// The least bounds of two numbers or more, one after the other.
fn with_number(least: Option<(i128, i128)>, n: Option<i128>) -> Option<(i128, i128)> {
    match (least, n) {
        (None, Some(m)) => Some((m, m)),
        (Some(p), Some(m)) => Some((p.0.min(m), p.1.max(m))),
        (p, None) => p,
    }
}

/// What C gives on one number of a char.
fn unary_in_char(op: UnOp, a: i128, signed: bool) -> Option<i128> {
    let exact = match op {
        UnOp::Neg => a.wrapping_neg(),
        UnOp::Compl => a.wrapping_neg().wrapping_sub(1),
    };
    Some(if signed { exact } else { exact.rem_euclid(256) })
}

/// Whether the operators on one interval of chars, and its conversion, give the least bounds.
fn is_right_alone(s: (i128, i128), signed: bool) -> bool {
    let mut turned: Option<(i128, i128)> = None;
    let mut flipped: Option<(i128, i128)> = None;
    let mut converted: Option<(i128, i128)> = None;
    for a in s.0..s.1.saturating_add(1) {
        turned = with_number(turned, unary_in_char(UnOp::Neg, a, signed));
        flipped = with_number(flipped, unary_in_char(UnOp::Compl, a, signed));
        converted = with_number(converted, Some(a.rem_euclid(256)));
    }
    let x = given(s.0, s.1);
    x.unary(UnOp::Neg, kind(1, signed)).bounds() == turned
        && x.unary(UnOp::Compl, kind(1, signed)).bounds() == flipped
        && x.convert(kind(1, false)).bounds() == converted
}

const RELATIONS: [Rel; 6] = [Rel::Lt, Rel::Le, Rel::Gt, Rel::Ge, Rel::Eq, Rel::Ne];

fn holds(rel: Rel, a: i128, b: i128) -> bool {
    match rel {
        Rel::Lt => a < b,
        Rel::Le => a <= b,
        Rel::Gt => a > b,
        Rel::Ge => a >= b,
        Rel::Eq => a == b,
        Rel::Ne => a != b,
    }
}

/// Whether a relation of two intervals is told as their numbers have it, and leaves the least bounds.
fn is_right_relation(rel: Rel, s: (i128, i128), t: (i128, i128)) -> bool {
    let mut left: Option<(i128, i128)> = None;
    let mut can_fail = false;
    for a in s.0..s.1.saturating_add(1) {
        for b in t.0..t.1.saturating_add(1) {
            can_fail |= !holds(rel, a, b);
            left = with_number(left, if holds(rel, a, b) { Some(a) } else { None });
        }
    }
    let told = given(s.0, s.1).compare(rel, given(t.0, t.1));
    told.can_hold() == left.is_some()
        && told.can_fail() == can_fail
        && given(s.0, s.1).refine(rel, given(t.0, t.1)).bounds() == left
}

fn all_relations_right(s: (i128, i128), t: (i128, i128)) -> bool {
    let mut right = true;
    for rel in RELATIONS {
        right &= is_right_relation(rel, s, t);
    }
    right
}

fn all_right_beside_operators(numbers: &[i128], signed: bool) -> bool {
    let mut right = true;
    for (i, a) in numbers.iter().enumerate() {
        for b in &numbers[i..] {
            right &= is_right_alone((*a, *b), signed);
            for (j, c) in numbers.iter().enumerate() {
                for d in &numbers[j..] {
                    right &= all_relations_right((*a, *b), (*c, *d));
                }
            }
        }
    }
    right
}

#[test]
fn small_intervals(rt: HostRuntime) {
    let around_zero = [-4, -3, -2, -1, 0, 1, 2, 3, 4];
    let from_zero = [0, 1, 2, 3, 4, 5, 6, 7];
    for op in OPERATORS {
        assert!(rt; all_right(op, around_zero.as_slice(), true));
        assert!(rt; all_right(op, from_zero.as_slice(), false));
    }
    assert!(rt; all_right_beside_operators(around_zero.as_slice(), true));
    assert!(rt; all_right_beside_operators(from_zero.as_slice(), false));
}

/// A number of a char with the low bits of `n`.
fn in_char_bits(n: i128, signed: bool) -> i128 {
    let low = n.rem_euclid(256);
    if signed && 127 < low {
        low.wrapping_sub(256)
    } else {
        low
    }
}

fn is_char(n: i128, signed: bool) -> bool {
    if signed {
        -128 <= n && n <= 127
    } else {
        0 <= n && n <= 255
    }
}

/// What C gives on a number of a char and any number.
fn beyond_char(op: IntOp, a: i128, b: i128, signed: bool) -> Option<i128> {
    match op {
        _ if !is_char(a, signed) => None,
        IntOp::And => Some(in_char_bits(a & b, signed)),
        IntOp::Or => Some(in_char_bits(a | b, signed)),
        IntOp::Xor => Some(in_char_bits(a ^ b, signed)),
        IntOp::Div => match a.checked_div(b) {
            Some(n) if is_char(n, signed) => Some(n),
            _ => None,
        },
        IntOp::Rem if signed && a == -128 && b == -1 => None,
        _ => in_char(op, a, b, signed),
    }
}

fn has_number(found: Option<(i128, i128)>, n: Option<i128>) -> bool {
    match (found, n) {
        (_, None) => true,
        (None, Some(_)) => false,
        (Some(p), Some(n)) => p.0 <= n && n <= p.1,
    }
}

/// Whether an operation on two intervals of any numbers has each result on a number of a char.
fn has_results(op: IntOp, s: (i128, i128), t: (i128, i128), signed: bool) -> bool {
    let found = given(s.0, s.1)
        .arith(op, given(t.0, t.1), kind(1, signed))
        .bounds();
    let mut right = true;
    for a in s.0..s.1.saturating_add(1) {
        for b in t.0..t.1.saturating_add(1) {
            right &= has_number(found, beyond_char(op, a, b, signed));
        }
    }
    right
}

/// Whether wider operands give no narrower result.
fn is_wider(op: IntOp, s: (i128, i128), t: (i128, i128), signed: bool) -> bool {
    let least = given(s.0, s.1).arith(op, given(t.0, t.1), kind(1, signed));
    let left = given(s.0.saturating_sub(1), s.1.saturating_add(1));
    let right = given(t.0.saturating_sub(1), t.1.saturating_add(1));
    least.leq(left.arith(op, given(t.0, t.1), kind(1, signed)))
        && least.leq(given(s.0, s.1).arith(op, right, kind(1, signed)))
}

/// Whether both hold of all intervals with a bound of each list for the left and for the right operand.
fn all_beyond(op: IntOp, left: &[i128], right: &[i128], signed: bool) -> bool {
    let mut all = true;
    for (i, a) in left.iter().enumerate() {
        for b in &left[i..] {
            for (j, c) in right.iter().enumerate() {
                for d in &right[j..] {
                    all &= has_results(op, (*a, *b), (*c, *d), signed);
                    all &= is_wider(op, (*a, *b), (*c, *d), signed);
                }
            }
        }
    }
    all
}

const ABOUT_LEAST: [i128; 4] = [-130, -129, -128, -127];

const ABOUT_ZERO: [i128; 4] = [-2, -1, 0, 1];

const ABOUT_GREATEST: [i128; 4] = [126, 127, 128, 129];

const ABOUT_UNSIGNED: [i128; 4] = [254, 255, 256, 257];

fn all_beyond_signed(op: IntOp, left: &[i128]) -> bool {
    all_beyond(op, left, ABOUT_LEAST.as_slice(), true)
        && all_beyond(op, left, ABOUT_ZERO.as_slice(), true)
        && all_beyond(op, left, ABOUT_GREATEST.as_slice(), true)
}

fn all_beyond_unsigned(op: IntOp, left: &[i128]) -> bool {
    all_beyond(op, left, ABOUT_ZERO.as_slice(), false)
        && all_beyond(op, left, ABOUT_UNSIGNED.as_slice(), false)
}

#[test]
fn beyond_the_type(rt: HostRuntime) {
    for op in OPERATORS {
        assert!(rt; all_beyond_signed(op, ABOUT_LEAST.as_slice()));
        assert!(rt; all_beyond_signed(op, ABOUT_ZERO.as_slice()));
        assert!(rt; all_beyond_signed(op, ABOUT_GREATEST.as_slice()));
        assert!(rt; all_beyond_unsigned(op, ABOUT_ZERO.as_slice()));
        assert!(rt; all_beyond_unsigned(op, ABOUT_UNSIGNED.as_slice()));
    }
}
