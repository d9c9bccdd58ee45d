//! Operators on values (6.3 and 6.5 of ISO/IEC 9899:2011), with the labels that they spread and make.
ghost use Rattle.std.specs.Prelude.{◌≡◌, ◌≤ℤ◌, ◌<ℤ◌, ◌<◌, ◌*◌, ◌+ℤ◌, ◌-ℤ◌, ◌*ℤ◌, ◌||◌, ◌^◌, pos, unsigned_abs, true, Some, FitsSigned, neg_ℤ};
ghost use Rattle.std.specs.Int.{w128};
ghost use Rattle.cc_base.specs.IntegerTypes.{is_size, greatest_of};
ghost use Rattle.cc_base.specs.IntegerDomains.{IsNear};
ghost use Rattle.cc_base.specs.NumberRanges.{LiesWithin, range_met};
ghost use Rattle.value_domain.specs.Values.ValueTables.{is_outside, AreShiftCounts, scaled_leave, corners_leave, ranges_leave, negated_leave, range_fits, number_value, pointer_value, blank_value, value_arith, value_unary, value_convert, value_truth, truth_number, truth_value};

use crate::values::label_sets::Labels;
use crate::values::values::Value;
use cc_base::{IntDomain, IntOp, IntType, Lattice, Rel, Tri, UnOp, range_met};
use pointer_domain::Pointers;

/// Whether a number is outside the type.
fn is_outside(kind: IntType, n: i128) -> bool
    requires { is_size kind.bytes ≡ true }
    ensures { result ≡ is_outside kind n }
{
    !kind.has(n)
}

/// Whether a product is outside the type.
fn is_product_outside(kind: IntType, a: i128, b: i128) -> bool
    requires { is_size kind.bytes ≡ true }
    ensures { result ≡ is_outside kind (a *ℤ b) }
{
    match a.checked_mul(b) {
        None => true,
        Some(product) => is_outside(kind, product),
    }
}

/// 2 to the power `n`.
fn power_of_two(n: u32) -> i128
    requires { n < 64 }
    ensures { result ≡ pos (2 ^ n) }
{
    1 << n
}

/// Whether `a` times 2 to the power `count` is outside the type.
fn is_scaled_outside(kind: IntType, a: i128, count: i128) -> bool
    requires size { is_size kind.bytes ≡ true }
    requires lo { pos 0 ≤ℤ count }
    requires hi { count ≤ℤ pos 63 }
    ensures { result ≡ is_outside kind (a *ℤ pos (2 ^ unsigned_abs count)) }
{
    is_product_outside(kind, a, power_of_two(count as u32))
}

fn shift_leaves(kind: IntType, a: Option<(i128, i128)>, counts: Option<(i128, i128)>) -> bool
    requires size { is_size kind.bytes ≡ true }
    requires range { AreShiftCounts counts }
    ensures { result ≡ scaled_leave kind a counts }
{
    match (a, counts) {
        (Some(p), Some(q)) => is_scaled_outside(kind, p.1, q.1),
        _ => false,
    }
}

fn shift_counts(kind: IntType, counts: (i128, i128)) -> Option<(i128, i128)>
    requires size { is_size kind.bytes ≡ true }
    ensures value { result ≡ range_met (Some counts) (pos 0) (pos (8 * kind.bytes) -ℤ pos 1) }
    ensures range { AreShiftCounts result }
{
    range_met(Some(counts), 0, kind.width() as i128 - 1)
}

fn is_sum_outside(kind: IntType, a: i128, b: i128) -> bool
    requires size { is_size kind.bytes ≡ true }
    requires fits { FitsSigned w128 (a +ℤ b) }
    ensures { result ≡ is_outside kind (a +ℤ b) }
{
    is_outside(kind, a + b)
}

fn sum_leaves(kind: IntType, a: (i128, i128), b: (i128, i128)) -> bool
    requires size { is_size kind.bytes ≡ true }
    requires left { LiesWithin (2 ^ 64) (Some a) }
    requires right { LiesWithin (2 ^ 64) (Some b) }
    ensures { result ≡ corners_leave IntOp.Add kind a b }
{
    let low = is_sum_outside(kind, a.0, b.0);
    let high = is_sum_outside(kind, a.1, b.1);
    low || high
}

fn is_difference_outside(kind: IntType, a: i128, b: i128) -> bool
    requires size { is_size kind.bytes ≡ true }
    requires fits { FitsSigned w128 (a -ℤ b) }
    ensures { result ≡ is_outside kind (a -ℤ b) }
{
    is_outside(kind, a - b)
}

fn difference_leaves(kind: IntType, a: (i128, i128), b: (i128, i128)) -> bool
    requires size { is_size kind.bytes ≡ true }
    requires left { LiesWithin (2 ^ 64) (Some a) }
    requires right { LiesWithin (2 ^ 64) (Some b) }
    ensures { result ≡ corners_leave IntOp.Sub kind a b }
{
    let low = is_difference_outside(kind, a.0, b.1);
    let high = is_difference_outside(kind, a.1, b.0);
    low || high
}

fn are_products_outside(kind: IntType, a: i128, b: (i128, i128)) -> bool
    requires { is_size kind.bytes ≡ true }
    ensures { result ≡ (is_outside kind (a *ℤ b.0) || is_outside kind (a *ℤ b.1)) }
{
    let low = is_product_outside(kind, a, b.0);
    let high = is_product_outside(kind, a, b.1);
    low || high
}

fn product_leaves(kind: IntType, a: (i128, i128), b: (i128, i128)) -> bool
    requires { is_size kind.bytes ≡ true }
    ensures { result ≡ corners_leave IntOp.Mul kind a b }
{
    let low = are_products_outside(kind, a.0, b);
    let high = are_products_outside(kind, a.1, b);
    low || high
}

fn corners_leave(op: IntOp, kind: IntType, a: (i128, i128), b: (i128, i128)) -> bool
    requires size { is_size kind.bytes ≡ true }
    requires left { LiesWithin (2 ^ 64) (Some a) }
    requires right { LiesWithin (2 ^ 64) (Some b) }
    ensures { result ≡ corners_leave op kind a b }
{
    match op {
        IntOp::Add => sum_leaves(kind, a, b),
        IntOp::Sub => difference_leaves(kind, a, b),
        IntOp::Mul => product_leaves(kind, a, b),
        IntOp::Shl => shift_leaves(
            kind,
            range_met(Some(a), 0, kind.greatest()),
            shift_counts(kind, b),
        ),
        IntOp::Div | IntOp::Rem | IntOp::And | IntOp::Or | IntOp::Xor | IntOp::Shr => false,
    }
}

/// Whether a mathematical result of a binary operator on numbers of the two ranges can be outside
/// the type; of `<<` on numbers from 0 by counts below the width.
pub fn ranges_leave(
    op: IntOp,
    kind: IntType,
    a: Option<(i128, i128)>,
    b: Option<(i128, i128)>,
) -> bool
    requires size { is_size kind.bytes ≡ true }
    requires left { LiesWithin (2 ^ 64) a }
    requires right { LiesWithin (2 ^ 64) b }
    ensures { result ≡ ranges_leave op kind a b }
{
    match (a, b) {
        (Some(p), Some(q)) => corners_leave(op, kind, p, q),
        _ => false,
    }
}

fn is_negation_outside(kind: IntType, a: i128) -> bool
    requires size { is_size kind.bytes ≡ true }
    requires fits { FitsSigned w128 (neg_ℤ a) }
    ensures { result ≡ is_outside kind (neg_ℤ a) }
{
    is_outside(kind, -a)
}

fn negation_leaves(kind: IntType, a: (i128, i128)) -> bool
    requires size { is_size kind.bytes ≡ true }
    requires near { LiesWithin (2 ^ 64) (Some a) }
    ensures { result ≡ negated_leave UnOp.Neg kind (Some a) }
{
    let low = is_negation_outside(kind, a.1);
    let high = is_negation_outside(kind, a.0);
    low || high
}

/// Whether a mathematical result of a unary operator can be outside the type.
pub fn negated_leave(op: UnOp, kind: IntType, a: Option<(i128, i128)>) -> bool
    requires size { is_size kind.bytes ≡ true }
    requires near { LiesWithin (2 ^ 64) a }
    ensures { result ≡ negated_leave op kind a }
{
    match (op, a) {
        (UnOp::Neg, Some(p)) => negation_leaves(kind, p),
        _ => false,
    }
}

/// Whether each number is one of the type.
pub fn range_fits(kind: IntType, x: Option<(i128, i128)>) -> bool
    requires { is_size kind.bytes ≡ true }
    ensures { result ≡ range_fits kind x }
{
    match x {
        None => true,
        Some(p) => kind.has(p.0) && kind.has(p.1),
    }
}

impl<I: IntDomain> Value<I> {
    /// The integers of `num` alone.
    pub fn of_number(num: I, labels: Labels) -> Self
        ensures { result ≡ number_value I.lattice num labels }
    {
        Value {
            num,
            pointer: Pointers::bottom(),
            indeterminate: false,
            labels,
        }
    }

    /// The pointers alone, without labels.
    pub fn of_pointer(pointer: Pointers<I>) -> Self
        ensures { result ≡ pointer_value I.lattice pointer }
    {
        Value {
            num: I::bottom(),
            pointer,
            indeterminate: false,
            labels: Labels::none(),
        }
    }

    /// The indeterminate value alone.
    pub fn blank() -> Self
        ensures { result ≡ blank_value I.lattice }
    {
        Value {
            num: I::bottom(),
            pointer: Pointers::bottom(),
            indeterminate: true,
            labels: Labels::none(),
        }
    }

    /// The integer for a truth value: 1, 0, or either, without labels.
    pub fn of_truth(truth: Tri) -> Self
        ensures { result ≡ truth_value I.lattice I.numbers truth }
    {
        let num = match truth {
            Tri::Yes => I::one(1),
            Tri::No => I::one(0),
            Tri::Both => I::between(0, 1),
            Tri::Never => I::bottom(),
        };
        Value::of_number(num, Labels::none())
    }

    /// The truth values that the value can have as a condition: a number is true where it is not
    /// 0, a pointer where it is not null.
    pub fn truth(self) -> Tri
        ensures { result ≡ value_truth I.numbers self }
    {
        let differs = self.num.compare(Rel::Ne, I::one(0));
        let can_hold = differs.can_hold() || (!self.pointer.bases.is_empty() || self.pointer.ended);
        let can_fail = differs.can_fail() || self.pointer.null;
        Tri::of(can_hold, can_fail)
    }

    /// A binary operator on the integers, at a type.
    pub fn arith(self, op: IntOp, other: Self, kind: IntType) -> Self
        requires left { IsNear (I.numbers.bounds self.num) }
        requires right { IsNear (I.numbers.bounds other.num) }
        requires size { is_size kind.bytes ≡ true }
        ensures { result ≡ value_arith I.lattice I.numbers op self other kind }
    {
        let leaves = ranges_leave(op, kind, self.num.bounds(), other.num.bounds());
        let labels = self.labels.operated(op, other.labels, kind, leaves);
        Value::of_number(self.num.arith(op, other.num, kind), labels)
    }

    /// A unary operator on the integers, at a type.
    pub fn unary(self, op: UnOp, kind: IntType) -> Self
        requires near { IsNear (I.numbers.bounds self.num) }
        requires size { is_size kind.bytes ≡ true }
        ensures { result ≡ value_unary I.lattice I.numbers op self kind }
    {
        let leaves = negated_leave(op, kind, self.num.bounds());
        let labels = self.labels.negated(op, kind, leaves);
        Value::of_number(self.num.unary(op, kind), labels)
    }

    /// The integers converted to a type.
    pub fn convert(self, to: IntType) -> Self
        requires near { IsNear (I.numbers.bounds self.num) }
        requires size { is_size to.bytes ≡ true }
        ensures { result ≡ value_convert I.lattice I.numbers self to }
    {
        let labels = self.labels.converted(to, range_fits(to, self.num.bounds()));
        Value::of_number(self.num.convert(to), labels)
    }
}
