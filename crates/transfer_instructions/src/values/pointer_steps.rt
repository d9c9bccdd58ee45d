//! Instructions that make pointers, move them and compare them.
ghost use Rattle.std.specs.Prelude.{◌≡◌, ◌≤◌, ◌<◌, true, false, Some, None, length};
ghost use Rattle.cc_base.specs.IntegerDomains.{IsNear};
ghost use Rattle.pointer_domain.specs.PointerTables.{IsNearPointer, longest};
ghost use Rattle.transfer_instructions.specs.Values.PointerSteps.{is_short, address_of, address_step, touch_part, narrow_violations, narrow_touched, narrow_step, backwards_by, signed_amount, shift_checks, put_moved, shift_by, shift_step, compare_both, comparison_violations, equality_violations, has_difference, difference_of, difference_step, ordered, equality, relation, relation_step};

use crate::values::result_temps::{negated, put_number, put_pointer, put_truth};
use c_layout::Class;
use cc_base::{IntDomain, Rel, Tri, of_range, range_difference};
use cfg::{Amount, Flow};
use pointer_domain::Pointers;
use store::{kind_of, near_number, only_base, single_bases};
use transfer_checks::{
    Compared, Touched, Violations, amount_value, check_same_instance, shift_violations, temp_value,
    touch,
};
use value_domain::values::{Cell, Labels, Value};

/// The most bytes of an object, and the greatest offset.
pub const LONGEST: u64 = 1_073_741_824;

/// Whether it is an offset or a size of some object.
fn is_short(n: u64) -> bool
    ensures value { result ≡ is_short n }
    ensures short { result ≡ true → n ≤ longest }
{
    n <= LONGEST
}

/// A pointer to a byte at an offset of a base of a size.
fn address_of<I: IntDomain>(base: u32, offset: u64, size: u64) -> Pointers<I>
    ensures { result ≡ address_of I.numbers base offset size }
{
    Pointers {
        bases: only_base(base as usize),
        lo: I::one(0),
        rel: I::one(offset as i128),
        len: I::one(size as i128),
        part: false,
        null: false,
        ended: false,
    }
}

/// The address of a byte of an object or a literal.
#[tactic(auto, unfolding(crate::specs::Values::PointerSteps::address_step))]
pub fn address_step<I: IntDomain>(
    flow: &Flow,
    row: &mut [Cell<I>],
    to_temp: u32,
    base: u32,
    offset: u64,
) -> bool
    ensures length { length row.new ≡ length row.old }
    ensures reached { result ≡ true → address_step I.lattice I.numbers flow.now row.old to_temp base offset ≡ Some row.new }
    ensures unreached { result ≡ false → address_step I.lattice I.numbers flow.now row.old to_temp base offset ≡ None }
{
    match flow.bases.get(base as usize) {
        None => false,
        Some(info) => put_pointer(flow, row, to_temp, address_of(base, offset, info.size)),
    }
}

/// The touch of the bytes of a part.
fn touch_part<I: IntDomain>(
    flow: &Flow,
    row: &[Cell<I>],
    pointer: u32,
    offset: u64,
    size: u64,
) -> Touched<I>
    requires offset { offset ≤ longest }
    requires size { size ≤ longest }
    ensures near { IsNearPointer I.numbers result.rest }
    ensures value { result ≡ touch_part I.lattice I.numbers flow.now row.now pointer offset size }
{
    let at = temp_value(flow, row, pointer).pointer;
    touch(flow.bases.as_slice(), row, at, offset, size, false)
}

/// What a narrowing may violate.
pub fn narrow_violations<I: IntDomain>(
    flow: &Flow,
    row: &[Cell<I>],
    pointer: u32,
    offset: u64,
    size: u64,
) -> Violations
    ensures { result ≡ narrow_violations I.lattice I.numbers flow.now row.now pointer offset size }
{
    if is_short(offset) {
        if is_short(size) {
            touch_part(flow, row, pointer, offset, size).violations
        } else {
            Violations::none()
        }
    } else {
        Violations::none()
    }
}

/// A narrowing of the pointers that the touch of the part left.
#[tactic(auto, unfolding(crate::specs::Values::PointerSteps::narrow_touched))]
fn narrow_touched<I: IntDomain>(
    flow: &Flow,
    row: &mut [Cell<I>],
    to_temp: u32,
    rest: Pointers<I>,
    offset: u64,
    size: u64,
) -> bool
    requires rest { IsNearPointer I.numbers rest }
    requires offset { offset ≤ longest }
    requires size { size ≤ longest }
    ensures length { length row.new ≡ length row.old }
    ensures reached { result ≡ true → narrow_touched I.lattice I.numbers flow.now row.old to_temp rest offset size ≡ Some row.new }
    ensures unreached { result ≡ false → narrow_touched I.lattice I.numbers flow.now row.old to_temp rest offset size ≡ None }
{
    put_pointer(flow, row, to_temp, rest.narrow(offset, size))
}

/// A narrowing to a member or an array.
#[tactic(auto, unfolding(crate::specs::Values::PointerSteps::narrow_step))]
pub fn narrow_step<I: IntDomain>(
    flow: &Flow,
    row: &mut [Cell<I>],
    to_temp: u32,
    pointer: u32,
    offset: u64,
    size: u64,
) -> bool
    ensures length { length row.new ≡ length row.old }
    ensures reached { result ≡ true → narrow_step I.lattice I.numbers flow.now row.old to_temp pointer offset size ≡ Some row.new }
    ensures unreached { result ≡ false → narrow_step I.lattice I.numbers flow.now row.old to_temp pointer offset size ≡ None }
{
    if is_short(offset) {
        if is_short(size) {
            let touched = touch_part(flow, row, pointer, offset, size);
            narrow_touched(flow, row, to_temp, touched.rest, offset, size)
        } else {
            false
        }
    } else {
        false
    }
}

/// The numbers from 0 backwards.
fn backwards_by<I: IntDomain>(amount: I) -> I
    requires { IsNear (I.numbers.bounds amount) }
    ensures near { IsNear (I.numbers.bounds result) }
    ensures value { result ≡ backwards_by I.lattice I.numbers amount }
{
    near_number(of_range(range_difference(Some((0, 0)), amount.bounds())))
}

/// The number by which a pointer is moved, with its sign.
fn signed_amount<I: IntDomain>(amount: I, backwards: bool) -> I
    requires { IsNear (I.numbers.bounds amount) }
    ensures near { IsNear (I.numbers.bounds result) }
    ensures value { result ≡ signed_amount I.lattice I.numbers amount backwards }
{
    if backwards {
        backwards_by(amount)
    } else {
        amount
    }
}

/// What the move of a pointer may violate.
pub fn shift_checks<I: IntDomain>(
    flow: &Flow,
    row: &[Cell<I>],
    pointer: u32,
    amount: Amount,
    scale: u64,
    backwards: bool,
) -> Violations
    ensures { result ≡ shift_checks I.lattice I.numbers flow.now row.now pointer amount scale backwards }
{
    if is_short(scale) {
        let at = temp_value(flow, row, pointer).pointer;
        let by = amount_value(flow, row, amount);
        shift_violations(at, signed_amount(by.num, backwards), by.labels, scale)
    } else {
        Violations::none()
    }
}

/// Keeps a moved pointer; false where it is nowhere.
#[tactic(auto, unfolding(crate::specs::Values::PointerSteps::put_moved))]
fn put_moved<I: IntDomain>(
    flow: &Flow,
    row: &mut [Cell<I>],
    to_temp: u32,
    moved: Pointers<I>,
) -> bool
    ensures length { length row.new ≡ length row.old }
    ensures reached { result ≡ true → put_moved I.lattice flow.now row.old to_temp moved ≡ Some row.new }
    ensures unreached { result ≡ false → put_moved I.lattice flow.now row.old to_temp moved ≡ None }
{
    if moved.bases.is_empty() {
        false
    } else {
        put_pointer(flow, row, to_temp, moved)
    }
}

/// The move of a pointer by an amount of elements.
#[tactic(auto, unfolding(crate::specs::Values::PointerSteps::shift_by))]
fn shift_by<I: IntDomain>(
    flow: &Flow,
    row: &mut [Cell<I>],
    to_temp: u32,
    at: Pointers<I>,
    by: I,
    scale: u64,
) -> bool
    requires at { IsNearPointer I.numbers at }
    requires by { IsNear (I.numbers.bounds by) }
    requires scale { scale ≤ longest }
    ensures length { length row.new ≡ length row.old }
    ensures reached { result ≡ true → shift_by I.lattice I.numbers flow.now row.old to_temp at by scale ≡ Some row.new }
    ensures unreached { result ≡ false → shift_by I.lattice I.numbers flow.now row.old to_temp at by scale ≡ None }
{
    put_moved(flow, row, to_temp, at.shift(by, scale))
}

/// The move of a pointer by elements of a size.
#[tactic(auto, unfolding(crate::specs::Values::PointerSteps::shift_step))]
pub fn shift_step<I: IntDomain>(
    flow: &Flow,
    row: &mut [Cell<I>],
    to_temp: u32,
    pointer: u32,
    amount: Amount,
    scale: u64,
    backwards: bool,
) -> bool
    ensures length { length row.new ≡ length row.old }
    ensures reached { result ≡ true → shift_step I.lattice I.numbers flow.now row.old to_temp pointer amount scale backwards ≡ Some row.new }
    ensures unreached { result ≡ false → shift_step I.lattice I.numbers flow.now row.old to_temp pointer amount scale backwards ≡ None }
{
    if is_short(scale) {
        let at = temp_value(flow, row, pointer).pointer;
        let by = signed_amount(amount_value(flow, row, amount).num, backwards);
        shift_by(flow, row, to_temp, at, by, scale)
    } else {
        false
    }
}

/// The checks of two pointers that are subtracted or ordered.
fn compare_both<I: IntDomain>(flow: &Flow, left: Pointers<I>, right: Pointers<I>) -> Compared
    ensures { result ≡ compare_both flow.now left right }
{
    check_same_instance(left, right, single_bases(flow.bases.as_slice()))
}

/// What the difference or the order of two pointers may violate.
pub fn comparison_violations<I: IntDomain>(
    flow: &Flow,
    row: &[Cell<I>],
    left: u32,
    right: u32,
) -> Violations
    ensures { result ≡ comparison_violations I.lattice I.numbers flow.now row.now left right }
{
    let left = temp_value(flow, row, left).pointer;
    let right = temp_value(flow, row, right).pointer;
    compare_both(flow, left, right).violations
}

/// What the equality of two pointers may violate.
pub fn equality_violations<I: IntDomain>(
    flow: &Flow,
    row: &[Cell<I>],
    left: u32,
    right: u32,
) -> Violations
    ensures { result ≡ equality_violations I.lattice I.numbers flow.now row.now left right }
{
    let left = temp_value(flow, row, left).pointer;
    let right = temp_value(flow, row, right).pointer;
    let mut found = Violations::none();
    found.nullref = left.ended || right.ended;
    found
}

/// Whether two pointers have a difference in elements of the size.
fn has_difference<I: IntDomain>(
    flow: &Flow,
    left: Pointers<I>,
    right: Pointers<I>,
    size: u64,
) -> bool
    ensures { result ≡ has_difference flow.now left right size }
{
    size != 0 && compare_both(flow, left, right).goes_on
}

/// The difference of two pointers in elements of a size, a number of ptrdiff_t.
fn difference_of<I: IntDomain>(
    flow: &Flow,
    left: Pointers<I>,
    right: Pointers<I>,
    size: u64,
) -> Value<I>
    requires left { IsNearPointer I.numbers left }
    requires right { IsNearPointer I.numbers right }
    requires size { 0 < size }
    ensures { result ≡ difference_of I.lattice I.numbers flow.now left right size }
{
    let kind = kind_of(&flow.model, Class::Pointer, true);
    Value::of_number(left.difference(right, size, kind), Labels::none())
}

/// The difference of two pointers in elements of a size.
#[tactic(auto, unfolding(crate::specs::Values::PointerSteps::difference_step))]
pub fn difference_step<I: IntDomain>(
    flow: &Flow,
    row: &mut [Cell<I>],
    to_temp: u32,
    left: u32,
    right: u32,
    size: u64,
) -> bool
    ensures length { length row.new ≡ length row.old }
    ensures reached { result ≡ true → difference_step I.lattice I.numbers flow.now row.old to_temp left right size ≡ Some row.new }
    ensures unreached { result ≡ false → difference_step I.lattice I.numbers flow.now row.old to_temp left right size ≡ None }
{
    let left = temp_value(flow, row, left).pointer;
    let right = temp_value(flow, row, right).pointer;
    if has_difference(flow, left, right, size) {
        put_number(flow, row, to_temp, difference_of(flow, left, right, size))
    } else {
        false
    }
}

/// Which truth values an equality of two pointers can have.
fn equality<I: IntDomain>(flow: &Flow, left: Pointers<I>, right: Pointers<I>) -> Tri
    requires left { IsNearPointer I.numbers left }
    requires right { IsNearPointer I.numbers right }
    ensures { result ≡ equality I.numbers flow.now left right }
{
    left.equal(right, single_bases(flow.bases.as_slice()))
}

/// Which truth values an order of two pointers can have.
fn ordered<I: IntDomain>(flow: &Flow, rel: Rel, left: Pointers<I>, right: Pointers<I>) -> Tri
    requires left { IsNearPointer I.numbers left }
    requires right { IsNearPointer I.numbers right }
    ensures { result ≡ ordered I.lattice I.numbers flow.now rel left right }
{
    if compare_both(flow, left, right).goes_on {
        left.compare(rel, right)
    } else {
        Tri::Never
    }
}

/// Which truth values a relation of two pointers can have.
fn relation<I: IntDomain>(flow: &Flow, rel: Rel, left: Pointers<I>, right: Pointers<I>) -> Tri
    requires left { IsNearPointer I.numbers left }
    requires right { IsNearPointer I.numbers right }
    ensures { result ≡ relation I.lattice I.numbers flow.now rel left right }
{
    match rel {
        Rel::Eq => equality(flow, left, right),
        Rel::Ne => negated(equality(flow, left, right)),
        Rel::Lt => ordered(flow, Rel::Lt, left, right),
        Rel::Le => ordered(flow, Rel::Le, left, right),
        Rel::Gt => ordered(flow, Rel::Gt, left, right),
        Rel::Ge => ordered(flow, Rel::Ge, left, right),
    }
}

/// A relation of two pointers.
#[tactic(auto, unfolding(crate::specs::Values::PointerSteps::relation_step))]
pub fn relation_step<I: IntDomain>(
    flow: &Flow,
    row: &mut [Cell<I>],
    to_temp: u32,
    rel: Rel,
    left: u32,
    right: u32,
) -> bool
    ensures length { length row.new ≡ length row.old }
    ensures reached { result ≡ true → relation_step I.lattice I.numbers flow.now row.old to_temp rel left right ≡ Some row.new }
    ensures unreached { result ≡ false → relation_step I.lattice I.numbers flow.now row.old to_temp rel left right ≡ None }
{
    let left = temp_value(flow, row, left).pointer;
    let right = temp_value(flow, row, right).pointer;
    put_truth(flow, row, to_temp, relation(flow, rel, left, right))
}
