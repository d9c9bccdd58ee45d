//! What a test on an edge tells of the objects that it names.
ghost use Rattle.std.specs.Prelude.{◌≡◌, true, false, Some, None, length};
ghost use Rattle.cc_base.specs.IntegerDomains.{IsNear};
ghost use Rattle.pointer_domain.specs.PointerTables.{IsNearPointer};
ghost use Rattle.value_domain.specs.Values.Values.{value_lattice};
ghost use Rattle.store_cells.specs.NearValues.{near_value};
ghost use Rattle.transfer_edges.specs.Refinements.{object_position, number_side, side_value, mirrored, fits, refined_number, refined_labels, refined, met_number, common_labels, met, put_at, put_side, is_object, is_same_object, has_number, refine_one, refine_two, refine_sides, refine_values, refine_integers, only_null, not_null, tested_pointer, tested_value, refine_pointer, if_null, named_by, refine_named, refine, labelled_number, with_number, put_case, refine_value, refine_case_at, refine_case};

use cc_base::{IntDomain, IntType, Lattice, Rel, of_range, range_met};
use cfg::{Flow, Side, Test};
use pointer_domain::{Bases, Pointers};
use store::{leaf_position, near_value, put_value, value_at};
use transfer_instructions::values::is_sized;
use value_domain::values::{Cell, Labels, Value, range_fits};

/// The position of the scalar at the start of a base.
fn object_position(flow: &Flow, base: u32) -> Option<usize>
    ensures { result ≡ object_position flow.now base }
{
    match flow.bases.get(base as usize) {
        None => None,
        Some(info) => Some(leaf_position(info, 0)),
    }
}

/// The value of a side that is a number, without labels.
fn number_side<I: IntDomain>(n: i128) -> Value<I>
    ensures number { IsNear (I.numbers.bounds result.num) }
    ensures pointer { IsNearPointer I.numbers result.pointer }
    ensures value { result ≡ number_side I.lattice I.numbers n }
{
    near_value(Value::of_number(I::one(n), Labels::none()))
}

/// The value of a side that has none.
fn no_value<I: IntDomain>() -> Value<I>
    ensures number { IsNear (I.numbers.bounds result.num) }
    ensures pointer { IsNearPointer I.numbers result.pointer }
    ensures value { result ≡ near_value I.lattice I.numbers (value_lattice I.lattice).least }
{
    near_value(Value::bottom())
}

/// A side of a test as a value: that of an object, or a number without labels.
fn side_value<I: IntDomain>(flow: &Flow, row: &[Cell<I>], side: Side) -> Value<I>
    ensures number { IsNear (I.numbers.bounds result.num) }
    ensures pointer { IsNearPointer I.numbers result.pointer }
    ensures value { result ≡ side_value I.lattice I.numbers flow.now row.now side }
{
    match side {
        Side::Number(n) => number_side(n),
        Side::Null => no_value(),
        Side::Object(base, _) => match object_position(flow, base) {
            None => no_value(),
            Some(at) => value_at(row, at),
        },
    }
}

/// The relation seen from the other side.
fn mirrored(rel: Rel) -> Rel
    ensures { result ≡ mirrored rel }
{
    match rel {
        Rel::Lt => Rel::Gt,
        Rel::Le => Rel::Ge,
        Rel::Gt => Rel::Lt,
        Rel::Ge => Rel::Le,
        Rel::Eq => Rel::Eq,
        Rel::Ne => Rel::Ne,
    }
}

/// Whether every number is one of the type.
fn fits<I: IntDomain>(kind: IntType, x: I) -> bool
    ensures { result ≡ fits I.numbers kind x }
{
    is_sized(kind) && range_fits(kind, x.bounds())
}

/// The numbers of a side where the relation to the other one holds, in a common type: refined where no
/// conversion to that type changes a number.
fn refined_number<I: IntDomain>(this: I, rel: Rel, other: I, common: IntType) -> I
    requires this { IsNear (I.numbers.bounds this) }
    requires other { IsNear (I.numbers.bounds other) }
    ensures { result ≡ refined_number I.numbers this rel other common }
{
    if fits(common, this) && fits(common, other) {
        this.refine(rel, other)
    } else {
        this
    }
}

/// The labels of a side where the relation holds: some are dropped where the other one has none.
fn refined_labels(this: Labels, rel: Rel, other: Labels, common: IntType) -> Labels
    ensures { result ≡ refined_labels this rel other common }
{
    if other.is_empty() {
        this.dropped(rel, common)
    } else {
        this
    }
}

/// The first side of a test on integers as it is known where the relation to the other one holds.
fn refined<I: IntDomain>(this: Value<I>, rel: Rel, other: Value<I>, common: IntType) -> Value<I>
    requires this { IsNear (I.numbers.bounds this.num) }
    requires other { IsNear (I.numbers.bounds other.num) }
    ensures { result ≡ refined I.numbers this rel other common }
{
    Value {
        num: refined_number(this.num, rel, other.num, common),
        pointer: this.pointer,
        indeterminate: this.indeterminate,
        labels: refined_labels(this.labels, rel, other.labels, common),
    }
}

/// The numbers that lie within a range too.
fn met_number<I: IntDomain>(x: I, range: Option<(i128, i128)>) -> I
    ensures { result ≡ met_number I.lattice I.numbers x range }
{
    match range {
        None => I::bottom(),
        Some((lo, hi)) => of_range(range_met(x.bounds(), lo, hi)),
    }
}

fn common_labels(x: Labels, y: Labels) -> Labels
    ensures { result ≡ common_labels x y }
{
    Labels {
        lo: x.lo && y.lo,
        hi: x.hi && y.hi,
        mutated: x.mutated && y.mutated,
    }
}

/// The numbers of both values, and the labels of both.
fn met<I: IntDomain>(x: Value<I>, y: Value<I>) -> Value<I>
    ensures { result ≡ met I.lattice I.numbers x y }
{
    Value {
        num: met_number(x.num, y.num.bounds()),
        pointer: x.pointer,
        indeterminate: x.indeterminate,
        labels: common_labels(x.labels, y.labels),
    }
}

/// Keeps what is known of an object.
#[tactic(auto, unfolding(crate::specs::Refinements::put_at))]
fn put_object<I: IntDomain>(flow: &Flow, row: &mut [Cell<I>], base: u32, value: Value<I>)
    ensures length { length row.new ≡ length row.old }
    ensures row { row.new ≡ put_at (object_position flow.now base) value row.old }
{
    match object_position(flow, base) {
        None => {}
        Some(at) => put_value(row, at, value),
    }
}

/// Keeps what is known of a side.
#[tactic(auto, unfolding(crate::specs::Refinements::put_side))]
fn put_side<I: IntDomain>(flow: &Flow, row: &mut [Cell<I>], side: Side, value: Value<I>)
    ensures length { length row.new ≡ length row.old }
    ensures row { row.new ≡ put_side flow.now side value row.old }
{
    match side {
        Side::Object(base, _) => put_object(flow, row, base, value),
        Side::Number(_) => {}
        Side::Null => {}
    }
}

fn is_object(base: u32, side: Side) -> bool
    ensures { result ≡ is_object base side }
{
    match side {
        Side::Object(other, _) => base == other,
        Side::Number(_) => false,
        Side::Null => false,
    }
}

fn is_same_object(left: Side, right: Side) -> bool
    ensures { result ≡ is_same_object left right }
{
    match left {
        Side::Object(base, _) => is_object(base, right),
        Side::Number(_) => false,
        Side::Null => false,
    }
}

fn has_number<I: IntDomain>(value: Value<I>) -> bool
    ensures { result ≡ has_number I.numbers value }
{
    value.num.bounds().is_some()
}

/// Keeps what is known of the object of both sides; false where it has no number left.
#[tactic(auto, unfolding(crate::specs::Refinements::refine_one))]
fn refine_one<I: IntDomain>(flow: &Flow, row: &mut [Cell<I>], side: Side, value: Value<I>) -> bool
    ensures length { length row.new ≡ length row.old }
    ensures reached { result ≡ true → refine_one I.numbers flow.now side value row.old ≡ Some row.new }
    ensures unreached { result ≡ false → refine_one I.numbers flow.now side value row.old ≡ None }
{
    if has_number(value) {
        put_side(flow, row, side, value);
        true
    } else {
        false
    }
}

/// Keeps what is known of both sides; false where one has no number left.
#[tactic(auto, unfolding(crate::specs::Refinements::refine_two))]
fn refine_two<I: IntDomain>(
    flow: &Flow,
    row: &mut [Cell<I>],
    test: Test,
    left: Value<I>,
    right: Value<I>,
) -> bool
    ensures length { length row.new ≡ length row.old }
    ensures reached { result ≡ true → refine_two I.numbers flow.now test left right row.old ≡ Some row.new }
    ensures unreached { result ≡ false → refine_two I.numbers flow.now test left right row.old ≡ None }
{
    if has_number(left) && has_number(right) {
        put_side(flow, row, test.left, left);
        put_side(flow, row, test.right, right);
        true
    } else {
        false
    }
}

/// Keeps what is known of the sides behind the test; false where one has no number left.
#[tactic(auto, unfolding(crate::specs::Refinements::refine_sides))]
fn refine_sides<I: IntDomain>(
    flow: &Flow,
    row: &mut [Cell<I>],
    test: Test,
    left: Value<I>,
    right: Value<I>,
) -> bool
    ensures length { length row.new ≡ length row.old }
    ensures reached { result ≡ true → refine_sides I.lattice I.numbers flow.now test left right row.old ≡ Some row.new }
    ensures unreached { result ≡ false → refine_sides I.lattice I.numbers flow.now test left right row.old ≡ None }
{
    if is_same_object(test.left, test.right) {
        refine_one(flow, row, test.left, met(left, right))
    } else {
        refine_two(flow, row, test, left, right)
    }
}

/// The row where the test on two values holds; false where no run has it.
#[tactic(auto, unfolding(crate::specs::Refinements::refine_values))]
fn refine_values<I: IntDomain>(
    flow: &Flow,
    row: &mut [Cell<I>],
    test: Test,
    common: IntType,
    left: Value<I>,
    right: Value<I>,
) -> bool
    requires left { IsNear (I.numbers.bounds left.num) }
    requires right { IsNear (I.numbers.bounds right.num) }
    ensures length { length row.new ≡ length row.old }
    ensures reached { result ≡ true → refine_values I.lattice I.numbers flow.now test common left right row.old ≡ Some row.new }
    ensures unreached { result ≡ false → refine_values I.lattice I.numbers flow.now test common left right row.old ≡ None }
{
    let new_left = refined(left, test.rel, right, common);
    let new_right = refined(right, mirrored(test.rel), left, common);
    refine_sides(flow, row, test, new_left, new_right)
}

/// The row where the test on integers holds; false where no number is left.
#[tactic(auto, unfolding(crate::specs::Refinements::refine_integers))]
fn refine_integers<I: IntDomain>(
    flow: &Flow,
    row: &mut [Cell<I>],
    test: Test,
    common: IntType,
) -> bool
    ensures length { length row.new ≡ length row.old }
    ensures reached { result ≡ true → refine_integers I.lattice I.numbers flow.now test common row.old ≡ Some row.new }
    ensures unreached { result ≡ false → refine_integers I.lattice I.numbers flow.now test common row.old ≡ None }
{
    let left = side_value(flow, row, test.left);
    let right = side_value(flow, row, test.right);
    refine_values(flow, row, test, common, left, right)
}

/// The pointers that are null.
fn only_null<I: IntDomain>(p: Pointers<I>) -> Pointers<I>
    ensures { result ≡ only_null I.lattice p }
{
    Pointers {
        bases: Bases::empty(),
        lo: I::bottom(),
        rel: I::bottom(),
        len: I::bottom(),
        part: false,
        null: p.null,
        ended: false,
    }
}

/// The pointers that are not null.
fn not_null<I: IntDomain>(p: Pointers<I>) -> Pointers<I>
    ensures { result ≡ not_null p }
{
    Pointers {
        bases: p.bases,
        lo: p.lo,
        rel: p.rel,
        len: p.len,
        part: p.part,
        null: false,
        ended: p.ended,
    }
}

/// The pointers that have the relation to a null constant.
fn tested_pointer<I: IntDomain>(p: Pointers<I>, rel: Rel) -> Pointers<I>
    ensures { result ≡ tested_pointer I.lattice p rel }
{
    match rel {
        Rel::Eq => only_null(p),
        Rel::Ne => not_null(p),
        Rel::Lt => p,
        Rel::Le => p,
        Rel::Gt => p,
        Rel::Ge => p,
    }
}

/// A value whose pointer has the relation to a null constant.
fn tested_value<I: IntDomain>(value: Value<I>, rel: Rel) -> Value<I>
    ensures { result ≡ tested_value I.lattice value rel }
{
    Value {
        num: value.num,
        pointer: tested_pointer(value.pointer, rel),
        indeterminate: value.indeterminate,
        labels: value.labels,
    }
}

/// The row where a named pointer equals a null constant, or does not.
#[tactic(auto, unfolding(crate::specs::Refinements::refine_pointer))]
fn refine_pointer<I: IntDomain>(flow: &Flow, row: &mut [Cell<I>], base: u32, rel: Rel)
    ensures length { length row.new ≡ length row.old }
    ensures row { row.new ≡ refine_pointer I.lattice I.numbers flow.now base rel row.old }
{
    match object_position(flow, base) {
        None => {}
        Some(at) => {
            let value = value_at(row, at);
            put_value(row, at, tested_value(value, rel));
        }
    }
}

fn if_null(base: u32, side: Side) -> Option<u32>
    ensures { result ≡ if_null base side }
{
    match side {
        Side::Null => Some(base),
        Side::Object(_, _) => None,
        Side::Number(_) => None,
    }
}

/// The object of a test of a pointer against a null constant.
fn named_by(left: Side, right: Side) -> Option<u32>
    ensures { result ≡ named_by left right }
{
    match left {
        Side::Object(base, _) => if_null(base, right),
        Side::Number(_) => None,
        Side::Null => None,
    }
}

/// The row where a test on pointers holds, as far as it tells of a named one.
#[tactic(auto, unfolding(crate::specs::Refinements::refine_named))]
fn refine_named<I: IntDomain>(flow: &Flow, row: &mut [Cell<I>], named: Option<u32>, rel: Rel)
    ensures length { length row.new ≡ length row.old }
    ensures row { row.new ≡ refine_named I.lattice I.numbers flow.now named rel row.old }
{
    match named {
        None => {}
        Some(base) => refine_pointer(flow, row, base, rel),
    }
}

/// The row where the test holds; false where no run has it.
#[tactic(auto, unfolding(crate::specs::Refinements::refine))]
pub fn refine<I: IntDomain>(flow: &Flow, row: &mut [Cell<I>], test: Test) -> bool
    ensures length { length row.new ≡ length row.old }
    ensures reached { result ≡ true → refine I.lattice I.numbers flow.now test row.old ≡ Some row.new }
    ensures unreached { result ≡ false → refine I.lattice I.numbers flow.now test row.old ≡ None }
{
    match test.common {
        Some(common) => refine_integers(flow, row, test, common),
        None => {
            refine_named(flow, row, named_by(test.left, test.right), test.rel);
            true
        }
    }
}

/// The numbers of a value that equal a label.
fn labelled_number<I: IntDomain>(value: Value<I>, number: i128) -> I
    ensures { result ≡ labelled_number I.lattice I.numbers value number }
{
    of_range(range_met(value.num.bounds(), number, number))
}

/// A value with these numbers, without labels.
fn with_number<I: IntDomain>(value: Value<I>, num: I) -> Value<I>
    ensures { result ≡ with_number value num }
{
    Value {
        num,
        pointer: value.pointer,
        indeterminate: value.indeterminate,
        labels: Labels::none(),
    }
}

/// Keeps the numbers of an object that equal a label; false where there is none.
#[tactic(auto, unfolding(crate::specs::Refinements::put_case))]
fn put_case<I: IntDomain>(row: &mut [Cell<I>], at: usize, value: Value<I>, num: I) -> bool
    ensures length { length row.new ≡ length row.old }
    ensures reached { result ≡ true → put_case I.numbers at value num row.old ≡ Some row.new }
    ensures unreached { result ≡ false → put_case I.numbers at value num row.old ≡ None }
{
    if num.bounds().is_some() {
        put_value(row, at, with_number(value, num));
        true
    } else {
        false
    }
}

/// Keeps those numbers of a value that equal a label; false where there is none.
#[tactic(auto, unfolding(crate::specs::Refinements::refine_value))]
fn refine_value<I: IntDomain>(row: &mut [Cell<I>], at: usize, value: Value<I>, number: i128) -> bool
    ensures length { length row.new ≡ length row.old }
    ensures reached { result ≡ true → refine_value I.lattice I.numbers at value number row.old ≡ Some row.new }
    ensures unreached { result ≡ false → refine_value I.lattice I.numbers at value number row.old ≡ None }
{
    put_case(row, at, value, labelled_number(value, number))
}

/// The row where the value at a position, where there is one, equals a label; false where it cannot.
fn refine_case_at<I: IntDomain>(row: &mut [Cell<I>], at: Option<usize>, number: i128) -> bool
    ensures length { length row.new ≡ length row.old }
    ensures reached { result ≡ true → refine_case_at I.lattice I.numbers at number row.old ≡ Some row.new }
    ensures unreached { result ≡ false → refine_case_at I.lattice I.numbers at number row.old ≡ None }
{
    match at {
        None => true,
        Some(at) => refine_value(row, at, value_at(row, at), number),
    }
}

/// The row where the object that is switched on has a label's value, without labels; false where it
/// cannot have it.
#[tactic(auto, unfolding(crate::specs::Refinements::refine_case))]
pub fn refine_case<I: IntDomain>(flow: &Flow, row: &mut [Cell<I>], base: u32, number: i128) -> bool
    ensures length { length row.new ≡ length row.old }
    ensures reached { result ≡ true → refine_case I.lattice I.numbers flow.now base number row.old ≡ Some row.new }
    ensures unreached { result ≡ false → refine_case I.lattice I.numbers flow.now base number row.old ≡ None }
{
    refine_case_at(row, object_position(flow, base), number)
}
