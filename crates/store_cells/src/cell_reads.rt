//! What a load of a type gets from a cell.
ghost use Rattle.std.specs.Prelude.{◌≡◌, true, Some};
ghost use Rattle.cc_base.specs.IntegerDomains.{IsNear};
ghost use Rattle.cc_base.specs.IntegerTypes.{is_size};
ghost use Rattle.value_domain.specs.Values.Values.{value_lattice};
ghost use Rattle.store_cells.specs.CellReads.{same_sign, joined, joined_with, whole_range, as_read, as_stored, only_flag, byte_read};

use crate::access_windows::Window;
use crate::class_numbers::is_pointer;
use crate::scalar_types::kind_of;
use c_layout::{Class, Model};
use cc_base::{IntDomain, IntType, Lattice, between_or_bottom};
use pointer_domain::Pointers;
use value_domain::values::{Labels, Value};

/// An access of a class and a signedness that begins in a window.
#[derive(Clone, Copy)]
pub struct Access {
    pub class: Class,
    pub signed: bool,
    pub window: Window,
}

/// The join of what two places give, of which each may give nothing.
pub fn joined<I: IntDomain>(a: Option<Value<I>>, b: Option<Value<I>>) -> Option<Value<I>>
    ensures { result ≡ joined I.lattice a b }
{
    match a {
        None => b,
        Some(x) => Some(joined_with(x, b)),
    }
}

fn joined_with<I: IntDomain>(x: Value<I>, b: Option<Value<I>>) -> Value<I>
    ensures { result ≡ joined_with I.lattice x b }
{
    match b {
        None => x,
        Some(y) => x.join(y),
    }
}

/// All numbers of a type, with labels and perhaps indeterminate.
pub fn whole_range<I: IntDomain>(kind: IntType, labels: Labels, indeterminate: bool) -> Value<I>
    requires { is_size kind.bytes ≡ true }
    ensures { result ≡ whole_range I.lattice I.numbers kind labels indeterminate }
{
    Value {
        num: between_or_bottom(kind.least(), kind.greatest()),
        pointer: Pointers::bottom(),
        indeterminate,
        labels,
    }
}

/// A value whose number is another one.
fn with_number<I: IntDomain>(v: Value<I>, num: I) -> Value<I>
    ensures { result ≡ record v { num = num } }
{
    Value {
        num,
        pointer: v.pointer,
        indeterminate: v.indeterminate,
        labels: v.labels,
    }
}

/// Whether both are signed, or both are not.
pub fn same_sign(a: bool, b: bool) -> bool
    ensures { result ≡ same_sign a b }
{
    if a { b } else { !b }
}

/// The value of a cell of one signedness under the other: its numbers converted, its labels kept.
/// Pointers have no sign.
pub fn as_read<I: IntDomain>(
    model: &Model,
    value: Value<I>,
    class: Class,
    from: bool,
    to: bool,
) -> Value<I>
    requires { IsNear (I.numbers.bounds value.num) }
    ensures { result ≡ as_read I.numbers model.now value class from to }
{
    if is_pointer(class) || same_sign(from, to) {
        value
    } else {
        with_number(value, value.num.convert(kind_of(model, class, to)))
    }
}

/// A value that is stored into a cell of a signedness: its numbers converted, its labels kept. Pointers
/// have no sign.
pub fn as_stored<I: IntDomain>(model: &Model, value: Value<I>, class: Class, to: bool) -> Value<I>
    requires { IsNear (I.numbers.bounds value.num) }
    ensures { result ≡ as_stored I.numbers model.now value class to }
{
    if is_pointer(class) {
        value
    } else {
        with_number(value, value.num.convert(kind_of(model, class, to)))
    }
}

/// What a character load of a byte of a cell of another class gets: of an integer all numbers of the
/// loaded type, of a pointer too where it may be null, since the bytes of a null pointer are numbers.
pub fn byte_read<I: IntDomain>(
    model: &Model,
    value: Value<I>,
    class: Class,
    signed: bool,
) -> Value<I>
    ensures { result ≡ byte_read I.lattice I.numbers model.now value class signed }
{
    if !is_pointer(class) || value.pointer.null {
        whole_range(
            kind_of(model, Class::Char, signed),
            value.labels,
            value.indeterminate,
        )
    } else {
        only_flag(value.indeterminate)
    }
}

fn only_flag<I: IntDomain>(indeterminate: bool) -> Value<I>
    ensures { result ≡ only_flag I.lattice indeterminate }
{
    if indeterminate {
        Value::blank()
    } else {
        Value::bottom()
    }
}
