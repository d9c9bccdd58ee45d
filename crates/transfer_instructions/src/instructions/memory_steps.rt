//! Instructions that read or write memory.
ghost use Rattle.std.specs.Prelude.{◌≡◌, ◌≤◌, true, false, Some, None, length};
ghost use Rattle.cc_base.specs.IntegerDomains.{IsNear};
ghost use Rattle.pointer_domain.specs.PointerTables.{IsNearPointer, longest};
ghost use Rattle.c_layout.specs.StructViews.{structs_view};
ghost use Rattle.store_structs.specs.StructCopies.{reached_row};
ghost use Rattle.transfer_instructions.specs.Instructions.MemorySteps.{touch_scalar, loaded, is_blank, is_freed, blank_or_freed, read_violations, load_violations, put_read, load_step, move_temp, store_violations, store_to, store_step, struct_size, touch_struct, copy_violations, copy_touched, copy_between, copy_step};

use crate::values::{LONGEST, class_of, minds_blank, put_number, put_pointer};
use c_layout::Class;
use cc_base::IntDomain;
use cfg::{Flow, Scalar};
use pointer_domain::Pointers;
use store::{any_freed, bytes_of, is_pointer, load, store};
use store_structs::{StructCopy, copy_struct};
use transfer_checks::{Touched, Violations, put_temp, temp_value, touch};
use value_domain::values::{Cell, Value};

/// The touch of a scalar.
fn touch_scalar<I: IntDomain>(
    flow: &Flow,
    row: &[Cell<I>],
    pointer: u32,
    scalar: Scalar,
    write: bool,
) -> Touched<I>
    ensures near { IsNearPointer I.numbers result.rest }
    ensures value { result ≡ touch_scalar I.lattice I.numbers flow.now row.now pointer scalar write }
{
    let (class, _) = class_of(scalar);
    let size = bytes_of(&flow.model, class);
    let at = temp_value(flow, row, pointer).pointer;
    touch(flow.bases.as_slice(), row, at, 0, size, write)
}

/// What the load of a scalar gives at the places that its touch left.
fn loaded<I: IntDomain>(
    flow: &Flow,
    row: &[Cell<I>],
    rest: Pointers<I>,
    scalar: Scalar,
) -> Option<Value<I>>
    requires { IsNearPointer I.numbers rest }
    ensures { result ≡ loaded I.lattice I.numbers flow.now row.now rest scalar }
{
    let (class, signed) = class_of(scalar);
    let bases = flow.bases.as_slice();
    load(&flow.model, bases, row, rest, class, signed)
}

/// Whether a byte of a value that is read is indeterminate, and may not be.
fn is_blank<I: IntDomain>(class: Class, signed: bool, value: Value<I>) -> bool
    ensures { result ≡ is_blank class signed value }
{
    value.indeterminate && minds_blank(class, signed)
}

/// Whether a value that is read is a pointer into an instance that may be freed.
fn is_freed<I: IntDomain>(flow: &Flow, row: &[Cell<I>], class: Class, value: Value<I>) -> bool
    ensures { result ≡ is_freed I.lattice I.numbers flow.now row.now class value }
{
    is_pointer(class) && any_freed(flow.bases.as_slice(), row, value.pointer.bases)
}

/// What a value that is read may violate: a byte of it is indeterminate, or it is a pointer into an
/// instance that may be freed.
fn blank_or_freed<I: IntDomain>(
    flow: &Flow,
    row: &[Cell<I>],
    class: Class,
    signed: bool,
    value: Value<I>,
) -> Violations
    ensures { result ≡ blank_or_freed I.lattice I.numbers flow.now row.now class signed value }
{
    let mut found = Violations::none();
    found.uninitref = is_blank(class, signed, value);
    found.accfree = is_freed(flow, row, class, value);
    found
}

/// What a value that is read may violate, where there is one.
fn read_violations<I: IntDomain>(
    flow: &Flow,
    row: &[Cell<I>],
    scalar: Scalar,
    value: Option<Value<I>>,
) -> Violations
    ensures { result ≡ read_violations I.lattice I.numbers flow.now row.now scalar value }
{
    match value {
        None => Violations::none(),
        Some(value) => {
            let (class, signed) = class_of(scalar);
            blank_or_freed(flow, row, class, signed, value)
        }
    }
}

/// What a load may violate.
pub fn load_violations<I: IntDomain>(
    flow: &Flow,
    row: &[Cell<I>],
    pointer: u32,
    scalar: Scalar,
) -> Violations
    ensures { result ≡ load_violations I.lattice I.numbers flow.now row.now pointer scalar }
{
    let touched = touch_scalar(flow, row, pointer, scalar, false);
    let value = loaded(flow, row, touched.rest, scalar);
    touched
        .violations
        .union(read_violations(flow, row, scalar, value))
}

/// Keeps what was read, determinate; false where nothing was.
#[tactic(auto, unfolding(crate::specs::Instructions::MemorySteps::put_read))]
fn put_read<I: IntDomain>(
    flow: &Flow,
    row: &mut [Cell<I>],
    to_temp: u32,
    scalar: Scalar,
    value: Value<I>,
) -> bool
    ensures length { length row.new ≡ length row.old }
    ensures reached { result ≡ true → put_read I.lattice I.numbers flow.now row.old to_temp scalar value ≡ Some row.new }
    ensures unreached { result ≡ false → put_read I.lattice I.numbers flow.now row.old to_temp scalar value ≡ None }
{
    match scalar {
        Scalar::Pointer => put_pointer(flow, row, to_temp, value.pointer),
        Scalar::Int(_) => {
            let number = Value::of_number(value.num, value.labels);
            put_number(flow, row, to_temp, number)
        }
    }
}

/// A load.
#[tactic(auto, unfolding(crate::specs::Instructions::MemorySteps::load_step))]
pub fn load_step<I: IntDomain>(
    flow: &Flow,
    row: &mut [Cell<I>],
    to_temp: u32,
    pointer: u32,
    scalar: Scalar,
) -> bool
    ensures length { length row.new ≡ length row.old }
    ensures reached { result ≡ true → load_step I.lattice I.numbers flow.now row.old to_temp pointer scalar ≡ Some row.new }
    ensures unreached { result ≡ false → load_step I.lattice I.numbers flow.now row.old to_temp pointer scalar ≡ None }
{
    let rest = touch_scalar(flow, row, pointer, scalar, false).rest;
    match loaded(flow, row, rest, scalar) {
        None => false,
        Some(value) => put_read(flow, row, to_temp, scalar, value),
    }
}

/// Where a temporary takes the value of another one.
#[tactic(auto, unfolding(crate::specs::Instructions::MemorySteps::move_temp))]
fn move_temp<I: IntDomain>(flow: &Flow, row: &mut [Cell<I>], kept: Option<(u32, u32)>)
    ensures length { length row.new ≡ length row.old }
    ensures row { row.new ≡ move_temp I.lattice I.numbers flow.now kept row.old }
{
    if let Some((to, from)) = kept {
        put_temp(flow, row, to, temp_value(flow, row, from));
    }
}

/// What a store may violate.
pub fn store_violations<I: IntDomain>(
    flow: &Flow,
    row: &[Cell<I>],
    pointer: u32,
    scalar: Scalar,
) -> Violations
    ensures { result ≡ store_violations I.lattice I.numbers flow.now row.now pointer scalar }
{
    touch_scalar(flow, row, pointer, scalar, true).violations
}

/// A store of a scalar at the places that its touch left.
#[tactic(auto, unfolding(crate::specs::Instructions::MemorySteps::store_to))]
fn store_to<I: IntDomain>(
    flow: &Flow,
    row: &mut [Cell<I>],
    rest: Pointers<I>,
    scalar: Scalar,
    value: Value<I>,
) -> bool
    requires rest { IsNearPointer I.numbers rest }
    requires number { IsNear (I.numbers.bounds value.num) }
    ensures length { length row.new ≡ length row.old }
    ensures reached { result ≡ true → store_to I.lattice I.numbers flow.now rest scalar value row.old ≡ Some row.new }
    ensures unreached { result ≡ false → store_to I.lattice I.numbers flow.now rest scalar value row.old ≡ None }
{
    let (class, signed) = class_of(scalar);
    let bases = flow.bases.as_slice();
    store(&flow.model, bases, row, rest, class, signed, value)
}

/// A store; then a temporary may take the value of another one.
#[tactic(auto, unfolding(crate::specs::Instructions::MemorySteps::store_step))]
pub fn store_step<I: IntDomain>(
    flow: &Flow,
    row: &mut [Cell<I>],
    pointer: u32,
    value: u32,
    scalar: Scalar,
    kept: Option<(u32, u32)>,
) -> bool
    ensures length { length row.new ≡ length row.old }
    ensures reached { result ≡ true → store_step I.lattice I.numbers flow.now row.old pointer value scalar kept ≡ Some row.new }
    ensures unreached { result ≡ false → store_step I.lattice I.numbers flow.now row.old pointer value scalar kept ≡ None }
{
    let rest = touch_scalar(flow, row, pointer, scalar, true).rest;
    let stored = temp_value(flow, row, value);
    if store_to(flow, row, rest, scalar, stored) {
        move_temp(flow, row, kept);
        true
    } else {
        false
    }
}

/// The size of a struct of the flow, at most `LONGEST`.
fn struct_size(flow: &Flow, index: u32) -> u64
    ensures value { result ≡ struct_size flow.now index }
    ensures most { result ≤ longest }
{
    match flow.structs.items.get(index as usize) {
        None => 0,
        Some(found) => found.size.min(LONGEST),
    }
}

/// The touch of one side of the copy of a struct.
fn touch_struct<I: IntDomain>(
    flow: &Flow,
    row: &[Cell<I>],
    pointer: u32,
    index: u32,
    write: bool,
) -> Touched<I>
    ensures near { IsNearPointer I.numbers result.rest }
    ensures value { result ≡ touch_struct I.lattice I.numbers flow.now row.now pointer index write }
{
    let at = temp_value(flow, row, pointer).pointer;
    let size = struct_size(flow, index);
    touch(flow.bases.as_slice(), row, at, 0, size, write)
}

/// What the copy of a struct may violate: the source is touched first.
pub fn copy_violations<I: IntDomain>(
    flow: &Flow,
    row: &[Cell<I>],
    to: u32,
    from: u32,
    index: u32,
) -> Violations
    ensures { result ≡ copy_violations I.lattice I.numbers flow.now row.now to from index }
{
    let source = touch_struct(flow, row, from, index, false);
    if source.rest.bases.is_empty() {
        source.violations
    } else {
        let target = touch_struct(flow, row, to, index, true);
        source.violations.union(target.violations)
    }
}

/// Copies a struct between the places that the touches left.
#[tactic(auto, unfolding(crate::specs::Instructions::MemorySteps::copy_touched))]
fn copy_touched<I: IntDomain>(
    flow: &Flow,
    row: &mut [Cell<I>],
    index: u32,
    target: Pointers<I>,
    source: Pointers<I>,
) -> bool
    ensures length { length row.new ≡ length row.old }
    ensures row { reached_row result row.new ≡ copy_touched I.lattice I.numbers flow.now index target source row.old }
{
    let copy = StructCopy {
        model: &flow.model,
        bases: flow.bases.as_slice(),
        structs: &flow.structs,
        index,
    };
    copy_struct(copy, row, target, source)
}

/// The copy of a struct between the places that the touches left; the first temporary keeps the
/// target.
#[tactic(auto, unfolding(crate::specs::Instructions::MemorySteps::copy_between))]
fn copy_between<I: IntDomain>(
    flow: &Flow,
    row: &mut [Cell<I>],
    to: u32,
    index: u32,
    target: Pointers<I>,
    source: Pointers<I>,
) -> bool
    ensures length { length row.new ≡ length row.old }
    ensures reached { result ≡ true → copy_between I.lattice I.numbers flow.now row.old to index target source ≡ Some row.new }
    ensures unreached { result ≡ false → copy_between I.lattice I.numbers flow.now row.old to index target source ≡ None }
{
    if copy_touched(flow, row, index, target, source) {
        put_temp(flow, row, to, Value::of_pointer(target));
        true
    } else {
        false
    }
}

/// The copy of a struct. The first temporary keeps the pointer as far as it goes on.
#[tactic(auto, unfolding(crate::specs::Instructions::MemorySteps::copy_step))]
pub fn copy_step<I: IntDomain>(
    flow: &Flow,
    row: &mut [Cell<I>],
    to: u32,
    from: u32,
    index: u32,
) -> bool
    ensures length { length row.new ≡ length row.old }
    ensures reached { result ≡ true → copy_step I.lattice I.numbers flow.now row.old to from index ≡ Some row.new }
    ensures unreached { result ≡ false → copy_step I.lattice I.numbers flow.now row.old to from index ≡ None }
{
    let source = touch_struct(flow, row, from, index, false).rest;
    let target = touch_struct(flow, row, to, index, true).rest;
    copy_between(flow, row, to, index, target, source)
}
