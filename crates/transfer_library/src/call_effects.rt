//! The effect of a call on a row.
ghost use Rattle.std.specs.Prelude.{◌≡◌, true, false, Some, None, length};
ghost use Rattle.transfer_library.specs.Effects.{put_result, allocated, apply, is_write};
ghost use Rattle.cc_base.specs.IntegerDomains.{IsNear};

use cc_base::IntDomain;
use cfg::Flow;
use store::{Fresh, free, near_number, renew};
use transfer_checks::put_temp;
use transfer_library_plans::Effect;
use transfer_library_writes::{write_copy, write_fill, write_text};
use value_domain::values::{Cell, Value};

/// Keeps the result of a call in its temporary, where it has one.
fn put_result<I: IntDomain>(flow: &Flow, row: &mut [Cell<I>], to_temp: Option<u32>, value: Value<I>)
    ensures length { length row.new ≡ length row.old }
    ensures row { row.new ≡ put_result flow.now to_temp value row.old }
{
    if let Some(temp) = to_temp {
        put_temp(flow, row, temp, value);
    }
}

/// An allocation at the site whose newest base has this number; the older one follows it.
fn allocate<I: IntDomain>(
    flow: &Flow,
    row: &mut [Cell<I>],
    to_temp: Option<u32>,
    newest: Option<u32>,
    size: I,
    fresh: Fresh<I>,
) -> bool
    ensures length { length row.new ≡ length row.old }
    ensures reached { result ≡ true → allocated I.lattice I.numbers flow.now to_temp newest size fresh row.old ≡ Some row.new }
    ensures unreached { result ≡ false → allocated I.lattice I.numbers flow.now to_temp newest size fresh row.old ≡ None }
{
    let Some(newest) = newest else {
        return false;
    };
    let older = newest.saturating_add(1);
    let bases = flow.bases.as_slice();
    let pointer = renew(
        &flow.model,
        bases,
        row,
        newest,
        older,
        near_number(size),
        fresh,
    );
    put_result(flow, row, to_temp, Value::of_pointer(pointer));
    true
}

/// What the effect makes of the row; false where the call does not go on, and then the row is
/// unspecified. The result goes to a temporary, and an allocation has the newest base of its site.
#[tactic(auto, unfolding(crate::specs::Effects::apply))]
pub fn apply<I: IntDomain>(
    flow: &Flow,
    row: &mut [Cell<I>],
    to_temp: Option<u32>,
    newest: Option<u32>,
    effect: Effect<I>,
) -> bool
    ensures length { length row.new ≡ length row.old }
    ensures reached { result ≡ true → apply I.lattice I.numbers flow.now to_temp newest effect row.old ≡ Some row.new }
    ensures unreached { result ≡ false → apply I.lattice I.numbers flow.now to_temp newest effect row.old ≡ None }
{
    match effect {
        Effect::Unreached => false,
        Effect::Allocate(size, zero) => {
            let fresh = if zero { Fresh::Zero } else { Fresh::Blank };
            allocate(flow, row, to_temp, newest, size, fresh)
        }
        Effect::Reallocate(size, old) => {
            allocate(flow, row, to_temp, newest, size, Fresh::Old(old))
        }
        Effect::Free(pointer) => {
            free(flow.bases.as_slice(), row, pointer);
            true
        }
        Effect::Result(_) | Effect::Text(_, _) | Effect::Fill(_, _) | Effect::Copy(_, _) => {
            write_bytes(flow, row, to_temp, newest, effect)
        }
    }
}

/// The effects that write bytes, or nothing but a result.
#[tactic(auto, unfolding(crate::specs::Effects::apply))]
fn write_bytes<I: IntDomain>(
    flow: &Flow,
    row: &mut [Cell<I>],
    to_temp: Option<u32>,
    newest: Option<u32>,
    effect: Effect<I>,
) -> bool
    requires { is_write effect ≡ true }
    ensures length { length row.new ≡ length row.old }
    ensures reached { result ≡ true → apply I.lattice I.numbers flow.now to_temp newest effect row.old ≡ Some row.new }
    ensures unreached { result ≡ false → apply I.lattice I.numbers flow.now to_temp newest effect row.old ≡ None }
{
    match effect {
        Effect::Result(value) => {
            put_result(flow, row, to_temp, value);
            true
        }
        Effect::Text(write, value) => {
            write_text(flow, row, write);
            put_result(flow, row, to_temp, value);
            true
        }
        Effect::Fill(write, value) => {
            write_fill(flow, row, write);
            put_result(flow, row, to_temp, value);
            true
        }
        Effect::Copy(write, value) => {
            write_copy(flow, row, write);
            put_result(flow, row, to_temp, value);
            true
        }
        _ => false,
    }
}
