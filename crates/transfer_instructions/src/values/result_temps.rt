//! Results of instructions in temporaries.
ghost use Rattle.std.specs.Prelude.{◌≡◌, true, false, Some, None, length};
ghost use Rattle.transfer_instructions.specs.Values.ResultTemps.{negated, put_number, put_truth, put_pointer};

use cc_base::{IntDomain, Tri};
use cfg::Flow;
use pointer_domain::Pointers;
use transfer_checks::put_temp;
use value_domain::values::{Cell, Value};

/// The truth values that are not these.
pub fn negated(truth: Tri) -> Tri
    ensures { result ≡ negated truth }
{
    match truth {
        Tri::Yes => Tri::No,
        Tri::No => Tri::Yes,
        Tri::Both => Tri::Both,
        Tri::Never => Tri::Never,
    }
}

/// Keeps an integer; false where there is none.
#[tactic(auto, unfolding(crate::specs::Values::ResultTemps::put_number))]
pub fn put_number<I: IntDomain>(
    flow: &Flow,
    row: &mut [Cell<I>],
    to_temp: u32,
    value: Value<I>,
) -> bool
    ensures length { length row.new ≡ length row.old }
    ensures reached { result ≡ true → put_number I.numbers flow.now row.old to_temp value ≡ Some row.new }
    ensures unreached { result ≡ false → put_number I.numbers flow.now row.old to_temp value ≡ None }
{
    if value.num.bounds().is_none() {
        false
    } else {
        put_temp(flow, row, to_temp, value);
        true
    }
}

/// Keeps a truth value; false where there is none.
#[tactic(auto, unfolding(crate::specs::Values::ResultTemps::put_truth))]
pub fn put_truth<I: IntDomain>(flow: &Flow, row: &mut [Cell<I>], to_temp: u32, truth: Tri) -> bool
    ensures length { length row.new ≡ length row.old }
    ensures reached { result ≡ true → put_truth I.lattice I.numbers flow.now row.old to_temp truth ≡ Some row.new }
    ensures unreached { result ≡ false → put_truth I.lattice I.numbers flow.now row.old to_temp truth ≡ None }
{
    match truth {
        Tri::Never => false,
        Tri::Yes | Tri::No | Tri::Both => {
            put_temp(flow, row, to_temp, Value::of_truth(truth));
            true
        }
    }
}

/// Keeps a pointer; false where there is none.
#[tactic(auto, unfolding(crate::specs::Values::ResultTemps::put_pointer))]
pub fn put_pointer<I: IntDomain>(
    flow: &Flow,
    row: &mut [Cell<I>],
    to_temp: u32,
    pointer: Pointers<I>,
) -> bool
    ensures length { length row.new ≡ length row.old }
    ensures reached { result ≡ true → put_pointer I.lattice flow.now row.old to_temp pointer ≡ Some row.new }
    ensures unreached { result ≡ false → put_pointer I.lattice flow.now row.old to_temp pointer ≡ None }
{
    if pointer.is_any() || pointer.ended {
        put_temp(flow, row, to_temp, Value::of_pointer(pointer));
        true
    } else {
        false
    }
}
