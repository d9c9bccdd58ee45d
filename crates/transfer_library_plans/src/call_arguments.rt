//! The arguments of a call.
ghost use Rattle.std.specs.Prelude.{◌≡◌};
ghost use Rattle.value_domain.specs.Values.Values.{value_lattice};
ghost use Rattle.store.specs.NearValues.{near_value};
ghost use Rattle.transfer_library_plans.specs.Calls.{call_view};
ghost use Rattle.transfer_library_plans.specs.Arguments.{argument_value, string_violations, room_violations, literal_violations};
ghost use Rattle.cc_base.specs.IntegerDomains.{IsNear};
ghost use Rattle.pointer_domain.specs.PointerTables.{IsNearPointer};

use cc_base::{IntDomain, Lattice};
use cfg::Flow;
use store::near_value;
use transfer_checks::{Violations, temp_value};
use value_domain::values::{Cell, Value};

/// A library call: its function's arguments by their temporaries, and the size of the type to whose
/// pointer an allocation is converted at once.
#[derive(Clone, Copy)]
pub struct Call<'a> {
    pub flow: &'a Flow,
    pub arguments: &'a [u32],
    pub wanted: Option<u64>,
}

/// The least value, for an argument that is not there.
fn no_argument<I: IntDomain>() -> Value<I>
    ensures number { IsNear (I.numbers.bounds result.num) }
    ensures pointer { IsNearPointer I.numbers result.pointer }
    ensures value { result ≡ near_value I.lattice I.numbers (value_lattice I.lattice).least }
{
    near_value(Value::bottom())
}

/// The value of an argument; the least value where there is none.
#[tactic(auto, unfolding(crate::specs::Arguments::argument_value))]
pub fn argument_value<I: IntDomain>(call: Call, row: &[Cell<I>], at: usize) -> Value<I>
    ensures number { IsNear (I.numbers.bounds result.num) }
    ensures pointer { IsNearPointer I.numbers result.pointer }
    ensures value { result ≡ argument_value I.lattice I.numbers (call_view call.entry) row.now at }
{
    match call.arguments.get(at) {
        Some(temp) => temp_value(call.flow, row, *temp),
        None => no_argument(),
    }
}

/// The rule on strings without a terminating zero, where it may be violated.
pub fn string_violations(unknown: bool) -> Violations
    ensures { result ≡ string_violations unknown }
{
    let mut found = Violations::none();
    found.nonnullcs = unknown;
    found
}

/// The rule on the ends of objects, where it may be violated.
pub fn room_violations(passes: bool) -> Violations
    ensures { result ≡ room_violations passes }
{
    let mut found = Violations::none();
    found.libptr = passes;
    found
}

/// The rule on literals, where it may be violated.
pub fn literal_violations(writes: bool) -> Violations
    ensures { result ≡ literal_violations writes }
{
    let mut found = Violations::none();
    found.strmod = writes;
    found
}
