//! The temporaries of a row, behind the cells of all bases.
ghost use Rattle.std.specs.Prelude.{◌≡◌, length};
ghost use Rattle.cc_base.specs.IntegerDomains.{IsNear};
ghost use Rattle.pointer_domain.specs.PointerTables.{IsNearPointer};
ghost use Rattle.transfer_checks.specs.Temporaries.{temp_position, temp_value, amount_value, put_temp};

use cc_base::IntDomain;
use cfg::{Amount, Flow};
use store::{near_value, put_value, value_at};
use value_domain::values::{Cell, Labels, Value};

/// The position of a temporary in a row.
pub fn temp_position(flow: &Flow, temp: u32) -> usize
    ensures { result ≡ temp_position flow.now temp }
{
    let first = (flow.width as usize).saturating_sub(flow.temps as usize);
    first.saturating_add(temp as usize)
}

/// The value of a temporary.
pub fn temp_value<I: IntDomain>(flow: &Flow, row: &[Cell<I>], temp: u32) -> Value<I>
    ensures number { IsNear (I.numbers.bounds result.num) }
    ensures pointer { IsNearPointer I.numbers result.pointer }
    ensures value { result ≡ temp_value I.lattice I.numbers flow.now row.now temp }
{
    value_at(row, temp_position(flow, temp))
}

/// The value of an amount: that of its temporary, or 1.
pub fn amount_value<I: IntDomain>(flow: &Flow, row: &[Cell<I>], amount: Amount) -> Value<I>
    ensures number { IsNear (I.numbers.bounds result.num) }
    ensures pointer { IsNearPointer I.numbers result.pointer }
    ensures value { result ≡ amount_value I.lattice I.numbers flow.now row.now amount }
{
    match amount {
        Amount::Temp(temp) => temp_value(flow, row, temp),
        Amount::One => near_value(Value::of_number(I::one(1), Labels::none())),
    }
}

/// Puts a value into a temporary.
pub fn put_temp<I: IntDomain>(flow: &Flow, row: &mut [Cell<I>], temp: u32, value: Value<I>)
    ensures length { length row.new ≡ length row.old }
    ensures row { row.new ≡ put_temp flow.now row.old temp value }
{
    put_value(row, temp_position(flow, temp), value);
}
