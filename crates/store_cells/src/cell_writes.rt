//! Writing a cell.
ghost use Rattle.std.specs.Prelude.{◌≡◌, length};
ghost use Rattle.store_cells.specs.RowPositions.{write_value};

use crate::row_positions::{join_value, put_value};
use cc_base::IntDomain;
use value_domain::values::{Cell, Value};

/// Puts a value in place of the old one where the write is strong; else joins it with that.
#[tactic(auto, unfolding(crate::specs::RowPositions::write_value))]
pub fn write_value<I: IntDomain>(row: &mut [Cell<I>], at: usize, value: Value<I>, strong: bool)
    ensures length { length row.new ≡ length row.old }
    ensures row { row.new ≡ write_value I.lattice I.numbers row.old at value strong }
{
    if strong {
        put_value(row, at, value);
    } else {
        join_value(row, at, value);
    }
}
