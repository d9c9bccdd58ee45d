//! The cells of a row.
ghost use Rattle.std.specs.Prelude.{◌≡◌};
ghost use Rattle.value_domain.specs.Values.Cells.{cell_lattice, cell_order, cell_rounding, cell_heights};

use crate::strings::FirstZero;
use crate::values::alloc_states::AllocState;
use crate::values::values::Value;
use cc_base::{IntDomain, Lattice, Thresholds};

/// What a position of a row holds. Two cells of one kind are compared, joined and rounded as that
/// kind is.
#[derive(Clone, Copy)]
pub enum Cell<I> {
    /// The least cell.
    Nothing,
    /// The value of an object's scalar, or of a temporary.
    Value(Value<I>),
    /// The first zero byte of an array.
    First(FirstZero<I>),
    /// The state of a heap base.
    State(AllocState<I>),
    /// The greatest cell, and the join of two different kinds.
    Mixed,
}

impl<I: IntDomain> Lattice for Cell<I> {
    ghost lattice = { cell_lattice I.lattice };

    ghost order = { cell_order I.order };

    ghost rounding = { cell_rounding I.rounding };

    ghost heights = { cell_heights I.order I.heights };

    fn bottom() -> Self {
        Cell::Nothing
    }

    fn join(self, other: Self) -> Self {
        match (self, other) {
            (Cell::Nothing, y) => y,
            (x, Cell::Nothing) => x,
            (Cell::Value(v), Cell::Value(w)) => Cell::Value(v.join(w)),
            (Cell::First(v), Cell::First(w)) => Cell::First(v.join(w)),
            (Cell::State(v), Cell::State(w)) => Cell::State(v.join(w)),
            _ => Cell::Mixed,
        }
    }

    fn leq(self, other: Self) -> bool {
        match (self, other) {
            (Cell::Nothing, _) => true,
            (_, Cell::Mixed) => true,
            (Cell::Value(v), Cell::Value(w)) => v.leq(w),
            (Cell::First(v), Cell::First(w)) => v.leq(w),
            (Cell::State(v), Cell::State(w)) => v.leq(w),
            _ => false,
        }
    }

    fn round(self, list: &Thresholds) -> Self {
        match self {
            Cell::Nothing => Cell::Nothing,
            Cell::Value(v) => Cell::Value(v.round(list)),
            Cell::First(v) => Cell::First(v.round(list)),
            Cell::State(v) => Cell::State(v.round(list)),
            Cell::Mixed => Cell::Mixed,
        }
    }
}
