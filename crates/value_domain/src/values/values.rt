//! Abstract values.
ghost use Rattle.std.specs.Prelude.{◌≡◌};
ghost use Rattle.value_domain.specs.Values.Values.{value_lattice, value_order, value_rounding, value_heights};

use crate::values::label_sets::Labels;
use cc_base::{IntDomain, Lattice, Thresholds};
use pointer_domain::Pointers;

/// The integers, the pointers and the indeterminate value that a value may be. It stands for what
/// each component allows, independently.
#[derive(Clone, Copy)]
pub struct Value<I> {
    /// The integers.
    pub num: I,
    /// The pointers.
    pub pointer: Pointers<I>,
    /// Whether it may be indeterminate.
    pub indeterminate: bool,
    /// The labels that an integer may have.
    pub labels: Labels,
}

impl<I: IntDomain> Lattice for Value<I> {
    ghost lattice = { value_lattice I.lattice };

    ghost order = { value_order I.order };

    ghost rounding = { value_rounding I.rounding };

    ghost heights = { value_heights I.order I.heights };

    fn bottom() -> Self {
        Value {
            num: I::bottom(),
            pointer: Pointers::bottom(),
            indeterminate: false,
            labels: Labels::none(),
        }
    }

    fn join(self, other: Self) -> Self {
        Value {
            num: self.num.join(other.num),
            pointer: self.pointer.join(other.pointer),
            indeterminate: self.indeterminate || other.indeterminate,
            labels: self.labels.union(other.labels),
        }
    }

    fn leq(self, other: Self) -> bool {
        self.num.leq(other.num)
            && (self.pointer.leq(other.pointer)
                && ((!self.indeterminate || other.indeterminate)
                    && self.labels.within(other.labels)))
    }

    fn round(self, list: &Thresholds) -> Self {
        Value {
            num: self.num.round(list),
            pointer: self.pointer.round(list),
            indeterminate: self.indeterminate,
            labels: self.labels,
        }
    }
}
