//! What is known of the instances of a heap base.
ghost use Rattle.std.specs.Prelude.{◌≡◌};
ghost use Rattle.value_domain.specs.Values.AllocStates.{state_lattice, state_order, state_rounding, state_heights};

use cc_base::{IntDomain, Lattice, Thresholds};

/// The state of the instances that a heap base stands for.
#[derive(Clone, Copy)]
pub struct AllocState<I> {
    /// Their sizes in bytes.
    pub size: I,
    /// Whether one may be live.
    pub live: bool,
    /// Whether one may be freed.
    pub freed: bool,
}

impl<I: IntDomain> Lattice for AllocState<I> {
    ghost lattice = { state_lattice I.lattice };

    ghost order = { state_order I.order };

    ghost rounding = { state_rounding I.rounding };

    ghost heights = { state_heights I.order I.heights };

    fn bottom() -> Self {
        AllocState {
            size: I::bottom(),
            live: false,
            freed: false,
        }
    }

    fn join(self, other: Self) -> Self {
        AllocState {
            size: self.size.join(other.size),
            live: self.live || other.live,
            freed: self.freed || other.freed,
        }
    }

    fn leq(self, other: Self) -> bool {
        self.size.leq(other.size) && ((!self.live || other.live) && (!self.freed || other.freed))
    }

    fn round(self, list: &Thresholds) -> Self {
        AllocState {
            size: self.size.round(list),
            live: self.live,
            freed: self.freed,
        }
    }
}
