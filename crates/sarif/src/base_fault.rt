//! Why a baseline gives no list.
use std::alloc::{AllocError, AllocFailed};

/// Why a baseline gives no list.
#[derive(Clone, Copy, PartialEq, Eq, Debug)]
pub enum BaseFault {
    /// The bytes are no JSON object that has `version` 2.1.0 and a list of `runs`.
    Shape,
    /// Want of memory.
    Memory,
}

impl From<AllocError> for BaseFault {
    ghost use Rattle.std.specs.Prelude.{◌≡◌};
    ghost use Rattle.sarif.specs.declared.base_fault.BaseFault.TheVariants as fault;

    ghost from_gives = { λ _ e. e ≡ fault.Memory };

    fn from(_error: AllocError) -> BaseFault {
        BaseFault::Memory
    }
}

impl<T: Drop> From<AllocFailed<T>> for BaseFault {
    ghost use Rattle.std.specs.Prelude.{◌≡◌};
    ghost use Rattle.sarif.specs.declared.base_fault.BaseFault.TheVariants as fault;

    ghost from_gives = { λ _ e. e ≡ fault.Memory };

    fn from(_error: AllocFailed<T>) -> BaseFault {
        BaseFault::Memory
    }
}

impl From<json::Invalid> for BaseFault {
    ghost use Rattle.std.specs.Prelude.{◌≡◌};
    ghost use Rattle.sarif.specs.declared.base_fault.BaseFault.TheVariants as fault;

    ghost from_gives = { λ _ e. e ≡ fault.Shape };

    fn from(_invalid: json::Invalid) -> BaseFault {
        BaseFault::Shape
    }
}
