//! Why an expansion is refused.
use cc_base::{Memory, Place};
use std::alloc::{AllocError, AllocFailed};

/// What is wrong with a call of a macro.
#[derive(Clone, Copy, PartialEq, Eq, Debug)]
pub enum Trouble {
    /// The name of a function-like macro ends a replacement, and `(` stands behind it.
    Spill,
    /// A wrong number of arguments, or no closing parenthesis in a replacement.
    Arguments,
    /// No closing parenthesis in the list itself.
    Unclosed,
    /// So many tokens would have been made by replacements, more than the limit.
    TooMany(u64),
}

/// A trouble and the place of the outermost macro name.
#[derive(Clone, Copy, PartialEq, Eq, Debug)]
pub struct Refused {
    pub trouble: Trouble,
    pub place: Place,
}

/// Why there is no expansion.
#[derive(Clone, Copy, PartialEq, Eq, Debug)]
pub enum Failure {
    /// The list is refused.
    Refused(Refused),
    /// Want of memory.
    Memory,
}

impl From<AllocError> for Failure {
    ghost use Rattle.std.specs.Prelude.{◌≡◌};
    ghost use Rattle.c_preproc_macros.specs.declared.trouble.Failure.TheVariants as failure;

    ghost from_gives = { λ _ e. e ≡ failure.Memory };

    fn from(_error: AllocError) -> Failure {
        Failure::Memory
    }
}

impl<T: Drop> From<AllocFailed<T>> for Failure {
    ghost use Rattle.std.specs.Prelude.{◌≡◌};
    ghost use Rattle.c_preproc_macros.specs.declared.trouble.Failure.TheVariants as failure;

    ghost from_gives = { λ _ e. e ≡ failure.Memory };

    fn from(_error: AllocFailed<T>) -> Failure {
        Failure::Memory
    }
}

impl From<Memory> for Failure {
    ghost use Rattle.std.specs.Prelude.{◌≡◌};
    ghost use Rattle.c_preproc_macros.specs.declared.trouble.Failure.TheVariants as failure;

    ghost from_gives = { λ _ e. e ≡ failure.Memory };

    fn from(_error: Memory) -> Failure {
        Failure::Memory
    }
}
