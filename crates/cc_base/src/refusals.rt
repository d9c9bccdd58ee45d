//! Why a unit is refused, and what else ends the work on it.
ghost use Rattle.std.specs.Prelude.{◌≡◌};

use crate::diagnostics::Place;
use crate::limit_table::Count;
use crate::text_bytes::Text;
use std::alloc::{AllocError, AllocFailed};

/// Want of memory.
#[derive(Clone, Copy, PartialEq, Eq, Debug)]
pub struct Memory;

/// The refusals, in the order of the work that makes them.
#[derive(Drop)]
pub enum Refusal {
    /// A byte begins no token and is not white space, or may not stand where it stands.
    BadByte,
    /// `/*` has no `*/`; at the `/*`.
    OpenComment,
    /// A quote has no mate on its line; at the quote.
    OpenLiteral,
    /// More tokens than a limit allows.
    TooManyTokens { count: u64, limit: u64 },
    /// No file and no built-in header has the name.
    HeaderMissing(Text),
    /// A directive is unknown, malformed or left out, or stands among the arguments of a macro;
    /// at its `#`.
    BadDirective,
    /// `#elif`, `#else` or `#endif` without its `#if`, or an `#if` that its file does not close.
    UnevenConditional,
    /// `#error` in a group that is taken.
    ErrorDirective,
    /// The name of a function-like macro ends a replacement, and its `(` stands behind it.
    MacroSpill,
    /// A wrong number of arguments of a macro, or no closing parenthesis.
    MacroArguments,
    /// Inclusions that nest too deeply, or too many of them.
    IncludeDepth,
    /// A macro is defined again in another way.
    MacroRedefined,
    /// A file has more bytes than `limit`.
    FileTooLong { count: u64, limit: u64 },
    /// A number or an escape has none of the forms that are in.
    NumberForm,
    /// A word of the language that is left out.
    Unsupported(Text),
    /// No derivation by the grammar.
    Syntax,
    /// A name has no declaration or no definition.
    Undeclared,
    /// A second or conflicting declaration, a repeated label, case or member.
    Redeclared,
    /// No typing rule applies.
    TypeFault,
    /// A pointer and an integer would be converted into one another.
    PointerInteger,
    /// An expression that has to be constant is not, or not in its range.
    ConstantNeeded,
    /// A `printf` format and its arguments do not agree.
    FormatFault,
    /// The entry is no function of the unit, or has a parameter of no integer type; at 1:1.
    NoEntry,
    /// A call that closes a cycle of calls.
    Recursion,
    /// A count of the control-flow program passes its limit; at the name of the entry.
    TooLarge { what: Count, count: u64, limit: u64 },
}

/// A refusal and its place.
#[derive(Drop)]
pub struct Fault {
    pub place: Place,
    pub refusal: Refusal,
}

/// What ends the work on a unit before its report.
#[derive(Drop)]
pub enum Stop {
    /// The unit is refused.
    Refused(Fault),
    /// The tree of files does not hold the main file.
    NotHeld,
    /// A read failed.
    ReadFault,
    /// Want of memory.
    Memory,
}

impl From<AllocError> for Memory {
    ghost from_gives = { λ _ _. Unit {0} };

    fn from(_error: AllocError) -> Memory {
        Memory
    }
}

impl<T: Drop> From<AllocFailed<T>> for Memory {
    ghost from_gives = { λ _ _. Unit {0} };

    fn from(_error: AllocFailed<T>) -> Memory {
        Memory
    }
}

impl From<AllocError> for Stop {
    ghost use Rattle.std.specs.Prelude.{◌≡◌};
    ghost use Rattle.cc_base.specs.declared.refusals.Stop.TheVariants as stop;

    ghost from_gives = { λ _ e. e ≡ stop.Memory };

    fn from(_error: AllocError) -> Stop {
        Stop::Memory
    }
}

impl<T: Drop> From<AllocFailed<T>> for Stop {
    ghost use Rattle.std.specs.Prelude.{◌≡◌};
    ghost use Rattle.cc_base.specs.declared.refusals.Stop.TheVariants as stop;

    ghost from_gives = { λ _ e. e ≡ stop.Memory };

    fn from(_error: AllocFailed<T>) -> Stop {
        Stop::Memory
    }
}

impl From<Memory> for Stop {
    ghost use Rattle.std.specs.Prelude.{◌≡◌};
    ghost use Rattle.cc_base.specs.declared.refusals.Stop.TheVariants as stop;

    ghost from_gives = { λ _ e. e ≡ stop.Memory };

    fn from(_error: Memory) -> Stop {
        Stop::Memory
    }
}
