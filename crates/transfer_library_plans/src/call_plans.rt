//! What a call will do: which rules it may violate, and its effect where it goes on.
ghost use Rattle.std.specs.Prelude.{◌≡◌};
ghost use Rattle.transfer_library_plans.specs.Plans.{planned, harmless};

use cc_base::IntDomain;
use pointer_domain::Pointers;
use transfer_checks::Violations;
use transfer_library_writes::{CopyWrite, FillWrite, TextWrite};
use value_domain::values::Value;

/// The effect of a call.
#[derive(Clone, Copy)]
pub enum Effect<I> {
    /// It does not go on.
    Unreached,
    /// A result, and nothing else.
    Result(Value<I>),
    /// A text is written; the result.
    Text(TextWrite<I>, Value<I>),
    /// Bytes are set to a number; the result.
    Fill(FillWrite, Value<I>),
    /// Bytes are copied; the result.
    Copy(CopyWrite<I>, Value<I>),
    /// An instance of so many bytes is made, indeterminate or, where the flag is set, zero.
    Allocate(I, bool),
    /// An instance of so many bytes takes the bytes of the old one.
    Reallocate(I, Pointers<I>),
    /// An instance is freed.
    Free(Pointers<I>),
}

/// The rules that a call may violate, and its effect.
#[derive(Clone, Copy)]
pub struct Plan<I> {
    pub violations: Violations,
    pub effect: Effect<I>,
}

/// The checks of a call in order: what they may violate so far, and whether it goes on.
#[derive(Clone, Copy, PartialEq, Eq, Debug)]
pub struct Trail {
    pub violations: Violations,
    pub goes_on: bool,
}

impl Trail {
    ghost use Rattle.std.specs.Prelude.{◌≡◌};
    ghost use Rattle.transfer_library_plans.specs.Plans.{trail_of, checked};

    /// No check so far; what is violated in any case.
    pub fn start(violations: Violations) -> Trail
        ensures { result ≡ trail_of violations }
    {
        Trail {
            violations,
            goes_on: true,
        }
    }

    /// One check more: what it may violate where the call comes to it, and whether the call can go on
    /// behind it.
    pub fn check(self, violations: Violations, goes_on: bool) -> Trail
        ensures { result ≡ checked self violations goes_on }
    {
        if self.goes_on {
            Trail {
                violations: self.violations.union(violations),
                goes_on,
            }
        } else {
            self
        }
    }
}

/// The plan behind the checks.
pub fn planned<I: IntDomain>(trail: Trail, effect: Effect<I>) -> Plan<I>
    ensures { result ≡ planned trail effect }
{
    if trail.goes_on {
        Plan {
            violations: trail.violations,
            effect,
        }
    } else {
        Plan {
            violations: trail.violations,
            effect: Effect::Unreached,
        }
    }
}

/// A plan that violates nothing.
pub fn harmless<I: IntDomain>(effect: Effect<I>) -> Plan<I>
    ensures { result ≡ harmless effect }
{
    Plan {
        violations: Violations::none(),
        effect,
    }
}
