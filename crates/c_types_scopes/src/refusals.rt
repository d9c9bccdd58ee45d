//! Refusals of typing at their places.
ghost use Rattle.std.specs.Prelude.{◌≡◌};
ghost use Rattle.c_types_scopes.specs.Refusals.{stopped};

use cc_base::{Fault, Place, Refusal, Stop};

/// A refusal at a place.
pub fn refused(place: Place, refusal: Refusal) -> Stop
    ensures { result ≡ stopped place refusal }
{
    Stop::Refused(Fault { place, refusal })
}

/// A name has no declaration or no definition.
pub fn undeclared(place: Place) -> Stop
    ensures { result ≡ stopped place Refusal.Undeclared }
{
    refused(place, Refusal::Undeclared)
}

/// A second or conflicting declaration.
pub fn redeclared(place: Place) -> Stop
    ensures { result ≡ stopped place Refusal.Redeclared }
{
    refused(place, Refusal::Redeclared)
}

/// No typing rule applies.
pub fn type_fault(place: Place) -> Stop
    ensures { result ≡ stopped place Refusal.TypeFault }
{
    refused(place, Refusal::TypeFault)
}

/// A pointer and an integer would be converted into one another.
pub fn pointer_integer(place: Place) -> Stop
    ensures { result ≡ stopped place Refusal.PointerInteger }
{
    refused(place, Refusal::PointerInteger)
}

/// An expression has to be constant and is not, or not in its range.
pub fn constant_needed(place: Place) -> Stop
    ensures { result ≡ stopped place Refusal.ConstantNeeded }
{
    refused(place, Refusal::ConstantNeeded)
}

/// A `printf` format and its arguments do not agree.
pub fn format_fault(place: Place) -> Stop
    ensures { result ≡ stopped place Refusal.FormatFault }
{
    refused(place, Refusal::FormatFault)
}
