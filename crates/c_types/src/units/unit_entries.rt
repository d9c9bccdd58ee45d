//! The entry of a unit, and what is refused once all of the unit is typed (5.1.2.2.1 of ISO/IEC
//! 9899:2011 as narrowed by the profile).
ghost use Rattle.std.specs.Prelude.{◌≡◌, ◌<◌, length, map, Some, IfOk, IfSome};
ghost use Rattle.c_layout.specs.Types.{view};
ghost use Rattle.c_layout.specs.CheckedUnits.{local_view, function_view};
ghost use Rattle.c_types_rules.specs.CallCycles.CallCycles.{first_cycle};
ghost use Rattle.c_types_scopes.specs.Answers.{Gives};
ghost use Rattle.c_types.specs.Units.UnitEntries as spec;

use c_layout::{CType, Function, LocalObject};
use c_types_rules::call_cycles::CallGraph;
use c_types_scopes::refused;
use cc_base::{Place, Refusal, Stop};
use std::alloc::Global;

/// Whether a type is an integer's.
fn is_integer(t: &CType) -> bool
    ensures { result ≡ spec.is_integer (view t.now) }
{
    match t {
        CType::Int(_) => true,
        CType::Pointer(_) => false,
        CType::Array(_, _) => false,
        CType::Struct(_) => false,
        CType::Void => false,
    }
}

/// Whether an object is a parameter, since its number is below their count, and of another type.
fn is_other_parameter(object: &LocalObject, at: usize, count: usize) -> bool
    ensures { result ≡ spec.is_other_parameter at count (local_view object.now) }
{
    if at < count {
        !is_integer(&object.ctype)
    } else {
        false
    }
}

/// Whether each parameter, as many as there are, has an integer type.
#[tactic(auto, unfolding(crate::specs::Units::UnitEntries::integers_from))]
fn are_integers(objects: &[LocalObject], count: usize) -> bool
    ensures { result ≡ spec.integers_from 0 count (map local_view objects.now) }
{
    for at in 0..objects.len() {
        if is_other_parameter(&objects[at], at, count) {
            return false;
        }
    }
    true
}

/// Whether each parameter of a function has an integer type.
fn takes_integers(function: &Function) -> bool
    ensures { result ≡ spec.takes_integers (function_view function.now) }
{
    are_integers(function.locals.as_slice(), function.parameters as usize)
}

/// Whether a function has a name.
fn has_name(function: &Function, name: &str) -> bool
    ensures { result ≡ spec.has_name (function_view function.now) name.now }
{
    function.name.as_bytes() == name.as_bytes()
}

/// The number of a function, where it may be the entry.
fn entry_if(function: &Function, at: usize) -> Option<u32>
    ensures number { result ≡ spec.entry_if (function_view function.now) at }
    ensures same { IfSome result (λ n. n ≡ at) }
{
    if takes_integers(function) {
        u32::try_from(at).ok()
    } else {
        None
    }
}

/// The number of the entry, where it may be one.
#[tactic(auto, unfolding(crate::specs::Units::UnitEntries::entry_from))]
fn entry_number(functions: &[Function], entry: &str) -> Option<u32>
    ensures number { result ≡ spec.entry_number (map function_view functions.now) entry.now }
    ensures within { IfSome result (λ n. n < length functions.now) }
{
    for at in 0..functions.len() {
        let function = &functions[at];
        if has_name(function, entry) {
            return entry_if(function, at);
        }
    }
    None
}

/// The unit's first place.
fn first_place() -> Place
    ensures { result ≡ spec.first_place }
{
    Place {
        file: 0,
        line: 1,
        col: 1,
    }
}

/// The entry where no call closes a cycle, or the refusal of the first call that does.
fn judged_calls(alloc: Global, calls: &CallGraph, count: usize, entry: u32) -> Result<u32, Stop>
    ensures judged { Gives (λ n. n) (spec.judged_calls entry (first_cycle calls.now)) result }
    ensures same { IfOk result (λ n. n ≡ entry) }
{
    match calls.first_cycle(alloc, count)? {
        Some(place) => Err(refused(place, Refusal::Recursion)),
        None => Ok(entry),
    }
}

/// The number of the entry, after the refusals that need the whole unit.
pub fn judged_unit(
    alloc: Global,
    calls: &CallGraph,
    functions: &[Function],
    entry: &str,
) -> Result<u32, Stop>
    ensures judged { Gives (λ n. n) (spec.judged (map function_view functions.now) entry.now calls.now) result }
    ensures within { IfOk result (λ n. n < length functions.now) }
    ensures chosen { IfOk result (λ n. spec.entry_number (map function_view functions.now) entry.now ≡ Some n) }
{
    match entry_number(functions, entry) {
        Some(number) => judged_calls(alloc, calls, functions.len(), number),
        None => Err(refused(first_place(), Refusal::NoEntry)),
    }
}
