//! `malloc`, `calloc`, `realloc` and `free` (7.22.3 of ISO/IEC 9899:2011).
ghost use Rattle.std.specs.Prelude.{◌≡◌};
ghost use Rattle.transfer_library_plans.specs.Calls.{call_view};
ghost use Rattle.transfer_library_plans.specs.Allocations.{sized_trail, malloc_of, calloc_of, released, realloc_of, free_of, instance_size, plan_malloc, from_zero, product_of, products_of, products, plan_calloc, plan_realloc, plan_free};
ghost use Rattle.pointer_domain.specs.PointerTables.{IsNearPointer};
ghost use Rattle.cc_base.specs.IntegerDomains.{IsNear};

use crate::call_arguments::{Call, argument_value};
use crate::call_plans::{Effect, Plan, Trail, planned};
use c_layout::{Class, Model};
use cc_base::{IntDomain, of_range, range_met};
use store::{kind_of, near_number};
use transfer_checks::{Released, Violations, allocation_violations, check_release};
use value_domain::values::{Cell, Labels, Value};

/// The sizes that an instance can have: those asked for, up to the greatest number of ptrdiff_t.
fn instance_size<I: IntDomain>(model: &Model, size: Option<(i128, i128)>) -> I
    ensures near { IsNear (I.numbers.bounds result) }
    ensures value { result ≡ instance_size I.lattice I.numbers model.now size }
{
    let most = kind_of(model, Class::Pointer, true).greatest();
    near_number(of_range(range_met(size, 0, most)))
}

/// The trail behind the checks of a size.
fn sized_trail(size: Option<(i128, i128)>, labels: Labels, wanted: Option<u64>) -> Trail
    ensures { result ≡ sized_trail size labels wanted }
{
    let trail = Trail::start(allocation_violations(size, labels, wanted));
    trail.check(Violations::none(), size.is_some())
}

fn malloc_of<I: IntDomain>(call: Call, n: Value<I>) -> Plan<I>
    ensures { result ≡ malloc_of I.lattice I.numbers (call_view call.entry) n }
{
    let size = n.num.bounds();
    let trail = sized_trail(size, n.labels, call.wanted);
    planned(
        trail,
        Effect::Allocate(instance_size(&call.flow.model, size), false),
    )
}

/// The plan of `malloc`.
#[tactic(auto, unfolding(crate::specs::Allocations::plan_malloc))]
pub fn plan_malloc<I: IntDomain>(call: Call, row: &[Cell<I>]) -> Plan<I>
    ensures { result ≡ plan_malloc I.lattice I.numbers (call_view call.entry) row.now }
{
    malloc_of(call, argument_value(call, row, 0))
}

fn product(a: i128, b: i128) -> i128
    ensures { result ≡ product_of a b }
{
    a.saturating_mul(b)
}

/// The numbers that are not negative.
fn from_zero(x: Option<(i128, i128)>) -> Option<(i128, i128)>
    ensures { result ≡ from_zero x }
{
    match x {
        None => None,
        Some(p) => range_met(Some(p), 0, p.1),
    }
}

/// The products of the numbers of two ranges that are not negative.
fn products(x: Option<(i128, i128)>, y: Option<(i128, i128)>) -> Option<(i128, i128)>
    ensures { result ≡ products x y }
{
    products_of(from_zero(x), from_zero(y))
}

fn products_of(x: Option<(i128, i128)>, y: Option<(i128, i128)>) -> Option<(i128, i128)>
    ensures { result ≡ products_of x y }
{
    match (x, y) {
        (Some(p), Some(q)) => Some((product(p.0, q.0), product(p.1, q.1))),
        _ => None,
    }
}

fn calloc_of<I: IntDomain>(call: Call, m: Value<I>, n: Value<I>) -> Plan<I>
    ensures { result ≡ calloc_of I.lattice I.numbers (call_view call.entry) m n }
{
    let size = products(m.num.bounds(), n.num.bounds());
    let trail = sized_trail(size, m.labels.union(n.labels), call.wanted);
    planned(
        trail,
        Effect::Allocate(instance_size(&call.flow.model, size), true),
    )
}

/// The plan of `calloc`.
#[tactic(auto, unfolding(crate::specs::Allocations::plan_calloc))]
pub fn plan_calloc<I: IntDomain>(call: Call, row: &[Cell<I>]) -> Plan<I>
    ensures { result ≡ plan_calloc I.lattice I.numbers (call_view call.entry) row.now }
{
    let m = argument_value(call, row, 0);
    let n = argument_value(call, row, 1);
    calloc_of(call, m, n)
}

/// The release of the first argument.
fn released<I: IntDomain>(call: Call, row: &[Cell<I>]) -> Released<I>
    ensures { result ≡ released I.lattice I.numbers (call_view call.entry) row.now }
{
    let bases = call.flow.bases.as_slice();
    check_release(bases, row, argument_value(call, row, 0).pointer)
}

fn realloc_of<I: IntDomain>(call: Call, n: Value<I>, old: Released<I>) -> Plan<I>
    ensures { result ≡ realloc_of I.lattice I.numbers (call_view call.entry) n old }
{
    let size = n.num.bounds();
    let trail = sized_trail(size, n.labels, call.wanted);
    let trail = trail.check(old.violations, old.rest.is_any());
    planned(
        trail,
        Effect::Reallocate(instance_size(&call.flow.model, size), old.rest),
    )
}

/// The plan of `realloc`.
#[tactic(auto, unfolding(crate::specs::Allocations::plan_realloc))]
pub fn plan_realloc<I: IntDomain>(call: Call, row: &[Cell<I>]) -> Plan<I>
    ensures { result ≡ plan_realloc I.lattice I.numbers (call_view call.entry) row.now }
{
    let n = argument_value(call, row, 1);
    realloc_of(call, n, released(call, row))
}

fn free_of<I: IntDomain>(old: Released<I>) -> Plan<I>
    ensures { result ≡ free_of old }
{
    let trail = Trail::start(Violations::none());
    let trail = trail.check(old.violations, old.rest.is_any());
    planned(trail, Effect::Free(old.rest))
}

/// The plan of `free`.
#[tactic(auto, unfolding(crate::specs::Allocations::plan_free))]
pub fn plan_free<I: IntDomain>(call: Call, row: &[Cell<I>]) -> Plan<I>
    ensures { result ≡ plan_free I.lattice I.numbers (call_view call.entry) row.now }
{
    free_of(released(call, row))
}
