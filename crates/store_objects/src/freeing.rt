//! Freeing instances.
ghost use Rattle.std.specs.Prelude.{◌≡◌, length, false};
ghost use Rattle.store_objects.specs.Freeing.{freed_state, is_heap_in, free_base_if, free_bases, free};

use crate::live_bases::{has_base, is_one_instance};
use c_layout::BaseInfo;
use cc_base::IntDomain;
use pointer_domain::{Bases, Pointers};
use store_cells::{put_state, state_at, state_position};
use value_domain::values::{AllocState, Cell};

/// The state of instances that are freed: surely, then none is live, or perhaps.
fn freed_state<I: IntDomain>(surely: bool, state: AllocState<I>) -> AllocState<I>
    ensures { result ≡ freed_state surely state }
{
    AllocState {
        size: state.size,
        live: !surely && state.live,
        freed: true,
    }
}

/// Frees the instances of a base if they are wanted.
#[tactic(auto, unfolding(crate::specs::Freeing::free_base_if))]
fn free_base<I: IntDomain>(wanted: bool, base: &BaseInfo, row: &mut [Cell<I>], surely: bool)
    ensures length { length row.new ≡ length row.old }
    ensures row { row.new ≡ free_base_if I.lattice I.numbers wanted surely base.now row.old }
{
    if wanted {
        let position = state_position(base);
        let old = state_at(row, position);
        put_state(row, position, freed_state(surely, old));
    }
}

/// Whether the set has the base with this number, and it is a heap base.
fn is_heap_in(base: &BaseInfo, number: usize, set: Bases) -> bool
    ensures { result ≡ is_heap_in set base.now number }
{
    has_base(set, number) && base.shape.heap
}

#[tactic(auto, unfolding(crate::specs::Freeing::free_bases))]
fn free_bases<I: IntDomain>(bases: &[BaseInfo], row: &mut [Cell<I>], set: Bases, surely: bool)
    ensures length { length row.new ≡ length row.old }
    ensures row { row.new ≡ free_bases I.lattice I.numbers bases.now set surely row.old }
{
    for n in 0..bases.len() {
        free_base(is_heap_in(&bases[n], n, set), &bases[n], row, surely);
    }
}

/// The instances of the bases of a set may be freed.
pub fn free_perhaps<I: IntDomain>(bases: &[BaseInfo], row: &mut [Cell<I>], set: Bases)
    ensures length { length row.new ≡ length row.old }
    ensures row { row.new ≡ free_bases I.lattice I.numbers bases.now set false row.old }
{
    free_bases(bases, row, set, false);
}

/// Frees what the pointers are into: surely, where they are into one base that stands for one
/// instance and are not null; else perhaps.
#[tactic(auto, unfolding(crate::specs::Freeing::free))]
pub fn free<I: IntDomain>(bases: &[BaseInfo], row: &mut [Cell<I>], at: Pointers<I>)
    ensures length { length row.new ≡ length row.old }
    ensures row { row.new ≡ free I.lattice I.numbers bases.now at row.old }
{
    let surely = is_one_instance(bases, at.bases) && !at.null;
    free_bases(bases, row, at.bases, surely);
}
