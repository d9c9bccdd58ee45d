//! What calls of the library check before they do anything (7.1.4 of ISO/IEC 9899:2011).
ghost use Rattle.std.specs.Prelude.{◌≡◌, ◌&&◌, nat_lt, true};
ghost use Rattle.c_layout.specs.Models.{is_model};
ghost use Rattle.memory_model.specs.Memory.Labels.{is_unlabelled};
ghost use Rattle.memory_model.specs.Effects.Worlds.{done};
ghost use Rattle.memory_model.specs.Effects.LibraryChecks as machine;
ghost use Rattle.memory_model.specs.Effects.Touches.{is_literal, storage_at};
ghost use Rattle.interp_memory.specs.ByteViews.{labels_view, pointer_view};
ghost use Rattle.interp_accesses.specs.WorldViews.{world_view, ComesTo, nothing_view};
ghost use Rattle.interp_accesses.specs.Reaches.{reach_view};

use crate::worlds::{Halt, World7};
use c_layout::Model;
use cc_base::Rule;
use interp_memory::{InstKind, InstState, LabelSet, Pointer7, Spot};

/// What a pointer to a live instance reaches: the bytes up to its upper bound.
#[derive(Clone, Copy)]
pub struct Reach {
    pub spot: Spot,
    pub room: u64,
}

// Whether a number has no label.
fn has_no_label(labels: LabelSet) -> bool
    ensures { result ≡ is_unlabelled (labels_view labels) }
{
    !(labels.low || (labels.high || labels.changed))
}

/// A size that has a label is a violation; the run goes on.
pub fn with_size(w: &mut World7, labels: LabelSet) -> Result<(), Halt>
    ensures { ComesTo nothing_view (done (machine.with_size (world_view w.old) (labels_view labels))) result (world_view w.new) }
{
    w.note(!has_no_label(labels), Rule::Taintsink)
}

/// The greatest number of the type of differences of pointers.
pub fn most_size(model: &Model) -> u128
    requires { is_model model.now ≡ true }
    ensures { result ≡ machine.most_size model.now }
{
    if model.pointer == 4 {
        0x7fff_ffff
    } else {
        0x7fff_ffff_ffff_ffff
    }
}

/// What a pointer reaches, where it points to a live instance.
pub fn reached(w: &mut World7, p: Pointer7) -> Result<Reach, Halt>
    ensures { ComesTo reach_view (machine.reached (pointer_view p) (world_view w.old)) result (world_view w.new) }
{
    match p {
        Pointer7::Null => Err(w.stopped_by(Rule::Nullref)),
        Pointer7::At { inst, off, hi, .. } => match w.memory.state(inst) {
            InstState::Ended => Err(w.stopped_by(Rule::Nullref)),
            InstState::Freed => Err(w.stopped_by(Rule::Accfree)),
            InstState::Live => Ok(Reach {
                spot: Spot { inst, offset: off },
                room: hi.saturating_sub(off),
            }),
        },
    }
}

/// So many bytes are touched, as far as a pointer reaches.
pub fn fitting(w: &mut World7, size: u128, reach: Reach) -> Result<Reach, Halt>
    ensures { ComesTo reach_view (machine.fitting size (reach_view reach) (world_view w.old)) result (world_view w.new) }
{
    if u128::from(reach.room) < size {
        Err(w.stopped_by(Rule::Libptr))
    } else {
        Ok(reach)
    }
}

// Whether so many bytes are written into a literal.
fn writes_literal(w: &World7, size: u128, reach: Reach) -> bool
    ensures { result ≡ (nat_lt 0 size && is_literal (storage_at w.now.memory.memory reach.spot.inst)) }
{
    0 < size && w.memory.kind(reach.spot.inst) == InstKind::Literal
}

/// So many bytes are written.
pub fn writable(w: &mut World7, size: u128, reach: Reach) -> Result<Reach, Halt>
    ensures { ComesTo reach_view (machine.writable size (reach_view reach) (world_view w.old)) result (world_view w.new) }
{
    if writes_literal(w, size, reach) {
        Err(w.stopped_by(Rule::Strmod))
    } else {
        Ok(reach)
    }
}
