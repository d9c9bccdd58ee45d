//! The labels of the sides of tests.
ghost use Rattle.std.specs.Prelude.{◌≡◌, true, IfOk};
ghost use Rattle.memory_model.specs.Memory.Labels.{is_unlabelled, dropped_labels};
ghost use Rattle.memory_model.specs.Effects.Worlds.{with_memory};
ghost use Rattle.memory_model.specs.Effects.ScalarBytes.{contents};
ghost use Rattle.memory_model.specs.Effects.Tests as machine;
ghost use Rattle.interp_memory.specs.ByteViews.{labels_view, content_view, contents_view, bytes_view};
ghost use Rattle.interp_accesses.specs.ScalarKinds as kinds;
ghost use Rattle.interp_accesses.specs.WorldViews.{world_view, Computes, Leaves};
ghost use Rattle.interp_operators.specs.Tests.SideViews.{side_view};
ghost use Rattle.interp_operators.specs.Tests.Droppings.{dropping};

use crate::tests::test_sides::{Side7, object_bytes};
use c_layout::Model;
use cc_base::{IntType, Rel};
use cfg::Scalar;
use interp_accesses::{Halt, World7, is_model_scalar};
use interp_memory::{Byte7, Content7, LabelSet, Memory7, Spot, union_of, unlabelled};
use std::alloc::{AllocError, Global};

// The labels of a byte.
fn labels_of(content: Content7) -> LabelSet
    ensures { labels_view result ≡ machine.labels_of (content_view content) }
{
    match content {
        Content7::Number(_, labels) => labels,
        Content7::Blank | Content7::Part(_, _) => unlabelled(),
    }
}

// The union of the labels of bytes.
fn joined(bytes: &[Byte7]) -> LabelSet
    ensures { labels_view result ≡ machine.joined (bytes_view bytes.now) }
{
    match bytes.split_first() {
        None => unlabelled(),
        Some((first, rest)) => union_of(labels_of(first.content), joined(rest)),
    }
}

/// The labels that a side has now; a constant has none. A type that the model has not comes to want of
/// memory, since no unit has it.
pub(crate) fn side_labels(memory: &Memory7, model: &Model, side: Side7) -> Result<LabelSet, Halt>
    ensures { Computes labels_view (machine.side_labels model.now memory.now.memory (side_view side)) result }
{
    match side {
        Side7::Object(inst, kind) => {
            if is_model_scalar(model, kind) {
                Ok(joined(object_bytes(memory, model, inst, kind)))
            } else {
                Err(Halt::Memory)
            }
        }
        Side7::Constant(_) | Side7::Nothing => Ok(unlabelled()),
    }
}

/// Whether a number has no label.
fn has_no_label(s: LabelSet) -> bool
    ensures { result ≡ is_unlabelled (labels_view s) }
{
    !(s.low || (s.high || s.changed))
}

/// Which labels are dropped: those that a relation bounds, or all.
#[derive(Clone, Copy)]
pub(crate) enum Drops {
    By(Rel, IntType),
    All,
}

// The labels that stay.
fn kept(drops: Drops, s: LabelSet) -> LabelSet
    ensures { labels_view result ≡ dropping drops (labels_view s) }
{
    match drops {
        Drops::By(rel, common) => dropped(rel, s, common),
        Drops::All => unlabelled(),
    }
}

// The labels that stay behind a relation.
fn dropped(rel: Rel, s: LabelSet, common: IntType) -> LabelSet
    ensures { labels_view result ≡ dropped_labels rel (labels_view s) common }
{
    match rel {
        Rel::Lt | Rel::Le => LabelSet {
            low: common.signed && s.low,
            high: false,
            changed: false,
        },
        Rel::Gt | Rel::Ge => LabelSet {
            low: !common.signed && s.low,
            high: s.high,
            changed: s.changed,
        },
        Rel::Eq => unlabelled(),
        Rel::Ne => s,
    }
}

// A byte with other labels.
fn relabelled(drops: Drops, content: Content7) -> Content7
    ensures { content_view result ≡ machine.relabelled (dropping drops) (content_view content) }
{
    match content {
        Content7::Number(n, labels) => Content7::Number(n, kept(drops, labels)),
        Content7::Blank => Content7::Blank,
        Content7::Part(p, k) => Content7::Part(p, k),
    }
}

// The contents of bytes with other labels.
fn relabelled_contents(
    alloc: Global,
    bytes: &[Byte7],
    drops: Drops,
) -> Result<Vec<Content7>, AllocError>
    ensures { IfOk result (λ all. contents_view all.items ≡ contents (machine.all_relabelled (dropping drops) (bytes_view bytes.now))) }
{
    let mut all = Vec::with_capacity(alloc, bytes.len())?;
    for byte in bytes {
        all.push(relabelled(drops, byte.content))?;
    }
    Ok(all)
}

// The bytes of an object of a type of the model with other labels.
fn relabel_object(
    w: &mut World7,
    model: &Model,
    drops: Drops,
    inst: u32,
    kind: Scalar,
) -> Result<(), Halt>
    requires { kinds.is_model_scalar model.now kind ≡ true }
    ensures { Leaves (with_memory (world_view w.old) (machine.object_relabelled model.now (dropping drops) inst kind w.old.memory.memory)) result (world_view w.new) }
{
    let bytes = object_bytes(&w.memory, model, inst, kind);
    match relabelled_contents(w.alloc, bytes, drops) {
        Ok(contents) => {
            w.memory.rewrite(Spot { inst, offset: 0 }, &contents);
            Ok(())
        }
        Err(_) => Err(Halt::Memory),
    }
}

/// A side with other labels. A type that the model has not comes to want of memory, since no unit has it.
pub(crate) fn with_labels(
    w: &mut World7,
    model: &Model,
    drops: Drops,
    side: Side7,
) -> Result<(), Halt>
    ensures { Leaves (with_memory (world_view w.old) (machine.with_labels model.now (dropping drops) (side_view side) w.old.memory.memory)) result (world_view w.new) }
{
    match side {
        Side7::Object(inst, kind) => {
            if is_model_scalar(model, kind) {
                relabel_object(w, model, drops, inst, kind)
            } else {
                Err(Halt::Memory)
            }
        }
        Side7::Constant(_) | Side7::Nothing => Ok(()),
    }
}

/// A side loses labels where the other one has none.
pub(crate) fn bounded(
    w: &mut World7,
    model: &Model,
    rel: Rel,
    common: IntType,
    side: Side7,
    other: LabelSet,
) -> Result<(), Halt>
    ensures { Leaves (with_memory (world_view w.old) (machine.bounded model.now rel common (side_view side) (labels_view other) w.old.memory.memory)) result (world_view w.new) }
{
    if has_no_label(other) {
        with_labels(w, model, Drops::By(rel, common), side)
    } else {
        Ok(())
    }
}
