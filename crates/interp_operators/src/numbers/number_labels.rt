//! The labels of results.
ghost use Rattle.std.specs.Prelude.{◌≡◌, not};
ghost use Rattle.memory_model.specs.Memory.Labels as machine;
ghost use Rattle.interp_memory.specs.ByteViews.{labels_view};

use cc_base::{IntOp, IntType, UnOp};
use interp_memory::LabelSet;

// Whether a number has a label.
fn has_label(s: LabelSet) -> bool
    ensures { result ≡ not (machine.is_unlabelled (labels_view s)) }
{
    s.low || (s.high || s.changed)
}

// Whether a change of an operand makes one of the result.
fn carries_change(op: IntOp, s: LabelSet, t: LabelSet) -> bool
    ensures { result ≡ machine.carries_change op (labels_view s) (labels_view t) }
{
    let changed = s.changed || t.changed;
    match op {
        IntOp::Rem => changed && has_label(t),
        IntOp::And => changed && (has_label(s) && has_label(t)),
        IntOp::Add | IntOp::Sub | IntOp::Mul | IntOp::Div => changed,
        IntOp::Or | IntOp::Xor | IntOp::Shl | IntOp::Shr => changed,
    }
}

// Whether an operator's unsigned result wraps round.
fn can_wrap(op: IntOp) -> bool
    ensures { result ≡ machine.can_wrap op }
{
    match op {
        IntOp::Add | IntOp::Sub | IntOp::Mul | IntOp::Shl => true,
        IntOp::Div | IntOp::Rem | IntOp::And | IntOp::Or | IntOp::Xor | IntOp::Shr => false,
    }
}

// Whether neither of two operands may be too low or too high.
fn is_bounded_by(s: LabelSet, t: LabelSet) -> bool
    ensures { result ≡ machine.is_bounded_by (labels_view s) (labels_view t) }
{
    !(s.low || (s.high || (t.low || t.high)))
}

/// The labels of a binary operator's result, which may leave its type.
pub(crate) fn operated_set(
    op: IntOp,
    s: LabelSet,
    t: LabelSet,
    kind: IntType,
    leaves: bool,
) -> LabelSet
    ensures { labels_view result ≡ machine.operated_labels op (labels_view s) (labels_view t) kind leaves }
{
    let unbounded = !is_bounded_by(s, t);
    LabelSet {
        low: kind.signed && unbounded,
        high: unbounded,
        changed: carries_change(op, s, t) || (can_wrap(op) && (!kind.signed && leaves)),
    }
}

// Whether a unary operator's unsigned result wraps round.
fn can_wrap_one(op: UnOp) -> bool
    ensures { result ≡ machine.can_wrap_unary op }
{
    match op {
        UnOp::Neg => true,
        UnOp::Compl => false,
    }
}

/// The labels of a unary operator's result, which may leave its type.
pub(crate) fn negated_set(op: UnOp, s: LabelSet, kind: IntType, leaves: bool) -> LabelSet
    ensures { labels_view result ≡ machine.negated_labels op (labels_view s) kind leaves }
{
    let unbounded = s.low || s.high;
    LabelSet {
        low: kind.signed && unbounded,
        high: unbounded,
        changed: s.changed || (can_wrap_one(op) && (!kind.signed && leaves)),
    }
}
