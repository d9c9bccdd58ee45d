//! Pointers with integers, and differences of pointers (6.5.6 of ISO/IEC 9899:2011).
ghost use Rattle.std.specs.Prelude.{◌≡◌, IfOk, option_map};
ghost use Rattle.c_layout.specs.Types.{view};
ghost use Rattle.c_layout.specs.CheckedTrees.{term_tree};
ghost use Rattle.c_types_scopes.specs.Answers.{Gives};
ghost use Rattle.c_types_scopes.specs.Known.{known};
ghost use Rattle.c_types_operands.specs.Operands.{operand_view, value_view, boxed_term};
ghost use Rattle.c_types_operands.specs.PointerArithmetic as spec;
ghost use Rattle.c_types_operands.specs.PointerArithmetic.{sum_view};

use crate::arithmetic::{in_common_kind, value_kinds};
use crate::operands::{Operand, Value, is_integer, plain, term_node};
use c_layout::{BinaryOp, CType, CheckedTerm, TermForm};
use c_types_rules::rules::difference_kind;
use c_types_scopes::{Context, type_fault};
use cc_base::{Memory, Place, Stop};

/// The size of what a pointer points to, where that is complete.
pub fn target_size(cx: &Context, t: &CType) -> Option<u64>
    ensures { result ≡ spec.target_size (known cx.now) (view t.now) }
{
    match t {
        CType::Pointer(target) => cx.size_of(target),
        CType::Int(_) => None,
        CType::Array(_, _) => None,
        CType::Struct(_) => None,
        CType::Void => None,
    }
}

/// The type of a sum or a difference, and the size of an element.
#[derive(Drop)]
struct Sum {
    ctype: CType,
    size: u64,
}

/// The type of the sum of a pointer to a complete type and a number.
fn sum_of(cx: &Context, pointer: &CType) -> Result<Option<Sum>, Memory>
    ensures { IfOk result (λ o. option_map sum_view o ≡ spec.sum_of (known cx.now) (view pointer.now)) }
{
    match target_size(cx, pointer) {
        Some(size) => Ok(Some(Sum {
            ctype: pointer.copy(cx.alloc)?,
            size,
        })),
        None => Ok(None),
    }
}

/// The type of the sum of a pointer to a complete type and an integer.
fn one_sided(cx: &Context, pointer: &CType, integer: &CType) -> Result<Option<Sum>, Memory>
    ensures { IfOk result (λ o. option_map sum_view o ≡ spec.one_sided (known cx.now) (view pointer.now) (view integer.now)) }
{
    match integer {
        CType::Int(_) => sum_of(cx, pointer),
        CType::Pointer(_) => Ok(None),
        CType::Array(_, _) => Ok(None),
        CType::Struct(_) => Ok(None),
        CType::Void => Ok(None),
    }
}

/// The type of the sum of a pointer and an integer, on either side.
fn sum_type(cx: &Context, left: &CType, right: &CType) -> Result<Option<Sum>, Memory>
    ensures { IfOk result (λ o. option_map sum_view o ≡ spec.sum_type (known cx.now) (view left.now) (view right.now)) }
{
    match one_sided(cx, left, right)? {
        Some(found) => Ok(Some(found)),
        None => one_sided(cx, right, left),
    }
}

/// A pointer that is moved by a number, where there is a sum of them.
fn moved_by(
    cx: &Context,
    place: Place,
    down: bool,
    left: Box<CheckedTerm>,
    right: Box<CheckedTerm>,
    sum: Option<Sum>,
) -> Result<Box<CheckedTerm>, Stop>
    ensures { Gives boxed_term (spec.moved_by place down (term_tree left.value) (term_tree right.value) (option_map sum_view sum)) result }
{
    match sum {
        Some(Sum { ctype, size }) => {
            let form = TermForm::Shift(down, size, left, right);
            Ok(term_node(cx.alloc, place, ctype, form)?)
        }
        None => Err(type_fault(place)),
    }
}

/// The sum of a pointer to a complete type and an integer, on either side, which stay in the order
/// in which they stand.
pub fn pointer_sum(
    cx: &Context,
    place: Place,
    left: Box<CheckedTerm>,
    right: Box<CheckedTerm>,
) -> Result<Box<CheckedTerm>, Stop>
    ensures { Gives boxed_term (spec.pointer_sum (known cx.now) place (term_tree left.value) (term_tree right.value)) result }
{
    let sum = sum_type(cx, &left.ctype, &right.ctype)?;
    moved_by(cx, place, false, left, right, sum)
}

/// The size of an element where two types are pointers to one complete type.
pub fn common_target(cx: &Context, left: &CType, right: &CType) -> Option<u64>
    ensures { result ≡ spec.common_target (known cx.now) (view left.now) (view right.now) }
{
    if left.is_same(right) {
        target_size(cx, left)
    } else {
        None
    }
}

/// The difference of two pointers to one complete type.
fn pointer_difference(
    cx: &Context,
    place: Place,
    left: Box<CheckedTerm>,
    right: Box<CheckedTerm>,
) -> Result<Box<CheckedTerm>, Stop>
    ensures { Gives boxed_term (spec.pointer_difference (known cx.now) place (term_tree left.value) (term_tree right.value)) result }
{
    match common_target(cx, &left.ctype, &right.ctype) {
        Some(size) => {
            let ctype = CType::Int(difference_kind(&cx.model.numbers));
            let form = TermForm::Difference(size, left, right);
            Ok(term_node(cx.alloc, place, ctype, form)?)
        }
        None => Err(type_fault(place)),
    }
}

/// A pointer to a complete type less an integer.
fn pointer_less(
    cx: &Context,
    place: Place,
    left: Box<CheckedTerm>,
    right: Box<CheckedTerm>,
) -> Result<Box<CheckedTerm>, Stop>
    ensures { Gives boxed_term (spec.pointer_less (known cx.now) place (term_tree left.value) (term_tree right.value)) result }
{
    let sum = one_sided(cx, &left.ctype, &right.ctype)?;
    moved_by(cx, place, true, left, right, sum)
}

/// `-`, where not both operands are integers.
fn pointer_minus(
    cx: &Context,
    place: Place,
    left: Box<CheckedTerm>,
    right: Box<CheckedTerm>,
) -> Result<Box<CheckedTerm>, Stop>
    ensures { Gives boxed_term (spec.pointer_minus (known cx.now) place (term_tree left.value) (term_tree right.value)) result }
{
    if is_integer(&right.ctype) {
        pointer_less(cx, place, left, right)
    } else {
        pointer_difference(cx, place, left, right)
    }
}

/// `+` or `-`, where not both operands are integers.
fn pointer_additive(
    cx: &Context,
    place: Place,
    op: BinaryOp,
    left: Box<CheckedTerm>,
    right: Box<CheckedTerm>,
) -> Result<Operand, Stop>
    ensures { Gives operand_view (spec.pointer_additive (known cx.now) place op (term_tree left.value) (term_tree right.value)) result }
{
    match op {
        BinaryOp::Subtract => Ok(plain(pointer_minus(cx, place, left, right)?)),
        _ => Ok(plain(pointer_sum(cx, place, left, right)?)),
    }
}

/// `+` or `-`.
pub fn additive(
    cx: &Context,
    place: Place,
    op: BinaryOp,
    left: Value,
    right: Value,
) -> Result<Operand, Stop>
    ensures { Gives operand_view (spec.additive (known cx.now) place op (value_view left) (value_view right)) result }
{
    match value_kinds(&left, &right) {
        Some(kinds) => Ok(in_common_kind(cx, place, op, false, kinds, left, right)?),
        None => pointer_additive(cx, place, op, left.term, right.term),
    }
}
