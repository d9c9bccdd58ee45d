//! Multiplicative, additive, shift and bitwise operators (6.5.5 to 6.5.7, 6.5.10 to 6.5.12 of
//! ISO/IEC 9899:2011).
ghost use Rattle.std.specs.Prelude.{◌≡◌, IfOk};
ghost use Rattle.c_layout.specs.Types.{view};
ghost use Rattle.c_types_scopes.specs.Answers.{Gives};
ghost use Rattle.c_types_scopes.specs.Known.{known};
ghost use Rattle.c_types_operands.specs.Operands.{operand_view, value_view};
ghost use Rattle.c_types_operands.specs.Arithmetic as spec;

use crate::implicit_conversions::integer_as;
use crate::operands::{Constancy, Operand, Value, number_operand};
use c_layout::{BinaryOp, CType, TermForm};
use c_types_rules::rules::{common_kind, folded, int_kind, promoted, shifted};
use c_types_scopes::{Context, type_fault};
use cc_base::{IntType, Memory, Place, Stop};

/// Two integer types.
#[derive(Clone, Copy)]
pub struct KindPair {
    pub left: IntType,
    pub right: IntType,
}

/// An integer type with that of a type, where it is one.
fn kind_pair(a: IntType, right: &CType) -> Option<KindPair>
    ensures { result ≡ spec.kind_pair a (view right.now) }
{
    match right {
        CType::Int(b) => Some(KindPair { left: a, right: *b }),
        CType::Pointer(_) => None,
        CType::Array(_, _) => None,
        CType::Struct(_) => None,
        CType::Void => None,
    }
}

/// The integer types of two types, where both are such.
pub fn integer_kinds(left: &CType, right: &CType) -> Option<KindPair>
    ensures { result ≡ spec.integer_kinds (view left.now) (view right.now) }
{
    match left {
        CType::Int(a) => kind_pair(*a, right),
        CType::Pointer(_) => None,
        CType::Array(_, _) => None,
        CType::Struct(_) => None,
        CType::Void => None,
    }
}

/// The integer types of two values, where both have such.
pub fn value_kinds(left: &Value, right: &Value) -> Option<KindPair>
    ensures { result ≡ spec.value_kinds (value_view left.now) (value_view right.now) }
{
    integer_kinds(&left.term.ctype, &right.term.ctype)
}

/// The value of an operator on two constants.
fn folded_constant(
    op: BinaryOp,
    kind: IntType,
    left: Option<i128>,
    right: Option<i128>,
) -> Option<i128>
    ensures { result ≡ spec.folded_constant op kind left right }
{
    folded(op, kind, left?, right?)
}

/// The value of a shift of two constants.
fn shifted_constant(
    op: BinaryOp,
    kind: IntType,
    left: Option<i128>,
    right: Option<i128>,
) -> Option<i128>
    ensures { result ≡ spec.shifted_constant op kind left right }
{
    shifted(op, kind, left?, right?)
}

/// An operator on two integers in their types; `to` is its result's type.
fn integer_node(
    cx: &Context,
    place: Place,
    op: BinaryOp,
    kinds: KindPair,
    to: IntType,
    operands: (Value, Value),
    constant: Option<i128>,
) -> Result<Operand, Memory>
    ensures { IfOk result (λ o. operand_view o ≡ spec.integer_node (known cx.now) place op kinds to (value_view operands.0) (value_view operands.1) constant) }
{
    let (left, right) = operands;
    let constancy = Constancy {
        constant,
        fixed: left.fixed && right.fixed,
    };
    let left = integer_as(cx, left.term, kinds.left)?;
    let right = integer_as(cx, right.term, kinds.right)?;
    let form = TermForm::Integer(op, left, right);
    number_operand(cx.alloc, place, CType::Int(to), form, constancy)
}

/// The type of the result of an operator on integers of a type: a comparison gives an int.
fn result_kind(cx: &Context, is_int: bool, kind: IntType) -> IntType
    ensures { result ≡ spec.result_kind (known cx.now) is_int kind }
{
    if is_int {
        int_kind(&cx.model.numbers)
    } else {
        kind
    }
}

/// An operator on two integers in a type.
fn in_kind(
    cx: &Context,
    place: Place,
    op: BinaryOp,
    is_int: bool,
    kind: IntType,
    left: Value,
    right: Value,
) -> Result<Operand, Memory>
    ensures { IfOk result (λ o. operand_view o ≡ spec.in_kind (known cx.now) place op is_int kind (value_view left) (value_view right)) }
{
    let constant = folded_constant(op, kind, left.term.constant, right.term.constant);
    let to = result_kind(cx, is_int, kind);
    let kinds = KindPair {
        left: kind,
        right: kind,
    };
    integer_node(cx, place, op, kinds, to, (left, right), constant)
}

/// An operator on two integers in their common type; `is_int` says that its result is an int.
pub fn in_common_kind(
    cx: &Context,
    place: Place,
    op: BinaryOp,
    is_int: bool,
    kinds: KindPair,
    left: Value,
    right: Value,
) -> Result<Operand, Memory>
    ensures { IfOk result (λ o. operand_view o ≡ spec.in_common_kind (known cx.now) place op is_int kinds (value_view left) (value_view right)) }
{
    let kind = common_kind(&cx.model.numbers, kinds.left, kinds.right);
    in_kind(cx, place, op, is_int, kind, left, right)
}

/// An operator on two integers whose result has their common type.
pub fn integer_operation(
    cx: &Context,
    place: Place,
    op: BinaryOp,
    left: Value,
    right: Value,
) -> Result<Operand, Stop>
    ensures { Gives operand_view (spec.integer_operation (known cx.now) place op (value_view left) (value_view right)) result }
{
    match value_kinds(&left, &right) {
        Some(kinds) => Ok(in_common_kind(cx, place, op, false, kinds, left, right)?),
        None => Err(type_fault(place)),
    }
}

/// Two integer types, each promoted.
fn promoted_kinds(cx: &Context, kinds: KindPair) -> KindPair
    ensures { result ≡ spec.promoted_kinds (known cx.now) kinds }
{
    KindPair {
        left: promoted(&cx.model.numbers, kinds.left),
        right: promoted(&cx.model.numbers, kinds.right),
    }
}

/// A shift of integers in their types.
fn shift_in(
    cx: &Context,
    place: Place,
    op: BinaryOp,
    kinds: KindPair,
    left: Value,
    right: Value,
) -> Result<Operand, Memory>
    ensures { IfOk result (λ o. operand_view o ≡ spec.shift_in (known cx.now) place op kinds (value_view left) (value_view right)) }
{
    let constant = shifted_constant(op, kinds.left, left.term.constant, right.term.constant);
    integer_node(cx, place, op, kinds, kinds.left, (left, right), constant)
}

/// `<<` or `>>`: each operand is promoted, and the result has the left one's type.
pub fn shift_operation(
    cx: &Context,
    place: Place,
    op: BinaryOp,
    left: Value,
    right: Value,
) -> Result<Operand, Stop>
    ensures { Gives operand_view (spec.shift_operation (known cx.now) place op (value_view left) (value_view right)) result }
{
    match value_kinds(&left, &right) {
        Some(kinds) => {
            let kinds = promoted_kinds(cx, kinds);
            Ok(shift_in(cx, place, op, kinds, left, right)?)
        }
        None => Err(type_fault(place)),
    }
}
