//! Relations, equalities, and the operators between two operands by groups (6.5.5 to 6.5.12 of
//! ISO/IEC 9899:2011).
ghost use Rattle.std.specs.Prelude.{◌≡◌, IfOk};
ghost use Rattle.c_layout.specs.CheckedTrees.{term_tree};
ghost use Rattle.c_types_scopes.specs.Answers.{Gives};
ghost use Rattle.c_types_scopes.specs.Known.{known};
ghost use Rattle.c_types_operands.specs.Operands.{operand_view, value_view, term_type};
ghost use Rattle.c_types_operands.specs.Conversions as conversions;
ghost use Rattle.c_types_operands.specs.Comparisons as spec;

use crate::arithmetic::{in_common_kind, integer_operation, shift_operation, value_kinds};
use crate::implicit_conversions::in_type;
use crate::operands::{Operand, Value, is_null, value_of, value_operand};
use crate::pointer_arithmetic::{additive, common_target};
use c_layout::{BinaryOp, CType, CheckedTerm, TermForm};
use c_types_rules::rules::{Pairing, int_kind, paired};
use c_types_scopes::{Context, pointer_integer, type_fault};
use cc_base::{Memory, Place, Stop};

/// A comparison of two pointers.
fn pointer_comparison(
    cx: &Context,
    place: Place,
    op: BinaryOp,
    left: Box<CheckedTerm>,
    right: Box<CheckedTerm>,
) -> Result<Operand, Memory>
    ensures { IfOk result (λ o. operand_view o ≡ spec.pointer_comparison (known cx.now) place op (term_tree left.value) (term_tree right.value)) }
{
    let ctype = CType::Int(int_kind(&cx.model.numbers));
    value_operand(cx.alloc, place, ctype, TermForm::Compare(op, left, right))
}

/// A relation of two pointers to one complete type.
fn pointer_relation(
    cx: &Context,
    place: Place,
    op: BinaryOp,
    left: Box<CheckedTerm>,
    right: Box<CheckedTerm>,
) -> Result<Operand, Stop>
    ensures { Gives operand_view (spec.pointer_relation (known cx.now) place op (term_tree left.value) (term_tree right.value)) result }
{
    match common_target(cx, &left.ctype, &right.ctype) {
        Some(_) => Ok(pointer_comparison(cx, place, op, left, right)?),
        None => Err(type_fault(place)),
    }
}

/// `<`, `>`, `<=` or `>=`: two integers, or two pointers to one complete type.
fn relation(
    cx: &Context,
    place: Place,
    op: BinaryOp,
    left: Value,
    right: Value,
) -> Result<Operand, Stop>
    ensures { Gives operand_view (spec.relation (known cx.now) place op (value_view left) (value_view right)) result }
{
    match value_kinds(&left, &right) {
        Some(kinds) => Ok(in_common_kind(cx, place, op, true, kinds, left, right)?),
        None => pointer_relation(cx, place, op, left.term, right.term),
    }
}

/// How two values come to one type.
pub fn pairing(left: &CheckedTerm, right: &CheckedTerm) -> Pairing
    ensures { result ≡ spec.pairing (term_tree left.now) (term_tree right.now) }
{
    paired(&left.ctype, is_null(left), &right.ctype, is_null(right))
}

/// A term converted to another one's type, where it has another.
pub fn as_type_of(
    cx: &Context,
    from: Box<CheckedTerm>,
    like: &CheckedTerm,
) -> Result<Box<CheckedTerm>, Memory>
    ensures { IfOk result (λ b. term_tree b.value ≡ conversions.in_type (known cx.now) (term_tree from.value) (term_type (term_tree like.now))) }
{
    let to = like.ctype.copy(cx.alloc)?;
    in_type(cx, from, to)
}

/// An equality of two pointers that come to one type.
fn pointer_equality(
    cx: &Context,
    place: Place,
    op: BinaryOp,
    left: Box<CheckedTerm>,
    right: Box<CheckedTerm>,
) -> Result<Operand, Stop>
    ensures { Gives operand_view (spec.pointer_equality (known cx.now) place op (term_tree left.value) (term_tree right.value)) result }
{
    match pairing(&left, &right) {
        Pairing::AsLeft => {
            let right = as_type_of(cx, right, &left)?;
            Ok(pointer_comparison(cx, place, op, left, right)?)
        }
        Pairing::AsRight => {
            let left = as_type_of(cx, left, &right)?;
            Ok(pointer_comparison(cx, place, op, left, right)?)
        }
        Pairing::Crosses => Err(pointer_integer(place)),
        Pairing::Integers => Err(type_fault(place)),
        Pairing::Apart => Err(type_fault(place)),
    }
}

/// `==` or `!=`.
fn equality(
    cx: &Context,
    place: Place,
    op: BinaryOp,
    left: Value,
    right: Value,
) -> Result<Operand, Stop>
    ensures { Gives operand_view (spec.equality (known cx.now) place op (value_view left) (value_view right)) result }
{
    match value_kinds(&left, &right) {
        Some(kinds) => Ok(in_common_kind(cx, place, op, true, kinds, left, right)?),
        None => pointer_equality(cx, place, op, left.term, right.term),
    }
}

/// The operators by their rules.
#[derive(Clone, Copy)]
enum BinaryGroup {
    /// `*`, `/`, `%`, `&`, `^` and `|`: integers in their common type.
    Integers,
    /// `+` and `-`.
    Additive,
    /// `<<` and `>>`.
    Shift,
    /// `<`, `>`, `<=` and `>=`.
    Relation,
    /// `==` and `!=`.
    Equality,
}

fn group_of(op: BinaryOp) -> BinaryGroup
    ensures { result ≡ spec.group_of op }
{
    match op {
        BinaryOp::Multiply => BinaryGroup::Integers,
        BinaryOp::Divide => BinaryGroup::Integers,
        BinaryOp::Remainder => BinaryGroup::Integers,
        BinaryOp::And => BinaryGroup::Integers,
        BinaryOp::Xor => BinaryGroup::Integers,
        BinaryOp::Or => BinaryGroup::Integers,
        BinaryOp::Add => BinaryGroup::Additive,
        BinaryOp::Subtract => BinaryGroup::Additive,
        BinaryOp::ShiftLeft => BinaryGroup::Shift,
        BinaryOp::ShiftRight => BinaryGroup::Shift,
        BinaryOp::Less => BinaryGroup::Relation,
        BinaryOp::Greater => BinaryGroup::Relation,
        BinaryOp::LessEqual => BinaryGroup::Relation,
        BinaryOp::GreaterEqual => BinaryGroup::Relation,
        BinaryOp::Equal => BinaryGroup::Equality,
        BinaryOp::NotEqual => BinaryGroup::Equality,
    }
}

/// An operator between two values.
fn between_values(
    cx: &Context,
    place: Place,
    op: BinaryOp,
    left: Value,
    right: Value,
) -> Result<Operand, Stop>
    ensures { Gives operand_view (spec.between_values (known cx.now) place op (value_view left) (value_view right)) result }
{
    match group_of(op) {
        BinaryGroup::Integers => integer_operation(cx, place, op, left, right),
        BinaryGroup::Additive => additive(cx, place, op, left, right),
        BinaryGroup::Shift => shift_operation(cx, place, op, left, right),
        BinaryGroup::Relation => relation(cx, place, op, left, right),
        BinaryGroup::Equality => equality(cx, place, op, left, right),
    }
}

/// An operator between two operands.
pub fn binary(
    cx: &Context,
    place: Place,
    op: BinaryOp,
    left: Operand,
    right: Operand,
) -> Result<Operand, Stop>
    ensures { Gives operand_view (spec.binary (known cx.now) place op (operand_view left) (operand_view right)) result }
{
    let left = value_of(cx.alloc, left)?;
    let right = value_of(cx.alloc, right)?;
    between_values(cx, place, op, left, right)
}
