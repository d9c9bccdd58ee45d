//! `&&`, `||`, `?:` and the comma operator (6.5.13 to 6.5.15, 6.5.17 of ISO/IEC 9899:2011).
ghost use Rattle.std.specs.Prelude.{◌≡◌, IfOk};
ghost use Rattle.c_layout.specs.Types.{view};
ghost use Rattle.c_layout.specs.CheckedTrees.{term_tree, lvalue_tree};
ghost use Rattle.c_types_scopes.specs.Answers.{Gives};
ghost use Rattle.c_types_scopes.specs.Known.{known};
ghost use Rattle.c_types_operands.specs.Operands.{operand_view, value_view};
ghost use Rattle.c_types_operators.specs.Choices as spec;
ghost use Rattle.c_types_operators.specs.Choices.{choice_view};

use c_layout::{CType, CheckedTerm, LogicalOp, Lvalue, LvalueForm, TermForm};
use c_types_operands::{
    Constancy, Form, Operand, Value, as_type_of, integer_as, integer_kinds, is_scalar, is_struct,
    is_void, lvalue_operand, lvalue_value, number_operand, pairing, term_of, unused, value_of,
    value_operand,
};
use c_types_rules::rules::{Pairing, common_kind, converted, int_kind};
use c_types_scopes::{Context, pointer_integer, type_fault};
use cc_base::{IntType, Memory, Place, Stop};

/// 1 where a number is not 0.
fn truth_of(n: i128) -> i128
    ensures { result ≡ spec.truth_of n }
{
    if n == 0 { 0 } else { 1 }
}

fn truth_if(constant: Option<i128>) -> Option<i128>
    ensures { result ≡ spec.truth_if constant }
{
    Some(truth_of(constant?))
}

/// The value of `&&` on constants: the right one counts only where the left one is not 0.
fn and_value(left: Option<i128>, right: Option<i128>) -> Option<i128>
    ensures { result ≡ spec.and_value left right }
{
    if left? == 0 { Some(0) } else { truth_if(right) }
}

/// The value of `||` on constants: the right one counts only where the left one is 0.
fn or_value(left: Option<i128>, right: Option<i128>) -> Option<i128>
    ensures { result ≡ spec.or_value left right }
{
    if left? == 0 { truth_if(right) } else { Some(1) }
}

fn logical_value(op: LogicalOp, left: Option<i128>, right: Option<i128>) -> Option<i128>
    ensures { result ≡ spec.logical_value op left right }
{
    match op {
        LogicalOp::And => and_value(left, right),
        LogicalOp::Or => or_value(left, right),
    }
}

fn are_scalars(left: &CType, right: &CType) -> bool
    ensures { result ≡ spec.are_scalars (view left.now) (view right.now) }
{
    if is_scalar(left) {
        is_scalar(right)
    } else {
        false
    }
}

/// `&&` or `||` of two scalars.
fn logical_node(
    cx: &Context,
    place: Place,
    op: LogicalOp,
    left: Value,
    right: Value,
) -> Result<Operand, Memory>
    ensures { IfOk result (λ o. operand_view o ≡ spec.logical_node (known cx.now) place op (value_view left) (value_view right)) }
{
    let constancy = Constancy {
        constant: logical_value(op, left.term.constant, right.term.constant),
        fixed: left.fixed && right.fixed,
    };
    let ctype = CType::Int(int_kind(&cx.model.numbers));
    let form = TermForm::Logical(op, left.term, right.term);
    number_operand(cx.alloc, place, ctype, form, constancy)
}

fn logical_of(
    cx: &Context,
    place: Place,
    op: LogicalOp,
    left: Value,
    right: Value,
) -> Result<Operand, Stop>
    ensures { Gives operand_view (spec.logical_of (known cx.now) place op (value_view left) (value_view right)) result }
{
    if are_scalars(&left.term.ctype, &right.term.ctype) {
        Ok(logical_node(cx, place, op, left, right)?)
    } else {
        Err(type_fault(place))
    }
}

/// `&&` or `||`.
pub fn logical(
    cx: &Context,
    place: Place,
    op: LogicalOp,
    left: Operand,
    right: Operand,
) -> Result<Operand, Stop>
    ensures { Gives operand_view (spec.logical (known cx.now) place op (operand_view left) (operand_view right)) result }
{
    let left = value_of(cx.alloc, left)?;
    let right = value_of(cx.alloc, right)?;
    logical_of(cx, place, op, left, right)
}

/// The three operands of `?:`, and whether each has the form of a constant expression.
#[derive(Drop)]
struct Choice {
    condition: Box<CheckedTerm>,
    first: Box<CheckedTerm>,
    second: Box<CheckedTerm>,
    fixed: bool,
}

fn converted_if(kind: IntType, constant: Option<i128>) -> Option<i128>
    ensures { result ≡ spec.converted_if kind constant }
{
    Some(converted(kind, constant?))
}

/// The value of `?:` on integer constants: that of the arm that is chosen, in the common type.
fn chosen(
    kind: IntType,
    condition: Option<i128>,
    first: Option<i128>,
    second: Option<i128>,
) -> Option<i128>
    ensures { result ≡ spec.chosen kind condition first second }
{
    if condition? == 0 {
        converted_if(kind, second)
    } else {
        converted_if(kind, first)
    }
}

/// `?:` with integers of a common type as its arms.
fn integer_choice(
    cx: &Context,
    place: Place,
    kind: IntType,
    choice: Choice,
) -> Result<Operand, Memory>
    ensures { IfOk result (λ o. operand_view o ≡ spec.integer_choice (known cx.now) place kind (choice_view choice)) }
{
    let Choice {
        condition,
        first,
        second,
        fixed,
    } = choice;
    let constancy = Constancy {
        constant: chosen(kind, condition.constant, first.constant, second.constant),
        fixed,
    };
    let first = integer_as(cx, first, kind)?;
    let second = integer_as(cx, second, kind)?;
    let form = TermForm::Conditional(condition, first, second);
    number_operand(cx.alloc, place, CType::Int(kind), form, constancy)
}

/// `?:` with arms of one type.
fn plain_choice(
    cx: &Context,
    place: Place,
    condition: Box<CheckedTerm>,
    first: Box<CheckedTerm>,
    second: Box<CheckedTerm>,
) -> Result<Operand, Memory>
    ensures { IfOk result (λ o. operand_view o ≡ spec.plain_choice place (term_tree condition.value) (term_tree first.value) (term_tree second.value)) }
{
    let ctype = first.ctype.copy(cx.alloc)?;
    let form = TermForm::Conditional(condition, first, second);
    value_operand(cx.alloc, place, ctype, form)
}

/// `?:` whose arms come to one type as pointers do.
fn paired_choice(cx: &Context, place: Place, choice: Choice) -> Result<Operand, Stop>
    ensures { Gives operand_view (spec.paired_choice_of (known cx.now) place (choice_view choice)) result }
{
    let Choice {
        condition,
        first,
        second,
        ..
    } = choice;
    match pairing(&first, &second) {
        Pairing::AsLeft => {
            let second = as_type_of(cx, second, &first)?;
            Ok(plain_choice(cx, place, condition, first, second)?)
        }
        Pairing::AsRight => {
            let first = as_type_of(cx, first, &second)?;
            Ok(plain_choice(cx, place, condition, first, second)?)
        }
        Pairing::Crosses => Err(pointer_integer(place)),
        Pairing::Integers => Err(type_fault(place)),
        Pairing::Apart => Err(type_fault(place)),
    }
}

fn are_void(left: &CType, right: &CType) -> bool
    ensures { result ≡ spec.are_void (view left.now) (view right.now) }
{
    if is_void(left) { is_void(right) } else { false }
}

/// `?:` whose arms are not both integers.
fn other_choice(cx: &Context, place: Place, choice: Choice) -> Result<Operand, Stop>
    ensures { Gives operand_view (spec.other_choice (known cx.now) place (choice_view choice)) result }
{
    if are_void(&choice.first.ctype, &choice.second.ctype) {
        let Choice {
            condition,
            first,
            second,
            ..
        } = choice;
        Ok(plain_choice(cx, place, condition, first, second)?)
    } else {
        paired_choice(cx, place, choice)
    }
}

/// `?:` with a scalar in front.
fn scalar_choice(cx: &Context, place: Place, choice: Choice) -> Result<Operand, Stop>
    ensures { Gives operand_view (spec.scalar_choice (known cx.now) place (choice_view choice)) result }
{
    match integer_kinds(&choice.first.ctype, &choice.second.ctype) {
        Some(kinds) => {
            let kind = common_kind(&cx.model.numbers, kinds.left, kinds.right);
            Ok(integer_choice(cx, place, kind, choice)?)
        }
        None => other_choice(cx, place, choice),
    }
}

/// `?:` of three values.
fn choice_of(cx: &Context, place: Place, choice: Choice) -> Result<Operand, Stop>
    ensures { Gives operand_view (spec.choice_of (known cx.now) place (choice_view choice)) result }
{
    if is_scalar(&choice.condition.ctype) {
        scalar_choice(cx, place, choice)
    } else {
        Err(type_fault(place))
    }
}

/// The three operands of `?:` from their values.
fn choice_from(condition: Value, first: Value, second: Value) -> Choice
    ensures { choice_view result ≡ spec.choice_from (value_view condition) (value_view first) (value_view second) }
{
    Choice {
        fixed: condition.fixed && (first.fixed && second.fixed),
        condition: condition.term,
        first: first.term,
        second: second.term,
    }
}

/// `?:` of a value and two arms.
fn conditional_with(
    cx: &Context,
    place: Place,
    condition: Value,
    first: Operand,
    second: Operand,
) -> Result<Operand, Stop>
    ensures { Gives operand_view (spec.conditional_with (known cx.now) place (value_view condition) (operand_view first) (operand_view second)) result }
{
    let first = value_of(cx.alloc, first)?;
    let second = value_of(cx.alloc, second)?;
    choice_of(cx, place, choice_from(condition, first, second))
}

/// `?:` of a scalar and two arms.
pub fn conditional(
    cx: &Context,
    place: Place,
    condition: Operand,
    first: Operand,
    second: Operand,
) -> Result<Operand, Stop>
    ensures { Gives operand_view (spec.conditional (known cx.now) place (operand_view condition) (operand_view first) (operand_view second)) result }
{
    let condition = value_of(cx.alloc, condition)?;
    conditional_with(cx, place, condition, first, second)
}

/// A comma expression whose last operand is a struct.
fn struct_comma(
    cx: &Context,
    place: Place,
    first: Box<CheckedTerm>,
    second: Box<Lvalue>,
) -> Result<Operand, Memory>
    ensures { IfOk result (λ o. operand_view o ≡ spec.struct_comma place (term_tree first.value) (lvalue_tree second.value)) }
{
    let ctype = second.ctype.copy(cx.alloc)?;
    let form = LvalueForm::Then(first, second);
    lvalue_operand(cx.alloc, place, ctype, form, None)
}

/// A comma expression whose last operand is a value.
fn value_comma(
    cx: &Context,
    place: Place,
    first: Box<CheckedTerm>,
    second: Box<CheckedTerm>,
) -> Result<Operand, Memory>
    ensures { IfOk result (λ o. operand_view o ≡ spec.value_comma place (term_tree first.value) (term_tree second.value)) }
{
    let ctype = second.ctype.copy(cx.alloc)?;
    value_operand(cx.alloc, place, ctype, TermForm::Comma(first, second))
}

/// A comma expression whose last operand is an lvalue.
fn lvalue_comma(
    cx: &Context,
    place: Place,
    first: Box<CheckedTerm>,
    second: Box<Lvalue>,
) -> Result<Operand, Memory>
    ensures { IfOk result (λ o. operand_view o ≡ spec.lvalue_comma place (term_tree first.value) (lvalue_tree second.value)) }
{
    if is_struct(&second.ctype) {
        struct_comma(cx, place, first, second)
    } else {
        let second = lvalue_value(cx.alloc, second)?;
        value_comma(cx, place, first, second)
    }
}

/// A comma expression behind its first operand.
fn comma_with(
    cx: &Context,
    place: Place,
    first: Box<CheckedTerm>,
    second: Operand,
) -> Result<Operand, Memory>
    ensures { IfOk result (λ o. operand_view o ≡ spec.comma_with place (term_tree first.value) (operand_view second).form) }
{
    match second.form {
        Form::Lvalue(lvalue) => lvalue_comma(cx, place, first, lvalue),
        Form::Value(term) => value_comma(cx, place, first, term),
    }
}

/// A comma expression.
pub fn comma(cx: &Context, place: Place, first: Operand, second: Operand) -> Result<Operand, Memory>
    ensures { IfOk result (λ o. operand_view o ≡ spec.comma place (operand_view first) (operand_view second)) }
{
    let first = unused(term_of(cx.alloc, first)?);
    comma_with(cx, place, first, second)
}
