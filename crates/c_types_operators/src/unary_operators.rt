//! Unary operators, `++` and `--` (6.5.2.4, 6.5.3.1 to 6.5.3.3 of ISO/IEC 9899:2011).
ghost use Rattle.std.specs.Prelude.{◌≡◌, IfOk};
ghost use Rattle.c_layout.specs.Types.{view};
ghost use Rattle.c_layout.specs.CheckedTrees.{term_tree, lvalue_tree};
ghost use Rattle.c_types_scopes.specs.Answers.{Gives};
ghost use Rattle.c_types_scopes.specs.Known.{known};
ghost use Rattle.c_types_operands.specs.Operands.{operand_view, value_view};
ghost use Rattle.c_types_operators.specs.UnaryOperators as spec;

use c_layout::{CType, CheckedTerm, Lvalue, StepOp, StepTime, TermForm, UnaryOp};
use c_types_operands::{
    Constancy, Operand, Value, indirection, integer_as, is_scalar, number_operand, own_lvalue,
    pointer_to, term_of, value_of, value_operand,
};
use c_types_rules::rules::{complemented, converted, int_kind, negated, promoted};
use c_types_scopes::{Context, type_fault};
use cc_base::{IntType, Memory, Place, Stop};

/// How an lvalue steps.
#[derive(Clone, Copy)]
enum StepKind {
    /// An integer, computed in a promoted type.
    Integer(IntType),
    /// A pointer to elements of a size.
    Pointer(u64),
}

fn pointer_kind(size: Option<u64>) -> Option<StepKind>
    ensures { result ≡ spec.pointer_kind size }
{
    Some(StepKind::Pointer(size?))
}

/// How an lvalue of a type steps.
fn step_kind(cx: &Context, t: &CType) -> Option<StepKind>
    ensures { result ≡ spec.step_kind (known cx.now) (view t.now) }
{
    match t {
        CType::Int(kind) => Some(StepKind::Integer(promoted(&cx.model.numbers, *kind))),
        CType::Pointer(target) => pointer_kind(cx.size_of(target)),
        CType::Array(_, _) => None,
        CType::Struct(_) => None,
        CType::Void => None,
    }
}

/// `++` or `--` of an integer.
fn integer_step(
    cx: &Context,
    place: Place,
    op: StepOp,
    time: StepTime,
    kind: IntType,
    lvalue: Box<Lvalue>,
) -> Result<Operand, Memory>
    ensures { IfOk result (λ o. operand_view o ≡ spec.integer_step place op time kind (lvalue_tree lvalue.value)) }
{
    let ctype = lvalue.ctype.copy(cx.alloc)?;
    let form = TermForm::Step(op, time, CType::Int(kind), lvalue);
    value_operand(cx.alloc, place, ctype, form)
}

/// `++` or `--` of a pointer.
fn pointer_step(
    cx: &Context,
    place: Place,
    op: StepOp,
    time: StepTime,
    size: u64,
    lvalue: Box<Lvalue>,
) -> Result<Operand, Memory>
    ensures { IfOk result (λ o. operand_view o ≡ spec.pointer_step place op time size (lvalue_tree lvalue.value)) }
{
    let ctype = lvalue.ctype.copy(cx.alloc)?;
    let form = TermForm::StepPointer(op, time, size, lvalue);
    value_operand(cx.alloc, place, ctype, form)
}

/// `++` or `--` of an lvalue.
fn lvalue_step(
    cx: &Context,
    place: Place,
    op: StepOp,
    time: StepTime,
    lvalue: Box<Lvalue>,
) -> Result<Operand, Stop>
    ensures { Gives operand_view (spec.lvalue_step (known cx.now) place op time (lvalue_tree lvalue.value)) result }
{
    match step_kind(cx, &lvalue.ctype) {
        Some(StepKind::Integer(kind)) => Ok(integer_step(cx, place, op, time, kind, lvalue)?),
        Some(StepKind::Pointer(size)) => Ok(pointer_step(cx, place, op, time, size, lvalue)?),
        None => Err(type_fault(place)),
    }
}

/// `++` or `--`, before or behind its operand.
pub fn step(
    cx: &Context,
    place: Place,
    op: StepOp,
    time: StepTime,
    operand: Operand,
) -> Result<Operand, Stop>
    ensures { Gives operand_view (spec.step (known cx.now) place op time (operand_view operand)) result }
{
    match own_lvalue(operand) {
        Some(lvalue) => lvalue_step(cx, place, op, time, lvalue),
        None => Err(type_fault(place)),
    }
}

/// `&`
fn address(cx: &Context, place: Place, operand: Operand) -> Result<Operand, Stop>
    ensures { Gives operand_view (spec.address place (operand_view operand)) result }
{
    match own_lvalue(operand) {
        Some(lvalue) => {
            let ctype = pointer_to(cx.alloc, &lvalue.ctype)?;
            let form = TermForm::AddressOf(lvalue);
            Ok(value_operand(cx.alloc, place, ctype, form)?)
        }
        None => Err(type_fault(place)),
    }
}

fn negated_if(kind: IntType, constant: Option<i128>) -> Option<i128>
    ensures { result ≡ spec.negated_if kind constant }
{
    negated(kind, constant?)
}

fn complemented_if(kind: IntType, constant: Option<i128>) -> Option<i128>
    ensures { result ≡ spec.complemented_if kind constant }
{
    Some(complemented(kind, constant?))
}

/// The value of a constant in a type.
pub fn converted_if(kind: IntType, constant: Option<i128>) -> Option<i128>
    ensures { result ≡ spec.converted_if kind constant }
{
    Some(converted(kind, constant?))
}

/// The value of unary plus, minus or `~` of a constant.
fn turned_value(op: UnaryOp, kind: IntType, constant: Option<i128>) -> Option<i128>
    ensures { result ≡ spec.turned_value op kind constant }
{
    match op {
        UnaryOp::Minus => negated_if(kind, constant),
        UnaryOp::Complement => complemented_if(kind, constant),
        _ => converted_if(kind, constant),
    }
}

/// Unary plus, minus or `~` of a term in its type.
fn turned(
    cx: &Context,
    place: Place,
    op: UnaryOp,
    kind: IntType,
    operand: Box<CheckedTerm>,
    constancy: Constancy,
) -> Result<Operand, Memory>
    ensures { IfOk result (λ o. operand_view o ≡ spec.turned_operand place op kind (term_tree operand.value) constancy.constant constancy.fixed) }
{
    let ctype = CType::Int(kind);
    match op {
        UnaryOp::Minus => {
            let form = TermForm::Minus(operand);
            number_operand(cx.alloc, place, ctype, form, constancy)
        }
        UnaryOp::Complement => {
            let form = TermForm::Complement(operand);
            number_operand(cx.alloc, place, ctype, form, constancy)
        }
        _ => number_operand(cx.alloc, place, ctype, TermForm::Plus(operand), constancy),
    }
}

/// The promoted type of an integer type.
pub fn promoted_kind(cx: &Context, t: &CType) -> Option<IntType>
    ensures { result ≡ spec.promoted_kind (known cx.now) (view t.now) }
{
    match t {
        CType::Int(kind) => Some(promoted(&cx.model.numbers, *kind)),
        CType::Pointer(_) => None,
        CType::Array(_, _) => None,
        CType::Struct(_) => None,
        CType::Void => None,
    }
}

/// Unary plus, minus or `~` in a type.
fn arithmetic_in(
    cx: &Context,
    place: Place,
    op: UnaryOp,
    kind: IntType,
    operand: Value,
) -> Result<Operand, Memory>
    ensures { IfOk result (λ o. operand_view o ≡ spec.arithmetic_in (known cx.now) place op kind (value_view operand)) }
{
    let constancy = Constancy {
        constant: turned_value(op, kind, operand.term.constant),
        fixed: operand.fixed,
    };
    let term = integer_as(cx, operand.term, kind)?;
    turned(cx, place, op, kind, term, constancy)
}

/// Unary plus, minus or `~`: the operand is promoted.
fn arithmetic(cx: &Context, place: Place, op: UnaryOp, operand: Value) -> Result<Operand, Stop>
    ensures { Gives operand_view (spec.arithmetic (known cx.now) place op (value_view operand)) result }
{
    match promoted_kind(cx, &operand.term.ctype) {
        Some(kind) => Ok(arithmetic_in(cx, place, op, kind, operand)?),
        None => Err(type_fault(place)),
    }
}

fn is_0(n: i128) -> i128
    ensures { result ≡ spec.is_0 n }
{
    if n == 0 { 1 } else { 0 }
}

/// The value of `!` of a constant.
fn not_value(constant: Option<i128>) -> Option<i128>
    ensures { result ≡ spec.not_value constant }
{
    Some(is_0(constant?))
}

/// `!` of a scalar.
fn not_node(cx: &Context, place: Place, operand: Value) -> Result<Operand, Memory>
    ensures { IfOk result (λ o. operand_view o ≡ spec.not_node (known cx.now) place (value_view operand)) }
{
    let constancy = Constancy {
        constant: not_value(operand.term.constant),
        fixed: operand.fixed,
    };
    let ctype = CType::Int(int_kind(&cx.model.numbers));
    let form = TermForm::Not(operand.term);
    number_operand(cx.alloc, place, ctype, form, constancy)
}

/// `!`
fn not(cx: &Context, place: Place, operand: Value) -> Result<Operand, Stop>
    ensures { Gives operand_view (spec.not_of (known cx.now) place (value_view operand)) result }
{
    if is_scalar(&operand.term.ctype) {
        Ok(not_node(cx, place, operand)?)
    } else {
        Err(type_fault(place))
    }
}

/// A unary operator.
pub fn unary(cx: &Context, place: Place, op: UnaryOp, operand: Operand) -> Result<Operand, Stop>
    ensures { Gives operand_view (spec.unary (known cx.now) place op (operand_view operand)) result }
{
    match op {
        UnaryOp::Address => address(cx, place, operand),
        UnaryOp::Indirection => {
            let operand = term_of(cx.alloc, operand)?;
            indirection(cx, place, operand)
        }
        UnaryOp::Not => {
            let operand = value_of(cx.alloc, operand)?;
            not(cx, place, operand)
        }
        UnaryOp::Plus => {
            let operand = value_of(cx.alloc, operand)?;
            arithmetic(cx, place, UnaryOp::Plus, operand)
        }
        UnaryOp::Minus => {
            let operand = value_of(cx.alloc, operand)?;
            arithmetic(cx, place, UnaryOp::Minus, operand)
        }
        UnaryOp::Complement => {
            let operand = value_of(cx.alloc, operand)?;
            arithmetic(cx, place, UnaryOp::Complement, operand)
        }
    }
}
