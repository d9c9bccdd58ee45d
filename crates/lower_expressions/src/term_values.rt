//! Values of terms.
ghost use Rattle.std.specs.Prelude.{◌≡◌, IfOk};
ghost use Rattle.c_layout.specs.Types.{view};
ghost use Rattle.c_layout.specs.CheckedTrees.{term_tree, lvalue_tree};
ghost use Rattle.lower_templates.specs.Worklist.Acts.{act};
ghost use Rattle.lower_templates.specs.Worklist.Plans.{plan};
ghost use Rattle.lower_templates.specs.Worklist.Settings.{setting};
ghost use Rattle.lower_expressions.specs.Values as spec;

use crate::assigned_values::{assignment, compound, compound_shift, pointer_step, step};
use crate::branched_values::{arm, conditional, logical};
use crate::called_values::{library_call, own_call};
use c_layout::{BinaryOp, CType, CheckedTerm, Lvalue, TermForm};
use cc_base::{Place, UnOp};
use cfg::{Amount, Operation};
use lower_templates::worklist::{
    Builder, OperatorMeaning, Setting, Work, behind, integer_type, meaning, relation, scalar,
};
use std::alloc::AllocError;

/// An operator on integers (6.5.5 to 6.5.12 of ISO/IEC 9899:2011).
fn integer_operation(op: OperatorMeaning, ctype: &CType, depth: u32) -> Operation
    ensures { act result ≡ spec.integer_act op (view ctype.now) depth }
{
    let right = behind(depth, 1);
    match op {
        OperatorMeaning::Number(op) => {
            let kind = integer_type(ctype);
            Operation::Binary(depth, op, depth, Amount::Temp(right), kind)
        }
        OperatorMeaning::Truth(rel) => Operation::Compare(depth, rel, depth, right),
    }
}

/// Two operands from left to right, and an instruction.
fn two<'a>(
    builder: &mut Builder<'a>,
    place: Place,
    left: &'a CheckedTerm,
    right: &'a CheckedTerm,
    depth: u32,
    operation: Operation,
) -> Result<(), AllocError>
    ensures { IfOk result (λ _. plan builder.new ≡ spec.two place (term_tree left.now) (term_tree right.now) depth (act operation) (plan builder.old)) }
{
    builder.add(Work::Value(left, depth))?;
    builder.add(Work::Value(right, behind(depth, 1)))?;
    builder.emit(place, operation)
}

/// An operand, and an instruction.
fn one<'a>(
    builder: &mut Builder<'a>,
    place: Place,
    inner: &'a CheckedTerm,
    depth: u32,
    operation: Operation,
) -> Result<(), AllocError>
    ensures { IfOk result (λ _. plan builder.new ≡ spec.one place (term_tree inner.now) depth (act operation) (plan builder.old)) }
{
    builder.add(Work::Value(inner, depth))?;
    builder.emit(place, operation)
}

/// A number.
fn number(builder: &mut Builder, term: &CheckedTerm, n: i128, depth: u32) -> Result<(), AllocError>
    ensures { IfOk result (λ _. plan builder.new ≡ spec.number (term_tree term.now) n depth (plan builder.old)) }
{
    builder.emit(
        term.place,
        Operation::Constant(depth, n, integer_type(&term.ctype)),
    )
}

/// The conversion of an array lvalue to a pointer to its first element (6.3.2.1).
fn decay<'a>(
    cx: &Setting<'a>,
    builder: &mut Builder<'a>,
    lvalue: &'a Lvalue,
    depth: u32,
) -> Result<(), AllocError>
    ensures { IfOk result (λ _. plan builder.new ≡ spec.decay (setting cx.now) (lvalue_tree lvalue.now) depth (plan builder.old)) }
{
    let size = cx.bytes(&lvalue.ctype)?;
    builder.add(Work::Address(lvalue, depth))?;
    builder.emit(lvalue.place, Operation::Narrow(depth, depth, 0, size))
}

/// The value of an lvalue of scalar type.
fn load<'a>(builder: &mut Builder<'a>, lvalue: &'a Lvalue, depth: u32) -> Result<(), AllocError>
    ensures { IfOk result (λ _. plan builder.new ≡ spec.load (lvalue_tree lvalue.now) depth (plan builder.old)) }
{
    builder.add(Work::Address(lvalue, depth))?;
    builder.emit(
        lvalue.place,
        Operation::Load(depth, depth, scalar(&lvalue.ctype)),
    )
}

/// A conversion.
fn conversion<'a>(
    builder: &mut Builder<'a>,
    term: &'a CheckedTerm,
    inner: &'a CheckedTerm,
    depth: u32,
) -> Result<(), AllocError>
    ensures { IfOk result (λ _. plan builder.new ≡ spec.conversion (term_tree term.now) (term_tree inner.now) depth (plan builder.old)) }
{
    let (from, to) = (scalar(&inner.ctype), scalar(&term.ctype));
    one(
        builder,
        term.place,
        inner,
        depth,
        Operation::Convert(depth, depth, from, to),
    )
}

/// Minus or complement in the type of the term.
fn unary<'a>(
    builder: &mut Builder<'a>,
    op: UnOp,
    term: &'a CheckedTerm,
    inner: &'a CheckedTerm,
    depth: u32,
) -> Result<(), AllocError>
    ensures { IfOk result (λ _. plan builder.new ≡ spec.unary op (term_tree term.now) (term_tree inner.now) depth (plan builder.old)) }
{
    let operation = Operation::Unary(depth, op, depth, integer_type(&term.ctype));
    one(builder, term.place, inner, depth, operation)
}

/// `!` as a value.
fn negation<'a>(
    builder: &mut Builder<'a>,
    place: Place,
    inner: &'a CheckedTerm,
    depth: u32,
) -> Result<(), AllocError>
    ensures { IfOk result (λ _. plan builder.new ≡ spec.negation place (term_tree inner.now) depth (plan builder.old)) }
{
    let operation = Operation::Not(depth, depth, scalar(&inner.ctype));
    one(builder, place, inner, depth, operation)
}

/// The pointer that an integer moves; in a sum either of the two may stand first.
fn moved_pointer(left: &CType, depth: u32, size: u64, backward: bool) -> Operation
    ensures { act result ≡ spec.moved_pointer (view left.now) depth size backward }
{
    let second = behind(depth, 1);
    match left {
        CType::Int(_) => Operation::Shift(depth, second, Amount::Temp(depth), size, backward),
        CType::Pointer(_) => Operation::Shift(depth, depth, Amount::Temp(second), size, backward),
        CType::Array(_, _) => Operation::Shift(depth, depth, Amount::Temp(second), size, backward),
        CType::Struct(_) => Operation::Shift(depth, depth, Amount::Temp(second), size, backward),
        CType::Void => Operation::Shift(depth, depth, Amount::Temp(second), size, backward),
    }
}

/// A pointer that is moved by an integer (6.5.6).
fn shift<'a>(
    builder: &mut Builder<'a>,
    place: Place,
    backward: bool,
    size: u64,
    left: &'a CheckedTerm,
    right: &'a CheckedTerm,
    depth: u32,
) -> Result<(), AllocError>
    ensures { IfOk result (λ _. plan builder.new ≡ spec.shift place backward size (term_tree left.now) (term_tree right.now) depth (plan builder.old)) }
{
    let operation = moved_pointer(&left.ctype, depth, size, backward);
    two(builder, place, left, right, depth, operation)
}

/// An operator on two integers.
fn integers<'a>(
    builder: &mut Builder<'a>,
    term: &'a CheckedTerm,
    op: BinaryOp,
    left: &'a CheckedTerm,
    right: &'a CheckedTerm,
    depth: u32,
) -> Result<(), AllocError>
    ensures { IfOk result (λ _. plan builder.new ≡ spec.integers (term_tree term.now) op (term_tree left.now) (term_tree right.now) depth (plan builder.old)) }
{
    let operation = integer_operation(meaning(op), &term.ctype, depth);
    two(builder, term.place, left, right, depth, operation)
}

/// The distance of two pointers.
fn difference<'a>(
    builder: &mut Builder<'a>,
    place: Place,
    size: u64,
    left: &'a CheckedTerm,
    right: &'a CheckedTerm,
    depth: u32,
) -> Result<(), AllocError>
    ensures { IfOk result (λ _. plan builder.new ≡ spec.difference place size (term_tree left.now) (term_tree right.now) depth (plan builder.old)) }
{
    let operation = Operation::Difference(depth, depth, behind(depth, 1), size);
    two(builder, place, left, right, depth, operation)
}

/// A relation of two pointers.
fn pointers<'a>(
    builder: &mut Builder<'a>,
    place: Place,
    op: BinaryOp,
    left: &'a CheckedTerm,
    right: &'a CheckedTerm,
    depth: u32,
) -> Result<(), AllocError>
    ensures { IfOk result (λ _. plan builder.new ≡ spec.pointers place op (term_tree left.now) (term_tree right.now) depth (plan builder.old)) }
{
    let operation = Operation::ComparePointers(depth, relation(op), depth, behind(depth, 1));
    two(builder, place, left, right, depth, operation)
}

/// The comma operator (6.5.17): the value of its last operand is used where that of the whole is.
fn comma<'a>(
    builder: &mut Builder<'a>,
    left: &'a CheckedTerm,
    right: &'a CheckedTerm,
    depth: u32,
    used: bool,
) -> Result<(), AllocError>
    ensures { IfOk result (λ _. plan builder.new ≡ spec.comma (term_tree left.now) (term_tree right.now) depth used (plan builder.old)) }
{
    builder.add(Work::Unused(left, depth))?;
    builder.add(arm(right, depth, used))
}

/// The works of a term whose value is used or not.
pub fn term_works<'a>(
    cx: &Setting<'a>,
    builder: &mut Builder<'a>,
    term: &'a CheckedTerm,
    depth: u32,
    used: bool,
) -> Result<(), AllocError>
    ensures { IfOk result (λ _. plan builder.new ≡ spec.term (setting cx.now) (term_tree term.now) depth used (plan builder.old)) }
{
    let place = term.place;
    match &term.form {
        TermForm::Number(n) => number(builder, term, *n, depth),
        TermForm::Sizeof(n, None, _) => number(builder, term, *n as i128, depth),
        TermForm::Sizeof(n, Some(_), _) => number(builder, term, *n as i128, depth),
        TermForm::Load(lvalue) => load(builder, lvalue, depth),
        TermForm::AddressOf(lvalue) => builder.add(Work::Address(lvalue, depth)),
        TermForm::Decay(lvalue) => decay(cx, builder, lvalue, depth),
        TermForm::Convert(_, inner) => conversion(builder, term, inner, depth),
        TermForm::Discard(inner) => builder.add(Work::Unused(inner, depth)),
        TermForm::Plus(inner) => builder.add(Work::Value(inner, depth)),
        TermForm::Minus(inner) => unary(builder, UnOp::Neg, term, inner, depth),
        TermForm::Complement(inner) => unary(builder, UnOp::Compl, term, inner, depth),
        TermForm::Not(inner) => negation(builder, place, inner, depth),
        TermForm::Integer(op, left, right) => integers(builder, term, *op, left, right, depth),
        TermForm::Shift(backward, size, left, right) => {
            shift(builder, place, *backward, *size, left, right, depth)
        }
        TermForm::Difference(size, left, right) => {
            difference(builder, place, *size, left, right, depth)
        }
        TermForm::Compare(op, left, right) => pointers(builder, place, *op, left, right, depth),
        TermForm::Logical(op, left, right) => logical(builder, *op, left, right, depth),
        TermForm::Conditional(test, yes, no) => conditional(
            cx, builder, test, yes, no, depth, used,
        ),
        TermForm::Comma(left, right) => comma(builder, left, right, depth, used),
        TermForm::Assign(lvalue, value) => assignment(builder, lvalue, value, depth, used),
        TermForm::Compound(op, kind, lvalue, value) => {
            let op = meaning(*op);
            compound(builder, place, op, kind, lvalue, value, depth, used)
        }
        TermForm::CompoundShift(backward, size, lvalue, value) => {
            compound_shift(builder, place, *backward, *size, lvalue, value, depth, used)
        }
        TermForm::Step(op, time, kind, lvalue) => {
            step(builder, place, *op, *time, kind, lvalue, depth, used)
        }
        TermForm::StepPointer(op, time, size, lvalue) => {
            pointer_step(builder, place, *op, *time, *size, lvalue, depth, used)
        }
        TermForm::Struct(lvalue) => builder.add(Work::Address(lvalue, depth)),
        TermForm::Call(function, arguments, is_used) => {
            let given = arguments.as_slice();
            own_call(builder, place, *function, given, *is_used, depth)
        }
        TermForm::Library(function, arguments, target) => {
            let given = arguments.as_slice();
            library_call(cx, builder, place, *function, given, target, depth)
        }
    }
}
