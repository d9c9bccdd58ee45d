//! Assignments, compound assignments and steps (6.5.16, 6.5.2.4 and 6.5.3.1 of ISO/IEC 9899:2011).
ghost use Rattle.std.specs.Prelude.{◌≡◌, IfOk};
ghost use Rattle.c_layout.specs.Types.{view, same_kind};
ghost use Rattle.c_layout.specs.CheckedTrees.{term_tree, lvalue_tree};
ghost use Rattle.lower_templates.specs.Worklist.Plans.{plan};
ghost use Rattle.lower_expressions.specs.Assignments as spec;

use c_layout::{CType, CheckedTerm, Lvalue, StepOp, StepTime};
use cc_base::{IntOp, IntType, Place};
use cfg::{Amount, Operation, Scalar};
use lower_templates::worklist::{
    Builder, OperatorMeaning, Work, behind, integer_type, is_backward, scalar, step_operator,
};
use std::alloc::AllocError;

/// Where the value of an assignment is used: it is moved down to the first temporary.
fn kept(used: bool, depth: u32, from: u32) -> Option<(u32, u32)>
    ensures { result ≡ spec.kept used depth from }
{
    if used { Some((depth, from)) } else { None }
}

/// Adds the store of a temporary's value at the pointer in the first one.
fn push_store(
    builder: &mut Builder,
    place: Place,
    depth: u32,
    from: u32,
    kind: Scalar,
    kept: Option<(u32, u32)>,
) -> Result<(), AllocError>
    ensures { IfOk result (λ _. plan builder.new ≡ spec.stored place depth from kind kept (plan builder.old)) }
{
    builder.emit(place, Operation::Store(depth, from, kind, kept))
}

/// Adds a pointer to an lvalue and, behind it, a value.
fn push_sides<'a>(
    builder: &mut Builder<'a>,
    lvalue: &'a Lvalue,
    value: &'a CheckedTerm,
    depth: u32,
) -> Result<(), AllocError>
    ensures { IfOk result (λ _. plan builder.new ≡ spec.both_sides (lvalue_tree lvalue.now) (term_tree value.now) depth (plan builder.old)) }
{
    builder.add(Work::Address(lvalue, depth))?;
    builder.add(Work::Value(value, behind(depth, 1)))
}

/// `=` of a scalar.
pub fn assignment<'a>(
    builder: &mut Builder<'a>,
    lvalue: &'a Lvalue,
    value: &'a CheckedTerm,
    depth: u32,
    used: bool,
) -> Result<(), AllocError>
    ensures { IfOk result (λ _. plan builder.new ≡ spec.assignment (lvalue_tree lvalue.now) (term_tree value.now) depth used (plan builder.old)) }
{
    push_sides(builder, lvalue, value, depth)?;
    let second = behind(depth, 1);
    let kind = scalar(&lvalue.ctype);
    push_store(
        builder,
        lvalue.place,
        depth,
        second,
        kind,
        kept(used, depth, second),
    )
}

fn is_same(a: IntType, b: IntType) -> bool
    ensures { result ≡ same_kind a b }
{
    a.bytes == b.bytes && (a.signed == b.signed && a.rank == b.rank)
}

/// Adds the conversion of a number from one temporary to another, where it is one to another type.
fn push_conversion(
    builder: &mut Builder,
    place: Place,
    to: u32,
    from: u32,
    old: IntType,
    new: IntType,
) -> Result<(), AllocError>
    ensures { IfOk result (λ _. plan builder.new ≡ spec.converted place to from old new (plan builder.old)) }
{
    if is_same(old, new) {
        Ok(())
    } else {
        builder.emit(
            place,
            Operation::Convert(to, from, Scalar::Int(old), Scalar::Int(new)),
        )
    }
}

/// The operator of a compound assignment; that of `+=` for a relation, which none has.
fn number_operator(op: OperatorMeaning) -> IntOp
    ensures { result ≡ spec.number_operator op }
{
    match op {
        OperatorMeaning::Number(op) => op,
        OperatorMeaning::Truth(_) => IntOp::Add,
    }
}

/// Adds the pointer to the target, the right side, and the old value behind both.
fn push_old_value<'a>(
    builder: &mut Builder<'a>,
    lvalue: &'a Lvalue,
    value: &'a CheckedTerm,
    depth: u32,
    kind: Scalar,
) -> Result<(), AllocError>
    ensures { IfOk result (λ _. plan builder.new ≡ spec.old_value (lvalue_tree lvalue.now) (term_tree value.now) depth kind (plan builder.old)) }
{
    push_sides(builder, lvalue, value, depth)?;
    builder.emit(lvalue.place, Operation::Load(behind(depth, 2), depth, kind))
}

/// Adds an operator on the old value and the right side, in a type, and the conversions before and
/// behind it.
fn push_computed(
    builder: &mut Builder,
    place: Place,
    op: IntOp,
    own: IntType,
    kind: IntType,
    depth: u32,
) -> Result<(), AllocError>
    ensures { IfOk result (λ _. plan builder.new ≡ spec.computed place op own kind depth (plan builder.old)) }
{
    let (second, third) = (behind(depth, 1), behind(depth, 2));
    push_conversion(builder, place, third, third, own, kind)?;
    let compute = Operation::Binary(second, op, third, Amount::Temp(second), kind);
    builder.emit(place, compute)?;
    push_conversion(builder, place, second, second, kind, own)
}

/// A compound assignment of an integer.
pub fn compound<'a>(
    builder: &mut Builder<'a>,
    place: Place,
    op: OperatorMeaning,
    kind: &CType,
    lvalue: &'a Lvalue,
    value: &'a CheckedTerm,
    depth: u32,
    used: bool,
) -> Result<(), AllocError>
    ensures { IfOk result (λ _. plan builder.new ≡ spec.compound place op (view kind.now) (lvalue_tree lvalue.now) (term_tree value.now) depth used (plan builder.old)) }
{
    let own = integer_type(&lvalue.ctype);
    push_old_value(builder, lvalue, value, depth, Scalar::Int(own))?;
    push_computed(
        builder,
        place,
        number_operator(op),
        own,
        integer_type(kind),
        depth,
    )?;
    let second = behind(depth, 1);
    let kept = kept(used, depth, second);
    push_store(builder, lvalue.place, depth, second, Scalar::Int(own), kept)
}

/// `+=` or `-=` of a pointer.
pub fn compound_shift<'a>(
    builder: &mut Builder<'a>,
    place: Place,
    backward: bool,
    size: u64,
    lvalue: &'a Lvalue,
    value: &'a CheckedTerm,
    depth: u32,
    used: bool,
) -> Result<(), AllocError>
    ensures { IfOk result (λ _. plan builder.new ≡ spec.compound_shift place backward size (lvalue_tree lvalue.now) (term_tree value.now) depth used (plan builder.old)) }
{
    push_old_value(builder, lvalue, value, depth, Scalar::Pointer)?;
    let (second, third) = (behind(depth, 1), behind(depth, 2));
    let shift = Operation::Shift(second, third, Amount::Temp(second), size, backward);
    builder.emit(place, shift)?;
    let kept = kept(used, depth, second);
    push_store(builder, lvalue.place, depth, second, Scalar::Pointer, kept)
}

/// Whether a step keeps the old value for later.
fn keeps_old(time: StepTime, used: bool) -> bool
    ensures { result ≡ spec.keeps_old time used }
{
    match time {
        StepTime::Prefix => false,
        StepTime::Postfix => used,
    }
}

/// Where the new value of a step is made: behind the old one, where that is kept.
fn new_value(old: u32, keeps: bool) -> u32
    ensures { result ≡ spec.new_value old keeps }
{
    if keeps { behind(old, 1) } else { old }
}

/// The temporary with the old value in the type of the step.
fn widened(new: u32, old: u32, own: IntType, kind: IntType) -> u32
    ensures { result ≡ spec.widened new old own kind }
{
    if is_same(own, kind) { old } else { new }
}

/// Adds a pointer to an lvalue and, behind it, its value.
fn push_target<'a>(
    builder: &mut Builder<'a>,
    lvalue: &'a Lvalue,
    depth: u32,
    kind: Scalar,
) -> Result<(), AllocError>
    ensures { IfOk result (λ _. plan builder.new ≡ spec.target (lvalue_tree lvalue.now) depth kind (plan builder.old)) }
{
    builder.add(Work::Address(lvalue, depth))?;
    builder.emit(lvalue.place, Operation::Load(behind(depth, 1), depth, kind))
}

/// Adds a step of a number in a type, and the conversions before and behind it.
fn push_stepped(
    builder: &mut Builder,
    place: Place,
    op: IntOp,
    own: IntType,
    kind: IntType,
    old: u32,
    new: u32,
) -> Result<(), AllocError>
    ensures { IfOk result (λ _. plan builder.new ≡ spec.stepped place op own kind old new (plan builder.old)) }
{
    push_conversion(builder, place, new, old, own, kind)?;
    let from = widened(new, old, own, kind);
    builder.emit(place, Operation::Binary(new, op, from, Amount::One, kind))?;
    push_conversion(builder, place, new, new, kind, own)
}

/// `++` or `--` of an integer.
pub fn step<'a>(
    builder: &mut Builder<'a>,
    place: Place,
    op: StepOp,
    time: StepTime,
    kind: &CType,
    lvalue: &'a Lvalue,
    depth: u32,
    used: bool,
) -> Result<(), AllocError>
    ensures { IfOk result (λ _. plan builder.new ≡ spec.step place op time (view kind.now) (lvalue_tree lvalue.now) depth used (plan builder.old)) }
{
    let own = integer_type(&lvalue.ctype);
    push_target(builder, lvalue, depth, Scalar::Int(own))?;
    let old = behind(depth, 1);
    let new = new_value(old, keeps_old(time, used));
    push_stepped(
        builder,
        place,
        step_operator(op),
        own,
        integer_type(kind),
        old,
        new,
    )?;
    let kept = kept(used, depth, old);
    push_store(builder, lvalue.place, depth, new, Scalar::Int(own), kept)
}

/// `++` or `--` of a pointer.
pub fn pointer_step<'a>(
    builder: &mut Builder<'a>,
    place: Place,
    op: StepOp,
    time: StepTime,
    size: u64,
    lvalue: &'a Lvalue,
    depth: u32,
    used: bool,
) -> Result<(), AllocError>
    ensures { IfOk result (λ _. plan builder.new ≡ spec.pointer_step place op time size (lvalue_tree lvalue.now) depth used (plan builder.old)) }
{
    push_target(builder, lvalue, depth, Scalar::Pointer)?;
    let old = behind(depth, 1);
    let new = new_value(old, keeps_old(time, used));
    builder.emit(
        place,
        Operation::Shift(new, old, Amount::One, size, is_backward(op)),
    )?;
    let kept = kept(used, depth, old);
    push_store(builder, lvalue.place, depth, new, Scalar::Pointer, kept)
}
