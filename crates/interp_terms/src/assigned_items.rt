//! The items of assignments and of `++` and `--`.
ghost use Rattle.std.specs.Prelude.{◌≡◌, ◌∷◌};
ghost use Rattle.c_layout.specs.CheckedTrees.{term_tree, lvalue_tree};
ghost use Rattle.c_layout.specs.CheckedUnits.{UnitView};
ghost use Rattle.lower_templates.specs.Worklist.TermKinds.{meaning};
ghost use Rattle.lower_expressions.specs.Assignments as assignments;
ghost use Rattle.semantics.specs.SourceMachine.TermItems as spec;
ghost use Rattle.semantics.specs.SourceMachine.TermItems.{if_used};
ghost use Rattle.interp_stack.specs.StackViews.{with_items, Stacks, Adds};

use crate::operated_items::{
    integer_kind_of, kind_of_lvalue, push_at, push_converted, push_do, push_if_unused,
    push_on_lvalue,
};
use c_layout::{BinaryOp, CheckedTerm, Lvalue, StepOp, StepTime};
use cc_base::{IntOp, IntType, Place};
use cfg::Scalar;
use interp_stack::{Item7, Operation7, Order7, Use7, push_item};
use lower_templates::worklist::{OperatorMeaning, is_backward, meaning, step_operator};
use std::alloc::AllocError;

// ---- assignments

/// An assignment by `=`.
pub fn push_assignment<'a>(
    control: &mut Vec<Item7<'a>>,
    used: bool,
    target: &'a Lvalue,
    value: &'a CheckedTerm,
) -> Result<(), AllocError>
    ensures { (u : UnitView) → Stacks u (λ s. with_items (if_used used (spec.assignment (lvalue_tree target.now) (term_tree value.now))) s) control.old.items result control.new.items }
{
    push_if_unused(control, used)?;
    push_on_lvalue(control, target, Operation7::Store(kind_of_lvalue(target)))?;
    push_item(control, Item7::Term(Use7::Value, value))?;
    push_item(control, Item7::Address(target))?;
    Ok(())
}

// The address is formed once, then the right value is computed, then the old value is loaded.
fn push_sides<'a>(
    control: &mut Vec<Item7<'a>>,
    target: &'a Lvalue,
    value: &'a CheckedTerm,
    kind: Scalar,
) -> Result<(), AllocError>
    ensures { (u : UnitView) → Stacks u (λ s. with_items (spec.sides (lvalue_tree target.now) (term_tree value.now) kind) s) control.old.items result control.new.items }
{
    push_on_lvalue(control, target, Operation7::LoadUnder(kind))?;
    push_item(control, Item7::Term(Use7::Value, value))?;
    push_item(control, Item7::Address(target))?;
    Ok(())
}

fn number_operator(sense: OperatorMeaning) -> IntOp
    ensures { result ≡ assignments.number_operator sense }
{
    match sense {
        OperatorMeaning::Number(sign) => sign,
        OperatorMeaning::Truth(_) => IntOp::Add,
    }
}

fn push_compound_value<'a>(
    control: &mut Vec<Item7<'a>>,
    at: Place,
    op: BinaryOp,
    kind: IntType,
    target: &'a Lvalue,
    value: &'a CheckedTerm,
) -> Result<(), AllocError>
    ensures { (u : UnitView) → Stacks u (λ s. with_items (spec.compound at (meaning op) kind (lvalue_tree target.now) (term_tree value.now)) s) control.old.items result control.new.items }
{
    let own = integer_kind_of(target);
    let sign = number_operator(meaning(op));
    push_on_lvalue(control, target, Operation7::Store(Scalar::Int(own)))?;
    push_converted(control, at, kind, own)?;
    push_do(
        control,
        at,
        Operation7::Binary(Order7::RightFirst, sign, kind),
    )?;
    push_converted(control, at, own, kind)?;
    push_sides(control, target, value, Scalar::Int(own))?;
    Ok(())
}

/// An assignment by an operator on integers.
pub fn push_compound<'a>(
    control: &mut Vec<Item7<'a>>,
    used: bool,
    at: Place,
    op: BinaryOp,
    kind: IntType,
    target: &'a Lvalue,
    value: &'a CheckedTerm,
) -> Result<(), AllocError>
    ensures { (u : UnitView) → Stacks u (λ s. with_items (if_used used (spec.compound at (meaning op) kind (lvalue_tree target.now) (term_tree value.now))) s) control.old.items result control.new.items }
{
    push_if_unused(control, used)?;
    push_compound_value(control, at, op, kind, target, value)?;
    Ok(())
}

/// An assignment by `+=` or `-=` to a pointer.
pub fn push_compound_shift<'a>(
    control: &mut Vec<Item7<'a>>,
    used: bool,
    at: Place,
    back: bool,
    size: u64,
    target: &'a Lvalue,
    value: &'a CheckedTerm,
) -> Result<(), AllocError>
    ensures { (u : UnitView) → Stacks u (λ s. with_items (if_used used (spec.compound_shift at back size (lvalue_tree target.now) (term_tree value.now))) s) control.old.items result control.new.items }
{
    push_if_unused(control, used)?;
    push_on_lvalue(control, target, Operation7::Store(Scalar::Pointer))?;
    push_do(
        control,
        at,
        Operation7::Shift(Order7::RightFirst, size, back),
    )?;
    push_sides(control, target, value, Scalar::Pointer)?;
    Ok(())
}

// ---- steps

/// Whether the old value of a step is that of the term.
pub fn keeps_old(time: StepTime, used: bool) -> bool
    ensures { result ≡ assignments.keeps_old time used }
{
    match time {
        StepTime::Prefix => false,
        StepTime::Postfix => used,
    }
}

fn push_store_step<'a>(
    control: &mut Vec<Item7<'a>>,
    target: &'a Lvalue,
    kind: Scalar,
    keeps: bool,
) -> Result<(), AllocError>
    ensures { (u : UnitView) → Stacks u (λ s. with_items (spec.store_step (lvalue_tree target.now) kind keeps) s) control.old.items result control.new.items }
{
    if keeps {
        push_on_lvalue(control, target, Operation7::StoreOver(kind))
    } else {
        push_on_lvalue(control, target, Operation7::Store(kind))
    }
}

// The old value of a postfix step that is used stays below the new one.
fn push_kept<'a>(control: &mut Vec<Item7<'a>>, keeps: bool) -> Result<(), AllocError>
    ensures { (u : UnitView) → Adds u (spec.kept keeps) control.old.items result control.new.items }
{
    if keeps {
        push_item(control, Item7::Again)
    } else {
        Ok(())
    }
}

fn push_step_value<'a>(
    control: &mut Vec<Item7<'a>>,
    at: Place,
    op: StepOp,
    kind: IntType,
    target: &'a Lvalue,
    keeps: bool,
) -> Result<(), AllocError>
    ensures { (u : UnitView) → Stacks u (λ s. with_items (spec.step at op kind (lvalue_tree target.now) keeps) s) control.old.items result control.new.items }
{
    let own = integer_kind_of(target);
    push_store_step(control, target, Scalar::Int(own), keeps)?;
    push_converted(control, at, kind, own)?;
    push_do(
        control,
        at,
        Operation7::BinaryByOne(step_operator(op), kind),
    )?;
    push_converted(control, at, own, kind)?;
    push_kept(control, keeps)?;
    push_at(control, Operation7::LoadOver(Scalar::Int(own)), target)?;
    Ok(())
}

/// `++` or `--` of an integer.
pub fn push_step<'a>(
    control: &mut Vec<Item7<'a>>,
    used: bool,
    at: Place,
    op: StepOp,
    time: StepTime,
    kind: IntType,
    target: &'a Lvalue,
) -> Result<(), AllocError>
    ensures { (u : UnitView) → Stacks u (λ s. with_items (if_used used (spec.step at op kind (lvalue_tree target.now) (assignments.keeps_old time used))) s) control.old.items result control.new.items }
{
    push_if_unused(control, used)?;
    push_step_value(control, at, op, kind, target, keeps_old(time, used))?;
    Ok(())
}

fn push_moved<'a>(
    control: &mut Vec<Item7<'a>>,
    at: Place,
    op: StepOp,
    size: u64,
    target: &'a Lvalue,
    keeps: bool,
) -> Result<(), AllocError>
    ensures { (u : UnitView) → Stacks u (λ s. with_items (spec.pointer_step at op size (lvalue_tree target.now) keeps) s) control.old.items result control.new.items }
{
    push_store_step(control, target, Scalar::Pointer, keeps)?;
    push_do(control, at, Operation7::ShiftByOne(size, is_backward(op)))?;
    push_kept(control, keeps)?;
    push_at(control, Operation7::LoadOver(Scalar::Pointer), target)?;
    Ok(())
}

/// `++` or `--` of a pointer.
pub fn push_pointer_step<'a>(
    control: &mut Vec<Item7<'a>>,
    used: bool,
    at: Place,
    op: StepOp,
    time: StepTime,
    size: u64,
    target: &'a Lvalue,
) -> Result<(), AllocError>
    ensures { (u : UnitView) → Stacks u (λ s. with_items (if_used used (spec.pointer_step at op size (lvalue_tree target.now) (assignments.keeps_old time used))) s) control.old.items result control.new.items }
{
    push_if_unused(control, used)?;
    push_moved(control, at, op, size, target, keeps_old(time, used))?;
    Ok(())
}
