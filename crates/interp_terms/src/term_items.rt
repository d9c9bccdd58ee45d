//! The items of terms by their form.
ghost use Rattle.std.specs.Prelude.{◌≡◌, [], ◌∷◌};
ghost use Rattle.c_layout.specs.CheckedTrees.{term_tree, lvalue_tree};
ghost use Rattle.c_layout.specs.CheckedUnits.{UnitView, unit_view};
ghost use Rattle.lower_templates.specs.Worklist.TermKinds.{lvalue_at, lvalue_type, scalar_of};
ghost use Rattle.semantics.specs.SourceMachine.Items as machine;
ghost use Rattle.semantics.specs.SourceMachine.Operations as op;
ghost use Rattle.semantics.specs.SourceMachine.TermItems.{if_used};
ghost use Rattle.semantics.specs.SourceMachine.ConditionItems as spec;
ghost use Rattle.interp_stack.specs.StackViews.{with_item, with_items, Stacks};
ghost use Rattle.interp_terms.specs.Decided.{decided};

use crate::assigned_items::{
    push_assignment, push_compound, push_compound_shift, push_pointer_step, push_step,
};
use crate::called_items::{push_call, push_library};
use crate::operated_items::{
    kind_of_lvalue, lvalue_bytes, operating, order_of, push_at, push_if_unused, push_none,
    push_one, push_operand, push_pointer, push_two,
};
use c_layout::{Checked, CheckedTerm, LogicalOp, Lvalue, TermForm};
use cc_base::UnOp;
use interp_stack::{Arm7, Item7, Operation7, Use7, push_condition, push_item};
use lower_templates::worklist::{integer_type, relation, scalar};
use std::alloc::AllocError;

// ---- values of lvalues

fn push_load<'a>(
    control: &mut Vec<Item7<'a>>,
    used: bool,
    lvalue: &'a Lvalue,
) -> Result<(), AllocError>
    ensures { (u : UnitView) → Stacks u (λ s. with_items (if_used used (machine.Address (lvalue_tree lvalue.now) ∷ (machine.Do (lvalue_at (lvalue_tree lvalue.now)) (op.Load (scalar_of (lvalue_type (lvalue_tree lvalue.now)))) ∷ []))) s) control.old.items result control.new.items }
{
    push_if_unused(control, used)?;
    push_at(control, Operation7::Load(kind_of_lvalue(lvalue)), lvalue)?;
    Ok(())
}

fn push_decay<'a>(
    control: &mut Vec<Item7<'a>>,
    unit: &Checked,
    used: bool,
    lvalue: &'a Lvalue,
) -> Result<(), AllocError>
    ensures { Stacks (unit_view unit.now) (λ s. with_items (if_used used (machine.Address (lvalue_tree lvalue.now) ∷ (machine.Do (lvalue_at (lvalue_tree lvalue.now)) (op.Narrow 0 (op.size_of (unit_view unit.now) (lvalue_type (lvalue_tree lvalue.now)))) ∷ []))) s) control.old.items result control.new.items }
{
    let size = lvalue_bytes(unit, lvalue)?;
    push_if_unused(control, used)?;
    push_at(control, Operation7::Narrow(0, size), lvalue)?;
    Ok(())
}

// ---- values that branch

// What follows the left operand where it holds, and below that what follows where it does not.
fn push_later<'a>(
    control: &mut Vec<Item7<'a>>,
    op: LogicalOp,
    right: &'a CheckedTerm,
) -> Result<(), AllocError>
    ensures { (u : UnitView) → Stacks u (λ s. decided op (term_tree right.now) s) control.old.items result control.new.items }
{
    match op {
        LogicalOp::And => {
            push_item(control, Item7::AfterTruth(false))?;
            push_item(control, Item7::Term(Use7::After(Arm7::Right), right))
        }
        LogicalOp::Or => {
            push_item(control, Item7::Term(Use7::After(Arm7::Right), right))?;
            push_item(control, Item7::AfterTruth(true))
        }
    }
}

// `&&` or `||`: the right operand is come to where the left one does not decide.
fn push_logical<'a>(
    control: &mut Vec<Item7<'a>>,
    used: bool,
    op: LogicalOp,
    left: &'a CheckedTerm,
    right: &'a CheckedTerm,
) -> Result<(), AllocError>
    ensures { (u : UnitView) → Stacks u (λ s. with_items (if_used used (spec.logical op (term_tree left.now) (term_tree right.now))) s) control.old.items result control.new.items }
{
    push_if_unused(control, used)?;
    push_later(control, op, right)?;
    push_item(control, Item7::Term(Use7::Choose(false), left))?;
    push_item(control, Item7::Term(Use7::Value, left))?;
    Ok(())
}

// Behind its first arm control goes round the second one.
fn push_conditional<'a>(
    control: &mut Vec<Item7<'a>>,
    used: bool,
    test: &'a CheckedTerm,
    first: &'a CheckedTerm,
    second: &'a CheckedTerm,
) -> Result<(), AllocError>
    ensures { (u : UnitView) → Stacks u (λ s. with_items (spec.conditional u used (term_tree test.now) (term_tree first.now) (term_tree second.now)) s) control.old.items result control.new.items }
{
    push_item(control, Item7::Term(Use7::After(Arm7::Arm(used)), second))?;
    push_item(control, Item7::Term(Use7::After(Arm7::ArmHop(used)), first))?;
    push_condition(control, test, true)?;
    Ok(())
}

fn push_arm<'a>(
    control: &mut Vec<Item7<'a>>,
    used: bool,
    term: &'a CheckedTerm,
) -> Result<(), AllocError>
    ensures { (u : UnitView) → Stacks u (λ s. with_item (spec.arm used (term_tree term.now)) s) control.old.items result control.new.items }
{
    if used {
        push_item(control, Item7::Term(Use7::Value, term))
    } else {
        push_item(control, Item7::Term(Use7::Unused, term))
    }
}

fn push_comma<'a>(
    control: &mut Vec<Item7<'a>>,
    used: bool,
    first: &'a CheckedTerm,
    second: &'a CheckedTerm,
) -> Result<(), AllocError>
    ensures { (u : UnitView) → Stacks u (λ s. with_items (machine.Unused (term_tree first.now) ∷ (spec.arm used (term_tree second.now) ∷ [])) s) control.old.items result control.new.items }
{
    push_arm(control, used, second)?;
    push_item(control, Item7::Term(Use7::Unused, first))?;
    Ok(())
}

// ---- terms

// An object is assigned to or stepped.
fn push_assigned<'a>(
    control: &mut Vec<Item7<'a>>,
    term: &'a CheckedTerm,
    used: bool,
) -> Result<(), AllocError>
    ensures { (u : UnitView) → Stacks u (λ s. with_items (spec.term_items u used (term_tree term.now)) s) control.old.items result control.new.items }
{
    let at = term.place;
    match &term.form {
        TermForm::Assign(lvalue, a) => push_assignment(control, used, lvalue, a),
        TermForm::Compound(op, kind, lvalue, a) => {
            push_compound(control, used, at, *op, integer_type(kind), lvalue, a)
        }
        TermForm::CompoundShift(back, size, lvalue, a) => {
            push_compound_shift(control, used, at, *back, *size, lvalue, a)
        }
        TermForm::Step(op, time, kind, lvalue) => {
            push_step(control, used, at, *op, *time, integer_type(kind), lvalue)
        }
        TermForm::StepPointer(op, time, size, lvalue) => {
            push_pointer_step(control, used, at, *op, *time, *size, lvalue)
        }
        _ => Err(AllocError),
    }
}

// An operator with a sequence point behind its first operand.
fn push_sequenced<'a>(
    control: &mut Vec<Item7<'a>>,
    term: &'a CheckedTerm,
    used: bool,
) -> Result<(), AllocError>
    ensures { (u : UnitView) → Stacks u (λ s. with_items (spec.term_items u used (term_tree term.now)) s) control.old.items result control.new.items }
{
    match &term.form {
        TermForm::Logical(op, a, b) => push_logical(control, used, *op, a, b),
        TermForm::Conditional(test, a, b) => push_conditional(control, used, test, a, b),
        TermForm::Comma(a, b) => push_comma(control, used, a, b),
        _ => push_assigned(control, term, used),
    }
}

// An operator of two operands.
fn push_binary<'a>(
    control: &mut Vec<Item7<'a>>,
    term: &'a CheckedTerm,
    used: bool,
) -> Result<(), AllocError>
    ensures { (u : UnitView) → Stacks u (λ s. with_items (spec.term_items u used (term_tree term.now)) s) control.old.items result control.new.items }
{
    let at = term.place;
    match &term.form {
        TermForm::Integer(op, a, b) => {
            push_two(control, used, at, operating(*op, &term.ctype), a, b)
        }
        TermForm::Shift(back, size, a, b) => {
            let operation = Operation7::Shift(order_of(&a.ctype), *size, *back);
            push_two(control, used, at, operation, a, b)
        }
        TermForm::Difference(size, a, b) => {
            push_two(control, used, at, Operation7::Difference(*size), a, b)
        }
        TermForm::Compare(op, a, b) => {
            let operation = Operation7::ComparePointers(relation(*op));
            push_two(control, used, at, operation, a, b)
        }
        _ => push_sequenced(control, term, used),
    }
}

// An operator of one operand.
fn push_unary<'a>(
    control: &mut Vec<Item7<'a>>,
    term: &'a CheckedTerm,
    used: bool,
) -> Result<(), AllocError>
    ensures { (u : UnitView) → Stacks u (λ s. with_items (spec.term_items u used (term_tree term.now)) s) control.old.items result control.new.items }
{
    let at = term.place;
    let own = integer_type(&term.ctype);
    match &term.form {
        TermForm::Convert(_, a) => {
            push_one(
                control,
                used,
                at,
                Operation7::Convert(scalar(&term.ctype)),
                a,
            )
        }
        TermForm::Discard(a) => push_item(control, Item7::Term(Use7::Unused, a)),
        TermForm::Plus(a) => push_operand(control, used, a),
        TermForm::Minus(a) => push_one(control, used, at, Operation7::Unary(UnOp::Neg, own), a),
        TermForm::Complement(a) => {
            push_one(control, used, at, Operation7::Unary(UnOp::Compl, own), a)
        }
        TermForm::Not(a) => push_one(control, used, at, Operation7::Not, a),
        _ => push_binary(control, term, used),
    }
}

/// The items of a term whose value is used or not.
pub fn push_term<'a>(
    control: &mut Vec<Item7<'a>>,
    unit: &Checked,
    term: &'a CheckedTerm,
    used: bool,
) -> Result<(), AllocError>
    ensures { Stacks (unit_view unit.now) (λ s. with_items (spec.term_items (unit_view unit.now) used (term_tree term.now)) s) control.old.items result control.new.items }
{
    let at = term.place;
    match &term.form {
        TermForm::Number(n) => push_none(control, used, at, Operation7::Number(n)),
        TermForm::Sizeof(n, None, _) => push_none(control, used, at, Operation7::Size(*n)),
        TermForm::Sizeof(n, Some(_), _) => push_none(control, used, at, Operation7::Size(*n)),
        TermForm::Load(lvalue) => push_load(control, used, lvalue),
        TermForm::AddressOf(lvalue) => push_pointer(control, used, lvalue),
        TermForm::Decay(lvalue) => push_decay(control, unit, used, lvalue),
        TermForm::Struct(lvalue) => push_pointer(control, used, lvalue),
        TermForm::Call(function, arguments, is_used) => {
            push_call(control, used, at, *function, arguments.as_slice(), *is_used)
        }
        TermForm::Library(function, arguments, allocated) => {
            push_library(
                control,
                used,
                at,
                *function,
                arguments.as_slice(),
                allocated,
            )
        }
        _ => push_unary(control, term, used),
    }
}
