//! The items of lvalues, and of operators: operands from left to right, and then the operator.
ghost use Rattle.std.specs.Prelude.{◌≡◌, [], ◌∷◌, IfOk};
ghost use Rattle.c_layout.specs.Types.{view, same_kind};
ghost use Rattle.c_layout.specs.CheckedTrees.{term_tree, lvalue_tree};
ghost use Rattle.c_layout.specs.CheckedUnits.{UnitView, unit_view};
ghost use Rattle.lower_templates.specs.Worklist.TermKinds.{meaning, lvalue_at, lvalue_type};
ghost use Rattle.semantics.specs.SourceMachine.Items as machine;
ghost use Rattle.semantics.specs.SourceMachine.Operations as op;
ghost use Rattle.semantics.specs.SourceMachine.Operations.{size_of};
ghost use Rattle.semantics.specs.SourceMachine.TermItems.{address_items, converted, if_used, integer_kind, lvalue_kind, operating, order_of};
ghost use Rattle.interp_stack.specs.ItemViews.{operation_view, order_view};
ghost use Rattle.interp_stack.specs.StackViews.{with_item, with_items, unless_used, Stacks, Adds};

use c_layout::{BinaryOp, CType, Checked, CheckedTerm, Lvalue, LvalueForm, type_bytes};
use cc_base::{IntType, Place};
use cfg::Scalar;
use interp_stack::{Item7, Operation7, Order7, Use7, push_item};
use lower_templates::worklist::{OperatorMeaning, integer_type, meaning, scalar};
use std::alloc::AllocError;

/// An operation at a place.
pub fn push_do<'a>(
    control: &mut Vec<Item7<'a>>,
    at: Place,
    operation: Operation7<'a>,
) -> Result<(), AllocError>
    ensures { (u : UnitView) → Stacks u (λ s. with_item (machine.Do at (operation_view operation.entry)) s) control.old.items result control.new.items }
{
    push_item(control, Item7::Do(at, operation))
}

/// A value that is not used is dropped.
pub fn push_if_unused<'a>(control: &mut Vec<Item7<'a>>, used: bool) -> Result<(), AllocError>
    ensures { (u : UnitView) → Stacks u (λ s. unless_used used s) control.old.items result control.new.items }
{
    if used {
        Ok(())
    } else {
        push_item(control, Item7::Drop)
    }
}

// ---- lvalues

/// An operation at the place of an lvalue.
pub fn push_on_lvalue<'a>(
    control: &mut Vec<Item7<'a>>,
    lvalue: &Lvalue,
    operation: Operation7<'a>,
) -> Result<(), AllocError>
    ensures { (u : UnitView) → Stacks u (λ s. with_item (machine.Do (lvalue_at (lvalue_tree lvalue.now)) (operation_view operation.entry)) s) control.old.items result control.new.items }
{
    push_do(control, lvalue.place, operation)
}

/// How the value of an lvalue is kept.
pub fn kind_of_lvalue(lvalue: &Lvalue) -> Scalar
    ensures { result ≡ lvalue_kind (lvalue_tree lvalue.now) }
{
    scalar(&lvalue.ctype)
}

/// The integer type of an lvalue (6.5.16), or where it has none what `integer_type` gives of its type.
pub fn integer_kind_of(lvalue: &Lvalue) -> IntType
    ensures { result ≡ integer_kind (lvalue_tree lvalue.now) }
{
    integer_type(&lvalue.ctype)
}

/// The size of an lvalue in bytes.
pub fn lvalue_bytes(unit: &Checked, lvalue: &Lvalue) -> Result<u64, AllocError>
    ensures { IfOk result (λ n. n ≡ size_of (unit_view unit.now) (lvalue_type (lvalue_tree lvalue.now))) }
{
    let size = type_bytes(&lvalue.ctype, &unit.structs, unit.model.pointer)?;
    Ok(size)
}

fn push_member<'a>(
    control: &mut Vec<Item7<'a>>,
    unit: &Checked,
    lvalue: &'a Lvalue,
    outer: &'a Lvalue,
    offset: u64,
) -> Result<(), AllocError>
    ensures { Stacks (unit_view unit.now) (λ s. with_items (machine.Address (lvalue_tree outer.now) ∷ (machine.Do (lvalue_at (lvalue_tree lvalue.now)) (op.Narrow offset (size_of (unit_view unit.now) (lvalue_type (lvalue_tree lvalue.now)))) ∷ [])) s) control.old.items result control.new.items }
{
    let size = lvalue_bytes(unit, lvalue)?;
    push_on_lvalue(control, lvalue, Operation7::Narrow(offset, size))?;
    push_item(control, Item7::Address(outer))?;
    Ok(())
}

fn push_copied<'a>(
    control: &mut Vec<Item7<'a>>,
    target: &'a Lvalue,
    source: &'a Lvalue,
) -> Result<(), AllocError>
    ensures { (u : UnitView) → Stacks u (λ s. with_items (machine.Address (lvalue_tree target.now) ∷ (machine.Address (lvalue_tree source.now) ∷ (machine.Do (lvalue_at (lvalue_tree target.now)) (op.Copy (lvalue_type (lvalue_tree target.now))) ∷ []))) s) control.old.items result control.new.items }
{
    push_on_lvalue(control, target, Operation7::Copy(&target.ctype))?;
    push_item(control, Item7::Address(source))?;
    push_item(control, Item7::Address(target))?;
    Ok(())
}

fn push_then<'a>(
    control: &mut Vec<Item7<'a>>,
    left: &'a CheckedTerm,
    right: &'a Lvalue,
) -> Result<(), AllocError>
    ensures { (u : UnitView) → Stacks u (λ s. with_items (machine.Unused (term_tree left.now) ∷ (machine.Address (lvalue_tree right.now) ∷ [])) s) control.old.items result control.new.items }
{
    push_item(control, Item7::Address(right))?;
    push_item(control, Item7::Term(Use7::Unused, left))?;
    Ok(())
}

/// The items that push the pointer to an lvalue.
pub fn push_address<'a>(
    control: &mut Vec<Item7<'a>>,
    unit: &Checked,
    lvalue: &'a Lvalue,
) -> Result<(), AllocError>
    ensures { Stacks (unit_view unit.now) (λ s. with_items (address_items (unit_view unit.now) (lvalue_tree lvalue.now)) s) control.old.items result control.new.items }
{
    match &lvalue.form {
        LvalueForm::Object(object) => push_item(control, Item7::Object(lvalue.place, *object, 0)),
        LvalueForm::Literal(index) => push_item(control, Item7::Literal(lvalue.place, *index)),
        LvalueForm::Target(pointer) => push_item(control, Item7::Term(Use7::Value, pointer)),
        LvalueForm::Member(outer, offset) => push_member(control, unit, lvalue, outer, *offset),
        LvalueForm::Copied(target, source) => push_copied(control, target, source),
        LvalueForm::Then(left, right) => push_then(control, left, right),
    }
}

// ---- operators

fn is_kind(a: IntType, b: IntType) -> bool
    ensures { result ≡ same_kind a b }
{
    a.bytes == b.bytes && (a.signed == b.signed && a.rank == b.rank)
}

/// A conversion is a step only where the types differ.
pub fn push_converted<'a>(
    control: &mut Vec<Item7<'a>>,
    at: Place,
    old: IntType,
    new: IntType,
) -> Result<(), AllocError>
    ensures { (u : UnitView) → Adds u (converted at old new) control.old.items result control.new.items }
{
    if is_kind(old, new) {
        Ok(())
    } else {
        push_do(control, at, Operation7::Convert(Scalar::Int(new)))
    }
}

/// An operator on integers, which gives a value of a type.
pub fn operating<'a>(op: BinaryOp, ctype: &CType) -> Operation7<'a>
    ensures { operation_view result ≡ operating (meaning op) (view ctype.now) }
{
    match meaning(op) {
        OperatorMeaning::Number(sign) => {
            Operation7::Binary(Order7::LeftFirst, sign, integer_type(ctype))
        }
        OperatorMeaning::Truth(rel) => Operation7::Compare(rel),
    }
}

/// In a sum of a pointer and an integer either may stand first.
pub fn order_of(t: &CType) -> Order7
    ensures { order_view result ≡ order_of (view t.now) }
{
    match t {
        CType::Int(_) => Order7::RightFirst,
        CType::Pointer(_) => Order7::LeftFirst,
        CType::Array(_, _) => Order7::LeftFirst,
        CType::Struct(_) => Order7::LeftFirst,
        CType::Void => Order7::LeftFirst,
    }
}

/// An operation on no value.
pub fn push_none<'a>(
    control: &mut Vec<Item7<'a>>,
    used: bool,
    at: Place,
    operation: Operation7<'a>,
) -> Result<(), AllocError>
    ensures { (u : UnitView) → Stacks u (λ s. with_items (if_used used (machine.Do at (operation_view operation.entry) ∷ [])) s) control.old.items result control.new.items }
{
    push_if_unused(control, used)?;
    push_do(control, at, operation)?;
    Ok(())
}

/// An operand and an operation.
pub fn push_one<'a>(
    control: &mut Vec<Item7<'a>>,
    used: bool,
    at: Place,
    operation: Operation7<'a>,
    operand: &'a CheckedTerm,
) -> Result<(), AllocError>
    ensures { (u : UnitView) → Stacks u (λ s. with_items (if_used used (machine.Value (term_tree operand.now) ∷ (machine.Do at (operation_view operation.entry) ∷ []))) s) control.old.items result control.new.items }
{
    push_if_unused(control, used)?;
    push_do(control, at, operation)?;
    push_item(control, Item7::Term(Use7::Value, operand))?;
    Ok(())
}

/// Two operands and an operation.
pub fn push_two<'a>(
    control: &mut Vec<Item7<'a>>,
    used: bool,
    at: Place,
    operation: Operation7<'a>,
    left: &'a CheckedTerm,
    right: &'a CheckedTerm,
) -> Result<(), AllocError>
    ensures { (u : UnitView) → Stacks u (λ s. with_items (if_used used (machine.Value (term_tree left.now) ∷ (machine.Value (term_tree right.now) ∷ (machine.Do at (operation_view operation.entry) ∷ [])))) s) control.old.items result control.new.items }
{
    push_if_unused(control, used)?;
    push_do(control, at, operation)?;
    push_item(control, Item7::Term(Use7::Value, right))?;
    push_item(control, Item7::Term(Use7::Value, left))?;
    Ok(())
}

/// An operand alone.
pub fn push_operand<'a>(
    control: &mut Vec<Item7<'a>>,
    used: bool,
    operand: &'a CheckedTerm,
) -> Result<(), AllocError>
    ensures { (u : UnitView) → Stacks u (λ s. with_items (if_used used (machine.Value (term_tree operand.now) ∷ [])) s) control.old.items result control.new.items }
{
    push_if_unused(control, used)?;
    push_item(control, Item7::Term(Use7::Value, operand))?;
    Ok(())
}

/// A pointer to an lvalue alone.
pub fn push_pointer<'a>(
    control: &mut Vec<Item7<'a>>,
    used: bool,
    lvalue: &'a Lvalue,
) -> Result<(), AllocError>
    ensures { (u : UnitView) → Stacks u (λ s. with_items (if_used used (machine.Address (lvalue_tree lvalue.now) ∷ [])) s) control.old.items result control.new.items }
{
    push_if_unused(control, used)?;
    push_item(control, Item7::Address(lvalue))?;
    Ok(())
}

/// A pointer to an lvalue and an operation.
pub fn push_at<'a>(
    control: &mut Vec<Item7<'a>>,
    operation: Operation7<'a>,
    lvalue: &'a Lvalue,
) -> Result<(), AllocError>
    ensures { (u : UnitView) → Stacks u (λ s. with_items (machine.Address (lvalue_tree lvalue.now) ∷ (machine.Do (lvalue_at (lvalue_tree lvalue.now)) (operation_view operation.entry) ∷ [])) s) control.old.items result control.new.items }
{
    push_on_lvalue(control, lvalue, operation)?;
    push_item(control, Item7::Address(lvalue))?;
    Ok(())
}
