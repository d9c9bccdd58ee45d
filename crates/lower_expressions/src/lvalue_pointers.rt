//! Pointers to lvalues.
ghost use Rattle.std.specs.Prelude.{◌≡◌, IfOk};
ghost use Rattle.c_layout.specs.CheckedTrees.{term_tree, lvalue_tree};
ghost use Rattle.lower_templates.specs.Worklist.Plans.{plan, name_of_object};
ghost use Rattle.lower_templates.specs.Worklist.Pieces.{name_view};
ghost use Rattle.lower_templates.specs.Worklist.Settings.{setting};
ghost use Rattle.lower_expressions.specs.LvaluePointers as spec;

use c_layout::{CheckedTerm, Lvalue, LvalueForm, ObjectRef};
use cc_base::Place;
use cfg::Operation;
use lower_templates::worklist::{BaseName, Builder, Setting, Work, behind, struct_number};
use std::alloc::AllocError;

/// The address of a named object.
fn object_address(
    builder: &mut Builder,
    place: Place,
    object: ObjectRef,
    depth: u32,
) -> Result<(), AllocError>
    ensures { IfOk result (λ _. plan builder.new ≡ spec.base_address place (name_of_object object) depth (plan builder.old)) }
{
    let base = builder.object(object)?;
    builder.emit(place, Operation::Address(depth, base, 0))
}

/// The address of a literal.
fn literal_address(
    builder: &mut Builder,
    place: Place,
    number: u32,
    depth: u32,
) -> Result<(), AllocError>
    ensures { IfOk result (λ _. plan builder.new ≡ spec.literal_address place number depth (plan builder.old)) }
{
    let base = builder.base(BaseName::Literal(number))?;
    builder.emit(place, Operation::Address(depth, base, 0))
}

/// The selection of a member (6.5.2.3).
fn member_pointer<'a>(
    cx: &Setting<'a>,
    builder: &mut Builder<'a>,
    lvalue: &'a Lvalue,
    outer: &'a Lvalue,
    offset: u64,
    depth: u32,
) -> Result<(), AllocError>
    ensures { IfOk result (λ _. plan builder.new ≡ spec.member_pointer (setting cx.now) (lvalue_tree lvalue.now) (lvalue_tree outer.now) offset depth (plan builder.old)) }
{
    let size = cx.bytes(&lvalue.ctype)?;
    builder.add(Work::Address(outer, depth))?;
    builder.emit(lvalue.place, Operation::Narrow(depth, depth, offset, size))
}

/// The assignment of a struct (6.5.16.1), whose value is its left side.
fn copied<'a>(
    builder: &mut Builder<'a>,
    target: &'a Lvalue,
    source: &'a Lvalue,
    depth: u32,
) -> Result<(), AllocError>
    ensures { IfOk result (λ _. plan builder.new ≡ spec.copied (lvalue_tree target.now) (lvalue_tree source.now) depth (plan builder.old)) }
{
    let second = behind(depth, 1);
    builder.add(Work::Address(target, depth))?;
    builder.add(Work::Address(source, second))?;
    let number = struct_number(&target.ctype);
    builder.emit(target.place, Operation::Copy(depth, second, number))
}

/// An expression, and then an lvalue.
fn after_unused<'a>(
    builder: &mut Builder<'a>,
    left: &'a CheckedTerm,
    right: &'a Lvalue,
    depth: u32,
) -> Result<(), AllocError>
    ensures { IfOk result (λ _. plan builder.new ≡ spec.after_unused (term_tree left.now) (lvalue_tree right.now) depth (plan builder.old)) }
{
    builder.add(Work::Unused(left, depth))?;
    builder.add(Work::Address(right, depth))
}

/// The works of a pointer to an lvalue.
pub fn address_works<'a>(
    cx: &Setting<'a>,
    builder: &mut Builder<'a>,
    lvalue: &'a Lvalue,
    depth: u32,
) -> Result<(), AllocError>
    ensures { IfOk result (λ _. plan builder.new ≡ spec.address (setting cx.now) (lvalue_tree lvalue.now) depth (plan builder.old)) }
{
    match &lvalue.form {
        LvalueForm::Object(object) => object_address(builder, lvalue.place, *object, depth),
        LvalueForm::Literal(number) => literal_address(builder, lvalue.place, *number, depth),
        LvalueForm::Target(pointer) => builder.add(Work::Value(pointer, depth)),
        LvalueForm::Member(outer, offset) => {
            member_pointer(cx, builder, lvalue, outer, *offset, depth)
        }
        LvalueForm::Copied(target, source) => copied(builder, target, source, depth),
        LvalueForm::Then(left, right) => after_unused(builder, left, right, depth),
    }
}
