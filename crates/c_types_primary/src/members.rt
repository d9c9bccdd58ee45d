//! Members (6.5.2.3 of ISO/IEC 9899:2011).
ghost use Rattle.std.specs.Prelude.{◌≡◌, Some, IfOk};
ghost use Rattle.c_layout.specs.Types.{view};
ghost use Rattle.c_layout.specs.CheckedTrees.{lvalue_tree};
ghost use Rattle.c_types_scopes.specs.Answers.{Gives};
ghost use Rattle.c_types_scopes.specs.StructTables.{member_view};
ghost use Rattle.c_types_scopes.specs.States.{state};
ghost use Rattle.c_types_operands.specs.Operands.{operand_view, form_view};
ghost use Rattle.c_types_primary.specs.Members as spec;

use c_layout::{CType, Lvalue, LvalueForm};
use c_types_operands::{Form, Operand, indirection, lvalue_operand, term_of};
use c_types_scopes::{Context, FoundMember, StructTypes, type_fault, undeclared};
use cc_base::{Memory, Place, Stop, Text};

/// The number of a struct, where it is complete.
fn if_complete(cx: &Context, number: u32) -> Option<u32>
    ensures { result ≡ spec.if_complete (state cx.now).types (Some number) }
{
    if cx.types.is_complete(number) {
        Some(number)
    } else {
        None
    }
}

/// The number of a complete struct that a type is.
fn complete_struct(cx: &Context, t: &CType) -> Option<u32>
    ensures { result ≡ spec.complete_struct (state cx.now).types (view t.now) }
{
    match StructTypes::struct_of(t) {
        Some(number) => if_complete(cx, number),
        None => None,
    }
}

/// A member that was found.
fn member_operand(
    cx: &Context,
    place: Place,
    whole: Box<Lvalue>,
    found: FoundMember<'_>,
) -> Result<Operand, Memory>
    ensures { IfOk result (λ o. operand_view o ≡ spec.member_operand place (lvalue_tree whole.value) (member_view found.entry)) }
{
    let ctype = found.field.ctype.copy(cx.alloc)?;
    let form = LvalueForm::Member(whole, found.field.offset);
    lvalue_operand(cx.alloc, place, ctype, form, found.enumeration)
}

/// The member with a numbered name of a struct lvalue.
fn member_with(
    cx: &Context,
    place: Place,
    whole: Box<Lvalue>,
    owner: u32,
    known: u32,
) -> Result<Operand, Stop>
    ensures { Gives operand_view (spec.member_with (state cx.now) place (lvalue_tree whole.value) owner known) result }
{
    match cx.types.member(owner, known) {
        Some(found) => Ok(member_operand(cx, place, whole, found)?),
        None => Err(undeclared(place)),
    }
}

/// The member of a struct lvalue, which has this number.
fn member_in(
    cx: &Context,
    place: Place,
    whole: Box<Lvalue>,
    owner: u32,
    name: &Text,
) -> Result<Operand, Stop>
    ensures { Gives operand_view (spec.member_in (state cx.now) place (lvalue_tree whole.value) owner name.now) result }
{
    match cx.scopes.known(name) {
        Some(known) => member_with(cx, place, whole, owner, known),
        None => Err(undeclared(place)),
    }
}

/// The member of an lvalue.
fn selected(cx: &Context, place: Place, whole: Box<Lvalue>, name: &Text) -> Result<Operand, Stop>
    ensures { Gives operand_view (spec.selected (state cx.now) place (lvalue_tree whole.value) name.now) result }
{
    match complete_struct(cx, &whole.ctype) {
        Some(owner) => member_in(cx, place, whole, owner, name),
        None => Err(type_fault(place)),
    }
}

/// `.`
pub fn member(cx: &Context, place: Place, whole: Operand, name: &Text) -> Result<Operand, Stop>
    ensures { Gives operand_view (spec.member (state cx.now) place (operand_view whole) name.now) result }
{
    match whole.form {
        Form::Lvalue(lvalue) => selected(cx, place, lvalue, name),
        Form::Value(_term) => Err(type_fault(place)),
    }
}

/// `->`
pub fn arrow(cx: &Context, place: Place, pointer: Operand, name: &Text) -> Result<Operand, Stop>
    ensures { Gives operand_view (spec.arrow (state cx.now) place (operand_view pointer) name.now) result }
{
    let pointer = term_of(cx.alloc, pointer)?;
    let whole = indirection(cx, place, pointer)?;
    member(cx, place, whole, name)
}
