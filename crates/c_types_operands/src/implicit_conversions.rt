//! Conversions that no cast writes (6.3 of ISO/IEC 9899:2011).
ghost use Rattle.std.specs.Prelude.{◌≡◌, IfOk, option_map};
ghost use Rattle.c_layout.specs.Types.{view};
ghost use Rattle.c_layout.specs.CheckedTrees.{term_tree};
ghost use Rattle.c_types_scopes.specs.Answers.{Gives};
ghost use Rattle.c_types_scopes.specs.Known.{known};
ghost use Rattle.c_types_operands.specs.Operands.{boxed_term};
ghost use Rattle.c_types_operands.specs.Conversions as spec;

use crate::operands::{is_null, term_node};
use c_layout::{CType, CheckedTerm, ConversionKind, TermForm};
use c_types_rules::rules::{Conversion, argument_conversion};
use c_types_scopes::{Context, pointer_integer, type_fault};
use cc_base::{IntType, Memory, Place, Stop};

/// A type, where it is complete.
fn if_complete(cx: &Context, t: &CType) -> Result<Option<CType>, Memory>
    ensures { IfOk result (λ o. option_map view o ≡ spec.if_complete (known cx.now) (view t.now)) }
{
    match cx.size_of(t) {
        Some(_) => Ok(Some(t.copy(cx.alloc)?)),
        None => Ok(None),
    }
}

/// The type to which a type points, where it is complete.
pub fn complete_target(cx: &Context, t: &CType) -> Result<Option<CType>, Memory>
    ensures { IfOk result (λ o. option_map view o ≡ spec.complete_target (known cx.now) (view t.now)) }
{
    match t {
        CType::Pointer(target) => if_complete(cx, target),
        CType::Int(_) => Ok(None),
        CType::Array(_, _) => Ok(None),
        CType::Struct(_) => Ok(None),
        CType::Void => Ok(None),
    }
}

/// An allocation that is converted at once to a pointer to a complete type keeps that type.
fn note_allocation(cx: &Context, from: &mut CheckedTerm, to: &CType) -> Result<(), Memory>
    ensures { IfOk result (λ _. term_tree from.new ≡ spec.noted (known cx.now) (view to.now) (term_tree from.old)) }
{
    if let TermForm::Library(function, _, slot) = &mut from.form {
        if function.signature().allocates {
            *slot = complete_target(cx, to)?;
        }
    }
    Ok(())
}

/// A term converted to a type.
pub fn converted_term(
    cx: &Context,
    kind: ConversionKind,
    place: Place,
    from: Box<CheckedTerm>,
    to: CType,
) -> Result<Box<CheckedTerm>, Memory>
    ensures { IfOk result (λ b. term_tree b.value ≡ spec.converted_term (known cx.now) kind place (term_tree from.value) (view to)) }
{
    let mut inner = from;
    note_allocation(cx, &mut inner, &to)?;
    let constant = inner.constant;
    let mut made = term_node(cx.alloc, place, to, TermForm::Convert(kind, inner))?;
    made.constant = constant;
    Ok(made)
}

/// A term converted without a cast, at its own place.
pub fn implicit(cx: &Context, from: Box<CheckedTerm>, to: CType) -> Result<Box<CheckedTerm>, Memory>
    ensures { IfOk result (λ b. term_tree b.value ≡ spec.implicit (known cx.now) (term_tree from.value) (view to)) }
{
    let place = from.place;
    converted_term(cx, ConversionKind::Implicit, place, from, to)
}

/// A term in a type; one that has it already is not converted.
pub fn in_type(cx: &Context, from: Box<CheckedTerm>, to: CType) -> Result<Box<CheckedTerm>, Memory>
    ensures { IfOk result (λ b. term_tree b.value ≡ spec.in_type (known cx.now) (term_tree from.value) (view to)) }
{
    if from.ctype.is_same(&to) {
        Ok(from)
    } else {
        implicit(cx, from, to)
    }
}

/// An integer in an integer type; one that has it already is not converted.
pub fn integer_as(
    cx: &Context,
    from: Box<CheckedTerm>,
    kind: IntType,
) -> Result<Box<CheckedTerm>, Memory>
    ensures { IfOk result (λ b. term_tree b.value ≡ spec.integer_as (known cx.now) (term_tree from.value) kind) }
{
    in_type(cx, from, CType::Int(kind))
}

/// A value that is assigned, passed or returned to a type (6.5.16.1), or the refusal at a place.
pub fn assigned(
    cx: &Context,
    place: Place,
    from: Box<CheckedTerm>,
    to: &CType,
) -> Result<Box<CheckedTerm>, Stop>
    ensures { Gives boxed_term (spec.assigned (known cx.now) place (term_tree from.value) (view to.now)) result }
{
    match argument_conversion(&from.ctype, is_null(&from), to) {
        Conversion::Same => Ok(from),
        Conversion::Converted => {
            let to = to.copy(cx.alloc)?;
            Ok(implicit(cx, from, to)?)
        }
        Conversion::Crossing => Err(pointer_integer(place)),
        Conversion::Nothing => Err(type_fault(place)),
    }
}

/// A term whose value is not used: a call that stands there alone gives none.
pub fn unused(from: Box<CheckedTerm>) -> Box<CheckedTerm>
    ensures { term_tree result.value ≡ spec.unused (term_tree from.value) }
{
    let mut made = from;
    if let TermForm::Call(_, _, is_used) = &mut made.form {
        *is_used = false;
    }
    made
}
