//! `sizeof` and casts (6.5.3.4, 6.5.4 of ISO/IEC 9899:2011).
ghost use Rattle.std.specs.Prelude.{◌≡◌, IfOk, option_map};
ghost use Rattle.c_layout.specs.Types.{view};
ghost use Rattle.c_layout.specs.CheckedTrees.{term_tree, lvalue_tree};
ghost use Rattle.c_types_scopes.specs.Answers.{Gives};
ghost use Rattle.c_types_scopes.specs.Known.{known};
ghost use Rattle.c_types_operands.specs.Operands.{operand_view, value_view, form_view, boxed_term};
ghost use Rattle.c_types_operators.specs.SizesAndCasts as spec;

use crate::unary_operators::converted_if;
use c_layout::{CType, CheckedTerm, ConversionKind, Lvalue, LvalueForm, TermForm};
use c_types_operands::{
    Constancy, Form, Operand, Value, converted_term, is_null, is_void, loaded, number_operand,
    unused, value_of, value_operand,
};
use c_types_rules::rules::{Conversion, cast_conversion, size_kind};
use c_types_scopes::{Context, pointer_integer, type_fault};
use cc_base::{Memory, Place, Stop};

/// A size.
fn size_operand(
    cx: &Context,
    place: Place,
    size: u64,
    operand: Option<Box<CheckedTerm>>,
    is_pointer: bool,
) -> Result<Operand, Memory>
    ensures { IfOk result (λ o. operand_view o ≡ spec.size_operand (known cx.now) place size (option_map boxed_term operand) is_pointer) }
{
    let constancy = Constancy {
        constant: Some(i128::from(size)),
        fixed: true,
    };
    let ctype = CType::Int(size_kind(&cx.model.numbers));
    let form = TermForm::Sizeof(size, operand, is_pointer);
    number_operand(cx.alloc, place, ctype, form, constancy)
}

/// Whether an lvalue is a name or a member.
fn is_named(lvalue: &Lvalue) -> bool
    ensures { result ≡ spec.is_named (lvalue_tree lvalue.now) }
{
    match &lvalue.form {
        LvalueForm::Object(_) => true,
        LvalueForm::Member(_, _) => true,
        LvalueForm::Literal(_) => false,
        LvalueForm::Target(_) => false,
        LvalueForm::Copied(_, _) => false,
        LvalueForm::Then(_, _) => false,
    }
}

/// Whether a type is a pointer's.
fn is_pointer(t: &CType) -> bool
    ensures { result ≡ spec.is_pointer (view t.now) }
{
    match t {
        CType::Int(_) => false,
        CType::Pointer(_) => true,
        CType::Array(_, _) => false,
        CType::Struct(_) => false,
        CType::Void => false,
    }
}

/// Whether an lvalue is a name or a member of pointer type.
fn is_pointer_named(lvalue: &Lvalue) -> bool
    ensures { result ≡ spec.is_pointer_named (lvalue_tree lvalue.now) }
{
    if is_named(lvalue) {
        is_pointer(&lvalue.ctype)
    } else {
        false
    }
}

/// Whether an operand is a name or a member of pointer type.
fn is_named_pointer(form: &Form) -> bool
    ensures { result ≡ spec.is_named_pointer (form_view form.now) }
{
    match form {
        Form::Lvalue(lvalue) => is_pointer_named(lvalue),
        Form::Value(_) => false,
    }
}

/// The value of an lvalue of any type, as it stands under `sizeof`.
fn unconverted(cx: &Context, lvalue: Box<Lvalue>) -> Result<Box<CheckedTerm>, Memory>
    ensures { IfOk result (λ b. term_tree b.value ≡ spec.unconverted (lvalue_tree lvalue.value)) }
{
    let ctype = lvalue.ctype.copy(cx.alloc)?;
    let place = lvalue.place;
    let parens = lvalue.parens;
    loaded(cx.alloc, place, ctype, parens, lvalue)
}

/// An operand of `sizeof` as a term.
fn sized_term(cx: &Context, form: Form) -> Result<Box<CheckedTerm>, Memory>
    ensures { IfOk result (λ b. term_tree b.value ≡ spec.sized_term (form_view form)) }
{
    match form {
        Form::Value(term) => Ok(term),
        Form::Lvalue(lvalue) => unconverted(cx, lvalue),
    }
}

/// `sizeof` of an expression: an array is not converted.
pub fn size_of_operand(cx: &Context, place: Place, operand: Operand) -> Result<Operand, Stop>
    ensures { Gives operand_view (spec.size_of_operand (known cx.now) place (operand_view operand)) result }
{
    let named = is_named_pointer(&operand.form);
    let operand = sized_term(cx, operand.form)?;
    match cx.size_of(&operand.ctype) {
        Some(size) => Ok(size_operand(cx, place, size, Some(operand), named)?),
        None => Err(type_fault(place)),
    }
}

/// `sizeof` of a type.
pub fn size_of_type(cx: &Context, place: Place, named: &CType) -> Result<Operand, Stop>
    ensures { Gives operand_view (spec.size_of_type (known cx.now) place (view named.now)) result }
{
    match cx.size_of(named) {
        Some(size) => Ok(size_operand(cx, place, size, None, false)?),
        None => Err(type_fault(place)),
    }
}

/// A cast to void.
fn discarded(cx: &Context, place: Place, operand: Box<CheckedTerm>) -> Result<Operand, Memory>
    ensures { IfOk result (λ o. operand_view o ≡ spec.discarded place (term_tree operand.value)) }
{
    let form = TermForm::Discard(unused(operand));
    value_operand(cx.alloc, place, CType::Void, form)
}

/// The value of a cast of a constant to a type: only one to an integer type has one.
fn cast_value(to: &CType, constant: Option<i128>) -> Option<i128>
    ensures { result ≡ spec.cast_value (view to.now) constant }
{
    match to {
        CType::Int(kind) => converted_if(*kind, constant),
        CType::Pointer(_) => None,
        CType::Array(_, _) => None,
        CType::Struct(_) => None,
        CType::Void => None,
    }
}

/// Whether a cast to a type has the form of a constant expression: only one to an integer type has it.
fn cast_fixed(to: &CType, fixed: bool) -> bool
    ensures { result ≡ spec.cast_fixed (view to.now) fixed }
{
    match to {
        CType::Int(_) => fixed,
        CType::Pointer(_) => false,
        CType::Array(_, _) => false,
        CType::Struct(_) => false,
        CType::Void => false,
    }
}

/// A value with the form of a constant expression or without it.
fn with_constancy(term: Box<CheckedTerm>, constancy: Constancy) -> Operand
    ensures { operand_view result ≡ spec.with_constancy (term_tree term.value) constancy.constant constancy.fixed }
{
    let mut made = term;
    made.constant = if constancy.fixed {
        constancy.constant
    } else {
        None
    };
    Operand {
        form: Form::Value(made),
        fixed: constancy.fixed,
        enumeration: None,
    }
}

/// A cast to a scalar type that a conversion allows.
fn scalar_cast(cx: &Context, place: Place, to: CType, operand: Value) -> Result<Operand, Memory>
    ensures { IfOk result (λ o. operand_view o ≡ spec.scalar_cast (known cx.now) place (view to) (value_view operand)) }
{
    let constancy = Constancy {
        constant: cast_value(&to, operand.term.constant),
        fixed: cast_fixed(&to, operand.fixed),
    };
    let made = converted_term(cx, ConversionKind::Cast, place, operand.term, to)?;
    Ok(with_constancy(made, constancy))
}

/// A cast of a value to a type other than void.
fn value_cast(cx: &Context, place: Place, to: CType, operand: Value) -> Result<Operand, Stop>
    ensures { Gives operand_view (spec.value_cast (known cx.now) place (view to) (value_view operand)) result }
{
    match cast_conversion(&operand.term.ctype, is_null(&operand.term), &to) {
        Conversion::Same => Ok(scalar_cast(cx, place, to, operand)?),
        Conversion::Converted => Ok(scalar_cast(cx, place, to, operand)?),
        Conversion::Crossing => Err(pointer_integer(place)),
        Conversion::Nothing => Err(type_fault(place)),
    }
}

/// A cast of a value.
fn cast_of(cx: &Context, place: Place, to: CType, operand: Value) -> Result<Operand, Stop>
    ensures { Gives operand_view (spec.cast_of (known cx.now) place (view to) (value_view operand)) result }
{
    if is_void(&to) {
        Ok(discarded(cx, place, operand.term)?)
    } else {
        value_cast(cx, place, to, operand)
    }
}

/// A cast.
pub fn cast(cx: &Context, place: Place, to: CType, operand: Operand) -> Result<Operand, Stop>
    ensures { Gives operand_view (spec.cast (known cx.now) place (view to) (operand_view operand)) result }
{
    let operand = value_of(cx.alloc, operand)?;
    cast_of(cx, place, to, operand)
}
