//! Names, constants and literals (6.5.1 of ISO/IEC 9899:2011).
ghost use Rattle.std.specs.Prelude.{◌≡◌, IfOk, get_or, option_map};
ghost use Rattle.c_layout.specs.Types.{view};
ghost use Rattle.c_layout.specs.CheckedUnits.{local_view};
ghost use Rattle.c_types_scopes.specs.Answers.{Gives, Leads};
ghost use Rattle.c_types_scopes.specs.Known.{known};
ghost use Rattle.c_types_scopes.specs.DeclaredTypes.{object_view};
ghost use Rattle.c_types_scopes.specs.States.{state};
ghost use Rattle.c_types_operands.specs.Operands.{operand_view};
ghost use Rattle.c_types_primary.specs.Primaries as spec;

use c_layout::{CType, Constant, LibFn, LocalObject, LvalueForm, ObjectRef, TermForm};
use c_library::headers::signature;
use c_types_operands::{Constancy, Operand, lvalue_operand, number_operand};
use c_types_rules::rules::{char_kind, int_kind};
use c_types_scopes::{Context, Meaning, ObjectDeclaration, type_fault, undeclared};
use cc_base::{Memory, Place, Stop, Text};

/// The library function of a name.
#[tactic(auto, using(crate::proofs::LibraryNames::no_text_none))]
pub fn library_named(name: &Text) -> Option<LibFn>
    ensures { result ≡ spec.library_named name.now }
{
    match std::str::from_utf8(name.as_bytes()) {
        Ok(text) => signature(text),
        Err(_) => None,
    }
}

/// What a name in an expression means.
pub fn meaning_of(cx: &Context, name: &Text) -> Option<Meaning>
    ensures { result ≡ spec.meaning_of (state cx.now) name.now }
{
    match cx.scopes.known(name) {
        Some(known) => cx.scopes.find(known),
        None => None,
    }
}

/// Whether what has no number is evaluated, which it may not be.
pub fn is_missing(cx: &Context, number: Option<u32>) -> bool
    ensures { result ≡ spec.is_missing (state cx.now) number }
{
    number.is_none() && cx.is_evaluated()
}

/// An object that may be used. One that the unit does not define has the greatest number.
fn defined_object(cx: &Context, place: Place, object: &ObjectDeclaration) -> Result<Operand, Memory>
    ensures { IfOk result (λ o. operand_view o ≡ spec.defined_object place (object_view object.now)) }
{
    let known = object.number.unwrap_or(u32::MAX);
    let ctype = object.declared.ctype.copy(cx.alloc)?;
    let form = LvalueForm::Object(ObjectRef::Static(known));
    lvalue_operand(cx.alloc, place, ctype, form, object.declared.enumeration)
}

/// An object that was declared. One that the unit does not define is not used, unless it is not
/// evaluated.
fn declared_object(cx: &Context, place: Place, object: &ObjectDeclaration) -> Result<Operand, Stop>
    ensures { Gives operand_view (spec.declared_object (state cx.now) place (object_view object.now)) result }
{
    if is_missing(cx, object.number) {
        Err(undeclared(place))
    } else {
        Ok(defined_object(cx, place, object)?)
    }
}

/// An object of static storage.
fn static_object(cx: &Context, place: Place, declared: u32) -> Result<Operand, Stop>
    ensures { Gives operand_view (spec.static_object (state cx.now) place declared) result }
{
    match cx.objects.get(declared as usize) {
        Some(object) => declared_object(cx, place, object),
        None => Err(undeclared(place)),
    }
}

/// The enumerated type that an object's declaration names.
fn enumeration_at(enumerations: &[Option<u32>], known: u32) -> Option<u32>
    ensures { result ≡ get_or enumerations.now known None }
{
    match enumerations.get(known as usize) {
        Some(enumeration) => *enumeration,
        None => None,
    }
}

/// An object of the function at hand, which has this number.
fn numbered_local(
    cx: &Context,
    place: Place,
    known: u32,
    object: &LocalObject,
) -> Result<Operand, Memory>
    ensures { IfOk result (λ o. operand_view o ≡ spec.numbered_local (state cx.now) place known (local_view object.now)) }
{
    let ctype = object.ctype.copy(cx.alloc)?;
    let enumeration = enumeration_at(cx.body.enumerations.as_slice(), known);
    let form = LvalueForm::Object(ObjectRef::Local(known));
    lvalue_operand(cx.alloc, place, ctype, form, enumeration)
}

/// An object of the function at hand.
fn local_object(cx: &Context, place: Place, known: u32) -> Result<Operand, Stop>
    ensures { Gives operand_view (spec.local_object (state cx.now) place known) result }
{
    match cx.body.locals.get(known as usize) {
        Some(object) => Ok(numbered_local(cx, place, known, object)?),
        None => Err(undeclared(place)),
    }
}

/// A number of a type.
fn fixed_number(cx: &Context, place: Place, ctype: CType, value: i128) -> Result<Operand, Memory>
    ensures { IfOk result (λ o. operand_view o ≡ spec.fixed_number place (view ctype) value) }
{
    let constancy = Constancy {
        constant: Some(value),
        fixed: true,
    };
    number_operand(cx.alloc, place, ctype, TermForm::Number(value), constancy)
}

/// An enumeration constant.
fn enumerator(cx: &Context, place: Place, value: i128) -> Result<Operand, Memory>
    ensures { IfOk result (λ o. operand_view o ≡ spec.enumerator (known cx.now) place value) }
{
    let ctype = CType::Int(int_kind(&cx.model.numbers));
    fixed_number(cx, place, ctype, value)
}

/// A name that is not declared: that of a library function has no value, another one no meaning.
fn undeclared_name(place: Place, name: &Text) -> Result<Operand, Stop>
    ensures { Gives operand_view (spec.undeclared_name place name.now) result }
{
    match library_named(name) {
        Some(_) => Err(type_fault(place)),
        None => Err(undeclared(place)),
    }
}

/// A name that is not called. A function has no value of its own here.
pub fn name(cx: &Context, place: Place, name: &Text) -> Result<Operand, Stop>
    ensures { Gives operand_view (spec.name (state cx.now) place name.now) result }
{
    match meaning_of(cx, name) {
        Some(Meaning::Static(declared)) => static_object(cx, place, declared),
        Some(Meaning::Local(known)) => local_object(cx, place, known),
        Some(Meaning::Enumerator(value)) => Ok(enumerator(cx, place, value)?),
        Some(Meaning::Function(_)) => Err(type_fault(place)),
        Some(Meaning::Typedef(_)) => Err(type_fault(place)),
        None => undeclared_name(place, name),
    }
}

/// The value of an integer or a character constant.
fn constant_value(constant: &Constant) -> i128
    ensures { result ≡ spec.constant_value constant.now }
{
    let magnitude = i128::from(constant.value);
    if constant.negative {
        -magnitude
    } else {
        magnitude
    }
}

/// An integer or a character constant (6.4.4).
pub fn constant(cx: &Context, place: Place, constant: &Constant) -> Result<Operand, Memory>
    ensures { IfOk result (λ o. operand_view o ≡ spec.constant place constant.now) }
{
    let ctype = CType::Int(constant.kind);
    fixed_number(cx, place, ctype, constant_value(constant))
}

/// The type of a literal: an array of its characters and a closing zero (6.4.5).
pub fn literal_type(cx: &Context, bytes: &Text) -> Result<CType, Memory>
    ensures { IfOk result (λ t. view t ≡ spec.literal_type (known cx.now) bytes.now) }
{
    let count = u64::try_from(bytes.as_bytes().len()).map_err(|_| Memory)?;
    let count = count.checked_add(1).ok_or(Memory)?;
    let element = CType::Int(char_kind(&cx.model.numbers));
    Ok(CType::Array(Box::new(cx.alloc, element)?, count))
}

/// A string literal that is an array of its own. Adjacent literals are joined (6.4.5), so that it may be longer than
/// a type may be: a `TypeFault` at its place.
pub fn literal(cx: &mut Context, place: Place, bytes: &Text) -> Result<Operand, Stop>
    ensures { Leads operand_view (spec.literal (state cx.old) place bytes.now) result (state cx.new) }
{
    let ctype = literal_type(cx, bytes)?;
    if cx.size_of(&ctype).is_none() {
        return Err(type_fault(place));
    }
    let form = LvalueForm::Literal(cx.add_literal(place, bytes)?);
    Ok(lvalue_operand(cx.alloc, place, ctype, form, None)?)
}
