//! Static initializers: constants and addresses (6.6p9, 6.7.9p4 of ISO/IEC 9899:2011).
ghost use Rattle.std.specs.Prelude.{◌≡◌};
ghost use Rattle.c_layout.specs.Types.{view};
ghost use Rattle.c_layout.specs.CheckedTrees.{term_tree, lvalue_tree};
ghost use Rattle.c_types_scopes.specs.Known.{known};
ghost use Rattle.c_types_operands.specs.Operands.{term_constant};
ghost use Rattle.c_types_initializers.specs.Addresses as spec;

use c_layout::{
    CType, CheckedTerm, Lvalue, LvalueForm, ObjectRef, StaticBase, StaticValue, TermForm,
};
use c_types_operands::is_integer;
use c_types_rules::rules::converted;
use c_types_scopes::Context;
use cc_base::IntType;

/// A pointer into an object or a literal: its offset, and the part that it may reach.
#[derive(Clone, Copy)]
pub struct Address {
    base: StaticBase,
    offset: u64,
    low: u64,
    high: u64,
}

/// A constant of pointer type.
#[derive(Clone, Copy)]
pub enum PointerConstant {
    Null,
    Address(Address),
}

/// The part of so many bytes at a distance.
fn part(whole: Address, distance: u64, size: u64) -> Option<Address>
    ensures { result ≡ spec.part whole distance size }
{
    let low = whole.offset.checked_add(distance)?;
    let high = low.checked_add(size)?;
    if high > whole.high {
        return None;
    }
    Some(Address {
        base: whole.base,
        offset: low,
        low,
        high,
    })
}

/// An address of the same part at another offset, where that lies within it or just behind.
fn within(from: Address, offset: i128) -> Option<Address>
    ensures { result ≡ spec.within from offset }
{
    if offset < i128::from(from.low) {
        return None;
    }
    if i128::from(from.high) < offset {
        return None;
    }
    Some(Address {
        base: from.base,
        offset: u64::try_from(offset).ok()?,
        low: from.low,
        high: from.high,
    })
}

/// An address moved by a number of elements of a size.
fn moved(from: Address, minus: bool, size: u64, number: i128) -> Option<Address>
    ensures { result ≡ spec.moved from minus size number }
{
    let distance = number.checked_mul(i128::from(size))?;
    let offset = i128::from(from.offset);
    if minus {
        within(from, offset.checked_sub(distance)?)
    } else {
        within(from, offset.checked_add(distance)?)
    }
}

/// Whether a type is an array of unknown length.
fn is_unbounded(t: &CType) -> bool
    ensures { result ≡ spec.is_unbounded (view t.now) }
{
    match t {
        CType::Array(_, count) => *count == 0,
        CType::Int(_) => false,
        CType::Pointer(_) => false,
        CType::Struct(_) => false,
        CType::Void => false,
    }
}

/// The size of an object; one of unknown size has no bound.
fn reach(cx: &Context, t: &CType) -> Option<u64>
    ensures { result ≡ spec.reach (known cx.now) (view t.now) }
{
    if is_unbounded(t) {
        Some(u64::MAX)
    } else {
        cx.size_of(t)
    }
}

/// A whole object.
fn whole(cx: &Context, number: u32, t: &CType) -> Option<Address>
    ensures { result ≡ spec.whole (known cx.now) number (view t.now) }
{
    Some(Address {
        base: StaticBase::Object(number),
        offset: 0,
        low: 0,
        high: reach(cx, t)?,
    })
}

/// A whole string literal, whose size is known.
fn whole_literal(cx: &Context, number: u32, t: &CType) -> Option<Address>
    ensures { result ≡ spec.whole_literal (known cx.now) number (view t.now) }
{
    Some(Address {
        base: StaticBase::Literal(number),
        offset: 0,
        low: 0,
        high: cx.size_of(t)?,
    })
}

/// The null pointer, where a constant is 0.
fn null_if(constant: Option<i128>) -> Option<PointerConstant>
    ensures { result ≡ spec.null_if constant }
{
    if constant? == 0 {
        Some(PointerConstant::Null)
    } else {
        None
    }
}

/// A pointer moved by a number of elements of a size.
fn shifted(
    found: Option<PointerConstant>,
    minus: bool,
    size: u64,
    number: Option<i128>,
) -> Option<PointerConstant>
    ensures { result ≡ spec.shifted found minus size number }
{
    match found? {
        PointerConstant::Address(from) => {
            Some(PointerConstant::Address(moved(from, minus, size, number?)?))
        }
        PointerConstant::Null => None,
    }
}

/// The address of what an lvalue designates.
#[cycle(addresses)]
fn located(cx: &Context, lvalue: &Lvalue) -> Option<Address>
    ensures { result ≡ spec.located (known cx.now) (lvalue_tree lvalue.now) }
{
    match &lvalue.form {
        LvalueForm::Object(ObjectRef::Static(number)) => whole(cx, *number, &lvalue.ctype),
        LvalueForm::Object(ObjectRef::Local(_)) => None,
        LvalueForm::Literal(number) => whole_literal(cx, *number, &lvalue.ctype),
        LvalueForm::Target(pointer) => match pointed(cx, pointer)? {
            PointerConstant::Address(found) => Some(found),
            PointerConstant::Null => None,
        },
        LvalueForm::Member(object, distance) => {
            let object = located(cx, object)?;
            let size = cx.size_of(&lvalue.ctype)?;
            part(object, *distance, size)
        }
        LvalueForm::Copied(_, _) | LvalueForm::Then(_, _) => None,
    }
}

/// The address of the first element of an array lvalue.
#[cycle(addresses)]
fn decayed(cx: &Context, lvalue: &Lvalue) -> Option<PointerConstant>
    ensures { result ≡ spec.decayed (known cx.now) (lvalue_tree lvalue.now) }
{
    let found = located(cx, lvalue)?;
    match cx.size_of(&lvalue.ctype) {
        Some(size) => Some(PointerConstant::Address(part(found, 0, size)?)),
        None => Some(PointerConstant::Address(found)),
    }
}

/// The value of a null constant, or of a pointer that is converted.
#[cycle(addresses)]
fn converted_pointer(cx: &Context, from: &CheckedTerm) -> Option<PointerConstant>
    ensures { result ≡ spec.converted_pointer (known cx.now) (term_tree from.now) }
{
    if is_integer(&from.ctype) {
        null_if(from.constant)
    } else {
        pointed(cx, from)
    }
}

/// The value of a term of pointer type, where it is a constant.
#[cycle(addresses)]
fn pointed(cx: &Context, pointer: &CheckedTerm) -> Option<PointerConstant>
    ensures { result ≡ spec.pointed (known cx.now) (term_tree pointer.now) }
{
    match &pointer.form {
        TermForm::Convert(_, inner) => converted_pointer(cx, inner),
        TermForm::Decay(lvalue) => decayed(cx, lvalue),
        TermForm::AddressOf(lvalue) => Some(PointerConstant::Address(located(cx, lvalue)?)),
        TermForm::Shift(minus, size, left, right) => {
            if is_integer(&right.ctype) {
                shifted(pointed(cx, left), *minus, *size, right.constant)
            } else {
                shifted(pointed(cx, right), *minus, *size, left.constant)
            }
        }
        _ => None,
    }
}

/// The value of an integer constant in its type.
fn number(term: &CheckedTerm, kind: IntType) -> Option<StaticValue>
    ensures { result ≡ spec.number (term_constant (term_tree term.now)) kind }
{
    Some(StaticValue::Number(converted(kind, term.constant?), kind))
}

/// What a pointer is as a value.
fn pointer_value(found: PointerConstant) -> StaticValue
    ensures { result ≡ spec.pointer_value found }
{
    match found {
        PointerConstant::Null => StaticValue::Null,
        PointerConstant::Address(found) => {
            StaticValue::Address(found.base, found.offset, found.low, found.high)
        }
    }
}

/// The value of a constant of pointer type.
fn pointer_constant(cx: &Context, term: &CheckedTerm) -> Option<StaticValue>
    ensures { result ≡ spec.pointer_constant (known cx.now) (term_tree term.now) }
{
    Some(pointer_value(pointed(cx, term)?))
}

/// The value of a constant.
pub fn static_value(cx: &Context, term: &CheckedTerm) -> Option<StaticValue>
    ensures { result ≡ spec.static_value (known cx.now) (term_tree term.now) }
{
    match &term.ctype {
        CType::Int(kind) => number(term, *kind),
        CType::Pointer(_) => pointer_constant(cx, term),
        CType::Array(_, _) => pointer_constant(cx, term),
        CType::Struct(_) => pointer_constant(cx, term),
        CType::Void => pointer_constant(cx, term),
    }
}
