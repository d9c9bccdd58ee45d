//! Operands: what an expression is to the operator above it (6.3.2.1 of ISO/IEC 9899:2011).
ghost use Rattle.std.specs.Prelude.{◌≡◌, IfOk, option_map};
ghost use Rattle.c_layout.specs.Types.{view, Pointer};
ghost use Rattle.c_layout.specs.CheckedTrees.{term_tree, lvalue_tree};
ghost use Rattle.c_types_operands.specs.Operands as spec;
ghost use Rattle.c_types_operands.specs.Operands.{operand_view, value_view, form_view, use_view};

use c_layout::{CType, CheckedTerm, ConversionKind, Lvalue, LvalueForm, TermForm};
use cc_base::{Memory, Place};
use std::alloc::Global;

/// What an expression is: a value, or an lvalue that may still become one. A struct is always an
/// lvalue here, also where it may not be assigned to.
#[derive(Drop)]
pub enum Form {
    Value(Box<CheckedTerm>),
    Lvalue(Box<Lvalue>),
}

/// An expression that has a type.
#[derive(Drop)]
pub struct Operand {
    pub form: Form,
    /// Whether it has the form of an integer constant expression (6.6); its value is there unless an
    /// operation of it is undefined.
    pub fixed: bool,
    /// The enumerated type that its declaration names.
    pub enumeration: Option<u32>,
}

/// A value: a term, and whether it has the form of an integer constant expression.
#[derive(Drop)]
pub struct Value {
    pub term: Box<CheckedTerm>,
    pub fixed: bool,
}

/// The value of a constant expression, and whether an expression has the form of one.
#[derive(Clone, Copy)]
pub struct Constancy {
    pub constant: Option<i128>,
    pub fixed: bool,
}

/// A term without parentheses that is no constant.
pub fn term_node(
    alloc: Global,
    place: Place,
    ctype: CType,
    form: TermForm,
) -> Result<Box<CheckedTerm>, Memory>
    ensures { IfOk result (λ b. b.value ≡ spec.made place ctype form) }
{
    Ok(Box::new(
        alloc,
        CheckedTerm {
            place,
            ctype,
            parens: 0,
            constant: None,
            form,
        },
    )?)
}

/// The value that a term is, which is no constant.
pub fn plain(term: Box<CheckedTerm>) -> Operand
    ensures { operand_view result ≡ spec.plain (term_tree term.value) }
{
    Operand {
        form: Form::Value(term),
        fixed: false,
        enumeration: None,
    }
}

/// A value that is no constant.
pub fn value_operand(
    alloc: Global,
    place: Place,
    ctype: CType,
    form: TermForm,
) -> Result<Operand, Memory>
    ensures { IfOk result (λ o. operand_view o ≡ spec.plain (term_tree (spec.made place ctype form))) }
{
    Ok(plain(term_node(alloc, place, ctype, form)?))
}

/// A value that may be a constant.
pub fn number_operand(
    alloc: Global,
    place: Place,
    ctype: CType,
    form: TermForm,
    constancy: Constancy,
) -> Result<Operand, Memory>
    ensures { IfOk result (λ o. operand_view o ≡ spec.number (term_tree (spec.made place ctype form)) constancy.constant constancy.fixed) }
{
    let mut made = term_node(alloc, place, ctype, form)?;
    made.constant = if constancy.fixed {
        constancy.constant
    } else {
        None
    };
    Ok(Operand {
        form: Form::Value(made),
        fixed: constancy.fixed,
        enumeration: None,
    })
}

/// An lvalue.
pub fn lvalue_operand(
    alloc: Global,
    place: Place,
    ctype: CType,
    form: LvalueForm,
    enumeration: Option<u32>,
) -> Result<Operand, Memory>
    ensures { IfOk result (λ o. operand_view o ≡ spec.lvalue (lvalue_tree (spec.made_lvalue place ctype form)) enumeration) }
{
    let made = Lvalue {
        place,
        ctype,
        parens: 0,
        form,
    };
    Ok(Operand {
        form: Form::Lvalue(Box::new(alloc, made)?),
        fixed: false,
        enumeration,
    })
}

/// A pair of parentheses more.
fn wrapped(form: Form) -> Form
    ensures { form_view result ≡ spec.wrapped (form_view form) }
{
    match form {
        Form::Value(mut term) => {
            term.parens = term.parens.saturating_add(1);
            Form::Value(term)
        }
        Form::Lvalue(mut lvalue) => {
            lvalue.parens = lvalue.parens.saturating_add(1);
            Form::Lvalue(lvalue)
        }
    }
}

/// An operand in a pair of parentheses.
pub fn parenthesized(operand: Operand) -> Operand
    ensures { operand_view result ≡ spec.parenthesized (operand_view operand) }
{
    let Operand {
        form,
        fixed,
        enumeration,
    } = operand;
    Operand {
        form: wrapped(form),
        fixed,
        enumeration,
    }
}

/// A pointer to a type.
pub fn pointer_to(alloc: Global, target: &CType) -> Result<CType, Memory>
    ensures { IfOk result (λ t. view t ≡ Pointer (view target.now)) }
{
    let target = target.copy(alloc)?;
    Ok(CType::Pointer(Box::new(alloc, target)?))
}

/// What becomes of an lvalue where its value is wanted: the value's type, and how it comes about.
#[derive(Drop)]
enum LvalueUse {
    Decay(CType),
    Begin(CType),
    Struct(CType),
    Load(CType),
}

/// How an array of so many elements is used as a pointer of a type; where it has no length yet, the
/// pointer reaches as far as the object does in the end.
fn array_use(count: u64, ctype: CType) -> LvalueUse
    ensures { use_view result ≡ spec.array_use count (view ctype) }
{
    if count == 0 {
        LvalueUse::Begin(ctype)
    } else {
        LvalueUse::Decay(ctype)
    }
}

/// How an lvalue of a type is used.
fn used(alloc: Global, t: &CType) -> Result<LvalueUse, Memory>
    ensures { IfOk result (λ u. use_view u ≡ spec.use_of (view t.now)) }
{
    match t {
        CType::Array(element, count) => Ok(array_use(*count, pointer_to(alloc, element)?)),
        CType::Struct(number) => Ok(LvalueUse::Struct(CType::Struct(*number))),
        CType::Int(kind) => Ok(LvalueUse::Load(CType::Int(*kind))),
        CType::Pointer(target) => Ok(LvalueUse::Load(pointer_to(alloc, target)?)),
        CType::Void => Ok(LvalueUse::Load(CType::Void)),
    }
}

/// The value of an lvalue: an array becomes a pointer to its first element, a scalar is loaded, and
/// a struct stays what it is.
pub fn lvalue_value(alloc: Global, lvalue: Box<Lvalue>) -> Result<Box<CheckedTerm>, Memory>
    ensures { IfOk result (λ b. term_tree b.value ≡ spec.lvalue_value (lvalue_tree lvalue.value)) }
{
    let place = lvalue.place;
    let parens = lvalue.parens;
    match used(alloc, &lvalue.ctype)? {
        LvalueUse::Decay(ctype) => term_node(alloc, place, ctype, TermForm::Decay(lvalue)),
        LvalueUse::Begin(ctype) => term_node(alloc, place, ctype, TermForm::AddressOf(lvalue)),
        LvalueUse::Struct(ctype) => term_node(alloc, place, ctype, TermForm::Struct(lvalue)),
        LvalueUse::Load(ctype) => loaded(alloc, place, ctype, parens, lvalue),
    }
}

/// An lvalue that is loaded, in so many pairs of parentheses.
pub fn loaded(
    alloc: Global,
    place: Place,
    ctype: CType,
    parens: u32,
    lvalue: Box<Lvalue>,
) -> Result<Box<CheckedTerm>, Memory>
    ensures { IfOk result (λ b. term_tree b.value ≡ spec.loaded place (view ctype) parens (lvalue_tree lvalue.value)) }
{
    let mut made = term_node(alloc, place, ctype, TermForm::Load(lvalue))?;
    made.parens = parens;
    Ok(made)
}

/// The value of an operand.
pub fn value_of(alloc: Global, operand: Operand) -> Result<Value, Memory>
    ensures { IfOk result (λ v. value_view v ≡ spec.value_of (operand_view operand)) }
{
    let Operand { form, fixed, .. } = operand;
    match form {
        Form::Value(term) => Ok(Value { term, fixed }),
        Form::Lvalue(lvalue) => Ok(Value {
            term: lvalue_value(alloc, lvalue)?,
            fixed: false,
        }),
    }
}

/// The term of an operand's value.
pub fn term_of(alloc: Global, operand: Operand) -> Result<Box<CheckedTerm>, Memory>
    ensures { IfOk result (λ b. term_tree b.value ≡ spec.term_of (operand_view operand)) }
{
    let Value { term, .. } = value_of(alloc, operand)?;
    Ok(term)
}

/// Whether an lvalue is one to which may be assigned and of which the address may be taken: the
/// value of a struct assignment or of a comma expression is none, nor is a member of it.
pub fn is_lvalue(lvalue: &Lvalue) -> bool
    ensures { result ≡ spec.is_lvalue (lvalue_tree lvalue.now) }
{
    match &lvalue.form {
        LvalueForm::Copied(_, _) | LvalueForm::Then(_, _) => false,
        LvalueForm::Member(whole, _) => is_lvalue(whole),
        LvalueForm::Object(_) | LvalueForm::Literal(_) | LvalueForm::Target(_) => true,
    }
}

/// The lvalue that an operand is, where it may be assigned to or its address be taken.
pub fn own_lvalue(operand: Operand) -> Option<Box<Lvalue>>
    ensures { option_map (λ b. lvalue_tree b.value) result ≡ spec.own_lvalue (operand_view operand) }
{
    let Operand { form, .. } = operand;
    match form {
        Form::Lvalue(lvalue) => {
            if is_lvalue(&lvalue) {
                Some(lvalue)
            } else {
                None
            }
        }
        Form::Value(_term) => None,
    }
}

/// Whether a type is that of a scalar (6.2.5p21).
pub fn is_scalar(t: &CType) -> bool
    ensures { result ≡ spec.is_scalar (view t.now) }
{
    match t {
        CType::Int(_) => true,
        CType::Pointer(_) => true,
        CType::Array(_, _) => false,
        CType::Struct(_) => false,
        CType::Void => false,
    }
}

/// Whether a type is an integer's.
pub fn is_integer(t: &CType) -> bool
    ensures { result ≡ spec.is_integer (view t.now) }
{
    match t {
        CType::Int(_) => true,
        CType::Pointer(_) => false,
        CType::Array(_, _) => false,
        CType::Struct(_) => false,
        CType::Void => false,
    }
}

/// Whether a constant is there and is 0.
fn is_0(constant: Option<i128>) -> bool
    ensures { result ≡ spec.is_0 constant }
{
    match constant {
        Some(n) => n == 0,
        None => false,
    }
}

/// Whether a term is the constant 0.
fn is_zero(term: &CheckedTerm) -> bool
    ensures { result ≡ spec.is_zero (term_tree term.now) }
{
    is_integer(&term.ctype) && is_0(term.constant)
}

/// Whether a type is void.
pub fn is_void(t: &CType) -> bool
    ensures { result ≡ spec.is_void (view t.now) }
{
    match t {
        CType::Int(_) => false,
        CType::Pointer(_) => false,
        CType::Array(_, _) => false,
        CType::Struct(_) => false,
        CType::Void => true,
    }
}

/// Whether a type is a struct's.
pub fn is_struct(t: &CType) -> bool
    ensures { result ≡ spec.is_struct (view t.now) }
{
    match t {
        CType::Int(_) => false,
        CType::Pointer(_) => false,
        CType::Array(_, _) => false,
        CType::Struct(_) => true,
        CType::Void => false,
    }
}

/// Whether a type is a pointer to void.
fn is_void_pointer(t: &CType) -> bool
    ensures { result ≡ spec.is_void_pointer (view t.now) }
{
    match t {
        CType::Pointer(target) => is_void(target),
        CType::Int(_) => false,
        CType::Array(_, _) => false,
        CType::Struct(_) => false,
        CType::Void => false,
    }
}

/// Whether a term is the constant 0 that is cast to a pointer to void.
fn is_null_cast(term: &CheckedTerm) -> bool
    ensures { result ≡ spec.is_null_form (term_tree term.now) }
{
    match &term.form {
        TermForm::Convert(ConversionKind::Cast, inner) => {
            is_void_pointer(&term.ctype) && is_zero(inner)
        }
        _ => false,
    }
}

/// Whether a term is a null pointer constant (6.3.2.3p3): the constant 0, or one cast to a pointer
/// to void.
pub fn is_null(term: &CheckedTerm) -> bool
    ensures { result ≡ spec.is_null (term_tree term.now) }
{
    is_zero(term) || is_null_cast(term)
}
