//! What terms and types are to the control-flow program.
ghost use Rattle.std.specs.Prelude.{◌≡◌};
ghost use Rattle.c_layout.specs.Types.{view};
ghost use Rattle.c_layout.specs.CheckedTrees.{term_tree, lvalue_tree};
ghost use Rattle.lower_templates.specs.Worklist.TermKinds as kinds;
ghost use Rattle.lower_templates.specs.Worklist.TermKinds.{seen_term, seen_lvalue};

use c_layout::{BinaryOp, CType, CheckedTerm, ConversionKind, Lvalue, StepOp, TermForm};
use cc_base::{IntOp, IntType, Rel};
use cfg::Scalar;

/// What an operator on integers gives: a number, or a relation's truth.
#[derive(Clone, Copy)]
pub enum OperatorMeaning {
    Number(IntOp),
    Truth(Rel),
}

/// The meaning of a binary operator (6.5.5 to 6.5.12 of ISO/IEC 9899:2011).
pub fn meaning(op: BinaryOp) -> OperatorMeaning
    ensures { result ≡ kinds.meaning op }
{
    match op {
        BinaryOp::Multiply => OperatorMeaning::Number(IntOp::Mul),
        BinaryOp::Divide => OperatorMeaning::Number(IntOp::Div),
        BinaryOp::Remainder => OperatorMeaning::Number(IntOp::Rem),
        BinaryOp::Add => OperatorMeaning::Number(IntOp::Add),
        BinaryOp::Subtract => OperatorMeaning::Number(IntOp::Sub),
        BinaryOp::ShiftLeft => OperatorMeaning::Number(IntOp::Shl),
        BinaryOp::ShiftRight => OperatorMeaning::Number(IntOp::Shr),
        BinaryOp::Less => OperatorMeaning::Truth(Rel::Lt),
        BinaryOp::Greater => OperatorMeaning::Truth(Rel::Gt),
        BinaryOp::LessEqual => OperatorMeaning::Truth(Rel::Le),
        BinaryOp::GreaterEqual => OperatorMeaning::Truth(Rel::Ge),
        BinaryOp::Equal => OperatorMeaning::Truth(Rel::Eq),
        BinaryOp::NotEqual => OperatorMeaning::Truth(Rel::Ne),
        BinaryOp::And => OperatorMeaning::Number(IntOp::And),
        BinaryOp::Xor => OperatorMeaning::Number(IntOp::Xor),
        BinaryOp::Or => OperatorMeaning::Number(IntOp::Or),
    }
}

/// The relation of an operator; that of `!=` for one that is none.
pub fn relation(op: BinaryOp) -> Rel
    ensures { result ≡ kinds.relation op }
{
    match meaning(op) {
        OperatorMeaning::Truth(rel) => rel,
        OperatorMeaning::Number(_) => Rel::Ne,
    }
}

/// The relation that holds where this one does not.
pub fn opposite(rel: Rel) -> Rel
    ensures { result ≡ kinds.opposite rel }
{
    match rel {
        Rel::Lt => Rel::Ge,
        Rel::Le => Rel::Gt,
        Rel::Gt => Rel::Le,
        Rel::Ge => Rel::Lt,
        Rel::Eq => Rel::Ne,
        Rel::Ne => Rel::Eq,
    }
}

/// The relation with its sides exchanged.
pub fn turned(rel: Rel) -> Rel
    ensures { result ≡ kinds.turned rel }
{
    match rel {
        Rel::Lt => Rel::Gt,
        Rel::Le => Rel::Ge,
        Rel::Gt => Rel::Lt,
        Rel::Ge => Rel::Le,
        Rel::Eq => Rel::Eq,
        Rel::Ne => Rel::Ne,
    }
}

/// `++` adds 1 and `--` subtracts it (6.5.2.4).
pub fn step_operator(op: StepOp) -> IntOp
    ensures { result ≡ kinds.step_operator op }
{
    match op {
        StepOp::Increment => IntOp::Add,
        StepOp::Decrement => IntOp::Sub,
    }
}

/// Whether a step goes backwards.
pub fn is_backward(op: StepOp) -> bool
    ensures { result ≡ kinds.is_backward op }
{
    match op {
        StepOp::Increment => false,
        StepOp::Decrement => true,
    }
}

/// The scalar type of a value.
pub fn scalar(t: &CType) -> Scalar
    ensures { result ≡ kinds.scalar_of (view t.now) }
{
    match t {
        CType::Int(kind) => Scalar::Int(*kind),
        CType::Pointer(_) | CType::Array(_, _) | CType::Struct(_) | CType::Void => Scalar::Pointer,
    }
}

/// The integer type of a value; int's rank without a size for one that has none.
pub fn integer_type(t: &CType) -> IntType
    ensures { result ≡ kinds.integer_type (view t.now) }
{
    match t {
        CType::Int(kind) => *kind,
        CType::Pointer(_) | CType::Array(_, _) | CType::Struct(_) | CType::Void => IntType {
            bytes: 4,
            signed: true,
            rank: 3,
        },
    }
}

/// The number of a struct type.
pub fn struct_number(t: &CType) -> u32
    ensures { result ≡ kinds.struct_number (view t.now) }
{
    match t {
        CType::Struct(index) => *index,
        CType::Int(_) | CType::Pointer(_) | CType::Array(_, _) | CType::Void => 0,
    }
}

/// Whether a type is void.
pub fn is_void(t: &CType) -> bool
    ensures { result ≡ kinds.is_void (view t.now) }
{
    match t {
        CType::Void => true,
        CType::Int(_) | CType::Pointer(_) | CType::Array(_, _) | CType::Struct(_) => false,
    }
}

/// The type of a comparison of an integer type with int (6.3.1.8), where int has so many bytes.
pub fn common_with_int(kind: IntType, int_bytes: u8) -> IntType
    ensures { result ≡ kinds.common_with_int kind int_bytes }
{
    if kind.rank >= 3 {
        return kind;
    }
    IntType {
        bytes: int_bytes,
        signed: kind.signed || kind.bytes < int_bytes,
        rank: 3,
    }
}

/// A term without the implicit conversions round it.
pub fn peeled(term: &CheckedTerm) -> &CheckedTerm
    ensures { term_tree result.now ≡ kinds.peeled (term_tree term.now) }
{
    match &term.form {
        TermForm::Number(_) => term,
        TermForm::Sizeof(_, None, _) => term,
        TermForm::Sizeof(_, Some(_), _) => term,
        TermForm::Load(_) => term,
        TermForm::AddressOf(_) => term,
        TermForm::Decay(_) => term,
        TermForm::Convert(kind, inner) => match kind {
            ConversionKind::Implicit => peeled(inner),
            ConversionKind::Cast => term,
        },
        TermForm::Discard(_) => term,
        TermForm::Plus(_) => term,
        TermForm::Minus(_) => term,
        TermForm::Complement(_) => term,
        TermForm::Not(_) => term,
        TermForm::Integer(_, _, _) => term,
        TermForm::Shift(_, _, _, _) => term,
        TermForm::Difference(_, _, _) => term,
        TermForm::Compare(_, _, _) => term,
        TermForm::Logical(_, _, _) => term,
        TermForm::Conditional(_, _, _) => term,
        TermForm::Comma(_, _) => term,
        TermForm::Assign(_, _) => term,
        TermForm::Compound(_, _, _, _) => term,
        TermForm::CompoundShift(_, _, _, _) => term,
        TermForm::Step(_, _, _, _) => term,
        TermForm::StepPointer(_, _, _, _) => term,
        TermForm::Struct(_) => term,
        TermForm::Call(_, _, _) => term,
        TermForm::Library(_, _, _) => term,
    }
}

/// What a term converts, where it is a conversion.
fn converted(term: &CheckedTerm) -> Option<&CheckedTerm>
    ensures { seen_term result ≡ kinds.converted (kinds.term_form (term_tree term.now)) }
{
    match &term.form {
        TermForm::Number(_) => None,
        TermForm::Sizeof(_, None, _) => None,
        TermForm::Sizeof(_, Some(_), _) => None,
        TermForm::Load(_) => None,
        TermForm::AddressOf(_) => None,
        TermForm::Decay(_) => None,
        TermForm::Convert(_, inner) => Some(inner),
        TermForm::Discard(_) => None,
        TermForm::Plus(_) => None,
        TermForm::Minus(_) => None,
        TermForm::Complement(_) => None,
        TermForm::Not(_) => None,
        TermForm::Integer(_, _, _) => None,
        TermForm::Shift(_, _, _, _) => None,
        TermForm::Difference(_, _, _) => None,
        TermForm::Compare(_, _, _) => None,
        TermForm::Logical(_, _, _) => None,
        TermForm::Conditional(_, _, _) => None,
        TermForm::Comma(_, _) => None,
        TermForm::Assign(_, _) => None,
        TermForm::Compound(_, _, _, _) => None,
        TermForm::CompoundShift(_, _, _, _) => None,
        TermForm::Step(_, _, _, _) => None,
        TermForm::StepPointer(_, _, _, _) => None,
        TermForm::Struct(_) => None,
        TermForm::Call(_, _, _) => None,
        TermForm::Library(_, _, _) => None,
    }
}

/// The lvalue whose value a term is.
pub fn loaded(term: &CheckedTerm) -> Option<&Lvalue>
    ensures { seen_lvalue result ≡ kinds.loaded (kinds.term_form (term_tree term.now)) }
{
    match &term.form {
        TermForm::Number(_) => None,
        TermForm::Sizeof(_, None, _) => None,
        TermForm::Sizeof(_, Some(_), _) => None,
        TermForm::Load(lvalue) => Some(lvalue),
        TermForm::AddressOf(_) => None,
        TermForm::Decay(_) => None,
        TermForm::Convert(_, _) => None,
        TermForm::Discard(_) => None,
        TermForm::Plus(_) => None,
        TermForm::Minus(_) => None,
        TermForm::Complement(_) => None,
        TermForm::Not(_) => None,
        TermForm::Integer(_, _, _) => None,
        TermForm::Shift(_, _, _, _) => None,
        TermForm::Difference(_, _, _) => None,
        TermForm::Compare(_, _, _) => None,
        TermForm::Logical(_, _, _) => None,
        TermForm::Conditional(_, _, _) => None,
        TermForm::Comma(_, _) => None,
        TermForm::Assign(_, _) => None,
        TermForm::Compound(_, _, _, _) => None,
        TermForm::CompoundShift(_, _, _, _) => None,
        TermForm::Step(_, _, _, _) => None,
        TermForm::StepPointer(_, _, _, _) => None,
        TermForm::Struct(_) => None,
        TermForm::Call(_, _, _) => None,
        TermForm::Library(_, _, _) => None,
    }
}

/// The lvalue that a term assigns to by `=`.
pub fn assigned(term: &CheckedTerm) -> Option<&Lvalue>
    ensures { seen_lvalue result ≡ kinds.assigned (kinds.term_form (term_tree term.now)) }
{
    match &term.form {
        TermForm::Number(_) => None,
        TermForm::Sizeof(_, None, _) => None,
        TermForm::Sizeof(_, Some(_), _) => None,
        TermForm::Load(_) => None,
        TermForm::AddressOf(_) => None,
        TermForm::Decay(_) => None,
        TermForm::Convert(_, _) => None,
        TermForm::Discard(_) => None,
        TermForm::Plus(_) => None,
        TermForm::Minus(_) => None,
        TermForm::Complement(_) => None,
        TermForm::Not(_) => None,
        TermForm::Integer(_, _, _) => None,
        TermForm::Shift(_, _, _, _) => None,
        TermForm::Difference(_, _, _) => None,
        TermForm::Compare(_, _, _) => None,
        TermForm::Logical(_, _, _) => None,
        TermForm::Conditional(_, _, _) => None,
        TermForm::Comma(_, _) => None,
        TermForm::Assign(lvalue, _) => Some(lvalue),
        TermForm::Compound(_, _, _, _) => None,
        TermForm::CompoundShift(_, _, _, _) => None,
        TermForm::Step(_, _, _, _) => None,
        TermForm::StepPointer(_, _, _, _) => None,
        TermForm::Struct(_) => None,
        TermForm::Call(_, _, _) => None,
        TermForm::Library(_, _, _) => None,
    }
}

fn is_zero(constant: Option<i128>) -> bool
    ensures { result ≡ kinds.is_zero constant }
{
    match constant {
        Some(n) => n == 0,
        None => false,
    }
}

fn is_void_pointer(t: &CType) -> bool
    ensures { result ≡ kinds.is_void_pointer (view t.now) }
{
    match t {
        CType::Pointer(target) => is_void(target),
        CType::Int(_) => false,
        CType::Array(_, _) => false,
        CType::Struct(_) => false,
        CType::Void => false,
    }
}

/// Whether what is converted to a type is 0, and the type a pointer to void.
fn is_zero_cast(t: &CType, operand: Option<&CheckedTerm>) -> bool
    ensures { result ≡ kinds.is_zero_cast (view t.now) (seen_term operand.entry) }
{
    match operand {
        Some(inner) => is_void_pointer(t) && is_zero(inner.constant),
        None => false,
    }
}

fn is_null_term(term: &CheckedTerm) -> bool
    ensures { result ≡ kinds.is_null_term (term_tree term.now) }
{
    is_zero(term.constant) || is_zero_cast(&term.ctype, converted(term))
}

/// Whether a term is a null pointer constant (6.3.2.3): 0, or 0 cast to a pointer to void.
pub fn is_null_constant(term: &CheckedTerm) -> bool
    ensures { result ≡ kinds.is_null_constant (term_tree term.now) }
{
    is_null_term(peeled(term))
}
