//! Assignments (6.5.16 of ISO/IEC 9899:2011).
ghost use Rattle.std.specs.Prelude.{◌≡◌, IfOk, option_map};
ghost use Rattle.c_layout.specs.Types.{view};
ghost use Rattle.c_layout.specs.CheckedTrees.{term_tree, lvalue_tree};
ghost use Rattle.c_types_scopes.specs.Answers.{Gives};
ghost use Rattle.c_types_scopes.specs.Known.{known};
ghost use Rattle.c_types_operands.specs.Operands.{operand_view, boxed_lvalue};
ghost use Rattle.c_types_operators.specs.Assignments as spec;

use c_layout::{AssignOp, BinaryOp, CType, CheckedTerm, Lvalue, LvalueForm, TermForm};
use c_types_operands::{
    Form, KindPair, Operand, assigned, integer_as, integer_kinds, is_integer, is_scalar, is_struct,
    lvalue_operand, own_lvalue, target_size, term_of, value_operand,
};
use c_types_rules::rules::{common_kind, promoted};
use c_types_scopes::{Context, type_fault};
use cc_base::{IntType, Place, Stop};

/// An lvalue, where it has a type.
fn source_if(lvalue: Box<Lvalue>, ctype: &CType) -> Option<Box<Lvalue>>
    ensures { option_map boxed_lvalue result ≡ spec.source_if (lvalue_tree lvalue.value) (view ctype.now) }
{
    if lvalue.ctype.is_same(ctype) {
        Some(lvalue)
    } else {
        None
    }
}

/// The lvalue that an operand is, where it has a type.
pub fn struct_source(operand: Operand, ctype: &CType) -> Option<Box<Lvalue>>
    ensures { option_map boxed_lvalue result ≡ spec.struct_source (operand_view operand) (view ctype.now) }
{
    match operand.form {
        Form::Lvalue(lvalue) => source_if(lvalue, ctype),
        Form::Value(_term) => None,
    }
}

/// The lvalue of a complete struct type that is assigned.
fn complete_source(cx: &Context, operand: Operand, ctype: &CType) -> Option<Box<Lvalue>>
    ensures { option_map boxed_lvalue result ≡ spec.complete_source (known cx.now) (operand_view operand) (view ctype.now) }
{
    match cx.size_of(ctype) {
        Some(_) => struct_source(operand, ctype),
        None => None,
    }
}

/// The assignment of a struct from where it is found: its value is its left side.
fn copied_from(
    cx: &Context,
    place: Place,
    left: Box<Lvalue>,
    source: Option<Box<Lvalue>>,
) -> Result<Operand, Stop>
    ensures { Gives operand_view (spec.copied_from place (lvalue_tree left.value) (option_map boxed_lvalue source)) result }
{
    match source {
        Some(source) => {
            let ctype = left.ctype.copy(cx.alloc)?;
            let form = LvalueForm::Copied(left, source);
            Ok(lvalue_operand(cx.alloc, place, ctype, form, None)?)
        }
        None => Err(type_fault(place)),
    }
}

/// The assignment of a struct.
fn copied(cx: &Context, place: Place, left: Box<Lvalue>, right: Operand) -> Result<Operand, Stop>
    ensures { Gives operand_view (spec.copied (known cx.now) place (lvalue_tree left.value) (operand_view right)) result }
{
    let source = complete_source(cx, right, &left.ctype);
    copied_from(cx, place, left, source)
}

/// The simple assignment of a scalar.
fn simple(cx: &Context, place: Place, left: Box<Lvalue>, right: Operand) -> Result<Operand, Stop>
    ensures { Gives operand_view (spec.simple (known cx.now) place (lvalue_tree left.value) (operand_view right)) result }
{
    let right = term_of(cx.alloc, right)?;
    let right = assigned(cx, place, right, &left.ctype)?;
    let ctype = left.ctype.copy(cx.alloc)?;
    Ok(value_operand(cx.alloc, place, ctype, TermForm::Assign(left, right))?)
}

/// How a compound assignment is computed.
#[derive(Clone, Copy)]
enum CompoundKind {
    /// In a type, with the right side in another one.
    Integer { computed: IntType, right: IntType },
    /// A pointer to elements of a size, to the left where the flag is set.
    Pointer { down: bool, size: u64 },
}

/// Two promoted types.
fn promoted_compound(cx: &Context, kinds: KindPair) -> CompoundKind
    ensures { result ≡ spec.promoted_compound (known cx.now) kinds }
{
    CompoundKind::Integer {
        computed: promoted(&cx.model.numbers, kinds.left),
        right: promoted(&cx.model.numbers, kinds.right),
    }
}

/// The common type of two types.
fn common_compound(cx: &Context, kinds: KindPair) -> CompoundKind
    ensures { result ≡ spec.common_compound (known cx.now) kinds }
{
    let common = common_kind(&cx.model.numbers, kinds.left, kinds.right);
    CompoundKind::Integer {
        computed: common,
        right: common,
    }
}

/// The types of a compound assignment of an integer: the common one, or for a shift the promoted
/// ones.
fn integer_compound(cx: &Context, op: BinaryOp, kinds: KindPair) -> CompoundKind
    ensures { result ≡ spec.integer_compound (known cx.now) op kinds }
{
    match op {
        BinaryOp::ShiftLeft => promoted_compound(cx, kinds),
        BinaryOp::ShiftRight => promoted_compound(cx, kinds),
        _ => common_compound(cx, kinds),
    }
}

/// A pointer that moves by elements of a size.
fn pointer_step(down: bool, size: Option<u64>) -> Option<CompoundKind>
    ensures { result ≡ spec.pointer_step down size }
{
    Some(CompoundKind::Pointer { down, size: size? })
}

/// `+=` or `-=` of a pointer to a complete type.
fn moved_pointer(cx: &Context, op: BinaryOp, left: &CType) -> Option<CompoundKind>
    ensures { result ≡ spec.moved_pointer (known cx.now) op (view left.now) }
{
    match op {
        BinaryOp::Add => pointer_step(false, target_size(cx, left)),
        BinaryOp::Subtract => pointer_step(true, target_size(cx, left)),
        _ => None,
    }
}

/// `+=` or `-=` of a pointer to a complete type and an integer.
fn pointer_compound(cx: &Context, op: BinaryOp, left: &CType, right: &CType) -> Option<CompoundKind>
    ensures { result ≡ spec.pointer_compound (known cx.now) op (view left.now) (view right.now) }
{
    if is_integer(right) {
        moved_pointer(cx, op, left)
    } else {
        None
    }
}

/// How a compound assignment of two types is computed; None where it has no rule.
fn compound_kind(cx: &Context, op: BinaryOp, left: &CType, right: &CType) -> Option<CompoundKind>
    ensures { result ≡ spec.compound_kind (known cx.now) op (view left.now) (view right.now) }
{
    match integer_kinds(left, right) {
        Some(kinds) => Some(integer_compound(cx, op, kinds)),
        None => pointer_compound(cx, op, left, right),
    }
}

/// A compound assignment that is computed in integer types.
fn compound_number(
    cx: &Context,
    place: Place,
    op: BinaryOp,
    kinds: KindPair,
    left: Box<Lvalue>,
    right: Box<CheckedTerm>,
) -> Result<Operand, Stop>
    ensures { Gives operand_view (spec.compound_number (known cx.now) place op kinds (lvalue_tree left.value) (term_tree right.value)) result }
{
    let right = integer_as(cx, right, kinds.right)?;
    let ctype = left.ctype.copy(cx.alloc)?;
    let form = TermForm::Compound(op, CType::Int(kinds.left), left, right);
    Ok(value_operand(cx.alloc, place, ctype, form)?)
}

/// A compound assignment that moves a pointer.
fn compound_move(
    cx: &Context,
    place: Place,
    down: bool,
    size: u64,
    left: Box<Lvalue>,
    right: Box<CheckedTerm>,
) -> Result<Operand, Stop>
    ensures { Gives operand_view (spec.compound_move place down size (lvalue_tree left.value) (term_tree right.value)) result }
{
    let ctype = left.ctype.copy(cx.alloc)?;
    let form = TermForm::CompoundShift(down, size, left, right);
    Ok(value_operand(cx.alloc, place, ctype, form)?)
}

/// A compound assignment of a value.
fn compound_of(
    cx: &Context,
    place: Place,
    op: BinaryOp,
    left: Box<Lvalue>,
    right: Box<CheckedTerm>,
) -> Result<Operand, Stop>
    ensures { Gives operand_view (spec.compound_of (known cx.now) place op (lvalue_tree left.value) (term_tree right.value)) result }
{
    match compound_kind(cx, op, &left.ctype, &right.ctype) {
        Some(
            CompoundKind::Integer {
                computed,
                right: kind,
            },
        ) => {
            let kinds = KindPair {
                left: computed,
                right: kind,
            };
            compound_number(cx, place, op, kinds, left, right)
        }
        Some(CompoundKind::Pointer { down, size }) => {
            compound_move(cx, place, down, size, left, right)
        }
        None => Err(type_fault(place)),
    }
}

/// A compound assignment.
fn compound(
    cx: &Context,
    place: Place,
    op: BinaryOp,
    left: Box<Lvalue>,
    right: Operand,
) -> Result<Operand, Stop>
    ensures { Gives operand_view (spec.compound_with (known cx.now) place op (lvalue_tree left.value) (operand_view right)) result }
{
    let right = term_of(cx.alloc, right)?;
    compound_of(cx, place, op, left, right)
}

/// A simple assignment to an lvalue.
fn assigned_to(
    cx: &Context,
    place: Place,
    left: Box<Lvalue>,
    right: Operand,
) -> Result<Operand, Stop>
    ensures { Gives operand_view (spec.assigned_to (known cx.now) place (lvalue_tree left.value) (operand_view right)) result }
{
    if is_struct(&left.ctype) {
        copied(cx, place, left, right)
    } else if is_scalar(&left.ctype) {
        simple(cx, place, left, right)
    } else {
        Err(type_fault(place))
    }
}

/// An assignment to an lvalue.
fn assignment_by(
    cx: &Context,
    place: Place,
    op: AssignOp,
    left: Box<Lvalue>,
    right: Operand,
) -> Result<Operand, Stop>
    ensures { Gives operand_view (spec.assignment_by (known cx.now) place op (lvalue_tree left.value) (operand_view right)) result }
{
    match op {
        AssignOp::Simple => assigned_to(cx, place, left, right),
        AssignOp::Compound(op) => compound(cx, place, op, left, right),
    }
}

/// An assignment.
pub fn assignment(
    cx: &Context,
    place: Place,
    op: AssignOp,
    left: Operand,
    right: Operand,
) -> Result<Operand, Stop>
    ensures { Gives operand_view (spec.assignment (known cx.now) place op (operand_view left) (operand_view right)) result }
{
    match own_lvalue(left) {
        Some(left) => assignment_by(cx, place, op, left, right),
        None => Err(type_fault(place)),
    }
}
