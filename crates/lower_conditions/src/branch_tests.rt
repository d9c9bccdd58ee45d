//! The tests of conditions: what is known of named objects on the edges of a branch.
ghost use Rattle.std.specs.Prelude.{◌≡◌, IfOk};
ghost use Rattle.c_layout.specs.CheckedTrees.{term_tree, lvalue_tree};
ghost use Rattle.lower_templates.specs.Worklist.TermKinds.{seen_lvalue};
ghost use Rattle.lower_templates.specs.Worklist.Plans.{plan};
ghost use Rattle.lower_templates.specs.Worklist.Settings.{setting};
ghost use Rattle.lower_conditions.specs.Tests as spec;
ghost use Rattle.lower_conditions.specs.Tests.{sided, maybe_sided, tested};

use c_layout::{BinaryOp, CheckedTerm, Lvalue, LvalueForm, ObjectRef, TermForm};
use cc_base::{IntType, Rel};
use cfg::{Scalar, Side, Test};
use lower_templates::worklist::{
    Builder, OperatorMeaning, Setting, assigned, common_with_int, integer_type, is_null_constant,
    loaded, meaning, opposite, peeled, relation, scalar, turned,
};
use std::alloc::AllocError;

/// A named object and its type.
#[derive(Clone, Copy)]
pub struct NamedObject {
    pub object: ObjectRef,
    pub kind: Scalar,
}

fn named_lvalue(lvalue: &Lvalue) -> Option<NamedObject>
    ensures { result ≡ spec.named_lvalue (lvalue_tree lvalue.now) }
{
    match &lvalue.form {
        LvalueForm::Object(object) => Some(NamedObject {
            object: *object,
            kind: scalar(&lvalue.ctype),
        }),
        LvalueForm::Literal(_) => None,
        LvalueForm::Target(_) => None,
        LvalueForm::Member(_, _) => None,
        LvalueForm::Copied(_, _) => None,
        LvalueForm::Then(_, _) => None,
    }
}

/// The object that an lvalue names, where there is one.
fn named_by(lvalue: Option<&Lvalue>) -> Option<NamedObject>
    ensures { result ≡ spec.named_by (seen_lvalue lvalue.entry) }
{
    match lvalue {
        Some(found) => named_lvalue(found),
        None => None,
    }
}

/// The object that a term names, parentheses and implicit conversions apart.
pub fn named(term: &CheckedTerm) -> Option<NamedObject>
    ensures { result ≡ spec.named (term_tree term.now) }
{
    named_by(loaded(peeled(term)))
}

/// The object that a term names or assigns to by `=`.
fn named_or_assigned(term: &CheckedTerm) -> Option<NamedObject>
    ensures { result ≡ spec.named_or_assigned (term_tree term.now) }
{
    match named(term) {
        Some(found) => Some(found),
        None => named_by(assigned(peeled(term))),
    }
}

/// The constant that a term is, without implicit conversions.
fn constant_of(term: &CheckedTerm) -> Option<i128>
    ensures { result ≡ spec.constant_of (term_tree term.now) }
{
    peeled(term).constant
}

fn object_side(builder: &mut Builder, found: NamedObject) -> Result<Side, AllocError>
    ensures { IfOk result (λ x. sided x (plan builder.new) ≡ spec.object_side found (plan builder.old)) }
{
    let base = builder.object(found.object)?;
    Ok(Side::Object(base, found.kind))
}

fn number_side(constant: Option<i128>) -> Option<Side>
    ensures { result ≡ spec.number_side constant }
{
    match constant {
        Some(n) => Some(Side::Number(n)),
        None => None,
    }
}

/// A named object or a constant.
fn right_side(builder: &mut Builder, term: &CheckedTerm) -> Result<Option<Side>, AllocError>
    ensures { IfOk result (λ x. maybe_sided x (plan builder.new) ≡ spec.right_side (term_tree term.now) (plan builder.old)) }
{
    match named(term) {
        Some(found) => {
            let side = object_side(builder, found)?;
            Ok(Some(side))
        }
        None => Ok(number_side(constant_of(term))),
    }
}

/// A test whose left side is an object.
fn object_test(
    builder: &mut Builder,
    found: NamedObject,
    rel: Rel,
    right: Side,
    common: Option<IntType>,
) -> Result<Option<Test>, AllocError>
    ensures { IfOk result (λ t. tested t (plan builder.new) ≡ spec.object_test found rel right common (plan builder.old)) }
{
    let left = object_side(builder, found)?;
    Ok(Some(Test {
        left,
        rel,
        right,
        common,
    }))
}

/// A relation of two integers, the left one an object.
fn integer_test(
    builder: &mut Builder,
    left: NamedObject,
    rel: Rel,
    right: &CheckedTerm,
    common: IntType,
) -> Result<Option<Test>, AllocError>
    ensures { IfOk result (λ t. tested t (plan builder.new) ≡ spec.integer_test left rel (term_tree right.now) common (plan builder.old)) }
{
    match right_side(builder, right)? {
        Some(right) => object_test(builder, left, rel, right, Some(common)),
        None => Ok(None),
    }
}

/// A number on the left and an object on the right: the relation is turned round.
fn turned_object_test(
    builder: &mut Builder,
    n: i128,
    rel: Rel,
    right: Option<NamedObject>,
    common: IntType,
) -> Result<Option<Test>, AllocError>
    ensures { IfOk result (λ t. tested t (plan builder.new) ≡ spec.turned_object_test n rel right common (plan builder.old)) }
{
    match right {
        Some(found) => object_test(builder, found, turned(rel), Side::Number(n), Some(common)),
        None => Ok(None),
    }
}

/// A constant on the left and an object on the right.
fn turned_test(
    builder: &mut Builder,
    left: Option<i128>,
    rel: Rel,
    right: &CheckedTerm,
    common: IntType,
) -> Result<Option<Test>, AllocError>
    ensures { IfOk result (λ t. tested t (plan builder.new) ≡ spec.turned_test left rel (term_tree right.now) common (plan builder.old)) }
{
    match left {
        Some(n) => turned_object_test(builder, n, rel, named(right), common),
        None => Ok(None),
    }
}

fn relation_test(
    builder: &mut Builder,
    left: &CheckedTerm,
    rel: Rel,
    right: &CheckedTerm,
) -> Result<Option<Test>, AllocError>
    ensures { IfOk result (λ t. tested t (plan builder.new) ≡ spec.relation_test (term_tree left.now) rel (term_tree right.now) (plan builder.old)) }
{
    let common = integer_type(&left.ctype);
    match named_or_assigned(left) {
        Some(found) => integer_test(builder, found, rel, right, common),
        None => turned_test(builder, constant_of(left), rel, right, common),
    }
}

/// The pointer object that is compared with a null pointer constant.
fn compared_with_null(left: &CheckedTerm, right: &CheckedTerm) -> Option<NamedObject>
    ensures { result ≡ spec.compared_with_null (term_tree left.now) (term_tree right.now) }
{
    if is_null_constant(right) {
        named_or_assigned(left)
    } else if is_null_constant(left) {
        named(right)
    } else {
        None
    }
}

/// The test of an object against null, where there is one.
fn null_test(
    builder: &mut Builder,
    found: Option<NamedObject>,
    rel: Rel,
) -> Result<Option<Test>, AllocError>
    ensures { IfOk result (λ t. tested t (plan builder.new) ≡ spec.null_test found rel (plan builder.old)) }
{
    match found {
        Some(found) => object_test(builder, found, rel, Side::Null, None),
        None => Ok(None),
    }
}

fn pointer_test(
    builder: &mut Builder,
    left: &CheckedTerm,
    rel: Rel,
    right: &CheckedTerm,
) -> Result<Option<Test>, AllocError>
    ensures { IfOk result (λ t. tested t (plan builder.new) ≡ spec.pointer_test (term_tree left.now) rel (term_tree right.now) (plan builder.old)) }
{
    null_test(builder, compared_with_null(left, right), rel)
}

/// An object alone, which is compared with 0.
fn zero_test(
    builder: &mut Builder,
    found: NamedObject,
    int_bytes: u8,
) -> Result<Option<Test>, AllocError>
    ensures { IfOk result (λ t. tested t (plan builder.new) ≡ spec.zero_test found int_bytes (plan builder.old)) }
{
    match found.kind {
        Scalar::Int(kind) => {
            let common = common_with_int(kind, int_bytes);
            object_test(builder, found, Rel::Ne, Side::Number(0), Some(common))
        }
        Scalar::Pointer => object_test(builder, found, Rel::Ne, Side::Null, None),
    }
}

fn own_test(
    cx: &Setting,
    builder: &mut Builder,
    term: &CheckedTerm,
) -> Result<Option<Test>, AllocError>
    ensures { IfOk result (λ t. tested t (plan builder.new) ≡ spec.own_test (setting cx.now) (term_tree term.now) (plan builder.old)) }
{
    match named_or_assigned(term) {
        Some(found) => zero_test(builder, found, cx.int),
        None => Ok(None),
    }
}

fn operator_test(
    builder: &mut Builder,
    op: OperatorMeaning,
    left: &CheckedTerm,
    right: &CheckedTerm,
) -> Result<Option<Test>, AllocError>
    ensures { IfOk result (λ t. tested t (plan builder.new) ≡ spec.operator_test op (term_tree left.now) (term_tree right.now) (plan builder.old)) }
{
    match op {
        OperatorMeaning::Truth(rel) => relation_test(builder, left, rel, right),
        OperatorMeaning::Number(_) => Ok(None),
    }
}

fn integers_test(
    builder: &mut Builder,
    op: BinaryOp,
    left: &CheckedTerm,
    right: &CheckedTerm,
) -> Result<Option<Test>, AllocError>
    ensures { IfOk result (λ t. tested t (plan builder.new) ≡ spec.integers_test op (term_tree left.now) (term_tree right.now) (plan builder.old)) }
{
    operator_test(builder, meaning(op), left, right)
}

/// The test that holds where a condition is true.
pub fn test_of(
    cx: &Setting,
    builder: &mut Builder,
    term: &CheckedTerm,
) -> Result<Option<Test>, AllocError>
    ensures { IfOk result (λ t. tested t (plan builder.new) ≡ spec.test_of (setting cx.now) (term_tree term.now) (plan builder.old)) }
{
    match &term.form {
        TermForm::Number(_) => own_test(cx, builder, term),
        TermForm::Sizeof(_, None, _) => own_test(cx, builder, term),
        TermForm::Sizeof(_, Some(_), _) => own_test(cx, builder, term),
        TermForm::Load(_) => own_test(cx, builder, term),
        TermForm::AddressOf(_) => own_test(cx, builder, term),
        TermForm::Decay(_) => own_test(cx, builder, term),
        TermForm::Convert(_, _) => own_test(cx, builder, term),
        TermForm::Discard(_) => own_test(cx, builder, term),
        TermForm::Plus(_) => own_test(cx, builder, term),
        TermForm::Minus(_) => own_test(cx, builder, term),
        TermForm::Complement(_) => own_test(cx, builder, term),
        TermForm::Not(_) => own_test(cx, builder, term),
        TermForm::Integer(op, left, right) => integers_test(builder, *op, left, right),
        TermForm::Shift(_, _, _, _) => own_test(cx, builder, term),
        TermForm::Difference(_, _, _) => own_test(cx, builder, term),
        TermForm::Compare(op, left, right) => pointer_test(builder, left, relation(*op), right),
        TermForm::Logical(_, _, _) => own_test(cx, builder, term),
        TermForm::Conditional(_, _, _) => own_test(cx, builder, term),
        TermForm::Comma(_, _) => own_test(cx, builder, term),
        TermForm::Assign(_, _) => own_test(cx, builder, term),
        TermForm::Compound(_, _, _, _) => own_test(cx, builder, term),
        TermForm::CompoundShift(_, _, _, _) => own_test(cx, builder, term),
        TermForm::Step(_, _, _, _) => own_test(cx, builder, term),
        TermForm::StepPointer(_, _, _, _) => own_test(cx, builder, term),
        TermForm::Struct(_) => own_test(cx, builder, term),
        TermForm::Call(_, _, _) => own_test(cx, builder, term),
        TermForm::Library(_, _, _) => own_test(cx, builder, term),
    }
}

/// The test that holds where another one does not.
fn opposite_test(test: Test) -> Test
    ensures { result ≡ spec.opposite_test test }
{
    Test {
        left: test.left,
        rel: opposite(test.rel),
        right: test.right,
        common: test.common,
    }
}

/// The test that holds where another one does not, where there is one.
pub fn opposite_of(test: Option<Test>) -> Option<Test>
    ensures { result ≡ spec.opposite_of test }
{
    match test {
        Some(test) => Some(opposite_test(test)),
        None => None,
    }
}
