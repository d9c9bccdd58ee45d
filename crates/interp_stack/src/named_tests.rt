//! The tests that conditions are: what is known of named objects where a condition holds.
ghost use Rattle.std.specs.Prelude.{◌≡◌, Some};
ghost use Rattle.c_layout.specs.CheckedUnits.{UnitView};
ghost use Rattle.std.specs.Option.{option_map};
ghost use Rattle.c_layout.specs.CheckedTrees.{term_tree, lvalue_tree};
ghost use Rattle.lower_templates.specs.Worklist.TermKinds.{meaning, seen_lvalue};
ghost use Rattle.lower_conditions.specs.Tests as names;
ghost use Rattle.semantics.specs.SourceMachine.TermTests as spec;
ghost use Rattle.interp_stack.specs.TestViews.{side_view, test_view};

use c_layout::{BinaryOp, CheckedTerm, Lvalue, LvalueForm, TermForm};
use cc_base::{IntType, Rel};
use cfg::Scalar;
use lower_conditions::{NamedObject, named};
use lower_templates::worklist::{
    OperatorMeaning, assigned, common_with_int, integer_type, is_null_constant, meaning, peeled,
    relation, scalar, turned,
};

/// A side of a test: a named object, a number, or a null pointer.
#[derive(Clone, Copy)]
pub enum NamedSide7 {
    Object(NamedObject),
    Number(i128),
    Nothing,
}

/// A relation of two integers in their common type, or of two pointers. The left side is an object.
#[derive(Clone, Copy)]
pub struct NamedTest7 {
    pub left: NamedObject,
    pub rel: Rel,
    pub right: NamedSide7,
    pub common: Option<IntType>,
}

fn named_lvalue(lvalue: &Lvalue) -> Option<NamedObject>
    ensures { result ≡ names.named_lvalue (lvalue_tree lvalue.now) }
{
    match &lvalue.form {
        LvalueForm::Object(object) => Some(NamedObject {
            object: *object,
            kind: scalar(&lvalue.ctype),
        }),
        LvalueForm::Literal(_) => None,
        LvalueForm::Target(_) => None,
        LvalueForm::Member(_, _) => None,
        LvalueForm::Copied(_, _) => None,
        LvalueForm::Then(_, _) => None,
    }
}

// The object that an lvalue names, where there is one.
fn named_by(lvalue: Option<&Lvalue>) -> Option<NamedObject>
    ensures { result ≡ names.named_by (seen_lvalue lvalue.entry) }
{
    match lvalue {
        Some(found) => named_lvalue(found),
        None => None,
    }
}

// The object that a term names or assigns to by `=`.
fn named_or_assigned(term: &CheckedTerm) -> Option<NamedObject>
    ensures { result ≡ names.named_or_assigned (term_tree term.now) }
{
    match named(term) {
        Some(found) => Some(found),
        None => named_by(assigned(peeled(term))),
    }
}

// The constant that a term is, without implicit conversions.
fn constant_of(term: &CheckedTerm) -> Option<i128>
    ensures { result ≡ names.constant_of (term_tree term.now) }
{
    peeled(term).constant
}

// The pointer object that is compared with a null pointer constant.
fn compared_with_null(left: &CheckedTerm, right: &CheckedTerm) -> Option<NamedObject>
    ensures { result ≡ names.compared_with_null (term_tree left.now) (term_tree right.now) }
{
    if is_null_constant(right) {
        named_or_assigned(left)
    } else if is_null_constant(left) {
        named(right)
    } else {
        None
    }
}

fn test_between(
    left: NamedObject,
    rel: Rel,
    right: NamedSide7,
    common: Option<IntType>,
) -> NamedTest7
    ensures { test_view result ≡ spec.test_between left rel (side_view right) common }
{
    NamedTest7 {
        left,
        rel,
        right,
        common,
    }
}

fn number_side(constant: Option<i128>) -> Option<NamedSide7>
    ensures { option_map side_view result ≡ spec.number_side constant }
{
    match constant {
        Some(n) => Some(NamedSide7::Number(n)),
        None => None,
    }
}

// A named object or a constant.
fn right_side(found: Option<NamedObject>, constant: Option<i128>) -> Option<NamedSide7>
    ensures { option_map side_view result ≡ spec.right_side found constant }
{
    match found {
        Some(object) => Some(NamedSide7::Object(object)),
        None => number_side(constant),
    }
}

fn test_with(
    left: NamedObject,
    rel: Rel,
    common: IntType,
    right: Option<NamedSide7>,
) -> Option<NamedTest7>
    ensures { option_map test_view result ≡ spec.test_with left rel common (option_map side_view right) }
{
    match right {
        Some(side) => Some(test_between(left, rel, side, Some(common))),
        None => None,
    }
}

// A constant on the left and an object on the right: the relation is turned round.
#[tactic(auto, using(crate::proofs::Tests::turned_round))]
fn turned_test(
    constant: Option<i128>,
    rel: Rel,
    found: Option<NamedObject>,
    common: IntType,
) -> Option<NamedTest7>
    ensures { option_map test_view result ≡ spec.turned_test constant rel found common }
{
    match (constant, found) {
        (Some(n), Some(object)) => Some(test_between(
            object,
            turned(rel),
            NamedSide7::Number(n),
            Some(common),
        )),
        (Some(_), None) => None,
        (None, _) => None,
    }
}

fn relation_test(left: &CheckedTerm, rel: Rel, right: &CheckedTerm) -> Option<NamedTest7>
    ensures { option_map test_view result ≡ spec.relation_test (names.named_or_assigned (term_tree left.now)) (term_tree left.now) rel (term_tree right.now) }
{
    let common = integer_type(&left.ctype);
    match named_or_assigned(left) {
        Some(found) => test_with(
            found,
            rel,
            common,
            right_side(named(right), constant_of(right)),
        ),
        None => turned_test(constant_of(left), rel, named(right), common),
    }
}

fn integers_test(op: BinaryOp, left: &CheckedTerm, right: &CheckedTerm) -> Option<NamedTest7>
    ensures { option_map test_view result ≡ spec.operator_test (meaning op) (term_tree left.now) (term_tree right.now) }
{
    match meaning(op) {
        OperatorMeaning::Truth(rel) => relation_test(left, rel, right),
        OperatorMeaning::Number(_) => None,
    }
}

fn null_test(found: Option<NamedObject>, rel: Rel) -> Option<NamedTest7>
    ensures { option_map test_view result ≡ spec.null_test found rel }
{
    match found {
        Some(object) => Some(test_between(object, rel, NamedSide7::Nothing, None)),
        None => None,
    }
}

// An object alone is compared with 0 or null.
fn zero_test(found: NamedObject, int_bytes: u8) -> NamedTest7
    ensures { (u : UnitView) → u.model.int ≡ int_bytes → Some (test_view result) ≡ spec.zero_test_of u found found.kind }
{
    match found.kind {
        Scalar::Int(kind) => test_between(
            found,
            Rel::Ne,
            NamedSide7::Number(0),
            Some(common_with_int(kind, int_bytes)),
        ),
        Scalar::Pointer => test_between(found, Rel::Ne, NamedSide7::Nothing, None),
    }
}

fn own_test(term: &CheckedTerm, int_bytes: u8) -> Option<NamedTest7>
    ensures { (u : UnitView) → u.model.int ≡ int_bytes → option_map test_view result ≡ spec.zero_test u (names.named_or_assigned (term_tree term.now)) }
{
    match named_or_assigned(term) {
        Some(found) => Some(zero_test(found, int_bytes)),
        None => None,
    }
}

/// The test that holds where a condition is true, where int has so many bytes.
pub fn test_of(term: &CheckedTerm, int_bytes: u8) -> Option<NamedTest7>
    ensures { (u : UnitView) → u.model.int ≡ int_bytes → option_map test_view result ≡ spec.test_of u (term_tree term.now) }
{
    match &term.form {
        TermForm::Number(_) => own_test(term, int_bytes),
        TermForm::Sizeof(_, None, _) => own_test(term, int_bytes),
        TermForm::Sizeof(_, Some(_), _) => own_test(term, int_bytes),
        TermForm::Load(_) => own_test(term, int_bytes),
        TermForm::AddressOf(_) => own_test(term, int_bytes),
        TermForm::Decay(_) => own_test(term, int_bytes),
        TermForm::Convert(_, _) => own_test(term, int_bytes),
        TermForm::Discard(_) => own_test(term, int_bytes),
        TermForm::Plus(_) => own_test(term, int_bytes),
        TermForm::Minus(_) => own_test(term, int_bytes),
        TermForm::Complement(_) => own_test(term, int_bytes),
        TermForm::Not(_) => own_test(term, int_bytes),
        TermForm::Integer(op, left, right) => integers_test(*op, left, right),
        TermForm::Shift(_, _, _, _) => own_test(term, int_bytes),
        TermForm::Difference(_, _, _) => own_test(term, int_bytes),
        TermForm::Compare(op, left, right) => {
            null_test(compared_with_null(left, right), relation(*op))
        }
        TermForm::Logical(_, _, _) => own_test(term, int_bytes),
        TermForm::Conditional(_, _, _) => own_test(term, int_bytes),
        TermForm::Comma(_, _) => own_test(term, int_bytes),
        TermForm::Assign(_, _) => own_test(term, int_bytes),
        TermForm::Compound(_, _, _, _) => own_test(term, int_bytes),
        TermForm::CompoundShift(_, _, _, _) => own_test(term, int_bytes),
        TermForm::Step(_, _, _, _) => own_test(term, int_bytes),
        TermForm::StepPointer(_, _, _, _) => own_test(term, int_bytes),
        TermForm::Struct(_) => own_test(term, int_bytes),
        TermForm::Call(_, _, _) => own_test(term, int_bytes),
        TermForm::Library(_, _, _) => own_test(term, int_bytes),
    }
}
