//! Whether terms are such as typing makes them.
ghost use Rattle.std.specs.Prelude.{◌≡◌, ◌+◌, ◌&&◌, map, slice_get, true};
ghost use Rattle.c_layout.specs.Types.{view};
ghost use Rattle.c_layout.specs.CheckedTrees.{term_tree, lvalue_tree, term_trees};
ghost use Rattle.c_layout.specs.CheckedUnits.{function_view, unit_view};
ghost use Rattle.lower_expressions.specs.Calls as calls;
ghost use Rattle.lower_preconditions.specs.Units.RegularTerms as spec;
ghost use Rattle.lower_preconditions.specs.Units.TermGroups.{is_simple, is_operation, is_assignment, is_call};

use c_layout::{
    CType, Checked, CheckedTerm, Function, LibFn, Lvalue, LvalueForm, ObjectRef, TermForm,
};
use lower_templates::worklist::is_void;

/// Whether so many temporaries behind some others have numbers.
fn has_room(depth: u32, more: u32) -> bool
    ensures { result ≡ spec.has_room (depth + more) }
{
    more <= u32::MAX - depth
}

/// Whether a type is that of a struct.
pub fn is_struct(t: &CType) -> bool
    ensures { result ≡ spec.is_struct (view t.now) }
{
    match t {
        CType::Struct(_) => true,
        CType::Int(_) | CType::Pointer(_) | CType::Array(_, _) | CType::Void => false,
    }
}

/// Whether a function has a local object of a number; its parameters are the first ones.
pub fn has_local(function: &Function, local: u32) -> bool
    ensures { result ≡ spec.has_local (function_view function.now) local }
{
    (local as usize) < function.locals.len()
}

/// Whether a unit has an object of static storage, or a function a local one.
fn has_object(unit: &Checked, function: &Function, object: ObjectRef) -> bool
    ensures { result ≡ spec.has_object (unit_view unit.now) (function_view function.now) object }
{
    match object {
        ObjectRef::Static(number) => (number as usize) < unit.objects.len(),
        ObjectRef::Local(number) => has_local(function, number),
    }
}

fn has_literal(unit: &Checked, number: u32) -> bool
    ensures { result ≡ spec.has_literal (unit_view unit.now) number }
{
    (number as usize) < unit.literals.len()
}

/// Whether a function may be called with so many arguments, and its value be taken or not.
fn is_callable(unit: &Checked, used: bool, is_used: bool, count: usize, number: u32) -> bool
    ensures { result ≡ spec.is_callable used is_used count (slice_get (unit_view unit.now).functions number) }
{
    match unit.functions.get(number as usize) {
        Some(found) => {
            found.parameters as usize == count
                && ((!used || is_used) && (!is_used || !is_void(&found.result)))
        }
        None => false,
    }
}

/// Whether a library function may be called with so many arguments, and its value be used or not.
fn is_library_call(used: bool, count: usize, function: LibFn) -> bool
    ensures { result ≡ spec.is_library_call used count function }
{
    (!used || function.gives()) && (!function.signature().reads_line || count == 3)
}

#[tactic(auto, using(crate::proofs::units::Arguments::arguments_counted))]
fn argument_count(arguments: &[CheckedTerm]) -> usize
    ensures { result ≡ spec.argument_count (term_trees (map term_tree arguments.now)) }
{
    arguments.len()
}

/// Whether terms are those of a list of arguments, each one temporary behind the one before it.
#[cycle(terms)]
fn are_regular_terms(unit: &Checked, function: &Function, depth: u32, terms: &[CheckedTerm]) -> bool
    ensures { result ≡ spec.are_regular_terms (unit_view unit.now) (function_view function.now) depth (term_trees (map term_tree terms.now)) }
{
    let mut at = depth;
    for term in terms {
        if !is_regular_term(unit, function, true, at, term) {
            return false;
        }
        if !has_room(at, 1) {
            return false;
        }
        at += 1;
    }
    true
}

/// Whether an lvalue is such as typing makes it.
#[cycle(terms)]
pub fn is_regular_place(unit: &Checked, function: &Function, depth: u32, at: &Lvalue) -> bool
    ensures { result ≡ spec.is_regular_place (unit_view unit.now) (function_view function.now) depth (lvalue_tree at.now) }
{
    match &at.form {
        LvalueForm::Object(object) => has_object(unit, function, *object),
        LvalueForm::Literal(number) => has_literal(unit, *number),
        LvalueForm::Target(pointer) => is_regular_term(unit, function, true, depth, pointer),
        LvalueForm::Member(whole, _) => is_regular_place(unit, function, depth, whole),
        LvalueForm::Copied(target, source) => {
            is_struct(&target.ctype)
                && (is_regular_place(unit, function, depth, target)
                    && (has_room(depth, 1) && is_regular_place(unit, function, depth + 1, source)))
        }
        LvalueForm::Then(first, last) => {
            is_regular_term(unit, function, false, depth, first)
                && is_regular_place(unit, function, depth, last)
        }
    }
}

/// Whether a term has one operand at most and is no assignment, and is such as typing makes it.
#[cycle(terms)]
fn is_regular_simple(
    unit: &Checked,
    function: &Function,
    used: bool,
    depth: u32,
    term: &CheckedTerm,
) -> bool
    ensures { result ≡ (is_simple (term_tree term.now) && spec.is_regular_term (unit_view unit.now) (function_view function.now) used depth (term_tree term.now)) }
{
    match &term.form {
        TermForm::Number(_) => true,
        TermForm::Sizeof(_, None, _) => true,
        TermForm::Sizeof(_, Some(_), _) => true,
        TermForm::Load(at) | TermForm::AddressOf(at) | TermForm::Decay(at) | TermForm::Struct(at) =>
            is_regular_place(unit, function, depth, at),
        TermForm::Convert(_, operand)
        | TermForm::Plus(operand)
        | TermForm::Minus(operand)
        | TermForm::Complement(operand)
        | TermForm::Not(operand) => is_regular_term(unit, function, true, depth, operand),
        TermForm::Discard(operand) => {
            !used && is_regular_term(unit, function, false, depth, operand)
        }
        _ => false,
    }
}

/// Whether a term is an operator with more operands than one, and such as typing makes it.
#[cycle(terms)]
fn is_regular_operation(
    unit: &Checked,
    function: &Function,
    used: bool,
    depth: u32,
    term: &CheckedTerm,
) -> bool
    ensures { result ≡ (is_operation (term_tree term.now) && spec.is_regular_term (unit_view unit.now) (function_view function.now) used depth (term_tree term.now)) }
{
    match &term.form {
        TermForm::Integer(_, left, right)
        | TermForm::Compare(_, left, right)
        | TermForm::Difference(_, left, right)
        | TermForm::Shift(_, _, left, right) => {
            is_regular_term(unit, function, true, depth, left)
                && (has_room(depth, 1) && is_regular_term(unit, function, true, depth + 1, right))
        }
        TermForm::Logical(_, left, right) => {
            is_regular_term(unit, function, true, depth, left)
                && is_regular_term(unit, function, true, depth, right)
        }
        TermForm::Conditional(test, first, second) => {
            is_regular_term(unit, function, true, depth, test)
                && (is_regular_term(unit, function, used, depth, first)
                    && is_regular_term(unit, function, used, depth, second))
        }
        TermForm::Comma(first, last) => {
            is_regular_term(unit, function, false, depth, first)
                && is_regular_term(unit, function, used, depth, last)
        }
        _ => false,
    }
}

/// Whether a term is an assignment or a step, and such as typing makes it.
#[cycle(terms)]
fn is_regular_assignment(
    unit: &Checked,
    function: &Function,
    used: bool,
    depth: u32,
    term: &CheckedTerm,
) -> bool
    ensures { result ≡ (is_assignment (term_tree term.now) && spec.is_regular_term (unit_view unit.now) (function_view function.now) used depth (term_tree term.now)) }
{
    match &term.form {
        TermForm::Assign(target, value) => {
            is_regular_place(unit, function, depth, target)
                && (has_room(depth, 1) && is_regular_term(unit, function, true, depth + 1, value))
        }
        TermForm::Compound(_, _, target, value) | TermForm::CompoundShift(_, _, target, value) => {
            has_room(depth, 2)
                && (is_regular_place(unit, function, depth, target)
                    && (has_room(depth, 1)
                        && is_regular_term(unit, function, true, depth + 1, value)))
        }
        TermForm::Step(_, _, _, at) | TermForm::StepPointer(_, _, _, at) => {
            has_room(depth, 2) && is_regular_place(unit, function, depth, at)
        }
        _ => false,
    }
}

/// Whether a term is a call, and such as typing makes it.
#[cycle(terms)]
fn is_regular_call(
    unit: &Checked,
    function: &Function,
    used: bool,
    depth: u32,
    term: &CheckedTerm,
) -> bool
    ensures { result ≡ (is_call (term_tree term.now) && spec.is_regular_term (unit_view unit.now) (function_view function.now) used depth (term_tree term.now)) }
{
    match &term.form {
        TermForm::Call(number, arguments, is_used) => {
            let given = arguments.as_slice();
            are_regular_terms(unit, function, depth, given)
                && is_callable(unit, used, *is_used, argument_count(given), *number)
        }
        TermForm::Library(called, arguments, _) => {
            let given = arguments.as_slice();
            are_regular_terms(unit, function, depth, given)
                && is_library_call(used, argument_count(given), *called)
        }
        _ => false,
    }
}

/// Whether a term whose value is used or not, behind so many temporaries, is such as typing makes it.
#[cycle(terms)]
pub fn is_regular_term(
    unit: &Checked,
    function: &Function,
    used: bool,
    depth: u32,
    term: &CheckedTerm,
) -> bool
    ensures { result ≡ spec.is_regular_term (unit_view unit.now) (function_view function.now) used depth (term_tree term.now) }
{
    is_regular_simple(unit, function, used, depth, term)
        || (is_regular_operation(unit, function, used, depth, term)
            || (is_regular_assignment(unit, function, used, depth, term)
                || is_regular_call(unit, function, used, depth, term)))
}
