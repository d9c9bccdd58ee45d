//! The places of the rules in expressions.
ghost use Rattle.std.specs.Prelude.{◌≡◌, ◌++◌, IfOk, Option, Some, None};
ghost use Rattle.syntactic_rules.specs.Slots.{inner_slot, converted_slot, assigned, sized};
ghost use Rattle.syntactic_rules.specs.TermPlaces.{term_places, lvalue_places, terms_places, operand_places};

use c_layout::{CheckedTerm, ConversionKind, Lvalue, LvalueForm, TermForm};
use cc_base::{Diag, Place, Rule};
use std::alloc::AllocError;

/// Where a term stands: in no condition slot, or in one that needs so many pairs of parentheses.
#[derive(Clone, Copy, PartialEq, Eq)]
pub enum Slot {
    Outside,
    Needs(u32),
}

/// The slot of a part of a term that stands in a slot, if the term stands in one.
fn inner_slot(slot: Slot, pairs: u32) -> Slot
    ensures { result ≡ inner_slot slot pairs }
{
    match slot {
        Slot::Outside => Slot::Outside,
        Slot::Needs(_) => Slot::Needs(pairs),
    }
}

/// The slot of the operand of a conversion: an implicit one leaves no trace in the text.
fn converted_slot(kind: ConversionKind, slot: Slot) -> Slot
    ensures { result ≡ converted_slot kind slot }
{
    match kind {
        ConversionKind::Implicit => slot,
        ConversionKind::Cast => Slot::Outside,
    }
}

/// Adds an assignment that stands in a slot with no more pairs of parentheses than that needs.
fn add_assignment(
    found: &mut Vec<Diag>,
    place: Place,
    parens: u32,
    slot: Slot,
) -> Result<(), AllocError>
    ensures { IfOk result (λ _. found.new.items ≡ found.old.items ++ assigned place parens slot) }
{
    match slot {
        Slot::Needs(pairs) if parens <= pairs => {
            let rule = Rule::Boolasgn;
            Ok(found.push(Diag { place, rule })?)
        }
        _ => Ok(()),
    }
}

/// Adds a `sizeof` of a name or a member of pointer type.
fn add_sizeof(found: &mut Vec<Diag>, place: Place, is_pointer: bool) -> Result<(), AllocError>
    ensures { IfOk result (λ _. found.new.items ≡ found.old.items ++ sized place is_pointer) }
{
    if is_pointer {
        let rule = Rule::Sizeofptr;
        return Ok(found.push(Diag { place, rule })?);
    }
    Ok(())
}

/// Adds what the terms of a list have, which stand in no slot.
#[cycle(terms)]
pub fn add_terms(found: &mut Vec<Diag>, terms: &[CheckedTerm]) -> Result<(), AllocError>
    ensures { IfOk result (λ _. found.new.items ≡ found.old.items ++ terms_places terms.now) }
{
    for term in terms {
        add_term(found, term, Slot::Outside)?;
    }
    Ok(())
}

/// Adds what the operand of a `sizeof` has, where it is an expression.
#[cycle(terms)]
fn add_operand(found: &mut Vec<Diag>, operand: &Option<Box<CheckedTerm>>) -> Result<(), AllocError>
    ensures { IfOk result (λ _. found.new.items ≡ found.old.items ++ operand_places operand.now) }
{
    match operand {
        Some(term) => add_term(found, term, Slot::Outside),
        None => Ok(()),
    }
}

/// Adds what an lvalue has.
#[cycle(terms)]
pub fn add_lvalue(found: &mut Vec<Diag>, at: &Lvalue) -> Result<(), AllocError>
    ensures { IfOk result (λ _. found.new.items ≡ found.old.items ++ lvalue_places at.now) }
{
    match &at.form {
        LvalueForm::Object(_) | LvalueForm::Literal(_) => Ok(()),
        LvalueForm::Target(pointer) => add_term(found, pointer, Slot::Outside),
        LvalueForm::Member(whole, _) => add_lvalue(found, whole),
        LvalueForm::Copied(target, source) => {
            add_lvalue(found, target)?;
            add_lvalue(found, source)
        }
        LvalueForm::Then(first, last) => {
            add_term(found, first, Slot::Outside)?;
            add_lvalue(found, last)
        }
    }
}

/// Adds what a term in this slot has.
#[cycle(terms)]
pub fn add_term(found: &mut Vec<Diag>, term: &CheckedTerm, slot: Slot) -> Result<(), AllocError>
    ensures { IfOk result (λ _. found.new.items ≡ found.old.items ++ term_places term.now slot) }
{
    match &term.form {
        TermForm::Number(_) => Ok(()),
        TermForm::Sizeof(_, operand, is_pointer) => {
            add_sizeof(found, term.place, *is_pointer)?;
            add_operand(found, operand)
        }
        TermForm::Load(at)
        | TermForm::AddressOf(at)
        | TermForm::Decay(at)
        | TermForm::Step(_, _, _, at)
        | TermForm::StepPointer(_, _, _, at)
        | TermForm::Struct(at) => add_lvalue(found, at),
        TermForm::Convert(kind, operand) => add_term(found, operand, converted_slot(*kind, slot)),
        TermForm::Discard(operand)
        | TermForm::Plus(operand)
        | TermForm::Minus(operand)
        | TermForm::Complement(operand)
        | TermForm::Not(operand) => add_term(found, operand, Slot::Outside),
        TermForm::Integer(_, left, right)
        | TermForm::Shift(_, _, left, right)
        | TermForm::Difference(_, left, right)
        | TermForm::Compare(_, left, right) => {
            add_term(found, left, Slot::Outside)?;
            add_term(found, right, Slot::Outside)
        }
        TermForm::Logical(_, left, right) => {
            add_term(found, left, Slot::Needs(1))?;
            add_term(found, right, Slot::Needs(1))
        }
        TermForm::Conditional(test, first, second) => {
            add_term(found, test, Slot::Needs(1))?;
            add_term(found, first, inner_slot(slot, 0))?;
            add_term(found, second, inner_slot(slot, 1))
        }
        TermForm::Comma(first, last) => {
            add_term(found, first, Slot::Outside)?;
            add_term(found, last, inner_slot(slot, 0))
        }
        TermForm::Assign(target, value) => {
            add_assignment(found, term.place, term.parens, slot)?;
            add_lvalue(found, target)?;
            add_term(found, value, Slot::Outside)
        }
        TermForm::Compound(_, _, target, value) | TermForm::CompoundShift(_, _, target, value) => {
            add_lvalue(found, target)?;
            add_term(found, value, Slot::Outside)
        }
        TermForm::Call(_, arguments, _) | TermForm::Library(_, arguments, _) => {
            add_terms(found, arguments.as_slice())
        }
    }
}
