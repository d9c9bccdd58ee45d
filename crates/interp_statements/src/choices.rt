//! What follows a condition that holds or not.
ghost use Rattle.std.specs.Prelude.{◌≡◌, ◌++◌, List, [], ◌∷◌, true, false, None, IfOk};
ghost use Rattle.c_layout.specs.CheckedTrees.{term_tree, statement_tree};
ghost use Rattle.c_layout.specs.CheckedUnits.{UnitView};
ghost use Rattle.semantics.specs.SourceMachine.Items as machine;
ghost use Rattle.semantics.specs.SourceMachine.ConditionItems.{condition, arm, choice_of, truth_of};
ghost use Rattle.interp_stack.specs.ItemViews.{arm_items, next_items};
ghost use Rattle.interp_stack.specs.StackViews.{ways, following, on_item, on_term, on_statement, standing, Adds};
ghost use Rattle.interp_stack.specs.declared.items.Item7.{Item7};
ghost use Rattle.interp_stack.specs.declared.items.Use7.TheVariants as use_of;
ghost use Rattle.interp_statements.specs.Choices.{followed, is_target, is_target_term, is_target_statement, IsMet, Meets, Stays};

use crate::loop_items::push_turn;
use c_layout::{CheckedStatement, CheckedTerm, TermForm};
use interp_stack::{Arm7, Item7, Next7, Use7, Way7, push_condition, push_item};
use std::alloc::AllocError;

fn is_target_term(how: Use7) -> bool
    ensures { result ≡ is_target_term how }
{
    match how {
        Use7::After(_) => true,
        Use7::Value => false,
        Use7::Unused => false,
        Use7::Choose(_) => false,
        Use7::AndThen(_) => false,
        Use7::OrElse(_) => false,
        Use7::Pick => false,
    }
}

fn is_target_statement(way: Way7) -> bool
    ensures { result ≡ is_target_statement way }
{
    match way {
        Way7::After(_) => true,
        Way7::Whole => false,
        Way7::Turn => false,
        Way7::Select => false,
    }
}

// Whether an entry of a list of items is what follows a condition.
fn is_target(item: &Item7) -> bool
    ensures { result ≡ is_target item.now }
{
    match item {
        Item7::AfterNothing => true,
        Item7::AfterTruth(_) => true,
        Item7::Term(how, _) => is_target_term(*how),
        Item7::Statement(way, _) => is_target_statement(*way),
        _ => false,
    }
}

// Whether the newest entry is what follows a condition.
fn ends_in_target(control: &[Item7]) -> bool
    ensures { (items : List Item7) (item : Item7) → control.now ≡ items ++ item ∷ [] → result ≡ is_target item }
{
    match control.last() {
        Some(item) => is_target(item),
        None => false,
    }
}

// What follows where a condition does not hold is done away with.
fn drop_failed(control: &mut Vec<Item7>)
    ensures { (u : UnitView) → (standing u control.new.items).items ≡ (standing u control.old.items).items }
{
    if !ends_in_target(control.as_slice()) {
        return;
    }
    let _ = control.pop();
}

// ---- what follows a condition

fn push_arm<'a>(
    control: &mut Vec<Item7<'a>>,
    used: bool,
    term: &'a CheckedTerm,
) -> Result<(), AllocError>
    ensures { (u : UnitView) → Adds u (arm used (term_tree term.now) ∷ []) control.old.items result control.new.items }
{
    if used {
        push_item(control, Item7::Term(Use7::Value, term))
    } else {
        push_item(control, Item7::Term(Use7::Unused, term))
    }
}

fn push_arm_hop<'a>(
    control: &mut Vec<Item7<'a>>,
    used: bool,
    term: &'a CheckedTerm,
) -> Result<(), AllocError>
    ensures { (u : UnitView) → Adds u (arm used (term_tree term.now) ∷ (machine.Hop ∷ [])) control.old.items result control.new.items }
{
    push_item(control, Item7::Hop)?;
    push_arm(control, used, term)?;
    Ok(())
}

// 0 or 1 by the value of a term.
fn push_truth<'a>(control: &mut Vec<Item7<'a>>, term: &'a CheckedTerm) -> Result<(), AllocError>
    ensures { (u : UnitView) → Adds u (choice_of (term_tree term.now) (truth_of true) (truth_of false)) control.old.items result control.new.items }
{
    push_item(control, Item7::AfterTruth(false))?;
    push_item(control, Item7::AfterTruth(true))?;
    push_item(control, Item7::Term(Use7::Choose(false), term))?;
    push_item(control, Item7::Term(Use7::Value, term))?;
    Ok(())
}

// The items that a term is where they follow a condition.
fn push_after<'a>(
    control: &mut Vec<Item7<'a>>,
    arm: Arm7,
    term: &'a CheckedTerm,
) -> Result<(), AllocError>
    ensures { (u : UnitView) → Adds u (arm_items arm (term_tree term.now)) control.old.items result control.new.items }
{
    match arm {
        Arm7::Arm(used) => push_arm(control, used, term),
        Arm7::ArmHop(used) => push_arm_hop(control, used, term),
        Arm7::Right => push_truth(control, term),
    }
}

fn push_body_hop<'a>(
    control: &mut Vec<Item7<'a>>,
    statement: &'a CheckedStatement,
) -> Result<(), AllocError>
    ensures { (u : UnitView) → Adds u (machine.Statement (statement_tree statement.now) ∷ (machine.Hop ∷ [])) control.old.items result control.new.items }
{
    push_item(control, Item7::Hop)?;
    push_item(control, Item7::Statement(Way7::Whole, statement))?;
    Ok(())
}

// The items that a statement is where they follow a condition.
fn push_next<'a>(
    control: &mut Vec<Item7<'a>>,
    next: Next7,
    statement: &'a CheckedStatement,
) -> Result<(), AllocError>
    ensures { (u : UnitView) → Adds u (next_items next (statement_tree statement.now)) control.old.items result control.new.items }
{
    match next {
        Next7::Body => push_item(control, Item7::Statement(Way7::Whole, statement)),
        Next7::BodyHop => push_body_hop(control, statement),
        Next7::Turn => push_turn(control, statement),
    }
}

// ---- what stands behind a condition

fn meet_nothing(control: &mut Vec<Item7>, holds: bool) -> Option<bool>
    ensures met { (u : UnitView) → IsMet u (followed holds (following [] (standing u control.old.items))) control.new.items result }
    ensures stays { Stays control.old.items result control.new.items }
{
    if holds {
        drop_failed(control);
        None
    } else {
        Some(true)
    }
}

fn meet_truth(
    control: &mut Vec<Item7>,
    truth: bool,
    holds: bool,
) -> Result<Option<bool>, AllocError>
    ensures met { (u : UnitView) → Meets u (λ s. following (truth_of truth) s) holds control.old.items result control.new.items }
    ensures stays { IfOk result (λ found. Stays control.old.items found control.new.items) }
{
    if holds {
        drop_failed(control);
        push_item(control, Item7::Truth(truth))?;
        Ok(None)
    } else {
        Ok(Some(true))
    }
}

fn meet_arm<'a>(
    control: &mut Vec<Item7<'a>>,
    arm: Arm7,
    term: &'a CheckedTerm,
    holds: bool,
) -> Result<Option<bool>, AllocError>
    ensures met { (u : UnitView) → Meets u (λ s. following (arm_items arm (term_tree term.now)) s) holds control.old.items result control.new.items }
    ensures stays { IfOk result (λ found. Stays control.old.items found control.new.items) }
{
    if holds {
        drop_failed(control);
        push_after(control, arm, term)?;
        Ok(None)
    } else {
        Ok(Some(true))
    }
}

fn meet_next<'a>(
    control: &mut Vec<Item7<'a>>,
    next: Next7,
    statement: &'a CheckedStatement,
    holds: bool,
) -> Result<Option<bool>, AllocError>
    ensures met { (u : UnitView) → Meets u (λ s. following (next_items next (statement_tree statement.now)) s) holds control.old.items result control.new.items }
    ensures stays { IfOk result (λ found. Stays control.old.items found control.new.items) }
{
    if holds {
        drop_failed(control);
        push_next(control, next, statement)?;
        Ok(None)
    } else {
        Ok(Some(true))
    }
}

fn meet_and<'a>(
    control: &mut Vec<Item7<'a>>,
    is_test: bool,
    right: &'a CheckedTerm,
    holds: bool,
) -> Result<Option<bool>, AllocError>
    ensures met { (u : UnitView) → Meets u (λ s. on_term u (use_of.AndThen is_test) (term_tree right.now) s) holds control.old.items result control.new.items }
    ensures stays { IfOk result (λ found. Stays control.old.items found control.new.items) }
{
    if holds {
        push_condition(control, right, is_test)?;
        Ok(None)
    } else {
        Ok(Some(false))
    }
}

fn meet_or<'a>(
    control: &mut Vec<Item7<'a>>,
    is_test: bool,
    right: &'a CheckedTerm,
    holds: bool,
) -> Result<Option<bool>, AllocError>
    ensures met { (u : UnitView) → Meets u (λ s. on_term u (use_of.OrElse is_test) (term_tree right.now) s) holds control.old.items result control.new.items }
    ensures stays { IfOk result (λ found. Stays control.old.items found control.new.items) }
{
    if holds {
        Ok(Some(true))
    } else {
        push_condition(control, right, is_test)?;
        Ok(None)
    }
}

// The arm of a conditional.
fn meet_arms<'a>(
    control: &mut Vec<Item7<'a>>,
    first: &'a CheckedTerm,
    second: &'a CheckedTerm,
    holds: bool,
) -> Result<Option<bool>, AllocError>
    ensures met { (u : UnitView) → Meets u (λ s. ways (condition u false (term_tree first.now) s.yes s.no) (condition u false (term_tree second.now) s.yes s.no) s) holds control.old.items result control.new.items }
    ensures stays { IfOk result (λ found. Stays control.old.items found control.new.items) }
{
    if holds {
        push_condition(control, first, false)?;
        Ok(None)
    } else {
        push_condition(control, second, false)?;
        Ok(None)
    }
}

fn meet_pick<'a>(
    control: &mut Vec<Item7<'a>>,
    term: &'a CheckedTerm,
    holds: bool,
) -> Result<Option<bool>, AllocError>
    ensures met { (u : UnitView) → Meets u (λ s. on_term u use_of.Pick (term_tree term.now) s) holds control.old.items result control.new.items }
    ensures stays { IfOk result (λ found. Stays control.old.items found control.new.items) }
{
    match &term.form {
        TermForm::Number(_) => Ok(Some(holds)),
        TermForm::Sizeof(_, None, _) => Ok(Some(holds)),
        TermForm::Sizeof(_, Some(_), _) => Ok(Some(holds)),
        TermForm::Load(_) => Ok(Some(holds)),
        TermForm::AddressOf(_) => Ok(Some(holds)),
        TermForm::Decay(_) => Ok(Some(holds)),
        TermForm::Convert(_, _) => Ok(Some(holds)),
        TermForm::Discard(_) => Ok(Some(holds)),
        TermForm::Plus(_) => Ok(Some(holds)),
        TermForm::Minus(_) => Ok(Some(holds)),
        TermForm::Complement(_) => Ok(Some(holds)),
        TermForm::Not(_) => Ok(Some(holds)),
        TermForm::Integer(_, _, _) => Ok(Some(holds)),
        TermForm::Shift(_, _, _, _) => Ok(Some(holds)),
        TermForm::Difference(_, _, _) => Ok(Some(holds)),
        TermForm::Compare(_, _, _) => Ok(Some(holds)),
        TermForm::Logical(_, _, _) => Ok(Some(holds)),
        TermForm::Conditional(_, first, second) => meet_arms(control, first, second, holds),
        TermForm::Comma(_, _) => Ok(Some(holds)),
        TermForm::Assign(_, _) => Ok(Some(holds)),
        TermForm::Compound(_, _, _, _) => Ok(Some(holds)),
        TermForm::CompoundShift(_, _, _, _) => Ok(Some(holds)),
        TermForm::Step(_, _, _, _) => Ok(Some(holds)),
        TermForm::StepPointer(_, _, _, _) => Ok(Some(holds)),
        TermForm::Struct(_) => Ok(Some(holds)),
        TermForm::Call(_, _, _) => Ok(Some(holds)),
        TermForm::Library(_, _, _) => Ok(Some(holds)),
    }
}

// An item that is no part of a condition stays.
fn meet_item<'a>(control: &mut Vec<Item7<'a>>, item: Item7<'a>) -> Result<Option<bool>, AllocError>
    ensures none { IfOk result (λ found. found ≡ None) }
    ensures pushed { (u : UnitView) → IfOk result (λ _. (standing u control.new.items).items ≡ (on_item u item.entry (standing u control.old.items)).items) }
{
    push_item(control, item)?;
    Ok(None)
}

fn meet_term<'a>(
    control: &mut Vec<Item7<'a>>,
    how: Use7,
    term: &'a CheckedTerm,
    holds: bool,
) -> Result<Option<bool>, AllocError>
    ensures met { (u : UnitView) → Meets u (λ s. on_term u how (term_tree term.now) s) holds control.old.items result control.new.items }
    ensures stays { IfOk result (λ found. Stays control.old.items found control.new.items) }
{
    match how {
        Use7::After(arm) => meet_arm(control, arm, term, holds),
        Use7::AndThen(is_test) => meet_and(control, is_test, term, holds),
        Use7::OrElse(is_test) => meet_or(control, is_test, term, holds),
        Use7::Pick => meet_pick(control, term, holds),
        Use7::Value => meet_item(control, Item7::Term(how, term)),
        Use7::Unused => meet_item(control, Item7::Term(how, term)),
        Use7::Choose(_) => meet_item(control, Item7::Term(how, term)),
    }
}

fn meet_statement<'a>(
    control: &mut Vec<Item7<'a>>,
    way: Way7,
    statement: &'a CheckedStatement,
    holds: bool,
) -> Result<Option<bool>, AllocError>
    ensures met { (u : UnitView) → Meets u (λ s. on_statement way (statement_tree statement.now) s) holds control.old.items result control.new.items }
    ensures stays { IfOk result (λ found. Stays control.old.items found control.new.items) }
{
    match way {
        Way7::After(next) => meet_next(control, next, statement, holds),
        Way7::Whole => meet_item(control, Item7::Statement(way, statement)),
        Way7::Turn => meet_item(control, Item7::Statement(way, statement)),
        Way7::Select => meet_item(control, Item7::Statement(way, statement)),
    }
}

// The entry behind a condition that holds or not.
fn meet<'a>(
    control: &mut Vec<Item7<'a>>,
    item: Item7<'a>,
    holds: bool,
) -> Result<Option<bool>, AllocError>
    ensures met { (u : UnitView) → Meets u (λ s. on_item u item.entry s) holds control.old.items result control.new.items }
    ensures stays { IfOk result (λ found. Stays control.old.items found control.new.items) }
{
    match item {
        Item7::AfterNothing => Ok(meet_nothing(control, holds)),
        Item7::AfterTruth(truth) => meet_truth(control, truth, holds),
        Item7::Negated => Ok(Some(!holds)),
        Item7::Term(how, term) => meet_term(control, how, term, holds),
        Item7::Statement(way, statement) => meet_statement(control, way, statement, holds),
        _ => meet_item(control, item),
    }
}

/// Pushes what follows a condition that holds or not, and takes away what does not follow.
pub fn follow<'a>(control: &mut Vec<Item7<'a>>, holds: bool) -> Result<(), AllocError>
    ensures { (u : UnitView) → IfOk result (λ _. (standing u control.new.items).items ≡ followed holds (standing u control.old.items)) }
{
    let mut held = holds;
    while let Some(item) = control.pop() {
        match meet(control, item, held)? {
            Some(other) => held = other,
            None => return Ok(()),
        }
    }
    Ok(())
}
