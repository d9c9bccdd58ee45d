//! Turns that put the parts of an item in its place, one after the other.
ghost use Rattle.std.specs.Prelude.{◌≡◌, ◌∷◌, ◌++◌, [], replicate, true, map, Some, None, IfOk};
ghost use Rattle.c_layout.specs.CheckedTrees.{term_trees, term_tree, statement_tree, store_tree};
ghost use Rattle.c_layout.specs.CheckedUnits.{UnitView, unit_view};
ghost use Rattle.c_layout.specs.Models.{is_model};
ghost use Rattle.lower_functions.specs.Functions.Functions.{numbers_from};
ghost use Rattle.semantics.specs.SourceMachine.Items as item;
ghost use Rattle.semantics.specs.SourceMachine.SourceSteps as machine;
ghost use Rattle.semantics.specs.SourceMachine.StatementItems.{of_statement, list_statements, all_stored};
ghost use Rattle.semantics.specs.SourceMachine.ConditionItems.{term_items};
ghost use Rattle.semantics.specs.SourceMachine.TermItems.{arguments};
ghost use Rattle.interp_stack.specs.ItemViews.{bindings};
ghost use Rattle.interp_stack.specs.StackViews.{with_items, standing, Stacks};
ghost use Rattle.interp_steps.specs.MachineItems.MachineViews.{state_view};
ghost use Rattle.interp_steps.specs.MachineItems.Moves.{Moves, TurnsTo, HeldAs, turn_with};

use crate::machine_items::call_turns::push_binds;
use crate::machine_items::machines::Machine;
use crate::machine_items::object_turns::{enter_object, leave_object, next_object, point_to};
use crate::machine_items::store_turns::begin_store;
use crate::operations::{pop_value, push_value};
use c_layout::{Checked, CheckedStatement, CheckedTerm, InitStore, ObjectRef};
use cc_base::Place;
use interp_accesses::Halt;
use interp_stack::{Item7, push_item};
use interp_statements::{push_statement, push_statements};
use interp_terms::push_term;
use std::alloc::AllocError;

/// What a turn comes to, and the place of its step, where it is one.
#[derive(Clone, Copy)]
pub struct Turned7 {
    pub reply: Result<(), Halt>,
    pub counted: Option<Place>,
}

/// A turn that is no step.
#[inline(always)]
pub fn quiet(reply: Result<(), Halt>) -> Turned7
    ensures { result ≡ record { reply = reply; counted = None } }
{
    Turned7 {
        reply,
        counted: None,
    }
}

/// A step at a place.
#[inline(always)]
pub fn step(at: Place, reply: Result<(), Halt>) -> Turned7
    ensures { result ≡ record { reply = reply; counted = Some at } }
{
    Turned7 {
        reply,
        counted: Some(at),
    }
}

/// What a list has taken in, or want of memory.
#[inline(always)]
pub fn held(pushed: Result<(), AllocError>) -> Result<(), Halt>
    ensures { HeldAs pushed result }
{
    match pushed {
        Ok(()) => Ok(()),
        Err(_) => Err(Halt::Memory),
    }
}

// ---- values

fn push_values<'a>(
    control: &mut Vec<Item7<'a>>,
    unit: &Checked,
    first: &'a CheckedTerm,
    rest: &'a [CheckedTerm],
) -> Result<(), AllocError>
    ensures { Stacks (unit_view unit.now) (λ s. with_items (term_items (unit_view unit.now) true (term_tree first.now) ++ arguments (term_trees (map term_tree rest.now))) s) control.old.items result control.new.items }
{
    push_item(control, Item7::Values(rest))?;
    push_term(control, unit, first, true)
}

/// The first of some terms gives its value.
pub fn first_value<'a>(m: &mut Machine<'a>, unit: &Checked, terms: &'a [CheckedTerm]) -> Turned7
    ensures { TurnsTo (unit_view unit.now) (turn_with (unit_view unit.now) (arguments (term_trees (map term_tree terms.now))) m.old) result m.new }
{
    match terms {
        [first, rest @ ..] => quiet(held(push_values(&mut m.control, unit, first, rest))),
        [] => quiet(Err(Halt::Memory)),
    }
}

/// The newest value comes again.
pub fn again(m: &mut Machine) -> Result<(), Halt>
    ensures { (u : UnitView) → Moves u (machine.again (state_view u m.old) (state_view u m.old).values) result m.new }
{
    let value = pop_value(&mut m.values)?;
    push_value(&mut m.values, value)?;
    push_value(&mut m.values, value)
}

/// The newest value, where there is one, comes to nothing.
pub fn drop_value(m: &mut Machine) -> Turned7
    ensures { (u : UnitView) → TurnsTo u (turn_with u (item.Drop ∷ []) m.old) result m.new }
{
    let _ = m.values.pop();
    quiet(Ok(()))
}

/// So do so many.
pub fn drop_one(m: &mut Machine, count: usize) -> Turned7
    ensures { (u : UnitView) → TurnsTo u (turn_with u (replicate count item.Drop) m.old) result m.new }
{
    if count == 0 {
        return quiet(Err(Halt::Memory));
    }
    match push_item(&mut m.control, Item7::Drops(count - 1)) {
        Ok(()) => drop_value(m),
        Err(_) => quiet(Err(Halt::Memory)),
    }
}

// ---- objects

/// Steps that have no place in the source have that of their function.
pub fn own_place(m: &Machine, unit: &Checked) -> Place
    ensures { result ≡ machine.own_place (unit_view unit.now) (state_view (unit_view unit.now) m.now) }
{
    match unit.functions.get(m.function as usize) {
        Some(function) => function.place,
        None => Place {
            file: 0,
            line: 0,
            col: 0,
        },
    }
}

/// The first of some objects is entered.
pub fn enter_all<'a>(m: &mut Machine<'a>, unit: &Checked, objects: &'a [u32]) -> Turned7
    requires { is_model unit.now.model ≡ true }
    ensures { TurnsTo (unit_view unit.now) (turn_with (unit_view unit.now) (item.Enters objects.now ∷ []) m.old) result m.new }
{
    match objects {
        [first, rest @ ..] => {
            let at = own_place(m, unit);
            match push_item(&mut m.control, Item7::Enters(rest)) {
                Ok(()) => step(at, enter_object(m, unit, *first)),
                Err(_) => step(at, Err(Halt::Memory)),
            }
        }
        [] => quiet(Ok(())),
    }
}

/// The first object of the entries below is entered.
pub fn enter_below(m: &mut Machine, unit: &Checked) -> Turned7
    requires { is_model unit.now.model ≡ true }
    ensures { TurnsTo (unit_view unit.now) (turn_with (unit_view unit.now) (item.Enters (standing (unit_view unit.now) m.old.control.items).objects ∷ []) m.old) result m.new }
{
    match next_object(&mut m.control) {
        Ok(None) => quiet(Ok(())),
        Ok(Some(object)) => {
            let at = own_place(m, unit);
            match push_item(&mut m.control, Item7::EntersBelow) {
                Ok(()) => step(at, enter_object(m, unit, object)),
                Err(_) => step(at, Err(Halt::Memory)),
            }
        }
        Err(halt) => quiet(Err(halt)),
    }
}

/// The first of some objects ends.
pub fn leave_all<'a>(m: &mut Machine<'a>, unit: &Checked, objects: &'a [u32]) -> Turned7
    ensures { TurnsTo (unit_view unit.now) (turn_with (unit_view unit.now) (item.Leaves objects.now ∷ []) m.old) result m.new }
{
    match objects {
        [first, rest @ ..] => {
            let at = own_place(m, unit);
            match push_item(&mut m.control, Item7::Leaves(rest)) {
                Ok(()) => step(at, leave_object(m, *first)),
                Err(_) => step(at, Err(Halt::Memory)),
            }
        }
        [] => quiet(Ok(())),
    }
}

/// The first object of the entries below ends.
pub fn leave_below(m: &mut Machine, unit: &Checked) -> Turned7
    ensures { TurnsTo (unit_view unit.now) (turn_with (unit_view unit.now) (item.Leaves (standing (unit_view unit.now) m.old.control.items).objects ∷ []) m.old) result m.new }
{
    match next_object(&mut m.control) {
        Ok(None) => quiet(Ok(())),
        Ok(Some(object)) => {
            let at = own_place(m, unit);
            match push_item(&mut m.control, Item7::LeavesBelow) {
                Ok(()) => step(at, leave_object(m, object)),
                Err(_) => step(at, Err(Halt::Memory)),
            }
        }
        Err(halt) => quiet(Err(halt)),
    }
}

/// The first of some stores of an initializer begins.
pub fn first_store<'a>(
    m: &mut Machine<'a>,
    unit: &Checked,
    at: Place,
    local: u32,
    stores: &'a [InitStore],
) -> Turned7
    ensures { TurnsTo (unit_view unit.now) (turn_with (unit_view unit.now) (all_stored at local (map store_tree stores.now)) m.old) result m.new }
{
    match stores {
        [first, rest @ ..] => match push_item(&mut m.control, Item7::Stores(at, local, rest)) {
            Ok(()) => step(at, begin_store(m, unit, at, local, first)),
            Err(_) => quiet(Err(Halt::Memory)),
        },
        [] => quiet(Err(Halt::Memory)),
    }
}

// ---- statements

fn push_first<'a>(
    control: &mut Vec<Item7<'a>>,
    is_entry: bool,
    first: &'a CheckedStatement,
    rest: &'a [CheckedStatement],
) -> Result<(), AllocError>
    ensures { (u : UnitView) → IfOk result (λ _. (standing u control.new.items).items ≡ of_statement u is_entry (statement_tree first.now) ++ (list_statements (map statement_tree rest.now) ++ (standing u control.old.items).items)) }
{
    push_statements(control, rest)?;
    push_statement(control, is_entry, first)?;
    Ok(())
}

/// The first of some statements is done.
pub fn first_statement<'a>(m: &mut Machine<'a>, statements: &'a [CheckedStatement]) -> Turned7
    ensures { (u : UnitView) → TurnsTo u (turn_with u (list_statements (map statement_tree statements.now)) m.old) result m.new }
{
    let is_entry = m.frames.is_empty();
    match statements {
        [first, rest @ ..] => quiet(held(push_first(&mut m.control, is_entry, first, rest))),
        [] => quiet(Err(Halt::Memory)),
    }
}

// ---- calls

/// The first of some arguments is stored in its parameter: the pointer to it.
pub fn bind_first(
    m: &mut Machine,
    unit: &Checked,
    at: Place,
    local: u32,
    left: u32,
    count: usize,
) -> Turned7
    ensures { TurnsTo (unit_view unit.now) (turn_with (unit_view unit.now) (bindings at count (numbers_from local left)) m.old) result m.new }
{
    if left == 0 {
        return quiet(Err(Halt::Memory));
    }
    match push_binds(&mut m.control, at, local, left, count) {
        Ok(()) => step(at, point_to(m, unit, ObjectRef::Local(local), 0)),
        Err(_) => quiet(Err(Halt::Memory)),
    }
}
