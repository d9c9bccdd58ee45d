//! Turns of the source: one item after the other. Those that are steps are counted.
ghost use Rattle.std.specs.Prelude.{◌≡◌, [], true, None, IfOk};
ghost use Rattle.c_layout.specs.CheckedTrees.{statement_tree};
ghost use Rattle.c_layout.specs.CheckedUnits.{UnitView, unit_view};
ghost use Rattle.c_layout.specs.Models.{is_model};
ghost use Rattle.interp_accesses.specs.WorldViews.{world_view};
ghost use Rattle.semantics.specs.SourceMachine.SourceRuns.{first_state};
ghost use Rattle.semantics.specs.SourceMachine.SourceSteps as machine;
ghost use Rattle.semantics.specs.SourceMachine.SourceSteps.{turn_by};
ghost use Rattle.interp_stack.specs.StackViews.{on_statement, standing};
ghost use Rattle.interp_stack.specs.declared.items.Way7.TheVariants as way;
ghost use Rattle.interp_steps.specs.MachineItems.MachineViews.{names_view, parameters_named, state_view, state_with};
ghost use Rattle.interp_steps.specs.MachineItems.Moves.{HeldAs, TurnsTo, turn_of};

use crate::machine::branch_turns::{choose, read_line, select};
use crate::machine::jump_turns::{break_out, go_to, next_turn};
use c_layout::{Checked, CheckedStatement};
use cc_base::Place;
use interp_accesses::{Cause, Halt, World7, truth_value};
use interp_stack::{Item7, Use7, Way7};
use interp_starts::inputs::entry_parameters;
use interp_statements::{push_body, push_loop, push_statement};
use interp_steps::machine_items::{
    Machine, Turned7, again, at_rest, back_to, bind_first, bind_parameter, change, drop_one,
    drop_value, end_body, enter_all, enter_below, first_statement, first_store, first_value, held,
    invoke, leave_all, leave_below, leave_function, leave_outcome, own_place, point_to,
    point_to_literal, point_to_outcome, quiet, set_name, step,
};
use interp_steps::operations::{perform, push_value};
use interp_terms::{push_address, push_term};
use std::alloc::{AllocError, Global};

// Other items in the place of one, or want of memory.
fn instead(pushed: Result<(), AllocError>) -> Turned7
    ensures reply { HeldAs pushed result.reply }
    ensures counted { result.counted ≡ None }
{
    quiet(held(pushed))
}

// What an item of a term does.
#[inline(always)]
fn act<'a>(m: &mut Machine<'a>, unit: &'a Checked, item: Item7<'a>) -> Turned7
    requires { is_model unit.now.model ≡ true }
    ensures { TurnsTo (unit_view unit.now) (turn_of (unit_view unit.now) item.entry m.old) result m.new }
{
    match item {
        Item7::Term(Use7::Value, term) => instead(push_term(&mut m.control, unit, term, true)),
        Item7::Term(Use7::Unused, term) => instead(push_term(&mut m.control, unit, term, false)),
        Item7::Values(terms) => first_value(m, unit, terms),
        Item7::Address(lvalue) => instead(push_address(&mut m.control, unit, lvalue)),
        Item7::Do(at, operation) => step(at, perform(&mut m.values, &mut m.world, unit, operation)),
        Item7::Truth(holds) => quiet(push_value(&mut m.values, truth_value(holds))),
        Item7::Again => quiet(again(m)),
        Item7::Drop => drop_value(m),
        Item7::Drops(count) => drop_one(m, count),
        Item7::Object(at, object, offset) => step(at, point_to(m, unit, object, offset)),
        Item7::Literal(at, index) => step(at, point_to_literal(m, unit, index)),
        Item7::Outcome(at) => step(at, point_to_outcome(m, unit)),
        _ => act_on_object(m, unit, item),
    }
}

// What an item of an object does.
#[inline(always)]
fn act_on_object<'a>(m: &mut Machine<'a>, unit: &'a Checked, item: Item7<'a>) -> Turned7
    requires { is_model unit.now.model ≡ true }
    ensures { TurnsTo (unit_view unit.now) (turn_of (unit_view unit.now) item.entry m.old) result m.new }
{
    match item {
        Item7::OnObject(at, local, how) => step(at, change(m, local, how)),
        Item7::Stores(at, local, stores) => first_store(m, unit, at, local, stores),
        Item7::Enters(objects) => enter_all(m, unit, objects),
        Item7::Leaves(objects) => leave_all(m, unit, objects),
        Item7::EntersBelow => enter_below(m, unit),
        Item7::LeavesBelow => leave_below(m, unit),
        Item7::Bind(at, local, depth) => step(at, bind_parameter(m, unit, local, depth)),
        Item7::Binds(at, local, left, count) => bind_first(m, unit, at, local, left, count),
        Item7::LeaveOutcome(at) => step(at, leave_outcome(m, unit)),
        _ => act_on_statement(m, unit, item),
    }
}

// The items of a statement.
fn do_statement<'a>(m: &mut Machine<'a>, unit: &Checked, statement: &'a CheckedStatement) -> Turned7
    ensures { TurnsTo (unit_view unit.now) (turn_by (unit_view unit.now) (state_view (unit_view unit.now) m.old) (on_statement way.Whole (statement_tree statement.now) (standing (unit_view unit.now) m.old.control.items)).items) result m.new }
{
    instead(push_statement(&mut m.control, m.frames.is_empty(), statement))
}

// The items of the next turn of a loop.
fn do_iteration<'a>(m: &mut Machine<'a>, unit: &Checked, statement: &'a CheckedStatement) -> Turned7
    ensures { TurnsTo (unit_view unit.now) (turn_by (unit_view unit.now) (state_view (unit_view unit.now) m.old) (on_statement way.Turn (statement_tree statement.now) (standing (unit_view unit.now) m.old.control.items)).items) result m.new }
{
    instead(push_loop(&mut m.control, statement))
}

// What an item of a statement does.
#[inline(always)]
fn act_on_statement<'a>(m: &mut Machine<'a>, unit: &'a Checked, item: Item7<'a>) -> Turned7
    ensures { TurnsTo (unit_view unit.now) (turn_of (unit_view unit.now) item.entry m.old) result m.new }
{
    match item {
        Item7::Term(Use7::Choose(is_test), term) => step(
            term.place,
            choose(m, unit, term, is_test),
        ),
        Item7::ReadLine(at, wants_line) => step(at, read_line(m, unit, wants_line)),
        Item7::Statement(Way7::Whole, statement) => do_statement(m, unit, statement),
        Item7::Statements(statements) => first_statement(m, statements),
        Item7::Statement(Way7::Turn, statement) => do_iteration(m, unit, statement),
        Item7::Statement(Way7::Select, statement) => select_at(m, unit, statement),
        Item7::IterationEnd => quiet(Ok(())),
        Item7::LoopEnd => quiet(Ok(())),
        _ => act_by_jump(m, unit, item),
    }
}

// What an item does that goes somewhere else.
#[inline(always)]
fn act_by_jump<'a>(m: &mut Machine<'a>, unit: &'a Checked, item: Item7<'a>) -> Turned7
    ensures { TurnsTo (unit_view unit.now) (turn_of (unit_view unit.now) item.entry m.old) result m.new }
{
    match item {
        Item7::Hop => step(own_place(m, unit), Ok(())),
        Item7::GoTo(label) => quiet(go_to(m, unit, label)),
        Item7::BreakOut => quiet(break_out(m)),
        Item7::NextIteration => quiet(next_turn(m)),
        Item7::LeaveFunction => quiet(leave_function(m, unit)),
        Item7::EndBody => quiet(end_body(m, unit)),
        Item7::Invoke(at, function, count, used) => {
            quiet(invoke(m, unit, at, function, count, used))
        }
        _ => quiet(Err(Halt::Memory)),
    }
}

// The newest value selects a label.
fn select_at<'a>(m: &mut Machine<'a>, unit: &'a Checked, statement: &'a CheckedStatement) -> Turned7
    ensures { TurnsTo (unit_view unit.now) (turn_by (unit_view unit.now) (state_view (unit_view unit.now) m.old) (on_statement way.Select (statement_tree statement.now) (standing (unit_view unit.now) m.old.control.items)).items) result m.new }
{
    match statement {
        CheckedStatement::Switch(at, _, _, _, _, _) => step(*at, select(m, unit, statement)),
        _ => quiet(Err(Halt::Memory)),
    }
}

// A function has nothing left to do: the one that waits goes on, and the run ends where none waits.
fn return_to(m: &mut Machine, unit: &Checked) -> Turned7
    ensures { TurnsTo (unit_view unit.now) (machine.return_to (unit_view unit.now) (state_view (unit_view unit.now) m.old) (state_view (unit_view unit.now) m.old).frames) result m.new }
{
    match m.frames.pop() {
        None => step(own_place(m, unit), Err(Halt::Stops(Cause::Ended))),
        Some(caller) => {
            back_to(m, caller);
            quiet(Ok(()))
        }
    }
}

/// A turn with the item that comes next, or with none. It begins with no violation of its own.
#[inline(always)]
pub fn turn<'a>(m: &mut Machine<'a>, unit: &'a Checked, item: Option<Item7<'a>>) -> Turned7
    requires { is_model unit.now.model ≡ true }
    ensures { TurnsTo (unit_view unit.now) (machine.turn (unit_view unit.now) (state_with (unit_view unit.now) item.entry m.old)) result m.new }
{
    m.world.violated.clear();
    match item {
        None => return_to(m, unit),
        Some(item) => act(m, unit, item),
    }
}

// The entry's parameters name their instances.
fn name_parameters(names: &mut Vec<Option<u32>>, unit: &Checked, count: usize) -> Result<(), Halt>
    requires { names.old.items ≡ [] }
    ensures { IfOk result (λ _. names_view names.new.items ≡ parameters_named (unit_view unit.now) count) }
{
    let first = unit.objects.len() as u64 + unit.literals.len() as u64;
    for k in 0..count {
        let Ok(local) = u32::try_from(k) else {
            return Err(Halt::Memory);
        };
        let Ok(inst) = u32::try_from(first.saturating_add(k as u64)) else {
            return Err(Halt::Memory);
        };
        set_name(names, local, Some(inst))?;
    }
    Ok(())
}

/// The machine before the first turn, in the world in which a run begins.
pub fn begin<'a>(alloc: Global, unit: &'a Checked, world: World7) -> Result<Machine<'a>, Halt>
    ensures { IfOk result (λ m. state_view (unit_view unit.now) m ≡ first_state (unit_view unit.now) (world_view world)) }
{
    let mut m = at_rest(alloc, unit.entry, world);
    name_parameters(&mut m.names, unit, entry_parameters(unit).len())?;
    match unit.functions.get(unit.entry as usize) {
        Some(function) => match push_body(&mut m.control, function) {
            Ok(()) => Ok(m),
            Err(_) => Err(Halt::Memory),
        },
        None => Ok(m),
    }
}
