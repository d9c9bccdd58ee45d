//! Turns that go somewhere else in a function.
ghost use Rattle.std.specs.Prelude.{◌≡◌, IfOk};
ghost use Rattle.c_layout.specs.CheckedUnits.{UnitView, unit_view, function_view};
ghost use Rattle.semantics.specs.SourceMachine.LabelSearch.{from_label};
ghost use Rattle.semantics.specs.SourceMachine.ObjectSteps.{on};
ghost use Rattle.semantics.specs.SourceMachine.Scopes as scopes;
ghost use Rattle.semantics.specs.SourceMachine.SourceSteps as machine;
ghost use Rattle.interp_stack.specs.StackViews.{standing};
ghost use Rattle.interp_steps.specs.MachineItems.MachineViews.{state_view};
ghost use Rattle.interp_steps.specs.MachineItems.Moves.{JumpsTo, Moves};

use c_layout::{Checked, Function};
use interp_accesses::{Cause, Halt};
use interp_stack::{Item7, drop_loop, drop_turn, jump, open_scopes};
use interp_statements::{find_label, has_label};
use interp_steps::machine_items::{Machine, function_at};
use std::alloc::{AllocError, Global};

// Where a function goes on behind a jump to one of its labels.
fn jump_to_label<'a>(
    alloc: Global,
    control: &mut Vec<Item7<'a>>,
    function: &'a Function,
    label: u32,
) -> Result<(), AllocError>
    ensures { (u : UnitView) → IfOk result (λ _. JumpsTo (from_label u (function_view function.now) label) (standing u control.old.items).items (standing u control.new.items).items) }
{
    let from = open_scopes(alloc, control.as_slice())?;
    control.clear();
    find_label(control, function, label)?;
    jump(alloc, control, from.as_slice())?;
    Ok(())
}

/// `goto`
pub fn go_to<'a>(m: &mut Machine<'a>, unit: &'a Checked, label: u32) -> Result<(), Halt>
    ensures { Moves (unit_view unit.now) (machine.go_to (unit_view unit.now) (state_view (unit_view unit.now) m.old) label) result m.new }
{
    let function = function_at(unit, m.function)?;
    if !has_label(function, label) {
        return Err(Halt::Stops(Cause::Stuck));
    }
    match jump_to_label(m.world.alloc, &mut m.control, function, label) {
        Ok(()) => Ok(()),
        Err(_) => Err(Halt::Memory),
    }
}

fn jump_behind_loop(alloc: Global, control: &mut Vec<Item7>) -> Result<(), AllocError>
    ensures { (u : UnitView) → IfOk result (λ _. (standing u control.new.items).items ≡ scopes.jump (standing u control.old.items).items (scopes.past_loop (standing u control.old.items).items)) }
{
    let from = open_scopes(alloc, control.as_slice())?;
    drop_loop(control);
    jump(alloc, control, from.as_slice())
}

fn jump_behind_turn(alloc: Global, control: &mut Vec<Item7>) -> Result<(), AllocError>
    ensures { (u : UnitView) → IfOk result (λ _. (standing u control.new.items).items ≡ scopes.jump (standing u control.old.items).items (scopes.past_iteration (standing u control.old.items).items)) }
{
    let from = open_scopes(alloc, control.as_slice())?;
    drop_turn(control);
    jump(alloc, control, from.as_slice())
}

/// `break`
pub fn break_out(m: &mut Machine) -> Result<(), Halt>
    ensures { (u : UnitView) → Moves u (on (machine.jump_to (state_view u m.old) (scopes.past_loop (state_view u m.old).control))) result m.new }
{
    match jump_behind_loop(m.world.alloc, &mut m.control) {
        Ok(()) => Ok(()),
        Err(_) => Err(Halt::Memory),
    }
}

/// `continue`
pub fn next_turn(m: &mut Machine) -> Result<(), Halt>
    ensures { (u : UnitView) → Moves u (on (machine.jump_to (state_view u m.old) (scopes.past_iteration (state_view u m.old).control))) result m.new }
{
    match jump_behind_turn(m.world.alloc, &mut m.control) {
        Ok(()) => Ok(()),
        Err(_) => Err(Halt::Memory),
    }
}
