//! Calls of functions of the unit, and returns from them.
ghost use Rattle.std.specs.Prelude.{◌≡◌, ◌<◌, ◌∷◌, ◌++◌, [], map, replicate, reverse, slice_get, IfOk};
ghost use Rattle.c_layout.specs.CheckedUnits.{UnitView, unit_view, function_view};
ghost use Rattle.c_layout.specs.declared.checked_tree.checked_terms.ObjectRef.TheVariants.{Local};
ghost use Rattle.lower_functions.specs.Functions.Functions.{numbers_from};
ghost use Rattle.interp_library.specs.Calls.Results.{result_view};
ghost use Rattle.semantics.specs.SourceMachine.CallSteps as machine;
ghost use Rattle.semantics.specs.SourceMachine.Items as item;
ghost use Rattle.semantics.specs.SourceMachine.Scopes.{open_scopes, all_of};
ghost use Rattle.semantics.specs.SourceMachine.SourceStates.{result_object};
ghost use Rattle.semantics.specs.SourceMachine.StatementItems.{body};
ghost use Rattle.interp_stack.specs.ItemViews.{bindings};
ghost use Rattle.interp_stack.specs.StackViews.{standing, with_items, added, Stacks};
ghost use Rattle.interp_steps.specs.MachineItems.MachineViews.{frame_view, state_view, hop_if};
ghost use Rattle.interp_steps.specs.MachineItems.Moves.{Moves};
ghost use Rattle.interp_steps.specs.Operations.Pending.{pending};

use crate::machine_items::machines::{Frame7, Machine, function_at, local_type, result_object};
use crate::operations::{pop_value, store_to};
use c_layout::{Checked, Function};
use cc_base::Place;
use interp_accesses::{Cause, Halt};
use interp_memory::Value7;
use interp_stack::{Item7, Operation7, open_scopes, push_item, push_objects};
use interp_statements::push_body;
use lower_templates::worklist::{is_void, scalar};
use std::alloc::{AllocError, Global};
use std::mem;

// ---- calls

// The arguments are stored in the parameters, then the body is done.
fn push_bound<'a>(
    control: &mut Vec<Item7<'a>>,
    function: &'a Function,
    count: usize,
) -> Result<(), AllocError>
    ensures { (u : UnitView) → Stacks u (λ s. with_items (machine.bind_all (function_view function.now) count (numbers_from 0 (function_view function.now).parameters) ++ (replicate count item.Drop ++ body (function_view function.now))) s) control.old.items result control.new.items }
{
    push_body(control, function)?;
    push_item(control, Item7::Drops(count))?;
    push_item(
        control,
        Item7::Binds(function.place, 0, function.parameters, count),
    )?;
    Ok(())
}

// The object of the result, where there is one.
fn push_result<'a>(
    control: &mut Vec<Item7<'a>>,
    function: &Function,
    outcome: u32,
) -> Result<(), AllocError>
    requires { outcome ≡ result_object (function_view function.now) }
    ensures items { (u : UnitView) → IfOk result (λ _. (standing u control.new.items).items ≡ (standing u control.old.items).items) }
    ensures objects { (u : UnitView) → IfOk result (λ _. (standing u control.new.items).objects ≡ machine.with_result (function_view function.now) [] ++ (standing u control.old.items).objects) }
{
    if is_void(&function.result) {
        return Ok(());
    }
    push_item(control, Item7::Also(outcome))?;
    Ok(())
}

// All parameters and the result are entered, then the arguments are stored, then the body is done.
fn push_prologue<'a>(
    control: &mut Vec<Item7<'a>>,
    function: &'a Function,
    outcome: u32,
    count: usize,
) -> Result<(), AllocError>
    requires { outcome ≡ result_object (function_view function.now) }
    ensures { (u : UnitView) → Stacks u (λ s. with_items (machine.prologue (function_view function.now) count ++ body (function_view function.now)) s) control.old.items result control.new.items }
{
    push_bound(control, function, count)?;
    push_result(control, function, outcome)?;
    push_item(control, Item7::AlsoFrom(0, function.parameters))?;
    push_item(control, Item7::EntersBelow)?;
    Ok(())
}

/// A function is called with so many of the newest values.
pub fn invoke<'a>(
    m: &mut Machine<'a>,
    unit: &'a Checked,
    at: Place,
    number: u32,
    count: usize,
    used: bool,
) -> Result<(), Halt>
    ensures { Moves (unit_view unit.now) (machine.invoke (unit_view unit.now) (state_view (unit_view unit.now) m.old) at number count used) result m.new }
{
    let function = function_at(unit, number)?;
    let outcome = result_object(function)?;
    let alloc = m.world.alloc;
    let mut control = Vec::new(alloc);
    let Ok(()) = push_prologue(&mut control, function, outcome, count) else {
        return Err(Halt::Memory);
    };
    let caller = Frame7 {
        function: m.function,
        names: mem::replace(&mut m.names, Vec::new(alloc)),
        control: mem::replace(&mut m.control, control),
        at,
        used,
    };
    m.function = number;
    match m.frames.push(caller) {
        Ok(()) => Ok(()),
        Err(_) => Err(Halt::Memory),
    }
}

/// The arguments are stored in parameters, from one on: the first step of the first store.
pub fn push_binds(
    control: &mut Vec<Item7>,
    at: Place,
    local: u32,
    left: u32,
    count: usize,
) -> Result<(), AllocError>
    requires { 0 < left }
    ensures { (u : UnitView) → IfOk result (λ _. item.Object at (Local local) 0 ∷ (standing u control.new.items).items ≡ bindings at count (numbers_from local left) ++ (standing u control.old.items).items) }
{
    match local.checked_add(1) {
        Some(next) => {
            if left > 1 {
                push_item(control, Item7::Binds(at, next, left - 1, count))?;
            }
            let depth = (count as u64).saturating_sub(u64::from(next));
            push_item(control, Item7::Bind(at, local, depth))?;
            Ok(())
        }
        None => Err(AllocError),
    }
}

// The value so far below the newest.
fn value_below(values: &[Value7], depth: u64) -> Option<Value7>
    ensures { result_view result ≡ slice_get (pending values.now) depth }
{
    let above = values.len() as u64;
    if depth < above {
        Some(values[(above - 1 - depth) as usize])
    } else {
        None
    }
}

/// The newest value is the pointer to a parameter, where the value so far below it is stored.
pub fn bind_parameter(m: &mut Machine, unit: &Checked, local: u32, depth: u64) -> Result<(), Halt>
    ensures { Moves (unit_view unit.now) (machine.bind_parameter (unit_view unit.now) (state_view (unit_view unit.now) m.old) local depth) result m.new }
{
    let function = function_at(unit, m.function)?;
    let at = pop_value(&mut m.values)?;
    match value_below(m.values.as_slice(), depth) {
        None => Err(Halt::Stops(Cause::Stuck)),
        Some(value) => {
            let kind = scalar(local_type(function, local));
            store_to(&mut m.world, unit, kind, at, value)?;
            Ok(())
        }
    }
}

// ---- returns

// The result is loaded where the call's value is used.
fn push_loaded<'a>(
    control: &mut Vec<Item7<'a>>,
    function: &Function,
    at: Place,
    used: bool,
) -> Result<(), AllocError>
    ensures { (u : UnitView) → Stacks u (λ s. added (machine.result_loaded (function_view function.now) at used) s) control.old.items result control.new.items }
{
    if !used {
        return Ok(());
    }
    push_item(
        control,
        Item7::Do(at, Operation7::Load(scalar(&function.result))),
    )?;
    push_item(control, Item7::Outcome(at))?;
    Ok(())
}

// And its object is left in any case.
fn push_epilogue<'a>(
    control: &mut Vec<Item7<'a>>,
    function: &Function,
    caller: &Frame7,
) -> Result<(), AllocError>
    ensures { (u : UnitView) → Stacks u (λ s. added (machine.epilogue (function_view function.now) (frame_view u caller.now)) s) control.old.items result control.new.items }
{
    if is_void(&function.result) {
        return Ok(());
    }
    push_item(control, Item7::LeaveOutcome(caller.at))?;
    push_loaded(control, function, caller.at, caller.used)?;
    Ok(())
}

// A step without effect, or none.
fn push_hop_if(control: &mut Vec<Item7>, hops: bool) -> Result<(), AllocError>
    ensures { (u : UnitView) → Stacks u (λ s. added (hop_if hops) s) control.old.items result control.new.items }
{
    if !hops {
        return Ok(());
    }
    push_item(control, Item7::Hop)?;
    Ok(())
}

// What follows the body of a function that was called.
fn push_behind_call<'a>(
    control: &mut Vec<Item7<'a>>,
    function: &Function,
    hops: bool,
    caller: &Frame7,
) -> Result<(), AllocError>
    requires { control.old.items ≡ [] }
    ensures { (u : UnitView) → Stacks u (λ s. with_items (machine.behind_body (function_view function.now) (hop_if hops) (frame_view u caller.now ∷ [])) s) control.old.items result control.new.items }
{
    push_epilogue(control, function, caller)?;
    push_hop_if(control, hops)?;
    push_item(control, Item7::AlsoFrom(0, function.parameters))?;
    push_item(control, Item7::LeavesBelow)?;
    Ok(())
}

// A function that was called leaves its parameters; a return goes to the end of the function.
fn push_behind_body<'a>(
    control: &mut Vec<Item7<'a>>,
    function: &Function,
    hops: bool,
    callers: &[Frame7],
) -> Result<(), AllocError>
    requires { control.old.items ≡ [] }
    ensures { (u : UnitView) → Stacks u (λ s. added (machine.behind_body (function_view function.now) (hop_if hops) (reverse (map (frame_view u) callers.now))) s) control.old.items result control.new.items }
{
    match callers.last() {
        None => Ok(()),
        Some(caller) => {
            push_behind_call(control, function, hops, caller)?;
            Ok(())
        }
    }
}

// The objects of scopes are left.
fn push_scopes(control: &mut Vec<Item7>, scopes: &[Vec<u32>]) -> Result<(), AllocError>
    ensures { (u : UnitView) → IfOk result (λ _. (standing u control.new.items).items ≡ item.Leaves (all_of (map (λ scope. scope.items) scopes.now) ++ (standing u control.old.items).objects) ∷ (standing u control.old.items).items) }
{
    let mut k = scopes.len();
    'back: while k > 0 {
        k -= 1;
        push_objects(control, scopes[k].as_slice())?;
    }
    push_item(control, Item7::LeavesBelow)?;
    Ok(())
}

// All blocks are left, innermost first, and then the function.
fn leave_blocks<'a>(
    alloc: Global,
    control: &mut Vec<Item7<'a>>,
    function: &Function,
    callers: &[Frame7],
) -> Result<(), AllocError>
    ensures { (u : UnitView) → IfOk result (λ _. (standing u control.new.items).items ≡ item.Leaves (all_of (open_scopes (standing u control.old.items).items)) ∷ machine.behind_body (function_view function.now) (item.Hop ∷ []) (reverse (map (frame_view u) callers.now))) }
{
    let scopes = open_scopes(alloc, control.as_slice())?;
    control.clear();
    push_behind_body(control, function, true, callers)?;
    push_scopes(control, scopes.as_slice())?;
    Ok(())
}

/// At a return all blocks are left, innermost first.
pub fn leave_function(m: &mut Machine, unit: &Checked) -> Result<(), Halt>
    ensures { Moves (unit_view unit.now) (machine.leave_function (unit_view unit.now) (state_view (unit_view unit.now) m.old)) result m.new }
{
    let function = function_at(unit, m.function)?;
    match leave_blocks(m.world.alloc, &mut m.control, function, m.frames.as_slice()) {
        Ok(()) => Ok(()),
        Err(_) => Err(Halt::Memory),
    }
}

/// The body of a function ends.
pub fn end_body(m: &mut Machine, unit: &Checked) -> Result<(), Halt>
    ensures { Moves (unit_view unit.now) (machine.end_body (unit_view unit.now) (state_view (unit_view unit.now) m.old)) result m.new }
{
    let function = function_at(unit, m.function)?;
    m.control.clear();
    match push_behind_body(&mut m.control, function, false, m.frames.as_slice()) {
        Ok(()) => Ok(()),
        Err(_) => Err(Halt::Memory),
    }
}

/// The function that waits goes on.
pub fn back_to<'a>(m: &mut Machine<'a>, caller: Frame7<'a>)
    ensures { (u : UnitView) → state_view u m.new ≡ machine.back_to (state_view u m.old) (frame_view u caller.entry) (state_view u m.old).frames }
{
    m.function = caller.function;
    m.names = caller.names;
    m.control = caller.control;
}
