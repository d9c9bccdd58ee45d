//! Turns on objects: their pointers, their lifetimes, and what declarations do to them.
ghost use Rattle.std.specs.Prelude.{◌≡◌, [], ◌++◌, true, None, IfOk, IfErr};
ghost use Rattle.c_layout.specs.CheckedUnits.{UnitView, unit_view, function_view};
ghost use Rattle.c_layout.specs.Models.{is_model};
ghost use Rattle.lower_functions.specs.Functions.Functions.{numbers_from};
ghost use Rattle.interp_memory.specs.ByteViews.{scalar_view};
ghost use Rattle.memory_model.specs.Memory.Bytes.{into};
ghost use Rattle.memory_model.specs.Memory.Scalars.{pointer};
ghost use Rattle.interp_accesses.specs.declared.worlds.Halt.TheVariants as halt;
ghost use Rattle.semantics.specs.SourceMachine.ObjectSteps as machine;
ghost use Rattle.semantics.specs.SourceMachine.CallSteps as calls;
ghost use Rattle.interp_stack.specs.ItemViews.{change_view};
ghost use Rattle.interp_stack.specs.StackViews.{StackView, on_item, standing};
ghost use Rattle.interp_steps.specs.MachineItems.MachineViews.{state_view, with_next};
ghost use Rattle.interp_steps.specs.MachineItems.Moves.{Moves};

use crate::machine_items::machines::{
    Machine, function_at, instance_of, local_type, name_of, named, result_object, set_name, type_of,
};
use crate::operations::push_value;
use c_layout::{Checked, Function, ObjectRef, type_bytes};
use interp_accesses::{Cause, Halt, clear, enter, forget, leave};
use interp_memory::{Pointer7, Value7};
use interp_stack::{Change7, Item7, Use7, Way7, push_item};
use interp_starts::starts::{layout_of, literal_instance, literal_size};

// A pointer to a byte of an instance, into the whole of its object.
fn pointer_into(inst: u32, offset: u64, size: u64) -> Value7
    ensures { scalar_view result ≡ pointer (into inst offset 0 size) }
{
    Value7::Ptr(Pointer7::At {
        inst,
        off: offset,
        lo: 0,
        hi: size,
    })
}

/// A pointer to a byte of an object, into the whole of it.
#[inline(always)]
pub fn point_to(m: &mut Machine, unit: &Checked, object: ObjectRef, offset: u64) -> Result<(), Halt>
    ensures { Moves (unit_view unit.now) (machine.point_to (unit_view unit.now) (state_view (unit_view unit.now) m.old) object offset) result m.new }
{
    let t = type_of(unit, m.function, object)?;
    let inst = instance_of(m.names.as_slice(), object)?;
    match type_bytes(t, &unit.structs, unit.model.pointer) {
        Ok(size) => push_value(&mut m.values, pointer_into(inst, offset, size)),
        Err(_) => Err(Halt::Memory),
    }
}

/// A pointer to the first byte of a literal.
pub fn point_to_literal(m: &mut Machine, unit: &Checked, index: u32) -> Result<(), Halt>
    ensures { Moves (unit_view unit.now) (machine.point_to_literal (unit_view unit.now) (state_view (unit_view unit.now) m.old) index) result m.new }
{
    match unit.literals.get(index as usize) {
        None => Err(Halt::Stops(Cause::Stuck)),
        Some(literal) => match literal_instance(unit, index) {
            None => Err(Halt::Memory),
            Some(inst) => push_value(&mut m.values, pointer_into(inst, 0, literal_size(literal))),
        },
    }
}

/// A pointer to the object of the result.
pub fn point_to_outcome(m: &mut Machine, unit: &Checked) -> Result<(), Halt>
    ensures { Moves (unit_view unit.now) (machine.point_to_outcome (unit_view unit.now) (state_view (unit_view unit.now) m.old)) result m.new }
{
    let number = result_object(function_at(unit, m.function)?)?;
    point_to(m, unit, ObjectRef::Local(number), 0)
}

// ---- lifetimes

// A fresh instance of an object of a function, which its name stands for from now on.
fn enter_fresh(m: &mut Machine, unit: &Checked, function: &Function, local: u32) -> Result<(), Halt>
    requires { is_model unit.now.model ≡ true }
    ensures { Moves (unit_view unit.now) (machine.on (machine.enter_fresh (unit_view unit.now) (state_view (unit_view unit.now) m.old) local (function_view function.now))) result m.new }
{
    if !m.world.memory.is_under(&unit.model) {
        return Err(Halt::Memory);
    }
    let t = local_type(function, local);
    let layout = layout_of(m.world.alloc, t, &unit.structs, &unit.model)?;
    let inst = enter(&mut m.world, layout.leaves.as_slice(), layout.size)?;
    set_name(&mut m.names, local, Some(inst))
}

/// An object that is not there gets a fresh instance, which its name stands for from now on.
pub fn enter_object(m: &mut Machine, unit: &Checked, local: u32) -> Result<(), Halt>
    requires { is_model unit.now.model ≡ true }
    ensures { Moves (unit_view unit.now) (machine.enter (unit_view unit.now) (state_view (unit_view unit.now) m.old) local) result m.new }
{
    match name_of(m.names.as_slice(), local) {
        Some(_) => Err(Halt::Stops(Cause::Stuck)),
        None => {
            let function = function_at(unit, m.function)?;
            enter_fresh(m, unit, function, local)
        }
    }
}

/// The object that a name stands for ends.
pub fn leave_object(m: &mut Machine, local: u32) -> Result<(), Halt>
    ensures { (u : UnitView) → Moves u (machine.leave (state_view u m.old) local) result m.new }
{
    let inst = named(m.names.as_slice(), local)?;
    leave(&mut m.world, inst);
    set_name(&mut m.names, local, None)
}

/// The object of the result ends.
pub fn leave_outcome(m: &mut Machine, unit: &Checked) -> Result<(), Halt>
    ensures { Moves (unit_view unit.now) (calls.leave_outcome (unit_view unit.now) (state_view (unit_view unit.now) m.old)) result m.new }
{
    let number = result_object(function_at(unit, m.function)?)?;
    leave_object(m, number)
}

// ---- objects of the entries below

/// Whether an entry of a list of items ends the objects that one above it enters or leaves.
pub fn ends_objects(item: &Item7) -> bool
    ensures { (u : UnitView) (s : StackView) → result ≡ true → (on_item u item.now s).objects ≡ [] }
{
    match item {
        Item7::AfterNothing => false,
        Item7::AfterTruth(_) => false,
        Item7::Negated => false,
        Item7::Term(Use7::After(_), _) => false,
        Item7::Term(Use7::AndThen(_), _) => false,
        Item7::Term(Use7::OrElse(_), _) => false,
        Item7::Term(Use7::Pick, _) => false,
        Item7::Statement(Way7::After(_), _) => false,
        Item7::Also(_) => false,
        Item7::AlsoFrom(_, _) => false,
        _ => true,
    }
}

// An entry that is no object stays.
fn put_back<'a>(control: &mut Vec<Item7<'a>>, item: Item7<'a>) -> Result<Option<u32>, Halt>
    ensures ok { IfOk result (λ next. next ≡ None) }
    ensures objects { (u : UnitView) → IfOk result (λ _. (on_item u item.entry (standing u control.old.items)).objects ≡ []) }
    ensures items { (u : UnitView) → IfOk result (λ _. standing u control.new.items ≡ on_item u item.entry (standing u control.old.items)) }
    ensures memory { IfErr result (λ h. h ≡ halt.Memory) }
{
    if !ends_objects(&item) {
        return Err(Halt::Memory);
    }
    match push_item(control, item) {
        Ok(()) => Ok(None),
        Err(_) => Err(Halt::Memory),
    }
}

// Takes the first of some objects.
fn first_of(control: &mut Vec<Item7>, from: u32, count: u32) -> Result<Option<u32>, Halt>
    ensures objects { (u : UnitView) → IfOk result (λ next. numbers_from from count ++ (standing u control.old.items).objects ≡ with_next next (standing u control.new.items).objects) }
    ensures items { (u : UnitView) → IfOk result (λ _. (standing u control.old.items).items ≡ (standing u control.new.items).items) }
    ensures memory { IfErr result (λ h. h ≡ halt.Memory) }
{
    let Some(next) = from.checked_add(1) else {
        return Err(Halt::Memory);
    };
    if count == 0 {
        return Err(Halt::Memory);
    }
    match push_item(control, Item7::AlsoFrom(next, count - 1)) {
        Ok(()) => Ok(Some(from)),
        Err(_) => Err(Halt::Memory),
    }
}

/// Takes the next object that the item above enters or leaves, where there is one.
pub fn next_object(control: &mut Vec<Item7>) -> Result<Option<u32>, Halt>
    ensures objects { (u : UnitView) → IfOk result (λ next. (standing u control.old.items).objects ≡ with_next next (standing u control.new.items).objects) }
    ensures items { (u : UnitView) → IfOk result (λ _. (standing u control.old.items).items ≡ (standing u control.new.items).items) }
    ensures memory { IfErr result (λ h. h ≡ halt.Memory) }
{
    while let Some(item) = control.pop() {
        match item {
            Item7::Also(local) => return Ok(Some(local)),
            Item7::AlsoFrom(from, count) => {
                if count > 0 {
                    return first_of(control, from, count);
                }
            }
            other => return put_back(control, other),
        }
    }
    Ok(None)
}

// ---- declarations

/// What a declaration does to an object.
pub fn change(m: &mut Machine, local: u32, how: Change7) -> Result<(), Halt>
    ensures { (u : UnitView) → Moves u (machine.change (state_view u m.old) local (change_view how)) result m.new }
{
    let inst = named(m.names.as_slice(), local)?;
    match how {
        Change7::Forget => forget(&mut m.world, inst),
        Change7::Clear => clear(&mut m.world, inst),
    }
    Ok(())
}
