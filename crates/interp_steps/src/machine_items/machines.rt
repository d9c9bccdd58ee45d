//! Where a run of the source stands.
ghost use Rattle.std.specs.Prelude.{◌≡◌, [], true, Some, None, MatchResult, IfOk, IfErr};
ghost use Rattle.c_layout.specs.Types.{view};
ghost use Rattle.c_layout.specs.CheckedUnits.{UnitView, unit_view, function_view};
ghost use Rattle.lower_functions.specs.Functions.Functions.{local_type};
ghost use Rattle.memory_model.specs.Effects.NumberedTables.{set_at};
ghost use Rattle.interp_accesses.specs.declared.worlds.Halt.TheVariants as halt;
ghost use Rattle.interp_accesses.specs.declared.worlds.Cause.TheVariants as cause;
ghost use Rattle.semantics.specs.SourceMachine.SourceStates.{function_at, result_object, instance_of};
ghost use Rattle.interp_stack.specs.StackViews.{StackView, on_item, standing};
ghost use Rattle.interp_steps.specs.MachineItems.MachineViews.{items_with, names_view};
ghost use Rattle.interp_steps.specs.MachineItems.Moves.{object_type};

use c_layout::{CType, Checked, Function, ObjectRef};
use cc_base::Place;
use interp_accesses::{Cause, Halt, World7};
use interp_memory::Value7;
use interp_stack::{Item7, Use7, Way7};
use std::alloc::Global;

/// A function that waits for a call: its number, the instances that its objects name, what it still
/// has to do behind the call, the call's place, and whether its value is used.
#[derive(Drop)]
pub struct Frame7<'a> {
    pub function: u32,
    pub names: Vec<Option<u32>>,
    pub control: Vec<Item7<'a>>,
    pub at: Place,
    pub used: bool,
}

/// The function that runs, the instances that its objects name, what it still has to do, the values
/// that are pending in it and in the functions that wait, these functions, and the world. The newest
/// stands last in each list.
#[derive(Drop)]
pub struct Machine<'a> {
    pub function: u32,
    pub names: Vec<Option<u32>>,
    pub control: Vec<Item7<'a>>,
    pub values: Vec<Value7>,
    pub frames: Vec<Frame7<'a>>,
    pub world: World7,
}

// Whether an entry of a list of items is no item of its own.
fn is_silent(item: &Item7) -> bool
    ensures { (u : UnitView) (s : StackView) → result ≡ true → (on_item u item.now s).items ≡ s.items }
{
    match item {
        Item7::Values(terms) => terms.is_empty(),
        Item7::Statements(statements) => statements.is_empty(),
        Item7::Stores(_, _, stores) => stores.is_empty(),
        Item7::Drops(count) => *count == 0,
        Item7::Binds(_, _, left, _) => *left == 0,
        Item7::AfterNothing => true,
        Item7::AfterTruth(_) => true,
        Item7::Term(Use7::After(_), _) => true,
        Item7::Statement(Way7::After(_), _) => true,
        Item7::Term(Use7::AndThen(_), _) => true,
        Item7::Term(Use7::OrElse(_), _) => true,
        Item7::Negated => true,
        Item7::Term(Use7::Pick, _) => true,
        Item7::Also(_) => true,
        Item7::AlsoFrom(_, _) => true,
        _ => false,
    }
}

/// Takes the next item, where there is one.
#[inline(always)]
pub fn next_item<'a>(control: &mut Vec<Item7<'a>>) -> Option<Item7<'a>>
    ensures { (u : UnitView) → (standing u control.old.items).items ≡ items_with u result (standing u control.new.items) }
{
    while let Some(item) = control.pop() {
        if !is_silent(&item) {
            return Some(item);
        }
    }
    None
}

// ---- what is there, without which a run is stuck

/// The function of the unit with a number. Where there is none, the run is stuck.
pub fn function_at<'a>(unit: &'a Checked, number: u32) -> Result<&'a Function, Halt>
    ensures { MatchResult result (λ found. function_at (unit_view unit.now) number ≡ Some (function_view found.now)) (λ h. (h ≡ halt.Stops cause.Stuck) × (function_at (unit_view unit.now) number ≡ None)) }
{
    match unit.functions.get(number as usize) {
        Some(function) => Ok(function),
        None => Err(Halt::Stops(Cause::Stuck)),
    }
}

/// The type of a local object; that of the result where there is no such local.
pub fn local_type(function: &Function, local: u32) -> &CType
    ensures { view result.now ≡ local_type (function_view function.now) local }
{
    match function.locals.get(local as usize) {
        Some(found) => &found.ctype,
        None => &function.result,
    }
}

/// The number of the object of a function's result.
pub fn result_object(function: &Function) -> Result<u32, Halt>
    ensures number { IfOk result (λ number. number ≡ result_object (function_view function.now)) }
    ensures memory { IfErr result (λ h. h ≡ halt.Memory) }
{
    match u32::try_from(function.locals.len()) {
        Ok(number) => Ok(number),
        Err(_) => Err(Halt::Memory),
    }
}

/// The instance that a local object names.
pub fn name_of(names: &[Option<u32>], local: u32) -> Option<u32>
    ensures { result ≡ names_view names.now local }
{
    match names.get(local as usize) {
        Some(Some(inst)) => Some(*inst),
        Some(None) => None,
        None => None,
    }
}

/// The instance that the name of a local object stands for now (6.2.4 of ISO/IEC 9899:2011). Where it
/// stands for none, the run is stuck.
pub fn named(names: &[Option<u32>], local: u32) -> Result<u32, Halt>
    ensures { MatchResult result (λ inst. names_view names.now local ≡ Some inst) (λ h. (h ≡ halt.Stops cause.Stuck) × (names_view names.now local ≡ None)) }
{
    match name_of(names, local) {
        Some(inst) => Ok(inst),
        None => Err(Halt::Stops(Cause::Stuck)),
    }
}

/// The instance of an object; objects of static storage are the first ones.
pub fn instance_of(names: &[Option<u32>], object: ObjectRef) -> Result<u32, Halt>
    ensures { MatchResult result (λ inst. instance_of (names_view names.now) object ≡ Some inst) (λ h. (h ≡ halt.Stops cause.Stuck) × (instance_of (names_view names.now) object ≡ None)) }
{
    match object {
        ObjectRef::Static(number) => Ok(number),
        ObjectRef::Local(local) => named(names, local),
    }
}

/// A local object names an instance, or none.
pub fn set_name(names: &mut Vec<Option<u32>>, local: u32, inst: Option<u32>) -> Result<(), Halt>
    ensures named { IfOk result (λ _. names_view names.new.items ≡ set_at (names_view names.old.items) local inst) }
    ensures memory { IfErr result (λ h. h ≡ halt.Memory) }
{
    let at = local as usize;
    while names.len() <= at {
        match names.push(None) {
            Ok(()) => {}
            Err(_) => return Err(Halt::Memory),
        }
    }
    names[at] = inst;
    Ok(())
}

/// The type of an object.
pub fn type_of<'a>(unit: &'a Checked, function: u32, object: ObjectRef) -> Result<&'a CType, Halt>
    ensures { MatchResult result (λ t. object_type (unit_view unit.now) function object ≡ Some (view t.now)) (λ h. (h ≡ halt.Stops cause.Stuck) × (object_type (unit_view unit.now) function object ≡ None)) }
{
    match object {
        ObjectRef::Static(number) => match unit.objects.get(number as usize) {
            Some(found) => Ok(&found.ctype),
            None => Err(Halt::Stops(Cause::Stuck)),
        },
        ObjectRef::Local(local) => Ok(local_type(function_at(unit, function)?, local)),
    }
}

/// A machine of no function and no item.
pub fn at_rest<'a>(alloc: Global, function: u32, world: World7) -> Machine<'a>
    ensures world { result.world ≡ world }
    ensures function { result.function ≡ function }
    ensures names { result.names.items ≡ [] }
    ensures control { result.control.items ≡ [] }
    ensures values { result.values.items ≡ [] }
    ensures frames { result.frames.items ≡ [] }
{
    Machine {
        function,
        names: Vec::new(alloc),
        control: Vec::new(alloc),
        values: Vec::new(alloc),
        frames: Vec::new(alloc),
        world,
    }
}
