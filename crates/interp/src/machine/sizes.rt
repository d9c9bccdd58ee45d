//! How many bytes the next turn makes.
ghost use Rattle.std.specs.Prelude.{◌≡◌, ◌⊎◌, ◌*◌, true, map, Some, IfOk, IfErr};
ghost use Rattle.c_layout.specs.CheckedUnits.{UnitView, unit_view};
ghost use Rattle.c_layout.specs.Models.{is_model};
ghost use Rattle.memory_model.specs.Effects.LibraryChecks.{size_of};
ghost use Rattle.interp_memory.specs.ByteViews.{pointer_view, scalar_view};
ghost use Rattle.interp_accesses.specs.WorldViews.{world_view};
ghost use Rattle.interp_accesses.specs.declared.worlds.Halt.TheVariants as halt;
ghost use Rattle.semantics.specs.SourceMachine.SourceStates as machine;
ghost use Rattle.interp_stack.specs.StackViews.{standing};
ghost use Rattle.interp_steps.specs.MachineItems.Asked.{type_size, entered_size, first_of, answers_yes, given_size, may_be_freed, called_size, IsMadeBy};
ghost use Rattle.interp_steps.specs.MachineItems.MachineViews.{items_with, state_view};

use c_layout::{Checked, LibFn, type_bytes};
use interp_accesses::{Halt, World7, most_size};
use interp_memory::{InstKind, InstState, Pointer7, Value7};
use interp_stack::{Item7, Operation7};
use interp_steps::machine_items::{Machine, ends_objects, function_at, local_type, name_of};
use interp_steps::operations::newest;

// ---- objects

// The first object that an item enters with those of the entries below, where it enters one.
fn first_below(control: &[Item7]) -> Result<Option<u32>, Halt>
    ensures first { (u : UnitView) → IfOk result (λ first. first ≡ first_of (standing u control.now).objects) }
    ensures memory { IfErr result (λ h. h ≡ halt.Memory) }
{
    let mut k = control.len();
    'back: while k > 0 {
        k -= 1;
        match control[k] {
            Item7::Also(object) => return Ok(Some(object)),
            Item7::AlsoFrom(from, count) => {
                if count > 0 {
                    return Ok(Some(from));
                }
            }
            other => {
                return if ends_objects(&other) {
                    Ok(None)
                } else {
                    Err(Halt::Memory)
                };
            }
        }
    }
    Ok(None)
}

// The size of an object of the function that runs.
fn own_size(m: &Machine, unit: &Checked, object: u32) -> Result<u128, Halt>
    ensures memory { IfErr result (λ h. h ≡ halt.Memory) }
    ensures size { IfOk result (λ n. n ≡ type_size (unit_view unit.now) (machine.function_at (unit_view unit.now) m.now.function) object) }
{
    let Ok(function) = function_at(unit, m.function) else {
        return Ok(0);
    };
    match type_bytes(
        local_type(function, object),
        &unit.structs,
        unit.model.pointer,
    ) {
        Ok(size) => Ok(u128::from(size)),
        Err(_) => Err(Halt::Memory),
    }
}

fn named_size(m: &Machine, unit: &Checked, object: u32) -> Result<u128, Halt>
    ensures memory { IfErr result (λ h. h ≡ halt.Memory) }
    ensures size { IfOk result (λ n. n ≡ entered_size (unit_view unit.now) (state_view (unit_view unit.now) m.now) (Some object)) }
{
    match name_of(m.names.as_slice(), object) {
        Some(_) => Ok(0),
        None => own_size(m, unit, object),
    }
}

fn entered_bytes(m: &Machine, unit: &Checked, object: Option<u32>) -> Result<u128, Halt>
    ensures memory { IfErr result (λ h. h ≡ halt.Memory) }
    ensures size { IfOk result (λ n. n ≡ entered_size (unit_view unit.now) (state_view (unit_view unit.now) m.now) object) }
{
    match object {
        None => Ok(0),
        Some(object) => named_size(m, unit, object),
    }
}

// ---- allocations

// Whether the outside answers that there is memory.
fn is_given(w: &World7) -> bool
    ensures { result ≡ answers_yes (world_view w.now).draws }
{
    match w.draws.get(w.taken) {
        Some(answer) => *answer == 1,
        None => false,
    }
}

fn given_bytes(w: &World7, unit: &Checked, size: u128) -> u128
    requires { is_model unit.now.model ≡ true }
    ensures { result ≡ given_size unit.now.model size (world_view w.now) }
{
    if is_given(w) && size <= most_size(&unit.model) {
        size
    } else {
        0
    }
}

// Whether a pointer may be given back.
fn may_free(w: &World7, p: Pointer7) -> bool
    ensures { result ≡ may_be_freed w.now.memory.memory (pointer_view p) }
{
    match p {
        Pointer7::Null => true,
        Pointer7::At { inst, off, .. } => {
            w.memory.state(inst) == InstState::Live
                && (w.memory.kind(inst) == InstKind::Heap && off == 0)
        }
    }
}

fn product(count: i128, size: i128) -> Result<u128, Halt>
    ensures memory { IfErr result (λ h. h ≡ halt.Memory) }
    ensures product { IfOk result (λ n. n ≡ size_of count * size_of size) }
{
    match count.unsigned_abs().checked_mul(size.unsigned_abs()) {
        Some(bytes) => Ok(bytes),
        None => Err(Halt::Memory),
    }
}

fn called_bytes(
    w: &World7,
    unit: &Checked,
    function: LibFn,
    arguments: &[Value7],
) -> Result<u128, Halt>
    requires { is_model unit.now.model ≡ true }
    ensures memory { IfErr result (λ h. h ≡ halt.Memory) }
    ensures size { IfOk result (λ n. (n ≡ 0) ⊎ (n ≡ called_size unit.now.model function (map scalar_view arguments.now) (world_view w.now))) }
{
    match (function, arguments) {
        (LibFn::Malloc, [Value7::Int(size, _)]) => Ok(given_bytes(w, unit, size.unsigned_abs())),
        (LibFn::Calloc, [Value7::Int(count, _), Value7::Int(size, _)]) => {
            Ok(given_bytes(w, unit, product(*count, *size)?))
        }
        (LibFn::Realloc, [Value7::Ptr(p), Value7::Int(size, _)]) => {
            if may_free(w, *p) {
                Ok(given_bytes(w, unit, size.unsigned_abs()))
            } else {
                Ok(0)
            }
        }
        _ => Ok(0),
    }
}

/// How many bytes the instance has that the next turn makes; 0 where it makes none.
#[inline(always)]
pub fn asked_bytes(m: &Machine, unit: &Checked, item: Option<Item7>) -> Result<u128, Halt>
    requires { is_model unit.now.model ≡ true }
    ensures memory { IfErr result (λ h. h ≡ halt.Memory) }
    ensures size { IfOk result (IsMadeBy (unit_view unit.now) (state_view (unit_view unit.now) m.now) (items_with (unit_view unit.now) item.entry (standing (unit_view unit.now) m.now.control.items))) }
{
    match item {
        Some(Item7::Enters(objects)) => entered_bytes(m, unit, objects.first().copied()),
        Some(Item7::EntersBelow) => { entered_bytes(m, unit, first_below(m.control.as_slice())?) }
        Some(Item7::Do(_, Operation7::Library(function, count, _))) => {
            called_bytes(&m.world, unit, function, newest(m.values.as_slice(), count))
        }
        _ => Ok(0),
    }
}
