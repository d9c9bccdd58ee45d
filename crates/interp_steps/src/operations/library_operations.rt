//! Calls of the library on the newest values.
ghost use Rattle.std.specs.Prelude.{◌≡◌, true, map, drop, IfOk, IfErr};
ghost use Rattle.c_layout.specs.CheckedUnits.{unit_view};
ghost use Rattle.c_layout.specs.Models.{is_model};
ghost use Rattle.interp_memory.specs.ByteViews.{scalar_view};
ghost use Rattle.interp_accesses.specs.WorldViews.{world_view};
ghost use Rattle.interp_accesses.specs.declared.worlds.Halt.TheVariants as halt;
ghost use Rattle.semantics.specs.SourceMachine.Operations as machine;
ghost use Rattle.interp_stack.specs.ItemViews.{type_seen};
ghost use Rattle.interp_steps.specs.Operations.Pending.{pending, Operates};

use crate::operations::values::push_outcome;
use c_layout::{CType, Checked, LibFn, type_bytes};
use interp_accesses::{Halt, World7};
use interp_library::calls::library;
use interp_memory::Value7;

/// The size of what an allocation is for.
pub fn target_size(unit: &Checked, target: Option<&CType>) -> Result<Option<u64>, Halt>
    ensures size { IfOk result (λ size. size ≡ machine.target_size (unit_view unit.now) (type_seen target.entry)) }
    ensures memory { IfErr result (λ h. h ≡ halt.Memory) }
{
    match target {
        None => Ok(None),
        Some(t) => match type_bytes(t, &unit.structs, unit.model.pointer) {
            Ok(size) => Ok(Some(size)),
            Err(_) => Err(Halt::Memory),
        },
    }
}

/// The newest so many values, the oldest of them first.
pub fn newest(values: &[Value7], count: usize) -> &[Value7]
    ensures { map scalar_view result.now ≡ machine.newest count (pending values.now) }
{
    let from = values.len().saturating_sub(count);
    &values[from..]
}

fn drop_newest(values: &mut Vec<Value7>, count: usize)
    ensures { pending values.new.items ≡ drop count (pending values.old.items) }
{
    let rest = values.len().saturating_sub(count);
    values.truncate(rest);
}

/// Calls a function of the library with so many of the newest values, in whose place what it gives comes.
pub fn call_library(
    values: &mut Vec<Value7>,
    w: &mut World7,
    unit: &Checked,
    function: LibFn,
    count: usize,
    target: Option<&CType>,
) -> Result<(), Halt>
    requires { is_model unit.now.model ≡ true }
    ensures { Operates (machine.call_library (unit_view unit.now) function count (type_seen target.entry) (pending values.old.items) (world_view w.old)) result values.new.items (world_view w.new) }
{
    let wanted = target_size(unit, target)?;
    let outcome = library(
        w,
        &unit.model,
        wanted,
        function,
        newest(values.as_slice(), count),
    )?;
    drop_newest(values, count);
    push_outcome(values, outcome)
}
