//! Turns on the stores of initializers.
ghost use Rattle.c_layout.specs.CheckedTrees.{store_tree};
ghost use Rattle.c_layout.specs.CheckedUnits.{unit_view};
ghost use Rattle.semantics.specs.SourceMachine.StatementItems.{stored};
ghost use Rattle.interp_steps.specs.MachineItems.Moves.{Moves, turn_with};

use crate::machine_items::machines::{Machine, named};
use crate::machine_items::object_turns::point_to;
use c_layout::{Checked, InitStore, ObjectRef};
use cc_base::Place;
use interp_accesses::Halt;
use interp_stack::{push_copy, push_store};
use interp_starts::starts::spell;

/// The first step of a store of an initializer; what else it is made of is pushed.
pub fn begin_store<'a>(
    m: &mut Machine<'a>,
    unit: &Checked,
    at: Place,
    local: u32,
    store: &'a InitStore,
) -> Result<(), Halt>
    ensures { Moves (unit_view unit.now) (turn_with (unit_view unit.now) (stored at local (store_tree store.now)) m.old).reply result m.new }
{
    match store {
        InitStore::Value(offset, value) => {
            let Ok(()) = push_store(&mut m.control, at, value) else {
                return Err(Halt::Memory);
            };
            point_to(m, unit, ObjectRef::Local(local), *offset)
        }
        InitStore::Copy(offset, source) => {
            let Ok(()) = push_copy(&mut m.control, at, source) else {
                return Err(Halt::Memory);
            };
            point_to(m, unit, ObjectRef::Local(local), *offset)
        }
        InitStore::Spell(offset, room, text) => {
            let inst = named(m.names.as_slice(), local)?;
            spell(&mut m.world, inst, *offset, *room, text.as_bytes())
        }
    }
}
