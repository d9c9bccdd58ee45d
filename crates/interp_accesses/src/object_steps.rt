//! Lifetimes of objects and their first bytes (6.2.4 and 6.7.9 of ISO/IEC 9899:2011).
ghost use Rattle.std.specs.Prelude.{◌≡◌, ℕ};
ghost use Rattle.memory_model.specs.Effects.Worlds.{goes};
ghost use Rattle.memory_model.specs.Effects.ObjectEffects as machine;
ghost use Rattle.interp_accesses.specs.WorldViews.{world_view, ComesTo};

use crate::worlds::{Halt, World7};
use c_layout::Leaf;
use interp_memory::{Content7, InstKind, unlabelled};

/// An object's lifetime begins: it gets an instance of so many indeterminate bytes under the tags of
/// the leaves of its type, whose number is answered.
pub fn enter(w: &mut World7, leaves: &[Leaf], size: u64) -> Result<u32, Halt>
    ensures { ComesTo (λ (n : ℕ). n) (goes (machine.next_instance (world_view w.old)) (machine.entered w.old.memory.model leaves.now size (world_view w.old))) result (world_view w.new) }
{
    if w.memory.count() >= 4294967295 {
        return Err(Halt::Memory);
    }
    match w.memory.enter(InstKind::Automatic, leaves, size) {
        Ok(inst) => Ok(inst),
        Err(_) => Err(Halt::Memory),
    }
}

/// An object's lifetime ends.
pub fn leave(w: &mut World7, inst: u32)
    ensures { world_view w.new ≡ machine.left inst (world_view w.old) }
{
    w.memory.leave(inst);
}

/// All bytes of an object become indeterminate.
pub fn forget(w: &mut World7, inst: u32)
    ensures { world_view w.new ≡ machine.forgotten inst (world_view w.old) }
{
    w.memory.fill(inst, Content7::Blank);
}

/// All bytes of an object become 0.
pub fn clear(w: &mut World7, inst: u32)
    ensures { world_view w.new ≡ machine.cleared inst (world_view w.old) }
{
    w.memory.fill(inst, Content7::Number(0, unlabelled()));
}
