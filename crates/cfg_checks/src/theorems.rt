//! What well-formed programs are good for.
ghost use Rattle.std.specs.Prelude.{◌≡◌, ◌<◌, ℕ, true, List, length};
ghost use Rattle.cc_base.specs.declared.limit_table.Limits.{Limits};
ghost use Rattle.c_layout.specs.declared.data_model.Model.{Model};
ghost use Rattle.c_layout.specs.declared.leaf_lists.Leaf.{Leaf};
ghost use Rattle.cfg.specs.declared.programs.Flow.{Flow};
ghost use Rattle.cfg.specs.ApartLeaves.{HasByte, leaf_at};
ghost use Rattle.cfg.specs.BaseShapes.{are_leaves};
ghost use Rattle.cfg.specs.FlowSystems.{is_system};
ghost use Rattle.cfg.specs.WellFormed.{is_well_formed};

/// A well-formed program is a system: there is a block, edges are between blocks that are there and are
/// numbered by the blocks that they leave, and what an edge from the same or a later block enters is a
/// head.
pub fn is_a_system()
    ensures { (limits : Limits) (f : Flow) → is_well_formed limits f ≡ true → is_system f ≡ true }
{}

/// No byte of a base belongs to two of its leaves.
pub fn leaves_share_no_byte()
    ensures { (m : Model) (room : ℕ) (ls : List Leaf) → are_leaves m room ls ≡ true → (i k : ℕ) → i < k → k < length ls → (byte : ℕ) → HasByte m (leaf_at m ls i) byte → HasByte m (leaf_at m ls k) byte → ⊥ }
{}
