//! The layouts of complete types: their sizes and leaves.
ghost use Rattle.std.specs.Prelude.{◌≡◌, true, IfOk, IfErr};
ghost use Rattle.interp_accesses.specs.declared.worlds.Halt.TheVariants as halt;
ghost use Rattle.c_layout.specs.Models.{is_model};
ghost use Rattle.c_layout.specs.Types.{view};
ghost use Rattle.c_layout.specs.StructViews.{structs_view};
ghost use Rattle.c_layout.specs.Layout.{size_of_type};
ghost use Rattle.c_layout.specs.Leaves.{leaves_of};

use c_layout::{CType, Leaf, Model, Structs, is_whole, leaves, type_bytes};
use interp_accesses::Halt;
use std::alloc::Global;

/// The size in bytes and the leaves of a type.
#[derive(Drop)]
pub struct TypeLayout {
    pub size: u64,
    pub leaves: Vec<Leaf>,
}

/// The layout of a type. One that is not complete comes to want of memory, since no object has it.
pub fn layout_of(
    alloc: Global,
    t: &CType,
    structs: &Structs,
    model: &Model,
) -> Result<TypeLayout, Halt>
    requires { is_model model.now ≡ true }
    ensures memory { IfErr result (λ h. h ≡ halt.Memory) }
    ensures size { IfOk result (λ l. l.size ≡ size_of_type (structs_view structs.now) model.now.pointer (view t.now)) }
    ensures leaves { IfOk result (λ l. l.leaves.items ≡ leaves_of (structs_view structs.now) model.now.pointer (view t.now)) }
{
    if !is_whole(t, structs, model.pointer) {
        return Err(Halt::Memory);
    }
    match (
        type_bytes(t, structs, model.pointer),
        leaves(alloc, t, structs, model),
    ) {
        (Ok(size), Ok(leaves)) => Ok(TypeLayout { size, leaves }),
        (Ok(_), Err(_)) => Err(Halt::Memory),
        (Err(_), _) => Err(Halt::Memory),
    }
}
