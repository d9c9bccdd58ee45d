//! The structs of a unit, with the layout of those that are complete.
ghost use Rattle.std.specs.Prelude.{◌≡◌, ◌<◌, IfOk, true};
ghost use Rattle.c_layout.specs.Types.{view};
ghost use Rattle.c_layout.specs.StructViews.{struct_view, structs_view};

use crate::type_terms::CType;
use cc_base::Text;

/// A member: its name, its type and its offset in bytes.
#[derive(Drop)]
pub struct Field {
    pub name: Text,
    pub ctype: CType,
    pub offset: u64,
}

/// A struct type (6.7.2.1 of ISO/IEC 9899:2011). Where it is complete, `size` and `align` are its
/// size and alignment in bytes, and the two counts say how many leaves it has: where arrays of more
/// than 64 elements are folded, and where none is. They are computed once for each struct, so that
/// structs that each hold the one before twice cost no more than others.
#[derive(Drop)]
pub struct StructType {
    pub fields: Vec<Field>,
    pub complete: bool,
    pub size: u64,
    pub align: u64,
    pub leaves: u64,
    pub plain_leaves: u64,
}

/// The structs of a unit by their numbers.
#[derive(Drop)]
pub struct Structs {
    pub items: Vec<StructType>,
}
