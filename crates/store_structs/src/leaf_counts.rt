//! How many leaves a type has, and how many bytes.
ghost use Rattle.std.specs.Prelude.{◌≡◌, ◌*◌};
ghost use Rattle.c_layout.specs.Types.{view};
ghost use Rattle.c_layout.specs.StructViews.{structs_view};
ghost use Rattle.c_layout.specs.Leaves.{is_short, behind_long};
ghost use Rattle.store_cells.specs.RowPositions.{capped};
ghost use Rattle.store_structs.specs.LeafCounts.{bytes_in, plain_count, long_count, folded_count};

use c_layout::{CType, Structs};

/// The most elements of an array that is not folded.
const SHORT: u64 = 64;

/// Whether an array of so many elements is not folded.
pub fn is_short(count: u64) -> bool
    ensures { result ≡ is_short count }
{
    count <= SHORT
}

fn times(a: u64, b: u64) -> u64
    ensures { result ≡ capped (a * b) }
{
    a.saturating_mul(b)
}

/// The structs of the unit, and the size of a pointer.
#[derive(Clone, Copy)]
pub struct Table<'a> {
    pub structs: &'a Structs,
    pub pointer: u64,
}

/// The size of a type in bytes.
pub fn bytes_in(table: Table, t: &CType) -> u64
    ensures { result ≡ bytes_in (structs_view table.entry.structs.now) table.entry.pointer (view t.now) }
{
    match t {
        CType::Int(kind) => kind.bytes as u64,
        CType::Pointer(_) => table.pointer,
        CType::Array(element, count) => times(*count, bytes_in(table, element)),
        CType::Struct(index) => match table.structs.items.get(*index as usize) {
            Some(found) => found.size,
            None => 0,
        },
        CType::Void => 0,
    }
}

/// How many leaves the type has where no array is folded.
pub fn plain_count(table: Table, t: &CType) -> u64
    ensures { result ≡ plain_count (structs_view table.entry.structs.now) (view t.now) }
{
    match t {
        CType::Int(_) | CType::Pointer(_) => 1,
        CType::Array(element, count) => times(*count, plain_count(table, element)),
        CType::Struct(index) => match table.structs.items.get(*index as usize) {
            Some(found) => found.plain_leaves,
            None => 0,
        },
        CType::Void => 0,
    }
}

/// The type behind the arrays of more than 64 elements that stand one in another.
pub fn behind_long(t: &CType) -> &CType
    ensures { view result.now ≡ behind_long (view t.now) }
{
    match t {
        CType::Array(element, count) => {
            if is_short(*count) {
                t
            } else {
                behind_long(element)
            }
        }
        CType::Int(_) | CType::Pointer(_) | CType::Struct(_) | CType::Void => t,
    }
}

/// How many elements those arrays have together.
pub fn long_count(t: &CType) -> u64
    ensures { result ≡ long_count (view t.now) }
{
    match t {
        CType::Array(element, count) => {
            if is_short(*count) {
                1
            } else {
                times(*count, long_count(element))
            }
        }
        CType::Int(_) | CType::Pointer(_) | CType::Struct(_) | CType::Void => 1,
    }
}

/// How many leaves the type has, with arrays of more than 64 elements folded.
pub fn folded_count(table: Table, t: &CType) -> u64
    ensures { result ≡ folded_count (structs_view table.entry.structs.now) (view t.now) }
{
    match t {
        CType::Int(_) | CType::Pointer(_) => 1,
        CType::Array(element, count) => {
            if is_short(*count) {
                times(*count, folded_count(table, element))
            } else {
                plain_count(table, behind_long(element))
            }
        }
        CType::Struct(index) => match table.structs.items.get(*index as usize) {
            Some(found) => found.leaves,
            None => 0,
        },
        CType::Void => 0,
    }
}
