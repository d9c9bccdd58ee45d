//! The leaves of a type by their number, without making the list.
ghost use Rattle.std.specs.Prelude.{◌≡◌, ◌<◌, ◌+◌, ◌*◌, map, length};
ghost use Rattle.std.specs.Option.{option_map};
ghost use Rattle.c_layout.specs.Types.{view};
ghost use Rattle.c_layout.specs.StructViews.{field_view, structs_view, struct_at};
ghost use Rattle.c_layout.specs.Leaves.{class_of};
ghost use Rattle.store_cells.specs.RowPositions.{capped};
ghost use Rattle.store_structs.specs.LeafNumbers.{leaf_at, places_or, scalar_leaf, count_of, member_with, element_of, element_with, element_view, behind_arrays, behind_short, member_at, plain_unit, plain_member, plain_leaf, long_leaf, folded_unit, folded_member, folded_leaf, struct_leaf};

use crate::leaf_counts::{
    Table, behind_long, bytes_in, folded_count, is_short, long_count, plain_count,
};
use c_layout::{CType, Class, Field, Leaf};
use cc_base::IntType;

/// How often a leaf stands, and how far apart.
#[derive(Clone, Copy)]
struct Places {
    stride: u64,
    count: u64,
}

fn class_of(kind: IntType) -> Class
    ensures { result ≡ class_of kind }
{
    if kind.rank == 1 {
        Class::Char
    } else if kind.rank == 2 {
        Class::Short
    } else if kind.rank == 3 {
        Class::Int
    } else if kind.rank == 4 {
        Class::Long
    } else {
        Class::LongLong
    }
}

fn leaf_at(at: u64, class: Class, signed: bool, places: Places) -> Leaf
    ensures { result ≡ leaf_at at class signed places }
{
    Leaf {
        offset: at,
        class,
        signed,
        stride: places.stride,
        count: places.count,
    }
}

/// The places that are given, or one of a size.
fn places_or(size: u64, places: Option<Places>) -> Places
    ensures { result ≡ places_or size places }
{
    match places {
        None => Places {
            stride: size,
            count: 1,
        },
        Some(p) => p,
    }
}

/// The one leaf of a scalar type; None of any other one.
fn scalar_leaf(pointer: u64, t: &CType, at: u64, places: Option<Places>) -> Option<Leaf>
    ensures { result ≡ scalar_leaf pointer (view t.now) at places }
{
    match t {
        CType::Int(kind) => Some(leaf_at(
            at,
            class_of(*kind),
            kind.signed,
            places_or(kind.bytes as u64, places),
        )),
        CType::Pointer(_) => Some(leaf_at(at, Class::Pointer, false, places_or(pointer, places))),
        CType::Array(_, _) | CType::Struct(_) | CType::Void => None,
    }
}

fn members<'a>(table: Table<'a>, index: u32) -> &'a [Field]
    ensures { map field_view result.now ≡ (struct_at (structs_view table.entry.structs.now) index).fields }
{
    match table.structs.items.get(index as usize) {
        Some(found) => found.fields.as_slice(),
        None => &[],
    }
}

fn count_of(table: Table, t: &CType, folded: bool) -> u64
    ensures { result ≡ count_of (structs_view table.entry.structs.now) folded (view t.now) }
{
    if folded {
        folded_count(table, t)
    } else {
        plain_count(table, t)
    }
}

/// The member that holds the leaf with a number, and the leaf's number there; `folded` says how leaves
/// are counted.
fn member_with(table: Table, fields: &[Field], number: u64, folded: bool) -> Option<(usize, u64)>
    ensures { result ≡ member_with (structs_view table.entry.structs.now) folded (map field_view fields.now) 0 number }
{
    let mut left = number;
    for at in 0..fields.len() {
        let count = count_of(table, &fields[at].ctype, folded);
        if left < count {
            return Some((at, left));
        }
        left = left.saturating_sub(count);
    }
    None
}

/// The element that holds the leaf with a number, of so many with so many leaves each, at least one.
fn element_of(number: u64, count: u64, leaves: u64) -> Option<(u64, u64)>
    requires { 0 < leaves }
    ensures { result ≡ element_of number count leaves }
{
    if number / leaves < count {
        Some((number / leaves, number % leaves))
    } else {
        None
    }
}

/// The element that holds the leaf with a number, and the leaf's number there.
fn element_with(number: u64, count: u64, leaves: u64) -> Option<(u64, u64)>
    ensures { result ≡ element_with number count leaves }
{
    if leaves == 0 {
        None
    } else {
        element_of(number, count, leaves)
    }
}

/// An element of a type: its type, the number of a leaf in it, and its offset.
#[derive(Clone, Copy)]
struct Element<'a> {
    t: &'a CType,
    number: u64,
    at: u64,
}

/// The offset of the element with an index.
fn offset_of(at: u64, index: u64, size: u64) -> u64
    ensures { result ≡ capped (at + capped (index * size)) }
{
    at.saturating_add(index.saturating_mul(size))
}

/// The element behind all arrays of a type that holds the leaf with a number.
fn behind_arrays<'a>(table: Table<'a>, t: &'a CType, number: u64, at: u64) -> Option<Element<'a>>
    ensures { option_map element_view result ≡ behind_arrays (structs_view table.entry.structs.now) table.entry.pointer (view t.now) number at }
{
    match t {
        CType::Array(element, count) => {
            match element_with(number, *count, plain_count(table, element)) {
                None => None,
                Some(p) => {
                    let from = offset_of(at, p.0, bytes_in(table, element));
                    behind_arrays(table, element, p.1, from)
                }
            }
        }
        CType::Int(_) | CType::Pointer(_) | CType::Struct(_) | CType::Void => {
            Some(Element { t, number, at })
        }
    }
}

/// The element behind the arrays of at most 64 elements that holds the leaf with a number.
fn behind_short<'a>(table: Table<'a>, t: &'a CType, number: u64, at: u64) -> Option<Element<'a>>
    ensures { option_map element_view result ≡ behind_short (structs_view table.entry.structs.now) table.entry.pointer (view t.now) number at }
{
    match t {
        CType::Array(element, count) => {
            if is_short(*count) {
                match element_with(number, *count, folded_count(table, element)) {
                    None => None,
                    Some(p) => {
                        let from = offset_of(at, p.0, bytes_in(table, element));
                        behind_short(table, element, p.1, from)
                    }
                }
            } else {
                Some(Element { t, number, at })
            }
        }
        CType::Int(_) | CType::Pointer(_) | CType::Struct(_) | CType::Void => {
            Some(Element { t, number, at })
        }
    }
}

/// The member of a struct that holds the leaf with a number.
#[tactic(auto, unfolding(crate::specs::LeafNumbers::member_at))]
fn member_at<'a>(
    table: Table<'a>,
    index: u32,
    number: u64,
    at: u64,
    folded: bool,
) -> Option<Element<'a>>
    ensures { option_map element_view result ≡ member_at (structs_view table.entry.structs.now) folded index number at }
{
    let fields = members(table, index);
    match member_with(table, fields, number, folded) {
        None => None,
        Some(p) => match fields.get(p.0) {
            None => None,
            Some(field) => Some(Element {
                t: &field.ctype,
                number: p.1,
                at: at.saturating_add(field.offset),
            }),
        },
    }
}

/// The leaf with a number where no array is folded, at the places of a folded array round it.
#[tactic(auto, unfolding(crate::specs::LeafNumbers::plain_leaf))]
#[cycle(plain)]
fn plain_leaf(
    table: Table,
    depth: usize,
    t: &CType,
    number: u64,
    at: u64,
    places: Places,
) -> Option<Leaf>
    ensures { result ≡ plain_leaf depth (structs_view table.entry.structs.now) table.entry.pointer places (view t.now) number at }
{
    match behind_arrays(table, t, number, at) {
        None => None,
        Some(e) => plain_unit(table, depth, e.t, e.number, e.at, places),
    }
}

#[cycle(plain)]
fn plain_unit(
    table: Table,
    depth: usize,
    t: &CType,
    number: u64,
    at: u64,
    places: Places,
) -> Option<Leaf>
    ensures { result ≡ plain_unit (plain_member depth (structs_view table.entry.structs.now) table.entry.pointer places) table.entry.pointer places (view t.now) number at }
{
    match t {
        CType::Struct(index) => plain_member(table, depth, *index, number, at, places),
        CType::Int(_) | CType::Pointer(_) => scalar_leaf(table.pointer, t, at, Some(places)),
        CType::Array(_, _) | CType::Void => None,
    }
}

#[cycle(plain)]
fn plain_member(
    table: Table,
    depth: usize,
    index: u32,
    number: u64,
    at: u64,
    places: Places,
) -> Option<Leaf>
    ensures { result ≡ plain_member depth (structs_view table.entry.structs.now) table.entry.pointer places index number at }
{
    if depth == 0 {
        return None;
    }
    match member_at(table, index, number, at, false) {
        None => None,
        Some(e) => plain_leaf(table, depth - 1, e.t, e.number, e.at, places),
    }
}

/// The leaf with a number, with arrays of more than 64 elements folded.
#[tactic(auto, unfolding(crate::specs::LeafNumbers::folded_leaf))]
#[cycle(folded)]
fn folded_leaf(table: Table, depth: usize, t: &CType, number: u64, at: u64) -> Option<Leaf>
    ensures { result ≡ folded_leaf depth (structs_view table.entry.structs.now) table.entry.pointer (view t.now) number at }
{
    match behind_short(table, t, number, at) {
        None => None,
        Some(e) => folded_unit(table, depth, e.t, e.number, e.at),
    }
}

#[cycle(folded)]
fn folded_unit(table: Table, depth: usize, t: &CType, number: u64, at: u64) -> Option<Leaf>
    ensures { result ≡ folded_unit depth (folded_member depth (structs_view table.entry.structs.now) table.entry.pointer) (structs_view table.entry.structs.now) table.entry.pointer (view t.now) number at }
{
    match t {
        CType::Array(inner, count) => long_leaf(table, depth, inner, *count, number, at),
        CType::Struct(index) => folded_member(table, depth, *index, number, at),
        CType::Int(_) | CType::Pointer(_) => scalar_leaf(table.pointer, t, at, None),
        CType::Void => None,
    }
}

/// The leaf with a number of an array of so many elements that is folded.
#[tactic(auto, unfolding(crate::specs::LeafNumbers::long_leaf))]
fn long_leaf(
    table: Table,
    depth: usize,
    element: &CType,
    count: u64,
    number: u64,
    at: u64,
) -> Option<Leaf>
    ensures { result ≡ long_leaf depth (structs_view table.entry.structs.now) table.entry.pointer (view element.now) count number at }
{
    let unit = behind_long(element);
    let places = Places {
        stride: bytes_in(table, unit),
        count: count.saturating_mul(long_count(element)),
    };
    plain_leaf(table, depth, unit, number, at, places)
}

#[cycle(folded)]
fn folded_member(table: Table, depth: usize, index: u32, number: u64, at: u64) -> Option<Leaf>
    ensures { result ≡ folded_member depth (structs_view table.entry.structs.now) table.entry.pointer index number at }
{
    if depth == 0 {
        return None;
    }
    match member_at(table, index, number, at, true) {
        None => None,
        Some(e) => folded_leaf(table, depth - 1, e.t, e.number, e.at),
    }
}

/// The leaf with a number of a struct, in the order of its members; None behind the last one.
#[tactic(auto, unfolding(crate::specs::LeafNumbers::struct_leaf))]
pub fn struct_leaf(table: Table, index: u32, number: u64) -> Option<Leaf>
    ensures { result ≡ struct_leaf (structs_view table.entry.structs.now) table.entry.pointer index number }
{
    folded_member(table, table.structs.items.len(), index, number, 0)
}
