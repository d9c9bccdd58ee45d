//! Listing the leaves of a type.
ghost use Rattle.std.specs.Prelude.{◌≡◌, ◌≤◌, ◌<◌, ◌+◌, ◌-◌, ◌*◌, ◌++◌, ◌∷◌, [], IfOk, map, drop, true, length};
ghost use Rattle.c_layout.specs.Types.{view};
ghost use Rattle.c_layout.specs.Models.{is_model};
ghost use Rattle.c_layout.specs.StructViews.{field_view, structs_view, struct_at};
ghost use Rattle.c_layout.specs.Layout.{size_of_type, is_complete};
ghost use Rattle.c_layout.specs.Leaves.{long_count, leaf, alone, plain_unit, plain_leaves, folded_unit, folded_leaves, leaves_of, of_fields};

use crate::data_model::Model;
use crate::leaf_lists::{
    Class, Leaf, Places, after_all, after_long, after_short, class_for, count_all, count_long,
    count_short, plus, times,
};
use crate::struct_table::{Field, Structs};
use crate::type_terms::CType;
use cc_base::Memory;
use std::alloc::{AllocError, Global};

/// What the layout of a type rests on: the structs and the size of a pointer.
#[derive(Clone, Copy)]
struct Table<'a> {
    structs: &'a Structs,
    pointer: u64,
}

fn bytes(t: &CType, table: Table) -> Result<u64, AllocError>
    ensures { IfOk result (λ n. n ≡ size_of_type (structs_view table.entry.structs.now) table.entry.pointer (view t.now)) }
{
    match t {
        CType::Int(kind) => Ok(kind.bytes as u64),
        CType::Pointer(_) => Ok(table.pointer),
        CType::Array(element, count) => {
            let inner = bytes(element, table)?;
            Ok(times(*count, inner)?)
        }
        CType::Struct(index) => match table.structs.items.get(*index as usize) {
            Some(found) => Ok(found.size),
            None => Ok(0),
        },
        CType::Void => Ok(0),
    }
}

fn scalar(at: u64, class: Class, signed: bool, places: Places) -> Leaf
    ensures { result ≡ leaf at class signed places }
{
    Leaf {
        offset: at,
        class,
        signed,
        stride: places.stride,
        count: places.count,
    }
}

fn members<'a>(table: Table<'a>, index: u32) -> &'a [Field]
    ensures { map field_view result.now ≡ (struct_at (structs_view table.entry.structs.now) index).fields }
{
    match table.structs.items.get(index as usize) {
        Some(found) => found.fields.as_slice(),
        None => &[],
    }
}

/// Adds the leaves of a type with no array folded, each at the same places.
#[cycle(plain)]
#[tactic(auto, using(crate::proofs::Depths::plain_at))]
fn push_plain(
    out: &mut Vec<Leaf>,
    depth: u32,
    table: Table,
    places: Places,
    t: &CType,
    at: u64,
) -> Result<(), AllocError>
    ensures { IfOk result (λ _. out.new.items ≡ out.old.items ++ plain_leaves depth (structs_view table.entry.structs.now) table.entry.pointer places (view t.now) at) }
{
    if depth == 0 {
        return Ok(());
    }
    let unit = after_all(t);
    let count = count_all(t)?;
    let step = bytes(unit, table)?;
    let mut from = at;
    for _turn in 0..count {
        push_plain_unit(out, depth - 1, table, places, unit, from)?;
        from = plus(from, step)?;
    }
    Ok(())
}

#[cycle(plain)]
fn push_plain_unit(
    out: &mut Vec<Leaf>,
    depth: u32,
    table: Table,
    places: Places,
    t: &CType,
    at: u64,
) -> Result<(), AllocError>
    ensures { IfOk result (λ _. out.new.items ≡ out.old.items ++ plain_unit (structs_view table.entry.structs.now) places (plain_leaves depth (structs_view table.entry.structs.now) table.entry.pointer places) (view t.now) at) }
{
    match t {
        CType::Int(kind) => Ok(out.push(scalar(at, class_for(*kind), kind.signed, places))?),
        CType::Pointer(_) => Ok(out.push(scalar(at, Class::Pointer, false, places))?),
        CType::Struct(index) => push_plain_fields(
            out,
            depth,
            table,
            places,
            members(table, *index),
            at,
        ),
        CType::Array(_, _) | CType::Void => Ok(()),
    }
}

#[cycle(plain)]
fn push_plain_fields(
    out: &mut Vec<Leaf>,
    depth: u32,
    table: Table,
    places: Places,
    fields: &[Field],
    at: u64,
) -> Result<(), AllocError>
    ensures { IfOk result (λ _. out.new.items ≡ out.old.items ++ of_fields (map field_view fields.now) at (plain_leaves depth (structs_view table.entry.structs.now) table.entry.pointer places)) }
{
    for index in 0..fields.len() {
        let field = &fields[index];
        push_plain(
            out,
            depth,
            table,
            places,
            &field.ctype,
            plus(at, field.offset)?,
        )?;
    }
    Ok(())
}

/// Adds the leaves of a type, with long arrays folded.
#[cycle(folded)]
fn push_folded(
    out: &mut Vec<Leaf>,
    depth: u32,
    table: Table,
    t: &CType,
    at: u64,
) -> Result<(), AllocError>
    ensures { IfOk result (λ _. out.new.items ≡ out.old.items ++ folded_leaves depth (structs_view table.entry.structs.now) table.entry.pointer (view t.now) at) }
{
    if depth == 0 {
        return Ok(());
    }
    let unit = after_short(t);
    let count = count_short(t)?;
    let step = bytes(unit, table)?;
    let mut from = at;
    for _turn in 0..count {
        push_folded_unit(out, depth, table, unit, from)?;
        from = plus(from, step)?;
    }
    Ok(())
}

#[cycle(folded)]
fn push_folded_unit(
    out: &mut Vec<Leaf>,
    depth: u32,
    table: Table,
    t: &CType,
    at: u64,
) -> Result<(), AllocError>
    requires { 0 < depth }
    ensures { IfOk result (λ _. out.new.items ≡ out.old.items ++ folded_unit depth (structs_view table.entry.structs.now) table.entry.pointer (folded_leaves (depth - 1) (structs_view table.entry.structs.now) table.entry.pointer) (view t.now) at) }
{
    match t {
        CType::Int(kind) => Ok(out.push(scalar(
            at,
            class_for(*kind),
            kind.signed,
            once(kind.bytes as u64),
        ))?),
        CType::Pointer(_) => Ok(out.push(scalar(at, Class::Pointer, false, once(table.pointer)))?),
        CType::Array(inner, count) => {
            let element = after_long(inner);
            let places = spread(element, inner, *count, table)?;
            push_plain(out, depth, table, places, element, at)
        }
        CType::Struct(index) => push_folded_fields(
            out,
            depth - 1,
            table,
            members(table, *index),
            at,
        ),
        CType::Void => Ok(()),
    }
}

#[cycle(folded)]
fn push_folded_fields(
    out: &mut Vec<Leaf>,
    depth: u32,
    table: Table,
    fields: &[Field],
    at: u64,
) -> Result<(), AllocError>
    ensures { IfOk result (λ _. out.new.items ≡ out.old.items ++ of_fields (map field_view fields.now) at (folded_leaves depth (structs_view table.entry.structs.now) table.entry.pointer)) }
{
    for index in 0..fields.len() {
        let field = &fields[index];
        push_folded(out, depth, table, &field.ctype, plus(at, field.offset)?)?;
    }
    Ok(())
}

/// One place, as an array of one element.
fn once(size: u64) -> Places
    ensures { result ≡ alone size }
{
    Places {
        stride: size,
        count: 1,
    }
}

/// The places of the elements of a long array.
fn spread(element: &CType, inner: &CType, count: u64, table: Table) -> Result<Places, AllocError>
    ensures { IfOk result (λ p. p ≡ record { stride = size_of_type (structs_view table.entry.structs.now) table.entry.pointer (view element.now); count = count * long_count (view inner.now) }) }
{
    let stride = bytes(element, table)?;
    let inner_count = count_long(inner)?;
    let count = times(count, inner_count)?;
    Ok(Places { stride, count })
}

/// The leaves of a complete type, in the order of its members and elements. An array of more than 64
/// elements is folded: the leaves of its element stand once, with stride and count. Arrays that
/// follow one another so are one array of all their elements, and inside a folded array nothing else
/// is folded.
#[tactic(auto, unfolding(crate::specs::Leaves::leaves_of))]
pub fn leaves(
    alloc: Global,
    t: &CType,
    structs: &Structs,
    model: &Model,
) -> Result<Vec<Leaf>, Memory>
    requires model { is_model model.now ≡ true }
    requires complete { is_complete (structs_view structs.now) model.now.pointer (view t.now) ≡ true }
    ensures { IfOk result (λ l. l.items ≡ leaves_of (structs_view structs.now) model.now.pointer (view t.now)) }
{
    let table = Table {
        structs,
        pointer: model.pointer as u64,
    };
    let mut out = Vec::new(alloc);
    let depth = u32::try_from(structs.items.len())
        .ok()
        .and_then(|n| n.checked_add(1))
        .ok_or(AllocError)?;
    push_folded(&mut out, depth, table, t, 0)?;
    Ok(out)
}
