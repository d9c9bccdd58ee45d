//! Objects of static storage and literals (6.2.4, 6.4.5 and 6.7.9 of ISO/IEC 9899:2011).
ghost use Rattle.std.specs.Prelude.{◌≡◌, ◌+◌, true, length, IfSome, ℕ, map};
ghost use Rattle.c_layout.specs.Models.{is_model};
ghost use Rattle.c_layout.specs.CheckedUnits.{unit_view, static_store_view, static_view, literal_view};
ghost use Rattle.c_layout.specs.Types.{view};
ghost use Rattle.memory_model.specs.Memory.Labels.{no_labels};
ghost use Rattle.memory_model.specs.Memory.Bytes.{number};
ghost use Rattle.memory_model.specs.Memory.Instances.{static, automatic};
ghost use Rattle.memory_model.specs.Memory.Scalars.{integer};
ghost use Rattle.memory_model.specs.Effects.ScalarBytes.{scalar_bytes, refilled};
ghost use Rattle.memory_model.specs.Effects.ObjectEffects.{blank_bytes, fresh, with_instance, all_of};
ghost use Rattle.memory_model.specs.Effects.UnitStarts as machine;
ghost use Rattle.memory_model.specs.Effects.Worlds.{goes};
ghost use Rattle.memory_model.specs.Effects.ObjectEffects.{next_instance};
ghost use Rattle.interp_memory.specs.ByteViews.{scalar_view};
ghost use Rattle.interp_memory.specs.InstanceViews.{storage_view};
ghost use Rattle.interp_accesses.specs.WorldViews.{world_view, ComesTo, Leaves};
ghost use Rattle.interp_starts.specs.Starts.Rewrites.{Becomes, rewritten, store_put, stores_put};

use crate::starts::texts::spell_in;
use crate::starts::type_layouts::layout_of;
use c_layout::{
    Checked, Class, Leaf, StaticBase, StaticObject, StaticStore, StaticValue, StringLiteral,
};
use cc_base::IntType;
use interp_accesses::{Halt, World7};
use interp_memory::{
    Content7, InstKind, Memory7, Pointer7, Spot, Value7, unlabelled, write_scalar,
};

/// The instance of a literal; none where its number passes that of the last instance.
pub fn literal_instance(unit: &Checked, index: u32) -> Option<u32>
    ensures { IfSome result (λ i. i ≡ machine.literal_instance (unit_view unit.now) index) }
{
    u32::try_from(unit.objects.len() as u64 + u64::from(index)).ok()
}

fn base_instance(unit: &Checked, base: StaticBase) -> Option<u32>
    ensures { IfSome result (λ i. i ≡ machine.base_instance (unit_view unit.now) base) }
{
    match base {
        StaticBase::Object(number) => Some(number),
        StaticBase::Literal(index) => literal_instance(unit, index),
    }
}

// A scalar of so many bytes, at most eight, at a place.
fn put_scalar(memory: &mut Memory7, at: Spot, size: u8, value: &Value7) -> Result<(), Halt>
    ensures { Becomes (rewritten memory.old at (scalar_bytes size (scalar_view value.now))) result memory.new }
{
    if size > 8 {
        return Err(Halt::Memory);
    }
    let mut room = [Content7::Blank; 8];
    let contents = &mut room[..usize::from(size)];
    write_scalar(contents, value);
    memory.rewrite(at, contents);
    Ok(())
}

fn put_number(memory: &mut Memory7, at: Spot, number: i128, kind: IntType) -> Result<(), Halt>
    ensures { Becomes (rewritten memory.old at (scalar_bytes kind.bytes (integer number no_labels))) result memory.new }
{
    put_scalar(memory, at, kind.bytes, &Value7::Int(number, unlabelled()))
}

fn put_value(memory: &mut Memory7, unit: &Checked, at: Spot, value: StaticValue) -> Result<(), Halt>
    ensures { Becomes (rewritten memory.old at (machine.value_bytes (unit_view unit.now) value)) result memory.new }
{
    let pointer = unit.model.pointer;
    match value {
        StaticValue::Number(number, kind) => put_number(memory, at, number, kind),
        StaticValue::Null => put_scalar(memory, at, pointer, &Value7::Ptr(Pointer7::Null)),
        StaticValue::Address(base, off, lo, hi) => match base_instance(unit, base) {
            Some(inst) => put_scalar(
                memory,
                at,
                pointer,
                &Value7::Ptr(Pointer7::At { inst, off, lo, hi }),
            ),
            None => Err(Halt::Memory),
        },
    }
}

fn put_store(w: &mut World7, unit: &Checked, inst: u32, store: &StaticStore) -> Result<(), Halt>
    ensures { Leaves (store_put (unit_view unit.now) (static_store_view store.now) inst (world_view w.old)) result (world_view w.new) }
{
    match store {
        StaticStore::Value(offset, value) => put_value(
            &mut w.memory,
            unit,
            Spot {
                inst,
                offset: *offset,
            },
            *value,
        ),
        StaticStore::Spell(offset, room, text) => spell_in(
            w.alloc,
            &mut w.memory,
            Spot {
                inst,
                offset: *offset,
            },
            *room,
            text.as_bytes(),
        ),
    }
}

// An instance of so many bytes under the tags of leaves.
fn enter(w: &mut World7, kind: InstKind, leaves: &[Leaf], size: u64) -> Result<u32, Halt>
    ensures { ComesTo (λ (n : ℕ). n) (goes (next_instance (world_view w.old)) (with_instance (world_view w.old) (fresh (storage_view kind) (blank_bytes w.old.memory.model leaves.now 0 size)))) result (world_view w.new) }
{
    if w.memory.count() >= 4294967295 {
        return Err(Halt::Memory);
    }
    match w.memory.enter(kind, leaves, size) {
        Ok(inst) => Ok(inst),
        Err(_) => Err(Halt::Memory),
    }
}

// Stores of an initializer, in order.
fn put_stores(w: &mut World7, unit: &Checked, inst: u32, stores: &[StaticStore]) -> Result<(), Halt>
    ensures { Leaves (stores_put (unit_view unit.now) (map static_store_view stores.now) inst (world_view w.old)) result (world_view w.new) }
{
    for store in stores {
        put_store(w, unit, inst, store)?;
    }
    Ok(())
}

// An instance of static storage, all zero, under the tags of leaves.
fn enter_zeros(w: &mut World7, leaves: &[Leaf], size: u64) -> Result<u32, Halt>
    ensures { ComesTo (λ (n : ℕ). n) (goes (next_instance (world_view w.old)) (with_instance (world_view w.old) (fresh static (all_of (number 0 no_labels) (blank_bytes w.old.memory.model leaves.now 0 size))))) result (world_view w.new) }
{
    let inst = enter(w, InstKind::Static, leaves, size)?;
    w.memory.fill(inst, Content7::Number(0, unlabelled()));
    Ok(inst)
}

// An object of static storage that is all zero.
fn make_zeros(w: &mut World7, unit: &Checked, object: &StaticObject) -> Result<u32, Halt>
    requires model { is_model unit.now.model ≡ true }
    requires same { w.old.memory.model ≡ unit.now.model }
    ensures { ComesTo (λ (n : ℕ). n) (goes (next_instance (world_view w.old)) (with_instance (world_view w.old) (fresh static (all_of (number 0 no_labels) (machine.typed_bytes (unit_view unit.now) (view object.now.ctype)))))) result (world_view w.new) }
{
    let layout = layout_of(w.alloc, &object.ctype, &unit.structs, &unit.model)?;
    let inst = enter_zeros(w, layout.leaves.as_slice(), layout.size)?;
    Ok(inst)
}

/// Makes an object of static storage: all zero, and then the stores of its initializer in order.
pub fn make_object(w: &mut World7, unit: &Checked, object: &StaticObject) -> Result<(), Halt>
    requires model { is_model unit.now.model ≡ true }
    requires same { w.old.memory.model ≡ unit.now.model }
    ensures { Leaves (with_instance (world_view w.old) (machine.static_instance (unit_view unit.now) (static_view object.now))) result (world_view w.new) }
{
    let inst = make_zeros(w, unit, object)?;
    put_stores(w, unit, inst, &object.stores)?;
    Ok(())
}

/// How many bytes the instance of a literal has.
pub fn literal_size(literal: &StringLiteral) -> u64
    ensures { result ≡ length literal.now.bytes + 1 }
{
    literal.bytes.as_bytes().len() as u64 + 1
}

/// Makes a literal: its characters and a closing zero.
pub fn make_literal(w: &mut World7, literal: &StringLiteral) -> Result<(), Halt>
    ensures { Leaves (with_instance (world_view w.old) (machine.literal_made (literal_view literal.now))) result (world_view w.new) }
{
    let size = literal_size(literal);
    let leaf = Leaf {
        offset: 0,
        class: Class::Char,
        signed: false,
        stride: 1,
        count: size,
    };
    let inst = enter(w, InstKind::Literal, &[leaf], size)?;
    spell_in(
        w.alloc,
        &mut w.memory,
        Spot { inst, offset: 0 },
        size,
        literal.bytes.as_bytes(),
    )?;
    Ok(())
}

/// Makes an object of an integer type that holds a value.
pub fn make_input(
    w: &mut World7,
    leaves: &[Leaf],
    size: u64,
    bytes: u8,
    value: &Value7,
) -> Result<(), Halt>
    ensures { Leaves (with_instance (world_view w.old) (fresh automatic (refilled (blank_bytes w.old.memory.model leaves.now 0 size) 0 (scalar_bytes bytes (scalar_view value.now))))) result (world_view w.new) }
{
    let inst = enter(w, InstKind::Automatic, leaves, size)?;
    put_scalar(&mut w.memory, Spot { inst, offset: 0 }, bytes, value)?;
    Ok(())
}
