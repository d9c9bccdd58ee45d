//! Whether the members of structs stand one behind the other.
ghost use Rattle.std.specs.Prelude.{◌≡◌, ◌+◌, true, map};
ghost use Rattle.c_layout.specs.StructViews.{field_view, struct_view, structs_view};
ghost use Rattle.c_layout.specs.Types.{view};
ghost use Rattle.store_structs.specs.LeafCounts.{bytes_in};
ghost use Rattle.store_structs.specs.LaidApart as spec;

use c_layout::{CType, Field, Model, StructType, Structs};
use cfg_checks::{class_bytes, class_of, ends_by};
use store_structs::{Table, bytes_in};

/// The most bytes of a struct.
const MOST_BYTES: u64 = 1_073_741_824;

/// Whether an integer type, also behind arrays, has the bytes of its class.
fn has_class_bytes(model: &Model, t: &CType) -> bool
    ensures { result ≡ spec.has_class_bytes model.now (view t.now) }
{
    match t {
        CType::Int(kind) => kind.bytes == class_bytes(model, class_of(*kind)),
        CType::Array(element, _) => has_class_bytes(model, element),
        CType::Pointer(_) | CType::Struct(_) | CType::Void => true,
    }
}

/// The size of a member in bytes.
fn size_of(model: &Model, structs: &Structs, member: &Field) -> u64
    ensures { result ≡ bytes_in (structs_view structs.now) model.now.pointer (field_view member.now).ctype }
{
    let pointer = model.pointer as u64;
    bytes_in(Table { structs, pointer }, &member.ctype)
}

/// Whether a member lies between an offset and the end of the room.
fn is_member_in(model: &Model, structs: &Structs, room: u64, from: u64, member: &Field) -> bool
    ensures { result ≡ spec.is_member_in model.now (structs_view structs.now) room from (field_view member.now) }
{
    let size = size_of(model, structs, member);
    has_class_bytes(model, &member.ctype)
        && (from <= member.offset && ends_by(member.offset, size, room))
}

/// The end of a member that lies in the room.
fn member_end(model: &Model, structs: &Structs, room: u64, from: u64, member: &Field) -> u64
    requires { spec.is_member_in model.now (structs_view structs.now) room from (field_view member.now) ≡ true }
    ensures { result ≡ (field_view member.now).offset + bytes_in (structs_view structs.now) model.now.pointer (field_view member.now).ctype }
{
    member.offset + size_of(model, structs, member)
}

/// Whether members stand in order, each at or behind the end of the one before, up to the end of the
/// room.
fn are_members_in(model: &Model, structs: &Structs, room: u64, members: &[Field]) -> bool
    ensures { result ≡ spec.are_members_in model.now (structs_view structs.now) room 0 (map field_view members.now) }
{
    let mut from = 0;
    for at in 0..members.len() {
        if !is_member_in(model, structs, room, from, &members[at]) {
            return false;
        }
        from = member_end(model, structs, room, from, &members[at]);
    }
    true
}

fn is_laid_apart(model: &Model, structs: &Structs, found: &StructType) -> bool
    ensures { result ≡ spec.is_laid_apart model.now (structs_view structs.now) (struct_view found.now) }
{
    found.size <= MOST_BYTES && are_members_in(model, structs, found.size, found.fields.as_slice())
}

/// Whether the members of each struct stand one behind the other within its size. Each member is
/// looked at once.
pub fn are_laid_apart(model: &Model, structs: &Structs) -> bool
    ensures { result ≡ spec.are_laid_apart model.now (structs_view structs.now) }
{
    for at in 0..structs.items.len() {
        if !is_laid_apart(model, structs, &structs.items[at]) {
            return false;
        }
    }
    true
}
