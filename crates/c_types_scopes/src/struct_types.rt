//! The structs of a unit while it is typed (6.7.2.1 of ISO/IEC 9899:2011).
ghost use Rattle.std.specs.Prelude.{◌≡◌, Some, length, slice_get, IfOk, option_map};
ghost use Rattle.c_layout.specs.Types.{view};
ghost use Rattle.c_layout.specs.StructViews.{struct_view, structs_view, no_struct};
ghost use Rattle.c_types_scopes.specs.StructTables as spec;
ghost use Rattle.c_types_scopes.specs.StructTables.{types_view, member_view};

use c_layout::{CType, Field, StructType, Structs};
use cc_base::Memory;
use indexmap::{IndexMap, IndexSet};
use std::alloc::Global;

/// A member by its struct and the number of its name.
#[derive(Clone, Copy, PartialEq, Eq, Hash)]
struct MemberKey {
    owner: u32,
    name: u32,
}

/// Where a member stands, and the enumerated type that its declaration names.
#[derive(Clone, Copy)]
struct MemberEntry {
    field: u32,
    enumeration: Option<u32>,
}

/// A member that was found.
#[derive(Drop)]
pub struct FoundMember<'a> {
    pub field: &'a Field,
    pub enumeration: Option<u32>,
}

/// The structs so far, with their members by name.
#[derive(Drop)]
pub struct StructTypes {
    pub structs: Structs,
    members: IndexMap<MemberKey, MemberEntry>,
    /// The structs whose bodies were met.
    bodies: IndexSet<u32>,
}

/// A struct without members that is not complete.
fn incomplete(alloc: Global) -> StructType
    ensures { struct_view result ≡ no_struct }
{
    StructType {
        fields: Vec::new(alloc),
        complete: false,
        size: 0,
        align: 1,
        leaves: 0,
        plain_leaves: 0,
    }
}

/// A field of a struct, as a member that was found.
fn field_of(owner: &StructType, entry: MemberEntry) -> Option<FoundMember<'_>>
    ensures { option_map member_view result ≡ spec.field_of entry (Some (struct_view owner.now)) }
{
    match owner.fields.get(entry.field as usize) {
        Some(field) => Some(FoundMember {
            field,
            enumeration: entry.enumeration,
        }),
        None => None,
    }
}

/// The field of a struct that an entry says.
fn member_of(structs: &Structs, owner: u32, entry: MemberEntry) -> Option<FoundMember<'_>>
    ensures { option_map member_view result ≡ spec.field_of entry (slice_get (structs_view structs.now) owner) }
{
    match structs.items.get(owner as usize) {
        Some(found) => field_of(found, entry),
        None => None,
    }
}

impl StructTypes {
    /// No struct.
    pub fn new(alloc: Global) -> StructTypes
        ensures { types_view result ≡ spec.no_types }
    {
        StructTypes {
            structs: Structs {
                items: Vec::new(alloc),
            },
            members: IndexMap::new(alloc),
            bodies: IndexSet::new(alloc),
        }
    }

    /// Declares a struct; its number.
    pub fn declare(&mut self, alloc: Global) -> Result<u32, Memory>
        ensures number { IfOk result (λ n. n ≡ length (types_view self.old).structs) }
        ensures after { IfOk result (λ _. types_view self.new ≡ spec.with_struct (types_view self.old)) }
    {
        let number = u32::try_from(self.structs.items.len()).map_err(|_| Memory)?;
        self.structs.items.push(incomplete(alloc))?;
        Ok(number)
    }

    /// Whether a struct is complete.
    pub fn is_complete(&self, number: u32) -> bool
        ensures { result ≡ spec.is_complete (types_view self.now) number }
    {
        match self.structs.items.get(number as usize) {
            Some(found) => found.complete,
            None => false,
        }
    }

    /// Notes that a body of a struct begins; whether one did before.
    pub fn begin_body(&mut self, number: u32) -> Result<bool, Memory>
        ensures before { IfOk result (λ b. b ≡ spec.has_body (types_view self.old) number) }
        ensures after { IfOk result (λ _. types_view self.new ≡ spec.with_body (types_view self.old) number) }
    {
        let before = self.bodies.contains(&number);
        self.bodies.insert(number)?;
        Ok(before)
    }

    /// Whether a struct has a member of this name so far.
    pub fn has_member(&self, owner: u32, name: u32) -> bool
        ensures { result ≡ spec.has_member (types_view self.now) owner name }
    {
        self.members.get(&MemberKey { owner, name }).is_some()
    }

    /// Notes a member: it is the field with this number.
    pub fn note_member(
        &mut self,
        owner: u32,
        name: u32,
        field: u32,
        enumeration: Option<u32>,
    ) -> Result<(), Memory>
        ensures { IfOk result (λ _. types_view self.new ≡ spec.with_member (types_view self.old) owner name field enumeration) }
    {
        let entry = MemberEntry { field, enumeration };
        self.members.insert(MemberKey { owner, name }, entry)?;
        Ok(())
    }

    /// Completes a struct.
    pub fn complete(&mut self, number: u32, made: StructType)
        ensures { types_view self.new ≡ spec.with_complete (types_view self.old) number (struct_view made) }
    {
        if let Some(place) = self.structs.items.get_mut(number as usize) {
            *place = made;
        }
    }

    /// A member of a complete struct.
    pub fn member(&self, owner: u32, name: u32) -> Option<FoundMember<'_>>
        ensures { option_map member_view result ≡ spec.member (types_view self.now) owner name }
    {
        match self.members.get(&MemberKey { owner, name }) {
            Some(entry) => member_of(&self.structs, owner, *entry),
            None => None,
        }
    }

    /// The number of the struct that a type is.
    pub fn struct_of(t: &CType) -> Option<u32>
        ensures { result ≡ spec.struct_of (view t.now) }
    {
        match t {
            CType::Struct(number) => Some(*number),
            CType::Int(_) => None,
            CType::Pointer(_) => None,
            CType::Array(_, _) => None,
            CType::Void => None,
        }
    }
}
