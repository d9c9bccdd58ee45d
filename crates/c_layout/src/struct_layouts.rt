//! Laying out a struct, member by member.
ghost use Rattle.std.specs.Prelude.{◌≡◌, ◌≤◌, ◌<◌, IfOk, true, option_map};
ghost use Rattle.c_layout.specs.Types.{view};
ghost use Rattle.c_layout.specs.Models.{is_model};
ghost use Rattle.c_layout.specs.StructViews.{structs_view, struct_view};
ghost use Rattle.c_layout.specs.Layout.{is_complete, round_up};
ghost use Rattle.c_layout.specs.StructLayouts.{partial_view, no_members, added, finished, plain_unit_count, plain_count, folded_unit_count, leaf_count};

use crate::data_model::Model;
use crate::leaf_lists::{after_all, after_long, after_short, count_all, count_short, plus, times};
use crate::sizes::{align_of, size_of};
use crate::struct_table::{Field, StructType, Structs};
use crate::type_terms::CType;
use cc_base::Text;
use std::alloc::{AllocError, Global};

/// The most bytes that a type may have.
pub(crate) const MOST_BYTES: u64 = 1_073_741_824;

/// A struct whose members are laid out one after another.
#[derive(Drop)]
pub struct StructLayout {
    fields: Vec<Field>,
    end: u64,
    align: u64,
    leaves: u64,
    plain_leaves: u64,
}

/// The next multiple of an alignment.
fn rounded(n: u64, align: u64) -> Result<u64, AllocError>
    ensures { IfOk result (λ m. m ≡ round_up n align) }
{
    if align == 0 {
        return Ok(0);
    }
    let end = plus(n, align)?;
    times((end - 1) / align, align)
}

/// How many leaves a type that is no array has, with no array folded.
fn count_plain_unit(t: &CType, structs: &Structs) -> u64
    ensures { result ≡ plain_unit_count (structs_view structs.now) (view t.now) }
{
    match t {
        CType::Struct(index) => match structs.items.get(*index as usize) {
            Some(found) => found.plain_leaves,
            None => 0,
        },
        CType::Int(_) | CType::Pointer(_) | CType::Array(_, _) | CType::Void => 1,
    }
}

fn count_plain(t: &CType, structs: &Structs) -> Result<u64, AllocError>
    ensures { IfOk result (λ n. n ≡ plain_count (structs_view structs.now) (view t.now)) }
{
    let count = count_all(t)?;
    times(count, count_plain_unit(after_all(t), structs))
}

fn count_folded_unit(t: &CType, structs: &Structs) -> Result<u64, AllocError>
    ensures { IfOk result (λ n. n ≡ folded_unit_count (structs_view structs.now) (view t.now)) }
{
    match t {
        CType::Struct(index) => match structs.items.get(*index as usize) {
            Some(found) => Ok(found.leaves),
            None => Ok(0),
        },
        CType::Array(inner, _) => count_plain(after_long(inner), structs),
        CType::Int(_) | CType::Pointer(_) | CType::Void => Ok(1),
    }
}

/// How many leaves a type has, without making them.
pub fn count_leaves(t: &CType, structs: &Structs) -> Result<u64, AllocError>
    ensures { IfOk result (λ n. n ≡ leaf_count (structs_view structs.now) (view t.now)) }
{
    let count = count_short(t)?;
    let unit = count_folded_unit(after_short(t), structs)?;
    times(count, unit)
}

impl StructLayout {
    /// A struct without members.
    pub fn new(alloc: Global) -> StructLayout
        ensures { partial_view result ≡ no_members }
    {
        StructLayout {
            fields: Vec::new(alloc),
            end: 0,
            align: 1,
            leaves: 0,
            plain_leaves: 0,
        }
    }

    /// Adds a member of complete type behind the others, at the next multiple of its alignment.
    pub fn add(
        &mut self,
        name: Text,
        ctype: CType,
        structs: &Structs,
        model: &Model,
    ) -> Result<(), AllocError>
        requires model { is_model model.now ≡ true }
        requires complete { is_complete (structs_view structs.now) model.now.pointer (view ctype) ≡ true }
        ensures { IfOk result (λ _. partial_view self.new ≡ added (structs_view structs.now) model.now.pointer (partial_view self.old) name (view ctype)) }
    {
        let align = align_of(&ctype, structs, model);
        let offset = rounded(self.end, align)?;
        let end = plus(offset, size_of(&ctype, structs, model))?;
        let leaves = plus(self.leaves, count_leaves(&ctype, structs)?)?;
        let plain_leaves = plus(self.plain_leaves, count_plain(&ctype, structs)?)?;
        self.fields.push(Field {
            name,
            ctype,
            offset,
        })?;
        self.end = end;
        self.align = self.align.max(align);
        self.leaves = leaves;
        self.plain_leaves = plain_leaves;
        Ok(())
    }

    /// The complete struct, its size rounded up to its largest alignment; None where it has more
    /// bytes than a type may have.
    pub fn finish(self) -> Result<Option<StructType>, AllocError>
        ensures { IfOk result (λ s. option_map struct_view s ≡ finished (partial_view self)) }
    {
        let size = rounded(self.end, self.align)?;
        if size > MOST_BYTES {
            return Ok(None);
        }
        Ok(Some(StructType {
            fields: self.fields,
            complete: true,
            size,
            align: self.align,
            leaves: self.leaves,
            plain_leaves: self.plain_leaves,
        }))
    }
}
