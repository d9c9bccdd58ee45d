//! What an initializer does to its object (6.7.9 of ISO/IEC 9899:2011).
ghost use Rattle.std.specs.Prelude.{◌≡◌, IfOk};
ghost use Rattle.c_layout.specs.Types.{view};
ghost use Rattle.c_types_scopes.specs.Known.{known};
ghost use Rattle.c_types_scopes.specs.Answers.{Gives};
ghost use Rattle.c_types_operands.specs.Operands as operands;
ghost use Rattle.c_types_operands.specs.Operands.{operand_view};
ghost use Rattle.c_types_operands.specs.Conversions as conversions;
ghost use Rattle.c_types_operators.specs.Assignments as assignments;
ghost use Rattle.c_types_initializers.specs.ListStores.{filling_view};
ghost use Rattle.c_types_initializers.specs.Initialized as spec;
ghost use Rattle.c_types_initializers.specs.Initialized.{initialized_view};

use crate::list_stores::Filling;
use crate::literals::{length_or, literal_length, with_length};
use c_layout::{CType, CheckedTerm, InitStore, Lvalue};
use c_types_operands::{Operand, assigned, is_scalar, is_struct, term_of};
use c_types_operators::struct_source;
use c_types_scopes::{Context, type_fault};
use cc_base::{Memory, Place, Stop, Text};

/// What an initializer does to its object.
#[derive(Drop)]
pub enum Initialized {
    /// A scalar by an expression.
    Scalar(Box<CheckedTerm>),
    /// A struct by another one.
    Struct(Box<Lvalue>),
    /// A list in braces or a literal: the stores over an object that is all zero.
    List(Vec<InitStore>),
}

/// A literal that initializes an array of characters of so much room, or of no length yet.
fn by_literal(cx: &Context, room: u64, bytes: &Text) -> Result<Initialized, Memory>
    ensures { IfOk result (λ made. initialized_view made ≡ spec.by_literal room bytes.now) }
{
    let room = length_or(room, literal_length(bytes)?);
    let mut stores = Vec::new(cx.alloc);
    stores.push(InitStore::Spell(0, room, bytes.copy(cx.alloc)?))?;
    Ok(Initialized::List(stores))
}

/// An array of characters by a literal, and its type with its length.
pub fn spelled(
    cx: &Context,
    ctype: CType,
    room: u64,
    bytes: &Text,
) -> Result<(Initialized, CType), Memory>
    ensures { IfOk result (λ made. (initialized_view made.0, view made.1) ≡ spec.spelled (view ctype) room bytes.now) }
{
    let made = by_literal(cx, room, bytes)?;
    let count = literal_length(bytes)?;
    Ok((made, with_length(ctype, count)))
}

/// An object by a list of which so many subobjects were reached, and its type with its length.
pub fn filled(filling: Filling, ctype: CType, passed: u64) -> Result<(Initialized, CType), Stop>
    ensures { Gives (λ made. (initialized_view made.0, view made.1)) (spec.filled (filling_view filling) (view ctype) passed) result }
{
    let Filling { stores, fault } = filling;
    match fault {
        Some(fault) => Err(Stop::Refused(fault)),
        None => Ok((Initialized::List(stores), with_length(ctype, passed))),
    }
}

/// A scalar by a value.
fn scalar_by(
    cx: &Context,
    equals: Place,
    ctype: &CType,
    operand: Operand,
) -> Result<Initialized, Stop>
    ensures { Gives initialized_view (spec.scalar_by (conversions.assigned (known cx.now) equals (operands.term_of (operand_view operand)) (view ctype.now))) result }
{
    let from = term_of(cx.alloc, operand)?;
    Ok(Initialized::Scalar(assigned(cx, equals, from, ctype)?))
}

/// A struct by a value.
fn struct_by(equals: Place, ctype: &CType, operand: Operand) -> Result<Initialized, Stop>
    ensures { Gives initialized_view (spec.struct_by equals (assignments.struct_source (operand_view operand) (view ctype.now))) result }
{
    match struct_source(operand, ctype) {
        Some(source) => Ok(Initialized::Struct(source)),
        None => Err(type_fault(equals)),
    }
}

/// An object by the value of an expression that is no literal for an array of characters.
pub fn by_operand(
    cx: &Context,
    equals: Place,
    ctype: &CType,
    operand: Operand,
) -> Result<Initialized, Stop>
    ensures { Gives initialized_view (spec.by_operand (known cx.now) equals (view ctype.now) (operand_view operand)) result }
{
    if is_scalar(ctype) {
        scalar_by(cx, equals, ctype, operand)
    } else if is_struct(ctype) {
        struct_by(equals, ctype, operand)
    } else {
        Err(type_fault(equals))
    }
}
