//! The first bytes of the objects of static storage and the literals.
ghost use Rattle.std.specs.Prelude.{◌≡◌, ◌++◌, IfOk, map};
ghost use Rattle.c_layout.specs.CheckedUnits.{unit_view, static_view, literal_view};
ghost use Rattle.lower_tables.specs.Bases.BaseTables.{table};
ghost use Rattle.lower_tables.specs.Bases.InitialBytes as spec;
ghost use Rattle.lower_templates.specs.Views.ProgramViews.{initial};

use crate::bases::program_bases::{BaseTable, known};
use c_layout::{Checked, StaticBase, StaticObject, StringLiteral, type_bytes};
use cfg::{InitialObject, InitialValue};
use lower_templates::views::store_copies;
use std::alloc::{AllocError, Global};

fn number(at: usize) -> Result<u32, AllocError>
    ensures { IfOk result (λ n. n ≡ at) }
{
    u32::try_from(at).ok().ok_or(AllocError)
}

fn initial_object(
    alloc: Global,
    unit: &Checked,
    bases: &BaseTable,
    at: usize,
    object: &StaticObject,
) -> Result<InitialObject, AllocError>
    ensures { IfOk result (λ o. initial o ≡ spec.initial_object (unit_view unit.now) (table bases.now) at (static_view object.now)) }
{
    let stores = store_copies(alloc, object.stores.as_slice())?;
    Ok(InitialObject {
        object: StaticBase::Object(number(at)?),
        size: type_bytes(&object.ctype, &unit.structs, unit.model.pointer)?,
        base: known(bases.objects.as_slice(), at),
        value: InitialValue::Stores(stores),
    })
}

fn initial_literal(
    alloc: Global,
    bases: &BaseTable,
    at: usize,
    literal: &StringLiteral,
) -> Result<InitialObject, AllocError>
    ensures { IfOk result (λ o. initial o ≡ spec.initial_literal (table bases.now) at (literal_view literal.now)) }
{
    let text = literal.bytes.copy(alloc)?;
    let length = literal.bytes.as_bytes().len() as u64;
    Ok(InitialObject {
        object: StaticBase::Literal(number(at)?),
        size: length.checked_add(1).ok_or(AllocError)?,
        base: known(bases.literals.as_slice(), at),
        value: InitialValue::Literal(text),
    })
}

fn push_objects(
    list: &mut Vec<InitialObject>,
    alloc: Global,
    unit: &Checked,
    bases: &BaseTable,
) -> Result<(), AllocError>
    ensures { IfOk result (λ _. map initial list.new.items ≡ map initial list.old.items ++ spec.objects_from (unit_view unit.now) (table bases.now) 0 (map static_view unit.now.objects.items)) }
{
    for at in 0..unit.objects.len() {
        let object = initial_object(alloc, unit, bases, at, &unit.objects[at])?;
        list.push(object)?;
    }
    Ok(())
}

fn push_literals(
    list: &mut Vec<InitialObject>,
    alloc: Global,
    literals: &[StringLiteral],
    bases: &BaseTable,
) -> Result<(), AllocError>
    ensures { IfOk result (λ _. map initial list.new.items ≡ map initial list.old.items ++ spec.literals_from (table bases.now) 0 (map literal_view literals.now)) }
{
    for at in 0..literals.len() {
        let literal = initial_literal(alloc, bases, at, &literals[at])?;
        list.push(literal)?;
    }
    Ok(())
}

/// All objects of static storage and then all literals of a unit, in order.
pub fn initial_objects(
    alloc: Global,
    unit: &Checked,
    bases: &BaseTable,
) -> Result<Vec<InitialObject>, AllocError>
    ensures { IfOk result (λ v. map initial v.items ≡ spec.initial_objects (unit_view unit.now) (table bases.now)) }
{
    let mut list = Vec::new(alloc);
    push_objects(&mut list, alloc, unit, bases)?;
    push_literals(&mut list, alloc, unit.literals.as_slice(), bases)?;
    Ok(list)
}
