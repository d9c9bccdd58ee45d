//! The objects of static storage and the literals that have bases: those that the code names, and those
//! that the initializers of such objects name.
ghost use Rattle.std.specs.Prelude.{◌≡◌, ◌++◌, ◌-◌, ◌^◌, [], IfOk, map, reverse, slice_get};
ghost use Rattle.std.specs.Option.{option_map};
ghost use Rattle.c_layout.specs.Types.{view};
ghost use Rattle.c_layout.specs.CheckedUnits.{static_store_view, unit_view};
ghost use Rattle.lower_templates.specs.Worklist.Pieces.{name_view, template_view};
ghost use Rattle.lower_objects.specs.Counts.SharedObjects as spec;
ghost use Rattle.lower_objects.specs.Counts.SharedObjects.{sharing};

use crate::counts::object_counts::{
    BaseCount, all_false, both, is_new, no_bases, note, object_base,
};
use c_layout::{CType, Checked, StaticBase, StaticStore, StaticValue};
use cc_base::IntType;
use lower_functions::functions::{BaseName, Template};
use std::alloc::{AllocError, Global};

/// Which ones were counted, by number, and their bases so far.
#[derive(Drop)]
pub struct SharedObjects {
    objects: Vec<bool>,
    literals: Vec<bool>,
    count: BaseCount,
}

/// The type of a literal: an array of plain char with room for the closing zero (6.4.5 of ISO/IEC
/// 9899:2011).
pub fn literal_type(alloc: Global, unit: &Checked, length: usize) -> Result<CType, AllocError>
    ensures { IfOk result (λ t. view t ≡ spec.literal_type unit.now.model.char_signed length) }
{
    let element = CType::Int(IntType {
        bytes: 1,
        signed: unit.model.char_signed,
        rank: 1,
    });
    let count = (length as u64).checked_add(1).ok_or(AllocError)?;
    Ok(CType::Array(Box::new(alloc, element)?, count))
}

/// What a store of an initializer points into.
pub fn pointed_into(store: &StaticStore) -> Option<StaticBase>
    ensures { result ≡ spec.pointed_into (static_store_view store.now) }
{
    match store {
        StaticStore::Value(_, value) => value_base(*value),
        StaticStore::Spell(_, _, _) => None,
    }
}

/// What a value of an initializer points into.
fn value_base(value: StaticValue) -> Option<StaticBase>
    ensures { result ≡ spec.value_base value }
{
    match value {
        StaticValue::Address(base, _, _, _) => Some(base),
        StaticValue::Number(_, _) => None,
        StaticValue::Null => None,
    }
}

/// The base of an object of static storage.
fn object_count(unit: &Checked, number: u32) -> Result<BaseCount, AllocError>
    ensures { IfOk result (λ c. c ≡ spec.object_count (unit_view unit.now).structs (slice_get (unit_view unit.now).objects number)) }
{
    match unit.objects.get(number as usize) {
        Some(object) => object_base(&object.ctype, unit),
        None => Ok(no_bases()),
    }
}

/// What the initializer of an object of static storage names.
fn pointed_from(alloc: Global, unit: &Checked, number: u32) -> Result<Vec<StaticBase>, AllocError>
    ensures { IfOk result (λ v. v.items ≡ spec.pointed_from (slice_get (unit_view unit.now).objects number)) }
{
    match unit.objects.get(number as usize) {
        Some(object) => all_pointed(alloc, object.stores.as_slice()),
        None => Ok(Vec::new(alloc)),
    }
}

/// The base of a literal.
fn literal_count(alloc: Global, unit: &Checked, number: u32) -> Result<BaseCount, AllocError>
    ensures { IfOk result (λ c. c ≡ spec.literal_count (unit_view unit.now) (slice_get (unit_view unit.now).literals number)) }
{
    match unit.literals.get(number as usize) {
        Some(literal) => {
            let kind = literal_type(alloc, unit, literal.bytes.as_bytes().len())?;
            object_base(&kind, unit)
        }
        None => Ok(no_bases()),
    }
}

/// Puts bases on a stack, the last one on top.
#[tactic(auto, using(crate::proofs::counts::SharedTurns::on_top))]
fn push_all(stack: &mut Vec<StaticBase>, bases: &[StaticBase]) -> Result<(), AllocError>
    ensures { IfOk result (λ _. reverse stack.new.items ≡ reverse bases.now ++ reverse stack.old.items) }
{
    stack.extend_from_slice(bases)?;
    Ok(())
}

impl SharedObjects {
    fn add(&mut self, more: BaseCount)
        ensures { sharing self.new ≡ spec.with_more more (sharing self.old) }
    {
        self.count = both(self.count, more);
    }

    /// Counts an object that was not counted before, and leaves what its initializer names on the stack.
    fn count_object(
        &mut self,
        alloc: Global,
        unit: &Checked,
        stack: &mut Vec<StaticBase>,
        number: u32,
    ) -> Result<(), AllocError>
        ensures sharing { IfOk result (λ _. sharing self.new ≡ spec.object_counted (unit_view unit.now) number (sharing self.old)) }
        ensures stack { IfOk result (λ _. reverse stack.new.items ≡ reverse (spec.pointed_from (slice_get (unit_view unit.now).objects number)) ++ reverse stack.old.items) }
    {
        note(&mut self.objects, number as usize);
        self.add(object_count(unit, number)?);
        let named = pointed_from(alloc, unit, number)?;
        push_all(stack, named.as_slice())
    }

    /// Counts a literal that was not counted before.
    fn count_literal(
        &mut self,
        alloc: Global,
        unit: &Checked,
        number: u32,
    ) -> Result<(), AllocError>
        ensures { IfOk result (λ _. sharing self.new ≡ spec.literal_counted (unit_view unit.now) number (sharing self.old)) }
    {
        note(&mut self.literals, number as usize);
        self.add(literal_count(alloc, unit, number)?);
        Ok(())
    }

    /// Counts an object or a literal, where it was not counted before.
    fn visit(
        &mut self,
        alloc: Global,
        unit: &Checked,
        stack: &mut Vec<StaticBase>,
        base: StaticBase,
    ) -> Result<(), AllocError>
        ensures sharing { IfOk result (λ _. sharing self.new ≡ spec.visited (unit_view unit.now) base (sharing self.old)) }
        ensures stack { IfOk result (λ _. reverse stack.new.items ≡ spec.brought (unit_view unit.now) base (sharing self.old) ++ reverse stack.old.items) }
    {
        match base {
            StaticBase::Object(number) => {
                if is_new(self.objects.as_slice(), number as usize) {
                    self.count_object(alloc, unit, stack, number)
                } else {
                    Ok(())
                }
            }
            StaticBase::Literal(number) => {
                if is_new(self.literals.as_slice(), number as usize) {
                    self.count_literal(alloc, unit, number)
                } else {
                    Ok(())
                }
            }
        }
    }

    /// Counts what is on the stack, and all that it leads to.
    #[tactic(auto, using(crate::proofs::counts::SharedTurns::top, crate::proofs::counts::SharedTurns::nothing_left))]
    fn visit_all(
        &mut self,
        alloc: Global,
        unit: &Checked,
        mut stack: Vec<StaticBase>,
    ) -> Result<(), AllocError>
        ensures { IfOk result (λ _. sharing self.new ≡ spec.all_visited (unit_view unit.now) (2 ^ 64 - 1) (reverse stack.items) (sharing self.old)) }
    {
        for _turn in 0..u64::MAX {
            match stack.pop() {
                Some(base) => self.visit(alloc, unit, &mut stack, base)?,
                None => return Ok(()),
            }
        }
        Ok(())
    }
}

fn push_if(list: &mut Vec<StaticBase>, base: Option<StaticBase>) -> Result<(), AllocError>
    ensures { IfOk result (λ _. list.new.items ≡ list.old.items ++ spec.before_all base []) }
{
    match base {
        Some(base) => Ok(list.push(base)?),
        None => Ok(()),
    }
}

/// What stores point into, in order.
#[tactic(auto, using(crate::proofs::counts::SharedTurns::before_rest))]
pub fn all_pointed(alloc: Global, stores: &[StaticStore]) -> Result<Vec<StaticBase>, AllocError>
    ensures { IfOk result (λ v. v.items ≡ spec.all_pointed (map static_store_view stores.now)) }
{
    let mut list = Vec::new(alloc);
    for store in stores {
        push_if(&mut list, pointed_into(store))?;
    }
    Ok(list)
}

fn name_base(name: BaseName) -> Option<StaticBase>
    ensures { result ≡ spec.name_base (name_view name.entry) }
{
    match name {
        BaseName::Static(number) => Some(StaticBase::Object(number)),
        BaseName::Literal(number) => Some(StaticBase::Literal(number)),
        BaseName::Local(_) => None,
        BaseName::Outcome => None,
        BaseName::Allocation(_) => None,
    }
}

#[tactic(auto, using(crate::proofs::counts::SharedTurns::before_rest))]
fn push_names(list: &mut Vec<StaticBase>, names: &[BaseName]) -> Result<(), AllocError>
    ensures { IfOk result (λ _. list.new.items ≡ list.old.items ++ spec.bases_named (map name_view names.now)) }
{
    for name in names {
        push_if(list, name_base(*name))?;
    }
    Ok(())
}

fn push_template(list: &mut Vec<StaticBase>, template: &Option<Template>) -> Result<(), AllocError>
    ensures { IfOk result (λ _. list.new.items ≡ list.old.items ++ spec.template_bases (option_map template_view template.now)) }
{
    match template {
        Some(found) => push_names(list, found.names.as_slice()),
        None => Ok(()),
    }
}

/// What templates name, in order.
fn all_named(alloc: Global, templates: &[Option<Template>]) -> Result<Vec<StaticBase>, AllocError>
    ensures { IfOk result (λ v. v.items ≡ spec.all_bases (map (option_map template_view) templates.now)) }
{
    let mut list = Vec::new(alloc);
    for template in templates {
        push_template(&mut list, template)?;
    }
    Ok(list)
}

/// The bases of objects of static storage and literals that templates name.
pub fn shared_bases(
    alloc: Global,
    unit: &Checked,
    templates: &[Option<Template>],
) -> Result<BaseCount, AllocError>
    ensures { IfOk result (λ c. c ≡ spec.shared_bases (unit_view unit.now) (map (option_map template_view) templates.now)) }
{
    let mut found = SharedObjects {
        objects: all_false(alloc, unit.objects.len())?,
        literals: all_false(alloc, unit.literals.len())?,
        count: no_bases(),
    };
    let stack = all_named(alloc, templates)?;
    found.visit_all(alloc, unit, stack)?;
    Ok(found.count)
}
