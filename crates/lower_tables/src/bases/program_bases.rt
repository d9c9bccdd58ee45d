//! The bases of a control-flow program, in order of first naming.
ghost use Rattle.std.specs.Prelude.{◌≡◌, ◌++◌, ◌-◌, ◌^◌, IfOk, Some, length, reverse, slice_get, slice_set, map};
ghost use Rattle.c_layout.specs.Types.{view};
ghost use Rattle.c_layout.specs.CheckedUnits.{function_view, unit_view, static_view, static_store_view, literal_view};
ghost use Rattle.lower_templates.specs.Worklist.Pieces.{name_view, target_view};
ghost use Rattle.lower_objects.specs.Counts.SharedObjects.{all_pointed};
ghost use Rattle.c_layout.specs.declared.checked_tree.checked_units.StaticBase.TheVariants as shared;
ghost use Rattle.c_layout.specs.declared.shapes.BaseKind.TheVariants as kind;
ghost use Rattle.lower_tables.specs.Bases.BaseTables as spec;
ghost use Rattle.lower_tables.specs.Bases.BaseTables.{table, named};

use c_layout::{
    BaseInfo, BaseKind, CType, Checked, Function, Shape, StaticBase, StaticStore, StringLiteral,
    type_bytes,
};
use lower_functions::functions::BaseName;
use lower_objects::counts::{all_pointed, literal_type, local_type};
use lower_objects::shapes::{heap_shape, object_shape};
use std::alloc::{AllocError, Global};

/// The bases so far, how many values a row has so far, and the bases of objects of static storage and
/// of literals.
#[derive(Drop)]
pub struct BaseTable {
    pub bases: Vec<BaseInfo>,
    pub width: u32,
    pub objects: Vec<Option<u32>>,
    pub literals: Vec<Option<u32>>,
}

/// How many class cells a heap base has.
const CLASSES: usize = 6;

/// How many values of a row a base has.
fn width_of(shape: &Shape) -> Result<u32, AllocError>
    ensures { IfOk result (λ n. n ≡ spec.width_of shape.now) }
{
    let own = if shape.heap { CLASSES + 1 } else { 0 };
    let cells = shape.cells.as_slice().len();
    let zeros = shape.zeros.as_slice().len();
    let sum = cells.checked_add(zeros).ok_or(AllocError)?;
    let all = sum.checked_add(own).ok_or(AllocError)?;
    u32::try_from(all).ok().ok_or(AllocError)
}

/// Which base a local object has.
fn slot_at(list: &[Option<u32>], slot: usize) -> Result<Option<u32>, AllocError>
    ensures { IfOk result (λ o. slice_get list.now slot ≡ Some o) }
{
    match list.get(slot) {
        Some(found) => Ok(*found),
        None => Err(AllocError),
    }
}

/// The base that a table of made bases has for an object, if it is made already.
pub fn known(list: &[Option<u32>], number: usize) -> Option<u32>
    ensures { result ≡ spec.known list.now number }
{
    match list.get(number) {
        Some(found) => *found,
        None => None,
    }
}

fn note(list: &mut Vec<Option<u32>>, number: usize, base: u32)
    ensures { list.new.items ≡ slice_set list.old.items number (Some base) }
{
    if number < list.len() {
        list[number] = Some(base);
    }
}

impl BaseTable {
    fn add(&mut self, kind: BaseKind, size: u64, shape: Shape) -> Result<u32, AllocError>
        ensures number { IfOk result (λ n. n ≡ length (table self.old).bases) }
        ensures table { IfOk result (λ _. table self.new ≡ spec.added kind size shape (table self.old)) }
    {
        let number = u32::try_from(self.bases.len()).ok().ok_or(AllocError)?;
        let first = self.width;
        self.width = first.checked_add(width_of(&shape)?).ok_or(AllocError)?;
        self.bases.push(BaseInfo {
            kind,
            size,
            first,
            shape,
        })?;
        Ok(number)
    }

    fn add_object(
        &mut self,
        alloc: Global,
        unit: &Checked,
        kind: BaseKind,
        t: &CType,
    ) -> Result<u32, AllocError>
        ensures number { IfOk result (λ n. n ≡ length (table self.old).bases) }
        ensures table { IfOk result (λ _. table self.new ≡ spec.object_added (unit_view unit.now) kind (view t.now) (table self.old)) }
    {
        let shape = object_shape(alloc, t, &unit.structs, &unit.model)?;
        let size = type_bytes(t, &unit.structs, unit.model.pointer)?;
        self.add(kind, size, shape)
    }

    /// The two bases of an allocation; the newest one comes first.
    fn allocation(
        &mut self,
        alloc: Global,
        unit: &Checked,
        target: Option<&CType>,
    ) -> Result<u32, AllocError>
        ensures number { IfOk result (λ n. n ≡ length (table self.old).bases) }
        ensures table { IfOk result (λ _. table self.new ≡ spec.allocated (unit_view unit.now) (target_view target.entry) (table self.old)) }
    {
        let newest = heap_shape(alloc, target, &unit.structs, &unit.model)?;
        let older = heap_shape(alloc, target, &unit.structs, &unit.model)?;
        let number = self.add(BaseKind::Newest, 0, newest)?;
        self.add(BaseKind::Older, 0, older)?;
        Ok(number)
    }

    /// The base of a local object, which is made where the object has none.
    fn local(
        &mut self,
        alloc: Global,
        unit: &Checked,
        function: &Function,
        locals: &mut Vec<Option<u32>>,
        slot: usize,
    ) -> Result<u32, AllocError>
        ensures { IfOk result (λ n. named n (table self.new) locals.new.items ≡ spec.local (unit_view unit.now) (function_view function.now) slot locals.old.items (table self.old)) }
    {
        match slot_at(locals.as_slice(), slot)? {
            Some(base) => Ok(base),
            None => {
                let t = local_type(function, slot);
                let base = self.add_object(alloc, unit, BaseKind::Automatic, t)?;
                note(locals, slot, base);
                Ok(base)
            }
        }
    }

    /// Makes the base of a literal that has none.
    fn add_literal(
        &mut self,
        alloc: Global,
        unit: &Checked,
        number: u32,
        literal: &StringLiteral,
    ) -> Result<(), AllocError>
        ensures { IfOk result (λ _. table self.new ≡ spec.literal_made (unit_view unit.now) number (table self.old) (Some (literal_view literal.now))) }
    {
        let t = literal_type(alloc, unit, literal.bytes.as_bytes().len())?;
        let base = self.add_object(alloc, unit, BaseKind::Literal, &t)?;
        note(&mut self.literals, number as usize, base);
        Ok(())
    }

    fn make_literal(&mut self, alloc: Global, unit: &Checked, number: u32) -> Result<(), AllocError>
        ensures { IfOk result (λ _. table self.new ≡ spec.with_literal (unit_view unit.now) number (table self.old)) }
    {
        match known(self.literals.as_slice(), number as usize) {
            Some(_) => Ok(()),
            None => match unit.literals.get(number as usize) {
                Some(literal) => self.add_literal(alloc, unit, number, literal),
                None => Err(AllocError),
            },
        }
    }

    /// Makes the base of an object of static storage that has none.
    fn add_static(
        &mut self,
        alloc: Global,
        unit: &Checked,
        number: u32,
        t: &CType,
    ) -> Result<(), AllocError>
        ensures { IfOk result (λ _. table self.new ≡ spec.object_noted number (length (table self.old).bases) (spec.object_added (unit_view unit.now) kind.Static (view t.now) (table self.old))) }
    {
        let base = self.add_object(alloc, unit, BaseKind::Static, t)?;
        note(&mut self.objects, number as usize, base);
        Ok(())
    }

    /// Makes the base of an object of static storage, where it has none, and leaves what its
    /// initializer names on the stack, the first store on top.
    fn make_object(
        &mut self,
        alloc: Global,
        unit: &Checked,
        stack: &mut Vec<StaticBase>,
        number: u32,
    ) -> Result<(), AllocError>
        ensures table { IfOk result (λ _. table self.new ≡ spec.with_object (unit_view unit.now) number (table self.old)) }
        ensures stack { IfOk result (λ _. reverse stack.new.items ≡ spec.pointed (unit_view unit.now) number (table self.old) ++ reverse stack.old.items) }
    {
        match known(self.objects.as_slice(), number as usize) {
            Some(_) => Ok(()),
            None => match unit.objects.get(number as usize) {
                Some(object) => {
                    self.add_static(alloc, unit, number, &object.ctype)?;
                    push_pointed(stack, alloc, object.stores.as_slice())
                }
                None => Err(AllocError),
            },
        }
    }

    /// Makes the base of an object or a literal, and leaves what it names on the stack.
    fn make(
        &mut self,
        alloc: Global,
        unit: &Checked,
        stack: &mut Vec<StaticBase>,
        base: StaticBase,
    ) -> Result<(), AllocError>
        ensures table { IfOk result (λ _. table self.new ≡ spec.with_shared (unit_view unit.now) base (table self.old)) }
        ensures stack { IfOk result (λ _. reverse stack.new.items ≡ spec.brought (unit_view unit.now) base (table self.old) ++ reverse stack.old.items) }
    {
        match base {
            StaticBase::Object(number) => self.make_object(alloc, unit, stack, number),
            StaticBase::Literal(number) => self.make_literal(alloc, unit, number),
        }
    }

    /// Makes the bases of what is on the stack, and of all that it leads to.
    #[tactic(auto, using(crate::proofs::bases::Stacks::top, crate::proofs::bases::SharedTurns::nothing_left))]
    fn make_all(
        &mut self,
        alloc: Global,
        unit: &Checked,
        mut stack: Vec<StaticBase>,
    ) -> Result<(), AllocError>
        ensures { IfOk result (λ _. table self.new ≡ spec.with_all (unit_view unit.now) (2 ^ 64 - 1) (reverse stack.items) (table self.old)) }
    {
        for _turn in 0..u64::MAX {
            match stack.pop() {
                Some(base) => self.make(alloc, unit, &mut stack, base)?,
                None => return Ok(()),
            }
        }
        Ok(())
    }

    /// Makes the base of an object or a literal, and of all that it leads to.
    fn make_shared(
        &mut self,
        alloc: Global,
        unit: &Checked,
        first: StaticBase,
    ) -> Result<(), AllocError>
        ensures { IfOk result (λ _. table self.new ≡ spec.with_pointed (unit_view unit.now) first (table self.old)) }
    {
        let mut stack = Vec::new(alloc);
        stack.push(first)?;
        self.make_all(alloc, unit, stack)?;
        Ok(())
    }

    fn object(&mut self, alloc: Global, unit: &Checked, number: u32) -> Result<u32, AllocError>
        ensures number { IfOk result (λ n. n ≡ spec.number_of (spec.known (table self.new).objects number)) }
        ensures table { IfOk result (λ _. table self.new ≡ spec.with_pointed (unit_view unit.now) (shared.Object number) (table self.old)) }
    {
        self.make_shared(alloc, unit, StaticBase::Object(number))?;
        known(self.objects.as_slice(), number as usize).ok_or(AllocError)
    }

    fn literal(&mut self, alloc: Global, unit: &Checked, number: u32) -> Result<u32, AllocError>
        ensures number { IfOk result (λ n. n ≡ spec.number_of (spec.known (table self.new).literals number)) }
        ensures table { IfOk result (λ _. table self.new ≡ spec.with_pointed (unit_view unit.now) (shared.Literal number) (table self.old)) }
    {
        self.make_shared(alloc, unit, StaticBase::Literal(number))?;
        known(self.literals.as_slice(), number as usize).ok_or(AllocError)
    }

    /// The base that a name of a template stands for, in the copy whose local objects have these bases.
    pub fn base(
        &mut self,
        alloc: Global,
        unit: &Checked,
        function: &Function,
        locals: &mut Vec<Option<u32>>,
        name: BaseName,
    ) -> Result<u32, AllocError>
        ensures { IfOk result (λ n. named n (table self.new) locals.new.items ≡ spec.base (unit_view unit.now) (function_view function.now) (name_view name.entry) locals.old.items (table self.old)) }
    {
        match name {
            BaseName::Local(number) => self.local(alloc, unit, function, locals, number as usize),
            BaseName::Outcome => {
                self.local(alloc, unit, function, locals, function.locals.len())
            }
            BaseName::Static(number) => self.object(alloc, unit, number),
            BaseName::Literal(number) => self.literal(alloc, unit, number),
            BaseName::Allocation(target) => self.allocation(alloc, unit, target),
        }
    }
}

/// Puts bases on the stack, the first one on top.
#[tactic(auto, using(crate::proofs::bases::Stacks::pushed))]
fn schedule(stack: &mut Vec<StaticBase>, mut bases: Vec<StaticBase>) -> Result<(), AllocError>
    ensures { IfOk result (λ _. stack.new.items ≡ stack.old.items ++ reverse bases.items) }
{
    while let Some(base) = bases.pop() {
        stack.push(base)?;
    }
    Ok(())
}

/// Leaves what stores point into on the stack, the first one on top.
#[tactic(auto, using(crate::proofs::bases::Stacks::on_top))]
fn push_pointed(
    stack: &mut Vec<StaticBase>,
    alloc: Global,
    stores: &[StaticStore],
) -> Result<(), AllocError>
    ensures { IfOk result (λ _. reverse stack.new.items ≡ all_pointed (map static_store_view stores.now) ++ reverse stack.old.items) }
{
    let bases = all_pointed(alloc, stores)?;
    schedule(stack, bases)
}
