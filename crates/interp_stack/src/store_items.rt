//! The items of the stores of initializers.
ghost use Rattle.std.specs.Prelude.{◌≡◌, [], ◌∷◌};
ghost use Rattle.c_layout.specs.CheckedTrees.{term_tree, lvalue_tree};
ghost use Rattle.c_layout.specs.CheckedUnits.{UnitView};
ghost use Rattle.lower_templates.specs.Worklist.TermKinds.{scalar_of, term_type, lvalue_type};
ghost use Rattle.semantics.specs.SourceMachine.Operations as op;
ghost use Rattle.semantics.specs.SourceMachine.Items as machine;
ghost use Rattle.interp_stack.specs.StackViews.{on_item, with_items, Stacks};

use crate::items::{Item7, Operation7, Use7};
use c_layout::{CheckedTerm, Lvalue};
use cc_base::Place;
use lower_templates::worklist::scalar;
use std::alloc::AllocError;

// An item behind a list that is full.
#[cold]
#[inline(never)]
fn push_grown<'a>(control: &mut Vec<Item7<'a>>, item: Item7<'a>) -> Result<(), AllocError>
    ensures { (u : UnitView) → Stacks u (λ s. on_item u item.entry s) control.old.items result control.new.items }
{
    control.push(item)?;
    Ok(())
}

/// An item.
#[inline(always)]
pub fn push_item<'a>(control: &mut Vec<Item7<'a>>, item: Item7<'a>) -> Result<(), AllocError>
    ensures { (u : UnitView) → Stacks u (λ s. on_item u item.entry s) control.old.items result control.new.items }
{
    if control.len() < control.capacity() {
        control.push_reserved(item);
        return Ok(());
    }
    push_grown(control, item)
}

/// The items that store a scalar behind the pointer to where it is stored.
pub fn push_store<'a>(
    control: &mut Vec<Item7<'a>>,
    at: Place,
    value: &'a CheckedTerm,
) -> Result<(), AllocError>
    ensures { (u : UnitView) → Stacks u (λ s. with_items (machine.Value (term_tree value.now) ∷ (machine.Do at (op.Store (scalar_of (term_type (term_tree value.now)))) ∷ (machine.Drop ∷ []))) s) control.old.items result control.new.items }
{
    push_item(control, Item7::Drop)?;
    push_item(
        control,
        Item7::Do(at, Operation7::Store(scalar(&value.ctype))),
    )?;
    push_item(control, Item7::Term(Use7::Value, value))?;
    Ok(())
}

/// The items that copy a struct behind the pointer to where it is copied.
pub fn push_copy<'a>(
    control: &mut Vec<Item7<'a>>,
    at: Place,
    source: &'a Lvalue,
) -> Result<(), AllocError>
    ensures { (u : UnitView) → Stacks u (λ s. with_items (machine.Address (lvalue_tree source.now) ∷ (machine.Do at (op.Copy (lvalue_type (lvalue_tree source.now))) ∷ (machine.Drop ∷ []))) s) control.old.items result control.new.items }
{
    push_item(control, Item7::Drop)?;
    push_item(control, Item7::Do(at, Operation7::Copy(&source.ctype)))?;
    push_item(control, Item7::Address(source))?;
    Ok(())
}
