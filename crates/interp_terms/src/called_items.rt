//! The items of calls.
ghost use Rattle.std.specs.Prelude.{◌≡◌, [], ◌∷◌, ◌++◌, ◌||◌, not, map};
ghost use Rattle.std.specs.Option.{option_map};
ghost use Rattle.c_layout.specs.Types.{view};
ghost use Rattle.c_layout.specs.CheckedTrees.{term_tree, term_trees};
ghost use Rattle.c_layout.specs.CheckedUnits.{UnitView};
ghost use Rattle.lower_expressions.specs.Calls as calls;
ghost use Rattle.semantics.specs.SourceMachine.Items as machine;
ghost use Rattle.semantics.specs.SourceMachine.TermItems as spec;
ghost use Rattle.interp_stack.specs.ItemViews.{type_seen};
ghost use Rattle.interp_stack.specs.StackViews.{with_items, Stacks};

use crate::operated_items::{push_do, push_if_unused};
use c_layout::{CType, CheckedTerm, LibFn};
use cc_base::Place;
use interp_stack::{Item7, Operation7, push_item};
use std::alloc::AllocError;

// Whether no value is to be dropped behind a call that gives one or not.
fn is_kept(used: bool, gives: bool) -> bool
    ensures { result ≡ (used || not gives) }
{
    used || !gives
}

fn push_invoked<'a>(
    control: &mut Vec<Item7<'a>>,
    at: Place,
    function: u32,
    arguments: &'a [CheckedTerm],
    is_used: bool,
) -> Result<(), AllocError>
    ensures { (u : UnitView) → Stacks u (λ s. with_items (spec.arguments (term_trees (map term_tree arguments.now)) ++ machine.Invoke at function (spec.argument_count (term_trees (map term_tree arguments.now))) is_used ∷ []) s) control.old.items result control.new.items }
{
    push_item(
        control,
        Item7::Invoke(at, function, arguments.len(), is_used),
    )?;
    push_item(control, Item7::Values(arguments))?;
    Ok(())
}

/// A call of a function of the unit, which gives a value where the flag is set.
pub fn push_call<'a>(
    control: &mut Vec<Item7<'a>>,
    used: bool,
    at: Place,
    function: u32,
    arguments: &'a [CheckedTerm],
    is_used: bool,
) -> Result<(), AllocError>
    ensures { (u : UnitView) → Stacks u (λ s. with_items (spec.left_if is_used used (spec.arguments (term_trees (map term_tree arguments.now)) ++ machine.Invoke at function (spec.argument_count (term_trees (map term_tree arguments.now))) is_used ∷ [])) s) control.old.items result control.new.items }
{
    push_if_unused(control, is_kept(used, is_used))?;
    push_invoked(control, at, function, arguments, is_used)?;
    Ok(())
}

fn allocated_type<'a>(allocated: &'a Option<CType>) -> Option<&'a CType>
    ensures { type_seen result ≡ option_map view allocated.now }
{
    match allocated {
        Some(t) => Some(t),
        None => None,
    }
}

fn push_asked<'a>(
    control: &mut Vec<Item7<'a>>,
    at: Place,
    function: LibFn,
    arguments: &'a [CheckedTerm],
    allocated: &'a Option<CType>,
) -> Result<(), AllocError>
    ensures { (u : UnitView) → Stacks u (λ s. with_items (spec.library_items at function (term_trees (map term_tree arguments.now)) (option_map view allocated.now)) s) control.old.items result control.new.items }
{
    let target = allocated_type(allocated);
    push_do(
        control,
        at,
        Operation7::Library(function, arguments.len(), target),
    )?;
    push_item(control, Item7::Values(arguments))?;
    Ok(())
}

/// A call of a library function.
pub fn push_library<'a>(
    control: &mut Vec<Item7<'a>>,
    used: bool,
    at: Place,
    function: LibFn,
    arguments: &'a [CheckedTerm],
    allocated: &'a Option<CType>,
) -> Result<(), AllocError>
    ensures { (u : UnitView) → Stacks u (λ s. with_items (spec.left_if (calls.gives function) used (spec.library_items at function (term_trees (map term_tree arguments.now)) (option_map view allocated.now))) s) control.old.items result control.new.items }
{
    push_if_unused(control, is_kept(used, function.gives()))?;
    push_asked(control, at, function, arguments, allocated)?;
    Ok(())
}
