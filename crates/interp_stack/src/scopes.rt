//! The objects that live where items are come to, and what jumps leave and enter.
ghost use Rattle.std.specs.Prelude.{◌≡◌, ◌++◌, ◌∷◌, [], reverse, IfOk};
ghost use Rattle.c_layout.specs.CheckedUnits.{UnitView};
ghost use Rattle.lower_functions.specs.Functions.Functions.{numbers_from};
ghost use Rattle.semantics.specs.SourceMachine.Scopes as machine;
ghost use Rattle.interp_stack.specs.Jumps.{jump_from, entering_from};
ghost use Rattle.interp_stack.specs.Scans.{scopes_view, Scans};
ghost use Rattle.interp_stack.specs.StackViews.{StackView, on_item, standing};

use crate::items::Item7;
use crate::store_items::push_item;
use std::alloc::{AllocError, Global};

// ---- scopes

// Numbers from one on, so many, the last one first.
fn push_numbers(list: &mut Vec<u32>, from: u32, count: u32) -> Result<(), AllocError>
    ensures { IfOk result (λ _. list.new.items ≡ list.old.items ++ reverse (numbers_from from count)) }
{
    let mut k = count;
    'back: while k > 0 {
        k -= 1;
        match from.checked_add(k) {
            Some(number) => list.push(number)?,
            None => return Err(AllocError),
        }
    }
    Ok(())
}

fn push_number(list: &mut Vec<u32>, number: u32) -> Result<(), AllocError>
    ensures { IfOk result (λ _. list.new.items ≡ list.old.items ++ number ∷ []) }
{
    list.push(number)?;
    Ok(())
}

fn add_own(
    alloc: Global,
    scopes: &mut Vec<Vec<u32>>,
    below: &mut Vec<u32>,
    objects: &[u32],
) -> Result<(), AllocError>
    ensures scopes { IfOk result (λ _. scopes_view scopes.new.items ≡ scopes_view scopes.old.items ++ objects.now ∷ []) }
    ensures below { below.new.items ≡ [] }
{
    below.clear();
    let scope = Vec::from_slice(alloc, objects)?;
    scopes.push(scope)?;
    Ok(())
}

fn add_below(
    alloc: Global,
    scopes: &mut Vec<Vec<u32>>,
    below: &mut Vec<u32>,
) -> Result<(), AllocError>
    ensures scopes { IfOk result (λ _. scopes_view scopes.new.items ≡ scopes_view scopes.old.items ++ reverse below.old.items ∷ []) }
    ensures below { IfOk result (λ _. below.new.items ≡ []) }
{
    let mut scope = Vec::from_slice(alloc, below.as_slice())?;
    scope.reverse();
    scopes.push(scope)?;
    below.clear();
    Ok(())
}

// An entry more: the scopes, the outermost one first, and the objects of the entries below, the last
// one first.
fn add_scope(
    alloc: Global,
    scopes: &mut Vec<Vec<u32>>,
    below: &mut Vec<u32>,
    item: &Item7,
) -> Result<(), AllocError>
    ensures { (u : UnitView) (s : StackView) → Scans scopes.old.items below.old.items s → IfOk result (λ _. Scans scopes.new.items below.new.items (on_item u item.now s)) }
{
    match item {
        Item7::Leaves(objects) => add_own(alloc, scopes, below, objects),
        Item7::LeavesBelow => add_below(alloc, scopes, below),
        Item7::Also(object) => push_number(below, *object),
        Item7::AlsoFrom(from, count) => push_numbers(below, *from, *count),
        _ => {
            below.clear();
            Ok(())
        }
    }
}

/// The scopes that are still left on the way to the end of the function, the innermost one first.
pub fn open_scopes(alloc: Global, control: &[Item7]) -> Result<Vec<Vec<u32>>, AllocError>
    ensures { (u : UnitView) → IfOk result (λ scopes. scopes_view scopes.items ≡ machine.open_scopes (standing u control.now).items) }
{
    let mut scopes = Vec::new(alloc);
    let mut below = Vec::new(alloc);
    for item in control {
        add_scope(alloc, &mut scopes, &mut below, item)?;
    }
    scopes.reverse();
    Ok(scopes)
}

fn has(scope: &[u32], object: u32) -> bool
    ensures { result ≡ machine.is_in object scope.now }
{
    for one in scope {
        if object == *one {
            return true;
        }
    }
    false
}

// Whether one of the scopes has an object.
fn is_open(scopes: &[Vec<u32>], object: u32) -> bool
    ensures { result ≡ machine.is_in object (machine.all_of (scopes_view scopes.now)) }
{
    for scope in scopes {
        if has(scope.as_slice(), object) {
            return true;
        }
    }
    false
}

// The objects of a scope that no known scope has.
fn push_unknown(list: &mut Vec<u32>, known: &[Vec<u32>], scope: &[u32]) -> Result<(), AllocError>
    ensures { IfOk result (λ _. list.new.items ≡ list.old.items ++ machine.without (machine.all_of (scopes_view known.now)) scope.now) }
{
    for object in scope {
        if !is_open(known, *object) {
            list.push(*object)?;
        }
    }
    Ok(())
}

// What lives at one place and not at another, innermost scope first.
fn left_between(alloc: Global, from: &[Vec<u32>], to: &[Vec<u32>]) -> Result<Vec<u32>, AllocError>
    ensures { IfOk result (λ left. left.items ≡ machine.without (machine.all_of (scopes_view to.now)) (machine.all_of (scopes_view from.now))) }
{
    let mut left = Vec::new(alloc);
    for scope in from {
        push_unknown(&mut left, to, scope.as_slice())?;
    }
    Ok(left)
}

// Scopes are entered inwards, the objects of each in order of declaration.
fn entered_between(
    alloc: Global,
    from: &[Vec<u32>],
    to: &[Vec<u32>],
) -> Result<Vec<u32>, AllocError>
    ensures { IfOk result (λ entered. entered.items ≡ machine.without (machine.all_of (scopes_view from.now)) (machine.inwards (scopes_view to.now))) }
{
    let mut entered = Vec::new(alloc);
    let mut k = to.len();
    'back: while k > 0 {
        k -= 1;
        push_unknown(&mut entered, from, to[k].as_slice())?;
    }
    Ok(entered)
}

// ---- jumps

/// Objects that the item above enters or leaves.
pub fn push_objects(control: &mut Vec<Item7>, objects: &[u32]) -> Result<(), AllocError>
    ensures { (u : UnitView) → IfOk result (λ _. ((standing u control.new.items).items ≡ (standing u control.old.items).items) × ((standing u control.new.items).objects ≡ objects.now ++ (standing u control.old.items).objects)) }
{
    let mut k = objects.len();
    'back: while k > 0 {
        k -= 1;
        push_item(control, Item7::Also(objects[k]))?;
    }
    Ok(())
}

/// A jump from where some scopes are open to the items that are pushed: it leaves what is left and
/// enters what is entered, and goes on there.
pub fn jump(alloc: Global, control: &mut Vec<Item7>, from: &[Vec<u32>]) -> Result<(), AllocError>
    ensures { (u : UnitView) → IfOk result (λ _. (standing u control.new.items).items ≡ jump_from (scopes_view from.now) (standing u control.old.items).items) }
{
    let to = open_scopes(alloc, control.as_slice())?;
    let entered = entered_between(alloc, from, to.as_slice())?;
    let left = left_between(alloc, from, to.as_slice())?;
    push_item(control, Item7::Hop)?;
    push_objects(control, entered.as_slice())?;
    push_item(control, Item7::EntersBelow)?;
    push_objects(control, left.as_slice())?;
    push_item(control, Item7::LeavesBelow)?;
    Ok(())
}

fn push_entered(control: &mut Vec<Item7>, objects: &[u32]) -> Result<(), AllocError>
    ensures { (u : UnitView) → IfOk result (λ _. (standing u control.new.items).items ≡ machine.entering_first objects.now (standing u control.old.items).items) }
{
    if objects.is_empty() {
        return Ok(());
    }
    push_item(control, Item7::Hop)?;
    push_objects(control, objects)?;
    push_item(control, Item7::EntersBelow)?;
    Ok(())
}

/// The way to a label of a switch is a step of its own where it enters something.
pub fn enter_first(
    alloc: Global,
    control: &mut Vec<Item7>,
    from: &[Vec<u32>],
) -> Result<(), AllocError>
    ensures { (u : UnitView) → IfOk result (λ _. (standing u control.new.items).items ≡ entering_from (scopes_view from.now) (standing u control.old.items).items) }
{
    let to = open_scopes(alloc, control.as_slice())?;
    let entered = entered_between(alloc, from, to.as_slice())?;
    push_entered(control, entered.as_slice())?;
    Ok(())
}

/// What follows the end of the innermost loop or switch.
pub fn drop_loop(control: &mut Vec<Item7>)
    ensures { (u : UnitView) → (standing u control.new.items).items ≡ machine.past_loop (standing u control.old.items).items }
{
    while let Some(item) = control.pop() {
        match item {
            Item7::LoopEnd => return,
            _ => {}
        }
    }
}

/// What follows the end of the innermost loop's turn.
pub fn drop_turn(control: &mut Vec<Item7>)
    ensures { (u : UnitView) → (standing u control.new.items).items ≡ machine.past_iteration (standing u control.old.items).items }
{
    while let Some(item) = control.pop() {
        match item {
            Item7::IterationEnd => return,
            _ => {}
        }
    }
}
