//! An order in which each struct holds earlier ones alone. Structs are entered and left as in a search
//! in depth; what the search takes up is no proof by itself, but what is marked is known.
ghost use Rattle.std.specs.Prelude.{◌≡◌, true, IfOk};
ghost use Rattle.std.specs.List.{list_all};
ghost use Rattle.c_layout.specs.StructViews.{structs_view};
ghost use Rattle.analysis_preconditions.specs.StructNesting.OrderedStructs.{are_ordered};
ghost use Rattle.analysis_preconditions.specs.StructNesting.KnownStructs.{AreKnown};

use crate::struct_nesting::known_structs::{is_known, mark};
use c_layout::{CType, Field, Structs};
use cc_base::Memory;
use std::alloc::Global;

/// What is left of a search: a struct is to be entered, or left behind all that it holds.
#[derive(Clone, Copy)]
enum Turn {
    Enter(u32),
    Leave(u32),
}

/// The struct in a type, through arrays.
fn struct_in(t: &CType) -> Option<u32> {
    match t {
        CType::Array(element, _) => struct_in(element),
        CType::Struct(index) => Some(*index),
        CType::Int(_) | CType::Pointer(_) | CType::Void => None,
    }
}

/// Takes up the structs of members that are not known.
fn take_up(turns: &mut Vec<Turn>, known: &[bool], members: &[Field]) -> Result<(), Memory> {
    for member in members {
        if let Some(index) = struct_in(&member.ctype) {
            if !is_known(known, index) {
                turns.push(Turn::Enter(index))?;
            }
        }
    }
    Ok(())
}

/// Enters a struct, once.
fn enter(
    turns: &mut Vec<Turn>,
    entered: &mut [bool],
    structs: &Structs,
    known: &[bool],
    index: u32,
) -> Result<(), Memory> {
    let at = index as usize;
    if at < entered.len() {
        if !entered[at] {
            entered[at] = true;
            turns.push(Turn::Leave(index))?;
            if let Some(found) = structs.items.get(at) {
                take_up(turns, known, found.fields.as_slice())?;
            }
        }
    }
    Ok(())
}

/// Marks structs behind those that they hold, until nothing is left to be done.
#[tactic(auto, using(crate::proofs::struct_nesting::KnownStructs::marked_known))]
fn search(
    turns: &mut Vec<Turn>,
    entered: &mut [bool],
    structs: &Structs,
    known: &mut [bool],
) -> Result<(), Memory>
    requires { AreKnown (structs_view structs.now) known.old }
    ensures { IfOk result (λ _. AreKnown (structs_view structs.now) known.new) }
{
    for _turn in 0..u64::MAX {
        match turns.pop() {
            None => return Ok(()),
            Some(Turn::Enter(index)) => enter(turns, entered, structs, known, index)?,
            Some(Turn::Leave(index)) => mark(structs, known, index as usize),
        }
    }
    Ok(())
}

/// All structs of a table are to be entered.
fn all_turns(alloc: Global, structs: &Structs) -> Result<Vec<Turn>, Memory> {
    let mut turns = Vec::new(alloc);
    for at in 0..structs.items.len() {
        turns.push(Turn::Enter(u32::try_from(at).map_err(|_| Memory)?))?;
    }
    Ok(turns)
}

fn all_known(known: &[bool]) -> bool
    ensures { result ≡ list_all (λ k. k) known.now }
{
    known.iter().all(|found| *found)
}

/// The structs of a table that a search finds to stand in no circle.
#[tactic(auto, using(crate::proofs::struct_nesting::KnownStructs::first_known))]
fn known_structs(alloc: Global, structs: &Structs) -> Result<Vec<bool>, Memory>
    ensures { IfOk result (λ known. AreKnown (structs_view structs.now) known.items) }
{
    let mut known = vec![in alloc; false; structs.items.len()]?;
    let mut entered = vec![in alloc; false; structs.items.len()]?;
    let mut turns = all_turns(alloc, structs)?;
    search(
        &mut turns,
        entered.as_mut_slice(),
        structs,
        known.as_mut_slice(),
    )?;
    Ok(known)
}

/// Sees that structs stand in no circle and have no members without a type. Each struct and each member
/// is looked at a few times.
///
/// # Errors
///
/// Out of memory, to which structs come that stand in a circle, or have members of no type.
#[tactic(auto, using(crate::proofs::struct_nesting::KnownStructs::known_ordered))]
pub fn see_order(alloc: Global, structs: &Structs) -> Result<(), Memory>
    ensures { IfOk result (λ _. are_ordered (structs_view structs.now) ≡ true) }
{
    let known = known_structs(alloc, structs)?;
    if all_known(known.as_slice()) {
        Ok(())
    } else {
        Err(Memory)
    }
}
