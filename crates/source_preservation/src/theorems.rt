//! Theorems of progress and preservation for the source semantics.
ghost use Rattle.source_preservation.specs.Theorems as spec;

use simulation_layout::regular_jumps_stand;
use source_items::operations::{lines_have_steps, operations_have_steps, operations_keep_kinds};

// ---- A term that passes the look has operands of their marks.

/// A term that passes the look is marked.
pub fn looks_mark_terms()
    ensures { spec.LooksMarkTerms }
{}

/// A condition that passes the look is marked, and its tests are decided.
pub fn looks_mark_conditions()
    ensures { spec.LooksMarkConditions }
{}

// ---- Items of marked terms, statements and functions do to marks what is known of them.

/// What an item does to the marks of pending values is done by the items that it gives place to.
pub fn expanded_items_do()
    ensures { spec.ExpandedItemsDo }
{}

/// From each label of a marked function on, items lead from no pending values to what the function leaves.
pub fn labels_do()
    ensures { spec.LabelsDo }
{}

/// A marked function leads from the values of its parameters to what it leaves.
pub fn functions_do()
    ensures { spec.FunctionsDo }
{}

// ---- In each run of the source, a function names an object just where it lives.

/// In each run of a unit whose objects are named in their scopes, and whose jumps have their loops and switches, each
/// function names just the objects that live where it stands: what it enters is not named yet, and what it uses or
/// leaves is.
pub fn objects_live_where_named()
    ensures { spec.ObjectsLiveWhereNamed }
{}

// ---- Operations on values of the marks that they take have a step, give values of the marks that they say, and
// keep memory proper.

/// An operation on values of the marks that it takes is not stuck; where it goes on, it has put values of the marks that
/// it gives in their place, and memory stays proper.
pub fn operations_keep_marks()
    ensures { spec.OperationsKeepMarks }
{
    operations_have_steps();
    operations_keep_kinds();
}

/// To read a line is not stuck; where it goes on, it has given a pointer or null, and memory stays proper.
pub fn lines_keep_marks()
    ensures { spec.LinesKeepMarks }
{
    lines_have_steps();
}

// ---- Each step of a run of the source is defined, where the unit is marked and scoped.

/// In each run of a unit whose terms have operands of the marks that they take, whose objects are named in their scopes,
/// and whose jumps have their loops and switches, pending values have the marks that what is left to do takes.
pub fn runs_keep_marks()
    ensures { spec.RunsKeepMarks }
{
    turns_keep_marks();
    objects_live_where_named();
}

/// A run of such a unit is never stuck.
pub fn runs_are_never_stuck()
    ensures { spec.RunsAreNeverStuck }
{
    turns_keep_marks();
    objects_live_where_named();
}

// ---- A turn of the source on values of the marks that are taken is not stuck, and leaves such values.

/// A turn of a unit whose terms have operands of the marks that their operators take, and whose `break` and `continue`
/// stand in loops and switches, from a state whose values have the marks that what is left to do takes, and whose
/// functions name just the objects that live where they stand, goes on to a state with such values, or stops at a step
/// that is defined: it is never stuck.
pub fn turns_keep_marks()
    ensures { spec.TurnsKeepMarks }
{
    operations_keep_marks();
    lines_keep_marks();
}

// ---- A unit that passes the looks has terms with operands of their marks, and names only what lives.

/// A unit that passes the look at its terms is marked.
pub fn looks_mark()
    ensures { spec.LooksMark }
{}

/// A unit that passes the look at its scopes is scoped.
pub fn looks_scope()
    ensures { spec.LooksScope }
{}

/// The jumps of a unit that passes the look at its terms stand where they have something to leave.
pub fn looks_stand()
    ensures { spec.LooksStand }
{
    regular_jumps_stand();
}
