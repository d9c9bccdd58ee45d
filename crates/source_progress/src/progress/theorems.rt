//! Where values have their kinds and objects are named where they live, a run of the source is stuck at most at a step
//! that asks for a value.
ghost use Rattle.source_progress.specs.Progress.Progress.{TurnsHaveSteps, RunsHaveSteps, RunsAreStuckAtOpenSteps};

use crate::stack_kinds::runs_keep_kinds;
use source_items::operations::{lines_have_steps, operations_have_steps, stores_have_steps};
use source_preservation::objects_live_where_named;

/// A turn from a state whose values have their kinds, and whose functions name just the objects that live where they
/// stand, is stuck at most at a condition with a test, a switch on a named object, or where a number other than 0 is
/// made a pointer.
pub fn turns_have_steps()
    ensures { TurnsHaveSteps }
{
    operations_have_steps();
    stores_have_steps();
    lines_have_steps();
}

/// In each run of a unit whose terms have operands of their kinds, whose objects are named in their scopes, whose jumps
/// have their loops and switches, and whose entry takes integers, the next turn is stuck at most at such a step.
pub fn runs_have_steps()
    ensures { RunsHaveSteps }
{
    turns_have_steps();
    runs_keep_kinds();
    objects_live_where_named();
}

/// A run of such a unit that is stuck was stuck in a turn at such a step.
pub fn runs_are_stuck_at_open_steps()
    ensures { RunsAreStuckAtOpenSteps }
{
    turns_have_steps();
    runs_keep_kinds();
    objects_live_where_named();
}
