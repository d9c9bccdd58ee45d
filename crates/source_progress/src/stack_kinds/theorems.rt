//! In each run of the source, the values that are pending have the kinds that what is left to do takes.
ghost use Rattle.source_progress.specs.StackKinds.KeptKinds.{TurnsKeepKinds, RunsKeepKinds};

use source_items::operations::operations_keep_kinds;

/// A turn of a unit whose terms have operands of their kinds, and whose `break` and `continue` stand in loops and
/// switches, goes on only to a state in which what the functions have to do takes the pending values by their kinds, if
/// it was so before.
pub fn turns_keep_kinds()
    ensures { TurnsKeepKinds }
{
    operations_keep_kinds();
}

/// So it is in each run of such a unit.
pub fn runs_keep_kinds()
    ensures { RunsKeepKinds }
{
    operations_keep_kinds();
}
