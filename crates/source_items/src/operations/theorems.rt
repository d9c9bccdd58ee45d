//! Operations on values of the kinds that they take give values of the kinds that they say, and have a step.
ghost use Rattle.source_items.specs.Operations.OperationLaws.{OperationsKeepKinds, OperationsHaveSteps, StoresHaveSteps, LinesHaveSteps};

/// Where an operation goes on, it has put values of the kinds that it gives in the place of those that it takes.
pub fn operations_keep_kinds()
    ensures { OperationsKeepKinds }
{}

/// An operation is not stuck on values of the kinds that it takes, unless it makes a pointer of a number.
pub fn operations_have_steps()
    ensures { OperationsHaveSteps }
{}

/// A store of a value of its kind to a pointer is not stuck.
pub fn stores_have_steps()
    ensures { StoresHaveSteps }
{}

/// A call of `fgets` with a pointer, a number and a pointer is not stuck.
pub fn lines_have_steps()
    ensures { LinesHaveSteps }
{}
