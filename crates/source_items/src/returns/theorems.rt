//! In each run of the source, a function that was called names no object any more when it returns.
ghost use Rattle.source_items.specs.Returns.ReturnedFunctions.{CalledFunctionsLeaveAll};

/// In each run of a unit whose `break` and `continue` stand in loops and switches, a function that was called has left
/// all its objects, its parameters and its result, when it has nothing left to do.
pub fn called_functions_leave_all()
    ensures { CalledFunctionsLeaveAll }
{}
