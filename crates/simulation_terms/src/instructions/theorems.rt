//! An operator of the source and its instruction do the same.
ghost use Rattle.simulation_terms.specs.Instructions.Acts.{CallsAreActs, CopiesAreActs, NewestAreThere, OperationsAreActs, StoresAreActs};

/// Where the values that are pending stand in the temporaries, an operation and its instruction do the same to the
/// world, and give the same values, or stop for the same reason.
pub fn operations_are_acts()
    ensures { OperationsAreActs }
{}

/// So do a store and its instruction where its value is not used, but for the value, which stands in no temporary.
pub fn stores_are_acts()
    ensures { StoresAreActs }
{}

/// So does an operation on a copy of the newest value, which stands in one temporary.
pub fn copies_are_acts()
    ensures { CopiesAreActs }
{}

/// So many of the newest values stand in as many temporaries.
pub fn newest_are_there()
    ensures { NewestAreThere }
{}

/// A call of the library and its instruction do the same, and give the same result, where they give one.
pub fn calls_are_acts()
    ensures { CallsAreActs }
{}
