//! What works give away is never taken back.
ghost use Rattle.lower_template_theorems.specs.Growth.Growth.{CountersGrow};

/// Behind the pieces of works stand the names that were given away before them, at the same numbers, and no fewer
/// labels and scopes.
pub fn counters_grow()
    ensures { CountersGrow }
{}
