//! Lists in order.
ghost use Rattle.std.specs.Prelude.{◌≡◌, true, Any, Contains};
ghost use Rattle.std.specs.List.Sorted.{IsStrictlySortedBy};
ghost use Rattle.cc_base.specs.DiagnosticOrder.{IsOrderedSet};

use crate::diagnostics::Diag;

/// The elements of a list in ascending order, each once.
pub fn ordered<T: Ord + Copy>(elements: Vec<T>) -> Vec<T>
    ensures ascending { IsStrictlySortedBy T.cmp result.items }
    ensures kept { (x : T) → Contains elements.items x → Any (λ y. T.eq x y ≡ true) result.items }
    ensures made { (x : T) → Contains result.items x → Contains elements.items x }
{
    let mut list = elements;
    list.sort_unstable();
    list.dedup();
    list
}

/// Diagnostics by file, line, column and then tag, each once.
pub fn ordered_diagnostics(found: Vec<Diag>) -> Vec<Diag>
    ensures { IsOrderedSet found.items result.items }
{
    ordered(found)
}
