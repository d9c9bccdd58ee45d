//! Of the groups of a conditional section the first whose condition holds is taken.
ghost use Rattle.std.specs.Prelude.{◌≡◌, List, Bool};
ghost use Rattle.c_preproc_directives.specs.Groups.{states_of, first_only, taken_of};

/// The groups of a section are taken as their conditions say: the first whose condition holds, and
/// no other.
pub fn first_group_is_taken()
    ensures { (conditions : List Bool) → taken_of (states_of conditions) ≡ first_only conditions }
{}
