//! Initializers of checked units.
ghost use Rattle.c_types_theorems.specs.Units.PlacedUnits.{InitializersArePlaced};

/// Each initial value of a checked unit is one of the type of the scalar at which it stands, and each text stands at an
/// array of characters.
pub fn initializers_are_placed()
    ensures { InitializersArePlaced }
{}
