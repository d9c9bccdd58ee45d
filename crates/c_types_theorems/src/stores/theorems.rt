//! Initializers.
ghost use Rattle.c_types_theorems.specs.Stores.PlacedStores.{StoresArePlaced};

/// Each store of an initializer stands at a subobject of its object: a value at a scalar of its type, a text at an array
/// of characters.
pub fn stores_are_placed()
    ensures { StoresArePlaced }
{}
