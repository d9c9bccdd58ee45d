//! Theorems: each checked unit is well formed, scoped, and fits into memory.
ghost use Rattle.c_types_well_formed_units.specs.Theorems as spec;

use c_types_theorems::entries::entries_take_integers;
use c_types_well_formed::{
    conversions_give, declarators_keep, expressions_are_made, heads_keep, operators_make,
    specifiers_keep, switches_select, unused_is_well_typed, values_are_made,
};

// ---- Heads of functions.

/// Functions that are declared with a number are defined with their heads.
pub fn units_have_heads()
    ensures { spec.UnitsHaveHeads }
{}

// ---- Objects of bodies.

/// Parameters that have names are the first objects of the body.
pub fn heads_make_objects()
    ensures { spec.HeadsMakeObjects }
{}

/// What a body adds leaves the first objects their types.
pub fn bodies_keep_types()
    ensures { spec.BodiesKeepTypes }
{}

// ---- Scopes of expressions.

/// An expression names what names of its state may mean.
pub fn expressions_are_scoped()
    ensures { spec.ExpressionsAreScoped }
{}

/// An initializer names what names of its state may mean.
pub fn initializers_are_scoped()
    ensures { spec.InitializersAreScoped }
{}

// ---- Scopes of statements.

/// What stands in a block names what lives, and its scopes begin with new objects.
pub fn bodies_are_scoped()
    ensures { spec.BodiesAreScoped }
{}

// ---- Scopes of checked units.

/// What a checked unit names lives where it is named, and what a scope begins with is new.
pub fn checks_are_scoped()
    ensures { spec.ChecksAreScoped }
{}

// ---- Memory has room for what a checked unit has.

/// Memory has room for the objects of each checked unit of a proper tree, under a model that is one; what its static
/// objects begin with has offsets and bounds that memory may have.
pub fn checks_are_small()
    ensures { spec.ChecksAreSmall }
{
    operators_make();
    values_are_made();
    conversions_give();
    unused_is_well_typed();
    switches_select();
    expressions_are_made();
    specifiers_keep();
    declarators_keep();
    heads_keep();
}

// ---- Trees that the grammar derives.

/// The constants of a unit whose tokens are of bytes have types of its data model, with their values, and its literals are
/// of bytes.
pub fn trees_are_proper()
    ensures { spec.TreesAreProper }
{}

/// Declarations in functions are items of blocks, or first clauses of `for`.
pub fn trees_declare_in_blocks()
    ensures { spec.TreesDeclareInBlocks }
{}

// ---- Checked units.

/// A checked unit whose functions are regular and whose objects memory has room for passes the look at its terms.
pub fn checks_are_well_typed()
    ensures { spec.ChecksAreWellTyped }
{
    operators_make();
    values_are_made();
    conversions_give();
    unused_is_well_typed();
    switches_select();
    expressions_are_made();
    specifiers_keep();
    declarators_keep();
    heads_keep();
    units_have_heads();
    entries_take_integers();
}
