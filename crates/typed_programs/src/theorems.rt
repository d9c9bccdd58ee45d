//! Theorems: accesses of a program whose pointers have types are typed.
ghost use Rattle.typed_programs.specs.Theorems as spec;

// ---- Where a type stands in another one, its scalars and its structures are the other one's there.

/// A type stands in itself, and in what a type stands in that it stands in. The elements of an array stand in it, and
/// the members of a structure do, where members stand apart, in no circle.
pub fn parts_stand_in_their_types()
    ensures themselves { spec.TypesStandInThemselves }
    ensures transitive { spec.StandingIsTransitive }
    ensures elements { spec.ElementsStand }
    ensures members { spec.MembersStand }
{}

/// Two places of one structure in an object are one, or share no byte.
pub fn structures_stand_apart()
    ensures { spec.StructuresAreApart }
{}

// ---- Where arrays have few elements, the leaves of a type are its scalars, and those of a structure in it are
// its own.

/// Each byte of a scalar is one of a leaf, and each leaf is a scalar, alone at its place, where structures of a data model
/// stand apart and no array has more than 64 elements.
pub fn leaves_are_scalars()
    ensures scalars { spec.ScalarsAreLeaves }
    ensures leaves { spec.LeavesAreScalars }
{}

/// So where a structure stands in an object, its leaves are those of the object there.
pub fn structures_have_leaves()
    ensures { spec.StructuresHaveLeaves }
{}

// ---- Effects on memory keep to the types of pointers, where they go on.

/// A pointer that is narrowed to a part of what it points to points to the type of the part.
pub fn narrows_are_typed()
    ensures { spec.NarrowsAreTyped }
{}

/// A pointer that is moved by elements of its type within its bounds points to one of them, or behind the last one.
pub fn shifts_are_typed()
    ensures { spec.ShiftsAreTyped }
{}

/// A value that is loaded where a pointer to its type points is of the type, and memory stays as it is.
pub fn loads_are_typed()
    ensures { spec.LoadsAreTyped }
{}

/// A value that is stored where a pointer to its type points leaves memory typed.
pub fn stores_keep_types()
    ensures { spec.StoresKeepTypes }
{}

/// A struct that is copied between places of its type leaves memory typed, and the pointer to the target is given.
pub fn copies_keep_types()
    ensures { spec.CopiesKeepTypes }
{}

/// An object whose lifetime begins has a type from then on, and memory is typed.
pub fn enters_keep_types()
    ensures { spec.EntersKeepTypes }
{}

/// Memory stays typed where the lifetime of an object ends.
pub fn leaves_keep_types()
    ensures { spec.LeavesKeepTypes }
{}

/// Memory stays typed where the bytes of an object become indeterminate.
pub fn forgets_keep_types()
    ensures { spec.ForgetsKeepTypes }
{}

/// Memory stays typed where the bytes of an object become 0.
pub fn clears_keep_types()
    ensures { spec.ClearsKeepTypes }
{}

/// Memory stays typed where a text is written to an object.
pub fn spells_keep_types()
    ensures { spec.SpellsKeepTypes }
{}

/// Memory stays typed along an edge with a test.
pub fn tests_keep_types()
    ensures { spec.TestsKeepTypes }
{}

/// Memory stays typed along an edge of a case label.
pub fn cases_keep_types()
    ensures { spec.CasesKeepTypes }
{}

/// The first memory of a unit whose initializers are typed is typed.
pub fn starts_are_typed()
    ensures { spec.StartsAreTyped }
{}

// ---- The templates of plain functions lead on.

/// In the template of a function without loops and jumps back each edge leads to a label that stands later in it, its calls are
/// of functions that plain units call, and it names no allocation.
pub fn templates_lead_on()
    ensures { spec.TemplatesLeadOn }
{}

// ---- What a program's types say of its pointers holds in its run, so that each access is of the type of what
// lies there.

/// In the run of a program whose pointers have types, under no numbers of the outside, each access is of the type of what lies
/// there.
pub fn typed_programs_have_typed_accesses()
    ensures { spec.TypedProgramsHaveTypedAccesses }
{}
