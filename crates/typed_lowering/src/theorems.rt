//! Theorems: lowering keeps plain units plain and typed units typed.
ghost use Rattle.typed_lowering.specs.Theorems as spec;

use lower_template_theorems::label_definitions::labels_are_marked_below;
use simulation_layout::{
    functions_are_labelled, functions_are_regular, well_formed_programs_are_low,
};
use simulation_units::regular_functions_suit;
use typed_programs::{templates_lead_on, typed_programs_have_typed_accesses};

// ---- Each base that a name is given has the type of what is named, from the first objects of a unit on.

/// A name that is given a base, or had one, has one of its type; the bases before keep theirs.
pub fn names_are_typed()
    ensures { spec.NamesAreTyped }
{}

/// The types of a unit's objects and literals are of the data model's kinds, and hold short arrays alone, where two looks say so.
pub fn short_types_are_own()
    ensures { spec.ShortTypesAreOwn }
{}

/// So are those of a function's objects and of its result.
pub fn looped_locals_are_own()
    ensures { spec.LoopedLocalsAreOwn }
{}

/// The bases that name objects and literals when a run begins have their types.
pub fn first_objects_are_typed()
    ensures { spec.FirstObjectsAreTyped }
{}

// ---- What is known of temporaries in a template is known, moved, in each copy of it.

/// Where names are given bases of their types, the entry of a unit whose templates are typed is opened to a typed program.
pub fn typed_names_make_typed_inlinings()
    ensures { spec.TypedNamesMakeTypedInlinings }
{}

// ---- The templates of functions that are plain but for loops are calm.

/// In the template of a regular function that is plain but for loops and jumps back each edge leads to a label that it marks, its
/// calls are of functions that such units call, and it names no allocation.
pub fn looped_templates_are_calm()
    ensures { spec.LoopedTemplatesAreCalm }
{
    functions_are_labelled();
    regular_functions_suit();
}

// ---- The program of a plain unit is plain.

/// A unit that passes the look `is_plain_unit` is lowered to a program in which each scalar has a cell of its own, nothing is
/// allocated and nothing comes in, library functions are exit, abort, putchar and those of <ctype.h>, and each edge leads to a
/// later block, so that none is the head of a loop.
pub fn plain_units_have_plain_programs()
    ensures { spec.PlainUnitsHavePlainPrograms }
{
    functions_are_regular();
    functions_are_labelled();
    regular_functions_suit();
    labels_are_marked_below();
    templates_lead_on();
}

// ---- The looks at types and at first bytes say what they look for, and what settling leaves of a template keeps
// to what is known.

/// A type stands in another one where the first bytes of its scalars and of its structures do, where members stand
/// apart, in no circle.
pub fn types_stand_where_they_begin()
    ensures { spec.TypesStandWhereTheyBegin }
{}

/// The pointers among the first bytes of objects that pass the look point to what their types say.
pub fn typed_objects_are_typed()
    ensures { spec.TypedObjectsAreTyped }
{}

/// A template that keeps to what is known does so without the calls that add nothing, and with one label where several
/// stand together.
pub fn normalized_templates_are_typed()
    ensures { spec.NormalizedTemplatesAreTyped }
{}

/// Each edge of a settled template leads to a label that it marks, as each of the template does.
pub fn normalized_templates_are_calm()
    ensures { spec.NormalizedTemplatesAreCalm }
{}

// ---- Where works of typed terms keep to what is known, so do the templates of typed functions.

/// In the template of a function that is typed, and plain but for its loops, each step and each edge keeps to what is known of
/// temporaries, if the works of its terms do and types stand where they begin.
pub fn typed_works_make_typed_templates()
    ensures { spec.TypedWorksMakeTypedTemplates }
{}

// ---- What the look at types says of a unit's terms and first objects holds of the accesses of its run.

/// In the run of a checked unit that is plain and converts no pointer but 0, under no numbers of the outside, each access of
/// memory is of the type of what lies there. So it is in that of one that has loops and jumps back, whose program has a cell
/// for each scalar, allocates nothing and calls few functions.
pub fn typed_units_have_typed_accesses()
    ensures plain { spec.TypedUnitsHaveTypedAccesses }
    ensures looped { spec.LoopedUnitsHaveTypedPrograms }
{
    functions_are_regular();
    functions_are_labelled();
    labels_are_marked_below();
    looped_templates_are_calm();
    well_formed_programs_are_low();
    works_are_typed();
    types_stand_where_they_begin();
    typed_works_make_typed_templates();
    normalized_templates_are_typed();
    normalized_templates_are_calm();
    short_types_are_own();
    looped_locals_are_own();
    typed_objects_are_typed();
    names_are_typed();
    typed_names_make_typed_inlinings();
    first_objects_are_typed();
    typed_programs_have_typed_accesses();
}

// ---- The works of terms, lvalues and conditions that pass the looks come to pieces that keep to what is known.

/// Pending values are kept, and the value of a term is what its type says, whatever is known at labels of other works.
pub fn works_are_typed()
    ensures { spec.WorksAreTyped }
{}
