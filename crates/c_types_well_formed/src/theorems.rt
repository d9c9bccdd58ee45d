//! Theorems: typing makes well-formed terms, initializers and statements.
ghost use Rattle.c_types_well_formed.specs.Theorems as spec;

// ---- Integer constants.

/// What typing folds is what operators give.
pub fn folds_as_computed()
    ensures { spec.FoldsAsComputed }
{}

// ---- What switches select by.

/// A switch selects by an object or by a number.
pub fn switches_select()
    ensures { spec.SwitchesSelect }
{}

// ---- Initializers and declarations in blocks.

/// What an initializer stores has operands of their marks.
pub fn initializers_are_well_typed()
    ensures { spec.InitializersAreWellTyped }
{}

/// The statements that a declaration adds to its block have terms with operands of their marks.
pub fn declarations_are_well_typed()
    ensures { spec.DeclarationsAreWellTyped }
{}

// ---- Layouts.

/// Expressions keep layouts.
pub fn expressions_lay()
    ensures { spec.ExpressionsLay }
{}

/// Declarators keep layouts.
pub fn declarators_lay()
    ensures { spec.DeclaratorsLay }
{}

/// Structs with bodies are laid out.
pub fn specifiers_lay()
    ensures { spec.SpecifiersLay }
{}

/// The stores of initializers stand within objects of at most the most bytes.
pub fn stores_are_near()
    ensures { spec.StoresAreNear }
{}

// ---- What rules of operators make of what is made.

/// The rules of operators make marked terms of marked terms.
pub fn operators_make()
    ensures { spec.OperatorsMake }
{}

// ---- What rules of typing make of what is made.

/// The value of an operand is marked.
pub fn values_are_made()
    ensures { spec.ValuesAreMade }
{}

/// What is assigned, passed or returned is marked, and has the type that it is converted to.
pub fn conversions_give()
    ensures { spec.ConversionsGive }
{}

/// A term is marked where its value is not used.
pub fn unused_is_well_typed()
    ensures { spec.UnusedIsWellTyped }
{}

// ---- Bodies of functions.

/// The statements that typing makes of a body have terms with operands of their marks, and conditions that decide their tests.
pub fn bodies_are_well_typed()
    ensures { spec.BodiesAreWellTyped }
{}

// ---- Static initializers.

/// The texts that static initializers store are of bytes, and addresses of literals have offsets and bounds of at most
/// 2^30.
pub fn static_stores_are_proper()
    ensures { spec.StaticStoresAreProper }
{}

// ---- Expressions that are typed in a state whose types are of the data model.

/// Where the rules make what is made, typing of an expression that is evaluated does.
pub fn expressions_are_made()
    ensures { spec.RulesMakeExpressions }
{}

/// Typing of any expression keeps the types that are known.
pub fn expressions_keep()
    ensures { spec.ExpressionsKeep }
{}

/// Typing of the length of an array does too.
pub fn lengths_keep()
    ensures { spec.LengthsKeep }
{}

// ---- Parts of declarations that are typed in a state whose types are of the data model.

/// Specifiers with their structs and enumerations.
pub fn specifiers_keep()
    ensures { spec.SpecifiersKeep }
{}

/// The types that declarators make.
pub fn declarators_keep()
    ensures { spec.DeclaratorsKeep }
{}

/// Functions with their parameters.
pub fn heads_keep()
    ensures { spec.HeadsKeep }
{}
