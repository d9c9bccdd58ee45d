//! Parameters and function declarators (6.7.6.3 of ISO/IEC 9899:2011).
ghost use Rattle.std.specs.Prelude.{◌≡◌, IfOk, map, option_map};
ghost use Rattle.c_layout.specs.Types.{view};
ghost use Rattle.c_layout.specs.DeclarationTrees.{name_view, declarator_view, parameter_view, parameters_view, function_declarator_view};
ghost use Rattle.c_types_scopes.specs.Answers.{Gives, Leads};
ghost use Rattle.c_types_scopes.specs.Known.{known};
ghost use Rattle.c_types_scopes.specs.DeclaredTypes.{declared_view};
ghost use Rattle.c_types_scopes.specs.States.{state};
ghost use Rattle.c_types_declarations.specs.Specifiers.{specified_view};
ghost use Rattle.c_types_declarations.specs.Parameters as spec;
ghost use Rattle.c_types_declarations.specs.FunctionHeads as head;
ghost use Rattle.c_types_declarations.specs.FunctionHeads.{head_view};

use crate::context_steps::declare_meaning;
use crate::declarators::{add_pointers, declared_type, stepped_type};
use crate::specifier_trees::specifiers_of;
use crate::specifiers::Specified;
use crate::struct_bodies::is_stored;
use c_layout::{CType, Declarator, FunctionDeclarator, Name, Parameter, Parameters, Storage};
use c_types_expressions::expressions::is_scalar;
use c_types_operands::is_void;
use c_types_scopes::{Context, DeclaredType, Meaning, redeclared, type_fault};
use cc_base::{Memory, Place, Stop};

/// A function's type, and whether each parameter has a name. The parameters are the first objects
/// of the body at hand.
#[derive(Drop)]
pub struct FunctionHead {
    pub declared: DeclaredType,
    pub parameters: Vec<CType>,
    pub are_named: bool,
}

/// A parameter of array type is a pointer.
fn adjusted(declared: DeclaredType) -> DeclaredType
    ensures { declared_view result ≡ spec.adjusted (declared_view declared) }
{
    let DeclaredType { ctype, enumeration } = declared;
    match ctype {
        CType::Array(element, _) => DeclaredType::plain(CType::Pointer(element)),
        CType::Int(kind) => DeclaredType {
            ctype: CType::Int(kind),
            enumeration,
        },
        CType::Pointer(target) => DeclaredType {
            ctype: CType::Pointer(target),
            enumeration,
        },
        CType::Struct(number) => DeclaredType {
            ctype: CType::Struct(number),
            enumeration,
        },
        CType::Void => DeclaredType {
            ctype: CType::Void,
            enumeration,
        },
    }
}

/// The type of a parameter that is declared so, or the refusal at a place.
fn as_parameter(place: Place, declared: DeclaredType) -> Result<DeclaredType, Stop>
    ensures { Gives declared_view (spec.as_parameter place (declared_view declared)) result }
{
    let declared = adjusted(declared);
    if is_scalar(&declared.ctype) {
        Ok(declared)
    } else {
        Err(type_fault(place))
    }
}

/// The type of a parameter, which is refused at a place.
fn parameter_type(
    cx: &mut Context,
    place: Place,
    base: &DeclaredType,
    declarator: Option<&Declarator>,
) -> Result<DeclaredType, Stop>
    ensures { Leads declared_view (head.parameter_type (state cx.old) place (declared_view base.now) (option_map (λ d. declarator_view d.now) declarator.entry)) result (state cx.new) }
{
    match declarator {
        Some(declarator) => {
            let declared = declared_type(cx, place, base, declarator.layers.as_slice())?;
            as_parameter(place, declared)
        }
        None => as_parameter(place, base.copy(cx.alloc)?),
    }
}

/// An object of the body with this number of its name.
fn declared_local(
    cx: &mut Context,
    known: u32,
    name: &Name,
    declared: DeclaredType,
) -> Result<(), Memory>
    ensures { IfOk result (λ _. state cx.new ≡ spec.declared_local known (name_view name.now) (declared_view declared) (state cx.old)) }
{
    let text = name.text.copy(cx.alloc)?;
    let number = cx.add_local(text, name.place, declared)?;
    declare_meaning(cx, known, Meaning::Local(number))
}

/// Declares a parameter by the number of its name.
fn parameter_by(
    cx: &mut Context,
    known: u32,
    name: &Name,
    declared: DeclaredType,
) -> Result<(), Stop>
    ensures { Leads (λ _. tt) (spec.parameter_by known (name_view name.now) (declared_view declared) (state cx.old)) result (state cx.new) }
{
    match cx.scopes.find_here(known) {
        Some(_) => Err(redeclared(name.place)),
        None => Ok(declared_local(cx, known, name, declared)?),
    }
}

/// Declares a parameter by its name.
fn declare_parameter(cx: &mut Context, name: &Name, declared: DeclaredType) -> Result<(), Stop>
    ensures { Leads (λ _. tt) (spec.declare_parameter (name_view name.now) (declared_view declared) (state cx.old)) result (state cx.new) }
{
    let known = cx.name(&name.text)?;
    parameter_by(cx, known, name, declared)
}

/// The name that a declarator declares.
fn declarator_name(declarator: &Declarator) -> Option<&Name>
    ensures { option_map (λ n. name_view n.now) result ≡ (declarator_view declarator.now).name }
{
    match &declarator.name {
        Some(name) => Some(name),
        None => None,
    }
}

/// The name of a parameter, where it has one.
fn parameter_name(parameter: &Parameter) -> Option<&Name>
    ensures { option_map (λ n. name_view n.now) result ≡ spec.parameter_name (parameter_view parameter.now) }
{
    match &parameter.declarator {
        Some(declarator) => declarator_name(declarator),
        None => None,
    }
}

/// Where a parameter is refused: at its name, or else at its first token.
fn parameter_place(parameter: &Parameter) -> Place
    ensures { result ≡ spec.parameter_place (parameter_view parameter.now) }
{
    match parameter_name(parameter) {
        Some(name) => name.place,
        None => parameter.place,
    }
}

/// Declares a parameter whose type is known by its name, where it has one.
fn named_parameter(
    cx: &mut Context,
    name: Option<&Name>,
    declared: DeclaredType,
) -> Result<(), Stop>
    ensures { Leads (λ _. tt) (spec.named_parameter (option_map (λ n. name_view n.now) name.entry) (declared_view declared) (state cx.old)) result (state cx.new) }
{
    match name {
        Some(name) => declare_parameter(cx, name, declared),
        None => Ok(()),
    }
}

/// Declares a parameter whose type is known; its type.
fn finish_parameter(
    cx: &mut Context,
    place: Place,
    storage: Option<Storage>,
    name: Option<&Name>,
    declared: DeclaredType,
) -> Result<CType, Stop>
    ensures { Leads view (spec.finish_parameter place storage (option_map (λ n. name_view n.now) name.entry) (declared_view declared) (state cx.old)) result (state cx.new) }
{
    if is_stored(storage) {
        return Err(type_fault(place));
    }
    let ctype = declared.ctype.copy(cx.alloc)?;
    named_parameter(cx, name, declared)?;
    Ok(ctype)
}

/// A parameter whose specifiers were read; its type.
fn specified_parameter(
    cx: &mut Context,
    parameter: &Parameter,
    base: &Specified,
) -> Result<CType, Stop>
    ensures { Leads view (head.specified_parameter (parameter_view parameter.now) (specified_view base.now) (state cx.old)) result (state cx.new) }
{
    let place = parameter_place(parameter);
    let declared = parameter_type(cx, place, &base.declared, parameter.declarator.as_ref())?;
    finish_parameter(cx, place, base.storage, parameter_name(parameter), declared)
}

/// Declares a parameter; its type.
fn add_parameter(cx: &mut Context, parameter: &Parameter) -> Result<CType, Stop>
    ensures { Leads view (head.add_parameter (state cx.old) (parameter_view parameter.now)) result (state cx.new) }
{
    let base = specifiers_of(cx, parameter.place, parameter.words.as_slice(), false)?;
    specified_parameter(cx, parameter, &base)
}

/// Declares parameters in order; their types.
fn add_parameters(cx: &mut Context, parameters: &[Parameter]) -> Result<Vec<CType>, Stop>
    ensures { Leads (λ v. map view v.items) (head.add_parameters (state cx.old) (map parameter_view parameters.now)) result (state cx.new) }
{
    let mut made = Vec::new(cx.alloc);
    for parameter in parameters {
        made.push(add_parameter(cx, parameter)?)?;
    }
    Ok(made)
}

/// The types of the parameters between a function declarator's parentheses.
fn parameters_of(cx: &mut Context, parameters: &Parameters) -> Result<Vec<CType>, Stop>
    ensures { Leads (λ v. map view v.items) (head.parameters_of (state cx.old) (parameters_view parameters.now)) result (state cx.new) }
{
    match parameters {
        Parameters::Empty => Ok(Vec::new(cx.alloc)),
        Parameters::Void => Ok(Vec::new(cx.alloc)),
        Parameters::List(list) => add_parameters(cx, list.as_slice()),
    }
}

/// Whether each parameter of a list has a name.
#[tactic(auto, unfolding(crate::specs::Parameters::each_named))]
fn each_named(parameters: &[Parameter]) -> bool
    ensures { result ≡ spec.each_named (map parameter_view parameters.now) }
{
    for i in 0..parameters.len() {
        if parameter_name(&parameters[i]).is_none() {
            return false;
        }
    }
    true
}

/// Whether each parameter has a name.
fn are_named(parameters: &Parameters) -> bool
    ensures { result ≡ spec.are_named (parameters_view parameters.now) }
{
    match parameters {
        Parameters::Empty => true,
        Parameters::Void => true,
        Parameters::List(list) => each_named(list.as_slice()),
    }
}

/// Whether a function may return a type: a scalar, or void.
fn is_result(t: &CType) -> bool
    ensures { result ≡ spec.is_result (view t.now) }
{
    if is_scalar(t) { true } else { is_void(t) }
}

/// The enumerated type that a function returns, whose declarator has so many stars.
fn enumeration_of(base: &DeclaredType, stars: usize) -> Option<u32>
    ensures { result ≡ spec.enumeration_of (declared_view base.now) stars }
{
    if stars == 0 { base.enumeration } else { None }
}

/// The type behind so many stars, or the refusal at a place.
fn pointed_type(
    cx: &Context,
    place: Place,
    base: &DeclaredType,
    stars: usize,
) -> Result<CType, Stop>
    ensures { Gives view (spec.pointed_type (known cx.now) place (declared_view base.now) stars) result }
{
    let mut steps = Vec::new(cx.alloc);
    add_pointers(&mut steps, stars)?;
    let from = base.ctype.copy(cx.alloc)?;
    stepped_type(cx, place, from, steps.as_slice())
}

/// The result of a function whose declarator has so many stars: a scalar, or void.
fn result_type(
    cx: &Context,
    place: Place,
    base: &DeclaredType,
    stars: usize,
) -> Result<DeclaredType, Stop>
    ensures { Gives declared_view (spec.result_type (known cx.now) place (declared_view base.now) stars) result }
{
    let ctype = pointed_type(cx, place, base, stars)?;
    if is_result(&ctype) {
        Ok(DeclaredType {
            ctype,
            enumeration: enumeration_of(base, stars),
        })
    } else {
        Err(type_fault(place))
    }
}

/// Begins a body without objects.
fn without_locals(cx: &mut Context)
    ensures { state cx.new ≡ spec.without_locals (state cx.old) }
{
    cx.body.locals = Vec::new(cx.alloc);
    cx.body.enumerations = Vec::new(cx.alloc);
}

/// The type of a function whose parameters are known, at whose name it is refused.
fn headed(
    cx: &Context,
    base: &DeclaredType,
    declarator: &FunctionDeclarator,
    parameters: Vec<CType>,
) -> Result<FunctionHead, Stop>
    ensures { Gives head_view (head.head_by (known cx.now) (declared_view base.now) (function_declarator_view declarator.now) (map view parameters.items)) result }
{
    let place = declarator.name.place;
    let declared = result_type(cx, place, base, declarator.stars.len())?;
    Ok(FunctionHead {
        declared,
        parameters,
        are_named: are_named(&declarator.parameters),
    })
}

/// The type of a function, at whose name it is refused. Its parameters are declared in the
/// innermost scope, and are the first objects of a body without others.
pub fn function_head(
    cx: &mut Context,
    base: &DeclaredType,
    declarator: &FunctionDeclarator,
) -> Result<FunctionHead, Stop>
    ensures { Leads head_view (head.function_head (state cx.old) (declared_view base.now) (function_declarator_view declarator.now)) result (state cx.new) }
{
    without_locals(cx);
    let parameters = parameters_of(cx, &declarator.parameters)?;
    headed(cx, base, declarator, parameters)
}
