//! Declarators (6.7.6 of ISO/IEC 9899:2011).
ghost use Rattle.std.specs.Prelude.{◌≡◌, ◌++◌, IfOk, map};
ghost use Rattle.c_layout.specs.Types.{view};
ghost use Rattle.c_layout.specs.DeclarationTrees.{suffix_view, declarator_layer_view};
ghost use Rattle.c_types_scopes.specs.Answers.{Gives, Leads};
ghost use Rattle.c_types_scopes.specs.Known.{known};
ghost use Rattle.c_types_scopes.specs.DeclaredTypes.{declared_view};
ghost use Rattle.c_types_scopes.specs.States.{state};
ghost use Rattle.c_types_expressions.specs.Expressions.Lengths.{length_view};
ghost use Rattle.c_types_declarations.specs.Declarators as spec;
ghost use Rattle.c_types_declarations.specs.Declarators.{steps_view};

use c_layout::{ArraySuffix, CType, DeclaratorLayer};
use c_types_expressions::expressions::length;
use c_types_scopes::{Context, DeclaredType, TypeStep, constant_needed, stepped, type_fault};
use cc_base::{Memory, Place, Stop};

/// The steps of a declarator from its name outwards, and whether each length that it gives is a
/// constant above 0.
#[derive(Drop)]
pub struct TypedSteps {
    pub steps: Vec<TypeStep>,
    pub are_constant: bool,
}

/// No step.
fn no_steps(cx: &Context) -> TypedSteps
    ensures { steps_view result ≡ spec.no_steps }
{
    TypedSteps {
        steps: Vec::new(cx.alloc),
        are_constant: true,
    }
}

/// Adds the step of brackets whose length is a constant above 0, or not.
fn add_length(made: &mut TypedSteps, length: Option<u64>) -> Result<(), Memory>
    ensures { IfOk result (λ _. steps_view made.new ≡ spec.with_length (steps_view made.old) length) }
{
    match length {
        Some(count) => made.steps.push(TypeStep::Array(count))?,
        None => {
            made.are_constant = false;
            made.steps.push(TypeStep::Array(1))?;
        }
    }
    Ok(())
}

/// Adds as many pointers as there are stars.
#[tactic(auto, using(crate::proofs::Pointers::one_star))]
pub fn add_pointers(steps: &mut Vec<TypeStep>, stars: usize) -> Result<(), Memory>
    ensures { IfOk result (λ _. steps.new.items ≡ steps.old.items ++ spec.pointers stars) }
{
    for _star in 0..stars {
        steps.push(TypeStep::Pointer)?;
    }
    Ok(())
}

/// The length that brackets give; 0 stands for one that is not written.
fn suffix_length(cx: &mut Context, array: &ArraySuffix) -> Result<Option<u64>, Stop>
    ensures { Leads length_view (spec.suffix_length (state cx.old) (suffix_view array.now).length) result (state cx.new) }
{
    match &array.length {
        None => Ok(Some(0)),
        Some(e) => length(cx, e),
    }
}

/// Adds the step of brackets.
fn add_array(cx: &mut Context, array: &ArraySuffix, made: &mut TypedSteps) -> Result<(), Stop>
    ensures { Leads (λ _. steps_view made.new) (spec.with_array (state cx.old) (steps_view made.old) (suffix_view array.now)) result (state cx.new) }
{
    let count = suffix_length(cx, array)?;
    add_length(made, count)?;
    Ok(())
}

/// Adds the steps of brackets in order.
fn add_arrays(cx: &mut Context, arrays: &[ArraySuffix], made: &mut TypedSteps) -> Result<(), Stop>
    ensures { Leads (λ _. steps_view made.new) (spec.with_arrays (state cx.old) (steps_view made.old) (map suffix_view arrays.now)) result (state cx.new) }
{
    for array in arrays {
        add_array(cx, array, made)?;
    }
    Ok(())
}

/// Adds the steps of one layer, from its brackets outwards.
fn add_layer(cx: &mut Context, layer: &DeclaratorLayer, made: &mut TypedSteps) -> Result<(), Stop>
    ensures { Leads (λ _. steps_view made.new) (spec.with_layer (state cx.old) (steps_view made.old) (declarator_layer_view layer.now)) result (state cx.new) }
{
    add_arrays(cx, layer.arrays.as_slice(), made)?;
    add_pointers(&mut made.steps, layer.stars.len())?;
    Ok(())
}

/// The steps of a declarator's layers. Its lengths are typed in reading order.
pub fn typed_steps(cx: &mut Context, layers: &[DeclaratorLayer]) -> Result<TypedSteps, Stop>
    ensures { Leads steps_view (spec.typed_steps (state cx.old) (map declarator_layer_view layers.now)) result (state cx.new) }
{
    match layers.split_first() {
        None => Ok(no_steps(cx)),
        Some((layer, inner)) => {
            let mut made = typed_steps(cx, inner)?;
            add_layer(cx, layer, &mut made)?;
            Ok(made)
        }
    }
}

/// The type that steps make of another one, or the refusal at a place.
pub fn stepped_type(
    cx: &Context,
    place: Place,
    base: CType,
    steps: &[TypeStep],
) -> Result<CType, Stop>
    ensures { Gives view (spec.stepped_type (known cx.now) place (view base) steps.now) result }
{
    let pointer = cx.model.numbers.pointer;
    match stepped(cx.alloc, base, steps, &cx.types.structs, pointer)? {
        Some(made) => Ok(made),
        None => Err(type_fault(place)),
    }
}

/// The type that constant steps give a name, or the refusal at its place.
fn declared_with(
    cx: &Context,
    place: Place,
    base: &DeclaredType,
    steps: &[TypeStep],
) -> Result<DeclaredType, Stop>
    ensures { Gives declared_view (spec.declared_with (known cx.now) place (declared_view base.now) steps.now) result }
{
    if steps.is_empty() {
        Ok(base.copy(cx.alloc)?)
    } else {
        let from = base.ctype.copy(cx.alloc)?;
        Ok(DeclaredType::plain(stepped_type(cx, place, from, steps)?))
    }
}

/// The type that steps give a name, or the refusal at its place.
fn declared_by(
    cx: &Context,
    place: Place,
    base: &DeclaredType,
    made: &TypedSteps,
) -> Result<DeclaredType, Stop>
    ensures { Gives declared_view (spec.declared_by (known cx.now) place (declared_view base.now) (steps_view made.now)) result }
{
    if made.are_constant {
        declared_with(cx, place, base, made.steps.as_slice())
    } else {
        Err(constant_needed(place))
    }
}

/// The type that a declarator gives its name, at whose place it is refused.
pub fn declared_type(
    cx: &mut Context,
    place: Place,
    base: &DeclaredType,
    layers: &[DeclaratorLayer],
) -> Result<DeclaredType, Stop>
    ensures { Leads declared_view (spec.declared_type (state cx.old) place (declared_view base.now) (map declarator_layer_view layers.now)) result (state cx.new) }
{
    let made = typed_steps(cx, layers)?;
    declared_by(cx, place, base, &made)
}
