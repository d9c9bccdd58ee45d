//! What becomes of a function's name and type (6.7.6.3, 6.9.1 of ISO/IEC 9899:2011).
ghost use Rattle.std.specs.Prelude.{◌≡◌, IfOk, length, map};
ghost use Rattle.c_layout.specs.Types.{view};
ghost use Rattle.c_layout.specs.DeclarationTrees.{name_view, function_declarator_view};
ghost use Rattle.c_types_scopes.specs.Answers.{Leads};
ghost use Rattle.c_types_scopes.specs.DeclaredTypes.{declared_view};
ghost use Rattle.c_types_scopes.specs.States.{state, body_view};
ghost use Rattle.c_types_declarations.specs.Specifiers.{specified_view};
ghost use Rattle.c_types_declarations.specs.FunctionHeads.{head_view};
ghost use Rattle.c_types.specs.FileScope.FunctionDeclarations as spec;

use c_layout::{CType, FunctionDeclarator, Name};
use c_types_declarations::{FunctionHead, Specified, function_head, is_library_name};
use c_types_scopes::{
    Body, Context, DeclaredType, Meaning, Signature, copied_types, redeclared, type_fault,
};
use cc_base::{Memory, Place, Stop};

/// What a function's name meant before its declarator.
#[derive(Clone, Copy)]
pub enum NameBefore {
    Nothing,
    Function(u32),
    Other,
}

/// What a function's name means so far.
fn name_before(cx: &Context, known: u32) -> NameBefore
    ensures { result ≡ spec.name_before (state cx.now) known }
{
    match cx.scopes.find_here(known) {
        None => NameBefore::Nothing,
        Some(Meaning::Function(number)) => NameBefore::Function(number),
        Some(Meaning::Static(_)) => NameBefore::Other,
        Some(Meaning::Local(_)) => NameBefore::Other,
        Some(Meaning::Typedef(_)) => NameBefore::Other,
        Some(Meaning::Enumerator(_)) => NameBefore::Other,
    }
}

/// Declares a function whose type is not known yet; its number among those declared.
fn new_function(cx: &mut Context, known: u32) -> Result<u32, Memory>
    ensures number { IfOk result (λ n. n ≡ length (state cx.old).functions) }
    ensures after { IfOk result (λ _. state cx.new ≡ spec.with_new_function (state cx.old) known) }
{
    let number = u32::try_from(cx.functions.len()).map_err(|_| Memory)?;
    let defined = cx.definitions.function(known);
    cx.functions.push(Signature {
        result: DeclaredType::plain(CType::Void),
        parameters: Vec::new(cx.alloc),
        number: defined,
        is_defined: false,
    })?;
    cx.scopes.declare(known, Meaning::Function(number))?;
    Ok(number)
}

/// The number of a function's declaration, a new one where its name meant nothing.
fn slot(cx: &mut Context, known: u32, before: NameBefore) -> Result<u32, Memory>
    ensures number { IfOk result (λ n. n ≡ spec.slot (state cx.old) before) }
    ensures after { IfOk result (λ _. state cx.new ≡ spec.with_slot (state cx.old) known before) }
{
    match before {
        NameBefore::Nothing => new_function(cx, known),
        NameBefore::Function(number) => Ok(number),
        NameBefore::Other => Ok(u32::MAX),
    }
}

/// Where a function stands by its name: the name's number, what it meant before, and the number among
/// the functions declared.
#[derive(Clone, Copy)]
pub struct FunctionSlot {
    pub known: u32,
    pub before: NameBefore,
    pub number: u32,
}

/// Where a function stands by the number of its name, which is declared.
fn slot_in(cx: &mut Context, known: u32) -> Result<FunctionSlot, Memory>
    ensures { IfOk result (λ f. spec.slot_in known (state cx.old) ≡ (f, state cx.new)) }
{
    let before = name_before(cx, known);
    let number = slot(cx, known, before)?;
    Ok(FunctionSlot {
        known,
        before,
        number,
    })
}

/// Where a function stands by its name, which is declared.
pub fn function_slot(cx: &mut Context, name: &Name) -> Result<FunctionSlot, Memory>
    ensures { IfOk result (λ f. spec.function_slot (name_view name.now) (state cx.old) ≡ (f, state cx.new)) }
{
    let known = cx.name(&name.text)?;
    slot_in(cx, known)
}

/// Gives a function, by its number, a type that it has for the first time.
fn give_signature(cx: &mut Context, number: u32, declared: DeclaredType, parameters: Vec<CType>)
    ensures { state cx.new ≡ spec.with_given number (declared_view declared) (map view parameters.items) (state cx.old) }
{
    if let Some(function) = cx.functions.get_mut(number as usize) {
        function.result = declared;
        function.parameters = parameters;
    }
}

/// Gives a function, by its number, the result that its last declaration names.
fn give_result(cx: &mut Context, number: u32, declared: DeclaredType)
    ensures { state cx.new ≡ spec.with_result number (declared_view declared) (state cx.old) }
{
    if let Some(function) = cx.functions.get_mut(number as usize) {
        function.result = declared;
    }
}

/// Whether a function, by its number, has a type.
fn has_signature(cx: &Context, number: u32, head: &FunctionHead) -> bool
    ensures { result ≡ spec.has_signature (state cx.now) number (head_view head.now) }
{
    match cx.functions.get(number as usize) {
        Some(function) => function.is_same(&head.declared.ctype, head.parameters.as_slice()),
        None => false,
    }
}

/// Whether a function of a number is declared.
fn is_declared(cx: &Context, number: u32) -> bool
    ensures { result ≡ spec.is_declared (state cx.now) number }
{
    cx.functions.get(number as usize).is_some()
}

/// Gives a function its type for the first time.
fn sign_first(cx: &mut Context, place: Place, number: u32, head: &FunctionHead) -> Result<(), Stop>
    ensures { Leads (λ _. tt) (spec.signed_first place number (head_view head.now) (state cx.old)) result (state cx.new) }
{
    if is_declared(cx, number) {
        let declared = head.declared.copy(cx.alloc)?;
        let parameters = copied_types(cx.alloc, head.parameters.as_slice())?;
        give_signature(cx, number, declared, parameters);
        Ok(())
    } else {
        Err(redeclared(place))
    }
}

/// Gives a function its type again, which has to be the same.
fn sign_again(cx: &mut Context, place: Place, number: u32, head: &FunctionHead) -> Result<(), Stop>
    ensures { Leads (λ _. tt) (spec.signed_again place number (head_view head.now) (state cx.old)) result (state cx.new) }
{
    if has_signature(cx, number, head) {
        let declared = head.declared.copy(cx.alloc)?;
        give_result(cx, number, declared);
        Ok(())
    } else {
        Err(redeclared(place))
    }
}

/// Gives a function its type by what its name meant before.
fn sign_by(
    cx: &mut Context,
    place: Place,
    slot: FunctionSlot,
    head: &FunctionHead,
) -> Result<(), Stop>
    ensures { Leads (λ _. tt) (spec.signed_by place slot.number slot.before (head_view head.now) (state cx.old)) result (state cx.new) }
{
    match slot.before {
        NameBefore::Nothing => sign_first(cx, place, slot.number, head),
        NameBefore::Function(_) => sign_again(cx, place, slot.number, head),
        NameBefore::Other => Err(redeclared(place)),
    }
}

/// Gives a function its type, which has to be that of its earlier declarations.
fn sign(cx: &mut Context, name: &Name, slot: FunctionSlot, head: &FunctionHead) -> Result<(), Stop>
    ensures { Leads (λ _. tt) (spec.signed (name_view name.now) slot.number slot.before (head_view head.now) (state cx.old)) result (state cx.new) }
{
    if is_library_name(&name.text) {
        Err(redeclared(name.place))
    } else {
        sign_by(cx, name.place, slot, head)
    }
}

/// A prototype: its parameters have a scope of their own.
pub fn prototype(
    cx: &mut Context,
    base: &Specified,
    declarator: &FunctionDeclarator,
) -> Result<(), Stop>
    ensures { Leads (λ _. tt) (spec.prototype (state cx.old) (specified_view base.now) (function_declarator_view declarator.now)) result (state cx.new) }
{
    let slot = function_slot(cx, &declarator.name)?;
    cx.scopes.open()?;
    let head = function_head(cx, &base.declared, declarator)?;
    cx.scopes.close();
    sign(cx, &declarator.name, slot, &head)
}

/// Notes that a function is defined; whether it was before.
fn meet_definition(cx: &mut Context, number: u32) -> bool
    ensures before { result ≡ spec.is_defined (state cx.old) number }
    ensures after { state cx.new ≡ spec.with_defined (state cx.old) number }
{
    match cx.functions.get_mut(number as usize) {
        Some(function) => {
            let before = function.is_defined;
            function.is_defined = true;
            before
        }
        None => false,
    }
}

/// Judges a definition whose function has its type, at its name.
fn met_head(cx: &mut Context, name: &Name, number: u32, head: &FunctionHead) -> Result<(), Stop>
    ensures { Leads (λ _. tt) (spec.met_head (name_view name.now) number (head_view head.now) (state cx.old)) result (state cx.new) }
{
    if meet_definition(cx, number) {
        return Err(redeclared(name.place));
    }
    if head.are_named {
        Ok(())
    } else {
        Err(type_fault(name.place))
    }
}

/// Judges the head of a definition at its name.
pub fn judged_head(
    cx: &mut Context,
    name: &Name,
    slot: FunctionSlot,
    head: &FunctionHead,
) -> Result<(), Stop>
    ensures { Leads (λ _. tt) (spec.judged_head (name_view name.now) slot.number slot.before (head_view head.now) (state cx.old)) result (state cx.new) }
{
    sign(cx, name, slot, head)?;
    met_head(cx, name, slot.number, head)
}

/// The objects of the body at hand, which ends.
pub fn taken_body(cx: &mut Context) -> Body
    ensures body { body_view result ≡ (state cx.old).body }
    ensures after { state cx.new ≡ spec.without_body (state cx.old) }
{
    let empty = Body {
        number: 0,
        locals: Vec::new(cx.alloc),
        enumerations: Vec::new(cx.alloc),
    };
    std::mem::replace(&mut cx.body, empty)
}
