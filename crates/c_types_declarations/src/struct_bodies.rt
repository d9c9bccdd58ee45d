//! Structs with their members (6.7.2.1 of ISO/IEC 9899:2011).
ghost use Rattle.std.specs.Prelude.{◌≡◌, IfOk, map, option_map, is_some};
ghost use Rattle.c_layout.specs.Types.{view};
ghost use Rattle.c_layout.specs.StructViews.{struct_view};
ghost use Rattle.c_layout.specs.StructLayouts.{partial_view};
ghost use Rattle.c_layout.specs.DeclarationTrees.{name_view, declarator_view};
ghost use Rattle.c_types_scopes.specs.Answers.{Leads};
ghost use Rattle.c_types_scopes.specs.Known.{known, size_of};
ghost use Rattle.c_types_scopes.specs.DeclaredTypes.{declared_view};
ghost use Rattle.c_types_scopes.specs.States.{state};
ghost use Rattle.c_types_declarations.specs.Specifiers.{specified_view};
ghost use Rattle.c_types_declarations.specs.StructBodies as spec;

use crate::context_steps::{begin_body, complete, declare_struct, declare_tag, note_member};
use crate::declarators::declared_type;
use crate::specifiers::Specified;
use c_layout::{Declarator, Name, Storage, StructLayout, StructType};
use c_types_rules::rules::size_if_complete;
use c_types_scopes::{Context, DeclaredType, Tag, redeclared, type_fault};
use cc_base::{Memory, Place, Stop};

/// A struct with a new tag in the innermost scope.
fn new_tag(cx: &mut Context, name: u32) -> Result<u32, Memory>
    ensures { IfOk result (λ n. (n, state cx.new) ≡ spec.new_tag name (state cx.old)) }
{
    let number = declare_struct(cx)?;
    declare_tag(cx, name, Tag::Struct(number))?;
    Ok(number)
}

/// The struct of a tag with this number of its name.
fn alone_by(cx: &mut Context, at: Place, name: u32) -> Result<u32, Stop>
    ensures { Leads (λ n. n) (spec.alone_by at name (state cx.old)) result (state cx.new) }
{
    match cx.scopes.find_tag_here(name) {
        Some(Tag::Struct(number)) => Ok(number),
        Some(Tag::Enumeration(_)) => Err(redeclared(at)),
        None => Ok(new_tag(cx, name)?),
    }
}

/// The struct of a tag that is declared in the innermost scope, or there from now on.
pub fn alone_tag(cx: &mut Context, tag: &Name) -> Result<u32, Stop>
    ensures { Leads (λ n. n) (spec.alone_tag (name_view tag.now) (state cx.old)) result (state cx.new) }
{
    let name = cx.name(&tag.text)?;
    alone_by(cx, tag.place, name)
}

/// Adds a member of a type to a struct's layout; whether it is complete.
fn laid_out(
    cx: &Context,
    layout: &mut StructLayout,
    name: &Name,
    declared: DeclaredType,
) -> Result<bool, Memory>
    ensures complete { IfOk result (λ b. b ≡ is_some (size_of (known cx.now) (view declared.ctype))) }
    ensures after { IfOk result (λ _. partial_view layout.new ≡ spec.laid_out (known cx.now) (partial_view layout.old) (name_view name.now).text (view declared.ctype)) }
{
    let structs = &cx.types.structs;
    let model = &cx.model.numbers;
    if size_if_complete(&declared.ctype, structs, model.pointer).is_none() {
        return Ok(false);
    }
    let text = name.text.copy(cx.alloc)?;
    layout.add(text, declared.ctype, structs, model)?;
    Ok(true)
}

/// Whether a storage class is none that a member or a parameter may have.
pub fn is_stored(storage: Option<Storage>) -> bool
    ensures { result ≡ spec.is_stored storage }
{
    match storage {
        Some(Storage::Typedef) => true,
        Some(Storage::Extern) => true,
        Some(Storage::Static) => true,
        Some(Storage::Auto) => false,
        Some(Storage::Register) => false,
        None => false,
    }
}

/// Names a member by the number of its name.
fn named_by(
    cx: &mut Context,
    at: Place,
    owner: u32,
    name: u32,
    field: u32,
    enumeration: Option<u32>,
) -> Result<(), Stop>
    ensures { Leads (λ _. tt) (spec.named_by at owner name field enumeration (state cx.old)) result (state cx.new) }
{
    if cx.types.has_member(owner, name) {
        Err(redeclared(at))
    } else {
        note_member(cx, owner, name, field, enumeration)?;
        Ok(())
    }
}

/// Names a member, the field with a number.
fn name_member(
    cx: &mut Context,
    owner: u32,
    name: &Name,
    field: u32,
    enumeration: Option<u32>,
) -> Result<(), Stop>
    ensures { Leads (λ _. tt) (spec.name_member owner (name_view name.now) field enumeration (state cx.old)) result (state cx.new) }
{
    let known = cx.name(&name.text)?;
    named_by(cx, name.place, owner, known, field, enumeration)
}

/// Adds a member of a type, the field with a number.
fn add_field(
    cx: &mut Context,
    owner: u32,
    storage: Option<Storage>,
    name: &Name,
    declared: DeclaredType,
    field: u32,
    layout: &mut StructLayout,
) -> Result<(), Stop>
    ensures { Leads (λ _. partial_view layout.new) (spec.add_field owner storage (name_view name.now) (declared_view declared) field (partial_view layout.old) (state cx.old)) result (state cx.new) }
{
    if is_stored(storage) {
        return Err(type_fault(name.place));
    }
    let enumeration = declared.enumeration;
    if laid_out(cx, layout, name, declared)? {
        name_member(cx, owner, name, field, enumeration)
    } else {
        Err(type_fault(name.place))
    }
}

/// Adds a member, the field with a number.
fn add_member(
    cx: &mut Context,
    owner: u32,
    base: &Specified,
    declarator: &Declarator,
    field: u32,
    layout: &mut StructLayout,
) -> Result<(), Stop>
    ensures { Leads (λ _. partial_view layout.new) (spec.add_member owner (specified_view base.now) (declarator_view declarator.now) field (partial_view layout.old) (state cx.old)) result (state cx.new) }
{
    match &declarator.name {
        Some(name) => {
            let layers = declarator.layers.as_slice();
            let declared = declared_type(cx, name.place, &base.declared, layers)?;
            add_field(cx, owner, base.storage, name, declared, field, layout)
        }
        None => Ok(()),
    }
}

/// Adds the members that declarators declare; how many members there are then.
pub fn declared_members(
    cx: &mut Context,
    owner: u32,
    base: &Specified,
    declarators: &[Declarator],
    fields: u32,
    layout: &mut StructLayout,
) -> Result<u32, Stop>
    ensures { Leads (λ n. (n, partial_view layout.new)) (spec.declared_members owner (specified_view base.now) (map declarator_view declarators.now) fields (partial_view layout.old) (state cx.old)) result (state cx.new) }
{
    let mut count = fields;
    for declarator in declarators {
        add_member(cx, owner, base, declarator, count, layout)?;
        count = count.checked_add(1).ok_or(Memory)?;
    }
    Ok(count)
}

/// The struct that a body belongs to, and where it is refused.
fn owner_of(cx: &mut Context, place: Place, tag: Option<&Name>) -> Result<(u32, Place), Stop>
    ensures { Leads (λ r. r) (spec.owner_of place (option_map (λ n. name_view n.now) tag.entry) (state cx.old)) result (state cx.new) }
{
    match tag {
        Some(tag) => Ok((alone_tag(cx, tag)?, tag.place)),
        None => Ok((declare_struct(cx)?, place)),
    }
}

/// A body that is read: the struct that it belongs to, where it is refused, whether another body of
/// this struct was met before, and the struct whose members are read.
#[derive(Clone, Copy)]
pub struct OpenBody {
    pub owner: u32,
    pub at: Place,
    pub is_repeated: bool,
    pub number: u32,
}

/// Begins a body of a struct. The members of a second one belong to another struct.
fn begun(cx: &mut Context, owner: u32, at: Place) -> Result<OpenBody, Memory>
    ensures { IfOk result (λ b. (b, state cx.new) ≡ spec.begun owner at (state cx.old)) }
{
    if begin_body(cx, owner)? {
        let number = declare_struct(cx)?;
        Ok(OpenBody {
            owner,
            at,
            is_repeated: true,
            number,
        })
    } else {
        Ok(OpenBody {
            owner,
            at,
            is_repeated: false,
            number: owner,
        })
    }
}

/// Begins a body at its word.
pub fn begun_body(cx: &mut Context, place: Place, tag: Option<&Name>) -> Result<OpenBody, Stop>
    ensures { Leads (λ b. b) (spec.begun_body (state cx.old) place (option_map (λ n. name_view n.now) tag.entry)) result (state cx.new) }
{
    let (owner, at) = owner_of(cx, place, tag)?;
    Ok(begun(cx, owner, at)?)
}

/// Completes a struct whose members were read; one that is too large is refused.
fn completed(cx: &mut Context, at: Place, owner: u32, made: Option<StructType>) -> Result<u32, Stop>
    ensures { Leads (λ n. n) (spec.completed at owner (option_map struct_view made) (state cx.old)) result (state cx.new) }
{
    match made {
        Some(made) => {
            complete(cx, owner, made);
            Ok(owner)
        }
        None => Err(type_fault(at)),
    }
}

/// Ends a body whose members were read: completes its struct. A second one is refused.
pub fn ended(cx: &mut Context, begun: OpenBody, layout: StructLayout) -> Result<u32, Stop>
    ensures { Leads (λ n. n) (spec.ended begun (partial_view layout) (state cx.old)) result (state cx.new) }
{
    if begun.is_repeated {
        return Err(redeclared(begun.at));
    }
    let made = layout.finish()?;
    completed(cx, begun.at, begun.owner, made)
}
