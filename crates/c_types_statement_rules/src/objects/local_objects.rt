//! Objects of blocks, once their types are known (6.7, 6.8.2 of ISO/IEC 9899:2011).
ghost use Rattle.std.specs.Prelude.{◌≡◌, IfOk, length};
ghost use Rattle.c_layout.specs.Types.{view};
ghost use Rattle.c_layout.specs.DeclarationTrees.{name_view};
ghost use Rattle.c_layout.specs.CheckedTrees.{statement_tree};
ghost use Rattle.c_types_scopes.specs.Answers.{Gives};
ghost use Rattle.c_types_scopes.specs.DeclaredTypes.{declared_view};
ghost use Rattle.c_types_scopes.specs.Known.{known};
ghost use Rattle.c_types_scopes.specs.States.{state};
ghost use Rattle.c_types_initializers.specs.Initialized.{initialized_view};
ghost use Rattle.c_types_statement_rules.specs.Objects.LocalObjects as spec;
ghost use Rattle.c_types_statement_rules.specs.Objects.LocalObjects.{parts_view};

use c_layout::{CType, CheckedStatement, Name, Storage};
use c_types_initializers::Initialized;
use c_types_scopes::{Context, DeclaredType, Meaning, ObjectDeclaration, type_fault};
use cc_base::{Memory, Place, Stop};

/// The objects of automatic storage of a block so far, and its statements.
#[derive(Drop)]
pub struct BlockParts {
    pub objects: Vec<u32>,
    pub statements: Vec<CheckedStatement>,
}

/// Whether a type is complete, or an array whose length its initializer gives.
pub fn may_be_local(cx: &Context, t: &CType, has_initializer: bool) -> bool
    ensures { result ≡ spec.may_be_local (known cx.now) (view t.now) has_initializer }
{
    match t {
        CType::Array(_, count) => {
            if *count == 0 {
                has_initializer
            } else {
                cx.size_of(t).is_some()
            }
        }
        CType::Int(_) => cx.size_of(t).is_some(),
        CType::Pointer(_) => cx.size_of(t).is_some(),
        CType::Struct(_) => cx.size_of(t).is_some(),
        CType::Void => cx.size_of(t).is_some(),
    }
}

/// Declares an object of automatic storage by the number of its name; its number.
fn automatic(
    cx: &mut Context,
    known: u32,
    name: &Name,
    declared: DeclaredType,
) -> Result<u32, Memory>
    ensures number { IfOk result (λ n. n ≡ length (state cx.old).body.locals) }
    ensures after { IfOk result (λ _. state cx.new ≡ spec.automatic known (name_view name.now) (declared_view declared) (state cx.old)) }
{
    let text = name.text.copy(cx.alloc)?;
    let number = cx.add_local(text, name.place, declared)?;
    cx.scopes.declare(known, Meaning::Local(number))?;
    Ok(number)
}

/// Declares an object of automatic storage; its number.
pub fn declare_automatic(
    cx: &mut Context,
    name: &Name,
    declared: DeclaredType,
    parts: &mut BlockParts,
) -> Result<u32, Memory>
    ensures number { IfOk result (λ n. n ≡ length (state cx.old).body.locals) }
    ensures after { IfOk result (λ _. state cx.new ≡ spec.with_automatic (name_view name.now) (declared_view declared) (state cx.old)) }
    ensures parts { IfOk result (λ n. parts_view parts.new ≡ spec.with_object (parts_view parts.old) n) }
{
    let known = cx.name(&name.text)?;
    let number = automatic(cx, known, name, declared)?;
    parts.objects.push(number)?;
    Ok(number)
}

/// Declares an object of static storage by the number of its name; its numbers among those declared
/// and those of the run.
fn static_by(
    cx: &mut Context,
    known: u32,
    name: &Name,
    declared: DeclaredType,
) -> Result<(u32, u32), Memory>
    ensures numbers { IfOk result (λ r. (r.0 ≡ length (state cx.old).objects) × (r.1 ≡ length (state cx.old).statics)) }
    ensures after { IfOk result (λ _. state cx.new ≡ spec.static_by known (name_view name.now) (declared_view declared) (state cx.old)) }
{
    let text = name.text.copy(cx.alloc)?;
    let ctype = declared.ctype.copy(cx.alloc)?;
    let number = cx.add_static(text, name.place, ctype)?;
    let index = u32::try_from(cx.objects.len()).map_err(|_| Memory)?;
    cx.objects.push(ObjectDeclaration {
        declared,
        number: Some(number),
        initialized: true,
    })?;
    cx.scopes.declare(known, Meaning::Static(index))?;
    Ok((index, number))
}

/// Declares an object of static storage; its numbers among those declared and those of the run.
pub fn declare_static(
    cx: &mut Context,
    name: &Name,
    declared: DeclaredType,
) -> Result<(u32, u32), Memory>
    ensures numbers { IfOk result (λ r. (r.0 ≡ length (state cx.old).objects) × (r.1 ≡ length (state cx.old).statics)) }
    ensures after { IfOk result (λ _. state cx.new ≡ spec.with_static_object (name_view name.now) (declared_view declared) (state cx.old)) }
{
    let known = cx.name(&name.text)?;
    static_by(cx, known, name, declared)
}

/// The statement that an initializer of a local object is.
pub fn start(place: Place, number: u32, made: Initialized) -> CheckedStatement
    ensures { statement_tree result ≡ spec.start place number (initialized_view made) }
{
    match made {
        Initialized::Scalar(term) => {
            CheckedStatement::Start(place, number, Box::into_inner(term))
        }
        Initialized::Struct(source) => {
            CheckedStatement::StartCopy(place, number, Box::into_inner(source))
        }
        Initialized::List(stores) => CheckedStatement::StartList(place, number, stores),
    }
}

/// Gives a local object its type.
pub fn set_local(cx: &mut Context, number: u32, ctype: CType)
    ensures { state cx.new ≡ spec.with_local_type number (view ctype) (state cx.old) }
{
    if let Some(object) = cx.body.locals.get_mut(number as usize) {
        object.ctype = ctype;
    }
}

/// Gives a declared object its type.
fn set_object(cx: &mut Context, index: u32, ctype: CType)
    ensures { state cx.new ≡ spec.with_object_type index (view ctype) (state cx.old) }
{
    if let Some(object) = cx.objects.get_mut(index as usize) {
        object.declared.ctype = ctype;
    }
}

/// Gives an object of the run its type.
fn set_run(cx: &mut Context, number: u32, ctype: CType)
    ensures { state cx.new ≡ spec.with_run_type number (view ctype) (state cx.old) }
{
    if let Some(object) = cx.statics.get_mut(number as usize) {
        object.ctype = ctype;
    }
}

/// Gives an object of static storage its type.
pub fn set_static(cx: &mut Context, index: u32, number: u32, ctype: CType) -> Result<(), Memory>
    ensures { IfOk result (λ _. state cx.new ≡ spec.with_static_type index number (view ctype) (state cx.old)) }
{
    let same = ctype.copy(cx.alloc)?;
    set_object(cx, index, same);
    set_run(cx, number, ctype);
    Ok(())
}

/// Whether an object has static storage; other storage classes than `auto` and `register` do not
/// stand in a block.
pub fn is_static(storage: Option<Storage>, place: Place) -> Result<bool, Stop>
    ensures { Gives (λ b. b) (spec.is_static storage place) result }
{
    match storage {
        Some(Storage::Static) => Ok(true),
        Some(Storage::Typedef) => Err(type_fault(place)),
        Some(Storage::Extern) => Err(type_fault(place)),
        Some(Storage::Auto) => Ok(false),
        Some(Storage::Register) => Ok(false),
        None => Ok(false),
    }
}
