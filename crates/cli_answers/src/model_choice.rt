//! The data model that the words name.
ghost use Rattle.std.specs.Prelude.{◌≡◌, ◌≤◌, IfOk, IsErrOf, None, true};
ghost use Rattle.cc_base.specs.Outside.{Rose};
ghost use Rattle.c_layout.specs.Models.{is_model, model_named};
ghost use Rattle.c_preproc.specs.Causes.{seen_of};
ghost use Rattle.cli_answers.specs.Verdicts.{key_reason};
ghost use Rattle.cli_answers.specs.Choices.{IsChosen, IsRefusedWith, IsChoiceBy, IsChoiceOf, IsChoice};

use crate::decision::Halt;
use c_layout::{Key, Model, ModelFault, by_name, from_toml};
use cc_base::{Tree, TreeFault};
use cli_texts::{Answer, file_too_long, no_file, no_model};
use std::alloc::Global;

/// A model, or the answer where there is none.
#[derive(Drop)]
pub enum ModelChoice {
    Chosen(Model),
    Refused(Answer),
}

/// Why a file with a wrong value gives no model.
fn key_reason(key: Key) -> &'static str
    ensures { result.now ≡ key_reason key }
{
    match key {
        Key::Short => "ModelValue short",
        Key::Int => "ModelValue int",
        Key::Long => "ModelValue long",
        Key::LongLong => "ModelValue long_long",
        Key::Pointer => "ModelValue pointer",
        Key::CharSigned => "ModelValue char_signed",
    }
}

/// The answer to a file that gives no model.
fn refuse(alloc: Global, name: &str, reason: &str) -> Result<ModelChoice, Halt>
    ensures text { IfOk result (IsRefusedWith name.now reason.now) }
    ensures fault { IsErrOf result Halt.ReadFault → ⊥ }
{
    Ok(ModelChoice::Refused(no_model(alloc, name, reason)?))
}

/// Whether the numbers of a model are in their lists.
fn is_model(model: &Model) -> bool
    ensures { result ≡ is_model model.now }
{
    let integers = model.short == 2
        && (model.int == 2 || model.int == 4)
        && (model.long == 4 || model.long == 8)
        && model.long_long == 8;
    let pointer = model.pointer == model.int
        || model.pointer == model.long
        || model.pointer == model.long_long;
    integers && (model.pointer == 4 || model.pointer == 8) && pointer
}

/// A model whose numbers are in their lists; no other one is read or has a name.
fn chosen(model: Model) -> Result<ModelChoice, Halt>
    ensures choice { IfOk result (IsChosen model) }
    ensures fault { IsErrOf result Halt.ReadFault → ⊥ }
{
    if is_model(&model) {
        Ok(ModelChoice::Chosen(model))
    } else {
        Err(Halt::Memory)
    }
}

/// The choice that what a file gives calls for.
fn choice_by(
    alloc: Global,
    name: &str,
    found: Result<Model, ModelFault>,
) -> Result<ModelChoice, Halt>
    ensures choice { IfOk result (IsChoiceBy name.now found) }
    ensures fault { IsErrOf result Halt.ReadFault → ⊥ }
{
    match found {
        Ok(model) => chosen(model),
        Err(ModelFault::Shape) => refuse(alloc, name, "ModelShape"),
        Err(ModelFault::Value(key)) => refuse(alloc, name, key_reason(key)),
        Err(ModelFault::Memory) => Err(Halt::Memory),
    }
}

/// The choice that the bytes of a file call for.
fn choice_of_bytes(alloc: Global, name: &str, bytes: &[u8]) -> Result<ModelChoice, Halt>
    ensures choice { IfOk result (IsChoiceOf name.now bytes.now) }
    ensures fault { IsErrOf result Halt.ReadFault → ⊥ }
{
    choice_by(alloc, name, from_toml(alloc, bytes))
}

/// The choice that a file calls for whose name is none of a model.
fn choice_of_file<T: Tree>(alloc: Global, name: &str, tree: &mut T) -> Result<ModelChoice, Halt>
    requires { model_named name.now ≡ None }
    ensures choice { IfOk result (IsChoice (seen_of (T.files tree.old) (T.faults tree.old) (T.faults tree.new) (T.taken tree.old) (T.taken tree.new)) name.now) }
    ensures fault { IsErrOf result Halt.ReadFault → Rose (T.faults tree.old) (T.faults tree.new) }
    ensures files { T.files tree.new ≡ T.files tree.old }
    ensures faults { T.faults tree.old ≤ T.faults tree.new }
    ensures taken { T.taken tree.old ≤ T.taken tree.new }
{
    let mut bytes = Vec::new(alloc);
    match tree.read(alloc, name, &mut bytes) {
        Ok(()) => choice_of_bytes(alloc, name, bytes.as_slice()),
        Err(TreeFault::Missing) => Ok(ModelChoice::Refused(no_file(alloc, name)?)),
        Err(TreeFault::TooLong) => Ok(ModelChoice::Refused(file_too_long(alloc, name)?)),
        Err(TreeFault::Failed) => Err(Halt::ReadFault),
        Err(TreeFault::Memory) => Err(Halt::Memory),
    }
}

/// The model with a name, or that of the file with this name.
pub fn choose_model<T: Tree>(alloc: Global, name: &str, tree: &mut T) -> Result<ModelChoice, Halt>
    ensures choice { IfOk result (IsChoice (seen_of (T.files tree.old) (T.faults tree.old) (T.faults tree.new) (T.taken tree.old) (T.taken tree.new)) name.now) }
    ensures fault { IsErrOf result Halt.ReadFault → Rose (T.faults tree.old) (T.faults tree.new) }
    ensures files { T.files tree.new ≡ T.files tree.old }
    ensures faults { T.faults tree.old ≤ T.faults tree.new }
    ensures taken { T.taken tree.old ≤ T.taken tree.new }
{
    match by_name(name) {
        Some(model) => chosen(model),
        None => choice_of_file(alloc, name, tree),
    }
}
