//! The check of a unit (6.9 of ISO/IEC 9899:2011).
ghost use Rattle.std.specs.Prelude.{◌≡◌, ◌<◌, true, [], map, length, vec_len, Some, IfOk};
ghost use Rattle.c_layout.specs.Models.{is_model};
ghost use Rattle.c_layout.specs.DeclarationTrees.{external_tree, unit_tree};
ghost use Rattle.c_layout.specs.CheckedUnits.{function_view, unit_view};
ghost use Rattle.c_types_scopes.specs.Answers.{Gives, Leads};
ghost use Rattle.c_types_scopes.specs.States.{state};
ghost use Rattle.c_types_declarations.specs.ContextSteps.{with_struct};
ghost use Rattle.c_types.specs.Units.UnitEntries.{entry_number};
ghost use Rattle.c_types.specs.Units.Streams as streams;
ghost use Rattle.c_types.specs.Units.UnitChecks as spec;

use crate::file_scope::external_declaration;
use crate::units::function_definitions::function_definition;
use crate::units::unit_definitions::add_definitions;
use crate::units::unit_entries::judged_unit;
use c_layout::{Checked, External, Function, Model, Tree7};
use c_types_scopes::{Context, DataModel, Tag};
use c_types_statement_rules::objects::finish_objects;
use cc_base::{Memory, Stop, Text};
use std::alloc::Global;

/// Types one external declaration; its function goes to the others.
fn external(
    cx: &mut Context,
    functions: &mut Vec<Function>,
    external: &External,
) -> Result<(), Stop>
    ensures { Leads (λ _. map function_view functions.new.items) (spec.external (state cx.old) (map function_view functions.old.items) (external_tree external.now)) result (state cx.new) }
{
    match external {
        External::Declaration(at, words, declarators) => {
            external_declaration(cx, *at, words.as_slice(), declarators.as_slice())
        }
        External::Function(at, words, declarator, list) => {
            let made = function_definition(cx, *at, words.as_slice(), declarator, list.as_slice())?;
            functions.push(made)?;
            Ok(())
        }
    }
}

/// Declares a struct of which nothing is known; its number.
fn declare_struct(cx: &mut Context) -> Result<u32, Memory>
    ensures number { IfOk result (λ n. n ≡ length (state cx.old).types.structs) }
    ensures after { IfOk result (λ _. state cx.new ≡ with_struct (state cx.old)) }
{
    cx.types.declare(cx.alloc)
}

/// Declares the struct that a stream points to, which a header completes (7.21.1p2).
fn declare_stream(cx: &mut Context) -> Result<(), Memory>
    ensures { IfOk result (λ _. state cx.new ≡ streams.with_stream (state cx.old)) }
{
    let tag = Text::from_bytes(cx.alloc, b"__file")?;
    let name = cx.name(&tag)?;
    let number = declare_struct(cx)?;
    cx.scopes.declare_tag(name, Tag::Struct(number))?;
    cx.stream = number;
    Ok(())
}

/// Types external declarations in order; their functions go to the others.
fn externals_of(
    cx: &mut Context,
    functions: &mut Vec<Function>,
    externals: &[External],
) -> Result<(), Stop>
    ensures { Leads (λ _. map function_view functions.new.items) (spec.externals (state cx.old) (map function_view functions.old.items) (map external_tree externals.now)) result (state cx.new) }
{
    for next in externals {
        external(cx, functions, next)?;
    }
    Ok(())
}

/// Types the whole tree; its functions.
fn typed_unit(cx: &mut Context, tree: &Tree7) -> Result<Vec<Function>, Stop>
    ensures { Leads (λ f. map function_view f.items) (spec.typed_unit (state cx.old) (unit_tree tree.now)) result (state cx.new) }
{
    declare_stream(cx)?;
    add_definitions(cx, tree.externals.as_slice())?;
    let mut functions = Vec::new(cx.alloc);
    externals_of(cx, &mut functions, tree.externals.as_slice())?;
    finish_objects(cx)?;
    Ok(functions)
}

/// The checked tree of a unit, whose runs start at the function `entry`.
///
/// # Errors
///
/// The refusal of the first expression, declarator or statement in reading order whose parts have
/// types and which has none; then `NoEntry`, and then `Recursion` at the first call that makes a
/// cycle with the calls before it; or want of memory.
pub fn check(alloc: Global, tree: &Tree7, model: &Model, entry: &str) -> Result<Checked, Stop>
    requires { is_model model.now ≡ true }
    ensures checked { Gives unit_view (spec.check model.now entry.now (unit_tree tree.now)) result }
    ensures model { IfOk result (λ unit. unit.model ≡ model.now) }
    ensures entry { IfOk result (λ unit. unit.entry < vec_len unit.functions) }
    ensures chosen { IfOk result (λ unit. entry_number (map function_view unit.functions.items) entry.now ≡ Some unit.entry) }
{
    let mut cx = Context::new(alloc, DataModel::new(model));
    let functions = typed_unit(&mut cx, tree)?;
    let entry = judged_unit(alloc, &cx.calls, functions.as_slice(), entry)?;
    let Context {
        types,
        statics,
        literals,
        constants,
        ..
    } = cx;
    Ok(Checked {
        functions,
        constants,
        objects: statics,
        structs: types.structs,
        literals,
        entry,
        model: *model,
    })
}
