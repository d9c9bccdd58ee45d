//! Templates of functions.
ghost use Rattle.std.specs.Prelude.{◌≡◌, IfOk};
ghost use Rattle.c_layout.specs.CheckedUnits.{function_view};
ghost use Rattle.c_layout.specs.StructViews.{structs_view};
ghost use Rattle.lower_templates.specs.Worklist.Pieces.{template_view};
ghost use Rattle.lower_templates.specs.Worklist.Plans.{plan};
ghost use Rattle.lower_templates.specs.Worklist.Settings.{setting};
ghost use Rattle.lower_functions.specs.Functions.Functions.{numbers_from, setting_of, no_plan, IsTemplate};

use crate::functions::finished_works::finished;
use crate::functions::function_works::push_function;
use c_layout::{Checked, Function};
use lower_templates::worklist::{Builder, Setting, Template, scope_tree};
use std::alloc::{AllocError, Global};

/// The numbers below one, in order.
#[tactic(auto, using(crate::proofs::functions::Numbers::next_number, crate::proofs::functions::Numbers::no_number))]
fn numbers_below(alloc: Global, count: u32) -> Result<Vec<u32>, AllocError>
    ensures { IfOk result (λ v. v.items ≡ numbers_from 0 count) }
{
    let mut list = Vec::new(alloc);
    for number in 0..count {
        list.push(number)?;
    }
    Ok(list)
}

/// What a function's template is made from.
fn new_setting<'a>(
    alloc: Global,
    unit: &'a Checked,
    function: &'a Function,
    is_entry: bool,
) -> Result<Setting<'a>, AllocError>
    ensures { IfOk result (λ s. setting s ≡ setting_of (structs_view unit.now.structs) unit.now.model.pointer unit.now.model.int (function_view function.now) is_entry) }
{
    let tree = scope_tree(alloc, function)?;
    let parameters = numbers_below(alloc, function.parameters)?;
    Ok(Setting {
        structs: &unit.structs,
        pointer: unit.model.pointer,
        int: unit.model.int,
        place: function.place,
        parameters,
        is_entry,
        end: function.labels,
        tree,
    })
}

/// Nothing is planned yet.
fn new_builder<'a>(alloc: Global, labels: u32) -> Result<Builder<'a>, AllocError>
    ensures { IfOk result (λ b. plan b ≡ no_plan labels) }
{
    let labels = labels.checked_add(1).ok_or(AllocError)?;
    Ok(Builder {
        alloc,
        works: Vec::new(alloc),
        names: Vec::new(alloc),
        labels,
        scopes: 2,
        dispatches: Vec::new(alloc),
    })
}

/// The template of a function; that of the entry ends the run.
pub fn template<'a>(
    alloc: Global,
    unit: &'a Checked,
    function: &'a Function,
    is_entry: bool,
) -> Result<Template<'a>, AllocError>
    ensures { IfOk result (λ t. IsTemplate (structs_view unit.now.structs) unit.now.model.pointer unit.now.model.int (function_view function.now) is_entry (template_view t)) }
{
    let cx = new_setting(alloc, unit, function, is_entry)?;
    let mut builder = new_builder(alloc, function.labels)?;
    push_function(&cx, &mut builder, function)?;
    finished(&cx, builder)
}
