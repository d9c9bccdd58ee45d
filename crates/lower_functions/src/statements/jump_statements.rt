//! Labels and jumps (6.8.1 and 6.8.6 of ISO/IEC 9899:2011).
ghost use Rattle.std.specs.Prelude.{◌≡◌, IfOk};
ghost use Rattle.std.specs.Option.{option_map};
ghost use Rattle.c_layout.specs.CheckedTrees.{term_tree, statement_tree};
ghost use Rattle.lower_templates.specs.Worklist.Plans.{plan};
ghost use Rattle.lower_templates.specs.Worklist.Settings.{setting};
ghost use Rattle.lower_functions.specs.Statements.Jumps as spec;

use crate::statements::scope_jumps::{push_jump, push_leaves, push_way};
use crate::statements::switch_statements::dispatch_at;
use c_layout::{CheckedStatement, CheckedTerm};
use cc_base::Place;
use cfg::Operation;
use lower_expressions::jump;
use lower_templates::worklist::{
    BaseName, Builder, Landing, Setting, Surroundings, Work, behind, scalar,
};
use std::alloc::AllocError;

/// A labelled statement begins a block.
pub fn labelled<'a>(
    builder: &mut Builder<'a>,
    label: u32,
    body: &'a CheckedStatement,
    around: Surroundings,
) -> Result<(), AllocError>
    ensures { IfOk result (λ _. plan builder.new ≡ spec.labelled label (statement_tree body.now) around (plan builder.old)) }
{
    builder.mark(label)?;
    builder.add(Work::Statement(body, around))
}

/// A case label of the innermost `switch`.
pub fn case_labelled<'a>(
    builder: &mut Builder<'a>,
    case: u32,
    body: &'a CheckedStatement,
    around: Surroundings,
) -> Result<(), AllocError>
    ensures { IfOk result (λ _. plan builder.new ≡ spec.case_labelled case (statement_tree body.now) around (plan builder.old)) }
{
    let label = behind(dispatch_at(builder, around.choice).cases, case);
    labelled(builder, label, body, around)
}

/// The default label of the innermost `switch`.
pub fn default_labelled<'a>(
    builder: &mut Builder<'a>,
    body: &'a CheckedStatement,
    around: Surroundings,
) -> Result<(), AllocError>
    ensures { IfOk result (λ _. plan builder.new ≡ spec.default_labelled (statement_tree body.now) around (plan builder.old)) }
{
    let label = dispatch_at(builder, around.choice).fallback;
    labelled(builder, label, body, around)
}

/// The scope of a label; another one where there is no such label.
fn label_scope(cx: &Setting, label: u32, other: u32) -> u32
    ensures { result ≡ spec.label_scope (setting cx.now) label other }
{
    match cx.tree.labels.get(label as usize) {
        Some(found) => *found,
        None => other,
    }
}

/// `goto`
pub fn go(
    cx: &Setting,
    builder: &mut Builder,
    label: u32,
    around: Surroundings,
) -> Result<(), AllocError>
    ensures { IfOk result (λ _. plan builder.new ≡ spec.go (setting cx.now) label around (plan builder.old)) }
{
    let scope = label_scope(cx, label, around.scope);
    push_jump(cx, builder, around.scope, Landing { label, scope })
}

/// Adds the instruction that ends the run, which ends its block without edges.
pub fn push_stop(builder: &mut Builder, place: Place) -> Result<(), AllocError>
    ensures { IfOk result (λ _. plan builder.new ≡ spec.stopped place (plan builder.old)) }
{
    let none = Vec::new(builder.alloc);
    builder.close(place, Operation::Stop, none)
}

/// Adds the leaving of the parameters and the jump behind the body.
fn push_exit(cx: &Setting, builder: &mut Builder) -> Result<(), AllocError>
    ensures { IfOk result (λ _. plan builder.new ≡ spec.exit (setting cx.now) (plan builder.old)) }
{
    push_leaves(builder, cx.place, cx.parameters.as_slice())?;
    jump(builder, cx.place, cx.end)
}

/// Adds the end of a return: from the entry the run stops, from another function a jump leads behind
/// its body.
fn push_end(cx: &Setting, builder: &mut Builder, place: Place, from: u32) -> Result<(), AllocError>
    ensures { IfOk result (λ _. plan builder.new ≡ spec.end (setting cx.now) place from (plan builder.old)) }
{
    push_way(cx, builder, from, 0)?;
    if cx.is_entry {
        push_stop(builder, place)
    } else {
        push_exit(cx, builder)
    }
}

/// Adds the value of a return, which is stored in the object of the result.
fn push_result<'a>(
    builder: &mut Builder<'a>,
    place: Place,
    value: &'a CheckedTerm,
) -> Result<(), AllocError>
    ensures { IfOk result (λ _. plan builder.new ≡ spec.outcome place (term_tree value.now) (plan builder.old)) }
{
    let base = builder.base(BaseName::Outcome)?;
    builder.emit(place, Operation::Address(0, base, 0))?;
    builder.add(Work::Value(value, 1))?;
    builder.emit(place, Operation::Store(0, 1, scalar(&value.ctype), None))
}

/// Adds the value of a return, where it has one: in the entry it is only computed.
fn push_value<'a>(
    cx: &Setting<'a>,
    builder: &mut Builder<'a>,
    place: Place,
    value: &'a Option<CheckedTerm>,
) -> Result<(), AllocError>
    ensures { IfOk result (λ _. plan builder.new ≡ spec.given (setting cx.now) place (option_map term_tree value.now) (plan builder.old)) }
{
    match value {
        Some(term) => {
            if cx.is_entry {
                builder.add(Work::Value(term, 0))
            } else {
                push_result(builder, place, term)
            }
        }
        None => Ok(()),
    }
}

/// `return`
pub fn giving<'a>(
    cx: &Setting<'a>,
    builder: &mut Builder<'a>,
    place: Place,
    value: &'a Option<CheckedTerm>,
    around: Surroundings,
) -> Result<(), AllocError>
    ensures { IfOk result (λ _. plan builder.new ≡ spec.giving (setting cx.now) place (option_map term_tree value.now) around (plan builder.old)) }
{
    push_value(cx, builder, place, value)?;
    push_end(cx, builder, place, around.scope)
}
