//! The first works of a function.
ghost use Rattle.std.specs.Prelude.{◌≡◌, ◌++◌, IfOk, map, length};
ghost use Rattle.c_layout.specs.Types.{view};
ghost use Rattle.c_layout.specs.CheckedUnits.{function_view};
ghost use Rattle.lower_templates.specs.Worklist.Acts.{act};
ghost use Rattle.lower_templates.specs.Worklist.Plans.{plan};
ghost use Rattle.lower_templates.specs.Worklist.Settings.{setting};
ghost use Rattle.lower_functions.specs.Functions.Functions as spec;

use crate::statements::{push_enters, push_leaves, push_statements, push_stop};
use c_layout::{CType, Function};
use cc_base::Place;
use cfg::{Instruction, Operation, Scalar};
use lower_templates::worklist::{
    BaseName, Builder, Landing, Piece, Setting, Surroundings, Work, is_void, scalar,
};
use std::alloc::AllocError;

/// The type of a local object; the result's for a number behind them.
fn local_type(function: &Function, number: u32) -> &CType
    ensures { view result.now ≡ spec.local_type (function_view function.now) number }
{
    match function.locals.get(number as usize) {
        Some(found) => &found.ctype,
        None => &function.result,
    }
}

/// Adds the entering of the object of the result, where there is one.
fn push_result_enter(builder: &mut Builder, place: Place, ctype: &CType) -> Result<(), AllocError>
    ensures { IfOk result (λ _. plan builder.new ≡ spec.result_entered place (view ctype.now) (plan builder.old)) }
{
    if is_void(ctype) {
        Ok(())
    } else {
        let base = builder.base(BaseName::Outcome)?;
        builder.emit(place, Operation::Enter(base))
    }
}

/// Adds the store of an argument, which is in the temporary of its number; `spare` is one behind all
/// arguments.
fn push_argument(
    builder: &mut Builder,
    place: Place,
    spare: u32,
    number: u32,
    kind: Scalar,
) -> Result<(), AllocError>
    ensures { IfOk result (λ _. plan builder.new ≡ spec.argument place spare number kind (plan builder.old)) }
{
    let base = builder.base(BaseName::Local(number))?;
    builder.emit(place, Operation::Address(spare, base, 0))?;
    builder.emit(place, Operation::Store(spare, number, kind, None))
}

/// Adds the stores of the arguments, in order.
fn push_arguments(
    builder: &mut Builder,
    place: Place,
    function: &Function,
    numbers: &[u32],
) -> Result<(), AllocError>
    ensures { IfOk result (λ _. plan builder.new ≡ spec.arguments place (function_view function.now) numbers.now (plan builder.old)) }
{
    for number in numbers {
        let kind = scalar(local_type(function, *number));
        push_argument(builder, place, function.parameters, *number, kind)?;
    }
    Ok(())
}

/// Adds the entering of the parameters and the result, and the stores of the arguments.
fn push_parameters(
    cx: &Setting,
    builder: &mut Builder,
    function: &Function,
) -> Result<(), AllocError>
    ensures { IfOk result (λ _. plan builder.new ≡ spec.parameters (setting cx.now) (function_view function.now) (plan builder.old)) }
{
    push_enters(builder, cx.place, cx.parameters.as_slice())?;
    push_result_enter(builder, cx.place, &function.result)?;
    push_arguments(builder, cx.place, function, cx.parameters.as_slice())
}

/// Adds an instruction that is done where the call's value is used.
fn push_if_used(builder: &mut Builder, place: Place, operation: Operation) -> Result<(), AllocError>
    ensures { IfOk result (λ _. plan builder.new ≡ spec.if_used place (act operation) (plan builder.old)) }
{
    builder.add(Work::Ready(Piece::DoIfUsed(Instruction { place, operation })))
}

/// Adds the loading of the result, where it is used, and its leaving.
fn push_loaded_result(builder: &mut Builder, place: Place, kind: Scalar) -> Result<(), AllocError>
    ensures { IfOk result (λ _. plan builder.new ≡ spec.result_loaded place kind (plan builder.old)) }
{
    let base = builder.base(BaseName::Outcome)?;
    push_if_used(builder, place, Operation::Address(0, base, 0))?;
    push_if_used(builder, place, Operation::Load(0, 0, kind))?;
    builder.emit(place, Operation::Leave(base))
}

/// Adds what becomes of the result, where there is one.
fn push_outcome(builder: &mut Builder, place: Place, ctype: &CType) -> Result<(), AllocError>
    ensures { IfOk result (λ _. plan builder.new ≡ spec.outcome place (view ctype.now) (plan builder.old)) }
{
    if is_void(ctype) {
        Ok(())
    } else {
        push_loaded_result(builder, place, scalar(ctype))
    }
}

/// Where the statements of the outermost block stand.
fn outermost(end: u32) -> Surroundings
    ensures { result ≡ spec.outermost end }
{
    let nowhere = Landing {
        label: end,
        scope: 0,
    };
    Surroundings {
        scope: 1,
        on_break: nowhere,
        on_continue: nowhere,
        choice: 0,
    }
}

/// Adds the function's outermost block.
fn push_body<'a>(
    cx: &Setting<'a>,
    builder: &mut Builder<'a>,
    function: &'a Function,
) -> Result<(), AllocError>
    ensures { IfOk result (λ _. plan builder.new ≡ spec.body (setting cx.now) (function_view function.now) (plan builder.old)) }
{
    push_enters(builder, cx.place, function.scope.as_slice())?;
    push_statements(builder, function.body.as_slice(), outermost(cx.end))?;
    push_leaves(builder, cx.place, function.scope.as_slice())
}

/// The works of the entry: its body, and the stop.
fn push_entry<'a>(
    cx: &Setting<'a>,
    builder: &mut Builder<'a>,
    function: &'a Function,
) -> Result<(), AllocError>
    ensures { IfOk result (λ _. plan builder.new ≡ spec.entry (setting cx.now) (function_view function.now) (plan builder.old)) }
{
    push_body(cx, builder, function)?;
    push_stop(builder, cx.place)
}

/// What stands behind the body of a function that is called.
fn push_after_body(cx: &Setting, builder: &mut Builder, ctype: &CType) -> Result<(), AllocError>
    ensures { IfOk result (λ _. plan builder.new ≡ spec.after_body (setting cx.now) (view ctype.now) (plan builder.old)) }
{
    push_leaves(builder, cx.place, cx.parameters.as_slice())?;
    builder.mark(cx.end)?;
    push_outcome(builder, cx.place, ctype)
}

/// The works of a function that is called: parameters, body, and what stands behind it.
fn push_called<'a>(
    cx: &Setting<'a>,
    builder: &mut Builder<'a>,
    function: &'a Function,
) -> Result<(), AllocError>
    ensures { IfOk result (λ _. plan builder.new ≡ spec.called (setting cx.now) (function_view function.now) (plan builder.old)) }
{
    let first = builder.new_labels(2)?;
    builder.mark(first)?;
    push_parameters(cx, builder, function)?;
    builder.mark(first + 1)?;
    push_body(cx, builder, function)?;
    push_after_body(cx, builder, &function.result)
}

/// The works of a function, which is the entry or is called.
pub fn push_function<'a>(
    cx: &Setting<'a>,
    builder: &mut Builder<'a>,
    function: &'a Function,
) -> Result<(), AllocError>
    ensures { IfOk result (λ _. plan builder.new ≡ spec.function (setting cx.now) (function_view function.now) (plan builder.old)) }
{
    if cx.is_entry {
        push_entry(cx, builder, function)
    } else {
        push_called(cx, builder, function)
    }
}
