//! What is left and entered on the way from one scope to another.
ghost use Rattle.std.specs.Prelude.{◌≡◌, IfOk, map};
ghost use Rattle.lower_templates.specs.Worklist.Scopes.{scope_view};
ghost use Rattle.lower_templates.specs.Worklist.Plans.{plan};
ghost use Rattle.lower_templates.specs.Worklist.Settings.{setting};
ghost use Rattle.lower_functions.specs.Statements.ScopeJumps as spec;

use cc_base::Place;
use cfg::Operation;
use lower_expressions::jump;
use lower_templates::worklist::{BaseName, Builder, Landing, Scope, Setting};
use std::alloc::AllocError;

/// Adds the entering of an object.
fn push_enter(builder: &mut Builder, place: Place, object: u32) -> Result<(), AllocError>
    ensures { IfOk result (λ _. plan builder.new ≡ spec.entered place object (plan builder.old)) }
{
    let base = builder.base(BaseName::Local(object))?;
    builder.emit(place, Operation::Enter(base))
}

/// Adds the leaving of an object.
fn push_leave(builder: &mut Builder, place: Place, object: u32) -> Result<(), AllocError>
    ensures { IfOk result (λ _. plan builder.new ≡ spec.left place object (plan builder.old)) }
{
    let base = builder.base(BaseName::Local(object))?;
    builder.emit(place, Operation::Leave(base))
}

/// Adds the entering of objects, in order of declaration.
pub fn push_enters(builder: &mut Builder, place: Place, objects: &[u32]) -> Result<(), AllocError>
    ensures { IfOk result (λ _. plan builder.new ≡ spec.all_entered place objects.now (plan builder.old)) }
{
    for object in objects {
        push_enter(builder, place, *object)?;
    }
    Ok(())
}

/// Adds the leaving of objects, in order of declaration.
pub fn push_leaves(builder: &mut Builder, place: Place, objects: &[u32]) -> Result<(), AllocError>
    ensures { IfOk result (λ _. plan builder.new ≡ spec.all_left place objects.now (plan builder.old)) }
{
    for object in objects {
        push_leave(builder, place, *object)?;
    }
    Ok(())
}

/// Adds what is left and then what is entered on the way from one scope to another. A scope has a
/// greater number than those around it, so of two that differ the greater one does not hold the other:
/// it is left or entered. The way has no more steps than there are scopes.
fn push_steps(
    cx: &Setting,
    builder: &mut Builder,
    steps: &[Scope],
    from: u32,
    to: u32,
) -> Result<(), AllocError>
    ensures { IfOk result (λ _. plan builder.new ≡ spec.way (setting cx.now) (map scope_view steps.now) from to (plan builder.old)) }
{
    match steps {
        [] => Ok(()),
        [_, rest @ ..] => {
            if from == to {
                Ok(())
            } else if to < from {
                let scope = cx.tree.scope(from);
                push_leaves(builder, cx.place, scope.objects)?;
                push_steps(cx, builder, rest, scope.around, to)
            } else {
                let scope = cx.tree.scope(to);
                push_steps(cx, builder, rest, from, scope.around)?;
                push_enters(builder, cx.place, scope.objects)
            }
        }
    }
}

/// Adds the way from one scope to another.
pub fn push_way(cx: &Setting, builder: &mut Builder, from: u32, to: u32) -> Result<(), AllocError>
    ensures { IfOk result (λ _. plan builder.new ≡ spec.way_between (setting cx.now) from to (plan builder.old)) }
{
    push_steps(cx, builder, cx.tree.scopes.as_slice(), from, to)
}

/// Adds a jump to a label, with what is left and entered on the way.
pub fn push_jump(
    cx: &Setting,
    builder: &mut Builder,
    from: u32,
    to: Landing,
) -> Result<(), AllocError>
    ensures { IfOk result (λ _. plan builder.new ≡ spec.leap (setting cx.now) from to (plan builder.old)) }
{
    push_way(cx, builder, from, to.scope)?;
    jump(builder, cx.place, to.label)
}

/// Whether an object is entered on the way from one scope to another.
fn enters_on_steps(cx: &Setting, steps: &[Scope], from: u32, to: u32) -> bool
    ensures { result ≡ spec.enters (setting cx.now) (map scope_view steps.now) from to }
{
    match steps {
        [] => false,
        [_, rest @ ..] => {
            if from == to {
                false
            } else if to < from {
                let scope = cx.tree.scope(from);
                enters_on_steps(cx, rest, scope.around, to)
            } else {
                let scope = cx.tree.scope(to);
                if scope.objects.is_empty() {
                    enters_on_steps(cx, rest, from, scope.around)
                } else {
                    true
                }
            }
        }
    }
}

/// Whether an object is entered on the way from one scope to another.
pub fn enters_objects(cx: &Setting, from: u32, to: u32) -> bool
    ensures { result ≡ spec.enters_between (setting cx.now) from to }
{
    enters_on_steps(cx, cx.tree.scopes.as_slice(), from, to)
}
