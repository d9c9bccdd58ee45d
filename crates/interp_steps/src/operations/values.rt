//! The values that are pending in a run, the newest last.
ghost use Rattle.std.specs.Prelude.{◌≡◌, ◌<◌, ◌∷◌, [], List, length, MatchResult, IfOk, IfErr};
ghost use Rattle.memory_model.specs.Effects.Worlds.{World, Reply, goes};
ghost use Rattle.interp_memory.specs.ByteViews.{scalar_view};
ghost use Rattle.memory_model.specs.Memory.Scalars.{Scalar};
ghost use Rattle.interp_accesses.specs.WorldViews.{ComesTo};
ghost use Rattle.interp_accesses.specs.declared.worlds.Cause.TheVariants as cause;
ghost use Rattle.interp_accesses.specs.declared.worlds.Halt.TheVariants as halt;
ghost use Rattle.interp_library.specs.Calls.Results.{result_view};
ghost use Rattle.semantics.specs.SourceMachine.Operations.{pushing, pushing_result};
ghost use Rattle.interp_stack.specs.ItemViews.{order_view};
ghost use Rattle.interp_steps.specs.Operations.Operands.{two_above};
ghost use Rattle.interp_steps.specs.Operations.Pending.{pending, Operates};

use interp_accesses::{Cause, Halt};
use interp_memory::Value7;
use interp_stack::Order7;
use std::alloc::AllocError;

// A value behind a list that is full.
#[cold]
#[inline(never)]
fn push_grown(values: &mut Vec<Value7>, value: Value7) -> Result<(), AllocError>
    ensures { IfOk result (λ _. pending values.new.items ≡ scalar_view value ∷ pending values.old.items) }
{
    values.push(value)?;
    Ok(())
}

/// A value is the newest one.
#[inline(always)]
pub fn push_value(values: &mut Vec<Value7>, value: Value7) -> Result<(), Halt>
    ensures pushed { IfOk result (λ _. pending values.new.items ≡ scalar_view value ∷ pending values.old.items) }
    ensures memory { IfErr result (λ h. h ≡ halt.Memory) }
{
    if values.len() < values.capacity() {
        values.push_reserved(value);
        return Ok(());
    }
    match push_grown(values, value) {
        Ok(()) => Ok(()),
        Err(_) => Err(Halt::Memory),
    }
}

/// Takes the newest value, without which a run is stuck.
#[inline(always)]
pub fn pop_value(values: &mut Vec<Value7>) -> Result<Value7, Halt>
    ensures { MatchResult result (λ value. pending values.old.items ≡ scalar_view value ∷ pending values.new.items) (λ h. (h ≡ halt.Stops cause.Stuck) × (pending values.old.items ≡ [])) }
{
    match values.pop() {
        Some(value) => Ok(value),
        None => Err(Halt::Stops(Cause::Stuck)),
    }
}

/// Two operands, the left one first.
#[derive(Clone, Copy)]
pub struct Operands {
    pub left: Value7,
    pub right: Value7,
}

#[inline(always)]
fn in_order(order: Order7, below: Value7, newest: Value7) -> Operands
    ensures { (vs : List Scalar) → scalar_view newest ∷ (scalar_view below ∷ vs) ≡ two_above (order_view order) (scalar_view result.left) (scalar_view result.right) vs }
{
    match order {
        Order7::LeftFirst => Operands {
            left: below,
            right: newest,
        },
        Order7::RightFirst => Operands {
            left: newest,
            right: below,
        },
    }
}

/// Takes the two newest values, without which a run is stuck.
#[inline(always)]
pub fn pop_two(values: &mut Vec<Value7>, order: Order7) -> Result<Operands, Halt>
    ensures { MatchResult result (λ both. pending values.old.items ≡ two_above (order_view order) (scalar_view both.left) (scalar_view both.right) (pending values.new.items)) (λ h. (h ≡ halt.Stops cause.Stuck) × (length (pending values.old.items) < 2)) }
{
    let newest = pop_value(values)?;
    let below = pop_value(values)?;
    Ok(in_order(order, below, newest))
}

/// What an operation gives is the newest value.
#[inline(always)]
pub fn push_given(values: &mut Vec<Value7>, given: Result<Value7, Halt>) -> Result<(), Halt>
    ensures { (reply : Reply Scalar) (w : World) → ComesTo scalar_view reply given w → Operates (pushing (pending values.old.items) reply) result values.new.items w }
{
    match given {
        Ok(value) => push_value(values, value),
        Err(halt) => Err(halt),
    }
}

/// What a call gives is the newest value, where it gives one.
pub fn push_outcome(values: &mut Vec<Value7>, outcome: Option<Value7>) -> Result<(), Halt>
    ensures { (w : World) → Operates (pushing_result (pending values.old.items) (goes (result_view outcome) w)) result values.new.items w }
{
    match outcome {
        Some(value) => push_value(values, value),
        None => Ok(()),
    }
}
