//! Evaluates a condition with a stack of what is open, and no recursion.

ghost use Rattle.std.specs.Prelude.{◌≡◌, [], Some, None, Ok, IfOk};
ghost use Rattle.c_preproc_conditions.specs.Lines.{symbol_of, symbols_of, decided, HoldsBy, Collects, Adds};
ghost use Rattle.c_preproc_conditions.specs.Reading.{prefixed, reduced, closed, prefix_read, begun, infix_read, gone_on, step, ended, run};
ghost use Rattle.c_preproc_conditions.specs.Truth.{truth, line_truth, IsTruth};
ghost use Rattle.c_preproc_conditions.specs.Readings.{Reads, Answers, Evaluates};

use crate::condition_symbols::{Symbol, symbol_of};
use crate::condition_value::Value;
use crate::operations::{Binary, Unary, apply_binary, apply_unary, choice};
use c_preproc_macros::{Lexeme, Spellings};
use cc_base::{Memory, Place};
use std::alloc::{AllocError, AllocFailed, Global};
use std::collections::VecDeque;

/// Why a condition has no value.
#[derive(Clone, Copy, PartialEq, Eq, Debug)]
pub enum ConditionFault {
    /// A number or a character constant there has a form that is not in.
    NumberForm(Place),
    /// The tokens are no constant expression, or it divides by zero or overflows.
    Malformed,
    /// Want of memory.
    Memory,
}

impl From<AllocError> for ConditionFault {
    ghost use Rattle.std.specs.Prelude.{◌≡◌};
    ghost use Rattle.c_preproc_conditions.specs.declared.evaluation.ConditionFault.TheVariants as condition_fault;

    ghost from_gives = { λ _ e. e ≡ condition_fault.Memory };

    fn from(_error: AllocError) -> ConditionFault {
        ConditionFault::Memory
    }
}

impl<T: Drop> From<AllocFailed<T>> for ConditionFault {
    ghost use Rattle.std.specs.Prelude.{◌≡◌};
    ghost use Rattle.c_preproc_conditions.specs.declared.evaluation.ConditionFault.TheVariants as condition_fault;

    ghost from_gives = { λ _ e. e ≡ condition_fault.Memory };

    fn from(_error: AllocFailed<T>) -> ConditionFault {
        ConditionFault::Memory
    }
}

impl From<Memory> for ConditionFault {
    ghost use Rattle.std.specs.Prelude.{◌≡◌};
    ghost use Rattle.c_preproc_conditions.specs.declared.evaluation.ConditionFault.TheVariants as condition_fault;

    ghost from_gives = { λ _ e. e ≡ condition_fault.Memory };

    fn from(_error: Memory) -> ConditionFault {
        ConditionFault::Memory
    }
}

/// What waits for an operand.
#[derive(Clone, Copy, PartialEq, Eq, Debug)]
enum Frame {
    /// `(`
    Parenthesis,
    /// An operator before its operand.
    Prefix(Unary),
    /// A left operand and its operator.
    Infix(Value, Binary),
    /// A condition and its `?`.
    Condition(Value),
    /// A condition, its second operand and the `:`.
    Choice(Value, Value),
}

/// Applies the prefixes that stand before an operand.
fn prefixed(stack: &mut VecDeque<Frame>, operand: Value) -> Result<Value, Memory>
    ensures { IfOk result (λ v. prefixed stack.old.items operand ≡ record { stack = stack.new.items; value = v }) }
{
    let mut value = operand;
    'frames: while let Some(frame) = stack.pop_front() {
        match frame {
            Frame::Prefix(op) => value = apply_unary(op, value),
            other => {
                stack.push_front(other)?;
                return Ok(value);
            }
        }
    }
    Ok(value)
}

/// Applies the operators before an operand that bind at least so tightly.
fn reduced(stack: &mut VecDeque<Frame>, operand: Value, precedence: u8) -> Result<Value, Memory>
    ensures { IfOk result (λ v. reduced precedence stack.old.items operand ≡ record { stack = stack.new.items; value = v }) }
{
    let mut value = operand;
    'frames: while let Some(frame) = stack.pop_front() {
        match frame {
            Frame::Infix(left, op) => {
                if op.precedence() < precedence {
                    stack.push_front(Frame::Infix(left, op))?;
                    return Ok(value);
                }
                value = apply_binary(op, left, value);
            }
            other => {
                stack.push_front(other)?;
                return Ok(value);
            }
        }
    }
    Ok(value)
}

/// Applies all operators before an operand, choices too.
fn closed(stack: &mut VecDeque<Frame>, operand: Value) -> Result<Value, Memory>
    ensures { IfOk result (λ v. closed stack.old.items operand ≡ record { stack = stack.new.items; value = v }) }
{
    let mut value = operand;
    'frames: while let Some(frame) = stack.pop_front() {
        match frame {
            Frame::Infix(left, op) => value = apply_binary(op, left, value),
            Frame::Choice(condition, left) => value = choice(condition, left, value),
            other => {
                stack.push_front(other)?;
                return Ok(value);
            }
        }
    }
    Ok(value)
}

/// Waits for the operand of an operator before it.
fn prefix(stack: &mut VecDeque<Frame>, op: Unary) -> Result<Option<Value>, ConditionFault>
    ensures { Reads (prefix_read (Some op) stack.old.items) stack.new.items result }
{
    stack.push_front(Frame::Prefix(op))?;
    Ok(None)
}

/// Reads a token where an operand is awaited; the operand, if it is whole.
fn begin(stack: &mut VecDeque<Frame>, next: Symbol) -> Result<Option<Value>, ConditionFault>
    ensures { Reads (begun stack.old.items next) stack.new.items result }
{
    match next {
        Symbol::Constant(number) => {
            let value = prefixed(stack, Value::of(number))?;
            Ok(Some(value))
        }
        Symbol::Open => {
            stack.push_front(Frame::Parenthesis)?;
            Ok(None)
        }
        Symbol::Plus => prefix(stack, Unary::Plus),
        Symbol::Minus => prefix(stack, Unary::Minus),
        Symbol::Prefix(op) => prefix(stack, op),
        _ => Err(ConditionFault::Malformed),
    }
}

/// Waits for the right operand of an operator.
fn infix(
    stack: &mut VecDeque<Frame>,
    operand: Value,
    op: Binary,
) -> Result<Option<Value>, ConditionFault>
    ensures { Reads (infix_read (Some op) stack.old.items operand) stack.new.items result }
{
    let left = reduced(stack, operand, op.precedence())?;
    stack.push_front(Frame::Infix(left, op))?;
    Ok(None)
}

/// Reads `?` behind a condition.
fn question(stack: &mut VecDeque<Frame>, operand: Value) -> Result<Option<Value>, ConditionFault>
    ensures { Reads (gone_on stack.old.items operand Symbol.Question) stack.new.items result }
{
    let condition = reduced(stack, operand, 1)?;
    stack.push_front(Frame::Condition(condition))?;
    Ok(None)
}

/// Reads `:` behind the second operand of a choice.
fn colon(stack: &mut VecDeque<Frame>, operand: Value) -> Result<Option<Value>, ConditionFault>
    ensures { Reads (gone_on stack.old.items operand Symbol.Colon) stack.new.items result }
{
    let left = closed(stack, operand)?;
    match stack.pop_front() {
        Some(Frame::Condition(condition)) => {
            stack.push_front(Frame::Choice(condition, left))?;
            Ok(None)
        }
        _ => Err(ConditionFault::Malformed),
    }
}

/// Reads `)` behind an expression.
fn close(stack: &mut VecDeque<Frame>, operand: Value) -> Result<Option<Value>, ConditionFault>
    ensures { Reads (gone_on stack.old.items operand Symbol.Close) stack.new.items result }
{
    let inner = closed(stack, operand)?;
    match stack.pop_front() {
        Some(Frame::Parenthesis) => {
            let value = prefixed(stack, inner)?;
            Ok(Some(value))
        }
        _ => Err(ConditionFault::Malformed),
    }
}

/// Reads a token behind an operand; the operand, if it goes on.
fn go_on(
    stack: &mut VecDeque<Frame>,
    operand: Value,
    next: Symbol,
) -> Result<Option<Value>, ConditionFault>
    ensures { Reads (gone_on stack.old.items operand next) stack.new.items result }
{
    match next {
        Symbol::Plus => infix(stack, operand, Binary::Add),
        Symbol::Minus => infix(stack, operand, Binary::Subtract),
        Symbol::Infix(op) => infix(stack, operand, op),
        Symbol::Question => question(stack, operand),
        Symbol::Colon => colon(stack, operand),
        Symbol::Close => close(stack, operand),
        _ => Err(ConditionFault::Malformed),
    }
}

/// Reads a token; the operand, if one is whole behind it.
fn read(
    stack: &mut VecDeque<Frame>,
    operand: Option<Value>,
    next: Symbol,
) -> Result<Option<Value>, ConditionFault>
    ensures { Reads (step (record { stack = stack.old.items; operand = operand }) next) stack.new.items result }
{
    match operand {
        None => begin(stack, next),
        Some(value) => go_on(stack, value, next),
    }
}

/// The value of what was read, at its end.
fn end(stack: &mut VecDeque<Frame>, operand: Option<Value>) -> Result<Value, ConditionFault>
    ensures { Answers (ended stack.old.items operand) result }
{
    let Some(last) = operand else {
        return Err(ConditionFault::Malformed);
    };
    let value = closed(stack, last)?;
    match stack.pop_front() {
        None => Ok(value),
        Some(_) => Err(ConditionFault::Malformed),
    }
}

/// Reads all tokens.
fn run(alloc: Global, symbols: &[Symbol]) -> Result<Value, ConditionFault>
    ensures { Answers (run symbols.now (record { stack = []; operand = None })) result }
{
    let mut stack = VecDeque::new(alloc);
    let mut operand = None;
    for next in symbols {
        match read(&mut stack, operand, *next) {
            Ok(behind) => operand = behind,
            Err(fault) => return Err(fault),
        }
    }
    end(&mut stack, operand)
}

/// The value of an expression.
fn value_of(alloc: Global, symbols: &[Symbol]) -> Result<Value, ConditionFault>
    ensures derives { Evaluates symbols.now result }
    ensures computed { Answers (run symbols.now (record { stack = []; operand = None })) result }
{
    run(alloc, symbols)
}

/// Adds what a token is in a condition.
fn push_symbol(
    spellings: &Spellings,
    char_signed: bool,
    x: Lexeme,
    symbols: &mut Vec<Symbol>,
) -> Result<(), ConditionFault>
    ensures { Adds (symbol_of spellings.now char_signed x) symbols.old.items symbols.new.items result }
{
    match symbol_of(spellings, char_signed, x) {
        Ok(next) => {
            symbols.push(next)?;
            Ok(())
        }
        Err(place) => Err(ConditionFault::NumberForm(place)),
    }
}

/// The symbols of a condition.
fn symbols_of(
    alloc: Global,
    spellings: &Spellings,
    char_signed: bool,
    line: &[Lexeme],
) -> Result<Vec<Symbol>, ConditionFault>
    ensures { Collects (symbols_of spellings.now char_signed line.now) result }
{
    let mut symbols = Vec::new(alloc);
    for x in line {
        match push_symbol(spellings, char_signed, *x, &mut symbols) {
            Ok(()) => {}
            Err(fault) => return Err(fault),
        }
    }
    Ok(symbols)
}

/// Whether a value is not 0, if its computation is defined.
fn decided(value: Value) -> Result<bool, ConditionFault>
    ensures { result ≡ decided value }
{
    if value.faulty {
        return Err(ConditionFault::Malformed);
    }
    Ok(!value.number.is_zero())
}

/// Whether an expression is not 0.
fn truth_of(alloc: Global, symbols: &[Symbol]) -> Result<bool, ConditionFault>
    ensures derives { HoldsBy (Ok symbols.now) result }
    ensures computed { IsTruth (truth symbols.now) result }
{
    match value_of(alloc, symbols) {
        Ok(value) => decided(value),
        Err(fault) => Err(fault),
    }
}

/// Whether a condition, whose macros are expanded, is not 0.
///
/// # Errors
///
/// `NumberForm` at the first number or character constant whose form is not in, before all else;
/// `Malformed` where the rest is no constant expression of 6.6 without casts and commas, or where
/// its computation, so far as it is evaluated, divides by zero or overflows.
pub fn holds(
    alloc: Global,
    spellings: &Spellings,
    char_signed: bool,
    line: &[Lexeme],
) -> Result<bool, ConditionFault>
    ensures derives { HoldsBy (symbols_of spellings.now char_signed line.now) result }
    ensures computed { IsTruth (line_truth (symbols_of spellings.now char_signed line.now)) result }
{
    match symbols_of(alloc, spellings, char_signed, line) {
        Ok(symbols) => truth_of(alloc, symbols.as_slice()),
        Err(fault) => Err(fault),
    }
}
