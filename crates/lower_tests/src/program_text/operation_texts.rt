//! The lines of instructions.
use crate::program_text::word_texts::{function_text, operator_text, relation_text, unary_text};
use cc_base::IntType;
use cfg::{Amount, Operation, Scalar};
use std::alloc::AllocError;
use std::fmt::Write;

/// The letter of a type's sign.
fn sign_text(kind: IntType) -> &'static str {
    if kind.signed { "s" } else { "u" }
}

/// Writes an integer type by its sign and its bits, as `s32`.
pub fn push_type(out: &mut String, kind: IntType) -> Result<(), AllocError> {
    let sign = sign_text(kind);
    let bits = kind.bytes as u32 * 8;
    write!(out, "{sign}{bits}")
}

/// Writes a scalar type.
pub fn push_scalar(out: &mut String, kind: Scalar) -> Result<(), AllocError> {
    match kind {
        Scalar::Int(kind) => push_type(out, kind),
        Scalar::Pointer => out.push_str("ptr"),
    }
}

fn push_amount(out: &mut String, amount: Amount) -> Result<(), AllocError> {
    match amount {
        Amount::Temp(temp) => write!(out, "t{temp}"),
        Amount::One => out.push_str("1"),
    }
}

/// The sign of a move.
fn move_text(backward: bool) -> &'static str {
    if backward { "-" } else { "+" }
}

fn push_kept(out: &mut String, kept: Option<(u32, u32)>) -> Result<(), AllocError> {
    match kept {
        Some((to, from)) => write!(out, " ; t{to} = t{from}"),
        None => Ok(()),
    }
}

/// Writes an operation.
pub fn push_operation(out: &mut String, operation: &Operation) -> Result<(), AllocError> {
    match operation {
        Operation::Constant(to, n, kind) => {
            write!(out, "t{to} = {n} ")?;
            push_type(out, *kind)
        }
        Operation::Address(to, base, offset) => write!(out, "t{to} = &b{base}+{offset}"),
        Operation::Load(to, from, kind) => {
            write!(out, "t{to} = load t{from} ")?;
            push_scalar(out, *kind)
        }
        Operation::Store(to, from, kind, kept) => {
            write!(out, "store t{to} = t{from} ")?;
            push_scalar(out, *kind)?;
            push_kept(out, *kept)
        }
        Operation::Copy(to, from, number) => write!(out, "copy t{to} = t{from} struct {number}"),
        Operation::Narrow(to, from, offset, size) => {
            write!(out, "t{to} = narrow t{from} at {offset} size {size}")
        }
        _ => push_number(out, operation),
    }
}

fn push_number(out: &mut String, operation: &Operation) -> Result<(), AllocError> {
    match operation {
        Operation::Shift(to, from, by, size, backward) => {
            let sign = move_text(*backward);
            write!(out, "t{to} = shift t{from} {sign} ")?;
            push_amount(out, *by)?;
            write!(out, " * {size}")
        }
        Operation::Binary(to, op, left, right, kind) => {
            let sign = operator_text(*op);
            write!(out, "t{to} = t{left} {sign} ")?;
            push_amount(out, *right)?;
            out.push_str(" ")?;
            push_type(out, *kind)
        }
        Operation::Unary(to, op, from, kind) => {
            let sign = unary_text(*op);
            write!(out, "t{to} = {sign}t{from} ")?;
            push_type(out, *kind)
        }
        Operation::Compare(to, rel, left, right) => {
            let sign = relation_text(*rel);
            write!(out, "t{to} = t{left} {sign} t{right}")
        }
        _ => push_pointer(out, operation),
    }
}

fn push_pointer(out: &mut String, operation: &Operation) -> Result<(), AllocError> {
    match operation {
        Operation::Not(to, from, kind) => {
            write!(out, "t{to} = !t{from} ")?;
            push_scalar(out, *kind)
        }
        Operation::Difference(to, left, right, size) => {
            write!(out, "t{to} = t{left} - t{right} / {size}")
        }
        Operation::ComparePointers(to, rel, left, right) => {
            let sign = relation_text(*rel);
            write!(out, "t{to} = ptr t{left} {sign} t{right}")
        }
        Operation::Convert(to, from, old, new) => {
            write!(out, "t{to} = convert t{from} ")?;
            push_scalar(out, *old)?;
            out.push_str(" to ")?;
            push_scalar(out, *new)
        }
        _ => push_object(out, operation),
    }
}

fn push_object(out: &mut String, operation: &Operation) -> Result<(), AllocError> {
    match operation {
        Operation::Enter(base) => write!(out, "enter b{base}"),
        Operation::Leave(base) => write!(out, "leave b{base}"),
        Operation::Forget(base) => write!(out, "forget b{base}"),
        Operation::Clear(base) => write!(out, "clear b{base}"),
        Operation::Spell(base, offset, room, text) => {
            let length = text.as_bytes().len();
            write!(out, "spell b{base}+{offset} room {room}, {length} bytes")
        }
        Operation::Library(to, function, arguments, base, size) => {
            push_result(out, *to)?;
            out.push_str(function_text(*function))?;
            push_arguments(out, arguments.as_slice())?;
            push_allocation(out, *base, *size)
        }
        _ => push_end(out, operation),
    }
}

fn push_result(out: &mut String, to: Option<u32>) -> Result<(), AllocError> {
    match to {
        Some(to) => write!(out, "t{to} = "),
        None => Ok(()),
    }
}

fn push_arguments(out: &mut String, arguments: &[u32]) -> Result<(), AllocError> {
    for temp in arguments {
        write!(out, " t{temp}")?;
    }
    Ok(())
}

fn push_allocation(
    out: &mut String,
    base: Option<u32>,
    size: Option<u64>,
) -> Result<(), AllocError> {
    if let Some(base) = base {
        write!(out, " newest b{base}")?;
    }
    if let Some(size) = size {
        write!(out, " for size {size}")?;
    }
    Ok(())
}

fn push_end(out: &mut String, operation: &Operation) -> Result<(), AllocError> {
    match operation {
        Operation::Jump => out.push_str("jump"),
        Operation::Branch(from, kind) => {
            write!(out, "branch t{from} ")?;
            push_scalar(out, *kind)
        }
        Operation::Switch(from, kind) => {
            write!(out, "switch t{from} ")?;
            push_type(out, *kind)
        }
        Operation::ReadLine(to, text, size, stream) => {
            if let Some(to) = to {
                write!(out, "t{to} = ")?;
            }
            write!(out, "fgets t{text} t{size} t{stream}")
        }
        _ => out.push_str("stop"),
    }
}
