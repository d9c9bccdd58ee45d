//! What bytes are as a scalar.
ghost use Rattle.std.specs.Prelude.{◌≡◌, ℕ, ◌+◌, ◌*◌, ◌^◌, ◌<◌, ◌≤◌, length, cond, pos, option_map, IfSome};
ghost use Rattle.memory_model.specs.Memory.Labels.{labels_join};
ghost use Rattle.memory_model.specs.Memory.Numbers.{signed_of};
ghost use Rattle.memory_model.specs.Memory.Tags.{fits_tag, fit_from};
ghost use Rattle.memory_model.specs.Effects.ScalarBytes.{contents};
ghost use Rattle.memory_model.specs.Effects.Accesses as machine;
ghost use Rattle.interp_memory.specs.ByteViews.{labels_view, pointer_view, content_view, tag_view, bytes_view, scalar_view};
ghost use Rattle.interp_memory.specs.AccessOutcomes.{scalar_kind};
ghost use Rattle.interp_memory.specs.Digits.{digits_view, digits_of};

use crate::byte_forms::{Byte7, Content7, LabelSet, Pointer7, Value7};
use c_layout::{Class, Model};

/// The unsigned number that bytes are, and the union of their labels.
#[derive(Clone, Copy)]
pub(crate) struct UnsignedNumber {
    pub(crate) number: u64,
    pub(crate) labels: LabelSet,
}

/// Whether a byte with this tag may be seen as the k-th one of a scalar of a class.
pub fn fits(allocated: bool, class: Class, k: u8, tag: Option<(Class, u8)>) -> bool
    ensures { result ≡ fits_tag allocated class k (tag_view tag) }
{
    match tag {
        Some((of, at)) => of == class && at == k,
        None => allocated || class == Class::Char,
    }
}

/// Whether the tags of at most eight bytes are those of a scalar's bytes, from a number on.
pub(crate) fn fit(allocated: bool, class: Class, k: u8, bytes: &[Byte7]) -> bool
    requires { k + length bytes.now ≤ 8 }
    ensures { result ≡ fit_from allocated class k (bytes_view bytes.now) }
{
    match bytes.split_first() {
        None => true,
        Some((byte, rest)) => {
            fits(allocated, class, k, byte.tag) && fit(allocated, class, k + 1, rest)
        }
    }
}

/// Whether a byte is indeterminate.
pub(crate) fn has_blank(bytes: &[Byte7]) -> bool
    ensures { result ≡ machine.has_blank (contents (bytes_view bytes.now)) }
{
    match bytes.split_first() {
        None => false,
        Some((byte, rest)) => matches!(byte.content, Content7::Blank) || has_blank(rest),
    }
}

/// The labels that one of two numbers has.
pub fn union_of(a: LabelSet, b: LabelSet) -> LabelSet
    ensures { labels_view result ≡ labels_join (labels_view a) (labels_view b) }
{
    LabelSet {
        low: b.low || a.low,
        high: b.high || a.high,
        changed: b.changed || a.changed,
    }
}

/// The number that at most eight bytes are, the least significant one first, where all are numbers.
fn digits(bytes: &[Byte7]) -> Option<UnsignedNumber>
    requires { length bytes.now ≤ 8 }
    ensures value { option_map digits_view result ≡ digits_of (machine.numbers_in (contents (bytes_view bytes.now))) }
    ensures small { IfSome result (λ d. d.number < 256 ^ length bytes.now) }
{
    let mut number = 0u64;
    let mut labels = LabelSet {
        low: false,
        high: false,
        changed: false,
    };
    for at in (0..bytes.len()).rev() {
        let Content7::Number(n, own) = bytes[at].content else {
            return None;
        };
        number = u64::from(n) + 256 * number;
        labels = union_of(own, labels);
    }
    Some(UnsignedNumber { number, labels })
}

/// The number that an unsigned one of so many bits is in two's complement.
fn signed_value(bits: u8, number: u128) -> i128
    requires few { bits ≤ 64 }
    requires small { number < 2 ^ bits }
    ensures { result ≡ signed_of bits number }
{
    let modulus = 1u128 << bits;
    if 2 * number < modulus {
        number as i128
    } else {
        number as i128 - modulus as i128
    }
}

/// The number that an unsigned one of so many bits is, where it is seen as a signed one or not.
fn number_value(signed: bool, bits: u8, number: u128) -> i128
    requires few { bits ≤ 64 }
    requires small { number < 2 ^ bits }
    ensures { result ≡ cond signed (signed_of bits number) (pos number) }
{
    if signed {
        signed_value(bits, number)
    } else {
        number as i128
    }
}

/// The integer that at most eight bytes are, where all are numbers.
fn integer_from(signed: bool, bytes: &[Byte7]) -> Option<Value7>
    requires { length bytes.now ≤ 8 }
    ensures { (size rank : ℕ) → option_map scalar_view result ≡ machine.integer_in (record { bytes = size; signed = signed; rank = rank }) (machine.numbers_in (contents (bytes_view bytes.now))) }
{
    let found = digits(bytes)?;
    let number = number_value(signed, 8 * bytes.len() as u8, u128::from(found.number));
    Some(Value7::Int(number, found.labels))
}

/// Whether two pointers are the same one and not null.
fn same_pointer(p: Pointer7, q: Pointer7) -> bool
    ensures { result ≡ machine.same_pointer (pointer_view p) (pointer_view q) }
{
    match p {
        Pointer7::Null => false,
        Pointer7::At { .. } => p == q,
    }
}

/// Whether a byte is the k-th part of a pointer.
fn is_part(p: Pointer7, k: u8, content: Content7) -> bool
    ensures { result ≡ machine.is_part (pointer_view p) k (content_view content) }
{
    match content {
        Content7::Part(q, at) => same_pointer(p, q) && k == at,
        Content7::Number(_, _) | Content7::Blank => false,
    }
}

/// Whether at most eight bytes are the parts of one pointer in order, from a part on.
fn are_parts(p: Pointer7, k: u8, bytes: &[Byte7]) -> bool
    requires { k + length bytes.now ≤ 8 }
    ensures { result ≡ machine.are_parts (pointer_view p) k (contents (bytes_view bytes.now)) }
{
    match bytes.split_first() {
        None => true,
        Some((byte, rest)) => is_part(p, k, byte.content) && are_parts(p, k + 1, rest),
    }
}

/// Whether a byte is the number 0.
fn is_zero(content: Content7) -> bool
    ensures { result ≡ machine.is_zero (content_view content) }
{
    match content {
        Content7::Number(n, _) => n == 0,
        Content7::Part(_, _) | Content7::Blank => false,
    }
}

/// Whether bytes are all 0.
fn are_zeros(bytes: &[Byte7]) -> bool
    ensures { result ≡ machine.are_zeros (contents (bytes_view bytes.now)) }
{
    match bytes.split_first() {
        None => true,
        Some((byte, rest)) => is_zero(byte.content) && are_zeros(rest),
    }
}

/// The pointer that at most eight bytes are, where they are all parts of one, or all 0.
fn pointer_from(bytes: &[Byte7]) -> Option<Pointer7>
    requires { length bytes.now ≤ 8 }
    ensures { option_map pointer_view result ≡ machine.pointer_in (contents (bytes_view bytes.now)) }
{
    let first = bytes.first()?;
    match first.content {
        Content7::Part(p, _) => are_parts(p, 0, bytes).then_some(p),
        Content7::Number(_, _) | Content7::Blank => { are_zeros(bytes).then_some(Pointer7::Null) }
    }
}

/// The scalar of a class that at most eight bytes are, where they are one.
pub fn scalar_from(model: &Model, class: Class, signed: bool, bytes: &[Byte7]) -> Option<Value7>
    requires { length bytes.now ≤ 8 }
    ensures { option_map scalar_view result ≡ machine.scalar_in (scalar_kind model.now class signed) (contents (bytes_view bytes.now)) }
{
    match class {
        Class::Pointer => Some(Value7::Ptr(pointer_from(bytes)?)),
        Class::Char | Class::Short | Class::Int | Class::Long | Class::LongLong => {
            integer_from(signed, bytes)
        }
    }
}
