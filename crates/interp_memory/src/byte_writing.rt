//! How scalars are written into bytes.
ghost use Rattle.std.specs.Prelude.{◌≡◌, ◌+◌, ◌<◌, ◌≤◌, ◌++◌, length, take, drop};
ghost use Rattle.memory_model.specs.Memory.Labels.{no_labels};
ghost use Rattle.memory_model.specs.Effects.ObjectEffects.{all_of};
ghost use Rattle.memory_model.specs.Effects.ScalarBytes.{number_bytes, parts_from, bits_in, scalar_bytes, tagged_from, replaced, refilled};
ghost use Rattle.interp_memory.specs.ByteViews.{labels_view, pointer_view, content_view, contents_view, byte_view, bytes_view, scalar_view};
ghost use Rattle.interp_memory.specs.InstanceViews.{byte_put, with_byte};
ghost use Rattle.interp_memory.specs.AccessOutcomes.{written_bytes};

use crate::byte_forms::{Byte7, Content7, LabelSet, Pointer7, Value7};
use c_layout::Class;

/// No label.
pub fn unlabelled() -> LabelSet
    ensures { labels_view result ≡ no_labels }
{
    LabelSet {
        low: false,
        high: false,
        changed: false,
    }
}

/// Writes the bytes of a number, the least significant one first.
fn write_number(into: &mut [Content7], number: u128, labels: LabelSet)
    ensures { contents_view into.new ≡ number_bytes (length into.old) number (labels_view labels) }
{
    let mut left = number;
    for content in into.iter_mut() {
        *content = Content7::Number((left % 256) as u8, labels);
        left /= 256;
    }
}

/// Writes the parts of a pointer in order.
fn write_parts(into: &mut [Content7], p: Pointer7)
    requires { length into.old ≤ 8 }
    ensures { contents_view into.new ≡ parts_from (pointer_view p) 0 (length into.old) }
{
    for (k, content) in into.iter_mut().enumerate() {
        *content = Content7::Part(p, k as u8);
    }
}

/// The bits of an integer in at most eight bytes, in two's complement.
fn bits_of(size: usize, number: i128) -> u128
    requires { size ≤ 8 }
    ensures { result ≡ bits_in size number }
{
    let modulus = 1i128 << (8 * size);
    number.rem_euclid(modulus) as u128
}

/// Writes a scalar into at most eight bytes.
pub fn write_scalar(into: &mut [Content7], value: &Value7)
    requires { length into.old ≤ 8 }
    ensures { contents_view into.new ≡ scalar_bytes (length into.old) (scalar_view value.now) }
{
    match value {
        Value7::Int(number, labels) => {
            let bits = bits_of(into.len(), *number);
            write_number(into, bits, *labels);
        }
        Value7::Ptr(Pointer7::Null) => write_number(into, 0, unlabelled()),
        Value7::Ptr(p) => write_parts(into, *p),
    }
}

/// Puts contents in the place of those of so many bytes from an offset on, as far as the bytes
/// reach. The tags stay.
pub(crate) fn refill(bytes: &mut [Byte7], offset: usize, contents: &[Content7])
    ensures { bytes_view bytes.new ≡ refilled (bytes_view bytes.old) offset (contents_view contents.now) }
{
    let room = bytes.len().saturating_sub(offset);
    let count = room.min(contents.len());
    for k in 0..count {
        let byte = &mut bytes[offset + k];
        byte.content = contents[k];
    }
}

/// Puts a content into each byte. The tags stay.
pub(crate) fn fill_all(bytes: &mut [Byte7], content: Content7)
    ensures { bytes_view bytes.new ≡ all_of (content_view content) (bytes_view bytes.old) }
{
    for byte in bytes.iter_mut() {
        byte.content = content;
    }
}

/// Puts bytes with their tags in the place of as many from an offset on.
pub(crate) fn overwrite(bytes: &mut [Byte7], offset: usize, new: &[Byte7])
    requires { offset + length new.now ≤ length bytes.old }
    ensures { bytes_view bytes.new ≡ replaced (bytes_view bytes.old) offset (bytes_view new.now) }
{
    copy_over(bytes, offset, new);
}

// The same, as lists of a program.
fn copy_over(bytes: &mut [Byte7], offset: usize, new: &[Byte7])
    requires { offset + length new.now ≤ length bytes.old }
    ensures { bytes.new ≡ take offset bytes.old ++ (new.now ++ drop (offset + length new.now) bytes.old) }
{
    bytes[offset..offset + new.len()].copy_from_slice(new);
}

/// Replaces a byte. Its tag stays, unless the new one's is taken too.
pub(crate) fn put_byte(bytes: &mut [Byte7], at: usize, takes_tag: bool, byte: Byte7)
    requires { at < length bytes.old }
    ensures { bytes_view bytes.new ≡ with_byte takes_tag (byte_view byte) (bytes_view bytes.old) at }
{
    let old = bytes[at];
    bytes[at] = put_over(takes_tag, byte, old);
}

/// A byte in the place of another one.
fn put_over(takes_tag: bool, byte: Byte7, old: Byte7) -> Byte7
    ensures { byte_view result ≡ byte_put takes_tag (byte_view byte) (byte_view old) }
{
    if takes_tag {
        byte
    } else {
        Byte7 {
            content: byte.content,
            tag: old.tag,
        }
    }
}

/// Puts the bytes of a scalar of a class in the place of so many bytes from an offset on.
pub(crate) fn retag(bytes: &mut [Byte7], offset: usize, class: Class, contents: &[Content7])
    requires few { length contents.now ≤ 8 }
    requires within { offset + length contents.now ≤ length bytes.old }
    ensures { bytes_view bytes.new ≡ replaced (bytes_view bytes.old) offset (tagged_from class 0 (contents_view contents.now)) }
{
    for k in 0..contents.len() {
        bytes[offset + k] = Byte7 {
            content: contents[k],
            tag: Some((class, k as u8)),
        };
    }
}

/// Puts contents in the place of so many bytes from an offset on, with the tags of a scalar of a class
/// or under those that are there.
pub(crate) fn put(
    bytes: &mut [Byte7],
    offset: usize,
    class: Class,
    tagged: bool,
    contents: &[Content7],
)
    requires few { length contents.now ≤ 8 }
    requires within { offset + length contents.now ≤ length bytes.old }
    ensures { bytes_view bytes.new ≡ written_bytes tagged class (bytes_view bytes.old) offset (contents_view contents.now) }
{
    if tagged {
        retag(bytes, offset, class, contents);
    } else {
        refill(bytes, offset, contents);
    }
}
