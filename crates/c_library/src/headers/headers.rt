//! The built-in headers.
ghost use Rattle.std.specs.Prelude.{◌≡◌, Some, true, option_map};
ghost use Rattle.c_layout.specs.Models.{is_model};
ghost use Rattle.c_library.specs.Headers.Headers.{width_of, stddef_text, stdlib_text, string_text, stdio_text, long_bytes, limits_text, header_text};

use crate::headers::header_texts as texts;
use c_layout::Model;

/// The type that the sizes of objects have: the first of long, int and long long that is as wide
/// as a pointer.
#[derive(Clone, Copy)]
pub(crate) enum Width {
    Long,
    Int,
    LongLong,
}

fn size_width(model: &Model) -> Width
    ensures { result ≡ width_of model.now }
{
    if model.long == model.pointer {
        Width::Long
    } else if model.int == model.pointer {
        Width::Int
    } else {
        Width::LongLong
    }
}

fn stddef(width: Width) -> &'static [u8]
    ensures { result.now ≡ stddef_text width }
{
    match width {
        Width::Long => texts::STDDEF_LONG,
        Width::Int => texts::STDDEF_INT,
        Width::LongLong => texts::STDDEF_LONG_LONG,
    }
}

fn stdlib(width: Width) -> &'static [u8]
    ensures { result.now ≡ stdlib_text width }
{
    match width {
        Width::Long => texts::STDLIB_LONG,
        Width::Int => texts::STDLIB_INT,
        Width::LongLong => texts::STDLIB_LONG_LONG,
    }
}

fn string(width: Width) -> &'static [u8]
    ensures { result.now ≡ string_text width }
{
    match width {
        Width::Long => texts::STRING_LONG,
        Width::Int => texts::STRING_INT,
        Width::LongLong => texts::STRING_LONG_LONG,
    }
}

fn stdio(width: Width) -> &'static [u8]
    ensures { result.now ≡ stdio_text width }
{
    match width {
        Width::Long => texts::STDIO_LONG,
        Width::Int => texts::STDIO_INT,
        Width::LongLong => texts::STDIO_LONG_LONG,
    }
}

/// limits.h where int has 2 bytes.
fn limits_2(wide_long: bool, char_signed: bool) -> &'static [u8]
    ensures { result.now ≡ limits_text 2 (long_bytes wide_long) char_signed }
{
    match (wide_long, char_signed) {
        (false, true) => texts::LIMITS_2_4_SIGNED,
        (false, false) => texts::LIMITS_2_4_UNSIGNED,
        (true, true) => texts::LIMITS_2_8_SIGNED,
        (true, false) => texts::LIMITS_2_8_UNSIGNED,
    }
}

/// limits.h where int has 4 bytes.
fn limits_4(wide_long: bool, char_signed: bool) -> &'static [u8]
    ensures { result.now ≡ limits_text 4 (long_bytes wide_long) char_signed }
{
    match (wide_long, char_signed) {
        (false, true) => texts::LIMITS_4_4_SIGNED,
        (false, false) => texts::LIMITS_4_4_UNSIGNED,
        (true, true) => texts::LIMITS_4_8_SIGNED,
        (true, false) => texts::LIMITS_4_8_UNSIGNED,
    }
}

#[tactic(auto, using(crate::proofs::headers::Long::long_is))]
fn limits(model: &Model) -> &'static [u8]
    requires { is_model model.now ≡ true }
    ensures { result.now ≡ limits_text model.now.int model.now.long model.now.char_signed }
{
    if model.int == 2 {
        limits_2(model.long == 8, model.char_signed)
    } else {
        limits_4(model.long == 8, model.char_signed)
    }
}

/// The text of a built-in header under a model; None exactly where there is no such header. The
/// headers are `stddef.h`, `stdlib.h`, `string.h`, `ctype.h`, `stdio.h` and `limits.h` (7.19, 7.22,
/// 7.24, 7.4, 7.21 and 5.2.4.2.1 of ISO/IEC 9899:2011). They give macros and types, no functions.
pub fn header(name: &str, model: &Model) -> Option<&'static [u8]>
    requires { is_model model.now ≡ true }
    ensures { option_map (λ t. t.now) result ≡ header_text name.now model.now }
{
    if name == "stddef.h" {
        return Some(stddef(size_width(model)));
    }
    if name == "stdlib.h" {
        return Some(stdlib(size_width(model)));
    }
    if name == "string.h" {
        return Some(string(size_width(model)));
    }
    if name == "ctype.h" {
        return Some(b"");
    }
    if name == "stdio.h" {
        return Some(stdio(size_width(model)));
    }
    if name == "limits.h" {
        return Some(limits(model));
    }
    None
}
