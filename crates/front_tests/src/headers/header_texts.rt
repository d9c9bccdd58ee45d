//! The whole text of each built-in header under two models, with its entries written by hand.
ghost use Rattle.std.specs.Prelude.{◌≡◌, true};
ghost use Rattle.c_layout.specs.Models.{is_model};

use c_layout::Model;
use c_library::headers::header;
use std::alloc::{AllocError, Global};
use std::test::Fail;

/// The model of many 64-bit systems.
const LP64: Model = Model {
    short: 2,
    int: 4,
    long: 8,
    long_long: 8,
    pointer: 8,
    char_signed: true,
};

/// A model with an int of 2 bytes and an unsigned char.
const SMALL: Model = Model {
    short: 2,
    int: 2,
    long: 4,
    long_long: 8,
    pointer: 4,
    char_signed: false,
};

/// Adds an entry, which is there once however often its header is included.
fn entry(text: &mut String, name: &str, line: &str) -> Result<(), AllocError> {
    text.push_str("#ifndef __ccheck_")?;
    text.push_str(name)?;
    text.push_str("\n#define __ccheck_")?;
    text.push_str(name)?;
    text.push_str("\n")?;
    text.push_str(line)?;
    text.push_str("\n#endif\n")
}

/// Adds a macro.
fn define(text: &mut String, name: &str, value: &str) -> Result<(), AllocError> {
    text.push_str("#ifndef __ccheck_")?;
    text.push_str(name)?;
    text.push_str("\n#define __ccheck_")?;
    text.push_str(name)?;
    text.push_str("\n#define ")?;
    text.push_str(name)?;
    text.push_str(" ")?;
    text.push_str(value)?;
    text.push_str("\n#endif\n")
}

/// Whether the header has this text.
fn is_text(name: &str, model: &Model, text: &String) -> bool
    requires { is_model model.now ≡ true }
{
    match header(name, model) {
        Some(found) => found == text.as_bytes(),
        None => false,
    }
}

/// The entries that sizes need in both models, where long is as wide as a pointer.
fn sizes(alloc: Global) -> Result<String, AllocError> {
    let mut text = String::new(alloc);
    entry(&mut text, "size_t", "typedef unsigned long size_t;")?;
    Ok(text)
}

fn stddef(alloc: Global) -> Result<String, AllocError> {
    let mut text = sizes(alloc)?;
    entry(&mut text, "ptrdiff_t", "typedef long ptrdiff_t;")?;
    define(&mut text, "NULL", "((void*)0)")?;
    Ok(text)
}

fn string(alloc: Global) -> Result<String, AllocError> {
    let mut text = sizes(alloc)?;
    define(&mut text, "NULL", "((void*)0)")?;
    Ok(text)
}

fn stdlib(alloc: Global) -> Result<String, AllocError> {
    let mut text = string(alloc)?;
    define(&mut text, "EXIT_SUCCESS", "0")?;
    define(&mut text, "EXIT_FAILURE", "1")?;
    Ok(text)
}

fn stdio(alloc: Global) -> Result<String, AllocError> {
    let mut text = string(alloc)?;
    define(&mut text, "EOF", "(-1)")?;
    entry(&mut text, "__file", "struct __file { char b; };")?;
    entry(&mut text, "FILE", "typedef struct __file FILE;")?;
    entry(&mut text, "__stdin", "static struct __file __stdin;")?;
    define(&mut text, "stdin", "(&__stdin)")?;
    Ok(text)
}

fn wide_limits(alloc: Global) -> Result<String, AllocError> {
    let mut text = String::new(alloc);
    define(&mut text, "CHAR_BIT", "8")?;
    define(&mut text, "SCHAR_MIN", "(-127-1)")?;
    define(&mut text, "SCHAR_MAX", "127")?;
    define(&mut text, "CHAR_MIN", "(-127-1)")?;
    define(&mut text, "CHAR_MAX", "127")?;
    define(&mut text, "SHRT_MIN", "(-32767-1)")?;
    define(&mut text, "SHRT_MAX", "32767")?;
    define(&mut text, "INT_MIN", "(-2147483647-1)")?;
    define(&mut text, "INT_MAX", "2147483647")?;
    define(&mut text, "LONG_MIN", "(-9223372036854775807l-1)")?;
    define(&mut text, "LONG_MAX", "9223372036854775807l")?;
    define(&mut text, "LLONG_MIN", "(-9223372036854775807ll-1)")?;
    define(&mut text, "LLONG_MAX", "9223372036854775807ll")?;
    define(&mut text, "UCHAR_MAX", "255")?;
    define(&mut text, "USHRT_MAX", "65535")?;
    define(&mut text, "UINT_MAX", "4294967295u")?;
    define(&mut text, "ULONG_MAX", "18446744073709551615ul")?;
    define(&mut text, "ULLONG_MAX", "18446744073709551615ull")?;
    Ok(text)
}

fn small_limits(alloc: Global) -> Result<String, AllocError> {
    let mut text = String::new(alloc);
    define(&mut text, "CHAR_BIT", "8")?;
    define(&mut text, "SCHAR_MIN", "(-127-1)")?;
    define(&mut text, "SCHAR_MAX", "127")?;
    define(&mut text, "CHAR_MIN", "0")?;
    define(&mut text, "CHAR_MAX", "255")?;
    define(&mut text, "SHRT_MIN", "(-32767-1)")?;
    define(&mut text, "SHRT_MAX", "32767")?;
    define(&mut text, "INT_MIN", "(-32767-1)")?;
    define(&mut text, "INT_MAX", "32767")?;
    define(&mut text, "LONG_MIN", "(-2147483647l-1)")?;
    define(&mut text, "LONG_MAX", "2147483647l")?;
    define(&mut text, "LLONG_MIN", "(-9223372036854775807ll-1)")?;
    define(&mut text, "LLONG_MAX", "9223372036854775807ll")?;
    define(&mut text, "UCHAR_MAX", "255")?;
    define(&mut text, "USHRT_MAX", "65535u")?;
    define(&mut text, "UINT_MAX", "65535u")?;
    define(&mut text, "ULONG_MAX", "4294967295ul")?;
    define(&mut text, "ULLONG_MAX", "18446744073709551615ull")?;
    Ok(text)
}

#[test]
fn headers_are_the_same_where_long_is_as_wide_as_a_pointer(rt: HostRuntime) -> Result<(), Fail> {
    let alloc = rt.alloc();
    let stddef = stddef(alloc)?;
    let string = string(alloc)?;
    let stdlib = stdlib(alloc)?;
    let stdio = stdio(alloc)?;
    let nothing = String::new(alloc);
    assert!(rt; is_text("stddef.h", &LP64, &stddef) && is_text("stddef.h", &SMALL, &stddef));
    assert!(rt; is_text("string.h", &LP64, &string) && is_text("string.h", &SMALL, &string));
    assert!(rt; is_text("stdlib.h", &LP64, &stdlib) && is_text("stdlib.h", &SMALL, &stdlib));
    assert!(rt; is_text("stdio.h", &LP64, &stdio) && is_text("stdio.h", &SMALL, &stdio));
    assert!(rt; is_text("ctype.h", &LP64, &nothing) && is_text("ctype.h", &SMALL, &nothing));
    Ok(())
}

#[test]
fn limits_by_the_model(rt: HostRuntime) -> Result<(), Fail> {
    let wide = wide_limits(rt.alloc())?;
    let small = small_limits(rt.alloc())?;
    assert!(rt; is_text("limits.h", &LP64, &wide));
    assert!(rt; is_text("limits.h", &SMALL, &small));
    Ok(())
}
