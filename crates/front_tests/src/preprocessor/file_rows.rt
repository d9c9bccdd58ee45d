//! Files that a unit includes.
use crate::preprocessor::units::{File, expect_all, expect_with};
use std::test::Fail;

/// A file, a unit that includes it, and what the unit gives.
const INCLUDED: [(File, &str, &str); 4] = [
    (
        ("d.h", "#define DIV(x,y) ((x)/(y))\n"),
        "#include \"d.h\"\nint main(void){int z=0;return DIV(4,z);}\n",
        " int main ( void ) { int z = 0 ; return ( ( 4 ) / ( z ) ) ; }",
    ),
    (
        ("inc/d.h", "a @"),
        "#include <d.h>\n",
        "inc/d.h:1:3: BadByte",
    ),
    (
        ("d.h", "#define X(a) a\nX(1"),
        "#include \"d.h\"\n)",
        "d.h:2:1: MacroArguments",
    ),
    (
        ("d.h", "#pragma once\nb\n"),
        "#include \"d.h\"\n#include \"d.h\"\na",
        " b a",
    ),
];

#[test]
fn included_files(rt: HostRuntime) -> Result<(), Fail> {
    for (file, text, wanted) in &INCLUDED {
        expect_with(&rt, rt.alloc(), *file, text, wanted)?;
    }
    Ok(())
}

const FILES: [(&str, &str); 2] = [
    ("#include \"a.c\"", "a.c:1:1: IncludeDepth"),
    (
        "#include <stddef.h>\nNULL",
        " typedef unsigned long size_t ; typedef long ptrdiff_t ; ( ( void * ) 0 )",
    ),
];

#[test]
fn a_file_by_itself_and_a_built_in_header(rt: HostRuntime) -> Result<(), Fail> {
    expect_all(&rt, rt.alloc(), &FILES)
}
