//! Macros, directives and headers.
use crate::call::{Call, NONE, Unit, answer_all, check_all};
use std::test::Fail;

const UNITS: [Unit; 10] = [
    (
        "#define f(x) x\n#define g f\nint main(void){return g(1);}",
        2,
        "a.c:3:23: refused: MacroSpill\n",
    ),
    (
        "#define N 0\n#if N\n#error no\n#else\nint main(void){return N;}\n#endif\n",
        0,
        NONE,
    ),
    ("#error no", 2, "a.c:1:1: refused: ErrorDirective\n"),
    ("#endif", 2, "a.c:1:1: refused: UnevenConditional\n"),
    (
        "#define A 1\n#define A 2",
        2,
        "a.c:2:1: refused: MacroRedefined\n",
    ),
    (
        "#define F(x) x\nint main(void){return F(1,2);}",
        2,
        "a.c:2:23: refused: MacroArguments\n",
    ),
    ("int x; /* a", 2, "a.c:1:8: refused: OpenComment\n"),
    ("int x=@;", 2, "a.c:1:7: refused: BadByte\n"),
    (
        "#include <math.h>",
        2,
        "a.c:1:1: refused: HeaderMissing math.h\n",
    ),
    ("#include \"a.c\"\n", 2, "a.c:1:1: refused: IncludeDepth\n"),
];

#[test]
fn units(rt: HostRuntime) -> Result<(), Fail> {
    check_all(&rt, rt.alloc(), &UNITS)
}

const HEADER: [Call; 1] = [(
    &[
        ("d.h", "#define DIV(x,y) ((x)/(y))\n"),
        (
            "a.c",
            "#include \"d.h\"\nint main(void){int z=0;return DIV(4,z);}",
        ),
    ],
    "check a.c",
    1,
    "a.c:2:31: diverr: division is undefined\n1 diagnostics in a.c\n",
)];

#[test]
fn a_macro_of_a_header(rt: HostRuntime) -> Result<(), Fail> {
    answer_all(&rt, rt.alloc(), &HEADER)
}
