//! Directives: what each gives, and where it is refused.
use crate::preprocessor::units::expect_all;
use std::test::Fail;

const DIRECTIVES: [(&str, &str); 12] = [
    (
        "#define N 0\n#if N\n#error no\n#else\nint main(void){return N;}\n#endif\n",
        " int main ( void ) { return 0 ; }",
    ),
    ("#error no\n", "a.c:1:1: ErrorDirective"),
    ("#endif\n", "a.c:1:1: UnevenConditional"),
    ("#define A 1\n#define A 2\n", "a.c:2:1: MacroRedefined"),
    (
        "#define F(x) x\nint main(void){return F(1,2);}\n",
        "a.c:2:23: MacroArguments",
    ),
    (
        "#define f(x) x\n#define g f\nint main(void){return g(1);}\n",
        "a.c:3:23: MacroSpill",
    ),
    ("int x; /* a", "a.c:1:8: OpenComment"),
    ("int x=@;", "a.c:1:7: BadByte"),
    ("#include <math.h>\n", "a.c:1:1: HeaderMissing math.h"),
    ("#if 0\n#elif 1\na\n#elif x y\nb\n#else\nc\n#endif\n", " a"),
    (
        "#if 1\n#if 0\n#else\n#else\n#endif\n#endif\n",
        "a.c:4:1: UnevenConditional",
    ),
    ("x\n  #if 1\n", "a.c:2:3: UnevenConditional"),
];

#[test]
fn directives(rt: HostRuntime) -> Result<(), Fail> {
    expect_all(&rt, rt.alloc(), &DIRECTIVES)
}

const PLACES: [(&str, &str); 3] = [
    (
        "int a;\r\n#def\\\r\nine M 1\r\n  #if M +\r\n",
        "a.c:4:3: BadDirective",
    ),
    ("#define f(x) x\nf(1,2", "a.c:2:1: MacroArguments"),
    (
        "#define f(x) x\n f(1\n # pragma x\n)",
        "a.c:3:2: BadDirective",
    ),
];

#[test]
fn places_of_files_as_written(rt: HostRuntime) -> Result<(), Fail> {
    expect_all(&rt, rt.alloc(), &PLACES)
}

const CONDITIONS: [(&str, &str); 7] = [
    (
        "#if -1 > 0u && 2 + 3 * 4 == 14 && (1 ? 2 : 3) == 2\na\n#endif",
        " a",
    ),
    (
        "#if 0 && 1 / 0 || defined x || !defined(__STDC__)\na\n#else\nb\n#endif",
        " b",
    ),
    ("#if 1 / 0\n#endif", "a.c:1:1: BadDirective"),
    ("#if 09\n#endif", "a.c:1:5: NumberForm"),
    (
        "#if '\\x41' == 65 && 0x7fffffffffffffff + 0 > 0\na\n#endif",
        " a",
    ),
    (
        "#if 9223372036854775807 + 1\n#endif",
        "a.c:1:1: BadDirective",
    ),
    ("#if 1 ? 0 : 1 ? 1 : 1\na\n#else\nb\n#endif", " b"),
];

#[test]
fn conditions(rt: HostRuntime) -> Result<(), Fail> {
    expect_all(&rt, rt.alloc(), &CONDITIONS)
}

const NAMES: [(&str, &str); 8] = [
    ("#define __STDC__ 1\n", "a.c:1:1: BadDirective"),
    ("#undef defined\n", "a.c:1:1: BadDirective"),
    ("__STDC__", " 1"),
    ("#define A A\n#define A A\n#undef A\n#define A 2\nA", " 2"),
    (
        "#if defined (X) + defined A\n#endif\n#define A\n#if defined ( A )\na\n#endif",
        " a",
    ),
    ("#if defined\n#endif", "a.c:1:1: BadDirective"),
    ("# \n#include x\n", "a.c:2:1: BadDirective"),
    (
        "#if 0\n#include x\n#unknown\n#endif\n#unknown",
        "a.c:5:1: BadDirective",
    ),
];

#[test]
fn names_of_macros(rt: HostRuntime) -> Result<(), Fail> {
    expect_all(&rt, rt.alloc(), &NAMES)
}
