//! Refusals of grammar and typing.
use crate::call::{Unit, check_all};
use std::test::Fail;

const REFUSALS: [Unit; 7] = [
    ("", 2, "a.c:1:1: refused: NoEntry\n"),
    (
        "int g(int x);int f(int x){return g(x);}int g(int x){return f(x);}int main(void){return f(1);}",
        2,
        "a.c:1:60: refused: Recursion\n",
    ),
    (
        "int main(void){return 0}\n\nfloat x;",
        2,
        "a.c:3:1: refused: Unsupported float\n",
    ),
    ("int main(void){return 0;", 2, "a.c:1:1: refused: Syntax\n"),
    (
        "int main(void){return 09;}",
        2,
        "a.c:1:23: refused: NumberForm\n",
    ),
    (
        "int main(void){return y;}",
        2,
        "a.c:1:23: refused: Undeclared\n",
    ),
    (
        "int main(void){int a;int *p=&a;return p;}",
        2,
        "a.c:1:32: refused: PointerInteger\n",
    ),
];

#[test]
fn refusals(rt: HostRuntime) -> Result<(), Fail> {
    check_all(&rt, rt.alloc(), &REFUSALS)
}

const NUMBERS: [Unit; 2] = [
    (
        "#if 1.0\n#endif\nint main(void){return 0;}",
        2,
        "a.c:1:5: refused: NumberForm\n",
    ),
    (
        "#if ) 09\n#endif\nint main(void){return 0;}",
        2,
        "a.c:1:7: refused: NumberForm\n",
    ),
];

#[test]
fn numbers_in_conditions(rt: HostRuntime) -> Result<(), Fail> {
    check_all(&rt, rt.alloc(), &NUMBERS)
}

const FORMS: [Unit; 5] = [
    (
        "\"abc\nint main(void){return 0;}",
        2,
        "a.c:1:1: refused: OpenLiteral\n",
    ),
    (
        "int main(void){return 'a;}",
        2,
        "a.c:1:23: refused: OpenLiteral\n",
    ),
    (
        "#include\nint main(void){return 0;}",
        2,
        "a.c:1:1: refused: BadDirective\n",
    ),
    (
        "#define 3 x\nint main(void){return 0;}",
        2,
        "a.c:1:1: refused: BadDirective\n",
    ),
    (
        "#ifdef\n#endif\nint main(void){return 0;}",
        2,
        "a.c:1:1: refused: BadDirective\n",
    ),
];

#[test]
fn open_literals_and_bad_directives(rt: HostRuntime) -> Result<(), Fail> {
    check_all(&rt, rt.alloc(), &FORMS)
}
