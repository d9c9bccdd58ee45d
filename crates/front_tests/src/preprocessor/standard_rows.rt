//! The examples of 6.10.3.5 of ISO/IEC 9899:2011 with the results that the standard gives.
use crate::preprocessor::units::expect_all;
use std::test::Fail;

const EXAMPLES: [(&str, &str); 9] = [
    (
        "#define x 3\n#define f(a) f(x * (a))\n#undef x\n#define x 2\n#define g f\n#define z z[0]\n#define h g(~\n#define m(a) a(w)\n#define w 0,1\n#define t(a) a\n#define p() int\n#define q(x) x\nf(y+1) + f(f(z)) % m\n(f)^m(m);\np() i[q()] = { q(1), q(23), q(4), q(5), };",
        " f ( 2 * ( y + 1 ) ) + f ( 2 * ( f ( 2 * ( z [ 0 ] ) ) ) ) % f ( 2 * ( 0 , 1 ) ) ^ m ( 0 , 1 ) ; int i [ ] = { 1 , 23 , 4 , 5 , } ;",
    ),
    (
        "#define f(a) a*g\n#define g(a) f(a)\nf(2)(9)",
        "a.c:3:1: MacroSpill",
    ),
    (
        "#define OBJ_LIKE (1-1)\n#define OBJ_LIKE /* white */ (1-1) /* other */\n#define FUNC_LIKE(a) ( a )\n#define FUNC_LIKE( a )( /* note */ \\\n a /* other\n */ )\nOBJ_LIKE FUNC_LIKE(1)",
        " ( 1 - 1 ) ( 1 )",
    ),
    (
        "#define OBJ_LIKE (1-1)\n#define OBJ_LIKE (1 - 1)\n",
        "a.c:2:1: MacroRedefined",
    ),
    (
        "#define FUNC_LIKE(a) ( a )\n#define FUNC_LIKE(b) ( b )\n",
        "a.c:2:1: MacroRedefined",
    ),
    (
        "#define TABSIZE 100\nint table[TABSIZE];",
        " int table [ 100 ] ;",
    ),
    (
        "#define max(a, b) ((a) > (b) ? (a) : (b))\nmax(i, (j, k))",
        " ( ( i ) > ( ( j , k ) ) ? ( i ) : ( ( j , k ) ) )",
    ),
    (
        "#define OBJ_LIKE (1-1)\n#define OBJ_LIKE (0)\n",
        "a.c:2:1: MacroRedefined",
    ),
    (
        "#define FUNC_LIKE(a) ( a )\n#define FUNC_LIKE(b) ( a )\n",
        "a.c:2:1: MacroRedefined",
    ),
];

#[test]
fn examples(rt: HostRuntime) -> Result<(), Fail> {
    expect_all(&rt, rt.alloc(), &EXAMPLES)
}
