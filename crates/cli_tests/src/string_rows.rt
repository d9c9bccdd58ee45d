//! Strings and library functions.
use crate::call::{Call, NONE, Unit, answer_all, check_all};
use std::test::Fail;

const STRINGS: [Unit; 3] = [
    (
        "#include <ctype.h>\nint main(void){char c=-56;return isalpha(c);}",
        1,
        "a.c:2:34: chrsgnext: character argument is out of range\n1 diagnostics in a.c\n",
    ),
    (
        "#include <stdio.h>\n#include <stdlib.h>\n#include <string.h>\nint main(void){\nchar d[4];\nchar *s=\"abc\";\nint x;\nint a[2]={0,0},b[2]={0,0};\nif(getchar()==1)strcpy(d,\"abcd\");\nif(getchar()==2)return (int)strlen(d);\nif(getchar()==3)s[0]='x';\nif(getchar()==4)return x;\nif(getchar()==5)return &a[0]<&b[0];\nif(getchar()==6)free(a);\nreturn 0;}",
        1,
        "a.c:9:17: libptr: library call passes the end of an object\na.c:10:29: nonnullcs: string has no terminating zero\na.c:11:18: strmod: string literal is modified\na.c:12:24: uninitref: uninitialized memory is read\na.c:13:29: ptrobj: pointers into different objects\na.c:14:17: xfree: memory was not allocated\n6 diagnostics in a.c\n",
    ),
    (
        "#include <stdio.h>\n#include <string.h>\nint main(void){char a[4]=\"abc\",b[4]=\"abc\",d[2];char *p=a;if(getchar()==1)p=b;p[0]=0;strcpy(d,a);return 0;}",
        1,
        "a.c:3:85: libptr: library call passes the end of an object\n1 diagnostics in a.c\n",
    ),
];

#[test]
fn strings(rt: HostRuntime) -> Result<(), Fail> {
    check_all(&rt, rt.alloc(), &STRINGS)
}

const UNSIGNED_CHAR: [Call; 1] = [(
    &[
        (
            "a.c",
            "#include <ctype.h>\nint main(void){char c=-56;return isalpha(c);}",
        ),
        (
            "u.toml",
            "short = 2\nint = 4\nlong = 8\nlong_long = 8\npointer = 8\nchar_signed = false\n",
        ),
    ],
    "check a.c --model u.toml",
    0,
    NONE,
)];

#[test]
fn a_character_under_an_unsigned_char(rt: HostRuntime) -> Result<(), Fail> {
    answer_all(&rt, rt.alloc(), &UNSIGNED_CHAR)
}
