//! Divisions and signed arithmetic.
use crate::call::{Call, NONE, Unit, answer_all, check_all};
use std::test::Fail;

const DIVISIONS: [Unit; 12] = [
    ("int main(void){return 0;}", 0, NONE),
    (
        "int main(void){int a=1;int b=0;return a/b;}",
        1,
        "a.c:1:40: diverr: division is undefined\n1 diagnostics in a.c\n",
    ),
    (
        "int main(void){int b=0;int c=1/b;int d=2/b;return 0;}",
        1,
        "a.c:1:31: diverr: division is undefined\n1 diagnostics in a.c\n",
    ),
    ("int main(void){return 32767+1;}", 0, NONE),
    (
        "int main(void){return 2147483647+1;}",
        1,
        "a.c:1:33: intoflow: signed result is out of range\n1 diagnostics in a.c\n",
    ),
    (
        "int main(void){int m=-2147483647-1;return m/-1;}",
        1,
        "a.c:1:44: diverr: division is undefined\na.c:1:44: intoflow: signed result is out of range\n2 diagnostics in a.c\n",
    ),
    (
        "#include <stdio.h>\nint main(void){int b;if(getchar()==65)b=0;else b=5;return 10/b;}",
        1,
        "a.c:2:61: diverr: division is undefined\n1 diagnostics in a.c\n",
    ),
    (
        "int main(void){unsigned h=4000000000u;int a[4]={0};h=h*3;return a[h%4];}",
        0,
        NONE,
    ),
    (
        "static int *g;int main(void){char *c=(char*)&g;int z=*c;return 1/z;}",
        1,
        "a.c:1:65: diverr: division is undefined\n1 diagnostics in a.c\n",
    ),
    (
        "int main(void){int a[3]={1,2,3};int *p=a;int s=0;s=*p++;s=s+*p++;s=s+*p++;return s-6?1/0:0;}",
        0,
        NONE,
    ),
    (
        "int main(void){int a[3]={1,2,3};int *p=a;int s=0;s=*p++;s=s+*p++;s=s+*p++;return s-5?1/0:0;}",
        1,
        "a.c:1:87: diverr: division is undefined\n1 diagnostics in a.c\n",
    ),
    (
        "int main(void){int i;int s=0;for(i=0;i<3;i++)s=s+i;return 6/(s-4);}",
        1,
        "a.c:1:49: intoflow: signed result is out of range\na.c:1:60: diverr: division is undefined\n2 diagnostics in a.c\n",
    ),
];

#[test]
fn divisions(rt: HostRuntime) -> Result<(), Fail> {
    check_all(&rt, rt.alloc(), &DIVISIONS)
}

const INT_OF_TWO: [Call; 1] = [(
    &[
        ("a.c", "int main(void){return 32767+1;}"),
        (
            "i16.toml",
            "short = 2\nint = 2\nlong = 4\nlong_long = 8\npointer = 4\nchar_signed = true\n",
        ),
    ],
    "check a.c --model i16.toml",
    1,
    "a.c:1:28: intoflow: signed result is out of range\n1 diagnostics in a.c\n",
)];

#[test]
fn a_sum_under_an_int_of_two_bytes(rt: HostRuntime) -> Result<(), Fail> {
    answer_all(&rt, rt.alloc(), &INT_OF_TWO)
}
