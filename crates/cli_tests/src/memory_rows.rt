//! Units for which memory suffices, so that none is answered by want of it.
use crate::call::{NONE, Unit, check_all};
use std::test::Fail;

const UNITS: [Unit; 4] = [
    ("int main(void){return 0;}", 0, NONE),
    (
        "int main(void){int a[10];int i;for(i=0;i<10;i++)a[i]=i;return 0;}",
        0,
        NONE,
    ),
    (
        "#include <stdio.h>\nint main(void){int b;if(getchar()==65)b=0;else b=5;return 10/b;}",
        1,
        "a.c:2:61: diverr: division is undefined\n1 diagnostics in a.c\n",
    ),
    (
        "#include <stdlib.h>\nint main(void){int *p=0;int *q=0;int i;\nfor(i=0;i<3;i++){q=p;p=malloc(sizeof *p);}\nfree(q);free(q);return 0;}",
        1,
        "a.c:4:9: dblfree: memory is freed twice\na.c:4:14: accfree: freed memory is used\n2 diagnostics in a.c\n",
    ),
];

#[test]
fn want_of_memory_is_not_answered_for_a_loop_or_a_header(rt: HostRuntime) -> Result<(), Fail> {
    check_all(&rt, rt.alloc(), &UNITS)
}
