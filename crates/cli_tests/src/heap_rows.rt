//! The heap.
use crate::call::{Call, Unit, answer_all, check_all};
use std::test::Fail;

const HEAP: [Unit; 4] = [
    (
        "#include <stdlib.h>\nint main(void){int *p=0;int *q=0;int i;\nfor(i=0;i<3;i++){q=p;p=malloc(sizeof *p);}\nfree(q);free(q);return 0;}",
        1,
        "a.c:4:9: dblfree: memory is freed twice\na.c:4:14: accfree: freed memory is used\n2 diagnostics in a.c\n",
    ),
    (
        "#include <stdlib.h>\nint main(void){long *q=malloc(4);*q=1;return 0;}",
        1,
        "a.c:2:24: insufmem: allocation is too small for its type\na.c:2:34: invptr: pointer is out of bounds\na.c:2:34: nullref: null or ended pointer is dereferenced\n3 diagnostics in a.c\n",
    ),
    (
        "#include <stdlib.h>\nint main(void){char *p=calloc(18446744073709551615u,18446744073709551615u);return *p;}",
        1,
        "a.c:2:83: nullref: null or ended pointer is dereferenced\n1 diagnostics in a.c\n",
    ),
    (
        "#include <stdlib.h>\nint main(void){int n=-1;char *p=malloc(n);return p==NULL;}",
        1,
        "a.c:2:33: taintsink: tainted value reaches a sink\n1 diagnostics in a.c\n",
    ),
];

#[test]
fn heap(rt: HostRuntime) -> Result<(), Fail> {
    check_all(&rt, rt.alloc(), &HEAP)
}

const ILP32: [Call; 1] = [(
    &[(
        "a.c",
        "#include <stdlib.h>\nint main(void){long *q=malloc(4);*q=1;return 0;}",
    )],
    "check a.c --model ilp32",
    1,
    "a.c:2:34: nullref: null or ended pointer is dereferenced\n1 diagnostics in a.c\n",
)];

#[test]
fn an_allocation_under_ilp32(rt: HostRuntime) -> Result<(), Fail> {
    answer_all(&rt, rt.alloc(), &ILP32)
}
