//! Labels of input.
use crate::call::{NONE, Unit, check_all};
use std::test::Fail;

const LABELS: [Unit; 3] = [
    (
        "#include <stdio.h>\nint main(void){int t[10]={0};int i=getchar();return t[i];}",
        1,
        "a.c:2:54: invptr: pointer is out of bounds\na.c:2:54: taintsink: tainted value reaches a sink\n2 diagnostics in a.c\n",
    ),
    (
        "#include <stdio.h>\nint main(void){int t[10]={0};int i=getchar();if(0<=i&&i<10)return t[i];return 0;}",
        0,
        NONE,
    ),
    (
        "#include <stdio.h>\nint main(void){int t[10]={0};int i=getchar();if(i<10)return t[i];return 0;}",
        1,
        "a.c:2:62: invptr: pointer is out of bounds\na.c:2:62: taintsink: tainted value reaches a sink\n2 diagnostics in a.c\n",
    ),
];

#[test]
fn labels_of_input(rt: HostRuntime) -> Result<(), Fail> {
    check_all(&rt, rt.alloc(), &LABELS)
}
