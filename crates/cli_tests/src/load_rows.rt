//! Units made from two numbers.
use crate::call::{Call, answer_all};
use std::test::Fail;

const LOADS: [Call; 2] = [
    (
        &[],
        "load load.c --seed 1 --count 4",
        1,
        "load.c: 8 bases, 15 cells\nboolasgn 1\ndiverr 2\ninvptr 1\n4 diagnostics in load.c\n",
    ),
    (
        &[],
        "load load.c",
        1,
        "load.c: 20 bases, 34 cells\nboolasgn 4\ndiverr 4\ninvptr 1\n9 diagnostics in load.c\n",
    ),
];

#[test]
fn loads(rt: HostRuntime) -> Result<(), Fail> {
    answer_all(&rt, rt.alloc(), &LOADS)
}
