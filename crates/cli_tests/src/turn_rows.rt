//! Loops whose first turns are analysed by themselves.
use crate::call::{NONE, answer, with_unit};
use std::alloc::Global;
use std::process::Abort;
use std::test::Fail;

const SUM: &[u8] = b"int main(void){int i;int s=0;for(i=0;i<3;i++)s=s+i;return 6/(s-4);}";

const BOTH: &str =
    "a.c:1:49: intoflow: signed result is out of range\na.c:1:60: diverr: division is undefined\n2 diagnostics in a.c\n";

const REFUSED: &str = "ccheck: words refused\n";

/// Words, and the status and the text that answer them on the sum.
const ROWS: [(&str, u8, &str); 7] = [
    ("check a.c", 1, BOTH),
    ("check a.c --turns 3", 0, NONE),
    ("check a.c --turns 1", 1, BOTH),
    ("check a.c --turns 0", 1, BOTH),
    ("check a.c --turns 65", 3, REFUSED),
    ("check a.c --turns two", 3, REFUSED),
    ("load a.c --turns 65", 3, REFUSED),
];

/// Fails unless the words are answered so on the sum.
fn sum_up(rt: &impl Abort, alloc: Global, words: &str, status: u8, text: &str) -> Result<(), Fail> {
    answer(rt, alloc, words, with_unit(alloc, SUM)?, status, text)
}

#[test]
fn turns(rt: HostRuntime) -> Result<(), Fail> {
    for (words, status, text) in &ROWS {
        sum_up(&rt, rt.alloc(), words, *status, text)?;
    }
    Ok(())
}
