//! What a replay tells of a run, and how it refuses its draws.
use crate::runs::replay_call::{answer, with_files};
use std::alloc::Global;
use std::process::Abort;
use std::test::Fail;

/// It divides by 0 where the character 65 comes in.
const DIVISION: &str =
    "#include <stdio.h>\nint main(void){int b;if(getchar()==65)b=0;else b=5;return 10/b;}";

const FOUND: &str =
    "a.c:2:61: diverr: division is undefined\nend: violation, 1 draws used\n1 diagnostics in a.c\n";

/// Its `long` has 8 bytes.
const ALLOCATION: &str = "#include <stdlib.h>\nint main(void){long *q=malloc(4);*q=1;return 0;}";

const LOOP: &str = "int main(void){for(;;);}";

const QUOTIENT: &str = "int f(int x){return 10/x;}int main(void){return 0;}";

const LARGE: &str = "static char a[4194305];int main(void){return a[0];}";

/// A unit, its draws, words behind the unit's name, and the answer.
type Run<'a> = (&'a str, &'a str, &'a str, u8, &'a str);

const RUNS: [Run<'static>; 17] = [
    (DIVISION, "65", "", 1, FOUND),
    (
        DIVISION,
        "66",
        "",
        0,
        "end: ended, 1 draws used\n0 diagnostics in a.c\n",
    ),
    (
        DIVISION,
        "",
        "",
        0,
        "end: draws, 0 draws used\n0 diagnostics in a.c\n",
    ),
    (
        DIVISION,
        "256",
        "",
        0,
        "end: draws, 1 draws used\n0 diagnostics in a.c\n",
    ),
    (
        DIVISION,
        "18446744073709551615",
        "",
        0,
        "end: draws, 1 draws used\n0 diagnostics in a.c\n",
    ),
    (
        DIVISION,
        "-9223372036854775808",
        "",
        0,
        "end: draws, 1 draws used\n0 diagnostics in a.c\n",
    ),
    (
        DIVISION,
        "\n\t 65  66\n",
        " --format json --turns 3",
        1,
        FOUND,
    ),
    (
        ALLOCATION,
        "1",
        "",
        1,
        "a.c:2:24: insufmem: allocation is too small for its type\na.c:2:34: invptr: pointer is out of bounds\nend: violation, 1 draws used\n2 diagnostics in a.c\n",
    ),
    (
        ALLOCATION,
        "0",
        "",
        1,
        "a.c:2:24: insufmem: allocation is too small for its type\na.c:2:34: nullref: null or ended pointer is dereferenced\nend: violation, 1 draws used\n2 diagnostics in a.c\n",
    ),
    (
        LOOP,
        "",
        "",
        0,
        "end: steps, 0 draws used\n0 diagnostics in a.c\n",
    ),
    (
        LOOP,
        "",
        " --steps 0",
        0,
        "end: steps, 0 draws used\n0 diagnostics in a.c\n",
    ),
    (
        QUOTIENT,
        "0",
        " --entry f",
        1,
        "a.c:1:23: diverr: division is undefined\nend: violation, 1 draws used\n1 diagnostics in a.c\n",
    ),
    (
        QUOTIENT,
        "0",
        " --entry f --steps 0",
        0,
        "end: steps, 1 draws used\n0 diagnostics in a.c\n",
    ),
    (
        "int main(void){int n=40;return 1<<n;}",
        "",
        "",
        0,
        "end: left, 0 draws used\n0 diagnostics in a.c\n",
    ),
    (
        "#include <stdlib.h>\nint main(void){exit(1);return 1/0;}",
        "",
        "",
        0,
        "end: ended, 0 draws used\n0 diagnostics in a.c\n",
    ),
    (
        "int main(void){int a=0;int b=1;if(a=b)a=0;return a;}",
        "",
        "",
        0,
        "end: ended, 0 draws used\n0 diagnostics in a.c\n",
    ),
    (
        LARGE,
        "",
        "",
        8,
        "a.c:1:28: limit: ReplayMemory 4194305/4194304\n",
    ),
];

/// Fails unless the run of the unit over the draws is answered so.
fn run_answers(rt: &impl Abort, alloc: Global, run: &Run) -> Result<(), Fail> {
    let (source, draws, words, status, text) = *run;
    let tree = with_files(alloc, Vec::new(alloc), &[("a.c", source), ("d", draws)])?;
    let line = format!(in alloc; "replay a.c --draws d{words}")?;
    answer(rt, alloc, line.as_str(), tree, status, text)
}

#[test]
fn runs(rt: HostRuntime) -> Result<(), Fail> {
    for row in &RUNS {
        run_answers(&rt, rt.alloc(), row)?;
    }
    Ok(())
}

/// Texts that are no draws.
const SHAPES: [&str; 9] = [
    "6x",
    "065",
    "+65",
    "65\r\n",
    "65,66",
    "- 65",
    "65\0",
    "18446744073709551616",
    "-9223372036854775809",
];

#[test]
fn shapes(rt: HostRuntime) -> Result<(), Fail> {
    for shape in &SHAPES {
        run_answers(
            &rt,
            rt.alloc(),
            &(DIVISION, shape, "", 3, "ccheck: d: DrawsShape\n"),
        )?;
    }
    Ok(())
}

/// Files, words, and the answer.
type Call<'a> = (&'a [(&'a str, &'a str)], &'a str, u8, &'a str);

/// The draws are read behind the expansion and before the form of numbers.
const ORDERED: [Call<'static>; 9] = [
    (
        &[("a.c", DIVISION)],
        "replay a.c",
        0,
        "end: draws, 0 draws used\n0 diagnostics in a.c\n",
    ),
    (
        &[("a.c", DIVISION)],
        "replay a.c --draws d",
        4,
        "ccheck: no file d\n",
    ),
    (
        &[("d", "x")],
        "replay a.c --draws d",
        4,
        "ccheck: no file a.c\n",
    ),
    (
        &[("a.c", "int x=@;"), ("d", "x")],
        "replay a.c --draws d",
        2,
        "a.c:1:7: refused: BadByte\n",
    ),
    (
        &[("a.c", "int x='ab';"), ("d", "x")],
        "replay a.c --draws d",
        3,
        "ccheck: d: DrawsShape\n",
    ),
    (
        &[("a.c", "int x='ab';"), ("d", "")],
        "replay a.c --draws d",
        2,
        "a.c:1:7: refused: NumberForm\n",
    ),
    (
        &[("a.c", "int main(void){int a[64][16][8];return 1/0;}")],
        "replay a.c",
        8,
        "a.c:1:5: limit: TooLarge cells 8192/4096\n",
    ),
    (
        &[("a.c", LOOP)],
        "replay a.c --steps 1000001",
        3,
        "ccheck: words refused\n",
    ),
    (
        &[("a.c", LOOP)],
        "replay a.c --draws",
        3,
        "ccheck: words refused\n",
    ),
];

#[test]
fn draws_are_read_behind_the_expansion(rt: HostRuntime) -> Result<(), Fail> {
    let alloc = rt.alloc();
    for (files, words, status, text) in &ORDERED {
        let tree = with_files(alloc, Vec::new(alloc), files)?;
        answer(&rt, alloc, words, tree, *status, text)?;
    }
    Ok(())
}

#[test]
fn draws_may_be_too_many(rt: HostRuntime) -> Result<(), Fail> {
    let alloc = rt.alloc();
    let mut draws = String::from_str(alloc, "65")?;
    for _more in 0..65_535 {
        draws.push_str(" 0")?;
    }
    run_answers(&rt, alloc, &(DIVISION, draws.as_str(), "", 1, FOUND))?;
    draws.push_str(" 0")?;
    run_answers(
        &rt,
        alloc,
        &(DIVISION, draws.as_str(), "", 3, "ccheck: d: DrawsShape\n"),
    )
}

/// Fails unless `replay` answers so where this call of `read` fails.
fn fail_at(rt: &impl Abort, alloc: Global, at: u64, status: u8, text: &str) -> Result<(), Fail> {
    let mut failing = Vec::new(alloc);
    failing.push(at)?;
    let tree = with_files(alloc, failing, &[("a.c", DIVISION), ("d", "65")])?;
    answer(rt, alloc, "replay a.c --draws d", tree, status, text)
}

#[test]
fn a_failed_read_of_draws_puts_nothing(rt: HostRuntime) -> Result<(), Fail> {
    fail_at(&rt, rt.alloc(), 1, 5, "")?;
    fail_at(&rt, rt.alloc(), 2, 5, "")?;
    fail_at(&rt, rt.alloc(), 3, 1, FOUND)
}
