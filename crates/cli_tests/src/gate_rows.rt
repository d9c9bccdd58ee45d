//! What a gate tells over a baseline, and how it refuses one.
use crate::call::{Call, Setting, answer, answer_all, call, is, with_files};
use cc_base::MemTree;
use std::alloc::Global;
use std::process::Abort;
use std::test::Fail;

const DIVISION: &str = "int main(void){int a=1;int b=0;return a/b;}";

/// A division by 0, and the sum of a case that no baseline here holds.
const TWO: &str = "int main(void){int m=-2147483647-1;return m/-1;}";

const FOUND: &str = "a.c:1:40: diverr: division is undefined\n1 diagnostics in a.c\n";

const LEFT: &str = "a.c:1:44: intoflow: signed result is out of range\n1 diagnostics in a.c\n";

const REFUSED: &str = "ccheck: words refused\n";

/// A report with the division.
const HELD: &str =
    "{\"runs\":[{\"results\":[{\"locations\":[{\"physicalLocation\":{\"artifactLocation\":{\"uri\":\"a.c\"},\"region\":{\"startColumn\":40,\"startLine\":1}}}],\"message\":{\"text\":\"division is undefined\"},\"ruleId\":\"diverr\"}],\"tool\":{\"driver\":{\"name\":\"ccheck\"}}}],\"version\":\"2.1.0\"}\n";

/// The least value by -1, without the rule of its signed result.
const HALF: &str =
    "{\"version\":\"2.1.0\",\"runs\":[{\"results\":[{\"ruleId\":\"diverr\",\"locations\":[{\"physicalLocation\":{\"artifactLocation\":{\"uri\":\"a.c\"},\"region\":{\"startLine\":1,\"startColumn\":44}}}]}]}]}";

const EMPTY: &str = "{\"version\":\"2.1.0\",\"runs\":[]}";

const GATES: [Call; 9] = [
    (
        &[("a.c", DIVISION), ("b.json", HELD)],
        "gate a.c --base b.json",
        0,
        "0 diagnostics in a.c\n",
    ),
    (
        &[("a.c", DIVISION), ("b.json", EMPTY)],
        "gate a.c --base b.json",
        1,
        FOUND,
    ),
    (
        &[("a.c", DIVISION), ("b.json", "{}")],
        "gate a.c --base b.json",
        3,
        "ccheck: b.json: BaseShape\n",
    ),
    (
        &[("a.c", TWO), ("b.json", HALF)],
        "gate a.c --base b.json",
        1,
        LEFT,
    ),
    (
        &[("a.c", DIVISION), ("b.json", HELD)],
        "gate a.c --base b.json --format json --turns 3",
        0,
        "0 diagnostics in a.c\n",
    ),
    (&[("a.c", DIVISION)], "gate a.c", 3, REFUSED),
    (
        &[("a.c", DIVISION)],
        "gate a.c --base b.json",
        4,
        "ccheck: no file b.json\n",
    ),
    (&[], "gate a.c --base b.json", 4, "ccheck: no file a.c\n"),
    (
        &[("a.c", "int main(void){return @;}"), ("b.json", "{}")],
        "gate a.c --base b.json",
        2,
        "a.c:1:23: refused: BadByte\n",
    ),
];

#[test]
fn gates(rt: HostRuntime) -> Result<(), Fail> {
    answer_all(&rt, rt.alloc(), &GATES)
}

/// A baseline is refused behind the expansion and before the syntax of the unit.
const ORDERED: [Call; 3] = [
    (
        &[("a.c", "int x"), ("b.json", "{}")],
        "gate a.c --base b.json",
        3,
        "ccheck: b.json: BaseShape\n",
    ),
    (
        &[("a.c", "int x")],
        "gate a.c --base b.json",
        4,
        "ccheck: no file b.json\n",
    ),
    (
        &[("a.c", "int x"), ("b.json", EMPTY)],
        "gate a.c --base b.json",
        2,
        "a.c:1:1: refused: Syntax\n",
    ),
];

#[test]
fn a_baseline_is_read_behind_the_expansion(rt: HostRuntime) -> Result<(), Fail> {
    answer_all(&rt, rt.alloc(), &ORDERED)
}

#[test]
fn a_baseline_may_be_too_long(rt: HostRuntime) -> Result<(), Fail> {
    let alloc = rt.alloc();
    let bytes = vec![in alloc; b' '; 1_048_577]?;
    let mut setting = with_files(alloc, &[("a.c", DIVISION)])?;
    setting.tree.add("b.json", bytes.as_slice())?;
    let long = "b.json:1:1: limit: FileTooLong 1048577/1048576\n";
    answer(&rt, alloc, "gate a.c --base b.json", setting, 8, long)
}

/// Fails unless the gate answers so where this call of `read` fails.
fn fail_at(rt: &impl Abort, alloc: Global, at: u64, status: u8, text: &str) -> Result<(), Fail> {
    let mut list = Vec::new(alloc);
    list.push(at)?;
    let mut tree = MemTree::new(alloc, list);
    tree.add("a.c", DIVISION.as_bytes())?;
    tree.add("b.json", EMPTY.as_bytes())?;
    let told = call(
        alloc,
        "gate a.c --base b.json",
        Setting { tree, most: None },
    )?;
    assert!(rt; is(&told, status, text));
    Ok(())
}

#[test]
fn a_failed_read_of_a_baseline_puts_nothing(rt: HostRuntime) -> Result<(), Fail> {
    fail_at(&rt, rt.alloc(), 1, 5, "")?;
    fail_at(&rt, rt.alloc(), 2, 5, "")?;
    fail_at(&rt, rt.alloc(), 3, 1, FOUND)
}
