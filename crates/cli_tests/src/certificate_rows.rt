//! The certificates that `prove` prints, and what `verify` makes of them and of others.
use crate::call::{Call, NONE, Setting, answer, answer_all, call, is, with_files};
use cc_base::MemTree;
use std::alloc::Global;
use std::process::Abort;
use std::test::Fail;

const DIVISION: &str = "int main(void){int a=1;int b=0;return a/b;}";

const FOUND: &str = "a.c:1:40: diverr: division is undefined\n1 diagnostics in a.c\n";

const CERTIFICATE: &str = "ccheck-cert 1 2 4\nr 0\nu\n";

const LOOP: &str = "int main(void){int i;for(i=0;i<10;i++){}return 1/(i-10);}";

/// A loop over an array, which breaks no rule.
const FILLED: &str = "int main(void){int a[10];int i;for(i=0;i<10;i++)a[i]=i;return 0;}";

/// A certificate of the loop whose numbers are beyond those of int.
const WIDE: &str =
    "ccheck-cert 1 6 4\nr 0\nr 1\n0 v - 1 0 0 - - - 0 0 0\nr 3\n0 v -18446744073709551616:18446744073709551616 0 0 0 - - - 0 0 0\n1 v - 0 0 1 0:0 0:0 4:4 0 0 0\n2 v -18446744073709551616:18446744073709551616 0 0 0 - - - 0 0 0\nr 3\n0 v -18446744073709551616:18446744073709551616 0 0 0 - - - 0 0 0\n1 v -18446744073709551616:18446744073709551616 0 0 0 - - - 0 0 0\n2 v -18446744073709551616:18446744073709551616 0 0 0 - - - 0 0 0\nr 3\n0 v -18446744073709551616:18446744073709551616 0 0 0 - - - 0 0 0\n1 v -18446744073709551616:18446744073709551616 0 0 0 - - - 0 0 0\n2 v -18446744073709551616:18446744073709551616 0 0 0 - - - 0 0 0\nu\n";

const REFUSED: &str = "ccheck: words refused\n";

const PROOFS: [Call; 5] = [
    (&[("a.c", DIVISION)], "prove a.c", 0, CERTIFICATE),
    (
        &[("a.c", DIVISION)],
        "prove a.c --format json --turns 3 --cert c.txt",
        0,
        CERTIFICATE,
    ),
    (
        &[("a.c", LOOP)],
        "prove a.c",
        0,
        "ccheck-cert 1 6 4\nr 0\nr 1\n0 v - 1 0 0 - - - 0 0 0\nr 3\n0 v 0:10 0 0 0 - - - 0 0 0\n1 v - 0 0 1 0:0 0:0 4:4 0 0 0\n2 v 0:10 0 0 0 - - - 0 0 0\nr 3\n0 v 0:9 0 0 0 - - - 0 0 0\n1 v 0:1 0 0 0 - - - 0 0 0\n2 v 10:10 0 0 0 - - - 0 0 0\nr 3\n0 v 10:10 0 0 0 - - - 0 0 0\n1 v 0:1 0 0 0 - - - 0 0 0\n2 v 10:10 0 0 0 - - - 0 0 0\nu\n",
    ),
    (
        &[("a.c", "int x")],
        "prove a.c",
        2,
        "a.c:1:1: refused: Syntax\n",
    ),
    (&[], "prove a.c", 4, "ccheck: no file a.c\n"),
];

#[test]
fn proofs(rt: HostRuntime) -> Result<(), Fail> {
    answer_all(&rt, rt.alloc(), &PROOFS)
}

const CHECKS: [Call; 10] = [
    (
        &[("a.c", DIVISION), ("c.txt", CERTIFICATE)],
        "verify a.c --cert c.txt",
        1,
        FOUND,
    ),
    (
        &[("a.c", DIVISION), ("c.txt", CERTIFICATE)],
        "verify a.c --cert c.txt --format json --turns 3",
        1,
        FOUND,
    ),
    (
        &[("a.c", LOOP), ("c.txt", WIDE)],
        "verify a.c --cert c.txt",
        1,
        "a.c:1:36: intoflow: signed result is out of range\na.c:1:49: diverr: division is undefined\na.c:1:52: intoflow: signed result is out of range\n3 diagnostics in a.c\n",
    ),
    (
        &[("a.c", DIVISION), ("c.txt", "ccheck-cert 1 2 4\nu\nu\n")],
        "verify a.c --cert c.txt",
        9,
        "c.txt: refused: Start\n",
    ),
    (
        &[("a.c", DIVISION), ("c.txt", "")],
        "verify a.c --cert c.txt",
        9,
        "c.txt: refused: Form 1\n",
    ),
    (&[("a.c", DIVISION)], "verify a.c", 3, REFUSED),
    (
        &[("a.c", DIVISION)],
        "verify a.c --cert c.txt",
        4,
        "ccheck: no file c.txt\n",
    ),
    (
        &[("a.c", "int x")],
        "verify a.c --cert c.txt",
        4,
        "ccheck: no file c.txt\n",
    ),
    (
        &[("a.c", "int x"), ("c.txt", "")],
        "verify a.c --cert c.txt",
        2,
        "a.c:1:1: refused: Syntax\n",
    ),
    (
        &[("c.txt", CERTIFICATE)],
        "verify a.c --cert c.txt",
        4,
        "ccheck: no file a.c\n",
    ),
];

#[test]
fn what_a_certificate_shows_is_printed(rt: HostRuntime) -> Result<(), Fail> {
    answer_all(&rt, rt.alloc(), &CHECKS)
}

/// Texts for the loop, and what is wrong with each.
const FAULTS: [(&str, &str); 16] = [
    ("ccheck-cert 1 6 4", "Form 1"),
    ("ccheck-cert 1 6 5\n", "Form 1"),
    ("ccheck-cert 1 6 4\n", "Form 2"),
    ("ccheck-cert 1 6 4\nu\n", "Form 3"),
    ("ccheck-cert 1 6 4\nr 5\n", "Form 2"),
    ("ccheck-cert 1 6 4\nr 01\n", "Form 2"),
    (
        "ccheck-cert 1 6 4\nr 4\n1 v - 1 0 0 - - - 0 0 0\n",
        "Form 3",
    ),
    (
        "ccheck-cert 1 6 4\nr 1\n0 v - 0 0 0 - - - 0 0 0\n",
        "Form 3",
    ),
    (
        "ccheck-cert 1 6 4\nr 1\n0 v 0:18446744073709551617 0 0 0 - - - 0 0 0\n",
        "Form 3",
    ),
    (
        "ccheck-cert 1 6 4\nr 1\n0 v -18446744073709551616:18446744073709551616 0 0 0 - - - 0 0 0\n",
        "Form 4",
    ),
    (
        "ccheck-cert 1 6 4\nr 1\n0 v 0:1 0 0 1 -1:0 0:0 4:4 0 0 0\n",
        "Form 4",
    ),
    (
        "ccheck-cert 1 6 4\nr 1\n0 v 0:1 0 0 2 0:0 0:0 4:4 0 0 0\n",
        "Form 3",
    ),
    (
        "ccheck-cert 1 6 4\nr 1\n0 v 0:1 0 0 0 - - - 1 0 0\n",
        "Form 3",
    ),
    ("ccheck-cert 1 6 4\nr 1\n0 z 0:1\n", "Form 3"),
    ("ccheck-cert 1 6 4\nu\nu\nu\nu\nu\nu\n\n", "Form 8"),
    ("ccheck-cert 1 6 4\nu\nu\nu\nu\nu\nu\n", "Start"),
];

/// Fails unless the text is refused for the loop with this reason.
fn refuse(rt: &impl Abort, alloc: Global, text: &str, reason: &str) -> Result<(), Fail> {
    let setting = with_files(alloc, &[("a.c", LOOP), ("c.txt", text)])?;
    let line = format!(in alloc; "c.txt: refused: {reason}\n")?;
    answer(
        rt,
        alloc,
        "verify a.c --cert c.txt",
        setting,
        9,
        line.as_str(),
    )
}

#[test]
fn faults(rt: HostRuntime) -> Result<(), Fail> {
    for (text, reason) in &FAULTS {
        refuse(&rt, rt.alloc(), text, reason)?;
    }
    Ok(())
}

/// The certificate of the loop, where the head has other numbers.
fn with_head(alloc: Global, first: &str, last: &str) -> Result<String, Fail> {
    let text = format!(in alloc;
        "ccheck-cert 1 6 4\nr 0\nr 1\n0 v - 1 0 0 - - - 0 0 0\nr 3\n0 v {first} 0 0 0 - - - 0 0 0\n1 v - 0 0 1 0:0 0:0 4:4 0 0 0\n2 v {last} 0 0 0 - - - 0 0 0\nr 3\n0 v 0:9 0 0 0 - - - 0 0 0\n1 v 0:1 0 0 0 - - - 0 0 0\n2 v 10:10 0 0 0 - - - 0 0 0\nr 3\n0 v 10:10 0 0 0 - - - 0 0 0\n1 v 0:1 0 0 0 - - - 0 0 0\n2 v 10:10 0 0 0 - - - 0 0 0\nu\n"
    )?;
    Ok(text)
}

#[test]
fn open_edges(rt: HostRuntime) -> Result<(), Fail> {
    let alloc = rt.alloc();
    refuse(
        &rt,
        alloc,
        with_head(alloc, "0:9", "0:10")?.as_str(),
        "Edge 4",
    )?;
    refuse(
        &rt,
        alloc,
        with_head(alloc, "0:12", "0:12")?.as_str(),
        "Edge 3",
    )
}

/// Fails unless what `prove` prints is accepted with this report.
fn accept(
    rt: &impl Abort,
    alloc: Global,
    source: &str,
    status: u8,
    text: &str,
) -> Result<(), Fail> {
    let proved = call(alloc, "prove a.c", with_files(alloc, &[("a.c", source)])?)?;
    let mut setting = with_files(alloc, &[("a.c", source)])?;
    setting.tree.add("c.txt", proved.text.as_slice())?;
    answer(rt, alloc, "verify a.c --cert c.txt", setting, status, text)
}

#[test]
fn proofs_are_accepted(rt: HostRuntime) -> Result<(), Fail> {
    let alloc = rt.alloc();
    accept(&rt, alloc, DIVISION, 1, FOUND)?;
    accept(
        &rt,
        alloc,
        LOOP,
        1,
        "a.c:1:49: diverr: division is undefined\n1 diagnostics in a.c\n",
    )?;
    accept(&rt, alloc, FILLED, 0, NONE)
}

/// A unit of 100 arrays of 8 and 60 loops.
fn large(alloc: Global) -> Result<String, Fail> {
    let mut text = String::from_str(alloc, "int main(void){")?;
    for at in 0..100 {
        let array = format!(in alloc; "int v{at}[8];")?;
        text.push_str(array.as_str())?;
    }
    text.push_str("int i=0;")?;
    for _at in 0..60 {
        text.push_str("while(i<9)i++;")?;
    }
    text.push_str("return 0;}")?;
    Ok(text)
}

#[test]
fn a_certificate_may_be_too_long(rt: HostRuntime) -> Result<(), Fail> {
    let alloc = rt.alloc();
    let unit = large(alloc)?;
    let setting = with_files(alloc, &[("a.c", unit.as_str())])?;
    let line = "a.c:1:1: limit: CertTooLong 1288535/1048576\n";
    answer(&rt, alloc, "prove a.c", setting, 8, line)
}

/// Fails unless `verify` answers so where this call of `read` fails.
fn fail_at(rt: &impl Abort, alloc: Global, at: u64, status: u8, text: &str) -> Result<(), Fail> {
    let mut list = Vec::new(alloc);
    list.push(at)?;
    let mut tree = MemTree::new(alloc, list);
    tree.add("a.c", DIVISION.as_bytes())?;
    tree.add("c.txt", CERTIFICATE.as_bytes())?;
    let told = call(
        alloc,
        "verify a.c --cert c.txt",
        Setting { tree, most: None },
    )?;
    assert!(rt; is(&told, status, text));
    Ok(())
}

#[test]
fn a_failed_read_of_a_certificate_puts_nothing(rt: HostRuntime) -> Result<(), Fail> {
    fail_at(&rt, rt.alloc(), 1, 5, "")?;
    fail_at(&rt, rt.alloc(), 2, 5, "")?;
    fail_at(&rt, rt.alloc(), 3, 1, FOUND)
}
