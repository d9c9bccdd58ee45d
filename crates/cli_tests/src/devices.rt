//! Reads and writes that fail.
use crate::call::{Setting, Told, call, is};
use cc_base::MemTree;
use std::alloc::Global;
use std::test::Fail;

/// A setting whose only file is `a.c`, where the call `fail` of `read` fails, or none for 0, and the
/// sink takes `most` bytes.
fn failing(alloc: Global, fail: u64, most: Option<usize>) -> Result<Setting, Fail> {
    let mut list = Vec::new(alloc);
    list.push(fail)?;
    let mut tree = MemTree::new(alloc, list);
    tree.add("a.c", b"int main(void){return 0;}")?;
    Ok(Setting { tree, most })
}

#[test]
fn a_failed_read_puts_nothing(rt: HostRuntime) -> Result<(), Fail> {
    let told = call(rt.alloc(), "check a.c", failing(rt.alloc(), 1, None)?)?;
    assert!(rt; is(&told, 5, ""));
    let later = call(rt.alloc(), "check a.c", failing(rt.alloc(), 2, None)?)?;
    assert!(rt; is(&later, 0, "0 diagnostics in a.c\n"));
    Ok(())
}

#[test]
fn a_failed_write_puts_a_prefix(rt: HostRuntime) -> Result<(), Fail> {
    let whole = "0 diagnostics in a.c\n";
    for most in 0..whole.len() {
        let told = call(rt.alloc(), "check a.c", failing(rt.alloc(), 0, Some(most))?)?;
        assert_eq!(rt; told.status, 6);
        assert!(rt; told.text.as_slice() == whole.as_bytes().split_at(most).0);
    }
    Ok(())
}

/// A unit with four headers, one of which is found in the second place that is searched.
fn including(alloc: Global, fail: u64) -> Result<Told, Fail> {
    let mut list = Vec::new(alloc);
    list.push(fail)?;
    let mut tree = MemTree::new(alloc, list);
    let unit = b"#include <stdio.h>\n#include \"util.h\"\nint main(void){return N;}\n";
    tree.add("main.c", unit)?;
    tree.add("inc/util.h", b"#define N 0\n")?;
    call(alloc, "check main.c inc", Setting { tree, most: None })
}

#[test]
fn each_failed_read_of_a_header_counts(rt: HostRuntime) -> Result<(), Fail> {
    for fail in 1..5 {
        let told = including(rt.alloc(), fail)?;
        assert!(rt; is(&told, 5, ""));
    }
    let told = including(rt.alloc(), 5)?;
    assert!(rt; is(&told, 0, "0 diagnostics in main.c\n"));
    Ok(())
}
