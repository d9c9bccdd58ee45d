//! What a run that violates a rule tells of it, and runs that end without a line.
use crate::runs::replay_call::{answer, with_files};
use std::alloc::Global;
use std::process::Abort;
use std::test::Fail;

/// A unit, its draws, and what is told of its run, which has status 1.
type Violating<'a> = (&'a str, &'a str, &'a str);

/// Each rule on runs but those of `replay_rows`; then values that a library function gives here, by a division that is
/// undefined with them alone.
const VIOLATING: [Violating<'static>; 15] = [
    (
        "#include <stdlib.h>\nint main(void){char*p=malloc(4);if(p==NULL)return 1;free(p);*p=1;return 0;}",
        "1",
        "a.c:2:61: accfree: freed memory is used\na.c:2:62: accfree: freed memory is used\nend: violation, 1 draws used\n2 diagnostics in a.c\n",
    ),
    (
        "#include <ctype.h>\nint main(void){return toupper(256);}",
        "",
        "a.c:2:23: chrsgnext: character argument is out of range\nend: violation, 0 draws used\n1 diagnostics in a.c\n",
    ),
    (
        "#include <stdlib.h>\nint main(void){char*p=malloc(4);free(p);free(p);return 0;}",
        "1",
        "a.c:2:41: dblfree: memory is freed twice\na.c:2:46: accfree: freed memory is used\nend: violation, 1 draws used\n2 diagnostics in a.c\n",
    ),
    (
        "int main(void){int a=2147483647;return a+1;}",
        "",
        "a.c:1:41: intoflow: signed result is out of range\nend: violation, 0 draws used\n1 diagnostics in a.c\n",
    ),
    (
        "#include <string.h>\nint main(void){char d[4];strcpy(d,\"abcd\");return 0;}",
        "",
        "a.c:2:26: libptr: library call passes the end of an object\nend: violation, 0 draws used\n1 diagnostics in a.c\n",
    ),
    (
        "#include <string.h>\nint main(void){char d[4];return (int)strlen(d);}",
        "",
        "a.c:2:38: nonnullcs: string has no terminating zero\nend: violation, 0 draws used\n1 diagnostics in a.c\n",
    ),
    (
        "int main(void){int a[2];int b[2];return &a[0]<&b[0];}",
        "",
        "a.c:1:46: ptrobj: pointers into different objects\nend: violation, 0 draws used\n1 diagnostics in a.c\n",
    ),
    (
        "int main(void){char*s=\"abc\";s[0]='x';return 0;}",
        "",
        "a.c:1:30: strmod: string literal is modified\nend: violation, 0 draws used\n1 diagnostics in a.c\n",
    ),
    (
        "#include <stdio.h>\nint main(void){int t[256]={0};return t[getchar()];}",
        "65",
        "a.c:2:39: taintsink: tainted value reaches a sink\nend: ended, 1 draws used\n1 diagnostics in a.c\n",
    ),
    (
        "#include <stdio.h>\nint main(void){int t[256]={0};return t[getchar()];}",
        "-1",
        "a.c:2:39: invptr: pointer is out of bounds\na.c:2:39: taintsink: tainted value reaches a sink\nend: violation, 1 draws used\n2 diagnostics in a.c\n",
    ),
    (
        "int main(void){int x;return x;}",
        "",
        "a.c:1:29: uninitref: uninitialized memory is read\nend: violation, 0 draws used\n1 diagnostics in a.c\n",
    ),
    (
        "#include <stdlib.h>\nint main(void){int a[2];free(a);return 0;}",
        "",
        "a.c:2:25: xfree: memory was not allocated\nend: violation, 0 draws used\n1 diagnostics in a.c\n",
    ),
    (
        "#include <ctype.h>\nint main(void){return 1/(isdigit(55)-1);}",
        "",
        "a.c:2:24: diverr: division is undefined\nend: violation, 0 draws used\n1 diagnostics in a.c\n",
    ),
    (
        "#include <string.h>\nint main(void){return 1/(strcmp(\"a\",\"z\")+1);}",
        "",
        "a.c:2:24: diverr: division is undefined\nend: violation, 0 draws used\n1 diagnostics in a.c\n",
    ),
    (
        "#include <stdio.h>\nint main(void){return 1/puts(\"x\");}",
        "",
        "a.c:2:24: diverr: division is undefined\nend: violation, 0 draws used\n1 diagnostics in a.c\n",
    ),
];

/// Units in whose run a step has no rule that it violates, and no defined outcome here: an indeterminate byte that is
/// read as an unsigned character, a byte of a pointer that is read as a character, a pointer that is copied to where
/// characters lie, regions that overlap, a line without room, and a number of another type. Behind it nothing is told.
const LEAVING: [&str; 6] = [
    "int main(void){unsigned char c;return c/0;}",
    "int main(void){int x=0;int*p=&x;return *(unsigned char*)&p/x;}",
    "#include <string.h>\nint main(void){int x=0;int*p=&x;char b[8];memcpy(b,&p,sizeof b);return 1/x;}",
    "#include <string.h>\nint main(void){char b[4]=\"abc\";memcpy(b,b+1,2);return 1/0;}",
    "#include <stdio.h>\nint main(void){char b[4];fgets(b,0,stdin);return 1/0;}",
    "int main(void){long x=0;int*p=(int*)&x;return *p/0;}",
];

/// Fails unless the run of the unit over the draws is told so.
pub(crate) fn run_tells(
    rt: &impl Abort,
    alloc: Global,
    source: &str,
    draws: &str,
    status: u8,
    text: &str,
) -> Result<(), Fail> {
    let tree = with_files(alloc, Vec::new(alloc), &[("a.c", source), ("d", draws)])?;
    answer(rt, alloc, "replay a.c --draws d", tree, status, text)
}

#[test]
fn violations_are_told(rt: HostRuntime) -> Result<(), Fail> {
    for (source, draws, text) in &VIOLATING {
        run_tells(&rt, rt.alloc(), source, draws, 1, text)?;
    }
    Ok(())
}

#[test]
fn runs_that_leave_end_without_a_line(rt: HostRuntime) -> Result<(), Fail> {
    for source in &LEAVING {
        run_tells(
            &rt,
            rt.alloc(),
            source,
            "",
            0,
            "end: left, 0 draws used\n0 diagnostics in a.c\n",
        )?;
    }
    Ok(())
}
