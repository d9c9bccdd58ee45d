//! What the analysis and the run tell of units that are plain, or but for their loops or for casts of pointers.
use crate::runs::replay_call::{answer, with_files};
use crate::runs::run_rows::run_tells;
use std::alloc::Global;
use std::process::Abort;
use std::test::Fail;

/// A unit, and the texts of its analysis and of its run.
type Plain<'a> = (&'a str, &'a str, &'a str);

/// Structs that are copied by an assignment and by an initializer; each access is of what lies there, and both tell the
/// same, also with turns unrolled, of which there are none.
const COPYING: [Plain<'static>; 3] = [
    (
        "struct s{int a;int b;};int main(void){struct s x={3,0};struct s y;y=x;return x.a/y.b;}",
        "a.c:1:81: diverr: division is undefined\n1 diagnostics in a.c\n",
        "a.c:1:81: diverr: division is undefined\nend: violation, 0 draws used\n1 diagnostics in a.c\n",
    ),
    (
        "struct s{int a;int b;};int main(void){struct s x={3,0};struct s y=x;return 1/y.b;}",
        "a.c:1:77: diverr: division is undefined\n1 diagnostics in a.c\n",
        "a.c:1:77: diverr: division is undefined\nend: violation, 0 draws used\n1 diagnostics in a.c\n",
    ),
    (
        "struct s{int a;int b;};int main(void){struct s x={3,0};struct s*p=&x;struct s y;y=*p;y.a=y.a-3;return 1/y.a+1/x.a;}",
        "a.c:1:104: diverr: division is undefined\n1 diagnostics in a.c\n",
        "a.c:1:104: diverr: division is undefined\nend: violation, 0 draws used\n1 diagnostics in a.c\n",
    ),
];

/// An access that is of another type than what lies there, or a copy between places that overlap in part (6.5.16.1 of
/// ISO/IEC 9899:2011): the analysis tells lines that the run does not violate.
const UNTYPED: [Plain<'static>; 3] = [
    (
        "int main(void){int x=1;unsigned char*p=(unsigned char*)&x;return 1/p[0];}",
        "a.c:1:67: diverr: division is undefined\n1 diagnostics in a.c\n",
        "end: ended, 0 draws used\n0 diagnostics in a.c\n",
    ),
    (
        "int main(void){int x=1;char*p=(char*)&x;p[0]=2;return 1/(x-1);}",
        "a.c:1:56: diverr: division is undefined\na.c:1:59: intoflow: signed result is out of range\n2 diagnostics in a.c\n",
        "end: ended, 0 draws used\n0 diagnostics in a.c\n",
    ),
    (
        "struct s{int x;int y;};int main(void){int v[3]={1,2,0};*(struct s*)(v+1)=*(struct s*)v;return 1/(v[0]-1);}",
        "a.c:1:96: diverr: division is undefined\n1 diagnostics in a.c\n",
        "end: left, 0 draws used\n0 diagnostics in a.c\n",
    ),
];

/// A unit with loops, and the texts of its analysis, of that with four turns unrolled, and of its run; the status of the
/// last two.
type Looped<'a> = (&'a str, &'a str, &'a str, &'a str, u8);

/// Units whose run ends within four turns: with those unrolled the analysis tells what the run violates, and nothing more.
const LOOPED: [Looped<'static>; 3] = [
    (
        "int main(void){int s=0;int i;for(i=0;i<3;i++)s=s+i;return 1/(s-2);}",
        "a.c:1:49: intoflow: signed result is out of range\na.c:1:60: diverr: division is undefined\n2 diagnostics in a.c\n",
        "0 diagnostics in a.c\n",
        "end: ended, 0 draws used\n0 diagnostics in a.c\n",
        0,
    ),
    (
        "int main(void){int a[3];int i;for(i=0;i<3;i++)a[i]=i-2;return 1/a[2];}",
        "a.c:1:64: diverr: division is undefined\na.c:1:66: uninitref: uninitialized memory is read\n2 diagnostics in a.c\n",
        "a.c:1:64: diverr: division is undefined\n1 diagnostics in a.c\n",
        "a.c:1:64: diverr: division is undefined\nend: violation, 0 draws used\n1 diagnostics in a.c\n",
        1,
    ),
    (
        "int main(void){int n=3;again:n=n-1;if(n)goto again;return 1/n;}",
        "a.c:1:60: diverr: division is undefined\n1 diagnostics in a.c\n",
        "a.c:1:60: diverr: division is undefined\n1 diagnostics in a.c\n",
        "a.c:1:60: diverr: division is undefined\nend: violation, 0 draws used\n1 diagnostics in a.c\n",
        1,
    ),
];

/// Fails unless the words, on the unit, are answered so.
fn check_tells(
    rt: &impl Abort,
    alloc: Global,
    words: &str,
    source: &str,
    status: u8,
    text: &str,
) -> Result<(), Fail> {
    let tree = with_files(alloc, Vec::new(alloc), &[("a.c", source)])?;
    answer(rt, alloc, words, tree, status, text)
}

#[test]
fn copies_of_structs_are_told_as_they_run(rt: HostRuntime) -> Result<(), Fail> {
    for (source, analysed, run) in &COPYING {
        check_tells(&rt, rt.alloc(), "check a.c", source, 1, analysed)?;
        check_tells(&rt, rt.alloc(), "check a.c --turns 2", source, 1, analysed)?;
        run_tells(&rt, rt.alloc(), source, "", 1, run)?;
    }
    Ok(())
}

#[test]
fn accesses_of_another_type_have_lines_that_no_run_has(rt: HostRuntime) -> Result<(), Fail> {
    for (source, analysed, run) in &UNTYPED {
        check_tells(&rt, rt.alloc(), "check a.c", source, 1, analysed)?;
        run_tells(&rt, rt.alloc(), source, "", 0, run)?;
    }
    Ok(())
}

#[test]
fn loops_within_the_turns_are_told_as_they_run(rt: HostRuntime) -> Result<(), Fail> {
    for (source, analysed, unrolled, run, status) in &LOOPED {
        check_tells(&rt, rt.alloc(), "check a.c", source, 1, analysed)?;
        check_tells(
            &rt,
            rt.alloc(),
            "check a.c --turns 4",
            source,
            *status,
            unrolled,
        )?;
        run_tells(&rt, rt.alloc(), source, "", *status, run)?;
    }
    Ok(())
}
