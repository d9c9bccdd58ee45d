//! What a baseline does not hold.
use crate::sarif_reports::results::{Found, diagnostics, names};
use cc_base::{Diag, Rule};
use sarif::{fresh, read_sarif, write_sarif};
use std::alloc::Global;
use std::process::Abort;
use std::test::Fail;

const FILES: [&str; 3] = ["a.c", "b.h", "c.h"];

const ALL: [Found; 5] = [
    (0, 1, 40, Rule::Diverr),
    (0, 1, 41, Rule::Diverr),
    (0, 2, 40, Rule::Diverr),
    (0, 2, 40, Rule::Intoflow),
    (1, 1, 40, Rule::Diverr),
];

/// What a baseline holds, and what of all diagnostics is fresh behind it.
const ROWS: [(&[Found], &[Found]); 5] = [
    (&[], &ALL),
    (&ALL, &[]),
    (
        &[
            (0, 2, 40, Rule::Intoflow),
            (0, 1, 40, Rule::Diverr),
            (0, 2, 40, Rule::Intoflow),
        ],
        &[
            (0, 1, 41, Rule::Diverr),
            (0, 2, 40, Rule::Diverr),
            (1, 1, 40, Rule::Diverr),
        ],
    ),
    (
        &[
            (2, 1, 40, Rule::Diverr),
            (1, 1, 40, Rule::Xfree),
            (1, 40, 1, Rule::Diverr),
        ],
        &ALL,
    ),
    (
        &[(1, 1, 40, Rule::Diverr)],
        &[
            (0, 1, 40, Rule::Diverr),
            (0, 1, 41, Rule::Diverr),
            (0, 2, 40, Rule::Diverr),
            (0, 2, 40, Rule::Intoflow),
        ],
    ),
];

/// What is fresh of some diagnostics behind the report of others.
fn fresh_behind(
    alloc: Global,
    files: &[&str],
    held: &[Found],
    found: &[Found],
) -> Result<Vec<Diag>, Fail> {
    let files = names(alloc, files)?;
    let before = diagnostics(alloc, held)?;
    let report = write_sarif(alloc, files.as_slice(), before.as_slice())?;
    let Ok(known) = read_sarif(alloc, report.as_slice()) else {
        return Ok(before);
    };
    let diags = diagnostics(alloc, found)?;
    Ok(fresh(alloc, files.as_slice(), diags.as_slice(), known.as_slice())?)
}

/// Fails unless each row holds.
fn expect_fresh(rt: &impl Abort, alloc: Global) -> Result<(), Fail> {
    for (held, wanted) in &ROWS {
        let found = fresh_behind(alloc, &FILES, held, &ALL)?;
        let list = diagnostics(alloc, wanted)?;
        assert!(rt; found == list, "{found:?}");
    }
    Ok(())
}

#[test]
fn what_no_result_has_is_fresh(rt: HostRuntime) -> Result<(), Fail> {
    expect_fresh(&rt, rt.alloc())
}

const UNNAMED: [Found; 2] = [(0, 1, 1, Rule::Diverr), (1, 1, 1, Rule::Diverr)];

#[test]
fn a_file_without_a_name_is_known_by_nothing(rt: HostRuntime) -> Result<(), Fail> {
    let found = fresh_behind(rt.alloc(), &[""], &UNNAMED, &UNNAMED)?;
    let wanted = diagnostics(rt.alloc(), &UNNAMED[1..])?;
    assert!(rt; found == wanted, "{found:?}");
    Ok(())
}
