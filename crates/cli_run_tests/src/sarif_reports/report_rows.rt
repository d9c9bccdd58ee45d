//! Whole reports, and what they say is known.
use crate::sarif_reports::results::{Found, baseline_text, diagnostics, names};
use cc_base::Rule;
use sarif::write_sarif;
use std::alloc::Global;
use std::process::Abort;
use std::test::Fail;

const FILES: [&str; 4] = ["a.c", "inc/b c.h", "d%+:\\\u{e9}\u{7f}.c", "Az09-._~/"];

/// Diagnostics, their report, and what the report says is known.
const REPORTS: [(&[Found], &str, &str); 3] = [
    (
        &[],
        "{\"runs\":[{\"results\":[],\"tool\":{\"driver\":{\"name\":\"ccheck\"}}}],\"version\":\"2.1.0\"}\n",
        "",
    ),
    (
        &[(0, 1, 40, Rule::Diverr)],
        "{\"runs\":[{\"results\":[{\"locations\":[{\"physicalLocation\":{\"artifactLocation\":{\"uri\":\"a.c\"},\"region\":{\"startColumn\":40,\"startLine\":1}}}],\"message\":{\"text\":\"division is undefined\"},\"ruleId\":\"diverr\"}],\"tool\":{\"driver\":{\"name\":\"ccheck\"}}}],\"version\":\"2.1.0\"}\n",
        "a.c:1:40:diverr ",
    ),
    (
        &[
            (1, 2, 3, Rule::Accfree),
            (2, 4294967295, 1, Rule::Xfree),
            (3, 7, 4294967295, Rule::Swtchdflt),
        ],
        "{\"runs\":[{\"results\":[{\"locations\":[{\"physicalLocation\":{\"artifactLocation\":{\"uri\":\"inc/b%20c.h\"},\"region\":{\"startColumn\":3,\"startLine\":2}}}],\"message\":{\"text\":\"freed memory is used\"},\"ruleId\":\"accfree\"},{\"locations\":[{\"physicalLocation\":{\"artifactLocation\":{\"uri\":\"d%25%2B%3A%5C%C3%A9%7F.c\"},\"region\":{\"startColumn\":1,\"startLine\":4294967295}}}],\"message\":{\"text\":\"memory was not allocated\"},\"ruleId\":\"xfree\"},{\"locations\":[{\"physicalLocation\":{\"artifactLocation\":{\"uri\":\"Az09-._~/\"},\"region\":{\"startColumn\":4294967295,\"startLine\":7}}}],\"message\":{\"text\":\"switch has no default\"},\"ruleId\":\"swtchdflt\"}],\"tool\":{\"driver\":{\"name\":\"ccheck\"}}}],\"version\":\"2.1.0\"}\n",
        "inc/b c.h:2:3:accfree d%+:\\\u{e9}\u{7f}.c:4294967295:1:xfree Az09-._~/:7:4294967295:swtchdflt ",
    ),
];

/// Fails unless the diagnostics have this report, and the report says that these are known.
fn expect_report(
    rt: &impl Abort,
    alloc: Global,
    found: &[Found],
    report: &str,
    known: &str,
) -> Result<(), Fail> {
    let files = names(alloc, &FILES)?;
    let diags = diagnostics(alloc, found)?;
    let written = write_sarif(alloc, files.as_slice(), diags.as_slice())?;
    let text = str::from_utf8(written.as_slice()).unwrap_or("?");
    assert!(rt; text == report, "{text}");
    let read = baseline_text(alloc, written.as_slice())?;
    assert!(rt; read.as_str() == known, "{read}");
    Ok(())
}

/// Fails unless each row holds.
fn expect_reports(rt: &impl Abort, alloc: Global) -> Result<(), Fail> {
    for (found, report, known) in &REPORTS {
        expect_report(rt, alloc, found, report, known)?;
    }
    Ok(())
}

#[test]
fn reports_are_written_and_read_back(rt: HostRuntime) -> Result<(), Fail> {
    expect_reports(&rt, rt.alloc())
}
