//! Reports as SARIF, and words with the options of other verbs.
use crate::call::{Call, answer_all};
use std::test::Fail;

const DIVISION: &str = "int main(void){int a=1;int b=0;return a/b;}";

const FOUND: &str = "a.c:1:40: diverr: division is undefined\n1 diagnostics in a.c\n";

const REFUSED: &str = "ccheck: words refused\n";

const REPORTS: [Call; 3] = [
    (
        &[("a.c", DIVISION)],
        "check a.c --format sarif",
        1,
        "{\"runs\":[{\"results\":[{\"locations\":[{\"physicalLocation\":{\"artifactLocation\":{\"uri\":\"a.c\"},\"region\":{\"startColumn\":40,\"startLine\":1}}}],\"message\":{\"text\":\"division is undefined\"},\"ruleId\":\"diverr\"}],\"tool\":{\"driver\":{\"name\":\"ccheck\"}}}],\"version\":\"2.1.0\"}\n",
    ),
    (
        &[("a b.c", DIVISION), ("h.h", "#include \"a b.c\"\n")],
        "check h.h --format sarif",
        1,
        "{\"runs\":[{\"results\":[{\"locations\":[{\"physicalLocation\":{\"artifactLocation\":{\"uri\":\"a%20b.c\"},\"region\":{\"startColumn\":40,\"startLine\":1}}}],\"message\":{\"text\":\"division is undefined\"},\"ruleId\":\"diverr\"}],\"tool\":{\"driver\":{\"name\":\"ccheck\"}}}],\"version\":\"2.1.0\"}\n",
    ),
    (
        &[("a.c", "int main(void){return 0;}")],
        "check a.c --format sarif",
        0,
        "{\"runs\":[{\"results\":[],\"tool\":{\"driver\":{\"name\":\"ccheck\"}}}],\"version\":\"2.1.0\"}\n",
    ),
];

#[test]
fn reports_as_sarif(rt: HostRuntime) -> Result<(), Fail> {
    answer_all(&rt, rt.alloc(), &REPORTS)
}

/// Options that `check` does not use are read for their form alone.
const UNUSED: [Call; 5] = [
    (
        &[("a.c", DIVISION)],
        "check a.c --base b.json --cert c.txt --draws d.txt --steps 0",
        1,
        FOUND,
    ),
    (&[("a.c", DIVISION)], "check a.c --steps 1000000", 1, FOUND),
    (
        &[("a.c", DIVISION)],
        "check a.c --steps 1000001",
        3,
        REFUSED,
    ),
    (&[("a.c", DIVISION)], "check a.c --base", 3, REFUSED),
    (&[("a.c", DIVISION)], "check a.c --format xml", 3, REFUSED),
];

#[test]
fn options_of_other_verbs(rt: HostRuntime) -> Result<(), Fail> {
    answer_all(&rt, rt.alloc(), &UNUSED)
}
