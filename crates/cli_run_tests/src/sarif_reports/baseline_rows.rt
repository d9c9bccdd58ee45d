//! What reports say is known.
use crate::sarif_reports::results::expect_known;
use std::test::Fail;

/// Bytes that are no report.
const SHAPES: [(&str, &str); 15] = [
    ("", "shape"),
    ("{", "shape"),
    ("{}", "shape"),
    ("[]", "shape"),
    ("\"2.1.0\"", "shape"),
    ("{\"version\":\"2.1.0\"}", "shape"),
    ("{\"runs\":[]}", "shape"),
    ("{\"version\":\"2.1.1\",\"runs\":[]}", "shape"),
    ("{\"version\":2.1,\"runs\":[]}", "shape"),
    ("{\"version\":\"2.1.0\",\"runs\":{}}", "shape"),
    ("{\"version\":\"2.1.0\",\"runs\":null}", "shape"),
    ("{\"version\":\"2.1.0\",\"runs\":[]} x", "shape"),
    (
        "{\"version\":\"2.1.0\",\"version\":\"2.0.0\",\"runs\":[]}",
        "shape",
    ),
    ("{\"version\":\"2.1.0\",\"runs\":[1e999]}", "shape"),
    (
        "{\"version\":\"2.1.0\",\"runs\":[],\"more\":[[[[[[[[[[[[[[[[[[[[[[[[[[[[[[[[[[[[[[[[[[[[[[[[[[[[[[[[[[[[[[[[[[[[[[[[[[[[[[[[[[[[[[[[[[[[[[[[[[[[[[[[[[[[[[[[[[[[[[[[[[[[[[[]]]]]]]]]]]]]]]]]]]]]]]]]]]]]]]]]]]]]]]]]]]]]]]]]]]]]]]]]]]]]]]]]]]]]]]]]]]]]]]]]]]]]]]]]]]]]]]]]]]]]]]]]]]]]]]]]]]]]]]]]]]]]]]}",
        "shape",
    ),
];

#[test]
fn what_is_no_report(rt: HostRuntime) -> Result<(), Fail> {
    expect_known(&rt, rt.alloc(), &SHAPES)
}

/// Members of one name, of which the last one counts, and numbers that no float holds.
const REPEATED: [(&str, &str); 10] = [
    (
        "{\"version\":\"2.1.0\",\"runs\":[{\"results\":[{\"ruleId\":\"diverr\",\"locations\":[{\"physicalLocation\":{\"artifactLocation\":{\"uri\":\"a.c\"},\"region\":{\"startLine\":1,\"startColumn\":40}}}]}],\"results\":[{\"ruleId\":\"diverr\",\"locations\":[{\"physicalLocation\":{\"artifactLocation\":{\"uri\":\"a.c\"},\"region\":{\"startLine\":2,\"startColumn\":40}}}]}]}]}",
        "a.c:2:40:diverr ",
    ),
    (
        "{\"version\":\"2.1.0\",\"runs\":[{\"results\":[{\"ruleId\":\"diverr\",\"locations\":[{\"physicalLocation\":{\"artifactLocation\":{\"uri\":\"a.c\"},\"region\":{\"startLine\":1,\"startColumn\":40}}}]}],\"res\\u0075lts\":[{\"ruleId\":\"diverr\",\"locations\":[{\"physicalLocation\":{\"artifactLocation\":{\"uri\":\"a.c\"},\"region\":{\"startLine\":2,\"startColumn\":40}}}]}]}]}",
        "a.c:2:40:diverr ",
    ),
    (
        "{\"version\":\"2.1.0\",\"runs\":[{\"results\":[{\"ruleId\":\"diverr\",\"locations\":[{\"physicalLocation\":{\"artifactLocation\":{\"uri\":\"a.c\"},\"region\":{\"startLine\":1,\"startColumn\":40}}}]}],\"results\":3}]}",
        "",
    ),
    (
        "{\"version\":\"2.1.0\",\"runs\":[{\"results\":[{\"ruleId\":\"diverr\",\"locations\":[{\"physicalLocation\":{\"artifactLocation\":{\"uri\":\"a.c\"},\"region\":{\"startLine\":1,\"startColumn\":40}}}]}]},{\"results\":[{\"ruleId\":\"diverr\",\"locations\":[{\"physicalLocation\":{\"artifactLocation\":{\"uri\":\"a.c\"},\"region\":{\"startLine\":2,\"startColumn\":40}}}]}],\"results\":[]}]}",
        "a.c:1:40:diverr ",
    ),
    (
        "{\"version\":\"2.1.0\",\"runs\":[{\"results\":[{\"ruleId\":\"diverr\",\"locations\":[{\"physicalLocation\":{\"artifactLocation\":{\"uri\":\"a.c\"},\"region\":{\"startLine\":1,\"startColumn\":40}}}]}]}],\"runs\":[{\"results\":[{\"ruleId\":\"diverr\",\"locations\":[{\"physicalLocation\":{\"artifactLocation\":{\"uri\":\"a.c\"},\"region\":{\"startLine\":2,\"startColumn\":40}}}]}]}]}",
        "a.c:2:40:diverr ",
    ),
    (
        "{\"runs\":[{\"results\":[{\"ruleId\":\"diverr\",\"locations\":[{\"physicalLocation\":{\"artifactLocation\":{\"uri\":\"a.c\"},\"region\":{\"startLine\":1,\"startColumn\":40}}}]}]}],\"version\":\"2.1.0\"}",
        "a.c:1:40:diverr ",
    ),
    ("{\"version\":\"2.1.0\",\"runs\":3,\"runs\":[]}", ""),
    (
        "{\"version\":\"2.1.0\",\"runs\":[{\"results\":[{\"ruleId\":\"diverr\",\"locations\":[{\"physicalLocation\":{\"artifactLocation\":{\"uri\":\"a.c\"},\"region\":{\"startLine\":1,\"startColumn\":40}}}]}]}],\"runs\":null}",
        "shape",
    ),
    (
        "{\"version\":\"2.1.0\",\"runs\":[{\"results\":[{\"ruleId\":\"diverr\",\"locations\":[{\"physicalLocation\":{\"artifactLocation\":{\"uri\":\"a.c\"},\"region\":{\"startLine\":1,\"startColumn\":40}}}]},{\"rank\":1e999}]}]}",
        "shape",
    ),
    (
        "{\"version\":\"2.1.0\",\"runs\":[{\"results\":[{\"ruleId\":\"diverr\",\"locations\":[{\"physicalLocation\":{\"artifactLocation\":{\"uri\":\"a.c\"},\"region\":{\"startLine\":1,\"startColumn\":40}}}]}]}],\"more\":-1e999}",
        "shape",
    ),
];

#[test]
fn the_last_member_of_a_name_counts(rt: HostRuntime) -> Result<(), Fail> {
    expect_known(&rt, rt.alloc(), &REPEATED)
}

/// Reports of other producers.
const LENIENT: [(&str, &str); 11] = [
    ("{\"version\":\"2.1.0\",\"runs\":[]}", ""),
    (
        " {\"$schema\":\"x\",\"version\":\"2.1.0\",\"runs\":[]}\n",
        "",
    ),
    (
        "{\"version\":\"2.0.0\",\"runs\":3,\"version\":\"2.1.0\",\"runs\":[]}",
        "",
    ),
    (
        "{\"version\":\"2.1.0\",\"runs\":[null,3,{},{\"results\":null},{\"results\":{}}]}",
        "",
    ),
    (
        "{\"version\":\"2.1.0\",\"runs\":[{\"results\":[{\"ruleId\":\"diverr\",\"locations\":[{\"physicalLocation\":{\"artifactLocation\":{\"uri\":\"a.c\"},\"region\":{\"startLine\":1,\"startColumn\":40}}}]}]}]}",
        "a.c:1:40:diverr ",
    ),
    (
        "{\"version\":\"2.1.0\",\"runs\":[{\"results\":[{\"ruleId\":\"diverr\",\"locations\":[{\"physicalLocation\":{\"artifactLocation\":{\"uri\":\"a.c\"},\"region\":{\"startLine\":1,\"startColumn\":40}}}],\"level\":\"note\",\"rank\":1.5}]}]}",
        "a.c:1:40:diverr ",
    ),
    (
        "{\"version\":\"2.1.0\",\"runs\":[{\"results\":[]},{\"results\":[{\"ruleId\":\"diverr\",\"locations\":[{\"physicalLocation\":{\"artifactLocation\":{\"uri\":\"a.c\"},\"region\":{\"startLine\":1,\"startColumn\":40}}}]}]},{\"results\":[{\"ruleId\":\"diverr\",\"locations\":[{\"physicalLocation\":{\"artifactLocation\":{\"uri\":\"a.c\"},\"region\":{\"startLine\":2,\"startColumn\":40}}}]}]}]}",
        "a.c:1:40:diverr a.c:2:40:diverr ",
    ),
    (
        "{\"version\":\"2.1.0\",\"runs\":[{\"results\":[{\"ruleId\":\"diverr\",\"locations\":[{\"physicalLocation\":{\"artifactLocation\":{\"uri\":\"a.c\"},\"region\":{\"startLine\":1,\"startColumn\":40}}}]},{\"ruleId\":\"diverr\",\"locations\":[{\"physicalLocation\":{\"artifactLocation\":{\"uri\":\"a.c\"},\"region\":{\"startLine\":1,\"startColumn\":40}}}]}]}]}",
        "a.c:1:40:diverr a.c:1:40:diverr ",
    ),
    (
        "{\"version\":\"2.1.0\",\"runs\":[{\"results\":[3,{\"ruleId\":\"diverr\",\"locations\":[{\"physicalLocation\":{\"artifactLocation\":{\"uri\":\"a.c\"},\"region\":{\"startLine\":1,\"startColumn\":40}}}]},null,\"x\",[]]}]}",
        "a.c:1:40:diverr ",
    ),
    (
        "{\"version\":\"2.1.0\",\"runs\":[{\"results\":[{\"ruleId\":\"xfree\",\"locations\":[{\"physicalLocation\":{\"artifactLocation\":{\"uri\":\"a.c\",\"index\":0},\"region\":{\"startLine\":1,\"startColumn\":2,\"endLine\":3}}},{\"physicalLocation\":{\"artifactLocation\":{\"uri\":\"b.c\"},\"region\":{\"startLine\":5,\"startColumn\":6}}}]}]}]}",
        "a.c:1:2:xfree ",
    ),
    (
        "{\"version\":\"2.1.0\",\"runs\":[],\"more\":[[[[[[[[[[[[[[[[[[[[[[[[[[[[[[[[[[[[[[[[[[[[[[[[[[[[[[[[[[[[[[[[[[[[[[[[[[[[[[[[[[[[[[[[[[[[[[[[[[[[[[[[[[[[[[[[[[[[[[[[[[[[[[]]]]]]]]]]]]]]]]]]]]]]]]]]]]]]]]]]]]]]]]]]]]]]]]]]]]]]]]]]]]]]]]]]]]]]]]]]]]]]]]]]]]]]]]]]]]]]]]]]]]]]]]]]]]]]]]]]]]]]]]]]]]]]}",
        "",
    ),
];

#[test]
fn what_other_producers_add_is_not_looked_at(rt: HostRuntime) -> Result<(), Fail> {
    expect_known(&rt, rt.alloc(), &LENIENT)
}

/// Results that lack one of their four parts.
const PASSED_OVER: [(&str, &str); 26] = [
    (
        "{\"version\":\"2.1.0\",\"runs\":[{\"results\":[{\"ruleId\":\"division\",\"locations\":[{\"physicalLocation\":{\"artifactLocation\":{\"uri\":\"a.c\"},\"region\":{\"startLine\":1,\"startColumn\":40}}}]}]}]}",
        "",
    ),
    (
        "{\"version\":\"2.1.0\",\"runs\":[{\"results\":[{\"ruleId\":\"Diverr\",\"locations\":[{\"physicalLocation\":{\"artifactLocation\":{\"uri\":\"a.c\"},\"region\":{\"startLine\":1,\"startColumn\":40}}}]}]}]}",
        "",
    ),
    (
        "{\"version\":\"2.1.0\",\"runs\":[{\"results\":[{\"ruleId\":\"\",\"locations\":[{\"physicalLocation\":{\"artifactLocation\":{\"uri\":\"a.c\"},\"region\":{\"startLine\":1,\"startColumn\":40}}}]}]}]}",
        "",
    ),
    (
        "{\"version\":\"2.1.0\",\"runs\":[{\"results\":[{\"ruleId\":3,\"locations\":[{\"physicalLocation\":{\"artifactLocation\":{\"uri\":\"a.c\"},\"region\":{\"startLine\":1,\"startColumn\":40}}}]}]}]}",
        "",
    ),
    (
        "{\"version\":\"2.1.0\",\"runs\":[{\"results\":[{\"ruleId\":\"diverr\",\"locations\":[{\"physicalLocation\":{\"artifactLocation\":{\"uri\":\"a.c\"},\"region\":{\"startLine\":0,\"startColumn\":40}}}]}]}]}",
        "",
    ),
    (
        "{\"version\":\"2.1.0\",\"runs\":[{\"results\":[{\"ruleId\":\"diverr\",\"locations\":[{\"physicalLocation\":{\"artifactLocation\":{\"uri\":\"a.c\"},\"region\":{\"startLine\":-1,\"startColumn\":40}}}]}]}]}",
        "",
    ),
    (
        "{\"version\":\"2.1.0\",\"runs\":[{\"results\":[{\"ruleId\":\"diverr\",\"locations\":[{\"physicalLocation\":{\"artifactLocation\":{\"uri\":\"a.c\"},\"region\":{\"startLine\":4294967296,\"startColumn\":40}}}]}]}]}",
        "",
    ),
    (
        "{\"version\":\"2.1.0\",\"runs\":[{\"results\":[{\"ruleId\":\"diverr\",\"locations\":[{\"physicalLocation\":{\"artifactLocation\":{\"uri\":\"a.c\"},\"region\":{\"startLine\":4294967295,\"startColumn\":40}}}]}]}]}",
        "a.c:4294967295:40:diverr ",
    ),
    (
        "{\"version\":\"2.1.0\",\"runs\":[{\"results\":[{\"ruleId\":\"diverr\",\"locations\":[{\"physicalLocation\":{\"artifactLocation\":{\"uri\":\"a.c\"},\"region\":{\"startLine\":1,\"startColumn\":0}}}]}]}]}",
        "",
    ),
    (
        "{\"version\":\"2.1.0\",\"runs\":[{\"results\":[{\"ruleId\":\"diverr\",\"locations\":[{\"physicalLocation\":{\"artifactLocation\":{\"uri\":\"a.c\"},\"region\":{\"startLine\":1,\"startColumn\":40.0}}}]}]}]}",
        "",
    ),
    (
        "{\"version\":\"2.1.0\",\"runs\":[{\"results\":[{\"ruleId\":\"diverr\",\"locations\":[{\"physicalLocation\":{\"artifactLocation\":{\"uri\":\"a.c\"},\"region\":{\"startLine\":1,\"startColumn\":4e1}}}]}]}]}",
        "",
    ),
    (
        "{\"version\":\"2.1.0\",\"runs\":[{\"results\":[{\"ruleId\":\"diverr\",\"locations\":[{\"physicalLocation\":{\"artifactLocation\":{\"uri\":\"a.c\"},\"region\":{\"startLine\":1,\"startColumn\":\"40\"}}}]}]}]}",
        "",
    ),
    (
        "{\"version\":\"2.1.0\",\"runs\":[{\"results\":[{\"ruleId\":\"diverr\",\"locations\":[{\"physicalLocation\":{\"artifactLocation\":{\"uri\":\"a.c\"},\"region\":{\"startLine\":1,\"startColumn\":4294967296}}}]}]}]}",
        "",
    ),
    (
        "{\"version\":\"2.1.0\",\"runs\":[{\"results\":[{\"ruleId\":\"diverr\",\"locations\":[{\"physicalLocation\":{\"artifactLocation\":{\"uri\":\"a.c\"},\"region\":{\"startLine\":1,\"startColumn\":99999999999999999999}}}]}]}]}",
        "",
    ),
    (
        "{\"version\":\"2.1.0\",\"runs\":[{\"results\":[{\"ruleId\":\"diverr\",\"locations\":[{\"physicalLocation\":{\"artifactLocation\":{\"uri\":\"a.c\"},\"region\":{\"startLine\":1,\"startColumn\":-0}}}]}]}]}",
        "",
    ),
    (
        "{\"version\":\"2.1.0\",\"runs\":[{\"results\":[{\"ruleId\":\"diverr\",\"locations\":[{\"physicalLocation\":{\"artifactLocation\":{\"uri\":\"a.c\"},\"region\":{\"startLine\":null,\"startColumn\":40}}}]}]}]}",
        "",
    ),
    (
        "{\"version\":\"2.1.0\",\"runs\":[{\"results\":[{\"ruleId\":\"diverr\"}]}]}",
        "",
    ),
    (
        "{\"version\":\"2.1.0\",\"runs\":[{\"results\":[{\"ruleId\":\"diverr\",\"locations\":[]}]}]}",
        "",
    ),
    (
        "{\"version\":\"2.1.0\",\"runs\":[{\"results\":[{\"ruleId\":\"diverr\",\"locations\":[{}]}]}]}",
        "",
    ),
    (
        "{\"version\":\"2.1.0\",\"runs\":[{\"results\":[{\"ruleId\":\"diverr\",\"locations\":{\"physicalLocation\":{\"artifactLocation\":{\"uri\":\"a.c\"},\"region\":{\"startLine\":1,\"startColumn\":2}}}}]}]}",
        "",
    ),
    (
        "{\"version\":\"2.1.0\",\"runs\":[{\"results\":[{\"locations\":[{\"physicalLocation\":{\"artifactLocation\":{\"uri\":\"a.c\"},\"region\":{\"startLine\":1,\"startColumn\":2}}}]}]}]}",
        "",
    ),
    (
        "{\"version\":\"2.1.0\",\"runs\":[{\"results\":[{\"ruleId\":\"diverr\",\"locations\":[{\"physicalLocation\":{\"region\":{\"startLine\":1,\"startColumn\":2}}}]}]}]}",
        "",
    ),
    (
        "{\"version\":\"2.1.0\",\"runs\":[{\"results\":[{\"ruleId\":\"diverr\",\"locations\":[{\"physicalLocation\":{\"artifactLocation\":{\"uri\":\"a.c\"},\"region\":{\"startColumn\":2}}}]}]}]}",
        "",
    ),
    (
        "{\"version\":\"2.1.0\",\"runs\":[{\"results\":[{\"ruleId\":\"diverr\",\"locations\":[{\"physicalLocation\":{\"artifactLocation\":{\"uri\":\"a.c\"},\"region\":{\"startLine\":2}}}]}]}]}",
        "",
    ),
    (
        "{\"version\":\"2.1.0\",\"runs\":[{\"results\":[{\"ruleId\":\"diverr\",\"locations\":[{\"physicalLocation\":{\"artifactLocation\":{\"uri\":\"a.c\"}}}]}]}]}",
        "",
    ),
    (
        "{\"version\":\"2.1.0\",\"runs\":[{\"results\":[{\"ruleId\":\"diverr\",\"locations\":[null,{\"physicalLocation\":{\"artifactLocation\":{\"uri\":\"a.c\"},\"region\":{\"startLine\":1,\"startColumn\":2}}}]}]}]}",
        "",
    ),
];

#[test]
fn results_without_their_parts_are_passed_over(rt: HostRuntime) -> Result<(), Fail> {
    expect_known(&rt, rt.alloc(), &PASSED_OVER)
}

/// Uris that stand for names, and others.
const URIS: [(&str, &str); 16] = [
    (
        "{\"version\":\"2.1.0\",\"runs\":[{\"results\":[{\"ruleId\":\"diverr\",\"locations\":[{\"physicalLocation\":{\"artifactLocation\":{\"uri\":\"%61.c\"},\"region\":{\"startLine\":1,\"startColumn\":40}}}]}]}]}",
        "a.c:1:40:diverr ",
    ),
    (
        "{\"version\":\"2.1.0\",\"runs\":[{\"results\":[{\"ruleId\":\"diverr\",\"locations\":[{\"physicalLocation\":{\"artifactLocation\":{\"uri\":\"%61%2ec\"},\"region\":{\"startLine\":1,\"startColumn\":40}}}]}]}]}",
        "a.c:1:40:diverr ",
    ),
    (
        "{\"version\":\"2.1.0\",\"runs\":[{\"results\":[{\"ruleId\":\"diverr\",\"locations\":[{\"physicalLocation\":{\"artifactLocation\":{\"uri\":\"%61%2Ec\"},\"region\":{\"startLine\":1,\"startColumn\":40}}}]}]}]}",
        "a.c:1:40:diverr ",
    ),
    (
        "{\"version\":\"2.1.0\",\"runs\":[{\"results\":[{\"ruleId\":\"diverr\",\"locations\":[{\"physicalLocation\":{\"artifactLocation\":{\"uri\":\"a b%2520+.c\"},\"region\":{\"startLine\":1,\"startColumn\":40}}}]}]}]}",
        "a b%20+.c:1:40:diverr ",
    ),
    (
        "{\"version\":\"2.1.0\",\"runs\":[{\"results\":[{\"ruleId\":\"diverr\",\"locations\":[{\"physicalLocation\":{\"artifactLocation\":{\"uri\":\"\"},\"region\":{\"startLine\":1,\"startColumn\":40}}}]}]}]}",
        ":1:40:diverr ",
    ),
    (
        "{\"version\":\"2.1.0\",\"runs\":[{\"results\":[{\"ruleId\":\"diverr\",\"locations\":[{\"physicalLocation\":{\"artifactLocation\":{\"uri\":\"%C3%a9\"},\"region\":{\"startLine\":1,\"startColumn\":40}}}]}]}]}",
        "\u{e9}:1:40:diverr ",
    ),
    (
        "{\"version\":\"2.1.0\",\"runs\":[{\"results\":[{\"ruleId\":\"diverr\",\"locations\":[{\"physicalLocation\":{\"artifactLocation\":{\"uri\":\"\\u00e9\"},\"region\":{\"startLine\":1,\"startColumn\":40}}}]}]}]}",
        "\u{e9}:1:40:diverr ",
    ),
    (
        "{\"version\":\"2.1.0\",\"runs\":[{\"results\":[{\"ruleId\":\"diverr\",\"locations\":[{\"physicalLocation\":{\"artifactLocation\":{\"uri\":\"a.c%\"},\"region\":{\"startLine\":1,\"startColumn\":40}}}]}]}]}",
        "",
    ),
    (
        "{\"version\":\"2.1.0\",\"runs\":[{\"results\":[{\"ruleId\":\"diverr\",\"locations\":[{\"physicalLocation\":{\"artifactLocation\":{\"uri\":\"a.c%2\"},\"region\":{\"startLine\":1,\"startColumn\":40}}}]}]}]}",
        "",
    ),
    (
        "{\"version\":\"2.1.0\",\"runs\":[{\"results\":[{\"ruleId\":\"diverr\",\"locations\":[{\"physicalLocation\":{\"artifactLocation\":{\"uri\":\"%g0\"},\"region\":{\"startLine\":1,\"startColumn\":40}}}]}]}]}",
        "",
    ),
    (
        "{\"version\":\"2.1.0\",\"runs\":[{\"results\":[{\"ruleId\":\"diverr\",\"locations\":[{\"physicalLocation\":{\"artifactLocation\":{\"uri\":\"%0g\"},\"region\":{\"startLine\":1,\"startColumn\":40}}}]}]}]}",
        "",
    ),
    (
        "{\"version\":\"2.1.0\",\"runs\":[{\"results\":[{\"ruleId\":\"diverr\",\"locations\":[{\"physicalLocation\":{\"artifactLocation\":{\"uri\":\"%%61\"},\"region\":{\"startLine\":1,\"startColumn\":40}}}]}]}]}",
        "",
    ),
    (
        "{\"version\":\"2.1.0\",\"runs\":[{\"results\":[{\"ruleId\":\"diverr\",\"locations\":[{\"physicalLocation\":{\"artifactLocation\":{\"uri\":\"%C3\"},\"region\":{\"startLine\":1,\"startColumn\":40}}}]}]}]}",
        "",
    ),
    (
        "{\"version\":\"2.1.0\",\"runs\":[{\"results\":[{\"ruleId\":\"diverr\",\"locations\":[{\"physicalLocation\":{\"artifactLocation\":{\"uri\":\"%ff.c\"},\"region\":{\"startLine\":1,\"startColumn\":40}}}]}]}]}",
        "",
    ),
    (
        "{\"version\":\"2.1.0\",\"runs\":[{\"results\":[{\"ruleId\":\"diverr\",\"locations\":[{\"physicalLocation\":{\"artifactLocation\":{\"uri\":\"%ed%a0%80\"},\"region\":{\"startLine\":1,\"startColumn\":40}}}]}]}]}",
        "",
    ),
    (
        "{\"version\":\"2.1.0\",\"runs\":[{\"results\":[{\"ruleId\":\"diverr\",\"locations\":[{\"physicalLocation\":{\"artifactLocation\":{\"uri\":\"file:///a.c\"},\"region\":{\"startLine\":1,\"startColumn\":40}}}]}]}]}",
        "file:///a.c:1:40:diverr ",
    ),
];

#[test]
fn uris_are_decoded(rt: HostRuntime) -> Result<(), Fail> {
    expect_known(&rt, rt.alloc(), &URIS)
}
