//! The help and the version among other words, and the numbers of options.
use crate::call::{NONE, answer, call, is, with_unit};
use std::test::Fail;

const UNIT: &[u8] = b"int main(void){return 0;}";

const VERSION: &str = "ccheck 0.1.0\n";

const REFUSED: &str = "ccheck: words refused\n";

/// Words with the help among them.
const HELPS: [&str; 5] = [
    "-h",
    "check --help",
    "check a.c --help",
    "check a.c --turns 3 -h",
    "check --help --turn 3",
];

/// Words, and the status and the text that answer them on the unit.
const ROWS: [(&str, u8, &str); 16] = [
    ("--version", 0, VERSION),
    ("-V", 0, VERSION),
    ("-V check", 0, VERSION),
    ("check a.c --version", 0, VERSION),
    ("--version --help", 0, VERSION),
    ("check --turn 3 --help", 3, REFUSED),
    ("check --turn 3 --version", 3, REFUSED),
    ("check a.c --entry --help", 3, REFUSED),
    ("check -- --help", 4, "ccheck: no file --help\n"),
    ("check a.c --turns 0", 0, NONE),
    ("check a.c --turns +5", 3, REFUSED),
    ("check a.c --turns 007", 3, REFUSED),
    ("check a.c --turns -1", 3, REFUSED),
    ("load a.c --seed 00", 3, REFUSED),
    ("load a.c --count 010", 3, REFUSED),
    ("replay a.c --steps +100", 3, REFUSED),
];

#[test]
fn versions_faults_and_numbers(rt: HostRuntime) -> Result<(), Fail> {
    let alloc = rt.alloc();
    for (words, status, text) in &ROWS {
        answer(&rt, alloc, words, with_unit(alloc, UNIT)?, *status, text)?;
    }
    Ok(())
}

#[test]
fn help_is_the_same_among_words(rt: HostRuntime) -> Result<(), Fail> {
    let alloc = rt.alloc();
    let alone = call(alloc, "--help", with_unit(alloc, UNIT)?)?;
    let help = str::from_utf8(alone.text.as_slice()).unwrap_or("?");
    assert!(rt;
        alone.status == 0 && help.starts_with("ccheck: a static analyser for C\n"),
        "{help}"
    );
    for words in &HELPS {
        let told = call(alloc, words, with_unit(alloc, UNIT)?)?;
        assert!(rt; is(&told, 0, help), "{words}");
    }
    Ok(())
}
