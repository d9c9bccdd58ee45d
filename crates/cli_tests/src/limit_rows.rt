//! Units at a limit, and one past it.
use crate::call::{NONE, answer, check, with_files};
use std::alloc::Global;
use std::fmt::Write;
use std::process::Abort;
use std::test::Fail;

/// A text, so many times.
fn repeated(alloc: Global, text: &str, count: u32) -> Result<String, Fail> {
    let mut all = String::new(alloc);
    for _turn in 0..count {
        all.push_str(text)?;
    }
    Ok(all)
}

/// A unit that returns 1 behind so many texts, with as many parentheses closed behind it.
fn nested(alloc: Global, opening: &str, count: u32) -> Result<String, Fail> {
    let openings = repeated(alloc, opening, count)?;
    let closings = repeated(alloc, ")", count)?;
    Ok(format!(in alloc; "int main(void){{return {openings}1{closings};}}")?)
}

/// A unit with a macro that stands for `+1` and so many that stand for the one before them twice.
fn doubling(alloc: Global, count: u32) -> Result<String, Fail> {
    let mut text = String::from_str(alloc, "#define a0 +1\n")?;
    for before in 0..count {
        let at = before + 1;
        write!(text, "#define a{at} a{before} a{before}\n")?;
    }
    write!(text, "int x=a{count};")?;
    Ok(text)
}

/// A unit with so many objects, whose declarators end in a text.
fn objects(alloc: Global, letter: &str, count: u32, end: &str) -> Result<String, Fail> {
    let mut text = String::from_str(alloc, "int main(void){int ")?;
    for at in 0..count {
        let comma = if at == 0 { "" } else { "," };
        write!(text, "{comma}{letter}{at}{end}")?;
    }
    text.push_str(";return 0;}")?;
    Ok(text)
}

/// A unit whose entry calls so many times a function with so many of a statement.
fn calling(alloc: Global, statement: &str, count: u32, calls: u32) -> Result<String, Fail> {
    let body = repeated(alloc, statement, count)?;
    let called = repeated(alloc, "f();", calls)?;
    let head = "static void f(void){int i=0;";
    Ok(format!(in alloc; "{head}{body}}}int main(void){{{called}return 0;}}")?)
}

/// A unit with 60 arrays of 64 elements and so many loops.
fn looping(alloc: Global, count: u32) -> Result<String, Fail> {
    let mut text = String::from_str(alloc, "int main(void){")?;
    for at in 0..60 {
        write!(text, "int v{at}[64];")?;
    }
    let loops = repeated(alloc, "while(i<9)i++;", count)?;
    write!(text, "int i=0;{loops}return 0;}}")?;
    Ok(text)
}

/// Fails unless the unit is analysed and nothing is found.
fn pass(rt: &impl Abort, alloc: Global, unit: &String) -> Result<(), Fail> {
    check(rt, alloc, unit.as_str(), 0, NONE)
}

/// Fails unless the unit meets a limit, with this line.
fn limit(rt: &impl Abort, alloc: Global, unit: &String, line: &str) -> Result<(), Fail> {
    check(rt, alloc, unit.as_str(), 8, line)
}

#[test]
fn heights(rt: HostRuntime) -> Result<(), Fail> {
    let alloc = rt.alloc();
    pass(&rt, alloc, &nested(alloc, "(", 253)?)?;
    let unit = nested(alloc, "(", 254)?;
    check(&rt, alloc, unit.as_str(), 2, "a.c:1:1: refused: Syntax\n")
}

#[test]
fn inclusions(rt: HostRuntime) -> Result<(), Fail> {
    let alloc = rt.alloc();
    let unit = repeated(alloc, "#include \"e.h\"\n", 1025)?;
    let setting = with_files(alloc, &[("a.c", unit.as_str()), ("e.h", "")])?;
    let line = "a.c:1025:1: refused: IncludeDepth\n";
    answer(&rt, alloc, "check a.c", setting, 2, line)
}

#[test]
fn tokens_of_a_unit(rt: HostRuntime) -> Result<(), Fail> {
    let alloc = rt.alloc();
    let line = "a.c:19:7: limit: TooManyTokens 131073/131072\n";
    limit(&rt, alloc, &doubling(alloc, 17)?, line)
}

#[test]
fn tokens_of_an_expansion(rt: HostRuntime) -> Result<(), Fail> {
    let alloc = rt.alloc();
    let line = "a.c:21:7: limit: TooManyTokens 1048578/1048576\n";
    limit(&rt, alloc, &doubling(alloc, 19)?, line)
}

#[test]
fn objects_of_a_function(rt: HostRuntime) -> Result<(), Fail> {
    let alloc = rt.alloc();
    pass(&rt, alloc, &objects(alloc, "v", 120, "")?)?;
    pass(&rt, alloc, &objects(alloc, "v", 121, "")?)?;
    let line = "a.c:1:5: limit: TooLarge bases 1017/1016\n";
    limit(&rt, alloc, &objects(alloc, "v", 1017, "")?, line)
}

#[test]
fn cells(rt: HostRuntime) -> Result<(), Fail> {
    let alloc = rt.alloc();
    pass(&rt, alloc, &objects(alloc, "x", 64, "[64]")?)?;
    let line = "a.c:1:5: limit: TooLarge cells 4160/4096\n";
    limit(&rt, alloc, &objects(alloc, "x", 65, "[64]")?, line)
}

#[test]
fn temporaries(rt: HostRuntime) -> Result<(), Fail> {
    let alloc = rt.alloc();
    pass(&rt, alloc, &nested(alloc, "1+(", 63)?)?;
    let line = "a.c:1:5: limit: TooLarge temps 65/64\n";
    limit(&rt, alloc, &nested(alloc, "1+(", 64)?, line)
}

#[test]
fn blocks(rt: HostRuntime) -> Result<(), Fail> {
    let alloc = rt.alloc();
    let line = "a.c:1:4234: limit: TooLarge blocks 12042/8192\n";
    limit(
        &rt,
        alloc,
        &calling(alloc, "while(i<9)i++;", 300, 20)?,
        line,
    )
}

#[test]
fn instructions(rt: HostRuntime) -> Result<(), Fail> {
    let alloc = rt.alloc();
    let line = "a.c:1:20034: limit: TooLarge instructions 450183/262144\n";
    limit(&rt, alloc, &calling(alloc, "i=0;", 5000, 30)?, line)
}

#[test]
fn values_of_the_pool(rt: HostRuntime) -> Result<(), Fail> {
    let alloc = rt.alloc();
    let line = "a.c:1:5: limit: TooLarge pool 4630815/4194304\n";
    limit(&rt, alloc, &looping(alloc, 600)?, line)
}
