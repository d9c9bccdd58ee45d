//! Units at a limit, and one past it.
use crate::preprocessor::units::{expect, expect_with};
use std::alloc::Global;
use std::test::Fail;

/// A text so many times.
fn repeated(alloc: Global, text: &str, times: usize) -> Result<String, Fail> {
    let mut whole = String::new(alloc);
    for _ in 0..times {
        whole.push_str(text)?;
    }
    Ok(whole)
}

/// Macros `a0` to `a` and the last number, each twice the one before, and the last one's use.
fn doubling_macros(alloc: Global, last: usize) -> Result<String, Fail> {
    let mut text = String::from_str(alloc, "#define a0 +1\n")?;
    for i in 0..last {
        let next = i + 1;
        let line = format!(in alloc; "#define a{next} a{i} a{i}\n")?;
        text.push_str(line.as_str())?;
    }
    let line = format!(in alloc; "int x=a{last};")?;
    text.push_str(line.as_str())?;
    Ok(text)
}

#[test]
fn inclusions_one_too_many(rt: HostRuntime) -> Result<(), Fail> {
    let alloc = rt.alloc();
    let text = repeated(alloc, "#include \"e.h\"\n", 1025)?;
    expect_with(
        &rt,
        alloc,
        ("e.h", ""),
        text.as_str(),
        "a.c:1025:1: IncludeDepth",
    )?;
    let text = repeated(alloc, "#include \"e.h\"\n", 1024)?;
    expect_with(&rt, alloc, ("e.h", ""), text.as_str(), "")
}

#[test]
fn tokens_one_too_many(rt: HostRuntime) -> Result<(), Fail> {
    let alloc = rt.alloc();
    let text = doubling_macros(alloc, 17)?;
    expect(
        &rt,
        alloc,
        text.as_str(),
        "a.c:19:7: TooManyTokens 131073/131072",
    )
}

#[test]
fn tokens_of_an_expansion_one_too_many(rt: HostRuntime) -> Result<(), Fail> {
    let alloc = rt.alloc();
    let text = doubling_macros(alloc, 19)?;
    expect(
        &rt,
        alloc,
        text.as_str(),
        "a.c:21:7: TooManyTokens 1048578/1048576",
    )
}

/// So many calls of a macro in one another.
fn nested_calls(alloc: Global, depth: usize) -> Result<String, Fail> {
    let mut text = String::from_str(alloc, "#define f(x) x\n")?;
    text.push_str(repeated(alloc, "f(", depth)?.as_str())?;
    text.push_str("7")?;
    text.push_str(repeated(alloc, ")", depth)?.as_str())?;
    Ok(text)
}

#[test]
fn calls_in_one_another(rt: HostRuntime) -> Result<(), Fail> {
    let text = nested_calls(rt.alloc(), 40000)?;
    expect(&rt, rt.alloc(), text.as_str(), " 7")
}
