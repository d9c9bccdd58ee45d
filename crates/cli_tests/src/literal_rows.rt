//! The types of integer constants (6.4.4.1 of ISO/IEC 9899:2011) under each model, told by the lengths
//! of arrays: a length below 0 is refused. A comparison with -1 tells an unsigned type.
use crate::call::{call, with_files};
use std::alloc::{AllocError, Global};
use std::process::Abort;
use std::test::Fail;

/// A model with an int of two bytes.
const SMALL: &str =
    "short = 2\nint = 2\nlong = 4\nlong_long = 8\npointer = 4\nchar_signed = true\n";

/// A unit that is accepted where a condition holds.
fn unit_where(alloc: Global, condition: &str) -> Result<String, AllocError> {
    let mut text = String::from_str(alloc, "int a[")?;
    text.push_str(condition)?;
    text.push_str("?1:-1];int main(void){return 0;}")?;
    Ok(text)
}

/// Whether the condition holds under the model that the words name.
fn holds(alloc: Global, words: &str, condition: &str) -> Result<bool, Fail> {
    let unit = unit_where(alloc, condition)?;
    let files = [("a.c", unit.as_str()), ("small.toml", SMALL)];
    Ok(call(alloc, words, with_files(alloc, &files)?)?.status == 0)
}

/// Fails unless each condition holds under the model that the words name.
fn all_hold(rt: &impl Abort, alloc: Global, words: &str, conditions: &[&str]) -> Result<(), Fail> {
    for condition in conditions {
        assert!(rt; holds(alloc, words, condition)?, "{words}: {condition}");
    }
    Ok(())
}

const LP64: [&str; 9] = [
    "sizeof 2147483647==4",
    "sizeof 2147483648==8",
    "sizeof 0x80000000==4&&0x80000000<-1",
    "sizeof 4294967296==8&&4294967296>-1",
    "sizeof 0x8000000000000000==8&&0x8000000000000000<-1",
    "sizeof 1u==4&&1u<-1",
    "sizeof 1l==8&&1l>-1",
    "sizeof 1ul==8&&1ul<-1",
    "sizeof 1ll==8&&1ll>-1",
];

#[test]
fn constants_under_lp64(rt: HostRuntime) -> Result<(), Fail> {
    all_hold(&rt, rt.alloc(), "check a.c", &LP64)
}

const LONG_OF_FOUR: [&str; 8] = [
    "sizeof 2147483648==8&&2147483648>-1",
    "sizeof 2147483648l==8&&2147483648l>-1",
    "sizeof 0x80000000==4&&0x80000000<-1",
    "sizeof 0xffffffffl==4&&0xffffffffl==-1",
    "sizeof 4294967296u==8&&4294967296u<-1",
    "sizeof 1l==4&&1l>-1",
    "sizeof 1ul==4&&1ul<-1",
    "sizeof 1ll==8&&1ll>-1",
];

#[test]
fn constants_under_ilp32_and_llp64(rt: HostRuntime) -> Result<(), Fail> {
    let alloc = rt.alloc();
    all_hold(&rt, alloc, "check a.c --model ilp32", &LONG_OF_FOUR)?;
    all_hold(&rt, alloc, "check a.c --model llp64", &LONG_OF_FOUR)
}

const INT_OF_TWO: [&str; 10] = [
    "sizeof 32767==2",
    "sizeof 32768==4&&32768>-1",
    "sizeof 0x8000==2&&0x8000<-1",
    "sizeof 0x10000==4&&0x10000>-1",
    "sizeof 2147483648==8&&2147483648>-1",
    "sizeof 0x80000000==4&&0x80000000<-1",
    "sizeof 1u==2&&1u<-1",
    "sizeof 32768u==2",
    "sizeof 65536u==4&&65536u<-1",
    "sizeof 1l==4",
];

#[test]
fn constants_under_an_int_of_two_bytes(rt: HostRuntime) -> Result<(), Fail> {
    all_hold(&rt, rt.alloc(), "check a.c --model small.toml", &INT_OF_TWO)
}
