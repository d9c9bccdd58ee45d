//! Limits of sizes.
use crate::call::{answer, with_unit};
use std::test::Fail;

#[test]
fn refuses_a_long_file(rt: HostRuntime) -> Result<(), Fail> {
    let alloc = rt.alloc();
    let bytes = vec![in alloc; 32u8; 1_048_577]?;
    let setting = with_unit(alloc, bytes.as_slice())?;
    let line = "a.c:1:1: limit: FileTooLong 1048577/1048576\n";
    answer(&rt, alloc, "check a.c", setting, 8, line)
}
