//! Names that are of a header or of a library function, and names that are not.
use c_layout::by_name;
use c_library::headers::{LibFn, header, signature};
use std::test::Fail;

#[test]
fn functions_by_their_names(rt: HostRuntime) {
    assert!(rt; signature("fgets") == Some(LibFn::Fgets));
    assert!(rt; signature("memmove") == Some(LibFn::Memmove));
    assert!(rt; signature("fprintf").is_none());
}

#[test]
fn no_other_header_is_built_in(rt: HostRuntime) -> Result<(), Fail> {
    let model = by_name("lp64").ok_or("no model")?;
    assert!(rt; header("math.h", &model).is_none());
    Ok(())
}
