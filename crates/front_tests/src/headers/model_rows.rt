//! The three data models with names: the sizes of short, int, long, long long and a pointer, and the
//! sign of plain char. The values are those of the systems that the names stand for.
use c_layout::{Model, by_name};

/// The model of these sizes, whose char is signed.
fn sizes(int: u8, long: u8, pointer: u8) -> Model {
    Model {
        short: 2,
        int,
        long,
        long_long: 8,
        pointer,
        char_signed: true,
    }
}

#[test]
fn the_three_models(rt: HostRuntime) {
    assert!(rt; by_name("lp64") == Some(sizes(4, 8, 8)));
    assert!(rt; by_name("ilp32") == Some(sizes(4, 4, 4)));
    assert!(rt; by_name("llp64") == Some(sizes(4, 4, 8)));
    assert!(rt; by_name("LP64").is_none());
    assert!(rt; by_name("").is_none());
}
