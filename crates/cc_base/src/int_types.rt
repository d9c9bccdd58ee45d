//! Integer types.

/// An integer type: its size in bytes, whether it is signed, and its conversion rank (6.3.1.1 of
/// ISO/IEC 9899:2011), from 1 for char to 5 for long long.
#[derive(Clone, Copy, PartialEq, Eq, Debug)]
pub struct IntType {
    pub bytes: u8,
    pub signed: bool,
    pub rank: u8,
}
