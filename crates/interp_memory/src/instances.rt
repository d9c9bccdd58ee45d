//! One instance of an object.
use crate::byte_forms::{Byte7, InstKind, InstState};

/// An instance with its bytes.
#[derive(Drop)]
pub(crate) struct Instance {
    pub(crate) kind: InstKind,
    pub(crate) state: InstState,
    pub(crate) bytes: Vec<Byte7>,
}
