//! Results that are known already.
use cc_base::{Rule, Text};

/// A result of an earlier report.
#[derive(Drop)]
pub struct Known {
    /// The name of the file, in UTF-8.
    pub file: Text,
    /// The line, from 1 to 2^32 - 1.
    pub line: u64,
    /// The byte of the line, from 1 to 2^32 - 1.
    pub col: u64,
    pub rule: Rule,
}
