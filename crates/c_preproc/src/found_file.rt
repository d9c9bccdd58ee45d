//! A file that was found.

/// A file that was found.
#[derive(Drop)]
pub struct FoundFile {
    /// Its name, as it is printed.
    pub name: String,
    pub bytes: Vec<u8>,
}
