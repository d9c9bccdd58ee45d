//! What the program answers.

/// A status and the text that goes with it.
#[derive(Drop)]
pub struct Answer {
    pub status: u8,
    pub text: Vec<u8>,
}
