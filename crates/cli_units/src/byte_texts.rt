//! Whether the texts of tokens are of bytes.
ghost use Rattle.std.specs.Prelude.{◌≡◌};
ghost use Rattle.c_layout.specs.ByteTexts as spec;

use c_layout::Unit7;

/// Whether each number of a text is that of a byte. By its type it is, but contracts see a list of numbers alone.
fn are_bytes(text: &[u8]) -> bool
    ensures { result ≡ spec.are_bytes text.now }
{
    for byte in text {
        if u32::from(*byte) > 255 {
            return false;
        }
    }
    true
}

/// Whether the tokens of a unit are of bytes, so that its constants and literals have values of theirs (6.4.4.4 and
/// 6.4.5 of ISO/IEC 9899:2011).
pub(crate) fn have_byte_texts(unit: &Unit7) -> bool
    ensures { result ≡ spec.have_byte_texts unit.now.tokens }
{
    let tokens = unit.tokens.as_slice();
    for at in 0..tokens.len() {
        if !are_bytes(tokens[at].text.as_bytes()) {
            return false;
        }
    }
    true
}
