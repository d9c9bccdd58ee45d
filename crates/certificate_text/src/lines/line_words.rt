//! The words of a line.
ghost use Rattle.std.specs.Prelude.{◌≡◌, ◌+◌, ◌≤◌, ◌<◌, length, drop, take};
ghost use Rattle.certificate_text.specs.Lines.LineWords.{word_length, until, behind, first_byte, same_all, same_bytes};

/// How many bytes stand before the first `stop`.
fn word_length(text: &[u8], stop: u8) -> usize
    ensures length { result ≡ word_length stop text.now }
    ensures within { result ≤ length text.now }
{
    for at in 0..text.len() {
        if text[at] == stop {
            return at;
        }
    }
    text.len()
}

/// The bytes before the first `stop`; all where there is none.
#[tactic(auto, unfolding(crate::specs::Lines::LineWords::until))]
pub fn until(text: &[u8], stop: u8) -> &[u8]
    ensures { result.now ≡ until stop text.now }
{
    &text[..word_length(text, stop)]
}

/// The bytes behind the first `stop`; none where there is none.
#[tactic(auto, unfolding(crate::specs::Lines::LineWords::behind))]
pub fn behind(text: &[u8], stop: u8) -> &[u8]
    ensures { result.now ≡ behind stop text.now }
{
    let end = word_length(text, stop);
    if end < text.len() {
        &text[end + 1..]
    } else {
        &text[text.len()..]
    }
}

/// The first byte, 0 where there is none.
#[tactic(auto, unfolding(crate::specs::Lines::LineWords::first_byte))]
pub(crate) fn first_byte(text: &[u8]) -> u8
    ensures { result ≡ first_byte text.now }
{
    if text.len() > 0 { text[0] } else { 0 }
}

/// Whether two texts of the same length are the same.
fn same_all(one: &[u8], other: &[u8]) -> bool
    requires { length one.now ≡ length other.now }
    ensures { result ≡ same_all one.now other.now }
{
    for at in 0..one.len() {
        if one[at] != other[at] {
            return false;
        }
    }
    true
}

/// Whether two texts are the same.
#[tactic(auto, unfolding(crate::specs::Lines::LineWords::same_bytes))]
pub fn same_bytes(one: &[u8], other: &[u8]) -> bool
    ensures { result ≡ same_bytes one.now other.now }
{
    one.len() == other.len() && same_all(one, other)
}
