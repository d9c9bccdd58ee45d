//! The numbers of a JSON text.
ghost use Rattle.std.specs.Prelude.{◌≡◌, ◌<◌, ◌==◌, true, false, length, slice_index, IsTrue, option_map};
ghost use Rattle.serde_json.specs.View.{number_view};
ghost use Rattle.serde_json.specs.Read.{number_of, number_from, float_of};

use fast_float::Numeral;
use serde_json::Number;

/// Whether a number is written with a minus sign.
fn has_sign(digits: &[u8]) -> bool
    ensures sign { result ≡ (slice_index digits.now 0 == 45) }
    ensures some { IsTrue result → 0 < length digits.now }
{
    !digits.is_empty() && digits[0] == b'-'
}

/// The float that is nearest; nothing where the number is too large.
fn nearest(negative: bool, numeral: &Numeral<'_>) -> Option<Number>
    ensures { option_map number_view result ≡ float_of negative numeral.now }
{
    Number::from_f64(numeral.to_float::<f64>(negative))
}

/// A number that is written without a sign.
fn unsigned(numeral: &Numeral<'_>) -> Option<Number>
    ensures { option_map number_view result ≡ number_from false numeral.now }
{
    match numeral.to_u64() {
        Some(whole) => Some(Number::from(whole)),
        None => nearest(false, numeral),
    }
}

/// A number that is written behind a minus sign.
fn negative(numeral: &Numeral<'_>) -> Option<Number>
    ensures { option_map number_view result ≡ number_from true numeral.now }
{
    match numeral.to_i64(true) {
        Some(whole) if whole < 0 => Some(Number::from(whole)),
        _ => nearest(true, numeral),
    }
}

/// The number that a text in the grammar of JSON writes: a whole number where 64 bits hold it, else
/// the nearest float. Nothing where it is too large for a float.
pub fn number_of(digits: &str) -> Option<Number>
    ensures { option_map number_view result ≡ number_of digits.now }
{
    let bytes = digits.as_bytes();
    if has_sign(bytes) {
        negative(&Numeral::scan(&bytes[1..]))
    } else {
        unsigned(&Numeral::scan(bytes))
    }
}
