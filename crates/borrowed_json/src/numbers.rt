//! The numbers of a text.

ghost use Rattle.std.specs.Prelude.{◌≡◌, ◌==◌, ◌<◌, IfSome, IsTrue, Some, false, length, option_map, slice_index, true};
ghost use Rattle.serde_json.specs.Data.{unsigned};
ghost use Rattle.serde_json.specs.Read.{float_of, number_from, number_of};
ghost use Rattle.serde_json.specs.View.{number_view};

use fast_float::Numeral;
use serde_json::Number;

/// The number that a number's text says. None if no float is that large. Most are digits, and need no search
/// for their parts.
pub(crate) fn number_of(text: &str) -> Option<Number>
    ensures { option_map number_view result ≡ number_of text.now }
{
    match digits_in(text.as_bytes()) {
        Some(number) => Some(Number::from(number)),
        None => number_of_parts(text),
    }
}

/// Up to this number, one more digit fits 64 bits.
const LARGE: u64 = 1_000_000_000_000_000_000;

/// The number of a text of digits. None for any other text, and for a number that may not fit 64 bits.
fn digits_in(bytes: &[u8]) -> Option<u64>
    ensures { IfSome result (λ n. number_of bytes.now ≡ Some (unsigned n)) }
{
    if bytes.is_empty() {
        return None;
    }
    let mut number: u64 = 0;
    for byte in bytes {
        if !byte.is_ascii_digit() {
            return None;
        }
        if number > LARGE {
            return None;
        }
        number = number * 10 + u64::from(*byte - b'0');
    }
    Some(number)
}

/// The number of any number's text, by its parts.
fn number_of_parts(text: &str) -> Option<Number>
    ensures { option_map number_view result ≡ number_of text.now }
{
    let bytes = text.as_bytes();
    if has_minus(bytes) {
        below_zero(&Numeral::scan(&bytes[1..]))
    } else {
        unsigned(&Numeral::scan(bytes))
    }
}

/// Whether a numeral begins with a minus.
fn has_minus(bytes: &[u8]) -> bool
    ensures value { result ≡ (slice_index bytes.now 0 == 45) }
    ensures len { IsTrue result → 0 < length bytes.now }
{
    !bytes.is_empty() && bytes[0] == b'-'
}

/// The number of a numeral without a minus: of 64 bits, or else a float.
fn unsigned(numeral: &Numeral<'_>) -> Option<Number>
    ensures { option_map number_view result ≡ number_from false numeral.now }
{
    match numeral.to_u64() {
        Some(number) => Some(Number::from(number)),
        None => nearest(false, numeral),
    }
}

/// The number of a numeral with a minus: a negative one of 64 bits, or else a float.
fn below_zero(numeral: &Numeral<'_>) -> Option<Number>
    ensures { option_map number_view result ≡ number_from true numeral.now }
{
    if let Some(number) = numeral.to_i64(true) {
        if number < 0 {
            return Some(Number::from(number));
        }
    }
    nearest(true, numeral)
}

fn nearest(negative: bool, numeral: &Numeral<'_>) -> Option<Number>
    ensures { option_map number_view result ≡ float_of negative numeral.now }
{
    Number::from_f64(numeral.to_float::<f64>(negative))
}
