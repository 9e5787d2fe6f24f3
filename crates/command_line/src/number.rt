//! Decimal numbers of a range, as words of the command line.

ghost use Rattle.std.specs.Prelude.{◌≡◌, true};
ghost use Rattle.std.specs.List.{list_all};
ghost use Rattle.sleep_base.specs.Digits.{is_digit};
ghost use Rattle.command_line.specs.Words.{has_no_zero_before, number_in};

use sleep_base::are_digits;

/// Whether there is a first byte, and it is no 0 before others.
fn has_no_zero_before(bytes: &[u8]) -> bool
    ensures { list_all is_digit bytes.now ≡ true → result ≡ has_no_zero_before bytes.now }
{
    match bytes {
        [] => false,
        [_] => true,
        [first, ..] => *first != b'0',
    }
}

/// The number that a word is, if it is one of this range: decimal digits, and no 0 before others.
pub fn number_in(least: u64, most: u64, word: &str) -> Option<u64>
    ensures { result ≡ number_in least most word.now }
{
    let bytes = word.as_bytes();
    if !are_digits(bytes) || !has_no_zero_before(bytes) {
        return None;
    }
    let Ok(number) = word.parse::<u64>() else {
        return None;
    };
    if least <= number && number <= most {
        Some(number)
    } else {
        None
    }
}
