//! Decimal numbers of 64 and of 32 bits, read.
ghost use Rattle.std.specs.Prelude.{◌≡◌, ◌+◌, ◌≤◌, ◌∷◌, ◌++◌, [], IfSome, decimal, true};
ghost use Rattle.sleep_model.specs.Fits.{is_word32, is_word64};
ghost use Rattle.log_text.specs.Cutting.{digit_after, short, word32, word64};

/// The greatest number that has 64 bits with any digit more.
const MOST_BEFORE_LAST: u64 = 1_844_674_407_370_955_160;

/// The number with one digit more. None if the byte is no digit, or if the number leaves 64 bits.
fn with_digit(number: u64, byte: u8) -> Option<u64>
    ensures number { result ≡ digit_after number byte }
    ensures fits { IfSome result (λ n. is_word64 n ≡ true) }
{
    if byte < b'0' || byte > b'9' {
        return None;
    }
    number.checked_mul(10)?.checked_add(u64::from(byte - b'0'))
}

/// The number of 64 bits that the digits spell. None if there is no digit, or another byte.
pub fn word64(text: &[u8]) -> Option<u64>
    ensures number { result ≡ word64 text.now }
    ensures fits { IfSome result (λ n. is_word64 n ≡ true) }
{
    if text.is_empty() {
        return None;
    }
    let mut number = 0;
    for byte in text {
        number = with_digit(number, *byte)?;
    }
    Some(number)
}

/// The number, if it has 32 bits.
#[inline(always)]
pub fn short(number: u64) -> Option<u32>
    ensures number { result ≡ short number }
    ensures same { IfSome result (λ n. n ≡ number) }
    ensures fits { IfSome result (λ n. is_word32 n ≡ true) }
{
    if number <= u64::from(u32::MAX) {
        Some(number as u32)
    } else {
        None
    }
}

/// The same of 32 bits.
pub fn word32(text: &[u8]) -> Option<u32>
    ensures number { result ≡ word32 text.now }
    ensures fits { IfSome result (λ n. is_word32 n ≡ true) }
{
    short(word64(text)?)
}

/// A number, which its type keeps in 64 bits.
#[inline(always)]
pub fn long(number: u64) -> u64
    ensures same { result ≡ number }
    ensures fits { is_word64 result ≡ true }
{
    number
}

/// The digit that a byte is. None if it is none.
#[inline(always)]
pub fn digit_of(byte: u8) -> Option<u8>
    ensures digit { IfSome result (λ d. byte ≡ 48 + d) }
    ensures few { IfSome result (λ d. d ≤ 9) }
{
    let digit = byte.wrapping_sub(b'0');
    if digit <= 9 { Some(digit) } else { None }
}

/// The number that one digit spells. None if the byte is none.
#[inline(always)]
#[tactic(auto, using(crate::proofs::Pieces::one_digit))]
pub fn first_digit(byte: u8) -> Option<u64>
    ensures { IfSome result (λ n. decimal n ≡ byte ∷ []) }
{
    Some(u64::from(digit_of(byte)?))
}

/// The number that is spelled with one digit more. None if there is none of 64 bits: no spelling but 0 begins
/// with a zero. None also of the six greatest numbers.
#[inline(always)]
#[tactic(auto, using(crate::proofs::Pieces::one_digit_more))]
pub fn with_last(number: u64, digit: u8) -> Option<u64>
    requires { digit ≤ 9 }
    ensures { IfSome result (λ n. decimal n ≡ decimal number ++ (48 + digit) ∷ []) }
{
    if number == 0 || number > MOST_BEFORE_LAST {
        return None;
    }
    Some(number * 10 + u64::from(digit))
}

/// What the digits that a text begins with spell, and what follows the byte after them. The caller compares
/// the number's text: one that leaves 64 bits, or has no digit, is some other number here.
#[inline]
pub fn digits_first(text: &[u8]) -> Option<(u64, &[u8])>
    ensures { IfSome result (λ r. is_word64 r.0 ≡ true) }
{
    let mut number = 0_u64;
    for i in 0..text.len() {
        let digit = text[i].wrapping_sub(b'0');
        if digit > 9 {
            return Some((long(number), &text[i + 1..]));
        }
        number = number.wrapping_mul(10).wrapping_add(u64::from(digit));
    }
    None
}

/// The same, if the number has 32 bits.
#[inline]
pub fn digits32_first(text: &[u8]) -> Option<(u32, &[u8])>
    ensures { IfSome result (λ r. is_word32 r.0 ≡ true) }
{
    let (number, rest) = digits_first(text)?;
    Some((short(number)?, rest))
}
