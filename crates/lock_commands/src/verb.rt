//! What a line asks for, by its first word.

ghost use Rattle.std.specs.Prelude.{◌≡◌, ◌≤◌, IfSome};
ghost use Rattle.std.specs.Str.{bytes_eq};
ghost use Rattle.lock_commands.specs.Lines.{rest};
ghost use Rattle.lock_commands.specs.Verbs.{IsShort, milliseconds, starts_right, verb_alone, verb_before, verb_of};

use sleep_base::{are_digits, cut};

/// The longest wait, a day in ms, and the most digits of one.
const MOST_MS: u64 = 86_400_000;

const MOST_DIGITS: usize = 8;

/// What a line asks for. The text of a lock or an unlock follows the line's first space.
#[derive(Clone, Copy, Debug, PartialEq, Eq)]
pub enum LockVerb {
    /// To write the text to `wake_lock`.
    Lock,
    /// To write the text to `wake_unlock`.
    Unlock,
    /// To let 1 to 86,400,000 ms go by.
    After(u64),
    /// To show the names that are active, as `wake_lock` does if it is read.
    Active,
    /// To show those that are not, as `wake_unlock` does.
    Inactive,
}

/// Whether a word is this one.
fn is(word: &[u8], name: &str) -> bool
    ensures { result ≡ bytes_eq word.now name.now }
{
    word == name.as_bytes()
}

/// Whether there is a first byte that is no 0.
fn starts_right(digits: &[u8]) -> bool
    ensures { result ≡ starts_right digits.now }
{
    match digits {
        [] => false,
        [first, ..] => *first != b'0',
    }
}

/// The ms that digits spell, if they are 1 to 86,400,000 and do not begin with 0.
fn milliseconds(digits: &[u8]) -> Option<u64>
    ensures is { result ≡ milliseconds digits.now }
    ensures few { IfSome result (λ ms. ms ≤ 86400000) }
{
    if digits.len() > MOST_DIGITS || !are_digits(digits) || !starts_right(digits) {
        return None;
    }
    let mut ms = 0;
    for digit in digits {
        ms = 10 * ms + u64::from(digit.saturating_sub(b'0'));
        if ms > MOST_MS {
            return None;
        }
    }
    Some(ms)
}

/// What a line that is one word asks for.
fn verb_alone(word: &[u8]) -> Option<LockVerb>
    ensures is { result ≡ verb_alone word.now }
    ensures few { IfSome result IsShort }
{
    if is(word, "active") {
        return Some(LockVerb::Active);
    }
    if is(word, "inactive") {
        return Some(LockVerb::Inactive);
    }
    None
}

/// What a line asks for that has this word before its first space, and this text after it.
fn verb_before(word: &[u8], text: &[u8]) -> Option<LockVerb>
    ensures is { result ≡ verb_before word.now text.now }
    ensures few { IfSome result IsShort }
{
    if is(word, "lock") {
        return Some(LockVerb::Lock);
    }
    if is(word, "unlock") {
        return Some(LockVerb::Unlock);
    }
    if is(word, "after") {
        let ms = milliseconds(text)?;
        return Some(LockVerb::After(ms));
    }
    None
}

/// What a line asks for. `None` if it is of no form.
pub(crate) fn verb_of(line: &[u8]) -> Option<LockVerb>
    ensures is { result ≡ verb_of line.now }
    ensures few { IfSome result IsShort }
{
    let (word, text) = cut(line, b' ');
    if word.len() == line.len() {
        verb_alone(word)
    } else {
        verb_before(word, text)
    }
}

/// What follows the first space of a line.
pub(crate) fn rest(line: &[u8]) -> &[u8]
    ensures { result.now ≡ rest line.now }
{
    let (_, text) = cut(line, b' ');
    text
}
