//! What a text for wake_lock or wake_unlock asks for.
ghost use Rattle.std.specs.Prelude.{◌≡◌, ◌≤◌, ◌<◌, ℕ, length, not, ◌==◌, position, if◌then◌else◌, IfSome, Some, None};
ghost use Rattle.sleep_model.specs.NameBytes.{is_name};
ghost use Rattle.wake_locks.specs.Texts.{line_of, nanoseconds, timed, after_spaces, timeout, named, lock_text, unlock_text};

use sleep_base::are_digits;
use sleep_model::{NAME_BYTES, Name, SourceCall, are_name_bytes};

/// The longest timeout, a day in nanoseconds, and the most digits of one.
const MOST_NANOSECONDS: u64 = 86_400_000_000_000;

const MOST_DIGITS: usize = 20;

/// Nanoseconds in a millisecond.
const MILLISECOND: u64 = 1_000_000;

/// The name that a text is, if it is one.
fn name_of(text: &[u8]) -> Option<Name>
    ensures { result ≡ (if is_name text.now then Some text.now else None) }
{
    if !are_name_bytes(text) {
        return None;
    }
    Name::of_bytes(text)
}

/// The text without the newline that may end it.
fn line_of(text: &[u8]) -> &[u8]
    ensures { result.now ≡ line_of text.now }
{
    match text.last() {
        Some(b'\n') => &text[..text.len() - 1],
        _ => text,
    }
}

/// The timeout that digits spell, if it is one.
fn nanoseconds(digits: &[u8]) -> Option<u64>
    ensures { result ≡ nanoseconds digits.now }
{
    if digits.is_empty() || digits.len() > MOST_DIGITS || !are_digits(digits) {
        return None;
    }
    let mut ns = 0;
    for digit in digits {
        ns = 10 * ns + u64::from(digit.saturating_sub(b'0'));
        if ns > MOST_NANOSECONDS {
            return None;
        }
    }
    Some(ns)
}

/// The call of a timeout: one of 0 is none.
fn timed(ns: u64) -> SourceCall
    requires { ns ≤ MOST_NANOSECONDS }
    ensures { result ≡ timed ns }
{
    if ns == 0 {
        return SourceCall::Awake;
    }
    let ms = ((ns + MILLISECOND - 1) / MILLISECOND) as u32;
    SourceCall::Event { ms, hard: false }
}

/// Whether a byte is no space.
fn is_no_space(byte: u8) -> bool
    ensures { result ≡ not (byte == 32) }
{
    byte != b' '
}

/// The index of the first space.
fn first_space(line: &[u8]) -> Option<usize>
    ensures is { result ≡ position (λ b. b == 32) line.now }
    ensures within { IfSome result (λ at. at < length line.now) }
{
    line.iter().position(|byte| *byte == b' ')
}

/// The index of the first byte that is no space.
fn first_other(rest: &[u8]) -> Option<usize>
    ensures is { result ≡ position (λ b. not (b == 32)) rest.now }
    ensures within { IfSome result (λ at. at < length rest.now) }
{
    rest.iter().position(|byte| is_no_space(*byte))
}

/// What follows the spaces.
fn after_spaces(rest: &[u8]) -> &[u8]
    ensures { result.now ≡ after_spaces (position (λ b. not (b == 32)) rest.now) rest.now }
{
    match first_other(rest) {
        Some(at) => &rest[at..],
        None => &[],
    }
}

/// The call of what follows a name.
fn timeout(rest: &[u8]) -> Option<SourceCall>
    ensures { result ≡ timeout rest.now }
{
    let ns = nanoseconds(after_spaces(rest))?;
    Some(timed(ns))
}

/// A name and a call, if the name is one.
fn named(name: &[u8], call: Option<SourceCall>) -> Option<(Name, SourceCall)>
    ensures { result ≡ named name.now call }
{
    let name = name_of(name)?;
    let call = call?;
    Some((name, call))
}

/// What a text for `wake_lock` asks for (`pm_wake_lock`).
pub(crate) fn lock_text(text: &[u8]) -> Option<(Name, SourceCall)>
    ensures { result ≡ lock_text text.now }
{
    let line = line_of(text);
    match first_space(line) {
        None => named(line, Some(SourceCall::Awake)),
        Some(at) => named(&line[..at], timeout(&line[at..])),
    }
}

/// The name in a text for `wake_unlock` (`pm_wake_unlock`).
pub(crate) fn unlock_text(text: &[u8]) -> Option<Name>
    ensures { result ≡ unlock_text text.now }
{
    name_of(line_of(text))
}
