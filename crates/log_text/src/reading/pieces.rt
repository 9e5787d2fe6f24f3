//! Pieces at the beginning of a text.

ghost use Rattle.std.specs.Prelude.{◌≡◌, ◌++◌, ◌∷◌, IfSome, decimal, true};
ghost use Rattle.phase_table.specs.Phases.{phase_name};
ghost use Rattle.sleep_model.specs.Fits.{is_word32, is_word64};
ghost use Rattle.sleep_model.specs.Text.{newline, space};

use crate::reading::number::{digit_of, first_digit, long, short, with_last};
use crate::reading::same::are_same;
use sleep_model::Phase;

/// What follows a piece at the beginning of a text. None if the text begins otherwise.
#[inline(always)]
pub fn after_piece<'a>(text: &'a [u8], piece: &[u8]) -> Option<&'a [u8]>
    ensures { IfSome result (λ rest. text.now ≡ piece.now ++ rest.now) }
{
    let (front, rest) = text.split_at_checked(piece.len())?;
    if are_same(front, piece) {
        Some(rest)
    } else {
        None
    }
}

/// What follows a byte.
#[inline(always)]
pub fn after_byte(text: &[u8], byte: u8) -> Option<&[u8]>
    ensures { IfSome result (λ rest. text.now ≡ byte ∷ rest.now) }
{
    match text.split_first() {
        Some((first, rest)) if *first == byte => Some(rest),
        _ => None,
    }
}

/// What follows a word and a space.
#[inline(always)]
pub fn after_word<'a>(text: &'a [u8], word: &str) -> Option<&'a [u8]>
    ensures { IfSome result (λ rest. text.now ≡ word.now ++ space ++ rest.now) }
{
    after_byte(after_piece(text, word.as_bytes())?, b' ')
}

/// What follows a word that ends a line.
#[inline(always)]
pub fn after_last_word<'a>(text: &'a [u8], word: &str) -> Option<&'a [u8]>
    ensures { IfSome result (λ rest. text.now ≡ word.now ++ newline ++ rest.now) }
{
    after_byte(after_piece(text, word.as_bytes())?, b'\n')
}

/// The number of 64 bits that a text begins with in its one spelling, and what follows it and that byte. None
/// if the text begins otherwise.
#[inline(always)]
pub fn number_first(text: &[u8], end: u8) -> Option<(u64, &[u8])>
    ensures text { IfSome result (λ r. text.now ≡ decimal r.0 ++ end ∷ r.1.now) }
    ensures fits { IfSome result (λ r. is_word64 r.0 ≡ true) }
{
    let (first, _) = text.split_first()?;
    let mut number = first_digit(*first)?;
    for i in 1..text.len() {
        let Some(digit) = digit_of(text[i]) else {
            return Some((long(number), after_byte(&text[i..], end)?));
        };
        number = with_last(number, digit)?;
    }
    None
}

/// The same of 32 bits.
#[inline]
pub fn number32_first(text: &[u8], end: u8) -> Option<(u32, &[u8])>
    ensures text { IfSome result (λ r. text.now ≡ decimal r.0 ++ end ∷ r.1.now) }
    ensures fits { IfSome result (λ r. is_word32 r.0 ≡ true) }
{
    let (number, rest) = number_first(text, end)?;
    Some((short(number)?, rest))
}

/// The phase, and what follows its name and a space. None if the text begins otherwise.
#[inline(always)]
fn after_phase(phase: Phase, text: &[u8]) -> Option<(Phase, &[u8])>
    ensures { IfSome result (λ r. text.now ≡ phase_name r.0 ++ space ++ r.1.now) }
{
    let rest = after_word(text, phase.name())?;
    Some((phase, rest))
}

/// Which of the phases that resume devices with a name that begins so.
#[inline(always)]
fn resume_first(text: &[u8]) -> Option<(Phase, &[u8])>
    ensures { IfSome result (λ r. text.now ≡ phase_name r.0 ++ space ++ r.1.now) }
{
    match after_phase(Phase::Resume, text) {
        None => after_phase(Phase::ResumeNoirq, text),
        found => found,
    }
}

/// A phase of devices at the beginning of a text, and what follows its space. None if the text begins
/// otherwise.
#[inline(always)]
pub fn phase_first(text: &[u8]) -> Option<(Phase, &[u8])>
    ensures { IfSome result (λ r. text.now ≡ phase_name r.0 ++ space ++ r.1.now) }
{
    // One look at the first byte leaves one or two names to compare.
    match text.first() {
        Some(b's') => after_phase(Phase::Suspend, text),
        Some(b'l') => after_phase(Phase::Late, text),
        Some(b'n') => after_phase(Phase::Noirq, text),
        Some(b'e') => after_phase(Phase::Early, text),
        Some(b'p') => after_phase(Phase::Prepare, text),
        Some(b'c') => after_phase(Phase::Complete, text),
        Some(b'r') => resume_first(text),
        _ => None,
    }
}
