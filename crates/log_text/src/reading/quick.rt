//! Lines of devices, of sleeping and of time, of which most logs have most, read piece by piece, each
//! compared with its one spelling.

ghost use Rattle.std.specs.Prelude.{◌≡◌, ◌++◌, ◌∷◌, IfSome, length, nat_lt, true};
ghost use Rattle.sleep_model.specs.Fits.{fits_kind};
ghost use Rattle.phase_table.specs.Phases.{phase_name};
ghost use Rattle.sleep_model.specs.Text.{body, device as device_of, newline, space};
ghost use Rattle.log_words.specs.Verbs.{verb_word};

use crate::reading::last_named::LastNamed;
use crate::reading::machine_names::MachineNames;
use crate::reading::pieces::{
    after_byte, after_last_word, after_piece, after_word, number_first, phase_first,
};
use crate::reading::quick_sources::source_kind_first;
use log_words::{NO_ERROR, Verb};
use sleep_base::cut;
use sleep_model::{Kind, Phase, SkipCause};

/// What follows the name of that device and that byte. None if the text begins otherwise.
#[inline(always)]
fn after_device<'a>(
    machine_names: &MachineNames,
    device: u32,
    text: &'a [u8],
    end: u8,
) -> Option<&'a [u8]>
    ensures text { IfSome result (λ rest. text.now ≡ device_of machine_names.now device ++ end ∷ rest.now) }
    ensures fits { IfSome result (λ _. nat_lt device (length machine_names.now.devices) ≡ true) }
{
    if device as usize >= machine_names.machine().devices.len() {
        return None;
    }
    after_byte(
        after_piece(text, machine_names.names().device(device).as_bytes())?,
        end,
    )
}

/// The device whose name and that byte a text begins with, by that name.
#[inline(never)]
fn device_named<'a>(
    machine_names: &MachineNames,
    text: &'a [u8],
    end: u8,
) -> Option<(u32, &'a [u8])>
    ensures text { IfSome result (λ r. text.now ≡ device_of machine_names.now r.0 ++ end ∷ r.1.now) }
    ensures fits { IfSome result (λ r. nat_lt r.0 (length machine_names.now.devices) ≡ true) }
{
    let guessed = machine_names.guessed_device(text, end);
    if let Some(rest) = after_device(machine_names, guessed, text, end) {
        return Some((guessed, rest));
    }
    let (name, _) = cut(text, end);
    let device = machine_names.device(name)?;
    let rest = after_device(machine_names, device, text, end)?;
    Some((device, rest))
}

/// The device whose name and that byte a text begins with, and what follows them: mostly the device that the
/// line before names. None if the text begins otherwise.
#[inline(always)]
fn device_first<'a>(
    machine_names: &MachineNames,
    last: &LastNamed,
    text: &'a [u8],
    end: u8,
) -> Option<(u32, &'a [u8])>
    ensures text { IfSome result (λ r. text.now ≡ device_of machine_names.now r.0 ++ end ∷ r.1.now) }
    ensures fits { IfSome result (λ r. nat_lt r.0 (length machine_names.now.devices) ≡ true) }
{
    let same = last.device;
    if let Some(rest) = after_device(machine_names, same, text, end) {
        return Some((same, rest));
    }
    device_named(machine_names, text, end)
}

/// The phase and the device that a text names after that verb, and what follows them and that byte. None if
/// the text begins otherwise.
#[inline(always)]
fn phase_and_device<'a>(
    machine_names: &MachineNames,
    last: &LastNamed,
    verb: Verb,
    text: &'a [u8],
    end: u8,
) -> Option<(Phase, u32, &'a [u8])>
    ensures text { IfSome result (λ r. text.now ≡ verb_word verb ++ space ++ phase_name r.0 ++ space ++ device_of machine_names.now r.1 ++ end ∷ r.2.now) }
    ensures fits { IfSome result (λ r. nat_lt r.1 (length machine_names.now.devices) ≡ true) }
{
    let (phase, rest) = phase_first(after_word(text, verb.word())?)?;
    let (device, rest) = device_first(machine_names, last, rest, end)?;
    Some((phase, device, rest))
}

/// A callback that begins.
#[inline]
#[tactic(auto, using(std::proofs::Common::append_assoc))]
fn begin_first<'a>(
    machine_names: &MachineNames,
    last: &LastNamed,
    text: &'a [u8],
) -> Option<(Kind, &'a [u8])>
    ensures text { IfSome result (λ r. text.now ≡ body machine_names.now r.0 ++ newline ++ r.1.now) }
    ensures fits { IfSome result (λ r. fits_kind machine_names.now r.0 ≡ true) }
{
    let (phase, device, rest) = phase_and_device(machine_names, last, Verb::Begin, text, b'\n')?;
    Some((Kind::Begin(phase, device), rest))
}

/// A callback that ends and answered 0.
#[inline]
#[tactic(auto, using(std::proofs::Common::append_assoc))]
fn end_first<'a>(
    machine_names: &MachineNames,
    last: &LastNamed,
    text: &'a [u8],
) -> Option<(Kind, &'a [u8])>
    ensures text { IfSome result (λ r. text.now ≡ body machine_names.now r.0 ++ newline ++ r.1.now) }
    ensures fits { IfSome result (λ r. fits_kind machine_names.now r.0 ≡ true) }
{
    let (phase, device, rest) = phase_and_device(machine_names, last, Verb::End, text, b' ')?;
    let rest = after_last_word(rest, NO_ERROR)?;
    Some((Kind::End(phase, device, None), rest))
}

/// A device that is prepared and answers 0.
#[tactic(auto, using(std::proofs::Common::append_assoc, crate::proofs::Pieces::answered_zero))]
fn prepare_first<'a>(
    machine_names: &MachineNames,
    last: &LastNamed,
    text: &'a [u8],
) -> Option<(Kind, &'a [u8])>
    ensures text { IfSome result (λ r. text.now ≡ body machine_names.now r.0 ++ newline ++ r.1.now) }
    ensures fits { IfSome result (λ r. fits_kind machine_names.now r.0 ≡ true) }
{
    let text = after_word(text, Verb::Prepare.word())?;
    let (device, rest) = device_first(machine_names, last, text, b' ')?;
    let rest = after_last_word(rest, NO_ERROR)?;
    Some((Kind::Prepare { device, r: 0 }, rest))
}

/// A device that is completed.
#[tactic(auto, using(std::proofs::Common::append_assoc))]
fn complete_first<'a>(
    machine_names: &MachineNames,
    last: &LastNamed,
    text: &'a [u8],
) -> Option<(Kind, &'a [u8])>
    ensures text { IfSome result (λ r. text.now ≡ body machine_names.now r.0 ++ newline ++ r.1.now) }
    ensures fits { IfSome result (λ r. fits_kind machine_names.now r.0 ≡ true) }
{
    let text = after_word(text, Verb::Complete.word())?;
    let (device, rest) = device_first(machine_names, last, text, b'\n')?;
    Some((Kind::Complete(device), rest))
}

/// A device that is scheduled.
#[tactic(auto, using(std::proofs::Common::append_assoc))]
fn schedule_first<'a>(
    machine_names: &MachineNames,
    last: &LastNamed,
    text: &'a [u8],
) -> Option<(Kind, &'a [u8])>
    ensures text { IfSome result (λ r. text.now ≡ body machine_names.now r.0 ++ newline ++ r.1.now) }
    ensures fits { IfSome result (λ r. fits_kind machine_names.now r.0 ≡ true) }
{
    let (phase, device, rest) = phase_and_device(machine_names, last, Verb::Schedule, text, b'\n')?;
    Some((Kind::Schedule(phase, device), rest))
}

/// A device that is passed over as direct-complete.
#[tactic(auto, using(std::proofs::Common::append_assoc))]
fn skip_first<'a>(
    machine_names: &MachineNames,
    last: &LastNamed,
    text: &'a [u8],
) -> Option<(Kind, &'a [u8])>
    ensures text { IfSome result (λ r. text.now ≡ body machine_names.now r.0 ++ newline ++ r.1.now) }
    ensures fits { IfSome result (λ r. fits_kind machine_names.now r.0 ≡ true) }
{
    let (phase, device, rest) = phase_and_device(machine_names, last, Verb::Skip, text, b' ')?;
    let rest = after_last_word(rest, SkipCause::Direct.name())?;
    Some((Kind::Skip(phase, device, SkipCause::Direct), rest))
}

/// A phase that is done without an error.
#[tactic(auto, using(std::proofs::Common::append_assoc))]
fn done_first<'a>(machine_names: &MachineNames, text: &'a [u8]) -> Option<(Kind, &'a [u8])>
    ensures text { IfSome result (λ r. text.now ≡ body machine_names.now r.0 ++ newline ++ r.1.now) }
    ensures fits { IfSome result (λ r. fits_kind machine_names.now r.0 ≡ true) }
{
    let (phase, rest) = phase_first(after_word(text, Verb::Done.word())?)?;
    let rest = after_last_word(rest, NO_ERROR)?;
    Some((Kind::Done(phase, None), rest))
}

/// Time jumps.
#[inline]
fn jump_first<'a>(machine_names: &MachineNames, text: &'a [u8]) -> Option<(Kind, &'a [u8])>
    ensures text { IfSome result (λ r. text.now ≡ body machine_names.now r.0 ++ newline ++ r.1.now) }
    ensures fits { IfSome result (λ r. fits_kind machine_names.now r.0 ≡ true) }
{
    let rest = after_last_word(text, Verb::Jump.word())?;
    Some((Kind::Jump, rest))
}

/// A sleep ends.
#[inline]
fn slept_first<'a>(machine_names: &MachineNames, text: &'a [u8]) -> Option<(Kind, &'a [u8])>
    ensures text { IfSome result (λ r. text.now ≡ body machine_names.now r.0 ++ newline ++ r.1.now) }
    ensures fits { IfSome result (λ r. fits_kind machine_names.now r.0 ≡ true) }
{
    let rest = after_last_word(text, Verb::Slept.word())?;
    Some((Kind::Slept, rest))
}

/// A sleep begins, up to a moment.
#[tactic(auto, using(std::proofs::Common::append_assoc))]
fn sleep_first<'a>(machine_names: &MachineNames, text: &'a [u8]) -> Option<(Kind, &'a [u8])>
    ensures text { IfSome result (λ r. text.now ≡ body machine_names.now r.0 ++ newline ++ r.1.now) }
    ensures fits { IfSome result (λ r. fits_kind machine_names.now r.0 ≡ true) }
{
    let text = after_word(text, Verb::Sleep.word())?;
    let (until, rest) = number_first(text, b'\n')?;
    Some((Kind::Sleep(until), rest))
}

/// A sleep begins or ends.
fn sleep_or_slept<'a>(machine_names: &MachineNames, text: &'a [u8]) -> Option<(Kind, &'a [u8])>
    ensures text { IfSome result (λ r. text.now ≡ body machine_names.now r.0 ++ newline ++ r.1.now) }
    ensures fits { IfSome result (λ r. fits_kind machine_names.now r.0 ≡ true) }
{
    match slept_first(machine_names, text) {
        None => sleep_first(machine_names, text),
        found => found,
    }
}

/// What a text begins with of a device or of sleeping, if its first byte is an `s`.
fn kind_with_s<'a>(
    machine_names: &MachineNames,
    last: &LastNamed,
    text: &'a [u8],
) -> Option<(Kind, &'a [u8])>
    ensures text { IfSome result (λ r. text.now ≡ body machine_names.now r.0 ++ newline ++ r.1.now) }
    ensures fits { IfSome result (λ r. fits_kind machine_names.now r.0 ≡ true) }
{
    match text.get(1) {
        Some(b'l') => sleep_or_slept(machine_names, text),
        Some(b'c') => schedule_first(machine_names, last, text),
        Some(b'k') => skip_first(machine_names, last, text),
        _ => None,
    }
}

/// What a text begins with of a device, of a phase of devices, of sleeping or of time, and what follows its
/// line. None also for what few lines have, as an error.
#[inline]
fn device_kind_first<'a>(
    machine_names: &MachineNames,
    last: &LastNamed,
    text: &'a [u8],
) -> Option<(Kind, &'a [u8])>
    ensures text { IfSome result (λ r. text.now ≡ body machine_names.now r.0 ++ newline ++ r.1.now) }
    ensures fits { IfSome result (λ r. fits_kind machine_names.now r.0 ≡ true) }
{
    // One look at the first byte leaves few words to compare.
    match text.first() {
        Some(b'b') => begin_first(machine_names, last, text),
        Some(b'e') => end_first(machine_names, last, text),
        Some(b'p') => prepare_first(machine_names, last, text),
        Some(b'c') => complete_first(machine_names, last, text),
        Some(b's') => kind_with_s(machine_names, last, text),
        Some(b'd') => done_first(machine_names, text),
        Some(b'j') => jump_first(machine_names, text),
        _ => None,
    }
}

/// What most lines say at the beginning of a text: something of a device, of sleeping or time, or of a
/// source.
#[inline]
pub fn kind_first<'a>(
    machine_names: &MachineNames,
    last: &LastNamed,
    text: &'a [u8],
) -> Option<(Kind, &'a [u8])>
    ensures text { IfSome result (λ r. text.now ≡ body machine_names.now r.0 ++ newline ++ r.1.now) }
    ensures fits { IfSome result (λ r. fits_kind machine_names.now r.0 ≡ true) }
{
    if let Some((kind, rest)) = device_kind_first(machine_names, last, text) {
        return Some((kind, rest));
    }
    let (kind, rest) = source_kind_first(machine_names, last, text)?;
    Some((kind, rest))
}
