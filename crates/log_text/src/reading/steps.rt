//! What the entries of scripts and sources say after their verb, read.
ghost use Rattle.std.specs.Prelude.{◌≡◌, true, IfSome, option_map};
ghost use Rattle.sleep_model.specs.Fits.{fits_kind};
ghost use Rattle.sleep_model.specs.declared.machine.Machine.{Machine};
ghost use Rattle.log_text.specs.Cutting.{word, rest, word32};
ghost use Rattle.log_text.specs.Reading.{read_kind, save_kind, state_kind, autosleep_kind, runtime_kind, link_kind, link_state_kind, event_kind};

use crate::reading::cut::{first_word, is};
use crate::reading::machine_names::MachineNames;
use crate::reading::meaning::{answer_in, errno_in, state_in};
use crate::reading::number::word32;
use log_words::{DONE, HARD, OK, UNSAVED, WAIT};
use sleep_base::Errno;
use sleep_model::{Kind, link_word, runtime_word};

/// What follows `read`.
pub fn read_kind(text: &[u8]) -> Kind
    ensures kind { result ≡ read_kind text.now (word32 text.now) }
    ensures fits { (m : Machine) → fits_kind m result ≡ true }
{
    match word32(text) {
        Some(count) => Kind::Read(count),
        None if is(text, WAIT) => Kind::ReadWait,
        None => Kind::ReadIntr,
    }
}

/// What follows `save`.
pub fn save_kind(text: &[u8]) -> Option<Kind>
    ensures kind { result ≡ option_map (save_kind (rest text.now)) (word32 (word text.now)) }
    ensures fits { (m : Machine) → IfSome result (λ k. fits_kind m k ≡ true) }
{
    let (count, rest) = first_word(text);
    let count = word32(count)?;
    if is(rest, WAIT) {
        return Some(Kind::SaveWait(count));
    }
    if is(rest, OK) {
        return Some(Kind::Saved(count));
    }
    Some(Kind::SaveErr(count, errno_in(rest)))
}

/// What follows `state`.
pub fn state_kind(text: &[u8]) -> Kind
    ensures kind { result ≡ state_kind text.now }
    ensures fits { (m : Machine) → fits_kind m result ≡ true }
{
    if is(text, WAIT) {
        return Kind::StateWait;
    }
    if is(text, UNSAVED) {
        return Kind::StateUnsaved;
    }
    Kind::StateErr(errno_in(text))
}

/// What follows `autosleep`.
pub fn autosleep_kind(text: &[u8]) -> Kind
    ensures kind { result ≡ autosleep_kind text.now }
    ensures fits { (m : Machine) → fits_kind m result ≡ true }
{
    if is(text, Errno::EINVAL.name()) {
        return Kind::AutoBad;
    }
    if is(text, DONE) {
        return Kind::AutoDone;
    }
    let (_, state) = first_word(text);
    Kind::AutoSet(state_in(state))
}

/// What follows `runtime`.
pub fn runtime_kind(machine_names: &MachineNames, text: &[u8]) -> Option<Kind>
    ensures kind { result ≡ runtime_kind machine_names.now text.now }
    ensures fits { IfSome result (λ k. fits_kind machine_names.now k ≡ true) }
{
    let (device, rest) = first_word(text);
    let (to, answer) = first_word(rest);
    let device = machine_names.device(device)?;
    Some(Kind::RuntimeAsk {
        device,
        to_suspended: is(to, runtime_word(true)),
        r: answer_in(answer),
    })
}

/// What follows `link`.
pub fn link_kind(machine_names: &MachineNames, text: &[u8]) -> Option<Kind>
    ensures kind { result ≡ link_kind machine_names.now text.now }
    ensures fits { IfSome result (λ k. fits_kind machine_names.now k ≡ true) }
{
    let (supplier, rest) = first_word(text);
    let (consumer, answer) = first_word(rest);
    let supplier = machine_names.device(supplier)?;
    let consumer = machine_names.device(consumer)?;
    Some(Kind::LinkAdd {
        supplier,
        consumer,
        r: answer_in(answer),
    })
}

/// What follows `link_state`.
pub fn link_state_kind(machine_names: &MachineNames, text: &[u8]) -> Option<Kind>
    ensures kind { result ≡ link_state_kind machine_names.now text.now }
    ensures fits { IfSome result (λ k. fits_kind machine_names.now k ≡ true) }
{
    let (supplier, rest) = first_word(text);
    let (consumer, rest) = first_word(rest);
    let (to, answer) = first_word(rest);
    let supplier = machine_names.device(supplier)?;
    let consumer = machine_names.device(consumer)?;
    Some(Kind::LinkState {
        supplier,
        consumer,
        active: is(to, link_word(true)),
        r: answer_in(answer),
    })
}

/// What follows `event`.
pub fn event_kind(machine_names: &MachineNames, text: &[u8]) -> Option<Kind>
    ensures kind { result ≡ event_kind machine_names.now text.now }
    ensures fits { IfSome result (λ k. fits_kind machine_names.now k ≡ true) }
{
    let (source, rest) = first_word(text);
    let (ms, hard) = first_word(rest);
    let source = machine_names.source(source)?;
    let ms = word32(ms)?;
    let hard = is(hard, HARD);
    Some(Kind::Event { source, ms, hard })
}
