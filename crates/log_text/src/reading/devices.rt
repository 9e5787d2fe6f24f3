//! What the entries of a device's phases say after their verb, read.
ghost use Rattle.std.specs.Prelude.{◌≡◌, true, IfSome};
ghost use Rattle.sleep_model.specs.Fits.{fits_kind};
ghost use Rattle.log_text.specs.Reading.{prepare_kind, schedule_kind, begin_kind, end_kind, skip_kind};

use crate::reading::cut::first_word;
use crate::reading::machine_names::MachineNames;
use crate::reading::meaning::{answer_in, cause_in, phase_in, prepare_in};
use sleep_model::Kind;

/// What follows `prepare`.
pub fn prepare_kind(machine_names: &MachineNames, text: &[u8]) -> Option<Kind>
    ensures kind { result ≡ prepare_kind machine_names.now text.now }
    ensures fits { IfSome result (λ k. fits_kind machine_names.now k ≡ true) }
{
    let (device, answer) = first_word(text);
    let device = machine_names.device(device)?;
    let r = prepare_in(answer);
    Some(Kind::Prepare { device, r })
}

/// What follows `schedule`.
pub fn schedule_kind(machine_names: &MachineNames, text: &[u8]) -> Option<Kind>
    ensures kind { result ≡ schedule_kind machine_names.now text.now }
    ensures fits { IfSome result (λ k. fits_kind machine_names.now k ≡ true) }
{
    let (phase, device) = first_word(text);
    let device = machine_names.device(device)?;
    Some(Kind::Schedule(phase_in(phase), device))
}

/// What follows `begin`.
pub fn begin_kind(machine_names: &MachineNames, text: &[u8]) -> Option<Kind>
    ensures kind { result ≡ begin_kind machine_names.now text.now }
    ensures fits { IfSome result (λ k. fits_kind machine_names.now k ≡ true) }
{
    let (phase, device) = first_word(text);
    let device = machine_names.device(device)?;
    Some(Kind::Begin(phase_in(phase), device))
}

/// What follows `end`.
pub fn end_kind(machine_names: &MachineNames, text: &[u8]) -> Option<Kind>
    ensures kind { result ≡ end_kind machine_names.now text.now }
    ensures fits { IfSome result (λ k. fits_kind machine_names.now k ≡ true) }
{
    let (phase, rest) = first_word(text);
    let (device, answer) = first_word(rest);
    let device = machine_names.device(device)?;
    Some(Kind::End(phase_in(phase), device, answer_in(answer)))
}

/// What follows `skip`.
pub fn skip_kind(machine_names: &MachineNames, text: &[u8]) -> Option<Kind>
    ensures kind { result ≡ skip_kind machine_names.now text.now }
    ensures fits { IfSome result (λ k. fits_kind machine_names.now k ≡ true) }
{
    let (phase, rest) = first_word(text);
    let (device, cause) = first_word(rest);
    let device = machine_names.device(device)?;
    Some(Kind::Skip(phase_in(phase), device, cause_in(cause)))
}
