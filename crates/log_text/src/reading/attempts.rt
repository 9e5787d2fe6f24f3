//! What the entries of an attempt say after their verb, read: its notifiers, freezer, platform, processors
//! and syscore operations.
ghost use Rattle.std.specs.Prelude.{◌≡◌, true, IfSome};
ghost use Rattle.sleep_model.specs.Fits.{fits_kind, fits_froze};
ghost use Rattle.sleep_model.specs.declared.machine.Machine.{Machine};
ghost use Rattle.log_text.specs.Reading.{attempt_kind, over_kind, notify_kind, failed_in, froze_in, froze_kind, platform_kind, cpu_kind, syscore_down, syscore_kind};

use crate::reading::cut::{first_word, is};
use crate::reading::machine_names::MachineNames;
use crate::reading::meaning::{answer_in, down_in, group_in};
use crate::reading::number::word32;
use log_words::{CHECK, NO_ERROR, OFF, ON, POST, RESUME, TIMEOUT};
use sleep_model::{FrozeEnd, Kind, PlatUndo};

/// What follows `attempt`.
pub fn attempt_kind(text: &[u8]) -> Option<Kind>
    ensures kind { result ≡ attempt_kind text.now }
    ensures fits { (m : Machine) → IfSome result (λ k. fits_kind m k ≡ true) }
{
    let (n, rest) = first_word(text);
    let (_, count) = first_word(rest);
    let n = word32(n)?;
    let guarded = word32(count);
    Some(Kind::Attempt { n, guarded })
}

/// What follows `over`.
pub fn over_kind(text: &[u8]) -> Option<Kind>
    ensures kind { result ≡ over_kind text.now }
    ensures fits { (m : Machine) → IfSome result (λ k. fits_kind m k ≡ true) }
{
    let (n, answer) = first_word(text);
    let n = word32(n)?;
    let r = answer_in(answer);
    Some(Kind::Over { n, r })
}

/// What follows `notify`.
pub fn notify_kind(machine_names: &MachineNames, text: &[u8]) -> Option<Kind>
    ensures kind { result ≡ notify_kind machine_names.now text.now }
    ensures fits { IfSome result (λ k. fits_kind machine_names.now k ≡ true) }
{
    let (notifier, rest) = first_word(text);
    let notifier = machine_names.notifier(notifier)?;
    if is(rest, POST) {
        return Some(Kind::NotifyPost(notifier));
    }
    let (_, answer) = first_word(rest);
    Some(Kind::NotifyPrepare(notifier, answer_in(answer)))
}

/// How a freeze failed, and the tasks that it left.
fn failed_in(machine_names: &MachineNames, text: &[u8]) -> Option<FrozeEnd>
    ensures end { result ≡ failed_in machine_names.now text.now }
    ensures fits { IfSome result (λ e. fits_froze machine_names.now e ≡ true) }
{
    let (why, rest) = first_word(text);
    let (left, first) = first_word(rest);
    let left = word32(left)?;
    let first = machine_names.script(first)?;
    if is(why, TIMEOUT) {
        return Some(FrozeEnd::Timeout { left, first });
    }
    Some(FrozeEnd::Wakeup { left, first })
}

/// How a freeze ended.
fn froze_in(machine_names: &MachineNames, text: &[u8]) -> Option<FrozeEnd>
    ensures end { result ≡ froze_in machine_names.now text.now }
    ensures fits { IfSome result (λ e. fits_froze machine_names.now e ≡ true) }
{
    if is(text, NO_ERROR) {
        return Some(FrozeEnd::AllFrozen);
    }
    let (_, rest) = first_word(text);
    failed_in(machine_names, rest)
}

/// What follows `froze`.
pub fn froze_kind(machine_names: &MachineNames, text: &[u8]) -> Option<Kind>
    ensures kind { result ≡ froze_kind machine_names.now text.now }
    ensures fits { IfSome result (λ k. fits_kind machine_names.now k ≡ true) }
{
    let (group, rest) = first_word(text);
    let end = froze_in(machine_names, rest)?;
    Some(Kind::Froze(group_in(group), end))
}

/// What follows `platform`.
#[tactic(auto, using(crate::proofs::WordsInjective::up_injective, crate::proofs::WordsInjective::up_untold))]
pub fn platform_kind(text: &[u8]) -> Kind
    ensures kind { result ≡ platform_kind text.now }
    ensures fits { (m : Machine) → fits_kind m result ≡ true }
{
    match PlatUndo::of_bytes(text) {
        Some(step) => Kind::PlatformUndo(step),
        None => {
            let (what, answer) = first_word(text);
            Kind::PlatformDo(down_in(what), answer_in(answer))
        }
    }
}

/// What follows `cpu`.
pub fn cpu_kind(text: &[u8]) -> Option<Kind>
    ensures kind { result ≡ cpu_kind text.now }
    ensures fits { (m : Machine) → IfSome result (λ k. fits_kind m k ≡ true) }
{
    let (what, cpu) = first_word(text);
    let cpu = word32(cpu)?;
    if is(what, OFF) {
        return Some(Kind::CpuOff(cpu));
    }
    if is(what, ON) {
        return Some(Kind::CpuOn(cpu));
    }
    Some(Kind::CpuBusy(cpu))
}

/// What follows `syscore suspend`.
fn syscore_down(machine_names: &MachineNames, text: &[u8]) -> Option<Kind>
    ensures kind { result ≡ syscore_down machine_names.now text.now }
    ensures fits { IfSome result (λ k. fits_kind machine_names.now k ≡ true) }
{
    let (step, answer) = first_word(text);
    let step = machine_names.syscore(step)?;
    Some(Kind::SyscoreSuspend(step, answer_in(answer)))
}

/// What follows `syscore`.
pub fn syscore_kind(machine_names: &MachineNames, text: &[u8]) -> Option<Kind>
    ensures kind { result ≡ syscore_kind machine_names.now text.now }
    ensures fits { IfSome result (λ k. fits_kind machine_names.now k ≡ true) }
{
    let (what, rest) = first_word(text);
    if is(what, CHECK) {
        return Some(Kind::SyscoreCheck(answer_in(rest)));
    }
    if is(what, RESUME) {
        return Some(Kind::SyscoreResume(machine_names.syscore(rest)?));
    }
    syscore_down(machine_names, rest)
}
