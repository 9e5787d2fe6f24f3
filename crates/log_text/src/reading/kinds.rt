//! What an entry says, read by its verb.
ghost use Rattle.std.specs.Prelude.{◌≡◌, true, IfSome, Some};
ghost use Rattle.sleep_model.specs.Fits.{fits_kind, fits_froze};
ghost use Rattle.log_text.specs.Reading.{kind_in, kind_by, task_by, auto_by, source_by, attempt_by};

use crate::reading::attempts::{
    attempt_kind, cpu_kind, froze_kind, notify_kind, over_kind, platform_kind, syscore_kind,
};
use crate::reading::cut::{first_word, is};
use crate::reading::devices::{begin_kind, end_kind, prepare_kind, schedule_kind, skip_kind};
use crate::reading::machine_names::MachineNames;
use crate::reading::meaning::{answer_in, group_in, phase_in, thaw_in};
use crate::reading::number::{word32, word64};
use crate::reading::steps::{
    autosleep_kind, event_kind, link_kind, link_state_kind, read_kind, runtime_kind, save_kind,
    state_kind,
};
use log_words::{EVENT, ON, Verb};
use sleep_base::Errno;
use sleep_model::Kind;

/// What an entry says, if the text says it at all: read leniently. The numbers fit the machine.
pub fn kind_in(machine_names: &MachineNames, text: &[u8]) -> Option<Kind>
    ensures kind { result ≡ kind_in machine_names.now text.now }
    ensures fits { IfSome result (λ k. fits_kind machine_names.now k ≡ true) }
{
    let (word, rest) = first_word(text);
    let verb = Verb::of_bytes(word)?;
    kind_by(machine_names, verb, rest)
}

/// What follows a verb.
fn kind_by(machine_names: &MachineNames, verb: Verb, text: &[u8]) -> Option<Kind>
    ensures kind { result ≡ kind_by machine_names.now verb text.now }
    ensures fits { IfSome result (λ k. fits_kind machine_names.now k ≡ true) }
{
    match verb {
        Verb::Begin => begin_kind(machine_names, text),
        Verb::End => end_kind(machine_names, text),
        Verb::Prepare => prepare_kind(machine_names, text),
        Verb::Complete => Some(Kind::Complete(machine_names.device(text)?)),
        Verb::Schedule => schedule_kind(machine_names, text),
        Verb::Skip => skip_kind(machine_names, text),
        Verb::Done => {
            let (phase, answer) = first_word(text);
            Some(Kind::Done(phase_in(phase), answer_in(answer)))
        }
        _ => task_by(machine_names, verb, text),
    }
}

/// What follows a verb of a task, and of all but devices.
fn task_by(machine_names: &MachineNames, verb: Verb, text: &[u8]) -> Option<Kind>
    ensures kind { result ≡ task_by machine_names.now verb text.now }
    ensures fits { IfSome result (λ k. fits_kind machine_names.now k ≡ true) }
{
    match verb {
        Verb::Frozen => Some(Kind::Frozen),
        Verb::Read => Some(read_kind(text)),
        Verb::Save => save_kind(text),
        Verb::State => Some(state_kind(text)),
        Verb::Autosleep => Some(autosleep_kind(text)),
        Verb::Sleep => Some(Kind::Sleep(word64(text)?)),
        Verb::SleepD => Some(Kind::SleepD(word64(text)?)),
        Verb::Slept => Some(Kind::Slept),
        Verb::Pass => Some(Kind::Pass),
        Verb::Post => Some(Kind::Post(machine_names.mark(text)?)),
        Verb::Got => Some(Kind::Got(machine_names.mark(text)?)),
        Verb::Exit => Some(Kind::Exit),
        Verb::Runtime => runtime_kind(machine_names, text),
        Verb::Link => link_kind(machine_names, text),
        Verb::LinkState => link_state_kind(machine_names, text),
        _ => auto_by(machine_names, verb, text),
    }
}

/// What follows a verb of the autosleep work, and of all but tasks and devices.
fn auto_by(machine_names: &MachineNames, verb: Verb, text: &[u8]) -> Option<Kind>
    ensures kind { result ≡ auto_by machine_names.now verb text.now }
    ensures fits { IfSome result (λ k. fits_kind machine_names.now k ≡ true) }
{
    match verb {
        Verb::Run => Some(Kind::AutoRun),
        Verb::Saved => Some(Kind::AutoSaved(word32(text)?)),
        Verb::Unsaved => Some(Kind::AutoUnsaved(word32(text)?)),
        Verb::After => Some(Kind::AutoAfter(word32(text))),
        Verb::Again => Some(Kind::AutoAgain),
        Verb::Off => Some(Kind::AutoOff),
        _ => source_by(machine_names, verb, text),
    }
}

/// What follows a verb of a source or of time, and of an attempt.
fn source_by(machine_names: &MachineNames, verb: Verb, text: &[u8]) -> Option<Kind>
    ensures kind { result ≡ source_by machine_names.now verb text.now }
    ensures fits { IfSome result (λ k. fits_kind machine_names.now k ≡ true) }
{
    match verb {
        Verb::Awake => Some(Kind::Awake(machine_names.source(text)?)),
        Verb::Relax => Some(Kind::Relax(machine_names.source(text)?)),
        Verb::Event => event_kind(machine_names, text),
        Verb::Expire => Some(Kind::Expire(machine_names.source(text)?)),
        Verb::Start => Some(Kind::Start(machine_names.source(text)?)),
        Verb::Finish => Some(Kind::Finish(machine_names.source(text)?)),
        Verb::Hard => Some(Kind::Hard(machine_names.source(text)?)),
        Verb::Jump => Some(Kind::Jump),
        _ => attempt_by(machine_names, verb, text),
    }
}

/// What follows a verb of an attempt.
fn attempt_by(machine_names: &MachineNames, verb: Verb, text: &[u8]) -> Option<Kind>
    ensures kind { result ≡ attempt_by machine_names.now verb text.now }
    ensures fits { IfSome result (λ k. fits_kind machine_names.now k ≡ true) }
{
    match verb {
        Verb::Attempt => attempt_kind(text),
        Verb::Over => over_kind(text),
        Verb::Notify => notify_kind(machine_names, text),
        Verb::Freeze => Some(Kind::Freeze(group_in(text))),
        Verb::Froze => froze_kind(machine_names, text),
        Verb::Thaw => Some(Kind::Thaw(thaw_in(text))),
        Verb::Platform => Some(platform_kind(text)),
        Verb::Cpu => cpu_kind(text),
        Verb::Irqs => Some(Kind::Irqs { on: is(text, ON) }),
        Verb::Syscore => syscore_kind(machine_names, text),
        Verb::Enter => Some(Kind::Enter {
            busy: is(text, Errno::EBUSY.name()),
        }),
        Verb::Wake => Some(Kind::Wake {
            by_event: is(text, EVENT),
        }),
        Verb::Clear => Some(Kind::Clear),
        _ => None,
    }
}
