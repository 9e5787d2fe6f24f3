//! What an entry says, written after its actor.
ghost use Rattle.std.specs.Prelude.{◌≡◌, ◌+◌, ◌≤◌, ◌++◌, length, true};
ghost use Rattle.log_text.specs.Words.{is_negative};
ghost use Rattle.sleep_model.specs.declared.entry.Kind.TheVariants as kind;
ghost use Rattle.sleep_model.specs.Text.{answer_text, body, device, link_word, space, step_body, auto_body, source_body, phase_body, attempt_body, platform_body, froze_text, prepare_text};

use crate::writing::put::{put, put_words};
use crate::writing::ready::ReadyNames;
use log_words::{
    ALARM, ALL, BUSY, ByteBuffer, CHECK, DONE, EVENT, GUARDED, HARD, NO_ERROR, OFF, OK, ON, PLAIN,
    POST, PREPARE, RESUME, SET, SOFT, SUSPEND, Spelled, TIMEOUT, UNSAVED, Verb, WAIT, WAKEUP,
};
use sleep_base::Errno;
use sleep_model::{FrozeEnd, Group, Kind, Thaw, link_word, runtime_word};

/// Writes what an entry says.
#[tactic(auto, using(std::proofs::Common::append_assoc))]
#[inline(always)]
pub fn put_body(out: &mut ByteBuffer, names: &ReadyNames, kind: Kind)
    requires { length out.old + 512 ≤ 32768 }
    ensures text { out.new ≡ out.old ++ body names.now kind }
    ensures few { length out.new ≤ length out.old + 512 }
{
    match kind {
        Kind::Frozen => put_words!(out; Verb::Frozen),
        Kind::ReadWait => put_words!(out; Verb::Read, WAIT),
        Kind::Read(count) => put_words!(out; Verb::Read, count),
        Kind::ReadIntr => put_words!(out; Verb::Read, Errno::EINTR),
        Kind::SaveWait(count) => put_words!(out; Verb::Save, count, WAIT),
        Kind::Saved(count) => put_words!(out; Verb::Save, count, OK),
        Kind::SaveErr(count, error) => put_words!(out; Verb::Save, count, error),
        Kind::StateWait => put_words!(out; Verb::State, WAIT),
        Kind::StateErr(error) => put_words!(out; Verb::State, error),
        Kind::StateUnsaved => put_words!(out; Verb::State, UNSAVED),
        Kind::AutoBad => put_words!(out; Verb::Autosleep, Errno::EINVAL),
        Kind::AutoSet(state) => put_words!(out; Verb::Autosleep, SET, state),
        Kind::AutoDone => put_words!(out; Verb::Autosleep, DONE),
        _ => put_step(out, names, kind),
    }
}

/// Writes which consumer's link was set, to which state, and the answer.
#[tactic(auto, using(std::proofs::Common::append_assoc))]
fn put_set(out: &mut ByteBuffer, names: &ReadyNames, consumer: u32, active: bool, r: Option<Errno>)
    requires { length out.old + 320 ≤ 32768 }
    ensures text { out.new ≡ out.old ++ (device names.now consumer ++ space ++ link_word active ++ space ++ answer_text r) }
    ensures few { length out.new ≤ length out.old + 320 }
{
    put_words!(out; names.device(consumer), link_word(active), r)
}

/// Writes what an entry that sets the state of a link says.
#[tactic(auto, using(std::proofs::Common::append_assoc))]
fn put_link_state(
    out: &mut ByteBuffer,
    names: &ReadyNames,
    supplier: u32,
    consumer: u32,
    active: bool,
    r: Option<Errno>,
)
    requires { length out.old + 512 ≤ 32768 }
    ensures text { out.new ≡ out.old ++ step_body names.now (kind.LinkState supplier consumer active r) }
    ensures few { length out.new ≤ length out.old + 512 }
{
    put_words!(out; Verb::LinkState, names.device(supplier));
    put!(out; b' ');
    put_set(out, names, consumer, active, r);
}

/// Writes what an entry of a task's other steps says.
#[tactic(auto, using(std::proofs::Common::append_assoc))]
#[inline(always)]
fn put_step(out: &mut ByteBuffer, names: &ReadyNames, kind: Kind)
    requires { length out.old + 512 ≤ 32768 }
    ensures text { out.new ≡ out.old ++ step_body names.now kind }
    ensures few { length out.new ≤ length out.old + 512 }
{
    match kind {
        Kind::Sleep(ms) => put_words!(out; Verb::Sleep, ms),
        Kind::SleepD(ms) => put_words!(out; Verb::SleepD, ms),
        Kind::Slept => put_words!(out; Verb::Slept),
        Kind::Pass => put_words!(out; Verb::Pass),
        Kind::Post(index) => put_words!(out; Verb::Post, names.mark(index)),
        Kind::Got(index) => put_words!(out; Verb::Got, names.mark(index)),
        Kind::Exit => put_words!(out; Verb::Exit),
        Kind::RuntimeAsk {
            device,
            to_suspended,
            r,
        } => put_words!(out; Verb::Runtime, names.device(device), runtime_word(to_suspended), r),
        Kind::LinkAdd {
            supplier,
            consumer,
            r,
        } => put_words!(out; Verb::Link, names.device(supplier), names.device(consumer), r),
        Kind::LinkState {
            supplier,
            consumer,
            active,
            r,
        } => put_link_state(out, names, supplier, consumer, active, r),
        _ => put_auto(out, names, kind),
    }
}

/// Writes what an entry of the autosleep work says.
#[tactic(auto, using(std::proofs::Common::append_assoc))]
#[inline(always)]
fn put_auto(out: &mut ByteBuffer, names: &ReadyNames, kind: Kind)
    requires { length out.old + 512 ≤ 32768 }
    ensures text { out.new ≡ out.old ++ auto_body names.now kind }
    ensures few { length out.new ≤ length out.old + 512 }
{
    match kind {
        Kind::AutoRun => put_words!(out; Verb::Run),
        Kind::AutoSaved(count) => put_words!(out; Verb::Saved, count),
        Kind::AutoUnsaved(count) => put_words!(out; Verb::Unsaved, count),
        Kind::AutoAfter(Some(count)) => put_words!(out; Verb::After, count),
        Kind::AutoAfter(None) => put_words!(out; Verb::After, BUSY),
        Kind::AutoAgain => put_words!(out; Verb::Again),
        Kind::AutoOff => put_words!(out; Verb::Off),
        _ => put_source(out, names, kind),
    }
}

/// Writes what an entry of a wakeup source or of time says.
#[tactic(auto, using(std::proofs::Common::append_assoc))]
#[inline(always)]
fn put_source(out: &mut ByteBuffer, names: &ReadyNames, kind: Kind)
    requires { length out.old + 512 ≤ 32768 }
    ensures text { out.new ≡ out.old ++ source_body names.now kind }
    ensures few { length out.new ≤ length out.old + 512 }
{
    match kind {
        Kind::Awake(index) => put_words!(out; Verb::Awake, names.source(index)),
        Kind::Relax(index) => put_words!(out; Verb::Relax, names.source(index)),
        Kind::Event { source, ms, hard } => {
            let hard = if hard { HARD } else { SOFT };
            put_words!(out; Verb::Event, names.source(source), ms, hard)
        }
        Kind::Expire(index) => put_words!(out; Verb::Expire, names.source(index)),
        Kind::Start(index) => put_words!(out; Verb::Start, names.source(index)),
        Kind::Finish(index) => put_words!(out; Verb::Finish, names.source(index)),
        Kind::Hard(index) => put_words!(out; Verb::Hard, names.source(index)),
        Kind::Jump => put_words!(out; Verb::Jump),
        _ => put_phase(out, names, kind),
    }
}

/// Writes what an entry of a device phase says.
#[tactic(auto, using(std::proofs::Common::append_assoc))]
#[inline(always)]
fn put_phase(out: &mut ByteBuffer, names: &ReadyNames, kind: Kind)
    requires { length out.old + 512 ≤ 32768 }
    ensures text { out.new ≡ out.old ++ phase_body names.now kind }
    ensures few { length out.new ≤ length out.old + 512 }
{
    match kind {
        Kind::Prepare { device, r } => {
            put_words!(out; Verb::Prepare, names.device(device));
            put!(out; b' ');
            put_prepare_answer(out, r)
        }
        Kind::Complete(index) => put_words!(out; Verb::Complete, names.device(index)),
        Kind::Schedule(phase, index) => put_words!(out; Verb::Schedule, phase, names.device(index)),
        Kind::Begin(phase, index) => put_words!(out; Verb::Begin, phase, names.device(index)),
        Kind::End(phase, index, r) => put_words!(out; Verb::End, phase, names.device(index), r),
        Kind::Skip(phase, index, cause) =>
            put_words!(out; Verb::Skip, phase, names.device(index), cause),
        Kind::Done(phase, r) => put_words!(out; Verb::Done, phase, r),
        _ => put_attempt(out, names, kind),
    }
}

/// The name of the error that a number below 0 means; of one that callbacks do not know, EINVAL.
#[tactic(auto, using(crate::proofs::WordsInjective::failed_injective, log_words::proofs::Lengths::error_short))]
fn failed_prepare(r: i32) -> &'static str
    requires { is_negative r ≡ true }
    ensures text { result.now ≡ prepare_text r }
    ensures short { length result.now ≤ 64 }
{
    Errno::of_answer(r).unwrap_or(Errno::EINVAL).name()
}

/// Writes what a device's prepare answered: 0, 1, or an error's name.
fn put_prepare_answer(out: &mut ByteBuffer, r: i32)
    requires { length out.old + 64 ≤ 32768 }
    ensures text { out.new ≡ out.old ++ prepare_text r }
    ensures few { length out.new ≤ length out.old + 64 }
{
    if r < 0 {
        out.put_text(failed_prepare(r));
    } else {
        out.put_number(r as u64);
    }
}

/// Writes what an entry of an attempt's start, of its end, of the notifiers or of the freezer says.
#[tactic(auto, using(std::proofs::Common::append_assoc))]
fn put_attempt(out: &mut ByteBuffer, names: &ReadyNames, kind: Kind)
    requires { length out.old + 512 ≤ 32768 }
    ensures text { out.new ≡ out.old ++ attempt_body names.now kind }
    ensures few { length out.new ≤ length out.old + 512 }
{
    match kind {
        Kind::Attempt { n, guarded: None } => put_words!(out; Verb::Attempt, n, PLAIN),
        Kind::Attempt {
            n,
            guarded: Some(count),
        } => put_words!(out; Verb::Attempt, n, GUARDED, count),
        Kind::Over { n, r } => put_words!(out; Verb::Over, n, r),
        Kind::NotifyPrepare(index, r) =>
            put_words!(out; Verb::Notify, names.notifier(index), PREPARE, r),
        Kind::NotifyPost(index) => put_words!(out; Verb::Notify, names.notifier(index), POST),
        Kind::Freeze(group) => put_words!(out; Verb::Freeze, group),
        Kind::Froze(group, end) => {
            put_words!(out; Verb::Froze, group);
            put!(out; b' ');
            put_froze_end(out, names, end)
        }
        Kind::Thaw(Thaw::Kernel) => put_words!(out; Verb::Thaw, Group::Kernel),
        Kind::Thaw(Thaw::All) => put_words!(out; Verb::Thaw, ALL),
        _ => put_platform(out, names, kind),
    }
}

/// Writes how a freeze ended.
fn put_froze_end(out: &mut ByteBuffer, names: &ReadyNames, end: FrozeEnd)
    requires { length out.old + 320 ≤ 32768 }
    ensures text { out.new ≡ out.old ++ froze_text names.now end }
    ensures few { length out.new ≤ length out.old + 320 }
{
    match end {
        FrozeEnd::AllFrozen => put_words!(out; NO_ERROR),
        FrozeEnd::Timeout { left, first } =>
            put_words!(out; Errno::EBUSY, TIMEOUT, left, names.task(first)),
        FrozeEnd::Wakeup { left, first } =>
            put_words!(out; Errno::EBUSY, WAKEUP, left, names.task(first)),
    }
}

/// Writes what an entry of the platform, of a processor or of a syscore step says.
#[tactic(auto, using(std::proofs::Common::append_assoc))]
fn put_platform(out: &mut ByteBuffer, names: &ReadyNames, kind: Kind)
    requires { length out.old + 512 ≤ 32768 }
    ensures text { out.new ≡ out.old ++ platform_body names.now kind }
    ensures few { length out.new ≤ length out.old + 512 }
{
    match kind {
        Kind::PlatformDo(what, r) => put_words!(out; Verb::Platform, what, r),
        Kind::PlatformUndo(what) => put_words!(out; Verb::Platform, what),
        Kind::CpuOff(cpu) => put_words!(out; Verb::Cpu, OFF, cpu),
        Kind::CpuBusy(cpu) => put_words!(out; Verb::Cpu, Errno::EBUSY, cpu),
        Kind::CpuOn(cpu) => put_words!(out; Verb::Cpu, ON, cpu),
        Kind::Irqs { on: true } => put_words!(out; Verb::Irqs, ON),
        Kind::Irqs { on: false } => put_words!(out; Verb::Irqs, OFF),
        Kind::SyscoreCheck(r) => put_words!(out; Verb::Syscore, CHECK, r),
        Kind::SyscoreSuspend(index, r) =>
            put_words!(out; Verb::Syscore, SUSPEND, names.syscore(index), r),
        Kind::SyscoreResume(index) => put_words!(out; Verb::Syscore, RESUME, names.syscore(index)),
        Kind::Enter { busy: true } => put_words!(out; Verb::Enter, Errno::EBUSY),
        Kind::Enter { busy: false } => put_words!(out; Verb::Enter),
        Kind::Wake { by_event: true } => put_words!(out; Verb::Wake, EVENT),
        Kind::Wake { by_event: false } => put_words!(out; Verb::Wake, ALARM),
        Kind::Clear => put_words!(out; Verb::Clear),
        _ => {}
    }
}
