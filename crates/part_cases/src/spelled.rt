//! The words of answers that no table of the library spells.

use device_tree::TreeFault;
use idle_loop::IdleKind;
use sleep_model::{Actor, Kind, PhaseState, PlatDo, PlatUndo, SkipCause, Stage, State};

/// A word that is no value of the model.
#[derive(Clone, Copy)]
pub enum Said {
    Waits,
    Gone,
    Device,
    InProgress,
    LockHeld,
    NoWork,
    Again,
    Late,
    AllFrozen,
    All,
    Kernel,
    Cycle,
    Twice,
    Attempting,
    Autosleep,
    State,
    Sleep,
    Event,
    Another,
    Times,
}

/// The text of a word that is no value of the model.
pub fn said_word(said: Said) -> &'static str {
    match said {
        Said::Waits => "waits",
        Said::Gone => "gone",
        Said::Device => "device",
        Said::InProgress => "in_progress",
        Said::LockHeld => "lock_held",
        Said::NoWork => "no_work",
        Said::Again => "again",
        Said::Late => "late",
        Said::AllFrozen => "all frozen",
        Said::All => "all",
        Said::Kernel => "kernel",
        Said::Cycle => "cycle",
        Said::Twice => "twice",
        Said::Attempting => "attempting",
        Said::Autosleep => "autosleep",
        Said::State => "state",
        Said::Sleep => "sleep",
        Said::Event => "event",
        Said::Another => "another",
        Said::Times => "times",
    }
}

/// The first word of what an entry says, as in a log, with an underscore for each space.
pub fn kind_word(kind: Kind) -> &'static str {
    match kind {
        Kind::Read(_) => "read",
        Kind::ReadWait => "read_wait",
        Kind::ReadIntr => "read_intr",
        Kind::Saved(_) => "saved",
        Kind::SaveErr(_, _) => "save_err",
        Kind::SaveWait(_) => "save_wait",
        Kind::StateWait => "state_wait",
        Kind::StateErr(_) => "state_err",
        Kind::AutoSet(State::Mem) => "auto_set_mem",
        Kind::AutoSet(State::Off) => "auto_set_off",
        Kind::AutoDone => "auto_done",
        Kind::AutoBad => "auto_bad",
        Kind::AutoRun => "auto_run",
        Kind::AutoSaved(_) => "auto_saved",
        Kind::SleepD(_) => "sleep_d",
        Kind::Attempt { .. } => "attempt",
        Kind::Prepare { .. } => "prepare",
        Kind::Complete(_) => "complete",
        Kind::Schedule(_, _) => "schedule",
        Kind::Begin(_, _) => "begin",
        Kind::Skip(_, _, SkipCause::Error) => "skip_error",
        Kind::Skip(_, _, SkipCause::Pending) => "skip_pending",
        Kind::Skip(_, _, SkipCause::Direct) => "skip_direct",
        Kind::Done(_, _) => "done",
        kind => step_word(kind),
    }
}

/// The same of a step of the platform, of processors and of syscore operations.
fn step_word(kind: Kind) -> &'static str {
    match kind {
        Kind::NotifyPrepare(_, _) => "notify_prepare",
        Kind::NotifyPost(_) => "notify_post",
        Kind::PlatformDo(PlatDo::Begin, _) => "platform_begin",
        Kind::PlatformDo(PlatDo::Prepare, _) => "platform_prepare",
        Kind::PlatformDo(PlatDo::PrepareLate, _) => "platform_prepare_late",
        Kind::PlatformUndo(PlatUndo::Recover) => "platform_recover",
        Kind::PlatformUndo(PlatUndo::Wake) => "platform_wake",
        Kind::PlatformUndo(PlatUndo::Finish) => "platform_finish",
        Kind::PlatformUndo(PlatUndo::End) => "platform_end",
        Kind::CpuOff(_) => "cpu_off",
        Kind::CpuBusy(_) => "cpu_busy",
        Kind::CpuOn(_) => "cpu_on",
        Kind::SyscoreSuspend(_, _) => "syscore_suspend",
        Kind::SyscoreResume(_) => "syscore_resume",
        _ => "another kind",
    }
}

/// The word of a stage.
pub fn stage_word(stage: Stage) -> &'static str {
    match stage {
        Stage::Notifies => "notifies",
        Stage::Freezes(_) => "freezes",
        Stage::PlatformDo(_) => "platform_down",
        Stage::PlatformUndo(_) => "platform_up",
        Stage::Prepares => "prepares",
        Stage::Downs(_) => "downs",
        Stage::Ups(_) => "ups",
        Stage::StopsCpus => "stops_cpus",
        Stage::StopsIrqs => "stops_irqs",
        Stage::ChecksWakeup => "checks",
        Stage::StopsSyscore => "stops_syscore",
        Stage::Enters => "enters",
        Stage::StartsSyscore => "starts_syscore",
        Stage::StartsIrqs => "starts_irqs",
        Stage::StartsCpus => "starts_cpus",
        Stage::Completes => "completes",
        Stage::Thaws(_) => "thaws",
        Stage::ClearsEventsCheck => "clears",
        Stage::NotifiesPost => "posts",
        _ => "ends",
    }
}

/// The name of a device's state in a pair of phases.
pub fn phase_state_word(state: PhaseState) -> &'static str {
    match state {
        PhaseState::Unprepared => "unprepared",
        PhaseState::Prepared => "prepared",
        PhaseState::Scheduled => "scheduled",
        PhaseState::Suspending => "suspending",
        PhaseState::Failed => "failed",
        PhaseState::Direct => "direct",
        PhaseState::Suspended => "suspended",
        PhaseState::Rescheduled => "rescheduled",
        PhaseState::Resuming => "resuming",
        PhaseState::Resumed => "resumed",
    }
}

/// The word of an actor, which has a number after it.
pub fn actor_word(actor: Actor) -> &'static str {
    match actor {
        Actor::Script(_) => "task",
        Actor::Dev(_) => "dev",
        Actor::Timer(_) => "timer",
        Actor::Auto => "auto",
        Actor::Time => "time",
    }
}

/// The word of an entry of suspend-to-idle.
pub fn idle_word(kind: IdleKind) -> &'static str {
    match kind {
        IdleKind::Hard => "hard",
        IdleKind::Begin => "begin",
        IdleKind::Wake => "wake",
        IdleKind::TryOk => "try_ok",
        IdleKind::TryBusy => "try_busy",
        IdleKind::Leave => "leave",
    }
}

/// Why a device is not registered.
pub fn fault_word(fault: TreeFault) -> &'static str {
    match fault {
        TreeFault::NoParent => "no parent",
        TreeFault::NameTaken => "name taken",
        TreeFault::TooMany => "too many",
        TreeFault::Mem => "out of memory",
    }
}
