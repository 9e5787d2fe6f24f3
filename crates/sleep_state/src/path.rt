//! The path of an attempt through its stages, and the table that it follows.
ghost use Rattle.std.specs.Prelude.{◌≡◌, ◌<◌, ◌^◌};
ghost use Rattle.sleep_model.specs.Path.{attempts_after, maker_after};
ghost use Rattle.sleep_model.specs.Attempt.{freeze_since_after, sleep_after, failed_after, freeze_error, busy_error};
ghost use Rattle.sleep_model.specs.Walk.{or_else};
ghost use Rattle.sleep_model.specs.declared.progress.Stage.{Stage};
ghost use Rattle.sleep_model.specs.Table.{stage_after, after_done, by_froze, by_case};

use crate::table::{after_failure, after_stage, next_stage, within_stage};
use sleep_base::Errno;
use sleep_model::{Actor, FrozeEnd, Kind, Phase, Sleep, Stage};
use std::marker::Model;

/// The state of the open attempt: who makes it, its number, the stage under way, its error, since when a
/// freeze goes on, and whether the machine sleeps (`kernel/power/suspend.c`).
#[derive(Drop)]
pub struct OpenAttempt {
    attempts: u32,
    maker: Option<Actor>,
    stage: Option<Stage>,
    failed: Option<Errno>,
    freeze_since: Option<u64>,
    sleep: Option<Sleep>,
}

impl Model for OpenAttempt {
    ghost use Rattle.sleep_state.specs.Paths.{PathState};

    ghost Value = { PathState };

    ghost view = { λ p. record {
      attempts = p.attempts;
      maker = p.maker;
      stage = p.stage;
      failed = p.failed;
      freeze_since = p.freeze_since;
      sleep = p.sleep;
    } };
}

/// The stage after a phase that is done. The core's own phases and those on the way up do not fail.
fn after_done(phase: Phase, r: Option<Errno>) -> Stage
    ensures { result ≡ after_done phase r }
{
    match phase {
        Phase::Prepare => after_stage(Stage::Prepares, r.is_some()),
        Phase::Suspend | Phase::Late | Phase::Noirq => after_stage(
            Stage::Downs(phase),
            r.is_some(),
        ),
        Phase::Syscore => next_stage(Stage::StopsSyscore),
        Phase::SyscoreResume => next_stage(Stage::StartsSyscore),
        Phase::ResumeNoirq | Phase::Early | Phase::Resume => next_stage(Stage::Ups(phase)),
        Phase::Complete => next_stage(Stage::Completes),
    }
}

/// Whether a freeze left tasks.
fn is_broken(end: FrozeEnd) -> bool
    ensures { (good : Stage) (failed : Stage) → by_froze end good failed ≡ by_case result failed good }
{
    !matches!(end, FrozeEnd::AllFrozen)
}

/// The stage of the open attempt after an entry (`enter_state`).
fn stage_after(kind: Kind, before: Option<Stage>) -> Option<Stage>
    ensures { result ≡ stage_after kind before }
{
    Some(match kind {
        Kind::Attempt { .. } => Stage::Notifies,
        Kind::NotifyPrepare(_, r) => within_stage(Stage::Notifies, r.is_some()),
        Kind::Freeze(group) => Stage::Freezes(group),
        Kind::Froze(group, end) => after_stage(Stage::Freezes(group), is_broken(end)),
        Kind::PlatformDo(step, r) => after_stage(Stage::PlatformDo(step), r.is_some()),
        Kind::Done(phase, r) => after_done(phase, r),
        Kind::CpuOff(_) => Stage::StopsCpus,
        Kind::CpuBusy(_) => after_failure(Stage::StopsCpus),
        Kind::Irqs { on: false } => next_stage(Stage::StopsIrqs),
        Kind::SyscoreCheck(r) => after_stage(Stage::ChecksWakeup, r.is_some()),
        Kind::SyscoreSuspend(_, r) => within_stage(Stage::StopsSyscore, r.is_some()),
        Kind::Enter { busy } => within_stage(Stage::Enters, busy),
        Kind::Wake { .. } => next_stage(Stage::Enters),
        Kind::SyscoreResume(_) => Stage::StartsSyscore,
        Kind::Irqs { on: true } => next_stage(Stage::StartsIrqs),
        Kind::CpuOn(_) => Stage::StartsCpus,
        Kind::PlatformUndo(step) => next_stage(Stage::PlatformUndo(step)),
        Kind::Clear => next_stage(Stage::ClearsEventsCheck),
        Kind::Thaw(those) => next_stage(Stage::Thaws(those)),
        Kind::NotifyPost(_) => Stage::NotifiesPost,
        Kind::Over { .. } => return None,
        _ => return before,
    })
}

/// The first error, or else the second.
fn or_else(first: Option<Errno>, other: Option<Errno>) -> Option<Errno>
    ensures { result ≡ or_else first other }
{
    match first {
        None => other,
        Some(r) => Some(r),
    }
}

/// EBUSY if a freeze left tasks.
fn freeze_error(end: FrozeEnd) -> Option<Errno>
    ensures { result ≡ freeze_error end }
{
    match end {
        FrozeEnd::AllFrozen => None,
        _ => Some(Errno::EBUSY),
    }
}

/// EBUSY if a wakeup is pending.
pub fn busy_error(busy: bool) -> Option<Errno>
    ensures { result ≡ busy_error busy }
{
    if busy { Some(Errno::EBUSY) } else { None }
}

/// The error of the attempt after an entry (`enter_state`).
fn failed_after(kind: Kind, before: Option<Errno>) -> Option<Errno>
    ensures { result ≡ failed_after kind before }
{
    match kind {
        Kind::Attempt { .. } => None,
        Kind::NotifyPrepare(_, r) => or_else(r, before),
        Kind::Froze(_, end) => or_else(freeze_error(end), before),
        Kind::PlatformDo(_, r) => or_else(r, before),
        Kind::Done(_, r) => or_else(r, before),
        Kind::CpuBusy(_) => Some(Errno::EBUSY),
        Kind::SyscoreCheck(r) => or_else(r, before),
        Kind::SyscoreSuspend(_, r) => or_else(r, before),
        Kind::Enter { busy } => or_else(busy_error(busy), before),
        _ => before,
    }
}

/// Since when a freeze goes on, in ms, after an entry made at that time (`try_to_freeze_tasks`).
fn freeze_since_after(kind: Kind, time: u64, before: Option<u64>) -> Option<u64>
    ensures { result ≡ freeze_since_after kind time before }
{
    match kind {
        Kind::Freeze(_) => Some(time),
        Kind::Froze(..) => None,
        _ => before,
    }
}

/// Whether the machine sleeps after an entry made at that position and time (`suspend_enter`).
fn sleep_after(kind: Kind, pos: u64, time: u64, before: Option<Sleep>) -> Option<Sleep>
    ensures { result ≡ sleep_after kind pos time before }
{
    match kind {
        Kind::Enter { busy: false } => Some(Sleep { pos, since: time }),
        Kind::Wake { .. } => None,
        _ => before,
    }
}

/// Who makes the open attempt after an entry of that actor (`pm_suspend`).
fn maker_after(kind: Kind, who: Actor, before: Option<Actor>) -> Option<Actor>
    ensures { result ≡ maker_after kind who before }
{
    match kind {
        Kind::Attempt { .. } => Some(who),
        Kind::Over { .. } => None,
        _ => before,
    }
}

/// The number of attempts after an entry.
fn attempts_after(kind: Kind, before: u32) -> u32
    requires { attempts_after kind before < 2 ^ 32 }
    ensures { result ≡ attempts_after kind before }
{
    match kind {
        Kind::Attempt { .. } => before + 1,
        _ => before,
    }
}

impl OpenAttempt {
    ghost use Rattle.std.specs.Prelude.{◌≡◌, ◌<◌, ◌^◌};
    ghost use Rattle.sleep_model.specs.Path.{attempts_after};
    ghost use Rattle.sleep_state.specs.Paths.{path_after, no_path};

    /// No attempt was begun.
    pub fn new() -> Self
        ensures { result ≡ no_path }
    {
        OpenAttempt {
            attempts: 0,
            maker: None,
            stage: None,
            failed: None,
            freeze_since: None,
            sleep: None,
        }
    }

    /// What an entry of that actor does, made at that position of the word and that time in ms.
    pub fn note(&mut self, kind: Kind, who: Actor, pos: u64, time: u64)
        requires { attempts_after kind self.old.attempts < 2 ^ 32 }
        ensures { self.new ≡ path_after kind who pos time self.old }
    {
        self.attempts = attempts_after(kind, self.attempts);
        self.maker = maker_after(kind, who, self.maker);
        self.stage = stage_after(kind, self.stage);
        self.failed = failed_after(kind, self.failed);
        self.freeze_since = freeze_since_after(kind, time, self.freeze_since);
        self.sleep = sleep_after(kind, pos, time, self.sleep);
    }

    /// How many attempts were begun.
    pub fn attempts(&self) -> u32
        ensures { result ≡ self.now.attempts }
    {
        self.attempts
    }

    /// Who makes the open attempt, if one is open.
    pub fn maker(&self) -> Option<Actor>
        ensures { result ≡ self.now.maker }
    {
        self.maker
    }

    /// The stage of the open attempt, if one is open.
    pub fn stage(&self) -> Option<Stage>
        ensures { result ≡ self.now.stage }
    {
        self.stage
    }

    /// The error of the open attempt's stage that failed.
    pub fn error(&self) -> Option<Errno>
        ensures { result ≡ self.now.failed }
    {
        self.failed
    }

    /// Since when a freeze goes on, in ms, if one does.
    pub fn freeze_since(&self) -> Option<u64>
        ensures { result ≡ self.now.freeze_since }
    {
        self.freeze_since
    }

    /// The machine's sleep, if it sleeps.
    pub fn sleep(&self) -> Option<Sleep>
        ensures { result ≡ self.now.sleep }
    {
        self.sleep
    }
}
