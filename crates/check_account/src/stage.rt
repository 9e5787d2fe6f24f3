//! The stage of the open attempt: which row of its table is under way. The checker of logs does not trust the
//! core. So it repeats on purpose what `sleep_state/src/table.rt` has.

ghost use Rattle.std.specs.Prelude.{◌≡◌};
ghost use Rattle.sleep_model.specs.Table.{after_done, next_stage, stage_after_down, stage_after_freeze, stage_after_platform_down, stage_after_platform_up, stage_after_thaw, stage_after_up, by_case, by_error, by_froze, failed_freeze, failed_phase, failed_platform_down, stage_after};

use sleep_base::Errno;
use sleep_model::{FrozeEnd, Group, Kind, Phase, PlatDo, PlatUndo, Stage, Thaw};

/// The stage `good` if there is no error, else the stage `failed`.
fn by_error(r: Option<Errno>, good: Stage, failed: Stage) -> Stage
    ensures { result ≡ by_error r good failed }
{
    match r {
        None => good,
        Some(_) => failed,
    }
}

/// The stage `here` if it is `so`, else the stage `there`.
fn by_case(so: bool, here: Stage, there: Stage) -> Stage
    ensures { result ≡ by_case so here there }
{
    if so { here } else { there }
}

/// The stage `good` if a freeze left no task, else the stage `failed`.
fn by_froze(end: FrozeEnd, good: Stage, failed: Stage) -> Stage
    ensures { result ≡ by_froze end good failed }
{
    match end {
        FrozeEnd::AllFrozen => good,
        _ => failed,
    }
}

/// What follows a freeze that left none.
fn stage_after_freeze(group: Group) -> Stage
    ensures { result ≡ stage_after_freeze group }
{
    match group {
        Group::User => Stage::Freezes(Group::Kernel),
        Group::Kernel => Stage::PlatformDo(PlatDo::Begin),
    }
}

/// What follows a freeze that left tasks.
fn failed_freeze(group: Group) -> Stage
    ensures { result ≡ failed_freeze group }
{
    match group {
        Group::User => Stage::Thaws(Thaw::All),
        Group::Kernel => Stage::Thaws(Thaw::Kernel),
    }
}

/// What follows a thaw.
fn stage_after_thaw(those: Thaw) -> Stage
    ensures { result ≡ stage_after_thaw those }
{
    match those {
        Thaw::Kernel => Stage::Thaws(Thaw::All),
        Thaw::All => Stage::NotifiesPost,
    }
}

/// What follows a step of the platform on the way down.
fn stage_after_platform_down(step: PlatDo) -> Stage
    ensures { result ≡ stage_after_platform_down step }
{
    match step {
        PlatDo::Begin => Stage::Prepares,
        PlatDo::Prepare => Stage::Downs(Phase::Late),
        PlatDo::PrepareLate => Stage::StopsCpus,
    }
}

/// What follows such a step that failed.
fn failed_platform_down(step: PlatDo) -> Stage
    ensures { result ≡ failed_platform_down step }
{
    match step {
        PlatDo::Begin => Stage::PlatformUndo(PlatUndo::End),
        PlatDo::Prepare => Stage::PlatformUndo(PlatUndo::Finish),
        PlatDo::PrepareLate => Stage::PlatformUndo(PlatUndo::Wake),
    }
}

/// What follows a step of the platform on the way up.
fn stage_after_platform_up(step: PlatUndo) -> Stage
    ensures { result ≡ stage_after_platform_up step }
{
    match step {
        PlatUndo::Recover | PlatUndo::Finish => Stage::Ups(Phase::Resume),
        PlatUndo::Wake => Stage::Ups(Phase::ResumeNoirq),
        PlatUndo::End => Stage::ClearsEventsCheck,
    }
}

/// What follows a phase on the devices' way down.
fn stage_after_down(phase: Phase) -> Stage
    ensures { result ≡ stage_after_down phase }
{
    match phase {
        Phase::Suspend => Stage::PlatformDo(PlatDo::Prepare),
        Phase::Late => Stage::Downs(Phase::Noirq),
        _ => Stage::PlatformDo(PlatDo::PrepareLate),
    }
}

/// What follows a phase on the devices' way up.
fn stage_after_up(phase: Phase) -> Stage
    ensures { result ≡ stage_after_up phase }
{
    match phase {
        Phase::ResumeNoirq => Stage::Ups(Phase::Early),
        Phase::Early => Stage::PlatformUndo(PlatUndo::Finish),
        _ => Stage::Completes,
    }
}

/// What follows a phase that failed.
fn failed_phase(phase: Phase) -> Stage
    ensures { result ≡ failed_phase phase }
{
    match phase {
        Phase::Late => Stage::Ups(Phase::Early),
        Phase::Noirq => Stage::Ups(Phase::ResumeNoirq),
        _ => Stage::PlatformUndo(PlatUndo::Recover),
    }
}

/// What follows a phase that is done.
fn after_done(phase: Phase, r: Option<Errno>) -> Stage
    ensures { result ≡ after_done phase r }
{
    match phase {
        Phase::Prepare => by_error(r, Stage::Downs(Phase::Suspend), failed_phase(phase)),
        Phase::Suspend | Phase::Late | Phase::Noirq => {
            by_error(r, stage_after_down(phase), failed_phase(phase))
        }
        Phase::Syscore => Stage::Enters,
        Phase::SyscoreResume => Stage::StartsIrqs,
        Phase::ResumeNoirq | Phase::Early | Phase::Resume => stage_after_up(phase),
        Phase::Complete => Stage::PlatformUndo(PlatUndo::End),
    }
}

/// The stage of the open attempt after an entry, if one is open (`kernel/power/suspend.c`, `enter_state`,
/// `suspend_devices_and_enter`, `suspend_enter`).
pub(crate) fn stage_after(kind: Kind, before: Option<Stage>) -> Option<Stage>
    ensures { result ≡ stage_after kind before }
{
    Some(match kind {
        Kind::Attempt { .. } => Stage::Notifies,
        Kind::NotifyPrepare(_, r) => by_error(r, Stage::Notifies, Stage::NotifiesPost),
        Kind::Freeze(group) => Stage::Freezes(group),
        Kind::Froze(group, end) => by_froze(end, stage_after_freeze(group), failed_freeze(group)),
        Kind::PlatformDo(step, r) => by_error(
            r,
            stage_after_platform_down(step),
            failed_platform_down(step),
        ),
        Kind::Done(phase, r) => after_done(phase, r),
        Kind::CpuOff(_) => Stage::StopsCpus,
        Kind::CpuBusy(_) | Kind::CpuOn(_) => Stage::StartsCpus,
        Kind::Irqs { on } => by_case(on, Stage::StartsCpus, Stage::ChecksWakeup),
        Kind::SyscoreCheck(r) => by_error(r, Stage::StopsSyscore, Stage::StartsIrqs),
        Kind::SyscoreSuspend(_, r) => by_error(r, Stage::StopsSyscore, Stage::StartsSyscore),
        Kind::Enter { busy } => by_case(busy, Stage::StartsSyscore, Stage::Enters),
        Kind::Wake { .. } | Kind::SyscoreResume(_) => Stage::StartsSyscore,
        Kind::PlatformUndo(step) => stage_after_platform_up(step),
        Kind::Clear => Stage::Thaws(Thaw::All),
        Kind::Thaw(those) => stage_after_thaw(those),
        Kind::NotifyPost(_) => Stage::NotifiesPost,
        Kind::Over { .. } => return None,
        _ => return before,
    })
}

/// The stage after a stage, if nothing fails (`enter_state`, `suspend_devices_and_enter`, `suspend_enter`).
pub fn next_stage(stage: Stage) -> Stage
    ensures { result ≡ next_stage stage }
{
    match stage {
        Stage::Notifies => Stage::Freezes(Group::User),
        Stage::Freezes(group) => stage_after_freeze(group),
        Stage::PlatformDo(step) => stage_after_platform_down(step),
        Stage::Prepares => Stage::Downs(Phase::Suspend),
        Stage::Downs(phase) => stage_after_down(phase),
        Stage::StopsCpus => Stage::StopsIrqs,
        Stage::StopsIrqs => Stage::ChecksWakeup,
        Stage::ChecksWakeup => Stage::StopsSyscore,
        Stage::StopsSyscore => Stage::Enters,
        Stage::Enters => Stage::StartsSyscore,
        Stage::StartsSyscore => Stage::StartsIrqs,
        Stage::StartsIrqs => Stage::StartsCpus,
        Stage::StartsCpus => Stage::PlatformUndo(PlatUndo::Wake),
        Stage::PlatformUndo(step) => stage_after_platform_up(step),
        Stage::Ups(phase) => stage_after_up(phase),
        Stage::Completes => Stage::PlatformUndo(PlatUndo::End),
        Stage::ClearsEventsCheck => Stage::Thaws(Thaw::All),
        Stage::Thaws(those) => stage_after_thaw(those),
        Stage::NotifiesPost | Stage::Ends => Stage::Ends,
    }
}
