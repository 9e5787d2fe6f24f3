//! What the maker of an attempt does next (`kernel/power/suspend.c`). An attempt is one try to suspend, and
//! is open until its entry `Over`. Its maker is the task inside `enter_state`: the one that wrote
//! `/sys/power/state`, or the kernel thread that runs the autosleep work. The checker of logs does not trust
//! the core: it works out by itself which step the maker has to make next. So this repeats
//! `sleep_core/src/attempt.rt` on purpose.
//!
//! `past` is what the checker knows of the entries of a log that it has checked so far (`Passed`); all of
//! them keep its rules. Each entry is one step of the machine, and its `Kind` says which. A `Due` is what
//! somebody has to do next: make one entry, wait, with the cause, or nothing. `now` is no time: it is the
//! event word after these entries (`combined_event_count`, and `pm_abort_suspend` for hard events).
//!
//! `Mem` is elsewhere the error of memory that ran out. Here it stands only for a sum of times that overflows
//! (`later_by`). No log leads to that. The entries so far are legal, and a legal log has a bounded number of
//! entries. Time passes only in jumps to the next moment for which somebody waits, and none is longer than a
//! day. (In `end_laws`: `all_logs_are_bounded`, `next_moments_are_bounded`.)

ghost use Rattle.std.specs.Prelude.{◌≡◌, IfOk};
ghost use Rattle.sleep_model.specs.declared.progress.Stage.TheVariants.{Notifies, NotifiesPost, StartsCpus, StartsSyscore, StopsCpus, StopsSyscore};
ghost use Rattle.sleep_model.specs.declared.word.EventNow.{EventNow};
ghost use Rattle.sleep_model.specs.Attempt.{attempt_due, enter_due, freeze_due, freeze_since, sleep_of, stage_due, stage_or_next};
ghost use Rattle.check_past.specs.Passing.{journal_of};

use crate::answers::{answered, busy_error};
use crate::waits::{froze_due, wakes_due};
use crate::walks::{complete_due, down_due, prepare_due, up_due};
use check_account::next_stage;
use check_past::Passed;
use sleep_base::Mem;
use sleep_model::{Due, EventNow, Group, Kind, Stage, What};

/// The next step of a freeze of a group: it asks the group's tasks to freeze, then waits for them. `Mem` if
/// the moment at which it gives up overflows.
fn freeze_due(past: &Passed<'_>, now: EventNow, group: Group) -> Result<Due, Mem>
    ensures { IfOk result (λ d. d ≡ freeze_due past.now.machine (journal_of past.now) now group
        (freeze_since (journal_of past.now))) }
{
    match past.freeze_since() {
        None => Ok(Due::Makes(Kind::Freeze(group))),
        Some(since) => froze_due(past, now, group, since),
    }
}

/// The entry `Enter`, the last test before `suspend_ops->enter`: if a wakeup is pending (`busy`), the machine
/// does not sleep. If it sleeps (`sleep()` is what is known of a sleep under way), what wakes it. `Mem` if
/// the alarm's moment overflows.
fn enter_due(past: &Passed<'_>, now: EventNow) -> Result<Due, Mem>
    ensures { IfOk result (λ d. d ≡ enter_due past.now.machine (journal_of past.now) now (sleep_of (journal_of past.now))) }
{
    match past.sleep() {
        None => Ok(Due::Makes(Kind::Enter {
            busy: past.is_pending(now),
        })),
        Some(sleep) => wakes_due(past, now, sleep),
    }
}

/// The entry of the next notifier that hears of the attempt (`PM_SUSPEND_PREPARE`).
fn notify_prepare_due(past: &Passed<'_>) -> Due
    ensures { (now : EventNow) → result ≡ stage_due past.now.machine (journal_of past.now) now Notifies }
{
    match past.next_notified() {
        None => Due::Nothing,
        Some(x) => Due::Makes(Kind::NotifyPrepare(x, answered(past, What::Notifier(x)))),
    }
}

/// The entry by which the next processor is stopped. If a wakeup is pending it is `CpuBusy`: the processor
/// stays on, and the stage fails.
fn cpu_off_due(past: &Passed<'_>, now: EventNow) -> Due
    ensures { result ≡ stage_due past.now.machine (journal_of past.now) now StopsCpus }
{
    match past.next_cpu_off() {
        None => Due::Nothing,
        Some(k) if past.is_pending(now) => Due::Makes(Kind::CpuBusy(k)),
        Some(k) => Due::Makes(Kind::CpuOff(k)),
    }
}

/// The entry of the next `syscore_ops`' `suspend`.
fn syscore_suspend_due(past: &Passed<'_>) -> Due
    ensures { (now : EventNow) → result ≡ stage_due past.now.machine (journal_of past.now) now StopsSyscore }
{
    match past.next_syscore_suspended() {
        None => Due::Nothing,
        Some(x) => Due::Makes(Kind::SyscoreSuspend(x, answered(past, What::Syscore(x)))),
    }
}

/// The entry of the next `syscore_ops`' `resume`.
fn syscore_resume_due(past: &Passed<'_>) -> Due
    ensures { (now : EventNow) → result ≡ stage_due past.now.machine (journal_of past.now) now StartsSyscore }
{
    match past.next_syscore_resumed() {
        None => Due::Nothing,
        Some(x) => Due::Makes(Kind::SyscoreResume(x)),
    }
}

/// The entry by which the next processor is started.
fn cpu_on_due(past: &Passed<'_>) -> Due
    ensures { (now : EventNow) → result ≡ stage_due past.now.machine (journal_of past.now) now StartsCpus }
{
    match past.next_cpu_on() {
        None => Due::Nothing,
        Some(k) => Due::Makes(Kind::CpuOn(k)),
    }
}

/// The entry of the next notifier that hears that the attempt is over (`PM_POST_SUSPEND`).
fn notify_post_due(past: &Passed<'_>) -> Due
    ensures { (now : EventNow) → result ≡ stage_due past.now.machine (journal_of past.now) now NotifiesPost }
{
    match past.next_post_notified() {
        None => Due::Nothing,
        Some(x) => Due::Makes(Kind::NotifyPost(x)),
    }
}

/// The maker's next step at a stage; `Nothing` if the stage has no step left. At the end `Over` has the
/// attempt's number, and the error of the stage that failed (`Passed::failed`). `Mem` if a moment overflows.
fn stage_due(past: &Passed<'_>, now: EventNow, stage: Stage) -> Result<Due, Mem>
    ensures { IfOk result (λ d. d ≡ stage_due past.now.machine (journal_of past.now) now stage) }
{
    match stage {
        Stage::Notifies => Ok(notify_prepare_due(past)),
        Stage::Freezes(group) => freeze_due(past, now, group),
        Stage::PlatformDo(step) => {
            let r = answered(past, What::Platform(step));
            Ok(Due::Makes(Kind::PlatformDo(step, r)))
        }
        Stage::Prepares => Ok(prepare_due(past)),
        Stage::Downs(phase) => Ok(down_due(past, now, phase)),
        Stage::StopsCpus => Ok(cpu_off_due(past, now)),
        Stage::StopsIrqs => Ok(Due::Makes(Kind::Irqs { on: false })),
        Stage::ChecksWakeup => {
            let r = busy_error(past.is_pending(now));
            Ok(Due::Makes(Kind::SyscoreCheck(r)))
        }
        Stage::StopsSyscore => Ok(syscore_suspend_due(past)),
        Stage::Enters => enter_due(past, now),
        Stage::StartsSyscore => Ok(syscore_resume_due(past)),
        Stage::StartsIrqs => Ok(Due::Makes(Kind::Irqs { on: true })),
        Stage::StartsCpus => Ok(cpu_on_due(past)),
        Stage::PlatformUndo(step) => Ok(Due::Makes(Kind::PlatformUndo(step))),
        Stage::Ups(phase) => Ok(up_due(past, phase)),
        Stage::Completes => Ok(complete_due(past)),
        Stage::ClearsEventsCheck => Ok(Due::Makes(Kind::Clear)),
        Stage::Thaws(those) => Ok(Due::Makes(Kind::Thaw(those))),
        Stage::NotifiesPost => Ok(notify_post_due(past)),
        Stage::Ends => Ok(Due::Makes(Kind::Over {
            n: past.attempts(),
            r: past.failed(),
        })),
    }
}

/// The maker's next step at a stage, or else at the one after it. One look ahead is enough: no two stages in
/// a row have nothing to do. `Mem` if a moment overflows.
fn stage_or_next(past: &Passed<'_>, now: EventNow, stage: Stage) -> Result<Due, Mem>
    ensures { IfOk result (λ d. d ≡ stage_or_next past.now.machine (journal_of past.now) now stage) }
{
    match stage_due(past, now, stage)? {
        Due::Nothing => stage_due(past, now, next_stage(stage)),
        due => Ok(due),
    }
}

/// The next step of the open attempt's maker, if an attempt is open (`enter_state`). `Mem` if a moment
/// overflows.
pub(crate) fn attempt_due(past: &Passed<'_>, now: EventNow) -> Result<Due, Mem>
    ensures { IfOk result (λ d. d ≡ attempt_due past.now.machine (journal_of past.now) now) }
{
    match past.stage() {
        None => Ok(Due::Nothing),
        Some(stage) => stage_or_next(past, now, stage),
    }
}
