//! The table of an attempt: its maker's entries are those of the row that is under way
//! (`kernel/power/suspend.c`).

ghost use Rattle.std.specs.Prelude.{◌≡◌, ◌↔◌, not, IsTrue, Some};
ghost use Rattle.sleep_model.specs.declared.progress.Stage.TheVariants.{Enters, Freezes, PlatformDo, StopsCpus};
ghost use Rattle.sleep_model.specs.Attempt.{answered};
ghost use Rattle.rule_definitions.specs.Questions.{is_maker};
ghost use Rattle.rule_definitions.specs.Path.{IsOfDown, IsOfRow, IsOfRowIf, IsOfUp, KeepsPath, ReportsOf};
ghost use Rattle.check_past.specs.Passing.{journal_of};
ghost use Rattle.check_rules.specs.Rows.{is_descent};

use crate::same::{is_answer, is_number, is_phase};
use check_due::{answered, busy_error, row_now};
use check_past::Passed;
use phase_table::Phase;
use sleep_base::Errno;
use sleep_model::{Actor, EventNow, Group, Kind, PlatDo, PlatUndo, Stage, Thaw, What};

/// An entry of a phase on the devices' way down.
fn is_of_down(phase: Phase, kind: Kind) -> bool
    ensures { IsTrue result ↔ IsOfDown phase kind }
{
    match kind {
        Kind::Schedule(p, _)
        | Kind::Begin(p, _)
        | Kind::End(p, ..)
        | Kind::Skip(p, ..)
        | Kind::Done(p, _) => is_phase(p, phase),
        _ => false,
    }
}

/// An entry of a phase on the devices' way up.
fn is_of_up(phase: Phase, kind: Kind) -> bool
    ensures { IsTrue result ↔ IsOfUp phase kind }
{
    match kind {
        Kind::Schedule(p, _) | Kind::Begin(p, _) | Kind::End(p, ..) | Kind::Done(p, _) => {
            is_phase(p, phase)
        }
        _ => false,
    }
}

/// Whether both are the same group.
fn is_group(group: Group, wanted: Group) -> bool
    ensures { IsTrue result ↔ (group ≡ wanted) }
{
    group == wanted
}

/// Whether both are the same step on the way down.
fn is_do(step: PlatDo, wanted: PlatDo) -> bool
    ensures { IsTrue result ↔ (step ≡ wanted) }
{
    step == wanted
}

/// Whether both are the same step on the way up.
fn is_undo(step: PlatUndo, wanted: PlatUndo) -> bool
    ensures { IsTrue result ↔ (step ≡ wanted) }
{
    step == wanted
}

/// Whether both are the same thaw.
fn is_thaw(those: Thaw, wanted: Thaw) -> bool
    ensures { IsTrue result ↔ (those ≡ wanted) }
{
    those == wanted
}

/// Whether that thing is the next, and answers what the machine answers.
fn is_next_answer(
    past: &Passed<'_>,
    next: Option<u32>,
    x: u32,
    what: What,
    r: Option<Errno>,
) -> bool
    ensures { IsTrue result ↔ ((next ≡ Some x) × (r ≡ answered past.now.machine (journal_of past.now) what)) }
{
    is_number(next, x) && is_answer(r, answered(past, what))
}

/// An entry of the freeze of a group.
fn is_of_freeze(past: &Passed<'_>, now: EventNow, group: Group, kind: Kind) -> bool
    ensures { IsTrue result ↔ IsOfRow past.now.machine (journal_of past.now) now (Freezes group) kind }
{
    match kind {
        Kind::Freeze(g) => is_group(g, group) && past.freeze_since().is_none(),
        Kind::Froze(g, _) => is_group(g, group) && past.freeze_since().is_some(),
        _ => false,
    }
}

/// An entry of a step of the platform on the way down.
fn is_of_platform(past: &Passed<'_>, now: EventNow, step: PlatDo, kind: Kind) -> bool
    ensures { IsTrue result ↔ IsOfRow past.now.machine (journal_of past.now) now (PlatformDo step) kind }
{
    match kind {
        Kind::PlatformDo(asked, r) => {
            is_do(asked, step) && is_answer(r, answered(past, What::Platform(step)))
        }
        _ => false,
    }
}

/// An entry by which processors are stopped.
fn is_of_stop(past: &Passed<'_>, now: EventNow, kind: Kind) -> bool
    ensures { IsTrue result ↔ IsOfRow past.now.machine (journal_of past.now) now StopsCpus kind }
{
    match kind {
        Kind::CpuOff(x) => is_number(past.next_cpu_off(), x) && !past.is_pending(now),
        Kind::CpuBusy(x) => is_number(past.next_cpu_off(), x) && past.is_pending(now),
        _ => false,
    }
}

/// An entry of sleep itself.
fn is_of_sleep(past: &Passed<'_>, now: EventNow, kind: Kind) -> bool
    ensures { IsTrue result ↔ IsOfRow past.now.machine (journal_of past.now) now Enters kind }
{
    match kind {
        Kind::Enter { busy } => past.sleep().is_none() && busy == past.is_pending(now),
        Kind::Wake { .. } => past.sleep().is_some(),
        _ => false,
    }
}

/// An entry of a row on the way down: the thing that is next, what the machine answers, what a test finds.
fn is_of_descent(past: &Passed<'_>, now: EventNow, row: Stage, kind: Kind) -> bool
    requires { IsTrue (is_descent row) }
    ensures { IsTrue result ↔ IsOfRow past.now.machine (journal_of past.now) now row kind }
{
    match row {
        Stage::Notifies => match kind {
            Kind::NotifyPrepare(x, r) => {
                is_next_answer(past, past.next_notified(), x, What::Notifier(x), r)
            }
            _ => false,
        },
        Stage::Freezes(group) => is_of_freeze(past, now, group, kind),
        Stage::PlatformDo(step) => is_of_platform(past, now, step, kind),
        Stage::Prepares => match kind {
            Kind::Prepare { .. } => true,
            Kind::Done(p, _) => is_phase(p, Phase::Prepare),
            _ => false,
        },
        Stage::Downs(phase) => is_of_down(phase, kind),
        Stage::StopsCpus => is_of_stop(past, now, kind),
        Stage::StopsIrqs => matches!(kind, Kind::Irqs { on: false }),
        Stage::ChecksWakeup => match kind {
            Kind::SyscoreCheck(r) => is_answer(r, busy_error(past.is_pending(now))),
            _ => false,
        },
        Stage::StopsSyscore => match kind {
            Kind::SyscoreSuspend(x, r) => {
                is_next_answer(past, past.next_syscore_suspended(), x, What::Syscore(x), r)
            }
            _ => false,
        },
        _ => is_of_sleep(past, now, kind),
    }
}

/// An entry of a row on the way up.
fn is_of_ascent(past: &Passed<'_>, now: EventNow, row: Stage, kind: Kind) -> bool
    requires { IsTrue (not (is_descent row)) }
    ensures { IsTrue result ↔ IsOfRow past.now.machine (journal_of past.now) now row kind }
{
    match (row, kind) {
        (Stage::StartsSyscore, Kind::SyscoreResume(x)) => is_number(past.next_syscore_resumed(), x),
        (Stage::StartsIrqs, Kind::Irqs { on }) => on,
        (Stage::StartsCpus, Kind::CpuOn(x)) => is_number(past.next_cpu_on(), x),
        (Stage::PlatformUndo(step), Kind::PlatformUndo(undone)) => is_undo(undone, step),
        (Stage::Ups(phase), _) => is_of_up(phase, kind),
        (Stage::Completes, Kind::Complete(_)) => true,
        (Stage::Completes, Kind::Done(p, _)) => is_phase(p, Phase::Complete),
        (Stage::ClearsEventsCheck, Kind::Clear) => true,
        (Stage::Thaws(those), Kind::Thaw(thawed)) => is_thaw(thawed, those),
        (Stage::NotifiesPost, Kind::NotifyPost(x)) => is_number(past.next_post_notified(), x),
        (Stage::Ends, Kind::Over { .. }) => true,
        _ => false,
    }
}

/// A row on the way down, up to the sleep itself.
fn is_descent(row: Stage) -> bool
    ensures { result ≡ is_descent row }
{
    matches!(
        row,
        Stage::Notifies
            | Stage::Freezes(_)
            | Stage::PlatformDo(_)
            | Stage::Prepares
            | Stage::Downs(_)
            | Stage::StopsCpus
            | Stage::StopsIrqs
            | Stage::ChecksWakeup
            | Stage::StopsSyscore
            | Stage::Enters
    )
}

/// An entry of a row.
fn is_of_row(past: &Passed<'_>, now: EventNow, row: Stage, kind: Kind) -> bool
    ensures { IsTrue result ↔ IsOfRow past.now.machine (journal_of past.now) now row kind }
{
    if is_descent(row) {
        is_of_descent(past, now, row, kind)
    } else {
        is_of_ascent(past, now, row, kind)
    }
}

/// An entry of the row, if one is under way.
fn is_of_row_if(past: &Passed<'_>, now: EventNow, row: Option<Stage>, kind: Kind) -> bool
    ensures { IsTrue result ↔ IsOfRowIf past.now.machine (journal_of past.now) now row kind }
{
    match row {
        None => false,
        Some(row) => is_of_row(past, now, row, kind),
    }
}

/// Whether the open attempt's maker keeps to the table (`enter_state`, `suspend_devices_and_enter`,
/// `suspend_enter`).
pub fn keeps_path(past: &Passed<'_>, now: EventNow, who: Actor, kind: Kind) -> bool
    ensures { IsTrue result ↔ KeepsPath past.now.machine (journal_of past.now) now who kind }
{
    if past.is_maker(who) {
        is_of_row_if(past, now, row_now(past), kind)
    } else {
        true
    }
}

/// Whether an actor calls on sources if it may: who makes the open attempt does so only inside a callback
/// (`dpm_run_callback`).
pub fn keeps_reports(past: &Passed<'_>, who: Actor) -> bool
    ensures { IsTrue result ↔ ReportsOf (journal_of past.now) (is_maker (journal_of past.now) who) }
{
    if past.is_maker(who) {
        past.callback().is_some()
    } else {
        true
    }
}
