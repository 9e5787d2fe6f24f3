//! Only what is owed is undone, and nothing is owed once an attempt is over.

ghost use Rattle.std.specs.Prelude.{◌≡◌, ◌↔◌, IsTrue};
ghost use Rattle.sleep_model.specs.Laws.{is_back, is_back_in_all, is_owed_by, is_resuming, may_come_up};
ghost use Rattle.rule_definitions.specs.Owed.{KeepsOwed};
ghost use Rattle.check_past.specs.Passing.{journal_of};

use check_past::{Passed, is_down_in};
use phase_table::Phase;
use sleep_model::{Kind, PhaseState, PlatDo, PlatUndo};

/// It may come up: it is down, or down and scheduled.
fn may_come_up(state: PhaseState) -> bool
    ensures { result ≡ may_come_up state }
{
    matches!(state, PhaseState::Suspended | PhaseState::Rescheduled)
}

/// It is inside its callback on the way up.
fn is_resuming(state: PhaseState) -> bool
    ensures { result ≡ is_resuming state }
{
    matches!(state, PhaseState::Resuming)
}

/// It is prepared, and neither down nor on its way down or up.
fn is_back(state: PhaseState) -> bool
    ensures { result ≡ is_back state }
{
    matches!(
        state,
        PhaseState::Prepared | PhaseState::Failed | PhaseState::Direct | PhaseState::Resumed
    )
}

/// A device is back in suspend, in late and in noirq.
fn is_back_in_all(past: &Passed<'_>, device: u32) -> bool
    ensures { result ≡ is_back_in_all past.now.machine (journal_of past.now) device }
{
    is_back(past.state(Phase::Suspend, device))
        && is_back(past.state(Phase::Late, device))
        && is_back(past.state(Phase::Noirq, device))
}

/// A step of the platform on the way up is owed.
fn is_owed_by(past: &Passed<'_>, step: PlatUndo) -> bool
    ensures { result ≡ is_owed_by (journal_of past.now) step }
{
    match step {
        PlatUndo::Recover => true,
        PlatUndo::End => past.owes_platform(PlatDo::Begin),
        PlatUndo::Finish => past.owes_platform(PlatDo::Prepare),
        PlatUndo::Wake => past.owes_platform(PlatDo::PrepareLate),
    }
}

/// Whether an entry undoes only what is owed (`dpm_resume`, `dpm_complete`, `suspend_finish`).
pub fn keeps_owed(past: &Passed<'_>, kind: Kind) -> bool
    ensures { IsTrue result ↔ KeepsOwed past.now.machine (journal_of past.now) kind }
{
    match kind {
        Kind::Schedule(p, d) => !p.is_up() || is_down_in(past.state(p.mirror(), d)),
        Kind::Begin(p, d) => !p.is_up() || may_come_up(past.state(p.mirror(), d)),
        Kind::End(p, d, _) => !p.is_up() || is_resuming(past.state(p.mirror(), d)),
        Kind::Complete(d) => is_back_in_all(past, d),
        Kind::NotifyPost(x) => past.notified_flags().is_set(x),
        Kind::SyscoreResume(x) => past.stopped().is_set(x),
        Kind::CpuOn(k) => past.cpus_off().is_set(k),
        Kind::Irqs { on } => !on || past.irqs_off(),
        Kind::PlatformUndo(step) => is_owed_by(past, step),
        _ => true,
    }
}
