//! Which devices a phase on the way down passes over (`drivers/base/power/main.c`, `__device_suspend`).

ghost use Rattle.std.specs.Prelude.{◌≡◌, ◌↔◌, IsTrue};
ghost use Rattle.sleep_model.specs.Devices.{is_async_device};
ghost use Rattle.rule_definitions.specs.Skip.{IsNextDown, IsScheduledDown, IsTurn, KeepsSkip};
ghost use Rattle.check_past.specs.Passing.{journal_of};

use crate::kinds::is_kind;
use crate::same::{is_number, is_phase};
use check_due::{row_now, turn_of};
use check_past::Passed;
use phase_table::Phase;
use sleep_model::{EventNow, Kind, PhaseState, Stage};

/// Whether a device is next in the walk down (`dpm_suspend`, `dpm_wait_for_subordinate`).
pub(crate) fn is_next_down(past: &Passed<'_>, phase: Phase, device: u32) -> bool
    ensures { IsTrue result ↔ IsNextDown past.now.machine (journal_of past.now) phase device }
{
    past.callback().is_none()
        && past.phase_failed().is_none()
        && is_number(past.next_down(phase), device)
        && past.waits_for_subordinates(phase, device).is_none()
}

/// Whether a device was scheduled on the way down, and all below it are done (`async_suspend`).
pub(crate) fn is_scheduled_down(past: &Passed<'_>, phase: Phase, device: u32) -> bool
    ensures { IsTrue result ↔ IsScheduledDown past.now.machine (journal_of past.now) phase device }
{
    phase.is_down()
        && matches!(past.state(phase, device), PhaseState::Scheduled)
        && past.waits_for_subordinates(phase, device).is_none()
}

/// Whether it is a device's turn in a phase.
fn is_turn(past: &Passed<'_>, phase: Phase, device: u32, row: Option<Stage>) -> bool
    ensures { IsTrue result
        ↔ IsTurn past.now.machine (journal_of past.now) phase device (is_async_device past.now.machine device) row }
{
    if past.is_async(device) {
        return is_scheduled_down(past, phase, device);
    }
    match row {
        Some(Stage::Downs(open)) => is_phase(phase, open) && is_next_down(past, open, device),
        _ => false,
    }
}

/// Whether a device is passed over at its turn, for the cause that comes first, and begins to go down only if
/// there is none (`__device_suspend`).
pub fn keeps_skip(past: &Passed<'_>, now: EventNow, kind: Kind) -> bool
    ensures { IsTrue result ↔ KeepsSkip past.now.machine (journal_of past.now) now kind }
{
    match kind {
        Kind::Skip(p, d, _) => is_turn(past, p, d, row_now(past))
            && is_kind(turn_of(past, now, p, d), kind),
        Kind::Begin(p, d) => !p.is_down() || is_kind(turn_of(past, now, p, d), kind),
        _ => true,
    }
}
