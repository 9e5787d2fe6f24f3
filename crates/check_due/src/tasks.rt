//! At which operations a task may freeze, and what it does next.

ghost use Rattle.std.specs.Prelude.{◌≡◌, ◌<◌, ◌+◌, Bool, Some, length, option_copied, IfOk};
ghost use Rattle.sleep_model.specs.declared.entry.Kind.TheVariants as kind;
ghost use Rattle.sleep_model.specs.declared.machine.Op.TheVariants as op;
ghost use Rattle.sleep_model.specs.declared.word.EventNow.{EventNow};
ghost use Rattle.sleep_model.specs.Guard.{in_force};
ghost use Rattle.sleep_model.specs.Links.{link_add_due, link_state_due};
ghost use Rattle.sleep_model.specs.Path.{attempts};
ghost use Rattle.sleep_model.specs.Runtime.{runtime_due};
ghost use Rattle.sleep_model.specs.PhaseStates.{is_taken};
ghost use Rattle.sleep_model.specs.Steps.{step_due};
ghost use Rattle.sleep_model.specs.Tasks.{freezes_at, is_line, is_user};
ghost use Rattle.check_past.specs.Passing.{journal_of};

use crate::steps::{autosleep_due, state_due, unless_unsaved};
use crate::texts::{is_mem, is_off};
use check_past::{Passed, is_direct_complete, is_prepared};
use phase_table::Phase;
use sleep_base::{Errno, Mem};
use sleep_model::{Due, Kind, Op, PhaseState, ScriptPosition, TaskKind};

/// An interrupt line, which goes on while the machine sleeps.
pub fn is_line(kind: TaskKind) -> bool
    ensures { result ≡ is_line kind }
{
    matches!(kind, TaskKind::Irq)
}

/// A task of user space.
pub fn is_user(kind: TaskKind) -> bool
    ensures { result ≡ is_user kind }
{
    matches!(kind, TaskKind::User)
}

/// Late has taken the device (`__device_suspend_late`).
fn is_taken(state: PhaseState) -> bool
    ensures { result ≡ is_taken state }
{
    !matches!(
        state,
        PhaseState::Unprepared | PhaseState::Prepared | PhaseState::Scheduled
    )
}

/// Whether a task that is asked freezes at its operation, which has begun or not (`try_to_freeze`,
/// `get_signal`).
pub fn freezes_at(user: bool, begun: bool, op: Option<&Op>) -> bool
    ensures { result ≡ freezes_at user begun (option_copied op.entry) }
{
    let Some(op) = op else {
        return false;
    };
    match op {
        Op::Wait { .. } | Op::FreezePoint => true,
        Op::Sleep { .. } => begun || user,
        Op::Autosleep { text } => {
            let text = text.as_slice();
            user && !begun && !(is_mem(text) || is_off(text))
        }
        Op::Read
        | Op::Save { .. }
        | Op::State { .. }
        | Op::SleepD { .. }
        | Op::Post { .. }
        | Op::Runtime { .. }
        | Op::Link { .. }
        | Op::LinkState { .. }
        | Op::Awake { .. }
        | Op::Relax { .. }
        | Op::Event { .. } => user && !begun,
    }
}

/// The number of the next attempt. `Mem` if the counter has no room.
fn next_number(attempts: u32) -> Result<u32, Mem>
    ensures { IfOk result (λ n. n ≡ attempts + 1) }
{
    match attempts.checked_add(1) {
        Some(n) => Ok(n),
        None => Err(Mem),
    }
}

/// The attempt that would begin now. `Mem` if its number has no room.
pub fn next_attempt(past: &Passed<'_>) -> Result<Kind, Mem>
    ensures { IfOk result (λ k. k ≡ kind.Attempt (attempts (journal_of past.now) + 1) (in_force (journal_of past.now))) }
{
    Ok(Kind::Attempt {
        n: next_number(past.attempts())?,
        guarded: past.in_force(),
    })
}

/// A write of that text to the state. `Mem` if the next attempt has no number.
pub(crate) fn write_due(
    past: &Passed<'_>,
    position: ScriptPosition,
    asked: bool,
    text: &[u8],
    if_saved: bool,
) -> Result<Due, Mem>
    ensures { IfOk result (λ d. (now : EventNow) → d ≡ step_due past.now.machine (journal_of past.now) now position asked
        (Some (op.State text.now if_saved))) }
{
    let attempt = next_attempt(past)?;
    let held = past.holder().is_some();
    let due = state_due(
        held,
        past.autosleep_is_on(),
        position.waits,
        asked,
        is_mem(text),
        attempt,
    );
    Ok(unless_unsaved(if_saved, position.saved, due))
}

/// A write of that text to autosleep.
pub(crate) fn autosleep_write_due(past: &Passed<'_>, position: ScriptPosition, text: &[u8]) -> Due
    ensures { (now : EventNow) (asked : Bool) → result ≡ step_due past.now.machine (journal_of past.now) now position asked
        (Some (op.Autosleep text.now)) }
{
    let held = past.holder().is_some();
    autosleep_due(held, position.waits, is_mem(text), is_off(text))
}

/// What a request for a runtime status is answered (`__pm_runtime_set_status`).
pub fn runtime_due(past: &Passed<'_>, device: u32, to_suspended: bool) -> Option<Errno>
    ensures { result ≡ runtime_due past.now.machine device to_suspended (journal_of past.now) }
{
    let suspend = past.state(Phase::Suspend, device);
    let late = past.state(Phase::Late, device);
    let disabled = (past.disabled_by_direct() && is_direct_complete(suspend))
        || (past.disabled_by_late() && is_taken(late));
    if disabled {
        Some(Errno::EACCES)
    } else if is_prepared(suspend) && to_suspended {
        Some(Errno::EAGAIN)
    } else {
        None
    }
}

/// What a task that adds a link is answered (`device_link_add`). `Mem` if there is no memory for the walk.
pub fn link_add_due(past: &Passed<'_>, supplier: u32, consumer: u32) -> Result<Option<Errno>, Mem>
    requires supplier { supplier < length past.now.machine.devices }
    requires consumer { consumer < length past.now.machine.devices }
    ensures { IfOk result (λ r. r ≡ link_add_due past.now.machine (journal_of past.now) supplier consumer) }
{
    if past.maker().is_some() {
        Ok(Some(Errno::EBUSY))
    } else if past.is_linked(supplier, consumer) || past.is_dependent(consumer, supplier)? {
        Ok(Some(Errno::EINVAL))
    } else {
        Ok(None)
    }
}

/// What a task that sets a link's state is answered (`device_links_driver_bound`).
pub fn link_state_due(past: &Passed<'_>, supplier: u32, consumer: u32) -> Option<Errno>
    ensures { result ≡ link_state_due past.now.machine (journal_of past.now) supplier consumer }
{
    if past.maker().is_some() {
        Some(Errno::EBUSY)
    } else if past.is_linked(supplier, consumer) {
        None
    } else {
        Some(Errno::ENODEV)
    }
}
