//! What a task does next if it sleeps or waits for a mark, and when it freezes.

ghost use Rattle.std.specs.Prelude.{◌≡◌, ◌≤◌, ◌^◌, option_copied};
ghost use Rattle.sleep_model.specs.Steps.{slept_due, mark_due, sleep_due};
ghost use Rattle.sleep_model.specs.Tasks.{is_line, freezes_at};
ghost use Rattle.sleep_model.specs.declared.entry.Kind.TheVariants.{Sleep, SleepD};

use script_plan::is_autosleep_text;
use sleep_model::{Due, Kind, Op, ScriptPosition, TaskKind, Why};

/// A sleep up to that time in ms, now.
fn slept_due(until: Option<u64>, time: u64) -> Due
    ensures { result ≡ slept_due until time }
{
    match until {
        None => Due::Nothing,
        Some(until) if until <= time => Due::Makes(Kind::Slept),
        Some(until) => Due::Waits(Why::Until(until)),
    }
}

/// A sleep that can be frozen, of `ms` ms, now (`schedule_timeout`).
pub(crate) fn sleep_due(ms: u32, position: ScriptPosition, time: u64) -> Due
    requires { time ≤ 2 ^ 63 }
    ensures { result ≡ sleep_due Sleep ms position time }
{
    if position.waits {
        slept_due(position.until, time)
    } else {
        Due::Makes(Kind::Sleep(time + ms as u64))
    }
}

/// An uninterruptible sleep of `ms` ms, now (`schedule_timeout_uninterruptible`).
pub(crate) fn sleep_d_due(ms: u32, position: ScriptPosition, time: u64) -> Due
    requires { time ≤ 2 ^ 63 }
    ensures { result ≡ sleep_due SleepD ms position time }
{
    if position.waits {
        slept_due(position.until, time)
    } else {
        Due::Makes(Kind::SleepD(time + ms as u64))
    }
}

/// A wait for a mark, which was raised so often.
pub(crate) fn mark_due(mark: u32, raised: u32) -> Due
    ensures { result ≡ mark_due mark raised }
{
    if raised > 0 {
        Due::Makes(Kind::Got(mark))
    } else {
        Due::Waits(Why::Mark(mark))
    }
}

/// Whether it is an interrupt line, which goes on while the machine sleeps.
pub(crate) fn is_line(kind: TaskKind) -> bool
    ensures { result ≡ is_line kind }
{
    matches!(kind, TaskKind::Irq)
}

/// Whether a task of user space, or another, that is asked freezes here: at its operation, which has begun or
/// not (`try_to_freeze`).
pub(crate) fn freezes_at(user: bool, begun: bool, op: Option<&Op>) -> bool
    ensures { result ≡ freezes_at user begun (option_copied op.entry) }
{
    let Some(op) = op else {
        return false;
    };
    match op {
        Op::Wait { .. } | Op::FreezePoint => true,
        Op::Sleep { .. } => begun || user,
        Op::Autosleep { text } => user && !begun && !is_autosleep_text(text.as_slice()),
        Op::Read
        | Op::Save { .. }
        | Op::State { .. }
        | Op::SleepD { .. }
        | Op::Post { .. }
        | Op::Runtime { .. }
        | Op::Link { .. }
        | Op::LinkState { .. }
        | Op::Awake { .. }
        | Op::Relax { .. }
        | Op::Event { .. } => user && !begun,
    }
}
