//! The position of each script, and the marks by which scripts wait for one another.

ghost use Rattle.std.specs.Prelude.{◌≡◌, ◌+◌, IfOk, OnOk};
ghost use Rattle.sleep_model.specs.Marks.{marks_after};
ghost use Rattle.sleep_model.specs.Positions.{first_position, position_effect, next_step, position_after, positions_after, Reads, Saves, Sets};

use crate::counts::one_more;
use sleep_base::Mem;
use sleep_model::{Actor, Kind, ScriptPosition};

/// A script at its first step.
pub(crate) fn first_position() -> ScriptPosition
    ensures { result ≡ first_position }
{
    ScriptPosition {
        done: 0,
        turns: 0,
        waits: false,
        last_read: None,
        saved: false,
        until: None,
        exited: false,
    }
}

/// One more. `Mem` if there is no room for it.
pub(crate) fn one_further(count: usize) -> Result<usize, Mem>
    ensures { IfOk result (λ n. n ≡ count + 1) }
{
    match count.checked_add(1) {
        Some(n) => Ok(n),
        None => Err(Mem),
    }
}

/// The step under way has ended, and the next one has not begun.
fn next_step(position: ScriptPosition) -> Result<ScriptPosition, Mem>
    ensures { IfOk result (λ s. s ≡ next_step position) }
{
    Ok(ScriptPosition {
        done: one_further(position.done)?,
        turns: one_further(position.turns)?,
        waits: false,
        until: None,
        ..position
    })
}

/// The step under way, an answered read, has ended.
fn read(position: ScriptPosition, count: u32) -> Result<ScriptPosition, Mem>
    ensures { IfOk result (λ s. s ≡ position_after (Reads count) position) }
{
    let next = next_step(position)?;
    Ok(ScriptPosition {
        last_read: Some(count),
        ..next
    })
}

/// The step under way, a save, has ended so.
fn saved(position: ScriptPosition, ok: bool) -> Result<ScriptPosition, Mem>
    ensures { IfOk result (λ s. s ≡ position_after (Saves ok) position) }
{
    let next = next_step(position)?;
    Ok(ScriptPosition { saved: ok, ..next })
}

/// Autosleep is set: the step has one turn after it.
fn set(position: ScriptPosition) -> Result<ScriptPosition, Mem>
    ensures { IfOk result (λ s. s ≡ position_after Sets position) }
{
    Ok(ScriptPosition {
        turns: one_further(position.turns)?,
        waits: true,
        ..position
    })
}

/// A script's position after an entry of its own. `Mem` if a counter has no room.
fn position_after(kind: Kind, position: ScriptPosition) -> Result<ScriptPosition, Mem>
    ensures { IfOk result (λ s. s ≡ position_after (position_effect kind) position) }
{
    match kind {
        Kind::ReadWait | Kind::SaveWait(_) | Kind::StateWait => Ok(ScriptPosition {
            waits: true,
            ..position
        }),
        Kind::AutoSet(_) => set(position),
        Kind::Sleep(until) | Kind::SleepD(until) => Ok(ScriptPosition {
            waits: true,
            until: Some(until),
            ..position
        }),
        Kind::Read(count) => read(position, count),
        Kind::Saved(_) => saved(position, true),
        Kind::SaveErr(..) => saved(position, false),
        Kind::ReadIntr
        | Kind::StateErr(_)
        | Kind::StateUnsaved
        | Kind::Over { .. }
        | Kind::AutoBad
        | Kind::AutoDone
        | Kind::Slept
        | Kind::Pass
        | Kind::Post(_)
        | Kind::Got(_)
        | Kind::RuntimeAsk { .. }
        | Kind::LinkAdd { .. }
        | Kind::LinkState { .. } => next_step(position),
        Kind::Exit => Ok(ScriptPosition {
            exited: true,
            ..position
        }),
        _ => Ok(position),
    }
}

/// A script's own entry moves its position. `Mem` if a counter has no room.
pub(crate) fn move_position(
    positions: &mut Vec<ScriptPosition>,
    who: Actor,
    kind: Kind,
) -> Result<(), Mem>
    ensures { OnOk result (positions.new.items ≡ positions_after who (position_effect kind) positions.old.items) }
{
    if let Actor::Script(i) = who {
        if (i as usize) < positions.len() {
            let after = position_after(kind, positions[i as usize])?;
            positions[i as usize] = after;
        }
    }
    Ok(())
}

/// A post raises a mark, and a wait that ends lowers it. `Mem` if a counter has no room.
pub(crate) fn move_marks(marks: &mut Vec<u32>, kind: Kind) -> Result<(), Mem>
    ensures { OnOk result (marks.new.items ≡ marks_after kind marks.old.items) }
{
    match kind {
        Kind::Post(mark) if (mark as usize) < marks.len() => {
            let more = one_more(marks[mark as usize])?;
            marks[mark as usize] = more;
        }
        Kind::Got(mark) if (mark as usize) < marks.len() => {
            let fewer = marks[mark as usize].saturating_sub(1);
            marks[mark as usize] = fewer;
        }
        _ => {}
    }
    Ok(())
}
