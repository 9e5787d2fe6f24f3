//! Who may go on while the machine sleeps, and what wakes it (`kernel/power/suspend.c`, `suspend_enter`).

ghost use Rattle.std.specs.Prelude.{◌↔◌, false, IsTrue, IfOk};
ghost use Rattle.sleep_model.specs.declared.entry.Actor.TheVariants.{Script};
ghost use Rattle.sleep_model.specs.Attempt.{sleep_of};
ghost use Rattle.rule_definitions.specs.Enabled.{AwakeActor, KeepsEnabled, WakesBy};
ghost use Rattle.rule_definitions.specs.Questions.{is_maker};
ghost use Rattle.check_past.specs.Passing.{journal_of};

use crate::same::makes;
use check_due::{is_line, wakes_due};
use check_past::Passed;
use sleep_base::Mem;
use sleep_model::{Actor, EventNow, Kind};

/// Whether script i may make an entry outside an attempt of its own: not while the machine sleeps, unless it
/// is an interrupt line.
fn is_awake_script(past: &Passed<'_>, i: u32) -> bool
    ensures { IsTrue result ↔ AwakeActor past.now.machine (journal_of past.now) (Script i) false }
{
    match past.machine().actors.as_slice().get(i as usize) {
        None => true,
        Some(script) => !(past.sleeps() && !is_line(script.kind)),
    }
}

/// Whether an actor may make an entry now.
fn is_awake(past: &Passed<'_>, who: Actor) -> bool
    ensures { IsTrue result
        ↔ AwakeActor past.now.machine (journal_of past.now) who (is_maker (journal_of past.now) who) }
{
    match who {
        Actor::Script(i) if !past.is_maker(who) => is_awake_script(past, i),
        Actor::Auto if !past.is_maker(who) => !past.sleeps() && !past.is_over(),
        _ => true,
    }
}

/// Whether the machine wakes rightly, by a step of the word or else by its alarm. `Mem` if that overflows.
fn wakes_by(past: &Passed<'_>, now: EventNow, kind: Kind) -> Result<bool, Mem>
    ensures { IfOk result (λ b. IsTrue b
        ↔ WakesBy past.now.machine (journal_of past.now) now (sleep_of (journal_of past.now)) kind) }
{
    match (past.sleep(), kind) {
        (None, Kind::Wake { .. }) => Ok(false),
        (Some(sleep), Kind::Wake { .. }) => Ok(makes(wakes_due(past, now, sleep)?, kind)),
        _ => Ok(true),
    }
}

/// Whether who makes an entry of the journal may go on, and the machine wakes rightly (`suspend_enter`).
/// `Mem` if its alarm overflows.
pub fn keeps_enabled(past: &Passed<'_>, now: EventNow, who: Actor, kind: Kind) -> Result<bool, Mem>
    ensures { IfOk result (λ b. IsTrue b ↔ KeepsEnabled past.now.machine (journal_of past.now) now who kind) }
{
    let wakes = wakes_by(past, now, kind)?;
    Ok(is_awake(past, who) && wakes)
}
