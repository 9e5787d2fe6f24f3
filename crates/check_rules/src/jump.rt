//! Who is enabled and which times are pending, for the rules of time's jumps and of a log's end.

ghost use Rattle.std.specs.Prelude.{◌≡◌, ◌↔◌, ◌<◌, ◌+◌, ◌&&◌, not, true, is_none, IsTrue, IfOk, length, nat_lt, option_copied, slice_get};
ghost use Rattle.sleep_model.specs.declared.entry.Actor.TheVariants.{Dev, Script};
ghost use Rattle.sleep_model.specs.Attempt.{freeze_since, sleep_of, sleeps_now};
ghost use Rattle.sleep_model.specs.Calls.{calls_due, is_left, made};
ghost use Rattle.sleep_model.specs.Fits.{fits_actor};
ghost use Rattle.sleep_model.specs.Freezer.{freezing};
ghost use Rattle.sleep_model.specs.Legal.{JumpStep, alarm_at, deadline_at, is_enabled, is_finished, is_idle, is_made, next_expiry, next_sleep, next_time, none_enabled, none_expires, pending_nap, pending_sleep, sooner};
ghost use Rattle.sleep_model.specs.Numbers.{numbers, time_of};
ghost use Rattle.sleep_model.specs.Path.{maker};
ghost use Rattle.rule_definitions.specs.Questions.{position_of};
ghost use Rattle.sleep_model.specs.Sources.{history, owed};
ghost use Rattle.check_past.specs.Passing.{journal_of, past_of};
ghost use Rattle.check_rules.specs.Quiet.{is_quiet, none_owes, is_idle_script, stays};

use crate::calls::is_calling;
use crate::same::{is_time, without};
use check_due::{due, gives_up_at, is_line};
use check_past::Passed;
use sleep_base::Mem;
use sleep_model::{Actor, Due, EventNow, Op, ScriptPosition, Work};

/// Whether an entry is due.
fn is_made(due: Due) -> bool
    ensures { result ≡ is_made due }
{
    matches!(due, Due::Makes(_))
}

/// Whether an actor of the machine has a call to make. `Mem` if a number has no room.
fn owes_call(past: &Passed<'_>, who: Actor) -> Result<bool, Mem>
    requires { fits_actor past.now.machine who ≡ true }
    ensures { IfOk result (λ b. b ≡ nat_lt (made (length past.now.machine.sources + 1) (λ s. history s (past_of past.now)) who)
        (calls_due past.now.machine who (journal_of past.now))) }
{
    Ok(past.made(who) < past.calls_due(who)?)
}

/// Whether an actor of the machine is enabled: it is inside a call, has a call to make, or an entry of the
/// journal is due of it. `Mem` if a moment overflows, a number has no room, or if there is no memory for a
/// walk.
fn is_enabled(past: &Passed<'_>, now: EventNow, who: Actor) -> Result<bool, Mem>
    requires { fits_actor past.now.machine who ≡ true }
    ensures { IfOk result (λ b. b ≡ is_enabled past.now.machine (journal_of past.now) (λ s. history s (past_of past.now)) now who) }
{
    let waits = owes_call(past, who)?;
    let next = due(past, who, now)?;
    Ok(is_calling(past, who) || waits || is_made(next))
}

/// Whether a source owes steps of a call, whoever made it.
fn owes_steps(past: &Passed<'_>, s: u32) -> bool
    ensures { result ≡ is_left (owed (history s (past_of past.now))) }
{
    past.source(s).owes.is_left()
}

/// Whether no source owes steps of a call.
fn none_owes(past: &Passed<'_>) -> bool
    ensures { result ≡ none_owes (length past.now.machine.sources + 1) (λ s. history s (past_of past.now)) }
{
    let mut none = true;
    for s in 0..past.source_count() {
        none = without(owes_steps(past, s), none);
    }
    none
}

/// Whether nobody is inside a call or makes an attempt, so that each script is at its own steps.
fn is_quiet(past: &Passed<'_>) -> bool
    ensures { result ≡ is_quiet past.now.machine (journal_of past.now) (λ s. history s (past_of past.now)) }
{
    past.maker().is_none() && none_owes(past)
}

/// Whether a script in that position at its operation sleeps on, or has exited.
fn stays(position: ScriptPosition, op: Option<&Op>, time: u64) -> bool
    ensures { result ≡ stays position (option_copied op.entry) time }
{
    if position.exited {
        return true;
    }
    let Some(op) = op else {
        return false;
    };
    match op {
        Op::Sleep { .. } | Op::SleepD { .. } => match position.until {
            Some(until) => position.waits && time < until,
            None => false,
        },
        Op::Read
        | Op::Save { .. }
        | Op::State { .. }
        | Op::Autosleep { .. }
        | Op::FreezePoint
        | Op::Post { .. }
        | Op::Wait { .. }
        | Op::Runtime { .. }
        | Op::Link { .. }
        | Op::LinkState { .. }
        | Op::Awake { .. }
        | Op::Relax { .. }
        | Op::Event { .. } => false,
    }
}

/// Whether all is quiet, and script i is not asked to freeze, and sleeps on or has exited.
fn is_idle_script(past: &Passed<'_>, quiet: bool, i: u32) -> bool
    ensures { result ≡ (quiet && is_idle_script past.now.machine (journal_of past.now) i) }
{
    quiet
        && !past.freezing(i).asked
        && stays(past.position(i), past.operation(i), past.journal_time())
}

/// Whether script i of the machine is enabled. The caller has found out whether all is quiet: an idle script
/// can then make only a call. `Mem` as for `is_enabled`.
fn is_script_enabled(past: &Passed<'_>, now: EventNow, quiet: bool, i: u32) -> Result<bool, Mem>
    requires there { fits_actor past.now.machine (Script i) ≡ true }
    requires quiet { quiet ≡ is_quiet past.now.machine (journal_of past.now) (λ s. history s (past_of past.now)) }
    ensures { IfOk result (λ b. b ≡ is_enabled past.now.machine (journal_of past.now) (λ s. history s (past_of past.now)) now
        (Script i)) }
{
    if is_idle_script(past, quiet, i) {
        return owes_call(past, Actor::Script(i));
    }
    is_enabled(past, now, Actor::Script(i))
}

/// Whether no script is enabled.
fn no_script_enabled(past: &Passed<'_>, now: EventNow) -> Result<bool, Mem>
    ensures { IfOk result (λ b. b ≡ none_enabled past.now.machine (journal_of past.now) (λ s. history s (past_of past.now)) now
        Script (length past.now.machine.actors)) }
{
    let quiet = is_quiet(past);
    let mut none = true;
    for i in 0..past.script_count() {
        let enabled = is_script_enabled(past, now, quiet, i)?;
        none = without(enabled, none);
    }
    Ok(none)
}

/// Whether no device is enabled.
fn no_device_enabled(past: &Passed<'_>, now: EventNow) -> Result<bool, Mem>
    ensures { IfOk result (λ b. b ≡ none_enabled past.now.machine (journal_of past.now) (λ s. history s (past_of past.now)) now
        Dev (length past.now.machine.devices)) }
{
    let mut none = true;
    for d in 0..past.device_count() {
        let enabled = is_enabled(past, now, Actor::Dev(d))?;
        none = without(enabled, none);
    }
    Ok(none)
}

/// Whether no source is to expire now.
fn none_expires(past: &Passed<'_>, time: u64) -> bool
    ensures { result ≡ none_expires (length past.now.machine.sources + 1) (λ s. history s (past_of past.now)) time }
{
    let mut none = true;
    for s in 0..past.source_count() {
        none = without(past.source(s).has_expired(time), none);
    }
    none
}

/// Whether no actor is enabled.
fn is_idle(past: &Passed<'_>, now: EventNow) -> Result<bool, Mem>
    ensures { IfOk result (λ b. b ≡ is_idle past.now.machine (journal_of past.now) (λ s. history s (past_of past.now)) now) }
{
    let scripts = no_script_enabled(past, now)?;
    let work = is_enabled(past, now, Actor::Auto)?;
    let devices = no_device_enabled(past, now)?;
    Ok(scripts && !work && devices && none_expires(past, past.journal_time()))
}

/// Whether no attempt is open, and nobody can make anything, as the caller has found out.
fn is_idle_outside_if(past: &Passed<'_>, now: EventNow, idle: bool) -> bool
    requires { idle ≡ is_idle past.now.machine (journal_of past.now) (λ s. history s (past_of past.now)) now }
    ensures { result ≡ (is_none (maker (journal_of past.now))
        && is_idle past.now.machine (journal_of past.now) (λ s. history s (past_of past.now)) now) }
{
    past.maker().is_none() && idle
}

/// Whether no attempt is open, and nobody can make anything: all that a finished log is but that every script
/// has exited (`Passed::have_all_exited`). `Mem` if a moment overflows, a number has no room, or if there is
/// no memory for a walk.
pub fn is_idle_outside(past: &Passed<'_>, now: EventNow) -> Result<bool, Mem>
    ensures { IfOk result (λ b. b ≡ (is_none (maker (journal_of past.now))
        && is_idle past.now.machine (journal_of past.now) (λ s. history s (past_of past.now)) now)) }
{
    let idle = is_idle(past, now)?;
    Ok(is_idle_outside_if(past, now, idle))
}

/// Whether every script has exited, no attempt is open, and nobody can make anything, as the caller has found
/// out.
fn is_finished_if(past: &Passed<'_>, now: EventNow, idle: bool) -> bool
    requires { idle ≡ is_idle past.now.machine (journal_of past.now) (λ s. history s (past_of past.now)) now }
    ensures { result ≡ is_finished past.now.machine (journal_of past.now) (λ s. history s (past_of past.now)) now }
{
    past.have_all_exited() && is_idle_outside_if(past, now, idle)
}

/// The lesser of two moments, if there are any.
fn sooner(one: Option<u64>, other: Option<u64>) -> Option<u64>
    ensures { result ≡ sooner one other }
{
    match (one, other) {
        (None, other) => other,
        (Some(at), None) => Some(at),
        (Some(at), Some(other)) => Some(at.min(other)),
    }
}

/// The least expiry of all sources.
fn next_expiry(past: &Passed<'_>) -> Option<u64>
    ensures { result ≡ next_expiry (length past.now.machine.sources + 1) (λ s. history s (past_of past.now)) }
{
    let mut next = None;
    for s in 0..past.source_count() {
        next = sooner(past.source(s).expiry, next);
    }
    next
}

/// The alarm of a machine that sleeps. `Mem` if it overflows.
fn alarm_at(past: &Passed<'_>) -> Result<Option<u64>, Mem>
    ensures { IfOk result (λ t. t ≡ alarm_at past.now.machine (sleep_of (journal_of past.now))) }
{
    match past.sleep() {
        None => Ok(None),
        Some(sleep) => match sleep.since.checked_add(past.machine().alarm_ms) {
            None => Err(Mem),
            Some(at) => Ok(Some(at)),
        },
    }
}

/// The end of a freeze that is not over. `Mem` if it overflows.
fn deadline_at(past: &Passed<'_>) -> Result<Option<u64>, Mem>
    ensures { IfOk result (λ t. t ≡ deadline_at (freeze_since (journal_of past.now))) }
{
    match past.freeze_since() {
        None => Ok(None),
        Some(since) => Ok(Some(gives_up_at(since)?)),
    }
}

/// The end of the work's nap, if it is pending.
fn pending_nap(past: &Passed<'_>) -> Option<u64>
    ensures { result ≡ pending_nap (journal_of past.now) }
{
    match past.work() {
        Work::Napping(until) if !past.sleeps() => until,
        _ => None,
    }
}

/// The end of script i's sleep, if it is pending.
fn pending_sleep(past: &Passed<'_>, i: u32) -> Option<u64>
    ensures { result ≡ pending_sleep (sleeps_now (journal_of past.now)) (freezing past.now.machine i (journal_of past.now))
        (slice_get past.now.machine.actors i) (position_of past.now.machine (journal_of past.now) i) }
{
    match past.machine().actors.as_slice().get(i as usize) {
        None => None,
        Some(script) => {
            if past.freezing(i).frozen || (past.sleeps() && !is_line(script.kind)) {
                None
            } else {
                past.position(i).until
            }
        }
    }
}

/// The least such end among all scripts.
fn next_sleep(past: &Passed<'_>) -> Option<u64>
    ensures { result ≡ next_sleep past.now.machine (journal_of past.now) (length past.now.machine.actors) }
{
    let mut next = None;
    for i in 0..past.script_count() {
        next = sooner(pending_sleep(past, i), next);
    }
    next
}

/// The least pending time. `Mem` if a moment overflows.
fn next_time(past: &Passed<'_>) -> Result<Option<u64>, Mem>
    ensures { IfOk result (λ t. t ≡ next_time past.now.machine (journal_of past.now) (λ s. history s (past_of past.now))) }
{
    let alarm = alarm_at(past)?;
    let deadline = deadline_at(past)?;
    let tasks = sooner(pending_nap(past), next_sleep(past));
    Ok(sooner(sooner(alarm, sooner(deadline, tasks)), next_expiry(past)))
}

/// Whether time may jump: nobody is enabled, something is left to do, and it goes forward to the least
/// pending time.
fn may_jump(idle: bool, finished: bool, least: bool, forward: bool) -> bool
    ensures { result ≡ (idle && (not finished && (least && forward))) }
{
    idle && !finished && least && forward
}

/// Whether time jumps forward to the least pending time, if nobody can make anything and something is left to
/// do. `Mem` if a moment overflows, if a number has no room, or if there is no memory for a walk.
pub fn keeps_jump(past: &Passed<'_>, time: u64) -> Result<bool, Mem>
    ensures { IfOk result (λ b. IsTrue b ↔ ((JumpStep past.now.machine (journal_of past.now) (λ s. history s (past_of past.now))
        (numbers (past_of past.now)) time) × (time_of (past_of past.now) < time))) }
{
    let now = past.word();
    let idle = is_idle(past, now)?;
    let finished = is_finished_if(past, now, idle);
    let next = next_time(past)?;
    let least = is_time(next, time);
    let forward = past.time() < time;
    Ok(may_jump(idle, finished, least, forward))
}
