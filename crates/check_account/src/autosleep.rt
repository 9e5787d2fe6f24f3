//! The autosleep lock, its setting, and the autosleep work (`kernel/power/autosleep.c`).

ghost use Rattle.std.specs.Prelude.{◌≡◌, IfOk};
ghost use Rattle.sleep_model.specs.Autosleep.{looks_at, after_look, work_step, work_after, queued_after, runs_after};
ghost use Rattle.sleep_model.specs.Lock.{let_go_by, holder_after, on_after};
ghost use Rattle.sleep_model.specs.Path.{is_same, is_actor};

use crate::counts::one_more;
use sleep_base::Mem;
use sleep_model::{Actor, Kind, State, Work};

/// Whether both are the same actor.
pub fn is_same(one: Actor, other: Actor) -> bool
    ensures { result ≡ is_same one other }
{
    match (one, other) {
        (Actor::Script(i), Actor::Script(j)) => i == j,
        (Actor::Auto, Actor::Auto) => true,
        (Actor::Dev(c), Actor::Dev(d)) => c == d,
        (Actor::Timer(s), Actor::Timer(t)) => s == t,
        (Actor::Time, Actor::Time) => true,
        _ => false,
    }
}

/// Whether that actor, if there is one, is this.
pub fn is_actor(who: Actor, other: Option<Actor>) -> bool
    ensures { result ≡ is_actor who other }
{
    match other {
        None => false,
        Some(other) => is_same(other, who),
    }
}

/// Who holds the lock after that actor lets it go: another keeps it.
fn let_go_by(who: Actor, before: Option<Actor>) -> Option<Actor>
    ensures { result ≡ let_go_by who before }
{
    if is_actor(who, before) { None } else { before }
}

/// Who holds the lock after an entry of that actor (`pm_autosleep_lock`, `pm_autosleep_unlock`).
pub(crate) fn holder_after(kind: Kind, who: Actor, before: Option<Actor>) -> Option<Actor>
    ensures { result ≡ holder_after kind who before }
{
    match kind {
        Kind::Attempt { .. } | Kind::AutoSet(_) | Kind::AutoSaved(_) => Some(who),
        Kind::Over { .. } | Kind::AutoDone | Kind::AutoOff => let_go_by(who, before),
        _ => before,
    }
}

/// Whether autosleep is on after an entry (`pm_autosleep_set_state`).
pub(crate) fn on_after(kind: Kind, before: bool) -> bool
    ensures { result ≡ on_after kind before }
{
    match kind {
        Kind::AutoSet(State::Mem) => true,
        Kind::AutoSet(State::Off) => false,
        _ => before,
    }
}

/// After an attempt the work looks at the count that it saved.
fn looks_at(before: Work) -> Work
    ensures { result ≡ looks_at before }
{
    match before {
        Work::Attempting(c) => Work::Looking(c),
        other => other,
    }
}

/// The state of the work after its look at the count: it naps if nothing was registered meanwhile.
fn after_look(seen: Option<u32>, before: Work) -> Work
    ensures { result ≡ after_look seen before }
{
    match (seen, before) {
        (None, _) => Work::Closing,
        (Some(seen), Work::Looking(c)) => {
            if seen == c {
                Work::Napping(None)
            } else {
                Work::Closing
            }
        }
        (Some(_), other) => other,
    }
}

/// The state of the work after an entry of its own.
fn work_step(kind: Kind, before: Work) -> Work
    ensures { result ≡ work_step kind before }
{
    match kind {
        Kind::AutoRun => Work::Reading,
        Kind::Read(c) => Work::Saving(c),
        Kind::AutoSaved(c) => Work::Attempting(c),
        Kind::AutoUnsaved(_) | Kind::Slept => Work::Closing,
        Kind::Over { .. } => looks_at(before),
        Kind::AutoAfter(seen) => after_look(seen, before),
        Kind::SleepD(until) => Work::Napping(Some(until)),
        Kind::AutoAgain | Kind::AutoOff => Work::Resting,
        _ => before,
    }
}

/// The state of the work after an entry of that actor: only its own entries move it (`try_to_suspend`).
pub(crate) fn work_after(who: Actor, kind: Kind, before: Work) -> Work
    ensures { result ≡ work_after who kind before }
{
    match who {
        Actor::Auto => work_step(kind, before),
        _ => before,
    }
}

/// Whether the work is queued after an entry; `on` says whether autosleep was on before it
/// (`queue_up_suspend_work`).
pub(crate) fn queued_after(kind: Kind, on: bool, before: bool) -> bool
    ensures { result ≡ queued_after kind on before }
{
    match kind {
        Kind::AutoDone => on || before,
        Kind::AutoAgain => true,
        Kind::AutoRun => false,
        _ => before,
    }
}

/// How often the work has run after an entry. `Mem` if the counter has no room.
pub(crate) fn runs_after(kind: Kind, before: u32) -> Result<u32, Mem>
    ensures { IfOk result (λ n. n ≡ runs_after kind before) }
{
    match kind {
        Kind::AutoRun => one_more(before),
        _ => Ok(before),
    }
}
