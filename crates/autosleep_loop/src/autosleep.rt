//! The autosleep lock, the setting and the state of the work, as entries move them.

ghost use Rattle.std.specs.Prelude.{◌≡◌, ◌<◌, ◌^◌};
ghost use Rattle.sleep_model.specs.Autosleep.{looks_at, naps_at, after_look, work_step, work_after, queued_after, runs_after};
ghost use Rattle.sleep_model.specs.Lock.{let_go_by, holder_after, is_sleeping_state, on_after};
ghost use Rattle.sleep_model.specs.Path.{is_same, is_actor};

use sleep_model::{Actor, Kind, State, Work};
use std::marker::Model;

/// The autosleep lock, its setting, and the autosleep work (`kernel/power/autosleep.c`).
#[derive(Drop)]
pub struct Autosleep {
    pub(crate) holder: Option<Actor>,
    pub(crate) on: bool,
    pub(crate) work: Work,
    pub(crate) queued: bool,
    pub(crate) runs: u32,
}

impl Model for Autosleep {
    ghost use Rattle.autosleep_loop.specs.Autosleeps.{AutosleepState};

    ghost Value = { AutosleepState };

    ghost view = { λ a. record { holder = a.holder; on = a.on; work = a.work; queued = a.queued; runs = a.runs } };
}

/// Whether both are the same actor.
fn is_same(one: Actor, other: Actor) -> bool
    ensures { result ≡ is_same one other }
{
    match (one, other) {
        (Actor::Script(i), Actor::Script(j)) => i == j,
        (Actor::Auto, Actor::Auto) => true,
        (Actor::Dev(c), Actor::Dev(d)) => c == d,
        (Actor::Timer(s), Actor::Timer(t)) => s == t,
        (Actor::Time, Actor::Time) => true,
        _ => false,
    }
}

/// Whether that actor, if there is one, is this.
pub fn is_actor(who: Actor, other: Option<Actor>) -> bool
    ensures { result ≡ is_actor who other }
{
    match other {
        None => false,
        Some(other) => is_same(other, who),
    }
}

/// Who holds the lock after that actor lets it go.
fn let_go_by(who: Actor, before: Option<Actor>) -> Option<Actor>
    ensures { result ≡ let_go_by who before }
{
    if is_actor(who, before) { None } else { before }
}

/// Who holds the lock after an entry of that actor (`pm_autosleep_lock`, `pm_autosleep_unlock`).
fn holder_after(kind: Kind, who: Actor, before: Option<Actor>) -> Option<Actor>
    ensures { result ≡ holder_after kind who before }
{
    match kind {
        Kind::Attempt { .. } | Kind::AutoSet(_) | Kind::AutoSaved(_) => Some(who),
        Kind::Over { .. } | Kind::AutoDone | Kind::AutoOff => let_go_by(who, before),
        _ => before,
    }
}

/// Whether autosleep is on after an entry (`pm_autosleep_set_state`).
fn on_after(kind: Kind, before: bool) -> bool
    ensures { result ≡ on_after kind before }
{
    match kind {
        Kind::AutoSet(State::Mem) => true,
        Kind::AutoSet(State::Off) => false,
        _ => before,
    }
}

/// After an attempt the work looks at the count that it saved.
fn looks_at(before: Work) -> Work
    ensures { result ≡ looks_at before }
{
    match before {
        Work::Attempting(c) => Work::Looking(c),
        other => other,
    }
}

/// The state of the work after its look at the count: it naps if nothing was registered meanwhile.
fn after_look(seen: Option<u32>, before: Work) -> Work
    ensures { result ≡ after_look seen before }
{
    match (seen, before) {
        (None, _) => Work::Closing,
        (Some(seen), Work::Looking(c)) => {
            if seen == c {
                Work::Napping(None)
            } else {
                Work::Closing
            }
        }
        (Some(_), other) => other,
    }
}

/// The state of the work after an entry of its own (`try_to_suspend`).
fn work_step(kind: Kind, before: Work) -> Work
    ensures { result ≡ work_step kind before }
{
    match kind {
        Kind::AutoRun => Work::Reading,
        Kind::Read(c) => Work::Saving(c),
        Kind::AutoSaved(c) => Work::Attempting(c),
        Kind::AutoUnsaved(_) | Kind::Slept => Work::Closing,
        Kind::Over { .. } => looks_at(before),
        Kind::AutoAfter(seen) => after_look(seen, before),
        Kind::SleepD(until) => Work::Napping(Some(until)),
        Kind::AutoAgain | Kind::AutoOff => Work::Resting,
        _ => before,
    }
}

/// The state of the work after an entry of that actor: only its own entries move it.
fn work_after(who: Actor, kind: Kind, before: Work) -> Work
    ensures { result ≡ work_after who kind before }
{
    match who {
        Actor::Auto => work_step(kind, before),
        _ => before,
    }
}

/// Whether the work is queued after an entry; `on` says whether autosleep was on before it
/// (`queue_up_suspend_work`).
fn queued_after(kind: Kind, on: bool, before: bool) -> bool
    ensures { result ≡ queued_after kind on before }
{
    match kind {
        Kind::AutoDone => on || before,
        Kind::AutoAgain => true,
        Kind::AutoRun => false,
        _ => before,
    }
}

/// How often the work has run, after an entry.
fn runs_after(kind: Kind, before: u32) -> u32
    requires { runs_after kind before < 2 ^ 32 }
    ensures { result ≡ runs_after kind before }
{
    match kind {
        Kind::AutoRun => before + 1,
        _ => before,
    }
}

impl Autosleep {
    ghost use Rattle.std.specs.Prelude.{◌≡◌, ◌<◌, ◌^◌, false};
    ghost use Rattle.std.specs.Bool.{OnTrue};
    ghost use Rattle.sleep_model.specs.declared.progress.Work.TheVariants.{Resting};
    ghost use Rattle.sleep_model.specs.Autosleep.{runs_after};
    ghost use Rattle.autosleep_loop.specs.Autosleeps.{autosleep_after, idle_work};

    /// Nobody holds the lock, autosleep is off, and the work is idle.
    pub fn new() -> Self
        ensures { result ≡ idle_work }
    {
        Autosleep {
            holder: None,
            on: false,
            work: Work::Resting,
            queued: false,
            runs: 0,
        }
    }

    /// What an entry of that actor does.
    pub fn note(&mut self, kind: Kind, who: Actor)
        requires { runs_after kind self.old.runs < 2 ^ 32 }
        ensures { self.new ≡ autosleep_after kind who self.old }
    {
        self.queued = queued_after(kind, self.on, self.queued);
        self.runs = runs_after(kind, self.runs);
        self.work = work_after(who, kind, self.work);
        self.holder = holder_after(kind, who, self.holder);
        self.on = on_after(kind, self.on);
    }

    /// Who holds the autosleep lock.
    pub fn holder(&self) -> Option<Actor>
        ensures { result ≡ self.now.holder }
    {
        self.holder
    }

    /// Whether autosleep is on.
    pub fn is_on(&self) -> bool
        ensures { result ≡ self.now.on }
    {
        self.on
    }

    /// The state of the autosleep work.
    pub fn work(&self) -> Work
        ensures { result ≡ self.now.work }
    {
        self.work
    }

    /// Whether the work rests and is not queued.
    #[inline(always)]
    pub fn is_unqueued(&self) -> bool
        ensures { OnTrue result ((self.now.work ≡ Resting) × (self.now.queued ≡ false)) }
    {
        match self.work {
            Work::Resting if !self.queued => true,
            _ => false,
        }
    }

    /// How often the work has run.
    pub fn runs(&self) -> u32
        ensures { result ≡ self.now.runs }
    {
        self.runs
    }
}
