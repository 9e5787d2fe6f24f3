//! What the entries of the journal leave of attempts: the open one, its stage and its errors.

ghost use Rattle.std.specs.Prelude.{◌≡◌};

use crate::attempt::{
    attempts_after, entered_after, failed_after, freeze_since_after, maker_after, sleep_after,
};
use crate::counts::{count_pending, force_after, forgotten_after, time_after};
use crate::errors::{
    callback_after, disabled_by_direct_after, disabled_by_late_after, irqs_off_after, is_device,
    owes_platform_after, own_error_after, phase_failed_after,
};
use crate::phase_states::{is_of_device, is_of_task};
use crate::stage::stage_after;
use sleep_base::{Errno, Mem};
use sleep_model::{Actor, Callback, Entry, EventNow, PlatDo, Sleep, Stage, pos};
use std::marker::Model;

/// What the entries of the journal leave of the saved count, of the open attempt and of its phase: each field
/// is what a definition reads from them.
#[derive(Drop)]
pub struct AttemptAccount {
    time: u64,
    force: Option<u32>,
    forgotten: u32,
    attempts: u32,
    maker: Option<Actor>,
    stage: Option<Stage>,
    failed: Option<Errno>,
    entered: bool,
    freeze_since: Option<u64>,
    sleep: Option<Sleep>,
    callback: Option<Callback>,
    phase_failed: Option<Errno>,
    own_error: Option<Errno>,
    disabled_by_direct: bool,
    disabled_by_late: bool,
    irqs_off: bool,
    begun: bool,
    prepared: bool,
    prepared_late: bool,
}

impl Model for AttemptAccount {
    ghost use Rattle.check_account.specs.Accounts.{AttemptState};

    ghost Value = { AttemptState };

    ghost view = { λ a. record {
      time = a.time;
      force = a.force;
      forgotten = a.forgotten;
      attempts = a.attempts;
      maker = a.maker;
      stage = a.stage;
      failed = a.failed;
      entered = a.entered;
      freeze_since = a.freeze_since;
      sleep = a.sleep;
      callback = a.callback;
      phase_failed = a.phase_failed;
      own_error = a.own_error;
      disabled_by_direct = a.disabled_by_direct;
      disabled_by_late = a.disabled_by_late;
      irqs_off = a.irqs_off;
      begun = a.begun;
      prepared = a.prepared;
      prepared_late = a.prepared_late;
    } };
}

impl AttemptAccount {
    ghost use Rattle.std.specs.Prelude.{◌≡◌, ◌||◌, [], nat_lt, true, OnOk};
    ghost use Rattle.sleep_model.specs.Guard.{count_pending};
    ghost use Rattle.check_account.specs.Accounts.{attempt_after, attempt_of, is_of_device, owes_by};

    /// Before the first entry.
    pub fn new() -> Self
        ensures { result ≡ attempt_of [] }
    {
        AttemptAccount {
            time: 0,
            force: None,
            forgotten: 0,
            attempts: 0,
            maker: None,
            stage: None,
            failed: None,
            entered: false,
            freeze_since: None,
            sleep: None,
            callback: None,
            phase_failed: None,
            own_error: None,
            disabled_by_direct: false,
            disabled_by_late: false,
            irqs_off: false,
            begun: false,
            prepared: false,
            prepared_late: false,
        }
    }

    /// Passes an entry of a device that is prepared, scheduled, called back or completed: it moves only the
    /// open phase.
    #[tactic(auto, using(crate::proofs::Unmoved::attempt_stays))]
    fn pass_device(&mut self, e: Entry)
        requires { is_of_device e.kind ≡ true }
        ensures { self.new ≡ attempt_after e self.old }
    {
        let own = is_device(e.actor);
        self.callback = callback_after(e.kind, own, self.callback);
        self.phase_failed = phase_failed_after(e.kind, self.phase_failed);
        self.own_error = own_error_after(e.kind, own, self.own_error);
        self.disabled_by_late = disabled_by_late_after(e.kind, self.disabled_by_late);
    }

    /// Passes any entry of the journal. `Mem` if a counter has no room.
    fn pass_any(&mut self, e: Entry) -> Result<(), Mem>
        ensures { OnOk result (self.new ≡ attempt_after e self.old) }
    {
        let own = is_device(e.actor);
        self.attempts = attempts_after(e.kind, self.attempts)?;
        self.time = time_after(e.kind, e.time, self.time);
        self.force = force_after(e.kind, e.now, self.force);
        self.forgotten = forgotten_after(e.kind, e.now, self.forgotten);
        self.maker = maker_after(e.kind, e.actor, self.maker);
        self.stage = stage_after(e.kind, self.stage);
        self.failed = failed_after(e.kind, self.failed);
        self.entered = entered_after(e.kind, self.entered);
        self.freeze_since = freeze_since_after(e.kind, e.time, self.freeze_since);
        self.sleep = sleep_after(e.kind, pos(e.now), e.time, self.sleep);
        self.callback = callback_after(e.kind, own, self.callback);
        self.phase_failed = phase_failed_after(e.kind, self.phase_failed);
        self.own_error = own_error_after(e.kind, own, self.own_error);
        self.disabled_by_direct = disabled_by_direct_after(e.kind, self.disabled_by_direct);
        self.disabled_by_late = disabled_by_late_after(e.kind, self.disabled_by_late);
        self.irqs_off = irqs_off_after(e.kind, self.irqs_off);
        self.begun = owes_platform_after(e.kind, PlatDo::Begin, self.begun);
        self.prepared = owes_platform_after(e.kind, PlatDo::Prepare, self.prepared);
        self.prepared_late = owes_platform_after(e.kind, PlatDo::PrepareLate, self.prepared_late);
        Ok(())
    }

    /// Passes one more entry of the journal. `Mem` if a counter has no room.
    #[tactic(auto, using(crate::proofs::Unmoved::attempt_unmoved))]
    pub fn pass(&mut self, e: Entry) -> Result<(), Mem>
        ensures { OnOk result (self.new ≡ attempt_after e self.old) }
    {
        if is_of_task(e.kind) {
            return Ok(());
        }
        if is_of_device(e.kind) {
            self.pass_device(e);
            return Ok(());
        }
        self.pass_any(e)
    }

    /// The time of the last jump, in ms; 0 before any.
    pub fn time(&self) -> u64
        ensures { result ≡ self.now.time }
    {
        self.time
    }

    /// The count in force, if there is one (`events_check_enabled`, `saved_count`).
    pub fn in_force(&self) -> Option<u32>
        ensures { result ≡ self.now.force }
    {
        self.force
    }

    /// How many attempts were begun.
    pub fn attempts(&self) -> u32
        ensures { result ≡ self.now.attempts }
    {
        self.attempts
    }

    /// Who makes the open attempt, if one is open.
    pub fn maker(&self) -> Option<Actor>
        ensures { result ≡ self.now.maker }
    {
        self.maker
    }

    /// The stage of the open attempt, if one is open.
    pub fn stage(&self) -> Option<Stage>
        ensures { result ≡ self.now.stage }
    {
        self.stage
    }

    /// The error of the open attempt's step that failed.
    pub fn failed(&self) -> Option<Errno>
        ensures { result ≡ self.now.failed }
    {
        self.failed
    }

    /// Whether the open attempt has entered sleep.
    pub fn entered(&self) -> bool
        ensures { result ≡ self.now.entered }
    {
        self.entered
    }

    /// Since when a freeze goes on, in ms, if one does.
    pub fn freeze_since(&self) -> Option<u64>
        ensures { result ≡ self.now.freeze_since }
    {
        self.freeze_since
    }

    /// The machine's sleep, if it sleeps.
    pub fn sleep(&self) -> Option<Sleep>
        ensures { result ≡ self.now.sleep }
    {
        self.sleep
    }

    /// The callback that the attempt's maker runs, if one (`dpm_run_callback`).
    pub fn callback(&self) -> Option<Callback>
        ensures { result ≡ self.now.callback }
    {
        self.callback
    }

    /// The error of the open phase (`async_error`).
    pub fn phase_failed(&self) -> Option<Errno>
        ensures { result ≡ self.now.phase_failed }
    {
        self.phase_failed
    }

    /// The error of a synchronous device's callback in the open phase.
    pub fn own_error(&self) -> Option<Errno>
        ensures { result ≡ self.now.own_error }
    {
        self.own_error
    }

    /// Whether suspend has skipped a device as direct-complete, and resume is not done since.
    pub fn disabled_by_direct(&self) -> bool
        ensures { result ≡ self.now.disabled_by_direct }
    {
        self.disabled_by_direct
    }

    /// Whether late has taken a device, and early is not done since.
    pub fn disabled_by_late(&self) -> bool
        ensures { result ≡ self.now.disabled_by_late }
    {
        self.disabled_by_late
    }

    /// Whether interrupts are off.
    pub fn irqs_off(&self) -> bool
        ensures { result ≡ self.now.irqs_off }
    {
        self.irqs_off
    }

    /// Whether that step of the platform is owed its undo (`platform_resume_end` and its like).
    pub fn owes_platform(&self, step: PlatDo) -> bool
        ensures { result ≡ owes_by self.now step }
    {
        match step {
            PlatDo::Begin => self.begun,
            PlatDo::Prepare => self.prepared,
            PlatDo::PrepareLate => self.prepared_late,
        }
    }

    /// Whether a wakeup is pending at that word: the count in force has changed, or a hard event came that no
    /// freeze forgot (`pm_wakeup_pending`).
    pub fn is_pending(&self, now: EventNow) -> bool
        ensures { result ≡ (count_pending self.now.force now || nat_lt self.now.forgotten now.hard) }
    {
        count_pending(self.force, now) || now.hard > self.forgotten
    }
}
