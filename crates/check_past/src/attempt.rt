//! What the passed entries leave of the word, of time, of the saved count, and of the open attempt.

use crate::passed::Passed;
use check_account::is_actor;
use sleep_base::Errno;
use sleep_model::{Actor, Callback, EventNow, Machine, PlatDo, Sleep, Stage, What};

impl<'m> Passed<'m> {
    ghost use Rattle.std.specs.Prelude.{◌≡◌, ◌+◌, length};
    ghost use Rattle.sleep_model.specs.Answers.{answer, answer_error, answer_number};
    ghost use Rattle.sleep_model.specs.Attempt.{failed, freeze_since, sleep_of, sleeps_now};
    ghost use Rattle.sleep_model.specs.Devices.{callback, own_error, phase_failed};
    ghost use Rattle.sleep_model.specs.Guard.{in_force, pending};
    ghost use Rattle.sleep_model.specs.Laws.{entered};
    ghost use Rattle.sleep_model.specs.Notifiers.{irqs_off, owes_platform};
    ghost use Rattle.sleep_model.specs.Numbers.{numbers, time_of};
    ghost use Rattle.sleep_model.specs.Path.{attempts, maker};
    ghost use Rattle.rule_definitions.specs.Questions.{is_maker};
    ghost use Rattle.sleep_model.specs.Runtime.{disabled_by_direct, disabled_by_late};
    ghost use Rattle.sleep_model.specs.Table.{stage_of};
    ghost use Rattle.check_past.specs.Passing.{journal_of, past_of};

    /// The machine.
    pub fn machine(&self) -> &'m Machine
        ensures { result.now ≡ self.now.machine }
    {
        self.machine
    }

    /// How many scripts the machine has.
    pub fn script_count(&self) -> u32
        ensures { result ≡ length self.now.machine.actors }
    {
        self.machine.actors.len() as u32
    }

    /// How many devices the machine has.
    pub fn device_count(&self) -> u32
        ensures { result ≡ length self.now.machine.devices }
    {
        self.machine.devices.len() as u32
    }

    /// How many wakeup sources the machine has, that of autosleep included.
    pub fn source_count(&self) -> u32
        ensures { result ≡ length self.now.machine.sources + 1 }
    {
        self.machine.sources.len() as u32 + 1
    }

    /// The error that a thing answers in the attempt that was begun last, if it answers one.
    pub fn answered_error(&self, what: What) -> Option<Errno>
        ensures { result ≡ answer_error (answer self.now.machine what (attempts (journal_of self.now))) }
    {
        self.past_state.calls.answers().error(what, self.attempts())
    }

    /// The number that a thing answers in the attempt that was begun last: 0 if the machine gives no answer.
    pub fn answered_number(&self, what: What) -> i32
        ensures { result ≡ answer_number (answer self.now.machine what (attempts (journal_of self.now))) }
    {
        self.past_state
            .calls
            .answers()
            .number(what, self.attempts())
    }

    /// How many entries were passed.
    pub fn passed(&self) -> usize
        ensures { result ≡ self.now.passed }
    {
        self.passed
    }

    /// The event word after them (`combined_event_count`).
    pub fn word(&self) -> EventNow
        ensures { result ≡ numbers (past_of self.now) }
    {
        self.past_state.word
    }

    /// The time of the last jump, in ms; 0 before any.
    pub fn time(&self) -> u64
        ensures { result ≡ time_of (past_of self.now) }
    {
        self.past_state.time
    }

    /// That time, by the journal.
    pub fn journal_time(&self) -> u64
        ensures { result ≡ time_of (journal_of self.now) }
    {
        self.attempt_account().time()
    }

    /// The count in force, if there is one (`events_check_enabled`, `saved_count`).
    pub fn in_force(&self) -> Option<u32>
        ensures { result ≡ in_force (journal_of self.now) }
    {
        self.attempt_account().in_force()
    }

    /// Whether a wakeup is pending at that word (`pm_wakeup_pending`).
    pub fn is_pending(&self, now: EventNow) -> bool
        ensures { result ≡ pending (journal_of self.now) now }
    {
        self.attempt_account().is_pending(now)
    }

    /// How many attempts were begun.
    pub fn attempts(&self) -> u32
        ensures { result ≡ attempts (journal_of self.now) }
    {
        self.attempt_account().attempts()
    }

    /// Who makes the open attempt, if one is open.
    pub fn maker(&self) -> Option<Actor>
        ensures { result ≡ maker (journal_of self.now) }
    {
        self.attempt_account().maker()
    }

    /// Whether that actor makes the open attempt (`system_transition_mutex`).
    pub fn is_maker(&self, who: Actor) -> bool
        ensures { result ≡ is_maker (journal_of self.now) who }
    {
        is_actor(who, self.maker())
    }

    /// The stage of the open attempt, if one is open (`enter_state`).
    pub fn stage(&self) -> Option<Stage>
        ensures { result ≡ stage_of (journal_of self.now) }
    {
        self.attempt_account().stage()
    }

    /// The error of the open attempt's step that failed.
    pub fn failed(&self) -> Option<Errno>
        ensures { result ≡ failed (journal_of self.now) }
    {
        self.attempt_account().failed()
    }

    /// Whether the open attempt has entered sleep.
    pub fn entered(&self) -> bool
        ensures { result ≡ entered (journal_of self.now) }
    {
        self.attempt_account().entered()
    }

    /// Since when a freeze goes on, in ms, if one does (`try_to_freeze_tasks`).
    pub fn freeze_since(&self) -> Option<u64>
        ensures { result ≡ freeze_since (journal_of self.now) }
    {
        self.attempt_account().freeze_since()
    }

    /// The machine's sleep, if it sleeps (`suspend_enter`).
    pub fn sleep(&self) -> Option<Sleep>
        ensures { result ≡ sleep_of (journal_of self.now) }
    {
        self.attempt_account().sleep()
    }

    /// Whether the machine sleeps.
    pub fn sleeps(&self) -> bool
        ensures { result ≡ sleeps_now (journal_of self.now) }
    {
        self.sleep().is_some()
    }

    /// The callback that the attempt's maker runs, if one (`dpm_run_callback`).
    pub fn callback(&self) -> Option<Callback>
        ensures { result ≡ callback (journal_of self.now) }
    {
        self.attempt_account().callback()
    }

    /// The error of the open phase (`async_error`).
    pub fn phase_failed(&self) -> Option<Errno>
        ensures { result ≡ phase_failed (journal_of self.now) }
    {
        self.attempt_account().phase_failed()
    }

    /// The error of a synchronous device's callback in the open phase.
    pub fn own_error(&self) -> Option<Errno>
        ensures { result ≡ own_error (journal_of self.now) }
    {
        self.attempt_account().own_error()
    }

    /// Whether suspend has skipped a device as direct-complete, and resume is not done since.
    pub fn disabled_by_direct(&self) -> bool
        ensures { result ≡ disabled_by_direct (journal_of self.now) }
    {
        self.attempt_account().disabled_by_direct()
    }

    /// Whether late has taken a device, and early is not done since.
    pub fn disabled_by_late(&self) -> bool
        ensures { result ≡ disabled_by_late (journal_of self.now) }
    {
        self.attempt_account().disabled_by_late()
    }

    /// Whether interrupts are off.
    pub fn irqs_off(&self) -> bool
        ensures { result ≡ irqs_off (journal_of self.now) }
    {
        self.attempt_account().irqs_off()
    }

    /// Whether that step of the platform is owed its undo.
    pub fn owes_platform(&self, step: PlatDo) -> bool
        ensures { result ≡ owes_platform step (journal_of self.now) }
    {
        self.attempt_account().owes_platform(step)
    }
}
