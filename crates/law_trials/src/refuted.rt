//! Broken logs, each of which one law of sleep refuses at one entry, from the entries before it.
//!
//! `tools/dev worked` writes this file from `tools/worked/broken`.

ghost use Rattle.sleep_model.specs.Laws.{Owed, TakenOnce, NotOwedAlready, Restored, EntersDown};
ghost use Rattle.law_trials.specs.Attempts.{parent_and_child_machine, smallest_attempt_machine};
ghost use Rattle.law_trials.specs.Failures.{asynchronous_callback_fails_machine};
ghost use Rattle.law_trials.specs.Autosleep.{autosleep_machine};
ghost use Rattle.law_trials.specs.Breaking.{FailsAt};
ghost use Rattle.law_trials.specs.Refuted.{never_resumed_entries, failed_is_resumed_entries, never_prepared_entries, begun_twice_entries, never_woken_entries, down_in_noirq_alone_entries, enters_without_a_freeze_entries};

/// No device resumes: each is completed while it is down.
pub fn never_resumed_is_refused()
    ensures { FailsAt (λ m past k. Owed m past k) parent_and_child_machine 39 never_resumed_entries }
{}

/// An asynchronous device whose suspend failed is resumed.
pub fn failed_is_resumed_is_refused()
    ensures { FailsAt (λ m past k. Owed m past k) asynchronous_callback_fails_machine 14 failed_is_resumed_entries }
{}

/// A device that was never prepared suspends, resumes and is completed.
pub fn never_prepared_is_refused()
    ensures { FailsAt (λ m past k. TakenOnce m past k) parent_and_child_machine 10 never_prepared_entries }
{}

/// The platform hears twice that the attempt begins, and once that it ends.
pub fn begun_twice_is_refused()
    ensures { FailsAt (λ m past k. NotOwedAlready m past k) smallest_attempt_machine 8 begun_twice_entries }
{}

/// The attempt is over while the machine sleeps.
pub fn never_woken_is_refused()
    ensures { FailsAt (λ m past k. Restored m past k) smallest_attempt_machine 28 never_woken_entries }
{}

/// The devices go down only in noirq, in neither suspend nor late, and the machine enters sleep.
pub fn down_in_noirq_alone_is_refused()
    ensures { FailsAt (λ m past k. EntersDown m past k) parent_and_child_machine 22 down_in_noirq_alone_entries }
{}

/// The machine enters sleep while a user task was never asked to freeze.
pub fn enters_without_a_freeze_is_refused()
    ensures { FailsAt (λ m past k. EntersDown m past k) autosleep_machine 21 enters_without_a_freeze_entries }
{}
