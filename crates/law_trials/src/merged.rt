//! Worked logs taken apart into the machine's journal and the sources' histories: merged by their
//! stamps they are the log again, and with stamps that do not fit they are not.

ghost use Rattle.law_trials.specs.Attempts.{event_stops_a_device_machine, event_stops_a_device_entries, hard_event_machine, hard_event_entries, callback_reports_machine, callback_reports_entries};
ghost use Rattle.law_trials.specs.Autosleep.{autosleep_machine, autosleep_entries};
ghost use Rattle.law_trials.specs.Counts.{read_waits_machine, read_waits_entries, calls_of_a_line_machine, calls_of_a_line_entries};
ghost use Rattle.law_trials.specs.Breaking.{with_stamp};
ghost use Rattle.law_trials.specs.Merging.{Merges, MergesAgain, two_workers};
ghost use Rattle.law_trials.specs.Timers.{event_expires_machine, event_expires_entries};

/// Logs that one worker makes: each entry's maker knows the entry before it.
pub fn logs_merge_again()
    ensures device { MergesAgain event_stops_a_device_machine event_stops_a_device_entries }
    ensures hard { MergesAgain hard_event_machine hard_event_entries }
    ensures report { MergesAgain callback_reports_machine callback_reports_entries }
    ensures autosleep { MergesAgain autosleep_machine autosleep_entries }
    ensures read { MergesAgain read_waits_machine read_waits_entries }
    ensures expiry { MergesAgain event_expires_machine event_expires_entries }
{}

/// A log of two workers that know nothing of each other: ticks are each actor's and each list's own.
pub fn log_of_two_workers_merges()
    ensures { Merges calls_of_a_line_machine two_workers calls_of_a_line_entries }
{}

/// Copies of the entries of two workers with stamps that do not fit.
pub fn broken_stamps_do_not_merge()
    // The task's second entry has the tick of its first.
    ensures tick { Merges calls_of_a_line_machine (with_stamp 1 1 1 two_workers) calls_of_a_line_entries → ⊥ }
    // The line's entries go back in ticks.
    ensures back { Merges calls_of_a_line_machine (with_stamp 6 2 4 two_workers) calls_of_a_line_entries → ⊥ }
    // An entry counts a step that it did not see.
    ensures position { Merges calls_of_a_line_machine (with_stamp 1 2 2 two_workers) calls_of_a_line_entries → ⊥ }
    // A step is at a position that another has taken.
    ensures after { Merges calls_of_a_line_machine (with_stamp 5 0 4 two_workers) calls_of_a_line_entries → ⊥ }
{}
