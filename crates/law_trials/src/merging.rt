//! Worked logs by which the laws of the merge are tried: taken apart, they meet the premises.

ghost use Rattle.std.specs.Prelude.{◌≡◌, ◌∷◌, false};
ghost use Rattle.sleep_model.specs.Legal.{IsLegal};
ghost use Rattle.law_trials.specs.BrokenLists.{broken, chain_fits, count_fits, jumps_fit, looks_fit, sides_fit, ticks_fit, times_fit, with_pos, with_tick, with_time};
ghost use Rattle.law_trials.specs.Inside.{exit_in_the_call, note_in_the_call, one_event_begun, one_event_machine, start_of_the_call, two_events_machine};
ghost use Rattle.law_trials.specs.MergeTests.{TestsShowPremises};
ghost use Rattle.law_trials.specs.InLists.{IsApart, IsApartAgain};
ghost use Rattle.law_trials.specs.Attempts.{event_stops_a_device_machine, event_stops_a_device_entries, hard_event_machine, hard_event_entries, callback_reports_machine, callback_reports_entries};
ghost use Rattle.law_trials.specs.Autosleep.{autosleep_machine, autosleep_entries};
ghost use Rattle.law_trials.specs.Counts.{read_waits_machine, read_waits_entries, calls_of_a_line_machine};
ghost use Rattle.law_trials.specs.Merging.{two_workers};
ghost use Rattle.law_trials.specs.Timers.{event_expires_machine, event_expires_entries};

/// What one worker makes: each entry's maker knows the entry before it.
pub fn logs_are_in_lists()
    ensures device { IsApartAgain event_stops_a_device_machine event_stops_a_device_entries }
    ensures hard { IsApartAgain hard_event_machine hard_event_entries }
    ensures report { IsApartAgain callback_reports_machine callback_reports_entries }
    ensures autosleep { IsApartAgain autosleep_machine autosleep_entries }
    ensures read { IsApartAgain read_waits_machine read_waits_entries }
    ensures expiry { IsApartAgain event_expires_machine event_expires_entries }
{}

/// What two workers make that know nothing of each other: ticks are each actor's and each list's own.
pub fn log_of_two_workers_is_in_lists()
    ensures { IsApart calls_of_a_line_machine two_workers }
{}

/// A line that has noted an event, which owes a start, makes neither its exit nor its next note before that
/// start.
pub fn nothing_stands_inside_a_call()
    ensures begun { IsLegal one_event_machine one_event_begun }
    ensures exit { IsLegal one_event_machine (exit_in_the_call ∷ one_event_begun) → ⊥ }
    ensures note { IsLegal two_events_machine (note_in_the_call ∷ one_event_begun) → ⊥ }
    ensures start { IsLegal one_event_machine (start_of_the_call ∷ one_event_begun) }
{}

/// What passes the tests meets the premises of `lists_merge_to_a_legal_log`.
pub fn tests_show_the_premises()
    ensures { TestsShowPremises }
{}

/// Lists of which one entry is broken do not fit: a step at a position that is not its own, or after
/// steps that leave another word; a look at a position of another word; an entry without a tick; a jump
/// that does not raise the time; an entry after a jump with a tick before it, or before a jump with its
/// time; an entry at a time of no jump.
pub fn broken_lists_do_not_fit()
    ensures step_position { count_fits (broken 10 (with_pos 5)) ≡ false }
    ensures step_order { chain_fits (broken 10 (with_pos 0)) ≡ false }
    ensures look_position { looks_fit (broken 4 (with_pos 0)) ≡ false }
    ensures no_tick { ticks_fit (broken 0 (with_tick 0)) ≡ false }
    ensures jump_back { jumps_fit (broken 8 (with_time 50)) ≡ false }
    ensures tick_of_the_other_side { sides_fit (broken 4 (with_tick 2)) ≡ false }
    ensures time_of_the_other_side { sides_fit (broken 2 (with_time 50)) ≡ false }
    ensures no_time { times_fit (broken 4 (with_time 60)) ≡ false }
{}
