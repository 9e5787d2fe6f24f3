//! Worked logs by which the laws of a run are tried: their entries may be made one after another, and
//! broken ones may not.

ghost use Rattle.std.specs.Prelude.{◌∷◌, false, []};
ghost use Rattle.sleep_model.specs.declared.machine.SourceCall.TheVariants.{Event, Relax};
ghost use Rattle.sleep_model.specs.declared.entry.Actor.TheVariants.{Script, Time};
ghost use Rattle.wakeup_source.specs.SourceStates.{new_source};
ghost use Rattle.run_laws.specs.Called.{IsReady};
ghost use Rattle.run_laws.specs.Invariant.{nothing};
ghost use Rattle.run_laws.specs.ClosedOver.{IsClosedOver, IsSeenLast};
ghost use Rattle.run_laws.specs.Passes.{HaveMakers};
ghost use Rattle.run_laws.specs.Seated.{IsSeated};
ghost use Rattle.run_laws.specs.Turned.{MayLeap, MayTurn};
ghost use Rattle.law_trials.specs.BrokenRuns.{asleep, begun, begun_back, by_line, finish_too, first_of, jump_one_source_short, jump_too_far, looks, made_nothing, made_start, note_floor, older_looks, short_floor, sleep_at_an_older_word, sleep_in_the_call, slept_too_early, start_made, start_of_another, start_too_early};
ghost use Rattle.law_trials.specs.Passing.{lines, one_line, two_passes};
ghost use Rattle.law_trials.specs.RunTests.{IsTestedRun, Tested, TestsShowInvariant, made_of};
ghost use Rattle.law_trials.specs.Attempts.{callback_reports_entries, callback_reports_machine, hard_event_entries, hard_event_machine};
ghost use Rattle.law_trials.specs.Terms.{word};
ghost use Rattle.law_trials.specs.Timers.{event_expires_entries, event_expires_machine};

/// What one worker makes may be made, entry by entry: events with a length and three jumps, a hard event
/// in an attempt, reports of a callback.
pub fn worked_logs_may_be_made()
    ensures expiry { IsTestedRun event_expires_machine event_expires_entries }
    ensures hard { IsTestedRun hard_event_machine hard_event_entries }
    ensures report { IsTestedRun callback_reports_machine callback_reports_entries }
{}

/// Of what passes the tests all is known that `invariant_merges` asks.
pub fn tests_show_the_invariant()
    ensures { TestsShowInvariant }
{}

/// These may not be made: a turn inside a call; a step of another's call; an entry with its actor's last
/// tick, and one at the position before its actor's step; a jump whose maker's floor is one source short,
/// and one too far; an entry at the time before a jump.
pub fn broken_entries_may_not_be_made()
    ensures in_the_call { Tested event_expires_machine (first_of 13) sleep_in_the_call → ⊥ }
    ensures of_another { Tested event_expires_machine (first_of 13) start_of_another → ⊥ }
    ensures same_tick { Tested event_expires_machine (first_of 13) start_too_early → ⊥ }
    ensures older_word { Tested event_expires_machine (first_of 12) sleep_at_an_older_word → ⊥ }
    ensures short { Tested event_expires_machine (first_of 3) jump_one_source_short → ⊥ }
    ensures far { Tested event_expires_machine (first_of 11) jump_too_far → ⊥ }
    ensures old_time { Tested event_expires_machine (first_of 10) slept_too_early → ⊥ }
{}

/// The table of one start schedules it; one that lacks the start schedules nothing, nor does one whose
/// machine never saw the word after it.
pub fn a_table_covers_its_steps()
    ensures closed_over { IsClosedOver made_start looks (word 1 0 0) asleep begun }
    ensures lacks { IsClosedOver made_nothing looks (word 1 0 0) asleep begun → ⊥ }
    ensures unseen { IsClosedOver made_start older_looks (word 1 0 0) asleep begun → ⊥ }
{}

/// The look after the start saw the last word, and the look before it did not.
pub fn the_last_look_is_after_all()
    ensures last { IsSeenLast looks begun (word 1 0 0) }
    ensures older { IsSeenLast looks begun (word 0 0 0) → ⊥ }
{}

/// A line's first call is ready, and one that it does not make next is not. Inside a call the line makes no
/// turn, and time does not jump whose maker's floor is one source short.
pub fn calls_and_turns_are_ready_or_not()
    ensures first { IsReady event_expires_machine nothing by_line (Event 100 false) (new_source 0) }
    ensures other_call { IsReady event_expires_machine nothing by_line Relax (new_source 0) → ⊥ }
    ensures in_the_call { MayTurn event_expires_machine (made_of (first_of 13)) (Script 0) note_floor sleep_in_the_call → ⊥ }
    ensures short { MayLeap event_expires_machine (made_of (first_of 3)) short_floor jump_one_source_short → ⊥ }
{}

/// A seat that made the start of its source's history, and looked at the word of its note, is that source's.
/// One that made a step that the history lacks is not, nor one that looked at no word, nor one that lacks a
/// step.
pub fn a_seat_is_of_its_source()
    ensures seated { IsSeated start_made (word 0 0 0 ∷ []) begun_back }
    ensures more { IsSeated finish_too (word 0 0 0 ∷ []) begun_back → ⊥ }
    ensures less { IsSeated [] (word 0 0 0 ∷ []) begun_back → ⊥ }
    ensures unseen { IsSeated start_made [] begun_back → ⊥ }
{}

/// Two passes of two lines have makers, whom `log_says_who` asks for; as those of one line they have none.
pub fn passes_have_makers()
    ensures made { HaveMakers lines 0 two_passes }
    ensures same { HaveMakers one_line 0 two_passes → ⊥ }
{}
