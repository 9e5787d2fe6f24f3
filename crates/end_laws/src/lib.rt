//! How logs end: no sleeping machine lets time pass over an event, time goes forward, each attempt ends, a
//! log has a bound, and its end names whoever has not exited. Each function here is a law of all legal logs,
//! and does nothing. `law_trials` tries the definitions on worked logs.
//!
//! Promises: Every legal log of an accepted machine keeps these laws, whoever made it. Two legal logs of one
//! machine with the same makers are the same log. By the clause of each function of `src/lib.rt`.
//!
//! Begin reading in `src/lib.rt`, `specs/Waking.antt`, `specs/Attempts.antt`, `specs/Bounds.antt`.
#![tactic(auto)]

ghost use Rattle.end_laws.specs.Attempts.{AttemptsAreShort, AttemptsEnd};
ghost use Rattle.end_laws.specs.Bounds.{AllLogsAreBounded, JournalsAreBounded, LogsAreBounded};
ghost use Rattle.end_laws.specs.Exits.{DoneHaveExited, NoneWaitStale, StuckNamesAll};
ghost use Rattle.end_laws.specs.Makers.{MakersDetermineEntries, MakersDetermineLogs};
ghost use Rattle.end_laws.specs.Moments.{JumpsWake, NextMomentsAreBounded, NextMomentsLieAhead};
ghost use Rattle.end_laws.specs.Waking.{EventsWakeFirst, TimeGoesForward};

/// An event that comes while the machine sleeps wakes it before any time passes. If time jumps while the
/// machine sleeps, no step was made on the event word since it entered (`kernel/power/suspend.c`,
/// `suspend_enter`; `drivers/base/power/wakeup.c`, `pm_wakeup_pending`).
#[tactic(auto, using(crate::proofs::Waking::events_first))]
pub fn events_wake_first()
    ensures { EventsWakeFirst }
{}

/// Each jump of time is to a later moment, and each other entry has the moment of the last jump before it
/// (own: one virtual clock).
#[tactic(auto, using(crate::proofs::Waking::time_forward))]
pub fn time_goes_forward()
    ensures { TimeGoesForward }
{}

/// Each attempt that a log of an accepted machine begins it ends, if it is finished or goes no further
/// (`kernel/power/suspend.c`, `pm_suspend`).
#[tactic(auto, using(crate::proofs::Attempts::all_end))]
pub fn attempts_end()
    ensures { AttemptsEnd }
{}

/// An attempt's maker and its devices make no more entries in it than are enough: 40, 20 more a device, and 2
/// more a notifier, a syscore operation and a processor (`kernel/power/suspend.c`, `enter_state`).
#[tactic(auto, using(crate::proofs::Attempts::short))]
pub fn attempts_are_short()
    ensures { AttemptsAreShort }
{}

/// If nobody can make anything and something is left to do, each moment for which something waits is later
/// than now: the end of a sleep, of a nap, of a freeze and of an event, and the alarm (`kernel/time/timer.c`,
/// `schedule_timeout`). Whatever the histories of the sources and the word are.
#[tactic(auto, using(crate::proofs::Moments::lie_ahead))]
pub fn next_moments_lie_ahead()
    ensures { NextMomentsLieAhead }
{}

/// If each source's event in progress ends at most a day from now, each moment for which something waits is
/// at most a day from now: no sleep, no length of an event and no alarm of an accepted machine is longer
/// (`kernel/time/timer.c`, `schedule_timeout`). Whatever the histories of the sources are.
#[tactic(auto, using(crate::proofs::Nearby::are_bounded))]
pub fn next_moments_are_bounded()
    ensures { NextMomentsAreBounded }
{}

/// After a jump of time somebody can make something, whatever the word is then; so no jump follows a jump
/// (`kernel/time/timer.c`, `schedule_timeout`; `drivers/base/power/wakeup.c`, `pm_wakeup_timer_fn`).
#[tactic(auto, using(crate::proofs::Moments::wake))]
pub fn jumps_wake()
    ensures { JumpsWake }
{}

/// A legal journal of an accepted machine has no more entries but jumps of time than its attempts, its
/// freezes, its scripts' operations and the runs of its autosleep work may make (own: Linux keeps no
/// journal).
#[tactic(auto, using(crate::proofs::Bounding::journal_bounded))]
pub fn journals_are_bounded()
    ensures { JournalsAreBounded }
{}

/// A legal log of an accepted machine has no more entries than the machine determines. Its journal has as
/// many but for the jumps, each source no more than its calls have room for, and no jump follows a jump (own:
/// Linux keeps no log).
#[tactic(auto, using(crate::proofs::Bounding::logs_bounded))]
pub fn logs_are_bounded()
    ensures { LogsAreBounded }
{}

/// Whatever the accepted machine is, a legal log of it has at most 37,585,025 entries (own).
#[tactic(auto, using(crate::proofs::Bounding::all_bounded))]
pub fn all_logs_are_bounded()
    ensures { AllLogsAreBounded }
{}

/// After a legal log each actor may make one entry, by all entries so far and nothing else: each entry is the
/// one that its actor may make (own: Linux keeps no log).
#[tactic(auto, using(crate::proofs::Makers::determines_entries))]
pub fn makers_determine_entries()
    ensures { MakersDetermineEntries }
{}

/// So two legal logs of one machine that were made by the same actors in turn are the same (own).
#[tactic(auto, using(crate::proofs::Makers::determines_logs))]
pub fn makers_determine_logs()
    ensures { MakersDetermineLogs }
{}

/// Nothing is due any more of just those scripts that have exited; of every other script, of the autosleep
/// work and of each device an entry is due, or they wait (`kernel/exit.c`, `do_exit`).
#[tactic(auto, using(crate::proofs::Exits::exited_exited))]
pub fn done_have_exited()
    ensures { DoneHaveExited }
{}

/// What is due of an actor is never a wait for numbers that somebody else knows: only a world answers
/// `Stale`, which compares them first (own).
pub fn none_wait_stale()
    ensures { NoneWaitStale }
{}

/// A log that goes no further names each script that has not exited (own).
#[tactic(auto, using(crate::proofs::Exits::stuck_names))]
pub fn stuck_logs_name_all()
    ensures { StuckNamesAll }
{}
