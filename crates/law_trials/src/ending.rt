//! How logs end, tried by short lists of entries: each is right, or broken in one thing that a law of
//! `end_laws` refuses.

ghost use Rattle.std.specs.Prelude.{◌≡◌, false, true, reverse};
ghost use Rattle.end_laws.specs.Attempts.{attempts_end, own_entry_count};
ghost use Rattle.end_laws.specs.Bounds.{but_jumps};
ghost use Rattle.end_laws.specs.Waking.{events_wake_first, time_goes_forward};
ghost use Rattle.law_trials.specs.Ending.{another_ends, ends, never_ends, sleeps_on, slept_by_time, slept_through, stays, steps_back, woken, woken_late};

/// A machine that enters sleep and is woken by a hard event, one that the alarm wakes, and broken copies.
pub fn events_wake()
    ensures woken { events_wake_first (reverse woken) ≡ true }
    ensures by_alarm { events_wake_first (reverse slept_by_time) ≡ true }
    // The machine sleeps during the event, up to the alarm.
    ensures through { events_wake_first (reverse slept_through) ≡ false }
    // It wakes by the event, but time has passed before.
    ensures late { events_wake_first (reverse woken_late) ≡ false }
    // An event that was made before it entered does not count, one after does.
    ensures on { events_wake_first (reverse sleeps_on) ≡ true }
{}

/// Jumps that lead on, and broken copies.
pub fn time_passes()
    ensures forward { time_goes_forward (reverse slept_by_time) ≡ true }
    // A jump to the moment that is.
    ensures stays { time_goes_forward (reverse stays) ≡ false }
    // An entry of an earlier moment.
    ensures back { time_goes_forward (reverse steps_back) ≡ false }
{}

/// An attempt that ends, and broken copies.
pub fn attempts_are_over()
    ensures ends { attempts_end ends ≡ true }
    // The log has no end of the attempt.
    ensures never { attempts_end never_ends ≡ false }
    // It has the end of another.
    ensures other { attempts_end another_ends ≡ false }
{}

/// How many entries an attempt has, and how many of a log are no jumps.
pub fn entries_are_counted()
    ensures own { own_entry_count (reverse ends) ≡ 3 }
    ensures beside { own_entry_count (reverse woken) ≡ 0 }
    ensures but_jumps { but_jumps (reverse slept_by_time) ≡ 2 }
{}
