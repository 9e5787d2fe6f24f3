//! The definitions make each worked log without the program: one worker writes just these entries, if
//! every job in turn makes what is due of it, and time jumps after a round that did nothing.
//! `tools/dev worked` writes this file.

ghost use Rattle.std.specs.Prelude.{◌≡◌};
ghost use Rattle.law_trials.specs.Rounds.{one_worker};
ghost use Rattle.law_trials.specs.Attempts.{event_stops_a_device_machine, event_stops_a_device_entries, hard_event_machine, hard_event_entries, callback_reports_machine, callback_reports_entries};
ghost use Rattle.law_trials.specs.Counts.{read_waits_machine, read_waits_entries, calls_of_a_line_machine, calls_of_a_line_entries};
ghost use Rattle.law_trials.specs.Timers.{event_expires_machine, event_expires_entries};
ghost use Rattle.law_trials.specs.Autosleep.{autosleep_machine, autosleep_entries};

/// An event while the first of two devices suspends: the second is skipped, and a second attempt sleeps.
pub fn event_stops_a_device_is_made()
    ensures { one_worker event_stops_a_device_machine 100 ≡ event_stops_a_device_entries }
{}

/// A hard event gives up an attempt without a saved count; the next attempt forgets it and sleeps.
pub fn hard_event_is_made()
    ensures { one_worker hard_event_machine 63 ≡ hard_event_entries }
{}

/// A device's own suspend reports an event: its parent is skipped.
pub fn callback_reports_is_made()
    ensures { one_worker callback_reports_machine 31 ≡ callback_reports_entries }
{}

/// A read waits until the event in progress ends.
pub fn read_waits_is_made()
    ensures { one_worker read_waits_machine 14 ≡ read_waits_entries }
{}

/// A task that raises a mark, and an interrupt line that makes two calls on a source.
pub fn calls_of_a_line_is_made()
    ensures { one_worker calls_of_a_line_machine 8 ≡ calls_of_a_line_entries }
{}

/// Events of several lengths on one source: the latest end counts.
pub fn event_expires_is_made()
    ensures { one_worker event_expires_machine 15 ≡ event_expires_entries }
{}

/// Autosleep is turned on, sleeps once, and is turned off.
pub fn autosleep_is_made()
    ensures { one_worker autosleep_machine 58 ≡ autosleep_entries }
{}
