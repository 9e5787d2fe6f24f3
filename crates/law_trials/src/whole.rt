//! Whole logs that were worked out apart from the program: each is legal for its machine, can be
//! written, and is finished or stuck. `tools/dev worked` writes this file.

ghost use Rattle.sleep_model.specs.Fits.{IsWritable};
ghost use Rattle.sleep_model.specs.Legal.{IsLegalLog, IsFinishedLog};
ghost use Rattle.law_trials.specs.Attempts.{event_stops_a_device_machine, event_stops_a_device, hard_event_machine, hard_event, callback_reports_machine, callback_reports};
ghost use Rattle.law_trials.specs.Counts.{read_waits_machine, read_waits, calls_of_a_line_machine, calls_of_a_line};
ghost use Rattle.law_trials.specs.Timers.{event_expires_machine, event_expires};
ghost use Rattle.law_trials.specs.Autosleep.{autosleep_machine, autosleep};

/// An event while the first of two devices suspends: the second is skipped, and a second attempt sleeps.
pub fn event_stops_a_device_is_legal()
    ensures legal { IsLegalLog event_stops_a_device_machine event_stops_a_device }
    ensures writable { IsWritable event_stops_a_device_machine event_stops_a_device }
    ensures finished { IsFinishedLog event_stops_a_device_machine event_stops_a_device }
{}

/// A hard event gives up an attempt without a saved count; the next attempt forgets it and sleeps.
pub fn hard_event_is_legal()
    ensures legal { IsLegalLog hard_event_machine hard_event }
    ensures writable { IsWritable hard_event_machine hard_event }
    ensures finished { IsFinishedLog hard_event_machine hard_event }
{}

/// A device's own suspend reports an event: its parent is skipped.
pub fn callback_reports_is_legal()
    ensures legal { IsLegalLog callback_reports_machine callback_reports }
    ensures writable { IsWritable callback_reports_machine callback_reports }
    ensures finished { IsFinishedLog callback_reports_machine callback_reports }
{}

/// A read waits until the event in progress ends.
pub fn read_waits_is_legal()
    ensures legal { IsLegalLog read_waits_machine read_waits }
    ensures writable { IsWritable read_waits_machine read_waits }
    ensures finished { IsFinishedLog read_waits_machine read_waits }
{}

/// A task that raises a mark, and an interrupt line that makes two calls on a source.
pub fn calls_of_a_line_is_legal()
    ensures legal { IsLegalLog calls_of_a_line_machine calls_of_a_line }
    ensures writable { IsWritable calls_of_a_line_machine calls_of_a_line }
    ensures finished { IsFinishedLog calls_of_a_line_machine calls_of_a_line }
{}

/// Events of several lengths on one source: the latest end counts.
pub fn event_expires_is_legal()
    ensures legal { IsLegalLog event_expires_machine event_expires }
    ensures writable { IsWritable event_expires_machine event_expires }
    ensures finished { IsFinishedLog event_expires_machine event_expires }
{}

/// Autosleep is turned on, sleeps once, and is turned off.
pub fn autosleep_is_legal()
    ensures legal { IsLegalLog autosleep_machine autosleep }
    ensures writable { IsWritable autosleep_machine autosleep }
    ensures finished { IsFinishedLog autosleep_machine autosleep }
{}
