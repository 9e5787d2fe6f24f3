//! The rules of a log are independent: an entry of a broken copy breaks one of them and no other. After a
//! legal journal no entry breaks only those of what is owed and of what is restored (`owed_follows` of
//! `log_rules`).

ghost use Rattle.std.specs.Prelude.{[], ◌∷◌, None, Some, pos, true};
ghost use Rattle.sleep_model.specs.declared.entry.Actor.TheVariants as actor;
ghost use Rattle.sleep_model.specs.declared.entry.Kind.TheVariants as kind;
ghost use Rattle.sleep_model.specs.declared.entry.SkipCause.TheVariants as skips;
ghost use Rattle.sleep_model.specs.declared.machine.PlatUndo.TheVariants as undo;
ghost use Rattle.phase_table.specs.declared.phase.Phase.TheVariants as phase;
ghost use Rattle.rule_definitions.specs.Entry.{Source};
ghost use Rattle.law_trials.specs.Attempts.{event_stops_a_device_machine, event_stops_a_device_entries};
ghost use Rattle.law_trials.specs.Autosleep.{autosleep_machine, autosleep_entries};
ghost use Rattle.law_trials.specs.Breaking.{at_time, by, left_out, says};
ghost use Rattle.law_trials.specs.Devices.{runtime_requests_machine, runtime_requests_entries};
ghost use Rattle.law_trials.specs.Links.{link_added_machine, link_added_entries};
ghost use Rattle.law_trials.specs.Rules.{BreaksJust, HoldsAt, Judged};
ghost use Rattle.law_trials.specs.Timers.{event_expires_machine, event_expires_entries};

/// Of each of thirteen rules some entry breaks only that one.
pub fn rules_are_broken_alone()
    // A link that would close a cycle is added.
    ensures links { HoldsAt (BreaksJust (2 ∷ [])) link_added_machine 1 (says 1 (kind.LinkAdd 0 1 None) link_added_entries) }
    // A phase that is done carries the time of another index.
    ensures numbers { HoldsAt (BreaksJust (4 ∷ [])) event_stops_a_device_machine 30 (at_time 30 5 event_stops_a_device_entries) }
    // The second attempt counts itself the third, or claims a count that is no longer in force.
    ensures attempts { HoldsAt (BreaksJust (7 ∷ [])) event_stops_a_device_machine 42 (says 42 (kind.Attempt 3 None) event_stops_a_device_entries) }
    ensures guard { HoldsAt (BreaksJust (7 ∷ [])) event_stops_a_device_machine 42 (says 42 (kind.Attempt 2 (Some 0)) event_stops_a_device_entries) }
    // A save is answered while autosleep is on, or the work reads an older count.
    ensures saved { HoldsAt (BreaksJust (8 ∷ [])) autosleep_machine 7 (says 7 (kind.Saved 0) autosleep_entries) }
    ensures older { HoldsAt (BreaksJust (8 ∷ [])) autosleep_machine 8 (says 8 (kind.Read 0) autosleep_entries) }
    // A device answers to its prepare what the machine does not.
    ensures walk { HoldsAt (BreaksJust (9 ∷ [])) event_stops_a_device_machine 16 (says 16 (kind.Prepare 0 (pos 1)) event_stops_a_device_entries) }
    // A device that a wakeup passes over is called direct-complete.
    ensures skip { HoldsAt (BreaksJust (10 ∷ [])) event_stops_a_device_machine 28 (says 28 (kind.Skip phase.Suspend 0 skips.Direct) event_stops_a_device_entries) }
    // A prepared device is suspended at run time.
    ensures runtime { HoldsAt (BreaksJust (11 ∷ [])) runtime_requests_machine 17 (says 17 (kind.RuntimeAsk 0 true None) runtime_requests_entries) }
    // A freeze is over while a task is left.
    ensures freezer { HoldsAt (BreaksJust (13 ∷ [])) autosleep_machine 13 (left_out 13 autosleep_entries) }
    // After a phase that failed the platform ends before it recovers.
    ensures path { HoldsAt (BreaksJust (14 ∷ [])) event_stops_a_device_machine 31 (says 31 (kind.PlatformUndo undo.End) event_stops_a_device_entries) }
    // A phase that failed answers that all is well, or its attempt does.
    ensures done { HoldsAt (BreaksJust (15 ∷ [])) event_stops_a_device_machine 30 (says 30 (kind.Done phase.Suspend None) event_stops_a_device_entries) }
    ensures over { HoldsAt (BreaksJust (15 ∷ [])) event_stops_a_device_machine 41 (says 41 (kind.Over 1 None) event_stops_a_device_entries) }
    // The work naps for less than half a second.
    ensures steps { HoldsAt (BreaksJust (17 ∷ [])) autosleep_machine 41 (says 41 (kind.SleepD 1400) autosleep_entries) }
    // An alarm's wake is logged as an event's, or time jumps too far.
    ensures wake { HoldsAt (BreaksJust (18 ∷ [])) autosleep_machine 28 (says 28 (kind.Wake true) autosleep_entries) }
    ensures far { HoldsAt (BreaksJust (18 ∷ [])) autosleep_machine 42 (at_time 42 1300 autosleep_entries) }
    // A source expires before its time.
    ensures source { HoldsAt (BreaksJust (22 ∷ [])) event_expires_machine 4 (by 4 (actor.Timer 0) (says 4 (kind.Expire 0) event_expires_entries)) }
{}

/// Entries that break several rules, of which the checker names the least.
pub fn rules_are_broken_together()
    // A device that a wakeup passes over begins all the same.
    ensures begins { HoldsAt (BreaksJust (9 ∷ 10 ∷ [])) event_stops_a_device_machine 28 (says 28 (kind.Begin phase.Suspend 0) event_stops_a_device_entries) }
    // The device that was passed over resumes.
    ensures resumes { HoldsAt (BreaksJust (9 ∷ 12 ∷ [])) event_stops_a_device_machine 32 (says 32 (kind.Begin phase.Resume 0) event_stops_a_device_entries) }
    // An attempt is over before all tasks are let go.
    ensures over { HoldsAt (BreaksJust (14 ∷ 16 ∷ [])) autosleep_machine 38 (says 38 (kind.Over 1 None) autosleep_entries) }
    // An expiry starts an event. A step on the word asks for every source, so its other rules are not
    // computed here.
    ensures starts { HoldsAt (Judged true Source) event_expires_machine 10 (says 10 (kind.Start 0) event_expires_entries) }
{}
