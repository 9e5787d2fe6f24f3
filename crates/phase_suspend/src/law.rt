//! The law of the way down; it is proved from the definitions only.

ghost use Rattle.std.specs.Prelude.{List};
ghost use Rattle.sleep_model.specs.declared.entry.Entry.{Entry};
ghost use Rattle.sleep_model.specs.declared.machine.Machine.{Machine};
ghost use Rattle.sleep_model.specs.declared.word.EventNow.{EventNow};
ghost use Rattle.phase_suspend.specs.AtPoints.{SuspendFollows};

/// At each point of a machine's log the walk, the devices that it scheduled and the requests for a runtime
/// status get what the definitions say.
pub fn down_follows()
    ensures { (m : Machine) (past : List Entry) (now : EventNow) → SuspendFollows m past now }
{}
