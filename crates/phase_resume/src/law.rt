//! The law of the way up; it is proved from the definitions only.

ghost use Rattle.std.specs.Prelude.{List};
ghost use Rattle.sleep_model.specs.declared.entry.Entry.{Entry};
ghost use Rattle.sleep_model.specs.declared.machine.Machine.{Machine};
ghost use Rattle.sleep_model.specs.declared.word.EventNow.{EventNow};
ghost use Rattle.phase_resume.specs.AtPoints.{ResumeFollows};

/// At each point of a machine's log the walk on the way up and the devices that it scheduled do what the
/// definitions say.
pub fn up_follows()
    ensures { (m : Machine) (past : List Entry) (now : EventNow) → ResumeFollows m past now }
{}
