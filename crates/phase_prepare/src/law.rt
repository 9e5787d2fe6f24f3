//! The law of prepare and complete; it is proved from the definitions only.

ghost use Rattle.std.specs.Prelude.{List};
ghost use Rattle.sleep_model.specs.declared.entry.Entry.{Entry};
ghost use Rattle.sleep_model.specs.declared.machine.Machine.{Machine};
ghost use Rattle.phase_prepare.specs.AtPoints.{PrepareFollows};

/// At each point of a machine's log prepare and complete do what the definitions say.
pub fn prepare_follows()
    ensures { (m : Machine) (past : List Entry) → PrepareFollows m past }
{}
