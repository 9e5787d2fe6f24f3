//! What holds of each burst, whichever way its workers took turns.

ghost use Rattle.running_laws.specs.Courses.{CoursesGoOn};
ghost use Rattle.running_laws.specs.Preservation.{BurstsGoOn, BurstsGrow};
ghost use Rattle.running_laws.specs.Serial.{BurstsAreSerial};

/// The acts of a burst have an order in which each finds the machine and the sources as those before it left
/// them. The last one leaves the tasks, the machine and the sources that came back.
pub fn bursts_are_serial()
    ensures { BurstsAreSerial }
{}

/// From a state in which a run goes on, acts one after another come to one in which it goes on. The tasks are
/// of the same actors, and whoever has none knows what it knew.
pub fn courses_go_on()
    ensures { CoursesGoOn }
{}

/// A run goes on after a burst at its time, with the machine, the sources and the tasks that came back.
pub fn bursts_go_on()
    ensures { BurstsGoOn }
{}

/// A burst leaves no fewer entries than it found, neither in the journal nor of a source.
pub fn bursts_grow()
    ensures { BurstsGrow }
{}
