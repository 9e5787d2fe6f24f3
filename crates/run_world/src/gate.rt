//! Who sees the turns in a burst.

use sleep_model::Actor;

/// What sees the turns in a burst (own: Linux has its scheduler). A test waits in it, to bring turns into an
/// order; each clause holds for every gate.
pub trait Gate {
    /// The job at that index has its turn next. Its worker holds no lock.
    fn pass(&self, job: u32);

    /// The actor has taken the machine's lock, and has looked at nothing yet.
    fn held(&self, who: Actor);
}

/// The gate of a program: nobody waits at it.
#[derive(Clone, Copy, Drop)]
pub struct OpenGate;

impl Gate for OpenGate {
    fn pass(&self, _job: u32) {}

    fn held(&self, _who: Actor) {}
}
