//! What one waker has made.

/// What a waker has made: how many wakes, and whether it has made a hard event whose wake is to come.
#[derive(Clone, Copy, Debug, PartialEq, Eq)]
pub struct WakerNow {
    pub wakes: u32,
    pub owes: bool,
}

impl WakerNow {
    ghost use Rattle.std.specs.Prelude.{◌≡◌, not, nat_lt};

    /// Whether it has made the wake of its last hard event, of which it makes that many (`s2idle_wake`).
    pub fn is_done(self, events: u32) -> bool
        ensures { result ≡ not (nat_lt self.wakes events) }
    {
        self.wakes >= events
    }
}
