//! What a log of suspend-to-idle says.

/// What an entry's maker did.
#[derive(Clone, Copy, Debug, PartialEq, Eq)]
pub enum IdleKind {
    /// A waker's hard event (`pm_system_wakeup`).
    Hard,
    /// The idler begins a session, and forgets the hard events so far (`pm_wakeup_clear`).
    Begin,
    /// A waker calls the idler (`s2idle_wake`).
    Wake,
    /// The idler looks, finds no wakeup pending, and enters (`s2idle_enter`).
    TryOk,
    /// The idler looks, finds a wakeup pending, and ends the session (`s2idle_enter`).
    TryBusy,
    /// The idler comes back from idle (`s2idle_enter`, after its wait).
    Leave,
}

/// An entry: how many hard events came before it, who made it (a waker's number; the idler's is the number of
/// wakers), and what.
#[derive(Clone, Copy, Debug, PartialEq, Eq)]
pub struct IdleEntry {
    pub hard: u32,
    pub who: u32,
    pub what: IdleKind,
}

/// How many wakers there are, how many hard events each makes, and how many sessions the idler may
/// begin.
#[derive(Clone, Copy, Debug, PartialEq, Eq)]
pub struct IdleSizes {
    pub wakers: u32,
    pub events: u32,
    pub sessions: u32,
}

/// The log of a run, the oldest entry first, and whether the idler is in idle at its end.
#[derive(Drop)]
pub struct IdleLog {
    pub entries: Vec<IdleEntry>,
    pub idle: bool,
}
