//! What is one worker's own from the run's begin to its end.

use event_word::{TableLook, TableSeat};
use idle_gate::WakerNow;

/// A waker at the event word.
#[derive(Drop)]
pub struct Waker<'t> {
    pub(crate) seat: TableSeat<'t>,
    /// What it has made.
    pub(crate) now: WakerNow,
    /// The least hard number that a wake after its latest hard event sees.
    pub(crate) least: u64,
    /// How many hard events came before each of its own, the oldest first.
    pub(crate) ranks: Vec<u32>,
}

/// A waker, or the idler.
#[derive(Drop)]
pub enum Role<'t> {
    /// A waker makes hard events and wakes in turn (`pm_system_wakeup`, `s2idle_wake`).
    Wakes(Waker<'t>),
    /// The idler looks, and has no event of its own (`s2idle_loop`).
    Idles(TableLook<'t>),
}
