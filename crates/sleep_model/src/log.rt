//! A log and its end, the statistics of a source, and what an actor waits for or wants.
use crate::entry::Actor;
use crate::entry_list::EntryList;
use crate::list::ListOf;
use crate::machine::SourceCall;

/// The statistics of a wakeup source (`drivers/base/power/wakeup.c`,
/// `print_wakeup_source_stats`). Times are in ms.
#[derive(Clone, Copy, Debug, PartialEq, Eq)]
pub struct Stats {
    pub active_count: u32,
    pub event_count: u32,
    pub expire_count: u32,
    pub active_time: u64,
    pub total_time: u64,
    pub max_time: u64,
    pub last_time: u64,
}

/// All that a run did: its entries, the statistics of each source (`autosleep` last), and its end.
#[derive(Drop)]
pub struct Log {
    pub entries: EntryList,
    pub stats: ListOf<Stats>,
    pub end: LogEnd,
}

/// How a run ended.
#[derive(Drop)]
pub enum LogEnd {
    Finished,
    Stuck(ListOf<Waiting>),
}

/// A script that never exits, and what it waits for.
#[derive(Clone, Copy)]
pub struct Waiting {
    pub actor: Actor,
    pub why: Why,
}

/// Why an actor can't make an entry now.
#[derive(Clone, Copy)]
pub enum Why {
    /// Wakeup events are in progress.
    InProgress,
    /// Nobody has raised the mark.
    Mark(u32),
    /// Another holds the autosleep lock.
    LockHeld,
    /// That moment, in ms, is not reached.
    Until(u64),
    Frozen,
    Asleep,
    /// That device has to end first.
    Device(u32),
    /// Tasks that were asked to freeze are left, and the freeze gives up at `until` ms.
    Tasks { left: u32, until: u64 },
    /// The asynchronous device is not scheduled.
    NotScheduled,
    /// The autosleep work has nothing to do.
    NoWork,
    /// The caller's numbers are no longer the machine's.
    Stale { calls: u32, time: u64 },
}

/// What an actor's script wants next.
#[derive(Clone, Copy)]
pub enum Want {
    Source(u32, SourceCall),
    Core,
    Nothing,
}

/// The runtime status of a device (`drivers/base/power/runtime.c`), and why a request may be refused.
#[derive(Clone, Copy, Debug, PartialEq, Eq)]
pub struct Runtime {
    pub suspended: bool,
    pub prepared: bool,
    pub off_direct: bool,
    pub off_late: bool,
}
