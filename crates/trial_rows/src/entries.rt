//! Entries and ends of logs as values, and the lines that are written for them.

use log_text::write_log;
use sleep_base::{Errno, Mem, drop_for_mem};
use sleep_model::{
    Actor, Entry, EntryList, EventNow, FrozeEnd, Group, Kind, ListOf, Log, LogEnd, Machine, Phase,
    SkipCause, Stats, Waiting, Why,
};
use std::alloc::Global;

/// An entry by its moment, the events that are registered, its actor and its kind; no event is in progress,
/// and none was hard.
pub type EntryRow = (u64, u32, Actor, Kind);

const TASK: Actor = Actor::Script(0);

const IRQ: Actor = Actor::Script(2);

const EVENT: Kind = Kind::Event {
    source: 0,
    ms: 0,
    hard: false,
};

const SKIP: Kind = Kind::Skip(Phase::Suspend, 0, SkipCause::Pending);

const ATTEMPT: Kind = Kind::Attempt {
    n: 1,
    guarded: Some(0),
};

const TIMEOUT: FrozeEnd = FrozeEnd::Timeout { left: 1, first: 1 };

/// Steps of tasks, of the phases of a device and of attempts.
pub const ENTRIES: [EntryRow; 19] = [
    (0, 0, TASK, Kind::Read(0)),
    (0, 0, TASK, Kind::Saved(0)),
    (0, 1, TASK, Kind::SaveErr(0, Errno::EINVAL)),
    (0, 0, IRQ, EVENT),
    (0, 0, Actor::Auto, Kind::AutoAfter(None)),
    (0, 0, Actor::Dev(0), Kind::Begin(Phase::Suspend, 0)),
    (0, 0, Actor::Timer(0), Kind::Expire(0)),
    (0, 0, Actor::Timer(1), Kind::Expire(1)),
    (1000, 0, Actor::Time, Kind::Jump),
    (0, 0, TASK, Kind::Begin(Phase::Suspend, 0)),
    (0, 0, TASK, Kind::End(Phase::Suspend, 0, None)),
    (0, 1, TASK, SKIP),
    (0, 1, TASK, Kind::Done(Phase::Suspend, Some(Errno::EBUSY))),
    (0, 0, TASK, ATTEMPT),
    (0, 0, TASK, Kind::Enter { busy: false }),
    (0, 1, TASK, Kind::Enter { busy: true }),
    (1000, 0, TASK, Kind::Wake { by_event: false }),
    (1000, 0, TASK, Kind::Over { n: 1, r: None }),
    (20000, 0, TASK, Kind::Froze(Group::User, TIMEOUT)),
];

const ADDED: Kind = Kind::LinkAdd {
    supplier: 0,
    consumer: 1,
    r: None,
};

const NOT_ADDED: Kind = Kind::LinkAdd {
    supplier: 0,
    consumer: 1,
    r: Some(Errno::EINVAL),
};

const SET: Kind = Kind::LinkState {
    supplier: 1,
    consumer: 0,
    active: false,
    r: None,
};

const NOT_SET: Kind = Kind::LinkState {
    supplier: 1,
    consumer: 0,
    active: true,
    r: Some(Errno::ENODEV),
};

/// A task adds a link, or sets its state, or is refused.
pub const LINK_ENTRIES: [EntryRow; 4] = [
    (0, 0, TASK, ADDED),
    (0, 0, TASK, NOT_ADDED),
    (0, 0, TASK, SET),
    (0, 0, TASK, NOT_SET),
];

const WAITS: [Waiting; 2] = [
    Waiting {
        actor: TASK,
        why: Why::Mark(0),
    },
    Waiting {
        actor: TASK,
        why: Why::InProgress,
    },
];

/// Statistics of so many events, the longest of which took that time.
fn stats(count: u32, ms: u64) -> Stats {
    Stats {
        active_count: count,
        event_count: count,
        expire_count: 0,
        active_time: 0,
        total_time: ms,
        max_time: ms,
        last_time: ms,
    }
}

/// A log.
fn log_of(entries: EntryList, stats: Vec<Stats>, end: LogEnd) -> Log {
    Log {
        entries,
        stats: ListOf::of_vec(stats),
        end,
    }
}

/// The log of only one entry, without sources and without an end.
fn log_of_entry(alloc: Global, row: EntryRow) -> Result<Log, Mem> {
    let (time, count, actor, kind) = row;
    let now = EventNow {
        inpr: 0,
        count,
        hard: 0,
    };
    let mut entries = EntryList::new(alloc);
    match entries.push(Entry {
        time,
        now,
        actor,
        kind,
    }) {
        Ok(()) => Ok(log_of(entries, Vec::new(alloc), stuck_end(Vec::new(alloc)))),
        Err(_) => Err(drop_for_mem(entries)),
    }
}

/// The end of a run in which these wait for ever.
fn stuck_end(waiting: Vec<Waiting>) -> LogEnd {
    LogEnd::Stuck(ListOf::of_vec(waiting))
}

/// A log without entries, of a run that is over: a source had an event of 50 ms.
pub fn finished(alloc: Global) -> Result<Log, Mem> {
    let stats = vec![in alloc; stats(1, 50), stats(0, 0)]?;
    Ok(log_of(EntryList::new(alloc), stats, LogEnd::Finished))
}

/// A log without entries, of a run that is stuck.
pub fn stuck(alloc: Global) -> Result<Log, Mem> {
    let waiting = WAITS.to_vec(alloc)?;
    Ok(log_of(EntryList::new(alloc), Vec::new(alloc), stuck_end(waiting)))
}

/// The text of a log, if it could be made.
pub fn text_of_log(
    alloc: Global,
    machine: &Machine,
    log: Result<Log, Mem>,
) -> Result<Vec<u8>, Mem> {
    let log = log?;
    let text = write_log(alloc, machine, &log);
    drop(log);
    text
}

/// Puts the line of an entry after the others.
fn add_line(
    lines: &mut Vec<u8>,
    alloc: Global,
    machine: &Machine,
    row: EntryRow,
) -> Result<(), Mem> {
    let line = text_of_log(alloc, machine, log_of_entry(alloc, row))?;
    let added = lines.extend_from_slice(&line);
    drop(line);
    Ok(added?)
}

/// The lines of entries, each of which makes its line by itself.
pub fn lines_of(alloc: Global, machine: &Machine, rows: &[EntryRow]) -> Result<Vec<u8>, Mem> {
    let mut lines = Vec::new(alloc);
    for row in rows {
        if add_line(&mut lines, alloc, machine, *row).is_err() {
            return Err(drop_for_mem(lines));
        }
    }
    Ok(lines)
}
