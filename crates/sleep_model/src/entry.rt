//! The entries of a log: who makes them, what they say, and their stamps.
use crate::list::ListOf;
use crate::machine::{PlatDo, PlatUndo};
use crate::word::{EventNow, Stamp};
use phase_table::Phase;
use sleep_base::Errno;

/// Who makes an entry. Entries of one tick are ordered by kind, in the order of these variants, then by
/// number.
#[derive(Clone, Copy, Debug, PartialEq, Eq)]
pub enum Actor {
    Script(u32),
    Auto,
    Dev(u32),
    Timer(u32),
    Time,
}

/// Which tasks a freeze asks (`kernel/power/process.c`).
#[derive(Clone, Copy, Debug, PartialEq, Eq)]
pub enum Group {
    User,
    Kernel,
}

/// Which tasks a thaw lets go (`kernel/power/process.c`).
#[derive(Clone, Copy, Debug, PartialEq, Eq)]
pub enum Thaw {
    Kernel,
    All,
}

/// The state that autosleep is set to (`kernel/power/autosleep.c`).
#[derive(Clone, Copy, Debug, PartialEq, Eq)]
pub enum State {
    Mem,
    Off,
}

/// How a freeze ended (`kernel/power/process.c`, `try_to_freeze_tasks`), with the number of tasks
/// that were left and the first of them.
#[derive(Clone, Copy, PartialEq, Eq)]
pub enum FrozeEnd {
    AllFrozen,
    Timeout { left: u32, first: u32 },
    Wakeup { left: u32, first: u32 },
}

/// Why a device's callback was not called in a phase.
#[derive(Clone, Copy, Debug, PartialEq, Eq)]
pub enum SkipCause {
    Error,
    Pending,
    Direct,
}

/// What an entry says. Entries of tasks and of the autosleep work come first, then those of
/// wakeup sources and of time, then those of attempts.
#[derive(Clone, Copy)]
pub enum Kind {
    Frozen,
    ReadWait,
    Read(u32),
    ReadIntr,
    SaveWait(u32),
    Saved(u32),
    SaveErr(u32, Errno),
    StateWait,
    StateErr(Errno),
    StateUnsaved,
    AutoBad,
    AutoSet(State),
    AutoDone,
    Sleep(u64),
    SleepD(u64),
    Slept,
    Pass,
    Post(u32),
    Got(u32),
    Exit,
    RuntimeAsk {
        device: u32,
        to_suspended: bool,
        r: Option<Errno>,
    },
    LinkAdd {
        supplier: u32,
        consumer: u32,
        r: Option<Errno>,
    },
    LinkState {
        supplier: u32,
        consumer: u32,
        active: bool,
        r: Option<Errno>,
    },
    AutoRun,
    AutoSaved(u32),
    AutoUnsaved(u32),
    /// None: events were in progress.
    AutoAfter(Option<u32>),
    AutoAgain,
    AutoOff,
    Awake(u32),
    Relax(u32),
    Event {
        source: u32,
        ms: u32,
        hard: bool,
    },
    Expire(u32),
    Start(u32),
    Finish(u32),
    Hard(u32),
    Jump,
    Attempt {
        n: u32,
        guarded: Option<u32>,
    },
    Over {
        n: u32,
        r: Option<Errno>,
    },
    NotifyPrepare(u32, Option<Errno>),
    NotifyPost(u32),
    Freeze(Group),
    Froze(Group, FrozeEnd),
    Thaw(Thaw),
    PlatformDo(PlatDo, Option<Errno>),
    PlatformUndo(PlatUndo),
    /// r is 0, 1, or an error as a negative number.
    Prepare {
        device: u32,
        r: i32,
    },
    Complete(u32),
    Schedule(Phase, u32),
    Begin(Phase, u32),
    End(Phase, u32, Option<Errno>),
    Skip(Phase, u32, SkipCause),
    Done(Phase, Option<Errno>),
    CpuOff(u32),
    CpuBusy(u32),
    CpuOn(u32),
    Irqs {
        on: bool,
    },
    SyscoreCheck(Option<Errno>),
    SyscoreSuspend(u32, Option<Errno>),
    SyscoreResume(u32),
    Enter {
        busy: bool,
    },
    Wake {
        by_event: bool,
    },
    Clear,
}

/// One step of the machine: its moment in ms, the word as it was seen, who made it, what it was.
#[derive(Clone, Copy)]
pub struct Entry {
    pub time: u64,
    pub now: EventNow,
    pub actor: Actor,
    pub kind: Kind,
}

/// An entry of the machine's journal.
#[derive(Clone, Copy)]
pub struct JournalEntry {
    pub stamp: Stamp,
    pub entry: Entry,
}

/// An entry of a wakeup source's history.
#[derive(Clone, Copy)]
pub struct SourceEntry {
    pub stamp: Stamp,
    pub entry: Entry,
}

/// The history of a wakeup source.
pub type SourceList = ListOf<SourceEntry>;
