//! Plain data of a machine and of its sleep log, the words of a log, and a journal in few bytes. Every
//! definition of what sleep is, which all contracts cite. Its tests are in `part_cases`; trials of laws try
//! the definitions on worked logs.
//!
//! Promises: A name has its 1 to 32 bytes, a list its items. A journal has just the entries that were put
//! into it; a refused reservation changes nothing. A log's entries are the journal's with each other entry
//! after as many of them as it says. Words of a log and names by number are exact. The definitions are here:
//! they are no code. By the clauses of `Name`, `ListOf`, `pos`; `Journal::..`; `EntryList::..`,
//! `EntryReader::next`; `Group::name`, `of_bytes` and their like; `Machine::device_name` and its like.
//!
//! Begin reading in `specs/Legal.antt`, `specs/Due.antt`, `specs/Table.antt`, `specs/Laws.antt`;
//! `src/words.rt`, `src/journal.rt`.
#![tactic(auto)]

mod entry;
mod entry_list;
mod flags;
mod journal;
mod limits;
mod list;
mod log;
mod machine;
mod name;
mod numbered;
mod progress;
mod word;
mod words;

pub use entry::{
    Actor, Entry, FrozeEnd, Group, JournalEntry, Kind, SkipCause, SourceEntry, SourceList, State,
    Thaw,
};
pub use entry_list::{EntryList, EntryReader, OtherEntry};
pub use flags::DeviceFlags;
pub use journal::{Journal, JournalReader};
pub use limits::{FREEZE_TIMEOUT_MSECS, MOST_ENTRIES, NAP_MSECS};
pub use list::ListOf;
pub use log::{Log, LogEnd, Runtime, Stats, Waiting, Want, Why};
pub use machine::{
    Answer, Device, Link, Machine, Notifier, Op, PlatDo, PlatPart, PlatUndo, Report, Script,
    SourceCall, Step, TaskKind, Text, What, parents_of,
};
pub use name::{AUTOSLEEP, NAME_BYTES, Name, are_name_bytes, is_name};
pub use phase_table::Phase;
pub use progress::{
    AsyncWork, Callback, Due, Freezing, PhaseState, ScriptPosition, Sleep, Stage, Work,
};
pub use word::{EventNow, Stamp, WordKind, WordStep, pos, visible};
pub use words::{link_word, runtime_word, state_word};
