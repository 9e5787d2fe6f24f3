//! A wakeup source, and what an entry of its own leaves (`drivers/base/power/wakeup.c`, `struct
//! wakeup_source`).

ghost use Rattle.std.specs.Prelude.{◌≡◌, ◌+◌, [], Bool, IfOk, is_some};
ghost use Rattle.sleep_model.specs.EntryClasses.{class_of};
ghost use Rattle.sleep_model.specs.Sources.{expiry_after, has_expired, is_event, is_expiry, is_start, last_after, later, longest_after, run_time, since_after, total_after, caller_after};
ghost use Rattle.check_sources.specs.Classes.{meant};
ghost use Rattle.check_sources.specs.Owing.{owes_after};
ghost use Rattle.check_sources.specs.SourceStates.{counted, source_after, source_in, source_of};

use crate::class::{EntryClass, class_of};
use crate::owed::{Owed, owed_by};
use sleep_base::Mem;
use sleep_model::{Actor, Entry, Kind, SourceCall, Stats, WordKind};

/// What the entries of one source leave. Times are in ms.
#[derive(Clone, Copy)]
pub struct Source {
    /// How many entries it has.
    pub entries: usize,
    /// When the event in progress ends by itself, if it does.
    pub expiry: Option<u64>,
    /// When the event in progress began, if one is.
    pub since: Option<u64>,
    /// The steps that its last call still owes.
    pub owes: Owed,
    /// Who made its last call.
    pub caller: Option<Actor>,
    /// How often an event began.
    pub starts: u32,
    /// How often an event was noted.
    pub events: u32,
    /// How often an expiry was noted.
    pub expiries: u32,
    /// The sum of the times of events that ended.
    pub total: u64,
    /// The longest of them.
    pub longest: u64,
    /// When the last start or finish was, else 0.
    pub last: u64,
}

/// A source without entries.
pub(crate) fn fresh() -> Source
    ensures { result ≡ source_of [] }
{
    Source {
        entries: 0,
        expiry: None,
        since: None,
        owes: Owed {
            start: false,
            hard: false,
            finish: false,
        },
        caller: None,
        starts: 0,
        events: 0,
        expiries: 0,
        total: 0,
        longest: 0,
        last: 0,
    }
}

/// The source whose entry one of that class is, if it is a source's.
fn source_of_class(class: EntryClass) -> Option<u32>
    ensures { result ≡ source_in (meant class) }
{
    match class {
        EntryClass::Note(source, _) | EntryClass::Step(source, _) => Some(source),
        EntryClass::Journal | EntryClass::Jump => None,
    }
}

/// The source whose entry it is, if it is a source's.
pub fn source_in(kind: Kind) -> Option<u32>
    ensures { result ≡ source_in (class_of kind) }
{
    source_of_class(class_of(kind))
}

/// A sum of times. `Mem` if it has no room.
fn added(a: u64, b: u64) -> Result<u64, Mem>
    ensures { IfOk result (λ n. n ≡ a + b) }
{
    match a.checked_add(b) {
        Some(n) => Ok(n),
        None => Err(Mem),
    }
}

/// The later of a moment and one that may be there.
fn later(time: u64, stands: Option<u64>) -> Option<u64>
    ensures { result ≡ later time stands }
{
    match stands {
        None => Some(time),
        Some(stands) => Some(time.max(stands)),
    }
}

/// When the event in progress ends by itself, after an entry (`pm_wakeup_ws_event`). `Mem` if that is beyond
/// all time.
fn expiry_after(class: EntryClass, time: u64, before: Option<u64>) -> Result<Option<u64>, Mem>
    ensures { IfOk result (λ x. x ≡ expiry_after (meant class) time before) }
{
    match class {
        EntryClass::Note(_, SourceCall::Awake) | EntryClass::Step(_, WordKind::Finish) => Ok(None),
        EntryClass::Note(_, SourceCall::Event { ms, .. }) => {
            if ms == 0 {
                Ok(before)
            } else {
                Ok(later(added(time, u64::from(ms))?, before))
            }
        }
        _ => Ok(before),
    }
}

/// When the event in progress began, after an entry.
fn since_after(class: EntryClass, time: u64, before: Option<u64>) -> Option<u64>
    ensures { result ≡ since_after (meant class) time before }
{
    match class {
        EntryClass::Step(_, WordKind::Start) => Some(time),
        EntryClass::Step(_, WordKind::Finish) => None,
        _ => before,
    }
}

/// The steps that are owed after an entry.
fn owes_after(class: EntryClass, active: bool, before: Owed) -> Owed
    ensures { result ≡ owes_after (meant class) active before }
{
    match class {
        EntryClass::Note(_, call) => owed_by(call, active),
        EntryClass::Step(..) => before.after_first(),
        EntryClass::Journal | EntryClass::Jump => before,
    }
}

/// Who made the last call, after an entry of that actor.
fn caller_after(class: EntryClass, who: Actor, before: Option<Actor>) -> Option<Actor>
    ensures { result ≡ caller_after (meant class) who before }
{
    match class {
        EntryClass::Note(..) => Some(who),
        EntryClass::Step(..) | EntryClass::Journal | EntryClass::Jump => before,
    }
}

/// One more if it is so. `Mem` if the counter has no room.
fn counted(so: bool, before: u32) -> Result<u32, Mem>
    ensures { IfOk result (λ n. n ≡ counted so before) }
{
    if !so {
        return Ok(before);
    }
    match before.checked_add(1) {
        Some(n) => Ok(n),
        None => Err(Mem),
    }
}

/// How long an event has lasted that began then, if one did.
fn run_time(since: Option<u64>, at: u64) -> u64
    ensures { result ≡ run_time since at }
{
    match since {
        None => 0,
        Some(since) => at.saturating_sub(since),
    }
}

/// The sum of the times of events that ended, after an entry.
fn total_after(class: EntryClass, time: u64, since: Option<u64>, before: u64) -> Result<u64, Mem>
    ensures { IfOk result (λ n. n ≡ total_after (meant class) time since before) }
{
    match class {
        EntryClass::Step(_, WordKind::Finish) => added(before, run_time(since, time)),
        _ => Ok(before),
    }
}

/// The longest of them, after an entry.
fn longest_after(class: EntryClass, time: u64, since: Option<u64>, before: u64) -> u64
    ensures { result ≡ longest_after (meant class) time since before }
{
    match class {
        EntryClass::Step(_, WordKind::Finish) => before.max(run_time(since, time)),
        _ => before,
    }
}

/// When the last start or finish was, after an entry.
fn last_after(class: EntryClass, time: u64, before: u64) -> u64
    ensures { result ≡ last_after (meant class) time before }
{
    match class {
        EntryClass::Step(_, WordKind::Start) | EntryClass::Step(_, WordKind::Finish) => time,
        _ => before,
    }
}

/// Whether it is the note of an event.
fn is_event(class: EntryClass) -> bool
    ensures { result ≡ is_event (meant class) }
{
    matches!(
        class,
        EntryClass::Note(_, SourceCall::Awake) | EntryClass::Note(_, SourceCall::Event { .. })
    )
}

/// Whether it is a start.
fn is_start(class: EntryClass) -> bool
    ensures { result ≡ is_start (meant class) }
{
    matches!(class, EntryClass::Step(_, WordKind::Start))
}

/// Whether it is the note of an expiry.
fn is_expiry(class: EntryClass) -> bool
    ensures { result ≡ is_expiry (meant class) }
{
    matches!(class, EntryClass::Note(_, SourceCall::Expire))
}

/// One entry more. `Mem` if the counter has no room.
fn one_further(count: usize) -> Result<usize, Mem>
    ensures { IfOk result (λ n. n ≡ count + 1) }
{
    match count.checked_add(1) {
        Some(n) => Ok(n),
        None => Err(Mem),
    }
}

/// The account after one more entry of the source. `Mem` if a counter has no room.
pub(crate) fn source_after(e: Entry, before: Source) -> Result<Source, Mem>
    ensures { IfOk result (λ s. s ≡ source_after e before) }
{
    let class = class_of(e.kind);
    Ok(Source {
        entries: one_further(before.entries)?,
        expiry: expiry_after(class, e.time, before.expiry)?,
        since: since_after(class, e.time, before.since),
        owes: owes_after(class, before.since.is_some(), before.owes),
        caller: caller_after(class, e.actor, before.caller),
        starts: counted(is_start(class), before.starts)?,
        events: counted(is_event(class), before.events)?,
        expiries: counted(is_expiry(class), before.expiries)?,
        total: total_after(class, e.time, before.since, before.total)?,
        longest: longest_after(class, e.time, before.since, before.longest),
        last: last_after(class, e.time, before.last),
    })
}

impl Source {
    ghost use Rattle.std.specs.Prelude.{◌≡◌, List, max, ◌+◌, IfOk};
    ghost use Rattle.sleep_model.specs.Sources.{has_expired, run_time};

    /// Whether the event in progress has come to its end by that time.
    pub fn has_expired(&self, time: u64) -> bool
        ensures { result ≡ has_expired self.now.expiry time }
    {
        match self.expiry {
            None => false,
            Some(at) => at <= time,
        }
    }

    /// Its statistics at that time, the event in progress included (`print_wakeup_source_stats`). `Mem` if a
    /// sum has no room.
    pub fn stats(&self, at: u64) -> Result<Stats, Mem>
        ensures { IfOk result (λ s. s ≡ record {
          active_count = self.now.starts;
          event_count = self.now.events;
          expire_count = self.now.expiries;
          active_time = run_time self.now.since at;
          total_time = self.now.total + run_time self.now.since at;
          max_time = max self.now.longest (run_time self.now.since at);
          last_time = self.now.last;
        }) }
    {
        let run = run_time(self.since, at);
        Ok(Stats {
            active_count: self.starts,
            event_count: self.events,
            expire_count: self.expiries,
            active_time: run,
            total_time: added(self.total, run)?,
            max_time: self.longest.max(run),
            last_time: self.last,
        })
    }
}
