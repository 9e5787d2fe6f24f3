//! A source's calls through its seat at the event word.

ghost use Rattle.std.specs.Prelude.{◌≡◌, ◌≤◌, ◌^◌, IfOk};
ghost use Rattle.event_word.specs.Seats.{IsSeatOf};
ghost use Rattle.wakeup_source.specs.SourceStates.{unstamped_source, latest, new_source};

use event_word::{EventTable, LookSeat};
use run_objects::{SeatedSource, seated_sources};
use sleep_base::Mem;
use sleep_model::{Actor, SourceCall, Stamp};
use std::alloc::Global;
use std::sync::Wait;
use wakeup_source::{CallBy, SourceFault};

const TASK: Actor = Actor::Script(0);

const START: Stamp = Stamp { pos: 0, tick: 0 };

/// An event of 5 ms.
const LONG: SourceCall = SourceCall::Event { ms: 5, hard: false };

/// A hard event without length.
const HARD: SourceCall = SourceCall::Event { ms: 0, hard: true };

/// The task calls at that moment, and knows of nothing yet.
fn at(now: u64) -> CallBy
    ensures { result.now ≡ now }
{
    CallBy {
        actor: TASK,
        floor: START,
        now,
    }
}

/// A table of one source, the source with its seat, and the machine's seat.
fn one_source(alloc: Global) -> Result<(EventTable, SeatedSource, LookSeat), Mem>
    ensures source { IfOk result (λ made. made.1.source ≡ new_source 0) }
    ensures seat { IfOk result (λ made. IsSeatOf made.2.token.table_id 0 made.1.seat) }
    ensures look { IfOk result (λ made. made.2.token.table_id ≡ made.0.cells.shared.table_id) }
{
    let (table, mut sources, look) = seated_sources(alloc, 1)?;
    let Some(source) = sources.pop() else {
        return Err(Mem);
    };
    Ok((table, source, look))
}

/// The end of an event at that moment. `None` if it does not come by itself by then, or is refused.
fn expire<R: Wait>(rt: &R, table: &EventTable, source: &mut SeatedSource, now: u64) -> Option<Stamp>
    requires table { source.old.seat.table_id ≡ table.now.cells.shared.table_id }
    requires time { latest (unstamped_source source.old.source.past) ≤ now }
    requires small { now ≤ 2 ^ 63 }
{
    let end = source.source().due()?;
    if now < end {
        return None;
    }
    source.call(rt, table, at(now), SourceCall::Expire).ok()
}

/// Each call once: what the caller then knows of each.
fn call_each<R: Wait>(rt: &R, table: &EventTable, source: &mut SeatedSource) -> Option<[Stamp; 5]>
    requires table { source.old.seat.table_id ≡ table.now.cells.shared.table_id }
    requires time { latest (unstamped_source source.old.source.past) ≤ 0 }
{
    let awake = source.call(rt, table, at(0), SourceCall::Awake).ok()?;
    let relaxed = source.call(rt, table, at(1), SourceCall::Relax).ok()?;
    let hard = source.call(rt, table, at(2), HARD).ok()?;
    let long = source.call(rt, table, at(3), LONG).ok()?;
    let expired = expire(rt, table, source, 8)?;
    Some([awake, relaxed, hard, long, expired])
}

/// What a caller knows after each of those calls.
const KNOWN: [Stamp; 5] = [
    Stamp { pos: 1, tick: 2 },
    Stamp { pos: 2, tick: 4 },
    Stamp { pos: 5, tick: 8 },
    Stamp { pos: 6, tick: 10 },
    Stamp { pos: 7, tick: 12 },
];

/// Hard events, four entries each, as many as it has room for. Whether none is refused.
fn fill<R: Wait>(rt: &R, table: &EventTable, source: &mut SeatedSource) -> bool
    requires table { source.old.seat.table_id ≡ table.now.cells.shared.table_id }
    requires time { latest (unstamped_source source.old.source.past) ≤ 0 }
    ensures table { source.new.seat.table_id ≡ source.old.seat.table_id }
    ensures time { latest (unstamped_source source.new.source.past) ≤ 0 }
{
    for _ in 0..15_000u32 {
        if source.call(rt, table, at(0), HARD).is_err() {
            return false;
        }
    }
    true
}

/// Whether a source has room for 15,000 hard events, and then refuses a call and stays as it is.
fn is_full<R: Wait>(rt: &R, table: &EventTable, source: &mut SeatedSource) -> bool
    requires table { source.old.seat.table_id ≡ table.now.cells.shared.table_id }
    requires time { latest (unstamped_source source.old.source.past) ≤ 0 }
{
    let is_filled = fill(rt, table, source);
    let refused = source.call(rt, table, at(0), SourceCall::Relax);
    let made = source.source().history().len();
    is_filled && refused == Err(SourceFault::Full) && made == 60_000
}

/// Whether a new source takes as many calls as it has room for, and then none; or each call once. Each call
/// moves the word by its steps, and has a tick for each entry.
pub(crate) fn takes_calls<R: Wait>(rt: &R, alloc: Global, fills: bool) -> bool {
    let Ok((table, mut source, look)) = one_source(alloc) else {
        return false;
    };
    let is_so = if fills {
        is_full(rt, &table, &mut source)
    } else {
        call_each(rt, &table, &mut source) == Some(KNOWN)
    };
    drop((table, source, look));
    is_so
}
