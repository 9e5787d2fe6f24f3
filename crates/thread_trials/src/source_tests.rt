//! Calls on one wakeup source: their entries, their limit and their statistics.
ghost use Rattle.std.specs.Prelude.{◌≡◌};
ghost use Rattle.std.specs.Str.{IsUtf8};
ghost use Rattle.wakeup_source.specs.SourceStates.{new_source};

use event_word::PlainEvents;
use sleep_base::Mem;
use sleep_model::{Actor, EventNow, Name, SourceEntry, Stamp, Stats};
use std::alloc::Global;
use std::sync::Wait;
use wakeup_source::{CallBy, MOST_ENTRIES, SourceFault, WakeSource, stats_line};

/// No event in progress, none registered.
const FIRST: EventNow = EventNow {
    inpr: 0,
    count: 0,
    hard: 0,
};

/// A word with no event registered.
fn word(inpr: u32, hard: u32) -> EventNow {
    EventNow {
        inpr,
        count: 0,
        hard,
    }
}

/// A call of the first script, which knew nothing, at that moment.
fn at(now: u64) -> CallBy
    ensures { result.now ≡ now }
{
    CallBy {
        actor: Actor::Script(0),
        floor: Stamp { pos: 0, tick: 0 },
        now,
    }
}

/// Statistics of these counts and times.
fn stats(counts: [u32; 3], times: [u64; 4]) -> Stats {
    Stats {
        active_count: counts[0],
        event_count: counts[1],
        expire_count: counts[2],
        active_time: times[0],
        total_time: times[1],
        max_time: times[2],
        last_time: times[3],
    }
}

/// A source whose history has room for all of a test.
type LongSource = WakeSource<MOST_ENTRIES>;

/// Whether a relax of a new source leaves only its note.
fn notes_a_relax<R: Wait>(rt: &R, lid: &mut LongSource) -> bool
    requires { lid.old ≡ new_source 0 }
{
    let mut events = PlainEvents::new();
    let stamp = lid.relax(rt, &mut events, at(5));
    let counted = lid.stats(5) == stats([0, 0, 0], [0, 0, 0, 0]);
    stamp == Ok(Stamp { pos: 0, tick: 1 }) && lid.history().len() == 1 && counted
}

/// A relax while no event is in progress leaves only its note.
#[test]
fn a_relax_of_an_inactive_source_is_noted(rt: HostRuntime) {
    let mut lid = LongSource::new(rt.alloc(), 0);
    let noted = notes_a_relax(&rt, &mut lid);
    drop(lid);
    assert!(rt; noted);
}

/// Whether the entries of a hard event on a new source see 0/0/0 twice, then 1/0/0, then 1/0/1.
fn sees_each_word<R: Wait>(rt: &R, lid: &mut LongSource) -> bool
    requires { lid.old ≡ new_source 0 }
{
    let mut events = PlainEvents::new();
    let end = lid.event(rt, &mut events, at(0), 0, true);
    let seen = has_seen(lid.history(), &[FIRST, FIRST, word(1, 0), word(1, 1)]);
    end == Ok(Stamp { pos: 3, tick: 4 }) && seen
}

/// A hard event on the plain word: its note and its start see 0/0/0, its hard step 1/0/0, its finish 1/0/1.
#[test]
fn each_entry_bears_the_word_before_it(rt: HostRuntime) {
    let mut lid = LongSource::new(rt.alloc(), 0);
    let seen = sees_each_word(&rt, &mut lid);
    drop(lid);
    assert!(rt; seen);
}

/// Whether the entries of a source saw these words, in this order.
fn has_seen(history: &[SourceEntry], words: &[EventNow]) -> bool {
    let mut all = history.len() == words.len();
    for (entry, word) in history.iter().zip(words) {
        all = all && entry.entry.now == *word;
    }
    all
}

/// Whether a new source with five places takes two relaxes, and then has too few places.
fn takes_two<R: Wait>(rt: &R, five: &mut WakeSource<5>) -> Result<bool, SourceFault>
    requires { five.old ≡ new_source 1 }
{
    let mut events = PlainEvents::new();
    five.relax(rt, &mut events, at(0))?;
    five.relax(rt, &mut events, at(0))?;
    let third = five.relax(rt, &mut events, at(0));
    Ok(third == Err(SourceFault::Full) && five.history().len() == 2)
}

/// A call has four places, or it is refused.
#[test]
fn a_source_with_three_places_left_is_full(rt: HostRuntime) {
    let mut five = WakeSource::<5>::new(rt.alloc(), 1);
    let taken = takes_two(&rt, &mut five);
    drop(five);
    assert!(rt; taken == Ok(true));
}

/// Whether a new source that has nothing to expire goes on above a raised tick.
fn goes_on_above<R: Wait>(rt: &R, lid: &mut LongSource) -> Result<bool, SourceFault>
    requires { lid.old ≡ new_source 0 }
{
    let mut events = PlainEvents::new();
    let None = lid.expire(rt, &mut events, at(0))? else {
        return Ok(false);
    };
    lid.raise(Stamp { pos: 0, tick: 8 });
    let stamp = lid.stay_awake(rt, &mut events, at(0))?;
    Ok(stamp == Stamp { pos: 1, tick: 10 })
}

/// A raise of its next tick lets a source go on above.
#[test]
fn a_raised_source_goes_on_above(rt: HostRuntime) {
    let mut lid = LongSource::new(rt.alloc(), 0);
    let goes = goes_on_above(&rt, &mut lid);
    drop(lid);
    assert!(rt; goes == Ok(true));
}

/// Whether the line of a source in a log is that text.
fn is_line(alloc: Global, name: &Name, stats: &Stats, text: &str) -> Result<bool, Mem>
    requires { IsUtf8 name.now }
{
    let line = stats_line(alloc, name, stats)?;
    Ok(line.as_str() == text)
}

/// The line of a source in a log.
#[test]
fn a_line_shows_the_statistics(rt: HostRuntime) {
    let lid = Name::of_bytes(b"lid").expect(&rt, "a name");
    let lasted = stats([1, 3, 1], [0, 130, 130, 130]);
    let text = "source lid 1 3 1 0 130 130 130\n";
    assert!(rt; is_line(rt.alloc(), &lid, &lasted, text) == Ok(true));
}
