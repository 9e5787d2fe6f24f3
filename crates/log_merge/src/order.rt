//! Which of two entries comes first in the one log (own: Linux keeps no such log).

ghost use Rattle.std.specs.Prelude.{◌≡◌};
ghost use Rattle.sleep_model.specs.Merge.{actor_number, actor_rank, is_actor_before, of_source, precedes};
ghost use Rattle.log_merge.specs.Orders.{is_step};

use sleep_model::{Actor, Entry, JournalEntry, Kind, SourceEntry, Stamp};

/// An actor's rank among the kinds of actors: scripts, the autosleep work, devices, timers, time.
fn actor_rank(actor: Actor) -> u32
    ensures { result ≡ actor_rank actor }
{
    match actor {
        Actor::Script(_) => 0,
        Actor::Auto => 1,
        Actor::Dev(_) => 2,
        Actor::Timer(_) => 3,
        Actor::Time => 4,
    }
}

/// An actor's number among its kind.
fn actor_number(actor: Actor) -> u32
    ensures { result ≡ actor_number actor }
{
    match actor {
        Actor::Script(number) | Actor::Dev(number) | Actor::Timer(number) => number,
        Actor::Auto | Actor::Time => 0,
    }
}

/// Whether an actor comes before another.
fn is_actor_before(a: Actor, b: Actor) -> bool
    ensures { result ≡ is_actor_before a b }
{
    let (a_rank, b_rank) = (actor_rank(a), actor_rank(b));
    if a_rank == b_rank {
        actor_number(a) < actor_number(b)
    } else {
        a_rank < b_rank
    }
}

/// Whether an entry of that kind is a step on the word.
pub(crate) fn is_step(kind: Kind) -> bool
    ensures { result ≡ is_step kind }
{
    match kind {
        Kind::Start(_) | Kind::Finish(_) | Kind::Hard(_) => true,
        _ => false,
    }
}

/// Whether an entry comes before another of the same position: steps on the word come after the others, then
/// ticks decide, then actors.
fn breaks_tie(stamp: &Stamp, entry: &Entry, than: &Stamp, other: &Entry) -> bool
    requires { stamp.now.pos ≡ than.now.pos }
    ensures { result
        ≡ precedes (record { stamp = stamp.now; entry = entry.entry.now })
        (record { stamp = than.now; entry = other.entry.now }) }
{
    match (is_step(entry.kind), is_step(other.kind)) {
        (false, true) => true,
        (true, false) => false,
        _ if stamp.tick == than.tick => is_actor_before(entry.actor, other.actor),
        _ => stamp.tick < than.tick,
    }
}

/// Whether an entry with its stamp comes before another in the one log: by position, steps on the word after
/// the others, then by tick, then by actor.
#[inline]
pub(crate) fn precedes(stamp: &Stamp, entry: &Entry, than: &Stamp, other: &Entry) -> bool
    ensures { result
        ≡ precedes (record { stamp = stamp.now; entry = entry.entry.now })
        (record { stamp = than.now; entry = other.entry.now }) }
{
    if stamp.pos == than.pos {
        breaks_tie(stamp, entry, than, other)
    } else {
        stamp.pos < than.pos
    }
}

/// Whether an entry of a source comes before one of the journal.
#[inline]
pub(crate) fn is_ahead(other: &SourceEntry, entry: &JournalEntry) -> bool
    ensures { result ≡ precedes (of_source other.now) entry.now }
{
    precedes(&other.stamp, &other.entry, &entry.stamp, &entry.entry)
}
