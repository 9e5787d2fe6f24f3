//! The core's turns of only one actor, over an event word that others move.

ghost use Rattle.std.specs.Prelude.{◌≡◌, ◌≤◌, reverse, true};
ghost use Rattle.sleep_model.specs.Accepted.{IsAccepted};
ghost use Rattle.sleep_model.specs.Order.{parents_of};
ghost use Rattle.sleep_core.specs.Cores.{IsActor};
ghost use Rattle.core_history.specs.Histories.{last_stamp};

use crate::moving::MovingWord;
use device_links::Links;
use event_word::{EventTable, Events, PlainEvents};
use machine_file::{ReadMachine, read_machine};
use machine_plans::MachinePlans;
use sleep_base::Errno;
use sleep_core::{Core, CoreTurn};
use sleep_model::{Actor, Kind, Machine, Stamp, Why};
use std::alloc::Global;
use std::sync::Wait;
use trial_rows::{CoreCall, QuietEnd};

const FIRST: Actor = Actor::Script(0);

const START: Stamp = Stamp { pos: 0, tick: 0 };

/// One turn of an actor that has made no call on a source. `None` if a call is due, or the turn fails.
fn turn<R: Wait, E: Events>(
    rt: &R,
    core: &mut Core<'_>,
    events: &mut E,
    who: Actor,
) -> Option<CoreTurn>
    requires actor { IsActor core.old.machine who }
    requires low { (last_stamp core.old.past).pos ≤ E.floor events.old }
    ensures machine { core.new.machine ≡ core.old.machine }
    ensures low { (last_stamp core.new.past).pos ≤ E.floor events.new }
{
    if core.calls_due(who) != 0 {
        return None;
    }
    let now = core.time();
    core.turn(rt, events, who, 0, START, now).ok()
}

/// What an actor made in its turns.
#[derive(Clone, Copy)]
struct Turns {
    /// Whether the machine entered sleep.
    entered: bool,
    /// Whether an attempt was given up, as a wakeup was pending.
    was_busy: bool,
    /// The turn that made no entry, if there was one.
    last: Option<CoreTurn>,
}

/// The turns and after them one that made this.
fn with_kind(turns: Turns, kind: Kind) -> Turns {
    match kind {
        Kind::Enter { busy: false } => Turns {
            entered: true,
            ..turns
        },
        Kind::Over {
            r: Some(Errno::EBUSY),
            ..
        } => Turns {
            was_busy: true,
            ..turns
        },
        _ => turns,
    }
}

/// Turns of an actor up to the first that makes no entry. There are 200 at most.
fn run<R: Wait, E: Events>(rt: &R, core: &mut Core<'_>, events: &mut E, who: Actor) -> Turns
    requires actor { IsActor core.old.machine who }
    requires low { (last_stamp core.old.past).pos ≤ E.floor events.old }
{
    let mut turns = Turns {
        entered: false,
        was_busy: false,
        last: None,
    };
    for _ in 0..200u32 {
        match turn(rt, core, events, who) {
            Some(CoreTurn::Did { kind, .. }) => turns = with_kind(turns, kind),
            last => return Turns { last, ..turns },
        }
    }
    turns
}

/// Whether the machine has that actor.
fn has_actor(machine: &Machine, who: Actor) -> bool
    ensures { result ≡ true → IsActor machine.now who }
{
    match who {
        Actor::Script(script) => (script as usize) < machine.actors.len(),
        Actor::Auto => true,
        Actor::Dev(device) => (device as usize) < machine.devices.len(),
        Actor::Timer(_) | Actor::Time => false,
    }
}

/// What came of the turns of only one actor, and what the core shows after them.
#[derive(Clone, Copy)]
struct Alone {
    turns: Turns,
    /// How many entries the journal has.
    count: usize,
    next_time: Option<u64>,
    whole: bool,
    is_open: bool,
    is_stopped: bool,
    are_stopped: bool,
    slept: Option<u32>,
}

/// What the core shows after these turns.
fn seen_alone(core: &Core<'_>, turns: Turns) -> Alone {
    Alone {
        turns,
        count: core.len(),
        next_time: core.next_time(),
        whole: core.whole(),
        is_open: core.is_open(),
        is_stopped: core.is_stopped(0),
        are_stopped: core.are_stopped(),
        slept: core.next_slept(None),
    }
}

/// The turns of one actor over these plans, with that word. `None` if there is no memory.
fn run_over<R: Wait, E: Events>(
    rt: &R,
    alloc: Global,
    events: &mut E,
    plans: &MachinePlans<'_>,
    links: Links,
    who: Actor,
) -> Option<Alone>
    requires accepted { IsAccepted plans.now }
    requires links { links ≡ record { parents = parents_of plans.now.devices; links = reverse plans.now.links } }
    requires actor { IsActor plans.now who }
{
    let Ok(mut core) = Core::new(alloc, plans, links) else {
        return None;
    };
    let turns = run(rt, &mut core, events, who);
    let alone = seen_alone(&core, turns);
    drop(core.into_journal());
    Some(alone)
}

/// The turns of only one actor of a machine, with that word. `None` also if the machine has no such actor.
fn run_one<R: Wait, E: Events>(
    rt: &R,
    alloc: Global,
    events: &mut E,
    machine: &Machine,
    links: Links,
    who: Actor,
) -> Option<Alone>
    requires accepted { IsAccepted machine.now }
    requires links { links ≡ record { parents = parents_of machine.now.devices; links = reverse machine.now.links } }
{
    if !has_actor(machine, who) {
        drop(links);
        return None;
    }
    let Ok(plans) = MachinePlans::new(alloc, machine) else {
        drop(links);
        return None;
    };
    let alone = run_over(rt, alloc, events, &plans, links, who);
    drop(plans);
    alone
}

/// The same of the machine of a file. `None` also of a file that is refused.
fn run_alone<R: Wait, E: Events>(
    rt: &R,
    alloc: Global,
    events: &mut E,
    file: &[u8],
    who: Actor,
) -> Option<Alone> {
    let Ok(ReadMachine { machine, links }) = read_machine(alloc, file) else {
        return None;
    };
    let alone = run_one(rt, alloc, events, &machine, links, who);
    drop(machine);
    alone
}

/// What only an actor of a machine makes, if no event comes.
fn quiet<R: Wait>(rt: &R, alloc: Global, file: &[u8], who: Actor) -> Option<Alone> {
    run_alone(rt, alloc, &mut PlainEvents::new(), file, who)
}

/// Whether an attempt of the first script under that word enters, and is not given up; or is given up, and
/// does not enter.
fn goes<R: Wait, E: Events>(
    rt: &R,
    alloc: Global,
    events: &mut E,
    file: &[u8],
    enters: bool,
) -> bool {
    match run_alone(rt, alloc, events, file, FIRST) {
        Some(alone) => alone.turns.entered == enters && alone.turns.was_busy != enters,
        None => false,
    }
}

/// Whether an attempt under that word enters, by as many entries as without events.
fn is_plain<R: Wait, E: Events>(rt: &R, alloc: Global, events: &mut E, file: &[u8]) -> bool {
    let alone = run_alone(rt, alloc, events, file, FIRST);
    match (alone, quiet(rt, alloc, file, FIRST)) {
        (Some(alone), Some(plain)) => alone.turns.entered && alone.count == plain.count,
        _ => false,
    }
}

/// Whether an attempt that looks at a table of the event word does.
fn is_plain_at_table<R: Wait>(rt: &R, alloc: Global, file: &[u8]) -> bool {
    let Ok((table, seats, look)) = EventTable::new(alloc, 1) else {
        return false;
    };
    let is_so = is_plain(rt, alloc, &mut look.on(&table), file);
    drop((table, seats));
    is_so
}

/// Whether the machine sleeps till its alarm, and all is not over before that.
fn sleeps(slept: &Alone) -> bool {
    matches!(slept.turns.last, Some(CoreTurn::NotYet(Why::Asleep)))
        && slept.next_time == Some(1000)
        && !slept.whole
        && slept.is_open
        && !slept.are_stopped
}

/// Whether the first script is stopped, and all are or not. It has not slept, and no attempt is open.
fn is_stopped(alone: &Alone, are_stopped: bool) -> bool {
    alone.are_stopped == are_stopped && alone.is_stopped && !alone.is_open && alone.slept.is_none()
}

/// Whether the first script comes to what it should, if no event comes.
fn comes_to<R: Wait>(rt: &R, alloc: Global, file: &[u8], end: QuietEnd) -> bool {
    let Some(alone) = quiet(rt, alloc, file, FIRST) else {
        return false;
    };
    match end {
        QuietEnd::Asleep => sleeps(&alone),
        QuietEnd::Stopped => is_stopped(&alone, true),
        QuietEnd::OneStopped => is_stopped(&alone, false),
    }
}

/// The actors of the waiters.
const ACTORS: [Actor; 5] = [
    Actor::Script(0),
    Actor::Script(1),
    Actor::Script(2),
    Actor::Dev(0),
    Actor::Auto,
];

/// Whether an actor of the waiters waits for what it should.
fn is_its_wait(who: Actor, last: Option<CoreTurn>) -> bool {
    match who {
        Actor::Script(0) => matches!(last, Some(CoreTurn::NotYet(Why::Until(5)))),
        Actor::Script(1) => matches!(last, Some(CoreTurn::NotYet(Why::Mark(_)))),
        Actor::Script(_) => matches!(last, Some(CoreTurn::Done)),
        Actor::Dev(_) => matches!(last, Some(CoreTurn::NotYet(Why::NotScheduled))),
        Actor::Auto => matches!(last, Some(CoreTurn::NotYet(Why::NoWork))),
        Actor::Timer(_) | Actor::Time => false,
    }
}

/// Whether each actor of the waiters does: an actor that can do nothing waits for the end of its sleep, a mark,
/// its turn in a phase, or work; and nothing is due of one that has exited.
fn are_their_waits<R: Wait>(rt: &R, alloc: Global, file: &[u8]) -> bool {
    for who in &ACTORS {
        let last = match quiet(rt, alloc, file, *who) {
            Some(alone) => alone.turns.last,
            None => None,
        };
        if !is_its_wait(*who, last) {
            return false;
        }
    }
    true
}

/// Whether the core does what the row asks.
pub(crate) fn is_so<R: Wait>(rt: &R, alloc: Global, file: &[u8], call: CoreCall) -> bool {
    match call {
        CoreCall::Quiet => goes(rt, alloc, &mut PlainEvents::new(), file, true),
        CoreCall::AtTable => is_plain_at_table(rt, alloc, file),
        CoreCall::Plain => goes(rt, alloc, &mut MovingWord::new(0, false), file, true),
        CoreCall::Guarded => goes(rt, alloc, &mut MovingWord::new(3, false), file, false),
        CoreCall::Hard => goes(rt, alloc, &mut MovingWord::new(0, true), file, false),
        CoreCall::Ends(end) => comes_to(rt, alloc, file, end),
        CoreCall::Waits => are_their_waits(rt, alloc, file),
    }
}
