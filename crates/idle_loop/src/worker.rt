//! A worker of a burst: a waker or the idler, with the pass by which it takes the gate's lock.

ghost use Rattle.std.specs.Prelude.{◌≡◌, ◌+◌, Some, IsSome};
ghost use Rattle.idle_loop.specs.GateLogs.{GateLogState};
ghost use Rattle.idle_loop.specs.declared.roles.Role.TheVariants as variant;
ghost use Rattle.idle_loop.specs.Roles.{IsIn, IsSameWorker, IsWorker};
ghost use Rattle.idle_loop.specs.Steps.{StaysInBurst};

use crate::entry::{IdleEntry, IdleSizes};
use crate::gate_log::GateLog;
use crate::roles::{Role, Waker};
use crate::steps::idle_step;
use event_word::TableLook;
use sleep_pool::{Job, Turn};
use std::sync::Wait;
use turn_lock::{Pass, SharedLocks, give, take};

/// The lock of the gate.
pub type SharedGate = SharedLocks<GateLog<24>, IdleEntry>;

/// The right to take the gate.
pub type IdlePass = Pass<GateLog<24>>;

/// What all workers of a burst share. Nobody holds it.
#[derive(Drop)]
pub struct IdleWorld<'w, R> {
    pub(crate) rt: &'w R,
    pub(crate) cells: &'w SharedGate,
    pub(crate) sizes: IdleSizes,
}

/// A worker of a burst.
#[derive(Drop)]
pub struct IdleWorker<'t> {
    pub(crate) who: u32,
    // The pass is out only within a turn.
    pub(crate) pass: Option<IdlePass>,
    pub(crate) role: Role<'t>,
    /// How many turns it can still make.
    pub(crate) left: u64,
}

/// A pass after a turn, and what the turn came to.
#[derive(Drop)]
struct AfterTurn {
    pass: IdlePass,
    turn: Turn,
}

/// A waker's turn: its next step, if it is not done.
fn waker_turn<R: Wait>(
    world: &IdleWorld<'_, R>,
    pass: IdlePass,
    who: u32,
    waker: &mut Waker<'_>,
) -> AfterTurn
    requires { (first : GateLogState) × IsIn world.now.sizes world.now.cells.now.shared.table_id who first pass.token (variant.Wakes waker.old) }
    ensures { StaysInBurst world.now.sizes world.now.cells.now.shared.table_id who pass.token result.pass.token (variant.Wakes waker.old) (variant.Wakes waker.new) }
{
    if waker.now.owes {
        let mut held = take(world.cells, world.rt, pass, 0);
        let turn = waker.make_wake(world.rt, held.value(), who);
        return AfterTurn {
            pass: give(world.cells, held),
            turn,
        };
    }
    if waker.now.wakes < world.sizes.events {
        waker.make_hard();
        return AfterTurn {
            pass,
            turn: Turn::Did,
        };
    }
    AfterTurn {
        pass,
        turn: Turn::Done,
    }
}

/// The idler's turn.
fn idler_turn<R: Wait>(
    world: &IdleWorld<'_, R>,
    pass: IdlePass,
    look: &mut TableLook<'_>,
) -> AfterTurn
    requires { (first : GateLogState) × IsIn world.now.sizes world.now.cells.now.shared.table_id world.now.sizes.wakers first pass.token (variant.Idles look.old) }
    ensures { StaysInBurst world.now.sizes world.now.cells.now.shared.table_id world.now.sizes.wakers pass.token result.pass.token (variant.Idles look.old) (variant.Idles look.new) }
{
    let mut held = take(world.cells, world.rt, pass, 0);
    let turn = idle_step(world.rt, held.value(), look);
    AfterTurn {
        pass: give(world.cells, held),
        turn,
    }
}

/// A worker's turn.
fn act<R: Wait>(
    world: &IdleWorld<'_, R>,
    pass: IdlePass,
    who: u32,
    role: &mut Role<'_>,
) -> AfterTurn
    requires { (first : GateLogState) × IsIn world.now.sizes world.now.cells.now.shared.table_id who first pass.token role.old }
    ensures { StaysInBurst world.now.sizes world.now.cells.now.shared.table_id who pass.token result.pass.token role.old role.new }
{
    match role {
        Role::Wakes(waker) => waker_turn(world, pass, who, waker),
        Role::Idles(look) => idler_turn(world, pass, look),
    }
}

/// Takes the pass out.
pub(crate) fn taken(place: &mut Option<IdlePass>) -> IdlePass
    requires { IsSome place.old }
    ensures { place.old ≡ Some result }
{
    match place.take() {
        Some(pass) => pass,
        None => unreachable!(),
    }
}

impl<'w, 't, R: Wait> Job<IdleWorld<'w, R>> for IdleWorker<'t> {
    ghost use Rattle.idle_loop.specs.Same.{same_none, same_more};

    ghost left = { λ w. w.left };

    ghost goes = { λ w world _. IsWorker world.sizes world.cells.now.shared.table_id w };

    ghost made = { λ old _ new. IsSameWorker old new };

    fn turn(&mut self, shared: &IdleWorld<'w, R>, _now: u64) -> Turn {
        self.left -= 1;
        let pass = taken(&mut self.pass);
        let AfterTurn { pass, turn } = act(shared, pass, self.who, &mut self.role);
        self.pass = Some(pass);
        turn
    }

    ghost made_none = { same_none };

    ghost made_more = { λ a b c _ _ h k. same_more a b c h k };
}
