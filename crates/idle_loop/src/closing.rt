//! The one log of a run that is over.

ghost use Rattle.std.specs.Prelude.{◌≡◌, ◌≤◌, ◌<◌, ◌^◌, [], ◌∷◌, ◌++◌, ℕ, List, IfOk, IsSome, Some, length, reverse};
ghost use Rattle.atomic_table.specs.Seated.{TableId};
ghost use Rattle.idle_loop.specs.declared.entry.IdleSizes.{IdleSizes};
ghost use Rattle.idle_loop.specs.IdleLogs.{IsIdleRun};
ghost use Rattle.idle_gate.specs.Gates.{is_entered as entered};
ghost use Rattle.idle_loop.specs.Sizes.{AreSizes};
ghost use Rattle.idle_loop.specs.declared.roles.Role.TheVariants as variant;
ghost use Rattle.idle_loop.specs.WorkerPools.{IsWorkerPool};
ghost use Rattle.idle_loop.specs.Ends.{AreOff, AreDone, AreWakes, IsIdle, IsIdles, IsRunLeft, IsWakes};
ghost use Rattle.idle_loop.specs.Makers.{AreMade};

use crate::burst::WorkerPool;
use crate::entry::{IdleLog, IdleSizes};
use crate::gate_log::GateLog;
use crate::looks::look_for;
use crate::makers::makers_of;
use crate::merge::merge_idle;
use crate::roles::{Role, Waker};
use event_word::{EventSeat, EventTable, LookSeat, TableLook, close};
use idle_gate::IdleState;
use sleep_base::{Mem, drop_for_mem};
use std::alloc::Global;
use std::sync::Wait;

/// What a run leaves: the gate, the seats off their table, and the positions of each waker's hard events.
#[derive(Drop)]
pub(crate) struct RunLeft {
    gate_log: GateLog<24>,
    seats: Vec<EventSeat>,
    look: LookSeat,
    ranks: Vec<Vec<u32>>,
}

/// The waker that the role is.
fn waker_of<'t>(role: Role<'t>) -> Waker<'t>
    requires { IsWakes role }
    ensures { role.entry ≡ variant.Wakes result }
{
    match role {
        Role::Wakes(waker) => waker,
        Role::Idles(_) => unreachable!(),
    }
}

/// The idler's seat that the role is.
fn idler_of<'t>(role: Role<'t>) -> TableLook<'t>
    requires { IsIdles role }
    ensures { role.entry ≡ variant.Idles result }
{
    match role {
        Role::Idles(look) => look,
        Role::Wakes(_) => unreachable!(),
    }
}

/// The last role, which is the idler's, and the roles before it.
fn apart<'t>(mut roles: Vec<Role<'t>>) -> (Vec<Role<'t>>, Role<'t>)
    requires { 0 < length roles.items }
    ensures { roles.entry.items ≡ result.0.items ++ result.1 ∷ [] }
{
    match roles.pop() {
        Some(role) => (roles, role),
        None => unreachable!(),
    }
}

/// The seats and the positions of the wakers that the roles are.
fn wakers_of(alloc: Global, roles: Vec<Role<'_>>) -> Result<(Vec<EventSeat>, Vec<Vec<u32>>), Mem>
    requires { AreWakes roles.items }
    ensures { IfOk result (λ off. AreOff roles.entry.items off.0.items off.1.items) }
{
    let Ok(mut seats) = Vec::with_capacity(alloc, roles.len()) else {
        return Err(drop_for_mem(roles));
    };
    let Ok(mut ranks) = Vec::with_capacity(alloc, roles.len()) else {
        return Err(drop_for_mem((roles, seats)));
    };
    for role in roles {
        let waker = waker_of(role);
        seats.push_reserved(waker.seat.off());
        ranks.push_reserved(waker.ranks);
    }
    Ok((seats, ranks))
}

/// Takes all seats off their table. The idler has seen all that the journal saw.
pub(crate) fn leave<R: Wait>(rt: &R, alloc: Global, pool: WorkerPool<'_>) -> Result<RunLeft, Mem>
    requires { (z : IdleSizes) × (table : TableId) × IsWorkerPool z table pool }
    ensures { IfOk result (λ left. (z : IdleSizes) (table : TableId) → IsWorkerPool z table pool.entry → AreDone z pool.entry.roles.items
        → IsIdle z pool.entry.gate_log.gate.state pool.entry.gate_log.gate.in_session pool.entry.gate_log.gate.begun → IsRunLeft z table left) }
{
    let WorkerPool { gate_log, roles } = pool;
    let (roles, last) = apart(roles);
    let mut look = idler_of(last);
    look_for(rt, &mut look, u64::from(gate_log.seen()));
    let (seats, ranks) = wakers_of(alloc, roles)?;
    Ok(RunLeft {
        gate_log,
        seats,
        look: look.off(),
        ranks,
    })
}

/// Whether the idler has entered.
fn is_entered(state: IdleState) -> bool
    ensures { result ≡ entered state }
{
    matches!(state, IdleState::Enter)
}

/// The log of the gate's journal and of the hard events by these makers, the oldest event's first.
fn merged_log(
    alloc: Global,
    sizes: IdleSizes,
    gate_log: GateLog<24>,
    makers: &[u32],
) -> Result<IdleLog, Mem>
    requires sizes { gate_log.sizes ≡ sizes }
    requires made { AreMade sizes (reverse makers.now) gate_log.journal }
    requires few { length makers.now < 2 ^ 32 }
    requires seen { gate_log.seen ≤ length makers.now }
    requires rest { IsIdle sizes gate_log.gate.state gate_log.gate.in_session gate_log.gate.begun }
    ensures { IfOk result (IsIdleRun sizes) }
{
    let idle = is_entered(gate_log.state());
    let journal = gate_log.into_journal();
    let entries = merge_idle(alloc, &journal, makers)?;
    Ok(IdleLog { entries, idle })
}

/// The log of a run that is over.
pub(crate) fn log_of(
    alloc: Global,
    table: EventTable,
    sizes: IdleSizes,
    left: RunLeft,
) -> Result<IdleLog, Mem>
    requires { IsRunLeft sizes table.cells.shared.table_id left }
    ensures { IfOk result (IsIdleRun sizes) }
{
    let RunLeft {
        gate_log,
        seats,
        look,
        ranks,
    } = left;
    let now = close(table, seats, look)?;
    let makers = makers_of(alloc, now.hard, &ranks)?;
    merged_log(alloc, sizes, gate_log, &makers)
}
