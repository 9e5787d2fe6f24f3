//! A whole run by several workers.

ghost use Rattle.std.specs.Prelude.{◌≡◌, ◌<◌, ◌≤◌, ◌+◌, [], IfOk, length};
ghost use Rattle.std.specs.Bool.{OnTrue};
ghost use Rattle.event_word.specs.Lists.{tokens};
ghost use Rattle.event_word.specs.Seats.{AreNew};
ghost use Rattle.idle_loop.specs.IdleLogs.{IsIdleRun};
ghost use Rattle.idle_loop.specs.Sizes.{AreSizes};
ghost use Rattle.idle_loop.specs.WorkerPools.{AreRoles, IsWorkerPool};
ghost use Rattle.idle_loop.specs.Ends.{AreDone, IsIdle, IsRunLeft, IsDone};

use crate::burst::{WorkerPool, go_on};
use crate::closing::{RunLeft, leave, log_of};
use crate::entry::{IdleLog, IdleSizes};
use crate::gate_log::GateLog;
use crate::roles::{Role, Waker};
use event_word::{EventSeat, EventTable, LookSeat};
use idle_gate::{IdleState, WakerNow};
use sleep_base::{Mem, drop_for_mem};
use std::alloc::Global;
use std::sync::Wait;
use std::thread::Threads;

/// The wakers and the idler at the table, before all steps.
fn roles_of<'t>(
    alloc: Global,
    sizes: IdleSizes,
    table: &'t EventTable,
    seats: Vec<EventSeat>,
    look: LookSeat,
) -> Result<Vec<Role<'t>>, Mem>
    requires look { look.token.table_id ≡ table.now.cells.shared.table_id }
    requires seats { AreNew look.token (tokens seats.items) }
    requires count { length seats.items ≡ sizes.wakers }
    ensures long { IfOk result (λ roles. length roles.items ≡ sizes.wakers + 1) }
    ensures roles { IfOk result (λ roles. AreRoles sizes table.now.cells.shared.table_id [] 0 roles.items) }
{
    let Ok(mut roles) = Vec::with_capacity(alloc, seats.len() + 1) else {
        return Err(drop_for_mem((seats, look)));
    };
    for seat in seats {
        let Ok(ranks) = Vec::with_capacity(alloc, sizes.events as usize) else {
            return Err(drop_for_mem((roles, seat, look)));
        };
        roles.push_reserved(Role::Wakes(Waker {
            seat: seat.on(table),
            now: WakerNow {
                wakes: 0,
                owes: false,
            },
            least: 0,
            ranks,
        }));
    }
    roles.push_reserved(Role::Idles(look.on(table)));
    Ok(roles)
}

/// Whether that role's waker is done.
fn is_done(sizes: IdleSizes, role: &Role<'_>) -> bool
    ensures { OnTrue result (IsDone sizes role.now) }
{
    match role {
        Role::Wakes(waker) => waker.now.is_done(sizes.events),
        Role::Idles(_) => true,
    }
}

/// Whether every waker is done.
fn are_done(sizes: IdleSizes, roles: &[Role<'_>]) -> bool
    ensures { OnTrue result (AreDone sizes roles.now) }
{
    for role in roles {
        if !is_done(sizes, role) {
            return false;
        }
    }
    true
}

/// Whether the idler has nothing to do: it has entered, or no session is left.
fn has_nothing(sizes: IdleSizes, gate_log: &GateLog<24>) -> bool
    ensures { OnTrue result (IsIdle sizes gate_log.now.gate.state gate_log.now.gate.in_session gate_log.now.gate.begun) }
{
    match gate_log.state() {
        IdleState::Idle => !gate_log.is_open() && gate_log.begun() >= sizes.sessions,
        IdleState::Enter => true,
        IdleState::Wake => false,
    }
}

/// The gate, and what is each worker's own, before all steps.
fn first_pool<'t>(
    alloc: Global,
    sizes: IdleSizes,
    table: &'t EventTable,
    seats: Vec<EventSeat>,
    look: LookSeat,
) -> Result<WorkerPool<'t>, Mem>
    requires sizes { AreSizes sizes }
    requires look { look.token.table_id ≡ table.now.cells.shared.table_id }
    requires seats { AreNew look.token (tokens seats.items) }
    requires count { length seats.items ≡ sizes.wakers }
    ensures { IfOk result (IsWorkerPool sizes table.now.cells.shared.table_id) }
{
    let Ok(gate_log) = GateLog::new(alloc, sizes) else {
        return Err(drop_for_mem((seats, look)));
    };
    let Ok(roles) = roles_of(alloc, sizes, table, seats, look) else {
        return Err(drop_for_mem(gate_log));
    };
    Ok(WorkerPool { gate_log, roles })
}

/// Bursts, up to the end of the run.
fn to_end<R: Threads + Wait + Sync>(
    rt: &R,
    alloc: Global,
    sizes: IdleSizes,
    workers: u8,
    table: &EventTable,
    seats: Vec<EventSeat>,
    look: LookSeat,
) -> Result<RunLeft, Mem>
    requires sizes { AreSizes sizes }
    requires workers { 0 < workers }
    requires look { look.token.table_id ≡ table.now.cells.shared.table_id }
    requires seats { AreNew look.token (tokens seats.items) }
    requires count { length seats.items ≡ sizes.wakers }
    ensures { IfOk result (IsRunLeft sizes table.now.cells.shared.table_id) }
{
    let mut pool = first_pool(alloc, sizes, table, seats, look)?;
    for _ in rt.forever() {
        if are_done(sizes, &pool.roles) && has_nothing(sizes, &pool.gate_log) {
            return leave(rt, alloc, pool);
        }
        pool = go_on(rt, alloc, sizes, pool, workers)?;
    }
    unreachable!()
}

/// Runs wakers and idler by several workers (`kernel/power/suspend.c`, `s2idle_loop`). There are 1 to 16
/// wakers, and 1 to 1,000 events and sessions. `Mem` if there is no memory.
pub fn run_idle<R: Threads + Wait + Sync>(
    rt: &R,
    alloc: Global,
    sizes: IdleSizes,
    workers: u8,
) -> Result<IdleLog, Mem>
    requires sizes { AreSizes sizes }
    requires workers { 0 < workers }
    ensures { IfOk result (IsIdleRun sizes) }
{
    let (table, seats, look) = EventTable::new(alloc, sizes.wakers)?;
    let left = to_end(rt, alloc, sizes, workers, &table, seats, look)?;
    log_of(alloc, table, sizes, left)
}
