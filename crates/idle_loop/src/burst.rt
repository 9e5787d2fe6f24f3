//! A burst of all workers over the gate, from its begin to its end.

ghost use Rattle.std.specs.Prelude.{◌≡◌, ◌≤◌, ◌<◌, ◌+◌, [], ◌∷◌, All, IfOk, length};
ghost use Rattle.atomic_table.specs.Seated.{TableId};
ghost use Rattle.idle_loop.specs.GateLogs.{GateLogState};
ghost use Rattle.turn_lock.specs.Passes.{AreAll, AreNew, first_of};
ghost use Rattle.turn_lock.specs.Passing.{tokens};
ghost use Rattle.idle_loop.specs.WorkerPools.{AreWorkersAt, AreNewWorkers, AreSplit, HavePasses, WorkersHaveEnded, IsWorkerPool};
ghost use Rattle.idle_loop.specs.declared.entry.IdleSizes.{IdleSizes};

use crate::entry::IdleSizes;
use crate::gate_log::GateLog;
use crate::roles::Role;
use crate::worker::{IdlePass, IdleWorker, IdleWorld, taken};
use sleep_base::{Mem, drop_for_mem};
use sleep_pool::burst;
use std::alloc::Global;
use std::sync::Wait;
use std::thread::Threads;
use turn_lock::{LockTable, close_locks};

/// How many turns a worker may make in a burst.
const TURNS: u64 = 1000;

/// The gate, and what is each worker's own: the wakers in the order of their numbers, and after them the
/// idler.
#[derive(Drop)]
pub struct WorkerPool<'t> {
    pub(crate) gate_log: GateLog<24>,
    pub(crate) roles: Vec<Role<'t>>,
}

/// The workers of a burst, with their passes.
fn with_passes<'t>(
    alloc: Global,
    roles: Vec<Role<'t>>,
    passes: Vec<IdlePass>,
) -> Result<Vec<IdleWorker<'t>>, Mem>
    requires same { length passes.items ≡ length roles.items }
    requires few { length roles.items ≤ 17 }
    ensures { IfOk result (λ workers. AreNewWorkers 0 roles.entry.items passes.items workers.items) }
{
    let Ok(mut workers) = Vec::with_capacity(alloc, roles.len()) else {
        return Err(drop_for_mem((roles, passes)));
    };
    for (role, pass) in roles.into_iter().zip(passes) {
        let who = workers.len() as u32;
        workers.push_reserved(IdleWorker {
            who,
            pass: Some(pass),
            role,
            left: TURNS,
        });
    }
    Ok(workers)
}

/// What is each worker's own, and their passes.
fn split<'t>(
    alloc: Global,
    workers: Vec<IdleWorker<'t>>,
) -> Result<(Vec<Role<'t>>, Vec<IdlePass>), Mem>
    requires { HavePasses workers.items }
    ensures { IfOk result (λ roles. AreSplit workers.entry.items roles.0.items roles.1.items) }
{
    let Ok(mut roles) = Vec::with_capacity(alloc, workers.len()) else {
        return Err(drop_for_mem(workers));
    };
    let Ok(mut passes) = Vec::with_capacity(alloc, workers.len()) else {
        return Err(drop_for_mem((workers, roles)));
    };
    for worker in workers {
        let IdleWorker {
            who: _,
            mut pass,
            role,
            left: _,
        } = worker;
        roles.push_reserved(role);
        passes.push_reserved(taken(&mut pass));
    }
    Ok((roles, passes))
}

/// The table of the gate's lock, and the workers of a burst.
fn began<'t>(
    alloc: Global,
    sizes: IdleSizes,
    pool: WorkerPool<'t>,
) -> Result<(LockTable<GateLog<24>>, Vec<IdleWorker<'t>>), Mem>
    requires { (table : TableId) × IsWorkerPool sizes table pool }
    ensures first { IfOk result (λ made. first_of made.0.own ≡ pool.entry.gate_log ∷ []) }
    ensures count { IfOk result (λ made. made.0.own.me.0.next ≡ sizes.wakers + 1) }
    ensures unused { IfOk result (λ made. made.0.own.me.0.known ≡ []) }
    ensures at { IfOk result (λ made. (table : TableId) → IsWorkerPool sizes table pool.entry → AreWorkersAt sizes made.0.own.table_id table pool.entry.gate_log 0 made.1.items) }
    ensures left { IfOk result (λ made. All (λ w. 1000 ≤ w.left) made.1.items) }
    ensures long { IfOk result (λ made. length made.1.items ≡ sizes.wakers + 1) }
{
    let WorkerPool { gate_log, roles } = pool;
    let Ok(gate_logs) = vec![in alloc; gate_log] else {
        return Err(drop_for_mem(roles));
    };
    let Ok((locks, passes)) = LockTable::new(alloc, gate_logs, sizes.wakers + 1) else {
        return Err(drop_for_mem(roles));
    };
    let Ok(workers) = with_passes(alloc, roles, passes) else {
        return Err(drop_for_mem(locks));
    };
    Ok((locks, workers))
}

/// The workers go on, each up to a thousand turns.
fn work<R: Threads + Wait + Sync>(
    rt: &R,
    sizes: IdleSizes,
    locks: &LockTable<GateLog<24>>,
    pool: &mut [IdleWorker<'_>],
    workers: u8,
)
    requires workers { 0 < workers }
    requires at { (table : TableId) × (first : GateLogState) × AreWorkersAt sizes locks.now.own.table_id table first 0 pool.old }
    requires left { All (λ w. 1000 ≤ w.left) pool.old }
    requires few { length pool.old ≤ 17 }
    ensures at { (table : TableId) (first : GateLogState) → AreWorkersAt sizes locks.now.own.table_id table first 0 pool.old → AreWorkersAt sizes locks.now.own.table_id table first 0 pool.new }
    ensures long { length pool.new ≡ length pool.old }
{
    let world = IdleWorld {
        rt,
        cells: &locks.cells,
        sizes,
    };
    burst(rt, pool, &world, 0, workers);
}

/// The gate and the roles, after a burst.
fn ended<'t>(
    alloc: Global,
    locks: LockTable<GateLog<24>>,
    workers: Vec<IdleWorker<'t>>,
) -> Result<WorkerPool<'t>, Mem>
    requires { (z : IdleSizes) × (table : TableId) × (first : GateLogState) × WorkersHaveEnded z table first locks workers.items }
    ensures { IfOk result (λ pool. (z : IdleSizes) (table : TableId) (first : GateLogState) → WorkersHaveEnded z table first locks workers.entry.items → IsWorkerPool z table pool) }
{
    let (roles, passes) = split(alloc, workers)?;
    let mut gate_logs = close_locks(alloc, locks, passes)?;
    Ok(WorkerPool {
        gate_log: gate_logs.remove(0),
        roles,
    })
}

/// One burst, in which a worker makes at most a thousand turns. `Mem` if there is no memory.
pub(crate) fn go_on<'t, R: Threads + Wait + Sync>(
    rt: &R,
    alloc: Global,
    sizes: IdleSizes,
    pool: WorkerPool<'t>,
    workers: u8,
) -> Result<WorkerPool<'t>, Mem>
    requires workers { 0 < workers }
    requires pool { (table : TableId) × IsWorkerPool sizes table pool }
    ensures { IfOk result (λ after. (table : TableId) → IsWorkerPool sizes table pool.entry → IsWorkerPool sizes table after) }
{
    let (locks, mut pool) = began(alloc, sizes, pool)?;
    work(rt, sizes, &locks, &mut pool, workers);
    ended(alloc, locks, pool)
}
