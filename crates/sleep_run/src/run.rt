//! A whole run.

ghost use Rattle.std.specs.Prelude.{◌≡◌, ◌≤◌, reverse, IfOk, IfErr};
ghost use Rattle.sleep_model.specs.Accepted.{IsAccepted};
ghost use Rattle.sleep_model.specs.Order.{parents_of};
ghost use Rattle.machine_rounds.specs.Runs.{Fails, IsRun};

use apart_log::ApartLog;
use device_links::Links;
use machine_plans::MachinePlans;
use machine_rounds::{Run, RunFault};
use run_world::Gate;
use sleep_base::drop_for_mem;
use sleep_model::Machine;
use std::alloc::Global;
use std::sync::Wait;
use std::thread::Threads;

/// What a whole run gives.
#[derive(Drop)]
pub struct RunEnd {
    pub log: ApartLog,
}

/// Runs a machine to its end by 1 to 64 workers: with one, rounds on the caller's thread; with more, bursts
/// on threads and rounds of the caller's own between them. The `gate` sees the workers' turns. `SourceFull`
/// if the history of a source, which has 60,000 places, has fewer than four left for a call: only if the
/// machine's calls may need that many places. `Mem` if there is no memory.
pub fn run_machine<R: Threads + Wait + Sync, G: Gate + Sync>(
    rt: &R,
    alloc: Global,
    machine: &Machine,
    links: Links,
    workers: u8,
    gate: &G,
) -> Result<RunEnd, RunFault>
    requires accepted { IsAccepted machine.now }
    requires links { links ≡ record { parents = parents_of machine.now.devices; links = reverse machine.now.links } }
    requires workers { 1 ≤ workers }
    ensures ok { IfOk result (λ end. IsRun machine.now end.log) }
    ensures fault { IfErr result (Fails machine.now) }
{
    let Ok(plans) = MachinePlans::new(alloc, machine) else {
        return Err(RunFault::from(drop_for_mem(links)));
    };
    let run = Run::new(alloc, &plans, links)?;
    let log = run.to_end(rt, alloc, workers, gate)?;
    Ok(RunEnd { log })
}
