//! The one log of a journal and hard events.

ghost use Rattle.std.specs.Prelude.{◌≤◌, ◌<◌, ◌^◌, IfOk, length, reverse, take, List};
ghost use Rattle.idle_loop.specs.declared.entry.IdleEntry.{IdleEntry};
ghost use Rattle.idle_loop.specs.Merging.{Merges, SeeMore};

use crate::entry::{IdleEntry, IdleKind};
use sleep_base::Mem;
use std::alloc::Global;

/// Hard events from a number to another, by their makers.
fn put_hards(log: &mut Vec<IdleEntry>, makers: &[u32], from: u32, to: u32) -> Result<(), Mem>
    requires { (from ≤ to) × (to ≤ length makers.now) }
    ensures { IfOk result (λ _. (journal : List IdleEntry) → Merges (reverse (take from makers.now)) journal (reverse log.old.items) → Merges (reverse (take to makers.now)) journal (reverse log.new.items)) }
{
    for before in from..to {
        log.push(IdleEntry {
            hard: before,
            who: makers[before as usize],
            what: IdleKind::Hard,
        })?;
    }
    Ok(())
}

/// The one log of a gate's journal and of the hard events, whose makers are given in order, all the oldest
/// first. Each entry of the journal comes after as many hard events as it saw. `Mem` if there is no memory
/// for the log.
pub fn merge_idle(
    alloc: Global,
    journal: &[IdleEntry],
    makers: &[u32],
) -> Result<Vec<IdleEntry>, Mem>
    requires few { length makers.now < 2 ^ 32 }
    requires order { SeeMore 0 (length makers.now) journal.now }
    ensures { IfOk result (λ log. Merges (reverse makers.now) (reverse journal.now) (reverse log.items)) }
{
    let mut log = Vec::new(alloc);
    let mut placed = 0;
    for entry in journal {
        put_hards(&mut log, makers, placed, entry.hard)?;
        log.push(*entry)?;
        placed = entry.hard;
    }
    put_hards(&mut log, makers, placed, makers.len() as u32)?;
    Ok(log)
}
