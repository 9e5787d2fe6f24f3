//! The command `idle`: its run, and the writing of its text.

ghost use Rattle.std.specs.Prelude.{◌≡◌, ◌≤◌, IfErr, IfOk};
ghost use Rattle.program_ending.specs.declared.ending.Ending.TheVariants as ending;
ghost use Rattle.idle_loop.specs.Sizes.{AreSizes};
ghost use Rattle.idle_commands.specs.Endings.{IdleEnded};
ghost use Rattle.idle_commands.specs.Lines.{IsIdleText};
ghost use Rattle.program_ending.specs.Streams.{stream};

use crate::text::log_text;
use idle_loop::{IdleSizes, run_idle};
use program_ending::{Ending, RunText, write_run_text};
use sleep_base::ByteSink;
use std::alloc::Global;
use std::sync::Wait;
use std::thread::Threads;

/// What the command `idle` writes: the text of the log of a run by 1 to 64 workers. There are 1 to 16 wakers,
/// and 1 to 1,000 events and sessions. `NoMemory` comes if it is out of memory.
pub fn idle_of<R: Threads + Wait + Sync>(
    rt: &R,
    alloc: Global,
    sizes: IdleSizes,
    workers: u32,
) -> Result<Vec<u8>, Ending>
    requires sizes { AreSizes sizes }
    requires workers { (1 ≤ workers) × (workers ≤ 64) }
    ensures text { IfOk result (λ shown_text. IsIdleText sizes shown_text.items) }
    ensures memory { IfErr result (λ other. other ≡ ending.NoMemory) }
{
    let Ok(log) = run_idle(rt, alloc, sizes, workers as u8) else {
        return Err(Ending::NoMemory);
    };
    match log_text(alloc, sizes.wakers, &log) {
        Ok(text) => Ok(text),
        Err(_) => Err(Ending::NoMemory),
    }
}

/// Runs wakers against the idler by 1 to 64 workers, and writes the log of the run.
#[tactic(auto, using(crate::proofs::Idling::idle_none, crate::proofs::Idling::idle_written))]
pub fn write_idle<R: Threads + Wait + Sync, K: ByteSink>(
    rt: &R,
    alloc: Global,
    sizes: IdleSizes,
    workers: u32,
    out: &mut K,
) -> Ending
    requires sizes { AreSizes sizes }
    requires workers { (1 ≤ workers) × (workers ≤ 64) }
    ensures { IdleEnded sizes (stream (K.written out.old) (K.faults out.old)) (stream (K.written out.new) (K.faults out.new)) result }
{
    match idle_of(rt, alloc, sizes, workers) {
        Ok(text) => write_run_text(out, &RunText { text, stuck: false }),
        Err(ending) => ending,
    }
}
