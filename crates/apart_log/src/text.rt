//! The text of a log in slices.

ghost use Rattle.std.specs.Prelude.{◌≡◌, ◌≤◌, ◌++◌, IfOk};
ghost use Rattle.sleep_base.specs.Whole.{WriteAll};
ghost use Rattle.sleep_model.specs.Text.{end_text, source_lines, source_names};
ghost use Rattle.apart_log.specs.Slices.{joined_texts};

use crate::log::ApartLog;
use log_text::write_log;
use sleep_base::{ByteSink, Failed, Mem, write_all};
use sleep_model::{EntryList, ListOf, Log, LogEnd, Machine, Stats};
use std::alloc::Global;
use std::marker::Model;
use std::thread::Threads;

/// The text of a log, slice by slice. Contracts see the text.
#[derive(Drop)]
pub struct SlicedText {
    slices: Vec<Vec<u8>>,
    /// The lines after those of the entries.
    after: Vec<u8>,
}

impl Model for SlicedText {
    ghost use Rattle.std.specs.Prelude.{ℕ, List, ◌++◌};
    ghost use Rattle.apart_log.specs.Slices.{joined_texts};

    ghost Value = { List ℕ };

    ghost view = { λ t. joined_texts t.slices.items ++ t.after.items };
}

/// How often the log is halved, so that each worker has a piece of it.
fn halvings(workers: u8) -> u32 {
    u32::from(workers).next_power_of_two().trailing_zeros()
}

/// The lines after those of the entries: the sources', and the end.
fn closing_lines(
    alloc: Global,
    machine: &Machine,
    stats: ListOf<Stats>,
    end: LogEnd,
) -> Result<Vec<u8>, Mem>
    ensures { IfOk result (λ v. v.items ≡ source_lines (source_names machine.now) stats ++ end_text machine.now end) }
{
    let rest = Log {
        entries: EntryList::new(alloc),
        stats,
        end,
    };
    write_log(alloc, machine, &rest)
}

/// Writes these texts one after the other. `Failed` at the first write that fails: a front of all was
/// written.
#[tactic(auto, using(sleep_base::proofs::Written::one_failed, sleep_base::proofs::Written::both_written))]
fn write_texts<K: ByteSink>(sink: &mut K, texts: &[Vec<u8>]) -> Result<(), Failed>
    ensures bytes { WriteAll (K.written sink.old) (K.written sink.new) (K.faults sink.old) (K.faults sink.new) (joined_texts texts.now) result }
    ensures faults { K.faults sink.old ≤ K.faults sink.new }
{
    match texts.split_first() {
        Some((text, rest)) => {
            write_all(sink, text.as_slice())?;
            write_texts(sink, rest)
        }
        None => Ok(()),
    }
}

impl SlicedText {
    ghost use Rattle.std.specs.Prelude.{◌≡◌, ◌≤◌, IfOk};
    ghost use Rattle.sleep_base.specs.Whole.{WriteAll};
    ghost use Rattle.sleep_model.specs.Text.{text};

    /// The text of the log that this machine made, in slices that this number of workers makes. `Mem` if
    /// there is no memory for it.
    pub fn new<R: Threads + Sync>(
        rt: &R,
        alloc: Global,
        machine: &Machine,
        log: ApartLog,
        workers: u8,
    ) -> Result<Self, Mem>
        ensures { IfOk result (λ t. t ≡ text machine.now log) }
    {
        let slices = log.texts(rt, alloc, machine, halvings(workers))?;
        let (stats, end) = log.into_ending();
        let after = closing_lines(alloc, machine, stats, end)?;
        Ok(SlicedText { slices, after })
    }

    /// Writes the text. `Failed` at the first write that fails: a front of the text was written.
    #[tactic(auto, using(sleep_base::proofs::Written::one_failed, sleep_base::proofs::Written::both_written))]
    pub fn write_to<K: ByteSink>(&self, sink: &mut K) -> Result<(), Failed>
        ensures bytes { WriteAll (K.written sink.old) (K.written sink.new) (K.faults sink.old) (K.faults sink.new) self.now result }
        ensures faults { K.faults sink.old ≤ K.faults sink.new }
    {
        write_texts(sink, self.slices.as_slice())?;
        write_all(sink, self.after.as_slice())
    }
}
