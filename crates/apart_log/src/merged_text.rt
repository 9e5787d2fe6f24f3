//! The text of a log that is put together as it is written.

ghost use Rattle.std.specs.Prelude.{◌≡◌};

use crate::log::ApartLog;
use crate::merged::MergedEntries;
use log_text::TextFrame;
use sleep_base::{ByteSink, Failed, Mem, drop_for_mem};
use sleep_model::Machine;
use std::alloc::Global;
use std::marker::Model;

/// The text of a log, with all that its writing needs of memory. Contracts see the text.
#[derive(Drop)]
pub struct MergedText<'a> {
    frame: TextFrame<'a>,
    entries: MergedEntries<'a>,
}

impl<'a> Model for MergedText<'a> {
    ghost use Rattle.std.specs.Prelude.{ℕ, List, ◌++◌, flat_map};
    ghost use Rattle.sleep_model.specs.Text.{entry_line};

    ghost Value = { List ℕ };

    ghost view = { λ t. flat_map (entry_line t.frame.machine) t.entries ++ t.frame.closing };
}

impl<'a> MergedText<'a> {
    ghost use Rattle.std.specs.Prelude.{◌≡◌, ◌≤◌, IfOk};
    ghost use Rattle.sleep_base.specs.Whole.{WriteAll};
    ghost use Rattle.sleep_model.specs.Text.{text};

    /// The text of the log that this machine made. `Mem` if there is no memory for its names, for the lines
    /// after those of the entries, or for the order of the histories.
    pub fn new(alloc: Global, machine: &'a Machine, log: &'a ApartLog) -> Result<Self, Mem>
        ensures { IfOk result (λ t. t ≡ text machine.now log.now) }
    {
        let frame = log.frame(alloc, machine)?;
        let Ok(entries) = log.merged(alloc) else {
            return Err(drop_for_mem(frame));
        };
        Ok(MergedText { frame, entries })
    }

    /// Writes the text, without memory. `Failed` at the first write that fails: a front of the text was
    /// written.
    pub fn write_to<K: ByteSink>(&self, sink: &mut K) -> Result<(), Failed>
        ensures bytes { WriteAll (K.written sink.old) (K.written sink.new) (K.faults sink.old) (K.faults sink.new) self.now result }
        ensures faults { K.faults sink.old ≤ K.faults sink.new }
    {
        self.entries.write_to(sink, &self.frame)
    }
}
