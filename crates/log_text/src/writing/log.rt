//! The text of a whole log, as the stream writes it.
ghost use Rattle.std.specs.Prelude.{◌≡◌, ◌++◌, OnOk, IfOk, flat_map};
ghost use Rattle.sleep_model.specs.Text.{source_lines, source_names, end_text, waiting_line, text};

use crate::writing::gathered::GatheredBytes;
use crate::writing::ready::ReadyNames;
use crate::writing::stream::LogText;
use crate::writing::writer::{LineWriter, put_finished, put_source, put_waiting};
use sleep_base::{Failed, Mem, drop_for_mem};
use sleep_model::{AUTOSLEEP, Log, LogEnd, Machine, Stats, Waiting};
use std::alloc::Global;

/// The text of the log that this machine made, as the stream writes it.
pub fn write_log(alloc: Global, machine: &Machine, log: &Log) -> Result<Vec<u8>, Mem>
    ensures { IfOk result (λ v. v.items ≡ text machine.now log.now) }
{
    let text = LogText::new(alloc, machine, log)?;
    let mut bytes = GatheredBytes::new(alloc);
    let written = text.write_to(&mut bytes);
    drop(text);
    match written {
        Ok(()) => Ok(bytes.into_bytes()),
        Err(Failed) => Err(drop_for_mem(bytes)),
    }
}

/// Writes a line for each source, `autosleep` last.
pub fn put_sources(out: &mut LineWriter, machine: &Machine, stats: &[Stats]) -> Result<(), Mem>
    ensures { OnOk result (out.new ≡ out.old ++ source_lines (source_names machine.now) stats.now) }
{
    let names = machine.sources.as_slice();
    for (name, own) in names.iter().zip(stats) {
        put_source(out, name.bytes(), own)?;
    }
    match stats.get(names.len()) {
        Some(own) => put_source(out, AUTOSLEEP.as_bytes(), own),
        None => Ok(()),
    }
}

/// Writes how the run ended: a line for each script that never exits, if there are any.
pub fn put_end(out: &mut LineWriter, names: &ReadyNames, end: &LogEnd) -> Result<(), Mem>
    ensures { OnOk result (out.new ≡ out.old ++ end_text names.now end.now) }
{
    match end {
        LogEnd::Finished => put_finished(out),
        LogEnd::Stuck(waiting) => put_stuck(out, names, waiting.as_slice()),
    }
}

/// Writes a line for each script that never exits.
fn put_stuck(out: &mut LineWriter, names: &ReadyNames, waiting: &[Waiting]) -> Result<(), Mem>
    ensures { OnOk result (out.new ≡ out.old ++ flat_map (waiting_line names.now) waiting.now) }
{
    for stuck in waiting {
        put_waiting(out, names, stuck)?;
    }
    Ok(())
}
