//! The lines of entries that are not moved.

ghost use Rattle.std.specs.Prelude.{◌≡◌, ◌++◌, OnOk, IfOk, flat_map};
ghost use Rattle.sleep_model.specs.Text.{entry_line};
ghost use Rattle.log_text.specs.Referred.{referred};

use crate::writing::ready::ReadyNames;
use crate::writing::writer::{LineWriter, put_entry};
use log_words::LineFront;
use sleep_base::{Mem, drop_for_mem};
use sleep_model::{Machine, SourceEntry};
use std::alloc::Global;

/// How many bytes the line of an entry usually has, at most.
const USUAL_LINE: usize = 48;

/// Writes a line for each of these entries.
fn put_referred(
    out: &mut LineWriter,
    names: &ReadyNames,
    entries: &[&SourceEntry],
) -> Result<(), Mem>
    ensures { OnOk result (out.new ≡ out.old ++ flat_map (entry_line names.now) (referred entries.now)) }
{
    let mut front = LineFront::start();
    for one in entries {
        let entry = one.entry;
        front.move_to(entry.time, entry.now);
        put_entry(out, names, &front, entry)?;
    }
    Ok(())
}

/// The lines of these entries of sources, in the order in which they are given. `Mem` if there is no memory
/// for them (own: Linux keeps no such log).
pub fn write_entries(
    alloc: Global,
    machine: &Machine,
    entries: &[&SourceEntry],
) -> Result<Vec<u8>, Mem>
    ensures { IfOk result (λ v. v.items ≡ flat_map (entry_line machine.now) (referred entries.now)) }
{
    let room = entries.len().saturating_mul(USUAL_LINE);
    let mut out = LineWriter::with_room(alloc, room)?;
    let Ok(names) = ReadyNames::new(alloc, machine) else {
        return Err(drop_for_mem(out));
    };
    let written = put_referred(&mut out, &names, entries);
    drop(names);
    match written {
        Ok(()) => out.into_vec(),
        Err(Mem) => Err(drop_for_mem(out)),
    }
}
