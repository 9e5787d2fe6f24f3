//! A log from its text.

ghost use Rattle.std.specs.Prelude.{◌≡◌, ◌≢◌, ◌++◌, ◌∷◌, ◌+◌, ◌&&◌, [], ℕ, true, length, flat_map, IfOk, IfErr, IsOkUnless};
ghost use Rattle.std.specs.List.{list_all};
ghost use Rattle.sleep_model.specs.declared.log.Log.{Log};
ghost use Rattle.sleep_model.specs.Text.{entry_line, source_line, source_lines, source_names, waiting_line, end_text, text};
ghost use Rattle.sleep_model.specs.Fits.{fits_entry, fits_stats, fits_script, fits_cause, fits_end, is_filled, IsWritable};
ghost use Rattle.log_text.specs.Grammar.{lines, IsBadEntry, IsBadSource, IsBadEnd, IsBadStuck, IsFirstBad};
ghost use Rattle.log_text.specs.Faults.{AtLine, IsNoSource};
ghost use Rattle.log_text.specs.Named.{AreNamed};

use crate::fault::LogFault;
use crate::reading::cut::is;
use crate::reading::lines::{first_line, next_number};
use crate::reading::machine_names::MachineNames;
use crate::reading::reader::LineReader;
use log_words::FINISHED;
use sleep_base::{Mem, drop_for_mem};
use sleep_model::{AUTOSLEEP, EntryList, ListOf, Log, LogEnd, Machine, Stats, Waiting};
use std::alloc::Global;

/// The entries at the beginning of a log's text, what follows their lines, and the number of
/// the line there.
#[tactic(auto, using(crate::proofs::NextEntry::shorter_after))]
fn read_entries<'a>(
    alloc: Global,
    machine_names: &MachineNames,
    reader: &mut LineReader,
    bytes: &'a [u8],
) -> Result<(EntryList, &'a [u8], u32), Mem>
    ensures text { IfOk result (λ r. bytes.now ≡ flat_map (entry_line machine_names.now) r.0 ++ r.1.now) }
    ensures fits { IfOk result (λ r. list_all (fits_entry machine_names.now) r.0 ≡ true) }
    ensures bad { IfOk result (λ r. AreNamed machine_names.now → (bad : ℕ) →
        IsBadSource machine_names.now (source_names machine_names.now) (lines r.1.now) r.2 bad → IsFirstBad machine_names.now bytes.now bad) }
{
    let mut entries = EntryList::new(alloc);
    let mut left = bytes;
    let mut number = 1;
    while !left.is_empty() {
        let Ok(next) = reader.next_entry(machine_names, left) else {
            return Err(drop_for_mem(entries));
        };
        let Some((entry, after_piece)) = next else {
            return Ok((entries, left, number));
        };
        let Ok(()) = entries.push(entry) else {
            return Err(drop_for_mem(entries));
        };
        let Ok(following) = next_number(number) else {
            return Err(drop_for_mem(entries));
        };
        number = following;
        left = after_piece;
    }
    Ok((entries, left, number))
}

/// The statistics of the source of that name at the beginning of a text, what follows their line, and the
/// number of the line there.
fn read_source<'a>(
    reader: &mut LineReader,
    name: &[u8],
    bytes: &'a [u8],
    number: u32,
) -> Result<(Stats, &'a [u8], u32), LogFault>
    ensures text { IfOk result (λ r. bytes.now ≡ source_line name.now r.0 ++ r.1.now) }
    ensures fits { IfOk result (λ r. fits_stats r.0 ≡ true) }
    ensures lines { IfOk result (λ r. lines bytes.now ≡ source_line name.now r.0 ∷ lines r.1.now) }
    ensures number { IfOk result (λ r. r.2 ≡ number + 1) }
    ensures line { IfErr result (λ e. AtLine e (λ n. n ≡ number)) }
    ensures fault { IfErr result (λ e. AtLine e (λ _. IsNoSource name.now (lines bytes.now))) }
{
    if bytes.is_empty() {
        return Err(LogFault::Line(number));
    }
    let (line, after_piece) = first_line(bytes);
    match reader.source(name, line)? {
        Some(stats) => Ok((stats, after_piece, next_number(number)?)),
        None => Err(LogFault::Line(number)),
    }
}

/// The statistics of each source, `autosleep` last, at the beginning of a text, what follows
/// their lines, and the number of the line there.
fn read_sources<'a>(
    alloc: Global,
    machine: &Machine,
    reader: &mut LineReader,
    bytes: &'a [u8],
    first: u32,
) -> Result<(Vec<Stats>, &'a [u8], u32), LogFault>
    ensures text { IfOk result (λ r. bytes.now ≡ source_lines (source_names machine.now) r.0.items ++ r.1.now) }
    ensures count { IfOk result (λ r. length r.0.items ≡ length machine.now.sources + 1) }
    ensures fits { IfOk result (λ r. list_all fits_stats r.0.items ≡ true) }
    ensures bad { IfOk result (λ r. (bad : ℕ) → IsBadEnd machine.now (lines r.1.now) r.2 bad →
        IsBadSource machine.now (source_names machine.now) (lines bytes.now) first bad) }
    ensures fault { IfErr result (λ e. AtLine e (IsBadSource machine.now (source_names machine.now) (lines bytes.now) first)) }
{
    let names = machine.sources.as_slice();
    let mut all = Vec::with_capacity(alloc, names.len() + 1)?;
    let mut left = bytes;
    let mut number = first;
    for i in 0..names.len() {
        match read_source(reader, names[i].bytes(), left, number) {
            Ok((stats, after_piece, following)) => {
                all.push_reserved(stats);
                left = after_piece;
                number = following;
            }
            Err(fault) => return Err(fault),
        }
    }
    match read_source(reader, AUTOSLEEP.as_bytes(), left, number) {
        Ok((stats, after_piece, following)) => {
            all.push_reserved(stats);
            Ok((all, after_piece, following))
        }
        Err(fault) => Err(fault),
    }
}

/// The scripts that never exit, to the end of a text that is not empty.
fn read_stuck(
    alloc: Global,
    machine_names: &MachineNames,
    reader: &mut LineReader,
    bytes: &[u8],
    first: u32,
) -> Result<Vec<Waiting>, LogFault>
    requires { bytes.now ≢ [] }
    ensures text { IfOk result (λ v. bytes.now ≡ flat_map (waiting_line machine_names.now) v.items) }
    ensures filled { IfOk result (λ v. is_filled v.items ≡ true) }
    ensures fits { IfOk result (λ v. list_all (λ w. fits_script machine_names.now w.actor && fits_cause machine_names.now w.why) v.items ≡ true) }
    ensures fault { IfErr result (λ e. AtLine e (λ n. AreNamed machine_names.now → IsBadStuck machine_names.now (lines bytes.now) first n)) }
{
    let mut all = Vec::new(alloc);
    let mut left = bytes;
    let mut number = first;
    while !left.is_empty() {
        let (line, after_piece) = first_line(left);
        let Some(waiting) = reader.stuck(machine_names, line)? else {
            return Err(LogFault::Line(number));
        };
        all.push(waiting)?;
        number = next_number(number)?;
        left = after_piece;
    }
    Ok(all)
}

/// How the run ended, to the end of the text.
fn read_end(
    alloc: Global,
    machine_names: &MachineNames,
    reader: &mut LineReader,
    bytes: &[u8],
    number: u32,
) -> Result<LogEnd, LogFault>
    ensures text { IfOk result (λ e. bytes.now ≡ end_text machine_names.now e) }
    ensures fits { IfOk result (λ e. fits_end machine_names.now e ≡ true) }
    ensures fault { IfErr result (λ e. AtLine e (λ n. AreNamed machine_names.now → IsBadEnd machine_names.now (lines bytes.now) number n)) }
{
    if bytes.is_empty() {
        return Err(LogFault::Line(number));
    }
    let (line, after_piece) = first_line(bytes);
    if is(line, FINISHED) {
        if after_piece.is_empty() {
            return Ok(LogEnd::Finished);
        }
        return Err(LogFault::Line(next_number(number)?));
    }
    match read_stuck(alloc, machine_names, reader, bytes, number) {
        Ok(waiting) => Ok(LogEnd::Stuck(ListOf::of_vec(waiting))),
        Err(fault) => Err(fault),
    }
}

/// The log of these entries, by the text after their lines.
fn read_closing(
    alloc: Global,
    machine_names: &MachineNames,
    reader: &mut LineReader,
    entries: EntryList,
    bytes: &[u8],
    first: u32,
) -> Result<Log, LogFault>
    ensures entries { IfOk result (λ log. log.entries ≡ entries) }
    ensures text { IfOk result (λ log. bytes.now ≡ source_lines (source_names machine_names.now) log.stats ++ end_text machine_names.now log.end) }
    ensures count { IfOk result (λ log. length log.stats ≡ length machine_names.now.sources + 1) }
    ensures counts { IfOk result (λ log. list_all fits_stats log.stats ≡ true) }
    ensures end { IfOk result (λ log. fits_end machine_names.now log.end ≡ true) }
    ensures fault { IfErr result (λ e. AtLine e (λ n. AreNamed machine_names.now → IsBadSource machine_names.now (source_names machine_names.now) (lines bytes.now) first n)) }
{
    match read_sources(alloc, machine_names.machine(), reader, bytes, first) {
        Ok((stats, left, number)) => match read_end(alloc, machine_names, reader, left, number) {
            Ok(end) => Ok(Log {
                entries,
                stats: ListOf::of_vec(stats),
                end,
            }),
            Err(fault) => Err(fault),
        },
        Err(fault) => Err(fault),
    }
}

/// The log of a text, by the machine's names.
fn read_whole(alloc: Global, machine_names: &MachineNames, bytes: &[u8]) -> Result<Log, LogFault>
    ensures text { IfOk result (λ log. text machine_names.now log ≡ bytes.now) }
    ensures fits { IfOk result (λ log. IsWritable machine_names.now log) }
    ensures line { IfErr result (λ e. AtLine e (λ n. AreNamed machine_names.now → IsFirstBad machine_names.now bytes.now n)) }
{
    match LineReader::new(alloc) {
        Ok(mut reader) => match read_entries(alloc, machine_names, &mut reader, bytes) {
            Ok((entries, left, number)) => {
                read_closing(alloc, machine_names, &mut reader, entries, left, number)
            }
            Err(_) => Err(LogFault::Mem),
        },
        Err(_) => Err(LogFault::Mem),
    }
}

/// The log whose text these bytes are. It fits the machine: its numbers name things of the machine, and fit
/// the types of their fields.
///
/// `Line(n)` if they are the text of no log that fits the machine: n counts from 1 to the first line that the
/// grammar has not, or that is missing. A fitting log's text is read back as that very log. For both the
/// machine's names have to be spelled as names and different, as the rules on machine files ask. `Mem` comes
/// if it is out of memory, or if lines or things of a kind are more than have numbers.
pub fn read_log(alloc: Global, machine: &Machine, bytes: &[u8]) -> Result<Log, LogFault>
    ensures text { IfOk result (λ log. text machine.now log ≡ bytes.now) }
    ensures fits { IfOk result (λ log. IsWritable machine.now log) }
    ensures line { IfErr result (λ e. AtLine e (λ n. AreNamed machine.now → IsFirstBad machine.now bytes.now n)) }
    // The text of a log that fits is read as that log, ..
    ensures back { (log : Log) → AreNamed machine.now → IsWritable machine.now log → text machine.now log ≡ bytes.now →
        IfOk result (λ read. read ≡ log) }
    // .. and no line of it is a fault.
    ensures taken { (log : Log) → AreNamed machine.now → IsWritable machine.now log → text machine.now log ≡ bytes.now →
        IsOkUnless result LogFault.Mem }
{
    match MachineNames::new(alloc, machine) {
        Ok(machine_names) => {
            let read = read_whole(alloc, &machine_names, bytes);
            drop(machine_names);
            read
        }
        Err(_) => Err(LogFault::Mem),
    }
}
