//! Generated machines: their files, and the numbers of their runs.

ghost use Rattle.std.specs.Prelude.{◌≡◌, ◌≤◌, ℕ, IfOk};
ghost use Rattle.sleep_model.specs.Accepted.{IsAccepted};
ghost use Rattle.sleep_model.specs.Order.{parents_of};
ghost use Rattle.sleep_model.specs.Places.{places};
ghost use Rattle.machine_file.specs.Reading.{links_among};
ghost use Rattle.machine_file.specs.Spelling.{spelling};
ghost use Rattle.sleep_script.specs.Generated.{generated};
ghost use Rattle.machine_rounds.specs.Runs.{IsRun};
ghost use Rattle.program_ending.specs.Streams.{stream};
ghost use Rattle.run_commands.specs.Endings.{GenEnded, IsLineOf, SoakEnded};

use crate::counts::{count_line, counts_of, is_stuck};
use device_links::Links;
use machine_file::write_machine;
use program_ending::{Ending, RunText, write_run_text};
use sleep_base::{ByteSink, Mem, drop_for_mem};
use sleep_model::{Device, Log, Machine};
use sleep_run::{OpenGate, RunFault, run_machine};
use sleep_script::generate;
use std::alloc::Global;
use std::sync::Wait;
use std::thread::Threads;

/// The file of the generated machine of a seed with this number of devices. `Mem` if there is no memory for
/// it.
fn file_of(alloc: Global, seed: u64, devices: u32) -> Result<Vec<u8>, Mem>
    requires some { 1 ≤ devices }
    requires few { devices ≤ 1000 }
    ensures { IfOk result (λ file. file.items ≡ spelling (generated seed devices)) }
{
    let machine = generate(alloc, seed, devices)?;
    write_machine(alloc, &machine)
}

/// Writes the file of the generated machine of a seed with this number of devices.
pub fn write_generated<K: ByteSink>(alloc: Global, seed: u64, devices: u32, out: &mut K) -> Ending
    requires some { 1 ≤ devices }
    requires few { devices ≤ 1000 }
    ensures { GenEnded seed devices
        (stream (K.written out.old) (K.faults out.old)) (stream (K.written out.new) (K.faults out.new)) result }
{
    let stuck = false;
    match file_of(alloc, seed, devices) {
        Ok(text) => write_run_text(out, &RunText { text, stuck }),
        Err(_) => Ending::NoMemory,
    }
}

/// The parents of these devices.
fn parents_of(alloc: Global, devices: &[Device]) -> Result<Vec<Option<u32>>, Mem>
    ensures { IfOk result (λ parents. parents.items ≡ parents_of devices.now) }
{
    let parents = devices.iter().map(|device| device.parent).collect(alloc)?;
    Ok(parents)
}

/// The links of a machine that a file may spell.
fn links_of(alloc: Global, machine: &Machine) -> Result<Links, Mem>
    requires { IsAccepted machine.now }
    ensures { IfOk result (λ links. links ≡ links_among machine.now) }
{
    let parents = parents_of(alloc, machine.devices.as_slice())?;
    match Links::with_links(alloc, &parents, machine.links.as_slice())? {
        Some(links) => Ok(links),
        None => unreachable!(),
    }
}

/// The log of a run of a machine that a file may spell, and that fills no source.
fn log_of<R: Threads + Wait + Sync>(rt: &R, alloc: Global, machine: &Machine) -> Result<Log, Mem>
    requires accepted { IsAccepted machine.now }
    requires roomy { (s : ℕ) → places machine.now s ≤ 16 }
    ensures { IfOk result (IsRun machine.now) }
{
    let links = links_of(alloc, machine)?;
    match run_machine(rt, alloc, machine, links, 1, &OpenGate) {
        Ok(run) => run.log.into_log(alloc),
        Err(RunFault::SourceFull(_)) => unreachable!(),
        Err(RunFault::Mem) => Err(Mem),
    }
}

/// The line of the numbers of the log of the generated machine of a seed with this number of devices.
fn line_of<R: Threads + Wait + Sync>(
    rt: &R,
    alloc: Global,
    seed: u64,
    devices: u32,
) -> Result<RunText, Mem>
    requires some { 1 ≤ devices }
    requires few { devices ≤ 1000 }
    ensures { IfOk result (λ shown_text. IsLineOf seed devices shown_text.text.items shown_text.stuck) }
{
    let machine = generate(alloc, seed, devices)?;
    let Ok(log) = log_of(rt, alloc, &machine) else {
        return Err(drop_for_mem(machine));
    };
    let stuck = is_stuck(&log.end);
    let counts = counts_of(&log);
    drop((machine, log));
    let text = count_line(alloc, counts, stuck)?;
    Ok(RunText { text, stuck })
}

/// Runs the generated machine of a seed with this number of devices, and writes the numbers of its log.
pub fn soak_generated<R: Threads + Wait + Sync, K: ByteSink>(
    rt: &R,
    alloc: Global,
    seed: u64,
    devices: u32,
    out: &mut K,
) -> Ending
    requires some { 1 ≤ devices }
    requires few { devices ≤ 1000 }
    ensures { SoakEnded seed devices
        (stream (K.written out.old) (K.faults out.old)) (stream (K.written out.new) (K.faults out.new)) result }
{
    match line_of(rt, alloc, seed, devices) {
        Ok(shown_text) => write_run_text(out, &shown_text),
        Err(_) => Ending::NoMemory,
    }
}
