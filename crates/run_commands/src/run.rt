//! A run of a machine file: from the bytes of the file to the text of the run's log.

ghost use Rattle.std.specs.Prelude.{◌≡◌, ◌≤◌, length};
ghost use Rattle.machine_rounds.specs.Runs.{Fails};
ghost use Rattle.program_ending.specs.Streams.{stream, streams};
ghost use Rattle.run_commands.specs.Endings.{GivesRun, IsEndingOfRun, IsFullNamed, RunEnded, WritesLog, WritesText, ending_of};

use crate::counts::is_stuck;
use apart_log::{ApartLog, MergedText, SlicedText};
use machine_file::{MachineFault, ReadMachine, read_machine};
use program_ending::{Ending, MOST_MACHINE, Refusal, read_input};
use sleep_base::{ByteSink, ByteSource, Failed};
use sleep_model::{Machine, Name};
use sleep_run::{Gate, RunFault, run_machine};
use std::alloc::Global;
use std::sync::Wait;
use std::thread::Threads;

/// That a source has no place for a call, by its name.
fn full(machine: &Machine, source: u32) -> Ending
    requires { source ≤ length machine.now.sources }
    ensures { IsFullNamed machine.now source result }
{
    match machine.sources.as_slice().get(source as usize) {
        Some(name) => Ending::Refused(Refusal::SourceFull(*name)),
        None => Ending::Refused(Refusal::SourceFull(Name::autosleep())),
    }
}

/// How the program ends if a run gives no log: a full source is named, and never reported as out of memory.
fn without_log(machine: &Machine, fault: RunFault) -> Ending
    requires { Fails machine.now fault }
    ensures { IsEndingOfRun machine.now fault result }
{
    match fault {
        RunFault::SourceFull(source) => full(machine, source),
        RunFault::Mem => Ending::NoMemory,
    }
}

/// A machine, and the log of its run.
#[derive(Drop)]
pub struct Ran {
    pub machine: Machine,
    pub log: ApartLog,
}

/// The machine that the bytes spell with the log of its run by this number of workers, or how the program
/// ends without one. It is `Broken` if they break a rule and so spell none, `SourceFull` if a source's
/// history has no room for a call, `NoMemory` if there is no memory. The bytes are let go before the run.
#[tactic(auto, using(crate::proofs::Filling::ended_fault))]
fn run_of_bytes<R: Threads + Wait + Sync, G: Gate + Sync>(
    rt: &R,
    alloc: Global,
    bytes: Vec<u8>,
    workers: u8,
    gate: &G,
) -> Result<Ran, Ending>
    requires { 1 ≤ workers }
    ensures { GivesRun bytes.items result }
{
    let read = read_machine(alloc, &bytes);
    drop(bytes);
    let ReadMachine { machine, links } = match read {
        Ok(read) => read,
        Err(MachineFault::Rule { rule, place }) => {
            return Err(Ending::Refused(Refusal::Broken { rule, place }));
        }
        Err(MachineFault::Mem) => return Err(Ending::NoMemory),
    };
    match run_machine(rt, alloc, &machine, links, workers, gate) {
        Ok(run) => Ok(Ran {
            machine,
            log: run.log,
        }),
        Err(fault) => Err(without_log(&machine, fault)),
    }
}

/// How the program ends once the text of a run, which was stuck or not, was written so.
fn ending_of(written: Result<(), Failed>, stuck: bool) -> Ending
    ensures { result ≡ ending_of written stuck }
{
    match written {
        Ok(()) if stuck => Ending::Stuck,
        Ok(()) => Ending::Done,
        Err(_) => Ending::WriteFault,
    }
}

/// Writes the text of a machine's log as it is put together: the entries stay where they are stored. Ends as
/// `write_whole`.
fn write_text<K: ByteSink>(alloc: Global, out: &mut K, machine: &Machine, log: &ApartLog) -> Ending
    ensures { WritesText machine.now log.now (stream (K.written out.old) (K.faults out.old)) (stream (K.written out.new) (K.faults out.new)) result }
{
    let Ok(text) = MergedText::new(alloc, machine, log) else {
        return Ending::NoMemory;
    };
    ending_of(text.write_to(out), is_stuck(log.end()))
}

/// Writes the log of a run as its text is put together: `Done`, or `Stuck` if the run was stuck. `NoMemory`
/// before anything was written, `WriteFault` at the first write that fails: a prefix of the text was written.
fn write_whole<K: ByteSink>(alloc: Global, out: &mut K, ran: Ran) -> Ending
    ensures { WritesLog ran (stream (K.written out.old) (K.faults out.old)) (stream (K.written out.new) (K.faults out.new)) result }
{
    let Ran { machine, log } = ran;
    let ending = write_text(alloc, out, &machine, &log);
    drop((machine, log));
    ending
}

/// Writes the text of a machine's log, which is made in slices on threads, one for each worker. Ends as
/// `write_whole`.
fn write_sliced_text<R: Threads + Sync, K: ByteSink>(
    rt: &R,
    alloc: Global,
    out: &mut K,
    machine: &Machine,
    log: ApartLog,
    workers: u8,
) -> Ending
    ensures { WritesText machine.now log (stream (K.written out.old) (K.faults out.old)) (stream (K.written out.new) (K.faults out.new)) result }
{
    let stuck = is_stuck(log.end());
    let Ok(text) = SlicedText::new(rt, alloc, machine, log, workers) else {
        return Ending::NoMemory;
    };
    ending_of(text.write_to(out), stuck)
}

/// Writes the log of a run, whose text is made in slices on threads, one for each worker. Ends as
/// `write_whole`.
fn write_slices<R: Threads + Sync, K: ByteSink>(
    rt: &R,
    alloc: Global,
    out: &mut K,
    ran: Ran,
    workers: u8,
) -> Ending
    ensures { WritesLog ran (stream (K.written out.old) (K.faults out.old)) (stream (K.written out.new) (K.faults out.new)) result }
{
    let Ran { machine, log } = ran;
    let ending = write_sliced_text(rt, alloc, out, &machine, log, workers);
    drop(machine);
    ending
}

/// Writes the log of a run by this number of workers, who make its text in slices if that is worth their
/// threads.
fn write_log<R: Threads + Sync, K: ByteSink>(
    rt: &R,
    alloc: Global,
    out: &mut K,
    ran: Ran,
    workers: u8,
) -> Ending
    ensures { WritesLog ran (stream (K.written out.old) (K.faults out.old)) (stream (K.written out.new) (K.faults out.new)) result }
{
    if workers > 1 && ran.log.is_worth_slices() {
        write_slices(rt, alloc, out, ran, workers)
    } else {
        write_whole(alloc, out, ran)
    }
}

/// Reads a machine file, runs the machine by this number of workers, and writes its log.
#[tactic(auto, using(crate::proofs::Filling::ended_without, crate::proofs::Filling::ended_with))]
pub fn run_file<R: Threads + Wait + Sync, S: ByteSource, K: ByteSink, G: Gate + Sync>(
    rt: &R,
    alloc: Global,
    workers: u8,
    input: &mut S,
    out: &mut K,
    gate: &G,
) -> Ending
    requires { 1 ≤ workers }
    ensures { RunEnded
        (streams (stream (S.left input.old) (S.faults input.old)) (stream (K.written out.old) (K.faults out.old)))
        (streams (stream (S.left input.new) (S.faults input.new)) (stream (K.written out.new) (K.faults out.new)))
        result }
{
    let bytes = match read_input(alloc, input, MOST_MACHINE, Refusal::LongMachine) {
        Ok(bytes) => bytes,
        Err(ending) => return ending,
    };
    match run_of_bytes(rt, alloc, bytes, workers, gate) {
        Ok(ran) => write_log(rt, alloc, out, ran, workers),
        Err(ending) => ending,
    }
}
