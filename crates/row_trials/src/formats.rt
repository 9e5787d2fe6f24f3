//! What readers and writers of machine files and logs make of a row's input.

ghost use Rattle.sleep_model.specs.Accepted.{IsAccepted};

use crate::calls::{answer, bytes_of};
use crate::chains::is_certified_whole;
use crate::outcome::sink_of;
use file_read_back::{
    generated_machines_read_back, log_texts_are_injective, machines_are_named, machines_read_back,
    values_spell_again, versions_spell_alike,
};
use log_commands::read_log_input;
use log_text::{LogText, write_log};
use machine_file::{ReadMachine, read_machine, write_machine};
use sleep_base::{Mem, MemSink, drop_for_mem};
use sleep_model::{Log, Machine};
use std::alloc::Global;
use trial_rows::{
    ENTRIES, LINK_ENTRIES, LogCall, MachineCall, Streams, are_changes, finished, is_shared,
    is_whole, lines_of, stuck, text_of_log,
};

/// The laws are calls that do nothing.
pub(crate) fn called_laws(alloc: Global) -> Result<Vec<u8>, Mem> {
    values_spell_again();
    versions_spell_alike();
    machines_read_back();
    generated_machines_read_back();
    machines_are_named();
    log_texts_are_injective();
    bytes_of(alloc, "laws\n")
}

/// What is asked of the machine of a file.
pub(crate) fn of_file(alloc: Global, file: &[u8], call: MachineCall) -> Result<Vec<u8>, Mem> {
    match read_machine(alloc, file) {
        Ok(read) => {
            let text = of_machine(alloc, &read, call);
            drop(read);
            text
        }
        Err(fault) => {
            drop(fault);
            bytes_of(alloc, "refused\n")
        }
    }
}

/// What is asked of a machine that was read.
fn of_machine(alloc: Global, read: &ReadMachine, call: MachineCall) -> Result<Vec<u8>, Mem> {
    let machine = &read.machine;
    match call {
        MachineCall::File => write_machine(alloc, machine),
        MachineCall::Entries => lines_of(alloc, machine, &ENTRIES),
        MachineCall::LinkEntries => lines_of(alloc, machine, &LINK_ENTRIES),
        MachineCall::Finished => text_of_log(alloc, machine, finished(alloc)),
        MachineCall::Stuck => text_of_log(alloc, machine, stuck(alloc)),
        MachineCall::Lists => answer(alloc, is_whole(machine, read.links.order())),
        MachineCall::Changes => answer(alloc, are_changes(machine)),
        MachineCall::Shared => answer(alloc, is_shared(machine)),
    }
}

/// What is asked of a machine and its log.
pub(crate) fn of_log(
    alloc: Global,
    input: &[u8],
    streams: Streams,
    call: LogCall,
) -> Result<Vec<u8>, Mem> {
    match read_log_input(alloc, input) {
        Ok(read) => {
            let text = of_read_log(alloc, &read.machine, &read.log, streams, call);
            drop(read);
            text
        }
        Err(ending) => {
            drop(ending);
            bytes_of(alloc, "refused\n")
        }
    }
}

/// What is asked of a log that was read.
fn of_read_log(
    alloc: Global,
    machine: &Machine,
    log: &Log,
    streams: Streams,
    call: LogCall,
) -> Result<Vec<u8>, Mem>
    requires { IsAccepted machine.now }
{
    match call {
        LogCall::Text => write_log(alloc, machine, log),
        LogCall::Stream => streamed(alloc, machine, log, streams),
        LogCall::Chain => answer(alloc, is_certified_whole(alloc, machine, log)),
    }
}

/// What a sink with a row's streams has of a log that is streamed, and whether that is all.
fn streamed(alloc: Global, machine: &Machine, log: &Log, streams: Streams) -> Result<Vec<u8>, Mem> {
    let mut sink = sink_of(alloc, streams.room, streams.chunk, streams.write_fails)?;
    let text = taken(alloc, machine, log, &mut sink);
    drop(sink);
    text
}

/// What the sink takes of a log, and after it whether it took all and how many of its calls failed.
fn taken(alloc: Global, machine: &Machine, log: &Log, sink: &mut MemSink) -> Result<Vec<u8>, Mem> {
    let is_whole = is_taken(alloc, machine, log, sink)?;
    let end = if is_whole { "whole" } else { "cut" };
    let faults = sink.faults();
    let mut text = format!(in alloc; "{end} faults {faults}\n")?.into_bytes();
    match text.extend_from_slice(sink.bytes()) {
        Ok(()) => Ok(text),
        Err(_) => Err(drop_for_mem(text)),
    }
}

/// Whether a sink takes a log whole.
fn is_taken(alloc: Global, machine: &Machine, log: &Log, sink: &mut MemSink) -> Result<bool, Mem> {
    let text = LogText::new(alloc, machine, log)?;
    let is_whole = text.write_to(sink).is_ok();
    drop(text);
    Ok(is_whole)
}
