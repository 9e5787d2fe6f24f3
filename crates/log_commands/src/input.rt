//! A machine with a log of it, in one input.

ghost use Rattle.std.specs.Prelude.{◌≡◌, ◌≤◌, Some, IfErr, IfOk, OnOk, length};
ghost use Rattle.sleep_model.specs.Accepted.{IsAccepted};
ghost use Rattle.sleep_model.specs.Fits.{IsWritable};
ghost use Rattle.sleep_model.specs.Text.{text};
ghost use Rattle.machine_file.specs.Reading.{links_among};
ghost use Rattle.file_rules.specs.Whole.{IsSpelled, machine_in};
ghost use Rattle.program_ending.specs.Streams.{most_machine};
ghost use Rattle.program_ending.specs.CommandEndings.{Refuses};
ghost use Rattle.log_commands.specs.Input.{IsBadInput, IsBadLog, IsBadMachine, IsLogIn, file_in, text_in};

use device_links::Links;
use log_text::{LogFault, read_log};
use machine_file::{MachineFault, ReadMachine, read_machine};
use program_ending::{Ending, MOST_MACHINE, Refusal};
use sleep_base::cut;
use sleep_model::{Log, Machine};
use std::alloc::Global;

/// A machine with its links, and a log of it.
#[derive(Drop)]
pub struct LogInput {
    pub machine: Machine,
    pub links: Links,
    pub log: Log,
}

/// The bytes before the first newline, and those after it; without one, all and none.
pub(crate) fn cut_line(bytes: &[u8]) -> (&[u8], &[u8])
    ensures file { result.0.now ≡ file_in bytes.now }
    ensures text { result.1.now ≡ text_in bytes.now }
{
    cut(bytes, b'\n')
}

/// The machine that these bytes spell, with its links.
pub(crate) fn machine_of(alloc: Global, bytes: &[u8]) -> Result<ReadMachine, Ending>
    ensures spells { IfOk result (λ r. machine_in bytes.now ≡ Some r.machine) }
    ensures few { OnOk result (length bytes.now ≤ most_machine) }
    ensures links { IfOk result (λ r. r.links ≡ links_among r.machine) }
    ensures accepted { IfOk result (λ r. IsAccepted r.machine) }
    ensures refused { IfErr result (Refuses (IsBadMachine bytes.now)) }
{
    if bytes.len() > MOST_MACHINE as usize {
        return Err(Ending::Refused(Refusal::LongMachine));
    }
    match read_machine(alloc, bytes) {
        Ok(read) => Ok(read),
        Err(MachineFault::Rule { rule, place }) => {
            Err(Ending::Refused(Refusal::Broken { rule, place }))
        }
        Err(MachineFault::Mem) => Err(Ending::NoMemory),
    }
}

/// The log of a machine whose text these bytes are.
fn log_of(alloc: Global, machine: &Machine, bytes: &[u8]) -> Result<Log, Ending>
    requires { IsSpelled machine.now }
    ensures text { IfOk result (λ log. text machine.now log ≡ bytes.now) }
    ensures fits { IfOk result (λ log. IsWritable machine.now log) }
    ensures refused { IfErr result (Refuses (IsBadLog machine.now bytes.now)) }
{
    match read_log(alloc, machine, bytes) {
        Ok(log) => Ok(log),
        Err(LogFault::Line(line)) => Err(Ending::Refused(Refusal::BadLine(line))),
        Err(LogFault::Mem) => Err(Ending::NoMemory),
    }
}

/// The machine that the bytes up to their first newline spell, and the log whose text those after it are.
///
/// `LongMachine` if the machine's bytes are more than 16,777,216, `Broken` if they break a rule of the
/// format. `BadLine` if the others are the text of no log that fits the machine. `NoMemory` if it is out of
/// memory.
pub fn read_log_input(alloc: Global, bytes: &[u8]) -> Result<LogInput, Ending>
    ensures read { IfOk result (λ r. IsLogIn bytes.now r.machine r.log) }
    ensures links { IfOk result (λ r. r.links ≡ links_among r.machine) }
    ensures accepted { IfOk result (λ r. IsAccepted r.machine) }
    ensures refused { IfErr result (Refuses (IsBadInput bytes.now)) }
{
    let (file, text) = cut_line(bytes);
    let ReadMachine { machine, links } = machine_of(alloc, file)?;
    match log_of(alloc, &machine, text) {
        Ok(log) => Ok(LogInput {
            machine,
            links,
            log,
        }),
        Err(ending) => {
            drop((machine, links));
            Err(ending)
        }
    }
}
