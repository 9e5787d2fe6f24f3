//! The statistics of a log.

ghost use Rattle.std.specs.Prelude.{◌≡◌, IfErr, IfOk};
ghost use Rattle.sleep_model.specs.Accepted.{IsAccepted};
ghost use Rattle.sleep_model.specs.Fits.{IsWritable};
ghost use Rattle.sleep_model.specs.Order.{parents_of};
ghost use Rattle.device_links.specs.Passes.{CanBeAdded};
ghost use Rattle.machine_file.specs.Reading.{links_among};
ghost use Rattle.sleep_stats.specs.Linked.{added_links};
ghost use Rattle.program_ending.specs.declared.ending.Ending.TheVariants.{NoMemory};
ghost use Rattle.program_ending.specs.CommandEndings.{Refuses};
ghost use Rattle.log_commands.specs.Stats.{IsBadLink, IsTextOfGood, IsStatsOf, IsTextOf, RefusesStats};

use crate::input::{LogInput, read_log_input};
use crate::links::take_links;
use crate::texts::stats_text;
use device_links::Links;
use program_ending::Ending;
use sleep_model::{Log, Machine};
use sleep_stats::{count, longest};
use std::alloc::Global;

/// The text for a machine and its log. `NoMemory` if it is out of memory, or if the log has more entries than
/// have numbers.
fn text_of_log(alloc: Global, machine: &Machine, log: &Log) -> Result<Vec<u8>, Ending>
    requires accepted { IsAccepted machine.now }
    requires stand { CanBeAdded (parents_of machine.now.devices) (added_links machine.now log.now) }
    ensures outcome { IfOk result (λ shown_text. IsTextOf machine.now log.now shown_text.items) }
    ensures memory { IfErr result (λ ending. ending ≡ NoMemory) }
{
    if log.entries.len() > u32::MAX as usize {
        return Err(Ending::NoMemory);
    }
    let counts = count(log);
    let Ok(chain) = longest(alloc, machine, log) else {
        return Err(Ending::NoMemory);
    };
    match stats_text(alloc, machine, &counts, &chain) {
        Ok(text) => Ok(text),
        Err(_) => Err(Ending::NoMemory),
    }
}

/// The text for a machine and its log, once the links that the log adds were tried after the machine's.
fn text_if_linked(
    alloc: Global,
    machine: &Machine,
    links: Links,
    log: &Log,
) -> Result<Vec<u8>, Ending>
    requires accepted { IsAccepted machine.now }
    requires links { links ≡ links_among machine.now }
    requires fits { IsWritable machine.now log.now }
    ensures outcome { IfOk result (λ shown_text. IsTextOfGood machine.now log.now shown_text.items) }
    ensures refused { IfErr result (Refuses (IsBadLink machine.now log.now)) }
{
    match take_links(links, log) {
        Ok(()) => text_of_log(alloc, machine, log),
        Err(ending) => Err(ending),
    }
}

/// The text for the machine and the log in these bytes: what the log counts of its attempts, its last
/// failures, the longest chain of devices at its end, and each device's level.
///
/// Refused in turn: the machine, the log (`read_log_input`), and a link that the log adds after 4,000 others
/// (`TooManyLinks`) or that closes a cycle (`LinkCycle`). `NoMemory` if it is out of memory.
pub fn stats_of(alloc: Global, bytes: &[u8]) -> Result<Vec<u8>, Ending>
    ensures outcome { IfOk result (λ shown_text. IsStatsOf bytes.now shown_text.items) }
    ensures refused { IfErr result (Refuses (RefusesStats bytes.now)) }
{
    match read_log_input(alloc, bytes) {
        Ok(
            LogInput {
                machine,
                links,
                log,
            },
        ) => {
            let outcome = text_if_linked(alloc, &machine, links, &log);
            drop((machine, log));
            outcome
        }
        Err(ending) => Err(ending),
    }
}
