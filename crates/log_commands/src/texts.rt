//! The text for a log's counts and for the longest chain of devices.

ghost use Rattle.std.specs.Prelude.{◌≡◌, ◌<◌, ◌^◌, ◌++◌, OnOk, IfOk, length};
ghost use Rattle.log_commands.specs.Telling.{chain_row, count_row, counts_text, dev_row, errno_row, failed_dev_row, failed_errno_row, failures_text, level_row, levels_text, names_text, stats_text};

use program_ending::put_count;
use sleep_base::{Errno, Mem};
use sleep_model::Machine;
use sleep_stats::{Chain, Counts, LastDev};
use std::alloc::Global;

/// Puts words and other bytes after a text.
fn put_word(text: &mut Vec<u8>, word: &str, bytes: &[u8]) -> Result<(), Mem>
    ensures { OnOk result (text.new.items ≡ text.old.items ++ (word.now ++ bytes.now)) }
{
    text.extend_from_slice(word.as_bytes())?;
    text.extend_from_slice(bytes)?;
    Ok(())
}

/// Puts two words after a text.
fn put_words(text: &mut Vec<u8>, word: &str, other: &str) -> Result<(), Mem>
    ensures { OnOk result (text.new.items ≡ text.old.items ++ (word.now ++ other.now)) }
{
    put_word(text, word, other.as_bytes())
}

/// Puts a word and a number after a text, in a line.
pub(crate) fn put_row(text: &mut Vec<u8>, word: &str, number: u32) -> Result<(), Mem>
    ensures { OnOk result (text.new.items ≡ text.old.items ++ count_row word.now number) }
{
    put_count(text, word, number as usize)?;
    text.push(b'\n')?;
    Ok(())
}

/// Puts the lines of the counts after a text.
fn put_counts(text: &mut Vec<u8>, counts: &Counts) -> Result<(), Mem>
    ensures { OnOk result (text.new.items ≡ text.old.items ++ counts_text counts.now) }
{
    put_row(text, "success ", counts.success)?;
    put_row(text, "fail ", counts.fail)?;
    put_row(text, "failed_freeze ", counts.failed_freeze)?;
    put_row(text, "failed_prepare ", counts.failed_prepare)?;
    put_row(text, "failed_suspend ", counts.failed_suspend)?;
    put_row(text, "failed_suspend_late ", counts.failed_suspend_late)?;
    put_row(text, "failed_suspend_noirq ", counts.failed_suspend_noirq)?;
    put_row(text, "failed_resume ", counts.failed_resume)?;
    put_row(text, "failed_resume_early ", counts.failed_resume_early)?;
    put_row(text, "failed_resume_noirq ", counts.failed_resume_noirq)
}

/// Puts the line of a device whose callback failed after a text.
fn put_failed_dev(text: &mut Vec<u8>, machine: &Machine, last: LastDev) -> Result<(), Mem>
    ensures { OnOk result (text.new.items ≡ text.old.items ++ failed_dev_row machine.now last) }
{
    put_word(text, "last_failed_dev ", machine.device_name(last.device))?;
    put_words(text, " ", last.phase.name())?;
    put_words(text, " ", last.error.name())?;
    text.push(b'\n')?;
    Ok(())
}

/// Puts the line of a device whose callback failed after a text, if there is one.
fn put_dev(text: &mut Vec<u8>, machine: &Machine, failed: Option<LastDev>) -> Result<(), Mem>
    ensures { OnOk result (text.new.items ≡ text.old.items ++ dev_row machine.now failed) }
{
    match failed {
        Some(last) => put_failed_dev(text, machine, last),
        None => Ok(()),
    }
}

/// Puts the line of an attempt's error after a text.
fn put_failed_errno(text: &mut Vec<u8>, error: Errno) -> Result<(), Mem>
    ensures { OnOk result (text.new.items ≡ text.old.items ++ failed_errno_row error) }
{
    put_words(text, "last_failed_errno ", error.name())?;
    text.push(b'\n')?;
    Ok(())
}

/// Puts the line of an attempt's error after a text, if there is one.
fn put_errno(text: &mut Vec<u8>, failed: Option<Errno>) -> Result<(), Mem>
    ensures { OnOk result (text.new.items ≡ text.old.items ++ errno_row failed) }
{
    match failed {
        Some(error) => put_failed_errno(text, error),
        None => Ok(()),
    }
}

/// Puts the lines of the last failures after a text, the newest first.
fn put_failures(text: &mut Vec<u8>, machine: &Machine, counts: &Counts) -> Result<(), Mem>
    ensures { OnOk result (text.new.items ≡ text.old.items ++ failures_text machine.now counts.now) }
{
    put_dev(text, machine, counts.last_devs.newest)?;
    put_dev(text, machine, counts.last_devs.older)?;
    put_errno(text, counts.last_errnos.newest)?;
    put_errno(text, counts.last_errnos.older)
}

/// Puts the names of devices after a text, each after a space.
fn put_names(text: &mut Vec<u8>, machine: &Machine, devices: &[u32]) -> Result<(), Mem>
    ensures { OnOk result (text.new.items ≡ text.old.items ++ names_text machine.now devices.now) }
{
    for number in devices {
        put_word(text, " ", machine.device_name(*number))?;
    }
    Ok(())
}

/// Puts the line of a chain after a text: its length, and its devices.
fn put_chain(text: &mut Vec<u8>, machine: &Machine, devices: &[u32]) -> Result<(), Mem>
    ensures { OnOk result (text.new.items ≡ text.old.items ++ chain_row machine.now devices.now) }
{
    put_count(text, "chain ", devices.len())?;
    put_names(text, machine, devices)?;
    text.push(b'\n')?;
    Ok(())
}

/// Puts the line of a device's level after a text.
fn put_level(text: &mut Vec<u8>, machine: &Machine, number: u32, level: u32) -> Result<(), Mem>
    ensures { OnOk result (text.new.items ≡ text.old.items ++ level_row machine.now number level) }
{
    put_word(text, "level ", machine.device_name(number))?;
    put_count(text, " ", level as usize)?;
    text.push(b'\n')?;
    Ok(())
}

/// Puts the lines of the levels of all devices after a text.
fn put_levels(text: &mut Vec<u8>, machine: &Machine, levels: &[u32]) -> Result<(), Mem>
    requires { length levels.now < 2 ^ 32 }
    ensures { OnOk result (text.new.items ≡ text.old.items ++ levels_text machine.now 0 levels.now) }
{
    for (number, level) in levels.iter().enumerate() {
        put_level(text, machine, number as u32, *level)?;
    }
    Ok(())
}

/// The text for a machine, for what its log counts, and for a chain. `Mem` if there is no memory for it.
pub fn stats_text(
    alloc: Global,
    machine: &Machine,
    counts: &Counts,
    chain: &Chain,
) -> Result<Vec<u8>, Mem>
    requires { length chain.now.levels < 2 ^ 32 }
    ensures { IfOk result (λ text. text.items ≡ stats_text machine.now counts.now chain.now) }
{
    let mut text = Vec::new(alloc);
    put_counts(&mut text, counts)?;
    put_failures(&mut text, machine, counts)?;
    put_chain(&mut text, machine, chain.devices.as_slice())?;
    put_levels(&mut text, machine, chain.levels.as_slice())?;
    Ok(text)
}
