//! The line of a source's statistics in a log.
ghost use Rattle.std.specs.Prelude.{◌≡◌, ◌++◌, ◌∷◌, OnOk, IfOk, decimal, string_bytes};
ghost use Rattle.std.specs.Str.{IsUtf8};
ghost use Rattle.sleep_model.specs.Text.{source_line, counts_text, times_text, space};

use itoa::Buffer;
use sleep_base::Mem;
use sleep_model::{Name, Stats};
use std::alloc::{AllocError, Global};
use std::str::from_utf8;

/// Writes a number after a space.
fn push_number(line: &mut String, number: u64) -> Result<(), AllocError>
    ensures { OnOk result (string_bytes line.new ≡ string_bytes line.old ++ (space ++ decimal number)) }
{
    let mut digits = Buffer::new();
    line.push_str(" ")?;
    line.push_str(digits.format(number))
}

/// Writes the three counts.
fn push_counts(line: &mut String, stats: &Stats) -> Result<(), AllocError>
    ensures { OnOk result (string_bytes line.new ≡ string_bytes line.old ++ counts_text stats.now) }
{
    push_number(line, u64::from(stats.active_count))?;
    push_number(line, u64::from(stats.event_count))?;
    push_number(line, u64::from(stats.expire_count))
}

/// Writes the four times.
fn push_times(line: &mut String, stats: &Stats) -> Result<(), AllocError>
    ensures { OnOk result (string_bytes line.new ≡ string_bytes line.old ++ times_text stats.now) }
{
    push_number(line, stats.active_time)?;
    push_number(line, stats.total_time)?;
    push_number(line, stats.max_time)?;
    push_number(line, stats.last_time)
}

/// The line of a source in a log (`print_wakeup_source_stats`): its name, which is text, its three counts and
/// its four times in ms, with a newline. `Mem` if there is no memory. It is for a caller that prints one
/// source only: a log's lines are put together without memory.
pub fn stats_line(alloc: Global, name: &Name, stats: &Stats) -> Result<String, Mem>
    requires { IsUtf8 name.now }
    ensures { IfOk result (λ line. string_bytes line ≡ source_line name.now stats.now) }
{
    let name = match from_utf8(name.bytes()) {
        Ok(text) => text,
        Err(_) => unreachable!(),
    };
    let mut line = String::from_str(alloc, "source ")?;
    line.push_str(name)?;
    push_counts(&mut line, stats)?;
    push_times(&mut line, stats)?;
    line.push_str("\n")?;
    Ok(line)
}
