//! The pieces of the text of answers.

ghost use Rattle.std.specs.Prelude.{◌≡◌, ◌++◌, ◌∷◌, [], OnOk, decimal, flat_map};
ghost use Rattle.sleep_model.specs.Text.{counts_text, source_line, times_text, space};
ghost use Rattle.lock_commands.specs.Answers.{answer_text, counted_line, names_line, spaced};

use itoa::Buffer;
use sleep_model::{Name, Stats};
use std::alloc::AllocError;
use wake_locks::{LockAnswer, LockStats};

/// What a write answers, as a line: 0, or the error's name.
pub(crate) fn answer_text(answer: LockAnswer) -> &'static str
    ensures { result.now ≡ answer_text answer }
{
    match answer {
        LockAnswer::Done => "0\n",
        LockAnswer::BadText => "EINVAL\n",
        LockAnswer::NoSpace => "ENOSPC\n",
    }
}

/// Puts a text after others.
pub(crate) fn push_text(out: &mut Vec<u8>, text: &str) -> Result<(), AllocError>
    ensures { OnOk result (out.new.items ≡ out.old.items ++ text.now) }
{
    out.extend_from_slice(text.as_bytes())
}

/// Puts a byte after others.
fn push_byte(out: &mut Vec<u8>, byte: u8) -> Result<(), AllocError>
    ensures { OnOk result (out.new.items ≡ out.old.items ++ (byte ∷ [])) }
{
    out.push(byte)?;
    Ok(())
}

/// Puts a number after others, after a space.
fn push_number(out: &mut Vec<u8>, number: u64) -> Result<(), AllocError>
    ensures { OnOk result (out.new.items ≡ out.old.items ++ (space ++ decimal number)) }
{
    let mut digits = Buffer::new();
    push_text(out, " ")?;
    push_text(out, digits.format(number))
}

/// Puts the three counts.
fn push_counts(out: &mut Vec<u8>, stats: &Stats) -> Result<(), AllocError>
    ensures { OnOk result (out.new.items ≡ out.old.items ++ counts_text stats.now) }
{
    push_number(out, u64::from(stats.active_count))?;
    push_number(out, u64::from(stats.event_count))?;
    push_number(out, u64::from(stats.expire_count))
}

/// Puts the four times.
fn push_times(out: &mut Vec<u8>, stats: &Stats) -> Result<(), AllocError>
    ensures { OnOk result (out.new.items ≡ out.old.items ++ times_text stats.now) }
{
    push_number(out, stats.active_time)?;
    push_number(out, stats.total_time)?;
    push_number(out, stats.max_time)?;
    push_number(out, stats.last_time)
}

/// Puts the line of a source (`print_wakeup_source_stats`).
fn push_source(out: &mut Vec<u8>, name: &Name, stats: &Stats) -> Result<(), AllocError>
    ensures { OnOk result (out.new.items ≡ out.old.items ++ source_line name.now stats.now) }
{
    push_text(out, "source ")?;
    out.extend_from_slice(name.bytes())?;
    push_counts(out, stats)?;
    push_times(out, stats)?;
    push_text(out, "\n")
}

/// Puts a line for each lock's source.
pub(crate) fn push_sources(out: &mut Vec<u8>, all: &[LockStats]) -> Result<(), AllocError>
    ensures { OnOk result (out.new.items ≡ out.old.items ++ flat_map counted_line all.now) }
{
    for lock in all {
        push_source(out, &lock.name, &lock.stats)?;
    }
    Ok(())
}

/// Puts each name after a space.
fn push_spaced(out: &mut Vec<u8>, names: &[Name]) -> Result<(), AllocError>
    ensures { OnOk result (out.new.items ≡ out.old.items ++ flat_map spaced names.now) }
{
    for name in names {
        push_byte(out, b' ')?;
        out.extend_from_slice(name.bytes())?;
    }
    Ok(())
}

/// Puts the line of these names, with its word before them (`pm_show_wakelocks`).
pub(crate) fn push_names(out: &mut Vec<u8>, word: &str, names: &[Name]) -> Result<(), AllocError>
    ensures { OnOk result (out.new.items ≡ out.old.items ++ names_line word.now names.now) }
{
    push_text(out, word)?;
    push_spaced(out, names)?;
    push_byte(out, b'\n')
}
