//! The text of a log of suspend-to-idle, a line for each entry.

ghost use Rattle.std.specs.Prelude.{◌≡◌, ◌++◌, IfOk, OnOk, decimal, flat_map};
ghost use Rattle.idle_commands.specs.Lines.{end_line, idle_line, log_text, what_text, who_text};

use idle_loop::{IdleEntry, IdleKind, IdleLog};
use itoa::Buffer;
use std::alloc::{AllocError, Global};

/// What an entry's maker did, as its line ends.
fn what_text(what: IdleKind) -> &'static str
    ensures { result.now ≡ what_text what }
{
    match what {
        IdleKind::Hard => " hard\n",
        IdleKind::Begin => " begin\n",
        IdleKind::Wake => " wake\n",
        IdleKind::TryOk => " try ok\n",
        IdleKind::TryBusy => " try busy\n",
        IdleKind::Leave => " leave\n",
    }
}

/// Puts a text after others.
fn push_text(out: &mut Vec<u8>, text: &str) -> Result<(), AllocError>
    ensures { OnOk result (out.new.items ≡ out.old.items ++ text.now) }
{
    out.extend_from_slice(text.as_bytes())
}

/// Puts a number after others.
fn push_number(out: &mut Vec<u8>, number: u32) -> Result<(), AllocError>
    ensures { OnOk result (out.new.items ≡ out.old.items ++ decimal number) }
{
    let mut digits = Buffer::new();
    push_text(out, digits.format(number))
}

/// Puts who made an entry: a waker with its number, or the idler, whose number is that of the wakers.
fn push_who(out: &mut Vec<u8>, wakers: u32, who: u32) -> Result<(), AllocError>
    ensures { OnOk result (out.new.items ≡ out.old.items ++ who_text wakers who) }
{
    if who == wakers {
        return push_text(out, " idle");
    }
    push_text(out, " waker:")?;
    push_number(out, who)
}

/// Puts the line of an entry.
fn push_line(out: &mut Vec<u8>, wakers: u32, entry: IdleEntry) -> Result<(), AllocError>
    ensures { OnOk result (out.new.items ≡ out.old.items ++ idle_line wakers entry) }
{
    push_number(out, entry.hard)?;
    push_who(out, wakers, entry.who)?;
    push_text(out, what_text(entry.what))
}

/// Puts the lines of entries, the oldest first.
fn push_lines(out: &mut Vec<u8>, wakers: u32, entries: &[IdleEntry]) -> Result<(), AllocError>
    ensures { OnOk result (out.new.items ≡ out.old.items ++ flat_map (idle_line wakers) entries.now) }
{
    for entry in entries {
        push_line(out, wakers, *entry)?;
    }
    Ok(())
}

/// The last line.
fn end_line(idle: bool) -> &'static str
    ensures { result.now ≡ end_line idle }
{
    if idle { "end idle\n" } else { "end over\n" }
}

/// The text of a log: a line for each entry, the oldest first, and one for the end.
pub(crate) fn log_text(alloc: Global, wakers: u32, log: &IdleLog) -> Result<Vec<u8>, AllocError>
    ensures { IfOk result (λ text. text.items ≡ log_text wakers log.now) }
{
    let mut text = Vec::new(alloc);
    push_lines(&mut text, wakers, &log.entries)?;
    push_text(&mut text, end_line(log.idle))?;
    Ok(text)
}
