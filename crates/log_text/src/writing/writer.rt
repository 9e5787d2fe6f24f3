//! A writer of lines into one buffer.
ghost use Rattle.std.specs.Prelude.{◌≡◌, ◌+◌, ◌≤◌, ◌++◌, [], OnOk, codes, length};
ghost use Rattle.sleep_model.specs.Text.{body, entry_line, newline, source_line, waiting_line};

use crate::writing::body::put_body;
use crate::writing::line::{spell_entry, spell_source, spell_waiting};
use crate::writing::put::put;
use crate::writing::ready::{LONGEST, ReadyNames};
use log_words::{ByteBuffer, FINISHED, LineFront, Spelled};
use sleep_base::Mem;
use sleep_model::{Entry, Kind, Stats, Waiting};
use std::alloc::Global;
use std::marker::Model;

/// The room in which any line is put together.
pub const LINE: usize = 2048;

/// Lines that are written one after the other, and that contracts see as the list of their bytes. The last
/// ones are in a buffer, in which a line takes no memory.
#[derive(Drop)]
pub struct LineWriter {
    bytes: Vec<u8>,
    buffer: ByteBuffer,
}

impl Model for LineWriter {
    ghost use Rattle.std.specs.Prelude.{ℕ, List, ◌++◌};

    ghost Value = { List ℕ };

    ghost view = { λ w. w.bytes.items ++ w.buffer };
}

/// Puts the bytes of the buffer after the others.
#[cold]
#[inline(never)]
fn pass_on(bytes: &mut Vec<u8>, buffer: &mut ByteBuffer) -> Result<(), Mem>
    ensures joined { OnOk result (bytes.new.items ≡ bytes.old.items ++ buffer.old) }
    ensures none_buffered { OnOk result (buffer.new ≡ []) }
{
    bytes.extend_from_slice(buffer.as_bytes())?;
    buffer.clear();
    Ok(())
}

/// Makes room for one more line.
#[inline(always)]
fn make_room(bytes: &mut Vec<u8>, buffer: &mut ByteBuffer) -> Result<(), Mem>
    ensures joined { OnOk result (bytes.new.items ++ buffer.new ≡ bytes.old.items ++ buffer.old) }
    ensures room { OnOk result (length buffer.new + 2048 ≤ 32768) }
{
    if buffer.left() < LINE {
        pass_on(bytes, buffer)?;
    }
    Ok(())
}

impl LineWriter {
    ghost use Rattle.std.specs.Prelude.{◌≡◌, ◌++◌, ◌∷◌, [], OnOk, IfOk};
    ghost use Rattle.std.specs.Str.{bytes_eq};

    /// A writer that has written nothing, with room for that number of bytes.
    pub fn with_room(alloc: Global, room: usize) -> Result<Self, Mem>
        ensures { IfOk result (λ w. w ≡ []) }
    {
        let bytes = Vec::with_capacity(alloc, room)?;
        Ok(LineWriter {
            bytes,
            buffer: ByteBuffer::new(),
        })
    }

    /// Forgets what was written.
    pub fn clear(&mut self)
        ensures { self.new ≡ [] }
    {
        self.bytes.clear();
        self.buffer.clear();
    }

    /// Whether just these bytes were written.
    pub fn is(&mut self, bytes: &[u8]) -> Result<bool, Mem>
        ensures { IfOk result (λ b. b ≡ bytes_eq self.old bytes.now) }
    {
        if self.bytes.is_empty() {
            return Ok(self.buffer.as_bytes() == bytes);
        }
        pass_on(&mut self.bytes, &mut self.buffer)?;
        Ok(self.bytes.as_slice() == bytes)
    }

    /// All that was written.
    pub fn into_vec(self) -> Result<Vec<u8>, Mem>
        ensures { IfOk result (λ v. v.items ≡ self) }
    {
        let LineWriter { bytes, buffer } = self;
        let mut all = bytes;
        all.extend_from_slice(buffer.as_bytes())?;
        Ok(all)
    }
}

/// Writes the line of an entry, whose front is given.
#[inline(always)]
pub fn put_entry(
    out: &mut LineWriter,
    names: &ReadyNames,
    front: &LineFront,
    entry: Entry,
) -> Result<(), Mem>
    requires time { front.now.time ≡ entry.time }
    requires word { front.now.word ≡ entry.now }
    ensures { OnOk result (out.new ≡ out.old ++ entry_line names.now entry) }
{
    make_room(&mut out.bytes, &mut out.buffer)?;
    spell_entry(&mut out.buffer, names, front, entry);
    Ok(())
}

/// Writes what an entry says, to the end of its line.
pub fn put_entry_text(out: &mut LineWriter, names: &ReadyNames, kind: Kind) -> Result<(), Mem>
    ensures { OnOk result (out.new ≡ out.old ++ (body names.now kind ++ newline)) }
{
    make_room(&mut out.bytes, &mut out.buffer)?;
    let buffer = &mut out.buffer;
    put_body(buffer, names, kind);
    put!(buffer; "\n");
    Ok(())
}

/// Writes the line of a wakeup source. `Mem` also if the name has more bytes than a name may have.
pub fn put_source(out: &mut LineWriter, name: &[u8], stats: &Stats) -> Result<(), Mem>
    ensures { OnOk result (out.new ≡ out.old ++ source_line name.now stats.now) }
{
    if name.len() > LONGEST {
        return Err(Mem);
    }
    make_room(&mut out.bytes, &mut out.buffer)?;
    spell_source(&mut out.buffer, name, stats);
    Ok(())
}

/// Writes the line of a script that never exits.
pub fn put_waiting(out: &mut LineWriter, names: &ReadyNames, waiting: &Waiting) -> Result<(), Mem>
    ensures { OnOk result (out.new ≡ out.old ++ waiting_line names.now waiting.now) }
{
    make_room(&mut out.bytes, &mut out.buffer)?;
    spell_waiting(&mut out.buffer, names, waiting);
    Ok(())
}

/// Writes that nothing was left to do.
pub fn put_finished(out: &mut LineWriter) -> Result<(), Mem>
    ensures { OnOk result (out.new ≡ out.old ++ (codes "finished" ++ newline)) }
{
    make_room(&mut out.bytes, &mut out.buffer)?;
    let buffer = &mut out.buffer;
    put!(buffer; FINISHED);
    Ok(())
}
