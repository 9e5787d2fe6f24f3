//! A log's text that is written as it is put together, so that no memory holds it whole.

ghost use Rattle.std.specs.Prelude.{◌≡◌, ◌+◌, ◌≤◌, ◌++◌, [], IfOk, OnErr, OnOk, flat_map, length};
ghost use Rattle.sleep_base.specs.Whole.{WriteAll};
ghost use Rattle.sleep_model.specs.Text.{entry_line, end_text, source_lines, source_names};
ghost use Rattle.log_text.specs.Passing.{Passes};

use crate::writing::line::spell_entry;
use crate::writing::log::{put_end, put_sources};
use crate::writing::ready::ReadyNames;
use crate::writing::writer::{LINE, LineWriter};
use log_words::{ByteBuffer, LineFront};
use sleep_base::{ByteSink, Failed, Mem, drop_for_mem, write_all};
use sleep_model::{Entry, EntryList, Log, LogEnd, Machine, Stats};
use std::alloc::Global;
use std::marker::Model;

/// What the text of a log has besides the lines of its entries, ready to be written.
#[derive(Drop)]
pub struct TextFrame<'a> {
    names: ReadyNames<'a>,
    /// The lines after those of the entries.
    closing: Vec<u8>,
}

impl<'a> Model for TextFrame<'a> {
    ghost use Rattle.log_text.specs.Framed.{Frame};

    ghost Value = { Frame };

    ghost view = { λ f. record { machine = f.names; closing = f.closing.items } };
}

impl<'a> TextFrame<'a> {
    ghost use Rattle.std.specs.Prelude.{◌≡◌, ◌≤◌, ◌++◌, [], IfOk};
    ghost use Rattle.sleep_base.specs.Whole.{WriteAll};
    ghost use Rattle.sleep_model.specs.Text.{end_text, source_lines, source_names};

    /// That of a log of this machine, with these statistics and this end. `Mem` if there is no memory for the
    /// names of the machine, or for the lines after those of the entries.
    pub fn new(
        alloc: Global,
        machine: &'a Machine,
        stats: &[Stats],
        end: &LogEnd,
    ) -> Result<Self, Mem>
        ensures { IfOk result (λ f. f ≡ record {
          machine = machine.now;
          closing = source_lines (source_names machine.now) stats.now ++ end_text machine.now end.now;
        }) }
    {
        let names = ReadyNames::new(alloc, machine)?;
        let Ok(closing) = closing_lines(alloc, &names, stats, end) else {
            return Err(drop_for_mem(names));
        };
        Ok(TextFrame { names, closing })
    }

    /// A stream of lines that has none.
    #[inline(always)]
    pub fn stream(&self) -> LineStream<'_>
        ensures { result ≡ record { machine = self.now.machine; buffered = [] } }
    {
        LineStream {
            names: &self.names,
            buffer: ByteBuffer::new(),
            front: LineFront::start(),
        }
    }

    /// Writes what the stream holds back, and then the lines after those of the entries. `Failed` at the first
    /// write that fails: a front of that was written.
    pub fn finish<K: ByteSink>(
        &self,
        sink: &mut K,
        stream: &mut LineStream<'_>,
    ) -> Result<(), Failed>
        ensures bytes { WriteAll (K.written sink.old) (K.written sink.new) (K.faults sink.old) (K.faults sink.new) (stream.old.buffered ++ self.now.closing) result }
        ensures faults { K.faults sink.old ≤ K.faults sink.new }
    {
        write_last(sink, &mut stream.buffer, self.closing.as_slice())
    }
}

/// Lines on their way to a sink. Contracts see the machine of the lines, and the bytes that are held back.
#[derive(Drop)]
pub struct LineStream<'a> {
    names: &'a ReadyNames<'a>,
    buffer: ByteBuffer,
    front: LineFront,
}

impl<'a> Model for LineStream<'a> {
    ghost use Rattle.log_text.specs.Framed.{Streamed};

    ghost Value = { Streamed };

    ghost view = { λ s. record { machine = s.names.now; buffered = s.buffer } };
}

impl<'a> LineStream<'a> {
    ghost use Rattle.std.specs.Prelude.{◌≡◌, ◌≤◌, ◌++◌, OnErr, OnOk};
    ghost use Rattle.sleep_base.specs.Whole.{WriteAll};
    ghost use Rattle.sleep_model.specs.Text.{entry_line};
    ghost use Rattle.log_text.specs.Passing.{Passes};

    /// Puts the line of an entry after the others. `Failed` at the first write that fails: a front of the
    /// bytes that were held back was written.
    #[inline(always)]
    #[tactic(auto, using(crate::proofs::Passed::passes_line))]
    pub fn put<K: ByteSink>(&mut self, sink: &mut K, entry: Entry) -> Result<(), Failed>
        ensures machine { self.new.machine ≡ self.old.machine }
        ensures passes { OnOk result (Passes (K.written sink.old) (K.written sink.new) (K.faults sink.old) (K.faults sink.new) (self.old.buffered ++ entry_line self.old.machine entry) self.new.buffered) }
        ensures fails { OnErr result (WriteAll (K.written sink.old) (K.written sink.new) (K.faults sink.old) (K.faults sink.new) self.old.buffered result) }
        ensures faults { K.faults sink.old ≤ K.faults sink.new }
    {
        make_room(sink, &mut self.buffer)?;
        self.front.move_to(entry.time, entry.now);
        spell_entry(&mut self.buffer, self.names, &self.front, entry);
        Ok(())
    }
}

/// The text of a log, with all that its writing needs of memory. Contracts see the text.
#[derive(Drop)]
pub struct LogText<'a> {
    frame: TextFrame<'a>,
    entries: &'a EntryList,
}

impl<'a> Model for LogText<'a> {
    ghost use Rattle.std.specs.Prelude.{ℕ, List, ◌++◌, flat_map};
    ghost use Rattle.sleep_model.specs.Text.{entry_line};

    ghost Value = { List ℕ };

    ghost view = { λ t. flat_map (entry_line t.frame.machine) t.entries.now ++ t.frame.closing };
}

impl<'a> LogText<'a> {
    ghost use Rattle.std.specs.Prelude.{◌≡◌, ◌≤◌, IfOk};
    ghost use Rattle.sleep_base.specs.Whole.{WriteAll};
    ghost use Rattle.sleep_model.specs.Text.{text};

    /// The text of the log that this machine made. `Mem` if there is no memory for its names, or for the
    /// lines after those of the entries.
    pub fn new(alloc: Global, machine: &'a Machine, log: &'a Log) -> Result<Self, Mem>
        ensures { IfOk result (λ t. t ≡ text machine.now log.now) }
    {
        let frame = TextFrame::new(alloc, machine, log.stats.as_slice(), &log.end)?;
        Ok(LogText {
            frame,
            entries: &log.entries,
        })
    }

    /// Writes the text, without memory. `Failed` at the first write that fails: a front of the text was
    /// written.
    pub fn write_to<K: ByteSink>(&self, sink: &mut K) -> Result<(), Failed>
        ensures bytes { WriteAll (K.written sink.old) (K.written sink.new) (K.faults sink.old) (K.faults sink.new) self.now result }
        ensures faults { K.faults sink.old ≤ K.faults sink.new }
    {
        write_lines(sink, &self.frame, self.entries)
    }
}

/// The lines after those of the entries: the sources', and the end.
fn closing_lines(
    alloc: Global,
    names: &ReadyNames,
    stats: &[Stats],
    end: &LogEnd,
) -> Result<Vec<u8>, Mem>
    ensures { IfOk result (λ v. v.items ≡ source_lines (source_names names.now) stats.now ++ end_text names.now end.now) }
{
    let mut out = LineWriter::with_room(alloc, 0)?;
    put_sources(&mut out, names.machine(), stats)?;
    put_end(&mut out, names, end)?;
    out.into_vec()
}

/// Writes the buffer.
#[cold]
#[inline(never)]
#[tactic(auto, using(crate::proofs::Passed::passes_all))]
fn pass_on<K: ByteSink>(sink: &mut K, buffer: &mut ByteBuffer) -> Result<(), Failed>
    ensures passes { OnOk result (Passes (K.written sink.old) (K.written sink.new) (K.faults sink.old) (K.faults sink.new) buffer.old buffer.new) }
    ensures none_buffered { OnOk result (buffer.new ≡ []) }
    ensures fails { OnErr result (WriteAll (K.written sink.old) (K.written sink.new) (K.faults sink.old) (K.faults sink.new) buffer.old result) }
    ensures faults { K.faults sink.old ≤ K.faults sink.new }
{
    write_all(sink, buffer.as_bytes())?;
    buffer.clear();
    Ok(())
}

/// Writes the buffer, if there is no room for one more line.
#[tactic(auto, using(crate::proofs::Passed::passes_none))]
#[inline(always)]
fn make_room<K: ByteSink>(sink: &mut K, buffer: &mut ByteBuffer) -> Result<(), Failed>
    ensures passes { OnOk result (Passes (K.written sink.old) (K.written sink.new) (K.faults sink.old) (K.faults sink.new) buffer.old buffer.new) }
    ensures room { OnOk result (length buffer.new + 2048 ≤ 32768) }
    ensures fails { OnErr result (WriteAll (K.written sink.old) (K.written sink.new) (K.faults sink.old) (K.faults sink.new) buffer.old result) }
    ensures faults { K.faults sink.old ≤ K.faults sink.new }
{
    if buffer.left() >= LINE {
        return Ok(());
    }
    pass_on(sink, buffer)
}

/// Writes the buffer and the bytes after it, in one piece if there is room for them.
#[tactic(auto, using(sleep_base::proofs::Written::one_failed, sleep_base::proofs::Written::both_written))]
fn write_last<K: ByteSink>(
    sink: &mut K,
    buffer: &mut ByteBuffer,
    closing: &[u8],
) -> Result<(), Failed>
    ensures bytes { WriteAll (K.written sink.old) (K.written sink.new) (K.faults sink.old) (K.faults sink.new) (buffer.old ++ closing.now) result }
    ensures faults { K.faults sink.old ≤ K.faults sink.new }
{
    if closing.len() <= buffer.left() {
        buffer.put(closing);
        return write_all(sink, buffer.as_bytes());
    }
    write_all(sink, buffer.as_bytes())?;
    write_all(sink, closing)
}

/// Writes a line for each entry, and then those after them.
#[tactic(auto, using(crate::proofs::Passed::taken_first, crate::proofs::Passed::taken_line, crate::proofs::Passed::taken_failed, crate::proofs::Passed::taken_after))]
fn write_lines<K: ByteSink>(
    sink: &mut K,
    frame: &TextFrame,
    entries: &EntryList,
) -> Result<(), Failed>
    ensures bytes { WriteAll (K.written sink.old) (K.written sink.new) (K.faults sink.old) (K.faults sink.new) (flat_map (entry_line frame.now.machine) entries.now ++ frame.now.closing) result }
    ensures faults { K.faults sink.old ≤ K.faults sink.new }
{
    let mut stream = frame.stream();
    let mut reader = entries.reader();
    while let Some(entry) = reader.next() {
        stream.put(sink, entry)?;
    }
    frame.finish(sink, &mut stream)
}
