//! Bytes in and out: `source CHUNK FAILS TEXT`, `sink ROOM CHUNK FAILS`, a reader and a writer of std as
//! streams, and each call that reads or writes all: `whole`. A `FAILS` is the number of a call that fails.

use crate::asked::{Words, after};
use crate::parts::CaseRunner;
use crate::reply::{CaseReply, Out, ReplyWord};
use sleep_base::{
    ByteSink, ByteSource, Failed, Mem, MemSink, MemSource, ReadStop, StdSink, StdSource, read_all,
    write_all,
};
use std::alloc::Global;

/// A source of the text after two words that gives at most so many bytes a call. The call of the second word
/// fails.
pub fn source_of(alloc: Global, text: &str, chunk: u32) -> Result<MemSource, Mem> {
    let fails = vec![in alloc; Words::of(text).long(1)]?;
    let bytes = after(text, 2).as_bytes().to_vec(alloc)?;
    Ok(MemSource::new(bytes, (chunk as usize).max(1), fails))
}

/// A sink with that room which takes at most so many bytes a call. One call fails.
pub fn sink_of(alloc: Global, room: u32, chunk: u32, fail: u64) -> Result<MemSink, Mem> {
    let fails = vec![in alloc; fail]?;
    MemSink::new(alloc, room as usize, (chunk as usize).max(1), fails)
}

/// A question to a source.
#[derive(Clone, Copy)]
pub enum SourceCall {
    Read,
    Left,
    Faults,
}

/// The verb of each call.
pub const SOURCE_CALLS: [(&str, SourceCall); 3] = [
    ("read", SourceCall::Read),
    ("left", SourceCall::Left),
    ("faults", SourceCall::Faults),
];

/// Says the bytes that a read of eight gives.
fn say_read(source: &mut MemSource, out: &mut Out) -> CaseReply {
    let mut buf = [0; 8];
    match source.read(&mut buf) {
        Ok(count) => out.line(buf.get(..count).unwrap_or_default()),
        Err(Failed) => out.line(b"failed"),
    }
}

impl CaseRunner<SourceCall> for MemSource {
    /// Answers a line about a source.
    fn answer(&mut self, call: SourceCall, _rest: &str, out: &mut Out) -> CaseReply {
        CaseReply::One(match call {
            SourceCall::Read => return say_read(self, out),
            SourceCall::Left => ReplyWord::Size(self.left().len()),
            SourceCall::Faults => ReplyWord::Long(self.faults()),
        })
    }
}

/// A call on a sink.
#[derive(Clone, Copy)]
pub enum SinkCall {
    Write,
    Bytes,
    Faults,
}

/// The verb of each call.
pub const SINK_CALLS: [(&str, SinkCall); 3] = [
    ("write", SinkCall::Write),
    ("bytes", SinkCall::Bytes),
    ("faults", SinkCall::Faults),
];

/// Says how many bytes of a text a sink takes.
fn say_write(sink: &mut MemSink, text: &str, out: &mut Out) -> CaseReply {
    if text.is_empty() {
        return out.lack();
    }
    match sink.write(text.as_bytes()) {
        Ok(count) => CaseReply::One(ReplyWord::Size(count)),
        Err(Failed) => out.line(b"failed"),
    }
}

impl CaseRunner<SinkCall> for MemSink {
    /// Answers a line about a sink.
    fn answer(&mut self, call: SinkCall, rest: &str, out: &mut Out) -> CaseReply {
        match call {
            SinkCall::Write => say_write(self, rest, out),
            SinkCall::Bytes => out.line(self.bytes()),
            SinkCall::Faults => CaseReply::One(ReplyWord::Long(self.faults())),
        }
    }
}

/// Calls that read or write all, three bytes a call: `read LIMIT FAILS TEXT`, `write ROOM FAILS TEXT`. Of a
/// reader and a writer of std, `reader TEXT` and `writer TEXT`.
#[derive(Clone, Copy)]
pub enum WholeCall {
    Read,
    Write,
    Reader,
    Writer,
}

/// The verb of each call.
pub const WHOLE_CALLS: [(&str, WholeCall); 4] = [
    ("read", WholeCall::Read),
    ("write", WholeCall::Write),
    ("reader", WholeCall::Reader),
    ("writer", WholeCall::Writer),
];

/// Says what is read of a source up to a limit.
fn say_all(alloc: Global, source: &mut MemSource, limit: u32, out: &mut Out) -> CaseReply {
    match read_all(alloc, source, limit) {
        Ok(bytes) => {
            out.put(b"all ");
            out.line(&bytes)
        }
        Err(ReadStop::TooLong) => out.line(b"too long"),
        Err(ReadStop::Fault) => out.line(b"fault"),
        Err(ReadStop::Mem) => out.lack(),
    }
}

/// Writes all of a text to a sink, and says what was written.
fn say_written(sink: &mut MemSink, text: &str, out: &mut Out) -> CaseReply {
    let is_done = write_all(sink, text.as_bytes()).is_ok();
    out.put(if is_done { b"done " } else { b"failed " });
    out.line(sink.bytes())
}

/// Reads all of a text, or writes it.
fn say_whole(alloc: Global, is_read: bool, text: &str, out: &mut Out) -> Result<CaseReply, Mem> {
    let words = Words::of(text);
    if is_read {
        let mut source = source_of(alloc, text, 3)?;
        return Ok(say_all(alloc, &mut source, words.number(0), out));
    }
    let mut sink = sink_of(alloc, words.number(0), 3, words.long(1))?;
    Ok(say_written(&mut sink, after(text, 2), out))
}

/// Says how many bytes each of three reads of two gives, and how many failed.
fn say_reader(text: &str, out: &mut Out) -> CaseReply {
    let mut source = StdSource::new(text.as_bytes());
    for _ in 0..3 {
        let mut buf = [0; 2];
        let count = source.read(&mut buf).unwrap_or(9);
        out.say(CaseReply::One(ReplyWord::Size(count)));
    }
    CaseReply::One(ReplyWord::Long(source.faults()))
}

/// Says whether a writer with room for two bytes takes all of a text, and how many writes failed.
fn say_writer(text: &str, out: &mut Out) -> CaseReply {
    let mut buf = [0; 2];
    let mut sink = StdSink::new(&mut buf[..]);
    let is_done = write_all(&mut sink, text.as_bytes()).is_ok();
    out.say(CaseReply::One(ReplyWord::Flag(is_done)));
    CaseReply::One(ReplyWord::Long(sink.faults()))
}

impl CaseRunner<WholeCall> for Global {
    /// Makes a call that reads or writes all.
    fn answer(&mut self, call: WholeCall, rest: &str, out: &mut Out) -> CaseReply {
        let is_read = match call {
            WholeCall::Read => true,
            WholeCall::Write => false,
            WholeCall::Reader => return say_reader(rest, out),
            WholeCall::Writer => return say_writer(rest, out),
        };
        match say_whole(*self, is_read, rest, out) {
            Ok(reply) => reply,
            Err(_) => out.lack(),
        }
    }
}
