//! What a call of the program gives.

use sleep_base::{Mem, MemSink, MemSource, drop_for_mem};
use sleep_commands::run_words;
use std::alloc::{AllocError, Global};
use std::sync::Wait;
use std::thread::Threads;
use trial_rows::{
    OPEN, Row, RowEnd, RowGate, Streams, Telling, adler32, last_line, lines, lines_with,
};

/// The streams of a call of the program, in memory.
#[derive(Drop)]
struct CallStreams {
    source: MemSource,
    out: MemSink,
    err: MemSink,
}

/// What a call of the program gave.
#[derive(Drop)]
pub(crate) struct Outcome {
    status: u8,
    ends: CallStreams,
    /// Whether the gate's counters came to what its plan says, if the row names a gate.
    gate: Option<bool>,
}

/// The numbers of calls that fail: this one, if it is one.
fn fails_of(alloc: Global, call: usize) -> Result<Vec<u64>, Mem> {
    let mut fails = Vec::new(alloc);
    if call > 0 {
        fails.push(call as u64)?;
    }
    Ok(fails)
}

/// A source of these bytes.
fn source_of(alloc: Global, input: Vec<u8>, streams: Streams) -> Result<MemSource, Mem> {
    let fails = fails_of(alloc, streams.read_fails)?;
    Ok(MemSource::new(input, streams.chunk.max(1), fails))
}

/// An empty sink.
pub(crate) fn sink_of(
    alloc: Global,
    room: usize,
    chunk: usize,
    fails: usize,
) -> Result<MemSink, Mem> {
    let fails = fails_of(alloc, fails)?;
    MemSink::new(alloc, room, chunk.max(1), fails)
}

impl CallStreams {
    /// The streams over that input.
    fn new(alloc: Global, input: Vec<u8>, streams: Streams) -> Result<Self, Mem> {
        let source = source_of(alloc, input, streams)?;
        let out = sink_of(alloc, streams.room, streams.chunk, streams.write_fails)?;
        let err = sink_of(alloc, 4_096, streams.chunk, streams.error_fails)?;
        Ok(CallStreams { source, out, err })
    }

    /// Runs the program over these streams. Answers its status.
    fn status_of<R: Threads + Wait + Sync>(
        &mut self,
        rt: &R,
        alloc: Global,
        words: &[String],
        gate: &RowGate,
    ) -> u8 {
        run_words(
            rt,
            alloc,
            words,
            &mut self.source,
            &mut self.out,
            &mut self.err,
            gate,
        )
    }
}

impl Outcome {
    /// Runs the program as a row says.
    pub(crate) fn new<R: Threads + Wait + Sync>(
        rt: &R,
        alloc: Global,
        row: Row,
    ) -> Result<Self, Mem> {
        let Row {
            words,
            input,
            streams,
            plan,
            ..
        } = row;
        let mut ends = CallStreams::new(alloc, input, streams)?;
        let gate = RowGate::new(plan.unwrap_or(OPEN));
        let status = ends.status_of(rt, alloc, &words, &gate);
        let is_kept = gate.is_kept();
        drop(words);
        Ok(Outcome {
            status,
            ends,
            gate: plan.map(|_| is_kept),
        })
    }

    /// What it wrote on standard output.
    pub(crate) fn out(&self) -> &[u8] {
        self.ends.out.bytes()
    }

    /// What it wrote on standard error.
    fn err(&self) -> &[u8] {
        self.ends.err.bytes()
    }

    /// What is told of its output by a line.
    fn told(&self, alloc: Global, telling: Telling) -> Result<String, AllocError> {
        let (out, err) = (self.out(), self.err().len());
        match telling {
            Telling::Lines | Telling::Rerun => {
                let lines = lines(out);
                format!(in alloc; "lines {lines} err {err}\n")
            }
            Telling::Steps => {
                let (hard, wake) = (lines_with(out, " hard"), lines_with(out, " wake"));
                format!(in alloc; "hard {hard} wake {wake} err {err}\n")
            }
            Telling::Sums => {
                let (size, sum) = (out.len(), adler32(out));
                format!(in alloc; "out {size} adler32 {sum} err {err}\n")
            }
            _ => {
                let size = out.len();
                format!(in alloc; "out {size} err {err}\n")
            }
        }
    }

    /// What is shown of its output.
    fn shown(&self, telling: Telling) -> &[u8] {
        match telling {
            Telling::Lines | Telling::Rerun => last_line(self.out()),
            Telling::Steps | Telling::Sums => b"",
            _ => self.out(),
        }
    }

    /// What is told of the gate.
    fn gate_line(&self) -> &[u8] {
        match self.gate {
            None => b"",
            Some(true) => b"gate passed\n",
            Some(false) => b"gate failed\n",
        }
    }

    /// The line of a row before its texts.
    fn head(&self, alloc: Global, end: RowEnd) -> Result<String, Mem> {
        let (number, status) = (end.number, self.status);
        let left = self.ends.source.left().len();
        let told = self.told(alloc, end.telling)?;
        let head = format!(in alloc; "row {number} status {status} left {left} {told}");
        drop(told);
        Ok(head?)
    }

    /// Puts the texts of the row after its line.
    fn add_texts(&self, text: &mut Vec<u8>, telling: Telling) -> Result<(), Mem> {
        text.extend_from_slice(self.shown(telling))?;
        text.extend_from_slice(self.err())?;
        text.push(b'\n')?;
        Ok(text.extend_from_slice(self.gate_line())?)
    }

    /// The report of the row of that number.
    pub(crate) fn report(&self, alloc: Global, end: RowEnd) -> Result<Vec<u8>, Mem> {
        let mut text = self.head(alloc, end)?.into_bytes();
        match self.add_texts(&mut text, end.telling) {
            Ok(()) => Ok(text),
            Err(_) => Err(drop_for_mem(text)),
        }
    }
}
