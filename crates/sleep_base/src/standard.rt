//! Standard input, output and error as a source and sinks with counted faults.
ghost use Rattle.std.specs.Prelude.{◌≡◌};
ghost use Rattle.sleep_base.specs.Streams.{IsOutput, IsError};

use crate::{ByteSink, ByteSource, Failed};
use std::io;
use std::io::{Read, Stderr, Stdin, Stdout, Write};

/// A reader as a source, standard input unless it says otherwise. Each error of the reader is a fault.
#[derive(Drop)]
pub struct StdSource<R = Stdin> {
    reader: R,
    faults: u64,
}

impl StdSource<Stdin> {
    /// Standard input, whose bytes no contract knows.
    pub fn input(rt: &HostRuntime) -> Self
        ensures { ⟦<StdSource<Stdin> as ByteSource>⟧.faults result ≡ 0 }
    {
        StdSource::new(rt.stdin())
    }
}

impl<R: Read> StdSource<R> {
    /// What the reader has left, with no fault so far.
    pub fn new(reader: R) -> Self
        ensures left { ⟦<StdSource<R> as ByteSource>⟧.left result ≡ R.remaining reader }
        ensures faults { ⟦<StdSource<R> as ByteSource>⟧.faults result ≡ 0 }
        ensures reader { result.reader ≡ reader }
    {
        StdSource { reader, faults: 0 }
    }

    /// How many reads have failed.
    pub fn faults(&self) -> u64
        ensures { result ≡ ⟦<StdSource<R> as ByteSource>⟧.faults self.now }
    {
        self.faults
    }
}

impl<R: Read> ByteSource for StdSource<R> {
    ghost left = { λ s. R.remaining s.reader };

    ghost faults = { λ s. s.faults };

    /// Reads once, and counts a read that fails.
    fn read(&mut self, buf: &mut [u8]) -> Result<usize, Failed> {
        match self.reader.read(buf) {
            Ok(n) => Ok(n),
            Err(_) => {
                self.faults = self.faults.saturating_add(1);
                Err(Failed)
            }
        }
    }
}

/// Standard output or standard error, as one type.
#[derive(Drop)]
pub enum Stream {
    /// Standard output.
    Output(Stdout),
    /// Standard error.
    Error(Stderr),
}

impl Write for Stream {
    /// Writes to standard output or standard error.
    fn write(&mut self, piece: &[u8]) -> io::Result<usize> {
        match self {
            Stream::Output(stdout) => stdout.write(piece),
            Stream::Error(stderr) => stderr.write(piece),
        }
    }

    fn flush(&mut self) -> io::Result<()> {
        Ok(())
    }
}

/// A writer as a sink, standard output or standard error unless it says otherwise. Each error of
/// the writer is a fault, and so is a write that takes no byte.
#[derive(Drop)]
pub struct StdSink<W = Stream> {
    writer: W,
    faults: u64,
}

impl StdSink<Stream> {
    /// Standard output.
    pub fn output(rt: &HostRuntime) -> Self
        ensures stream { IsOutput result.writer }
        ensures faults { ⟦<StdSink<Stream> as ByteSink>⟧.faults result ≡ 0 }
    {
        StdSink::new(Stream::Output(rt.stdout()))
    }

    /// Standard error.
    pub fn error(rt: &HostRuntime) -> Self
        ensures stream { IsError result.writer }
        ensures faults { ⟦<StdSink<Stream> as ByteSink>⟧.faults result ≡ 0 }
    {
        StdSink::new(Stream::Error(rt.stderr()))
    }
}

impl<W: Write> StdSink<W> {
    /// What the writer holds, with no fault so far.
    pub fn new(writer: W) -> Self
        ensures written { ⟦<StdSink<W> as ByteSink>⟧.written result ≡ W.contents writer }
        ensures faults { ⟦<StdSink<W> as ByteSink>⟧.faults result ≡ 0 }
        ensures writer { result.writer ≡ writer }
    {
        StdSink { writer, faults: 0 }
    }

    /// How many writes have failed.
    pub fn faults(&self) -> u64
        ensures { result ≡ ⟦<StdSink<W> as ByteSink>⟧.faults self.now }
    {
        self.faults
    }
}

impl<W: Write> ByteSink for StdSink<W> {
    ghost written = { λ s. W.contents s.writer };

    ghost faults = { λ s. s.faults };

    /// Writes once, and counts a write that fails or takes no byte.
    fn write(&mut self, piece: &[u8]) -> Result<usize, Failed> {
        match self.writer.write(piece) {
            Ok(n) if n > 0 => Ok(n),
            _ => {
                self.faults = self.faults.saturating_add(1);
                Err(Failed)
            }
        }
    }
}
