//! A source and a sink of bytes in memory, which can be told to fail.
ghost use Rattle.std.specs.Prelude.{◌≡◌, ◌<◌, ◌≤◌, ◌-◌, ◌↔◌, ◌⊎◌, Some, IfOk, IsErr, [], length, drop, min, vec_len, vec_capacity};
ghost use Rattle.std.specs.Io.{ReadsAtMost};
ghost use Rattle.std.specs.Io.KnownBytes.{ReadConsumes, WriteAppends};
ghost use Rattle.sleep_base.specs.Faults.{HasCause};
ghost use Rattle.sleep_base.specs.Calls.{next_call, FailsNext};

use crate::{ByteSink, ByteSource, Failed, Mem};
use std::alloc::Global;

/// A source in memory, for tests and for input that is there already.
#[derive(Drop)]
pub struct MemSource {
    bytes: Vec<u8>,
    at: usize,
    chunk: usize,
    fails: Vec<u64>,
    calls: u64,
    faults: u64,
    ghost within: { at ≤ vec_len bytes },
    ghost moves: { 1 ≤ chunk },
}

impl MemSource {
    /// A source of these bytes that gives at most `chunk` of them, 1 or more, a call. The calls whose
    /// numbers, from 1, are in `fails` fail.
    pub fn new(bytes: Vec<u8>, chunk: usize, fails: Vec<u64>) -> MemSource
        requires { 1 ≤ chunk }
        ensures left { ⟦<MemSource as ByteSource>⟧.left result ≡ Some bytes.items }
        ensures faults { ⟦<MemSource as ByteSource>⟧.faults result ≡ 0 }
        ensures plan { (result.chunk ≡ chunk) × (result.fails ≡ fails) × (result.calls ≡ 0) }
    {
        MemSource {
            bytes,
            at: 0,
            chunk,
            fails,
            calls: 0,
            faults: 0,
        }
    }

    /// The bytes that were not read yet.
    pub fn left(&self) -> &[u8]
        ensures { ⟦<MemSource as ByteSource>⟧.left self.now ≡ Some result.now }
    {
        &self.bytes[self.at..]
    }

    /// How many reads have failed.
    pub fn faults(&self) -> u64
        ensures { result ≡ ⟦<MemSource as ByteSource>⟧.faults self.now }
    {
        self.faults
    }
}

impl ByteSource for MemSource {
    ghost left = { λ s. Some (drop s.at s.bytes.items) };

    ghost faults = { λ s. s.faults };

    /// Reads as many bytes as the buffer and `chunk` allow, if this call is not to fail.
    fn read(&mut self, buf: &mut [u8]) -> Result<usize, Failed>
        requires { 0 < length buf.old }
        ensures bound { ReadsAtMost result buf.new }
        ensures bytes { ReadConsumes (Some (drop self.old.at self.old.bytes.items))
            (Some (drop self.new.at self.new.bytes.items)) result buf.new }
        ensures cause { HasCause self.old.faults self.new.faults result }
        ensures count { IfOk result (λ n.
            n ≡ min (min (vec_len self.old.bytes - self.old.at) self.old.chunk) (length buf.old)) }
        ensures fails { IsErr result ↔ FailsNext self.old.fails.items self.old.calls }
        ensures plan { (self.new.chunk ≡ self.old.chunk) × (self.new.fails ≡ self.old.fails)
            × (self.new.calls ≡ next_call self.old.calls) }
    {
        self.calls = self.calls.saturating_add(1);
        if self.fails.contains(&self.calls) {
            self.faults = self.faults.saturating_add(1);
            return Err(Failed);
        }
        let n = (self.bytes.len() - self.at).min(self.chunk).min(buf.len());
        buf[..n].copy_from_slice(&self.bytes[self.at..self.at + n]);
        self.at += n;
        Ok(n)
    }
}

/// A sink in memory with room for that number of bytes.
#[derive(Drop)]
pub struct MemSink {
    bytes: Vec<u8>,
    room: usize,
    chunk: usize,
    fails: Vec<u64>,
    calls: u64,
    faults: u64,
    ghost reserved: { room ≤ vec_capacity bytes },
    ghost moves: { 1 ≤ chunk },
    ghost within: { vec_len bytes ≤ room },
}

impl MemSink {
    /// An empty sink that takes `room` bytes in all, at most `chunk` of them, 1 or more, a call. The calls
    /// whose numbers, from 1, are in `fails` fail, and so does each call once the room is used up. `Mem` if
    /// there is no memory for `room` bytes.
    pub fn new(alloc: Global, room: usize, chunk: usize, fails: Vec<u64>) -> Result<MemSink, Mem>
        requires { 1 ≤ chunk }
        ensures written { IfOk result (λ sink. ⟦<MemSink as ByteSink>⟧.written sink ≡ Some []) }
        ensures faults { IfOk result (λ sink. ⟦<MemSink as ByteSink>⟧.faults sink ≡ 0) }
        ensures plan { IfOk result (λ sink. (sink.room ≡ room) × (sink.chunk ≡ chunk)
            × (sink.fails ≡ fails) × (sink.calls ≡ 0)) }
    {
        let bytes = Vec::with_capacity(alloc, room)?;
        Ok(MemSink {
            bytes,
            room,
            chunk,
            fails,
            calls: 0,
            faults: 0,
        })
    }

    /// The bytes that were written.
    pub fn bytes(&self) -> &[u8]
        ensures { ⟦<MemSink as ByteSink>⟧.written self.now ≡ Some result.now }
    {
        &self.bytes
    }

    /// How many writes have failed.
    pub fn faults(&self) -> u64
        ensures { result ≡ ⟦<MemSink as ByteSink>⟧.faults self.now }
    {
        self.faults
    }
}

impl ByteSink for MemSink {
    ghost written = { λ s. Some s.bytes.items };

    ghost faults = { λ s. s.faults };

    /// Writes as many bytes as the room and `chunk` allow, if this call is not to fail.
    fn write(&mut self, piece: &[u8]) -> Result<usize, Failed>
        requires { 0 < length piece.now }
        ensures count { IfOk result (λ n. (1 ≤ n) × (n ≤ length piece.now)) }
        ensures bytes { WriteAppends (Some self.old.bytes.items) (Some self.new.bytes.items) result piece.now }
        ensures cause { HasCause self.old.faults self.new.faults result }
        ensures exact { IfOk result (λ n.
            n ≡ min (min (length piece.now) self.old.chunk) (self.old.room - vec_len self.old.bytes)) }
        ensures fails { IsErr result ↔
            ((vec_len self.old.bytes ≡ self.old.room) ⊎ FailsNext self.old.fails.items self.old.calls) }
        ensures plan { (self.new.room ≡ self.old.room) × (self.new.chunk ≡ self.old.chunk)
            × (self.new.fails ≡ self.old.fails) × (self.new.calls ≡ next_call self.old.calls) }
    {
        self.calls = self.calls.saturating_add(1);
        let room = self.room - self.bytes.len();
        if room == 0 || self.fails.contains(&self.calls) {
            self.faults = self.faults.saturating_add(1);
            return Err(Failed);
        }
        let n = piece.len().min(self.chunk).min(room);
        match self.bytes.extend_from_slice(&piece[..n]) {
            Ok(()) => Ok(n),
            Err(_) => unreachable!(),
        }
    }
}
