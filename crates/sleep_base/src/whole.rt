//! A source is read to its end, and a text is written whole.
ghost use Rattle.std.specs.Prelude.{◌≡◌, ◌≤◌};
ghost use Rattle.sleep_base.specs.declared.whole.ReadStop.TheVariants.{Fault, Mem};
ghost use Rattle.sleep_base.specs.Whole.{ReadAll, WriteAll};

use crate::{ByteSink, ByteSource, Failed};
use std::alloc::{AllocError, Global};
use thiserror::Error;

/// Bytes of one read.
const CHUNK: usize = 4096;

/// Why `read_all` stopped before the end.
#[derive(Clone, Copy, Debug, PartialEq, Eq, Error)]
pub enum ReadStop {
    /// A read failed.
    #[error("a read failed")]
    Fault,
    /// There are more bytes than the limit.
    #[error("more bytes than the limit")]
    TooLong,
    /// An allocation was refused.
    #[error("out of memory")]
    Mem,
}

impl From<Failed> for ReadStop {
    ghost from_gives = { λ _ e. e ≡ Fault };

    fn from(_: Failed) -> Self {
        ReadStop::Fault
    }
}

impl From<AllocError> for ReadStop {
    ghost from_gives = { λ _ e. e ≡ Mem };

    fn from(_: AllocError) -> Self {
        ReadStop::Mem
    }
}

/// All bytes that the source has left, of which there may be at most `limit`.
/// `Fault` at the first read that fails, `TooLong` once more than `limit` bytes came, and `Mem` for
/// out of memory. What was taken before an error is lost.
pub fn read_all<S: ByteSource>(
    alloc: Global,
    source: &mut S,
    limit: u32,
) -> Result<Vec<u8>, ReadStop>
    ensures bytes { ReadAll (S.left source.old) (S.left source.new)
        (S.faults source.old) (S.faults source.new) limit result }
    ensures faults { S.faults source.old ≤ S.faults source.new }
{
    let mut bytes = Vec::new(alloc);
    let mut buf = [0; CHUNK];
    loop {
        let n = source.read(&mut buf)?;
        if n == 0 {
            return Ok(bytes);
        }
        if n > limit as usize - bytes.len() {
            return Err(ReadStop::TooLong);
        }
        bytes.extend_from_slice(&buf[..n])?;
    }
}

/// Writes all of `bytes`, which may be empty. `Failed` at the first write that fails: a prefix of
/// `bytes` was written.
pub fn write_all<K: ByteSink>(sink: &mut K, bytes: &[u8]) -> Result<(), Failed>
    ensures bytes { WriteAll (K.written sink.old) (K.written sink.new)
        (K.faults sink.old) (K.faults sink.new) bytes.now result }
    ensures faults { K.faults sink.old ≤ K.faults sink.new }
{
    let mut rest = bytes;
    while !rest.is_empty() {
        let n = sink.write(rest)?;
        rest = &rest[n..];
    }
    Ok(())
}
