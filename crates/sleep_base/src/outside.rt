//! Bytes in and out with counted faults, and out of memory.
ghost use Rattle.std.specs.Prelude.{◌≤◌, ◌<◌, ℕ, List, Option, IfOk, length};
ghost use Rattle.std.specs.Io.{ReadsAtMost};
ghost use Rattle.std.specs.Io.KnownBytes.{ReadConsumes, WriteAppends};
ghost use Rattle.sleep_base.specs.Faults.{HasCause};

use std::alloc::{AllocError, AllocFailed};
use thiserror::Error;

/// Out of memory: an allocation was refused.
#[derive(Clone, Copy, Debug, PartialEq, Eq, Error)]
#[error("out of memory")]
pub struct Mem;

impl From<AllocError> for Mem {
    ghost from_gives = { λ _ _. Unit {0} };

    fn from(_: AllocError) -> Self {
        Mem
    }
}

impl<T: Drop> From<AllocFailed<T>> for Mem {
    ghost from_gives = { λ _ _. Unit {0} };

    fn from(_: AllocFailed<T>) -> Self {
        Mem
    }
}

/// Out of memory, for a caller that has to drop a value. Its type is a parameter, so that no proof of a
/// caller follows the value's parts, which would take minutes of some (`docs/PROOF_COSTS.md`).
pub fn drop_for_mem<A: Drop>(_value: A) -> Mem {
    Mem
}

/// A read or a write that failed. The source or the sink has counted it as a fault.
#[derive(Clone, Copy, Debug, PartialEq, Eq, Error)]
#[error("a read or a write failed")]
pub struct Failed;

/// A source of bytes.
pub trait ByteSource {
    /// The bytes that reads will give from here on, if they are known.
    ghost left: { Self → Option (List ℕ) };

    /// How many reads have failed.
    ghost faults: { Self → ℕ };

    /// Fills a prefix of `buf` and answers how many bytes: 0 only at the end. `Failed` if the read failed:
    /// it took no byte, and the count of faults rose.
    fn read(&mut self, buf: &mut [u8]) -> Result<usize, Failed>
        requires { 0 < length buf.old }
        ensures bound { ReadsAtMost result buf.new }
        ensures bytes { ReadConsumes (left self.old) (left self.new) result buf.new }
        ensures cause { HasCause (faults self.old) (faults self.new) result };
}

/// A sink of bytes.
pub trait ByteSink {
    /// The bytes that were written, if they are known.
    ghost written: { Self → Option (List ℕ) };

    /// How many writes have failed.
    ghost faults: { Self → ℕ };

    /// Writes a prefix of `piece` and answers how many bytes: at least 1. `Failed` if the write failed: it
    /// wrote no byte, and the count of faults rose.
    fn write(&mut self, piece: &[u8]) -> Result<usize, Failed>
        requires { 0 < length piece.now }
        ensures count { IfOk result (λ n. (1 ≤ n) × (n ≤ length piece.now)) }
        ensures bytes { WriteAppends (written self.old) (written self.new) result piece.now }
        ensures cause { HasCause (faults self.old) (faults self.new) result };
}
