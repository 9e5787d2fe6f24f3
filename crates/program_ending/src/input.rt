//! The whole input is read, within a limit.
ghost use Rattle.std.specs.Prelude.{◌≡◌};
ghost use Rattle.program_ending.specs.Streams.{ReadsInput, stream};

use crate::ending::Ending;
use crate::refusal::Refusal;
use sleep_base::{ByteSource, ReadStop, read_all};
use std::alloc::Global;

/// The most bytes that a machine file has.
pub const MOST_MACHINE: u32 = 16_777_216;

/// Reads the whole input. `Refused` with `long` if more than `most` bytes come, `ReadFault` at the first read
/// that fails, `NoMemory` if it is out of memory.
pub fn read_input<S: ByteSource>(
    alloc: Global,
    input: &mut S,
    most: u32,
    long: Refusal,
) -> Result<Vec<u8>, Ending>
    ensures { ReadsInput most long (stream (S.left input.old) (S.faults input.old)) (stream (S.left input.new) (S.faults input.new)) result }
{
    match read_all(alloc, input, most) {
        Ok(bytes) => Ok(bytes),
        Err(ReadStop::Fault) => Err(Ending::ReadFault),
        Err(ReadStop::TooLong) => Err(Ending::Refused(long)),
        Err(ReadStop::Mem) => Err(Ending::NoMemory),
    }
}
