//! What the program says on standard error, written piece by piece without memory.

ghost use Rattle.std.specs.Prelude.{◌≡◌, ◌≤◌, ◌++◌};
ghost use Rattle.sleep_base.specs.Whole.{WriteAll};
ghost use Rattle.program_ending.specs.Endings.{text_of};
ghost use Rattle.program_ending.specs.Streams.{Says};

use crate::ending::Ending;
use itoa::Buffer;
use sleep_base::{ByteSink, Failed, write_all};

/// Writes one piece after the other. `Failed` at the first write that fails: a prefix of both was written.
#[tactic(auto, using(sleep_base::proofs::Written::one_failed, sleep_base::proofs::Written::both_written))]
fn write_both<K: ByteSink>(sink: &mut K, one: &[u8], other: &[u8]) -> Result<(), Failed>
    ensures bytes { WriteAll (K.written sink.old) (K.written sink.new) (K.faults sink.old) (K.faults sink.new) (one.now ++ other.now) result }
    ensures faults { K.faults sink.old ≤ K.faults sink.new }
{
    write_all(sink, one)?;
    write_all(sink, other)
}

/// Writes three pieces, one after the other. `Failed` at the first write that fails: a prefix of all was
/// written.
#[tactic(auto, using(sleep_base::proofs::Written::one_failed, sleep_base::proofs::Written::both_written))]
fn write_three<K: ByteSink>(
    sink: &mut K,
    one: &[u8],
    other: &[u8],
    third: &[u8],
) -> Result<(), Failed>
    ensures bytes { WriteAll (K.written sink.old) (K.written sink.new) (K.faults sink.old) (K.faults sink.new) ((one.now ++ other.now) ++ third.now) result }
    ensures faults { K.faults sink.old ≤ K.faults sink.new }
{
    write_both(sink, one, other)?;
    write_all(sink, third)
}

/// Writes five pieces, one after the other. `Failed` at the first write that fails: a prefix of all was
/// written.
#[tactic(auto, using(sleep_base::proofs::Written::one_failed, sleep_base::proofs::Written::both_written))]
fn write_five<K: ByteSink>(
    sink: &mut K,
    one: &[u8],
    other: &[u8],
    third: &[u8],
    fourth: &[u8],
    fifth: &[u8],
) -> Result<(), Failed>
    ensures { WriteAll (K.written sink.old) (K.written sink.new) (K.faults sink.old) (K.faults sink.new) (((one.now ++ other.now) ++ third.now) ++ (fourth.now ++ fifth.now)) result }
{
    write_three(sink, one, other, third)?;
    write_both(sink, fourth, fifth)
}

/// Writes what an ending says, piece by piece, without memory.
fn write_ending<K: ByteSink>(sink: &mut K, ending: &Ending) -> Result<(), Failed>
    ensures { WriteAll (K.written sink.old) (K.written sink.new) (K.faults sink.old) (K.faults sink.new) (text_of ending.now) result }
{
    let mut digits = Buffer::new();
    let head = ending.head().as_bytes();
    let number = ending.number(&mut digits);
    let colon = ending.colon().as_bytes();
    let name = ending.name();
    let tail = ending.tail().as_bytes();
    write_five(sink, head, number, colon, name, tail)
}

/// Says on a stream how the program ends, as far as the stream takes it.
pub fn say<K: ByteSink>(err: &mut K, ending: &Ending)
    ensures { Says (K.written err.old) (K.written err.new) (K.faults err.old) (K.faults err.new) (text_of ending.now) }
{
    let _ = write_ending(err, ending);
}
