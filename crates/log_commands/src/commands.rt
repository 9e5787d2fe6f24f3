//! The commands themselves: each reads a machine with a log of it, and writes what it finds.

ghost use Rattle.std.specs.Prelude.{◌≡◌};
ghost use Rattle.program_ending.specs.Streams.{stream, streams};
ghost use Rattle.log_commands.specs.Endings.{CheckEnded, StatsEnded, WritesJudged, WritesVerdict};

use crate::stats::stats_of;
use crate::verdict::{Judged, judge};
use program_ending::{Ending, Refusal, read_input, write_result};
use sleep_base::{ByteSink, ByteSource, write_all};
use std::alloc::Global;

/// The most bytes that a machine and its log have together.
const MOST_LOG_INPUT: u32 = 268_435_456;

/// Reads a machine and its log, and writes the log's statistics.
pub fn write_stats<S: ByteSource, K: ByteSink>(alloc: Global, input: &mut S, out: &mut K) -> Ending
    ensures { StatsEnded
        (streams (stream (S.left input.old) (S.faults input.old)) (stream (K.written out.old) (K.faults out.old)))
        (streams (stream (S.left input.new) (S.faults input.new)) (stream (K.written out.new) (K.faults out.new)))
        result }
{
    match read_input(alloc, input, MOST_LOG_INPUT, Refusal::LongInput) {
        Ok(bytes) => write_result(out, stats_of(alloc, &bytes)),
        Err(ending) => ending,
    }
}

/// Writes the verdict on a log, good or not.
fn write_judged<K: ByteSink>(out: &mut K, judged: &Judged) -> Ending
    ensures { WritesJudged (stream (K.written out.old) (K.faults out.old)) (stream (K.written out.new) (K.faults out.new))
        judged.now.text.items judged.now.good result }
{
    match write_all(out, &judged.text) {
        Ok(()) if judged.good => Ending::Done,
        Ok(()) => Ending::Illegal,
        Err(_) => Ending::WriteFault,
    }
}

/// Writes the verdict on a log, or answers how the program ends without one.
fn write_verdict<K: ByteSink>(out: &mut K, judged: Result<Judged, Ending>) -> Ending
    ensures { WritesVerdict judged (stream (K.written out.old) (K.faults out.old)) (stream (K.written out.new) (K.faults out.new)) result }
{
    match judged {
        Ok(judged) => write_judged(out, &judged),
        Err(ending) => ending,
    }
}

/// Reads a machine and its log, and writes whether the log is legal and finished.
pub fn write_check<S: ByteSource, K: ByteSink>(alloc: Global, input: &mut S, out: &mut K) -> Ending
    ensures { CheckEnded
        (streams (stream (S.left input.old) (S.faults input.old)) (stream (K.written out.old) (K.faults out.old)))
        (streams (stream (S.left input.new) (S.faults input.new)) (stream (K.written out.new) (K.faults out.new)))
        result }
{
    match read_input(alloc, input, MOST_LOG_INPUT, Refusal::LongInput) {
        Ok(bytes) => write_verdict(out, judge(alloc, &bytes)),
        Err(ending) => ending,
    }
}
