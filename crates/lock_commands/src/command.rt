//! The command `locks`: the answers to an input, and how the program ends.

ghost use Rattle.std.specs.Prelude.{◌≤◌, IfErr, IfOk, OnOk, length};
ghost use Rattle.program_ending.specs.CommandEndings.{Refuses};
ghost use Rattle.lock_commands.specs.TextAnswers.{AgreeAfter};
ghost use Rattle.lock_commands.specs.Command.{IsEndingOfLines, IsLocksOf, RefusesLocks};
ghost use Rattle.lock_commands.specs.Endings.{LocksEnded};
ghost use Rattle.program_ending.specs.Streams.{stream, streams};

use crate::answer::{MOST_BYTES, answer_lines};
use crate::fault::LinesFault;
use program_ending::{Ending, Refusal, read_input, write_result};
use sleep_base::{ByteSink, ByteSource};
use std::alloc::Global;
use std::sync::Wait;

/// How the program ends if lines are not answered.
fn ending_of(fault: LinesFault) -> Ending
    ensures { IsEndingOfLines fault result }
{
    match fault {
        LinesFault::Line(number) => Ending::Refused(Refusal::BadLockLine(number)),
        LinesFault::Full(name) => Ending::Refused(Refusal::SourceFull(name)),
        LinesFault::Mem => Ending::NoMemory,
    }
}

/// What the command `locks` answers to an input: the answers to its lines, as [`answer_lines`] gives them.
///
/// `BadLockLine` is the first line of no form. `SourceFull` names the first lock on which a call is to be
/// made though its history has room for fewer than four entries. `NoMemory` comes if it is out of memory.
#[tactic(auto, using(crate::proofs::Ending::refuses))]
pub fn locks_of<R: Wait>(rt: &R, alloc: Global, bytes: &[u8]) -> Result<Vec<u8>, Ending>
    requires { length bytes.now ≤ MOST_BYTES }
    ensures text_answer { IfOk result (λ shown_text. IsLocksOf bytes.now shown_text.items) }
    ensures agree { OnOk result (AgreeAfter bytes.now) }
    ensures refused { IfErr result (Refuses (RefusesLocks bytes.now)) }
{
    match answer_lines(rt, alloc, bytes) {
        Ok(text) => Ok(text),
        Err(fault) => Err(ending_of(fault)),
    }
}

/// Reads lines that lock and unlock names, and writes their answers.
pub fn write_locks<R: Wait, S: ByteSource, K: ByteSink>(
    rt: &R,
    alloc: Global,
    input: &mut S,
    out: &mut K,
) -> Ending
    ensures { LocksEnded
        (streams (stream (S.left input.old) (S.faults input.old)) (stream (K.written out.old) (K.faults out.old)))
        (streams (stream (S.left input.new) (S.faults input.new)) (stream (K.written out.new) (K.faults out.new)))
        result }
{
    match read_input(alloc, input, MOST_BYTES, Refusal::LongLocks) {
        Ok(bytes) => write_result(out, locks_of(rt, alloc, &bytes)),
        Err(ending) => ending,
    }
}
