//! The command that the words of the call ask for, run to its ending and its status.
ghost use Rattle.std.specs.Prelude.{◌≡◌, ◌≤◌, map, string_bytes};
ghost use Rattle.command_line.specs.Words.{IsInRange, command_of};
ghost use Rattle.program_ending.specs.declared.ending.Ending.{Ending};
ghost use Rattle.program_ending.specs.Endings.{status_of, text_of};
ghost use Rattle.program_ending.specs.Streams.{Says, stream, streams};
ghost use Rattle.sleep_commands.specs.Endings.{Completes, Ended};

use command_line::{Command, command_of};
use idle_commands::write_idle;
use idle_loop::IdleSizes;
use lock_commands::write_locks;
use log_commands::{write_check, write_stats};
use program_ending::{Ending, say};
use run_commands::{run_file, soak_generated, write_generated};
use sleep_base::{ByteSink, ByteSource};
use sleep_run::Gate;
use std::alloc::Global;
use std::sync::Wait;
use std::thread::Threads;

/// Does what a command says, and answers how it ended.
#[tactic(auto, using(crate::proofs::Asking::idle_sizes))]
fn do_command<R: Threads + Wait + Sync, S: ByteSource, K: ByteSink, G: Gate + Sync>(
    rt: &R,
    alloc: Global,
    command: Command,
    input: &mut S,
    out: &mut K,
    gate: &G,
) -> Ending
    requires { IsInRange command }
    ensures { Ended (Some command)
        (streams (stream (S.left input.old) (S.faults input.old)) (stream (K.written out.old) (K.faults out.old)))
        (streams (stream (S.left input.new) (S.faults input.new)) (stream (K.written out.new) (K.faults out.new)))
        result }
{
    match command {
        Command::Run { workers } => run_file(rt, alloc, workers as u8, input, out, gate),
        Command::Gen { seed, devices } => write_generated(alloc, seed, devices, out),
        Command::Soak { seed, devices } => soak_generated(rt, alloc, seed, devices, out),
        Command::Check => write_check(alloc, input, out),
        Command::Locks => write_locks(rt, alloc, input, out),
        Command::Stats => write_stats(alloc, input, out),
        Command::Idle {
            wakers,
            events,
            sessions,
            workers,
        } => {
            let sizes = IdleSizes {
                wakers,
                events,
                sessions,
            };
            write_idle(rt, alloc, sizes, workers, out)
        }
    }
}

/// Does what the words say, and answers how it ended.
fn do_words<R: Threads + Wait + Sync, S: ByteSource, K: ByteSink, G: Gate + Sync>(
    rt: &R,
    alloc: Global,
    words: &[String],
    input: &mut S,
    out: &mut K,
    gate: &G,
) -> Ending
    ensures { Ended (command_of (map string_bytes words.now))
        (streams (stream (S.left input.old) (S.faults input.old)) (stream (K.written out.old) (K.faults out.old)))
        (streams (stream (S.left input.new) (S.faults input.new)) (stream (K.written out.new) (K.faults out.new)))
        result }
{
    match command_of(alloc, words) {
        Ok(Some(command)) => do_command(rt, alloc, command, input, out, gate),
        Ok(None) => Ending::NoForm,
        Err(_) => Ending::NoMemory,
    }
}

/// The whole program. The first word is its name, and those after it say what it does:
///
/// - `run`, or `run --workers N`, also in one word as `--workers=N`: reads a machine file from `input`, runs
///   the machine by N workers, 1 to 64 and else 4, and writes its log to `out`. The `gate` sees the workers'
///   turns.
/// - `gen SEED DEVICES`: writes the file of the generated machine of a seed of 64 bits with 1 to 1,000
///   devices.
/// - `soak SEED DEVICES`: runs that machine, and writes the line of its log's numbers.
/// - `check`: reads a machine file of one line and a log of it after that, and writes whether the log is
///   legal and finished, else its first bad line and the number of the rule that this breaks.
/// - `locks`: reads lines that lock and unlock names, and writes their answers and the statistics of each
///   name.
/// - `stats`: reads a machine file of one line and a log of it after that, and writes what the log counts,
///   its last failures, the longest chain of devices at its end, and each device's level.
/// - `idle WAKERS EVENTS SESSIONS`, with the option of `run` before these, between them or after them: runs 1
///   to 16 wakers of 1 to 1,000 events each against the idler of 1 to 1,000 sessions, and writes the log of
///   suspend-to-idle.
///
/// The answer is the status, and `err` says what it means:
///
/// - 0: the text was written; of a run, one in which nothing was left to do. 6: of a run in which nobody went
///   on.
/// - 1: the text was written, of a log that `check` read and that is not legal, or not finished, or of lines
///   that are no log's.
/// - 2: the words are others; nothing is read or written. Other words may give 8 instead, and nothing else.
/// - 3: the input is longer than 16,777,216 bytes, or it breaks a rule of the format; `err` has the first
///   rule with its place. To `locks` a line is of no form, and `err` has its number. To `check` the machine
///   is such. To `stats` the machine or the log is such, and `err` says which, or with `log: links` or
///   `log: cycle` that a link of the log is refused. Such an input may give 4 or 8 instead, and nothing else.
/// - 4: a read failed. 5: a write failed, after a prefix of the text.
/// - 7: the history of a wakeup source has no place left for a call, in a run or by a line of `locks`.
/// - 8: there was no memory.
///
/// At 2, 3, 4, 7 and 8 nothing is written to `out`. If no fault is counted, an input that spells a machine
/// none of whose sources can be filled gives 0, 6 or 8. Then `gen` and `idle` give 0 or 8, and `soak` 0, 6 or
/// 8. `check` gives 0 or 8 of a machine and the text of a log that is legal and finished, and 1 or 8 of a
/// machine and any other text. `locks` gives 0 or 8 of lines that are of a form and fill no source, and
/// `stats` of a machine and a log that fits it, no link of which is refused. `gen`, `soak` and `idle` leave
/// `input` unread.
pub fn run_words<R: Threads + Wait + Sync, S: ByteSource, K: ByteSink, G: Gate + Sync>(
    rt: &R,
    alloc: Global,
    words: &[String],
    input: &mut S,
    out: &mut K,
    err: &mut K,
    gate: &G,
) -> u8
    ensures ended { (ending : Ending) × (result ≡ status_of ending)
        × Ended (command_of (map string_bytes words.now))
        (streams (stream (S.left input.old) (S.faults input.old)) (stream (K.written out.old) (K.faults out.old)))
        (streams (stream (S.left input.new) (S.faults input.new)) (stream (K.written out.new) (K.faults out.new)))
        ending
        × Says (K.written err.old) (K.written err.new) (K.faults err.old) (K.faults err.new) (text_of ending) }
    ensures complete { Completes (command_of (map string_bytes words.now))
        (streams (stream (S.left input.old) (S.faults input.old)) (stream (K.written out.old) (K.faults out.old)))
        (streams (stream (S.left input.new) (S.faults input.new)) (stream (K.written out.new) (K.faults out.new)))
        result }
{
    let ending = do_words(rt, alloc, words, input, out, gate);
    say(err, &ending);
    ending.status()
}
