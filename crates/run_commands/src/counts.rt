//! What a log comes to: how many entries and attempts it has, and whether its run was stuck.

ghost use Rattle.std.specs.Prelude.{◌≡◌, IfOk};
ghost use Rattle.run_commands.specs.Counting.{begins_attempt, begins_sleep, count_line, counts_of, line_end};
ghost use Rattle.run_commands.specs.Endings.{is_stuck};
ghost use Rattle.sleep_model.specs.Places.{one_if};

use program_ending::put_count;
use sleep_base::Mem;
use sleep_model::{Kind, Log, LogEnd};
use std::alloc::Global;

/// How many entries a log has, and what became of its attempts.
#[derive(Clone, Copy)]
pub struct LogCounts {
    /// Entries of the log, jumps included.
    pub entries: usize,
    /// Attempts that were begun.
    pub attempts: usize,
    /// Those that entered sleep.
    pub entered: usize,
    /// The others.
    pub aborted: usize,
}

/// Whether an attempt begins.
fn begins_attempt(kind: Kind) -> bool
    ensures { result ≡ begins_attempt kind }
{
    matches!(kind, Kind::Attempt { .. })
}

/// Whether the machine enters sleep: with `enter EBUSY` it does not.
fn begins_sleep(kind: Kind) -> bool
    ensures { result ≡ begins_sleep kind }
{
    match kind {
        Kind::Enter { busy } => !busy,
        _ => false,
    }
}

/// 1 if it is so, else 0.
fn one_if(so: bool) -> usize
    ensures { result ≡ one_if so }
{
    if so { 1 } else { 0 }
}

/// Whether a run was stuck.
pub fn is_stuck(end: &LogEnd) -> bool
    ensures { result ≡ is_stuck end.now }
{
    matches!(end, LogEnd::Stuck(_))
}

/// The numbers of a log.
pub fn counts_of(log: &Log) -> LogCounts
    ensures { result ≡ counts_of log.now }
{
    let entries = log.entries.len();
    let mut attempts = 0;
    let mut entered = 0;
    let mut reader = log.entries.reader();
    while let Some(entry) = reader.next() {
        attempts += one_if(begins_attempt(entry.kind));
        entered += one_if(begins_sleep(entry.kind));
    }
    LogCounts {
        entries,
        attempts,
        entered,
        aborted: attempts.saturating_sub(entered),
    }
}

/// The end of the line: how the run ended.
fn line_end(stuck: bool) -> &'static str
    ensures { result.now ≡ line_end stuck }
{
    if stuck { " stuck\n" } else { " finished\n" }
}

/// The line of a log's numbers, and of how the run ended. `Mem` if there is no memory for it.
pub fn count_line(alloc: Global, counts: LogCounts, stuck: bool) -> Result<Vec<u8>, Mem>
    ensures { IfOk result (λ line. line.items ≡ count_line counts stuck) }
{
    let mut line = Vec::new(alloc);
    put_count(&mut line, "entries ", counts.entries)?;
    put_count(&mut line, " attempts ", counts.attempts)?;
    put_count(&mut line, " entered ", counts.entered)?;
    put_count(&mut line, " aborted ", counts.aborted)?;
    line.extend_from_slice(line_end(stuck).as_bytes())?;
    Ok(line)
}
