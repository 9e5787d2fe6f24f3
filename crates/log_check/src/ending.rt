//! What is judged after the last entry: the statistics of each source, and whether the log is finished.

ghost use Rattle.std.specs.Prelude.{◌≡◌, ◌≤◌, ◌↔◌, ◌+◌, IsTrue, IfOk, length, reverse};
ghost use Rattle.log_check.specs.declared.ending.Verdict.TheVariants.{Bad};
ghost use Rattle.sleep_model.specs.Legal.{IsFinishedLog, is_finished_after, stats_of};
ghost use Rattle.sleep_model.specs.Numbers.{time_of};
ghost use Rattle.rule_definitions.specs.Entry.{KeepsEach};
ghost use Rattle.sleep_model.specs.Sources.{history, stats_at};
ghost use Rattle.check_past.specs.Passing.{past_of};
ghost use Rattle.log_check.specs.Verdicts.{Differ, IsVerdict};

use check_past::Passed;
use check_rules::is_idle_outside;
use sleep_base::Mem;
use sleep_model::{Log, LogEnd, Stats};

/// The number of a source's rules, which its statistics break too.
const SOURCE: u8 = 22;

/// The number of what the end of a log breaks that is not finished.
const END: u8 = 20;

/// What a log is.
#[derive(Clone, Copy, Debug, PartialEq, Eq)]
pub enum Verdict {
    /// Legal and finished.
    Good,
    /// Its first bad line, from 1: an entry, a source's statistics, or the end; and the number of the least
    /// rule that is broken there.
    Bad { line: u32, definition: u8 },
}

/// The sum of two numbers of lines. `Mem` if the sum has no room.
fn lines(some: usize, more: usize) -> Result<usize, Mem>
    ensures { IfOk result (λ n. n ≡ some + more) }
{
    match some.checked_add(more) {
        Some(all) => Ok(all),
        None => Err(Mem),
    }
}

/// The verdict that the first bad line comes right after `before` lines. `Mem` if its number has no room.
pub(crate) fn bad(before: usize, definition: u8) -> Result<Verdict, Mem>
    ensures { IfOk result (λ v. v ≡ Bad (before + 1) definition) }
{
    match u32::try_from(lines(before, 1)?) {
        Ok(line) => Ok(Verdict::Bad { line, definition }),
        Err(_) => Err(Mem),
    }
}

/// A source's statistics at the end. `Mem` if a sum has no room.
fn stats_of(past: &Passed<'_>, source: u32) -> Result<Stats, Mem>
    ensures { IfOk result (λ s. s ≡ stats_at (history source (past_of past.now)) (time_of (past_of past.now))) }
{
    past.source(source).stats(past.time())
}

/// Whether both are the same statistics.
fn is_same(logged: Stats, own: Stats) -> bool
    ensures { IsTrue result ↔ (logged ≡ own) }
{
    logged == own
}

/// The first source whose statistics are not those of the log, if there is one. `Mem` if a sum has no room.
fn first_wrong(past: &Passed<'_>, logged: &[Stats]) -> Result<Option<usize>, Mem>
    requires each { length logged.now ≡ length past.now.machine.sources + 1 }
    requires few { length past.now.machine.sources ≤ 255 }
    ensures { IfOk result (Differ logged.now (stats_of past.now.machine (past_of past.now))) }
{
    for source in 0..logged.len() {
        let own = stats_of(past, source as u32)?;
        if !is_same(logged[source], own) {
            return Ok(Some(source));
        }
    }
    Ok(None)
}

/// Whether every script has exited, no attempt is open, and nobody can make anything. `Mem` if a moment
/// overflows, a number has no room, or if there is no memory for a walk.
fn is_finished(past: &Passed<'_>) -> Result<bool, Mem>
    ensures { IfOk result (λ b. b ≡ is_finished_after past.now.machine (past_of past.now)) }
{
    let is_idle_script = is_idle_outside(past, past.word())?;
    Ok(past.have_all_exited() && is_idle_script)
}

/// Whether the log says that it is finished, and is. `Mem` if a sum or a number has no room, or if there is
/// no memory for a walk.
fn ends_finished(past: &Passed<'_>, log: &Log) -> Result<bool, Mem>
    requires { past_of past.now ≡ reverse log.now.entries }
    ensures { IfOk result (λ b. IsTrue b ↔ IsFinishedLog past.now.machine log.now) }
{
    match &log.end {
        LogEnd::Finished => is_finished(past),
        LogEnd::Stuck(_) => Ok(false),
    }
}

/// The verdict on a log all of whose entries keep the rules and were passed. `Mem` if a sum or a number has
/// no room, or if there is no memory for a walk.
pub(crate) fn judge_end(past: &Passed<'_>, log: &Log) -> Result<Verdict, Mem>
    requires all { past_of past.now ≡ reverse log.now.entries }
    requires kept { KeepsEach past.now.machine (reverse log.now.entries) }
    requires each { length log.now.stats ≡ length past.now.machine.sources + 1 }
    requires few { length past.now.machine.sources ≤ 255 }
    ensures { IfOk result (λ v. IsVerdict past.now.machine log.now v) }
{
    let logged = log.stats.as_slice();
    if let Some(source) = first_wrong(past, logged)? {
        return bad(lines(log.entries.len(), source)?, SOURCE);
    }
    if ends_finished(past, log)? {
        Ok(Verdict::Good)
    } else {
        bad(lines(log.entries.len(), logged.len())?, END)
    }
}
