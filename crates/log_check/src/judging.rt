//! The verdict on a log: its first bad line, and the least rule that this breaks.

ghost use Rattle.std.specs.Prelude.{◌≡◌, true, IfOk};
ghost use Rattle.sleep_model.specs.Accepted.{IsAccepted};
ghost use Rattle.sleep_model.specs.Fits.{IsWritable, fits_entry};
ghost use Rattle.rule_definitions.specs.Entry.{KeepsEach};
ghost use Rattle.check_past.specs.Passing.{past_of};
ghost use Rattle.check_rules.specs.Judging.{IsBroken};
ghost use Rattle.log_check.specs.Verdicts.{IsVerdict};

use crate::ending::{Verdict, bad, judge_end};
use check_past::Passed;
use check_rules::{first_broken, is_next_entry};
use sleep_base::{Mem, drop_for_mem};
use sleep_model::{Entry, Log, Machine};
use std::alloc::Global;

/// The number of the least rule that an entry breaks after the entries that were passed, which keep all
/// rules, if it breaks one. `Mem` if a moment overflows, a number has no room, or if there is no memory for a
/// walk.
fn broken(past: &Passed<'_>, e: Entry) -> Result<Option<u8>, Mem>
    requires fits { fits_entry past.now.machine e ≡ true }
    requires kept { KeepsEach past.now.machine (past_of past.now) }
    ensures { IfOk result (λ n. IsBroken past.now.machine (past_of past.now) e n) }
{
    // Nearly every entry is the one that is due, and breaks none.
    match is_next_entry(past, e) {
        Ok(true) => Ok(None),
        _ => first_broken(past, e),
    }
}

/// Judges a log that fits a machine as files spell it: good exactly if it is legal and finished, else its
/// first bad line, with the number of the least rule that this breaks. `Mem` if there is no memory for the
/// account.
pub fn check(alloc: Global, machine: &Machine, log: &Log) -> Result<Verdict, Mem>
    requires accepted { IsAccepted machine.now }
    requires fits { IsWritable machine.now log.now }
    ensures { IfOk result (λ v. IsVerdict machine.now log.now v) }
{
    let mut past = Passed::new(alloc, machine, &log.entries)?;
    let mut reader = log.entries.reader();
    while let Some(e) = reader.next() {
        match broken(&past, e) {
            Ok(None) => past = past.pass(e)?,
            Ok(Some(definition)) => {
                let verdict = bad(past.passed(), definition);
                drop(past);
                return verdict;
            }
            Err(_) => return Err(drop_for_mem(past)),
        }
    }
    let verdict = judge_end(&past, log);
    drop(past);
    verdict
}
