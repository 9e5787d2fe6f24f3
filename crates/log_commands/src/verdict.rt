//! The verdict on a log.

ghost use Rattle.std.specs.Prelude.{◌≡◌, IfErr, IfOk};
ghost use Rattle.sleep_model.specs.Accepted.{IsAccepted};
ghost use Rattle.file_rules.specs.Whole.{IsSpelled};
ghost use Rattle.program_ending.specs.CommandEndings.{Refuses};
ghost use Rattle.log_commands.specs.Judging.{IsJudged, IsVerdictOf, RefusesCheck, ShowsVerdict, is_good, verdict_text};

use crate::input::{cut_line, machine_of};
use crate::texts::put_row;
use log_check::{Verdict, check};
use log_text::{LogFault, read_log};
use program_ending::{Ending, put_count};
use sleep_base::Mem;
use sleep_model::Machine;
use std::alloc::Global;

/// The number of the grammar among what a line breaks.
const GRAMMAR: u8 = 23;

/// The text that `check` writes of a log, and whether the log is legal and finished.
#[derive(Drop)]
pub struct Judged {
    pub text: Vec<u8>,
    pub good: bool,
}

/// The verdict on the log whose text these bytes are; if they are none's, their first line that the grammar
/// has not.
fn verdict_on(alloc: Global, machine: &Machine, bytes: &[u8]) -> Result<Verdict, Mem>
    requires spelled { IsSpelled machine.now }
    requires accepted { IsAccepted machine.now }
    ensures { IfOk result (λ v. IsVerdictOf machine.now bytes.now v) }
{
    match read_log(alloc, machine, bytes) {
        Ok(log) => {
            let verdict = check(alloc, machine, &log);
            drop(log);
            verdict
        }
        Err(LogFault::Line(line)) => Ok(Verdict::Bad {
            line,
            definition: GRAMMAR,
        }),
        Err(LogFault::Mem) => Err(Mem),
    }
}

/// The text of a verdict.
fn verdict_text(alloc: Global, verdict: Verdict) -> Result<Vec<u8>, Mem>
    ensures { IfOk result (λ text. text.items ≡ verdict_text verdict) }
{
    let mut text = Vec::new(alloc);
    match verdict {
        Verdict::Good => text.extend_from_slice(b"legal\n")?,
        Verdict::Bad { line, definition } => {
            put_count(&mut text, "illegal line ", line as usize)?;
            put_row(&mut text, " definition ", definition as u32)?;
        }
    }
    Ok(text)
}

/// Whether a log is legal and finished.
fn is_good(verdict: Verdict) -> bool
    ensures { result ≡ is_good verdict }
{
    matches!(verdict, Verdict::Good)
}

/// What `check` writes of a machine and a text that should be a log of it.
fn judge_text(alloc: Global, machine: &Machine, bytes: &[u8]) -> Result<Judged, Mem>
    requires spelled { IsSpelled machine.now }
    requires accepted { IsAccepted machine.now }
    ensures { IfOk result (λ j. ShowsVerdict machine.now bytes.now j.text.items j.good) }
{
    let verdict = verdict_on(alloc, machine, bytes)?;
    let text = verdict_text(alloc, verdict)?;
    let good = is_good(verdict);
    Ok(Judged { text, good })
}

/// What `check` writes of the machine and the log in these bytes: whether the log is legal and finished, else
/// its first bad line and the number of what that breaks.
///
/// Refused if the bytes up to the first newline are no machine's file: `LongMachine` if they are more than
/// 16,777,216, `Broken` if they break a rule of the format. `NoMemory` if it is out of memory.
pub fn judge(alloc: Global, bytes: &[u8]) -> Result<Judged, Ending>
    ensures judged { IfOk result (λ j. IsJudged bytes.now j.text.items j.good) }
    ensures refused { IfErr result (Refuses (RefusesCheck bytes.now)) }
{
    let (file, text) = cut_line(bytes);
    match machine_of(alloc, file) {
        Ok(read) => {
            let judged = judge_text(alloc, &read.machine, text);
            drop(read);
            match judged {
                Ok(judged) => Ok(judged),
                Err(_) => Err(Ending::NoMemory),
            }
        }
        Err(ending) => Err(ending),
    }
}
