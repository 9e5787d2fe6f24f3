//! All rules of an entry, and the least that it breaks.

ghost use Rattle.std.specs.Prelude.{◌≡◌, ◌↔◌, ◌||◌, not, true, IsTrue, IfOk};
ghost use Rattle.sleep_model.specs.Fits.{fits_entry};
ghost use Rattle.sleep_model.specs.EntryClasses.{class_of};
ghost use Rattle.rule_definitions.specs.Entry.{KeepsEntry, KeepsRule};
ghost use Rattle.rule_definitions.specs.Verdict.{rule_number};
ghost use Rattle.check_past.specs.Passing.{past_of};
ghost use Rattle.check_sources.specs.Classes.{meant};
ghost use Rattle.check_rules.specs.Judging.{IsBroken, KeepsTogether, is_of_journal, rule_at, rule_meant};

use crate::answers::{keeps_answers, keeps_links, keeps_runtime};
use crate::entries::{enabled_entry, freezer_entry, path_entry, steps_entry, walk_entry};
use crate::numbers::{keeps_attempts, keeps_numbers};
use crate::owed::keeps_owed;
use crate::reads::keeps_reads;
use crate::restored::keeps_restored;
use crate::skip::keeps_skip;
use crate::source::source_entry;
use check_past::Passed;
use check_sources::{EntryClass, class_of};
use sleep_base::Mem;
use sleep_model::{Entry, Kind};

/// How many rules there are.
const RULES: u8 = 15;

/// A rule of an entry.
#[derive(Clone, Copy)]
pub(crate) enum Rule {
    Links,
    Numbers,
    Attempts,
    Reads,
    Walk,
    Skip,
    Runtime,
    Owed,
    Freezer,
    Path,
    Answers,
    Restored,
    Steps,
    Enabled,
    Source,
}

/// The rule at that index, from 0, among all by rising number.
fn rule_at(place: u8) -> Rule
    ensures { rule_meant result ≡ rule_at place }
{
    match place {
        0 => Rule::Links,
        1 => Rule::Numbers,
        2 => Rule::Attempts,
        3 => Rule::Reads,
        4 => Rule::Walk,
        5 => Rule::Skip,
        6 => Rule::Runtime,
        7 => Rule::Owed,
        8 => Rule::Freezer,
        9 => Rule::Path,
        10 => Rule::Answers,
        11 => Rule::Restored,
        12 => Rule::Steps,
        13 => Rule::Enabled,
        _ => Rule::Source,
    }
}

/// The number that a verdict gives a rule.
fn rule_number(rule: Rule) -> u8
    ensures { result ≡ rule_number (rule_meant rule) }
{
    match rule {
        Rule::Links => 2,
        Rule::Numbers => 4,
        Rule::Attempts => 7,
        Rule::Reads => 8,
        Rule::Walk => 9,
        Rule::Skip => 10,
        Rule::Runtime => 11,
        Rule::Owed => 12,
        Rule::Freezer => 13,
        Rule::Path => 14,
        Rule::Answers => 15,
        Rule::Restored => 16,
        Rule::Steps => 17,
        Rule::Enabled => 18,
        Rule::Source => 22,
    }
}

/// Whether an entry of that class is the journal's.
fn is_class_of_journal(class: EntryClass) -> bool
    ensures { result ≡ is_of_journal (meant class) }
{
    match class {
        EntryClass::Journal => true,
        EntryClass::Note(..) | EntryClass::Step(..) | EntryClass::Jump => false,
    }
}

/// Whether an entry of that kind is the journal's.
pub(crate) fn is_of_journal(kind: Kind) -> bool
    ensures { result ≡ is_of_journal (class_of kind) }
{
    is_class_of_journal(class_of(kind))
}

/// What a rule of the journal says of an entry: entries of other lists keep it.
fn in_journal(kind: Kind, keeps: bool) -> bool
    ensures { result ≡ (not (is_of_journal (class_of kind)) || keeps) }
{
    !is_of_journal(kind) || keeps
}

/// Whether an entry keeps a rule after the entries that were passed. `Mem` if a moment overflows, a number
/// has no room, or if there is no memory for a walk.
#[inline(never)]
fn keeps(past: &Passed<'_>, e: Entry, rule: Rule) -> Result<bool, Mem>
    requires { fits_entry past.now.machine e ≡ true }
    ensures { IfOk result (λ b. IsTrue b ↔ KeepsRule past.now.machine (past_of past.now) e (class_of e.kind) (rule_meant rule)) }
{
    let (now, kind) = (past.word(), e.kind);
    match rule {
        Rule::Links => Ok(in_journal(kind, keeps_links(past, kind)?)),
        Rule::Numbers => Ok(keeps_numbers(past, e)),
        Rule::Attempts => Ok(in_journal(kind, keeps_attempts(past, kind))),
        Rule::Reads => Ok(in_journal(kind, keeps_reads(past, now, e.actor, kind)?)),
        Rule::Walk => walk_entry(past, e),
        Rule::Skip => Ok(in_journal(kind, keeps_skip(past, now, kind))),
        Rule::Runtime => Ok(in_journal(kind, keeps_runtime(past, kind))),
        Rule::Owed => Ok(in_journal(kind, keeps_owed(past, kind))),
        Rule::Freezer => freezer_entry(past, e),
        Rule::Path => Ok(path_entry(past, e)),
        Rule::Answers => Ok(in_journal(kind, keeps_answers(past, kind))),
        Rule::Restored => Ok(in_journal(kind, keeps_restored(past, kind))),
        Rule::Steps => steps_entry(past, e),
        Rule::Enabled => enabled_entry(past, e),
        Rule::Source => Ok(source_entry(past, e)),
    }
}

/// Whether an entry keeps the rules that also concern entries of sources and jumps. `Mem` if a moment
/// overflows, a number has no room, or if there is no memory for a walk.
fn keeps_together(past: &Passed<'_>, e: Entry) -> Result<bool, Mem>
    requires { fits_entry past.now.machine e ≡ true }
    ensures { IfOk result (λ b. IsTrue b → KeepsTogether past.now.machine (past_of past.now) e (class_of e.kind)) }
{
    let walk = walk_entry(past, e)?;
    let freezer = freezer_entry(past, e)?;
    let steps = steps_entry(past, e)?;
    let enabled = enabled_entry(past, e)?;
    Ok(
        keeps_numbers(past, e)
            && walk
            && freezer
            && path_entry(past, e)
            && steps
            && enabled
            && source_entry(past, e),
    )
}

/// Whether an entry of a source or a jump keeps every rule; false of the journal's. `Mem` as above.
#[tactic(auto, using(crate::proofs::Judging::each_preserved))]
fn keeps_outside_journal(past: &Passed<'_>, e: Entry) -> Result<bool, Mem>
    requires { fits_entry past.now.machine e ≡ true }
    ensures { IfOk result (λ b. IsTrue b → KeepsEntry past.now.machine (past_of past.now) e) }
{
    if is_of_journal(e.kind) {
        return Ok(false);
    }
    keeps_together(past, e)
}

/// The number of the least rule that an entry breaks, if it breaks one, rule by rule.
#[cold]
#[inline(never)]
fn least_broken(past: &Passed<'_>, e: Entry) -> Result<Option<u8>, Mem>
    requires { fits_entry past.now.machine e ≡ true }
    ensures { IfOk result (λ n. IsBroken past.now.machine (past_of past.now) e n) }
{
    for place in 0..RULES {
        let rule = rule_at(place);
        if !keeps(past, e, rule)? {
            return Ok(Some(rule_number(rule)));
        }
    }
    Ok(None)
}

/// The number of the least rule that an entry breaks after the entries that were passed, if it breaks one.
/// `Mem` if a moment overflows, a number has no room, or if there is no memory for a walk.
pub fn first_broken(past: &Passed<'_>, e: Entry) -> Result<Option<u8>, Mem>
    requires { fits_entry past.now.machine e ≡ true }
    ensures { IfOk result (λ n. IsBroken past.now.machine (past_of past.now) e n) }
{
    // Most entries of sources break none, and only one that does wants the rules in order. Of the journal's a
    // caller asks first whether it is the next (`is_next_entry`).
    match keeps_outside_journal(past, e) {
        Ok(true) => Ok(None),
        _ => least_broken(past, e),
    }
}
