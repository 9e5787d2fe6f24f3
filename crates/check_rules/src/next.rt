//! Whether an entry of the journal is the next: what is due of its actor, at its index.

ghost use Rattle.std.specs.Prelude.{◌≡◌, ◌↔◌, true, IsTrue, IfOk};
ghost use Rattle.sleep_model.specs.Fits.{fits_entry};
ghost use Rattle.sleep_model.specs.EntryClasses.{OfJournal, class_of};
ghost use Rattle.check_past.specs.Passing.{past_of};
ghost use Rattle.check_rules.specs.Next.{HasNumbersOfIndex, IsNextEntry};

use crate::calls::{is_calling, is_own_turn};
use crate::judge;
use crate::numbers::keeps_numbers;
use crate::same::makes;
use check_due::due;
use check_past::Passed;
use sleep_base::Mem;
use sleep_model::Entry;

/// Whether an entry is the journal's.
#[tactic(auto, using(crate::proofs::Judging::of_journal))]
fn is_journals(e: Entry) -> bool
    ensures { IsTrue result ↔ (class_of e.kind ≡ OfJournal) }
{
    judge::is_of_journal(e.kind)
}

/// Whether an entry is the journal's, with the numbers and the time of its index.
fn has_numbers_of_index(past: &Passed<'_>, e: Entry) -> bool
    ensures { IsTrue result ↔ HasNumbersOfIndex (past_of past.now) e }
{
    is_journals(e) && keeps_numbers(past, e)
}

/// Whether an entry is the journal's and what is due of its actor, at its index, and its actor is inside no
/// call and has made those that come before. `Mem` if a moment overflows, if a number has no room, or if
/// there is no memory for a walk.
pub fn is_next_entry(past: &Passed<'_>, e: Entry) -> Result<bool, Mem>
    requires { fits_entry past.now.machine e ≡ true }
    ensures { IfOk result (λ b. IsTrue b ↔ IsNextEntry past.now.machine (past_of past.now) e) }
{
    if !has_numbers_of_index(past, e) {
        return Ok(false);
    }
    let made = makes(due(past, e.actor, past.word())?, e.kind);
    let turn = is_own_turn(past, e.actor)?;
    Ok(made && turn && !is_calling(past, e.actor))
}
