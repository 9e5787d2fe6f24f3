//! The row of an attempt's table that is under way.

ghost use Rattle.std.specs.Prelude.{◌≡◌};
ghost use Rattle.sleep_model.specs.Attempt.{answered, busy_error};
ghost use Rattle.rule_definitions.specs.Questions.{has_more, row_now};
ghost use Rattle.check_past.specs.Passing.{journal_of};

use check_account::next_stage;
use check_past::Passed;
use sleep_base::Errno;
use sleep_model::{Stage, What};

/// Whether a row of the table has an entry left.
fn has_more(past: &Passed<'_>, stage: Stage) -> bool
    ensures { result ≡ has_more past.now.machine (journal_of past.now) stage }
{
    match stage {
        Stage::Notifies => past.next_notified().is_some(),
        Stage::StopsCpus => past.next_cpu_off().is_some(),
        Stage::StopsSyscore => past.next_syscore_suspended().is_some(),
        Stage::StartsSyscore => past.next_syscore_resumed().is_some(),
        Stage::StartsCpus => past.next_cpu_on().is_some(),
        Stage::NotifiesPost => past.next_post_notified().is_some(),
        _ => true,
    }
}

/// The row of the open attempt's next entry, if an attempt is open (`suspend_enter`).
pub fn row_now(past: &Passed<'_>) -> Option<Stage>
    ensures { result ≡ row_now past.now.machine (journal_of past.now) }
{
    match past.stage() {
        None => None,
        Some(stage) => {
            if has_more(past, stage) {
                Some(stage)
            } else {
                Some(next_stage(stage))
            }
        }
    }
}

/// What a thing answers in the open attempt.
pub fn answered(past: &Passed<'_>, what: What) -> Option<Errno>
    ensures { result ≡ answered past.now.machine (journal_of past.now) what }
{
    past.answered_error(what)
}

/// The error of a test that found a wakeup (`syscore_suspend`).
pub fn busy_error(pending: bool) -> Option<Errno>
    ensures { result ≡ busy_error pending }
{
    if pending { Some(Errno::EBUSY) } else { None }
}
