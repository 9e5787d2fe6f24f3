//! What phases, attempts and requests answer, and what links are answered.

ghost use Rattle.std.specs.Prelude.{◌≡◌, ◌↔◌, true, IsTrue, IfOk};
ghost use Rattle.sleep_model.specs.Fits.{fits_kind};
ghost use Rattle.rule_definitions.specs.Answers.{KeepsAnswers, phase_answer};
ghost use Rattle.rule_definitions.specs.Links.{KeepsLinks};
ghost use Rattle.rule_definitions.specs.Runtime.{KeepsRuntime};
ghost use Rattle.check_past.specs.Passing.{journal_of};

use crate::same::is_answer;
use check_due::{link_add_due, link_state_due, runtime_due};
use check_past::Passed;
use phase_table::Phase;
use sleep_base::{Errno, Mem};
use sleep_model::Kind;

/// What a phase answers: prepare its error, one on the way down a synchronous callback's, or else the last
/// that was set.
fn phase_answer(past: &Passed<'_>, phase: Phase) -> Option<Errno>
    ensures { result ≡ phase_answer (journal_of past.now) phase }
{
    match phase {
        Phase::Prepare => past.phase_failed(),
        Phase::Suspend | Phase::Late | Phase::Noirq => match past.own_error() {
            None => past.phase_failed(),
            error => error,
        },
        _ => None,
    }
}

/// Whether a phase answers its error, and an attempt that of its step that failed (`dpm_suspend`,
/// `enter_state`).
pub fn keeps_answers(past: &Passed<'_>, kind: Kind) -> bool
    ensures { IsTrue result ↔ KeepsAnswers (journal_of past.now) kind }
{
    match kind {
        Kind::Done(phase, r) => is_answer(r, phase_answer(past, phase)),
        Kind::Over { r, .. } => is_answer(r, past.failed()) && past.entered() == r.is_none(),
        _ => true,
    }
}

/// Whether a request for a runtime status is answered rightly (`__pm_runtime_set_status`).
pub fn keeps_runtime(past: &Passed<'_>, kind: Kind) -> bool
    ensures { IsTrue result ↔ KeepsRuntime past.now.machine (journal_of past.now) kind }
{
    match kind {
        Kind::RuntimeAsk {
            device,
            to_suspended,
            r,
        } => is_answer(r, runtime_due(past, device, to_suspended)),
        _ => true,
    }
}

/// Whether a change of links is answered rightly (`device_link_add`, `device_links_driver_bound`). `Mem` if
/// there is no memory for a walk.
pub fn keeps_links(past: &Passed<'_>, kind: Kind) -> Result<bool, Mem>
    requires { fits_kind past.now.machine kind ≡ true }
    ensures { IfOk result (λ b. IsTrue b ↔ KeepsLinks past.now.machine (journal_of past.now) kind) }
{
    match kind {
        Kind::LinkAdd {
            supplier,
            consumer,
            r,
        } => Ok(is_answer(r, link_add_due(past, supplier, consumer)?)),
        Kind::LinkState {
            supplier,
            consumer,
            r,
            ..
        } => Ok(is_answer(r, link_state_due(past, supplier, consumer))),
        _ => Ok(true),
    }
}
