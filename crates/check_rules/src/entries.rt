//! The rules that concern several kinds of entries: of the journal, of calls on sources and of their
//! steps.

ghost use Rattle.std.specs.Prelude.{◌≡◌, ◌↔◌, true, IsTrue, IfOk};
ghost use Rattle.sleep_model.specs.Fits.{fits_entry};
ghost use Rattle.sleep_model.specs.EntryClasses.{class_of};
ghost use Rattle.rule_definitions.specs.Enabled.{EnabledEntry};
ghost use Rattle.rule_definitions.specs.Freezer.{FreezerEntry};
ghost use Rattle.rule_definitions.specs.Path.{PathEntry};
ghost use Rattle.rule_definitions.specs.Steps.{StepsEntry};
ghost use Rattle.rule_definitions.specs.Walk.{EndsOwn, ReportsMade, WalkEntry, is_in_callback};
ghost use Rattle.check_past.specs.Passing.{journal_of, past_of};
ghost use Rattle.check_sources.specs.Classes.{meant};

use crate::calls::{is_calling, is_in_callback, is_inside, is_of_call, is_own_call, is_own_turn};
use crate::enabled::keeps_enabled;
use crate::freezer::{freeze_ends, freezes_entry, goes_on_entry};
use crate::jump::keeps_jump;
use crate::path::{keeps_path, keeps_reports};
use crate::same::both;
use crate::steps::keeps_steps;
use crate::walk::{ends_own, keeps_walk};
use check_past::Passed;
use check_sources::{EntryClass, class_of};
use sleep_base::Mem;
use sleep_model::{Actor, Entry, Kind};

/// Whether a callback ends once its reports are made. `Mem` if their number has no room.
fn are_reports_made(past: &Passed<'_>, e: Entry) -> Result<bool, Mem>
    requires { fits_entry past.now.machine e ≡ true }
    ensures { IfOk result (λ b. IsTrue b ↔ ReportsMade past.now.machine (past_of past.now) e.actor e.kind) }
{
    match e.kind {
        Kind::End(..) => is_own_turn(past, e.actor),
        _ => Ok(true),
    }
}

/// Whether an entry of the journal that its actor makes inside a callback is the end of that.
fn ends_callback(past: &Passed<'_>, e: Entry) -> bool
    ensures { IsTrue result ↔ (is_in_callback past.now.machine (journal_of past.now) e.actor ≡ true → EndsOwn (journal_of past.now) e.actor e.kind) }
{
    !is_in_callback(past, e.actor) || ends_own(past, e.actor, e.kind)
}

/// Whether an entry of that class keeps the rule of the walk. `Mem` if the number of reports has no room.
#[inline(always)]
fn keeps_walk_in(past: &Passed<'_>, e: Entry, class: EntryClass) -> Result<bool, Mem>
    requires { fits_entry past.now.machine e ≡ true }
    ensures { IfOk result (λ b. IsTrue b ↔ WalkEntry past.now.machine (past_of past.now) e (meant class)) }
{
    match class {
        EntryClass::Journal => {
            let made = are_reports_made(past, e)?;
            let walk = keeps_walk(past, past.word(), e.kind);
            let ends = ends_callback(past, e);
            Ok(both(walk, both(made, ends)))
        }
        EntryClass::Note(..) => {
            Ok(!is_in_callback(past, e.actor) || is_own_call(past, e.actor, e.kind))
        }
        EntryClass::Step(s, _) => Ok(!is_in_callback(past, e.actor) || is_inside(past, s, e.actor)),
        EntryClass::Jump => Ok(!is_in_callback(past, e.actor)),
    }
}

/// Whether devices are taken in order and answer what the machine answers, and a callback makes its reports
/// in order, then its end, and nothing else (`drivers/base/power/main.c`). `Mem` if the number of reports has
/// no room.
#[inline(always)]
pub fn walk_entry(past: &Passed<'_>, e: Entry) -> Result<bool, Mem>
    requires { fits_entry past.now.machine e ≡ true }
    ensures { IfOk result (λ b. IsTrue b ↔ WalkEntry past.now.machine (past_of past.now) e (class_of e.kind)) }
{
    keeps_walk_in(past, e, class_of(e.kind))
}

/// Whether an entry of that class keeps the rule of the freezer. `Mem` if the end of a freeze overflows, or a
/// number has no room.
#[inline(always)]
fn keeps_freezer_in(past: &Passed<'_>, e: Entry, class: EntryClass) -> Result<bool, Mem>
    requires { fits_entry past.now.machine e ≡ true }
    ensures { IfOk result (λ b. IsTrue b ↔ FreezerEntry past.now.machine (past_of past.now) e (meant class)) }
{
    match class {
        EntryClass::Journal => {
            let ends = freeze_ends(past, past.word(), e.kind)?;
            let freezes = freezes_entry(past, e.actor, e.kind)?;
            Ok(freezes && ends)
        }
        EntryClass::Note(..) | EntryClass::Step(..) | EntryClass::Jump => {
            let goes = goes_on_entry(past, e.actor)?;
            Ok(goes)
        }
    }
}

/// Whether tasks freeze if they are asked to and come to it, frozen ones make nothing, and a freeze ends
/// rightly (`try_to_freeze`, `try_to_freeze_tasks`). `Mem` if its end overflows, or a number has no room.
#[inline(always)]
pub fn freezer_entry(past: &Passed<'_>, e: Entry) -> Result<bool, Mem>
    requires { fits_entry past.now.machine e ≡ true }
    ensures { IfOk result (λ b. IsTrue b ↔ FreezerEntry past.now.machine (past_of past.now) e (class_of e.kind)) }
{
    keeps_freezer_in(past, e, class_of(e.kind))
}

/// Whether an entry of that class keeps the rule of the attempt's table.
#[inline(always)]
fn keeps_path_in(past: &Passed<'_>, e: Entry, class: EntryClass) -> bool
    ensures { IsTrue result ↔ PathEntry past.now.machine (past_of past.now) e (meant class) }
{
    match class {
        EntryClass::Journal | EntryClass::Jump => keeps_path(past, past.word(), e.actor, e.kind),
        EntryClass::Note(..) => keeps_reports(past, e.actor),
        EntryClass::Step(..) => true,
    }
}

/// Whether the open attempt's maker keeps to the table, and calls on sources only from callbacks
/// (`enter_state`, `dpm_run_callback`).
#[inline(always)]
pub fn path_entry(past: &Passed<'_>, e: Entry) -> bool
    ensures { IsTrue result ↔ PathEntry past.now.machine (past_of past.now) e (class_of e.kind) }
{
    keeps_path_in(past, e, class_of(e.kind))
}

/// Whether an entry of that class keeps the rule of steps. `Mem` if a moment overflows, or a number has no
/// room.
#[inline(always)]
fn keeps_steps_in(past: &Passed<'_>, e: Entry, class: EntryClass) -> Result<bool, Mem>
    requires { fits_entry past.now.machine e ≡ true }
    ensures { IfOk result (λ b. IsTrue b ↔ StepsEntry past.now.machine (past_of past.now) e (meant class)) }
{
    match class {
        EntryClass::Journal => {
            let keeps = keeps_steps(past, past.word(), e.actor, e.kind)?;
            let turn = is_own_turn(past, e.actor)?;
            Ok(keeps && turn && !is_calling(past, e.actor))
        }
        EntryClass::Note(..) => {
            Ok(is_own_call(past, e.actor, e.kind) && !is_calling(past, e.actor))
        }
        EntryClass::Step(s, step) => Ok(is_of_call(past, e.actor, s, step)),
        EntryClass::Jump => Ok(matches!(e.actor, Actor::Time)),
    }
}

/// Whether an entry is its actor's next, once the calls before it are made whole; a note its actor's next
/// call; a step of the word owed by its actor; and time makes the jumps. `Mem` if a moment overflows, or a
/// number has no room.
#[inline(always)]
pub fn steps_entry(past: &Passed<'_>, e: Entry) -> Result<bool, Mem>
    requires { fits_entry past.now.machine e ≡ true }
    ensures { IfOk result (λ b. IsTrue b ↔ StepsEntry past.now.machine (past_of past.now) e (class_of e.kind)) }
{
    keeps_steps_in(past, e, class_of(e.kind))
}

/// Whether an entry of that class keeps the rule of who may go on. `Mem` as below.
#[inline(always)]
fn keeps_enabled_in(past: &Passed<'_>, e: Entry, class: EntryClass) -> Result<bool, Mem>
    ensures { IfOk result (λ b. IsTrue b ↔ EnabledEntry past.now.machine (past_of past.now) e (meant class)) }
{
    match class {
        EntryClass::Journal => {
            let keeps = keeps_enabled(past, past.word(), e.actor, e.kind)?;
            Ok(keeps)
        }
        EntryClass::Note(..) | EntryClass::Step(..) => Ok(true),
        EntryClass::Jump => keeps_jump(past, e.time),
    }
}

/// Whether who makes an entry may go on, and time jumps if it may (`suspend_enter`). `Mem` if a moment
/// overflows, if a number has no room, or if there is no memory for a walk.
#[inline(always)]
pub fn enabled_entry(past: &Passed<'_>, e: Entry) -> Result<bool, Mem>
    ensures { IfOk result (λ b. IsTrue b ↔ EnabledEntry past.now.machine (past_of past.now) e (class_of e.kind)) }
{
    keeps_enabled_in(past, e, class_of(e.kind))
}
