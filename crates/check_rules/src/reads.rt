//! Reads and saves of the count, and writes to the state and to autosleep (`kernel/power/main.c`).

ghost use Rattle.std.specs.Prelude.{◌≡◌, ◌↔◌, IsTrue, IfOk, is_some, option_copied};
ghost use Rattle.rule_definitions.specs.Reads.{IsAutoSave, IsBadText, IsFree, IsGoodWrite, IsRead, IsReadElse, IsSave, IsSaveElse, IsWrite, IsWriteElse, KeepsReads, ReadsElse, ReadsTask, ReadsWork};
ghost use Rattle.sleep_model.specs.Lock.{holder, is_on};
ghost use Rattle.sleep_model.specs.Steps.{state_due, unless_unsaved};
ghost use Rattle.sleep_model.specs.Tasks.{is_mem};
ghost use Rattle.check_past.specs.Passing.{journal_of};

use crate::kinds::is_kind;
use crate::same::makes;
use check_account::is_actor;
use check_due::{
    auto_save, count_due, is_mem, is_off, next_attempt, read_due, saved_number, state_due,
    unless_unsaved,
};
use check_past::Passed;
use sleep_base::Mem;
use sleep_model::{Actor, Due, EventNow, Kind, Op, ScriptPosition, Work, visible};

/// Whether an entry is right as a read of somebody whose own step is another.
fn is_read_else(now: EventNow, kind: Kind) -> bool
    ensures { IsTrue result ↔ IsReadElse now kind }
{
    makes(read_due(now, false, false), kind)
}

/// Whether an entry is right as a save of that number by somebody whose own step is another.
fn is_save_else(past: &Passed<'_>, now: EventNow, who: Actor, c: u32, kind: Kind) -> bool
    ensures { IsTrue result ↔ IsSaveElse (journal_of past.now) now who c kind }
{
    let held = past.holder().is_some();
    let due = count_due(held, past.autosleep_is_on(), false, false, now, c);
    !is_actor(who, past.holder()) && makes(due, kind)
}

/// Whether an entry is right as a write to the state by somebody whose own step is another. `Mem` if the next
/// attempt has no number.
fn is_write_else(past: &Passed<'_>, who: Actor, kind: Kind) -> Result<bool, Mem>
    ensures { IfOk result (λ b. IsTrue b ↔ IsWriteElse (journal_of past.now) who kind) }
{
    let attempt = next_attempt(past)?;
    let held = past.holder().is_some();
    let due = state_due(held, past.autosleep_is_on(), false, false, true, attempt);
    Ok(!is_actor(who, past.holder()) && makes(due, kind))
}

/// Whether an entry is right as a save of the work.
fn is_auto_save(past: &Passed<'_>, now: EventNow, c: u32, kind: Kind) -> bool
    ensures { IsTrue result ↔ IsAutoSave (journal_of past.now) now c kind }
{
    past.holder().is_none() && is_kind(auto_save(now, c), kind)
}

/// Reads, saves and writes to the state of somebody whose own step is another. `Mem` if the next attempt has
/// no number.
fn reads_else(past: &Passed<'_>, now: EventNow, who: Actor, kind: Kind) -> Result<bool, Mem>
    ensures { IfOk result (λ b. IsTrue b ↔ ReadsElse (journal_of past.now) now who kind) }
{
    match kind {
        Kind::ReadWait | Kind::Read(_) | Kind::ReadIntr => Ok(is_read_else(now, kind)),
        Kind::SaveWait(c) | Kind::Saved(c) | Kind::SaveErr(c, _) => {
            Ok(is_save_else(past, now, who, c, kind))
        }
        Kind::StateWait | Kind::StateErr(_) | Kind::StateUnsaved => {
            let right = is_write_else(past, who, kind)?;
            Ok(right)
        }
        Kind::AutoSaved(c) | Kind::AutoUnsaved(c) => Ok(is_auto_save(past, now, c, kind)),
        _ => Ok(true),
    }
}

/// Whether an entry is right at a read.
fn is_read(
    now: EventNow,
    position: ScriptPosition,
    asked: bool,
    op: Option<&Op>,
    kind: Kind,
) -> bool
    ensures { IsTrue result ↔ IsRead now position asked (option_copied op.entry) kind }
{
    match op {
        Some(Op::Read) => makes(read_due(now, position.waits, asked), kind),
        _ => is_read_else(now, kind),
    }
}

/// Whether an entry is right at a save.
fn is_save(
    past: &Passed<'_>,
    now: EventNow,
    who: Actor,
    position: ScriptPosition,
    asked: bool,
    op: Option<&Op>,
    c: u32,
    kind: Kind,
) -> bool
    ensures { IsTrue result ↔ IsSave (journal_of past.now) now who position asked (option_copied op.entry) c kind }
{
    match op {
        Some(Op::Save { count }) => {
            let held = past.holder().is_some();
            let number = saved_number(*count, position.last_read);
            makes(
                count_due(
                    held,
                    past.autosleep_is_on(),
                    position.waits,
                    asked,
                    now,
                    number,
                ),
                kind,
            )
        }
        _ => is_save_else(past, now, who, c, kind),
    }
}

/// What is due at a write of that text to the state, whose attempt would be that.
fn written(
    past: &Passed<'_>,
    position: ScriptPosition,
    asked: bool,
    text: &[u8],
    if_saved: bool,
    attempt: Kind,
) -> Due
    ensures { result ≡ unless_unsaved if_saved position.saved
        (state_due (is_some (holder (journal_of past.now))) (is_on (journal_of past.now)) position.waits asked (is_mem text.now) attempt) }
{
    let held = past.holder().is_some();
    let due = state_due(
        held,
        past.autosleep_is_on(),
        position.waits,
        asked,
        is_mem(text),
        attempt,
    );
    unless_unsaved(if_saved, position.saved, due)
}

/// Whether an entry is right at a write to the state. `Mem` if the next attempt has no number.
fn is_write(
    past: &Passed<'_>,
    who: Actor,
    position: ScriptPosition,
    asked: bool,
    op: Option<&Op>,
    kind: Kind,
) -> Result<bool, Mem>
    ensures { IfOk result (λ b. IsTrue b ↔ IsWrite (journal_of past.now) who position asked (option_copied op.entry) kind) }
{
    let attempt = next_attempt(past)?;
    match op {
        Some(Op::State { text, if_saved }) => {
            let due = written(past, position, asked, text.as_slice(), *if_saved, attempt);
            Ok(makes(due, kind))
        }
        _ => {
            let right = is_write_else(past, who, kind)?;
            Ok(right)
        }
    }
}

/// Whether an attempt is right at a write to the state.
fn is_good_write(
    past: &Passed<'_>,
    position: ScriptPosition,
    asked: bool,
    op: Option<&Op>,
    kind: Kind,
) -> bool
    ensures { IsTrue result ↔ IsGoodWrite (journal_of past.now) position asked (option_copied op.entry) kind }
{
    match op {
        Some(Op::State { text, if_saved }) => {
            makes(
                written(past, position, asked, text.as_slice(), *if_saved, kind),
                kind,
            )
        }
        _ => true,
    }
}

/// A write to autosleep is refused only if its text is neither.
fn is_bad_text(op: Option<&Op>) -> bool
    ensures { IsTrue result ↔ IsBadText (option_copied op.entry) }
{
    match op {
        Some(Op::Autosleep { text }) => {
            let text = text.as_slice();
            !(is_mem(text) || is_off(text))
        }
        _ => true,
    }
}

/// Autosleep is set only if the lock is free.
fn is_free(past: &Passed<'_>, op: Option<&Op>) -> bool
    ensures { IsTrue result ↔ IsFree (journal_of past.now) (option_copied op.entry) }
{
    match op {
        Some(Op::Autosleep { .. }) => past.holder().is_none(),
        _ => true,
    }
}

/// An entry of a task at its operation. `Mem` if the next attempt has no number.
fn reads_task(
    past: &Passed<'_>,
    now: EventNow,
    who: Actor,
    position: ScriptPosition,
    asked: bool,
    op: Option<&Op>,
    kind: Kind,
) -> Result<bool, Mem>
    ensures { IfOk result (λ b. IsTrue b ↔ ReadsTask (journal_of past.now) now who position asked (option_copied op.entry) kind) }
{
    match kind {
        Kind::ReadWait | Kind::Read(_) | Kind::ReadIntr => Ok(is_read(
            now, position, asked, op, kind,
        )),
        Kind::SaveWait(c) | Kind::Saved(c) | Kind::SaveErr(c, _) => {
            Ok(is_save(past, now, who, position, asked, op, c, kind))
        }
        Kind::StateWait | Kind::StateErr(_) | Kind::StateUnsaved => {
            let right = is_write(past, who, position, asked, op, kind)?;
            Ok(right)
        }
        Kind::Attempt { .. } => Ok(is_good_write(past, position, asked, op, kind)),
        Kind::AutoBad => Ok(is_bad_text(op)),
        Kind::AutoSet(_) => Ok(is_free(past, op)),
        _ => {
            let right = reads_else(past, now, who, kind)?;
            Ok(right)
        }
    }
}

/// An entry of autosleep's work. `Mem` if the next attempt has no number.
fn reads_work(past: &Passed<'_>, now: EventNow, work: Work, kind: Kind) -> Result<bool, Mem>
    ensures { IfOk result (λ b. IsTrue b ↔ ReadsWork (journal_of past.now) now work kind) }
{
    match (work, kind) {
        (Work::Reading, Kind::Read(c)) => Ok(now.inpr == 0 && c == visible(now)),
        (Work::Saving(c), Kind::AutoSaved(_)) | (Work::Saving(c), Kind::AutoUnsaved(_)) => {
            Ok(is_auto_save(past, now, c, kind))
        }
        (Work::Attempting(_), Kind::Attempt { .. }) => Ok(past.autosleep_is_on()),
        _ => {
            let right = reads_else(past, now, Actor::Auto, kind)?;
            Ok(right)
        }
    }
}

/// Whether reads, saves and writes are answered by the word, the lock, autosleep, their number and their
/// text, whoever makes them (`kernel/power/main.c`, `drivers/base/power/wakeup.c`). `Mem` if the next attempt
/// has no number.
pub fn keeps_reads(past: &Passed<'_>, now: EventNow, who: Actor, kind: Kind) -> Result<bool, Mem>
    ensures { IfOk result (λ b. IsTrue b ↔ KeepsReads past.now.machine (journal_of past.now) now who kind) }
{
    match who {
        Actor::Script(i) if !past.is_maker(who) => {
            let asked = past.freezing(i).asked;
            let right = reads_task(
                past,
                now,
                who,
                past.position(i),
                asked,
                past.operation(i),
                kind,
            )?;
            Ok(right)
        }
        Actor::Auto if !past.is_maker(who) => {
            let right = reads_work(past, now, past.work(), kind)?;
            Ok(right)
        }
        _ => {
            let right = reads_else(past, now, who, kind)?;
            Ok(right)
        }
    }
}
