//! What is due of an actor after the entries that were passed.

ghost use Rattle.std.specs.Prelude.{◌≡◌, Bool, Some, option_copied, IfOk, IfSome};
ghost use Rattle.sleep_model.specs.declared.machine.Op.TheVariants.{Link, LinkState, Runtime, Save};
ghost use Rattle.sleep_model.specs.declared.progress.ScriptPosition.{ScriptPosition};
ghost use Rattle.sleep_model.specs.declared.word.EventNow.{EventNow};
ghost use Rattle.sleep_model.specs.Accepted.{IsOp};
ghost use Rattle.sleep_model.specs.Due.{due, script_due};
ghost use Rattle.sleep_model.specs.Steps.{step_due, task_due};
ghost use Rattle.check_past.specs.Passing.{journal_of};

use crate::attempt::attempt_due;
use crate::steps::{count_due, mark_due, read_due, saved_number, sleep_d_due, sleep_due};
use crate::tasks::{
    autosleep_write_due, freezes_at, is_line, is_user, link_add_due, link_state_due, runtime_due,
    write_due,
};
use crate::walks::device_due;
use crate::work::auto_due;
use check_past::Passed;
use sleep_base::Mem;
use sleep_model::{Actor, Due, EventNow, Freezing, Kind, Op, ScriptPosition, TaskKind, Why};

/// A save of the count.
fn save_due(
    past: &Passed<'_>,
    now: EventNow,
    position: ScriptPosition,
    asked: bool,
    count: Option<u32>,
) -> Due
    ensures { result ≡ step_due past.now.machine (journal_of past.now) now position asked (Some (Save count)) }
{
    let held = past.holder().is_some();
    let number = saved_number(count, position.last_read);
    count_due(
        held,
        past.autosleep_is_on(),
        position.waits,
        asked,
        now,
        number,
    )
}

/// A request for a runtime status.
fn request_due(past: &Passed<'_>, device: u32, to_suspended: bool) -> Due
    ensures { (now : EventNow) (position : ScriptPosition) (asked : Bool) → result ≡ step_due past.now.machine (journal_of past.now) now
        position asked (Some (Runtime device to_suspended)) }
{
    let r = runtime_due(past, device, to_suspended);
    Due::Makes(Kind::RuntimeAsk {
        device,
        to_suspended,
        r,
    })
}

/// A new link. `Mem` if there is no memory for the walk.
fn link_due(past: &Passed<'_>, supplier: u32, consumer: u32) -> Result<Due, Mem>
    requires { IsOp past.now.machine (Link supplier consumer) }
    ensures { IfOk result (λ d. (now : EventNow) (position : ScriptPosition) (asked : Bool) → d ≡ step_due past.now.machine
        (journal_of past.now) now position asked (Some (Link supplier consumer))) }
{
    let r = link_add_due(past, supplier, consumer)?;
    Ok(Due::Makes(Kind::LinkAdd {
        supplier,
        consumer,
        r,
    }))
}

/// A state of a link.
fn link_set_due(past: &Passed<'_>, supplier: u32, consumer: u32, active: bool) -> Due
    ensures { (now : EventNow) (position : ScriptPosition) (asked : Bool) → result ≡ step_due past.now.machine (journal_of past.now) now
        position asked (Some (LinkState supplier consumer active)) }
{
    let r = link_state_due(past, supplier, consumer);
    Due::Makes(Kind::LinkState {
        supplier,
        consumer,
        active,
        r,
    })
}

/// The next entry of a script at its operation, which names what there is. `Mem` if a moment overflows, if
/// the next attempt has no number, or if there is no memory for a walk.
fn op_due(
    past: &Passed<'_>,
    now: EventNow,
    position: ScriptPosition,
    asked: bool,
    op: &Op,
) -> Result<Due, Mem>
    requires { IsOp past.now.machine op.now }
    ensures { IfOk result (λ d. d ≡ step_due past.now.machine (journal_of past.now) now position asked (Some op.now)) }
{
    match op {
        Op::Read => Ok(read_due(now, position.waits, asked)),
        Op::Save { count } => Ok(save_due(past, now, position, asked, *count)),
        Op::State { text, if_saved } => write_due(
            past,
            position,
            asked,
            text.as_slice(),
            *if_saved,
        ),
        Op::Autosleep { text } => Ok(autosleep_write_due(past, position, text.as_slice())),
        Op::Sleep { ms } => sleep_due(*ms, position, past.journal_time()),
        Op::SleepD { ms } => sleep_d_due(*ms, position, past.journal_time()),
        Op::FreezePoint => Ok(Due::Makes(Kind::Pass)),
        Op::Post { mark } => Ok(Due::Makes(Kind::Post(*mark))),
        Op::Wait { mark } => Ok(mark_due(*mark, past.raised(*mark))),
        Op::Runtime {
            device,
            to_suspended,
        } => Ok(request_due(past, *device, *to_suspended)),
        Op::Link { supplier, consumer } => link_due(past, *supplier, *consumer),
        Op::LinkState {
            supplier,
            consumer,
            active,
        } => Ok(link_set_due(past, *supplier, *consumer, *active)),
        // A call on a source makes no entry of the journal.
        Op::Awake { .. } | Op::Relax { .. } | Op::Event { .. } => Ok(Due::Nothing),
    }
}

/// The next entry of a script at its operation, or its exit.
fn step_due(
    past: &Passed<'_>,
    now: EventNow,
    position: ScriptPosition,
    asked: bool,
    op: Option<&Op>,
) -> Result<Due, Mem>
    requires { IfSome (option_copied op) (λ o. IsOp past.now.machine o) }
    ensures { IfOk result (λ d. d ≡ step_due past.now.machine (journal_of past.now) now position asked (option_copied op.entry)) }
{
    match op {
        None => Ok(Due::Makes(Kind::Exit)),
        Some(op) => op_due(past, now, position, asked, op),
    }
}

/// What a task of that kind does next: a frozen one waits, and so does one while the machine sleeps. One that
/// is asked to freeze does so if it may.
fn task_due(
    past: &Passed<'_>,
    now: EventNow,
    freezing: Freezing,
    kind: TaskKind,
    position: ScriptPosition,
    op: Option<&Op>,
) -> Result<Due, Mem>
    requires { IfSome (option_copied op) (λ o. IsOp past.now.machine o) }
    ensures { IfOk result (λ d. d ≡ task_due past.now.machine (journal_of past.now) now freezing kind position
        (option_copied op.entry)) }
{
    if freezing.frozen {
        Ok(Due::Waits(Why::Frozen))
    } else if past.sleeps() && !is_line(kind) {
        Ok(Due::Waits(Why::Asleep))
    } else if freezing.asked && freezes_at(is_user(kind), position.waits, op) {
        Ok(Due::Makes(Kind::Frozen))
    } else {
        step_due(past, now, position, freezing.asked, op)
    }
}

/// Script i at its own steps.
fn script_due(past: &Passed<'_>, now: EventNow, i: u32) -> Result<Due, Mem>
    ensures { IfOk result (λ d. d ≡ script_due past.now.machine (journal_of past.now) now i) }
{
    let Some(script) = past.machine().actors.as_slice().get(i as usize) else {
        return Ok(Due::Nothing);
    };
    let position = past.position(i);
    if position.exited {
        return Ok(Due::Nothing);
    }
    task_due(
        past,
        now,
        past.freezing(i),
        script.kind,
        position,
        past.operation(i),
    )
}

/// What is due of an actor that sees that word: the open attempt's maker follows the table; a script its
/// steps, autosleep's work and an asynchronous device theirs. `Mem` if a moment overflows, if the next
/// attempt has no number, or if there is no memory for a walk.
pub fn due(past: &Passed<'_>, who: Actor, now: EventNow) -> Result<Due, Mem>
    ensures { IfOk result (λ d. d ≡ due past.now.machine (journal_of past.now) who now) }
{
    if past.is_maker(who) {
        return attempt_due(past, now);
    }
    match who {
        Actor::Script(i) => script_due(past, now, i),
        Actor::Auto => auto_due(past, now),
        Actor::Dev(d) => Ok(device_due(past, now, d)),
        Actor::Timer(_) | Actor::Time => Ok(Due::Nothing),
    }
}
