//! The rule of steps, a rule of the checker of logs: an entry of the journal is one that its actor can make
//! at the point it has reached. The journal lists the steps of a machine, each as one entry, but for the
//! calls on sources. The `Kind` of an entry says which step it is. An actor is a script (of a task or of an
//! interrupt line), the autosleep work, an asynchronous device, the timer of a source, or time.
//!
//! `past` is what the checker knows of the entries before this one, all of which keep its rules (`Passed`).
//! `now` is no time: it is the event word before the entry (`combined_event_count`, and `pm_abort_suspend`
//! for hard events).
//!
//! An attempt is one try to suspend, and is open until its entry `Over`. Its maker is the task inside
//! `enter_state`. Of the maker's entries only the kind is looked at here: `path.rt` and `walk.rt` look at
//! their order. `reads.rt` looks at what reads and writes answer.

ghost use Rattle.std.specs.Prelude.{◌≡◌, ◌↔◌, true, IsTrue, IfOk, option_copied, slice_get};
ghost use Rattle.rule_definitions.specs.Steps.{IsDeviceStep, IsLinkOf, IsLinkStateOf, IsMakerStep, IsOfAutosleep, IsOfOp, IsPostOf, IsRequestOf, IsScriptStep, IsStep, IsWorkStep, KeepsSteps, is_of_state_write};
ghost use Rattle.rule_definitions.specs.Questions.{op_of, position_of};
ghost use Rattle.sleep_model.specs.Laws.{is_exit, is_of_count_read, is_of_count_save, is_pass};
ghost use Rattle.check_past.specs.Passing.{journal_of};

use crate::same::{is_phase, is_same_number, makes};
use check_due::{
    async_work, freezes_at, is_mem, is_off, is_user, later_by, mark_due, seen_count, sleep_d_due,
    sleep_due,
};
use check_past::Passed;
use sleep_base::Mem;
use sleep_model::{Actor, AsyncWork, EventNow, Kind, NAP_MSECS, Op, ScriptPosition, State, Work};

/// Whether the entry belongs to a read of `/sys/power/wakeup_count`.
fn is_of_count_read(kind: Kind) -> bool
    ensures { result ≡ is_of_count_read kind }
{
    matches!(kind, Kind::ReadWait | Kind::Read(_) | Kind::ReadIntr)
}

/// Whether the entry belongs to a write to `/sys/power/wakeup_count`. `SaveWait`: the write waits for
/// `autosleep_lock`.
fn is_of_count_save(kind: Kind) -> bool
    ensures { result ≡ is_of_count_save kind }
{
    matches!(kind, Kind::SaveWait(_) | Kind::Saved(_) | Kind::SaveErr(..))
}

/// Whether the entry belongs to a write to `/sys/power/state`, up to the beginning of its attempt.
/// `StateWait`: the write waits for `autosleep_lock`. `StateUnsaved`: the script left the write out, since it
/// was told to write only if its last write to `wakeup_count` succeeded.
fn is_of_state_write(kind: Kind) -> bool
    ensures { result ≡ is_of_state_write kind }
{
    matches!(
        kind,
        Kind::StateWait | Kind::StateErr(_) | Kind::StateUnsaved | Kind::Attempt { .. }
    )
}

/// Whether the entry belongs to a write to `/sys/power/autosleep`, whose text is `mem`, `off` or neither.
/// `begun`: the write has set the state (`AutoSet`), so only its end is left (`AutoDone`). `AutoBad`, the
/// answer to a text that is neither, passes here for any text: `reads.rt` looks at the text.
fn is_of_autosleep(begun: bool, mem: bool, off: bool, kind: Kind) -> bool
    ensures { IsTrue result ↔ IsOfAutosleep begun mem off kind }
{
    match kind {
        Kind::AutoBad => true,
        Kind::AutoSet(State::Mem) => !begun && mem,
        Kind::AutoSet(State::Off) => !begun && !mem && off,
        Kind::AutoDone => begun && (mem || off),
        _ => false,
    }
}

/// Whether the entry is a post to `mark`. A mark is a semaphore by which scripts wait for one another: a post
/// raises it by one, and a wait that ends lowers it by one.
fn is_post_of(mark: u32, kind: Kind) -> bool
    ensures { IsTrue result ↔ IsPostOf mark kind }
{
    matches!(kind, Kind::Post(other) if other == mark)
}

/// Whether the entry is a request that `device` become runtime suspended or active, as `to_suspended` says.
fn is_request_of(device: u32, to_suspended: bool, kind: Kind) -> bool
    ensures { IsTrue result ↔ IsRequestOf device to_suspended kind }
{
    matches!(kind, Kind::RuntimeAsk { device: d, to_suspended: to, .. } if d == device && to == to_suspended)
}

/// Whether the entry is a request for a new link by which `consumer` needs `supplier`.
fn is_link_of(supplier: u32, consumer: u32, kind: Kind) -> bool
    ensures { IsTrue result ↔ IsLinkOf supplier consumer kind }
{
    matches!(kind, Kind::LinkAdd { supplier: s, consumer: c, .. } if s == supplier && c == consumer)
}

/// Whether the entry is a request that the link of `consumer` to `supplier` be active or dormant, as `active`
/// says.
fn is_link_state_of(supplier: u32, consumer: u32, active: bool, kind: Kind) -> bool
    ensures { IsTrue result ↔ IsLinkStateOf supplier consumer active kind }
{
    match kind {
        Kind::LinkState {
            supplier: s,
            consumer: c,
            active: to,
            ..
        } => s == supplier && c == consumer && to == active,
        _ => false,
    }
}

/// Whether the entry belongs to `op`, or is the exit if no operation is left (`None`). `position.waits`: the
/// operation has made its first entry, a wait, a sleep, or `AutoSet`, and has not made its last. `makes` says
/// whether `kind` is the entry that is due. `SleepD` is a sleep in `TASK_UNINTERRUPTIBLE`. `Pass`: the task
/// goes on past a `try_to_freeze`. `Mem` if the end of a sleep overflows.
fn is_of_op(
    past: &Passed<'_>,
    position: ScriptPosition,
    op: Option<&Op>,
    kind: Kind,
) -> Result<bool, Mem>
    ensures { IfOk result (λ b. IsTrue b
        ↔ IsOfOp past.now.machine (journal_of past.now) position (option_copied op.entry) kind) }
{
    let Some(op) = op else {
        return Ok(matches!(kind, Kind::Exit));
    };
    match op {
        Op::Read => Ok(is_of_count_read(kind)),
        Op::Save { .. } => Ok(is_of_count_save(kind)),
        Op::State { .. } => Ok(is_of_state_write(kind)),
        Op::Autosleep { text } => {
            let text = text.as_slice();
            Ok(is_of_autosleep(position.waits, is_mem(text), is_off(text), kind))
        }
        Op::Sleep { ms } => Ok(makes(sleep_due(*ms, position, past.journal_time())?, kind)),
        Op::SleepD { ms } => Ok(makes(sleep_d_due(*ms, position, past.journal_time())?, kind)),
        Op::FreezePoint => Ok(matches!(kind, Kind::Pass)),
        Op::Post { mark } => Ok(is_post_of(*mark, kind)),
        Op::Wait { mark } => Ok(makes(mark_due(*mark, past.raised(*mark)), kind)),
        Op::Runtime {
            device,
            to_suspended,
        } => Ok(is_request_of(*device, *to_suspended, kind)),
        Op::Link { supplier, consumer } => Ok(is_link_of(*supplier, *consumer, kind)),
        Op::LinkState {
            supplier,
            consumer,
            active,
        } => Ok(is_link_state_of(*supplier, *consumer, *active, kind)),
        // A call on a source makes no entry of the journal.
        Op::Awake { .. } | Op::Relax { .. } | Op::Event { .. } => Ok(false),
    }
}

/// Whether the entry belongs to the operation, or says that the task was frozen at it (`Frozen`), if a task
/// that is asked to freeze may do so there (`freezes_at`).
fn is_step(
    past: &Passed<'_>,
    user: bool,
    position: ScriptPosition,
    op: Option<&Op>,
    kind: Kind,
) -> Result<bool, Mem>
    ensures { IfOk result (λ b. IsTrue b
        ↔ IsStep past.now.machine (journal_of past.now) user position (option_copied op.entry) kind) }
{
    match kind {
        Kind::Frozen => Ok(freezes_at(user, position.waits, op)),
        _ => {
            // By the `?` the proof has what `is_of_op` promises.
            let keeps = is_of_op(past, position, op, kind)?;
            Ok(keeps)
        }
    }
}

/// Whether the entry is a step of script i, which is there and has not exited. The field `actors` of a
/// machine has only its scripts; `script.kind` says of which kind of task a script is.
fn is_script_step(past: &Passed<'_>, i: u32, kind: Kind) -> Result<bool, Mem>
    ensures { IfOk result (λ b. IsTrue b ↔ IsScriptStep past.now.machine (journal_of past.now)
        (position_of past.now.machine (journal_of past.now) i) (op_of past.now.machine (journal_of past.now) i)
        (slice_get past.now.machine.actors i) kind) }
{
    let position = past.position(i);
    match past.machine().actors.as_slice().get(i as usize) {
        None => Ok(false),
        Some(script) => {
            if position.exited {
                return Ok(false);
            }
            let keeps = is_step(
                past,
                is_user(script.kind),
                position,
                past.operation(i),
                kind,
            )?;
            Ok(keeps)
        }
    }
}

/// Whether the entry is one of the autosleep work in the state `work`. The work is `try_to_suspend`:
/// `Reading` and `Looking` are its two calls of `pm_get_wakeup_count`, `Saving` is `pm_save_wakeup_count`.
/// `Attempting` comes after a count that is saved: if `autosleep_state` is `PM_SUSPEND_ON`, the work returns
/// at once, else it calls `pm_suspend`. `Napping` is its sleep of half a second, and `Closing` is
/// `queue_up_suspend_work`. While `Resting` it does not run; it may if it is queued (`may_run`). It runs
/// `auto_cycles` times at most, a number in the description of the machine; the kernel has no such bound.
///
/// `AutoRun` begins the work. `AutoSaved` and `AutoUnsaved` say that `pm_save_wakeup_count` answered true or
/// false. `AutoAfter` has the second count, and `AutoAgain` queues the work anew. `AutoOff` ends it because
/// autosleep is off: it is that return, or a `queue_up_suspend_work` that queues nothing. (`AutoSet`,
/// `AutoDone` and `AutoBad` are entries of a write to `/sys/power/autosleep`.) `reads.rt` has the rule that
/// the work makes an attempt only if autosleep is on. `Mem` if the end of its sleep overflows.
fn is_work_step(past: &Passed<'_>, now: EventNow, work: Work, kind: Kind) -> Result<bool, Mem>
    ensures { IfOk result (λ b. IsTrue b ↔ IsWorkStep past.now.machine (journal_of past.now) now work kind) }
{
    match (work, kind) {
        (Work::Resting, Kind::AutoRun) => Ok(past.may_run()),
        (Work::Reading, Kind::Read(_)) => Ok(true),
        (Work::Saving(_), Kind::AutoSaved(_)) | (Work::Saving(_), Kind::AutoUnsaved(_)) => Ok(true),
        (Work::Attempting(_), Kind::Attempt { .. }) => Ok(true),
        (Work::Attempting(_), Kind::AutoOff) => Ok(!past.autosleep_is_on()),
        (Work::Looking(_), Kind::AutoAfter(seen)) => Ok(is_same_number(seen, seen_count(now))),
        (Work::Napping(None), Kind::SleepD(until)) => Ok(
            until == later_by(past.journal_time(), NAP_MSECS)?,
        ),
        (Work::Napping(Some(until)), Kind::Slept) => Ok(until <= past.journal_time()),
        (Work::Closing, Kind::AutoAgain) => Ok(past.autosleep_is_on()),
        (Work::Closing, Kind::AutoOff) => Ok(!past.autosleep_is_on()),
        _ => Ok(false),
    }
}

/// Whether the entry is one of an asynchronous device whose own work is in the state `work`.
fn is_device_step(device: u32, work: AsyncWork, kind: Kind) -> bool
    ensures { IsTrue result ↔ IsDeviceStep device work kind }
{
    match (work, kind) {
        (AsyncWork::Scheduled(p), Kind::Begin(q, d))
        | (AsyncWork::Scheduled(p), Kind::Skip(q, d, _)) => d == device && is_phase(q, p),
        (AsyncWork::Inside(p), Kind::End(q, d, _)) => d == device && is_phase(q, p),
        _ => false,
    }
}

/// Whether an attempt's maker makes entries of this kind. Its walk itself begins, ends and skips only
/// synchronous devices.
fn is_maker_step(past: &Passed<'_>, kind: Kind) -> bool
    ensures { IsTrue result ↔ IsMakerStep past.now.machine kind }
{
    match kind {
        Kind::Begin(_, d) | Kind::End(_, d, _) | Kind::Skip(_, d, _) => !past.is_async(d),
        Kind::Over { .. }
        | Kind::NotifyPrepare(..)
        | Kind::NotifyPost(_)
        | Kind::Freeze(_)
        | Kind::Froze(..)
        | Kind::Thaw(_)
        | Kind::PlatformDo(..)
        | Kind::PlatformUndo(_)
        | Kind::Prepare { .. }
        | Kind::Complete(_)
        | Kind::Schedule(..)
        | Kind::Done(..)
        | Kind::CpuOff(_)
        | Kind::CpuBusy(_)
        | Kind::CpuOn(_)
        | Kind::Irqs { .. }
        | Kind::SyscoreCheck(_)
        | Kind::SyscoreSuspend(..)
        | Kind::SyscoreResume(_)
        | Kind::Enter { .. }
        | Kind::Wake { .. }
        | Kind::Clear => true,
        _ => false,
    }
}

/// Whether an entry keeps the rule of steps. It is the next step of `who`, or, if `who` makes the open
/// attempt, any step of an attempt (`kernel/power/main.c`, `autosleep.c`, `suspend.c`,
/// `drivers/base/power/main.c`). `Mem` if the end of a sleep overflows.
pub fn keeps_steps(past: &Passed<'_>, now: EventNow, who: Actor, kind: Kind) -> Result<bool, Mem>
    ensures { IfOk result (λ b. IsTrue b ↔ KeepsSteps past.now.machine (journal_of past.now) now who kind) }
{
    if past.is_maker(who) {
        return Ok(is_maker_step(past, kind));
    }
    match who {
        Actor::Script(i) => is_script_step(past, i, kind),
        Actor::Auto => is_work_step(past, now, past.work(), kind),
        Actor::Dev(d) => Ok(is_device_step(d, async_work(past, d), kind)),
        // A timer makes only calls on its source, which the journal does not list. Time makes only jumps,
        // which move the clock if nobody can go on. A jump is an entry of the journal, too. `entries.rt`
        // looks at calls and jumps itself, so what comes here is another entry, which neither can make.
        Actor::Timer(_) | Actor::Time => Ok(false),
    }
}
