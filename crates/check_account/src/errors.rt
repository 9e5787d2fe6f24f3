//! The callback that the attempt's maker runs, the errors of the open phase, and what an attempt stops
//! besides tasks and devices.

ghost use Rattle.std.specs.Prelude.{◌≡◌};
ghost use Rattle.sleep_model.specs.Answers.{error_of_number};
ghost use Rattle.sleep_model.specs.Devices.{is_device, callback_after, error_in, error_by, phase_failed_after, own_error_after};
ghost use Rattle.sleep_model.specs.Notifiers.{irqs_off_after, undoes, owes_platform_after};
ghost use Rattle.sleep_model.specs.Runtime.{disabled_by_direct_after, disabled_by_late_after};
ghost use Rattle.sleep_model.specs.Walk.{or_else};

use phase_table::Phase;
use sleep_base::Errno;
use sleep_model::{Actor, Callback, Kind, PlatDo, PlatUndo, SkipCause};

/// Whether that actor is an asynchronous device.
pub(crate) fn is_device(who: Actor) -> bool
    ensures { result ≡ is_device who }
{
    matches!(who, Actor::Dev(_))
}

/// The callback that the attempt's maker runs after an entry, which is a device's own or not
/// (`drivers/base/power/main.c`, `dpm_run_callback`).
pub(crate) fn callback_after(kind: Kind, own: bool, before: Option<Callback>) -> Option<Callback>
    ensures { result ≡ callback_after kind own before }
{
    match kind {
        Kind::Begin(phase, device) if !own => Some(Callback { phase, device }),
        Kind::End(..) if !own => None,
        _ => before,
    }
}

/// The error of a callback counts on the way down.
fn error_in(phase: Phase, r: Option<Errno>, before: Option<Errno>) -> Option<Errno>
    ensures { result ≡ error_in phase r before }
{
    match r {
        Some(r) if phase.is_down() => Some(r),
        _ => before,
    }
}

/// A wakeup that a device finds is an error.
fn error_by(cause: SkipCause, before: Option<Errno>) -> Option<Errno>
    ensures { result ≡ error_by cause before }
{
    match cause {
        SkipCause::Pending => Some(Errno::EBUSY),
        _ => before,
    }
}

/// An answer to prepare that is an error's number is the phase's error.
fn error_of(r: i32, before: Option<Errno>) -> Option<Errno>
    ensures { result ≡ or_else (error_of_number r) before }
{
    match Errno::of_answer(r) {
        None => before,
        error => error,
    }
}

/// The error of the open phase after an entry (`async_error`).
pub(crate) fn phase_failed_after(kind: Kind, before: Option<Errno>) -> Option<Errno>
    ensures { result ≡ phase_failed_after kind before }
{
    match kind {
        Kind::Attempt { .. } | Kind::Done(..) => None,
        Kind::Prepare { r, .. } => error_of(r, before),
        Kind::End(phase, _, r) => error_in(phase, r, before),
        Kind::Skip(_, _, cause) => error_by(cause, before),
        _ => before,
    }
}

/// The error of a synchronous device's callback in the open phase, after an entry, which is a device's own or
/// not (`dpm_suspend`).
pub(crate) fn own_error_after(kind: Kind, own: bool, before: Option<Errno>) -> Option<Errno>
    ensures { result ≡ own_error_after kind own before }
{
    match kind {
        Kind::Attempt { .. } | Kind::Done(..) => None,
        Kind::End(phase, _, r) if !own => error_in(phase, r, before),
        _ => before,
    }
}

/// Whether suspend has skipped a device as direct-complete after an entry, and resume is not done since
/// (`drivers/base/power/main.c`, `__device_suspend`).
pub(crate) fn disabled_by_direct_after(kind: Kind, before: bool) -> bool
    ensures { result ≡ disabled_by_direct_after kind before }
{
    match kind {
        Kind::Skip(Phase::Suspend, _, SkipCause::Direct) => true,
        Kind::Done(Phase::Resume, _) => false,
        _ => before,
    }
}

/// Whether late has taken a device after an entry, and early is not done since (`__device_suspend_late`).
pub(crate) fn disabled_by_late_after(kind: Kind, before: bool) -> bool
    ensures { result ≡ disabled_by_late_after kind before }
{
    match kind {
        Kind::Begin(Phase::Late, _) | Kind::Skip(Phase::Late, ..) => true,
        Kind::Done(Phase::Early, _) => false,
        _ => before,
    }
}

/// Whether interrupts are off after an entry (`arch_suspend_disable_irqs`).
pub(crate) fn irqs_off_after(kind: Kind, before: bool) -> bool
    ensures { result ≡ irqs_off_after kind before }
{
    match kind {
        Kind::Irqs { on } => !on,
        _ => before,
    }
}

/// Whether that step on the way up undoes this one on the way down.
fn undoes(told: PlatUndo, step: PlatDo) -> bool
    ensures { result ≡ undoes told step }
{
    matches!(
        (told, step),
        (PlatUndo::End, PlatDo::Begin)
            | (PlatUndo::Finish, PlatDo::Prepare)
            | (PlatUndo::Wake, PlatDo::PrepareLate)
    )
}

/// Whether that step of the platform is to be undone after an entry (`kernel/power/suspend.c`,
/// `platform_suspend_begin`, `platform_resume_end`).
pub(crate) fn owes_platform_after(kind: Kind, step: PlatDo, before: bool) -> bool
    ensures { result ≡ owes_platform_after kind step before }
{
    match kind {
        Kind::PlatformDo(asked, _) => asked == step || before,
        Kind::PlatformUndo(told) => !undoes(told, step) && before,
        _ => before,
    }
}
