//! The counts of a log, and the last failures.

ghost use Rattle.std.specs.Prelude.{◌≡◌, ◌<◌, ◌^◌, length};
ghost use Rattle.sleep_model.specs.Places.{one_if};
ghost use Rattle.sleep_stats.specs.Counting.{AreAtMost, attempt_error, callback_fails, counts_after, counts_of, devs_after, errnos_after, failed_dev, failed_in, freeze_fails, may_count, no_counts, phase_fails, succeeds};

use sleep_base::Errno;
use sleep_model::{FrozeEnd, Kind, Log, Phase};

/// What a log counts of its attempts (`include/linux/suspend.h`, `struct suspend_stats`).
#[derive(Clone, Copy, Debug, PartialEq, Eq)]
pub struct Counts {
    /// Attempts that ended without an error.
    pub success: u32,
    /// Attempts that ended with one.
    pub fail: u32,
    /// Freezes that left tasks.
    pub failed_freeze: u32,
    /// Phases on the way down that ended with an error.
    pub failed_prepare: u32,
    pub failed_suspend: u32,
    pub failed_suspend_late: u32,
    pub failed_suspend_noirq: u32,
    /// Callbacks on the way up that ended with an error.
    pub failed_resume: u32,
    pub failed_resume_early: u32,
    pub failed_resume_noirq: u32,
    pub last_devs: LastDevs,
    pub last_errnos: LastErrnos,
}

/// A device whose callback failed, in that phase, with that error.
#[derive(Clone, Copy, Debug, PartialEq, Eq)]
pub struct LastDev {
    pub device: u32,
    pub phase: Phase,
    pub error: Errno,
}

/// The last two devices whose callbacks failed.
#[derive(Clone, Copy, Debug, PartialEq, Eq)]
pub struct LastDevs {
    pub newest: Option<LastDev>,
    pub older: Option<LastDev>,
}

/// The errors of the last two attempts that failed.
#[derive(Clone, Copy, Debug, PartialEq, Eq)]
pub struct LastErrnos {
    pub newest: Option<Errno>,
    pub older: Option<Errno>,
}

/// 1 if it is so, else 0.
fn one_if(so: bool) -> u32
    ensures { result ≡ one_if so }
{
    if so { 1 } else { 0 }
}

/// Whether an attempt ends without an error.
fn succeeds(kind: Kind) -> bool
    ensures { result ≡ succeeds kind }
{
    matches!(kind, Kind::Over { r: None, .. })
}

/// The error that an attempt ends with.
fn attempt_error(kind: Kind) -> Option<Errno>
    ensures { result ≡ attempt_error kind }
{
    match kind {
        Kind::Over { r, .. } => r,
        _ => None,
    }
}

/// Whether a freeze leaves tasks.
fn freeze_fails(kind: Kind) -> bool
    ensures { result ≡ freeze_fails kind }
{
    match kind {
        Kind::Froze(_, FrozeEnd::AllFrozen) => false,
        Kind::Froze(_, _) => true,
        _ => false,
    }
}

/// Whether that phase, on the way down, ends with an error.
fn phase_fails(phase: Phase, kind: Kind) -> bool
    ensures { result ≡ phase_fails phase kind }
{
    match kind {
        Kind::Done(ended, Some(_)) => ended == phase,
        _ => false,
    }
}

/// Whether a device's callback ends with an error in that phase.
fn callback_fails(phase: Phase, kind: Kind) -> bool
    ensures { result ≡ callback_fails phase kind }
{
    match kind {
        Kind::End(ended, _, Some(_)) => ended == phase,
        _ => false,
    }
}

/// The device, if its callback fails in that phase.
fn failed_in(phase: Phase, device: u32, error: Option<Errno>) -> Option<LastDev>
    ensures { result ≡ failed_in phase device error }
{
    let error = error?;
    Some(LastDev {
        device,
        phase,
        error,
    })
}

/// The device whose callback fails, and its phase.
fn failed_dev(kind: Kind) -> Option<LastDev>
    ensures { result ≡ failed_dev kind }
{
    match kind {
        Kind::Prepare { device, r } => failed_in(Phase::Prepare, device, Errno::of_answer(r)),
        Kind::End(phase, device, r) => failed_in(phase, device, r),
        _ => None,
    }
}

/// Whether an entry may count: the end of an attempt or of a freeze, a phase or a callback that ends with an
/// error, or a prepare.
#[inline(always)]
fn may_count(kind: Kind) -> bool
    ensures { result ≡ may_count kind }
{
    matches!(
        kind,
        Kind::Over { .. }
            | Kind::Froze(..)
            | Kind::Done(_, Some(_))
            | Kind::End(_, _, Some(_))
            | Kind::Prepare { .. }
    )
}

impl LastDevs {
    /// Takes one more, if there is one, and keeps the newest before it.
    fn note(&mut self, failed: Option<LastDev>)
        ensures { self.new ≡ devs_after failed self.old }
    {
        if failed.is_some() {
            self.older = self.newest;
            self.newest = failed;
        }
    }
}

impl LastErrnos {
    /// Takes one more, if there is one, and keeps the newest before it.
    fn note(&mut self, error: Option<Errno>)
        ensures { self.new ≡ errnos_after error self.old }
    {
        if error.is_some() {
            self.older = self.newest;
            self.newest = error;
        }
    }
}

impl Counts {
    /// Nothing is counted.
    fn none() -> Self
        ensures { result ≡ no_counts }
    {
        Counts {
            success: 0,
            fail: 0,
            failed_freeze: 0,
            failed_prepare: 0,
            failed_suspend: 0,
            failed_suspend_late: 0,
            failed_suspend_noirq: 0,
            failed_resume: 0,
            failed_resume_early: 0,
            failed_resume_noirq: 0,
            last_devs: LastDevs {
                newest: None,
                older: None,
            },
            last_errnos: LastErrnos {
                newest: None,
                older: None,
            },
        }
    }

    /// Counts an entry.
    #[inline(always)]
    #[tactic(auto, using(crate::proofs::Uncounted::uncounted))]
    fn note(&mut self, kind: Kind)
        requires { AreAtMost 4294967294 self.old }
        ensures { self.new ≡ counts_after kind self.old }
    {
        // Most entries count nothing.
        if may_count(kind) {
            self.note_counted(kind);
        }
    }

    /// The same, also if the entry counts.
    #[inline(never)]
    fn note_counted(&mut self, kind: Kind)
        requires { AreAtMost 4294967294 self.old }
        ensures { self.new ≡ counts_after kind self.old }
    {
        self.success += one_if(succeeds(kind));
        self.fail += one_if(attempt_error(kind).is_some());
        self.failed_freeze += one_if(freeze_fails(kind));
        self.failed_prepare += one_if(phase_fails(Phase::Prepare, kind));
        self.failed_suspend += one_if(phase_fails(Phase::Suspend, kind));
        self.failed_suspend_late += one_if(phase_fails(Phase::Late, kind));
        self.failed_suspend_noirq += one_if(phase_fails(Phase::Noirq, kind));
        self.failed_resume += one_if(callback_fails(Phase::Resume, kind));
        self.failed_resume_early += one_if(callback_fails(Phase::Early, kind));
        self.failed_resume_noirq += one_if(callback_fails(Phase::ResumeNoirq, kind));
        self.last_devs.note(failed_dev(kind));
        self.last_errnos.note(attempt_error(kind));
    }
}

/// What a log counts of its attempts, in one pass over it and without memory.
pub fn count(log: &Log) -> Counts
    requires few { length log.now.entries < 2 ^ 32 }
    ensures { result ≡ counts_of log.now.entries }
{
    let mut counts = Counts::none();
    let mut reader = log.entries.reader();
    while let Some(entry) = reader.next() {
        counts.note(entry.kind);
    }
    counts
}
