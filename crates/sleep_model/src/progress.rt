//! How far an attempt, its devices and its scripts have come, and what is due.
use crate::entry::{Group, Kind, Thaw};
use crate::log::Why;
use crate::machine::{PlatDo, PlatUndo};
use phase_table::Phase;

/// The position of a script: how many of its steps that make entries are made, and what it knows.
#[derive(Clone, Copy)]
pub struct ScriptPosition {
    pub done: usize,
    /// How many turns of its steps are made: a step has one, and the setting of autosleep one more.
    pub turns: usize,
    /// The step under way has begun: it has said that it waits, or that it sleeps or sets autosleep.
    pub waits: bool,
    /// The count that the task's last answered read gave.
    pub last_read: Option<u32>,
    /// The task's last save was ok.
    pub saved: bool,
    /// Until when the script sleeps, in ms, if it does.
    pub until: Option<u64>,
    pub exited: bool,
}

/// What the freezer has come to with a task (`kernel/freezer.c`, `freezing` and `frozen`).
#[derive(Clone, Copy, PartialEq, Eq)]
pub struct Freezing {
    pub asked: bool,
    pub frozen: bool,
}

/// The state of a device in a pair of phases, the one on the way down and its mirror on the way up
/// (`include/linux/pm.h`, `struct dev_pm_info`).
#[derive(Clone, Copy, PartialEq, Eq)]
pub enum PhaseState {
    /// Not prepared (`power.is_prepared` is false).
    Unprepared,
    /// Prepared, and not yet taken by the phase (`power.is_prepared`).
    Prepared,
    /// Scheduled by the walk down, and not yet begun (`async_schedule_dev`, `async_suspend`).
    Scheduled,
    /// Inside its callback on the way down (`dpm_run_callback`).
    Suspending,
    /// Its callback failed, or it was skipped by an error or a wakeup (only `power.completion` is done).
    Failed,
    /// Direct-complete (`power.direct_complete`).
    Direct,
    /// Its callback on the way down answered 0 (`power.is_suspended`, `is_late_suspended`,
    /// `is_noirq_suspended`).
    Suspended,
    /// Scheduled by the walk up, and not yet begun (`async_schedule_dev`, `async_resume`).
    Rescheduled,
    /// Inside its callback on the way up (`dpm_run_callback`).
    Resuming,
    /// Its callback on the way up has ended.
    Resumed,
}

/// A stage of an attempt: one row of its table (`kernel/power/suspend.c`, `enter_state`,
/// `suspend_devices_and_enter` and `suspend_enter`).
#[derive(Clone, Copy, PartialEq, Eq)]
pub enum Stage {
    /// Notifiers hear that the machine is to sleep (`PM_SUSPEND_PREPARE`).
    Notifies,
    /// A group of tasks is frozen (`freeze_processes`, `freeze_kernel_threads`).
    Freezes(Group),
    /// A step of the platform on the way down (`platform_suspend_begin` and its like).
    PlatformDo(PlatDo),
    /// Devices are prepared (`dpm_prepare`).
    Prepares,
    /// A phase on the devices' way down (`dpm_suspend`, `dpm_suspend_late`, `dpm_suspend_noirq`).
    Downs(Phase),
    /// The other processors are stopped (`pm_sleep_disable_secondary_cpus`).
    StopsCpus,
    /// Interrupts are turned off (`arch_suspend_disable_irqs`).
    StopsIrqs,
    /// The core tests for a wakeup (`syscore_suspend`).
    ChecksWakeup,
    /// The syscore operations are suspended (`syscore_suspend`).
    StopsSyscore,
    /// The machine enters sleep, and wakes (`suspend_ops`, `enter`).
    Enters,
    /// The syscore operations are resumed (`syscore_resume`).
    StartsSyscore,
    /// Interrupts are turned on (`arch_suspend_enable_irqs`).
    StartsIrqs,
    /// The other processors are started (`pm_sleep_enable_secondary_cpus`).
    StartsCpus,
    /// A step of the platform on the way up (`platform_resume_noirq` and its like).
    PlatformUndo(PlatUndo),
    /// A phase on the devices' way up (`dpm_resume_noirq`, `dpm_resume_early`, `dpm_resume`).
    Ups(Phase),
    /// Devices are completed (`dpm_complete`).
    Completes,
    /// `events_check_enabled` is set to false, so that no saved count is in force any more (`enter_state`).
    ClearsEventsCheck,
    /// Tasks are let go (`thaw_kernel_threads`, `thaw_processes`).
    Thaws(Thaw),
    /// Notifiers hear that it is over (`PM_POST_SUSPEND`).
    NotifiesPost,
    /// The attempt is over.
    Ends,
}

/// A machine that sleeps: the word's position and the time, in ms, at its entering
/// (`kernel/power/suspend.c`, `suspend_enter`).
#[derive(Clone, Copy)]
pub struct Sleep {
    pub pos: u64,
    pub since: u64,
}

/// A callback that the attempt's maker runs: its phase and its device (`drivers/base/power/main.c`,
/// `dpm_run_callback`).
#[derive(Clone, Copy)]
pub struct Callback {
    pub phase: Phase,
    pub device: u32,
}

/// The state of an asynchronous device's own work (`drivers/base/power/main.c`, `async_schedule_dev`): it has
/// none, it is scheduled, or it is inside its callback.
#[derive(Clone, Copy)]
pub enum AsyncWork {
    Idle,
    Scheduled(Phase),
    Inside(Phase),
}

/// The state of the autosleep work (`kernel/power/autosleep.c`, `try_to_suspend`).
#[derive(Clone, Copy)]
pub enum Work {
    /// It is not at work.
    Resting,
    /// It is to read the count.
    Reading,
    /// It is to save this count.
    Saving(u32),
    /// It has saved this count, and is to make an attempt or makes it.
    Attempting(u32),
    /// Its attempt under this count is over, and it is to look at the count again.
    Looking(u32),
    /// It naps, up to that moment in ms once the nap has begun.
    Napping(Option<u64>),
    /// It is to end.
    Closing,
}

/// What is due of an actor: the one entry that it can make, what it waits for, or nothing more.
#[derive(Clone, Copy)]
pub enum Due {
    /// It makes this entry.
    Makes(Kind),
    /// It waits for that.
    Waits(Why),
    /// Nothing is left for it to make.
    Nothing,
}
