//! What the walk of a phase on the way down does next, and what a device does (`dpm_suspend`,
//! `__device_suspend`). The phases are suspend, late and noirq. No callback is called here: each function
//! decides which step comes next. The core (`sleep_core`) records the step as one entry of the journal, the
//! list of a machine's steps; `Kind` says which step it is. A `Due` is what somebody has to do next: make one
//! entry, wait, with the cause (`Why`), or nothing. The subordinates of a device are its children, and its
//! consumers by links that are not `DL_STATE_DORMANT`. An attempt is one try to suspend, a call of
//! `enter_state`.
ghost use Rattle.std.specs.Prelude.{◌≡◌, None};
ghost use Rattle.sleep_model.specs.Devices.{unless_failed};
ghost use Rattle.sleep_model.specs.Walk.{or_else};
ghost use Rattle.phase_suspend.specs.Downs.{down_state, is_direct_on, begin_or_skip_on, walk_device_on, walk_end_on, walk_down_due_on, scheduled_down_on};

use async_board::{Board, is_direct_complete};
use device_rows::Flags;
use sleep_base::Errno;
use sleep_model::{Due, Kind, Phase, SkipCause, Why};

/// The errors of the phase under way, which decide how its walk and its devices go on
/// (`drivers/base/power/main.c`, `async_error`, `error`).
#[derive(Clone, Copy)]
pub struct Down {
    /// The last error: of any device's callback, or `EBUSY` of a wakeup that was found.
    pub async_error: Option<Errno>,
    /// The error of the synchronous device's callback that failed, if one did. Then `async_error` is set,
    /// too, so the walk tests only `async_error`; `dpm_suspend` tests both.
    pub error: Option<Errno>,
}

/// What a phase on the way down looks at.
#[derive(Clone, Copy)]
pub struct DownEnv<'a> {
    /// The state of each device in the phases (`struct dev_pm_info`). A `Board` is a table of these states:
    /// one for each device and each pair of phases, such as suspend and resume.
    pub board: &'a Board,
    /// Which devices' `prepare` answered 1 in this attempt: they ask for direct-complete. It answers 0, 1 or
    /// an error here; in the kernel any number above 0 asks.
    pub asks_direct: &'a Flags,
    /// Which devices are runtime suspended.
    pub runtime_suspended: &'a Flags,
    /// Which devices may wake the machine.
    pub may_wakeup: &'a Flags,
    /// A wakeup is pending.
    pub wakeup_pending: bool,
}

/// Whether the phase skips the device as direct-complete. Suspend does if the device asked for it, is runtime
/// suspended, may not wake the machine, and all its subordinates are direct-complete. Late and noirq do if
/// suspend did. The kernel differs: there a consumer by a dormant link counts, too
/// (`dpm_clear_superiors_direct_complete`). Here only those count for which the device waits;
/// docs/BEHAVIOUR.md lists what departs from the kernel.
#[inline(always)]
fn is_direct(env: &DownEnv<'_>, p: Phase, device: u32) -> bool
    ensures { (down : Down) → result ≡ is_direct_on (down_state down env.now) p device }
{
    match p {
        Phase::Suspend => {
            env.asks_direct.is_set(device)
                && env.runtime_suspended.is_set(device)
                && !env.may_wakeup.is_set(device)
                && env.board.all_below_direct_complete(device)
        }
        _ => is_direct_complete(env.board.state(Phase::Suspend, device)),
    }
}

/// The entry of a device that waits for no other, if there is no error. The device is skipped if a wakeup is
/// pending and the phase checks for one, as suspend and late do. Else it is skipped as direct-complete, or
/// its callback begins.
#[inline(always)]
fn begin_or_skip(env: &DownEnv<'_>, p: Phase, device: u32) -> Kind
    ensures { (down : Down) → result ≡ begin_or_skip_on (down_state down env.now) p device }
{
    if p.checks_wakeup() && env.wakeup_pending {
        Kind::Skip(p, device, SkipCause::Pending)
    } else if is_direct(env, p, device) {
        Kind::Skip(p, device, SkipCause::Direct)
    } else {
        Kind::Begin(p, device)
    }
}

impl Down {
    /// What the phase answers: a synchronous callback's error, else `async_error`.
    fn answer(&self) -> Option<Errno>
        ensures { result ≡ or_else self.now.error self.now.async_error }
    {
        match self.error {
            Some(error) => Some(error),
            None => self.async_error,
        }
    }

    /// What the walk of a phase on the way down does next while it runs no callback (`dpm_suspend`,
    /// `dpm_suspend_late`, `dpm_noirq_suspend_devices`). It begins with the last device of the order
    /// (`dpm_list`), and ends with the first. It schedules an asynchronous one. For a synchronous one it
    /// waits for its subordinates, then skips it or begins its callback. After an error, or when no device is
    /// left, it waits for all that were scheduled, and ends.
    #[inline(always)]
    pub fn walk_due(&self, env: &DownEnv<'_>, p: Phase) -> Due
        ensures { result ≡ walk_down_due_on (down_state self.now env.now) p }
    {
        match (self.async_error, env.board.next_down(p)) {
            (None, Some(device)) => self.walk_device(env, p, device),
            _ => self.walk_end(env, p),
        }
    }

    /// What a device whose callback has not begun does next on the way down (`__device_suspend`), in its own
    /// async work or inside the walk. It waits for its subordinates. Then it is skipped (after an error, for
    /// a pending wakeup, or as direct-complete), or its callback begins.
    #[inline(always)]
    pub fn device_due(&self, env: &DownEnv<'_>, p: Phase, device: u32) -> Due
        ensures { result ≡ scheduled_down_on (down_state self.now env.now) p device }
    {
        match env.board.waits_for_subordinates(p, device) {
            Some(other) => Due::Waits(Why::Device(other)),
            None => Due::Makes(self.device_step(env, p, device)),
        }
    }

    /// The entry of a device that waits for no other. After an error the device is skipped.
    #[inline(always)]
    fn device_step(&self, env: &DownEnv<'_>, p: Phase, device: u32) -> Kind
        ensures { result ≡ unless_failed self.now.async_error p device
            (begin_or_skip_on (down_state self.now env.now) p device) }
    {
        match self.async_error {
            Some(_) => Kind::Skip(p, device, SkipCause::Error),
            None => begin_or_skip(env, p, device),
        }
    }

    /// The walk's next step at `device`, if there is no error. It schedules an asynchronous device; for a
    /// synchronous one it does what the device does (`device_due`).
    #[inline(always)]
    fn walk_device(&self, env: &DownEnv<'_>, p: Phase, device: u32) -> Due
        requires { self.now.async_error ≡ None }
        ensures { result ≡ walk_device_on (down_state self.now env.now) p device }
    {
        if env.board.is_asynchronous(device) {
            Due::Makes(Kind::Schedule(p, device))
        } else {
            self.device_due(env, p, device)
        }
    }

    /// The end of the walk, after all that were scheduled are done. `waits_down` answers the first that is
    /// scheduled and not done (`async_synchronize_full`).
    fn walk_end(&self, env: &DownEnv<'_>, p: Phase) -> Due
        ensures { result ≡ walk_end_on (down_state self.now env.now) p }
    {
        match env.board.waits_down(p) {
            Some(other) => Due::Waits(Why::Device(other)),
            None => Due::Makes(Kind::Done(p, self.answer())),
        }
    }
}
