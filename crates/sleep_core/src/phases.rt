//! What is due in the phases of devices (`drivers/base/power/main.c`).

ghost use Rattle.std.specs.Prelude.{◌≡◌, true, ◌⊎◌, None, IfSome};
ghost use Rattle.phase_table.specs.Phases.{is_down, is_up};
ghost use Rattle.sleep_model.specs.Devices.{callback, device_error, phase_failed, next_prepared, next_completed, down_due, up_due, prepare_due, complete_due, scheduled_due, device_due, async_work};
ghost use Rattle.sleep_model.specs.Runtime.{runtime_due};
ghost use Rattle.sleep_state.specs.JournalRooms.{entries};
ghost use Rattle.phase_prepare.specs.AtPoints.{prepare_number};
ghost use Rattle.sleep_core.specs.Seen.{IsDownEnvOf};

use crate::state::Core;
use phase_suspend::{Down, DownEnv};
use sleep_base::Errno;
use sleep_model::{AsyncWork, Due, EventNow, Kind, Phase, What, Why};

impl<'m> Core<'m> {
    /// The error that the machine's answers have for a device in that phase of the open attempt.
    #[inline(never)]
    fn answered_error(&self, p: Phase, device: u32) -> Option<Errno>
        ensures { result ≡ device_error self.now.machine (entries self.now.past) p device }
    {
        self.answered(What::Device(device, p))
    }

    /// What the machine answers for a device in that phase of the open attempt. Most machines answer nothing
    /// at all.
    #[inline(always)]
    pub(crate) fn device_error(&self, p: Phase, device: u32) -> Option<Errno>
        ensures { result ≡ device_error self.now.machine (entries self.now.past) p device }
    {
        if self.machine().answers.len() > 0 {
            self.answered_error(p, device)
        } else {
            None
        }
    }

    /// The walk of a phase on the way down, inside no callback.
    #[inline(always)]
    fn walk_down(&self, now: EventNow, p: Phase) -> Due
        requires { is_down p ≡ true }
        ensures { result ≡ down_due self.now.machine (entries self.now.past) now p None }
    {
        let down = Down {
            async_error: self.phase_failed(),
            error: self.own_error(),
        };
        down.walk_due(&self.down_env(now), p)
    }

    /// A device that is scheduled on the way down.
    #[inline(always)]
    fn scheduled_down(&self, now: EventNow, p: Phase, device: u32) -> Due
        requires { is_down p ≡ true }
        ensures { result ≡ scheduled_due self.now.machine (entries self.now.past) now p device }
    {
        let down = Down {
            async_error: self.phase_failed(),
            error: self.own_error(),
        };
        down.device_due(&self.down_env(now), p, device)
    }

    /// What a phase on the way down looks at.
    #[inline(always)]
    fn down_env(&self, now: EventNow) -> DownEnv<'_>
        ensures { IsDownEnvOf self.now now result }
    {
        let devices = self.history.devices();
        DownEnv {
            board: self.board(),
            asks_direct: devices.asks_direct(),
            runtime_suspended: devices.statuses(),
            may_wakeup: &self.wakeup,
            wakeup_pending: self.pending(now),
        }
    }

    /// A phase on the way down, at its walk.
    #[inline(always)]
    pub(crate) fn down_due(&self, now: EventNow, p: Phase) -> Due
        requires { is_down p ≡ true }
        ensures { result ≡ down_due self.now.machine (entries self.now.past) now p (callback (entries self.now.past)) }
    {
        match self.callback() {
            Some(c) => Due::Makes(Kind::End(p, c.device, self.device_error(p, c.device))),
            None => self.walk_down(now, p),
        }
    }

    /// A phase on the way up, at its walk.
    #[inline(always)]
    pub(crate) fn up_due(&self, p: Phase) -> Due
        requires { is_up p ≡ true }
        ensures { result ≡ up_due self.now.machine (entries self.now.past) p (callback (entries self.now.past)) }
    {
        match self.callback() {
            Some(c) => Due::Makes(Kind::End(p, c.device, self.device_error(p, c.device))),
            None => phase_resume::walk_due(self.board(), p),
        }
    }

    /// Prepare, at its walk.
    #[inline(always)]
    pub(crate) fn prepare_due(&self) -> Due
        ensures { result ≡ prepare_due self.now.machine (entries self.now.past) (phase_failed (entries self.now.past))
            (next_prepared self.now.machine (entries self.now.past)) }
    {
        let board = self.board();
        let r = self.prepare_number(board.next_prepared());
        phase_prepare::prepare_due(board, self.phase_failed(), r)
    }

    /// What the machine answers for the prepare of that device, and 0 if there is none.
    fn prepare_number(&self, device: Option<u32>) -> i32
        ensures { IfSome device (λ d. result ≡ prepare_number self.now.machine (entries self.now.past) d) }
    {
        match device {
            None => 0,
            Some(d) => self
                .answers()
                .number(What::Device(d, Phase::Prepare), self.attempts()),
        }
    }

    /// Complete, at its walk.
    #[inline(always)]
    pub(crate) fn complete_due(&self) -> Due
        ensures { result ≡ complete_due (next_completed self.now.machine (entries self.now.past)) }
    {
        phase_prepare::complete_due(self.board())
    }

    /// What a request for a device's runtime status is answered.
    pub(crate) fn runtime_due(&self, device: u32, to_suspended: bool) -> Option<Errno>
        ensures { result ≡ runtime_due self.now.machine device to_suspended (entries self.now.past) }
    {
        let devices = self.history.devices();
        phase_suspend::runtime_due(
            self.board(),
            devices.disabled_by_direct(),
            devices.disabled_by_late(),
            device,
            to_suspended,
        )
    }

    /// An asynchronous device that is scheduled in that phase.
    #[inline(always)]
    fn scheduled_due(&self, now: EventNow, p: Phase, device: u32) -> Due
        requires { (is_down p ≡ true) ⊎ (is_up p ≡ true) }
        ensures { result ≡ scheduled_due self.now.machine (entries self.now.past) now p device }
    {
        if p.is_down() {
            self.scheduled_down(now, p, device)
        } else {
            phase_resume::device_due(self.board(), p, device)
        }
    }

    /// An asynchronous device, by that state of its work.
    #[inline(always)]
    pub(crate) fn device_due_at(&self, now: EventNow, device: u32, work: AsyncWork) -> Due
        requires { work ≡ async_work self.now.machine (entries self.now.past) device }
        ensures { result ≡ device_due self.now.machine (entries self.now.past) now device work }
    {
        match work {
            AsyncWork::Idle => Due::Waits(Why::NotScheduled),
            AsyncWork::Scheduled(p) => self.scheduled_due(now, p, device),
            AsyncWork::Inside(p) => Due::Makes(Kind::End(p, device, self.device_error(p, device))),
        }
    }

    /// An asynchronous device, by the state of its work.
    #[inline(always)]
    pub(crate) fn device_due(&self, now: EventNow, device: u32) -> Due
        ensures { result ≡ device_due self.now.machine (entries self.now.past) now device
            (async_work self.now.machine (entries self.now.past) device) }
    {
        self.device_due_at(now, device, self.board().work(device))
    }
}
