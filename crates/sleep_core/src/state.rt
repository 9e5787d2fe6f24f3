//! The core of system sleep for one machine, and what its parts read of it.
use crate::reports::Reports;
use async_board::Board;
use autosleep_loop::is_actor;
use core_history::History;
use device_rows::Flags;
use machine_plans::{MachinePlans, PlannedAnswers};
use script_plan::Plan;
use sleep_base::Errno;
use sleep_model::{Actor, Callback, EventNow, Group, Machine, Sleep, Stage, TaskKind, What};
use std::marker::Model;
use task_freezer::{Left, Round};

/// The core of system sleep for one machine: what each actor may do next, and the journal of what it did
/// (`kernel/power/suspend.c`, `drivers/base/power/main.c`).
#[derive(Drop)]
pub struct Core<'m> {
    pub(crate) history: History<'m>,
    // The machine's scripts and answers, which the jobs of its actors share.
    pub(crate) plans: &'m MachinePlans<'m>,
    // Which devices may wake the machine.
    pub(crate) wakeup: Flags,
    // The calls on sources that callbacks have reported.
    pub(crate) reports: Reports,
}

impl<'m> Model for Core<'m> {
    ghost use Rattle.sleep_core.specs.Cores.{CoreState};

    ghost Value = { CoreState };

    ghost use Rattle.sleep_core.specs.CoreFields.{seen_core, core_invariant};

    ghost view = { seen_core };

    ghost invariant = { core_invariant };
}

impl<'m> Core<'m> {
    ghost use Rattle.std.specs.Prelude.{◌≡◌, ◌≤◌, ◌<◌, ◌^◌, ◌+◌, IfSome, Some, is_some, length, slice_get};
    ghost use Rattle.sleep_model.specs.Attempt.{answered, sleeps_now, freeze_since, sleep_of};
    ghost use Rattle.sleep_model.specs.Devices.{callback, phase_failed, own_error};
    ghost use Rattle.sleep_model.specs.Freezer.{left};
    ghost use Rattle.sleep_model.specs.Guard.{pending};
    ghost use Rattle.sleep_model.specs.Autosleep.{runs};
    ghost use Rattle.sleep_model.specs.Lock.{holder, is_on};
    ghost use Rattle.sleep_model.specs.Marks.{mark_at, raised};
    ghost use Rattle.sleep_core.specs.Steps.{IsKindOf};
    ghost use Rattle.sleep_model.specs.Notifiers.{next_notified, next_syscore_suspended};
    ghost use Rattle.sleep_model.specs.Table.{stage_of};
    ghost use Rattle.task_freezer.specs.Freezers.{IsLeft, round_of};
    ghost use Rattle.sleep_core.specs.Stages.{FitsPhase};
    ghost use Rattle.async_board.specs.AtPoints.{board_at};
    ghost use Rattle.sleep_model.specs.Numbers.{time_of};
    ghost use Rattle.sleep_model.specs.Path.{attempts, is_actor, maker};
    ghost use Rattle.sleep_state.specs.JournalRooms.{entries};

    /// The machine.
    pub(crate) fn machine(&self) -> &'m Machine
        ensures { result.now ≡ self.now.machine }
    {
        self.history.machine()
    }

    /// What its callbacks answer.
    pub(crate) fn answers(&self) -> &PlannedAnswers<'m>
        ensures { result.now ≡ self.now.machine.answers }
    {
        self.plans.answers()
    }

    /// The steps of a script.
    pub(crate) fn plan(&self, script: u32) -> &Plan<'m>
        requires { script < length self.now.machine.actors }
        ensures { slice_get self.now.machine.actors script ≡ Some result.now.script }
    {
        self.plans.script(script)
    }

    /// Whether a wakeup is pending at this word (`pm_wakeup_pending`).
    pub(crate) fn pending(&self, now: EventNow) -> bool
        ensures { result ≡ pending (entries self.now.past) now }
    {
        self.history.is_pending(now)
    }

    /// The time of the last jump, in ms.
    pub(crate) fn time_ms(&self) -> u64
        ensures is { result ≡ time_of (entries self.now.past) }
        ensures early { result ≤ 2 ^ 63 }
    {
        self.history.time()
    }

    /// The number of the attempt that was begun last.
    pub fn attempts(&self) -> u32
        ensures is { result ≡ attempts (entries self.now.past) }
        ensures few { result + 1 < 2 ^ 32 }
    {
        self.history.attempt().attempts()
    }

    /// What the machine answers for a thing in the open attempt.
    pub(crate) fn answered(&self, what: What) -> Option<Errno>
        ensures { result ≡ answered self.now.machine (entries self.now.past) what }
    {
        self.answers()
            .error(what, self.history.attempt().attempts())
    }

    /// Whether that actor makes the open attempt.
    #[inline(always)]
    pub fn is_maker(&self, who: Actor) -> bool
        ensures { result ≡ is_actor who (maker (entries self.now.past)) }
    {
        is_actor(who, self.history.attempt().maker())
    }

    /// Whether the machine sleeps.
    pub(crate) fn is_asleep(&self) -> bool
        ensures { result ≡ sleeps_now (entries self.now.past) }
    {
        self.history.attempt().sleep().is_some()
    }

    /// The state of each device.
    pub(crate) fn board(&self) -> &Board
        ensures { result.now ≡ board_at self.now.machine (entries self.now.past) }
    {
        self.history.board()
    }

    /// The error of the open phase.
    pub(crate) fn phase_failed(&self) -> Option<Errno>
        ensures { result ≡ phase_failed (entries self.now.past) }
    {
        self.history.devices().failed()
    }

    /// The error of a synchronous device's callback in the open phase.
    pub(crate) fn own_error(&self) -> Option<Errno>
        ensures { result ≡ own_error (entries self.now.past) }
    {
        self.history.devices().own_error()
    }

    /// The callback that the attempt's maker runs, if one.
    pub(crate) fn callback(&self) -> Option<Callback>
        ensures { result ≡ callback (entries self.now.past) }
    {
        self.history.devices().callback()
    }

    /// Since when a freeze goes on, in ms, if one does.
    pub(crate) fn freeze_since(&self) -> Option<u64>
        ensures is { result ≡ freeze_since (entries self.now.past) }
        ensures early { IfSome result (λ since. since ≤ 2 ^ 63) }
    {
        self.history.attempt().freeze_since()
    }

    /// The machine's sleep, if it sleeps.
    pub(crate) fn sleep(&self) -> Option<Sleep>
        ensures is { result ≡ sleep_of (entries self.now.past) }
        ensures early { IfSome result (λ sleep. sleep.since ≤ 2 ^ 63) }
    {
        self.history.attempt().sleep()
    }

    /// The stage of the open attempt, if one is open.
    pub(crate) fn stage(&self) -> Option<Stage>
        ensures is { result ≡ stage_of (entries self.now.past) }
        ensures fits { IfSome result FitsPhase }
    {
        self.history.attempt().stage()
    }

    /// What becomes of a freeze of the group that goes on since then.
    #[tactic(auto, using(core_history::proofs::Freezing::left_is))]
    pub(crate) fn round(&self, group: Group, since: u64) -> Round
        requires { since ≤ 2 ^ 63 }
        ensures { result ≡ round_of since (time_of (entries self.now.past)) (left self.now.machine group (entries self.now.past)) }
    {
        self.history.freezer().round(group, since, self.time_ms())
    }

    /// The tasks that a freeze of the group still waits for.
    #[tactic(auto, using(core_history::proofs::Freezing::left_is))]
    pub(crate) fn left(&self, group: Group) -> Left
        ensures { IsLeft result (left self.now.machine group (entries self.now.past)) }
    {
        self.history.freezer().left(group)
    }

    /// How long a sleep lasts that no event ends, in ms.
    pub(crate) fn alarm_ms(&self) -> u64
        ensures is { result ≡ self.now.machine.alarm_ms }
        ensures most { result ≤ 86400000 }
    {
        let _core = &self.history;
        self.machine().alarm_ms
    }

    /// The notifier that hears next of the attempt.
    pub(crate) fn next_notified(&self) -> Option<u32>
        ensures { result ≡ next_notified self.now.machine (entries self.now.past) }
    {
        self.history.platform().next_notified()
    }

    /// The core's part that is suspended next.
    pub(crate) fn next_syscore_suspended(&self) -> Option<u32>
        ensures { result ≡ next_syscore_suspended self.now.machine (entries self.now.past) }
    {
        self.history.syscore().next()
    }

    /// Whether somebody holds the autosleep lock.
    pub(crate) fn is_held(&self) -> bool
        ensures { result ≡ is_some (holder (entries self.now.past)) }
    {
        self.history.autosleep().holder().is_some()
    }

    /// Whether autosleep is on.
    pub(crate) fn is_on(&self) -> bool
        ensures { result ≡ is_on (entries self.now.past) }
    {
        self.history.autosleep().is_on()
    }

    /// The kind of a script.
    pub(crate) fn kind_of(&self, script: u32) -> TaskKind
        requires { script < length self.now.machine.actors }
        ensures { IsKindOf (slice_get self.now.machine.actors script) result }
    {
        self.machine().actors.as_slice()[script as usize].kind
    }

    /// How often the autosleep work has run.
    pub(crate) fn runs(&self) -> u32
        ensures { result ≡ runs (entries self.now.past) }
    {
        self.history.autosleep().runs()
    }

    /// How often that mark was raised and not yet taken.
    pub fn raised(&self, mark: u32) -> u32
        ensures { result ≡ mark_at (raised (length self.now.machine.marks) (entries self.now.past)) mark }
    {
        self.history.tasks().raised(mark)
    }

    /// How many scripts the machine has.
    pub(crate) fn scripts(&self) -> u32
        ensures { result ≡ length self.now.machine.actors }
    {
        let _core = &self.history;
        self.machine().actors.len() as u32
    }
}
