//! What the maker of the open attempt does next, stage by stage (`kernel/power/suspend.c`). An attempt is one
//! try to suspend. Its maker is the task inside `enter_state`: the one that wrote `/sys/power/state`, or the
//! kernel thread that runs the autosleep work.
//!
//! The core calls no driver and drives no hardware. It decides which step the maker makes next, and records
//! it as one entry of the journal, the list of a machine's steps; `Kind` says which step it is. The error
//! that a callback would return comes from the description of the machine (`Machine`; `What` names the
//! callback). A `Due` is what somebody has to do next: make one entry, wait, with the cause (`Why`), or
//! nothing.
//!
//! The parameter `now` is no time: it is the event word (`combined_event_count`, and `pm_abort_suspend` for
//! hard events) as it was read before this step. Sources may have changed it since. In a contract `self.now`
//! is no event word, but what the reference `self` points to.

ghost use Rattle.std.specs.Prelude.{◌≡◌, ◌≤◌, ◌^◌};
ghost use Rattle.sleep_model.specs.declared.progress.Due.TheVariants.{Makes};
ghost use Rattle.sleep_model.specs.declared.entry.Kind.TheVariants as kind;
ghost use Rattle.sleep_model.specs.declared.machine.What.TheVariants as what;
ghost use Rattle.sleep_model.specs.Attempt.{answered, freeze_since, sleep_of, freeze_due, froze_due, wakes_due, enter_due, if_left, cpu_kind, busy_error, stage_due, stage_or_next, due_at};
ghost use Rattle.sleep_model.specs.Freezer.{left};
ghost use Rattle.sleep_model.specs.Guard.{pending};
ghost use Rattle.sleep_model.specs.Notifiers.{next_notified, next_post_notified, next_cpu_off, next_cpu_on, next_syscore_suspended, next_syscore_resumed};
ghost use Rattle.sleep_model.specs.Table.{stage_of, next_stage};
ghost use Rattle.sleep_state.specs.JournalRooms.{entries};
ghost use Rattle.sleep_core.specs.Stages.{FitsPhase};
ghost use Rattle.sleep_core.specs.Steps.{woken_end};

use crate::state::Core;
use sleep_model::{Due, EventNow, FrozeEnd, Group, Kind, PlatDo, Sleep, Stage, What, Why, pos};
use sleep_state::{busy_error, next_stage};
use task_freezer::Round;

impl<'m> Core<'m> {
    /// The entry of the next notifier that hears of the attempt (`PM_SUSPEND_PREPARE`), with the error that
    /// the description gives (`answered`).
    fn notify_prepare_due(&self) -> Due
        ensures { result ≡ if_left (λ x. kind.NotifyPrepare x (answered self.now.machine (entries self.now.past) (what.Notifier x)))
            (next_notified self.now.machine (entries self.now.past)) }
    {
        match self.next_notified() {
            None => Due::Nothing,
            Some(x) => Due::Makes(Kind::NotifyPrepare(x, self.answered(What::Notifier(x)))),
        }
    }

    /// The end of a freeze that a wakeup interrupts, with the tasks that are left. One at least is left, else
    /// the freeze would have succeeded: so `None` does not come.
    fn woken_end(&self, group: Group) -> FrozeEnd
        ensures { result ≡ woken_end (left self.now.machine group (entries self.now.past)) }
    {
        let left = self.left(group);
        match left.first {
            None => FrozeEnd::AllFrozen,
            Some(first) => FrozeEnd::Wakeup {
                left: left.count,
                first,
            },
        }
    }

    /// What a freeze of `group` that began at `since`, in ms, does next. A `Round` is what one look of the
    /// freezer at the group finds (one pass of the loop of `try_to_freeze_tasks`). `Late`, which is no phase
    /// here: the freeze has timed out. `Again`: tasks are left, and the freeze times out at `until`. `Again`
    /// does not say which task is the first one left: that is a search, and only the entry that ends a freeze
    /// needs it (`woken_end`).
    fn froze_due(&self, now: EventNow, group: Group, since: u64) -> Due
        requires { since ≤ 2 ^ 63 }
        ensures { result ≡ froze_due (entries self.now.past) now group since (left self.now.machine group (entries self.now.past)) }
    {
        match self.round(group, since) {
            Round::AllFrozen => Due::Makes(Kind::Froze(group, FrozeEnd::AllFrozen)),
            Round::Late { left, first } => {
                Due::Makes(Kind::Froze(group, FrozeEnd::Timeout { left, first }))
            }
            Round::Again { left, until } => {
                if self.pending(now) {
                    Due::Makes(Kind::Froze(group, self.woken_end(group)))
                } else {
                    Due::Waits(Why::Tasks { left, until })
                }
            }
        }
    }

    /// The next step of a freeze of a group: it asks the group's tasks to freeze, then waits for them.
    fn freeze_due(&self, now: EventNow, group: Group) -> Due
        ensures { result ≡ freeze_due self.now.machine (entries self.now.past) now group (freeze_since (entries self.now.past)) }
    {
        match self.freeze_since() {
            None => Due::Makes(Kind::Freeze(group)),
            Some(since) => self.froze_due(now, group, since),
        }
    }

    /// The entry of a step of `suspend_ops` on the way down, with the error that the description gives.
    fn platform_due(&self, step: PlatDo) -> Due
        ensures { result ≡ Makes (kind.PlatformDo step (answered self.now.machine (entries self.now.past) (what.Platform step))) }
    {
        Due::Makes(Kind::PlatformDo(step, self.answered(What::Platform(step))))
    }

    /// The entry by which the next processor is stopped. If a wakeup is pending it is `CpuBusy`: the
    /// processor stays on, and the stage fails. `self.history` is the journal together with values worked out
    /// from it, which each entry updates. (The history of a wakeup source is another list, of the calls on
    /// it.) One of these values is `platform`, here not `suspend_ops`: it has the processors that are off,
    /// and the notifiers that are owed `PM_POST_SUSPEND`.
    fn cpu_off_due(&self, now: EventNow) -> Due
        ensures { result ≡ if_left (cpu_kind (pending (entries self.now.past) now)) (next_cpu_off self.now.machine (entries self.now.past)) }
    {
        match self.history.platform().next_cpu_off() {
            None => Due::Nothing,
            Some(k) if self.pending(now) => Due::Makes(Kind::CpuBusy(k)),
            Some(k) => Due::Makes(Kind::CpuOff(k)),
        }
    }

    /// The entry of the next `syscore_ops`' `suspend`, with the error that the description gives.
    fn syscore_suspend_due(&self) -> Due
        ensures { result ≡ if_left (λ x. kind.SyscoreSuspend x (answered self.now.machine (entries self.now.past) (what.Syscore x)))
            (next_syscore_suspended self.now.machine (entries self.now.past)) }
    {
        match self.next_syscore_suspended() {
            None => Due::Nothing,
            Some(x) => Due::Makes(Kind::SyscoreSuspend(x, self.answered(What::Syscore(x)))),
        }
    }

    /// What ends the machine's sleep: a change of the event word since `Enter`, else the alarm, which the
    /// description sets. Such a change is an event's start, its finish or a hard event; `pos` counts these
    /// changes. In this model interrupt lines, timers and the calls of `nofreeze` tasks on sources go on
    /// during the sleep, and change the word. In the kernel none of them runs then: hardware ends the sleep,
    /// and the word has no part in it.
    fn wakes_due(&self, now: EventNow, sleep: Sleep) -> Due
        requires { sleep.since ≤ 2 ^ 63 }
        ensures { result ≡ wakes_due self.now.machine (entries self.now.past) now sleep }
    {
        if sleep.pos < pos(now) {
            Due::Makes(Kind::Wake { by_event: true })
        } else if sleep.since + self.alarm_ms() <= self.time_ms() {
            Due::Makes(Kind::Wake { by_event: false })
        } else {
            Due::Waits(Why::Asleep)
        }
    }

    /// The entry `Enter`, the last test before `suspend_ops->enter`: if a wakeup is pending (`busy`), the
    /// machine does not sleep. If it sleeps (`sleep()` is what is known of a sleep under way), what wakes it.
    fn enter_due(&self, now: EventNow) -> Due
        ensures { result ≡ enter_due self.now.machine (entries self.now.past) now (sleep_of (entries self.now.past)) }
    {
        match self.sleep() {
            None => Due::Makes(Kind::Enter {
                busy: self.pending(now),
            }),
            Some(sleep) => self.wakes_due(now, sleep),
        }
    }

    /// The entry of the next `syscore_ops`' `resume`.
    fn syscore_resume_due(&self) -> Due
        ensures { result ≡ if_left kind.SyscoreResume (next_syscore_resumed self.now.machine (entries self.now.past)) }
    {
        match self.history.syscore().next_syscore_resumed() {
            None => Due::Nothing,
            Some(x) => Due::Makes(Kind::SyscoreResume(x)),
        }
    }

    /// The entry by which the next processor is started.
    fn cpu_on_due(&self) -> Due
        ensures { result ≡ if_left kind.CpuOn (next_cpu_on self.now.machine (entries self.now.past)) }
    {
        match self.history.platform().next_cpu_on() {
            None => Due::Nothing,
            Some(k) => Due::Makes(Kind::CpuOn(k)),
        }
    }

    /// The entry of the next notifier that hears that the attempt is over (`PM_POST_SUSPEND`).
    fn notify_post_due(&self) -> Due
        ensures { result ≡ if_left kind.NotifyPost (next_post_notified self.now.machine (entries self.now.past)) }
    {
        match self.history.platform().next_post_notified() {
            None => Due::Nothing,
            Some(x) => Due::Makes(Kind::NotifyPost(x)),
        }
    }

    /// The maker's next step at a stage; `Nothing` if the stage has no step left.
    fn stage_due(&self, now: EventNow, stage: Stage) -> Due
        requires { FitsPhase stage }
        ensures { result ≡ stage_due self.now.machine (entries self.now.past) now stage }
    {
        match stage {
            Stage::Notifies => self.notify_prepare_due(),
            Stage::Freezes(group) => self.freeze_due(now, group),
            Stage::PlatformDo(step) => self.platform_due(step),
            Stage::Prepares => self.prepare_due(),
            Stage::Downs(p) => self.down_due(now, p),
            Stage::StopsCpus => self.cpu_off_due(now),
            Stage::StopsIrqs => Due::Makes(Kind::Irqs { on: false }),
            Stage::ChecksWakeup => Due::Makes(Kind::SyscoreCheck(busy_error(self.pending(now)))),
            Stage::StopsSyscore => self.syscore_suspend_due(),
            Stage::Enters => self.enter_due(now),
            Stage::StartsSyscore => self.syscore_resume_due(),
            Stage::StartsIrqs => Due::Makes(Kind::Irqs { on: true }),
            Stage::StartsCpus => self.cpu_on_due(),
            Stage::PlatformUndo(step) => Due::Makes(Kind::PlatformUndo(step)),
            Stage::Ups(p) => self.up_due(p),
            Stage::Completes => self.complete_due(),
            Stage::ClearsEventsCheck => Due::Makes(Kind::Clear),
            Stage::Thaws(those) => Due::Makes(Kind::Thaw(those)),
            Stage::NotifiesPost => self.notify_post_due(),
            Stage::Ends => Due::Makes(self.history.over()),
        }
    }

    /// The maker's next step at a stage, or else at the one after it. One look ahead is enough: no two stages
    /// in a row have nothing to do. `due_of` asks the devices' phases first, which have most entries, and
    /// calls this only for the rest. So it is not inlined, which keeps `due_of` short.
    #[inline(never)]
    pub(crate) fn stage_or_next(&self, now: EventNow, stage: Stage) -> Due
        requires { FitsPhase stage }
        ensures { result ≡ stage_or_next self.now.machine (entries self.now.past) now stage }
    {
        match self.stage_due(now, stage) {
            Due::Nothing => self.stage_due(now, next_stage(stage)),
            due => due,
        }
    }
}
