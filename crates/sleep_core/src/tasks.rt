//! What a task, or the autosleep work, does next outside attempts of its own (`kernel/power/main.c`,
//! `kernel/power/autosleep.c`).

ghost use Rattle.std.specs.Prelude.{◌≡◌, ◌≤◌, ◌<◌, ◌^◌, ◌||◌, length, slice_get, option_copied, Some, is_some, IfSome};
ghost use Rattle.sleep_model.specs.declared.word.EventNow.{EventNow};
ghost use Rattle.sleep_model.specs.Due.{script_due};
ghost use Rattle.sleep_model.specs.Positions.{position_at, positions};
ghost use Rattle.sleep_model.specs.Steps.{step_due, task_due};
ghost use Rattle.sleep_state.specs.JournalRooms.{entries};
ghost use Rattle.sleep_model.specs.declared.machine.Op.TheVariants as op;
ghost use Rattle.sleep_core.specs.Steps.{is_at_sleep, next_attempt};

use crate::state::Core;
use crate::steps;
use script_plan::{is_mem, is_off};
use sleep_model::{Due, EventNow, Freezing, Kind, Op, ScriptPosition, TaskKind, Why};
use sleep_sysfs::{read_count, saved_number, write_autosleep, write_count, write_state};

impl<'m> Core<'m> {
    /// The entry that begins an attempt now.
    pub(crate) fn attempt(&self) -> Kind
        ensures { result ≡ next_attempt (entries self.now.past) }
    {
        Kind::Attempt {
            n: self.attempts() + 1,
            guarded: self.history.guard().in_force(),
        }
    }

    /// A write of that text to the state.
    fn state_due(&self, position: ScriptPosition, asked: bool, text: &[u8], if_saved: bool) -> Due
        ensures { result ≡ step_due self.now.machine (entries self.now.past) (record { inpr = 0; count = 0; hard = 0 }) position asked (Some (op.State text.now if_saved)) }
    {
        if if_saved && !position.saved {
            return Due::Makes(Kind::StateUnsaved);
        }
        write_state(
            self.is_held(),
            self.is_on(),
            position.waits,
            asked,
            is_mem(text),
            self.attempt(),
        )
    }

    /// The next entry of a script at an operation, or its exit.
    fn step_due(&self, now: EventNow, position: ScriptPosition, asked: bool, op: Option<&Op>) -> Due
        ensures { result ≡ step_due self.now.machine (entries self.now.past) now position asked (option_copied op.entry) }
    {
        let Some(op) = op else {
            return Due::Makes(Kind::Exit);
        };
        match op {
            Op::Read => read_count(now, position.waits, asked),
            Op::Save { count } => {
                let number = saved_number(*count, position.last_read);
                write_count(
                    self.is_held(),
                    self.is_on(),
                    position.waits,
                    asked,
                    now,
                    number,
                )
            }
            Op::State { text, if_saved } => self.state_due(
                position,
                asked,
                text.as_slice(),
                *if_saved,
            ),
            Op::Autosleep { text } => {
                let text = text.as_slice();
                write_autosleep(self.is_held(), position.waits, is_mem(text), is_off(text))
            }
            Op::Sleep { ms } => steps::sleep_due(*ms, position, self.time_ms()),
            Op::SleepD { ms } => steps::sleep_d_due(*ms, position, self.time_ms()),
            Op::FreezePoint => Due::Makes(Kind::Pass),
            Op::Post { mark } => Due::Makes(Kind::Post(*mark)),
            Op::Wait { mark } => steps::mark_due(*mark, self.raised(*mark)),
            Op::Runtime {
                device,
                to_suspended,
            } => Due::Makes(Kind::RuntimeAsk {
                device: *device,
                to_suspended: *to_suspended,
                r: self.runtime_due(*device, *to_suspended),
            }),
            Op::Link { supplier, consumer } => Due::Makes(Kind::LinkAdd {
                supplier: *supplier,
                consumer: *consumer,
                r: self.link_add_due(*supplier, *consumer),
            }),
            Op::LinkState {
                supplier,
                consumer,
                active,
            } => Due::Makes(Kind::LinkState {
                supplier: *supplier,
                consumer: *consumer,
                active: *active,
                r: self.link_state_due(*supplier, *consumer),
            }),
            Op::Awake { .. } | Op::Relax { .. } | Op::Event { .. } => Due::Nothing,
        }
    }

    /// A task that is not frozen waits while the machine sleeps, and freezes if it is asked to and may.
    fn task_due(
        &self,
        now: EventNow,
        freezing: Freezing,
        kind: TaskKind,
        position: ScriptPosition,
        op: Option<&Op>,
    ) -> Due
        ensures { result ≡ task_due self.now.machine (entries self.now.past) now freezing kind position (option_copied op.entry) }
    {
        if freezing.frozen {
            Due::Waits(Why::Frozen)
        } else if self.is_asleep() && !steps::is_line(kind) {
            Due::Waits(Why::Asleep)
        } else if freezing.asked && steps::freezes_at(kind == TaskKind::User, position.waits, op) {
            Due::Makes(Kind::Frozen)
        } else {
            self.step_due(now, position, freezing.asked, op)
        }
    }

    /// A script at its own steps, whatever it does. It stays out of line, so that a sleep pays for none of
    /// the other operations.
    #[inline(never)]
    fn any_script_due(&self, script: u32, now: EventNow) -> Due
        requires { script < length self.now.machine.actors }
        ensures { result ≡ script_due self.now.machine (entries self.now.past) now script }
    {
        let position = self.history.tasks().position(script);
        if position.exited {
            return Due::Nothing;
        }
        let freezing = self.history.freezer().freezing(script);
        let op = self.plan(script).operation(position.done);
        self.task_due(now, freezing, self.kind_of(script), position, op)
    }

    /// What is due of a script that has exited, or that is at a sleep which no freeze is about, while the
    /// machine is awake. `None` for each other script.
    #[inline(always)]
    pub(crate) fn sleep_due(&self, script: u32) -> Option<Due>
        requires { script < length self.now.machine.actors }
        ensures due { (now : EventNow) → IfSome result (λ due. due ≡ script_due self.now.machine (entries self.now.past) now script) }
        ensures at { is_some result ≡ ((position_at (positions (length self.now.machine.actors) (entries self.now.past)) script).exited
            || is_at_sleep self.now.machine (entries self.now.past) script) }
    {
        let position = self.history.tasks().position(script);
        if position.exited {
            return Some(Due::Nothing);
        }
        let freezing = self.history.freezer().freezing(script);
        let op = self.plan(script).operation(position.done);
        match (op, freezing.frozen, freezing.asked, self.is_asleep()) {
            (Some(Op::Sleep { ms }), false, false, false) => {
                Some(steps::sleep_due(*ms, position, self.time_ms()))
            }
            _ => None,
        }
    }

    /// A script at its own steps. Most operations are sleeps, which are decided here.
    #[inline(always)]
    pub(crate) fn script_due(&self, script: u32, now: EventNow) -> Due
        requires { script < length self.now.machine.actors }
        ensures { result ≡ script_due self.now.machine (entries self.now.past) now script }
    {
        match self.sleep_due(script) {
            Some(due) => due,
            None => self.any_script_due(script, now),
        }
    }
}
