//! What the passed entries leave of the tasks: their positions and freezings, the marks, and autosleep with
//! its work.

ghost use Rattle.std.specs.Prelude.{◌≡◌, ◌<◌, ◌^◌, length};
ghost use Rattle.sleep_model.specs.Freezer.{keeps_waiting, left_from};
ghost use Rattle.check_past.specs.Asked.{left_is};

use crate::passed::Passed;
use check_account::is_in;
use sleep_model::{Actor, Freezing, Group, Op, Script, ScriptPosition, TaskKind, Work};

/// Whether a task keeps the freeze of its group waiting.
fn keeps_waiting(group: Group, kind: TaskKind, freezing: Freezing, position: ScriptPosition) -> bool
    ensures { result ≡ keeps_waiting group kind freezing position }
{
    is_in(group, kind) && freezing.asked && !freezing.frozen && !position.exited
}

/// The tasks that a freeze still waits for: how many, and the first of them.
#[derive(Clone, Copy)]
pub struct UnfrozenTasks {
    pub count: u32,
    pub first: Option<u32>,
}

/// The tasks that a freeze of the group waits for, among these.
fn left_among(
    group: Group,
    scripts: &[Script],
    freezings: &[Freezing],
    positions: &[ScriptPosition],
) -> UnfrozenTasks
    requires few { length scripts.now < 2 ^ 31 }
    requires freezings { length freezings.now ≡ length scripts.now }
    requires positions { length positions.now ≡ length scripts.now }
    ensures { result ≡ left_is (left_from group 0 scripts.now freezings.now positions.now) }
{
    let mut left = UnfrozenTasks {
        count: 0,
        first: None,
    };
    for i in (0..scripts.len()).rev() {
        if keeps_waiting(group, scripts[i].kind, freezings[i], positions[i]) {
            left = UnfrozenTasks {
                count: left.count + 1,
                first: Some(i as u32),
            };
        }
    }
    left
}

impl<'m> Passed<'m> {
    ghost use Rattle.std.specs.Prelude.{◌≡◌, length, option_copied, IfSome};
    ghost use Rattle.sleep_model.specs.Accepted.{IsOp};
    ghost use Rattle.sleep_model.specs.Autosleep.{may_run, work};
    ghost use Rattle.sleep_model.specs.Due.{have_all_exited, is_over};
    ghost use Rattle.sleep_model.specs.Freezer.{freezing, freezings, left};
    ghost use Rattle.sleep_model.specs.Lock.{holder, is_on};
    ghost use Rattle.sleep_model.specs.Marks.{mark_at, raised};
    ghost use Rattle.rule_definitions.specs.Questions.{op_of, position_of};
    ghost use Rattle.check_past.specs.Asked.{left_is};
    ghost use Rattle.check_past.specs.Passing.{journal_of};

    /// What the freezer has come to with a script (`freezing`, `frozen`).
    pub fn freezing(&self, script: u32) -> Freezing
        ensures { result ≡ freezing self.now.machine script (journal_of self.now) }
    {
        self.task_account().freezing(script)
    }

    /// What the freezer has come to with each script.
    pub fn freezings(&self) -> &[Freezing]
        ensures { result.now ≡ freezings self.now.machine.actors (journal_of self.now) }
    {
        self.task_account().freezings()
    }

    /// The position of a script.
    pub fn position(&self, script: u32) -> ScriptPosition
        ensures { result ≡ position_of self.now.machine (journal_of self.now) script }
    {
        self.task_account().position(script)
    }

    /// The operation of a script that is under way, if one is left.
    fn under_way(&self, script: u32) -> Option<&'m Op>
        ensures { option_copied result ≡ op_of self.now.machine (journal_of self.now) script }
    {
        let done = self.position(script).done;
        self.past_state.calls.operation(script, done)
    }

    /// The operation of a script that is under way, if one is left; it names what the machine has.
    pub fn operation(&self, script: u32) -> Option<&'m Op>
        ensures notified_flags { option_copied result ≡ op_of self.now.machine (journal_of self.now) script }
        ensures named { IfSome (option_copied result) (λ op. IsOp self.now.machine op) }
    {
        self.is_accepted();
        self.under_way(script)
    }

    /// Whether every script has made its exit (`do_exit`).
    pub fn have_all_exited(&self) -> bool
        ensures { result ≡ have_all_exited self.now.machine (journal_of self.now) }
    {
        self.task_account().all_exited()
    }

    /// Whether every script has made its exit, and no attempt is open.
    pub fn is_over(&self) -> bool
        ensures { result ≡ is_over self.now.machine (journal_of self.now) }
    {
        self.have_all_exited() && self.maker().is_none()
    }

    /// The tasks that a freeze of the group still waits for (`try_to_freeze_tasks`).
    #[tactic(auto, using(check_account::proofs::Following::placed, crate::proofs::AtIndex::positions_len))]
    pub fn left(&self, group: Group) -> UnfrozenTasks
        ensures { result ≡ left_is (left self.now.machine group (journal_of self.now)) }
    {
        let tasks = self.task_account();
        left_among(
            group,
            self.machine.actors.as_slice(),
            tasks.freezings(),
            tasks.positions(),
        )
    }

    /// How often a mark was raised and not yet taken.
    pub fn raised(&self, mark: u32) -> u32
        ensures { result ≡ mark_at (raised (length self.now.machine.marks) (journal_of self.now)) mark }
    {
        self.task_account().raised(mark)
    }

    /// Who holds the autosleep lock (`pm_autosleep_lock`).
    pub fn holder(&self) -> Option<Actor>
        ensures { result ≡ holder (journal_of self.now) }
    {
        self.task_account().holder()
    }

    /// Whether autosleep is on (`pm_autosleep_state`).
    pub fn autosleep_is_on(&self) -> bool
        ensures { result ≡ is_on (journal_of self.now) }
    {
        self.task_account().autosleep_is_on()
    }

    /// The state of the autosleep work (`try_to_suspend`).
    pub fn work(&self) -> Work
        ensures { result ≡ work (journal_of self.now) }
    {
        self.task_account().work()
    }

    /// Whether the autosleep work may run (`queue_up_suspend_work`).
    pub fn may_run(&self) -> bool
        ensures { result ≡ may_run self.now.machine (journal_of self.now) }
    {
        self.task_account().is_queued() && self.task_account().runs() < self.machine.auto_cycles
    }
}
