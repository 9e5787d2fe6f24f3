//! What the entries of the journal leave of the tasks, of their marks, and of autosleep with its work.

use crate::autosleep::{holder_after, on_after, queued_after, runs_after, work_after};
use crate::freezings::{move_freezings, none_asked, unasked};
use crate::phase_states::{is_of_device, is_of_task};
use crate::positions::{first_position, move_marks, move_position};
use sleep_base::Mem;
use sleep_model::{Actor, Entry, Freezing, Machine, Script, ScriptPosition, Work};
use std::alloc::Global;
use std::marker::Model;

/// What the entries of the journal leave of the tasks: each script's position, its freezing, the marks, and
/// autosleep with its work.
#[derive(Drop)]
pub struct TaskAccount {
    freezings: Vec<Freezing>,
    positions: Vec<ScriptPosition>,
    raised: Vec<u32>,
    holder: Option<Actor>,
    on: bool,
    work: Work,
    queued: bool,
    runs: u32,
}

impl Model for TaskAccount {
    ghost use Rattle.check_account.specs.Accounts.{TaskState};

    ghost Value = { TaskState };

    ghost view = { λ a. record {
      freezings = a.freezings.items;
      positions = a.positions.items;
      raised = a.raised.items;
      holder = a.holder;
      on = a.on;
      work = a.work;
      queued = a.queued;
      runs = a.runs;
    } };
}

impl TaskAccount {
    ghost use Rattle.std.specs.Prelude.{◌≡◌, ◌<◌, ◌^◌, [], length, IfOk, OnOk};
    ghost use Rattle.sleep_model.specs.Freezer.{freezing_at};
    ghost use Rattle.sleep_model.specs.Marks.{mark_at};
    ghost use Rattle.sleep_model.specs.Positions.{all_exited, position_at};
    ghost use Rattle.check_account.specs.Accounts.{tasks_after, tasks_of};

    /// Before the first entry. `Mem` if there is no memory for it.
    pub fn new(alloc: Global, machine: &Machine) -> Result<Self, Mem>
        ensures { IfOk result (λ a. a ≡ tasks_of machine.now []) }
    {
        Ok(TaskAccount {
            freezings: none_asked(alloc, machine.actors.as_slice())?,
            positions: vec![in alloc; first_position(); machine.actors.len()]?,
            raised: vec![in alloc; 0; machine.marks.len()]?,
            holder: None,
            on: false,
            work: Work::Resting,
            queued: false,
            runs: 0,
        })
    }

    /// Passes one more entry of the journal, among the tasks of these scripts. `Mem` if a counter has no
    /// room.
    #[tactic(auto, using(crate::proofs::Unmoved::tasks_stay, crate::proofs::Unmoved::tasks_moved))]
    pub fn pass(&mut self, scripts: &[Script], e: Entry) -> Result<(), Mem>
        requires all { length self.old.freezings ≡ length scripts.now }
        requires few { length scripts.now < 2 ^ 32 }
        ensures { OnOk result (self.new ≡ tasks_after scripts.now e self.old) }
    {
        // Most entries of a log are of devices, and leave the tasks as they are.
        if is_of_device(e.kind) {
            return Ok(());
        }
        move_position(&mut self.positions, e.actor, e.kind)?;
        move_marks(&mut self.raised, e.kind)?;
        self.work = work_after(e.actor, e.kind, self.work);
        if is_of_task(e.kind) {
            return Ok(());
        }
        self.runs = runs_after(e.kind, self.runs)?;
        move_freezings(&mut self.freezings, scripts, e.actor, e.kind);
        self.queued = queued_after(e.kind, self.on, self.queued);
        self.holder = holder_after(e.kind, e.actor, self.holder);
        self.on = on_after(e.kind, self.on);
        Ok(())
    }

    /// What the freezer has come to with a script (`freezing`, `frozen`).
    pub fn freezing(&self, script: u32) -> Freezing
        ensures { result ≡ freezing_at self.now.freezings script }
    {
        if (script as usize) < self.freezings.len() {
            self.freezings[script as usize]
        } else {
            unasked()
        }
    }

    /// What the freezer has come to with each script.
    pub fn freezings(&self) -> &[Freezing]
        ensures { result.now ≡ self.now.freezings }
    {
        &self.freezings
    }

    /// The position of a script.
    pub fn position(&self, script: u32) -> ScriptPosition
        ensures { result ≡ position_at self.now.positions script }
    {
        if (script as usize) < self.positions.len() {
            self.positions[script as usize]
        } else {
            first_position()
        }
    }

    /// The position of each script.
    pub fn positions(&self) -> &[ScriptPosition]
        ensures { result.now ≡ self.now.positions }
    {
        &self.positions
    }

    /// Whether every script has made its exit (`do_exit`).
    pub fn all_exited(&self) -> bool
        ensures { result ≡ all_exited self.now.positions }
    {
        self.positions.iter().all(|position| position.exited)
    }

    /// How often a mark was raised and not yet taken.
    pub fn raised(&self, mark: u32) -> u32
        ensures { result ≡ mark_at self.now.raised mark }
    {
        if (mark as usize) < self.raised.len() {
            self.raised[mark as usize]
        } else {
            0
        }
    }

    /// Who holds the autosleep lock (`pm_autosleep_lock`).
    pub fn holder(&self) -> Option<Actor>
        ensures { result ≡ self.now.holder }
    {
        self.holder
    }

    /// Whether autosleep is on (`pm_autosleep_state`).
    pub fn autosleep_is_on(&self) -> bool
        ensures { result ≡ self.now.on }
    {
        self.on
    }

    /// The state of the autosleep work (`try_to_suspend`).
    pub fn work(&self) -> Work
        ensures { result ≡ self.now.work }
    {
        self.work
    }

    /// Whether the work is queued (`queue_up_suspend_work`).
    pub fn is_queued(&self) -> bool
        ensures { result ≡ self.now.queued }
    {
        self.queued
    }

    /// How often the work has run.
    pub fn runs(&self) -> u32
        ensures { result ≡ self.now.runs }
    {
        self.runs
    }
}
