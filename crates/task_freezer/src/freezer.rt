//! The freezer as one value: what an entry does to it, and what becomes of a freeze.
ghost use Rattle.std.specs.Prelude.{◌≡◌, ◌≤◌, ◌^◌};
ghost use Rattle.sleep_model.specs.Attempt.{gives_up_at};

use crate::asking::{move_exited, move_freezings, unasked};
use crate::left::{Left, LeftCounts, counts_after, left_among, waits_among};
use sleep_base::Mem;
use sleep_model::{Actor, FREEZE_TIMEOUT_MSECS, Freezing, Group, Kind, Script};
use std::alloc::Global;
use std::marker::Model;

/// When a freeze gives up that goes on since that moment, in ms (`try_to_freeze_tasks`).
pub fn gives_up_at(since: u64) -> u64
    requires { since ≤ 2 ^ 63 }
    ensures { result ≡ gives_up_at since }
{
    since + u64::from(FREEZE_TIMEOUT_MSECS)
}

/// What becomes of a freeze at a moment (`try_to_freeze_tasks`).
#[derive(Clone, Copy)]
pub enum Round {
    /// No task is left: the freeze ends.
    AllFrozen,
    /// Its time is over: it gives up, with that number of tasks left, of which that is the first.
    Late { left: u32, first: u32 },
    /// It waits for that number of tasks, and looks again, up to that moment.
    Again { left: u32, until: u64 },
}

/// What the freezer has come to with each script of a machine, and which of them have exited
/// (`kernel/freezer.c`). The tasks that a freeze waits for are counted, so that their number is known at
/// once.
#[derive(Drop)]
pub struct Freezer<'m> {
    scripts: &'m [Script],
    freezings: Vec<Freezing>,
    // Who has exited.
    exited_flags: Vec<bool>,
    left: LeftCounts,
}

impl<'m> Model for Freezer<'m> {
    ghost use Rattle.task_freezer.specs.Freezers.{FreezerState};

    ghost Value = { FreezerState };

    ghost use Rattle.task_freezer.specs.FreezerFields.{freezer, FreezerInvariant};

    ghost view = { freezer };

    ghost invariant = { FreezerInvariant };
}

impl<'m> Freezer<'m> {
    ghost use Rattle.std.specs.Prelude.{◌≡◌, ◌<◌, ◌≤◌, ◌^◌, IfOk, length};
    ghost use Rattle.sleep_model.specs.Freezer.{freezing_at};
    ghost use Rattle.task_freezer.specs.Freezers.{first_freezer, freezer_after, left_of, IsLeft, round_of};

    /// These scripts, none of which is asked or has exited. `Mem` if there is no memory.
    pub fn new(alloc: Global, scripts: &'m [Script]) -> Result<Self, Mem>
        requires { length scripts.now < 2 ^ 31 }
        ensures { IfOk result (λ f. f ≡ first_freezer scripts.now) }
    {
        Ok(Freezer {
            scripts,
            freezings: vec![in alloc; unasked(); scripts.len()]?,
            exited_flags: vec![in alloc; false; scripts.len()]?,
            left: LeftCounts { user: 0, kernel: 0 },
        })
    }

    /// What an entry of that actor does to the freezer.
    pub fn note(&mut self, who: Actor, kind: Kind)
        ensures { self.new ≡ freezer_after who kind self.old }
    {
        match kind {
            Kind::Freeze(_) | Kind::Thaw(_) | Kind::Frozen | Kind::Exit => self.move_tasks(
                who, kind,
            ),
            _ => {}
        }
    }

    /// What a freeze, a thaw, or an entry by which a task freezes or exits does.
    fn move_tasks(&mut self, who: Actor, kind: Kind)
        ensures { self.new ≡ freezer_after who kind self.old }
    {
        let waited = waits_among(self.scripts, &self.freezings, &self.exited_flags, who);
        move_exited(&mut self.exited_flags, who, kind);
        move_freezings(&mut self.freezings, self.scripts, who, kind);
        self.left = counts_after(
            self.scripts,
            &self.freezings,
            &self.exited_flags,
            who,
            kind,
            self.left,
            waited,
        );
    }

    /// What the freezer has come to with that script.
    pub fn freezing(&self, script: u32) -> Freezing
        ensures { result ≡ freezing_at self.now.freezings script }
    {
        match self.freezings.get(script as usize) {
            Some(freezing) => *freezing,
            None => unasked(),
        }
    }

    /// How many tasks a freeze of the group still waits for (`try_to_freeze_tasks`, `todo`). It is
    /// counted already.
    fn left_count(&self, group: Group) -> u32
        ensures { result ≡ length (left_of group self.now) }
    {
        self.left.of(group)
    }

    /// The tasks that a freeze of the group still waits for, found by going through all
    /// (`try_to_freeze_tasks`).
    pub fn left(&self, group: Group) -> Left
        ensures { IsLeft result (left_of group self.now) }
    {
        left_among(self.scripts, &self.freezings, &self.exited_flags, group)
    }

    /// What becomes of a freeze of the group at that time that goes on since then. The tasks are gone through
    /// only if it gives up (`try_to_freeze_tasks`).
    pub fn round(&self, group: Group, since: u64, time: u64) -> Round
        requires { since ≤ 2 ^ 63 }
        ensures { result ≡ round_of since time (left_of group self.now) }
    {
        let left = self.left_count(group);
        if left == 0 {
            return Round::AllFrozen;
        }
        let until = gives_up_at(since);
        if time < until {
            return Round::Again { left, until };
        }
        match self.left(group).first {
            None => Round::AllFrozen,
            Some(first) => Round::Late { left, first },
        }
    }
}
