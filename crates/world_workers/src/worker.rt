//! A worker of a burst.

ghost use Rattle.std.specs.Prelude.{◌≡◌, ◌<◌, ◌+◌, ◌^◌, Some, IsSome};
ghost use Rattle.world_workers.specs.Tries.{turns_of};

use crate::fault::RunFault;
use crate::pause::Pause;
use run_world::{Task, WorldPass};

/// A worker's own in a burst: a task, and the pass by which it takes the locks of the world.
#[derive(Drop)]
pub struct Worker<'m> {
    // The pass is out only within a turn.
    pub(crate) pass: Option<WorldPass<'m>>,
    pub(crate) task: Task<'m>,
    /// The index of the task among those of the burst.
    pub(crate) place: u32,
    /// The time in ms, which does not pass in a burst.
    pub(crate) moment: u64,
    /// How many turns it can still make.
    pub(crate) left: u64,
    /// Why it stopped, if it did.
    pub(crate) stop: Option<RunFault>,
    /// How many calls on sources its task had made when the burst began.
    pub(crate) called: u32,
    /// For how long it tries nothing.
    pub(crate) pause: Pause,
    ghost few: { turns_of task + left < 2 ^ 63 },
}

/// The most turns that a worker makes in a burst.
const MOST_TURNS: u64 = 1000;

impl<'m> Worker<'m> {
    /// The worker of the task with that index, with that pass, for a burst at that moment in ms.
    pub fn new(pass: WorldPass<'m>, task: Task<'m>, place: u32, moment: u64) -> Self
        requires few { turns_of task + 1000 < 2 ^ 63 }
        ensures pass { result.pass ≡ Some pass.entry }
        ensures task { (result.task ≡ task.entry) × (result.moment ≡ moment) × (result.left ≡ 1000) }
    {
        let called = task.calls();
        Worker {
            pass: Some(pass),
            task,
            place,
            moment,
            left: MOST_TURNS,
            stop: None,
            called,
            pause: Pause::new(),
        }
    }

    /// How many calls on sources its task has made in the burst.
    pub(crate) fn calls(&self) -> u32 {
        self.task.calls().saturating_sub(self.called)
    }

    /// The pass, and the task, when the burst is over.
    pub(crate) fn into_components(self) -> (WorldPass<'m>, Task<'m>)
        requires { IsSome self.pass }
        ensures pass { self.entry.pass ≡ Some result.0 }
        ensures task { self.entry.task ≡ result.1 }
    {
        let Worker { pass, task, .. } = self;
        match pass {
            Some(pass) => (pass, task),
            None => unreachable!(),
        }
    }
}
