//! The turns of a worker.

ghost use Rattle.std.specs.Prelude.{◌≡◌, Some, IsSome};
ghost use Rattle.world_workers.specs.Workers.{IsWorkerOf, WorkerWentOn, turns_left};

use crate::acts::act;
use crate::fault::RunFault;
use crate::outcome::TurnOutcome;
use crate::worker::Worker;
use run_world::{Gate, Reply, World, WorldPass};
use sleep_pool::{Job as Work, Turn};
use std::sync::Wait;

/// What the pool hears of a try.
fn turn_of(answer: Result<TurnOutcome, RunFault>) -> Turn {
    match answer {
        Ok(TurnOutcome::Made) => Turn::Did,
        Ok(TurnOutcome::Waits(_)) => Turn::NotYet,
        Ok(TurnOutcome::Exited) => Turn::Done,
        Err(_) => Turn::Stop,
    }
}

/// Takes the pass out for a turn.
fn taken<'m>(place: &mut Option<WorldPass<'m>>) -> WorldPass<'m>
    requires { IsSome place.old }
    ensures { place.old ≡ Some result }
{
    match place.take() {
        Some(pass) => pass,
        None => unreachable!(),
    }
}

impl<'w, 'm, R: Wait, G: Gate> Work<World<'w, 'm, R, G>> for Worker<'m> {
    ghost left = { turns_left };

    ghost goes = { λ w world now. IsWorkerOf world.machine.now world.table.now.cells.shared.table_id
        world.cells.now.shared.table_id world.moment w };

    ghost made = { WorkerWentOn };

    /// One act of the worker's task by its pass, unless the worker skips the round.
    fn turn(&mut self, shared: &World<'w, 'm, R, G>, now: u64) -> Turn {
        self.left -= 1;
        shared.gate.pass(self.place);
        if self.pause.skips_round() {
            return Turn::NotYet;
        }
        let pass = taken(&mut self.pass);
        let Reply { pass, answer } = act(shared, pass, &mut self.task);
        self.pass = Some(pass);
        self.stop = answer.err();
        let turn = turn_of(answer);
        self.pause.note(turn);
        turn
    }

    ghost made_none = { λ a s h. h };

    ghost made_more = { λ a b c xs ys h k s x. k s (h s x) };
}
