//! How the simulation of a machine goes to its end, on one thread or on several. The kernel has nothing like
//! it, so these are the words of this file, each before its first use:
//!
//! - A machine is a computer that suspends, as a file describes it (`Machine`); a run is its simulation.
//! - A source is a wakeup source of the machine (`struct wakeup_source`).
//! - A call on a source is `__pm_stay_awake`, `__pm_relax`, `pm_wakeup_ws_event`, or `pm_wakeup_timer_fn` of
//!   its timer. It can be refused: then its task stops.
//! - A script lists the operations of a process, of a kernel thread or of an interrupt line.
//! - An actor is a script, the autosleep work item, an asynchronous device, the timer of a source, or time.
//! - An entry records one step of an actor.
//! - The core decides what an actor does next, unless it is a call on a source. Its journal lists the entries
//!   of all steps but such calls.
//! - The history of a source lists the entries of the calls on it, and of the changes of the event word that
//!   these calls make (`combined_event_count`, `pm_abort_suspend`).
//! - A source is full if its history has fewer than four free places.
//! - The log of a run is the journal with the histories of all sources merged in.
//! - A try of an actor makes its next call on a source, or else its next entry of the journal; or it finds
//!   that the actor has to wait. Time has no tries.
//! - A round is one try of each actor that is not known to wait.
//! - A stretch is rounds by the calling thread: up to a given number, or up to one that makes no entry,
//!   neither in the journal nor in a history.
//! - After a round without an entry the stretch ends with one look at all actors, those too that are known to
//!   wait. If any can make an entry, the first of them does. If none can, and nothing is left to do, the run
//!   is finished. If none can, and nobody waits for a moment of time, it is stuck. Else time jumps to the
//!   next such moment. The jump is an entry of the journal, too, and time makes it.
//! - A job keeps how far a script, the autosleep work item or a device has come. From it and the journal the
//!   core decides what is next. A timer needs no job.
//! - A task is a job or the timer of a source; here it is no `task_struct`.
//! - A worker is a thread that makes the tries of its share of the tasks.
//! - In a burst all workers make tries at the same time, and the core and each source have a lock each. A
//!   stretch of one round follows each burst.

ghost use Rattle.std.specs.Prelude.{◌≡◌, ◌≤◌, IfOk};
ghost use Rattle.world_workers.specs.declared.fault.RunFault.TheVariants as fault;

use crate::after_idle_round::EndOfRun;
use crate::jobs::Jobs;
use crate::pace::Pace;
use crate::run::Run;
use crate::tasks::highest_of;
use apart_log::ApartLog;
use event_word::EventTable;
use run_objects::{SeatedCore, SeatedSource};
use run_world::Gate;
use sleep_base::{Mem, drop_for_mem};
use sleep_model::{Machine, Stamp};
use std::alloc::Global;
use std::sync::Wait;
use std::thread::Threads;
use wait_queues::Waiters;
use wakeup_source::MOST_ENTRIES;
use world_workers::{Burst, BurstContents, BurstPlan, RunFault, make_burst};

/// The most entries that a log has, for any machine that the reader of machine files accepts. The crate
/// `end_laws` proves the number (`all_logs_are_bounded`); it follows from the limits of machine files and of
/// histories.
const MOST_LOG: u64 = 37_585_025;

/// The part of a run that the calling thread keeps during a burst: the workers have its core, its sources and
/// its jobs.
#[derive(Drop)]
struct RunInBurst<'m> {
    machine: &'m Machine,
    /// The event word (`combined_event_count`, and `pm_abort_suspend` for hard events): one atomic that all
    /// threads share. An `EventTable` has no rows: the core and each source have a seat at it, which is a
    /// handle. By its seat the core may load the word, and a source may also add to it.
    table: EventTable,
    /// Each entry has a stamp, by which all are merged into one log. `pos` is how many steps of the event
    /// word (each change is one) the actor had seen. `tick` is no time, but a logical clock: it rises from
    /// entry to entry of the journal, of each history, and of each actor. The floor is the last stamp before
    /// the burst: the entries of the burst have later ticks.
    floor: Stamp,
    /// Who is known to wait: a round passes over these, until something may have ended the wait.
    waiters: Waiters,
}

/// A run after stretches or a burst, and what came of them. It goes on (`Ok(None)`); it is over, and how
/// (`Ok(Some)`); or it gives no log, since a source is full or memory ran out (`Err`).
#[derive(Drop)]
struct Advance<'m> {
    run: Run<'m>,
    outcome: Result<Option<EndOfRun>, RunFault>,
}

/// A run after a burst.
#[derive(Drop)]
struct AfterBurst<'m> {
    run: Run<'m>,
    /// How many calls on sources the tasks made, but for those of the task that made most. By it `Pace`,
    /// which decides between rounds and bursts, judges whether more bursts pay: a second thread cannot speed
    /// up the calls of one task.
    other_calls: u64,
    /// How many tasks there were.
    task_count: usize,
    /// Why a task stopped, if one did: a source is full, or memory ran out.
    stop: Option<RunFault>,
}

impl<'m> RunInBurst<'m> {
    ghost use Rattle.std.specs.Prelude.{◌≡◌, ◌≤◌, IfOk};
    ghost use Rattle.machine_rounds.specs.BurstsOf.{IsRunInBurst, IsBack, IsJoined, entries_of};
    ghost use Rattle.machine_rounds.specs.Runs.{entries_made};

    /// Makes the burst: the tasks run on worker threads, and all that went in comes back. `gate` is told of
    /// each try. In tests of this project it blocks, to force an order of tries; in the program it does
    /// nothing (`OpenGate`). `rt` is the runtime, which makes threads and lets them wait; it is no real time.
    fn run_tasks<R: Threads + Wait + Sync, G: Gate + Sync>(
        &self,
        rt: &R,
        alloc: Global,
        contents: BurstContents<'m>,
        workers: u8,
        gate: &G,
    ) -> Result<Burst<'m>, Mem>
        requires during { IsRunInBurst self.now.machine.now self.now.table.cells.shared.table_id self.now.floor
            contents.core contents.sources.items contents.tasks.items }
        requires workers { 1 ≤ workers }
        ensures back { IfOk result (λ made. IsBack self.now.machine.now self.now.table.cells.shared.table_id self.now.floor
            made.contents.core made.contents.sources.items made.contents.tasks.items) }
        ensures grown { IfOk result (λ made. entries_of contents.entry.core contents.entry.sources.items ≤ entries_of made.contents.core made.contents.sources.items) }
    {
        let plan = BurstPlan {
            gate,
            table: &self.table,
            machine: self.machine,
            workers,
        };
        make_burst(rt, alloc, &plan, contents)
    }

    /// Puts the run together again from what came back from a burst. `floor` is the last stamp of all, those
    /// of the burst among them. Nobody is known to wait any more: in a burst nobody keeps account of what
    /// ends a wait.
    fn joined(
        self,
        core: SeatedCore<'m>,
        sources: Vec<SeatedSource>,
        jobs: Jobs<'m>,
        floor: Stamp,
    ) -> Run<'m>
        requires { IsJoined self.machine.now self.table.cells.shared.table_id floor core sources.items jobs }
        ensures machine { result.machine ≡ self.entry.machine.now }
        ensures entries { entries_made result ≡ entries_of core.entry sources.items }
    {
        let RunInBurst {
            machine,
            table,
            mut waiters,
            ..
        } = self;
        waiters.wake_all();
        Run {
            machine,
            table,
            seated: core,
            sources,
            jobs,
            floor,
            waiters,
        }
    }

    /// Converts the tasks of a burst back into jobs, raises the floor to the greatest of their stamps, and
    /// puts the run together. `task_count`, the number of tasks, is passed on. `Mem` if there is no memory.
    fn come_back(
        self,
        alloc: Global,
        burst: Burst<'m>,
        task_count: usize,
    ) -> Result<AfterBurst<'m>, Mem>
        requires { IsBack self.machine.now self.table.cells.shared.table_id self.floor
            burst.contents.core burst.contents.sources.items burst.contents.tasks.items }
        ensures machine { IfOk result (λ after. after.run.machine ≡ self.entry.machine.now) }
        ensures entries { IfOk result (λ after. entries_made after.run ≡ entries_of burst.entry.contents.core burst.entry.contents.sources.items) }
    {
        let Burst {
            contents,
            other_calls,
            stop,
            ..
        } = burst;
        let BurstContents {
            core,
            sources,
            tasks,
        } = contents;
        let floor = highest_of(&tasks, self.floor);
        let Ok(jobs) = Jobs::of_tasks(alloc, tasks, self.machine.actors.len()) else {
            // `drop_for_mem` drops these, and answers `Mem`.
            return Err(drop_for_mem((self, core, sources)));
        };
        Ok(AfterBurst {
            run: self.joined(core, sources, jobs, floor),
            other_calls,
            task_count,
            stop,
        })
    }

    /// Makes a burst of `contents`, and puts the run together after it. `Mem` if there is no memory.
    fn run_on<R: Threads + Wait + Sync, G: Gate + Sync>(
        self,
        rt: &R,
        alloc: Global,
        contents: BurstContents<'m>,
        workers: u8,
        gate: &G,
    ) -> Result<AfterBurst<'m>, Mem>
        requires during { IsRunInBurst self.machine.now self.table.cells.shared.table_id self.floor
            contents.core contents.sources.items contents.tasks.items }
        requires workers { 1 ≤ workers }
        ensures machine { IfOk result (λ after. after.run.machine ≡ self.entry.machine.now) }
        ensures grown { IfOk result (λ after. entries_of contents.entry.core contents.entry.sources.items ≤ entries_made after.run) }
    {
        let task_count = contents.tasks.len();
        let Ok(burst) = self.run_tasks(rt, alloc, contents, workers, gate) else {
            return Err(drop_for_mem(self));
        };
        self.come_back(alloc, burst, task_count)
    }
}

impl<'m> AfterBurst<'m> {
    ghost use Rattle.machine_rounds.specs.Runs.{AfterStretches};

    /// Tells `pace` what the burst by `workers` workers came to. Then the run goes on by a stretch of one
    /// round.
    fn go_on<R: Wait>(self, rt: &R, pace: &mut Pace, workers: u8) -> Advance<'m>
        ensures machine { result.run.machine ≡ self.entry.run.machine }
        ensures after { AfterStretches 1 self.entry.run result.run result.outcome }
    {
        let AfterBurst {
            mut run,
            other_calls,
            task_count,
            stop,
        } = self;
        pace.note(other_calls, task_count, workers);
        let outcome = run.round_after_burst(rt, stop);
        Advance { run, outcome }
    }
}

impl<'m> Run<'m> {
    ghost use Rattle.std.specs.Prelude.{◌≡◌, ◌≤◌, ◌<◌, ◌+◌, ◌^◌, length, IfOk, IfErr, IfSome};
    ghost use Rattle.std.specs.Bool.{OnTrue};
    ghost use Rattle.machine_rounds.specs.BurstsOf.{IsRunInBurst, entries_of};
    ghost use Rattle.machine_rounds.specs.Runs.{AfterStretches, Fails, IsRefused, IsRun, entries_made};

    /// What stays with the calling thread, and the parts that go into a burst. The journal has to be short,
    /// so that no job's count of its entries of the journal overflows in the burst. In a burst a task has at
    /// most 1,000 tries, and each makes one such entry at most. In `world_workers` the type `Worker` is no
    /// thread: it is one task in a burst. `MOST_TURNS` bounds its turns, and a turn is one try at most. `Mem`
    /// if there is no memory.
    fn take_apart(self, alloc: Global) -> Result<(RunInBurst<'m>, BurstContents<'m>), Mem>
        requires { length self.journal + 1000 < 2 ^ 63 }
        ensures machine { IfOk result (λ contents. contents.0.machine.now ≡ self.entry.machine) }
        ensures during { IfOk result (λ contents. IsRunInBurst contents.0.machine.now contents.0.table.cells.shared.table_id contents.0.floor
            contents.1.core contents.1.sources.items contents.1.tasks.items) }
        ensures entries { IfOk result (λ contents. entries_of contents.1.core contents.1.sources.items ≡ entries_made self.entry) }
    {
        let Run {
            machine,
            table,
            seated: core,
            sources,
            jobs,
            floor,
            waiters,
        } = self;
        // The cast loses nothing: a machine has at most 255 sources, and `autosleep` is one more, the last.
        let Ok(tasks) = jobs.into_tasks(alloc, sources.len() as u32, floor) else {
            return Err(drop_for_mem((table, core, sources, waiters)));
        };
        let during = RunInBurst {
            machine,
            table,
            floor,
            waiters,
        };
        let contents = BurstContents {
            core,
            sources,
            tasks,
        };
        Ok((during, contents))
    }

    /// A burst by `workers` workers. Each goes over its share of the tasks again and again, with at most one
    /// try of each task in a pass. A worker ends after a pass in which its share makes no entry, neither in
    /// the journal nor in a history. It also ends after a task of its share stops, or after 1,000 passes. The
    /// burst ends with its last worker. `Mem` if there is no memory.
    fn burst<R: Threads + Wait + Sync, G: Gate + Sync>(
        self,
        rt: &R,
        alloc: Global,
        workers: u8,
        gate: &G,
    ) -> Result<AfterBurst<'m>, Mem>
        requires { 1 ≤ workers }
        ensures machine { IfOk result (λ after. after.run.machine ≡ self.entry.machine) }
        ensures grown { IfOk result (λ after. entries_made self.entry ≤ entries_made after.run) }
    {
        // Only for the proof: from here on it is known that the journal is short.
        self.entries_are_few();
        let Ok((during, contents)) = self.take_apart(alloc) else {
            return Err(Mem);
        };
        during.run_on(rt, alloc, contents, workers, gate)
    }

    /// Whether the history of `source` has fewer than four free places. A call may need four: for the entry
    /// of the call itself, and for three changes of the event word (start, hard event, finish).
    fn is_full(&self, source: u32) -> bool
        ensures { OnTrue result (IsRefused self.now (fault.SourceFull source)) }
    {
        match self.sources.get(source as usize) {
            Some(one) => MOST_ENTRIES < one.source().history().len() + 4,
            None => false,
        }
    }

    /// Whether `fault` may be why a call on a source was refused, so that its task stopped. For `SourceFull`
    /// that source has to be full. Memory may have run out always, so `Mem` is taken as it is.
    fn is_refused(&self, fault: RunFault) -> bool
        ensures { OnTrue result (IsRefused self.now fault) }
    {
        match fault {
            RunFault::SourceFull(source) => self.is_full(source),
            RunFault::Mem => true,
        }
    }

    /// The fault that ends the run, if a task stopped: the cause for which a call was refused. No clause of
    /// `make_burst` speaks of `stop`, so a full source is looked at again here. It is full still, since a
    /// history only grows: no fault is lost.
    fn refused(&self, stop: Option<RunFault>) -> Option<RunFault>
        ensures { IfSome result (IsRefused self.now) }
    {
        match stop {
            Some(fault) if self.is_refused(fault) => Some(fault),
            _ => None,
        }
    }

    /// Makes `stretches` stretches, all by the calling thread. Returns how the run is over, if it is.
    fn alone<R: Wait>(&mut self, rt: &R, stretches: u32) -> Result<Option<EndOfRun>, RunFault>
        ensures machine { self.new.machine ≡ self.old.machine }
        ensures after { AfterStretches stretches self.old self.new result }
    {
        for _stretch in 0..stretches {
            if let Some(end) = self.stretch(rt, u64::MAX)? {
                return Ok(Some(end));
            }
        }
        Ok(None)
    }

    /// As `alone`, for a caller that has the run by value. `alone` changes it in place, since the run is
    /// large and most stretches make a few entries: so it is moved once for all of them.
    fn advance_alone<R: Wait>(self, rt: &R, stretches: u32) -> Advance<'m>
        ensures machine { result.run.machine ≡ self.entry.machine }
        ensures after { AfterStretches stretches self.entry result.run result.outcome }
    {
        let mut run = self;
        let outcome = run.alone(rt, stretches);
        Advance { run, outcome }
    }

    /// Makes a stretch of one round, unless a task of the burst stopped. Returns how the run is over, if it
    /// is.
    fn round_after_burst<R: Wait>(
        &mut self,
        rt: &R,
        stop: Option<RunFault>,
    ) -> Result<Option<EndOfRun>, RunFault>
        ensures machine { self.new.machine ≡ self.old.machine }
        ensures after { AfterStretches 1 self.old self.new result }
    {
        match self.refused(stop) {
            Some(fault) => Err(fault),
            None => self.stretch(rt, 1),
        }
    }

    /// A burst, and then a stretch of one round.
    fn advance_by_burst<R: Threads + Wait + Sync, G: Gate + Sync>(
        self,
        rt: &R,
        alloc: Global,
        gate: &G,
        pace: &mut Pace,
    ) -> Result<Advance<'m>, Mem>
        ensures machine { IfOk result (λ next. next.run.machine ≡ self.entry.machine) }
        ensures after { IfOk result (λ next. AfterStretches 1 self.entry next.run next.outcome) }
    {
        let workers = pace.workers();
        let Ok(after) = self.burst(rt, alloc, workers, gate) else {
            return Err(Mem);
        };
        Ok(after.go_on(rt, pace, workers))
    }

    /// Moves the run on: by as many stretches of the calling thread as `pace` says (`alone` is their number
    /// here), or, if it says none, by a burst. Either way at least one entry is made, or the run is over or
    /// gives no log.
    fn advance<R: Threads + Wait + Sync, G: Gate + Sync>(
        self,
        rt: &R,
        alloc: Global,
        gate: &G,
        pace: &mut Pace,
    ) -> Result<Advance<'m>, Mem>
        ensures machine { IfOk result (λ next. next.run.machine ≡ self.entry.machine) }
        ensures after { IfOk result (λ next. AfterStretches 1 self.entry next.run next.outcome) }
    {
        let alone = pace.take_alone();
        if alone > 0 {
            Ok(self.advance_alone(rt, alone))
        } else {
            self.advance_by_burst(rt, alloc, gate, pace)
        }
    }

    /// For proofs: a run has made no more entries than a log has at most (the clause spells `MOST_LOG`). The
    /// function does nothing.
    fn entries_are_few(&self)
        ensures { entries_made self.now ≤ 37585025 }
    {
        // A look at the field makes the invariant known here.
        let _ = &self.machine;
    }

    /// The log of the whole run. Its journal and histories are still apart (`ApartLog`), and are merged
    /// later. If `workers` is 1 the calling thread makes all rounds itself, else bursts come between them.
    /// Each pass of the loop makes an entry or ends the run, and no run has more entries than a log has at
    /// most.
    pub fn to_end<R: Threads + Wait + Sync, G: Gate + Sync>(
        self,
        rt: &R,
        alloc: Global,
        workers: u8,
        gate: &G,
    ) -> Result<ApartLog, RunFault>
        requires { 1 ≤ workers }
        ensures ok { IfOk result (λ log. IsRun self.entry.machine log) }
        ensures fault { IfErr result (Fails self.entry.machine) }
    {
        let mut run = self;
        let mut pace = Pace::new(workers);
        for _pass in 0..MOST_LOG + 1 {
            let Ok(Advance { run: next, outcome }) = run.advance(rt, alloc, gate, &mut pace) else {
                return Err(RunFault::Mem);
            };
            match outcome {
                Ok(None) => run = next,
                Ok(Some(end)) => return Ok(next.into_log(alloc, end)?),
                Err(fault) => return Err(next.into_fault(rt, alloc, fault)),
            }
        }
        // Only for the proof: so many passes would have made more entries than a log has.
        run.entries_are_few();
        unreachable!()
    }
}
