//! What comes after a round that did nothing: a jump of time, or the end.

ghost use Rattle.std.specs.Prelude.{◌≡◌, ◌≤◌, ◌<◌, ◌^◌, ◌++◌, true, length, IfOk, OnOk, All};
ghost use Rattle.std.specs.List.{list_all};
ghost use Rattle.sleep_model.specs.Fits.{fits_stats};
ghost use Rattle.run_objects.specs.Objects.{sources_of};
ghost use Rattle.machine_rounds.specs.Waits.{script_waits, all_stats};
ghost use Rattle.wakeup_source.specs.SourceStates.{unstamped_source, latest};

use crate::run::Run;
use apart_log::ApartLog;
use room_laws::{moments_are_ranged, stats_are_ranged};
use run_objects::{SeatedSource, close_table};
use sleep_base::{Mem, drop_for_mem};
use sleep_core::Core;
use sleep_model::{Actor, Due, EventNow, Journal, ListOf, LogEnd, SourceList, Stats, Waiting};
use std::alloc::{AllocError, Global};
use std::sync::Wait;
use wait_queues::Waiters;
use world_workers::RunFault;

/// How a run is over, by the word that was looked at last.
#[derive(Clone, Copy)]
pub(crate) enum EndOfRun {
    /// Nothing is left to do.
    Finished(EventNow),
    /// Nobody goes on.
    Stuck(EventNow),
}

/// The statistics of the sources at that moment.
fn stats_of(alloc: Global, sources: &[SeatedSource], at: u64) -> Result<Vec<Stats>, AllocError>
    requires time { All (λ s. latest (unstamped_source s.source.past) ≤ at) sources.now }
    requires small { at ≤ 2 ^ 63 }
    ensures all { IfOk result (λ v. v.items ≡ all_stats (sources_of sources.now) at) }
    ensures ranged { IfOk result (λ v. list_all fits_stats v.items ≡ true) }
{
    let mut stats = Vec::with_capacity(alloc, sources.len())?;
    for source in sources {
        let one = source.source().stats(at);
        stats_are_ranged(one);
        stats.push_reserved(one);
    }
    Ok(stats)
}

/// A script that waits is put after the others.
fn push_waiting(those: &mut Vec<Waiting>, script: u32, due: Due) -> Result<(), AllocError>
    ensures { OnOk result (those.new.items ≡ those.old.items ++ script_waits script due) }
{
    if let Due::Waits(why) = due {
        those.push(Waiting {
            actor: Actor::Script(script),
            why,
        })?;
    }
    Ok(())
}

/// Wakes the scripts whose sleeps have come to their ends.
fn wake_sleepers(core: &Core<'_>, waiters: &mut Waiters) {
    let mut next = core.next_slept(None);
    for _ in 0..u32::MAX {
        let Some(script) = next else {
            break;
        };
        waiters.wake_sleeper(script);
        next = core.next_slept(Some(script));
    }
}

/// Wakes whoever may wait for a moment that has come: devices wait for none, nor do frozen scripts, and the
/// timers only if one is due.
fn wake_waiters(core: &Core<'_>, waiters: &mut Waiters, is_due: bool) {
    waiters.wake_but_sleepers();
    if is_due {
        waiters.wake_timers();
    }
    wake_sleepers(core, waiters);
}

/// Whether the least expiry of the sources, if there is one, is not later than that moment.
fn is_due(soonest: Option<u64>, to: u64) -> bool {
    match soonest {
        Some(at) => at <= to,
        None => false,
    }
}

impl<'m> Run<'m> {
    ghost use Rattle.std.specs.Prelude.{◌≡◌, ◌<◌, true, IfOk, OnOk, IfErr};
    ghost use Rattle.std.specs.List.{list_all};
    ghost use Rattle.sleep_model.specs.Fits.{fits_stats};
    ghost use Rattle.sleep_model.specs.Legal.{JumpStep, waiting};
    ghost use Rattle.sleep_model.specs.Numbers.{time_of};
    ghost use Rattle.sleep_state.specs.JournalRooms.{entries};
    ghost use Rattle.running_laws.specs.Running.{histories, journal_histories};
    ghost use Rattle.machine_rounds.specs.Runs.{IsClosed, IsHalted, IsLastLook, IsAfterIdleRound, IsAtEnd, EndsSo, Fails, IsRefused, IsRun, entries_made};

    /// Wakes whoever may wait for the moment to which time has jumped, a timer among them or not.
    fn wake_for_time(&mut self, is_due: bool)
        ensures { self.new ≡ self.old }
    {
        wake_waiters(self.seated.core(), &mut self.waiters, is_due);
    }

    /// Time jumps to the next pending moment, if nobody can make anything by the word that was looked at
    /// last. A run makes so few entries that the clock and the ticks of stamps stay in their range. `Mem` if
    /// there is no memory. A timer is due then, or none.
    fn jump(&mut self, word: EventNow, to: u64, is_due: bool) -> Result<(), RunFault>
        requires least { JumpStep self.old.machine (entries self.old.journal) (histories self.old.sources) word to }
        requires seen { IsLastLook self.old word }
        requires later { time_of (entries self.old.journal) < to }
        ensures machine { self.new.machine ≡ self.old.machine }
        ensures made { OnOk result (entries_made self.old < entries_made self.new) }
        ensures fault { IfErr result (IsRefused self.new) }
    {
        moments_are_ranged(to);
        self.floor = self.seated.jump(word, to, self.floor)?;
        self.wake_for_time(is_due);
        Ok(())
    }

    /// After a round that did nothing: whoever can go on makes an entry by the word that is looked at; time
    /// jumps if nobody can; or the run is over. Answers how it is over, if it is.
    pub(crate) fn after_idle_round<R: Wait>(&mut self, rt: &R) -> Result<Option<EndOfRun>, RunFault>
        ensures machine { self.new.machine ≡ self.old.machine }
        ensures after { IsAfterIdleRound self.old self.new result }
    {
        let word = self.look(rt);
        let soonest = self.next_expiry();
        if self.go_by(rt, word, soonest)? {
            return Ok(None);
        }
        if self.is_whole() {
            return Ok(Some(EndOfRun::Finished(word)));
        }
        match self.next_time(soonest) {
            Some(to) => {
                self.jump(word, to, is_due(soonest, to))?;
                Ok(None)
            }
            None => Ok(Some(EndOfRun::Stuck(word))),
        }
    }

    /// The scripts that wait, and for what, if nobody goes on by that word.
    fn waiting(&self, alloc: Global, word: EventNow) -> Result<Vec<Waiting>, AllocError>
        requires { IsHalted self.now word }
        ensures { IfOk result (λ v. v.items ≡ waiting self.now.machine (entries self.now.journal) word) }
    {
        let mut those = Vec::new(alloc);
        for script in 0..self.machine.actors.len() as u32 {
            let due = self.core().due(Actor::Script(script), word);
            push_waiting(&mut those, script, due)?;
        }
        Ok(those)
    }

    /// How a run that is over ended.
    fn end(&self, alloc: Global, run_end: EndOfRun) -> Result<LogEnd, AllocError>
        requires { IsAtEnd self.now run_end }
        ensures { IfOk result (λ end. EndsSo self.now end) }
    {
        match run_end {
            EndOfRun::Stuck(word) => {
                let those = self.waiting(alloc, word)?;
                Ok(LogEnd::Stuck(ListOf::of_vec(those)))
            }
            EndOfRun::Finished(_) => Ok(LogEnd::Finished),
        }
    }

    /// The statistics of all sources now.
    fn stats(&self, alloc: Global) -> Result<Vec<Stats>, AllocError>
        ensures all { IfOk result (λ v. v.items ≡ all_stats self.now.sources (time_of (entries self.now.journal))) }
        ensures ranged { IfOk result (λ v. list_all fits_stats v.items ≡ true) }
    {
        let stats = stats_of(alloc, &self.sources, self.time())?;
        Ok(stats)
    }

    /// How a run that is over ended, and the statistics of all sources then.
    fn ending(&self, alloc: Global, run_end: EndOfRun) -> Result<(LogEnd, Vec<Stats>), AllocError>
        requires { IsAtEnd self.now run_end }
        ensures end { IfOk result (λ e. EndsSo self.now e.0) }
        ensures stats { IfOk result (λ e. e.1.items ≡ all_stats self.now.sources (time_of (entries self.now.journal))) }
        ensures ranged { IfOk result (λ e. list_all fits_stats e.1.items ≡ true) }
    {
        let end = self.end(alloc, run_end)?;
        let stats = self.stats(alloc)?;
        Ok((end, stats))
    }

    /// The journal and the sources' histories, all of whose steps the closed table of the event word has.
    /// `Mem` if there is no memory.
    fn closed(self, alloc: Global) -> Result<(Journal, Vec<SourceList>), Mem>
        ensures journal { IfOk result (λ kept. kept.0.past ≡ self.entry.journal) }
        ensures histories { IfOk result (λ kept. kept.1.items ≡ journal_histories self.entry.sources) }
        ensures closed_over { OnOk result (IsClosed self.entry) }
    {
        let Run {
            table,
            sources,
            seated,
            jobs,
            waiters,
            ..
        } = self;
        drop((jobs, waiters));
        let kept = close_table(alloc, table, sources, seated)?;
        Ok(kept)
    }

    /// The log of a run that is over and ended so: that of its journal and its sources' histories.
    fn merged(self, alloc: Global, end: LogEnd, stats: Vec<Stats>) -> Result<ApartLog, Mem>
        requires end { EndsSo self end }
        requires stats { stats.items ≡ all_stats self.sources (time_of (entries self.journal)) }
        requires ranged { list_all fits_stats stats.items ≡ true }
        ensures { IfOk result (λ log. IsRun self.entry.machine log) }
    {
        let (journal, histories) = self.closed(alloc)?;
        Ok(ApartLog::new(journal, histories, stats, end))
    }

    /// The log of a run that is over.
    pub(crate) fn into_log(self, alloc: Global, run_end: EndOfRun) -> Result<ApartLog, Mem>
        requires { IsAtEnd self run_end }
        ensures { IfOk result (λ log. IsRun self.entry.machine log) }
    {
        match self.ending(alloc, run_end) {
            Ok((end, stats)) => self.merged(alloc, end, stats),
            Err(_) => Err(drop_for_mem(self)),
        }
    }

    /// Why a run gives nothing, one of whose calls was refused: if a source is full, the table of the event
    /// word is closed, and what was made up to then is a legal log, so the machine's calls may fill the
    /// source. `Mem` if there is no memory to close it.
    pub(crate) fn into_fault<R: Wait>(mut self, rt: &R, alloc: Global, fault: RunFault) -> RunFault
        requires { IsRefused self fault }
        ensures { Fails self.entry.machine result }
    {
        let _word = self.look(rt);
        let Ok(_preserved) = self.closed(alloc) else {
            return RunFault::Mem;
        };
        fault
    }
}
