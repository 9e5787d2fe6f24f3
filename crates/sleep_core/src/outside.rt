//! What a run asks of the core between turns: jumps of time, calls that are due, and whether all is over.

ghost use Rattle.std.specs.Prelude.{◌≡◌, ◌≤◌, ◌<◌, ◌+◌, ◌-◌, ◌^◌, ◌||◌, false, nat_lt, length, None, is_some, IfOk, IfSome, OnErr};
ghost use Rattle.std.specs.Bool.{OnTrue};
ghost use Rattle.sleep_model.specs.declared.progress.Work.TheVariants.{Resting};
ghost use Rattle.sleep_model.specs.Autosleep.{is_queued, work};
ghost use Rattle.sleep_model.specs.Calls.{calls_due, pieces_in};
ghost use Rattle.sleep_model.specs.Due.{due, is_over};
ghost use Rattle.sleep_model.specs.Legal.{JournalPart, is_made};
ghost use Rattle.sleep_model.specs.Links.{first_occurrences};
ghost use Rattle.sleep_model.specs.Numbers.{time_of};
ghost use Rattle.sleep_model.specs.Order.{above, below};
ghost use Rattle.sleep_model.specs.Path.{maker};
ghost use Rattle.sleep_model.specs.Positions.{position_at, positions};
ghost use Rattle.sleep_model.specs.Word.{position};
ghost use Rattle.sleep_state.specs.JournalRooms.{entries};
ghost use Rattle.sleep_state.specs.Sleepers.{AreStopped, HasSlept, NoneSlept, is_stopped, sleeps_past};
ghost use Rattle.async_board.specs.AtPoints.{board_at};
ghost use Rattle.sleep_core.specs.Seen.{is_scheduled, is_rescheduled, is_ready_on};
ghost use Rattle.script_plan.specs.Plans.{calls_before};
ghost use Rattle.sleep_core.specs.Cores.{IsActor, core_after, next_stamp, jump_entry};
ghost use Rattle.core_history.specs.Histories.{last_stamp};

use crate::state::Core;
use sleep_base::Mem;
use sleep_model::{Actor, Due, EventNow, Journal, Phase, PhaseState, Stamp, pos};

/// Whether a device in that state was scheduled on the way down, and has not begun.
fn is_scheduled(state: PhaseState) -> bool
    ensures { result ≡ is_scheduled state }
{
    matches!(state, PhaseState::Scheduled)
}

/// So on the way up.
fn is_rescheduled(state: PhaseState) -> bool
    ensures { result ≡ is_rescheduled state }
{
    matches!(state, PhaseState::Rescheduled)
}

/// Whether a sleep up to that moment goes on at that time.
fn sleeps_past(until: Option<u64>, time: u64) -> bool
    ensures { result ≡ sleeps_past until time }
{
    match until {
        None => false,
        Some(until) => time < until,
    }
}

impl<'m> Core<'m> {
    /// Time jumps to `to` ms, later than now, as seen at a word that was looked at. That the moment is the
    /// next pending one is for the caller to see to. `Mem` if there is no memory; nothing has changed then.
    pub fn jump(&mut self, seen: EventNow, to: u64, floor: Stamp) -> Result<Stamp, Mem>
        requires floor { floor.pos ≤ position seen }
        requires last { (last_stamp self.old.past).pos ≤ position seen }
        requires tick { floor.tick < 2 ^ 64 - 1 }
        requires last_tick { (last_stamp self.old.past).tick < 2 ^ 64 - 1 }
        requires later { time_of (entries self.old.past) < to }
        requires small { to ≤ 2 ^ 63 }
        ensures ok { IfOk result (λ stamp. (stamp ≡ next_stamp self.old.past floor seen)
            × (self.new ≡ core_after self.old (jump_entry self.old.past seen to floor))) }
        ensures err { OnErr result (self.new ≡ self.old) }
        ensures legal { JournalPart self.new.machine (entries self.new.past) }
    {
        let stamp = Stamp {
            pos: pos(seen),
            tick: floor.tick.max(self.history.last().tick) + 1,
        };
        let places = self.history.room() + 1;
        self.history.reserve(places)?;
        self.history.append_jump(stamp, seen, to);
        Ok(stamp)
    }

    /// How many calls on sources a script has to have made before its next entry, by its plan.
    fn script_calls_due(&self, script: u32) -> u32
        requires { script < length self.now.machine.actors }
        ensures { result ≡ calls_before (pieces_in self.now.machine script)
            (position_at (positions (length self.now.machine.actors) (entries self.now.past)) script).turns }
    {
        let position = self.history.tasks().position(script);
        self.plan(script).calls_before(position.turns)
    }

    /// How many calls on sources an actor owes in all before it may append to the journal: those of
    /// a script's own steps, and what its callbacks have reported (`pm_wakeup_event`, `pm_stay_awake`,
    /// `pm_relax`).
    pub fn calls_due(&self, who: Actor) -> u64
        requires { IsActor self.now.machine who }
        ensures { result ≡ calls_due self.now.machine who (entries self.now.past) }
    {
        let reported = self.reports.of(who);
        match who {
            Actor::Script(script) => self.script_calls_due(script) as u64 + reported,
            _ => reported,
        }
    }

    /// Whether the actor, which has made `calls` calls on sources, has one to make, or can make an entry that
    /// sees this word. `time` is the time of the last jump in ms.
    pub fn enabled(&self, who: Actor, calls: u32, now: EventNow, time: u64) -> bool
        requires actor { IsActor self.now.machine who }
        requires time { time ≡ time_of (entries self.now.past) }
        ensures { result ≡ (nat_lt calls (calls_due self.now.machine who (entries self.now.past))
            || is_made (due self.now.machine (entries self.now.past) who now)) }
    {
        let _ = time;
        (calls as u64) < self.calls_due(who) || matches!(self.due(who, now), Due::Makes(_))
    }

    /// The time of the last jump in ms, else 0.
    pub fn time(&self) -> u64
        ensures time { result ≡ time_of (entries self.now.past) }
        ensures small { result ≤ 2 ^ 63 }
    {
        self.time_ms()
    }

    /// How many entries the journal has. A journal has fewer than 2^63.
    pub fn len(&self) -> usize
        ensures len { result ≡ length self.now.past }
        ensures small { result < 2 ^ 63 }
    {
        self.history.len()
    }

    /// Whether every script has exited and no attempt is open.
    pub fn whole(&self) -> bool
        ensures { result ≡ is_over self.now.machine (entries self.now.past) }
    {
        self.history.tasks().all_exited() && self.history.attempt().maker().is_none()
    }

    /// Whether an attempt is open.
    pub fn is_open(&self) -> bool
        ensures { result ≡ is_some (maker (entries self.now.past)) }
    {
        self.history.attempt().maker().is_some()
    }

    /// Whether each script has exited, or sleeps to a moment that has not come. False may also mean that this
    /// is not known.
    pub fn are_stopped(&self) -> bool
        ensures { OnTrue result (AreStopped (positions (length self.now.machine.actors) (entries self.now.past)) (time_of (entries self.now.past))) }
    {
        self.history.tasks().are_stopped(self.time_ms())
    }

    /// Whether a script has exited, or sleeps to a moment that has not come.
    pub fn is_stopped(&self, script: u32) -> bool
        ensures { result ≡ is_stopped (position_at (positions (length self.now.machine.actors) (entries self.now.past)) script) (time_of (entries self.now.past)) }
    {
        let position = self.history.tasks().position(script);
        position.exited || sleeps_past(position.until, self.time_ms())
    }

    /// Whether the autosleep work rests and is not queued.
    #[inline(always)]
    pub fn is_unqueued(&self) -> bool
        ensures { OnTrue result ((work (entries self.now.past) ≡ Resting) × (is_queued (entries self.now.past) ≡ false)) }
    {
        self.history.autosleep().is_unqueued()
    }

    /// The next script after that one, or the first, whose sleep has come to its end, in an order of its own.
    /// If the search begins at the first and finds none, no script's has.
    pub fn next_slept(&self, after: Option<u32>) -> Option<u32>
        ensures found { IfSome result (λ script. HasSlept (positions (length self.now.machine.actors) (entries self.now.past)) script (time_of (entries self.now.past))) }
        ensures none { after ≡ None → result ≡ None → NoneSlept (positions (length self.now.machine.actors) (entries self.now.past)) (time_of (entries self.now.past)) }
    {
        // A machine has fewer than 2^32 scripts.
        let _scripts = self.scripts();
        self.history.tasks().next_slept(after, self.time_ms())
    }

    /// The devices that depend directly on one: its children, then its consumers, each once.
    pub fn below(&self, device: u32) -> &[u32]
        ensures { result.now ≡ first_occurrences (below self.now.machine (entries self.now.past) device) }
    {
        self.history.board().links().below(device)
    }

    /// The devices that one depends on directly: its parent, then its suppliers, each once.
    pub fn above(&self, device: u32) -> &[u32]
        ensures { result.now ≡ first_occurrences (above self.now.machine (entries self.now.past) device) }
    {
        self.history.board().links().above(device)
    }

    /// Whether an asynchronous device was scheduled in a phase, has not begun, and waits for no other. On the
    /// way down it would wait for those right below it (`dpm_wait_for_subordinate`), on the way up for those
    /// right above it (`dpm_wait_for_superior`).
    #[inline(always)]
    pub fn is_ready(&self, phase: Phase, device: u32) -> bool
        ensures { result ≡ is_ready_on (board_at self.now.machine (entries self.now.past)) phase device }
    {
        let board = self.board();
        if phase.is_down() {
            is_scheduled(board.state(phase, device)) && board.is_free_below(phase, device)
        } else {
            let down = phase.mirror();
            is_rescheduled(board.state(down, device)) && board.is_free_above(down, device)
        }
    }

    /// The journal.
    pub fn into_journal(self) -> Journal
        ensures { result.past ≡ self.entry.past }
    {
        let Core { history, .. } = self;
        history.into_journal()
    }
}
