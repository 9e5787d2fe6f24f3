//! Turns: one actor looks at the event word, and makes at most one entry.

ghost use Rattle.std.specs.Prelude.{◌≡◌, ◌≤◌, ◌<◌, ◌+◌, ◌^◌, false, length, max, OnOk, OnErr, ◌||◌};
ghost use Rattle.std.specs.Bool.{OnTrue, OnFalse};
ghost use Rattle.sleep_model.specs.declared.entry.Kind.TheVariants.{Begin};
ghost use Rattle.sleep_model.specs.declared.progress.Due.TheVariants.{Makes};
ghost use Rattle.sleep_model.specs.declared.word.EventNow.{EventNow};
ghost use Rattle.sleep_model.specs.Calls.{calls_due, report_calls};
ghost use Rattle.sleep_model.specs.Devices.{is_device};
ghost use Rattle.sleep_model.specs.Due.{due};
ghost use Rattle.sleep_model.specs.Legal.{JournalPart};
ghost use Rattle.sleep_model.specs.Numbers.{time_of};
ghost use Rattle.sleep_model.specs.Autosleep.{runs, runs_after};
ghost use Rattle.sleep_model.specs.Marks.{raised};
ghost use Rattle.sleep_model.specs.Path.{attempts, attempts_after, is_actor, maker};
ghost use Rattle.sleep_state.specs.TaskStates.{MarksAreSmall};
ghost use Rattle.sleep_model.specs.Word.{position};
ghost use Rattle.sleep_state.specs.JournalRooms.{entries};
ghost use Rattle.sleep_core.specs.Cores.{IsActor, core_after, next_stamp, jump_entry};
ghost use Rattle.core_history.specs.Histories.{IsOfDevice, IsOfNone, last_stamp};
ghost use Rattle.event_word.specs.Looks.{IsShown, GrewTo};
ghost use Rattle.core_history.specs.Numbered.{NumbersStayInRange, IsCounted};
ghost use Rattle.sleep_core.specs.Turned.{AfterTurn};

use crate::state::Core;
use event_word::{Events, look_from};
use sleep_base::Mem;
use sleep_model::{Actor, Due, EventNow, Kind, Phase, Stamp, What, Why, pos};
use sleep_state::is_device;
use std::sync::Wait;
use thiserror::Error;

/// What a turn did.
#[derive(Clone, Copy)]
pub enum CoreTurn {
    /// It made one entry. `attempt` numbers the latest attempt; before any it is 0.
    Did {
        stamp: Stamp,
        kind: Kind,
        attempt: u32,
    },
    /// The actor waits, and for what.
    NotYet(Why),
    /// Nothing is due of the actor any more: it has exited.
    Done,
}

/// Why a turn was refused.
#[derive(Clone, Copy, Debug, PartialEq, Eq, Error)]
pub enum CoreFault {
    /// There was no memory for the journal, or a number would have passed its range. It comes for no turn
    /// of the open attempt's maker, nor of a device.
    #[error("out of memory")]
    Mem,
}

/// The tick after these two; a tick that would pass its range waits for ever.
#[inline(always)]
fn next_tick<R: Wait>(rt: &R, one: u64, other: u64) -> u64
    ensures { result ≡ max one other + 1 }
{
    let last = one.max(other);
    if last < u64::MAX {
        return last + 1;
    }
    for _ in rt.forever() {}
    unreachable!()
}

impl<'m> Core<'m> {
    /// The stamp of the entry that is made next, by an actor who saw this word.
    #[inline(always)]
    pub(crate) fn next_stamp<R: Wait>(&self, rt: &R, word: EventNow, floor: Stamp) -> Stamp
        ensures { result ≡ next_stamp self.now.past floor word }
    {
        Stamp {
            pos: pos(word),
            tick: next_tick(rt, floor.tick, self.history.last().tick),
        }
    }

    /// Whether the number of attempts stays in its range.
    #[inline(always)]
    fn leaves_attempts(&self, kind: Kind) -> bool
        ensures fits { OnTrue result (attempts_after kind (attempts (entries self.now.past)) + 1 < 2 ^ 32) }
        ensures counted { OnFalse result (IsCounted kind) }
    {
        let attempts = self.attempts();
        match kind {
            Kind::Attempt { .. } => attempts < u32::MAX - 1,
            _ => true,
        }
    }

    /// Whether the number of the work's runs stays in its range.
    #[inline(always)]
    fn leaves_runs(&self, kind: Kind) -> bool
        ensures fits { OnTrue result (runs_after kind (runs (entries self.now.past)) < 2 ^ 32) }
        ensures counted { OnFalse result (IsCounted kind) }
    {
        let runs = self.runs();
        match kind {
            Kind::AutoRun => runs < u32::MAX,
            _ => true,
        }
    }

    /// Whether a mark's number stays in its range.
    #[inline(always)]
    fn leaves_marks(&self, kind: Kind) -> bool
        ensures fits { OnTrue result (MarksAreSmall kind (raised (length self.now.machine.marks) (entries self.now.past))) }
        ensures counted { OnFalse result (IsCounted kind) }
    {
        match kind {
            Kind::Post(mark) => self.raised(mark) < u32::MAX,
            _ => true,
        }
    }

    /// Whether the numbers that an entry raises stay in their ranges.
    #[inline(always)]
    fn leaves(&self, kind: Kind) -> bool
        ensures fits { OnTrue result (NumbersStayInRange self.now.machine kind (entries self.now.past)) }
        ensures counted { OnFalse result (IsCounted kind) }
    {
        self.leaves_attempts(kind) && self.leaves_runs(kind) && self.leaves_marks(kind)
    }

    /// Whether an entry of that actor, which makes the open attempt or not, is of the attempt: its maker's,
    /// or a device's.
    #[inline(always)]
    fn is_own(&self, makes: bool, who: Actor) -> bool
        requires { makes ≡ is_actor who (maker (entries self.now.past)) }
        ensures { result ≡ (is_actor who (maker (entries self.now.past)) || is_device who) }
    {
        makes || is_device(who)
    }

    /// How many calls on sources the machine's answers have for a callback of the open attempt.
    #[inline(never)]
    fn answered_reports(&self, phase: Phase, device: u32) -> u32
        ensures { result ≡ length (report_calls self.now.machine (attempts (entries self.now.past)) (Begin phase device)) }
    {
        let what = What::Device(device, phase);
        let answers = self.plans.answers();
        answers.reports(what, self.attempts()).len() as u32
    }

    /// How many calls on sources a callback of the open attempt reports. Most machines answer nothing at all.
    #[inline(always)]
    fn callback_reports(&self, phase: Phase, device: u32) -> u32
        ensures { result ≡ length (report_calls self.now.machine (attempts (entries self.now.past)) (Begin phase device)) }
    {
        if self.machine().answers.len() > 0 {
            self.answered_reports(phase, device)
        } else {
            0
        }
    }

    /// How many calls on sources the callback reports that an entry begins.
    #[inline(always)]
    fn reports_in(&self, kind: Kind) -> u32
        ensures { result ≡ length (report_calls self.now.machine (attempts (entries self.now.past)) kind) }
    {
        match kind {
            Kind::Begin(phase, device) => self.callback_reports(phase, device),
            _ => 0,
        }
    }

    /// Makes an entry of a device that is due. Its place is reserved, and of its numbers only that of reports
    /// grows.
    #[inline(always)]
    pub(crate) fn make_device(&mut self, who: Actor, now: EventNow, kind: Kind, stamp: Stamp)
        requires device { IsOfDevice kind }
        requires actor { IsActor self.old.machine who }
        requires due { due self.old.machine (entries self.old.past) who now ≡ Makes kind }
        requires calls { calls_due self.old.machine who (entries self.old.past) < 2 ^ 32 }
        ensures { self.new ≡ core_after self.old (record {
          stamp = stamp;
          entry = record { time = time_of (entries self.old.past); now = now; actor = who; kind = kind };
        }) }
    {
        let reports = self.reports_in(kind);
        self.history.append_device(stamp, now, who, kind);
        self.reports.add(who, reports);
    }

    /// Makes another entry that is due. `Mem` if there is no memory for it, or no number; never for the maker
    /// of the open attempt, nor for a device.
    #[inline(always)]
    pub(crate) fn make_other(
        &mut self,
        makes: bool,
        who: Actor,
        now: EventNow,
        kind: Kind,
        stamp: Stamp,
    ) -> Result<(), CoreFault>
        requires other { IsOfNone kind }
        requires makes { makes ≡ is_actor who (maker (entries self.old.past)) }
        requires actor { IsActor self.old.machine who }
        requires due { due self.old.machine (entries self.old.past) who now ≡ Makes kind }
        ensures ok { OnOk result (self.new ≡ core_after self.old (record {
          stamp = stamp;
          entry = record { time = time_of (entries self.old.past); now = now; actor = who; kind = kind };
        })) }
        ensures err { OnErr result ((is_actor who (maker (entries self.old.past)) ≡ false) × (is_device who ≡ false) × (self.new ≡ self.old)) }
    {
        let own = self.is_own(makes, who);
        if !self.leaves(kind) {
            return Err(CoreFault::Mem);
        }
        match self.history.make_room(own, kind) {
            Ok(()) => {}
            Err(_) => return Err(CoreFault::Mem),
        }
        // A journal is shorter than 2^63, so no script's steps run over.
        let _made = self.history.len();
        let Ok(()) = self.history.append(stamp, now, who, kind) else {
            return Err(CoreFault::Mem);
        };
        Ok(())
    }

    /// Makes the entry that is due. `Mem` if there is no memory for it, or no number; never for the maker
    /// of the open attempt, nor for a device.
    #[inline(always)]
    fn make(
        &mut self,
        makes: bool,
        who: Actor,
        now: EventNow,
        kind: Kind,
        stamp: Stamp,
    ) -> Result<(), CoreFault>
        requires makes { makes ≡ is_actor who (maker (entries self.old.past)) }
        requires actor { IsActor self.old.machine who }
        requires due { due self.old.machine (entries self.old.past) who now ≡ Makes kind }
        requires calls { calls_due self.old.machine who (entries self.old.past) < 2 ^ 32 }
        ensures ok { OnOk result (self.new ≡ core_after self.old (record {
          stamp = stamp;
          entry = record { time = time_of (entries self.old.past); now = now; actor = who; kind = kind };
        })) }
        ensures err { OnErr result ((is_actor who (maker (entries self.old.past)) ≡ false) × (is_device who ≡ false) × (self.new ≡ self.old)) }
    {
        match kind {
            Kind::Prepare { .. }
            | Kind::Complete(_)
            | Kind::Schedule(..)
            | Kind::Begin(..)
            | Kind::End(..)
            | Kind::Skip(..) => {
                self.make_device(who, now, kind, stamp);
                Ok(())
            }
            other => self.make_other(makes, who, now, other, stamp),
        }
    }

    /// The turn of an actor that saw this word.
    #[inline(always)]
    fn step<R: Wait>(
        &mut self,
        rt: &R,
        who: Actor,
        word: EventNow,
        floor: Stamp,
    ) -> Result<CoreTurn, CoreFault>
        requires actor { IsActor self.old.machine who }
        requires calls { calls_due self.old.machine who (entries self.old.past) < 2 ^ 32 }
        ensures turn { AfterTurn self.old self.new who word floor result }
        ensures legal { JournalPart self.new.machine (entries self.new.past) }
    {
        let makes = self.is_maker(who);
        // A look at the field makes the invariant known here: the journal is legal.
        let _ = &self.history;
        match self.due_of(makes, who, word) {
            Due::Waits(why) => Ok(CoreTurn::NotYet(why)),
            Due::Nothing => Ok(CoreTurn::Done),
            Due::Makes(kind) => {
                let stamp = self.next_stamp(rt, word, floor);
                let made = self.make(makes, who, word, kind, stamp);
                let attempt = self.history.attempt().attempts();
                made?;
                Ok(CoreTurn::Did {
                    stamp,
                    kind,
                    attempt,
                })
            }
        }
    }

    /// One turn of an actor: looks at the word until it is at least the floor's, decides, and makes at most
    /// one entry. `calls` counts the actor's calls on sources so far, `now` is the time in ms. `NotYet`
    /// exactly if the actor waits, `Done` exactly if nothing is due of it. `Mem` if there is no memory, or no
    /// number for one more attempt, run or mark; nothing has changed then. It never comes for the maker of
    /// the open attempt, nor for a device.
    #[inline(always)]
    pub fn turn<R: Wait, E: Events>(
        &mut self,
        rt: &R,
        events: &mut E,
        who: Actor,
        calls: u32,
        floor: Stamp,
        now: u64,
    ) -> Result<CoreTurn, CoreFault>
        requires actor { IsActor self.old.machine who }
        requires calls { calls ≡ calls_due self.old.machine who (entries self.old.past) }
        requires now { now ≡ time_of (entries self.old.past) }
        requires floor { (last_stamp self.old.past).pos ≤ E.floor events.old }
        // There is one word that was seen, by which the answer and the journal are what the definitions say.
        ensures turn { (word : EventNow) × IsShown (E.shows events.old) word × GrewTo word (E.looked events.old) (E.looked events.new)
            × ((E.floor events.old ≤ position word) × (floor.pos ≤ position word)) × AfterTurn self.old self.new who word floor result }
        ensures shows { E.shows events.new ≡ E.shows events.old }
        ensures made { E.made events.new ≡ E.made events.old }
        ensures can { E.can events.new ≡ E.can events.old }
        ensures root { E.root events.new ≡ E.root events.old }
        ensures floor { (last_stamp self.new.past).pos ≤ E.floor events.new }
        ensures legal { JournalPart self.new.machine (entries self.new.past) }
    {
        let _ = (calls, now);
        let word = look_from(rt, events, floor.pos);
        self.step(rt, who, word, floor)
    }
}
