//! The machine's core with the seat by which it looks at the event word.

ghost use Rattle.std.specs.Prelude.{◌≡◌, ◌≤◌, ◌<◌, ◌+◌, ◌-◌, ◌^◌, [], false, true, Some, IfOk, IfSome, IsSome, OnErr};
ghost use Rattle.std.specs.List.{list_any};
ghost use Rattle.sleep_model.specs.declared.progress.Due.TheVariants.{Makes};
ghost use Rattle.sleep_model.specs.declared.word.EventNow.{EventNow};
ghost use Rattle.sleep_model.specs.Calls.{calls_due};
ghost use Rattle.sleep_model.specs.Due.{due};
ghost use Rattle.sleep_model.specs.Legal.{JournalPart};
ghost use Rattle.sleep_model.specs.Merge.{is_word};
ghost use Rattle.sleep_model.specs.Numbers.{time_of};
ghost use Rattle.sleep_model.specs.Path.{is_actor, maker};
ghost use Rattle.sleep_model.specs.Word.{position};
ghost use Rattle.sleep_state.specs.JournalRooms.{entries};
ghost use Rattle.event_word.specs.Seats.{floor_of, looked_of, source_count};
ghost use Rattle.sleep_core.specs.Cores.{IsActor, jump_entry, made_entry, next_stamp, core_after};
ghost use Rattle.core_history.specs.Histories.{IsOfDevice, IsOfNone, last_stamp};
ghost use Rattle.sleep_core.specs.Turned.{AfterTurn};
ghost use Rattle.run_objects.specs.Objects.{IsSeatedCore};

use crate::seen::SeenWord;
use event_word::{EventTable, LookSeat, look_from};
use sleep_base::Mem;
use sleep_core::{Core, CoreFault, CoreTurn};
use sleep_model::{Actor, EventNow, Journal, Kind, Stamp, pos};
use std::marker::Model;
use std::sync::Wait;

/// The machine under its lock: its core, and the seat by which it looks at the event word
/// (`kernel/power/suspend.c`, `combined_event_count`). Contracts see the core, and what its seat knows.
#[derive(Drop)]
pub struct SeatedCore<'m> {
    core: Core<'m>,
    // The seat is out only within a call.
    seat: Option<LookSeat>,
    /// The word as it was looked at last, unless a turn has looked since.
    last: Option<EventNow>,
}

impl<'m> Model for SeatedCore<'m> {
    ghost use Rattle.run_objects.specs.Objects.{SeatedCoreState};

    ghost Value = { SeatedCoreState };

    ghost use Rattle.run_objects.specs.ObjectFields.{CoreFieldsInvariant, core_state};

    ghost view = { core_state };

    ghost invariant = { CoreFieldsInvariant };
}

/// Takes the seat out for a call.
#[inline(always)]
fn taken(place: &mut Option<LookSeat>) -> LookSeat
    requires { IsSome place.old }
    ensures { place.old ≡ Some result }
{
    match place.take() {
        Some(seat) => seat,
        None => unreachable!(),
    }
}

impl<'m> SeatedCore<'m> {
    /// A core that has made nothing yet, with the seat by which it will look.
    pub fn new(core: Core<'m>, seat: LookSeat) -> Self
        requires { core.past ≡ [] }
        ensures { result ≡ record { core = core.entry; seat = seat.token } }
    {
        SeatedCore {
            core,
            seat: Some(seat),
            last: None,
        }
    }

    /// The core, between turns.
    #[inline(always)]
    pub fn core(&self) -> &Core<'m>
        ensures is { result.now ≡ self.now.core }
        ensures kept { IsSeatedCore self.now }
    {
        &self.core
    }

    /// The word as it was looked at last, if it is kept and its position is at least `floor`.
    #[inline(always)]
    fn last_look(&self, floor: u64) -> Option<EventNow>
        ensures seen { IfSome result (λ word. list_any (is_word word) (looked_of self.now.seat) ≡ true) }
        ensures newest { IfSome result (λ word. position word ≡ floor_of self.now.seat) }
        ensures low { IfSome result (λ word. floor ≤ position word) }
    {
        let word = self.last?;
        if pos(word) < floor {
            return None;
        }
        Some(word)
    }

    /// The event word, at a position of at least `floor`: as it was looked at last if that was no earlier, else
    /// as it is looked at now.
    #[inline(always)]
    pub fn word<R: Wait>(&mut self, rt: &R, table: &EventTable, floor: u64) -> EventNow
        requires table { self.old.seat.table_id ≡ table.now.cells.shared.table_id }
        ensures core { self.new.core ≡ self.old.core }
        ensures table { self.new.seat.table_id ≡ self.old.seat.table_id }
        ensures sources { source_count self.new.seat ≡ source_count self.old.seat }
        ensures seen { list_any (is_word result) (looked_of self.new.seat) ≡ true }
        ensures low { floor ≤ position result }
        ensures above { (floor_of self.old.seat ≤ position result) × (floor_of self.new.seat ≡ position result) }
    {
        if let Some(word) = self.last_look(floor) {
            return word;
        }
        let mut events = taken(&mut self.seat).on(table);
        let word = look_from(rt, &mut events, floor);
        self.seat = Some(events.off());
        self.last = Some(word);
        word
    }

    /// One turn of an actor, by a word that is looked at: as that of the core by itself. `NotYet`, `Done` and
    /// `Mem` come if they come of the core, and nothing of it has changed then.
    #[inline(always)]
    pub fn turn<R: Wait>(
        &mut self,
        rt: &R,
        table: &EventTable,
        who: Actor,
        calls: u32,
        floor: Stamp,
        now: u64,
    ) -> Result<CoreTurn, CoreFault>
        requires table { self.old.seat.table_id ≡ table.now.cells.shared.table_id }
        requires actor { IsActor self.old.core.machine who }
        requires calls { calls ≡ calls_due self.old.core.machine who (entries self.old.core.past) }
        requires now { now ≡ time_of (entries self.old.core.past) }
        ensures turn { (word : EventNow) × (floor.pos ≤ position word) × ((last_stamp self.old.core.past).pos ≤ position word)
            × AfterTurn self.old.core self.new.core who word floor result }
        ensures legal { JournalPart self.new.core.machine (entries self.new.core.past) }
        ensures table { self.new.seat.table_id ≡ self.old.seat.table_id }
        ensures sources { source_count self.new.seat ≡ source_count self.old.seat }
    {
        let mut events = taken(&mut self.seat).on(table);
        let answer = self.core.turn(rt, &mut events, who, calls, floor, now);
        self.seat = Some(events.off());
        self.last = None;
        answer
    }

    /// One turn of an actor, by the word that was looked at last: as that of the core by itself. `NotYet`,
    /// `Done` and `Mem` come if they come of the core, and nothing of it has changed then.
    #[inline(never)]
    pub fn turn_by<R: Wait>(
        &mut self,
        rt: &R,
        word: EventNow,
        who: Actor,
        calls: u32,
        floor: Stamp,
        now: u64,
    ) -> Result<CoreTurn, CoreFault>
        requires seen { list_any (is_word word) (looked_of self.old.seat) ≡ true }
        requires newest { position word ≡ floor_of self.old.seat }
        requires actor { IsActor self.old.core.machine who }
        requires calls { calls ≡ calls_due self.old.core.machine who (entries self.old.core.past) }
        requires now { now ≡ time_of (entries self.old.core.past) }
        ensures turn { AfterTurn self.old.core self.new.core who word floor result }
        ensures legal { JournalPart self.new.core.machine (entries self.new.core.past) }
        ensures seat { self.new.seat ≡ self.old.seat }
    {
        let mut seen = SeenWord::new(word);
        self.core.turn(rt, &mut seen, who, calls, floor, now)
    }

    /// Makes the entry, of no device, that is due of an actor who makes no attempt, by the word that was looked
    /// at last. Answers its stamp. `Mem` if it comes of the core; nothing has changed then.
    #[inline(always)]
    pub fn make_own<R: Wait>(
        &mut self,
        rt: &R,
        who: Actor,
        word: EventNow,
        kind: Kind,
        floor: Stamp,
    ) -> Result<Stamp, CoreFault>
        requires seen { list_any (is_word word) (looked_of self.old.seat) ≡ true }
        requires newest { position word ≡ floor_of self.old.seat }
        requires other { IsOfNone kind }
        requires actor { IsActor self.old.core.machine who }
        requires makes { is_actor who (maker (entries self.old.core.past)) ≡ false }
        requires due { due self.old.core.machine (entries self.old.core.past) who word ≡ Makes kind }
        ensures ok { IfOk result (λ stamp. (stamp ≡ next_stamp self.old.core.past floor word)
            × (self.new.core ≡ core_after self.old.core (made_entry self.old.core.past who word floor kind))) }
        ensures err { OnErr result (self.new.core ≡ self.old.core) }
        ensures legal { JournalPart self.new.core.machine (entries self.new.core.past) }
        ensures seat { self.new.seat ≡ self.old.seat }
    {
        self.core.make_own(rt, who, word, kind, floor)
    }

    /// Makes the entry of a device that is due of the actor, by the word that was looked at last. Answers its
    /// stamp.
    #[inline(always)]
    pub fn make_of_device<R: Wait>(
        &mut self,
        rt: &R,
        who: Actor,
        word: EventNow,
        kind: Kind,
        calls: u32,
        floor: Stamp,
    ) -> Stamp
        requires seen { list_any (is_word word) (looked_of self.old.seat) ≡ true }
        requires newest { position word ≡ floor_of self.old.seat }
        requires device { IsOfDevice kind }
        requires actor { IsActor self.old.core.machine who }
        requires due { due self.old.core.machine (entries self.old.core.past) who word ≡ Makes kind }
        requires calls { calls ≡ calls_due self.old.core.machine who (entries self.old.core.past) }
        ensures made { self.new.core ≡ core_after self.old.core (made_entry self.old.core.past who word floor kind) }
        ensures stamp { result ≡ next_stamp self.old.core.past floor word }
        ensures legal { JournalPart self.new.core.machine (entries self.new.core.past) }
        ensures seat { self.new.seat ≡ self.old.seat }
    {
        let _ = calls;
        self.core.make_of_device(rt, who, word, kind, floor)
    }

    /// Time jumps to `to` ms, later than now, as seen at the word that was looked at last. That the moment is
    /// the next pending one is for the caller to see to. `Mem` if there is no memory; nothing has changed
    /// then.
    pub fn jump(&mut self, word: EventNow, to: u64, floor: Stamp) -> Result<Stamp, Mem>
        requires seen { list_any (is_word word) (looked_of self.old.seat) ≡ true }
        requires newest { position word ≡ floor_of self.old.seat }
        requires floor { floor.pos ≤ position word }
        requires tick { floor.tick < 2 ^ 64 - 1 }
        requires last_tick { (last_stamp self.old.core.past).tick < 2 ^ 64 - 1 }
        requires later { time_of (entries self.old.core.past) < to }
        requires small { to ≤ 2 ^ 63 }
        ensures ok { IfOk result (λ stamp. (stamp ≡ next_stamp self.old.core.past floor word)
            × (self.new.core ≡ core_after self.old.core (jump_entry self.old.core.past word to floor))) }
        ensures err { OnErr result (self.new.core ≡ self.old.core) }
        ensures seat { self.new.seat ≡ self.old.seat }
        ensures legal { JournalPart self.new.core.machine (entries self.new.core.past) }
    {
        self.core.jump(word, to, floor)
    }

    /// The seat, and the journal.
    pub(crate) fn into_components(self) -> (LookSeat, Journal)
        ensures seat { result.0.token ≡ self.entry.seat }
        ensures journal { result.1.past ≡ self.entry.core.past }
        ensures kept { IsSeatedCore self.entry }
    {
        let SeatedCore { core, mut seat, .. } = self;
        (taken(&mut seat), core.into_journal())
    }
}
