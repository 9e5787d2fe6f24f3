//! A wakeup source with its seat at the table of the event word.

ghost use Rattle.std.specs.Prelude.{◌≡◌, ◌≤◌, ◌<◌, ◌+◌, ◌^◌, ◌↔◌, true, Some, Err, IfOk, OnOk, OnErr, IsSome, length, reverse};
ghost use Rattle.std.specs.Bool.{OnFalse, OnTrue};
ghost use Rattle.wakeup_source.specs.declared.fault.SourceFault.TheVariants as SourceFault;
ghost use Rattle.sleep_model.specs.Sources.{makes, since, most_entries};
ghost use Rattle.event_word.specs.Seats.{IsUntouched, number_of};
ghost use Rattle.wakeup_source.specs.Called.{Calls, viewed_source};
ghost use Rattle.wakeup_source.specs.SourceStates.{IsSettled, unstamped_source, latest, new_source};
ghost use Rattle.wakeup_source.specs.Shown.{AreOwnSteps, MayCall};
ghost use Rattle.run_objects.specs.Objects.{IsSeatedSource, viewed_source_of};

use event_word::{Bump, EventSeat, EventTable};
use sleep_model::{SourceCall, SourceList, Stamp};
use std::alloc::Global;
use std::marker::Model;
use std::sync::Wait;
use wakeup_source::{CallBy, MOST_ENTRIES, SourceFault, WakeSource};

/// A wakeup source under its lock, with its seat at the event word (`struct wakeup_source`,
/// `combined_event_count`). Contracts see the source, and what its seat knows.
#[derive(Drop)]
pub struct SeatedSource {
    source: WakeSource<MOST_ENTRIES>,
    // The seat is out only within a call.
    seat: Option<EventSeat>,
}

impl Model for SeatedSource {
    ghost use Rattle.run_objects.specs.Objects.{SeatedSourceState};

    ghost Value = { SeatedSourceState };

    ghost use Rattle.run_objects.specs.ObjectFields.{SourceFieldsInvariant, source_state};

    ghost view = { source_state };

    ghost invariant = { SourceFieldsInvariant };
}

/// Takes the seat out for a call.
#[inline(always)]
fn taken(place: &mut Option<EventSeat>) -> EventSeat
    requires { IsSome place.old }
    ensures { place.old ≡ Some result }
{
    match place.take() {
        Some(seat) => seat,
        None => unreachable!(),
    }
}

/// Whether the source has fewer than the four places that a call may need.
#[inline(always)]
fn is_full(source: &WakeSource<MOST_ENTRIES>) -> bool
    ensures full { OnTrue result (most_entries < length source.now.past + 4) }
    ensures room { OnFalse result (length source.now.past + 4 ≤ most_entries) }
{
    MOST_ENTRIES < source.history().len() + 4
}

/// A call on a source.
#[inline(always)]
fn make<R: Wait, B: Bump>(
    rt: &R,
    source: &mut WakeSource<MOST_ENTRIES>,
    events: &mut B,
    by: CallBy,
    call: SourceCall,
) -> Result<Stamp, SourceFault>
    requires time { latest (unstamped_source source.old.past) ≤ by.now }
    requires small { by.now ≤ 2 ^ 63 }
    requires can { B.can events.old (makes call (since (unstamped_source source.old.past))) ≡ true }
    requires may { MayCall call (unstamped_source source.old.past) by.now }
    ensures calls { OnOk result (Calls by call
        (viewed_source (B.shows events.old) (B.made events.old) (B.looked events.old) (B.floor events.old) source.old)
        (viewed_source (B.shows events.new) (B.made events.new) (B.looked events.new) (B.floor events.new) source.new)) }
    ensures made { OnOk result (AreOwnSteps (B.made events.old) (B.made events.new) source.old source.new) }
    ensures stamp { IfOk result (λ stamp. stamp ≡ source.new.floor) }
    ensures full { (result ≡ Err SourceFault.Full) ↔ (most_entries < length source.old.past + 4) }
    ensures err { OnErr result ((source.new ≡ source.old) × (events.new ≡ events.old)) }
    ensures time { latest (unstamped_source source.new.past) ≤ by.now }
    ensures settled { IsSettled source.new }
    ensures root { B.root events.new ≡ B.root events.old }
{
    match call {
        SourceCall::Awake => source.stay_awake(rt, events, by),
        SourceCall::Relax => source.relax(rt, events, by),
        SourceCall::Event { ms, hard } => source.event(rt, events, by, ms, hard),
        SourceCall::Expire => match source.expire(rt, events, by)? {
            Some(stamp) => Ok(stamp),
            None => unreachable!(),
        },
    }
}

impl SeatedSource {
    /// The source of that seat's number, never called.
    pub fn new(alloc: Global, number: u32, seat: EventSeat) -> Self
        requires number { number_of seat.token ≡ Some number }
        requires untouched { IsUntouched seat.token }
        ensures { result ≡ record { source = new_source number; seat = seat.token } }
    {
        SeatedSource {
            source: WakeSource::new(alloc, number),
            seat: Some(seat),
        }
    }

    /// The source, between calls.
    #[inline(always)]
    pub fn source(&self) -> &WakeSource<MOST_ENTRIES>
        ensures is { result.now ≡ self.now.source }
        ensures kept { IsSeatedSource self.now }
    {
        &self.source
    }

    /// A whole call (`__pm_stay_awake`, `__pm_relax`, `pm_wakeup_ws_event`, `pm_wakeup_timer_fn`). Answers
    /// what the caller then knows. `Full` if fewer than four places are left, `Mem` if there is no memory:
    /// nothing has changed then.
    #[inline(always)]
    pub fn call<R: Wait>(
        &mut self,
        rt: &R,
        table: &EventTable,
        by: CallBy,
        call: SourceCall,
    ) -> Result<Stamp, SourceFault>
        requires time { latest (unstamped_source self.old.source.past) ≤ by.now }
        requires small { by.now ≤ 2 ^ 63 }
        requires may { MayCall call (unstamped_source self.old.source.past) by.now }
        requires table { self.old.seat.table_id ≡ table.now.cells.shared.table_id }
        ensures calls { IfOk result (λ stamp. (stamp ≡ self.new.source.floor)
            × Calls by call (viewed_source_of self.old) (viewed_source_of self.new)) }
        ensures full { (result ≡ Err SourceFault.Full) ↔ (most_entries < length self.old.source.past + 4) }
        ensures err { OnErr result (self.new ≡ self.old) }
        ensures table { self.new.seat.table_id ≡ self.old.seat.table_id }
        ensures number { (number_of self.new.seat ≡ number_of self.old.seat) × (self.new.source.id ≡ self.old.source.id) }
        ensures time { latest (unstamped_source self.new.source.past) ≤ by.now }
        ensures settled { IsSettled self.new.source }
    {
        if is_full(&self.source) {
            return Err(SourceFault::Full);
        }
        let mut events = taken(&mut self.seat).on(table);
        let answer = make(rt, &mut self.source, &mut events, by, call);
        self.seat = Some(events.off());
        answer
    }

    /// The seat, and the entries of the source, the oldest first.
    pub(crate) fn into_components(self) -> (EventSeat, SourceList)
        ensures seat { result.0.token ≡ self.seat }
        ensures entries { result.1 ≡ reverse self.source.past }
        ensures kept { IsSeatedSource self }
    {
        let SeatedSource { source, mut seat } = self;
        (taken(&mut seat), source.into_history())
    }
}
