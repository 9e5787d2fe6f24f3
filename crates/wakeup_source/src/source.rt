//! A wakeup source: its calls, its statistics and its history.
use crate::call_by::CallBy;
use crate::fault::SourceFault;
use crate::source_history::SourceHistory;
use event_word::Bump;
use sleep_model::{SourceCall, SourceEntry, SourceList, Stamp, Stats};
use std::alloc::Global;
use std::marker::Model;
use std::sync::Wait;

/// A wakeup source with a history of at most `CAP` entries (`include/linux/pm_wakeup.h`,
/// `struct wakeup_source`). Contracts see its number, its entries, the newest first, and what it last knew.
#[derive(Drop)]
pub struct WakeSource<const CAP: usize> {
    source_history: SourceHistory,
}

impl<const CAP: usize> Model for WakeSource<CAP> {
    ghost use Rattle.wakeup_source.specs.SourceStates.{SourceState, HasPlaces};

    ghost Value = { SourceState };

    ghost view = { λ s. s.source_history.source };

    ghost invariant = { λ s. HasPlaces CAP s.source_history.source };
}

impl<const CAP: usize> WakeSource<CAP> {
    ghost use Rattle.std.specs.Prelude.{◌≡◌, ◌≤◌, ◌<◌, ◌+◌, ◌^◌, ◌↔◌, true, false, Some, None, Ok, Err, length, reverse, OnOk, OnErr, IfOk, IfSome};
    ghost use Rattle.sleep_model.specs.declared.machine.SourceCall.TheVariants.{Awake, Relax, Event, Expire};
    ghost use Rattle.sleep_model.specs.Sources.{makes, since, expiry, has_expired, most_entries, stats_at};
    ghost use Rattle.wakeup_source.specs.Called.{viewed_source, Calls, CanGoOnAll};
    ghost use Rattle.wakeup_source.specs.SourceStates.{new_source, unstamped_source, latest, later_stamp, IsSettled};
    ghost use Rattle.wakeup_source.specs.Shown.{IsShownCall, AreOwnSteps, MayCall, OnDone};

    /// The source with that number, never called. `CAP` is at most `MOST_ENTRIES`.
    pub fn new(alloc: Global, id: u32) -> Self
        requires { CAP ≤ most_entries }
        ensures { result ≡ new_source id }
    {
        WakeSource {
            source_history: SourceHistory::new(alloc, id),
        }
    }

    /// A call of any kind, an expiry only if its moment has come. Answers what the caller then knows. `Full` if
    /// fewer than four places are left, `Mem` if there is no memory: nothing has changed then.
    #[inline(always)]
    pub fn call<R: Wait, B: Bump>(
        &mut self,
        rt: &R,
        events: &mut B,
        by: CallBy,
        call: SourceCall,
    ) -> Result<Stamp, SourceFault>
        requires time { latest (unstamped_source self.old.past) ≤ by.now }
        requires small { by.now ≤ 2 ^ 63 }
        requires may { MayCall call (unstamped_source self.old.past) by.now }
        requires can { B.can events.old (makes call (since (unstamped_source self.old.past))) ≡ true }
        ensures calls { OnOk result (Calls by call
            (viewed_source (B.shows events.old) (B.made events.old) (B.looked events.old) (B.floor events.old) self.old)
            (viewed_source (B.shows events.new) (B.made events.new) (B.looked events.new) (B.floor events.new) self.new)) }
        ensures shown { OnOk result (IsShownCall by call (B.shows events.old) (B.shows events.new) self.old self.new) }
        ensures made { OnOk result (AreOwnSteps (B.made events.old) (B.made events.new) self.old self.new) }
        ensures stamp { IfOk result (λ stamp. stamp ≡ self.new.floor) }
        ensures full { (result ≡ Err SourceFault.Full) ↔ (CAP < length self.old.past + 4) }
        ensures err { OnErr result ((self.new ≡ self.old) × (events.new ≡ events.old)) }
        ensures time { latest (unstamped_source self.new.past) ≤ by.now }
        ensures settled { IsSettled self.new }
        ensures can { OnOk result (CanGoOnAll (makes call (since (unstamped_source self.old.past)))
            (B.can events.old) (B.can events.new)) }
        ensures root { B.root events.new ≡ B.root events.old }
    {
        self.source_history.make_room(rt, by, CAP)?;
        self.source_history.look(rt, events, by, call);
        self.source_history.make_steps(events, by, call);
        Ok(self.source_history.floor())
    }

    /// An event that lasts until it is ended by hand (`__pm_stay_awake`). Answers and refuses as `call`.
    pub fn stay_awake<R: Wait, B: Bump>(
        &mut self,
        rt: &R,
        events: &mut B,
        by: CallBy,
    ) -> Result<Stamp, SourceFault>
        requires time { latest (unstamped_source self.old.past) ≤ by.now }
        requires small { by.now ≤ 2 ^ 63 }
        requires can { B.can events.old (makes Awake (since (unstamped_source self.old.past))) ≡ true }
        ensures calls { OnOk result (Calls by Awake
            (viewed_source (B.shows events.old) (B.made events.old) (B.looked events.old) (B.floor events.old) self.old)
            (viewed_source (B.shows events.new) (B.made events.new) (B.looked events.new) (B.floor events.new) self.new)) }
        ensures shown { OnOk result (IsShownCall by Awake (B.shows events.old) (B.shows events.new) self.old self.new) }
        ensures made { OnOk result (AreOwnSteps (B.made events.old) (B.made events.new) self.old self.new) }
        ensures stamp { IfOk result (λ stamp. stamp ≡ self.new.floor) }
        ensures full { (result ≡ Err SourceFault.Full) ↔ (CAP < length self.old.past + 4) }
        ensures err { OnErr result ((self.new ≡ self.old) × (events.new ≡ events.old)) }
        ensures time { latest (unstamped_source self.new.past) ≤ by.now }
        ensures settled { IsSettled self.new }
        ensures can { OnOk result (CanGoOnAll (makes Awake (since (unstamped_source self.old.past)))
            (B.can events.old) (B.can events.new)) }
        ensures root { B.root events.new ≡ B.root events.old }
    {
        self.call(rt, events, by, SourceCall::Awake)
    }

    /// The end of the event in progress, if one is (`__pm_relax`). Answers and refuses as `call`.
    pub fn relax<R: Wait, B: Bump>(
        &mut self,
        rt: &R,
        events: &mut B,
        by: CallBy,
    ) -> Result<Stamp, SourceFault>
        requires time { latest (unstamped_source self.old.past) ≤ by.now }
        requires small { by.now ≤ 2 ^ 63 }
        requires can { B.can events.old (makes Relax (since (unstamped_source self.old.past))) ≡ true }
        ensures calls { OnOk result (Calls by Relax
            (viewed_source (B.shows events.old) (B.made events.old) (B.looked events.old) (B.floor events.old) self.old)
            (viewed_source (B.shows events.new) (B.made events.new) (B.looked events.new) (B.floor events.new) self.new)) }
        ensures shown { OnOk result (IsShownCall by Relax (B.shows events.old) (B.shows events.new) self.old self.new) }
        ensures made { OnOk result (AreOwnSteps (B.made events.old) (B.made events.new) self.old self.new) }
        ensures stamp { IfOk result (λ stamp. stamp ≡ self.new.floor) }
        ensures full { (result ≡ Err SourceFault.Full) ↔ (CAP < length self.old.past + 4) }
        ensures err { OnErr result ((self.new ≡ self.old) × (events.new ≡ events.old)) }
        ensures time { latest (unstamped_source self.new.past) ≤ by.now }
        ensures settled { IsSettled self.new }
        ensures can { OnOk result (CanGoOnAll (makes Relax (since (unstamped_source self.old.past)))
            (B.can events.old) (B.can events.new)) }
        ensures root { B.root events.new ≡ B.root events.old }
    {
        self.call(rt, events, by, SourceCall::Relax)
    }

    /// An event of `ms` milliseconds, a hard one or not (`pm_wakeup_ws_event`): one without length ends at
    /// once, one that lasts longer is not cut. Answers and refuses as `call`.
    pub fn event<R: Wait, B: Bump>(
        &mut self,
        rt: &R,
        events: &mut B,
        by: CallBy,
        ms: u32,
        hard: bool,
    ) -> Result<Stamp, SourceFault>
        requires time { latest (unstamped_source self.old.past) ≤ by.now }
        requires small { by.now ≤ 2 ^ 63 }
        requires can { B.can events.old (makes (Event ms hard) (since (unstamped_source self.old.past))) ≡ true }
        ensures calls { OnOk result (Calls by (Event ms hard)
            (viewed_source (B.shows events.old) (B.made events.old) (B.looked events.old) (B.floor events.old) self.old)
            (viewed_source (B.shows events.new) (B.made events.new) (B.looked events.new) (B.floor events.new) self.new)) }
        ensures shown { OnOk result (IsShownCall by (Event ms hard)
            (B.shows events.old) (B.shows events.new) self.old self.new) }
        ensures made { OnOk result (AreOwnSteps (B.made events.old) (B.made events.new) self.old self.new) }
        ensures stamp { IfOk result (λ stamp. stamp ≡ self.new.floor) }
        ensures full { (result ≡ Err SourceFault.Full) ↔ (CAP < length self.old.past + 4) }
        ensures err { OnErr result ((self.new ≡ self.old) × (events.new ≡ events.old)) }
        ensures time { latest (unstamped_source self.new.past) ≤ by.now }
        ensures settled { IsSettled self.new }
        ensures can { OnOk result (CanGoOnAll (makes (Event ms hard) (since (unstamped_source self.old.past)))
            (B.can events.old) (B.can events.new)) }
        ensures root { B.root events.new ≡ B.root events.old }
    {
        self.call(rt, events, by, SourceCall::Event { ms, hard })
    }

    /// The end of the event in progress if its moment has come (`pm_wakeup_timer_fn`). `None` if it has not,
    /// which is tested first. Else answers and refuses as `call`.
    pub fn expire<R: Wait, B: Bump>(
        &mut self,
        rt: &R,
        events: &mut B,
        by: CallBy,
    ) -> Result<Option<Stamp>, SourceFault>
        requires time { latest (unstamped_source self.old.past) ≤ by.now }
        requires small { by.now ≤ 2 ^ 63 }
        requires can { B.can events.old (makes Expire (since (unstamped_source self.old.past))) ≡ true }
        ensures calls { OnDone result (Calls by Expire
            (viewed_source (B.shows events.old) (B.made events.old) (B.looked events.old) (B.floor events.old) self.old)
            (viewed_source (B.shows events.new) (B.made events.new) (B.looked events.new) (B.floor events.new) self.new)) }
        ensures shown { OnDone result (IsShownCall by Expire
            (B.shows events.old) (B.shows events.new) self.old self.new) }
        ensures made { OnDone result (AreOwnSteps (B.made events.old) (B.made events.new) self.old self.new) }
        ensures stamp { IfOk result (λ answer. IfSome answer (λ stamp. stamp ≡ self.new.floor)) }
        ensures none { (result ≡ Ok None) ↔ (has_expired (expiry (unstamped_source self.old.past)) by.now ≡ false) }
        ensures rests { result ≡ Ok None → (self.new ≡ self.old) × (events.new ≡ events.old) }
        ensures full { (result ≡ Err SourceFault.Full)
            ↔ ((has_expired (expiry (unstamped_source self.old.past)) by.now ≡ true) × (CAP < length self.old.past + 4)) }
        ensures err { OnErr result ((self.new ≡ self.old) × (events.new ≡ events.old)) }
        ensures time { latest (unstamped_source self.new.past) ≤ by.now }
        ensures settled { IsSettled self.new }
        ensures can { OnDone result (CanGoOnAll (makes Expire (since (unstamped_source self.old.past)))
            (B.can events.old) (B.can events.new)) }
        ensures root { B.root events.new ≡ B.root events.old }
    {
        if !self.source_history.has_expired(by.now) {
            return Ok(None);
        }
        let stamp = self.call(rt, events, by, SourceCall::Expire)?;
        Ok(Some(stamp))
    }

    /// When the event in progress ends by itself, in ms, if it does (`ws->timer_expires`).
    pub fn due(&self) -> Option<u64>
        ensures due { result ≡ expiry (unstamped_source self.now.past) }
        ensures settled { IsSettled self.now }
    {
        self.source_history.expiry()
    }

    /// The statistics at that moment, not before the last entry's (`print_wakeup_source_stats`).
    pub fn stats(&self, now: u64) -> Stats
        requires time { latest (unstamped_source self.now.past) ≤ now }
        requires small { now ≤ 2 ^ 63 }
        ensures { result ≡ stats_at (unstamped_source self.now.past) now }
    {
        self.source_history.stats(now)
    }

    /// The entries, the oldest first.
    pub fn history(&self) -> &[SourceEntry]
        ensures entries { reverse result.now ≡ self.now.past }
        ensures places { length self.now.past ≤ CAP }
    {
        self.source_history.as_slice()
    }

    /// The entries, the oldest first, without the source.
    pub fn into_history(self) -> SourceList
        ensures entries { reverse result ≡ self.entry.past }
        ensures settled { IsSettled self.entry }
        ensures places { length self.entry.past ≤ CAP }
    {
        let WakeSource { source_history } = self;
        source_history.into_list()
    }

    /// Raises what the source last knew, number by number: its next entry's tick is above.
    pub fn raise(&mut self, floor: Stamp)
        ensures raised { self.new ≡ record self.old { floor = later_stamp self.old.floor floor } }
        ensures settled { IsSettled self.new }
    {
        self.source_history.raise(floor);
    }
}
