//! The parts of a call on a source, over the word that it moves.

use crate::call_by::CallBy;
use crate::fault::SourceFault;
use crate::source_history::SourceHistory;
use event_word::{Bump, look_from};
use sleep_base::wait_unless;
use sleep_model::{SourceCall, WordKind};
use std::sync::Wait;

impl SourceHistory {
    ghost use Rattle.std.specs.Prelude.{◌≡◌, ◌≤◌, ◌+◌, ◌-◌, ◌<◌, ◌^◌, ◌↔◌, ◌∷◌, [], true, None, Err, length, OnOk, OnErr, if◌then◌else◌};
    ghost use Rattle.event_word.specs.Steps.{CanMake};
    ghost use Rattle.sleep_model.specs.declared.word.WordKind.TheVariants.{Start, Finish, Hard};
    ghost use Rattle.sleep_model.specs.Sources.{makes, since, starting, most_entries};
    ghost use Rattle.wakeup_source.specs.SourceHistories.{HasRoomFor};
    ghost use Rattle.wakeup_source.specs.Called.{viewed_source, Notes, Steps, CanGoOnAll};
    ghost use Rattle.wakeup_source.specs.SourceStates.{unstamped_source, latest};

    /// Sees that the four entries that a call may make have places and ticks. `Full` if so many entries leave
    /// fewer than four places, `Mem` if there is no memory: nothing has changed then. Ticks that would pass
    /// their range wait for ever.
    #[inline(always)]
    pub(crate) fn make_room<R: Wait>(
        &mut self,
        rt: &R,
        by: CallBy,
        places: usize,
    ) -> Result<(), SourceFault>
        requires few { places ≤ most_entries }
        requires time { latest (unstamped_source self.old.source.past) ≤ by.now }
        requires small { by.now ≤ 2 ^ 63 }
        ensures source { self.new.source ≡ self.old.source }
        ensures ready { OnOk result (HasRoomFor 4 by self.new) }
        ensures full { (result ≡ Err SourceFault.Full) ↔ (places < length self.old.source.past + 4) }
        ensures err { OnErr result (self.new ≡ self.old) }
    {
        if places < self.len() + 4 {
            return Err(SourceFault::Full);
        }
        wait_unless(rt, by.floor.tick.max(self.floor().tick) < u64::MAX - 3);
        self.reserve(4)?;
        Ok(())
    }

    /// Looks at the word and notes the call.
    #[inline(always)]
    pub(crate) fn look<R: Wait, B: Bump>(
        &mut self,
        rt: &R,
        events: &mut B,
        by: CallBy,
        call: SourceCall,
    )
        requires { HasRoomFor 4 by self.old }
        ensures notes { Notes by call
            (viewed_source (B.shows events.old) (B.made events.old) (B.looked events.old) (B.floor events.old) self.old.source)
            (viewed_source (B.shows events.new) (B.made events.new) (B.looked events.new) (B.floor events.new)
            self.new.source) }
        ensures ready { HasRoomFor 3 by self.new }
        ensures floor { self.new.source.floor.pos ≤ B.floor events.new }
        ensures since { since (unstamped_source self.new.source.past) ≡ since (unstamped_source self.old.source.past) }
        ensures can { B.can events.new ≡ B.can events.old }
        ensures root { B.root events.new ≡ B.root events.old }
    {
        let floor = by.floor.pos.max(self.floor().pos);
        let seen = look_from(rt, events, floor);
        self.note(by, call, seen);
    }

    /// The steps of a call that was noted: its kind, and whether an event is in progress, say which.
    #[inline(always)]
    pub(crate) fn make_steps<B: Bump>(&mut self, events: &mut B, by: CallBy, call: SourceCall)
        requires ready { HasRoomFor 3 by self.old }
        requires floor { self.old.source.floor.pos ≤ B.floor events.old }
        requires can { B.can events.old (makes call (since (unstamped_source self.old.source.past))) ≡ true }
        ensures steps { Steps by (makes call (since (unstamped_source self.old.source.past)))
            (viewed_source (B.shows events.old) (B.made events.old) (B.looked events.old) (B.floor events.old) self.old.source)
            (viewed_source (B.shows events.new) (B.made events.new) (B.looked events.new) (B.floor events.new)
            self.new.source) }
        ensures can { CanGoOnAll (makes call (since (unstamped_source self.old.source.past))) (B.can events.old) (B.can events.new) }
        ensures root { B.root events.new ≡ B.root events.old }
    {
        match call {
            SourceCall::Awake => self.start_unless_active(events, by),
            SourceCall::Relax | SourceCall::Expire => {
                let active = self.is_active();
                self.finish_if(events, by, active);
            }
            SourceCall::Event { ms, hard } => {
                self.start_unless_active(events, by);
                self.hard_if(events, by, hard);
                self.finish_if(events, by, ms == 0);
            }
        }
    }

    /// The event begins, unless one is in progress (`wakeup_source_report_event`).
    #[inline(always)]
    pub(crate) fn start_unless_active<B: Bump>(&mut self, events: &mut B, by: CallBy)
        requires ready { HasRoomFor 3 by self.old }
        requires floor { self.old.source.floor.pos ≤ B.floor events.old }
        requires can { since (unstamped_source self.old.source.past) ≡ None → CanMake (B.can events.old) Start }
        ensures steps { Steps by (starting (since (unstamped_source self.old.source.past)))
            (viewed_source (B.shows events.old) (B.made events.old) (B.looked events.old) (B.floor events.old) self.old.source)
            (viewed_source (B.shows events.new) (B.made events.new) (B.looked events.new) (B.floor events.new)
            self.new.source) }
        ensures ready { HasRoomFor 2 by self.new }
        ensures floor { self.new.source.floor.pos ≤ B.floor events.new }
        ensures can { CanGoOnAll (starting (since (unstamped_source self.old.source.past))) (B.can events.old) (B.can events.new) }
        ensures root { B.root events.new ≡ B.root events.old }
    {
        if self.is_active() {
            return;
        }
        let before = events.start();
        self.step(by, WordKind::Start, before);
    }

    /// A hard event is counted, if it is one (`pm_system_wakeup`).
    #[inline(always)]
    pub(crate) fn hard_if<B: Bump>(&mut self, events: &mut B, by: CallBy, hard: bool)
        requires ready { HasRoomFor 2 by self.old }
        requires floor { self.old.source.floor.pos ≤ B.floor events.old }
        requires can { hard ≡ true → CanMake (B.can events.old) Hard }
        ensures steps { Steps by (if hard then Hard ∷ [] else [])
            (viewed_source (B.shows events.old) (B.made events.old) (B.looked events.old) (B.floor events.old) self.old.source)
            (viewed_source (B.shows events.new) (B.made events.new) (B.looked events.new) (B.floor events.new)
            self.new.source) }
        ensures ready { HasRoomFor 1 by self.new }
        ensures floor { self.new.source.floor.pos ≤ B.floor events.new }
        ensures can { CanGoOnAll (if hard then Hard ∷ [] else []) (B.can events.old) (B.can events.new) }
        ensures root { B.root events.new ≡ B.root events.old }
    {
        if !hard {
            return;
        }
        let before = events.hard();
        self.step(by, WordKind::Hard, before);
    }

    /// The event in progress is registered, if it ends (`wakeup_source_deactivate`).
    #[inline(always)]
    pub(crate) fn finish_if<B: Bump>(&mut self, events: &mut B, by: CallBy, ends: bool)
        requires ready { HasRoomFor 1 by self.old }
        requires floor { self.old.source.floor.pos ≤ B.floor events.old }
        requires can { ends ≡ true → CanMake (B.can events.old) Finish }
        ensures steps { Steps by (if ends then Finish ∷ [] else [])
            (viewed_source (B.shows events.old) (B.made events.old) (B.looked events.old) (B.floor events.old) self.old.source)
            (viewed_source (B.shows events.new) (B.made events.new) (B.looked events.new) (B.floor events.new)
            self.new.source) }
        ensures floor { self.new.source.floor.pos ≤ B.floor events.new }
        ensures can { CanGoOnAll (if ends then Finish ∷ [] else []) (B.can events.old) (B.can events.new) }
        ensures root { B.root events.new ≡ B.root events.old }
    {
        if !ends {
            return;
        }
        let before = events.finish();
        self.step(by, WordKind::Finish, before);
    }
}
