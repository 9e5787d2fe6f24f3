//! The idler's gate with its journal.

use crate::entry::{IdleEntry, IdleKind, IdleSizes};
use idle_gate::{IdleGate, IdleState};
use sleep_base::Mem;
use sleep_model::EventNow;
use std::alloc::Global;
use std::marker::Model;
use turn_lock::Booked;

/// The idler's gate with its journal, under its lock (`s2idle_state`, `s2idle_lock`). Contracts see the
/// sizes, the gate, and the journal, the newest entry first.
#[derive(Drop)]
pub struct GateLog<const BITS: u32> {
    sizes: IdleSizes,
    gate: IdleGate<BITS>,
    /// The hard number that the latest entry saw.
    seen: u32,
    /// How many wakes each waker made.
    woke: Vec<u32>,
    journal: Vec<IdleEntry>,
}

impl<const BITS: u32> Model for GateLog<BITS> {
    ghost use Rattle.std.specs.Prelude.{◌≤◌, reverse, vec_capacity};
    ghost use Rattle.idle_loop.specs.GateLogs.{GateLogState, IsGateLog, WakesAreCounted, most_of};
    ghost use Rattle.idle_loop.specs.Merging.{SeesInOrder};

    ghost Value = { GateLogState };

    ghost view = { λ b. record { sizes = b.sizes; gate = b.gate; seen = b.seen; journal = reverse b.journal.items } };

    ghost invariant = { λ b. IsGateLog b.sizes b.gate (reverse b.journal.items) × (most_of b.sizes ≤ vec_capacity b.journal) × SeesInOrder b.seen (reverse b.journal.items) × WakesAreCounted b.sizes b.woke.items (reverse b.journal.items) };
}

impl<const BITS: u32> GateLog<BITS> {
    ghost use Rattle.std.specs.Prelude.{◌≡◌, ◌≤◌, ◌<◌, ◌∷◌, true, false, not, nat_lt, reverse, IfOk, if◌then◌else◌};
    ghost use Rattle.idle_gate.specs.declared.state.IdleState.TheVariants as IdleState;
    ghost use Rattle.idle_loop.specs.declared.entry.IdleKind.TheVariants as IdleKind;
    ghost use Rattle.idle_loop.specs.IdleLogs.{wakes_of};
    ghost use Rattle.idle_gate.specs.Gates.{woken, is_waked, left, tried};
    ghost use Rattle.idle_loop.specs.Sizes.{AreSizes};
    ghost use Rattle.idle_loop.specs.GateLogs.{IsGateLog, first_gate_log};
    ghost use Rattle.idle_loop.specs.Merging.{IsJournal, SeeMore};

    /// A gate in the state Idle, with no session and an empty journal. No later call takes memory. `Mem` if
    /// there is none for the journal.
    pub fn new(alloc: Global, sizes: IdleSizes) -> Result<Self, Mem>
        requires bits { (1 ≤ BITS) × (BITS ≤ 24) }
        requires sizes { AreSizes sizes }
        ensures { IfOk result (λ b. b ≡ first_gate_log sizes) }
    {
        let most = 3 * (sizes.wakers * sizes.events) + 2 * sizes.sessions + 1;
        Ok(GateLog {
            sizes,
            gate: IdleGate::new(),
            seen: 0,
            woke: vec![in alloc; 0; sizes.wakers as usize]?,
            journal: Vec::with_capacity(alloc, most as usize)?,
        })
    }

    /// Begins a session, and forgets the hard events so far (`pm_wakeup_clear`).
    pub fn begin(&mut self, now: EventNow)
        requires none { self.old.gate.in_session ≡ false }
        requires order { self.old.seen ≤ now.hard }
        requires few { self.old.gate.begun < self.old.sizes.sessions }
        ensures journal { self.new.journal ≡ record { hard = now.hard; who = self.old.sizes.wakers; what = IdleKind.Begin } ∷ self.old.journal }
        ensures sizes { self.new.sizes ≡ self.old.sizes }
        ensures seen { self.new.seen ≡ now.hard }
    {
        self.gate.begin(now);
        self.seen = now.hard;
        self.journal.push_reserved(IdleEntry {
            hard: now.hard,
            who: self.sizes.wakers,
            what: IdleKind::Begin,
        });
    }

    /// Looks, and enters exactly if no wakeup is pending; else the session ends (`s2idle_enter`).
    pub fn try_enter(&mut self, now: EventNow) -> bool
        requires open { self.old.gate.in_session ≡ true }
        requires state { self.old.gate.state ≡ IdleState.Idle }
        requires order { self.old.seen ≤ now.hard }
        ensures answer { result ≡ not (nat_lt self.old.gate.forgotten now.hard) }
        ensures journal { self.new.journal ≡ record { hard = now.hard; who = self.old.sizes.wakers; what = if result then IdleKind.TryOk else IdleKind.TryBusy } ∷ self.old.journal }
        ensures sizes { self.new.sizes ≡ self.old.sizes }
        ensures seen { self.new.seen ≡ now.hard }
    {
        let entered = self.gate.try_enter(now);
        self.seen = now.hard;
        self.journal.push_reserved(IdleEntry {
            hard: now.hard,
            who: self.sizes.wakers,
            what: if entered {
                IdleKind::TryOk
            } else {
                IdleKind::TryBusy
            },
        });
        entered
    }

    /// A waker calls: an idler that has entered is to come back (`s2idle_wake`).
    pub fn wake(&mut self, now: EventNow, who: u32)
        requires who { who < self.old.sizes.wakers }
        requires order { self.old.seen ≤ now.hard }
        requires few { wakes_of who self.old.journal < self.old.sizes.events }
        ensures journal { self.new.journal ≡ record { hard = now.hard; who = who; what = IdleKind.Wake } ∷ self.old.journal }
        ensures sizes { self.new.sizes ≡ self.old.sizes }
        ensures seen { self.new.seen ≡ now.hard }
    {
        self.gate.wake();
        self.seen = now.hard;
        self.woke[who as usize] += 1;
        self.journal.push_reserved(IdleEntry {
            hard: now.hard,
            who,
            what: IdleKind::Wake,
        });
    }

    /// Comes back from idle, if a waker has called. Whether one has; else nothing changes (`s2idle_enter`,
    /// after its wait).
    pub fn leave(&mut self, now: EventNow) -> bool
        requires order { self.old.seen ≤ now.hard }
        ensures answer { result ≡ is_waked self.old.gate.state }
        ensures journal { self.new.journal ≡ (if result then record { hard = now.hard; who = self.old.sizes.wakers; what = IdleKind.Leave } ∷ self.old.journal else self.old.journal) }
        ensures sizes { self.new.sizes ≡ self.old.sizes }
        ensures seen { self.new.seen ≡ (if result then now.hard else self.old.seen) }
    {
        let waked = self.gate.leave();
        if waked {
            self.seen = now.hard;
            self.journal.push_reserved(IdleEntry {
                hard: now.hard,
                who: self.sizes.wakers,
                what: IdleKind::Leave,
            });
        }
        waked
    }

    /// The journal, the oldest entry first: one of the gate by itself, in which no entry sees fewer hard
    /// events than an earlier one.
    #[tactic(auto, using(crate::proofs::Booking::items_in_order))]
    pub fn into_journal(self) -> Vec<IdleEntry>
        ensures items { reverse result.items ≡ self.entry.journal }
        ensures order { SeeMore 0 self.entry.seen result.items }
        ensures legal { IsJournal self.entry.sizes self.entry.journal }
        ensures kept { IsGateLog self.entry.sizes self.entry.gate self.entry.journal }
    {
        self.journal
    }

    /// How many wakers, events and sessions there are.
    pub fn sizes(&self) -> IdleSizes
        ensures { result ≡ self.now.sizes }
    {
        self.sizes
    }

    /// The hard number that the latest entry saw.
    pub fn seen(&self) -> u32
        ensures { result ≡ self.now.seen }
    {
        self.seen
    }

    /// How many wakes a waker has made (`s2idle_wake`).
    pub fn wakes(&self, who: u32) -> u32
        requires { who < self.now.sizes.wakers }
        ensures { result ≡ wakes_of who self.now.journal }
    {
        self.woke[who as usize]
    }

    /// Whether a session is open.
    pub fn is_open(&self) -> bool
        ensures { result ≡ self.now.gate.in_session }
    {
        self.gate.is_open()
    }

    /// How many sessions were begun.
    pub fn begun(&self) -> u32
        ensures { result ≡ self.now.gate.begun }
    {
        self.gate.begun()
    }

    /// The state of the idler (`s2idle_state`).
    pub fn state(&self) -> IdleState
        ensures { result ≡ self.now.gate.state }
    {
        self.gate.state()
    }
}

impl<const BITS: u32> Booked for GateLog<BITS> {
    ghost use Rattle.std.specs.Prelude.{List, reverse};
    ghost use Rattle.idle_loop.specs.declared.entry.IdleEntry.{IdleEntry};
    ghost use Rattle.idle_loop.specs.declared.entry.IdleSizes.{IdleSizes};

    type Item = IdleEntry;

    ghost Root = { IdleSizes };

    ghost root = { λ b. b.sizes };

    ghost entries = { λ b. reverse b.journal };
}
