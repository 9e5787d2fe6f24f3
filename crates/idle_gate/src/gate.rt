//! The gate of the idler: its state, with the guard of the event word.

use crate::state::IdleState;
use sleep_model::EventNow;
use std::marker::Model;
use wakeup_guard::Guard;

/// The state of the idler, with its guard, of whose count user space sees `BITS` bits (`s2idle_state`,
/// `s2idle_lock`).
#[derive(Drop)]
pub struct IdleGate<const BITS: u32> {
    guard: Guard<BITS>,
    state: IdleState,
    in_session: bool,
    begun: u32,
}

impl<const BITS: u32> Model for IdleGate<BITS> {
    ghost use Rattle.std.specs.Prelude.{◌≡◌, None};
    ghost use Rattle.idle_gate.specs.Gates.{Gate};

    ghost Value = { Gate };

    ghost view = { λ g. record { state = g.state; in_session = g.in_session; begun = g.begun; forgotten = g.guard.forgotten } };

    ghost invariant = { λ g. g.guard.force ≡ None };
}

impl<const BITS: u32> IdleGate<BITS> {
    ghost use Rattle.std.specs.Prelude.{◌≡◌, ◌≤◌, ◌<◌, ◌+◌, ◌^◌, true, false, not, nat_lt, if◌then◌else◌};
    ghost use Rattle.idle_gate.specs.declared.state.IdleState.TheVariants as IdleState;
    ghost use Rattle.idle_gate.specs.Gates.{woken, is_entered, is_waked, left, tried};

    /// The state Idle, and no session.
    pub fn new() -> Self
        requires { (1 ≤ BITS) × (BITS ≤ 24) }
        ensures { result ≡ record { state = IdleState.Idle; in_session = false; begun = 0; forgotten = 0 } }
    {
        IdleGate {
            guard: Guard::new(),
            state: IdleState::Idle,
            in_session: false,
            begun: 0,
        }
    }

    /// Begins a session, and forgets the hard events so far (`pm_wakeup_clear`).
    pub fn begin(&mut self, now: EventNow)
        requires none { self.old.in_session ≡ false }
        requires few { self.old.begun + 1 < 2 ^ 32 }
        ensures { self.new ≡ record self.old { in_session = true; begun = self.old.begun + 1; forgotten = now.hard } }
    {
        self.guard.clear_hard(now);
        self.in_session = true;
        self.begun += 1;
    }

    /// Looks, and enters exactly if no wakeup is pending; else the session ends (`s2idle_enter`).
    pub fn try_enter(&mut self, now: EventNow) -> bool
        requires open { self.old.in_session ≡ true }
        requires state { self.old.state ≡ IdleState.Idle }
        ensures answer { result ≡ not (nat_lt self.old.forgotten now.hard) }
        ensures after { self.new ≡ tried result self.old }
    {
        if self.guard.pending(now) {
            self.in_session = false;
            return false;
        }
        self.state = IdleState::Enter;
        true
    }

    /// A waker calls: an idler that has entered is to come back (`s2idle_wake`).
    pub fn wake(&mut self)
        ensures { self.new ≡ record self.old { state = woken self.old.state } }
    {
        if matches!(self.state, IdleState::Enter) {
            self.state = IdleState::Wake;
        }
    }

    /// Comes back from idle, if a waker has called. Whether one has (`s2idle_enter`, after its wait).
    pub fn leave(&mut self) -> bool
        ensures answer { result ≡ is_waked self.old.state }
        ensures after { self.new ≡ record self.old { state = left self.old.state } }
    {
        if matches!(self.state, IdleState::Wake) {
            self.state = IdleState::Idle;
            return true;
        }
        false
    }

    /// The state of the idler (`s2idle_state`).
    pub fn state(&self) -> IdleState
        ensures { result ≡ self.now.state }
    {
        self.state
    }

    /// Whether the idler has entered.
    pub fn is_entered(&self) -> bool
        ensures { result ≡ is_entered self.now.state }
    {
        matches!(self.state, IdleState::Enter)
    }

    /// Whether a session is open.
    pub fn is_open(&self) -> bool
        ensures { result ≡ self.now.in_session }
    {
        self.in_session
    }

    /// How many sessions were begun.
    pub fn begun(&self) -> u32
        ensures { result ≡ self.now.begun }
    {
        self.begun
    }
}
