//! The steps of wakers and of the idler.

ghost use Rattle.std.specs.Prelude.{◌≡◌, ◌<◌, true, false};
ghost use Rattle.idle_gate.specs.declared.state.IdleState.TheVariants as state;
ghost use Rattle.idle_loop.specs.Steps.{Gains, HasMadeHard, HasWoken, OwesNoWake, IsOwing};

use crate::gate_log::GateLog;
use crate::looks::look_for;
use crate::roles::Waker;
use event_word::{Bump, Events};
use idle_gate::{IdleState, WakerNow};
use sleep_pool::Turn;
use std::sync::Wait;

impl Waker<'_> {
    /// A hard event, which takes no lock (`pm_system_wakeup`).
    pub(crate) fn make_hard(&mut self)
        requires { OwesNoWake self.old }
        ensures { HasMadeHard self.old self.new }
    {
        let before = self.seat.hard();
        self.ranks.push_reserved(before.hard);
        self.least = u64::from(before.hard) + 1;
        self.now.owes = true;
    }

    /// The wake after its hard event, under the gate's lock (`s2idle_wake`).
    pub(crate) fn make_wake<R: Wait>(
        &mut self,
        rt: &R,
        gate_log: &mut GateLog<24>,
        who: u32,
    ) -> Turn
        requires { IsOwing gate_log.old.sizes who self.old }
        ensures { HasWoken who self.old self.new gate_log.old gate_log.new }
    {
        // The gate counts its wakes as it does.
        if gate_log.wakes(who) != self.now.wakes {
            return Turn::NotYet;
        }
        let least = self.least.max(u64::from(gate_log.seen()));
        let now = look_for(rt, &mut self.seat, least);
        gate_log.wake(now, who);
        self.now = WakerNow {
            wakes: self.now.wakes + 1,
            owes: false,
        };
        Turn::Did
    }
}

/// The idler begins a session.
fn begin<R: Wait, E: Events>(rt: &R, gate_log: &mut GateLog<24>, events: &mut E) -> Turn
    requires none { gate_log.old.gate.in_session ≡ false }
    requires few { gate_log.old.gate.begun < gate_log.old.sizes.sessions }
    ensures gains { Gains gate_log.old.sizes.wakers gate_log.old gate_log.new }
    ensures root { E.root events.new ≡ E.root events.old }
{
    let now = look_for(rt, events, u64::from(gate_log.seen()));
    gate_log.begin(now);
    Turn::Did
}

/// The idler looks, and enters or ends the session (`s2idle_enter`).
fn try_enter<R: Wait, E: Events>(rt: &R, gate_log: &mut GateLog<24>, events: &mut E) -> Turn
    requires open { gate_log.old.gate.in_session ≡ true }
    requires state { gate_log.old.gate.state ≡ state.Idle }
    ensures gains { Gains gate_log.old.sizes.wakers gate_log.old gate_log.new }
    ensures root { E.root events.new ≡ E.root events.old }
{
    let now = look_for(rt, events, u64::from(gate_log.seen()));
    gate_log.try_enter(now);
    Turn::Did
}

/// The idler comes back from idle, if a waker has called (`s2idle_enter`, after its wait).
fn leave<R: Wait, E: Events>(rt: &R, gate_log: &mut GateLog<24>, events: &mut E) -> Turn
    ensures gains { Gains gate_log.old.sizes.wakers gate_log.old gate_log.new }
    ensures root { E.root events.new ≡ E.root events.old }
{
    let now = look_for(rt, events, u64::from(gate_log.seen()));
    if gate_log.leave(now) {
        Turn::Did
    } else {
        Turn::NotYet
    }
}

/// The idler's next step, if it has one, under the gate's lock (`s2idle_loop`).
pub(crate) fn idle_step<R: Wait, E: Events>(
    rt: &R,
    gate_log: &mut GateLog<24>,
    events: &mut E,
) -> Turn
    ensures gains { Gains gate_log.old.sizes.wakers gate_log.old gate_log.new }
    ensures root { E.root events.new ≡ E.root events.old }
{
    match gate_log.state() {
        IdleState::Idle if gate_log.is_open() => try_enter(rt, gate_log, events),
        IdleState::Idle if gate_log.begun() < gate_log.sizes().sessions => begin(
            rt, gate_log, events,
        ),
        IdleState::Idle => Turn::Done,
        IdleState::Enter | IdleState::Wake => leave(rt, gate_log, events),
    }
}
