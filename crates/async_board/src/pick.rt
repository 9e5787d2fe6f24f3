//! What is looked for among the devices, and the search for it in their order.

ghost use Rattle.std.specs.Prelude.{◌≡◌, ◌<◌, length, slice_get};
ghost use Rattle.sleep_model.specs.PhaseStates.{state_at};
ghost use Rattle.sleep_model.specs.Walk.{is_so, first_where, last_where};
ghost use Rattle.async_board.specs.Picks.{picks, is_picked, IsPassed, IsFirst, IsAhead, IsLast};

use crate::phase_state;
use sleep_model::PhaseState;

/// What is looked for.
#[derive(Clone, Copy)]
pub(crate) enum Pick {
    /// Not prepared.
    Unprepared,
    /// Prepared.
    Prepared,
    /// Prepared and not yet taken on the way down.
    Ready,
    /// Scheduled on the way down and not done.
    Going,
    /// Asynchronous, and down.
    ToSchedule,
    /// Synchronous, and down.
    Up,
    /// Not yet up.
    NotUp,
}

/// The devices in order, the state of each, and which are asynchronous.
#[derive(Clone, Copy)]
pub(crate) struct WalkLook<'a> {
    pub(crate) order: &'a [u32],
    pub(crate) states: &'a [PhaseState],
    pub(crate) asynchronous: &'a [bool],
}

/// Whether a device in that state, asynchronous or not, is looked for.
#[inline(always)]
#[tactic(auto, unfolding(crate::specs::Picks::picks))]
pub(crate) fn picks(pick: Pick, state: PhaseState, asynchronous: bool) -> bool
    ensures { result ≡ picks pick state asynchronous }
{
    match pick {
        Pick::Unprepared => phase_state::is_unprepared(state),
        Pick::Prepared => phase_state::is_prepared(state),
        Pick::Ready => phase_state::is_ready(state),
        Pick::Going => phase_state::is_going_down(state),
        Pick::ToSchedule => phase_state::is_down_in(state) && asynchronous,
        Pick::Up => phase_state::is_down_in(state) && !asynchronous,
        Pick::NotUp => phase_state::is_not_up(state),
    }
}

/// The state of a device among others.
pub(crate) fn state_at(states: &[PhaseState], device: u32) -> PhaseState
    ensures { result ≡ state_at states.now device }
{
    match states.get(device as usize) {
        Some(state) => *state,
        None => PhaseState::Unprepared,
    }
}

/// The flag at that number.
pub(crate) fn is_so(flags: &[bool], device: u32) -> bool
    ensures { result ≡ is_so flags.now device }
{
    match flags.get(device as usize) {
        Some(flag) => *flag,
        None => false,
    }
}

/// Whether the device is looked for.
#[inline]
#[tactic(auto, unfolding(crate::specs::Picks::is_picked))]
pub(crate) fn is_picked(look: &WalkLook<'_>, pick: Pick, device: u32) -> bool
    ensures { result ≡ is_picked pick look.now.asynchronous.now look.now.states.now device }
{
    let state = state_at(look.states, device);
    picks(pick, state, is_so(look.asynchronous, device))
}

/// The first index from this one on whose device is looked for, else the number of devices.
pub(crate) fn first_from(look: &WalkLook<'_>, pick: Pick, from: usize) -> usize
    requires { IsPassed (is_picked pick look.now.asynchronous.now look.now.states.now)
        look.now.order.now from }
    ensures { IsFirst (is_picked pick look.now.asynchronous.now look.now.states.now)
        look.now.order.now result }
{
    for at in from..look.order.len() {
        if is_picked(look, pick, look.order[at]) {
            return at;
        }
    }
    look.order.len()
}

/// One more than the last index before this one whose device is looked for, else 0.
pub(crate) fn last_before(look: &WalkLook<'_>, pick: Pick, from: usize) -> usize
    requires { IsAhead (is_picked pick look.now.asynchronous.now look.now.states.now)
        look.now.order.now from }
    ensures { IsLast (is_picked pick look.now.asynchronous.now look.now.states.now)
        look.now.order.now result }
{
    let mut at = from;
    while at > 0 {
        if is_picked(look, pick, look.order[at - 1]) {
            return at;
        }
        at -= 1;
    }
    0
}

/// The device at an index of the order, if there is one.
fn device_at(order: &[u32], at: usize) -> Option<u32>
    ensures { result ≡ slice_get order.now at }
{
    order.get(at).copied()
}

/// The first device that is looked for, if none before this index is.
#[tactic(auto, using(crate::proofs::Picked::first_is))]
pub(crate) fn first_picked(look: &WalkLook<'_>, pick: Pick, from: usize) -> Option<u32>
    requires { IsPassed (is_picked pick look.now.asynchronous.now look.now.states.now)
        look.now.order.now from }
    ensures { result ≡ first_where (is_picked pick look.now.asynchronous.now look.now.states.now)
        look.now.order.now }
{
    let at = first_from(look, pick, from);
    device_at(look.order, at)
}

/// The last device that is looked for, if none from this index on is.
#[tactic(auto, using(crate::proofs::Picked::last_is, crate::proofs::Picked::last_none))]
pub(crate) fn last_picked(look: &WalkLook<'_>, pick: Pick, from: usize) -> Option<u32>
    requires { IsAhead (is_picked pick look.now.asynchronous.now look.now.states.now)
        look.now.order.now from }
    ensures { result ≡ last_where (is_picked pick look.now.asynchronous.now look.now.states.now)
        look.now.order.now }
{
    match last_before(look, pick, from) {
        0 => None,
        at => device_at(look.order, at - 1),
    }
}
