//! A device that moves in a pair of phases.

ghost use Rattle.std.specs.Prelude.{◌≡◌, ◌<◌, length, slice_set};
ghost use Rattle.sleep_model.specs.PhaseStates.{state_at};
ghost use Rattle.sleep_model.specs.declared.progress.PhaseState.TheVariants as state;
ghost use Rattle.async_board.specs.Walks.{IsBelow, IsAbove, IsLayout, IsWalk, failed_after};

use crate::counts::shift;
use crate::cursors::{Moved, move_cursors};
use crate::phase_state::{is_not_down, is_not_up};
use crate::pick::{WalkLook, is_so};
use crate::walk::{Layout, Walk};
use device_links::Links;
use sleep_model::PhaseState;
use sleep_model::PhaseState::{
    Direct, Failed, Prepared, Rescheduled, Resumed, Resuming, Scheduled, Suspended, Suspending,
    Unprepared,
};

/// Notes whether the walk on the way down schedules no more, once a device has moved to there: one has
/// failed since it was prepared.
#[inline(always)]
fn note_failure(failed: &mut bool, after: PhaseState)
    ensures { failed.new ≡ failed_after after failed.old }
{
    match after {
        Failed => *failed = true,
        Prepared => *failed = false,
        _ => (),
    }
}

/// How many devices below each are not done, once this device has moved among those in these states.
#[inline(always)]
#[tactic(auto, using(crate::proofs::Layouts::below_some))]
fn move_below(
    counts: &mut Vec<usize>,
    links: &Links,
    states: &[PhaseState],
    device: u32,
    before: PhaseState,
    after: PhaseState,
)
    requires size { length states.now ≡ length links.now.parents }
    requires within { device < length links.now.parents }
    requires before { before ≡ state_at states.now device }
    requires known { IsBelow links.now.parents links.now.links states.now counts.old.items }
    ensures { IsBelow links.now.parents links.now.links
        (slice_set states.now device after) counts.new.items }
{
    let _order = links.order();
    let was = is_not_down(before);
    let is = is_not_down(after);
    if was != is {
        let above = links.above(device);
        shift(counts, above, was, is);
    }
}

/// How many devices above each are not up, once this device has moved among those in these states.
#[inline(always)]
#[tactic(auto, using(crate::proofs::Layouts::above_some))]
fn move_above(
    counts: &mut Vec<usize>,
    links: &Links,
    states: &[PhaseState],
    device: u32,
    before: PhaseState,
    after: PhaseState,
)
    requires size { length states.now ≡ length links.now.parents }
    requires within { device < length links.now.parents }
    requires before { before ≡ state_at states.now device }
    requires known { IsAbove links.now.parents links.now.links states.now counts.old.items }
    ensures { IsAbove links.now.parents links.now.links
        (slice_set states.now device after) counts.new.items }
{
    let was = is_not_up(before);
    let is = is_not_up(after);
    if was != is {
        let below = links.below(device);
        shift(counts, below, was, is);
    }
}

/// Moves a device that is in that state. If the compiler knows both states, what this move cannot change is
/// left out.
#[inline(always)]
fn move_device(walk: &mut Walk, layout: &Layout, device: u32, before: PhaseState, after: PhaseState)
    requires closed_over { IsLayout layout.now }
    requires kept { IsWalk layout.now walk.old }
    requires within { device < length walk.old.states.items }
    requires before { before ≡ state_at walk.old.states.items device }
    ensures states { walk.new.states.items ≡ slice_set walk.old.states.items device after }
    ensures kept { IsWalk layout.now walk.new }
{
    let number = device as usize;
    let links = &layout.links;
    let order = links.order();
    let moved = Moved {
        place: layout.indices[number],
        before,
        after,
        asynchronous: is_so(&layout.asynchronous, device),
    };
    move_below(
        &mut walk.open_below,
        links,
        &walk.states,
        device,
        before,
        after,
    );
    move_above(
        &mut walk.open_above,
        links,
        &walk.states,
        device,
        before,
        after,
    );
    note_failure(&mut walk.failed, after);
    walk.states[number] = after;
    let look = WalkLook {
        order,
        states: walk.states.as_slice(),
        asynchronous: layout.asynchronous.as_slice(),
    };
    move_cursors(&mut walk.cursors, &look, moved, walk.failed);
}

/// Moves a device that is in that state by a move that is rare: no code is made for only these two states.
#[inline(never)]
fn move_otherwise(
    walk: &mut Walk,
    layout: &Layout,
    device: u32,
    before: PhaseState,
    after: PhaseState,
)
    requires closed_over { IsLayout layout.now }
    requires kept { IsWalk layout.now walk.old }
    requires within { device < length walk.old.states.items }
    requires before { before ≡ state_at walk.old.states.items device }
    ensures states { walk.new.states.items ≡ slice_set walk.old.states.items device after }
    ensures kept { IsWalk layout.now walk.new }
{
    move_device(walk, layout, device, before, after);
}

/// Moves a device, with code of its own for a move from the usual state.
#[inline(always)]
fn move_from(walk: &mut Walk, layout: &Layout, device: u32, usual: PhaseState, after: PhaseState)
    requires closed_over { IsLayout layout.now }
    requires kept { IsWalk layout.now walk.old }
    requires within { device < length walk.old.states.items }
    ensures states { walk.new.states.items ≡ slice_set walk.old.states.items device after }
    ensures kept { IsWalk layout.now walk.new }
{
    let before = walk.states[device as usize];
    if before == usual {
        move_device(walk, layout, device, usual, after);
    } else {
        move_otherwise(walk, layout, device, before, after);
    }
}

/// Moves a device, with code of its own for a move from either of the usual states.
#[inline(always)]
fn move_from_either(
    walk: &mut Walk,
    layout: &Layout,
    device: u32,
    usual: PhaseState,
    other: PhaseState,
    after: PhaseState,
)
    requires closed_over { IsLayout layout.now }
    requires kept { IsWalk layout.now walk.old }
    requires within { device < length walk.old.states.items }
    ensures states { walk.new.states.items ≡ slice_set walk.old.states.items device after }
    ensures kept { IsWalk layout.now walk.new }
{
    if walk.states[device as usize] == other {
        move_device(walk, layout, device, other, after);
    } else {
        move_from(walk, layout, device, usual, after);
    }
}

/// A device is completed, which is up.
#[inline(never)]
fn to_unprepared(walk: &mut Walk, layout: &Layout, device: u32)
    requires closed_over { IsLayout layout.now }
    requires kept { IsWalk layout.now walk.old }
    requires within { device < length walk.old.states.items }
    ensures states { walk.new.states.items ≡ slice_set walk.old.states.items device state.Unprepared }
    ensures kept { IsWalk layout.now walk.new }
{
    move_from(walk, layout, device, Resumed, Unprepared);
}

/// A device is prepared.
#[inline(never)]
fn to_prepared(walk: &mut Walk, layout: &Layout, device: u32)
    requires closed_over { IsLayout layout.now }
    requires kept { IsWalk layout.now walk.old }
    requires within { device < length walk.old.states.items }
    ensures states { walk.new.states.items ≡ slice_set walk.old.states.items device state.Prepared }
    ensures kept { IsWalk layout.now walk.new }
{
    move_from(walk, layout, device, Unprepared, Prepared);
}

/// A device that was not taken is scheduled on the way down.
#[inline(never)]
fn to_scheduled(walk: &mut Walk, layout: &Layout, device: u32)
    requires closed_over { IsLayout layout.now }
    requires kept { IsWalk layout.now walk.old }
    requires within { device < length walk.old.states.items }
    ensures states { walk.new.states.items ≡ slice_set walk.old.states.items device state.Scheduled }
    ensures kept { IsWalk layout.now walk.new }
{
    move_from(walk, layout, device, Prepared, Scheduled);
}

/// A device begins on the way down: an asynchronous one was scheduled, a synchronous one not.
#[inline(never)]
fn to_suspending(walk: &mut Walk, layout: &Layout, device: u32)
    requires closed_over { IsLayout layout.now }
    requires kept { IsWalk layout.now walk.old }
    requires within { device < length walk.old.states.items }
    ensures states { walk.new.states.items ≡ slice_set walk.old.states.items device state.Suspending }
    ensures kept { IsWalk layout.now walk.new }
{
    move_from_either(walk, layout, device, Scheduled, Prepared, Suspending);
}

/// A device is done on the way down.
#[inline(never)]
fn to_suspended(walk: &mut Walk, layout: &Layout, device: u32)
    requires closed_over { IsLayout layout.now }
    requires kept { IsWalk layout.now walk.old }
    requires within { device < length walk.old.states.items }
    ensures states { walk.new.states.items ≡ slice_set walk.old.states.items device state.Suspended }
    ensures kept { IsWalk layout.now walk.new }
{
    move_from(walk, layout, device, Suspending, Suspended);
}

/// A device that is down is scheduled on the way up.
#[inline(never)]
fn to_rescheduled(walk: &mut Walk, layout: &Layout, device: u32)
    requires closed_over { IsLayout layout.now }
    requires kept { IsWalk layout.now walk.old }
    requires within { device < length walk.old.states.items }
    ensures states { walk.new.states.items ≡ slice_set walk.old.states.items device state.Rescheduled }
    ensures kept { IsWalk layout.now walk.new }
{
    move_from(walk, layout, device, Suspended, Rescheduled);
}

/// A device begins on the way up: an asynchronous one was scheduled, a synchronous one not.
#[inline(never)]
fn to_resuming(walk: &mut Walk, layout: &Layout, device: u32)
    requires closed_over { IsLayout layout.now }
    requires kept { IsWalk layout.now walk.old }
    requires within { device < length walk.old.states.items }
    ensures states { walk.new.states.items ≡ slice_set walk.old.states.items device state.Resuming }
    ensures kept { IsWalk layout.now walk.new }
{
    move_from_either(walk, layout, device, Rescheduled, Suspended, Resuming);
}

/// A device is up.
#[inline(never)]
fn to_resumed(walk: &mut Walk, layout: &Layout, device: u32)
    requires closed_over { IsLayout layout.now }
    requires kept { IsWalk layout.now walk.old }
    requires within { device < length walk.old.states.items }
    ensures states { walk.new.states.items ≡ slice_set walk.old.states.items device state.Resumed }
    ensures kept { IsWalk layout.now walk.new }
{
    move_from(walk, layout, device, Resuming, Resumed);
}

/// Moves a device from its state to its next one; nothing if there is no such device. Each state that devices
/// come to in an undisturbed attempt has a function of its own, which knows the usual state before it: so a
/// move pays only for what it changes.
#[inline(always)]
pub(crate) fn put(walk: &mut Walk, layout: &Layout, device: u32, after: PhaseState)
    requires closed_over { IsLayout layout.now }
    requires kept { IsWalk layout.now walk.old }
    ensures states { walk.new.states.items ≡ slice_set walk.old.states.items device after }
    ensures kept { IsWalk layout.now walk.new }
{
    if (device as usize) < walk.states.len() {
        match after {
            Unprepared => to_unprepared(walk, layout, device),
            Prepared => to_prepared(walk, layout, device),
            Scheduled => to_scheduled(walk, layout, device),
            Suspending => to_suspending(walk, layout, device),
            Suspended => to_suspended(walk, layout, device),
            Rescheduled => to_rescheduled(walk, layout, device),
            Resuming => to_resuming(walk, layout, device),
            Resumed => to_resumed(walk, layout, device),
            Failed | Direct => {
                let before = walk.states[device as usize];
                move_otherwise(walk, layout, device, before, after);
            }
        }
    }
}
