//! The cursors at which searches among the devices begin, moved with each device that changes its state.

ghost use Rattle.async_board.specs.Picks.{picks, is_picked, IsPassed, IsAhead};
ghost use Rattle.async_board.specs.declared.pick.Pick.TheVariants as pick;
ghost use Rattle.async_board.specs.Cursors.{IsPassedBut, IsAheadBut, IsMoved, AreCursors, AreCursorsBut};

use crate::pick::{Pick, WalkLook, first_from, last_before, picks};
use sleep_model::PhaseState;

/// An index in the order for each search: no device before it is looked for or, if the last one is looked
/// for, none from it on.
#[derive(Clone, Copy)]
pub(crate) struct Cursors {
    pub(crate) unprepared: usize,
    pub(crate) going: usize,
    pub(crate) to_schedule: usize,
    pub(crate) up: usize,
    pub(crate) not_up: usize,
    pub(crate) ready: usize,
    pub(crate) prepared: usize,
}

/// The device that has moved: its index in the order, its state before and its present one, and whether it is
/// asynchronous.
#[derive(Clone, Copy)]
pub(crate) struct Moved {
    pub(crate) place: usize,
    pub(crate) before: PhaseState,
    pub(crate) after: PhaseState,
    pub(crate) asynchronous: bool,
}

/// Moves the cursor of a first device, after a device has moved. Most moves leave it as it is: the device is
/// looked for as little, or as much, as before.
#[inline(always)]
#[tactic(auto, using(crate::proofs::Moved::passed_now, crate::proofs::Moved::passed_still, crate::proofs::Moved::moved_here))]
fn move_first(at: &mut usize, look: &WalkLook<'_>, what: Pick, moved: Moved)
    requires here { IsMoved look.now.asynchronous.now look.now.states.now look.now.order.now moved }
    requires but { IsPassedBut moved.place (picks what moved.before moved.asynchronous)
        (is_picked what look.now.asynchronous.now look.now.states.now) look.now.order.now at.old }
    ensures { IsPassed (is_picked what look.now.asynchronous.now look.now.states.now)
        look.now.order.now at.new }
{
    let was = picks(what, moved.before, moved.asynchronous);
    let is = picks(what, moved.after, moved.asynchronous);
    if was == is {
        return;
    }
    if is {
        *at = (*at).min(moved.place);
    } else if moved.place == *at {
        *at = first_from(look, what, moved.place + 1);
    }
}

/// Moves the cursor of the devices that are scheduled and not done, after a device has moved. While the walk
/// schedules, towards the order's head, it follows the walk; it moves on once the walk is over, and nobody
/// asks before.
#[inline(always)]
#[tactic(auto, using(crate::proofs::Moved::passed_now, crate::proofs::Moved::passed_still, crate::proofs::Moved::moved_here))]
fn move_going(at: &mut usize, look: &WalkLook<'_>, moved: Moved, is_over: bool)
    requires here { IsMoved look.now.asynchronous.now look.now.states.now look.now.order.now moved }
    requires but { IsPassedBut moved.place (picks pick.Going moved.before moved.asynchronous)
        (is_picked pick.Going look.now.asynchronous.now look.now.states.now) look.now.order.now at.old }
    ensures { IsPassed (is_picked pick.Going look.now.asynchronous.now look.now.states.now)
        look.now.order.now at.new }
{
    let was = picks(Pick::Going, moved.before, moved.asynchronous);
    let is = picks(Pick::Going, moved.after, moved.asynchronous);
    if was == is {
        return;
    }
    if !is_over || is {
        *at = (*at).min(moved.place);
    } else if moved.place == *at {
        *at = first_from(look, Pick::Going, moved.place + 1);
    }
}

/// Moves the cursors of the devices that are down, after a device has moved. Only one of the two looks for
/// it: the first if it is asynchronous, else the second.
#[inline(always)]
fn move_down(to_schedule: &mut usize, up: &mut usize, look: &WalkLook<'_>, moved: Moved)
    requires here { IsMoved look.now.asynchronous.now look.now.states.now look.now.order.now moved }
    requires to_schedule { IsPassedBut moved.place (picks pick.ToSchedule moved.before moved.asynchronous)
        (is_picked pick.ToSchedule look.now.asynchronous.now look.now.states.now) look.now.order.now to_schedule.old }
    requires up { IsPassedBut moved.place (picks pick.Up moved.before moved.asynchronous)
        (is_picked pick.Up look.now.asynchronous.now look.now.states.now) look.now.order.now up.old }
    ensures to_schedule { IsPassed (is_picked pick.ToSchedule look.now.asynchronous.now look.now.states.now)
        look.now.order.now to_schedule.new }
    ensures up { IsPassed (is_picked pick.Up look.now.asynchronous.now look.now.states.now)
        look.now.order.now up.new }
{
    if moved.asynchronous {
        move_first(to_schedule, look, Pick::ToSchedule, moved);
    } else {
        move_first(up, look, Pick::Up, moved);
    }
}

/// Moves the cursor of a last device, after a device has moved. Most moves leave it as it is.
#[inline(always)]
#[tactic(auto, using(crate::proofs::Moved::ahead_now, crate::proofs::Moved::ahead_still, crate::proofs::Moved::moved_here))]
fn move_last(at: &mut usize, look: &WalkLook<'_>, what: Pick, moved: Moved)
    requires here { IsMoved look.now.asynchronous.now look.now.states.now look.now.order.now moved }
    requires but { IsAheadBut moved.place (picks what moved.before moved.asynchronous)
        (is_picked what look.now.asynchronous.now look.now.states.now) look.now.order.now at.old }
    ensures { IsAhead (is_picked what look.now.asynchronous.now look.now.states.now)
        look.now.order.now at.new }
{
    let was = picks(what, moved.before, moved.asynchronous);
    let is = picks(what, moved.after, moved.asynchronous);
    if was == is {
        return;
    }
    if is {
        *at = (*at).max(moved.place + 1);
    } else if moved.place + 1 == *at {
        *at = last_before(look, what, moved.place);
    }
}

/// Moves the cursors after a device has moved. `failed`: a device has failed on the way down, so that
/// the walk schedules no more.
#[inline(always)]
pub(crate) fn move_cursors(cursors: &mut Cursors, look: &WalkLook<'_>, moved: Moved, failed: bool)
    requires here { IsMoved look.now.asynchronous.now look.now.states.now look.now.order.now moved }
    requires but { AreCursorsBut moved look.now.asynchronous.now look.now.states.now
        look.now.order.now cursors.old }
    ensures { AreCursors look.now.asynchronous.now look.now.states.now look.now.order.now cursors.new }
{
    move_first(&mut cursors.unprepared, look, Pick::Unprepared, moved);
    move_last(&mut cursors.prepared, look, Pick::Prepared, moved);
    move_last(&mut cursors.ready, look, Pick::Ready, moved);
    let is_over = failed || cursors.ready == 0;
    move_going(&mut cursors.going, look, moved, is_over);
    move_down(&mut cursors.to_schedule, &mut cursors.up, look, moved);
    move_first(&mut cursors.not_up, look, Pick::NotUp, moved);
}
