//! What is asked of the devices right below or above one.

ghost use Rattle.std.specs.Prelude.{◌≡◌, ◌<◌, ◌==◌, length, slice_index, slice_index_or};
ghost use Rattle.std.specs.List.{find, list_all};
ghost use Rattle.sleep_model.specs.Links.{first_occurrences};
ghost use Rattle.sleep_model.specs.Order.{active_of, dependents};
ghost use Rattle.sleep_model.specs.PhaseStates.{state_at, is_direct_complete};
ghost use Rattle.sleep_model.specs.Walk.{first_where};
ghost use Rattle.async_board.specs.Sides.{beside, is_open};

use crate::phase_state::{is_direct_complete, is_not_down, is_not_up};
use crate::pick::state_at;
use device_links::Links;
use sleep_model::PhaseState;

/// A side of a device: what it waits for on the way down, or on the way up.
#[derive(Clone, Copy)]
pub(crate) enum Side {
    /// What depends on it directly.
    Below,
    /// What it depends on directly.
    Above,
}

/// Whether the count of a device is 0; false if it has none.
pub(crate) fn is_none(counts: &[usize], device: u32) -> bool
    ensures { result ≡ (slice_index_or counts.now device 1 == 0) }
{
    match counts.get(device as usize) {
        Some(count) => *count == 0,
        None => false,
    }
}

/// The count of a device.
pub(crate) fn count_at(counts: &[usize], device: u32) -> usize
    requires { device < length counts.now }
    ensures { result ≡ slice_index counts.now device }
{
    counts[device as usize]
}

/// Whether a device in that state is waited for: one below until it is down, one above until it is up.
#[inline(always)]
#[tactic(auto, unfolding(crate::specs::Sides::is_open))]
fn is_open(side: Side, state: PhaseState) -> bool
    ensures { result ≡ is_open side state }
{
    match side {
        Side::Below => is_not_down(state),
        Side::Above => is_not_up(state),
    }
}

/// The devices right on that side of one, each once.
#[inline(always)]
#[tactic(auto, unfolding(crate::specs::Sides::beside))]
fn row_beside(links: &Links, side: Side, device: u32) -> &[u32]
    ensures { result.now ≡ first_occurrences (beside side links.now.parents links.now.links device) }
{
    match side {
        Side::Below => links.below(device),
        Side::Above => links.above(device),
    }
}

/// The first device of a row that is waited for.
#[inline(always)]
fn find_open(side: Side, states: &[PhaseState], row: &[u32]) -> Option<u32>
    ensures { result ≡ find (λ e. is_open side (state_at states.now e)) row.now }
{
    row.iter()
        .copied()
        .find(|device| is_open(side, state_at(states, *device)))
}

/// Whether all devices of a row were skipped as direct-complete.
fn are_direct_complete(states: &[PhaseState], row: &[u32]) -> bool
    ensures { result ≡ list_all (λ e. is_direct_complete (state_at states.now e)) row.now }
{
    row.iter()
        .all(|device| is_direct_complete(state_at(states, *device)))
}

/// The first device right on that side of one that it waits for.
#[inline(always)]
pub(crate) fn first_open(
    side: Side,
    states: &[PhaseState],
    links: &Links,
    device: u32,
) -> Option<u32>
    ensures { result ≡ first_where (λ e. is_open side (state_at states.now e))
        (beside side links.now.parents links.now.links device) }
{
    let row = row_beside(links, side, device);
    find_open(side, states, row)
}

/// Whether all devices right below one are direct-complete.
pub(crate) fn all_below_direct_complete(states: &[PhaseState], links: &Links, device: u32) -> bool
    ensures { result ≡ list_all (λ e. is_direct_complete (state_at states.now e))
        (dependents links.now.parents (active_of links.now.links) device) }
{
    let row = links.below(device);
    are_direct_complete(states, row)
}
