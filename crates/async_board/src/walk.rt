//! The states of the devices in a pair of phases.

ghost use Rattle.std.specs.Prelude.{◌≡◌, ◌≢◌, ◌<◌, ℕ, true, IfOk, length, replicate, slice_index_or};
ghost use Rattle.std.specs.Bool.{OnTrue};
ghost use Rattle.sleep_model.specs.Order.{active_of, is_among, dependents};
ghost use Rattle.sleep_model.proofs.Walks.{AllDifferent};
ghost use Rattle.sleep_model.specs.Links.{first_occurrences};
ghost use Rattle.sleep_model.specs.declared.progress.PhaseState.TheVariants as state;
ghost use Rattle.async_board.specs.Walks.{AreIndices, IsLayout, IsWalk, MayRestart};
ghost use Rattle.async_board.specs.Pairs.{AreUnprepared, AreWalks, MayAllRestart};
ghost use Rattle.async_board.specs.Counts.{IsLengths};
ghost use Rattle.async_board.specs.Sides.{open_counts};

use crate::cursors::Cursors;
use crate::rows::Side;
use device_links::Links;
use sleep_base::{Mem, drop_for_mem};
use sleep_model::PhaseState;
use std::alloc::Global;

/// What no attempt changes: the links, the index of each device in their order, and which devices are
/// asynchronous.
#[derive(Drop)]
pub(crate) struct Layout {
    pub(crate) links: Links,
    pub(crate) indices: Vec<usize>,
    pub(crate) asynchronous: Vec<bool>,
}

/// The states of the devices in a pair of phases, the cursors of searches among them, and how many devices
/// each waits for: on the way down those below it that are not done, on the way up those above it that are
/// not up.
#[derive(Drop)]
pub(crate) struct Walk {
    pub(crate) states: Vec<PhaseState>,
    pub(crate) cursors: Cursors,
    pub(crate) failed: bool,
    pub(crate) open_below: Vec<usize>,
    pub(crate) open_above: Vec<usize>,
}

/// Gives each device its index in an order that has each once.
pub(crate) fn fill_indices(indices: &mut [usize], order: &[u32])
    requires size { length indices.old ≡ length order.now }
    requires different { AllDifferent order.now }
    requires covers { (d : ℕ) → d < length order.now → is_among order.now d ≡ true }
    requires within { (d : ℕ) → is_among order.now d ≡ true → d < length order.now }
    ensures { AreIndices order.now indices.new }
{
    for (place, device) in order.iter().enumerate() {
        indices[*device as usize] = place;
    }
}

/// Gives each device its index in an order that has each once, unless it is known to have it.
pub(crate) fn refill_indices(indices: &mut [usize], order: &[u32], are_unchanged: bool)
    requires size { length indices.old ≡ length order.now }
    requires different { AllDifferent order.now }
    requires covers { (d : ℕ) → d < length order.now → is_among order.now d ≡ true }
    requires within { (d : ℕ) → is_among order.now d ≡ true → d < length order.now }
    requires kept { OnTrue are_unchanged (AreIndices order.now indices.old) }
    ensures { AreIndices order.now indices.new }
{
    if !are_unchanged {
        fill_indices(indices, order);
    }
}

/// The index of each device in an order that has each once.
pub(crate) fn indices_of(alloc: Global, order: &[u32]) -> Result<Vec<usize>, Mem>
    requires different { AllDifferent order.now }
    requires covers { (d : ℕ) → d < length order.now → is_among order.now d ≡ true }
    requires within { (d : ℕ) → is_among order.now d ≡ true → d < length order.now }
    ensures { IfOk result (λ v. AreIndices order.now v.items) }
{
    let mut indices = vec![in alloc; 0; order.len()]?;
    fill_indices(&mut indices, order);
    Ok(indices)
}

/// Counts how many devices depend directly on each.
fn count_below(counts: &mut [usize], links: &Links)
    requires size { length counts.old ≡ length links.now.parents }
    ensures { IsLengths (length links.now.parents)
        (λ d. first_occurrences (dependents links.now.parents (active_of links.now.links) d)) counts.new }
{
    let order = links.order();
    for device in order {
        counts[*device as usize] = links.below(*device).len();
    }
}

/// Counts how many devices depend directly on each, anew.
fn recount_below(counts: &mut Vec<usize>, links: &Links)
    requires size { length counts.old.items ≡ length links.now.parents }
    ensures { IsLengths (length links.now.parents)
        (λ d. first_occurrences (dependents links.now.parents (active_of links.now.links) d)) counts.new.items }
{
    count_below(counts, links);
}

/// Counts how many devices depend directly on one, anew, if the others have their counts.
fn recount_at(counts: &mut Vec<usize>, links: &Links, device: u32)
    requires size { length counts.old.items ≡ length links.now.parents }
    requires others { (d : ℕ) → d < length links.now.parents → d ≢ device →
        slice_index_or counts.old.items d 0
        ≡ length (first_occurrences (dependents links.now.parents (active_of links.now.links) d)) }
    ensures { IsLengths (length links.now.parents)
        (λ d. first_occurrences (dependents links.now.parents (active_of links.now.links) d)) counts.new.items }
{
    let number = device as usize;
    if number < counts.len() {
        counts[number] = links.below(device).len();
    }
}

/// How many devices depend directly on each.
fn counts_below(alloc: Global, links: &Links) -> Result<Vec<usize>, Mem>
    ensures { IfOk result (λ v. IsLengths (length links.now.parents)
        (λ d. first_occurrences (dependents links.now.parents (active_of links.now.links) d)) v.items) }
{
    let mut counts = vec![in alloc; 0; links.order().len()]?;
    recount_below(&mut counts, links);
    Ok(counts)
}

/// The cursors of searches among n devices, none of which is prepared. Each cursor is at what it looks for
/// from the outset, so that only a move of such a device can concern it.
fn first_cursors(count: usize) -> Cursors
    ensures { result ≡ record { unprepared = 0; going = count; to_schedule = count; up = count; not_up = count; ready = 0; prepared = 0 } }
{
    Cursors {
        unprepared: 0,
        going: count,
        to_schedule: count,
        up: count,
        not_up: count,
        ready: 0,
        prepared: 0,
    }
}

impl Walk {
    /// No device is prepared. `Mem` if there is no memory for it.
    pub(crate) fn new(alloc: Global, layout: &Layout) -> Result<Walk, Mem>
        requires { IsLayout layout.now }
        ensures states { IfOk result (λ w. w.states.items
            ≡ replicate (length layout.now.links.parents) state.Unprepared) }
        ensures kept { IfOk result (λ w. IsWalk layout.now w) }
    {
        let count = layout.links.order().len();
        Ok(Walk {
            states: vec![in alloc; PhaseState::Unprepared; count]?,
            cursors: first_cursors(count),
            failed: false,
            open_below: counts_below(alloc, &layout.links)?,
            open_above: vec![in alloc; 0; count]?,
        })
    }

    /// Has each device not prepared, and counts what each waits for. If none was prepared, which one cursor
    /// shows, only what depends on the supplier has changed.
    fn settle(&mut self, layout: &Layout, supplier: u32)
        requires { MayRestart layout.now supplier self.old }
        ensures states { self.new.states.items
            ≡ replicate (length layout.now.links.parents) state.Unprepared }
        ensures below { IsLengths (length layout.now.links.parents)
            (λ d. first_occurrences (dependents layout.now.links.parents (active_of layout.now.links.links) d))
            self.new.open_below.items }
        ensures above { self.new.open_above.items ≡ replicate (length layout.now.links.parents) 0 }
    {
        let links = &layout.links;
        if self.cursors.prepared == 0 {
            recount_at(&mut self.open_below, links, supplier);
        } else {
            self.states.fill(PhaseState::Unprepared);
            recount_below(&mut self.open_below, links);
            self.open_above.fill(0);
        }
    }

    /// How many devices each waits for on that side.
    #[inline(always)]
    #[tactic(auto, unfolding(crate::specs::Sides::open_counts))]
    pub(crate) fn open(&self, side: Side) -> &[usize]
        ensures { result.now ≡ open_counts side self.now }
    {
        match side {
            Side::Below => &self.open_below,
            Side::Above => &self.open_above,
        }
    }

    /// Begins anew, no device prepared, over links that have changed only right below this supplier.
    pub(crate) fn restart(&mut self, layout: &Layout, supplier: u32)
        requires { MayRestart layout.now supplier self.old }
        ensures states { self.new.states.items
            ≡ replicate (length layout.now.links.parents) state.Unprepared }
        ensures kept { IsWalk layout.now self.new }
    {
        self.settle(layout, supplier);
        self.cursors = first_cursors(layout.links.order().len());
        self.failed = false;
    }
}

/// The states of the devices in each of the three pairs of phases.
#[derive(Drop)]
pub(crate) struct Pairs {
    pub(crate) suspend: Walk,
    pub(crate) late: Walk,
    pub(crate) noirq: Walk,
}

impl Pairs {
    /// No device is prepared. `Mem` if there is no memory for it.
    pub(crate) fn new(alloc: Global, layout: &Layout) -> Result<Pairs, Mem>
        requires { IsLayout layout.now }
        ensures states { IfOk result (AreUnprepared layout.now) }
        ensures kept { IfOk result (AreWalks layout.now) }
    {
        let suspend = Walk::new(alloc, layout)?;
        let Ok(late) = Walk::new(alloc, layout) else {
            return Err(drop_for_mem(suspend));
        };
        let Ok(noirq) = Walk::new(alloc, layout) else {
            return Err(drop_for_mem((suspend, late)));
        };
        Ok(Pairs {
            suspend,
            late,
            noirq,
        })
    }

    /// Begins anew, no device prepared, over links that have changed only right below this supplier.
    pub(crate) fn restart(&mut self, layout: &Layout, supplier: u32)
        requires { MayAllRestart layout.now supplier self.old }
        ensures states { AreUnprepared layout.now self.new }
        ensures kept { AreWalks layout.now self.new }
    {
        self.suspend.restart(layout, supplier);
        self.late.restart(layout, supplier);
        self.noirq.restart(layout, supplier);
    }
}
