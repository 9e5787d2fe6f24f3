//! The board: the state of each device in the three pairs of phases, and what is asked of it.

ghost use Rattle.std.specs.Prelude.{◌≡◌, Some};
ghost use Rattle.sleep_model.specs.PhaseStates.{state_at, phase_states_after, device_of};
ghost use Rattle.sleep_model.specs.Walk.{is_so};
ghost use Rattle.async_board.specs.Cursors.{AreCursors};
ghost use Rattle.async_board.specs.Sides.{IsOpenCount, open_counts, waits_on};
ghost use Rattle.async_board.specs.declared.rows.Side.{Side};

use crate::moves::put;
use crate::phase_state::{ended_by, is_at_work, skipped_for, work_in};
use crate::pick::{Pick, WalkLook, first_picked, is_so, last_picked, state_at};
use crate::rows::{Side, all_below_direct_complete, count_at, first_open, is_none};
use crate::walk::{Layout, Pairs, Walk, indices_of, refill_indices};
use device_links::Links;
use sleep_base::{Mem, drop_for_mem};
use sleep_model::{AsyncWork, Kind, Phase, PhaseState};
use std::alloc::Global;
use std::marker::Model;

/// The state of each device of a machine in the three pairs of phases (`drivers/base/power/main.c`,
/// `include/linux/pm.h`, `struct dev_pm_info`). Contracts see the parents and the links, which devices are
/// asynchronous, and a list of states for each pair.
///
/// A phase that is asked about is the one on the way down: `Suspend`, `Late` or `Noirq`; its mirror shares
/// its states.
#[derive(Drop)]
pub struct Board {
    layout: Layout,
    pairs: Pairs,
}

impl Model for Board {
    ghost use Rattle.async_board.specs.Boards.{BoardState};

    ghost Value = { BoardState };

    ghost use Rattle.async_board.specs.BoardFields.{board_view, BoardInvariant};

    ghost view = { board_view };

    ghost invariant = { BoardInvariant };
}

impl Board {
    ghost use Rattle.std.specs.Prelude.{◌≡◌, ◌<◌, IfOk, OnOk, OnErr, None, is_none, length};
    ghost use Rattle.sleep_model.specs.Order.{links_added, links_set};
    ghost use Rattle.async_board.specs.Boards.{first_board, board_after, put_in_all, put_in, skip_in, states_on, order_on, next_prepared_on, next_completed_on, next_down_on, waits_down_on, next_to_schedule_on, next_up_on, waits_up_on, waits_for_subordinates_on, waits_above_on, all_below_direct_complete_on, work_on};

    /// A board over these links, on which no device is prepared; `asynchronous` says for each device
    /// whether it is asynchronous. `Mem` if there is no memory for it.
    pub fn wired(alloc: Global, links: Links, asynchronous: Vec<bool>) -> Result<Board, Mem>
        ensures { IfOk result (λ b. b ≡ first_board links.parents links.links asynchronous.items) }
    {
        let Ok(indices) = indices_of(alloc, links.order()) else {
            return Err(drop_for_mem((links, asynchronous)));
        };
        let layout = Layout {
            links,
            indices,
            asynchronous,
        };
        let Ok(pairs) = Pairs::new(alloc, &layout) else {
            return Err(drop_for_mem(layout));
        };
        Ok(Board { layout, pairs })
    }

    /// Puts a device there in each pair of phases.
    fn put_in_all(&mut self, device: u32, after: PhaseState)
        ensures { self.new ≡ put_in_all device after self.old }
    {
        put(&mut self.pairs.suspend, &self.layout, device, after);
        put(&mut self.pairs.late, &self.layout, device, after);
        put(&mut self.pairs.noirq, &self.layout, device, after);
    }

    /// Puts a device there, in the pair of phases that this one is of: on the way down or on the way up.
    #[inline(always)]
    #[tactic(auto, using(crate::proofs::Stood::states_stay))]
    fn put_in(&mut self, q: Phase, device: u32, down: PhaseState, up: PhaseState)
        ensures { self.new ≡ put_in q device down up self.old }
    {
        match q {
            Phase::Suspend => put(&mut self.pairs.suspend, &self.layout, device, down),
            Phase::Late => put(&mut self.pairs.late, &self.layout, device, down),
            Phase::Noirq => put(&mut self.pairs.noirq, &self.layout, device, down),
            Phase::ResumeNoirq => put(&mut self.pairs.noirq, &self.layout, device, up),
            Phase::Early => put(&mut self.pairs.late, &self.layout, device, up),
            Phase::Resume => put(&mut self.pairs.suspend, &self.layout, device, up),
            _ => (),
        }
    }

    /// Puts a device there that a phase on the way down skips.
    #[tactic(auto, using(crate::proofs::Stood::states_stay))]
    fn skip_in(&mut self, q: Phase, device: u32, down: PhaseState)
        ensures { self.new ≡ skip_in q device down self.old }
    {
        match q {
            Phase::Suspend => put(&mut self.pairs.suspend, &self.layout, device, down),
            Phase::Late => put(&mut self.pairs.late, &self.layout, device, down),
            Phase::Noirq => put(&mut self.pairs.noirq, &self.layout, device, down),
            _ => (),
        }
    }

    /// Takes down what an entry does to its device.
    #[inline(always)]
    #[tactic(auto, using(crate::proofs::Stood::states_stay))]
    pub fn note(&mut self, kind: Kind)
        ensures { self.new ≡ board_after kind self.old }
    {
        match kind {
            Kind::Prepare { device, r } => {
                if r >= 0 {
                    self.put_in_all(device, PhaseState::Prepared);
                }
            }
            Kind::Complete(device) => self.put_in_all(device, PhaseState::Unprepared),
            Kind::Schedule(q, device) => {
                self.put_in(q, device, PhaseState::Scheduled, PhaseState::Rescheduled)
            }
            Kind::Begin(q, device) => self.put_in(
                q,
                device,
                PhaseState::Suspending,
                PhaseState::Resuming,
            ),
            Kind::End(q, device, r) => self.put_in(q, device, ended_by(r), PhaseState::Resumed),
            Kind::Skip(q, device, cause) => self.skip_in(q, device, skipped_for(cause)),
            _ => (),
        }
    }

    /// The links.
    pub fn links(&self) -> &Links
        ensures { result.now ≡ record { parents = self.now.parents; links = self.now.links } }
    {
        &self.layout.links
    }

    /// Adds a link that is active, after which no device is prepared (`device_link_add`). `Mem` if there is
    /// no memory for it, or if the link cannot be added; nothing has changed then.
    pub fn add_link(&mut self, supplier: u32, consumer: u32) -> Result<(), Mem>
        ensures ok { OnOk result (self.new ≡ first_board self.old.parents
            (links_added supplier consumer None self.old.links) self.old.asynchronous) }
        ensures err { OnErr result (self.new ≡ self.old) }
    {
        let _devices = self.layout.links.order().len();
        match self.layout.links.add_noting_order(supplier, consumer, true) {
            Ok(stays) => {
                let layout = &mut self.layout;
                refill_indices(&mut layout.indices, layout.links.order(), stays);
                self.pairs.restart(layout, supplier);
                Ok(())
            }
            Err(_) => Err(Mem),
        }
    }

    /// Sets the state of a link, after which no device is prepared (`struct device_link`, `status`).
    /// `Mem` if there is no such link; nothing has changed then.
    pub fn set_link(&mut self, supplier: u32, consumer: u32, active: bool) -> Result<(), Mem>
        ensures ok { OnOk result (self.new ≡ first_board self.old.parents
            (links_set supplier consumer active None self.old.links) self.old.asynchronous) }
        ensures err { OnErr result (self.new ≡ self.old) }
    {
        let _devices = self.layout.links.order().len();
        match self.layout.links.set_active(supplier, consumer, active) {
            Ok(()) => {
                self.pairs.restart(&self.layout, supplier);
                Ok(())
            }
            Err(_) => Err(Mem),
        }
    }

    /// The walk of a phase on the way down and its mirror.
    fn walk(&self, p: Phase) -> &Walk
        ensures states { result.now.states.items ≡ states_on self.now p }
        ensures size { length result.now.states.items ≡ length self.now.parents }
        ensures cursors { AreCursors self.now.asynchronous result.now.states.items
            (order_on self.now) result.now.cursors }
        ensures counts { (side : Side) → IsOpenCount side self.now.parents self.now.links
            result.now.states.items (open_counts side result.now) }
    {
        match p {
            Phase::Late => &self.pairs.late,
            Phase::Noirq => &self.pairs.noirq,
            _ => &self.pairs.suspend,
        }
    }

    /// The devices in order, with their states in that walk.
    fn look<'a>(&'a self, walk: &'a Walk) -> WalkLook<'a>
        ensures order { result.order.now ≡ order_on self.now }
        ensures states { result.states.now ≡ walk.now.states.items }
        ensures asynchronous { result.asynchronous.now ≡ self.now.asynchronous }
    {
        WalkLook {
            order: self.layout.links.order(),
            states: walk.states.as_slice(),
            asynchronous: self.layout.asynchronous.as_slice(),
        }
    }

    /// The state of a device in a phase and its mirror; unprepared if there is no such device.
    pub fn state(&self, p: Phase, device: u32) -> PhaseState
        ensures { result ≡ state_at (states_on self.now p) device }
    {
        state_at(&self.walk(p).states, device)
    }

    /// The device that is prepared next, the first that is not (`dpm_prepare`).
    #[tactic(auto, unfolding(crate::specs::Picks::picks, crate::specs::Picks::is_picked))]
    pub fn next_prepared(&self) -> Option<u32>
        ensures { result ≡ next_prepared_on self.now }
    {
        let walk = self.walk(Phase::Suspend);
        first_picked(&self.look(walk), Pick::Unprepared, walk.cursors.unprepared)
    }

    /// The device that is completed next, the last that is prepared (`dpm_complete`).
    #[tactic(auto, unfolding(crate::specs::Picks::picks, crate::specs::Picks::is_picked))]
    pub fn next_completed(&self) -> Option<u32>
        ensures { result ≡ next_completed_on self.now }
    {
        let walk = self.walk(Phase::Suspend);
        last_picked(&self.look(walk), Pick::Prepared, walk.cursors.prepared)
    }

    /// The device that a phase's walk down takes next, the last that it has not taken
    /// (`dpm_suspend`).
    #[tactic(auto, unfolding(crate::specs::Picks::picks, crate::specs::Picks::is_picked))]
    pub fn next_down(&self, p: Phase) -> Option<u32>
        ensures { result ≡ next_down_on self.now p }
    {
        let walk = self.walk(p);
        last_picked(&self.look(walk), Pick::Ready, walk.cursors.ready)
    }

    /// The first device that a phase has scheduled on the way down and that is not done with it
    /// (`async_synchronize_full`). It is at hand once the walk schedules no more; before, it takes a search.
    #[tactic(auto, unfolding(crate::specs::Picks::picks, crate::specs::Picks::is_picked))]
    pub fn waits_down(&self, p: Phase) -> Option<u32>
        ensures { result ≡ waits_down_on self.now p }
    {
        let walk = self.walk(p);
        first_picked(&self.look(walk), Pick::Going, walk.cursors.going)
    }

    /// The first asynchronous device that is down and that the way up has not scheduled
    /// (`dpm_async_fn`).
    #[tactic(auto, unfolding(crate::specs::Picks::picks, crate::specs::Picks::is_picked))]
    pub fn next_to_schedule(&self, p: Phase) -> Option<u32>
        ensures { result ≡ next_to_schedule_on self.now p }
    {
        let walk = self.walk(p);
        first_picked(&self.look(walk), Pick::ToSchedule, walk.cursors.to_schedule)
    }

    /// The first synchronous device that is down (`dpm_resume`).
    #[tactic(auto, unfolding(crate::specs::Picks::picks, crate::specs::Picks::is_picked))]
    pub fn next_up(&self, p: Phase) -> Option<u32>
        ensures { result ≡ next_up_on self.now p }
    {
        let walk = self.walk(p);
        first_picked(&self.look(walk), Pick::Up, walk.cursors.up)
    }

    /// The first device that went down in a phase and is not yet up (`async_synchronize_full`).
    #[tactic(auto, unfolding(crate::specs::Picks::picks, crate::specs::Picks::is_picked))]
    pub fn waits_up(&self, p: Phase) -> Option<u32>
        ensures { result ≡ waits_up_on self.now p }
    {
        let walk = self.walk(p);
        first_picked(&self.look(walk), Pick::NotUp, walk.cursors.not_up)
    }

    /// The first device on that side of one that it waits for. None is looked for if there is none by the
    /// count.
    #[inline(always)]
    fn waits(&self, side: Side, p: Phase, device: u32) -> Option<u32>
        ensures { result ≡ waits_on side self.now p device }
    {
        let walk = self.walk(p);
        if is_none(walk.open(side), device) {
            None
        } else {
            first_open(side, &walk.states, &self.layout.links, device)
        }
    }

    /// Whether one waits for no device on that side. It is counted already.
    #[inline(always)]
    #[tactic(auto, using(crate::proofs::Searched::free))]
    fn is_free(&self, side: Side, p: Phase, device: u32) -> bool
        ensures { result ≡ is_none (waits_on side self.now p device) }
    {
        let walk = self.walk(p);
        let counts = walk.open(side);
        if (device as usize) < counts.len() {
            count_at(counts, device) == 0
        } else {
            first_open(side, &walk.states, &self.layout.links, device).is_none()
        }
    }

    /// The first device right below one that is not done with a phase on the way down
    /// (`dpm_wait_for_subordinate`).
    #[tactic(auto, unfolding(crate::specs::Sides::is_open, crate::specs::Sides::beside))]
    pub fn waits_for_subordinates(&self, p: Phase, device: u32) -> Option<u32>
        ensures { result ≡ waits_for_subordinates_on self.now p device }
    {
        self.waits(Side::Below, p, device)
    }

    /// The first device right above one that went down in a phase and is not yet up
    /// (`dpm_wait_for_superior`).
    #[tactic(auto, unfolding(crate::specs::Sides::is_open, crate::specs::Sides::beside))]
    pub fn waits_above(&self, p: Phase, device: u32) -> Option<u32>
        ensures { result ≡ waits_above_on self.now p device }
    {
        self.waits(Side::Above, p, device)
    }

    /// Whether no device right below one is left that is not done with a phase on the way down. It is counted
    /// already.
    #[tactic(auto, unfolding(crate::specs::Sides::is_open, crate::specs::Sides::beside))]
    pub fn is_free_below(&self, p: Phase, device: u32) -> bool
        ensures { result ≡ is_none (waits_for_subordinates_on self.now p device) }
    {
        self.is_free(Side::Below, p, device)
    }

    /// Whether no device right above one is left that went down in a phase and is not yet up. It is
    /// counted already.
    #[tactic(auto, unfolding(crate::specs::Sides::is_open, crate::specs::Sides::beside))]
    pub fn is_free_above(&self, p: Phase, device: u32) -> bool
        ensures { result ≡ is_none (waits_above_on self.now p device) }
    {
        self.is_free(Side::Above, p, device)
    }

    /// Whether all devices right below one are direct-complete (`power.direct_complete`).
    pub fn all_below_direct_complete(&self, device: u32) -> bool
        ensures { result ≡ all_below_direct_complete_on self.now device }
    {
        all_below_direct_complete(&self.pairs.suspend.states, &self.layout.links, device)
    }

    /// Whether a device is asynchronous (`power.async_suspend`); false if there is no such device.
    pub fn is_asynchronous(&self, device: u32) -> bool
        ensures { result ≡ is_so self.now.asynchronous device }
    {
        is_so(&self.layout.asynchronous, device)
    }

    /// The state of an asynchronous device's own work; a synchronous one has none (`async_schedule_dev`).
    pub fn work(&self, device: u32) -> AsyncWork
        ensures { result ≡ work_on self.now device }
    {
        if !self.is_asynchronous(device) {
            return AsyncWork::Idle;
        }
        let suspend = self.state(Phase::Suspend, device);
        if is_at_work(suspend) {
            return work_in(Phase::Suspend, suspend, AsyncWork::Idle);
        }
        let late = self.state(Phase::Late, device);
        if is_at_work(late) {
            return work_in(Phase::Late, late, AsyncWork::Idle);
        }
        let noirq = self.state(Phase::Noirq, device);
        work_in(Phase::Noirq, noirq, AsyncWork::Idle)
    }
}
