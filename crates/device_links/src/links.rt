//! Links between devices, with the order and the rows that they give.

ghost use Rattle.std.specs.Prelude.{◌≡◌};
ghost use Rattle.device_links.specs.Moves.{after_move};

use crate::at_once::tables_of;
use crate::depends::comes_to;
use crate::fault::{DevList, LinkFault};
use crate::first::precedes;
use crate::numbers::LinkNumbers;
use crate::room::make_room;
use crate::seen::{Tables, without_links};
use crate::states::{children_within, refill_above, refill_below, set_state};
use crate::tables::{moved_last, registered};
use crate::visits::order_of;
use crate::walk::{Found, walk};
use link_rows::is_left_out;
use sleep_base::{Mem, drop_for_mem};
use sleep_model::Link;
use std::alloc::Global;
use std::marker::Model;

/// The most links that a machine has.
const MOST_LINKS: usize = 4000;

/// The links between a machine's devices (`drivers/base/core.c`, `device_link_add`), with the order
/// that they leave. Contracts see the parents and the links, the newest first.
#[derive(Drop)]
pub struct Links {
    parents: Vec<Option<u32>>,
    links: Vec<Link>,
    tables: Tables,
    // The numbers of each device's links, so that a link's state is set without a look at those of others.
    numbers: LinkNumbers,
    order: Vec<u32>,
}

impl Model for Links {
    ghost use Rattle.std.specs.Prelude.{reverse};
    ghost use Rattle.device_links.specs.Linked.{Linked};
    ghost use Rattle.device_links.specs.Invariant.{IsWhole};

    ghost Value = { Linked };

    ghost view = { λ l. record { parents = l.parents.items; links = reverse l.links.items } };

    ghost invariant = { λ l. IsWhole l.parents.items (reverse l.links.items)
        l.tables.dependents.rows l.tables.below l.tables.suppliers.rows l.tables.above
        l.numbers.by_supplier.rows l.numbers.by_consumer.rows l.order.items };
}

impl Links {
    ghost use Rattle.std.specs.Prelude.{◌≡◌, ◌∷◌, [], ◌<◌, ◌≤◌, ◌^◌, ℕ, true, IfOk, OnOk, OnErr, length, reverse};
    ghost use Rattle.sleep_model.specs.Order.{EachAfterParent, is_among, dependents, order_by};
    ghost use Rattle.sleep_model.specs.Links.{IsOrder, is_dependent, is_linked};
    ghost use Rattle.device_links.specs.Walks.{Finds, IsWalked};
    ghost use Rattle.device_links.specs.Adds.{Adds, IsOpen, Lacks, Refuses, Sets, outcome, with_link, with_set};
    ghost use Rattle.device_links.specs.Invariant.{active_below, active_above};
    ghost use Rattle.device_links.specs.Moves.{LeavesOrder, Moves, after_move};
    ghost use Rattle.device_links.specs.Passes.{AreTables, CanBeAdded, Makes};
    ghost use Rattle.std.specs.Bool.{OnTrue};

    /// Devices with these parents, in the order of their registration, and no links. `Mem` if
    /// there is no memory for them, or more of them than device numbers.
    pub fn new(alloc: Global, parents: &[Option<u32>]) -> Result<Links, Mem>
        requires { EachAfterParent 0 parents.now }
        ensures { IfOk result (λ l. l ≡ record { parents = parents.now; links = [] }) }
    {
        if parents.len() > u32::MAX as usize {
            return Err(Mem);
        }
        let order = registered(alloc, parents.len() as u32)?;
        let tables = without_links(alloc, parents)?;
        Links::of_tables(alloc, parents, &[], tables, order)
    }

    /// Devices with these parents and links, as after an `add` of each link in turn, but in the time
    /// of one walk over all of them. None exactly if one of these `add`s would refuse its link;
    /// to learn which and why, add them in turn. `Mem` if there is no memory, or there are more
    /// devices than device numbers.
    pub fn with_links(
        alloc: Global,
        parents: &[Option<u32>],
        links: &[Link],
    ) -> Result<Option<Links>, Mem>
        requires { EachAfterParent 0 parents.now }
        ensures { IfOk result (Makes parents.now links.now) }
    {
        if parents.len() > u32::MAX as usize {
            return Err(Mem);
        }
        if links.len() > MOST_LINKS {
            return Ok(None);
        }
        let Some(tables) = tables_of(alloc, parents, links)? else {
            return Ok(None);
        };
        let Ok(order) = order_of(alloc, parents, &tables.dependents, links) else {
            return Err(drop_for_mem(tables));
        };
        let Some(order) = order else {
            drop(tables);
            return Ok(None);
        };
        Ok(Some(Links::of_tables(alloc, parents, links, tables, order)?))
    }

    /// The links of these tables, which leave that order.
    fn of_tables(
        alloc: Global,
        parents: &[Option<u32>],
        links: &[Link],
        tables: Tables,
        order: Vec<u32>,
    ) -> Result<Links, Mem>
        requires numbered { length parents.now < 2 ^ 32 }
        requires after { EachAfterParent 0 parents.now }
        requires added { CanBeAdded parents.now links.now }
        requires tables { AreTables parents.now (reverse links.now) tables }
        requires order { order.items ≡ order_by parents.now (reverse links.now) }
        ensures { IfOk result (λ l. l ≡ record { parents = parents.now; links = reverse links.now }) }
    {
        let Ok(numbers) = LinkNumbers::of_links(alloc, parents, links) else {
            return Err(drop_for_mem((tables, order)));
        };
        let Ok(parents) = Vec::from_slice(alloc, parents) else {
            return Err(drop_for_mem((tables, order, numbers)));
        };
        let Ok(links) = Vec::from_slice(alloc, links) else {
            return Err(drop_for_mem((tables, order, numbers, parents)));
        };
        Ok(Links {
            parents,
            links,
            tables,
            numbers,
            order,
        })
    }

    /// Adds a link that is active, and moves the consumer and all that depends on it to the end of
    /// the order: `add_as` with true.
    pub fn add(&mut self, supplier: u32, consumer: u32) -> Result<(), LinkFault>
        ensures answer { Adds self.old supplier consumer result }
        ensures ok { OnOk result (self.new ≡ with_link self.old
            (record { supplier = supplier; consumer = consumer; active = true })) }
        ensures err { OnErr result (self.new ≡ self.old) }
    {
        self.add_as(supplier, consumer, true)
    }

    /// Adds a link, active or dormant, and moves the consumer and all that depends on it to the end of the
    /// order. A dormant link is neither seen below nor above.
    ///
    /// Tested in turn, each refusal exactly if its test fails: both are registered (`NoDevice`), there are
    /// fewer than 4,000 links (`TooMany`), these two have none yet (`Twice`), and the consumer would not come
    /// to depend on itself (`Cycle`, with a path from it to the supplier). Out of memory (`Mem`) may come in
    /// place of `Cycle`. A refused link changes nothing.
    pub fn add_as(&mut self, supplier: u32, consumer: u32, active: bool) -> Result<(), LinkFault>
        ensures answer { Adds self.old supplier consumer result }
        ensures ok { OnOk result (self.new ≡ with_link self.old
            (record { supplier = supplier; consumer = consumer; active = active })) }
        ensures err { OnErr result (self.new ≡ self.old) }
    {
        self.add_noting_order(supplier, consumer, active)?;
        Ok(())
    }

    /// Adds a link as `add_as` does, and says whether the order stays as it is, as far as that is seen
    /// without a walk.
    pub fn add_noting_order(
        &mut self,
        supplier: u32,
        consumer: u32,
        active: bool,
    ) -> Result<bool, LinkFault>
        ensures answer { Adds self.old supplier consumer (outcome result) }
        ensures ok { OnOk result (self.new ≡ with_link self.old
            (record { supplier = supplier; consumer = consumer; active = active })) }
        ensures err { OnErr result (self.new ≡ self.old) }
        ensures order { IfOk result (λ stays. OnTrue stays (order_by self.new.parents self.new.links
            ≡ order_by self.old.parents self.old.links)) }
    {
        if let Some(fault) = self.refusal(supplier, consumer) {
            return Err(fault);
        }
        let link = Link {
            supplier,
            consumer,
            active,
        };
        let moved = self.moved_by(link)?;
        let stays = moved.is_none();
        self.put(link, moved)?;
        Ok(stays)
    }

    /// Makes a link active or dormant (`struct device_link`, `status`). The order stays, and it takes
    /// no memory.
    ///
    /// Tested in turn, each refusal exactly if its test fails: that both are registered
    /// (`NoDevice`), and that they have a link (`NoLink`).
    pub fn set_active(&mut self, supplier: u32, consumer: u32, to: bool) -> Result<(), LinkFault>
        ensures answer { Sets self.old supplier consumer result }
        ensures ok { OnOk result (self.new ≡ with_set self.old supplier consumer to) }
        ensures err { OnErr result (self.new ≡ self.old) }
    {
        if let Some(fault) = self.absence(supplier, consumer) {
            return Err(fault);
        }
        let consumed = self.numbers.by_consumer.row(consumer);
        if !set_state(&mut self.links, consumed, supplier, consumer, to) {
            return Ok(());
        }
        let supplied = self.numbers.by_supplier.row(supplier);
        let children = children_within(self.tables.dependents.row(supplier), supplied);
        refill_below(
            &mut self.tables.below,
            &self.parents,
            &self.links,
            children,
            supplied,
            supplier,
        );
        refill_above(
            &mut self.tables.above,
            &self.parents,
            &self.links,
            consumed,
            consumer,
        );
        Ok(())
    }

    /// The devices in the order in which they are prepared and resumed; they suspend the other way.
    pub fn order(&self) -> &[u32]
        ensures order { result.now ≡ order_by self.now.parents self.now.links }
        ensures count { length result.now ≡ length self.now.parents }
        ensures ranked { IsOrder (dependents self.now.parents self.now.links) result.now }
        ensures covers { (d : ℕ) → d < length self.now.parents → is_among result.now d ≡ true }
        ensures within { (d : ℕ) → is_among result.now d ≡ true → d < length self.now.parents }
    {
        &self.order
    }

    /// The devices that depend directly on one: its children, then its consumers by the links that
    /// are active, each once.
    pub fn below(&self, device: u32) -> &[u32]
        ensures { result.now ≡ active_below self.now.parents self.now.links device }
    {
        self.tables.below.row(device)
    }

    /// The devices that one depends on directly: its parent, then its suppliers by the links that are
    /// active, each once.
    pub fn above(&self, device: u32) -> &[u32]
        ensures { result.now ≡ active_above self.now.parents self.now.links device }
    {
        self.tables.above.row(device)
    }

    /// Whether there is a link of these two, active or dormant.
    pub fn is_linked(&self, supplier: u32, consumer: u32) -> bool
        ensures { result ≡ is_linked self.now.links supplier consumer }
    {
        self.tables.suppliers.row(consumer).contains(&supplier)
    }

    /// Whether a supplier is the consumer or depends on it, by children and all links. It takes no
    /// memory (`drivers/base/core.c`, `device_is_dependent`).
    pub fn is_dependent(&self, consumer: u32, supplier: u32) -> bool
        requires { length self.now.parents ≤ 1024 }
        ensures { result ≡ is_dependent self.now.parents self.now.links consumer supplier }
    {
        if precedes(&self.order, supplier, consumer) {
            return false;
        }
        consumer == supplier || comes_to(&self.tables.dependents, &self.order, consumer, supplier)
    }

    /// Why the link is refused before anything is walked.
    fn refusal(&self, supplier: u32, consumer: u32) -> Option<LinkFault>
        ensures { Refuses self.now supplier consumer result }
    {
        let count = self.parents.len();
        if supplier as usize >= count || consumer as usize >= count {
            return Some(LinkFault::NoDevice);
        }
        if self.links.len() >= MOST_LINKS {
            return Some(LinkFault::TooMany);
        }
        if self.is_linked(supplier, consumer) {
            return Some(LinkFault::Twice);
        }
        None
    }

    /// Why the state of a link is not set.
    fn absence(&self, supplier: u32, consumer: u32) -> Option<LinkFault>
        ensures { Lacks self.now supplier consumer result }
    {
        let count = self.parents.len();
        if consumer as usize >= count || supplier as usize >= count {
            return Some(LinkFault::NoDevice);
        }
        if !self.is_linked(supplier, consumer) {
            return Some(LinkFault::NoLink);
        }
        None
    }

    /// Walks below the consumer until it meets the supplier.
    fn find(&self, supplier: u32, consumer: u32) -> Result<Found, Mem>
        requires { consumer < length self.now.parents }
        ensures { IfOk result (Finds (length self.now.parents)
            (dependents self.now.parents self.now.links) consumer supplier) }
    {
        let alloc = *self.order.allocator();
        walk(
            alloc,
            &self.tables.dependents,
            &self.order,
            consumer,
            supplier,
        )
    }

    /// Whether a link leaves the order as it is: the newest one has moved this consumer to its end, and the
    /// supplier comes before it. A device's driver mostly adds the links to all its suppliers in a row.
    fn stays_by(&self, link: Link) -> bool
        ensures { OnTrue result (LeavesOrder self.now link (order_by self.now.parents self.now.links)) }
    {
        match self.links.last() {
            Some(newest) if newest.consumer == link.consumer => {
                precedes(&self.order, link.supplier, link.consumer)
            }
            _ => false,
        }
    }

    /// The order in which a link has moved its consumer, and all that depends on it, to the end; `None` if
    /// the order stays as it is.
    fn moved_by(&self, link: Link) -> Result<Option<Vec<u32>>, LinkFault>
        requires { link.consumer < length self.now.parents }
        ensures { Moves self.now link result }
    {
        if self.stays_by(link) {
            return Ok(None);
        }
        match self.find(link.supplier, link.consumer)? {
            Found::Reached(path) => Err(LinkFault::Cycle(DevList::of_vec(path))),
            Found::Passed(devices, start, marks) => {
                Ok(Some(self.moved_last(link, &devices[start..], &marks)?))
            }
        }
    }

    /// The order in which what a walk below the consumer found has moved to the end.
    fn moved_last(&self, link: Link, below: &[u32], marks: &[bool]) -> Result<Vec<u32>, Mem>
        requires { IsWalked (length self.now.parents)
            (dependents self.now.parents self.now.links) link.consumer link.supplier below.now marks.now }
        ensures { IfOk result (λ order. LeavesOrder self.now link order.items) }
    {
        moved_last(*self.order.allocator(), &self.order, marks, below)
    }

    /// Puts the link after the others, and takes the order that it leaves if that is another.
    fn put(&mut self, link: Link, moved: Option<Vec<u32>>) -> Result<(), Mem>
        requires open { IsOpen self.old link.supplier link.consumer }
        requires leaves { LeavesOrder self.old link (after_move moved (order_by self.old.parents self.old.links)) }
        ensures ok { OnOk result
            (self.new ≡ record { parents = self.old.parents; links = link ∷ self.old.links }) }
        ensures err { OnErr result (self.new ≡ self.old) }
    {
        let left_out = is_left_out(&self.parents, link);
        make_room(&mut self.links, &mut self.tables, &mut self.numbers, link)?;
        self.tables.push(link, left_out);
        self.numbers.push(link, self.links.len() as u32);
        take_order(&mut self.order, moved);
        match self.links.push(link) {
            Ok(()) => Ok(()),
            Err(_) => unreachable!(),
        }
    }
}

/// Takes the order that a move left, if there was one.
fn take_order(order: &mut Vec<u32>, moved: Option<Vec<u32>>)
    ensures { order.new.items ≡ after_move moved order.old.items }
{
    if let Some(moved) = moved {
        *order = moved;
    }
}
