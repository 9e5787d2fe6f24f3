//! Which devices depend on which, by their parents and links.

ghost use Rattle.std.specs.Prelude.{◌≡◌, ◌<◌, ◌^◌, [], IfOk, OnOk, length, vec_capacity, vec_len};
ghost use Rattle.sleep_model.specs.Order.{EachAfterParent};
ghost use Rattle.check_order.specs.Graphs.{HaveRoom};

use crate::links::{place_of, push_consumers, push_suppliers};
use crate::order::{move_to_end, registered};
use crate::shown::ShownRows;
use crate::tables::{children, longer_if};
use crate::walk::visit_below;
use device_rows::Rows;
use sleep_base::{Mem, drop_for_mem};
use sleep_model::Link;
use std::alloc::Global;
use std::marker::Model;

/// The devices of a machine with the links between them, and what these make: the order of devices
/// (`drivers/base/power/main.c`, `dpm_list`), and what must sleep before and wake before each. Contracts see
/// the parents and the links, the newest first.
#[derive(Drop)]
pub struct DeviceGraph {
    parents: Vec<Option<u32>>,
    links: Vec<Link>,
    // What depends on each device by all links, dormant ones too.
    hanging: Rows,
    // The indices of the links that each device supplies, and of those that it consumes.
    supplied: Rows,
    consumed: Rows,
    // By the links that are active.
    below: ShownRows,
    above: ShownRows,
    order: Vec<u32>,
}

impl Model for DeviceGraph {
    ghost use Rattle.std.specs.Prelude.{reverse};
    ghost use Rattle.check_order.specs.Graphs.{IsMade, GraphState};

    ghost Value = { GraphState };

    ghost view = { λ t. record { parents = t.parents.items; links = reverse t.links.items } };

    ghost invariant = { λ t. IsMade (record { parents = t.parents.items; links = reverse t.links.items })
        t.hanging.rows t.supplied.rows t.consumed.rows t.below t.above t.order.items };
}

/// The rows that a link's two devices have after it was added.
#[derive(Drop)]
struct ChangedRows {
    below: Vec<u32>,
    above: Vec<u32>,
}

impl DeviceGraph {
    ghost use Rattle.std.specs.Prelude.{◌≡◌, ◌∷◌, ◌<◌, IfOk, OnOk, length, map, reverse};
    ghost use Rattle.sleep_model.specs.Order.{active_of, dependents, superiors, order_by, with_state};
    ghost use Rattle.sleep_model.specs.Links.{AreLinks, is_dependent, is_linked};
    ghost use Rattle.check_order.specs.Graphs.{AreShown, IsGraph, links_with, with_links};

    /// Devices with these parents, in the order of their registration, and these links, in the order in which
    /// they were added. `Mem` if there is no memory for them.
    pub fn new(alloc: Global, parents: &[Option<u32>], links: &[Link]) -> Result<DeviceGraph, Mem>
        requires { IsGraph (record { parents = parents.now; links = reverse links.now }) }
        ensures { IfOk result (λ t. t ≡ record { parents = parents.now; links = reverse links.now }) }
    {
        let mut graph = without_links(alloc, parents)?;
        for link in links {
            graph.add_link(*link)?;
        }
        Ok(graph)
    }

    /// The devices and the links are as the reader of machines takes them.
    pub fn is_graph(&self)
        ensures { IsGraph self.now }
    {
        let _links = &self.links;
    }

    /// The order of devices: as they were registered, moved by the links in turn, dormant ones too
    /// (`drivers/base/power/main.c`, `dpm_list`).
    pub fn order(&self) -> &[u32]
        ensures { result.now ≡ order_by self.now.parents self.now.links }
    {
        &self.order
    }

    /// What must sleep before a device does, by the links that are active: its children, then its consumers
    /// (`dpm_wait_for_subordinate`). None if there is no such device.
    pub fn below(&self, device: u32) -> &[u32]
        ensures { result.now ≡ dependents self.now.parents (active_of self.now.links) device }
    {
        self.below.row(device)
    }

    /// What must be awake before a device is, by the links that are active: its parent, then its suppliers
    /// (`dpm_wait_for_superior`). None if there is no such device.
    pub fn above(&self, device: u32) -> &[u32]
        ensures { result.now ≡ superiors self.now.parents (active_of self.now.links) device }
    {
        self.above.row(device)
    }

    /// Whether there is a link between these two, active or dormant.
    pub fn is_linked(&self, supplier: u32, consumer: u32) -> bool
        ensures { result ≡ is_linked self.now.links supplier consumer }
    {
        let consumed = self.consumed.row(consumer);
        place_of(&self.links, consumed, supplier, consumer).is_some()
    }

    /// Whether a walk down from the consumer, over children and links of either state, meets the supplier
    /// (`drivers/base/core.c`, `device_is_dependent`). `Mem` if there is no memory for the walk.
    pub fn is_dependent(&self, consumer: u32, supplier: u32) -> Result<bool, Mem>
        requires consumer { consumer < length self.now.parents }
        requires supplier { supplier < length self.now.parents }
        ensures { IfOk result (λ b. b ≡ is_dependent self.now.parents self.now.links consumer supplier) }
    {
        let visits = visit_below(*self.order.allocator(), &self.hanging, consumer)?;
        Ok(visits.marks.is_set(supplier))
    }

    /// The order that a link leaves: its consumer is moved to the end, with all that depends on it.
    fn moved_by(&self, link: Link) -> Result<Vec<u32>, Mem>
        requires { AreLinks self.now.parents (link ∷ self.now.links) }
        ensures { IfOk result (λ v. v.items ≡ order_by self.now.parents (link ∷ self.now.links)) }
    {
        let alloc = *self.order.allocator();
        move_to_end(alloc, &self.hanging, link.consumer, &self.order)
    }

    /// The rows of a link's devices after it is added.
    fn longer_rows(&self, link: Link) -> Result<ChangedRows, Mem>
        ensures { IfOk result (λ r. AreShown self.now.parents (link ∷ self.now.links) link r.below.items r.above.items) }
    {
        let alloc = *self.order.allocator();
        let supplied = self.below.row(link.supplier);
        let below = longer_if(alloc, link.active, supplied, link.consumer)?;
        let consumed = self.above.row(link.consumer);
        let above = longer_if(alloc, link.active, consumed, link.supplier)?;
        Ok(ChangedRows { below, above })
    }

    /// Adds a link, the newest, which may be added to those that there are (`device_link_add`). It moves its
    /// consumer, with all that depends on that, to the end of the order. `Mem` if there is no memory for it.
    pub fn add_link(&mut self, link: Link) -> Result<(), Mem>
        requires { AreLinks self.old.parents (link ∷ self.old.links) }
        ensures { OnOk result (self.new ≡ with_links self.old (link ∷ self.old.links)) }
    {
        let place = place_number(self.links.len())?;
        let order = self.moved_by(link)?;
        let rows = self.longer_rows(link)?;
        make_room(
            &mut self.links,
            &mut self.hanging,
            &mut self.supplied,
            &mut self.consumed,
            link,
        )?;
        self.links.push_reserved(link);
        self.hanging.push(link.supplier, link.consumer);
        self.supplied.push(link.supplier, place);
        self.consumed.push(link.consumer, place);
        self.below.replace(link.supplier, rows.below);
        self.above.replace(link.consumer, rows.above);
        self.order = order;
        Ok(())
    }

    /// What is below the supplier of a link by active ones, after that link's state was set.
    fn row_below(&self, changed: Link) -> Result<Vec<u32>, Mem>
        ensures { IfOk result (λ v. v.items
            ≡ dependents self.now.parents (active_of (links_with changed self.now.links)) changed.supplier) }
    {
        let supplied = self.supplied.row(changed.supplier);
        let hanging = self.hanging.row(changed.supplier);
        let children = &hanging[..hanging.len() - supplied.len()];
        let mut row = Vec::from_slice(*self.order.allocator(), children)?;
        push_consumers(&mut row, &self.links, supplied, changed)?;
        Ok(row)
    }

    /// What is above the consumer of a link by active ones, after that link's state was set.
    fn row_above(&self, changed: Link) -> Result<Vec<u32>, Mem>
        requires { changed.consumer < length self.now.parents }
        ensures { IfOk result (λ v. v.items
            ≡ superiors self.now.parents (active_of (links_with changed self.now.links)) changed.consumer) }
    {
        let mut row = Vec::new(*self.order.allocator());
        if let Some(parent) = self.parents[changed.consumer as usize] {
            row.push(parent)?;
        }
        let consumed = self.consumed.row(changed.consumer);
        push_suppliers(&mut row, &self.links, consumed, changed)?;
        Ok(row)
    }

    /// Gives the link between these two that state, if there is one (`device_links_driver_bound`). If it has
    /// that state already, no row is made anew. The order stays in any case. `Mem` if there is no memory for
    /// the rows.
    pub fn set_state(&mut self, supplier: u32, consumer: u32, active: bool) -> Result<(), Mem>
        ensures { OnOk result (self.new ≡ with_links self.old (map (with_state supplier consumer active) self.old.links)) }
    {
        let consumed = self.consumed.row(consumer);
        let Some(place) = place_of(&self.links, consumed, supplier, consumer) else {
            return Ok(());
        };
        if self.links[place].active == active {
            return Ok(());
        }
        let changed = Link {
            supplier,
            consumer,
            active,
        };
        let below = self.row_below(changed)?;
        let above = self.row_above(changed)?;
        self.links[place] = changed;
        self.below.replace(supplier, below);
        self.above.replace(consumer, above);
        Ok(())
    }
}

/// The index of a link after so many others. `Mem` if there is no number for it.
fn place_number(count: usize) -> Result<u32, Mem>
    ensures { IfOk result (λ n. n ≡ count) }
{
    if count > u32::MAX as usize {
        return Err(Mem);
    }
    Ok(count as u32)
}

/// Makes room for one more link among the links and in the rows of its two devices. `Mem` if there is no
/// memory for it; what they say is then as before.
fn make_room(
    links: &mut Vec<Link>,
    hanging: &mut Rows,
    supplied: &mut Rows,
    consumed: &mut Rows,
    link: Link,
) -> Result<(), Mem>
    requires hanging { link.supplier < length hanging.old.rows }
    requires supplied { link.supplier < length supplied.old.rows }
    requires consumed { link.consumer < length consumed.old.rows }
    ensures links { links.new.items ≡ links.old.items }
    ensures hanging { hanging.new.rows ≡ hanging.old.rows }
    ensures supplied { supplied.new.rows ≡ supplied.old.rows }
    ensures consumed { consumed.new.rows ≡ consumed.old.rows }
    ensures place { OnOk result (vec_len links.new < vec_capacity links.new) }
    ensures room { OnOk result (HaveRoom link hanging.new supplied.new consumed.new) }
{
    links.reserve(1)?;
    hanging.make_room(link.supplier)?;
    supplied.make_room(link.supplier)?;
    consumed.make_room(link.consumer)
}

/// Devices with these parents and no links. `Mem` if there is no memory for them.
fn without_links(alloc: Global, parents: &[Option<u32>]) -> Result<DeviceGraph, Mem>
    requires numbered { length parents.now < 2 ^ 32 }
    requires after { EachAfterParent 0 parents.now }
    ensures { IfOk result (λ t. t ≡ record { parents = parents.now; links = [] }) }
{
    let hanging = children(alloc, parents)?;
    let Ok(below) = ShownRows::of_rows(alloc, &hanging) else {
        return Err(drop_for_mem(hanging));
    };
    let Ok(above) = ShownRows::of_parents(alloc, parents) else {
        return Err(drop_for_mem((hanging, below)));
    };
    let Ok(supplied) = Rows::with_rows(alloc, parents.len()) else {
        return Err(drop_for_mem((hanging, below, above)));
    };
    let Ok(consumed) = Rows::with_rows(alloc, parents.len()) else {
        return Err(drop_for_mem((hanging, below, above, supplied)));
    };
    let Ok(order) = registered(alloc, parents.len() as u32) else {
        return Err(drop_for_mem((hanging, below, above, supplied, consumed)));
    };
    let Ok(parents) = Vec::from_slice(alloc, parents) else {
        return Err(drop_for_mem((hanging, below, above, supplied, consumed, order)));
    };
    Ok(DeviceGraph {
        parents,
        links: Vec::new(alloc),
        hanging,
        supplied,
        consumed,
        below,
        above,
        order,
    })
}
