//! The states of links, and the rows that show the active ones.

ghost use Rattle.std.specs.Prelude.{◌≡◌, ◌<◌, ◌≤◌, ◌==◌, ◌-◌, [], ℕ, length, map, option_to_list, reverse, slice_get, slice_set, take};
ghost use Rattle.std.specs.Bool.{OnFalse};
ghost use Rattle.sleep_model.specs.Order.{children_from, dependents, superiors, parent_of, with_state};
ghost use Rattle.device_rows.specs.Table.{row_at, room_at};
ghost use Rattle.device_links.specs.Ends.{active_beside, beside, device_across, device_at, in_tree};
ghost use Rattle.device_links.specs.Invariant.{active_below, active_above, numbers_of};
ghost use Rattle.device_links.specs.Passes.{AreApart};

use device_rows::Rows;
use link_rows::is_left_out;
use sleep_model::Link;

/// Sets the state of the link between these two, by the numbers of all that the consumer has, and says
/// whether it was another.
pub(crate) fn set_state(
    links: &mut Vec<Link>,
    consumed: &[u32],
    supplier: u32,
    consumer: u32,
    to: bool,
) -> bool
    requires { consumed.now ≡ numbers_of (λ l. l.consumer == consumer) (reverse links.old.items) }
    ensures set { links.new.items ≡ map (with_state supplier consumer to) links.old.items }
    ensures kept { OnFalse result (links.new.items ≡ links.old.items) }
{
    let mut changed = false;
    for number in consumed {
        let link = &mut links[*number as usize];
        if set_one(link, supplier, consumer, to) {
            changed = true;
        }
    }
    changed
}

/// Sets the state of a link if it is between these two and in another state, and says whether it was so.
fn set_one(link: &mut Link, supplier: u32, consumer: u32, to: bool) -> bool
    ensures set { link.new ≡ with_state supplier consumer to link.old }
    ensures kept { OnFalse result (link.new ≡ link.old) }
{
    if link.supplier != supplier || link.consumer != consumer || link.active == to {
        return false;
    }
    link.active = to;
    true
}

/// An end of a link (`struct device_link`).
#[derive(Clone, Copy)]
pub(crate) enum LinkEnd {
    Supplier,
    Consumer,
}

/// The device at that end of a link.
#[inline(always)]
fn device_at(end: LinkEnd, link: Link) -> u32
    ensures { result ≡ device_at end link }
{
    match end {
        LinkEnd::Supplier => link.supplier,
        LinkEnd::Consumer => link.consumer,
    }
}

/// The children among what depends directly on a device, which come before its consumers: it supplies as many
/// as it has links.
pub(crate) fn children_within<'a>(dependents: &'a [u32], supplied: &[u32]) -> &'a [u32]
    requires { length supplied.now ≤ length dependents.now }
    ensures { result.now ≡ take (length dependents.now - length supplied.now) dependents.now }
{
    &dependents[..dependents.len() - supplied.len()]
}

/// Makes the row of what is seen below a device anew, in its room, from its children and the numbers of the
/// links that it supplies.
pub(crate) fn refill_below(
    table: &mut Rows,
    parents: &[Option<u32>],
    links: &[Link],
    children: &[u32],
    supplied: &[u32],
    device: u32,
)
    requires within { device < length table.old.rows }
    requires children { children.now ≡ children_from device 0 parents.now }
    requires supplied { supplied.now ≡ numbers_of (λ l. l.supplier == device) (reverse links.now) }
    requires places { length (dependents parents.now (reverse links.now) device) ≤ room_at table.old device }
    requires apart { AreApart parents.now (reverse links.now) }
    ensures rows { table.new.rows ≡
        slice_set table.old.rows device (active_below parents.now (reverse links.now) device) }
    ensures places { (d : ℕ) → room_at table.old d ≤ room_at table.new d }
{
    table.clear(device);
    push_children(table, children, device);
    push_linked(table, parents, links, supplied, device, LinkEnd::Consumer);
}

/// Puts the children of a device into its row, which is empty.
fn push_children(table: &mut Rows, children: &[u32], device: u32)
    requires within { device < length table.old.rows }
    requires empty { row_at table.old device ≡ [] }
    requires places { length children.now ≤ room_at table.old device }
    ensures rows { table.new.rows ≡ slice_set table.old.rows device children.now }
    ensures places { (d : ℕ) → room_at table.old d ≤ room_at table.new d }
{
    for child in children {
        table.push(device, *child);
    }
}

/// Puts the devices at one end of the active links that a device has at their other end into its row, after
/// its children or its parent.
#[inline(always)]
fn push_linked(
    table: &mut Rows,
    parents: &[Option<u32>],
    links: &[Link],
    numbers: &[u32],
    device: u32,
    end: LinkEnd,
)
    requires within { device < length table.old.rows }
    requires tree { row_at table.old device ≡ in_tree end parents.now device }
    requires numbers { numbers.now ≡ numbers_of (λ l. device_across end l == device) (reverse links.now) }
    requires places { length (beside end parents.now (reverse links.now) device) ≤ room_at table.old device }
    requires apart { AreApart parents.now (reverse links.now) }
    ensures rows { table.new.rows ≡
        slice_set table.old.rows device (active_beside end parents.now (reverse links.now) device) }
    ensures places { (d : ℕ) → room_at table.old d ≤ room_at table.new d }
{
    for number in numbers {
        let link = links[*number as usize];
        if !is_left_out(parents, link) {
            table.push(device, device_at(end, link));
        }
    }
}

/// Makes the row of what is seen above a device anew, in its room, from its parent and the numbers of the
/// links that it consumes.
pub(crate) fn refill_above(
    table: &mut Rows,
    parents: &[Option<u32>],
    links: &[Link],
    consumed: &[u32],
    device: u32,
)
    requires device { device < length parents.now }
    requires within { device < length table.old.rows }
    requires consumed { consumed.now ≡ numbers_of (λ l. l.consumer == device) (reverse links.now) }
    requires places { length (superiors parents.now (reverse links.now) device) ≤ room_at table.old device }
    requires apart { AreApart parents.now (reverse links.now) }
    ensures rows { table.new.rows ≡
        slice_set table.old.rows device (active_above parents.now (reverse links.now) device) }
    ensures places { (d : ℕ) → room_at table.old d ≤ room_at table.new d }
{
    table.clear(device);
    push_parent(table, parents[device as usize], device);
    push_linked(table, parents, links, consumed, device, LinkEnd::Supplier);
}

/// Puts the parent of a device into its row, which is empty.
fn push_parent(table: &mut Rows, parent: Option<u32>, device: u32)
    requires within { device < length table.old.rows }
    requires empty { row_at table.old device ≡ [] }
    requires places { length (option_to_list parent) ≤ room_at table.old device }
    ensures rows { table.new.rows ≡ slice_set table.old.rows device (option_to_list parent) }
    ensures places { (d : ℕ) → room_at table.old d ≤ room_at table.new d }
{
    if let Some(parent) = parent {
        table.push(device, parent);
    }
}
