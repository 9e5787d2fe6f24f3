//! The order of links that are made at once, by walks over all devices that none visits twice.

ghost use Rattle.std.specs.Prelude.{◌≡◌, ◌<◌, ◌^◌, ℕ, true, IfOk, length, reverse, option_map};
ghost use Rattle.sleep_model.specs.Order.{EachAfterParent, dependents, is_among};
ghost use Rattle.device_rows.specs.Table.{row_at};
ghost use Rattle.link_rows.specs.Rows.{IsTableOf};
ghost use Rattle.device_links.specs.Passes.{AreApart, AreVisits, Goes, Orders};

use crate::tables::{is_marked, mark, moved_last, registered};
use crate::walk::Frame;
use device_rows::{Rows, Stack};
use sleep_base::Mem;
use sleep_model::Link;
use std::alloc::Global;

/// How far walks have come. A device that one has entered and not left is on its way.
#[derive(Drop)]
pub(crate) struct Visits {
    pub(crate) entered: Vec<bool>,
    pub(crate) left: Vec<bool>,
    /// The devices that were left, each before all that depend on it.
    pub(crate) out: Stack<u32>,
}

/// Walks from a device to all below it that was not visited yet. It takes the devices right below one in
/// backward order. False if it meets a device on its own way, and so a cycle.
fn visit(alloc: Global, table: &Rows, from: u32, visits: &mut Visits) -> Result<bool, Mem>
    requires registered { from < length table.now.rows }
    requires within { (d x : ℕ) → is_among (row_at table.now d) x ≡ true → x < length table.now.rows }
    requires visits { AreVisits (length table.now.rows) (row_at table.now) visits.old }
    ensures { IfOk result
        (Goes (length table.now.rows) (row_at table.now) from visits.old visits.new) }
{
    if is_marked(&visits.left, from) {
        return Ok(true);
    }
    let mut frames = Stack::new(alloc);
    mark(&mut visits.entered, from);
    frames.push(Frame {
        device: from,
        left: table.row(from).len(),
    })?;
    while let Some(top) = frames.pop() {
        if top.left == 0 {
            mark(&mut visits.left, top.device);
            visits.out.push(top.device)?;
            continue;
        }
        let left = top.left - 1;
        let next = table.row(top.device)[left];
        frames.push(Frame {
            device: top.device,
            left,
        })?;
        if is_marked(&visits.left, next) {
            continue;
        }
        if is_marked(&visits.entered, next) {
            return Ok(false);
        }
        mark(&mut visits.entered, next);
        frames.push(Frame {
            device: next,
            left: table.row(next).len(),
        })?;
    }
    Ok(true)
}

/// The order that these links leave, by what depends directly on each device. None exactly if one
/// of them closes a cycle with the parents and those before it.
///
/// What a later link moves stays after all that earlier ones move, so the walks begin with the last
/// link, and none enters what a later one has visited. What a walk meets by a later link than its
/// own is that link's consumer, and was visited.
pub(crate) fn order_of(
    alloc: Global,
    parents: &[Option<u32>],
    table: &Rows,
    links: &[Link],
) -> Result<Option<Vec<u32>>, Mem>
    requires numbered { length parents.now < 2 ^ 32 }
    requires after { EachAfterParent 0 parents.now }
    requires apart { AreApart parents.now (reverse links.now) }
    requires dependents { IsTableOf (length parents.now) (dependents parents.now (reverse links.now)) table.now.rows }
    ensures { IfOk result (λ order. Orders parents.now (reverse links.now) (option_map (λ v. v.items) order)) }
{
    let count = parents.len();
    let mut visits = Visits {
        entered: vec![in alloc; false; count]?,
        left: vec![in alloc; false; count]?,
        out: Stack::new(alloc),
    };
    for i in (0..links.len()).rev() {
        if !visit(alloc, table, links[i].consumer, &mut visits)? {
            return Ok(None);
        }
    }
    let devices = registered(alloc, count as u32)?;
    let Visits { left, out, .. } = visits;
    let order = moved_last(alloc, &devices, &left, &out.into_vec())?;
    Ok(Some(order))
}
