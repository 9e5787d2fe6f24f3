//! Walks below a device that go into none twice.

ghost use Rattle.std.specs.Prelude.{◌≡◌, ◌<◌, ◌^◌, [], ℕ, true, IfOk, OnOk, length};
ghost use Rattle.sleep_model.specs.Order.{is_among};
ghost use Rattle.device_rows.specs.Table.{row_at};
ghost use Rattle.check_order.specs.Visited.{AreMarked, Leaves, put_first, visited};

use device_rows::{Flags, Rows, Stack};
use sleep_base::Mem;
use std::alloc::Global;

/// The devices that a walk has visited, the newest first, each with a mark.
#[derive(Drop)]
pub(crate) struct VisitedDevices {
    pub(crate) out: Stack<u32>,
    pub(crate) marks: Flags,
}

/// Puts a device in front, unless it was visited.
fn put(visits: &mut VisitedDevices, device: u32) -> Result<(), Mem>
    requires marked { AreMarked (length visits.old.marks) visits.old }
    requires device { device < length visits.old.marks }
    ensures { OnOk result (Leaves (length visits.old.marks) (put_first device visits.old.out) visits.new) }
{
    if visits.marks.is_set(device) {
        return Ok(());
    }
    visits.marks.set(device, true);
    visits.out.push(device)?;
    Ok(())
}

/// Visits a device and its dependents to some level.
fn visit(table: &Rows, levels: u32, device: u32, visits: &mut VisitedDevices) -> Result<(), Mem>
    requires within { (d x : ℕ) → is_among (row_at table.now d) x ≡ true → x < length visits.old.marks }
    requires marked { AreMarked (length visits.old.marks) visits.old }
    requires device { device < length visits.old.marks }
    ensures { OnOk result
        (Leaves (length visits.old.marks) (visited levels (row_at table.now) device visits.old.out) visits.new) }
{
    if visits.marks.is_set(device) {
        return Ok(());
    }
    if levels == 0 {
        return put(visits, device);
    }
    let row = table.row(device);
    for i in (0..row.len()).rev() {
        visit(table, levels - 1, row[i], visits)?;
    }
    put(visits, device)
}

/// A device with its dependents to some level, each in front of its own dependents.
pub(crate) fn visit_below(alloc: Global, table: &Rows, device: u32) -> Result<VisitedDevices, Mem>
    requires numbered { length table.now.rows < 2 ^ 32 }
    requires within { (d x : ℕ) → is_among (row_at table.now d) x ≡ true → x < length table.now.rows }
    requires device { device < length table.now.rows }
    ensures { IfOk result (Leaves (length table.now.rows)
        (visited (length table.now.rows) (row_at table.now) device [])) }
{
    let count = table.len();
    let mut visits = VisitedDevices {
        out: Stack::new(alloc),
        marks: Flags::new(alloc, count)?,
    };
    visit(table, count as u32, device, &mut visits)?;
    Ok(visits)
}
