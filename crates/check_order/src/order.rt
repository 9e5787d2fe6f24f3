//! The order of devices that links leave.

ghost use Rattle.std.specs.Prelude.{◌≡◌, ◌<◌, ◌^◌, ◌++◌, ℕ, true, false, not, IfOk, filter, length, slice_index_or};
ghost use Rattle.std.specs.List.{range_with_len};
ghost use Rattle.sleep_model.specs.Order.{is_among};
ghost use Rattle.device_rows.specs.Table.{row_at};
ghost use Rattle.check_order.specs.Graphs.{moved_to_end};

use crate::walk::{VisitedDevices, visit_below};
use device_rows::{Flags, Rows};
use sleep_base::Mem;
use std::alloc::Global;

/// The devices in the order of their registration.
pub(crate) fn registered(alloc: Global, count: u32) -> Result<Vec<u32>, Mem>
    ensures { IfOk result (λ v. v.items ≡ range_with_len 0 count) }
{
    let mut order = Vec::new(alloc);
    for device in 0..count {
        order.push(device)?;
    }
    Ok(order)
}

/// The order without the marked devices, with these at its end.
fn with_last(alloc: Global, order: &[u32], marks: &Flags, devices: &[u32]) -> Result<Vec<u32>, Mem>
    ensures { IfOk result (λ v. v.items
        ≡ filter (λ d. not (slice_index_or marks.now d false)) order.now ++ devices.now) }
{
    let mut moved = Vec::with_capacity(alloc, order.len())?;
    for device in order {
        if marks.is_set(*device) {
            continue;
        }
        moved.push_reserved(*device);
    }
    moved.extend_from_slice(devices)?;
    Ok(moved)
}

/// The order after a device was moved to its end, with all that depends on it by this table.
pub(crate) fn move_to_end(
    alloc: Global,
    table: &Rows,
    device: u32,
    order: &[u32],
) -> Result<Vec<u32>, Mem>
    requires numbered { length table.now.rows < 2 ^ 32 }
    requires below { (d x : ℕ) → is_among (row_at table.now d) x ≡ true → x < length table.now.rows }
    requires device { device < length table.now.rows }
    requires within { (d : ℕ) → is_among order.now d ≡ true → d < length table.now.rows }
    ensures { IfOk result (λ v. v.items ≡ moved_to_end (length table.now.rows) (row_at table.now) device order.now) }
{
    let VisitedDevices { out, marks } = visit_below(alloc, table, device)?;
    with_last(alloc, order, &marks, &out.into_vec())
}
