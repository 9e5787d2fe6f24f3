//! Whether a device depends on another, without memory (`drivers/base/core.c`,
//! `device_is_dependent`).

ghost use Rattle.std.specs.Prelude.{◌≡◌, false, true, replicate, slice_index_or, slice_set};
ghost use Rattle.device_rows.specs.Table.{row_at};
ghost use Rattle.device_links.specs.Spread.{marked, spread, spread_by};

use crate::tables::is_marked;
use device_rows::Rows;

/// The most devices that a search without memory goes over.
pub const MOST_SEARCHED: usize = 1024;

/// Marks a device.
fn set_mark(marks: &mut [bool], device: u32)
    ensures { marks.new ≡ slice_set marks.old device true }
{
    let place = device as usize;
    if place < marks.len() {
        marks[place] = true;
    }
}

/// Marks the devices of a row.
fn set_row(marks: &mut [bool], row: &[u32])
    ensures { marks.new ≡ marked row.now marks.old }
{
    for device in row {
        set_mark(marks, *device);
    }
}

/// Marks what depends directly on a device, if that is marked.
fn set_below(marks: &mut [bool], table: &Rows, device: u32)
    ensures { marks.new ≡ spread_by (row_at table.now) device marks.old }
{
    if is_marked(marks, device) {
        set_row(marks, table.row(device));
    }
}

/// Marks all that depends on marked devices, in their order.
fn set_all(marks: &mut [bool], table: &Rows, order: &[u32])
    ensures { marks.new ≡ spread (row_at table.now) order.now marks.old }
{
    for device in order {
        set_below(marks, table, *device);
    }
}

/// Whether marks that spread from a device come to another.
pub(crate) fn comes_to(table: &Rows, order: &[u32], from: u32, to: u32) -> bool
    ensures { result ≡ slice_index_or
        (spread (row_at table.now) order.now (slice_set (replicate 1024 false) from true)) to false }
{
    let mut marks = [false; MOST_SEARCHED];
    set_mark(&mut marks, from);
    set_all(&mut marks, table, order);
    is_marked(&marks, to)
}
