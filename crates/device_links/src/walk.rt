//! A walk over all that depends on a device.

ghost use Rattle.std.specs.Prelude.{◌≡◌, ◌<◌, ◌∷◌, ◌++◌, [], IfOk, length, map};
ghost use Rattle.device_rows.specs.Table.{row_at};
ghost use Rattle.device_links.specs.Walks.{IsWalkable, Finds, Reaches};

use device_rows::Rows;
use sleep_base::Mem;
use std::alloc::Global;

/// The frame of a walk at a device: how many of those right below it are not visited yet.
#[derive(Clone, Copy)]
pub(crate) struct Frame {
    pub(crate) device: u32,
    pub(crate) left: usize,
}

/// What a walk below a device found.
#[derive(Drop)]
pub(crate) enum Found {
    /// The device that was sought, by this path, which begins with the first and ends with it.
    Reached(Vec<u32>),
    /// All devices below, the first too, each once, which this list has from that index on: last visits in
    /// order, and a mark for each.
    Passed(Vec<u32>, usize, Vec<bool>),
}

/// The frame of a walk at a device that it has just entered.
fn frame_at(table: &Rows, device: u32) -> Frame
    requires { device < length table.now.rows }
    ensures { result ≡ record { device = device; left = length (row_at table.now device) } }
{
    Frame {
        device,
        left: table.row_within(device).len(),
    }
}

/// The path over these devices, the first of them first, the last step the given one.
fn path_to(alloc: Global, frames: &[Frame], last: u32) -> Result<Vec<u32>, Mem>
    ensures { IfOk result (λ path. path.items ≡ map (λ (f : Frame). f.device) frames.now ++ last ∷ []) }
{
    let mut path = Vec::new(alloc);
    for frame in frames {
        path.push(frame.device)?;
    }
    path.push(last)?;
    Ok(path)
}

/// That the walk has met its target, by the path over these devices and that one.
fn reached(alloc: Global, frames: &[Frame], last: u32) -> Result<Found, Mem>
    ensures { IfOk result (Reaches (map (λ (f : Frame). f.device) frames.now ++ last ∷ [])) }
{
    let path = path_to(alloc, frames, last)?;
    Ok(Found::Reached(path))
}

/// Walks from a device to all that depends on it by this table, or until it meets the target. It visits those
/// right below a device from the last to the first, and none twice, so that the devices come to lie in the
/// order of their last indices. They take the end of a copy of the order, which has room for each.
///
/// A device is marked once the walk enters it. None depends on itself, so one that is met with a mark is not
/// on the walk's own way: the walk has left it. The function is not inlined, so that its loop has the
/// registers to itself.
#[inline(never)]
pub(crate) fn walk(
    alloc: Global,
    table: &Rows,
    order: &[u32],
    from: u32,
    target: u32,
) -> Result<Found, Mem>
    requires sized { length order.now ≡ length table.now.rows }
    requires within { from < length table.now.rows }
    requires walkable { IsWalkable (length table.now.rows) (row_at table.now) }
    ensures { IfOk result (Finds (length table.now.rows) (row_at table.now) from target) }
{
    if from == target {
        return reached(alloc, &[], from);
    }
    let count = table.len();
    let mut marks = vec![in alloc; false; count]?;
    let mut above = Vec::with_capacity(alloc, count)?;
    let mut out = Vec::from_slice(alloc, order)?;
    let mut start = count;
    marks[from as usize] = true;
    let mut here = Some(frame_at(table, from));
    while let Some(top) = here {
        if top.left == 0 {
            start -= 1;
            out[start] = top.device;
            here = above.pop();
            continue;
        }
        let left = top.left - 1;
        let next = table.row_within(top.device)[left];
        let rest = Frame {
            device: top.device,
            left,
        };
        if next == target {
            above.push_reserved(rest);
            return reached(alloc, &above, next);
        }
        if marks[next as usize] {
            here = Some(rest);
            continue;
        }
        marks[next as usize] = true;
        above.push_reserved(rest);
        here = Some(frame_at(table, next));
    }
    Ok(Found::Passed(out, start, marks))
}
