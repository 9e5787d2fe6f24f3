//! The order of devices without links, marks, and an order after a move.

ghost use Rattle.std.specs.Prelude.{◌≡◌, ◌<◌, ◌++◌, not, false, true, ℕ, IfOk, length, filter, slice_index_or, slice_set};
ghost use Rattle.std.specs.List.{range_with_len};
ghost use Rattle.sleep_model.specs.Order.{is_among};

use sleep_base::Mem;
use std::alloc::Global;

/// The devices in the order of their registration.
pub(crate) fn registered(alloc: Global, count: u32) -> Result<Vec<u32>, Mem>
    ensures { IfOk result (λ v. v.items ≡ range_with_len 0 count) }
{
    let mut order = Vec::with_capacity(alloc, count as usize)?;
    for device in 0..count {
        order.push(device)?;
    }
    Ok(order)
}

/// Whether a device has a mark.
pub(crate) fn is_marked(marks: &[bool], device: u32) -> bool
    ensures { result ≡ slice_index_or marks.now device false }
{
    match marks.get(device as usize) {
        Some(mark) => *mark,
        None => false,
    }
}

/// Marks a device.
pub(crate) fn mark(marks: &mut Vec<bool>, device: u32)
    ensures { marks.new.items ≡ slice_set marks.old.items device true }
{
    if let Some(mark) = marks.get_mut(device as usize) {
        *mark = true;
    }
}

/// The order without the marked devices, with these at its end.
pub(crate) fn moved_last(
    alloc: Global,
    order: &[u32],
    marks: &[bool],
    below: &[u32],
) -> Result<Vec<u32>, Mem>
    requires { (d : ℕ) → is_among order.now d ≡ true → d < length marks.now }
    ensures { IfOk result (λ v. v.items
        ≡ filter (λ d. not (slice_index_or marks.now d false)) order.now ++ below.now) }
{
    let mut moved = Vec::with_capacity(alloc, order.len())?;
    for device in order {
        if marks[*device as usize] {
            continue;
        }
        moved.push_reserved(*device);
    }
    moved.extend_from_slice(below)?;
    Ok(moved)
}
