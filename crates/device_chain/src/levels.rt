//! The level of each device: how long the longest chain is that ends with it.

ghost use Rattle.std.specs.Prelude.{◌≡◌, ◌<◌, ◌≤◌, IfOk, length};
ghost use Rattle.device_chain.specs.Chains.{AreLevels, first_at, found_after, greatest, level_at};

use device_links::Links;
use sleep_base::Mem;
use std::alloc::Global;

/// The level of a device; 0 if the list has none.
pub(crate) fn level_at(levels: &[u32], device: u32) -> u32
    ensures { result ≡ level_at levels.now device }
{
    match levels.get(device as usize) {
        Some(level) => *level,
        None => 0,
    }
}

/// The greatest level of these devices.
pub(crate) fn greatest(levels: &[u32], devices: &[u32]) -> u32
    ensures { result ≡ greatest levels.now 0 devices.now }
{
    let mut most = 0;
    for device in devices {
        most = most.max(level_at(levels, *device));
    }
    most
}

/// Of the device that was found and another, if it has this level: the one that was registered first.
fn found_after(levels: &[u32], level: u32, found: Option<u32>, device: u32) -> Option<u32>
    ensures { result ≡ found_after levels.now level found device }
{
    if level_at(levels, device) != level {
        return found;
    }
    match found {
        Some(earlier) if earlier <= device => Some(earlier),
        _ => Some(device),
    }
}

/// The device of that level that was registered first, of these.
pub(crate) fn first_at(levels: &[u32], level: u32, devices: &[u32]) -> Option<u32>
    ensures { result ≡ first_at levels.now level None devices.now }
{
    let mut found = None;
    for device in devices {
        found = found_after(levels, level, found, *device);
    }
    found
}

/// The level of each device, in one pass over all devices and links.
pub(crate) fn levels_of(alloc: Global, links: &Links) -> Result<Vec<u32>, Mem>
    requires { length links.now.parents ≤ 1000 }
    ensures levels { IfOk result (λ v. AreLevels links.now v.items) }
{
    let order = links.order();
    let mut levels = vec![in alloc; 0; order.len()]?;
    for device in order {
        levels[*device as usize] = greatest(&levels, links.above(*device)) + 1;
    }
    Ok(levels)
}
