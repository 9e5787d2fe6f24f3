//! Whether a chain and levels show that no chain is longer.

ghost use Rattle.std.specs.Prelude.{◌≡◌, nat_lt, length};
ghost use Rattle.std.specs.List.{list_all};
ghost use Rattle.device_chain.specs.Chains.{are_levels, is_certified, is_chain, is_level, level_at, may_follow};

use crate::chain::Chain;
use crate::levels::level_at;
use device_links::Links;

/// Whether a device may follow in a chain.
fn may_follow(links: &Links, count: usize, before: Option<u32>, device: u32) -> bool
    requires { count ≡ length links.now.parents }
    ensures { result ≡ may_follow links.now before device }
{
    match before {
        Some(before) => links.below(before).contains(&device),
        None => (device as usize) < count,
    }
}

/// Whether the devices are a chain.
fn is_chain(links: &Links, devices: &[u32]) -> bool
    ensures { result ≡ is_chain links.now devices.now }
{
    let count = links.order().len();
    let mut before = None;
    for device in devices {
        if !may_follow(links, count, before, *device) {
            return false;
        }
        before = Some(*device);
    }
    true
}

/// Whether each of these devices has a lower level.
fn are_lower(levels: &[u32], devices: &[u32], level: u32) -> bool
    ensures { result ≡ list_all (λ e. nat_lt (level_at levels.now e) level) devices.now }
{
    devices
        .iter()
        .all(|device| level_at(levels, *device) < level)
}

/// Whether a device's level is 1 to `most`, and greater than that of each device right above it.
fn is_level(links: &Links, levels: &[u32], most: usize, device: u32) -> bool
    ensures { result ≡ is_level links.now levels.now most device }
{
    let level = level_at(levels, device);
    1 <= level && level as usize <= most && are_lower(levels, links.above(device), level)
}

/// Whether each of these devices has such a level.
fn have_levels(links: &Links, levels: &[u32], most: usize, devices: &[u32]) -> bool
    ensures { result ≡ list_all (is_level links.now levels.now most) devices.now }
{
    devices
        .iter()
        .all(|device| is_level(links, levels, most, *device))
}

/// Whether these are the levels of all devices, up to `most`.
fn are_levels(links: &Links, levels: &[u32], most: usize) -> bool
    ensures { result ≡ are_levels links.now levels.now most }
{
    let order = links.order();
    levels.len() == order.len() && have_levels(links, levels, most, order)
}

/// Whether the devices of a chain are one, and its levels are those of all devices, up to its length, so that
/// no chain is longer.
pub fn is_certified(links: &Links, chain: &Chain) -> bool
    ensures { result ≡ is_certified links.now chain.now }
{
    let devices = chain.devices.as_slice();
    is_chain(links, devices) && are_levels(links, chain.levels.as_slice(), devices.len())
}
