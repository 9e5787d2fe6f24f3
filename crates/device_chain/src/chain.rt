//! The longest chain of devices, each right below the one before.

ghost use Rattle.std.specs.Prelude.{◌≡◌, ◌<◌, ◌≤◌, true, IfOk, length};
ghost use Rattle.device_chain.specs.Chains.{AreLevels, IsLed, IsLongest, is_chain, level_at};

use crate::levels::{first_at, greatest, level_at, levels_of};
use device_links::{DevList, Links};
use device_rows::Stack;
use sleep_base::Mem;
use std::alloc::Global;

/// A chain of devices, each right below the one before, and the level of each device of the machine, in the
/// order of registration.
#[derive(Debug, Drop)]
pub struct Chain {
    pub devices: DevList,
    pub levels: DevList,
}

/// The chain that leads to a device. Each time the one before is the first registered of those right above,
/// of a level one less.
fn chain_to(alloc: Global, links: &Links, levels: &[u32], end: u32) -> Result<Vec<u32>, Mem>
    requires levels { AreLevels links.now levels.now }
    requires device { end < length links.now.parents }
    ensures chain { IfOk result (λ v. is_chain links.now v.items ≡ true) }
    ensures led { IfOk result (λ v. IsLed links.now levels.now end v.items) }
    ensures long { IfOk result (λ v. length v.items ≡ level_at levels.now end) }
{
    let mut chain = Stack::new(alloc);
    let mut first = end;
    chain.push(end)?;
    for level in (1..level_at(levels, end)).rev() {
        match first_at(levels, level, links.above(first)) {
            Some(device) => first = device,
            None => unreachable!(),
        }
        chain.push(first)?;
    }
    Ok(chain.into_vec())
}

/// The longest chain, by the levels of all devices: it leads to the first registered of those with the
/// greatest level.
fn longest_by(alloc: Global, links: &Links, levels: &[u32]) -> Result<Vec<u32>, Mem>
    requires { AreLevels links.now levels.now }
    ensures { IfOk result (λ v. IsLongest links.now (record { devices = v.items; levels = levels.now })) }
{
    let order = links.order();
    let top = greatest(levels, order);
    match first_at(levels, top, order) {
        Some(end) => chain_to(alloc, links, levels, end),
        None => Ok(Vec::new(alloc)),
    }
}

/// The longest chain of devices with these links. `Mem` if there is no memory for it.
pub fn longest_chain(alloc: Global, links: &Links) -> Result<Chain, Mem>
    requires { length links.now.parents ≤ 1000 }
    ensures { IfOk result (IsLongest links.now) }
{
    let levels = levels_of(alloc, links)?;
    let devices = longest_by(alloc, links, &levels)?;
    Ok(Chain {
        devices: DevList::of_vec(devices),
        levels: DevList::of_vec(levels),
    })
}
