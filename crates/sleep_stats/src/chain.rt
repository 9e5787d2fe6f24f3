//! The longest chain of devices at a log's end.

ghost use Rattle.std.specs.Prelude.{◌≡◌, IfOk};
ghost use Rattle.sleep_model.specs.Accepted.{IsAccepted};
ghost use Rattle.sleep_model.specs.Order.{parents_of};
ghost use Rattle.device_links.specs.Passes.{CanBeAdded};
ghost use Rattle.device_chain.specs.Chains.{IsLongest, is_certified};
ghost use Rattle.sleep_stats.specs.Linked.{added_links, last_linked};

use crate::linked::last_linked;
use device_chain::{Chain, is_certified, longest_chain};
use sleep_base::Mem;
use sleep_model::{Log, Machine};
use std::alloc::Global;

/// The longest chain of devices at a log's end.
pub fn longest(alloc: Global, machine: &Machine, log: &Log) -> Result<Chain, Mem>
    requires accepted { IsAccepted machine.now }
    requires stand { CanBeAdded (parents_of machine.now.devices) (added_links machine.now log.now) }
    ensures { IfOk result (λ c. IsLongest (last_linked machine.now log.now) c) }
{
    let links = last_linked(alloc, machine, log)?;
    let chain = longest_chain(alloc, &links);
    drop(links);
    chain
}

/// Whether the chain is one at the log's end, and the levels are those of all devices, up to its length, so
/// that no chain is longer.
pub fn certified(alloc: Global, machine: &Machine, log: &Log, chain: &Chain) -> Result<bool, Mem>
    requires accepted { IsAccepted machine.now }
    requires stand { CanBeAdded (parents_of machine.now.devices) (added_links machine.now log.now) }
    ensures { IfOk result (λ sure. sure ≡ is_certified (last_linked machine.now log.now) chain.now) }
{
    let links = last_linked(alloc, machine, log)?;
    let sure = is_certified(&links, chain);
    drop(links);
    Ok(sure)
}
