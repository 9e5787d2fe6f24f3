//! The longest chain of devices at the end of a log: it is certified, and one that lacks a device is not.

ghost use Rattle.std.specs.Prelude.{◌≡◌, true, None, Some, [], ◌∷◌};
ghost use Rattle.std.specs.Bool.{OnTrue};
ghost use Rattle.sleep_model.specs.declared.entry.Kind.TheVariants.{LinkAdd};
ghost use Rattle.sleep_model.specs.Accepted.{IsAccepted};
ghost use Rattle.sleep_model.specs.Order.{parents_of};
ghost use Rattle.device_links.specs.Passes.{CanBeAdded};
ghost use Rattle.sleep_stats.specs.Linked.{added_by, added_links};

use sleep_base::Mem;
use sleep_model::{Kind, ListOf, Log, Machine};
use sleep_stats::{Chain, certified, longest};
use std::alloc::Global;

/// The devices of the longest chain, and the levels of all.
const DEVICES: [u32; 3] = [0, 1, 2];

const LEVELS: [u32; 3] = [1, 2, 3];

/// The chain without its middle.
const ENDS: [u32; 2] = [0, 2];

/// Whether a machine has three devices, the last below the second, and no links.
fn has_devices(machine: &Machine) -> bool
    ensures parents { OnTrue result (parents_of machine.now.devices ≡ None ∷ None ∷ Some 1 ∷ []) }
    ensures links { OnTrue result (machine.now.links ≡ []) }
{
    match (machine.devices.as_slice(), machine.links.as_slice()) {
        ([a, b, c], []) => matches!((a.parent, b.parent, c.parent), (None, None, Some(1))),
        _ => false,
    }
}

/// Whether an entry adds a link from the first device to the second.
fn is_added(kind: Kind) -> bool
    ensures { OnTrue result (kind ≡ LinkAdd 0 1 None) }
{
    matches!(
        kind,
        Kind::LinkAdd {
            supplier: 0,
            consumer: 1,
            r: None
        }
    )
}

/// Whether a log does, and no more.
fn adds_one(log: &Log) -> bool
    ensures { OnTrue result (added_by [] log.now.entries ≡ record { supplier = 0; consumer = 1; active = true } ∷ []) }
{
    let mut reader = log.entries.reader();
    let Some(entry) = reader.next() else {
        return false;
    };
    is_added(entry.kind) && reader.next().is_none()
}

/// Whether the machine is that of those devices and the log adds that link: then the links at its end are
/// these.
#[tactic(auto, using(crate::proofs::AddedLink::stand))]
fn is_linked(machine: &Machine, log: &Log) -> bool
    ensures { OnTrue result (CanBeAdded (parents_of machine.now.devices) (added_links machine.now log.now)) }
{
    has_devices(machine) && adds_one(log)
}

/// A chain of these devices, with the levels of all three.
fn chain_of(alloc: Global, devices: &[u32]) -> Result<Chain, Mem> {
    let devices = devices.to_vec(alloc)?;
    let levels = LEVELS.to_vec(alloc)?;
    Ok(Chain {
        devices: ListOf::of_vec(devices),
        levels: ListOf::of_vec(levels),
    })
}

/// Whether the chain is that of all three devices, with their levels.
fn is_whole(chain: &Chain) -> bool {
    chain.devices.as_slice() == DEVICES.as_slice() && chain.levels.as_slice() == LEVELS.as_slice()
}

/// Whether the longest chain is that of all three devices, and is certified.
fn is_longest_sure(alloc: Global, machine: &Machine, log: &Log) -> Result<bool, Mem>
    requires accepted { IsAccepted machine.now }
    requires stand { CanBeAdded (parents_of machine.now.devices) (added_links machine.now log.now) }
{
    let chain = longest(alloc, machine, log)?;
    let is_whole = is_whole(&chain);
    let sure = certified(alloc, machine, log, &chain);
    drop(chain);
    Ok(is_whole && sure?)
}

/// Whether the chain without its middle is certified.
fn is_cut_sure(alloc: Global, machine: &Machine, log: &Log) -> Result<bool, Mem>
    requires accepted { IsAccepted machine.now }
    requires stand { CanBeAdded (parents_of machine.now.devices) (added_links machine.now log.now) }
{
    let cut = chain_of(alloc, &ENDS)?;
    let sure = certified(alloc, machine, log, &cut);
    drop(cut);
    sure
}

/// Whether the longest chain is that of all three devices and is certified, and that without its middle is not.
pub(crate) fn is_certified_whole(alloc: Global, machine: &Machine, log: &Log) -> bool
    requires { IsAccepted machine.now }
{
    if !is_linked(machine, log) {
        return false;
    }
    is_longest_sure(alloc, machine, log) == Ok(true)
        && is_cut_sure(alloc, machine, log) == Ok(false)
}
