//! The links that a log adds, each tried after those of its machine.

ghost use Rattle.std.specs.Prelude.{◌≡◌, ◌<◌, None, Some, IfErr, OnOk, length, reverse};
ghost use Rattle.sleep_model.specs.declared.entry.Kind.TheVariants.{LinkAdd};
ghost use Rattle.device_links.specs.Passes.{CanBeAdded};
ghost use Rattle.sleep_stats.specs.Linked.{added_by};
ghost use Rattle.program_ending.specs.CommandEndings.{Refuses};
ghost use Rattle.log_commands.specs.Taking.{AddsWithin, AllWithin, IsTaken, LinksAreOrdered, refusal_at, refusal_of};

use device_links::{LinkFault, Links};
use program_ending::{Ending, Refusal};
use sleep_model::{Kind, Log};
use sleep_stats::{Ends, added_ends};

/// Adds a link that is active. One that is there already is passed over.
fn add_link(links: &mut Links, supplier: u32, consumer: u32) -> Result<(), Ending>
    requires stands { LinksAreOrdered links.old }
    requires supplier { supplier < length links.old.parents }
    requires consumer { consumer < length links.old.parents }
    ensures taken { OnOk result (IsTaken links.old links.new (LinkAdd supplier consumer None)) }
    ensures refused { IfErr result (Refuses (λ r.
        refusal_at links.old.parents (reverse links.old.links) (LinkAdd supplier consumer None) ≡ Some r)) }
{
    match links.add(supplier, consumer) {
        Ok(()) => Ok(()),
        Err(LinkFault::Twice) => Ok(()),
        Err(LinkFault::TooMany) => Err(Ending::Refused(Refusal::TooManyLinks)),
        Err(LinkFault::Cycle(_)) => Err(Ending::Refused(Refusal::LinkCycle)),
        Err(LinkFault::Mem) => Err(Ending::NoMemory),
        Err(LinkFault::NoDevice | LinkFault::NoLink) => unreachable!(),
    }
}

/// Adds the link that an entry adds.
fn take_link(links: &mut Links, kind: Kind) -> Result<(), Ending>
    requires stands { LinksAreOrdered links.old }
    requires within { AddsWithin (length links.old.parents) kind }
    ensures taken { OnOk result (IsTaken links.old links.new kind) }
    ensures refused { IfErr result (Refuses (λ r.
        refusal_at links.old.parents (reverse links.old.links) kind ≡ Some r)) }
{
    match added_ends(kind) {
        Some(Ends { supplier, consumer }) => add_link(links, supplier, consumer),
        None => Ok(()),
    }
}

/// Tries the links that a log adds, in turn after those that there are. `TooManyLinks` if there are 4,000
/// before an entry that adds one, `LinkCycle` if there are fewer and it closes a cycle: the first entry of
/// which either is so.
pub(crate) fn take_links(links: Links, log: &Log) -> Result<(), Ending>
    requires stands { LinksAreOrdered links }
    requires within { AllWithin (length links.parents) log.now.entries }
    ensures taken { OnOk result (refusal_of links.parents (reverse links.links) log.now.entries ≡ None) }
    ensures stand { OnOk result (CanBeAdded links.parents (added_by (reverse links.links) log.now.entries)) }
    ensures refused { IfErr result (Refuses (λ r.
        refusal_of links.parents (reverse links.links) log.now.entries ≡ Some r)) }
{
    let mut links = links;
    let mut reader = log.entries.reader();
    while let Some(entry) = reader.next() {
        if let Err(ending) = take_link(&mut links, entry.kind) {
            drop(links);
            return Err(ending);
        }
    }
    drop(links);
    Ok(())
}
