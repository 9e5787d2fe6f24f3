//! A machine file is read, or refused by the first rule that it breaks.
pub(crate) mod links;
pub(crate) mod machine;
pub(crate) mod notifiers;
pub(crate) mod once;
pub(crate) mod replies;
pub(crate) mod scripts;
pub(crate) mod texts;
pub(crate) mod whole;

ghost use Rattle.std.specs.Prelude.{◌≡◌, ◌++◌, codes, false, Some, None, IfOk, IfErr, string_bytes};
ghost use Rattle.borrowed_json.specs.View.{view};
ghost use Rattle.sleep_model.specs.Accepted.{IsAccepted};
ghost use Rattle.file_rules.specs.Whole.{machine_in};
ghost use Rattle.file_rules.specs.ValidFiles.{keeps_rules};
ghost use Rattle.machine_file.specs.Reading.{links_among, Reads};
ghost use Rattle.machine_file.specs.Refusing.{Names, Refuses, RefusesValue};
ghost use Rattle.file_rules.specs.Places.{item_place};
ghost use Rattle.file_rules.specs.Broken.{broken_view, place_text};

use crate::fault::{MachineFault, Stop};
use crate::reading::once::machine_in;
use crate::rules::first::first_broken;
use borrowed_json::{Scratch, Value};
use device_links::Links;
use file_rules::{Broken, Place, tree_of};
use sleep_model::Machine;
use std::alloc::{AllocError, Global};

/// A machine that was read, and the links between its devices, added in turn.
#[derive(Drop)]
pub struct ReadMachine {
    pub machine: Machine,
    pub links: Links,
}

/// The machine that the bytes of a machine file spell, with its links.
///
/// `Rule`: the bytes break a rule of the format; the first broken one, and its first place.
/// `Mem`: memory ran out.
pub fn read_machine(alloc: Global, bytes: &[u8]) -> Result<ReadMachine, MachineFault>
    // What is read is what the bytes spell.
    ensures spells { IfOk result (λ r. machine_in bytes.now ≡ Some r.machine) }
    ensures links { IfOk result (λ r. r.links ≡ links_among r.machine) }
    // It is a machine that a file may spell.
    ensures accepted { IfOk result (λ r. IsAccepted r.machine) }
    // What is refused breaks that rule first, and there.
    ensures refused { IfErr result (Refuses bytes.now) }
{
    let mut scratch = Scratch::new(alloc);
    match tree_of(alloc, bytes, &mut scratch)? {
        Some(tree) => read_tree(alloc, &tree),
        None => Err(fault_of(
            alloc,
            Broken {
                rule: 1,
                place: Place::Json,
            },
        )),
    }
}

/// Reads the tree once. The first broken rule is searched for only if the reading stops.
fn read_tree(alloc: Global, tree: &Value<'_>) -> Result<ReadMachine, MachineFault>
    ensures ok { IfOk result (Reads (view tree.now)) }
    ensures err { IfErr result (RefusesValue (view tree.now)) }
{
    match machine_in(alloc, tree) {
        Ok(read) => Ok(read),
        Err(Stop::Broken) => Err(refusal_of(alloc, tree)),
        Err(Stop::Mem) => Err(MachineFault::Mem),
    }
}

/// Why a file that breaks a rule is refused.
fn refusal_of(alloc: Global, tree: &Value<'_>) -> MachineFault
    requires { keeps_rules (view tree.now) ≡ false }
    ensures { RefusesValue (view tree.now) result }
{
    let Ok(broken) = first_broken(alloc, tree) else {
        return MachineFault::Mem;
    };
    match broken {
        Some(broken) => fault_of(alloc, broken),
        None => unreachable!(),
    }
}

/// That a rule is broken, with its place as a text.
fn fault_of(alloc: Global, broken: Broken) -> MachineFault
    ensures { Names result (broken_view broken) }
{
    match text_of_place(alloc, broken.place) {
        Ok(place) => MachineFault::Rule {
            rule: broken.rule,
            place,
        },
        Err(_) => MachineFault::Mem,
    }
}

/// The text of a place.
fn text_of_place(alloc: Global, place: Place) -> Result<String, AllocError>
    ensures { IfOk result (λ s. string_bytes s ≡ place_text place) }
{
    match place {
        Place::Json => String::from_str(alloc, "json"),
        Place::Top => String::from_str(alloc, "top"),
        Place::Member(member) => String::from_str(alloc, member.name()),
        Place::Item(member, number) => text_of_item(alloc, member.name(), number),
        Place::Operation(actor, number) => {
            let actor = text_of_item(alloc, "actors", actor)?;
            let step = text_of_item(alloc, "script", number)?;
            joined(alloc, actor.as_str(), step.as_str())
        }
    }
}

/// The text of the place of an item.
fn text_of_item(alloc: Global, list: &str, number: usize) -> Result<String, AllocError>
    ensures { IfOk result (λ s. string_bytes s ≡ item_place list.now number) }
{
    let digits = format!(in alloc; "{number}")?;
    let mut text = String::from_str(alloc, list)?;
    text.push_str("[")?;
    text.push_str(digits.as_str())?;
    text.push_str("]")?;
    Ok(text)
}

fn joined(alloc: Global, one: &str, other: &str) -> Result<String, AllocError>
    ensures { IfOk result (λ s. string_bytes s ≡ one.now ++ codes "." ++ other.now) }
{
    format!(in alloc; "{one}.{other}")
}
