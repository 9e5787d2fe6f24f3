//! The machine of a file. A link, an operation and an answer are each tested as they are read.

ghost use Rattle.std.specs.Prelude.{◌≡◌, None, option_map, reverse, IfErr, IfOk};
ghost use Rattle.borrowed_json.specs.View.{view};
ghost use Rattle.sleep_model.specs.Order.{parents_of};
ghost use Rattle.file_rules.specs.Broken.{broken_view};
ghost use Rattle.file_rules.specs.Devices.{loose_link, whole_devices, whole_links};
ghost use Rattle.file_rules.specs.Knows.{Knows};
ghost use Rattle.machine_file.specs.Reading.{Reads};
ghost use Rattle.machine_file.specs.Stopping.{StopsUnless};
ghost use Rattle.file_rules.specs.ValidFiles.{broken_cycle, broken_devices, broken_ends, broken_form, broken_head, keeps_rules};

use crate::ReadMachine;
use crate::fault::Stop;
use crate::reading::links::{links_of_file, tied_in};
use crate::reading::machine::{Parts, rest_in};
use crate::reading::whole::read_of;
use crate::rules::cycles::Linking;
use borrowed_json::Value;
use file_rules::{Broken, Known, head_broken, known_of_file};
use sleep_model::Link;
use std::alloc::Global;

/// The first rule on form that is broken, but for links.
#[tactic(auto, unfolding(file_rules::specs::ValidFiles::broken_head))]
fn first_of_head(tree: &Value<'_>) -> Option<Broken>
    ensures { option_map broken_view result ≡ broken_head (view tree.now) }
{
    head_broken(tree)
}

/// A file's machine, and its links added in turn. Reading stops at what breaks a rule.
pub(crate) fn machine_in(alloc: Global, tree: &Value<'_>) -> Result<ReadMachine, Stop>
    ensures ok { IfOk result (Reads (view tree.now)) }
    ensures err { IfErr result (StopsUnless (keeps_rules (view tree.now))) }
{
    match first_of_head(tree) {
        Some(_) => Err(Stop::Broken),
        None => read_headed(alloc, tree),
    }
}

/// Reads a file that keeps the rules on form, but for links. Only it owns the names of its things, and drops
/// them at one exit.
fn read_headed(alloc: Global, tree: &Value<'_>) -> Result<ReadMachine, Stop>
    requires { broken_head (view tree.now) ≡ None }
    ensures ok { IfOk result (Reads (view tree.now)) }
    ensures err { IfErr result (StopsUnless (keeps_rules (view tree.now))) }
{
    match known_of_file(alloc, tree)? {
        Ok(known) => {
            let read = read_known(alloc, tree, &known);
            drop(known);
            read
        }
        Err(_) => Err(Stop::Broken),
    }
}

/// Reads it by the names of its things.
fn read_known(alloc: Global, tree: &Value<'_>, known: &Known<'_>) -> Result<ReadMachine, Stop>
    requires head { broken_head (view tree.now) ≡ None }
    requires devices { broken_devices (view tree.now) ≡ None }
    requires knows { Knows known.now (view tree.now) }
    ensures ok { IfOk result (Reads (view tree.now)) }
    ensures err { IfErr result (StopsUnless (keeps_rules (view tree.now))) }
{
    match links_of_file(alloc, tree, known) {
        Ok(links) => read_linked(alloc, tree, known, links),
        Err(stop) => Err(stop),
    }
}

/// Reads it with these links.
fn read_linked(
    alloc: Global,
    tree: &Value<'_>,
    known: &Known<'_>,
    links: Vec<Link>,
) -> Result<ReadMachine, Stop>
    requires form { broken_form (view tree.now) ≡ None }
    requires devices { broken_devices (view tree.now) ≡ None }
    requires loose { loose_link (view tree.now) ≡ None }
    requires knows { Knows known.now (view tree.now) }
    requires links { links.items ≡ whole_links (view tree.now) }
    ensures ok { IfOk result (Reads (view tree.now)) }
    ensures err { IfErr result (StopsUnless (keeps_rules (view tree.now))) }
{
    match tied_in(alloc, tree, known, links) {
        Ok(linking) => read_tied(alloc, tree, known, linking),
        Err(stop) => Err(stop),
    }
}

/// Reads it with these links, which are added.
fn read_tied(
    alloc: Global,
    tree: &Value<'_>,
    known: &Known<'_>,
    linking: Linking,
) -> Result<ReadMachine, Stop>
    requires form { broken_form (view tree.now) ≡ None }
    requires devices { broken_devices (view tree.now) ≡ None }
    requires ends { broken_ends (view tree.now) ≡ None }
    requires cycle { broken_cycle (view tree.now) ≡ None }
    requires knows { Knows known.now (view tree.now) }
    requires links { linking.links.items ≡ whole_links (view tree.now) }
    requires added { linking.added.links ≡ record { parents = parents_of (whole_devices (view tree.now)); links = reverse (whole_links (view tree.now)) } }
    ensures ok { IfOk result (Reads (view tree.now)) }
    ensures err { IfErr result (StopsUnless (keeps_rules (view tree.now))) }
{
    let Ok(behaviour) = rest_in(alloc, tree, known) else {
        drop(linking);
        return Err(Stop::Mem);
    };
    match behaviour {
        Ok(behaviour) => Ok(read_of(alloc, tree, known, Parts { linking, behaviour })?),
        Err(_) => {
            drop(linking);
            Err(Stop::Broken)
        }
    }
}
