//! The links that a file spells: each is tested and read at once.

ghost use Rattle.std.specs.Prelude.{◌≡◌, None, true, map, reverse, codes, IfErr, IfOk};
ghost use Rattle.std.specs.List.{list_all};
ghost use Rattle.borrowed_json.specs.View.{view};
ghost use Rattle.borrowed_json.specs.Look.{list_in};
ghost use Rattle.sleep_model.specs.Order.{parents_of};
ghost use Rattle.file_rules.specs.Devices.{loose_link, whole_devices, whole_links};
ghost use Rattle.file_rules.specs.Kept.{has_end, is_valid_link};
ghost use Rattle.file_rules.specs.Knows.{Knows, names};
ghost use Rattle.file_rules.specs.Names.{devices_named};
ghost use Rattle.file_rules.specs.Operations.{thing_at};
ghost use Rattle.file_rules.specs.Rules.{is_second};
ghost use Rattle.file_rules.specs.Spelled.{link_of};
ghost use Rattle.machine_file.specs.Stopping.{StopsUnless};
ghost use Rattle.file_rules.specs.ValidFiles.{broken_cycle, broken_devices, broken_ends, broken_form, keeps_rules};

use crate::fault::Stop;
use crate::reading::scripts::member_of;
use crate::rules::cycles::{Added, Linking, linking_with, made_at_once};
use borrowed_json::{Value, has_text, may_be_one_of, text_of};
use file_rules::{
    Known, Member, NamedDevices, ends_in, has_link_members, is_second, items, link_states,
    repeated_link, spells_name,
};
use sleep_model::{Link, link_word};
use std::alloc::Global;

/// The number of the device that a link has to name at a member.
fn end_in(link: &Value<'_>, member: &str, devices: &NamedDevices) -> Result<u32, Stop>
    ensures ok { IfOk result (λ n. (has_end member.now (names devices.now) (view link.now) ≡ true) × (n ≡ thing_at member.now (names devices.now) (view link.now))) }
    ensures err { IfErr result (StopsUnless (has_end member.now (names devices.now) (view link.now))) }
{
    let found = member_of(link, member)?;
    if !spells_name(found) {
        return Err(Stop::Broken);
    }
    match devices.find(text_of(found)) {
        Some(number) => Ok(number),
        None => Err(Stop::Broken),
    }
}

/// A link between two of these devices, in a file of version 2 or of version 1.
fn link_in(second: bool, link: &Value<'_>, devices: &NamedDevices) -> Result<Link, Stop>
    ensures valid { IfOk result (λ _. is_valid_link second (names devices.now) (view link.now) ≡ true) }
    ensures spells { IfOk result (λ l. l ≡ link_of (names devices.now) (view link.now)) }
    ensures err { IfErr result (StopsUnless (is_valid_link second (names devices.now) (view link.now))) }
{
    if !has_link_members(link, second) {
        return Err(Stop::Broken);
    }
    if !may_be_one_of(link, "state", &link_states()) {
        return Err(Stop::Broken);
    }
    let supplier = end_in(link, "supplier", devices)?;
    let consumer = end_in(link, "consumer", devices)?;
    Ok(Link {
        supplier,
        consumer,
        active: !has_text(link, "state", link_word(false)),
    })
}

/// The links that these values spell, in a file of version 2 or of version 1.
fn links_in(
    alloc: Global,
    second: bool,
    links: &[Value<'_>],
    devices: &NamedDevices,
) -> Result<Vec<Link>, Stop>
    ensures valid { IfOk result (λ _. list_all (is_valid_link second (names devices.now)) (map view links.now) ≡ true) }
    ensures spells { IfOk result (λ v. v.items ≡ map (link_of (names devices.now)) (map view links.now)) }
    ensures err { IfErr result (StopsUnless (list_all (is_valid_link second (names devices.now)) (map view links.now))) }
{
    let mut all = Vec::with_capacity(alloc, links.len())?;
    for link in links {
        all.push(link_in(second, link, devices)?)?;
    }
    Ok(all)
}

/// The links of a file.
pub(crate) fn links_of_file(
    alloc: Global,
    tree: &Value<'_>,
    known: &Known<'_>,
) -> Result<Vec<Link>, Stop>
    requires { Knows known.now (view tree.now) }
    ensures valid { IfOk result (λ _. list_all (is_valid_link (is_second (view tree.now)) (devices_named (view tree.now))) (list_in (codes "links") (view tree.now)) ≡ true) }
    ensures spelled { IfOk result (λ v. v.items ≡ whole_links (view tree.now)) }
    ensures err { IfErr result (StopsUnless (keeps_rules (view tree.now))) }
{
    links_in(
        alloc,
        is_second(tree),
        items(tree, Member::Links),
        &known.devices,
    )
}

/// Adds these links, of which each is between two devices: mostly all at once.
pub(crate) fn tied_in(
    alloc: Global,
    tree: &Value<'_>,
    known: &Known<'_>,
    links: Vec<Link>,
) -> Result<Linking, Stop>
    requires form { broken_form (view tree.now) ≡ None }
    requires devices { broken_devices (view tree.now) ≡ None }
    requires loose { loose_link (view tree.now) ≡ None }
    requires knows { Knows known.now (view tree.now) }
    requires links { links.items ≡ whole_links (view tree.now) }
    ensures links { IfOk result (λ l. l.links.items ≡ whole_links (view tree.now)) }
    ensures added { IfOk result (λ l. l.added.links ≡ record { parents = parents_of (whole_devices (view tree.now)); links = reverse (whole_links (view tree.now)) }) }
    ensures ends { IfOk result (λ _. broken_ends (view tree.now) ≡ None) }
    ensures cycle { IfOk result (λ _. broken_cycle (view tree.now) ≡ None) }
    ensures err { IfErr result (StopsUnless (keeps_rules (view tree.now))) }
{
    match made_at_once(alloc, tree, known, &links)? {
        Some(made) => Ok(Linking {
            links,
            added: Added {
                links: made,
                cycle: None,
            },
        }),
        None => tied_in_turn(alloc, tree, known, links),
    }
}

/// Adds these links, which cannot all be made at once.
fn tied_in_turn(
    alloc: Global,
    tree: &Value<'_>,
    known: &Known<'_>,
    links: Vec<Link>,
) -> Result<Linking, Stop>
    requires form { broken_form (view tree.now) ≡ None }
    requires devices { broken_devices (view tree.now) ≡ None }
    requires loose { loose_link (view tree.now) ≡ None }
    requires knows { Knows known.now (view tree.now) }
    requires links { links.items ≡ whole_links (view tree.now) }
    ensures links { IfOk result (λ l. l.links.items ≡ whole_links (view tree.now)) }
    ensures added { IfOk result (λ l. l.added.links ≡ record { parents = parents_of (whole_devices (view tree.now)); links = reverse (whole_links (view tree.now)) }) }
    ensures ends { IfOk result (λ _. broken_ends (view tree.now) ≡ None) }
    ensures cycle { IfOk result (λ _. broken_cycle (view tree.now) ≡ None) }
    ensures err { IfErr result (StopsUnless (keeps_rules (view tree.now))) }
{
    let ends = ends_in(alloc, tree)?;
    let again = repeated_link(alloc, tree, &ends)?;
    match again {
        None => acyclic_in(alloc, tree, known, links),
        Some(_) => Err(Stop::Broken),
    }
}

/// Adds these links, of which each is new.
fn acyclic_in(
    alloc: Global,
    tree: &Value<'_>,
    known: &Known<'_>,
    links: Vec<Link>,
) -> Result<Linking, Stop>
    requires form { broken_form (view tree.now) ≡ None }
    requires devices { broken_devices (view tree.now) ≡ None }
    requires ends { broken_ends (view tree.now) ≡ None }
    requires knows { Knows known.now (view tree.now) }
    requires links { links.items ≡ whole_links (view tree.now) }
    ensures links { IfOk result (λ l. l.links.items ≡ whole_links (view tree.now)) }
    ensures added { IfOk result (λ l. l.added.links ≡ record { parents = parents_of (whole_devices (view tree.now)); links = reverse (whole_links (view tree.now)) }) }
    ensures ends { IfOk result (λ _. broken_ends (view tree.now) ≡ None) }
    ensures cycle { IfOk result (λ _. broken_cycle (view tree.now) ≡ None) }
    ensures err { IfErr result (StopsUnless (keeps_rules (view tree.now))) }
{
    let linking = linking_with(alloc, tree, known, links)?;
    match linking.added.cycle {
        None => Ok(linking),
        Some(_) => {
            drop(linking);
            Err(Stop::Broken)
        }
    }
}
