//! The links between the devices of a file, and the first that closes a cycle.

ghost use Rattle.std.specs.Prelude.{◌≡◌, ◌≤◌, [], map, reverse, length, position, bytes_eq, codes, IfOk, IfSome, None};
ghost use Rattle.borrowed_json.specs.View.{view};
ghost use Rattle.file_rules.specs.Spelled.{index_among};
ghost use Rattle.sleep_model.specs.Order.{EachAfterParent, parents_of};
ghost use Rattle.borrowed_json.specs.Look.{list_in};
ghost use Rattle.file_rules.specs.Devices.{whole_devices, whole_links, closes_no_cycle, loose_link};
ghost use Rattle.file_rules.specs.ValidFiles.{broken_cycle, broken_devices, broken_ends};
ghost use Rattle.file_rules.specs.Joined.{AreJoined};
ghost use Rattle.file_rules.specs.Places.{first_not_after};
ghost use Rattle.file_rules.specs.Fresh.{AreFresh, closes_nothing};
ghost use Rattle.file_rules.specs.Seen.{AreNumbersOf, link_at, links_between};
ghost use Rattle.file_rules.specs.Knows.{Knows, texts};

use borrowed_json::{Value, has_text};
use device_links::{LinkFault, Links};
use file_rules::{EndNumbers, Known, Member, index_of_name, items};
use key_index::KeyIndex;
use sleep_base::{Mem, drop_for_mem};
use sleep_model::{Link, link_word, parents_of};
use std::alloc::Global;

/// The place of a name among these, and 0 if it is none of them.
pub(crate) fn index_among(names: &KeyIndex<&str>, name: &str) -> usize
    ensures place { result ≡ index_among (texts names.now) name.now }
    ensures within { result ≤ length names.now }
{
    index_of_name(names, name).unwrap_or(0)
}

/// A link between these places.
fn link_of(link: &Value<'_>, places: EndNumbers) -> Link
    ensures { result ≡ link_at places (view link.now) }
{
    Link {
        supplier: places.supplier.unwrap_or(0),
        consumer: places.consumer.unwrap_or(0),
        active: !has_text(link, "state", link_word(false)),
    }
}

/// The links of a file, whose ends have these numbers.
pub(crate) fn links_of(
    alloc: Global,
    links: &[Value<'_>],
    places: &[EndNumbers],
) -> Result<Vec<Link>, Mem>
    requires { length places.now ≡ length links.now }
    ensures { IfOk result (λ v. v.items ≡ links_between places.now (map view links.now)) }
{
    let mut all = Vec::with_capacity(alloc, links.len())?;
    for i in 0..links.len() {
        all.push(link_of(&links[i], places[i]))?;
    }
    Ok(all)
}

/// Links that were added in turn, and the number of the first that closes a cycle.
#[derive(Drop)]
pub(crate) struct Added {
    pub(crate) links: Links,
    pub(crate) cycle: Option<usize>,
}

/// Adds links, up to the first that closes a cycle. Links of which none does are made at once; only for
/// others are they added in turn, to find which is the first.
pub(crate) fn add_links(
    alloc: Global,
    parents: &[Option<u32>],
    links: &[Link],
) -> Result<Added, Mem>
    requires after { EachAfterParent 0 parents.now }
    requires fresh { AreFresh parents.now links.now }
    ensures cycle { IfOk result (λ a. a.cycle ≡ first_not_after (closes_nothing parents.now) [] 0 links.now) }
    ensures added { IfOk result (λ a. a.cycle ≡ None → a.links ≡ record { parents = parents.now; links = reverse links.now }) }
{
    if let Some(all) = Links::with_links(alloc, parents, links)? {
        return Ok(Added {
            links: all,
            cycle: None,
        });
    }
    let mut added = Links::new(alloc, parents)?;
    for i in 0..links.len() {
        let link = &links[i];
        match added.add_as(link.supplier, link.consumer, link.active) {
            Ok(()) => (),
            Err(LinkFault::Cycle(_)) => {
                return Ok(Added {
                    links: added,
                    cycle: Some(i),
                });
            }
            Err(LinkFault::Mem) => return Err(drop_for_mem(added)),
            Err(_) => unreachable!(),
        }
    }
    Ok(Added {
        links: added,
        cycle: None,
    })
}

/// The links of a file, and what came of adding them.
#[derive(Drop)]
pub(crate) struct Linking {
    pub(crate) links: Vec<Link>,
    pub(crate) added: Added,
}

/// Adds the links of a file.
pub(crate) fn linking_of(
    alloc: Global,
    tree: &Value<'_>,
    known: &Known<'_>,
    places: &[EndNumbers],
) -> Result<Linking, Mem>
    requires knows { Knows known.now (view tree.now) }
    requires placed { AreNumbersOf places.now (view tree.now) }
    requires joined { AreJoined (view tree.now) }
    ensures links { IfOk result (λ l. l.links.items ≡ whole_links (view tree.now)) }
    ensures cycle { IfOk result (λ l. l.added.cycle ≡
        first_not_after (closes_no_cycle (view tree.now)) [] 0 (list_in (codes "links") (view tree.now))) }
    ensures added { IfOk result (λ l. l.added.cycle ≡ None → l.added.links ≡
        record { parents = parents_of (whole_devices (view tree.now)); links = reverse (whole_links (view tree.now)) }) }
{
    let links = links_in(alloc, tree, places)?;
    linking_with(alloc, tree, known, links)
}

/// Adds these links of a file.
pub(crate) fn linking_with(
    alloc: Global,
    _tree: &Value<'_>,
    known: &Known<'_>,
    links: Vec<Link>,
) -> Result<Linking, Mem>
    requires knows { Knows known.now (view _tree.now) }
    requires links { links.items ≡ whole_links (view _tree.now) }
    requires joined { AreJoined (view _tree.now) }
    ensures links { IfOk result (λ l. l.links.items ≡ whole_links (view _tree.now)) }
    ensures cycle { IfOk result (λ l. l.added.cycle ≡
        first_not_after (closes_no_cycle (view _tree.now)) [] 0 (list_in (codes "links") (view _tree.now))) }
    ensures added { IfOk result (λ l. l.added.cycle ≡ None → l.added.links ≡
        record { parents = parents_of (whole_devices (view _tree.now)); links = reverse (whole_links (view _tree.now)) }) }
{
    let parents = parents_of(alloc, known.devices.all())?;
    let added = add_links(alloc, &parents, &links)?;
    Ok(Linking { links, added })
}

/// The links of a file, if they can be made at once: then no rule on their ends and on cycles is broken.
pub(crate) fn made_at_once(
    alloc: Global,
    _tree: &Value<'_>,
    known: &Known<'_>,
    links: &[Link],
) -> Result<Option<Links>, Mem>
    requires devices { broken_devices (view _tree.now) ≡ None }
    requires loose { loose_link (view _tree.now) ≡ None }
    requires knows { Knows known.now (view _tree.now) }
    requires links { links.now ≡ whole_links (view _tree.now) }
    ensures made { IfOk result (λ o. IfSome o (λ l. l ≡ record { parents = parents_of (whole_devices (view _tree.now)); links = reverse (whole_links (view _tree.now)) })) }
    ensures ends { IfOk result (λ o. IfSome o (λ _. broken_ends (view _tree.now) ≡ None)) }
    ensures cycle { IfOk result (λ o. IfSome o (λ _. broken_cycle (view _tree.now) ≡ None)) }
{
    let parents = parents_of(alloc, known.devices.all())?;
    let made = Links::with_links(alloc, &parents, links)?;
    Ok(made)
}

fn links_in(alloc: Global, tree: &Value<'_>, places: &[EndNumbers]) -> Result<Vec<Link>, Mem>
    requires { AreNumbersOf places.now (view tree.now) }
    ensures { IfOk result (λ v. v.items ≡ whole_links (view tree.now)) }
{
    let links = links_of(alloc, items(tree, Member::Links), places)?;
    Ok(links)
}
