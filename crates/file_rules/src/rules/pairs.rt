//! The ends of links.

ghost use Rattle.std.specs.Prelude.{◌≡◌, ◌≤◌, ◌&&◌, [], not, map, take, bytes_eq, codes, is_some, length, IfOk, position};
ghost use Rattle.std.specs.List.{list_any};
ghost use Rattle.borrowed_json.specs.View.{view};
ghost use Rattle.borrowed_json.specs.Look.{is_none_or, text_at};
ghost use Rattle.file_rules.specs.Places.{first_not, first_not_after};
ghost use Rattle.file_rules.specs.Devices.{loose_link, repeated_link};
ghost use Rattle.file_rules.specs.Knows.{Knows, names};
ghost use Rattle.file_rules.specs.Seen.{ends_seen, ends_written, differ, same_ends, end_numbers, are_devices, AreEnds, AreNumbersOf};
ghost use Rattle.file_rules.specs.Broken.{place_of};

use crate::names::devices::NamedDevices;
use crate::names::known::{Known, item};
use crate::value::place::{Member, Place, items};
use borrowed_json::{Value, text_at, word_at};
use indexmap::IndexMap;
use sleep_base::{Mem, drop_for_mem};
use std::alloc::Global;

/// The ends of a link, by name.
#[derive(Clone, Copy, PartialEq, Eq, Hash)]
pub struct LinkEnds<'v> {
    pub supplier: &'v str,
    pub consumer: &'v str,
}

/// The ends of links, as texts.
fn ends_of<'v>(alloc: Global, links: &[Value<'v>]) -> Result<Vec<LinkEnds<'v>>, Mem>
    ensures { IfOk result (λ v. map ends_seen v.items ≡ map ends_written (map view links.now)) }
{
    let mut ends = Vec::with_capacity(alloc, links.len())?;
    for link in links {
        ends.push(LinkEnds {
            supplier: text_at(link, "supplier"),
            consumer: text_at(link, "consumer"),
        })?;
    }
    Ok(ends)
}

/// The ends of the links of a file.
pub fn ends_in<'v>(alloc: Global, tree: &Value<'v>) -> Result<Vec<LinkEnds<'v>>, Mem>
    ensures { IfOk result (λ v. AreEnds v.items (view tree.now)) }
{
    let ends = ends_of(alloc, items(tree, Member::Links))?;
    Ok(ends)
}

/// The numbers of the devices that are a link's ends, if they are devices.
#[derive(Clone, Copy)]
pub struct EndNumbers {
    pub supplier: Option<u32>,
    pub consumer: Option<u32>,
}

fn place_of(ends: &LinkEnds<'_>, devices: &NamedDevices) -> EndNumbers
    ensures { result ≡ end_numbers (names devices.now) (ends_seen ends.now) }
{
    EndNumbers {
        supplier: devices.find(ends.supplier),
        consumer: devices.find(ends.consumer),
    }
}

fn numbers_of_all(
    alloc: Global,
    ends: &[LinkEnds<'_>],
    devices: &NamedDevices,
) -> Result<Vec<EndNumbers>, Mem>
    ensures { IfOk result (λ v. v.items ≡ map (end_numbers (names devices.now)) (map ends_seen ends.now)) }
{
    let mut places = Vec::with_capacity(alloc, ends.len())?;
    for link in ends {
        places.push(place_of(link, devices))?;
    }
    Ok(places)
}

/// The numbers of the devices that are the ends of a file's links.
pub fn numbers_in(
    alloc: Global,
    _tree: &Value<'_>,
    known: &Known<'_>,
    ends: &[LinkEnds<'_>],
) -> Result<Vec<EndNumbers>, Mem>
    requires knows { Knows known.now (view _tree.now) }
    requires ends { AreEnds ends.now (view _tree.now) }
    ensures { IfOk result (λ v. AreNumbersOf v.items (view _tree.now)) }
{
    let places = numbers_of_all(alloc, ends, &known.devices)?;
    Ok(places)
}

fn are_devices(places: &EndNumbers) -> bool
    ensures { result ≡ are_devices places.now }
{
    places.supplier.is_some() && places.consumer.is_some()
}

fn first_loose(places: &[EndNumbers]) -> Option<usize>
    ensures { result ≡ position (λ p. not (are_devices p)) places.now }
{
    places.iter().position(|link| !are_devices(link))
}

/// The first link of which an end is no device.
pub(crate) fn loose_link(_tree: &Value<'_>, places: &[EndNumbers]) -> Option<Place>
    requires { AreNumbersOf places.now (view _tree.now) }
    ensures { place_of result ≡ loose_link (view _tree.now) }
{
    item(Member::Links, first_loose(places))
}

/// Whether the ends are one, or have been seen before.
fn is_again(key: &LinkEnds, before: Option<usize>) -> bool
    ensures { result ≡ not (differ (ends_seen key.now) && not (is_some before)) }
{
    key.supplier == key.consumer || before.is_some()
}

/// The first ends that are the same one, or that come before.
fn first_again(alloc: Global, ends: &[LinkEnds]) -> Result<Option<usize>, Mem>
    ensures { IfOk result (λ n. n ≡ first_not_after (λ before e. differ (ends_seen e)
        && not (list_any (λ f. same_ends (ends_seen e) (ends_seen f)) before)) [] 0 ends.now) }
{
    let mut seen = IndexMap::with_capacity(alloc, ends.len())?;
    for i in 0..ends.len() {
        let key = ends[i];
        let Ok(before) = seen.insert(key, i) else {
            return Err(drop_for_mem(seen));
        };
        if is_again(&key, before) {
            drop(seen);
            return Ok(Some(i));
        }
    }
    drop(seen);
    Ok(None)
}

/// The first link that has only one end, or that comes before.
pub fn repeated_link(
    alloc: Global,
    _tree: &Value<'_>,
    ends: &[LinkEnds],
) -> Result<Option<Place>, Mem>
    requires { AreEnds ends.now (view _tree.now) }
    ensures { IfOk result (λ p. place_of p ≡ repeated_link (view _tree.now)) }
{
    let number = first_again(alloc, ends)?;
    Ok(item(Member::Links, number))
}
