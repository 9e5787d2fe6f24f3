//! The names of the things of a file, and the rules by which they differ.

ghost use Rattle.std.specs.Prelude.{◌≡◌, ◌≤◌, ◌-◌, ◌∷◌, [], not, map, take, bytes_eq, codes, length, ◌<◌, IfErr, IfOk, IfSome, Some, None, position, option_map};
ghost use Rattle.borrowed_json.specs.View.{view};
ghost use Rattle.file_rules.specs.Places.{item_place, first_not, first_not_after};
ghost use Rattle.file_rules.specs.Names.{names_in, texts_in, is_among_names, repeated, repeated_callback, repeated_source};
ghost use Rattle.file_rules.specs.Devices.{whole_devices};
ghost use Rattle.file_rules.specs.Operations.{whole_marks};
ghost use Rattle.file_rules.specs.Knows.{Knows, texts};
ghost use Rattle.file_rules.specs.Broken.{broken_view, member_name, place_of};
ghost use Rattle.file_rules.specs.Fitting.{HasDevices};
ghost use Rattle.file_rules.specs.ValidFiles.{broken_devices};

use crate::names::devices::{NamedDevices, devices_in};
use crate::names::marks::marks_in;
use crate::names::{first_repeated, names_in, texts_in};
use crate::rules::Broken;
use crate::value::place::{Member, Place};
use borrowed_json::Value;
use key_index::KeyIndex;
use sleep_base::{Mem, drop_for_mem};
use sleep_model::AUTOSLEEP;
use std::alloc::Global;

/// The names of the things of a file, by kind.
#[derive(Drop)]
pub struct Known<'v> {
    /// The devices, by name and number.
    pub devices: NamedDevices<'v>,
    pub syscore: KeyIndex<&'v str>,
    pub notifiers: KeyIndex<&'v str>,
    pub sources: KeyIndex<&'v str>,
    /// The marks of scripts, in the order of their first use.
    pub marks: KeyIndex<&'v str>,
}

/// The names of a list of objects, each with its place.
pub(crate) fn named_in<'v>(
    alloc: Global,
    tree: &Value<'v>,
    list: Member,
) -> Result<KeyIndex<&'v str>, Mem>
    ensures { IfOk result (λ p. texts p ≡ names_in (member_name list) (view tree.now)) }
{
    let names = names_in(alloc, tree, list)?;
    KeyIndex::new(alloc, names)
}

/// The names of a list of names, each with its place.
fn listed_names<'v>(alloc: Global, tree: &Value<'v>, list: Member) -> Result<KeyIndex<&'v str>, Mem>
    ensures { IfOk result (λ p. texts p ≡ texts_in (member_name list) (view tree.now)) }
{
    let names = texts_in(alloc, tree, list)?;
    KeyIndex::new(alloc, names)
}

/// The marks of scripts, each with its place.
fn marked_in<'v>(alloc: Global, tree: &Value<'v>) -> Result<KeyIndex<&'v str>, Mem>
    ensures { IfOk result (λ p. texts p ≡ whole_marks (view tree.now)) }
{
    let marks = marks_in(alloc, tree)?;
    KeyIndex::new(alloc, marks)
}

/// The names of the things of a file, or the first rule on devices that is broken.
pub fn known_of_file<'v>(alloc: Global, tree: &Value<'v>) -> Result<Result<Known<'v>, Broken>, Mem>
    requires { HasDevices (view tree.now) }
    ensures broken { IfOk result (λ r. IfErr r (λ b. broken_devices (view tree.now) ≡ Some (broken_view b))) }
    ensures unbroken { IfOk result (λ r. IfOk r (λ _. broken_devices (view tree.now) ≡ None)) }
    ensures knows { IfOk result (λ r. IfOk r (λ k. Knows k (view tree.now))) }
{
    match devices_in(alloc, tree)? {
        Ok(devices) => Ok(Ok(known_in(alloc, tree, devices)?)),
        Err(broken) => Ok(Err(broken)),
    }
}

/// The names of the things of a file, whose devices these are.
fn known_in<'v>(
    alloc: Global,
    tree: &Value<'v>,
    devices: NamedDevices<'v>,
) -> Result<Known<'v>, Mem>
    requires { devices ≡ whole_devices (view tree.now) }
    ensures { IfOk result (λ k. Knows k (view tree.now)) }
{
    let Ok(syscore) = listed_names(alloc, tree, Member::Syscore) else {
        return Err(drop_for_mem(devices));
    };
    let Ok(notifiers) = named_in(alloc, tree, Member::Notifiers) else {
        return Err(drop_for_mem((devices, syscore)));
    };
    let Ok(sources) = listed_names(alloc, tree, Member::Sources) else {
        return Err(drop_for_mem((devices, syscore, notifiers)));
    };
    let Ok(marks) = marked_in(alloc, tree) else {
        return Err(drop_for_mem((devices, syscore, notifiers, sources)));
    };
    Ok(Known {
        devices,
        syscore,
        notifiers,
        sources,
        marks,
    })
}

/// The place of an item of that number, if there is one.
pub(crate) fn item(list: Member, number: Option<usize>) -> Option<Place>
    ensures { place_of result ≡ option_map (item_place (member_name list)) number }
{
    match number {
        Some(number) => Some(Place::Item(list, number)),
        None => None,
    }
}

/// The first syscore callback or notifier that has another's name.
pub(crate) fn repeated_callback(_tree: &Value<'_>, known: &Known) -> Option<Place>
    requires { Knows known.now (view _tree.now) }
    ensures { place_of result ≡ repeated_callback (view _tree.now) }
{
    match first_repeated(&known.syscore) {
        Some(number) => Some(Place::Item(Member::Syscore, number)),
        None => item(Member::Notifiers, first_repeated(&known.notifiers)),
    }
}

/// The first source that has another's name, or that of autosleep's own.
pub(crate) fn repeated_source(alloc: Global, tree: &Value<'_>) -> Result<Option<Place>, Mem>
    ensures { IfOk result (λ p. place_of p ≡ repeated_source (view tree.now)) }
{
    let sources = texts_in(alloc, tree, Member::Sources)?;
    let number = first_reserved(alloc, AUTOSLEEP, &sources)?;
    Ok(item(Member::Sources, number))
}

/// The first name that comes before, or that is reserved.
fn first_reserved<'x>(
    alloc: Global,
    reserved: &'x str,
    names: &[&'x str],
) -> Result<Option<usize>, Mem>
    ensures { IfOk result (λ n. n ≡ first_not_after
        (λ before name. not (is_among_names (reserved.now ∷ before) name)) [] 0 (texts names.now)) }
{
    let all = after_reserved(alloc, reserved, names)?;
    let all = KeyIndex::new(alloc, all)?;
    let number = one_less(first_repeated(&all));
    drop(all);
    Ok(number)
}

/// The reserved name, and these after it.
fn after_reserved<'x>(
    alloc: Global,
    reserved: &'x str,
    names: &[&'x str],
) -> Result<Vec<&'x str>, Mem>
    ensures { IfOk result (λ v. texts v.items ≡ reserved.now ∷ texts names.now) }
{
    let mut all = Vec::with_capacity(alloc, 1)?;
    all.push(reserved)?;
    all.extend_from_slice(names)?;
    Ok(all)
}

/// The number of the name that comes again, not counting the reserved one.
fn one_less(number: Option<usize>) -> Option<usize>
    ensures { result ≡ option_map (λ k. k - 1) number }
{
    match number {
        Some(number) => Some(number.saturating_sub(1)),
        None => None,
    }
}

/// The first of a list of objects that has another's name.
pub(crate) fn repeated(alloc: Global, tree: &Value<'_>, list: Member) -> Result<Option<Place>, Mem>
    ensures { IfOk result (λ p. place_of p ≡ repeated (member_name list) (names_in (member_name list) (view tree.now))) }
{
    let names = named_in(alloc, tree, list)?;
    let number = first_repeated(&names);
    drop(names);
    Ok(item(list, number))
}

/// The place of a name among these.
pub fn index_of_name(names: &KeyIndex<&str>, name: &str) -> Option<usize>
    ensures place { result ≡ position (bytes_eq name.now) (texts names.now) }
    ensures within { IfSome result (λ i. i < length names.now) }
{
    names.place(&name)
}

/// Whether a name is one of these.
pub(crate) fn contains(names: &KeyIndex<&str>, name: &str) -> bool
    ensures { result ≡ is_among_names (texts names.now) name.now }
{
    index_of_name(names, name).is_some()
}
