//! The devices of a file, registered in turn: what is refused breaks the rules on their names and parents.

ghost use Rattle.std.specs.Prelude.{◌≡◌, ◌≤◌, [], All, None, Some, map, bytes_eq, codes, length, IfErr, IfOk, OnOk, position};
ghost use Rattle.borrowed_json.specs.View.{view};
ghost use Rattle.file_rules.specs.Broken.{broken_view};
ghost use Rattle.file_rules.specs.Devices.{bit, flags_of, whole_devices};
ghost use Rattle.file_rules.specs.Fitting.{HasDevices, HasShortName};
ghost use Rattle.file_rules.specs.ValidFiles.{broken_devices};
ghost use Rattle.file_rules.specs.Knows.{names};
ghost use Rattle.borrowed_json.specs.Look.{text_at, list_in};
ghost use Rattle.file_rules.specs.Names.{is_among_names};
ghost use Rattle.file_rules.specs.Places.{item_place};
ghost use Rattle.file_rules.specs.Registered.{AreRegistered, Stops, device_after, parent_after};
ghost use Rattle.file_rules.specs.Spelled.{index_among};
ghost use Rattle.file_rules.specs.Whole.{broken_at};

use crate::names::known::{index_of_name, named_in, repeated};
use crate::names::name_of_text;
use crate::rules::Broken;
use crate::value::place::{Member, Place, items};
use bitflags::Flags;
use borrowed_json::{Value, has_text, text_at, truth_at, word_at};
use device_tree::{Tree, TreeFault};
use key_index::KeyIndex;
use sleep_base::{Mem, drop_for_mem};
use sleep_model::{Device, DeviceFlags, Name, runtime_word};
use std::alloc::Global;
use std::marker::Model;

/// Devices that are registered in turn, each with a name of 1 to 32 bytes. Contracts see the list of the
/// devices.
#[derive(Drop)]
struct Registry {
    tree: Tree,
}

impl Model for Registry {
    ghost use Rattle.std.specs.Prelude.{List};
    ghost use Rattle.sleep_model.specs.declared.machine.Device.{Device};
    ghost use Rattle.file_rules.specs.Registered.{AreShort};

    ghost Value = { List Device };

    ghost view = { λ d. d.tree };

    ghost invariant = { λ d. AreShort d.tree };
}

impl Registry {
    ghost use Rattle.std.specs.Prelude.{◌≡◌, ◌++◌, ◌∷◌, [], bytes_eq, length, OnOk, position};
    ghost use Rattle.device_tree.specs.Refusal.{refusal, RefusesDevice};
    ghost use Rattle.file_rules.specs.Fitting.{IsShort};
    ghost use Rattle.file_rules.specs.Knows.{names};

    fn new(alloc: Global) -> Registry
        ensures { result ≡ [] }
    {
        let tree = Tree::new(alloc);
        Registry { tree }
    }

    fn register(&mut self, device: Device) -> Result<u32, TreeFault>
        requires { IsShort device.name }
        ensures refused { RefusesDevice result (refusal self.old device) }
        ensures ok { OnOk result (self.new ≡ self.old ++ device ∷ []) }
    {
        self.tree.register(device)
    }

    /// The number of the device of a name.
    fn find(&self, name: &str) -> Option<u32>
        ensures { result ≡ position (bytes_eq name.now) (names self.now) }
    {
        match Name::of_bytes(name.as_bytes()) {
            Some(name) => self.tree.find(&name),
            None => None,
        }
    }

    fn len(&self) -> u32
        ensures { result ≡ length self.now }
    {
        self.tree.len()
    }
}

/// The devices of a file, of which each is found by its name. Contracts see the list of the devices.
#[derive(Drop)]
pub struct NamedDevices<'v> {
    devices: Vec<Device>,
    numbers: KeyIndex<&'v str>,
}

impl<'v> Model for NamedDevices<'v> {
    ghost use Rattle.std.specs.Prelude.{◌≡◌, List};
    ghost use Rattle.sleep_model.specs.declared.machine.Device.{Device};
    ghost use Rattle.file_rules.specs.Registered.{AreNumbered};

    ghost Value = { List Device };

    ghost view = { λ d. d.devices.items };

    ghost invariant = { λ d. AreNumbered d.devices.items d.numbers };
}

impl<'v> NamedDevices<'v> {
    ghost use Rattle.std.specs.Prelude.{◌≡◌, bytes_eq, position};
    ghost use Rattle.file_rules.specs.Knows.{names};

    /// The number of the device of a name.
    pub fn find(&self, name: &str) -> Option<u32>
        ensures { result ≡ position (bytes_eq name.now) (names self.now) }
    {
        match index_of_name(&self.numbers, name) {
            Some(number) => Some(number as u32),
            None => None,
        }
    }

    /// The devices, in the order of their registration.
    pub fn all(&self) -> &[Device]
        ensures { result.now ≡ self.now }
    {
        self.devices.as_slice()
    }
}

/// Whether a name is that of a device.
pub(crate) fn is_device(devices: &NamedDevices, name: &str) -> bool
    ensures { result ≡ is_among_names (names devices.now) name.now }
{
    devices.find(name).is_some()
}

/// The number of the device that is named at a member, and 0 if it is none.
pub fn device_named(value: &Value<'_>, member: &str, devices: &NamedDevices) -> u32
    ensures { result ≡ index_among (names devices.now) (text_at member.now (view value.now)) }
{
    devices.find(text_at(value, member)).unwrap_or(0)
}

/// The number of a device's parent. If the parent is none of these devices, it is one that none of them has,
/// and the tree refuses it.
fn parent_of(device: &Value<'_>, devices: &Registry) -> Option<u32>
    ensures { result ≡ parent_after (names devices.now) (view device.now) }
{
    let parent = word_at(device, "parent")?;
    match devices.find(parent) {
        Some(number) => Some(number),
        None => Some(devices.len()),
    }
}

fn flag(set: bool, value: u8) -> u8
    ensures { result ≡ bit set value }
{
    if set { value } else { 0 }
}

/// What a file says of a device's driver.
fn flags_of(device: &Value<'_>) -> DeviceFlags
    ensures { result ≡ flags_of (view device.now) }
{
    let asynchronous = truth_at(device, "async").unwrap_or(false);
    let wakeup = truth_at(device, "wakeup").unwrap_or(false);
    let suspended = has_text(device, "runtime", runtime_word(true));
    DeviceFlags::from_bits_retain(flag(asynchronous, 1) + flag(wakeup, 2) + flag(suspended, 4))
}

/// A device as it is registered after these.
fn device_of(device: &Value<'_>, devices: &Registry) -> Device
    requires { HasShortName (view device.now) }
    ensures { result ≡ device_after (names devices.now) (view device.now) }
{
    Device {
        name: name_of_text(text_at(device, "name")),
        parent: parent_of(device, devices),
        flags: flags_of(device),
    }
}

/// Why the device of that number was not registered.
#[derive(Clone, Copy)]
struct Refused {
    number: usize,
    fault: TreeFault,
}

/// Registers these devices in turn, up to the first that is refused.
fn register_all(devices: &mut Registry, list: &[Value<'_>]) -> Result<(), Refused>
    requires empty { devices.old ≡ [] }
    requires few { length list.now ≤ 1000 }
    requires short { All HasShortName (map view list.now) }
    ensures registered { OnOk result (AreRegistered (map view list.now) devices.new) }
    ensures refused { IfErr result (λ r. Stops r.fault r.number (map view list.now)) }
{
    for (number, device) in list.iter().enumerate() {
        let device = device_of(device, devices);
        if let Err(fault) = devices.register(device) {
            return Err(Refused { number, fault });
        }
    }
    Ok(())
}

/// The device of that number breaks that rule.
fn at(rule: u8, number: usize) -> Broken
    ensures { broken_view result ≡ broken_at rule (item_place (codes "devices") number) }
{
    let place = Place::Item(Member::Devices, number);
    Broken { rule, place }
}

/// The rule that is broken if a device was refused: one whose parent is not registered leaves those after it
/// unasked for their names.
fn rule_broken(alloc: Global, tree: &Value<'_>, refused: Refused) -> Result<Broken, Mem>
    requires { Stops refused.fault refused.number (list_in (codes "devices") (view tree.now)) }
    ensures { IfOk result (λ b. broken_devices (view tree.now) ≡ Some (broken_view b)) }
{
    match refused.fault {
        TreeFault::NameTaken => Ok(at(8, refused.number)),
        TreeFault::NoParent => match repeated(alloc, tree, Member::Devices)? {
            Some(place) => Ok(Broken { rule: 8, place }),
            None => Ok(at(9, refused.number)),
        },
        TreeFault::Mem => Err(Mem),
        TreeFault::TooMany => unreachable!(),
    }
}

/// These devices of a file, with their names.
fn numbered<'v>(alloc: Global, tree: &Value<'v>, devices: Registry) -> Result<NamedDevices<'v>, Mem>
    requires devices { devices ≡ whole_devices (view tree.now) }
    requires few { length (list_in (codes "devices") (view tree.now)) ≤ 1000 }
    ensures { IfOk result (λ d. d ≡ whole_devices (view tree.now)) }
{
    let Ok(numbers) = named_in(alloc, tree, Member::Devices) else {
        return Err(drop_for_mem(devices));
    };
    let Registry { tree } = devices;
    Ok(NamedDevices {
        devices: tree.into_devices(),
        numbers,
    })
}

/// The devices of a file, or the first rule on their names and parents that is broken.
pub(crate) fn devices_in<'v>(
    alloc: Global,
    tree: &Value<'v>,
) -> Result<Result<NamedDevices<'v>, Broken>, Mem>
    requires { HasDevices (view tree.now) }
    ensures broken { IfOk result (λ r. IfErr r (λ b. broken_devices (view tree.now) ≡ Some (broken_view b))) }
    ensures unbroken { IfOk result (λ r. IfOk r (λ _. broken_devices (view tree.now) ≡ None)) }
    ensures devices { IfOk result (λ r. IfOk r (λ d. d ≡ whole_devices (view tree.now))) }
{
    let mut devices = Registry::new(alloc);
    match register_all(&mut devices, items(tree, Member::Devices)) {
        Ok(()) => Ok(Ok(numbered(alloc, tree, devices)?)),
        Err(refused) => {
            drop(devices);
            let broken = rule_broken(alloc, tree, refused)?;
            Ok(Err(broken))
        }
    }
}
