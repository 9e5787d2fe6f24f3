//! The tree of devices: registration, and what is found in it.

ghost use Rattle.std.specs.Prelude.{◌≡◌, ◌<◌, IfSome, OnOk, length, slice_index, vec_len, vec_capacity};
ghost use Rattle.indexmap.specs.IndexSet.{spare};
ghost use Rattle.device_tree.specs.Refusal.{is_lost};
ghost use Rattle.device_rows.specs.Table.{with_number};

use crate::fault::TreeFault;
use device_rows::Rows;
use indexmap::IndexSet;
use sleep_base::Mem;
use sleep_model::{Device, Name};
use std::alloc::Global;
use std::marker::Model;

/// The most devices that a machine has.
const MOST_DEVICES: usize = 1000;

/// Devices in the order of their registration, each with the number of those before it
/// (`drivers/base/core.c`, `device_add`). Contracts see the list of the devices.
#[derive(Drop)]
pub struct Tree {
    devices: Vec<Device>,
    names: IndexSet<Name>,
    children: Rows,
}

impl Model for Tree {
    ghost use Rattle.std.specs.Prelude.{List};
    ghost use Rattle.sleep_model.specs.declared.machine.Device.{Device};

    ghost Value = { List Device };

    ghost use Rattle.device_tree.specs.Invariant.{TreeInvariant};

    ghost view = { λ t. t.devices.items };

    ghost invariant = { λ t. TreeInvariant t.devices.items t.names.keys t.children.rows };
}

impl Tree {
    ghost use Rattle.std.specs.Prelude.{◌≡◌, ◌++◌, ◌∷◌, [], ◌≤◌, ◌<◌, IfOk, OnOk, OnErr, length, slice_get, option_and_then};
    ghost use Rattle.sleep_model.specs.Order.{children_from, parents_of};
    ghost use Rattle.device_tree.specs.Refusal.{refusal, RefusesDevice, number_of_name};
    ghost use Rattle.device_tree.specs.Invariant.{IsTree};

    /// A tree without devices.
    pub fn new(alloc: Global) -> Tree
        ensures { result ≡ [] }
    {
        Tree {
            devices: Vec::new(alloc),
            names: IndexSet::new(alloc),
            children: Rows::new(alloc),
        }
    }

    /// Registers a device after the others, and gives its number.
    ///
    /// A full tree of 1,000 devices takes none (`TooMany`). Else a name that is taken is refused
    /// (`NameTaken`), and then a parent that is not registered (`NoParent`): each exactly then. `Mem` comes
    /// last, if it is out of memory. A refused device leaves no trace.
    pub fn register(&mut self, device: Device) -> Result<u32, TreeFault>
        ensures refused { RefusesDevice result (refusal self.old device) }
        ensures number { IfOk result (λ n. n ≡ length self.old) }
        ensures ok { OnOk result (self.new ≡ self.old ++ device ∷ []) }
        ensures err { OnErr result (self.new ≡ self.old) }
    {
        if let Some(fault) = self.refusal(&device) {
            return Err(fault);
        }
        let number = self.devices.len() as u32;
        make_room(
            &mut self.devices,
            &mut self.names,
            &mut self.children,
            device.parent,
        )?;
        self.children.add_row()?;
        add_child(&mut self.children, device.parent, number);
        match self.names.insert(device.name) {
            Ok(_) => (),
            Err(_) => unreachable!(),
        }
        match self.devices.push(device) {
            Ok(()) => Ok(number),
            Err(_) => unreachable!(),
        }
    }

    /// Why the device is not registered, but if it is out of memory.
    fn refusal(&self, device: &Device) -> Option<TreeFault>
        ensures { result ≡ refusal self.now device.now }
    {
        if self.devices.len() >= MOST_DEVICES {
            return Some(TreeFault::TooMany);
        }
        if self.names.contains(&device.name) {
            return Some(TreeFault::NameTaken);
        }
        if is_lost(self.devices.len(), device.parent) {
            return Some(TreeFault::NoParent);
        }
        None
    }

    /// The number of the device of this name. None exactly if there is none.
    pub fn find(&self, name: &Name) -> Option<u32>
        ensures { result ≡ number_of_name name.now self.now }
    {
        match self.names.get_index_of(name) {
            Some(place) => Some(place as u32),
            None => None,
        }
    }

    /// The number of a device's parent. None if it has none, or if there is no such device.
    pub fn parent(&self, device: u32) -> Option<u32>
        ensures { result ≡ option_and_then (λ d. d.parent) (slice_get self.now device) }
    {
        self.devices.get(device as usize)?.parent
    }

    /// The numbers of a device's children, in the order of their registration.
    pub fn children(&self, device: u32) -> &[u32]
        ensures { result.now ≡ children_from device 0 (parents_of self.now) }
    {
        self.children.row(device)
    }

    /// How many devices are registered, at most 1,000.
    pub fn len(&self) -> u32
        ensures count { result ≡ length self.now }
        ensures tree { IsTree self.now }
    {
        self.devices.len() as u32
    }

    /// The devices, in the order of their registration.
    pub fn devices(&self) -> &[Device]
        ensures devices { result.now ≡ self.now }
        ensures tree { IsTree self.now }
    {
        self.devices.as_slice()
    }

    /// The devices, in the order of their registration.
    pub fn into_devices(self) -> Vec<Device>
        ensures devices { result.items ≡ self }
        ensures tree { IsTree self }
    {
        let Tree {
            devices,
            names: _,
            children: _,
        } = self;
        devices
    }
}

/// Whether the parent is not among the first `count` devices.
fn is_lost(count: usize, parent: Option<u32>) -> bool
    ensures { result ≡ is_lost count parent }
{
    match parent {
        Some(parent) => parent as usize >= count,
        None => false,
    }
}

/// Room for one more device, and for one more child of its parent.
fn make_room(
    devices: &mut Vec<Device>,
    names: &mut IndexSet<Name>,
    children: &mut Rows,
    parent: Option<u32>,
) -> Result<(), Mem>
    requires { IfSome parent (λ p. p < length children.old.rows) }
    ensures devices { devices.new.items ≡ devices.old.items }
    ensures names { names.new.keys ≡ names.old.keys }
    ensures children { children.new.rows ≡ children.old.rows }
    ensures device { OnOk result (vec_len devices.new < vec_capacity devices.new) }
    ensures name { OnOk result (0 < spare names.new) }
    ensures child { OnOk result (IfSome parent (λ p. 0 < slice_index children.new.room p)) }
{
    devices.reserve(1)?;
    names.reserve(1)?;
    if let Some(parent) = parent {
        children.make_room(parent)?;
    }
    Ok(())
}

/// Puts the device at the end of its parent's children.
fn add_child(children: &mut Rows, parent: Option<u32>, device: u32)
    requires { IfSome parent (λ p. 0 < slice_index children.old.room p) }
    ensures { children.new.rows ≡ with_number children.old.rows parent device }
{
    if let Some(parent) = parent {
        children.push(parent, device);
    }
}
