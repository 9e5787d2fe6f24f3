//! The account of a journal: the open attempt, the tasks, the devices, and the links between them.

ghost use Rattle.std.specs.Prelude.{◌≡◌, ◌∷◌, [], IfOk, OnOk, map};
ghost use Rattle.check_order.specs.Graphs.{with_links};
ghost use Rattle.check_sources.specs.Classes.{meant};
ghost use Rattle.sleep_model.specs.Accepted.{IsAccepted};
ghost use Rattle.sleep_model.specs.Links.{AreLinks};
ghost use Rattle.sleep_model.specs.Order.{links_at, parents_of, with_state};
ghost use Rattle.sleep_model.specs.EntryClasses.{is_in_journal, class_of};
ghost use Rattle.check_past.specs.JournalStates.{MayAdd, graph_after};

use check_account::{AttemptAccount, DeviceAccount, TaskAccount};
use check_order::DeviceGraph;
use check_sources::{EntryClass, class_of};
use sleep_base::{Mem, drop_for_mem};
use sleep_model::{Entry, Kind, Link, Machine};
use std::alloc::Global;

/// What the entries of a journal leave.
#[derive(Drop)]
pub(crate) struct JournalState {
    pub(crate) attempt: AttemptAccount,
    pub(crate) tasks: TaskAccount,
    pub(crate) devices: DeviceAccount,
    pub(crate) graph: DeviceGraph,
}

/// Adds a link that may be added, which few entries do. `Mem` if there is no memory for it.
#[cold]
#[inline(never)]
fn add_link(graph: &mut DeviceGraph, link: Link) -> Result<(), Mem>
    requires { AreLinks graph.old.parents (link ∷ graph.old.links) }
    ensures { OnOk result (graph.new ≡ with_links graph.old (link ∷ graph.old.links)) }
{
    graph.add_link(link)?;
    Ok(())
}

/// Gives the link between these two that state, which few entries do. `Mem` if there is no memory for it.
#[cold]
#[inline(never)]
fn set_link(graph: &mut DeviceGraph, supplier: u32, consumer: u32, active: bool) -> Result<(), Mem>
    ensures { OnOk result (graph.new ≡ with_links graph.old (map (with_state supplier consumer active) graph.old.links)) }
{
    graph.set_state(supplier, consumer, active)?;
    Ok(())
}

/// Moves the devices' parents and links by an entry, which adds no link that may not be added. `Mem` if there
/// is no memory for them.
fn move_graph(graph: &mut DeviceGraph, kind: Kind) -> Result<(), Mem>
    requires { MayAdd graph.old kind }
    ensures { OnOk result (graph.new ≡ graph_after kind graph.old) }
{
    match kind {
        Kind::LinkAdd {
            supplier,
            consumer,
            r: None,
        } => {
            let link = Link {
                supplier,
                consumer,
                active: true,
            };
            add_link(graph, link)?;
        }
        Kind::LinkState {
            supplier,
            consumer,
            active,
            r: None,
        } => set_link(graph, supplier, consumer, active)?,
        _ => {}
    }
    Ok(())
}

/// The parents of a machine's devices. `Mem` if there is no memory for the list.
fn parents_of(alloc: Global, machine: &Machine) -> Result<Vec<Option<u32>>, Mem>
    ensures { IfOk result (λ v. v.items ≡ parents_of machine.now.devices) }
{
    let devices = machine.devices.as_slice();
    let mut parents = Vec::new(alloc);
    for device in devices {
        parents.push(device.parent)?;
    }
    Ok(parents)
}

/// The devices' parents and the links that there are at first. `Mem` if there is no memory for them.
fn graph_of(alloc: Global, machine: &Machine) -> Result<DeviceGraph, Mem>
    requires { IsAccepted machine.now }
    ensures { IfOk result (λ t. t ≡ record { parents = parents_of machine.now.devices; links = links_at machine.now [] }) }
{
    let parents = parents_of(alloc, machine)?;
    DeviceGraph::new(alloc, &parents, machine.links.as_slice())
}

/// Whether an entry of that class is the journal's, or a jump of time.
fn is_class_in_journal(class: EntryClass) -> bool
    ensures { result ≡ is_in_journal (meant class) }
{
    match class {
        EntryClass::Journal | EntryClass::Jump => true,
        EntryClass::Note(..) | EntryClass::Step(..) => false,
    }
}

/// Whether an entry of that kind is the journal's, or a jump of time.
pub(crate) fn is_in_journal(kind: Kind) -> bool
    ensures { result ≡ is_in_journal (class_of kind) }
{
    is_class_in_journal(class_of(kind))
}

impl JournalState {
    ghost use Rattle.std.specs.Prelude.{◌≡◌, ◌<◌, ◌^◌, [], length, IfOk, OnOk};
    ghost use Rattle.sleep_model.specs.Accepted.{IsAccepted};
    ghost use Rattle.sleep_model.specs.EntryClasses.{is_in_journal, class_of};
    ghost use Rattle.check_past.specs.JournalStates.{MayAdd, journal_after, journal_if, state_of};

    /// Before the first entry, on a machine as files spell it. `Mem` if there is no memory for it.
    pub(crate) fn new(alloc: Global, machine: &Machine) -> Result<Self, Mem>
        requires { IsAccepted machine.now }
        ensures { IfOk result (λ p. p ≡ state_of machine.now []) }
    {
        let graph = graph_of(alloc, machine)?;
        let Ok(tasks) = TaskAccount::new(alloc, machine) else {
            return Err(drop_for_mem(graph));
        };
        let Ok(devices) = DeviceAccount::new(alloc, machine) else {
            return Err(drop_for_mem((graph, tasks)));
        };
        Ok(JournalState {
            attempt: AttemptAccount::new(),
            tasks,
            devices,
            graph,
        })
    }

    /// Passes one more entry of the journal. `Mem` if a counter has no room, or if there is no memory for a
    /// link.
    fn pass(&mut self, machine: &Machine, e: Entry) -> Result<(), Mem>
        requires all { length self.old.tasks.freezings ≡ length machine.now.actors }
        requires few { length machine.now.actors < 2 ^ 32 }
        requires link { MayAdd self.old.graph e.kind }
        ensures { OnOk result (self.new ≡ journal_after machine.now e self.old) }
    {
        self.attempt.pass(e)?;
        self.tasks.pass(machine.actors.as_slice(), e)?;
        self.devices.pass(e.kind);
        move_graph(&mut self.graph, e.kind)?;
        Ok(())
    }

    /// Passes one more entry, if it is the journal's. `Mem` if a counter has no room, or if there is no
    /// memory for a link.
    pub(crate) fn pass_if(&mut self, machine: &Machine, e: Entry) -> Result<(), Mem>
        requires all { length self.old.tasks.freezings ≡ length machine.now.actors }
        requires few { length machine.now.actors < 2 ^ 32 }
        requires link { MayAdd self.old.graph e.kind }
        ensures { OnOk result (self.new ≡ journal_if (is_in_journal (class_of e.kind)) machine.now e self.old) }
    {
        if is_in_journal(e.kind) {
            self.pass(machine, e)
        } else {
            Ok(())
        }
    }
}
