//! The links at a log's end.

ghost use Rattle.std.specs.Prelude.{◌≡◌, ◌++◌, ◌∷◌, [], map, IfOk, OnOk, List};
ghost use Rattle.indexmap.specs.IndexMap.{get};
ghost use Rattle.sleep_model.specs.declared.entry.Entry.{Entry};
ghost use Rattle.sleep_model.specs.Accepted.{IsAccepted};
ghost use Rattle.sleep_model.specs.Order.{parents_of};
ghost use Rattle.device_links.specs.Passes.{CanBeAdded};
ghost use Rattle.sleep_stats.specs.Linked.{added_after, added_ends, added_links, last_linked, last_links, with_last, with_one};
ghost use Rattle.sleep_stats.specs.States.{AreLast, AreMarked, AreSet};

use device_links::Links;
use indexmap::IndexMap;
use sleep_base::Mem;
use sleep_model::{Kind, Link, Log, Machine, parents_of};
use std::alloc::Global;

/// The ends of a link.
#[derive(Clone, Copy, PartialEq, Eq, Hash)]
pub struct Ends {
    pub supplier: u32,
    pub consumer: u32,
}

/// The ends of the link that an entry adds. `None` if it adds none.
pub fn added_ends(kind: Kind) -> Option<Ends>
    ensures { result ≡ added_ends kind }
{
    match kind {
        Kind::LinkAdd {
            supplier,
            consumer,
            r: None,
        } => Some(Ends { supplier, consumer }),
        _ => None,
    }
}

/// Links, the oldest first, and whether they are active by their ends, so that a link is found at once.
#[derive(Drop)]
struct LinkIndex {
    links: Vec<Link>,
    ends: IndexMap<Ends, bool>,
}

/// Puts a link after the others.
fn put_link(link_index: &mut LinkIndex, link: Link) -> Result<(), Mem>
    requires { AreMarked link_index.old.links.items (get ⟦<Ends as PartialEq>⟧.eq link_index.old.ends) }
    ensures links { OnOk result (link_index.new.links.items ≡ link_index.old.links.items ++ link ∷ []) }
    ensures marked { OnOk result (AreMarked link_index.new.links.items (get ⟦<Ends as PartialEq>⟧.eq link_index.new.ends)) }
{
    let Link {
        supplier,
        consumer,
        active,
    } = link;
    link_index.ends.insert(Ends { supplier, consumer }, active)?;
    link_index.links.push(link)?;
    Ok(())
}

/// Puts a link that is active after the others, unless there is one between these two.
fn add_link(link_index: &mut LinkIndex, supplier: u32, consumer: u32) -> Result<(), Mem>
    requires { AreMarked link_index.old.links.items (get ⟦<Ends as PartialEq>⟧.eq link_index.old.ends) }
    ensures links { OnOk result (link_index.new.links.items ≡ with_one link_index.old.links.items supplier consumer) }
    ensures marked { OnOk result (AreMarked link_index.new.links.items (get ⟦<Ends as PartialEq>⟧.eq link_index.new.ends)) }
{
    if link_index.ends.get(&Ends { supplier, consumer }).is_some() {
        return Ok(());
    }
    put_link(
        link_index,
        Link {
            supplier,
            consumer,
            active: true,
        },
    )
}

/// Takes an entry's part in the links.
fn note_link(link_index: &mut LinkIndex, kind: Kind) -> Result<(), Mem>
    requires { AreMarked link_index.old.links.items (get ⟦<Ends as PartialEq>⟧.eq link_index.old.ends) }
    ensures links { OnOk result (link_index.new.links.items ≡ added_after kind link_index.old.links.items) }
    ensures marked { OnOk result (AreMarked link_index.new.links.items (get ⟦<Ends as PartialEq>⟧.eq link_index.new.ends)) }
{
    match added_ends(kind) {
        Some(Ends { supplier, consumer }) => add_link(link_index, supplier, consumer),
        None => Ok(()),
    }
}

/// These links, the oldest first.
fn link_index_of(alloc: Global, links: &[Link]) -> Result<LinkIndex, Mem>
    ensures links { IfOk result (λ s. s.links.items ≡ links.now) }
    ensures marked { IfOk result (λ s. AreMarked s.links.items (get ⟦<Ends as PartialEq>⟧.eq s.ends)) }
{
    let mut link_index = LinkIndex {
        links: Vec::new(alloc),
        ends: IndexMap::new(alloc),
    };
    for link in links {
        put_link(&mut link_index, *link)?;
    }
    Ok(link_index)
}

/// The machine's links, and those that the log adds, each once, the oldest first.
fn added_links(alloc: Global, machine: &Machine, log: &Log) -> Result<Vec<Link>, Mem>
    ensures { IfOk result (λ v. v.items ≡ added_links machine.now log.now) }
{
    let mut link_index = link_index_of(alloc, machine.links.as_slice())?;
    let mut reader = log.entries.reader();
    while let Some(entry) = reader.next() {
        note_link(&mut link_index, entry.kind)?;
    }
    Ok(link_index.links)
}

/// Takes an entry's part in the states of links.
fn note_state(states: &mut IndexMap<Ends, bool>, kind: Kind) -> Result<(), Mem>
    ensures { OnOk result (AreSet (get ⟦<Ends as PartialEq>⟧.eq states.old) (get ⟦<Ends as PartialEq>⟧.eq states.new) kind) }
{
    if let Kind::LinkState {
        supplier,
        consumer,
        active,
        r: None,
    } = kind
    {
        states.insert(Ends { supplier, consumer }, active)?;
    }
    Ok(())
}

/// The states that a log sets of links, each the last.
fn last_states(alloc: Global, log: &Log) -> Result<IndexMap<Ends, bool>, Mem>
    ensures { IfOk result (λ m. AreLast log.now.entries (get ⟦<Ends as PartialEq>⟧.eq m)) }
{
    let mut states = IndexMap::new(alloc);
    let mut reader = log.entries.reader();
    while let Some(entry) = reader.next() {
        note_state(&mut states, entry.kind)?;
    }
    Ok(states)
}

/// A link in the state that was last set of it.
fn with_last(states: &IndexMap<Ends, bool>, link: Link) -> Link
    ensures { (entries : List Entry) → AreLast entries (get ⟦<Ends as PartialEq>⟧.eq states.now) → result ≡ with_last entries link }
{
    let Link {
        supplier,
        consumer,
        active,
    } = link;
    let last = states.get(&Ends { supplier, consumer });
    Link {
        supplier,
        consumer,
        active: last.copied().unwrap_or(active),
    }
}

/// These links, each in the state that was last set of it. `Mem` if there is no memory for the list.
fn in_last_states(
    alloc: Global,
    links: &[Link],
    states: &IndexMap<Ends, bool>,
) -> Result<Vec<Link>, Mem>
    ensures { (entries : List Entry) → AreLast entries (get ⟦<Ends as PartialEq>⟧.eq states.now)
        → IfOk result (λ v. v.items ≡ map (with_last entries) links.now) }
{
    let mut last = Vec::with_capacity(alloc, links.len())?;
    for link in links {
        last.push(with_last(states, *link))?;
    }
    Ok(last)
}

/// The links at a log's end, the oldest first.
fn last_links(alloc: Global, machine: &Machine, log: &Log) -> Result<Vec<Link>, Mem>
    ensures { IfOk result (λ v. v.items ≡ last_links machine.now log.now) }
{
    let added = added_links(alloc, machine, log)?;
    let states = last_states(alloc, log)?;
    let links = in_last_states(alloc, &added, &states)?;
    Ok(links)
}

/// The devices and the links at a log's end, with their order.
pub(crate) fn last_linked(alloc: Global, machine: &Machine, log: &Log) -> Result<Links, Mem>
    requires accepted { IsAccepted machine.now }
    requires stand { CanBeAdded (parents_of machine.now.devices) (added_links machine.now log.now) }
    ensures { IfOk result (λ l. l ≡ last_linked machine.now log.now) }
{
    let parents = parents_of(alloc, machine.devices.as_slice())?;
    let links = last_links(alloc, machine, log)?;
    match Links::with_links(alloc, &parents, &links)? {
        Some(links) => Ok(links),
        None => unreachable!(),
    }
}
