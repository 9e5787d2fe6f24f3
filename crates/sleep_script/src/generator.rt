//! Machines that are made of a seed.

ghost use Rattle.std.specs.Prelude.{◌≡◌, ◌==◌, ◌&&◌, ◌<◌, ◌≤◌, ◌+◌, ◌*◌, ◌/◌, ◌++◌, ℕ, IfOk, OnOk, codes, decimal, length, map, if◌then◌else◌};
ghost use Rattle.std.specs.List.{list_any, range_with_len};
ghost use Rattle.sleep_model.specs.Accepted.{IsAccepted};
ghost use Rattle.sleep_model.specs.Places.{places};
ghost use Rattle.sleep_script.specs.Generated.{drawn_parent, drawn_device, with_new_link, drawn_links, once, sleeper, drawn_event, line, after_links, generated};

use crate::draws::Draws;
use bitflags::Flags;
use sleep_base::Mem;
use sleep_model::{
    Device, DeviceFlags, Link, ListOf, Machine, Name, Op, Script, Step, TaskKind, Text,
};
use std::alloc::Global;

/// How many events the interrupt line makes.
const LINE_EVENTS: u32 = 4;

/// The name that a short text spells.
fn name(text: &str) -> Name
    requires some { 0 < length text.now }
    requires short { length text.now ≤ 32 }
    ensures { result ≡ text.now }
{
    match Name::of_bytes(text.as_bytes()) {
        Some(name) => name,
        None => unreachable!(),
    }
}

/// The parents of all devices, each an earlier one or none.
fn draw_parents(alloc: Global, draws: &mut Draws, count: u32) -> Result<Vec<Option<u32>>, Mem>
    requires first { draws.old.next ≡ 1 }
    requires some { 1 ≤ count }
    requires few { count ≤ 1000 }
    ensures parents { IfOk result
        (λ v. v.items ≡ map (drawn_parent draws.old.seed) (range_with_len 0 count)) }
    ensures next { OnOk result (draws.new ≡ record { seed = draws.old.seed; next = count }) }
{
    let mut parents = vec![in alloc; None]?;
    for device in 1..count {
        let parent = draws.draw(device + 1);
        parents.push((parent != device).then_some(parent))?;
    }
    Ok(parents)
}

/// A device without other flags than whether it is async.
fn device(alloc: Global, number: usize, parent: Option<u32>, is_async: bool) -> Result<Device, Mem>
    requires few { number < 1000 }
    ensures { IfOk result (λ d. d ≡ record {
      name = codes "d" ++ decimal number;
      parent = parent;
      flags = record { 0 = if is_async then 1 else 0 };
    }) }
{
    let flags = if is_async {
        DeviceFlags::ASYNC
    } else {
        DeviceFlags::empty()
    };
    Ok(Device {
        name: name(format!(in alloc; "d{number}")?.as_str()),
        parent,
        flags,
    })
}

/// So many devices: their parents are drawn first, then which of them are async.
fn draw_devices(alloc: Global, draws: &mut Draws, count: u32) -> Result<Vec<Device>, Mem>
    requires first { draws.old.next ≡ 1 }
    requires some { 1 ≤ count }
    requires few { count ≤ 1000 }
    ensures devices { IfOk result
        (λ v. v.items ≡ map (drawn_device draws.old.seed count) (range_with_len 0 count)) }
    ensures next { OnOk result (draws.new ≡ record { seed = draws.old.seed; next = 2 * count }) }
{
    let parents = draw_parents(alloc, draws, count)?;
    let mut devices = Vec::with_capacity(alloc, parents.len())?;
    for (number, parent) in parents.iter().enumerate() {
        let is_async = draws.draw(2) == 1;
        devices.push(device(alloc, number, *parent, is_async)?)?;
    }
    Ok(devices)
}

/// Whether a link of that supplier and that consumer is among these.
fn is_linked(links: &[Link], supplier: u32, consumer: u32) -> bool
    ensures { result ≡ list_any (λ l. l.supplier == supplier && l.consumer == consumer) links.now }
{
    links.iter().any(|link| link.supplier == supplier && link.consumer == consumer)
}

/// Puts a link from a lesser to a greater device after the others, if these have none.
fn add_link(links: &mut Vec<Link>, supplier: u32, consumer: u32) -> Result<(), Mem>
    ensures { OnOk result (links.new.items ≡ with_new_link supplier consumer links.old.items) }
{
    if supplier < consumer && !is_linked(links, supplier, consumer) {
        links.push(Link {
            supplier,
            consumer,
            active: true,
        })?;
    }
    Ok(())
}

/// Links from lesser to greater devices; a quarter of the devices' number is tried.
fn draw_links(alloc: Global, draws: &mut Draws, devices: u32) -> Result<Vec<Link>, Mem>
    requires next { draws.old.next ≡ 2 * devices }
    requires some { 1 ≤ devices }
    requires few { devices ≤ 1000 }
    ensures links { IfOk result
        (λ v. v.items ≡ drawn_links draws.old.seed devices (devices / 4)) }
    ensures next { OnOk result
        (draws.new ≡ record { seed = draws.old.seed; next = after_links devices }) }
{
    let mut links = Vec::new(alloc);
    for _ in 0..devices / 4 {
        let supplier = draws.draw(devices);
        let consumer = draws.draw(devices);
        add_link(&mut links, supplier, consumer)?;
    }
    Ok(links)
}

/// An operation that is made once.
fn once(op: Op) -> Step
    ensures { result ≡ once op }
{
    Step { op, times: 1 }
}

/// A task that sleeps four times if its save was ok.
fn sleeper(alloc: Global) -> Result<Script, Mem>
    ensures { IfOk result (λ s. s ≡ sleeper) }
{
    let text = Text::of_vec(Vec::from_slice(alloc, b"mem")?);
    let if_saved = true;
    let steps = vec![in alloc;
        once(Op::Read),
        once(Op::Save { count: None }),
        once(Op::State { text, if_saved }),
    ]?;
    Ok(Script {
        name: name("sleeper"),
        kind: TaskKind::User,
        repeat: 4,
        steps: ListOf::of_vec(steps),
    })
}

/// Puts a pause and an event after the others.
fn draw_event(draws: &mut Draws, steps: &mut Vec<Step>) -> Result<(), Mem>
    requires few { draws.old.next ≤ 4000 }
    ensures steps { OnOk result
        (steps.new.items ≡ steps.old.items ++ drawn_event draws.old.seed draws.old.next) }
    ensures next { OnOk result
        (draws.new ≡ record { seed = draws.old.seed; next = draws.old.next + 3 }) }
{
    let ms = 100 + draws.draw(900);
    steps.push(once(Op::Sleep { ms }))?;
    let source = draws.draw(3);
    let ms = 50 * draws.draw(2);
    let hard = false;
    steps.push(once(Op::Event { source, ms, hard }))?;
    Ok(())
}

/// An interrupt line with four events, each after a pause.
#[tactic(auto, using(crate::proofs::Drawn::more_events))]
fn draw_line(alloc: Global, draws: &mut Draws) -> Result<Script, Mem>
    requires few { draws.old.next ≤ 3000 }
    ensures { IfOk result (λ s. s ≡ line draws.old.seed draws.old.next) }
{
    let mut steps = Vec::with_capacity(alloc, 8)?;
    for _ in 0..LINE_EVENTS {
        draw_event(draws, &mut steps)?;
    }
    Ok(Script {
        name: name("line"),
        kind: TaskKind::Irq,
        repeat: 1,
        steps: ListOf::of_vec(steps),
    })
}

/// The machine of a seed with 1 to 1,000 devices. Each depends on an earlier one or none, some are async, and
/// a few links go from lesser to greater ones. A task sleeps four times, and an interrupt line makes four
/// events on three sources. `Mem` if there is no memory for it.
#[tactic(auto, using(crate::proofs::Generating::accepted, crate::proofs::Generating::few_places))]
pub fn generate(alloc: Global, seed: u64, devices: u32) -> Result<Machine, Mem>
    requires some { 1 ≤ devices }
    requires few { devices ≤ 1000 }
    ensures machine { IfOk result (λ m. m ≡ generated seed devices) }
    ensures accepted { IfOk result IsAccepted }
    ensures roomy { IfOk result (λ m. (s : ℕ) → places m s ≤ 16) }
{
    let mut draws = Draws::new(seed);
    let all_devices = draw_devices(alloc, &mut draws, devices)?;
    let links = draw_links(alloc, &mut draws, devices)?;
    let actors = vec![in alloc; sleeper(alloc)?, draw_line(alloc, &mut draws)?]?;
    let sources = vec![in alloc; name("s0"), name("s1"), name("s2")]?;
    Ok(Machine {
        alarm_ms: 1000,
        cpus: 1,
        auto_cycles: 16,
        devices: ListOf::of_vec(all_devices),
        links: ListOf::of_vec(links),
        syscore: ListOf::of_vec(Vec::new(alloc)),
        notifiers: ListOf::of_vec(Vec::new(alloc)),
        sources: ListOf::of_vec(sources),
        marks: ListOf::of_vec(Vec::new(alloc)),
        actors: ListOf::of_vec(actors),
        answers: ListOf::of_vec(Vec::new(alloc)),
    })
}
