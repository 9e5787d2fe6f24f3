//! Machines that are made of a seed: `generated SEED DEVICES`.

use crate::asked::Words;
use crate::parts::CaseRunner;
use crate::reply::{CaseReply, Out, ReplyWord};
use crate::spelled::Said;
use sleep_base::Mem;
use sleep_model::{Device, DeviceFlags, Link, Machine, Op, Script, Step, TaskKind};
use sleep_script::generate;
use std::alloc::Global;

/// What is asked of a machine.
#[derive(Clone, Copy)]
pub enum MachineCall {
    Devices,
    Links,
    Tasks,
    Names,
    Counts,
}

/// The verb of each call.
pub const MACHINE_CALLS: [(&str, MachineCall); 5] = [
    ("devices", MachineCall::Devices),
    ("links", MachineCall::Links),
    ("tasks", MachineCall::Tasks),
    ("names", MachineCall::Names),
    ("counts", MachineCall::Counts),
];

/// Says what each device depends on, and whether it is asynchronous.
fn say_devices(devices: &[Device], out: &mut Out) {
    for device in devices {
        let is_async = device.flags == DeviceFlags::ASYNC;
        out.say(CaseReply::Two(ReplyWord::Maybe(device.parent), ReplyWord::Flag(is_async)));
    }
}

/// Says the ends of each link, and whether it is active.
fn say_links(links: &[Link], out: &mut Out) {
    for link in links {
        out.say(CaseReply::Three(
            ReplyWord::Number(link.supplier),
            ReplyWord::Number(link.consumer),
            ReplyWord::Flag(link.active),
        ));
    }
}

/// A step that is a pause, in ms, or an event: its source, its length in ms, and whether it is hard.
fn step_reply(step: &Step) -> CaseReply {
    match &step.op {
        Op::Sleep { ms } => { CaseReply::Two(ReplyWord::Said(Said::Sleep), ReplyWord::Number(*ms)) }
        Op::Event { source, ms, hard } => CaseReply::Four(
            ReplyWord::Said(Said::Event),
            ReplyWord::Number(*source),
            ReplyWord::Number(*ms),
            ReplyWord::Flag(*hard),
        ),
        _ => CaseReply::One(ReplyWord::Said(Said::Another)),
    }
}

/// Says the name of a task; its kind, how often its script is made and how many steps that has; and the steps
/// of a line.
fn say_task(script: &Script, out: &mut Out) {
    let steps = script.steps.as_slice();
    out.line(script.name.bytes());
    out.say(CaseReply::Three(
        ReplyWord::TaskKind(script.kind),
        ReplyWord::Number(script.repeat),
        ReplyWord::Size(steps.len()),
    ));
    if matches!(script.kind, TaskKind::Irq) {
        for step in steps {
            out.say(step_reply(step));
        }
    }
}

/// Says each task.
fn say_tasks(scripts: &[Script], out: &mut Out) {
    for script in scripts {
        say_task(script, out);
    }
}

/// Says the names of devices, then those of sources.
fn say_names(machine: &Machine, out: &mut Out) {
    for device in machine.devices.as_slice() {
        out.line(device.name.bytes());
    }
    for source in machine.sources.as_slice() {
        out.line(source.bytes());
    }
}

/// How many devices depend on no other, and how many are asynchronous.
fn roots_and_async(devices: &[Device]) -> (u32, u32) {
    let (mut roots, mut asynchronous) = (0u32, 0u32);
    for device in devices {
        roots = roots.saturating_add(u32::from(device.parent.is_none()));
        asynchronous = asynchronous.saturating_add(u32::from(device.flags == DeviceFlags::ASYNC));
    }
    (roots, asynchronous)
}

/// How many devices, devices without a parent, asynchronous ones and links a machine has.
fn counts_reply(devices: &[Device], links: usize) -> CaseReply {
    let (roots, asynchronous) = roots_and_async(devices);
    CaseReply::Four(
        ReplyWord::Size(devices.len()),
        ReplyWord::Number(roots),
        ReplyWord::Number(asynchronous),
        ReplyWord::Size(links),
    )
}

impl CaseRunner<MachineCall> for Machine {
    /// Answers a line about a machine.
    fn answer(&mut self, call: MachineCall, _rest: &str, out: &mut Out) -> CaseReply {
        let devices = self.devices.as_slice();
        match call {
            MachineCall::Devices => say_devices(devices, out),
            MachineCall::Links => say_links(self.links.as_slice(), out),
            MachineCall::Tasks => say_tasks(self.actors.as_slice(), out),
            MachineCall::Names => say_names(self, out),
            MachineCall::Counts => return counts_reply(devices, self.links.len()),
        }
        CaseReply::Nothing
    }
}

/// The machine of a seed with 1 to 1,000 devices.
pub fn generated(alloc: Global, words: Words) -> Result<Machine, Mem> {
    let devices = words.number(1);
    if !(1..=1000).contains(&devices) {
        return Err(Mem);
    }
    generate(alloc, words.long(0), devices)
}
