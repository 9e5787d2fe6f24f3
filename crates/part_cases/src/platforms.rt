//! Notifiers, processors and the platform: `platform CPUS PRIORITY ..` with the priority of each notifier.

use crate::asked::{Words, cut, found, number_of};
use crate::entry_replies::kind_reply;
use crate::machines::machine_with;
use crate::parts::CaseRunner;
use crate::reply::{CaseReply, Out, ReplyWord};
use platform_steps::Platform;
use sleep_base::Mem;
use sleep_model::{Machine, Name, Notifier, PlatDo, PlatPart, PlatUndo};
use std::alloc::Global;

/// A question what comes next, or a turn.
#[derive(Clone, Copy)]
pub enum PlatformCall {
    Called,
    Posted,
    CpuOff,
    CpuOn,
    Turn,
}

/// The verb of each call.
pub const PLATFORM_CALLS: [(&str, PlatformCall); 5] = [
    ("next_called", PlatformCall::Called),
    ("next_posted", PlatformCall::Posted),
    ("next_cpu_off", PlatformCall::CpuOff),
    ("next_cpu_on", PlatformCall::CpuOn),
    ("turn", PlatformCall::Turn),
];

/// What a turn does, for the first notifier or processor.
const STEPS: [(&str, PlatPart); 11] = [
    ("notify_prepare", PlatPart::NotifyPrepare(0)),
    ("notify_post", PlatPart::NotifyPost(0)),
    ("cpu_off", PlatPart::CpuOff(0)),
    ("cpu_on", PlatPart::CpuOn(0)),
    ("platform_begin", PlatPart::Do(PlatDo::Begin)),
    ("platform_prepare", PlatPart::Do(PlatDo::Prepare)),
    ("platform_prepare_late", PlatPart::Do(PlatDo::PrepareLate)),
    ("platform_recover", PlatPart::Undo(PlatUndo::Recover)),
    ("platform_wake", PlatPart::Undo(PlatUndo::Wake)),
    ("platform_finish", PlatPart::Undo(PlatUndo::Finish)),
    ("platform_end", PlatPart::Undo(PlatUndo::End)),
];

/// The same for that notifier or processor.
fn numbered(part: PlatPart, number: u32) -> PlatPart {
    match part {
        PlatPart::NotifyPrepare(_) => PlatPart::NotifyPrepare(number),
        PlatPart::NotifyPost(_) => PlatPart::NotifyPost(number),
        PlatPart::CpuOff(_) => PlatPart::CpuOff(number),
        PlatPart::CpuOn(_) => PlatPart::CpuOn(number),
        part => part,
    }
}

/// The entry of a turn: its part, the number, the answer, and whether a wakeup is pending.
fn turned(platform: &mut Platform, text: &str, out: &mut Out) -> CaseReply {
    let (name, rest) = cut(text, ' ');
    let words = Words::of(rest);
    match found(&STEPS, name) {
        Some(part) => {
            let part = numbered(part, words.number(0));
            kind_reply(platform.turn(part, words.error(1), words.flag(2)))
        }
        None => out.lack(),
    }
}

impl CaseRunner<PlatformCall> for Platform {
    /// Answers what is next of the platform, or makes a turn of it.
    fn answer(&mut self, call: PlatformCall, rest: &str, out: &mut Out) -> CaseReply {
        let next = match call {
            PlatformCall::Called => self.next_notified(),
            PlatformCall::Posted => self.next_post_notified(),
            PlatformCall::CpuOff => self.next_cpu_off(),
            PlatformCall::CpuOn => self.next_cpu_on(),
            PlatformCall::Turn => return turned(self, rest, out),
        };
        CaseReply::One(ReplyWord::Maybe(next))
    }
}

/// Notifiers of these priorities.
fn notifiers_of(alloc: Global, text: &str) -> Result<Vec<Notifier>, Mem> {
    let name = Name::of_bytes(b"n").ok_or(Mem)?;
    let mut notifiers = Vec::new(alloc);
    for word in text.split(' ') {
        if let Ok(priority) = word.parse::<i32>() {
            notifiers.push(Notifier { name, priority })?;
        }
    }
    Ok(notifiers)
}

/// The platform of a machine of few notifiers.
fn few_notified(alloc: Global, machine: &Machine) -> Result<Platform, Mem> {
    if machine.notifiers.len() > 9 {
        return Err(Mem);
    }
    Platform::new(alloc, machine)
}

/// The platform of so many processors, with notifiers of these priorities.
pub fn platform_of(alloc: Global, text: &str) -> Result<Platform, Mem> {
    let (cpus, priorities) = cut(text, ' ');
    let notifiers = notifiers_of(alloc, priorities)?;
    let machine = machine_with(alloc, number_of(cpus), notifiers);
    let platform = few_notified(alloc, &machine);
    drop(machine);
    platform
}
