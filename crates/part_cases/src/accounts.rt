//! The state of devices and of tasks: `devices FLAG ..` with what each device is, `tasks SCRIPTS MARKS`.

ghost use Rattle.std.specs.Bool.{OnTrue};
ghost use Rattle.sleep_state.specs.TaskStates.{PositionIsSmall, MarksAreSmall};

use crate::asked::{Words, found, number_of};
use crate::kinds::entry_of;
use crate::machines::DEVICE_FLAGS;
use crate::parts::CaseRunner;
use crate::reply::{CaseReply, Out, ReplyWord};
use bitflags::Flags;
use sleep_base::Mem;
use sleep_model::{Actor, Device, DeviceFlags, Kind, Name, ScriptPosition};
use sleep_state::{Devices, Tasks};
use std::alloc::Global;

/// A question about devices, or an entry.
#[derive(Clone, Copy)]
pub enum DeviceCall {
    Note,
    Callback,
    Failed,
    OwnError,
    AsksDirect,
    Suspended,
    ByDirect,
    ByLate,
}

/// The verb of each call.
pub const DEVICE_CALLS: [(&str, DeviceCall); 8] = [
    ("note", DeviceCall::Note),
    ("callback", DeviceCall::Callback),
    ("failed", DeviceCall::Failed),
    ("own_error", DeviceCall::OwnError),
    ("asks_direct", DeviceCall::AsksDirect),
    ("suspended", DeviceCall::Suspended),
    ("by_direct", DeviceCall::ByDirect),
    ("by_late", DeviceCall::ByLate),
];

impl CaseRunner<DeviceCall> for Devices {
    /// Answers a question about devices, or notes an entry.
    fn answer(&mut self, call: DeviceCall, rest: &str, out: &mut Out) -> CaseReply {
        let word = match call {
            DeviceCall::Note => {
                let (who, kind) = entry_of(rest, out);
                self.note(kind, who);
                return CaseReply::Nothing;
            }
            DeviceCall::Callback => ReplyWord::Flag(self.callback().is_some()),
            DeviceCall::Failed => ReplyWord::Error(self.failed()),
            DeviceCall::OwnError => ReplyWord::Error(self.own_error()),
            DeviceCall::AsksDirect => ReplyWord::Flag(self.asks_direct().is_set(number_of(rest))),
            DeviceCall::Suspended => ReplyWord::Flag(self.statuses().is_set(number_of(rest))),
            DeviceCall::ByDirect => ReplyWord::Flag(self.disabled_by_direct()),
            DeviceCall::ByLate => ReplyWord::Flag(self.disabled_by_late()),
        };
        CaseReply::One(word)
    }
}

/// The first state of devices with these flags.
pub fn devices_of(alloc: Global, text: &str) -> Result<Devices, Mem> {
    let name = Name::of_bytes(b"d").ok_or(Mem)?;
    let mut devices = Vec::new(alloc);
    for word in text.split(' ') {
        devices.push(Device {
            name,
            parent: None,
            flags: found(&DEVICE_FLAGS, word).unwrap_or(DeviceFlags::empty()),
        })?;
    }
    Devices::new(alloc, &devices)
}

/// A question about tasks, or an entry.
#[derive(Clone, Copy)]
pub enum TaskCall {
    Note,
    Position,
    Raised,
    AllExited,
    LeastEnd,
    AreStopped,
    NextSlept,
}

/// The verb of each call.
pub const TASK_CALLS: [(&str, TaskCall); 7] = [
    ("note", TaskCall::Note),
    ("seat", TaskCall::Position),
    ("raised", TaskCall::Raised),
    ("all_exited", TaskCall::AllExited),
    ("least_end", TaskCall::LeastEnd),
    ("are_still", TaskCall::AreStopped),
    ("next_slept", TaskCall::NextSlept),
];

/// How many steps and turns of a script are made, whether it waits, and what it read last.
fn position_reply(position: ScriptPosition) -> CaseReply {
    CaseReply::Four(
        ReplyWord::Size(position.done),
        ReplyWord::Size(position.turns),
        ReplyWord::Flag(position.waits),
        ReplyWord::Maybe(position.last_read),
    )
}

/// Whether few steps of a script are made.
fn is_small(tasks: &Tasks, who: Actor) -> bool
    ensures { OnTrue result (PositionIsSmall who tasks.now.positions) }
{
    match who {
        Actor::Script(script) => {
            let position = tasks.position(script);
            position.done < 99 && position.turns < 99
        }
        _ => true,
    }
}

/// Whether a mark that is raised was raised a few times.
fn is_few(tasks: &Tasks, kind: Kind) -> bool
    ensures { OnTrue result (MarksAreSmall kind tasks.now.marks) }
{
    match kind {
        Kind::Post(mark) => tasks.raised(mark) < 99,
        _ => true,
    }
}

/// Notes an entry of a text.
fn note(tasks: &mut Tasks, text: &str, out: &mut Out) -> CaseReply {
    let (who, kind) = entry_of(text, out);
    if !is_small(tasks, who) || !is_few(tasks, kind) {
        return out.lack();
    }
    tasks.note(who, kind);
    CaseReply::Nothing
}

impl CaseRunner<TaskCall> for Tasks {
    /// Answers a question about tasks, or notes an entry.
    fn answer(&mut self, call: TaskCall, rest: &str, out: &mut Out) -> CaseReply {
        let words = Words::of(rest);
        let word = match call {
            TaskCall::Note => return note(self, rest, out),
            TaskCall::Position => return position_reply(self.position(words.number(0))),
            TaskCall::Raised => ReplyWord::Number(self.raised(words.number(0))),
            TaskCall::AllExited => ReplyWord::Flag(self.all_exited()),
            TaskCall::LeastEnd => ReplyWord::MaybeLong(self.least_end()),
            TaskCall::AreStopped => ReplyWord::Flag(self.are_stopped(words.long(0))),
            TaskCall::NextSlept => {
                ReplyWord::Maybe(self.next_slept(words.maybe(0), words.long(1)))
            }
        };
        CaseReply::One(word)
    }
}
