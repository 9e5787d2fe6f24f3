//! The parts of the core: devices and their phases, and what else an attempt to sleep has.

use crate::accounts::{DEVICE_CALLS, TASK_CALLS, devices_of};
use crate::asked::{Words, number_of};
use crate::autosleeps::AUTOSLEEP_CALLS;
use crate::boards::{BOARD_CALLS, STATES, board_case};
use crate::freezers::freezers;
use crate::guards::guards;
use crate::links::{AT_ONCE_CALLS, AtOnce, LINK_CALLS, unlinked};
use crate::parts::{answer_all, answer_lines};
use crate::paths::PATH_CALLS;
use crate::phase_rows::{phase_rows, phase_twice};
use crate::platforms::{PLATFORM_CALLS, platform_of};
use crate::reply::Out;
use crate::syscores::SYSCORE_CALLS;
use crate::sysfs::SYSFS_CALLS;
use crate::tables::{FLAG_CALLS, ROW_CALLS, stacks};
use crate::trees::{requests, trees};
use autosleep_loop::Autosleep;
use device_rows::{Flags, Rows};
use sleep_state::{OpenAttempt, Tasks};
use std::alloc::Global;
use syscore_ops::Syscore;

/// Phases, devices, and the tables that they stand in.
#[derive(Clone, Copy)]
pub enum DevicePart {
    Phases,
    PhaseTwice,
    Rows,
    Stack,
    Flags,
    Links,
    AtOnce,
    Board,
    States,
    Tree,
    Requests,
}

/// Answers the lines of a part about devices.
pub fn answer_devices(mut alloc: Global, part: DevicePart, text: &str, lines: &str, out: &mut Out) {
    let count = number_of(text) as usize;
    match part {
        DevicePart::Phases => phase_rows(lines, out),
        DevicePart::PhaseTwice => phase_twice(text, lines, out),
        DevicePart::Rows => answer_all(Rows::with_rows(alloc, count), &ROW_CALLS, lines, out),
        DevicePart::Stack => stacks(alloc, lines, out),
        DevicePart::Flags => answer_all(Flags::new(alloc, count), &FLAG_CALLS, lines, out),
        DevicePart::Links => answer_all(unlinked(alloc, text), &LINK_CALLS, lines, out),
        DevicePart::AtOnce => {
            let case = AtOnce {
                alloc,
                parents: text,
                list: Vec::new(alloc),
            };
            answer_all(Ok(case), &AT_ONCE_CALLS, lines, out);
        }
        DevicePart::Board => answer_all(board_case(alloc, text), &BOARD_CALLS, lines, out),
        DevicePart::States => answer_lines(&mut alloc, &STATES, lines, out),
        DevicePart::Tree => trees(alloc, lines, out),
        DevicePart::Requests => requests(lines, out),
    }
}

/// What else an attempt to sleep has.
#[derive(Clone, Copy)]
pub enum CorePart {
    Guard,
    Syscore,
    Path,
    Tasks,
    Devices,
    Freezer,
    Platform,
    Autosleep,
    Sysfs,
}

/// Answers the lines of another part of the core.
pub fn answer_core(mut alloc: Global, part: CorePart, text: &str, lines: &str, out: &mut Out) {
    let words = Words::of(text);
    let (count, other) = (words.number(0), words.number(1) as usize);
    match part {
        CorePart::Guard => guards(text, lines, out),
        CorePart::Syscore => answer_all(Syscore::new(alloc, count), &SYSCORE_CALLS, lines, out),
        CorePart::Path => answer_lines(&mut OpenAttempt::new(), &PATH_CALLS, lines, out),
        CorePart::Tasks => {
            let tasks = Tasks::new(alloc, count as usize, other);
            answer_all(tasks, &TASK_CALLS, lines, out);
        }
        CorePart::Devices => answer_all(devices_of(alloc, text), &DEVICE_CALLS, lines, out),
        CorePart::Freezer => freezers(alloc, text, lines, out),
        CorePart::Platform => answer_all(platform_of(alloc, text), &PLATFORM_CALLS, lines, out),
        CorePart::Autosleep => {
            answer_lines(&mut Autosleep::new(), &AUTOSLEEP_CALLS, lines, out);
        }
        CorePart::Sysfs => answer_lines(&mut alloc, &SYSFS_CALLS, lines, out),
    }
}
