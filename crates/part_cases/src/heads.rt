//! The parts, by the first word of a head.

use crate::asked::{Words, cut, found};
use crate::core_parts::{CorePart, DevicePart, answer_core, answer_devices};
use crate::idles::{IDLE_CALLS, idle_log};
use crate::lock_texts::lock_lines;
use crate::other_parts::{OutsidePart, ScriptPart, answer_outside, answer_scripts};
use crate::parts::answer_all;
use crate::reply::Out;
use std::alloc::Global;
use std::sync::Wait;
use std::thread::Threads;

/// A part; the last two wait or start threads.
#[derive(Clone, Copy)]
enum Part {
    Devices(DevicePart),
    Core(CorePart),
    Outside(OutsidePart),
    Scripts(ScriptPart),
    LockLines,
    Idle,
}

/// Each part, by the first word of its head.
const PARTS: [(&str, Part); 34] = [
    ("phases", Part::Devices(DevicePart::Phases)),
    ("phase_twice", Part::Devices(DevicePart::PhaseTwice)),
    ("rows", Part::Devices(DevicePart::Rows)),
    ("stack", Part::Devices(DevicePart::Stack)),
    ("flags", Part::Devices(DevicePart::Flags)),
    ("links", Part::Devices(DevicePart::Links)),
    ("at_once", Part::Devices(DevicePart::AtOnce)),
    ("board", Part::Devices(DevicePart::Board)),
    ("stands", Part::Devices(DevicePart::States)),
    ("tree", Part::Devices(DevicePart::Tree)),
    ("requests", Part::Devices(DevicePart::Requests)),
    ("guard", Part::Core(CorePart::Guard)),
    ("syscore", Part::Core(CorePart::Syscore)),
    ("path", Part::Core(CorePart::Path)),
    ("tasks", Part::Core(CorePart::Tasks)),
    ("devices", Part::Core(CorePart::Devices)),
    ("freezer", Part::Core(CorePart::Freezer)),
    ("platform", Part::Core(CorePart::Platform)),
    ("autosleep", Part::Core(CorePart::Autosleep)),
    ("sysfs", Part::Core(CorePart::Sysfs)),
    ("source", Part::Outside(OutsidePart::Source)),
    ("sink", Part::Outside(OutsidePart::Sink)),
    ("whole", Part::Outside(OutsidePart::Whole)),
    ("plain", Part::Outside(OutsidePart::Plain)),
    ("json", Part::Outside(OutsidePart::Json)),
    ("value", Part::Outside(OutsidePart::Value)),
    ("answers", Part::Scripts(ScriptPart::Answers)),
    ("plan", Part::Scripts(ScriptPart::Plan)),
    ("generated", Part::Scripts(ScriptPart::Generated)),
    ("entries", Part::Scripts(ScriptPart::Entries)),
    ("counts", Part::Scripts(ScriptPart::Counts)),
    ("merge", Part::Scripts(ScriptPart::Merge)),
    ("lock_lines", Part::LockLines),
    ("idle", Part::Idle),
];

/// Answers the lines of the part that a head names.
pub fn answer_part<R: Threads + Wait + Sync>(
    rt: &R,
    alloc: Global,
    head: &str,
    lines: &str,
    out: &mut Out,
) {
    let (name, rest) = cut(head, ' ');
    match found(&PARTS, name) {
        Some(Part::Devices(part)) => answer_devices(alloc, part, rest, lines, out),
        Some(Part::Core(part)) => answer_core(alloc, part, rest, lines, out),
        Some(Part::Outside(part)) => answer_outside(alloc, part, rest, lines, out),
        Some(Part::Scripts(part)) => answer_scripts(alloc, part, rest, lines, out),
        Some(Part::LockLines) => lock_lines(rt, alloc, lines, out),
        Some(Part::Idle) => {
            answer_all(
                idle_log(rt, alloc, Words::of(rest)),
                &IDLE_CALLS,
                lines,
                out,
            );
        }
        None => {
            out.lack();
        }
    }
}
