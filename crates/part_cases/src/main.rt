//! Tries the parts of the core, of a run and of the program by cases. Each line of its input is a call of a
//! part, and each line of its output is what that call answers.
//!
//! Begin reading in `tools/worked/parts/`; `src/heads.rt`.
#![tactic(auto)]

mod accounts;
mod answers;
mod asked;
mod autosleeps;
mod boards;
mod boards_due;
mod core_parts;
mod entry_replies;
mod freezers;
mod generated;
mod guards;
mod heads;
mod idles;
mod kinds;
mod links;
mod lock_texts;
mod logs;
mod machines;
mod merges;
mod other_parts;
mod parts;
mod paths;
mod phase_rows;
mod plain;
mod plans;
mod platforms;
mod reply;
mod spelled;
mod streams;
mod syscores;
mod sysfs;
mod tables;
mod trees;
mod values;

use asked::cut;
use heads::answer_part;
use reply::Out;
use sleep_base::{StdSink, StdSource, read_all, write_all};
use std::alloc::Global;
use std::process::ExitCode;
use std::sync::Wait;
use std::thread::Threads;

/// The most bytes of the input.
const MOST: u32 = 1 << 24;

/// Answers the lines of all parts. An empty line ends a part.
fn answer_parts<R: Threads + Wait + Sync>(rt: &R, alloc: Global, text: &str, out: &mut Out) {
    for part in text.split("\n\n") {
        let (head, lines) = cut(part, '\n');
        out.line(head.as_bytes());
        answer_part(rt, alloc, head, lines, out);
        out.end();
    }
}

/// The answers to the input. Whether they could be written.
fn answer_input<R: Threads + Wait + Sync>(
    rt: &R,
    alloc: Global,
    input: &[u8],
    sink: &mut StdSink,
) -> bool {
    let Ok(text) = std::str::from_utf8(input) else {
        return false;
    };
    let mut out = Out::new(alloc);
    answer_parts(rt, alloc, text.trim_end(), &mut out);
    write_all(sink, out.bytes()).is_ok() && !out.is_short()
}

/// Whether a line can be written to standard error.
fn can_write(err: &mut StdSink) -> bool {
    write_all(err, b"to standard error\n").is_ok() && err.faults() == 0
}

/// Reads the input and writes the answers; the status says whether all was well.
fn main(rt: HostRuntime) -> ExitCode {
    let alloc = rt.alloc();
    let mut source = StdSource::input(&rt);
    let mut sink = StdSink::output(&rt);
    let is_answered = match read_all(alloc, &mut source, MOST) {
        Ok(input) => answer_input(&rt, alloc, &input, &mut sink),
        Err(_) => false,
    };
    if is_answered && source.faults() == 0 && can_write(&mut StdSink::error(&rt)) {
        ExitCode::SUCCESS
    } else {
        ExitCode::FAILURE
    }
}
