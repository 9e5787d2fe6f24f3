//! Rows of the whole program: what it answers to words and an input, over streams that behave as the row
//! says. Some rows call a library in its place: the readers and writers of machine files and logs, the core
//! over an event word that others move, a source's calls through its seat, and a burst of workers on threads.
//!
//! Standard input has the rows, a line and what belongs to it after another:
//!
//! - `words N`, and N lines: the words of the command line, the program's name first.
//! - `input N`, and N bytes with a newline after them: the next piece of the input. `repeat N` before it: the
//!   piece N times.
//! - `chunk N`: a read or a write takes N bytes at most. `write room N`: standard output takes N bytes in
//!   all.
//! - `read fails N`, `write fails N`, `error fails N`: the N-th call on the input, standard output or
//!   standard error fails.
//! - `gate N`: the workers pass the gate with the plan N of `src/plans.rt` of `trial_rows`.
//! - `row N`: the row is whole, and N is its number. The program runs.
//! - `sums N`, `lines N`, `steps N`: the same, and of its output only the length and the checksum are told,
//!   the number of lines and the last line, the numbers of lines that end in `hard` and in `wake`.
//! - `judged N`: the same, and then `check` judges the log. `rerun N`: the same, and then `run` runs the
//!   machine that it wrote; what is told is as after `lines`.
//! - `asks N`: the row is whole, and N is its number. The words are read only.
//! - `laws N`, `file N`, `text N` and the other words of `src/line.rt` of `trial_rows`: the row is whole, and N
//!   is its number. A library is called over the input.
//!
//! Standard output has a line for each row: its number, the status, how many bytes of the input were left and
//! how long both texts are. After the line come the two texts, and whether the gate's counters came to what
//! its plan says. Of words that are read only it says what they ask for, of a call of a library its number,
//! how long the text is that it gives, and the text. `tools/dev worked` writes the rows with what they must
//! give.
//!
//! Begin reading in `src/rows.rt`, `src/outcome.rt`, `src/formats.rt`; `stdin`, `stdout`.
#![tactic(auto)]

mod alone;
mod calls;
mod chains;
mod command;
mod first_burst;
mod formats;
mod moving;
mod outcome;
mod rows;
mod seats;
mod sent;

use rows::run_rows;
use sleep_base::{StdSink, StdSource, read_all};
use std::process::ExitCode;

/// Reads the rows, and runs each; the status says only whether all could be run.
fn main(rt: HostRuntime) -> ExitCode {
    let alloc = rt.alloc();
    let mut input = StdSource::input(&rt);
    let mut out = StdSink::output(&rt);
    match read_all(alloc, &mut input, u32::MAX) {
        Ok(rows) if run_rows(&rt, alloc, &rows, &mut out).is_ok() => ExitCode::SUCCESS,
        _ => ExitCode::FAILURE,
    }
}
