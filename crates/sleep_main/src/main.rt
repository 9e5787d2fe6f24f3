//! Runs the machine of a machine file through system sleep and prints the log of every step. Its other
//! commands write and run machines that are made of a seed, lock names, count the entries of a log, and run
//! suspend-to-idle.
//!
//! Only `main` and the reading of the words are here; the rest is in `sleep_commands`. The stored run tries
//! `main`, `row_trials` the rest.
//!
//! Begin reading in `src/main.rt`.
#![tactic(auto)]

use program_ending::{Ending, say};
use sleep_base::{StdSink, StdSource};
use sleep_commands::run_words;
use sleep_run::OpenGate;
use std::alloc::{AllocError, Global};
use std::env;
use std::io::ErrorKind;
use std::process::ExitCode;

/// The words of the command line. Words that are no text count as none; an error is out of memory.
fn words_of(rt: &HostRuntime, alloc: Global) -> Result<Vec<String>, AllocError> {
    match env::args(rt) {
        Ok(args) => args.collect(alloc),
        Err(error) if error.kind() == ErrorKind::OutOfMemory => Err(AllocError),
        Err(_) => Ok(Vec::new(alloc)),
    }
}

/// Reads the words, runs their command and exits by its status.
fn main(rt: HostRuntime) -> ExitCode {
    let alloc = rt.alloc();
    let mut input = StdSource::input(&rt);
    let mut out = StdSink::output(&rt);
    let mut err = StdSink::error(&rt);
    let status = match words_of(&rt, alloc) {
        Ok(words) => run_words(
            &rt, alloc, &words, &mut input, &mut out, &mut err, &OpenGate,
        ),
        Err(_) => {
            say(&mut err, &Ending::NoMemory);
            Ending::NoMemory.status()
        }
    };
    ExitCode::from(status)
}
